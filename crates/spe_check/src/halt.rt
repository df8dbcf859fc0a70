//! Why a walk over the pages of a file halts.

use spe_space::SpaceFault;
use std::alloc::{AllocError, AllocFailed};

/// Why a walk halts.
#[derive(Clone, Copy, Debug, PartialEq, Eq)]
pub enum Halt {
    /// This page breaks a rule, by the rule's number.
    Broken { page: u32, rule: u8 },
    /// The space refused.
    Space(SpaceFault),
}

impl From<AllocError> for Halt {
    ghost use Rattle.std.specs.Prelude.{◌≡◌};
    ghost use Rattle.spe_space.specs.declared.fault.SpaceFault.TheVariants.{Memory};
    ghost use Rattle.spe_check.specs.declared.halt.Halt.TheVariants.{Space};

    ghost from_gives = { λ _ e. e ≡ Space Memory };

    fn from(_: AllocError) -> Halt {
        Halt::Space(SpaceFault::Memory)
    }
}

impl<T: Drop> From<AllocFailed<T>> for Halt {
    ghost use Rattle.std.specs.Prelude.{◌≡◌};
    ghost use Rattle.spe_space.specs.declared.fault.SpaceFault.TheVariants.{Memory};
    ghost use Rattle.spe_check.specs.declared.halt.Halt.TheVariants.{Space};

    ghost from_gives = { λ _ e. e ≡ Space Memory };

    fn from(_: AllocFailed<T>) -> Halt {
        Halt::Space(SpaceFault::Memory)
    }
}

impl From<SpaceFault> for Halt {
    ghost use Rattle.std.specs.Prelude.{◌≡◌};
    ghost use Rattle.spe_check.specs.declared.halt.Halt.TheVariants.{Space};

    ghost from_gives = { λ f e. e ≡ Space f };

    fn from(fault: SpaceFault) -> Halt {
        Halt::Space(fault)
    }
}
