//! Why there is no answer.

ghost use Rattle.std.specs.Prelude.{◌≡◌};

use spe_model::{SqlFault, SqlKind};
use std::alloc::{AllocError, AllocFailed};

/// Why a text declares nothing.
#[derive(Clone, Copy, Debug)]
pub enum Miss {
    /// The text is not in the grammar of definitions.
    Unknown,
    /// There was no memory.
    Memory,
}

impl From<AllocError> for Miss {
    ghost use Rattle.spe_catalog.specs.declared.miss.Miss.TheVariants.{Memory};

    ghost from_gives = { λ _ m. m ≡ Memory };

    fn from(_: AllocError) -> Miss {
        Miss::Memory
    }
}

impl<T: Drop> From<AllocFailed<T>> for Miss {
    ghost use Rattle.spe_catalog.specs.declared.miss.Miss.TheVariants.{Memory};

    ghost from_gives = { λ _ m. m ≡ Memory };

    fn from(_: AllocFailed<T>) -> Miss {
        Miss::Memory
    }
}

impl From<SqlFault> for Miss {
    ghost use Rattle.spe_catalog.specs.Miss.{of_sql};

    ghost from_gives = { λ f m. m ≡ of_sql f.kind };

    fn from(fault: SqlFault) -> Miss {
        match fault.kind {
            SqlKind::Memory => Miss::Memory,
            _ => Miss::Unknown,
        }
    }
}
