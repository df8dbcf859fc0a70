//! Why free lists were not put in another form.

ghost use Rattle.std.specs.Prelude.{◌≡◌};

use spe_disk::Failed;
use std::alloc::{AllocError, AllocFailed};
use thiserror::Error;

/// Why free lists were not put in another form.
#[derive(Clone, Copy, Debug, PartialEq, Eq, Error)]
pub enum ConvertFault {
    /// The disk failed.
    #[error("the disk failed")]
    Disk,
    /// The pages that are to be added would take the file past 2^30 bytes; it has this many pages.
    #[error("the database has {pages} pages, and no room for more")]
    Full { pages: u32 },
    /// The free lists are in server form.
    #[error("the free lists are in server form")]
    Prepared,
    /// The free lists are damaged at this page.
    #[error("the free lists are damaged at page {page}")]
    Corrupt { page: u32 },
    /// There was no memory.
    #[error("out of memory")]
    Memory,
}

impl From<Failed> for ConvertFault {
    ghost use Rattle.spe_convert.specs.declared.fault.ConvertFault.TheVariants.{Disk};

    ghost from_gives = { λ _ f. f ≡ Disk };

    fn from(_: Failed) -> ConvertFault {
        ConvertFault::Disk
    }
}

impl From<AllocError> for ConvertFault {
    ghost use Rattle.spe_convert.specs.declared.fault.ConvertFault.TheVariants.{Memory};

    ghost from_gives = { λ _ f. f ≡ Memory };

    fn from(_: AllocError) -> ConvertFault {
        ConvertFault::Memory
    }
}

impl<T: Drop> From<AllocFailed<T>> for ConvertFault {
    ghost use Rattle.spe_convert.specs.declared.fault.ConvertFault.TheVariants.{Memory};

    ghost from_gives = { λ _ f. f ≡ Memory };

    fn from(_: AllocFailed<T>) -> ConvertFault {
        ConvertFault::Memory
    }
}
