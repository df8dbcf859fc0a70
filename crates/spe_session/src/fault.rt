//! Why a transaction was not committed.

ghost use Rattle.std.specs.Prelude.{◌≡◌};
ghost use Rattle.spe_session.specs.Working.{end_fault};

use spe_store::StoreFault;
use thiserror::Error;

/// Why a transaction was not committed.
#[derive(Clone, Copy, Debug, PartialEq, Eq, Error)]
pub enum EndFault {
    /// The disk failed in a reading.
    #[error("the disk failed in a reading")]
    Read,
    /// The operation of this number failed, and the store has stopped.
    #[error("operation {op} on the disk failed")]
    Stopped { op: u64 },
    /// There is no memory left.
    #[error("out of memory")]
    Memory,
}

// A fault of the store as one of an end. No page is asked for that there is not.
pub(crate) fn end_fault(fault: StoreFault) -> EndFault
    ensures { result ≡ end_fault fault }
{
    match fault {
        StoreFault::ReadFault => EndFault::Read,
        StoreFault::Stopped { op } => EndFault::Stopped { op },
        StoreFault::PageOut { .. } | StoreFault::Memory => EndFault::Memory,
    }
}

/// A transaction was not committed.
#[derive(Clone, Copy, Debug, PartialEq, Eq, Error)]
#[error("the transaction was not committed: {why}")]
pub struct EndFailed {
    /// How many commits there are.
    pub number: u64,
    /// Why it was not committed.
    pub why: EndFault,
}
