//! Why a call of the store answers an error.

use thiserror::Error;

/// Why a call of the store answers an error. Once the store has stopped, each call that can fail answers
/// `Stopped` with the same operation, before all else.
#[derive(Clone, Copy, Debug, PartialEq, Eq, Error)]
pub enum StoreFault {
    /// The disk failed in a reading of this call.
    #[error("the disk failed in a reading")]
    ReadFault,
    /// The operation of this number failed, in this call or in an earlier one.
    #[error("operation {op} on the disk failed")]
    Stopped { op: u64 },
    /// The page is not one of the transaction's, of which there are so many.
    #[error("page {page} is not one of {pages}")]
    PageOut { page: u32, pages: u32 },
    /// There is no memory left.
    #[error("out of memory")]
    Memory,
}

/// Why no pass was begun.
#[derive(Clone, Copy, Debug, PartialEq, Eq, Error)]
pub enum BeginFault {
    /// The operation of this number failed, and the store has stopped.
    #[error("operation {op} on the disk failed")]
    Stopped { op: u64 },
    /// No id is free.
    #[error("sixteen transactions that may write are at work")]
    Sixteen,
    /// There is no memory left.
    #[error("out of memory")]
    Memory,
}

/// The operation of this number failed, in this call or in an earlier one.
#[derive(Clone, Copy, Drop)]
pub(crate) struct Stop {
    pub(crate) op: u64,
}

/// Why a record of a page was not made.
#[derive(Clone, Copy, Drop)]
pub(crate) enum Mishap {
    Reading,
    Memory,
}
