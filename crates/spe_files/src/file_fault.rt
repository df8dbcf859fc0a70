//! What the system refused.

use std::alloc::AllocError;
use std::io;
use thiserror::Error;

/// Why a call on the files of a database failed.
#[derive(Clone, Copy, Debug, PartialEq, Eq, Error)]
pub enum FileFault {
    /// What stands in the place of the folder of journals is neither a folder nor a cold journal.
    #[error("another program's journal, which may be hot: let sqlite3 finish it and put the journal mode to DELETE, by 'PRAGMA journal_mode = PERSIST; PRAGMA journal_mode = DELETE'")]
    StockJournal,
    /// The database is no plain file.
    #[error("a database is a plain file, and this is none")]
    NotPlain,
    /// The system does not permit it.
    #[error("there is no permission to open, read or write it or a journal of it")]
    NoPermission,
    /// There was no memory for a path.
    #[error("there was no memory for its path")]
    Memory,
    /// The system refused it for another reason.
    #[error("it or a journal of it could not be opened, read, written or cut")]
    Refused,
}

impl From<AllocError> for FileFault {
    fn from(_error: AllocError) -> FileFault {
        FileFault::Memory
    }
}

impl From<io::Error> for FileFault {
    fn from(error: io::Error) -> FileFault {
        match error.kind() {
            io::ErrorKind::PermissionDenied => FileFault::NoPermission,
            io::ErrorKind::OutOfMemory => FileFault::Memory,
            _ => FileFault::Refused,
        }
    }
}
