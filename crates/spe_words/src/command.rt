//! The commands of the program, and what may be wrong with words.

ghost use Rattle.std.specs.Prelude.{◌≡◌};
ghost use Rattle.spe_words.specs.declared.command.WordsFault.TheVariants.{Memory};

use spe_model::{Names, Text};
use std::alloc::{AllocError, AllocFailed};
use thiserror::Error;

/// A command with what it was given. `db` is the path of a database file.
#[derive(Debug, Drop)]
pub enum Command {
    /// The rows of a table.
    Rows {
        /// The database.
        db: Text,
        /// The table's name.
        table: Text,
    },
    /// A verdict on a database.
    Check {
        /// The database.
        db: Text,
    },
    /// Free lists in server form.
    Prepare {
        /// The database.
        db: Text,
        /// How many free lists there are to be, from 1 to 16.
        lists: u32,
    },
    /// Free lists in SQLite's own form.
    Release {
        /// The database.
        db: Text,
    },
    /// Scripts, each run as a client.
    Run {
        /// The database.
        db: Text,
        /// The names of the scripts, 1 to 64.
        scripts: Names,
        /// How many threads run the clients, from 1 to 16.
        workers: u32,
        /// How often a lock that is taken is asked for again, at most 1000000 times.
        retries: u32,
        /// The number of lock words, a power of two from 16 to 262144.
        slots: u32,
    },
    /// Four generated clients.
    Work {
        /// The database.
        db: Text,
        /// What the clients are generated from.
        seed: u32,
        /// How many transactions each client has, from 1 to 100000.
        count: u32,
    },
}

/// Why words give no command.
#[derive(Clone, Copy, Debug, PartialEq, Eq, Error)]
pub enum WordsFault {
    /// They ask for no command.
    #[error("these words are no command")]
    Words,
    /// There was no memory.
    #[error("out of memory")]
    Memory,
}

impl From<AllocError> for WordsFault {
    ghost from_gives = { λ _ e. e ≡ Memory };

    fn from(_error: AllocError) -> WordsFault {
        WordsFault::Memory
    }
}

impl<T: Drop> From<AllocFailed<T>> for WordsFault {
    ghost from_gives = { λ _ e. e ≡ Memory };

    fn from(_error: AllocFailed<T>) -> WordsFault {
        WordsFault::Memory
    }
}
