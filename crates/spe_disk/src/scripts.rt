//! Scripts by name.

ghost use Rattle.std.specs.Prelude.{◌≡◌, List, ℕ, Option};
ghost use Rattle.spe_disk.specs.Scripts.{Texts, ReadsText, CountsScriptFault};

use std::alloc::{AllocError, Global};
use thiserror::Error;

/// Why a script is not read.
#[derive(Debug, Drop, Error)]
pub enum ScriptFault {
    /// The outside has failed.
    #[error("the script could not be read")]
    Failed,
    /// There was no memory for the text.
    #[error("out of memory")]
    Memory(#[source] AllocError),
}

impl From<AllocError> for ScriptFault {
    ghost use Rattle.std.specs.Prelude.{◌≡◌};
    ghost use Rattle.spe_disk.specs.declared.scripts.ScriptFault.TheVariants as faults;

    ghost from_gives = { λ e fault. fault ≡ faults.Memory e };

    fn from(error: AllocError) -> ScriptFault {
        ScriptFault::Memory(error)
    }
}

/// Texts by name, as the files that a command line names.
pub trait Scripts {
    /// The text of each name, where they are told.
    ghost texts: { Self → Option Texts };

    /// How often a reading has failed, up to the greatest number of its type.
    ghost faults: { Self → ℕ };

    /// The whole text of a name, or `None` exactly where there is none.
    fn read(&mut self, alloc: Global, name: &str) -> Result<Option<Vec<u8>>, ScriptFault>
        ensures text { ReadsText (texts self.old) name.now result }
        ensures same { texts self.new ≡ texts self.old }
        ensures counts { CountsScriptFault (faults self.old) (faults self.new) result };
}
