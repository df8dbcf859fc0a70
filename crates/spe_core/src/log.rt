//! What was committed, which only proofs read.

ghost use Rattle.std.specs.Prelude.{◌≡◌, List, [], ◌∷◌, ◌++◌};
ghost use Rattle.spe_core.specs.State.{Committed};

use crate::live::Live;
use std::marker::Model;

/// The committed transactions: what each read and wrote. It takes no memory, and its functions do
/// nothing when they run.
#[derive(Drop)]
pub struct Log {
    pub ghost commits: { List Committed },
}

impl Model for Log {
    ghost use base.Fml.{ftrue};

    ghost also_owns = { λ _. ftrue };
}

impl Log {
    /// Nothing was committed.
    pub fn new() -> Log
        ensures { result.commits ≡ [] }
    {
        Log {}
    }

    /// A transaction was committed, too.
    pub fn with(&self, _t: &Live) -> Log
        ensures { result.commits ≡ self.now.commits ++ record { seen = _t.now.seen; written = _t.now.written } ∷ [] }
    {
        Log {}
    }
}
