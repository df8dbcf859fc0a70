//! What a commit leaves.

ghost use Rattle.std.specs.Prelude.{◌≡◌};

use crate::live::Live;
use crate::log::Log;
use crate::parts::one_more;
use spe_model::Bytes;
use std::alloc::AllocError;
use std::marker::Model;

/// The committed transactions, of which only the number is held.
#[derive(Drop)]
pub struct Commits {
    count: u64,
    log: Log,
}

impl Model for Commits {
    ghost use Rattle.std.specs.Prelude.{◌≡◌, List, length};
    ghost use Rattle.spe_core.specs.State.{Committed};

    ghost Value = { List Committed };

    ghost view = { λ c. c.log.commits };

    ghost invariant = { λ c. c.count ≡ length c.log.commits };
}

impl Commits {
    ghost use Rattle.std.specs.Prelude.{◌≡◌, [], ◌∷◌, ◌++◌, length, OnOk, OnErr};

    /// None.
    pub fn new() -> Commits
        ensures { result ≡ [] }
    {
        Commits {
            count: 0,
            log: Log::new(),
        }
    }

    /// How many there are.
    pub fn len(&self) -> u64
        ensures { result ≡ length self.now }
    {
        self.count
    }

    /// Adds a transaction that commits.
    pub fn push(&mut self, t: &Live) -> Result<(), AllocError>
        ensures ok { OnOk result (self.new ≡ self.old ++ record { seen = t.now.seen; written = t.now.written } ∷ []) }
        ensures err { OnErr result (self.new ≡ self.old) }
    {
        let count = one_more(self.count)?;
        self.log = self.log.with(t);
        self.count = count;
        Ok(())
    }
}

/// The bytes that a page had before the commit of a number.
#[derive(Drop)]
pub struct Image {
    pub page: u32,
    pub stamp: u64,
    pub bytes: Bytes,
}

impl Model for Image {
    ghost use Rattle.spe_core.specs.State.{Image as State};

    ghost Value = { State };

    ghost view = { λ i. record { page = i.page; stamp = i.stamp; bytes = i.bytes } };
}
