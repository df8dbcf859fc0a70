//! What a transaction that may write holds.

use crate::story::Story;
use std::marker::Model;

/// How many transactions that may write there are at most, so many ids and journals.
pub const IDS: usize = 16;

/// An id, with which one transaction works until it has finished.
///
/// To proofs it lists what that transaction has read, journalled and written: no call with another pass
/// changes it.
#[derive(Drop)]
pub struct Pass {
    pub(crate) id: u8,
    pub(crate) story: Story,
}

impl Model for Pass {
    ghost use Rattle.std.specs.Prelude.{◌<◌};
    ghost use Rattle.spe_store.specs.Pass.{Pass};

    ghost Value = { Pass };

    ghost view = { λ p. record { id = p.id; done = p.story.events } };

    ghost invariant = { λ p. p.id < 16 };
}

/// An id whose transaction has finished.
#[derive(Drop)]
pub struct IdSeat {
    pub(crate) id: u8,
}

impl Model for IdSeat {
    ghost use Rattle.std.specs.Prelude.{◌<◌, ℕ};

    ghost Value = { ℕ };

    ghost view = { λ s. s.id };

    ghost invariant = { λ s. s.id < 16 };
}

impl Pass {
    ghost use Rattle.std.specs.Prelude.{◌≡◌, ◌<◌};

    /// Its id, from 0 to 15.
    pub fn id(&self) -> u8
        ensures id { result ≡ self.now.id }
        ensures low { result < 16 }
    {
        self.id
    }
}
