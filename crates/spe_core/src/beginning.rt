//! The bytes with which a core began, which only proofs read.

ghost use Rattle.std.specs.Prelude.{◌≡◌, ℕ, List};

use spe_model::Bytes;
use std::marker::Model;

/// The bytes with which a core began. It takes no memory, and its one function does nothing when it
/// runs.
#[derive(Drop)]
pub struct Beginning {
    pub ghost bytes: { List ℕ },
}

impl Model for Beginning {
    ghost use base.Fml.{ftrue};

    ghost also_owns = { λ _. ftrue };
}

impl Beginning {
    /// A core began with these bytes.
    pub fn of(_bytes: &Bytes) -> Beginning
        ensures { result.bytes ≡ _bytes.now }
    {
        Beginning {}
    }
}
