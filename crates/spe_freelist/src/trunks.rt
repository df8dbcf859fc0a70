//! First trunks.

ghost use Rattle.std.specs.Prelude.{◌≡◌};

use std::marker::Model;

/// The numbers of the first trunks of free lists, in the order of the lists, seen as a list.
#[derive(Debug, Drop)]
pub struct Trunks {
    inner: Vec<u32>,
}

impl Model for Trunks {
    ghost use Rattle.std.specs.Prelude.{ℕ, List};

    ghost Value = { List ℕ };

    ghost view = { λ t. t.inner.items };
}

impl Trunks {
    /// These trunks.
    pub fn new(inner: Vec<u32>) -> Trunks
        ensures { result ≡ inner.items }
    {
        Trunks { inner }
    }

    /// The trunks as a slice.
    pub fn as_slice(&self) -> &[u32]
        ensures { result.now ≡ self.now }
    {
        self.inner.as_slice()
    }
}
