//! Pages as they are to be.

ghost use Rattle.std.specs.Prelude.{◌≡◌};

use spe_model::Bytes;
use std::marker::Model;

/// A page as it is to be.
#[derive(Debug, Drop)]
pub struct Change {
    /// The number of the page, from 1 on.
    pub page: u32,
    /// All its bytes, one page size of them.
    pub bytes: Bytes,
}

/// Changed pages, seen as a list.
#[derive(Debug, Drop)]
pub struct Changes {
    inner: Vec<Change>,
}

impl Model for Changes {
    ghost use Rattle.std.specs.Prelude.{List};
    ghost use Rattle.spe_rewrite.specs.declared.change.Change.{Change};

    ghost Value = { List Change };

    ghost view = { λ t. t.inner.items };
}

impl Changes {
    ghost use Rattle.std.specs.Prelude.{◌≡◌};

    /// These changed pages.
    pub fn new(inner: Vec<Change>) -> Changes
        ensures { result ≡ inner.items }
    {
        Changes { inner }
    }

    /// The changed pages as a slice.
    pub fn as_slice(&self) -> &[Change]
        ensures { result.now ≡ self.now }
    {
        self.inner.as_slice()
    }
}
