//! The pages that a space gave, which only proofs read.

ghost use Rattle.std.specs.Prelude.{◌≡◌, ℕ, List, [], ◌∷◌};

use std::marker::Model;

/// The pages that a space gave with their bytes, the newest first. It takes no memory, and its functions
/// do nothing when they run.
#[derive(Drop)]
pub(crate) struct GivenPages {
    pub(crate) ghost pages: { List (ℕ × List ℕ) },
}

impl Model for GivenPages {
    ghost use base.Fml.{ftrue};

    ghost also_owns = { λ _. ftrue };
}

/// A page with its bytes.
#[derive(Clone, Copy, Drop)]
pub(crate) struct GivenPage<'a> {
    pub(crate) page: u32,
    pub(crate) bytes: &'a [u8],
}

impl GivenPages {
    /// No page was given.
    pub(crate) fn none() -> GivenPages
        ensures { result.pages ≡ [] }
    {
        GivenPages {}
    }

    /// One page was given more.
    pub(crate) fn with(&self, _given: &GivenPage<'_>) -> GivenPages
        ensures { result.pages ≡ (_given.now.page, _given.now.bytes.now) ∷ self.now.pages }
    {
        GivenPages {}
    }
}
