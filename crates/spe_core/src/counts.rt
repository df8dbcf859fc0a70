//! Sizes in pages that a page 1 names.

ghost use Rattle.std.specs.Prelude.{◌≡◌};
ghost use Rattle.spe_transactions.specs.Pages.{named_count};
ghost use Rattle.spe_core.specs.Enabled.{wanted_count};

use crate::live::Live;
use spe_stored::{front_of, number_at};

// Where the size in pages stands on page 1.
const PAGES_AT: usize = 28;

/// The size in pages on the page 1 that a transaction wrote, 0 where it wrote none.
pub fn wanted_count(t: &Live) -> u32
    ensures { result ≡ wanted_count t.now }
{
    match t.written(1) {
        Some(page) => number_at(page, PAGES_AT),
        None => 0,
    }
}

/// The size in pages on a page 1.
pub fn named_count(page: &[u8]) -> u32
    ensures { result ≡ named_count page.now }
{
    number_at(front_of(page), PAGES_AT)
}
