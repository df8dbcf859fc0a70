//! B-tree pages.

ghost use Rattle.std.specs.Prelude.{◌≡◌, ◌≤◌, ◌⊎◌, Ok, length, take};
ghost use Rattle.spe_model.specs.Page.{page_at};
ghost use Rattle.spe_format.specs.Answers.{GivesPage};
ghost use Rattle.spe_format.specs.Canonical.{IsWritable};

use crate::legal::LegalPage;
use spe_model::{PageCells, PageFault};
use std::alloc::Global;

/// Reads a b-tree page from its first `usable` bytes, of which there are 480 to 65536. Its header
/// begins at `at`: at 100 on page 1, else at 0.
///
/// The fault is the lowest that holds. The freeblocks, the count of fragments and the start of the
/// content are not looked at, so any legal layout is read. The time is that of the page's bytes and
/// cells. (SQLite's Database File Format, "B-tree Pages".)
pub fn read_page(
    alloc: Global,
    page: &[u8],
    at: usize,
    usable: usize,
) -> Result<PageCells, PageFault>
    requires at { (at ≡ 0) ⊎ (at ≡ 100) }
    requires low { 480 ≤ usable }
    requires high { usable ≤ 65536 }
    requires inside { usable ≤ length page.now }
    ensures { GivesPage result (page_at (take usable page.now) at) }
{
    match LegalPage::new(alloc, page, at, usable) {
        Ok(node) => Ok(node.copied(alloc)?),
        Err(fault) => Err(fault),
    }
}

/// What a page was read as can be written to a page with as many usable bytes: a law, and no work.
pub fn legal_is_writable(cells: &PageCells, page: &[u8], at: usize, usable: usize)
    requires inside { usable ≤ length page.now }
    requires legal { page_at (take usable page.now) at ≡ Ok cells.now }
    ensures { IsWritable cells.now usable }
{}
