//! What the store holds of one transaction.

ghost use Rattle.std.specs.Prelude.{◌≡◌, ◌≤◌, length, IfOk};
ghost use Rattle.spe_store.specs.Work.{AreIdle, own_after, own_without};

use crate::pass::IDS;
use crate::saved::SavedPages;
use spe_model::u32_of;
use std::alloc::{AllocError, Global};

// A header, and where it names the number of pages.
const HEADER_BYTES: usize = 100;

const PAGES_AT: usize = 28;

/// What the store holds of one transaction.
#[derive(Drop)]
pub(crate) struct Work {
    /// The nonce of its journal.
    pub(crate) nonce: u32,
    /// Where its journal ends, or 0 where that is not open.
    pub(crate) end: u64,
    /// The number of pages that it has written into its page 1.
    pub(crate) own: Option<u32>,
    /// It may still commit, and there is room for that in the list of commits.
    pub(crate) due: bool,
    /// Its id is handed out.
    pub(crate) out: bool,
    /// The pages that it has journalled.
    pub(crate) saved: SavedPages,
}

impl Work {
    ghost use Rattle.std.specs.Prelude.{◌≡◌, ◌≤◌, ◌==◌, ◌&&◌, not, length};
    ghost use Rattle.spe_store.specs.Saved.{IsLast};
    ghost use Rattle.spe_store.specs.Work.{HasBegun, HasEnded, HasUndone, HasWritten, IsIdle};

    /// There is no transaction.
    pub(crate) fn none(alloc: Global) -> Work
        ensures { IsIdle result }
    {
        Work {
            nonce: 0,
            end: 0,
            own: None,
            due: false,
            out: false,
            saved: SavedPages::none(alloc),
        }
    }

    /// Whether its id is not out, and its journal is not open.
    pub(crate) fn is_free(&self) -> bool
        ensures { result ≡ not self.now.out && (self.now.end == 0) }
    {
        !self.out && self.end == 0
    }

    /// It has ended.
    pub(crate) fn end(&mut self, alloc: Global)
        ensures { HasEnded self.old self.new }
    {
        let out = self.out;
        *self = Work::none(alloc);
        self.out = out;
    }

    /// A transaction begins with this id.
    pub(crate) fn begin(&mut self, alloc: Global)
        ensures { HasBegun self.old self.new }
    {
        *self = Work::none(alloc);
        self.due = true;
        self.out = true;
    }

    /// It has written a page.
    pub(crate) fn wrote(&mut self, page: u32, bytes: &[u8])
        requires { 512 ≤ length bytes.now }
        ensures { HasWritten page bytes.now self.old self.new }
    {
        self.own = own_after(page, bytes, self.own);
        self.saved.mark(page);
    }

    /// The page that was written last has its old bytes again.
    pub(crate) fn undid(&mut self, page: u32)
        requires { IsLast page self.old.saved }
        ensures { HasUndone page self.old self.new }
    {
        self.own = own_without(page, self.own);
        self.saved.unmark(page);
    }
}

/// Sixteen ids of which none has a transaction.
pub(crate) fn no_works(alloc: Global) -> Result<Vec<Work>, AllocError>
    ensures { IfOk result (λ works. AreIdle works.items) }
{
    let mut works = Vec::new(alloc);
    while works.len() < IDS {
        works.push(Work::none(alloc))?;
    }
    Ok(works)
}

fn own_after(page: u32, bytes: &[u8], own: Option<u32>) -> Option<u32>
    requires { 512 ≤ length bytes.now }
    ensures { result ≡ own_after page bytes.now own }
{
    if page == 1 {
        return Some(u32_of(&bytes[..HEADER_BYTES], PAGES_AT));
    }
    own
}

fn own_without(page: u32, own: Option<u32>) -> Option<u32>
    ensures { result ≡ own_without page own }
{
    if page == 1 {
        return None;
    }
    own
}
