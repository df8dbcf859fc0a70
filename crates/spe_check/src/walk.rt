//! What a walk over pages keeps, and where it stands.

ghost use Rattle.std.specs.Prelude.{◌≡◌, ℕ, Bool, false, IfOk, vec_len};
ghost use Rattle.spe_check.specs.MetPages.{has_met};

use crate::met::Met;
use std::alloc::{AllocError, Global};

/// Buffers that are used again. A walk holds as many at a time as there are levels, and one.
#[derive(Drop)]
pub struct Buffers {
    alloc: Global,
    spare: Vec<Vec<u8>>,
}

impl Buffers {
    /// No buffer yet.
    pub fn new(alloc: Global) -> Buffers {
        Buffers {
            alloc,
            spare: Vec::new(alloc),
        }
    }

    /// A buffer of so many bytes, whatever they are.
    pub fn take(&mut self, size: u32) -> Result<Vec<u8>, AllocError>
        ensures { IfOk result (λ bytes. vec_len bytes ≡ size) }
    {
        if let Some(bytes) = self.spare.pop() {
            if bytes.len() == size as usize {
                return Ok(bytes);
            }
        }
        Ok(vec![in self.alloc; 0u8; size as usize]?)
    }

    /// Keeps a buffer that is done with. It is freed where there is no memory to keep it.
    pub fn give_back(&mut self, bytes: Vec<u8>) {
        let _ = self.spare.push(bytes);
    }
}

/// What a walk over the pages of a space keeps: the pages that it met, its buffers, and the payload of
/// the newest row that has a chain.
#[derive(Drop)]
pub struct Walk {
    pub(crate) alloc: Global,
    pub(crate) met: Met,
    pub(crate) buffers: Buffers,
    pub(crate) payload: Vec<u8>,
}

impl Walk {
    /// A walk that has met none of so many pages.
    pub fn new(alloc: Global, pages: u32) -> Result<Walk, AllocError>
        ensures none { IfOk result (λ walk. (n : ℕ) → has_met walk.met n ≡ false) }
        ensures pages { IfOk result (λ walk. walk.met.pages ≡ pages) }
    {
        let met = Met::new(alloc, pages)?;
        Ok(Walk {
            alloc,
            met,
            buffers: Buffers::new(alloc),
            payload: Vec::new(alloc),
        })
    }
}

/// How deep a page stands in a tree.
#[derive(Clone, Copy, Debug)]
pub struct Depth {
    /// How many levels were left at the first leaf of the tree, where one was met.
    pub leaf: Option<u32>,
    /// How many levels are left, the page's own among them.
    pub levels: u32,
}

/// The keys on either side of a page's own: these are above `low` and at most `high`, where there are such.
#[derive(Clone, Copy, Debug)]
pub struct Bounds {
    /// The nearest key to the left.
    pub low: Option<i64>,
    /// The nearest key to the right.
    pub high: Option<i64>,
}
