//! Pages in memory, filled before any of them is given.

ghost use Rattle.std.specs.Prelude.{◌≡◌, ℕ, [], None};
ghost use Rattle.spe_space.specs.View.{map_size, map_count, map_seen, map_refusal};

use spe_space::{MapSpace, PageSpace, Pages, SpaceFault};
use std::alloc::{AllocError, Global};
use std::process::Abort;

/// Lays bytes over a page from a place on, as far as they fit.
pub fn lay(page: &mut [u8], at: usize, bytes: &[u8]) {
    for (i, byte) in bytes.iter().enumerate() {
        if let Some(place) = page.get_mut(at.wrapping_add(i)) {
            *place = *byte;
        }
    }
}

/// Expects that a row of a table holds.
pub fn expect(rt: &impl Abort, name: &str, row: i64, holds: bool) {
    assert!(rt; holds, "{name} {row}");
}

/// A space that is being filled.
#[derive(Drop)]
pub struct Filling {
    space: MapSpace,
    size: u32,
    pages: u32,
    ghost sized: { map_size space ≡ size },
    ghost counted: { map_count space ≡ pages },
    ghost fresh: { (n : ℕ) → map_seen space n ≡ [] },
    ghost well: { map_refusal space ≡ None },
}

impl Filling {
    /// So many pages of 512 bytes, or of 65536, at least one.
    #[tactic(auto, unfolding(spe_model::specs::Header::is_page_size))]
    pub fn new(alloc: Global, large: bool, pages: u32) -> Result<Filling, AllocError> {
        let size = if large { 65536 } else { 512 };
        let pages = pages.clamp(1, 16384);
        let space = MapSpace::new(alloc, size, pages, 16384)?;
        Ok(Filling { space, size, pages })
    }

    /// So many pages of 512 bytes, from 1 to 64, where there may come to be at most `limit`.
    #[tactic(auto, unfolding(spe_model::specs::Header::is_page_size))]
    pub fn limited(alloc: Global, pages: u32, limit: u32) -> Result<Filling, AllocError> {
        let pages = pages.clamp(1, 64);
        let limit = limit.clamp(pages, 128);
        let space = MapSpace::new(alloc, 512, pages, limit)?;
        Ok(Filling {
            space,
            size: 512,
            pages,
        })
    }

    /// Fills a page. One that is not there or has another size stays as it was.
    pub fn load(&mut self, page: u32, bytes: &[u8]) {
        if page > 0 && page <= self.pages && bytes.len() == self.size as usize {
            self.space.load(page, bytes);
        }
    }

    /// The space, from which pages can be got.
    pub fn into_space(self) -> MapSpace
        ensures { map_refusal result ≡ None }
    {
        let Filling { space, .. } = self;
        space
    }

    /// The same, as pages to get and put.
    pub fn into_held(self) -> Held {
        let Filling { space, size, .. } = self;
        Held { space, size }
    }
}

/// A space, and the size of its pages.
#[derive(Drop)]
pub struct Held {
    space: MapSpace,
    size: u32,
    ghost sized: { map_size space ≡ size },
}

impl Held {
    /// The bytes of a page.
    pub fn get(
        &mut self,
        alloc: Global,
        page: u32,
    ) -> Result<Result<Vec<u8>, SpaceFault>, AllocError> {
        let mut bytes = vec![in alloc; 0u8; self.size as usize]?;
        match self.space.get(page, bytes.as_mut_slice()) {
            Ok(()) => Ok(Ok(bytes)),
            Err(fault) => Ok(Err(fault)),
        }
    }

    /// Puts a page that is full of one byte.
    pub fn put(
        &mut self,
        alloc: Global,
        page: u32,
        byte: u8,
    ) -> Result<Result<(), SpaceFault>, AllocError> {
        let bytes = vec![in alloc; byte; self.size as usize]?;
        Ok(self.space.put(page, bytes.as_slice()))
    }

    pub fn extend(&mut self) -> Result<u32, SpaceFault> {
        self.space.extend()
    }

    pub fn alloc(&mut self) -> Result<u32, SpaceFault> {
        self.space.alloc()
    }

    pub fn free(&mut self, page: u32) -> Result<(), SpaceFault> {
        self.space.free(page)
    }
}
