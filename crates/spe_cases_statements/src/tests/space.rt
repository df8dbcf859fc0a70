//! Files of pages of 512 bytes, as spaces in memory.

ghost use Rattle.std.specs.Prelude.{◌≡◌, ℕ, [], None, IfOk};
ghost use Rattle.spe_space.specs.View.{map_size, map_count, map_seen, map_refusal};

use crate::tests::files::{File, Patch};
use spe_space::MapSpace;
use std::alloc::{AllocError, Global};

// A space that is being filled.
#[derive(Drop)]
struct Filling {
    space: MapSpace,
    pages: u32,
    ghost sized: { map_size space ≡ 512 },
    ghost counted: { map_count space ≡ pages },
    ghost fresh: { (n : ℕ) → map_seen space n ≡ [] },
    ghost well: { map_refusal space ≡ None },
}

impl Filling {
    // So many pages, from 1 to 64.
    #[tactic(auto, unfolding(spe_model::specs::Header::is_page_size))]
    fn new(alloc: Global, pages: u32) -> Result<Filling, AllocError> {
        let pages = pages.clamp(1, 64);
        let space = MapSpace::new(alloc, 512, pages, 64)?;
        Ok(Filling { space, pages })
    }

    // Fills a page. One that is not there or has another size stays as it was.
    fn load(&mut self, page: u32, bytes: &[u8]) {
        if page > 0 && page <= self.pages && bytes.len() == 512 {
            self.space.load(page, bytes);
        }
    }
}

// Lays bytes over a page from a place on, as far as they fit.
fn lay(page: &mut [u8], at: usize, bytes: &[u8]) {
    for (i, byte) in bytes.iter().enumerate() {
        if let Some(place) = page.get_mut(at.wrapping_add(i)) {
            *place = *byte;
        }
    }
}

// Lays those bytes over a page that are the page's.
fn lay_all(bytes: &mut [u8], page: u32, patches: &[Patch]) {
    for (of, at, patch) in patches {
        if *of == page {
            lay(bytes, *at, *patch);
        }
    }
}

// A page of a file.
fn page_of(alloc: Global, file: &File, page: u32) -> Result<Vec<u8>, AllocError> {
    let mut bytes = vec![in alloc; 0u8; 512]?;
    lay_all(bytes.as_mut_slice(), page, file.front);
    lay_all(bytes.as_mut_slice(), page, file.rest);
    Ok(bytes)
}

/// The pages of a file, none of which was given.
pub fn space_of(alloc: Global, file: &File) -> Result<MapSpace, AllocError>
    ensures { IfOk result (λ space. map_refusal space ≡ None) }
{
    let mut filling = Filling::new(alloc, file.pages)?;
    for page in 1..=file.pages {
        let bytes = page_of(alloc, file, page)?;
        filling.load(page, bytes.as_slice());
    }
    let Filling { space, .. } = filling;
    Ok(space)
}
