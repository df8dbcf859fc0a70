//! Pages in memory, filled before any of them is given.

ghost use Rattle.std.specs.Prelude.{◌≡◌, ℕ, [], IfOk, None};
ghost use Rattle.spe_space.specs.View.{map_size, map_count, map_seen, map_refusal};

use spe_space::MapSpace;
use std::alloc::{AllocError, Global};

/// The page, the place in it, and the bytes that stand there.
pub type Patch = (u32, usize, &'static [u8]);

// Lays bytes over a page from a place on, as far as they fit.
fn lay(page: &mut [u8], at: usize, bytes: &[u8]) {
    for (i, byte) in bytes.iter().enumerate() {
        if let Some(place) = page.get_mut(at.wrapping_add(i)) {
            *place = *byte;
        }
    }
}

// Lays all patches of a page over it.
fn lay_all(page: &mut [u8], number: u32, patches: &[Patch]) {
    for (at, place, bytes) in patches {
        if *at == number {
            lay(page, *place, *bytes);
        }
    }
}

/// A space that is being filled.
#[derive(Drop)]
struct Filling {
    space: MapSpace,
    pages: u32,
    ghost sized: { map_size space ≡ 512 },
    ghost counted: { map_count space ≡ pages },
    ghost fresh: { (n : ℕ) → map_seen space n ≡ [] },
    ghost well: { map_refusal space ≡ None },
}

impl Filling {
    // So many pages of 512 bytes, at least one.
    #[tactic(auto, unfolding(spe_model::specs::Header::is_page_size))]
    fn new(alloc: Global, pages: u32) -> Result<Filling, AllocError> {
        let pages = pages.clamp(1, 64);
        let space = MapSpace::new(alloc, 512, pages, 64)?;
        Ok(Filling { space, pages })
    }

    // Fills a page. One that is not there or has another size stays as it was.
    fn load(&mut self, page: u32, bytes: &[u8]) {
        if page > 0 && page <= self.pages && bytes.len() == 512 {
            self.space.load(page, bytes);
        }
    }

    fn into_space(self) -> MapSpace
        ensures { map_refusal result ≡ None }
    {
        let Filling { space, .. } = self;
        space
    }
}

/// So many pages of 512 bytes, zeros but for these patches, of which a later one lies over those before.
pub fn space_of(
    alloc: Global,
    pages: u32,
    first: &[Patch],
    then: &[Patch],
) -> Result<MapSpace, AllocError>
    ensures { IfOk result (λ space. map_refusal space ≡ None) }
{
    let mut filling = Filling::new(alloc, pages)?;
    for page in 1..=pages {
        let mut bytes = vec![in alloc; 0u8; 512]?;
        lay_all(bytes.as_mut_slice(), page, first);
        lay_all(bytes.as_mut_slice(), page, then);
        filling.load(page, bytes.as_slice());
    }
    Ok(filling.into_space())
}
