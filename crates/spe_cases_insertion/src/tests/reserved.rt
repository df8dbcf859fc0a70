//! A space of whose pages the last bytes are reserved.

ghost use Rattle.std.specs.Prelude.{◌-◌};

use spe_space::{PageSpace, Pages, SpaceFault};

/// All that another space has, but for the last 32 bytes of each page.
#[derive(Drop)]
pub(crate) struct Reserved<S> {
    pub(crate) space: S,
}

impl<S: Pages> Pages for Reserved<S> {
    ghost size = { λ s. S.size s.space };

    ghost used = { λ s. S.size s.space - 32 };

    ghost count = { λ s. S.count s.space };

    ghost limit = { λ s. S.limit s.space };

    ghost shared = { λ s. S.shared s.space };

    ghost sealed = { λ s. S.sealed s.space };

    ghost told = { λ s. S.told s.space };

    ghost seen = { λ s. S.seen s.space };

    ghost laid = { λ s. S.laid s.space };

    ghost is_free = { λ s. S.is_free s.space };

    ghost stands = { λ s. S.stands s.space };

    ghost admits = { S.admits };

    ghost refusal = { λ s. S.refusal s.space };

    ghost steady = { S.steady };

    ghost given = { λ s. S.given s.space };

    ghost settled = { λ s. S.settled s.space };

    ghost within = { λ s. S.within s.space };

    ghost agreed = { λ is s. S.agreed is s.space };

    ghost bounded = { λ s. S.bounded s.space };

    ghost placed = { λ s. S.placed s.space };

    ghost named = { λ s. S.named s.space };

    fn page_size(&self) -> u32 {
        self.space.page_size()
    }

    fn usable(&self) -> u32 {
        self.space.page_size().saturating_sub(32)
    }

    fn get(&mut self, page: u32, buf: &mut [u8]) -> Result<(), SpaceFault> {
        self.space.get(page, buf)
    }

    fn put(&mut self, page: u32, bytes: &[u8]) -> Result<(), SpaceFault> {
        self.space.put(page, bytes)
    }

    fn extend(&mut self) -> Result<u32, SpaceFault> {
        self.space.extend()
    }
}

impl<S: PageSpace> PageSpace for Reserved<S> {
    ghost next_free = { λ s. S.next_free s.space };

    fn alloc(&mut self) -> Result<u32, SpaceFault> {
        self.space.alloc()
    }

    fn free(&mut self, page: u32) -> Result<(), SpaceFault> {
        self.space.free(page)
    }
}
