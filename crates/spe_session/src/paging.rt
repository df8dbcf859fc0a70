//! The pages of a transaction, as a space.

ghost use Rattle.std.specs.Prelude.{false, true, refl};
ghost use Rattle.spe_model.specs.Paging.{lay};
ghost use Rattle.spe_store.specs.Event.{seen_in};
ghost use Rattle.spe_session.specs.Below.{admits_own, below_of};
ghost use Rattle.spe_session.specs.Lists.{AreInOrder, is_listed};
ghost use Rattle.spe_session.specs.Pages.{laid_in};
ghost use Rattle.spe_session.specs.Facts.{given_of, pages_inside, some_agrees};

use crate::beginning::Beginning;
use crate::pager::Pager;
use crate::put::recounted;
use spe_disk::Disk;
use spe_space::{Pages, SpaceFault};
use spe_store::Opening;

impl<D: Disk, N: Opening, K: Beginning> Pages for Pager<D, N, K> {
    ghost size = { λ s. s.size };

    ghost used = { λ s. s.usable };

    ghost count = { λ s. s.pages };

    ghost limit = { λ s. s.limit };

    ghost shared = { λ _. false };

    ghost sealed = { λ _. false };

    ghost told = { λ s. below_of N.opened s.store };

    ghost seen = { λ s. seen_in s.pass.done s.pass.id };

    ghost laid = { λ s. laid_in s.store.count s.pages s.size s.dirty };

    ghost is_free = { λ s pages. is_listed (lay (laid_in s.store.count s.pages s.size s.dirty) pages) };

    ghost stands = { λ s pages. AreInOrder s.usable s.pages K.begun.first (lay (laid_in s.store.count s.pages s.size s.dirty) pages) };

    ghost admits = { admits_own };

    ghost refusal = { λ s. s.refusal };

    ghost steady = { true };

    ghost given = { λ s. given_of (below_of N.opened s.store) (seen_in s.pass.done s.pass.id) s.below };

    ghost settled = { λ _ _. refl };

    ghost within = { λ s. pages_inside s.store.count s.pages s.limit s.some s.more s.few };

    ghost agreed = { λ _ s. some_agrees s.clean (seen_in s.pass.done s.pass.id) s.seen };

    ghost bounded = { λ s. (s.range.1, s.bounded) };

    ghost placed = { λ s pages stood n free. stood.later n free };

    ghost named = { λ s pages agrees stood alone. stood.number };

    fn page_size(&self) -> u32 {
        self.size
    }

    fn usable(&self) -> u32 {
        self.usable
    }

    fn get(&mut self, page: u32, buf: &mut [u8]) -> Result<(), SpaceFault> {
        if !self.has(page) {
            let pages = self.pages;
            return Err(self.refuse(SpaceFault::PageOut { page, pages }));
        }
        self.show(page, buf)
    }

    fn put(&mut self, page: u32, bytes: &[u8]) -> Result<(), SpaceFault> {
        if !self.has(page) {
            let pages = self.pages;
            return Err(self.refuse(SpaceFault::PageOut { page, pages }));
        }
        if !self.may_be_put(page, bytes) {
            return Err(self.refuse(SpaceFault::Corrupt { page: 1 }));
        }
        self.lay(page, bytes)?;
        Ok(())
    }

    fn extend(&mut self) -> Result<u32, SpaceFault> {
        let pages = self.pages;
        if !self.has_room() {
            return Err(self.refuse(SpaceFault::Full { pages }));
        }
        let mut front = vec![in self.alloc; 0u8; self.size as usize]?;
        self.show(1, front.as_mut_slice())?;
        self.grow(recounted(front, pages + 16))?;
        Ok(pages + 1)
    }
}
