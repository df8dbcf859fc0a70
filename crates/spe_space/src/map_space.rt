//! Pages in memory, as a space.

ghost use Rattle.std.specs.Prelude.{true, false, Some, refl};
ghost use Rattle.spe_space.specs.Free.{later_page_of};
ghost use Rattle.spe_space.specs.View.{map_size, map_count, map_limit, map_told, map_seen, map_laid, map_free, map_next, map_stands, map_admits, map_refusal};
ghost use Rattle.spe_space.specs.Told.{told_agrees};

use crate::fault::SpaceFault;
use crate::map::{MapSpace, pages_between};
use crate::page_space::PageSpace;
use crate::pages::Pages;
use crate::slot::{recount_slot, sixteen};

impl Pages for MapSpace {
    ghost size = { map_size };

    ghost used = { map_size };

    ghost count = { map_count };

    ghost limit = { map_limit };

    ghost shared = { λ _. false };

    ghost sealed = { λ _. false };

    ghost told = { λ s. Some (map_told s) };

    ghost seen = { map_seen };

    ghost laid = { map_laid };

    ghost is_free = { λ s _. map_free s };

    ghost stands = { map_stands };

    ghost admits = { map_admits };

    ghost refusal = { map_refusal };

    ghost given = { λ s. told_agrees s.slots.items s.size };

    ghost settled = { λ _ _. refl };

    ghost within = { λ s. (s.some, s.few) };

    ghost steady = { true };

    ghost agreed = { λ _ s. (map_told s, told_agrees s.slots.items s.size) };

    ghost bounded = { λ s. (s.range.1, s.bounded) };

    ghost placed = { λ s pages stood n free. later_page_of _ _ n stood (s.inside n free) };

    ghost named = { λ s pages agrees stood alone. stood };

    fn page_size(&self) -> u32 {
        self.size
    }

    fn usable(&self) -> u32 {
        self.size
    }

    fn get(&mut self, page: u32, buf: &mut [u8]) -> Result<(), SpaceFault> {
        if !self.has(page) {
            let pages = self.count();
            return Err(self.refuse(SpaceFault::PageOut { page, pages }));
        }
        let slot = &mut self.slots[page as usize - 1];
        if slot.put {
            buf.copy_from_slice(slot.above.as_slice());
        } else {
            slot.got = true;
            buf.copy_from_slice(slot.below.as_slice());
        }
        Ok(())
    }

    fn put(&mut self, page: u32, bytes: &[u8]) -> Result<(), SpaceFault> {
        if !self.has(page) {
            let pages = self.count();
            return Err(self.refuse(SpaceFault::PageOut { page, pages }));
        }
        let slot = &mut self.slots[page as usize - 1];
        slot.above.as_mut_slice().copy_from_slice(bytes);
        slot.put = true;
        Ok(())
    }

    fn extend(&mut self) -> Result<u32, SpaceFault> {
        let pages = self.count();
        if !self.has_room() {
            return Err(self.refuse(SpaceFault::Full { pages }));
        }
        let mut added = sixteen(self.alloc, self.size)?;
        self.slots.append(&mut added)?;
        recount_slot(&mut self.slots[0], pages + 16);
        Ok(pages + 1)
    }
}

impl PageSpace for MapSpace {
    ghost next_free = { λ s _. map_next s };

    fn alloc(&mut self) -> Result<u32, SpaceFault> {
        if let Some(page) = self.free_pages.pop_first() {
            return Ok(page);
        }
        let pages = self.count();
        if !self.has_room() {
            return Err(self.refuse(SpaceFault::Full { pages }));
        }
        let others = pages_between(self.alloc, pages + 2, pages + 17)?;
        let page = match self.extend() {
            Ok(page) => page,
            Err(fault) => return Err(fault),
        };
        self.free_pages = others;
        Ok(page)
    }

    fn free(&mut self, page: u32) -> Result<(), SpaceFault> {
        if !self.has(page) {
            let pages = self.count();
            return Err(self.refuse(SpaceFault::PageOut { page, pages }));
        }
        if page > 1 {
            let _ = self.free_pages.insert(page)?;
        }
        Ok(())
    }
}
