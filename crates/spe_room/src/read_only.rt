//! The pages of a database file, as a space that can only be read.

ghost use Rattle.std.specs.Prelude.{false, true, None, is_some, refl};
ghost use Rattle.spe_model.specs.Verdict.{free_pages};
ghost use Rattle.spe_model.specs.Walk.{is_met};
ghost use Rattle.spe_room.specs.Admits.{admits_read};
ghost use Rattle.spe_room.specs.Held.{given_in, told_pages};
ghost use Rattle.spe_room.specs.ReadOnly.{AreListed};
ghost use Rattle.spe_room.specs.Given.{agreed_of, at_most_itself, given_agrees};

use crate::disk_space::DiskSpace;
use crate::origin::Origin;
use spe_disk::Disk;
use spe_space::{PageSpace, Pages, SpaceFault};

impl<D: Disk, K: Origin> Pages for DiskSpace<D, K> {
    ghost size = { λ s. s.size };

    ghost used = { λ s. s.usable };

    ghost count = { λ s. s.pages };

    ghost limit = { λ s. s.pages };

    ghost shared = { λ _. false };

    ghost sealed = { λ _. true };

    ghost told = { λ s. told_pages K.told s.size s.pages };

    ghost seen = { λ s. given_in s.given.pages };

    ghost laid = { λ _ _. None };

    ghost is_free = { λ s pages page. is_met (free_pages s.pages pages) page };

    ghost stands = { λ s pages. AreListed s.usable s.pages pages };

    ghost admits = { admits_read };

    ghost refusal = { λ s. s.refusal };

    ghost steady = { is_some K.told };

    ghost given = { λ s. given_agrees K.told s.size s.pages (given_in s.given.pages) s.held };

    ghost settled = { λ _ _. refl };

    ghost within = { λ s. (s.some, at_most_itself s.pages) };

    ghost agreed = { λ tells s. agreed_of K.told s.size s.pages (given_in s.given.pages) tells s.held };

    ghost bounded = { λ s. (s.range.1, s.few) };

    ghost placed = { λ s pages stood n free. stood.later n free };

    ghost named = { λ s pages agrees stood alone. stood.number };

    fn page_size(&self) -> u32 {
        self.size
    }

    fn usable(&self) -> u32 {
        self.usable
    }

    fn get(&mut self, page: u32, buf: &mut [u8]) -> Result<(), SpaceFault> {
        if !self.has(page) {
            return Err(self.refuse_page(page));
        }
        self.read(page, buf)?;
        self.give(page, buf);
        Ok(())
    }

    fn put(&mut self, _page: u32, _bytes: &[u8]) -> Result<(), SpaceFault> {
        Err(self.refuse_page(0))
    }

    fn extend(&mut self) -> Result<u32, SpaceFault> {
        Err(self.refuse_page(0))
    }
}

impl<D: Disk, K: Origin> PageSpace for DiskSpace<D, K> {
    ghost next_free = { λ _ _. None };

    fn alloc(&mut self) -> Result<u32, SpaceFault> {
        Err(self.refuse_page(0))
    }

    fn free(&mut self, _page: u32) -> Result<(), SpaceFault> {
        Err(self.refuse_page(0))
    }
}
