//! The free pages of a transaction: those of the lists that page 1 names, of which one is its own.

ghost use Rattle.spe_model.specs.Paging.{lay};
ghost use Rattle.spe_session.specs.Lists.{next_in};
ghost use Rattle.spe_session.specs.Pages.{laid_in};

use crate::beginning::Beginning;
use crate::pager::Pager;
use spe_disk::Disk;
use spe_space::{PageSpace, SpaceFault, TreeFault};
use spe_store::Opening;

impl<D: Disk, N: Opening, K: Beginning> PageSpace for Pager<D, N, K> {
    ghost next_free = { λ s pages. next_in K.begun.first (lay (laid_in s.store.count s.pages s.size s.dirty) pages) };

    fn alloc(&mut self) -> Result<u32, SpaceFault> {
        let alloc = self.alloc;
        let first = self.first;
        match spe_freelist::alloc(alloc, self, first) {
            Ok(page) => Ok(page),
            Err(TreeFault::Space(fault)) => Err(fault),
            Err(TreeFault::Corrupt { page }) => Err(self.refuse(SpaceFault::Corrupt { page })),
        }
    }

    fn free(&mut self, page: u32) -> Result<(), SpaceFault> {
        if !self.has(page) {
            let pages = self.pages;
            return Err(self.refuse(SpaceFault::PageOut { page, pages }));
        }
        let alloc = self.alloc;
        let first = self.first;
        match spe_freelist::free(alloc, self, first, page) {
            Ok(()) => Ok(()),
            Err(TreeFault::Space(fault)) => Err(fault),
            Err(TreeFault::Corrupt { page }) => Err(self.refuse(SpaceFault::Corrupt { page })),
        }
    }
}
