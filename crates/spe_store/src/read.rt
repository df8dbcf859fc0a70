//! A transaction reads a page.

ghost use Rattle.std.specs.Prelude.{◌≡◌, ◌≤◌, ◌<◌, true, false};

use crate::kind::Kind;
use crate::opening::Opening;
use crate::pass::Pass;
use crate::stop::StoreFault;
use crate::store::Store;
use crate::story::Done;
use spe_disk::{Disk, Failed};

impl<D: Disk, N: Opening> Store<D, N> {
    ghost use Rattle.std.specs.Prelude.{◌≡◌, length, OnOk, IfErr};
    ghost use Rattle.spe_store.specs.Call.{GivesPage, IsTied, IsUnread, MayRead};
    ghost use Rattle.spe_store.specs.Desk.{Looks};
    ghost use Rattle.spe_store.specs.Event.Event.{Read};
    ghost use Rattle.spe_store.specs.Pass.{OthersStay};
    ghost use Rattle.spe_store.specs.Store.{HasDone};

    /// Reads a page into `buf`, which is one page long: as the transaction has written it, or else as after
    /// all commits. It is then listed as read, unless the transaction had written it.
    ///
    /// `PageOut` comes exactly where the page is not 1 to the number of pages, which is the one that the
    /// transaction has written into its page 1, or else that after all commits. A read pin of the page will
    /// see to it that no other transaction has written it.
    pub fn read(&mut self, pass: &mut Pass, page: u32, buf: &mut [u8]) -> Result<(), StoreFault>
        requires sized { length buf.old ≡ self.old.page_size }
        requires tied { IsTied self.old pass.old }
        requires may { MayRead self.old pass.old.id page }
        ensures gives { OnOk result (GivesPage N.opened self.old pass.old.id page buf.new) }
        ensures done { OnOk result (HasDone self.old self.new pass.old pass.new (Read pass.old.id page buf.new)) }
        ensures looks { OnOk result (Looks self.old.desk self.new.desk) }
        ensures unread { IfErr result (IsUnread self.old self.new pass.old.id page) }
        ensures pass { IfErr result (λ _. pass.new ≡ pass.old) }
        ensures sized { length buf.new ≡ length buf.old }
        ensures tied { IsTied self.new pass.new }
        ensures others { OthersStay self.new.events self.old.events pass.old.id }
    {
        if let Some(op) = self.desk.stopped() {
            return Err(StoreFault::Stopped { op });
        }
        let work = &self.works[usize::from(pass.id)];
        let pages = work.own.unwrap_or(self.count);
        if !is_inside(page, pages) {
            return Err(StoreFault::PageOut { page, pages });
        }
        match self.desk.read_page(self.page_size, page, buf) {
            Ok(()) => (),
            Err(Failed) => return Err(StoreFault::ReadFault),
        }
        let done = Done {
            kind: Kind::Read,
            id: pass.id,
            page,
            bytes: buf,
        };
        pass.story = pass.story.with(&done);
        self.story = self.story.with(&done);
        Ok(())
    }
}

// Whether a page is one of so many.
fn is_inside(page: u32, pages: u32) -> bool
    ensures inside { result ≡ true → (1 ≤ page) × (page ≤ pages) }
    ensures outside { result ≡ false → (1 ≤ page) → (page ≤ pages) → ⊥ }
{
    page > 0 && page <= pages
}
