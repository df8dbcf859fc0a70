//! A transaction writes pages, and takes them back.

use crate::kind::Kind;
use crate::opening::Opening;
use crate::pass::Pass;
use crate::stop::StoreFault;
use crate::store::Store;
use crate::story::Done;
use spe_disk::Disk;

impl<D: Disk, N: Opening> Store<D, N> {
    ghost use Rattle.std.specs.Prelude.{◌≡◌, length, OnOk, IfOk, IfErr};
    ghost use Rattle.spe_model.specs.Rollback.{write_of};
    ghost use Rattle.spe_store.specs.Call.{AreToUndo, HasFront, IsStill, IsTied, IsUndone, MayWrite, UndoesOne};
    ghost use Rattle.spe_store.specs.Desk.{Does};
    ghost use Rattle.spe_store.specs.Event.Event.{Written};
    ghost use Rattle.spe_store.specs.Pass.{OthersStay};
    ghost use Rattle.spe_store.specs.Store.{HasDone, IsRefused, OnStop};

    /// Writes a page that the transaction has journalled, or that it adds above those after all commits. Of
    /// page 1 the first 24 bytes are not written, and have to be as they are. Answers `Stopped` alone.
    pub fn write(&mut self, pass: &mut Pass, page: u32, bytes: &[u8]) -> Result<(), StoreFault>
        requires sized { length bytes.now ≡ self.old.page_size }
        requires tied { IsTied self.old pass.old }
        requires front { page ≡ 1 → HasFront N.opened self.old bytes.now }
        requires may { MayWrite N.opened self.old pass.old.id page }
        ensures done { OnOk result (HasDone self.old self.new pass.old pass.new (Written pass.old.id page bytes.now)) }
        ensures made { OnOk result (Does self.old.desk self.new.desk (write_of self.old.page_size (record { page = page; content = bytes.now }))) }
        ensures refused { IfErr result (λ fault. OnStop fault (IsRefused self.old self.new (write_of self.old.page_size (record { page = page; content = bytes.now })))) }
        ensures pass { IfErr result (λ _. pass.new ≡ pass.old) }
        ensures tied { IsTied self.new pass.new }
        ensures others { OthersStay self.new.events self.old.events pass.old.id }
    {
        let id = pass.id;
        match self.desk.write_page(self.page_size, page, bytes) {
            Ok(()) => (),
            Err(stop) => return Err(StoreFault::Stopped { op: stop.op }),
        }
        self.works[usize::from(id)].wrote(page, bytes);
        let done = Done {
            kind: Kind::Write,
            id,
            page,
            bytes,
        };
        pass.story = pass.story.with(&done);
        self.story = self.story.with(&done);
        Ok(())
    }

    /// Gives a page that the transaction has journalled and written its old bytes again, and answers how many
    /// such pages are left. Where there was none it does nothing. Answers `Stopped` alone.
    pub fn undo_one(&mut self, pass: &mut Pass) -> Result<usize, StoreFault>
        requires tied { IsTied self.old pass.old }
        ensures undone { OnOk result (UndoesOne self.old self.new pass.old pass.new) }
        ensures left { IfOk result (AreToUndo self.new pass.old.id) }
        ensures over { IfOk result (λ left. left ≡ 0 → IsUndone self.new pass.old.id) }
        ensures refused { IfErr result (λ fault. OnStop fault (IsStill self.old self.new)) }
        ensures pass { IfErr result (λ _. pass.new ≡ pass.old) }
        ensures tied { IsTied self.new pass.new }
        ensures others { OthersStay self.new.events self.old.events pass.old.id }
    {
        if let Some(op) = self.desk.stopped() {
            return Err(StoreFault::Stopped { op });
        }
        let id = pass.id;
        let work = &self.works[usize::from(id)];
        let Some((page, bytes)) = work.saved.last_changed() else {
            return Ok(0);
        };
        match self.desk.write_page(self.page_size, page, bytes) {
            Ok(()) => (),
            Err(stop) => return Err(StoreFault::Stopped { op: stop.op }),
        }
        let undone = &mut self.works[usize::from(id)];
        undone.undid(page);
        let left = undone.saved.changed_count();
        let done = Done {
            kind: Kind::Undo,
            id,
            page,
            bytes: &[],
        };
        pass.story = pass.story.with(&done);
        self.story = self.story.with(&done);
        Ok(left)
    }
}
