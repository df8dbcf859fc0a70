//! A transaction commits, or is rolled back.

use crate::cut::cut_journal;
use crate::kind::{Ending, Kind};
use crate::log::Log;
use crate::opening::Opening;
use crate::pass::Pass;
use crate::session::{Receipt, SessionSeat};
use crate::stop::StoreFault;
use crate::store::Store;
use crate::story::{Done, Ended};
use spe_disk::Disk;

impl<D: Disk, N: Opening> Store<D, N> {
    ghost use Rattle.std.specs.Prelude.{◌≡◌, ◌⊎◌, ◌+◌, true, length, OnOk, IfOk, IfErr};
    ghost use Rattle.spe_model.specs.Justified.{Justified};
    ghost use Rattle.spe_model.specs.Rollback.{cut_of};
    ghost use Rattle.spe_store.specs.Call.{CutsIf, HasBroken, HasCommitted, HasHalted, IsTied, IsUndone, LeavesSeen, MayEnd};
    ghost use Rattle.spe_store.specs.Event.{entries_in, lives_in, open_in, seen_in, written_in};
    ghost use Rattle.spe_store.specs.Event.Event.{Dropped};
    ghost use Rattle.spe_store.specs.Pass.{OthersStay};
    ghost use Rattle.spe_store.specs.Served.{asked_of};
    ghost use Rattle.spe_store.specs.Store.{HadStopped, HasDone, IsRefused, OnStop};

    /// Commits what the transaction wrote: cuts its journal, where that is open, and enters it in the list
    /// of commits. Answers `Stopped` alone.
    ///
    /// A transaction that wrote nothing commits without an operation. Read pins will see to it that no other
    /// transaction has read a page that this one wrote.
    pub fn commit(
        &mut self,
        pass: &mut Pass,
        session: &mut SessionSeat,
        log: &Log,
    ) -> Result<Receipt, StoreFault>
        requires tied { IsTied self.old pass.old }
        requires lives { lives_in self.old.events pass.old.id ≡ true }
        requires may { MayEnd N.opened self.old pass.old.id }
        requires alone { LeavesSeen self.old pass.old.id }
        requires right { Justified N.opened.read (asked_of log.now) (seen_in self.old.events pass.old.id) (written_in self.old.events pass.old.id) }
        ensures committed { IfOk result (λ r. HasCommitted self.old self.new pass.old pass.new session.old.number log.now r.ops) }
        ensures number { IfOk result (λ r. r.number ≡ length (entries_in self.new.events)) }
        ensures session { IfOk result (λ r. session.new ≡ record session.old { told = r.number }) }
        ensures made { OnOk result (CutsIf (open_in self.old.events pass.old.id) self.old.desk self.new.desk (cut_of pass.old.id)) }
        ensures refused { IfErr result (λ fault. OnStop fault (λ op. HadStopped self.old self.new op ⊎ HasBroken self.old self.new pass.old.id session.old.number log.now op)) }
        ensures pass { IfErr result (λ _. (pass.new ≡ pass.old) × (session.new ≡ session.old)) }
        ensures tied { IsTied self.new pass.new }
        ensures others { OthersStay self.new.events self.old.events pass.old.id }
    {
        if let Some(op) = self.desk.stopped() {
            return Err(StoreFault::Stopped { op });
        }
        let work = &self.works[usize::from(pass.id)];
        let end = work.end;
        let count = work.own.unwrap_or(self.count);
        match cut_journal(&mut self.desk, pass.id, end) {
            Ok(()) => (),
            Err(stop) => {
                self.story = self.story.with_end(&Ended {
                    ending: Ending::Break,
                    id: pass.id,
                    session: session.number,
                    ops: stop.op,
                    log,
                });
                return Err(StoreFault::Stopped { op: stop.op });
            }
        }
        let ops = self.desk.ops();
        let number = self.order.push(log.client, log.tx, ops);
        self.count = count;
        self.works[usize::from(pass.id)].end(self.alloc);
        let ended = Ended {
            ending: Ending::Commit,
            id: pass.id,
            session: session.number,
            ops,
            log,
        };
        pass.story = pass.story.with_end(&ended);
        self.story = self.story.with_end(&ended);
        session.told = number;
        Ok(Receipt { number, ops })
    }

    /// Drops what the transaction journalled, where nothing is left to undo: cuts its journal, where that is
    /// open. Answers `Stopped` alone. What it has read stays listed until it has finished.
    pub fn drop_journal(&mut self, pass: &mut Pass) -> Result<(), StoreFault>
        requires tied { IsTied self.old pass.old }
        requires undone { IsUndone self.old pass.old.id }
        ensures done { OnOk result (HasDone self.old self.new pass.old pass.new (Dropped pass.old.id)) }
        ensures made { OnOk result (CutsIf (open_in self.old.events pass.old.id) self.old.desk self.new.desk (cut_of pass.old.id)) }
        ensures refused { IfErr result (λ fault. OnStop fault (λ op. HadStopped self.old self.new op ⊎ HasHalted self.old self.new op)) }
        ensures pass { IfErr result (λ _. pass.new ≡ pass.old) }
        ensures tied { IsTied self.new pass.new }
        ensures others { OthersStay self.new.events self.old.events pass.old.id }
    {
        if let Some(op) = self.desk.stopped() {
            return Err(StoreFault::Stopped { op });
        }
        let id = pass.id;
        let end = self.works[usize::from(id)].end;
        match cut_journal(&mut self.desk, id, end) {
            Ok(()) => (),
            Err(stop) => return Err(StoreFault::Stopped { op: stop.op }),
        }
        self.works[usize::from(id)].end(self.alloc);
        let done = Done {
            kind: Kind::Drop,
            id,
            page: 0,
            bytes: &[],
        };
        pass.story = pass.story.with(&done);
        self.story = self.story.with(&done);
        Ok(())
    }
}
