//! A transaction opens its journal, and saves pages in it.

ghost use Rattle.std.specs.Prelude.{◌≡◌};
ghost use Rattle.spe_store.specs.Call.{low_half};

use crate::entry::{Entry, Place, entry_of};
use crate::kind::Kind;
use crate::opening::Opening;
use crate::pass::Pass;
use crate::stop::{Mishap, StoreFault};
use crate::store::Store;
use crate::story::Done;
use spe_disk::{Disk, FileNo};
use spe_journal::{HEAD_BYTES, put_head};
use std::alloc::AllocError;

impl<D: Disk, N: Opening> Store<D, N> {
    ghost use Rattle.std.specs.Prelude.{◌≡◌, ◌≤◌, true, false, length, OnOk, IfErr};
    ghost use Rattle.spe_model.specs.Journal.{head_bytes};
    ghost use Rattle.spe_model.specs.declared.file.FileNo.TheVariants.{Journal};
    ghost use Rattle.spe_model.specs.Trace.Operation.{Write};
    ghost use Rattle.spe_store.specs.Call.{HasJournalled, IsTied, IsUnsaved, MayJournal, low_half};
    ghost use Rattle.spe_store.specs.Desk.{Does};
    ghost use Rattle.spe_store.specs.Event.{open_in};
    ghost use Rattle.spe_store.specs.Event.Event.{Opened};
    ghost use Rattle.spe_store.specs.Pass.{OthersStay};
    ghost use Rattle.spe_store.specs.Store.{HasDone, IsRefused, OnStop};

    /// Writes the head of the journal. How many operations there were before gives the nonce, by its low
    /// 32 bits; the size is that of the database after all commits. Answers `Stopped` alone.
    pub fn open_journal(&mut self, pass: &mut Pass) -> Result<(), StoreFault>
        requires tied { IsTied self.old pass.old }
        requires closed { open_in self.old.events pass.old.id ≡ false }
        ensures done { OnOk result (HasDone self.old self.new pass.old pass.new (Opened pass.old.id)) }
        ensures made { OnOk result (Does self.old.desk self.new.desk (Write (Journal pass.old.id) 0 (head_bytes (low_half self.old.desk.ops) self.old.count self.old.page_size))) }
        ensures refused { IfErr result (λ fault. OnStop fault (IsRefused self.old self.new (Write (Journal pass.old.id) 0 (head_bytes (low_half self.old.desk.ops) self.old.count self.old.page_size)))) }
        ensures pass { IfErr result (λ _. pass.new ≡ pass.old) }
        ensures tied { IsTied self.new pass.new }
        ensures others { OthersStay self.new.events self.old.events pass.old.id }
    {
        let nonce = low_half(self.desk.ops());
        let mut head = [0; HEAD_BYTES];
        put_head(nonce, self.count, self.page_size, &mut head);
        match self.desk.write(FileNo::Journal(pass.id), 0, &head) {
            Ok(()) => (),
            Err(stop) => return Err(StoreFault::Stopped { op: stop.op }),
        }
        let work = &mut self.works[usize::from(pass.id)];
        work.nonce = nonce;
        work.end = HEAD_BYTES as u64;
        let done = Done {
            kind: Kind::Open,
            id: pass.id,
            page: 0,
            bytes: &[],
        };
        pass.story = pass.story.with(&done);
        self.story = self.story.with(&done);
        Ok(())
    }

    /// Reads a page as it is after all commits, keeps it, and writes a record of it. A page that the
    /// transaction has journalled already needs no operation.
    ///
    /// A write pin of the page will see to it that no other transaction has journalled it.
    pub fn journal(&mut self, pass: &mut Pass, page: u32) -> Result<(), StoreFault>
        requires tied { IsTied self.old pass.old }
        requires begun { open_in self.old.events pass.old.id ≡ true }
        requires may { MayJournal self.old pass.old.id page }
        ensures done { OnOk result (HasJournalled N.opened self.old self.new pass.old pass.new page) }
        ensures unsaved { IfErr result (IsUnsaved self.old self.new) }
        ensures reads { self.old.desk.reads ≤ self.new.desk.reads }
        ensures pass { IfErr result (λ _. pass.new ≡ pass.old) }
        ensures tied { IsTied self.new pass.new }
        ensures others { OthersStay self.new.events self.old.events pass.old.id }
    {
        if let Some(op) = self.desk.stopped() {
            return Err(StoreFault::Stopped { op });
        }
        let work = &self.works[usize::from(pass.id)];
        if work.saved.has(page) {
            return Ok(());
        }
        let place = Place {
            nonce: work.nonce,
            page,
            at: work.end,
        };
        let entry = match entry_of(&mut self.desk, self.alloc, self.page_size, place) {
            Ok(entry) => entry,
            Err(Mishap::Reading) => return Err(StoreFault::ReadFault),
            Err(Mishap::Memory) => return Err(StoreFault::Memory),
        };
        let done = Done {
            kind: Kind::Journal,
            id: pass.id,
            page,
            bytes: entry.old.as_slice(),
        };
        let own = pass.story.with(&done);
        let story = self.story.with(&done);
        let Entry { old, text, end } = entry;
        let work = &mut self.works[usize::from(pass.id)];
        match work.saved.add(page, old) {
            Ok(()) => (),
            Err(AllocError) => return Err(StoreFault::Memory),
        }
        match self.desk.write(FileNo::Journal(pass.id), place.at, &text) {
            Ok(()) => (),
            Err(stop) => return Err(StoreFault::Stopped { op: stop.op }),
        }
        work.end = end;
        pass.story = own;
        self.story = story;
        Ok(())
    }
}

// The low 32 bits of a number.
fn low_half(n: u64) -> u32
    ensures { result ≡ low_half n }
{
    (n & 0xffff_ffff) as u32
}
