//! Passes are begun and finished, and ids come back.

ghost use Rattle.std.specs.Prelude.{◌≡◌, ◌≤◌, ◌<◌, length, IfSome};
ghost use Rattle.spe_store.specs.Work.{free_place};

use crate::kind::Kind;
use crate::opening::Opening;
use crate::pass::{IDS, IdSeat, Pass};
use crate::session::SessionSeat;
use crate::stop::BeginFault;
use crate::store::Store;
use crate::story::{Done, Story};
use crate::work::Work;
use spe_disk::Disk;
use std::alloc::AllocError;

impl<D: Disk, N: Opening> Store<D, N> {
    ghost use Rattle.std.specs.Prelude.{◌≡◌, false, None, length, max, IfOk, IfErr};
    ghost use Rattle.spe_store.specs.Call.{EntersIf, HasBegun, IsTied, IsUnbegun};
    ghost use Rattle.spe_store.specs.Event.{entries_in, open_in, seen_in};
    ghost use Rattle.spe_store.specs.Event.Event.{Finished, Returned};
    ghost use Rattle.spe_store.specs.Pass.{OthersStay};
    ghost use Rattle.spe_store.specs.Store.{AreSeen, IfTold, pages_in};

    /// Begins a pass with the lowest id that is free, and takes the room of its entry in the list of commits.
    ///
    /// `Stopped` comes exactly where the store has stopped, and `Sixteen` exactly where it has not and no id
    /// is free.
    pub fn take_pass(&mut self, _session: &mut SessionSeat) -> Result<Pass, BeginFault>
        ensures begun { IfOk result (HasBegun self.old self.new) }
        ensures tied { IfOk result (IsTied self.new) }
        ensures others { IfOk result (λ pass. OthersStay self.new.events self.old.events pass.id) }
        ensures unbegun { IfErr result (IsUnbegun self.old self.new) }
        ensures session { _session.new ≡ _session.old }
    {
        if let Some(op) = self.desk.stopped() {
            return Err(BeginFault::Stopped { op });
        }
        let Some(id) = free_id(self.works.as_slice()) else {
            return Err(BeginFault::Sixteen);
        };
        match self.order.reserve(IDS) {
            Ok(()) => (),
            Err(AllocError) => return Err(BeginFault::Memory),
        }
        self.works[usize::from(id)].begin(self.alloc);
        let done = Done {
            kind: Kind::Begin,
            id,
            page: 0,
            bytes: &[],
        };
        self.story = self.story.with(&done);
        let story = Story::none().with(&done);
        Ok(Pass { id, story })
    }

    /// Finishes a pass whose journal is not open, or any once the store has stopped, and answers how many
    /// commits there are: all that it has read, unless it has committed, is as after these.
    ///
    /// A read pin of each page that it has read will see to that.
    pub fn finish(&mut self, pass: Pass, session: &mut SessionSeat) -> (IdSeat, u64)
        requires tied { IsTied self.old pass }
        requires closed { self.old.desk.stopped ≡ None → open_in self.old.events pass.id ≡ false }
        ensures id { result.0 ≡ pass.id }
        ensures number { result.1 ≡ length (entries_in self.old.events) }
        ensures session { session.new ≡ record session.old { told = max session.old.told result.1 } }
        ensures agrees { IfTold self.old.desk.told (λ h. AreSeen (pages_in N.opened self.old.events) (seen_in pass.done pass.id)) }
        ensures enters { EntersIf self.old.desk.stopped self.old self.new (Finished pass.id) }
        ensures others { OthersStay self.new.events self.old.events pass.id }
    {
        let id = pass.id;
        let number = self.order.len() as u64;
        session.told = session.told.max(number);
        if self.desk.stopped().is_some() {
            return (IdSeat { id }, number);
        }
        self.works[usize::from(id)].end(self.alloc);
        self.story = self.story.with(&Done {
            kind: Kind::Finish,
            id,
            page: 0,
            bytes: &[],
        });
        (IdSeat { id }, number)
    }

    /// Takes an id back.
    pub fn put_back(&mut self, _session: &mut SessionSeat, seat: IdSeat)
        ensures enters { EntersIf self.old.desk.stopped self.old self.new (Returned seat) }
        ensures others { OthersStay self.new.events self.old.events seat }
        ensures session { _session.new ≡ _session.old }
    {
        let id = seat.id;
        if self.desk.stopped().is_some() {
            return;
        }
        let work = &mut self.works[usize::from(id)];
        work.out = false;
        self.story = self.story.with(&Done {
            kind: Kind::Return,
            id,
            page: 0,
            bytes: &[],
        });
    }
}

// The first id that is free.
fn free_id(works: &[Work]) -> Option<u8>
    requires few { length works.now ≤ 16 }
    ensures place { result ≡ free_place works.now }
    ensures within { IfSome result (λ id. id < length works.now) }
{
    let mut id = 0;
    let mut left = works;
    while let [first, rest @ ..] = left {
        if first.is_free() {
            return Some(id);
        }
        id += 1;
        left = rest;
    }
    None
}
