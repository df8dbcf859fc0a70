//! A transaction leaves its store: its id comes back.

ghost use Rattle.std.specs.Prelude.{◌≡◌, ℕ, None, Some, false, length, max};
ghost use Rattle.spe_model.specs.Faults.{Rose};
ghost use Rattle.spe_space.specs.declared.fault.SpaceFault.TheVariants.{Full, Read};
ghost use Rattle.spe_store.specs.Call.{IsTied};
ghost use Rattle.spe_store.specs.Event.{entries_in, open_in, seen_in};
ghost use Rattle.spe_store.specs.Store.{AreSeen, IfTold, pages_in};
ghost use Rattle.spe_session.specs.Alone.{IsAlone, IsIdle};
ghost use Rattle.spe_session.specs.Below.{HasNoRoom, below_of};
ghost use Rattle.spe_session.specs.Ending.{IsLeft};

use crate::beginning::Beginning;
use crate::pager::{Pager, Parts};
use spe_disk::Disk;
use spe_space::Pages;
use spe_store::{Opening, Pass, SessionSeat, Store};

/// What a transaction leaves that has not committed.
#[derive(Drop)]
pub struct Left<D: Disk, N: Opening> {
    /// The store, in which the transaction is no more.
    pub store: Store<D, N>,
    /// How many commits there are. All that the transaction has read is as after these.
    pub number: u64,
}

// Finishes a pass, and gives its id back.
pub(crate) fn leave<D: Disk, N: Opening>(
    store: Store<D, N>,
    pass: Pass,
    session: &mut SessionSeat,
) -> Left<D, N>
    requires tied { IsTied store pass }
    requires closed { store.desk.stopped ≡ None → open_in store.events pass.id ≡ false }
    requires alone { IsAlone store.events pass.id }
    ensures left { IsLeft store result.store }
    ensures number { result.number ≡ length (entries_in store.events) }
    ensures session { session.new ≡ record session.old { told = max session.old.told result.number } }
    ensures agrees { IfTold store.desk.told (λ _. AreSeen (pages_in N.opened store.events) (seen_in pass.done pass.id)) }
{
    let mut store = store;
    let (seat, number) = store.finish(pass, session);
    store.put_back(session, seat);
    Left { store, number }
}

impl<D: Disk, N: Opening, K: Beginning> Pager<D, N, K> {
    /// Gives a transaction up, as for a rollback or where it can't go on. Nothing was written, so that the
    /// files and the commits are those on which it began.
    ///
    /// Where the disk tells its files, all that was read is as after these commits, so that replies that
    /// follow from it are those of the database that the commits leave.
    pub fn give_up(self, session: &mut SessionSeat) -> Left<D, N>
        ensures going { result.store.desk.stopped ≡ None }
        ensures files { result.store.desk.told ≡ K.begun.told }
        ensures commits { entries_in result.store.events ≡ K.begun.entries }
        ensures counted { result.store.count ≡ K.begun.count }
        ensures sized { result.store.page_size ≡ ⟦<Pager<D, N, K> as Pages>⟧.size self }
        ensures number { result.number ≡ length K.begun.entries }
        ensures idle { IsIdle result.store.events }
        ensures caused { ⟦<Pager<D, N, K> as Pages>⟧.refusal self ≡ Some Read → Rose K.begun.reads result.store.desk.reads }
        ensures filled { (number : ℕ) → ⟦<Pager<D, N, K> as Pages>⟧.refusal self ≡ Some (Full number) → HasNoRoom number result.store.page_size }
        ensures agrees { IfTold K.begun.told (λ _. AreSeen (pages_in N.opened result.store.events) (⟦<Pager<D, N, K> as Pages>⟧.seen self)) }
        ensures told { below_of N.opened result.store ≡ ⟦<Pager<D, N, K> as Pages>⟧.told self }
        ensures session { session.new ≡ record session.old { told = max session.old.told result.number } }
    {
        let Parts { store, pass } = self.into_parts();
        leave(store, pass, session)
    }
}
