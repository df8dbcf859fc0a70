// What the store tells sessions. Each call picks what its step makes of the two parts.
ghost use Rattle.std.specs.Prelude.{◌≡◌, ◌≤◌, ◌<◌, ℕ, false, None, Some};
ghost use Rattle.spe_slotrule.specs.Views.{store_view};
ghost use Rattle.spe_slotrule.specs.Known.{SessionFits, is_given_out, IdsAreOutOnce};
ghost use Rattle.spe_slotrule.specs.Tells.{counted, with_faults, told_all, giving_out, taking_home, with_out, stopping, stopped_at};
ghost use Rattle.spe_slots.specs.Told.{stopped_entry};

use crate::table::{SessionSeat, Slots, StoreSeat};
use spe_slotrule::{COMMITS, Makes, Tell};
use std::marker::Brand;

impl<E> Slots<E> {
    /// The store has the count `faults`, and the session has all that the store has. Where the
    /// session's own read failed, its failed reads rise by one.
    pub fn tell(
        &self,
        store: &mut StoreSeat<E>,
        session: &mut SessionSeat<E>,
        faults: u64,
        failed: bool,
    )
        requires table { (store.old.table ≡ self.now.table) × (session.old.table ≡ self.now.table) }
        requires more { counted failed store.old.part.faults ≤ faults }
        ensures table { (store.new.table ≡ store.old.table) × (session.new.table ≡ session.old.table) }
        ensures store { store.new.part ≡ with_faults faults store.old.part }
        ensures session { session.new.part ≡ told_all failed store.new.part session.old.part }
        ensures fits { SessionFits store.old.part session.old.part.number session.old.part }
    {
        session.told = self.tell_session::<Brand, _>(store, &mut session.seat, (faults, failed));
    }

    /// The id goes out with the session. Nobody has it out, and the session has none.
    pub fn hand_out(&self, store: &mut StoreSeat<E>, session: &mut SessionSeat<E>, id: u8)
        requires table { (store.old.table ≡ self.now.table) × (session.old.table ≡ self.now.table) }
        requires small { id < 16 }
        requires free { is_given_out id store.old.part.out ≡ false }
        requires none_out { session.old.part.out ≡ None }
        ensures table { (store.new.table ≡ store.old.table) × (session.new.table ≡ session.old.table) }
        ensures store { store.new.part ≡ giving_out id session.old.part.number store.old.part }
        ensures session { session.new.part ≡ with_out (Some id) session.old.part }
        ensures once { IdsAreOutOnce store.new.part.out }
    {
        self.tell_session::<Brand, _>(store, &mut session.seat, id);
    }

    /// The id that the session has out comes home.
    pub fn take_home(&self, store: &mut StoreSeat<E>, session: &mut SessionSeat<E>)
        requires table { (store.old.table ≡ self.now.table) × (session.old.table ≡ self.now.table) }
        ensures table { (store.new.table ≡ store.old.table) × (session.new.table ≡ session.old.table) }
        ensures store { store.new.part ≡ taking_home session.old.part.out session.old.part.number store.old.part }
        ensures session { session.new.part ≡ with_out None session.old.part }
        ensures once { IdsAreOutOnce store.new.part.out }
    {
        self.tell_session::<Brand, _>(store, &mut session.seat, ());
    }

    /// The store stops at the operation `op`.
    pub fn stop(&self, store: &mut StoreSeat<E>, op: u64)
        requires table { store.old.table ≡ self.now.table }
        requires runs { store.old.part.stop ≡ None }
        ensures table { store.new.table ≡ store.old.table }
        ensures store { store.new.part ≡ stopping op None store.old.part }
    {
        self.stop_store::<Brand>(store, op);
    }

    /// The store stops at the operation `op`, which was the cut of the session's commit.
    pub fn stop_commit(
        &self,
        store: &mut StoreSeat<E>,
        session: &mut SessionSeat<E>,
        log: &E,
        op: u64,
    )
        requires table { (store.old.table ≡ self.now.table) × (session.old.table ≡ self.now.table) }
        requires runs { store.old.part.stop ≡ None }
        ensures table { (store.new.table ≡ store.old.table) × (session.new.table ≡ session.old.table) }
        ensures store { store.new.part ≡ stopping op (Some (stopped_entry log.now store.old.part session.old.part)) store.old.part }
        ensures session { session.new.part ≡ stopped_at op (stopped_entry log.now store.old.part session.old.part) session.old.part }
    {
        self.tell_session::<Brand, _>(store, &mut session.seat, (log, op));
    }

    fn stop_store<W: Makes<E>>(&self, store: &mut StoreSeat<E>, op: u64)
        requires table { store.old.table ≡ self.now.table }
        requires runs { store.old.part.stop ≡ None }
        requires made { W.after ≡ store_view (stopping op None store.old.part) }
        ensures table { store.new.table ≡ store.old.table }
        ensures store { store.new.part ≡ stopping op None store.old.part }
    {
        let _ = op;
        self.table.shared.load::<Tell<W>>(&mut store.seat, COMMITS);
    }
}
