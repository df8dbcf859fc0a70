// How a commit is entered, and how sessions meet.
ghost use Rattle.std.specs.Prelude.{◌≡◌, ◌≤◌, ◌+◌, ◌^◌, ◌<◌, ℕ, [], length};
ghost use mathlib.Core.List.{IsPrefix};
ghost use Rattle.spe_slotrule.specs.Views.{session_part, session_view};
ghost use Rattle.spe_slotrule.specs.Known.{SessionFits};
ghost use Rattle.spe_slotrule.specs.Shares.{note_from};
ghost use Rattle.spe_slotrule.specs.Tells.{store_session, longer, committing, met};
ghost use Rattle.spe_slots.specs.Seats.{IsSession};
ghost use Rattle.spe_slots.specs.Told.{entry};

use crate::table::{SessionSeat, Slots, StoreSeat};
use atomic_table::Seat;
use spe_slotrule::{COMMITS, Commit, JoinParts, Makes, SplitNote, Tell, View};
use std::marker::Brand;

impl<E> Slots<E> {
    /// Enters a commit of the session, and answers its number.
    pub fn add_commit(
        &self,
        store: &mut StoreSeat<E>,
        session: &mut SessionSeat<E>,
        log: &E,
        ops: u64,
    ) -> u64
        requires table { (store.old.table ≡ self.now.table) × (session.old.table ≡ self.now.table) }
        requires room { length store.old.part.commits + 1 < 2 ^ 64 }
        ensures table { (store.new.table ≡ store.old.table) × (session.new.table ≡ session.old.table) }
        ensures number { result ≡ length store.old.part.commits + 1 }
        ensures store { store.new.part ≡ longer (entry log.now ops store.old.part session.old.part) store.old.part }
        ensures session { session.new.part ≡ committing (entry log.now ops store.old.part session.old.part) store.old.part session.old.part }
        ensures fits { SessionFits store.old.part session.old.part.number session.old.part }
    {
        self.add::<Brand>(store, session, log, ops)
    }

    /// The second session has seen what the first had seen, and was told as much.
    pub fn meet(&self, from: &mut SessionSeat<E>, to: &mut SessionSeat<E>)
        requires table { (from.old.table ≡ self.now.table) × (to.old.table ≡ self.now.table) }
        ensures table { (from.new.table ≡ from.old.table) × (to.new.table ≡ to.old.table) }
        ensures same { from.new.part ≡ from.old.part }
        ensures met { to.new.part ≡ met (note_from from.old.part) to.old.part }
        ensures seen { IsPrefix from.old.part.seen to.new.part.seen }
        ensures kept { IsPrefix to.old.part.seen to.new.part.seen }
        ensures told { from.old.part.told ≤ to.new.part.told }
    {
        self.meet_by_note::<Brand>(from, to);
    }

    fn add<W: Makes<E>>(
        &self,
        store: &mut StoreSeat<E>,
        session: &mut SessionSeat<E>,
        log: &E,
        ops: u64,
    ) -> u64
        requires table { (store.old.table ≡ self.now.table) × (session.old.table ≡ self.now.table) }
        requires room { length store.old.part.commits + 1 < 2 ^ 64 }
        requires made { W.after ≡ store_session (longer (entry log.now ops store.old.part session.old.part) store.old.part) (committing (entry log.now ops store.old.part session.old.part) store.old.part session.old.part) }
        ensures table { (store.new.table ≡ store.old.table) × (session.new.table ≡ session.old.table) }
        ensures number { result ≡ length store.old.part.commits + 1 }
        ensures store { store.new.part ≡ longer (entry log.now ops store.old.part session.old.part) store.old.part }
        ensures session { session.new.part ≡ committing (entry log.now ops store.old.part session.old.part) store.old.part session.old.part }
        ensures fits { SessionFits store.old.part session.old.part.number session.old.part }
    {
        let _ = log;
        let _ = ops;
        self.take_in(&mut store.seat, &mut session.seat);
        let found = self
            .table
            .shared
            .fetch_add::<Commit<W>>(&mut store.seat, COMMITS, 1);
        self.give_session(&mut store.seat, &mut session.seat);
        session.told = found + 1;
        found + 1
    }

    fn meet_by_note<W: Makes<E>>(&self, from: &mut SessionSeat<E>, to: &mut SessionSeat<E>)
        requires table { (from.old.table ≡ self.now.table) × (to.old.table ≡ self.now.table) }
        requires made { W.after ≡ session_view (met (note_from from.old.part) to.old.part) }
        ensures table { (from.new.table ≡ from.old.table) × (to.new.table ≡ to.old.table) }
        ensures same { from.new.part ≡ from.old.part }
        ensures met { to.new.part ≡ met (note_from from.old.part) to.old.part }
        ensures seen { IsPrefix from.old.part.seen to.new.part.seen }
        ensures kept { IsPrefix to.old.part.seen to.new.part.seen }
    {
        self.pass_note::<W>(&mut from.seat, &mut to.seat);
        if to.told < from.told {
            to.told = from.told;
        }
    }

    // The first seat's session tells the second's.
    fn pass_note<W: Makes<E>>(&self, from: &mut Seat<(), View<E>>, to: &mut Seat<(), View<E>>)
        requires table { (from.old.table_id ≡ self.now.table) × (to.old.table_id ≡ self.now.table) }
        requires from { IsSession from.old.me }
        requires to { IsSession to.old.me }
        requires made { W.after ≡ session_view (met (note_from (session_part from.old.me.0)) (session_part to.old.me.0)) }
        ensures from { (from.new.table_id ≡ from.old.table_id) × (from.new.me ≡ from.old.me) }
        ensures to { (to.new.table_id ≡ to.old.table_id) × (to.new.me ≡ (session_view (met (note_from (session_part from.old.me.0)) (session_part to.old.me.0)), [])) }
        ensures seen { IsPrefix (session_part from.old.me.0).seen (met (note_from (session_part from.old.me.0)) (session_part to.old.me.0)).seen }
        ensures kept { IsPrefix (session_part to.old.me.0).seen (met (note_from (session_part from.old.me.0)) (session_part to.old.me.0)).seen }
    {
        let note = self.table.shared.split_seat::<SplitNote>(from);
        self.table.shared.join_seat::<JoinParts>(to, note);
        self.table.shared.load::<Tell<W>>(to, COMMITS);
    }
}
