// What the store tells ids, and what ids tell sessions.
ghost use Rattle.std.specs.Prelude.{◌≡◌, ◌≤◌, ◌<◌, slice_index_or};
ghost use Rattle.spe_slotrule.specs.Views.{store_part, id_part, no_record};
ghost use Rattle.spe_slotrule.specs.Known.{IdFits};
ghost use Rattle.spe_slotrule.specs.May.{IdTold, IsStill};
ghost use Rattle.spe_slotrule.specs.Tells.{store_id, id_session, counted, with_pages, with_faults, told_faults, recording, with_looks_of, without_looks};
ghost use Rattle.spe_slots.specs.Told.{listing, cleared};

use crate::answer::What;
use crate::table::{IdSeat, SessionSeat, Slots, StoreSeat};
use spe_slotrule::{COMMITS, Makes, Tell};
use std::marker::Brand;

impl<E> Slots<E> {
    /// Changes what the id's pass has read, journalled or written, in both views.
    pub fn list_page(
        &self,
        store: &mut StoreSeat<E>,
        seat: &mut IdSeat<E>,
        page: u32,
        bytes: &[u8],
        what: What,
    )
        requires table { (store.old.table ≡ self.now.table) × (seat.old.table ≡ self.now.table) }
        ensures table { (store.new.table ≡ store.old.table) × (seat.new.table ≡ seat.old.table) }
        ensures seat { seat.new.part ≡ with_pages (listing what page bytes.now seat.old.part.pages) seat.old.part }
        ensures store { store.new.part ≡ recording seat.new.part store.old.part }
        ensures recorded { slice_index_or store.new.part.records seat.new.part.id no_record ≡ seat.new.part.pages }
    {
        self.tell_pass::<Brand, _>(store, seat, (page, bytes, what));
    }

    /// The id's pass has read, journalled and written nothing.
    pub fn clear_pages(&self, store: &mut StoreSeat<E>, seat: &mut IdSeat<E>)
        requires table { (store.old.table ≡ self.now.table) × (seat.old.table ≡ self.now.table) }
        ensures table { (store.new.table ≡ store.old.table) × (seat.new.table ≡ seat.old.table) }
        ensures seat { seat.new.part ≡ cleared seat.old.part }
        ensures store { store.new.part ≡ recording seat.new.part store.old.part }
        ensures recorded { slice_index_or store.new.part.records seat.new.part.id no_record ≡ seat.new.part.pages }
    {
        self.tell_pass::<Brand, _>(store, seat, ());
    }

    /// The store has the count `faults`, and the id has the store's count of faults and its stop.
    pub fn tell_id(&self, store: &mut StoreSeat<E>, seat: &mut IdSeat<E>, faults: u64, failed: bool)
        requires table { (store.old.table ≡ self.now.table) × (seat.old.table ≡ self.now.table) }
        requires more { counted failed store.old.part.faults ≤ faults }
        ensures table { (store.new.table ≡ store.old.table) × (seat.new.table ≡ seat.old.table) }
        ensures store { store.new.part ≡ with_faults faults store.old.part }
        ensures seat { seat.new.part ≡ told_faults failed store.new.part seat.old.part }
        ensures fits { IdFits store.old.part seat.old.part.id seat.old.part }
    {
        self.tell_pass::<Brand, _>(store, seat, (faults, failed));
    }

    /// The session has the last look of the id and its counts, and the id has none.
    pub fn tell_looks(&self, seat: &mut IdSeat<E>, session: &mut SessionSeat<E>)
        requires table { (seat.old.table ≡ self.now.table) × (session.old.table ≡ self.now.table) }
        ensures table { (seat.new.table ≡ seat.old.table) × (session.new.table ≡ session.old.table) }
        ensures seat { seat.new.part ≡ without_looks seat.old.part }
        ensures session { session.new.part ≡ with_looks_of seat.old.part session.old.part }
    {
        self.tell_looks_as::<Brand>(seat, session);
    }

    // The store tells an id, as `W` says. A call picks `W` by `about`, which is for the proof alone.
    fn tell_pass<W: Makes<E>, A: Copy>(
        &self,
        store: &mut StoreSeat<E>,
        seat: &mut IdSeat<E>,
        about: A,
    )
        requires table { (store.old.table ≡ self.now.table) × (seat.old.table ≡ self.now.table) }
        requires made { W.after ≡ store_id (store_part W.after) (id_part W.after) }
        requires told { seat.old.part.id < 16 → IdTold store.old.part (store_part W.after) seat.old.part (id_part W.after) }
        requires still { IsStill store.old.part (store_part W.after) }
        ensures table { (store.new.table ≡ store.old.table) × (seat.new.table ≡ seat.old.table) }
        ensures store { store.new.part ≡ store_part W.after }
        ensures seat { seat.new.part ≡ id_part W.after }
        ensures fits { IdFits store.old.part seat.old.part.id seat.old.part }
        ensures recorded { slice_index_or (store_part W.after).records (id_part W.after).id no_record ≡ (id_part W.after).pages }
    {
        let _ = about;
        self.take_in(&mut store.seat, &mut seat.seat);
        self.table.shared.load::<Tell<W>>(&mut store.seat, COMMITS);
        self.give_id(&mut store.seat, &mut seat.seat);
    }

    fn tell_looks_as<W: Makes<E>>(&self, seat: &mut IdSeat<E>, session: &mut SessionSeat<E>)
        requires table { (seat.old.table ≡ self.now.table) × (session.old.table ≡ self.now.table) }
        requires made { W.after ≡ id_session (without_looks seat.old.part) (with_looks_of seat.old.part session.old.part) }
        ensures table { (seat.new.table ≡ seat.old.table) × (session.new.table ≡ session.old.table) }
        ensures seat { seat.new.part ≡ without_looks seat.old.part }
        ensures session { session.new.part ≡ with_looks_of seat.old.part session.old.part }
    {
        self.take_in(&mut session.seat, &mut seat.seat);
        self.table
            .shared
            .load::<Tell<W>>(&mut session.seat, COMMITS);
        self.give_id(&mut session.seat, &mut seat.seat);
    }
}
