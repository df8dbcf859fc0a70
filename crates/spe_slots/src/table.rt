// The table and the seats of the ids.
ghost use Rattle.std.specs.Prelude.{◌≡◌, ◌%◌, ◌<◌};

use atomic_table::{Seat, Table};
use spe_slotrule::{SlotRule, View};
use std::alloc::Global;
use std::marker::Model;

/// The table, which threads share by reference. `E` is the type of a commit's log.
#[derive(Drop)]
pub struct Slots<E> {
    pub(crate) table: Table<(), View<E>, u64, SlotRule, Global>,
    pub(crate) count: u32,
}

impl<E> Model for Slots<E> {
    ghost use Rattle.std.specs.Prelude.{◌≡◌, ◌+◌};
    ghost use Rattle.spe_slotrule.specs.declared.rule.TheConstants.{FIRST_LOCK};
    ghost use Rattle.spe_slots.specs.Seats.{LockTable, IsLockCount};

    ghost Value = { LockTable };

    ghost view = { λ s. record { table = s.table.shared.table_id; count = s.count } };

    ghost invariant = { λ s. IsLockCount s.count × (s.table.shared.table_id.words ≡ s.count + FIRST_LOCK) × (s.table.shared.key ≡ s.count) };
}

/// The seat of an id. Only its calls change what the id knows.
#[derive(Drop)]
pub struct IdSeat<E> {
    pub(crate) seat: Seat<(), View<E>>,
    pub(crate) id: u8,
}

impl<E> Model for IdSeat<E> {
    ghost use Rattle.spe_slots.specs.Seats.{SeatedId, IsIdSeat};
    ghost use Rattle.spe_slotrule.specs.Views.{id_part};

    ghost Value = { SeatedId };

    ghost view = { λ s. record { table = s.seat.table_id; part = id_part s.seat.me.0 } };

    ghost invariant = { λ s. IsIdSeat s.seat.me s.id };
}

/// The seats of the ids 0 to 15, in this order. Contracts see them as a list.
#[derive(Drop)]
pub struct Ids<E> {
    pub(crate) seats: Vec<IdSeat<E>>,
}

impl<E> Model for Ids<E> {
    ghost use Rattle.std.specs.Prelude.{List};
    ghost use Rattle.spe_slots.specs.Seats.{SeatedId};

    ghost Value = { List SeatedId };

    ghost view = { λ ids. ids.seats.items };
}

/// The seat of the store. Who has it has the turn to add a commit.
#[derive(Drop)]
pub struct StoreSeat<E> {
    pub(crate) seat: Seat<(), View<E>>,
}

impl<E> Model for StoreSeat<E> {
    ghost use Rattle.spe_slots.specs.Seats.{SeatedStore, IsOpenStore};
    ghost use Rattle.spe_slotrule.specs.Views.{store_part};

    ghost Value = { SeatedStore E };

    ghost view = { λ s. record { table = s.seat.table_id; part = store_part s.seat.me.0 } };

    ghost invariant = { λ s. IsOpenStore s.seat.me };
}

// The store's seat while it takes the sessions in.
#[derive(Drop)]
pub(crate) struct ClosingSeat<E> {
    pub(crate) seat: Seat<(), View<E>>,
}

impl<E> Model for ClosingSeat<E> {
    ghost use Rattle.spe_slots.specs.Seats.{SeatedStore, IsStoreSeat};
    ghost use Rattle.spe_slotrule.specs.Views.{store_part};

    ghost Value = { SeatedStore E };

    ghost view = { λ s. record { table = s.seat.table_id; part = store_part s.seat.me.0 } };

    ghost invariant = { λ s. IsStoreSeat s.seat.me };
}

/// The seat of a session.
#[derive(Drop)]
pub struct SessionSeat<E> {
    pub(crate) seat: Seat<(), View<E>>,
    pub(crate) told: u64,
}

impl<E> Model for SessionSeat<E> {
    ghost use Rattle.spe_slots.specs.Seats.{SeatedSession, IsSessionSeat};
    ghost use Rattle.spe_slotrule.specs.Views.{session_part};

    ghost Value = { SeatedSession E };

    ghost view = { λ s. record { table = s.seat.table_id; part = session_part s.seat.me.0 } };

    ghost invariant = { λ s. IsSessionSeat s.seat.me s.told };
}

/// Seats of sessions. Contracts see them as a list.
#[derive(Drop)]
pub struct Sessions<E> {
    pub(crate) seats: Vec<SessionSeat<E>>,
}

impl<E> Model for Sessions<E> {
    ghost use Rattle.std.specs.Prelude.{List};
    ghost use Rattle.spe_slots.specs.Seats.{SeatedSession};

    ghost Value = { List (SeatedSession E) };

    ghost view = { λ sessions. sessions.seats.items };
}

/// The seat that draws session numbers. There is one for a table.
#[derive(Drop)]
pub struct Maker<E> {
    pub(crate) seat: Seat<(), View<E>>,
}

impl<E> Model for Maker<E> {
    ghost use Rattle.spe_slots.specs.Seats.{SeatedMaker, IsMaker};
    ghost use Rattle.spe_slotrule.specs.Views.{maker_part};

    ghost Value = { SeatedMaker };

    ghost view = { λ s. record { table = s.seat.table_id; part = maker_part s.seat.me.0 } };

    ghost invariant = { λ s. IsMaker s.seat.me };
}

impl<E> Slots<E> {
    /// The lock word of a page.
    pub fn word_of(&self, page: u32) -> u32
        ensures word { result ≡ page % self.now.count }
        ensures below { result < self.now.count }
    {
        page & (self.count - 1)
    }
}

impl<E> IdSeat<E> {
    /// The id, from 0 to 15.
    pub fn id(&self) -> u8
        ensures id { result ≡ self.now.part.id }
        ensures small { result < 16 }
    {
        self.id
    }
}

impl<E> SessionSeat<E> {
    /// The greatest number of commits that the session was told.
    pub fn told(&self) -> u64
        ensures { result ≡ self.now.part.told }
    {
        self.told
    }
}

impl<E> Sessions<E> {
    /// These seats.
    pub fn from_vec(seats: Vec<SessionSeat<E>>) -> Sessions<E>
        ensures { result ≡ seats.items }
    {
        Sessions { seats }
    }
}

impl<E> Ids<E> {
    /// The seats, in the order of their ids.
    pub fn into_vec(self) -> Vec<IdSeat<E>>
        ensures seats { result.items ≡ self }
    {
        self.seats
    }
}
