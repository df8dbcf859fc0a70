//! Who works in a race.

use spe_slots::{IdSeat, StoreSeat};

/// A thread of an id, or the store's.
#[derive(Drop)]
pub enum Worker {
    Id(IdSeat<()>),
    Store(StoreSeat<()>),
}
