//! A table of lock words, with a seat for each of sixteen ids, for the store and for each session.
//!
//! A page is read and written under the lock word that [`Slots::word_of`] answers. A try makes at
//! most one load and one exchange, and waits for nobody. Its contract says what the id's seat knows
//! afterwards: `Done` that the id has the lock, `Conflict` the word that was not free or was pinned,
//! `Raced` that another step came between the load and the exchange.
//!
//! The store's seat pins locks, so that they can't be given up, enters commits, and tells ids and
//! sessions what it knows. What any session has seen begins the store's list of commits. All that
//! seats know is for contracts alone: only [`Slots::new`] takes memory.
#![tactic(auto)]

mod answer;
mod close;
mod commits;
mod lists;
mod make;
mod pins;
mod seats;
mod steps;
mod table;
mod tells;
mod tries;

pub use answer::{Pin, Shown, Try, What};
pub use table::{IdSeat, Ids, Maker, SessionSeat, Sessions, Slots, StoreSeat};
