// How the store takes all sessions in at the end.
ghost use Rattle.std.specs.Prelude.{◌≡◌, ◌≢◌, ◌≤◌, ℕ, ◌++◌, ◌∷◌, [], All, length, map};
ghost use Rattle.std.specs.List.{sum_by};
ghost use mathlib.Core.List.{IsPrefix};
ghost use Rattle.spe_slotrule.specs.Views.{store_view};
ghost use Rattle.spe_slotrule.specs.Known.{by_session, stopped_of, session_failed, IsStop};
ghost use Rattle.spe_slotrule.specs.Tells.{taking_in, store_maker, IsClosed};
ghost use Rattle.spe_slots.specs.Closed.{parts_of, having_taken};

use crate::table::{ClosingSeat, Maker, SessionSeat, Sessions, Slots, StoreSeat};
use spe_slotrule::{COMMITS, Makes, Tell};
use std::marker::Brand;

impl<E> Slots<E> {
    /// Takes the table apart, where all sessions that were ever drawn are handed in. What each has
    /// seen begins the store's list, its own list has those commits of the store's list that carry its
    /// number, and each commit carries the number of one of these sessions.
    pub fn close(self, store: StoreSeat<E>, maker: Maker<E>, sessions: Sessions<E>)
        requires table { (store.table ≡ self.table) × (maker.table ≡ self.table) }
        requires seated { All (λ s. s.table ≡ self.table) sessions }
        requires all { length sessions ≡ maker.part.sessions }
        ensures seen { All (λ s. IsPrefix s.part.seen store.part.commits) sessions }
        ensures told { All (λ s. s.part.told ≤ length store.part.commits) sessions }
        ensures own { All (λ s. s.part.own ≡ by_session s.part.number store.part.commits) sessions }
        ensures no_other { (number : ℕ) → All (λ s. s.part.number ≢ number) sessions → by_session number store.part.commits ≡ [] }
        ensures faults { All (λ s. s.part.faults ≤ store.part.faults) sessions }
        ensures failed { sum_by session_failed (parts_of sessions) ≤ store.part.faults }
        ensures stop { All (λ s. IsStop s.part.stop store.part.stop) sessions }
        ensures stopped { All (λ s. s.part.stopped ≡ stopped_of s.part.number store.part.stop) sessions }
    {
        self.close_all(store, maker, sessions);
    }

    fn close_all(self, store: StoreSeat<E>, maker: Maker<E>, sessions: Sessions<E>)
        requires table { (store.table ≡ self.table) × (maker.table ≡ self.table) }
        requires seated { All (λ s. s.table ≡ self.table) sessions }
        requires all { length sessions ≡ maker.part.sessions }
        ensures taken { IsClosed (having_taken (parts_of sessions) store.part) }
        ensures first { store.part.closed ≡ [] }
    {
        let mut store = ClosingSeat { seat: store.seat };
        let mut left = sessions.seats;
        while let Some(session) = left.pop() {
            self.take_session::<Brand>(&mut store, session);
        }
        self.see_all::<Brand>(store, maker);
    }

    fn take_session<W: Makes<E>>(&self, store: &mut ClosingSeat<E>, mut session: SessionSeat<E>)
        requires table { (store.old.table ≡ self.now.table) × (session.table ≡ self.now.table) }
        requires made { W.after ≡ store_view (taking_in session.part store.old.part) }
        ensures table { store.new.table ≡ store.old.table }
        ensures store { store.new.part ≡ taking_in session.part store.old.part }
    {
        self.take_in(&mut store.seat, &mut session.seat);
        self.table.shared.load::<Tell<W>>(&mut store.seat, COMMITS);
    }

    fn see_all<W: Makes<E>>(&self, mut store: ClosingSeat<E>, mut maker: Maker<E>)
        requires table { (store.table ≡ self.now.table) × (maker.table ≡ self.now.table) }
        requires all { length store.part.closed ≡ maker.part.sessions }
        requires made { W.after ≡ store_maker store.part maker.part }
        ensures { IsClosed store.part }
    {
        self.take_in(&mut store.seat, &mut maker.seat);
        self.table.shared.load::<Tell<W>>(&mut store.seat, COMMITS);
    }
}
