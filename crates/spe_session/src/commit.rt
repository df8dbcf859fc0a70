//! A transaction ends with a commit.

ghost use Rattle.std.specs.Prelude.{◌≡◌, ◌≤◌, ℕ, List, None, Some, Ok, Err, IfErr, IfOk, OnErr, OnOk, false, length, max, true};
ghost use Rattle.spe_model.specs.Database.{Database};
ghost use Rattle.spe_model.specs.Justified.{Justified, ServedSince};
ghost use Rattle.spe_model.specs.Meaning.{replies_from, result_from};
ghost use Rattle.spe_model.specs.Paging.{Agrees, Paging};
ghost use Rattle.spe_served.specs.Change.{IsServed};
ghost use Rattle.spe_store.specs.Call.{IsTied, MayEnd, own_count};
ghost use Rattle.spe_store.specs.Event.{broken_in, entries_in, lives_in, open_in, seen_in, written_in};
ghost use Rattle.spe_store.specs.Served.{asked_of};
ghost use Rattle.spe_store.specs.Store.{IsOf};
ghost use Rattle.spe_session.specs.Alone.{IsAlone, IsIdle};
ghost use Rattle.spe_session.specs.Ending.{AddsEntry, IsBrokenBy, IsLeft, NamesCut, WasServed, count_after, told_after};
ghost use Rattle.spe_session.specs.Working.{IsFault, IsStop, ReadsFrom};

use crate::beginning::Beginning;
use crate::ending::put_all;
use crate::fault::{EndFailed, EndFault};
use crate::leaving::{Left, leave};
use crate::pager::Pager;
use crate::sealing::seal;
use spe_disk::Disk;
use spe_space::Pages;
use spe_store::{Log, Opening, Pass, SessionSeat, Store};

/// What a transaction leaves that was to commit.
#[derive(Drop)]
pub struct Ended<D: Disk, N: Opening> {
    /// The store, in which the transaction is no more.
    pub store: Store<D, N>,
    /// The number of its commit, from 1, or why there is none.
    pub answer: Result<u64, EndFailed>,
}

// Ends a transaction that was not committed.
fn fail<D: Disk, N: Opening>(
    store: Store<D, N>,
    pass: Pass,
    session: &mut SessionSeat,
    why: EndFault,
) -> Ended<D, N>
    requires tied { IsTied store pass }
    requires closed { store.desk.stopped ≡ None → open_in store.events pass.id ≡ false }
    requires alone { IsAlone store.events pass.id }
    ensures answer { result.answer ≡ Err (record { number = length (entries_in store.events); why = why }) }
    ensures left { IsLeft store result.store }
    ensures disk { IsOf N.opened result.store.desk }
    ensures session { session.new ≡ record session.old { told = max session.old.told (length (entries_in store.events)) } }
{
    let Left { store, number } = leave(store, pass, session);
    store.keeps();
    Ended {
        store,
        answer: Err(EndFailed { number, why }),
    }
}

// Commits what a transaction has written, and ends it.
fn end<D: Disk, N: Opening>(
    store: Store<D, N>,
    pass: Pass,
    session: &mut SessionSeat,
    log: &Log,
) -> Ended<D, N>
    requires tied { IsTied store pass }
    requires lives { lives_in store.events pass.id ≡ true }
    requires may { MayEnd N.opened store pass.id }
    requires alone { IsAlone store.events pass.id }
    requires right { Justified N.opened.read (asked_of log.now) (seen_in store.events pass.id) (written_in store.events pass.id) }
    requires unbroken { broken_in store.events ≡ None }
    ensures number { IfOk result.answer (λ number. number ≡ length (entries_in result.store.events)) }
    ensures entry { OnOk result.answer (AddsEntry (entries_in store.events) (entries_in result.store.events) session.old.number log.now (written_in store.events pass.id)) }
    ensures left { OnErr result.answer (entries_in result.store.events ≡ entries_in store.events) }
    ensures counted { OnOk result.answer (result.store.count ≡ own_count store pass.id) }
    ensures uncounted { OnErr result.answer (result.store.count ≡ store.count) }
    ensures failed { IfErr result.answer (λ failed. failed.number ≡ length (entries_in result.store.events)) }
    ensures cause { IfErr result.answer (λ failed. IsFault N.opened result.store failed.why) }
    ensures disk { IsOf N.opened result.store.desk }
    ensures going { OnOk result.answer (result.store.desk.stopped ≡ None) }
    ensures idle { result.store.desk.stopped ≡ None → IsIdle result.store.events }
    ensures broken { OnErr result.answer (IsBrokenBy session.old.number log.now (broken_in result.store.events)) }
    ensures names { IfErr result.answer (λ failed. NamesCut (broken_in result.store.events) failed.why) }
    ensures stop { IfErr result.answer (λ failed. IsStop failed.why) }
    ensures session { session.new ≡ record session.old { told = told_after session.old.told result.answer } }
    ensures sized { result.store.page_size ≡ store.page_size }
{
    let mut store = store;
    let mut pass = pass;
    match seal(&mut store, &mut pass, session, log) {
        Ok(number) => {
            let Left { store, .. } = leave(store, pass, session);
            store.keeps();
            Ended {
                store,
                answer: Ok(number),
            }
        }
        Err(why) => fail(store, pass, session, why),
    }
}

impl<D: Disk, N: Opening, K: Beginning> Pager<D, N, K> {
    /// Commits what was put: saves the pages that it changes, writes all that were put or added, and cuts the
    /// journal. Where nothing was put there is no operation.
    ///
    /// A reading that fails, or want of memory, comes before the first page is written, and then the list of
    /// commits and the pages are as before; after that a stop is the one fault that can come. Whatever comes,
    /// the transaction is no more.
    pub fn commit(self, session: &mut SessionSeat, log: &Log) -> Ended<D, N>
        requires was { WasServed N.opened }
        requires replied { (count : ℕ) (pages : Paging) (db : Database) → ServedSince N.opened.read count pages db → Agrees pages (⟦<Pager<D, N, K> as Pages>⟧.seen self)
            → log.now.replies ≡ replies_from log.now.body.kind db log.now.body.statements }
        requires served { (count : ℕ) (pages : Paging) (db : Database) → ServedSince N.opened.read count pages db → Agrees pages (⟦<Pager<D, N, K> as Pages>⟧.seen self)
            → IsServed ⟦<Pager<D, N, K> as Pages>⟧ N.opened.read self pages (result_from log.now.body.kind db log.now.body.statements) }
        ensures number { IfOk result.answer (λ number. number ≡ length (entries_in result.store.events)) }
        ensures committed { OnOk result.answer (AddsEntry K.begun.entries (entries_in result.store.events) session.old.number log.now (⟦<Pager<D, N, K> as Pages>⟧.laid self)) }
        ensures left { OnErr result.answer (entries_in result.store.events ≡ K.begun.entries) }
        ensures counted { OnOk result.answer (result.store.count ≡ count_after (⟦<Pager<D, N, K> as Pages>⟧.laid self) K.begun.count) }
        ensures uncounted { OnErr result.answer (result.store.count ≡ K.begun.count) }
        ensures failed { IfErr result.answer (λ failed. failed.number ≡ length K.begun.entries) }
        ensures cause { IfErr result.answer (λ failed. IsFault N.opened result.store failed.why) }
        ensures disk { IsOf N.opened result.store.desk }
        ensures going { OnOk result.answer (result.store.desk.stopped ≡ None) }
        ensures idle { result.store.desk.stopped ≡ None → IsIdle result.store.events }
        ensures broken { OnErr result.answer (IsBrokenBy session.old.number log.now (broken_in result.store.events)) }
        ensures names { IfErr result.answer (λ failed. NamesCut (broken_in result.store.events) failed.why) }
        ensures reads { IfErr result.answer (λ failed. ReadsFrom K.begun.reads result.store.desk.reads failed.why) }
        ensures session { session.new ≡ record session.old { told = told_after session.old.told result.answer } }
        ensures sized { result.store.page_size ≡ ⟦<Pager<D, N, K> as Pages>⟧.size self }
    {
        let Pager {
            store,
            pass,
            dirty,
            pages,
            size,
            alloc,
            ..
        } = self;
        let mut store = store;
        let mut pass = pass;
        store.keeps();
        match put_all(&mut store, &mut pass, &dirty, pages, size, alloc) {
            Ok(()) => {
                store.keeps();
                end(store, pass, session, log)
            }
            Err(why) => fail(store, pass, session, why),
        }
    }
}
