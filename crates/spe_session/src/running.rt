//! A transaction of a client, from its begin to its end.

ghost use Rattle.std.specs.Prelude.{◌≡◌, ◌<◌, ◌≤◌, ◌∷◌, [], None, false, length, true};
ghost use Rattle.spe_model.specs.Database.{Database};
ghost use Rattle.spe_model.specs.Settled.{IsWithinLimits};
ghost use Rattle.spe_model.specs.declared.transaction.TxKind.TheVariants.{ReadWrite};
ghost use Rattle.spe_model.specs.declared.transcript.Cause.TheVariants.{Corrupt};
ghost use Rattle.spe_model.specs.declared.transcript.Outcome.TheVariants.{Fault};
ghost use Rattle.spe_frame.specs.Times.{times};
ghost use Rattle.spe_store.specs.Call.{IsTied, IsUnbegun};
ghost use Rattle.spe_store.specs.Event.{broken_in, entries_in, open_in};
ghost use Rattle.spe_store.specs.Event.Event.{Begun};
ghost use Rattle.spe_store.specs.Served.{AreServed};
ghost use Rattle.spe_store.specs.Store.{IfTold};
ghost use Rattle.spe_session.specs.Alone.{IsAlone, IsReading};
ghost use Rattle.spe_session.specs.Below.{IsUnwritten};
ghost use Rattle.spe_session.specs.Ending.{WasServed};
ghost use Rattle.spe_session.specs.Transaction.{AreRight, BreaksAs, EndsAs, Enters, EntersBy, HasReason, IsCounted, IsFilled, IsResting, IsTold, IsToldBy, KeepsBroken, ReadsFailed, StaysStopped, StopsWhole, WhereWasServed, unbegun_outcome};

use crate::alone::alone_law;
use crate::beginning::Beginning;
use crate::leaving::{Left, leave};
use crate::pager::Pager;
use crate::passing::Passing;
use crate::transaction::{Ran, Turn, carry_known, fail, finish};
use spe_disk::{Disk, Gate};
use spe_model::{Catalog, Cause, Outcome, Recovered, Replies, Tx};
use spe_store::{BeginFault, Opening, Pass, SessionSeat, Store};
use std::alloc::Global;
use std::marker::Brand;

/// What is known of a database at its opening, for all transactions.
#[derive(Clone, Copy, Drop)]
pub struct Base<'a> {
    /// What recovery found.
    pub found: &'a Recovered,
    /// The tables.
    pub catalog: &'a Catalog,
    /// The first trunk of the free list that the transactions take their pages from.
    pub first: u32,
}

// Whether a file may have so many pages of a size.
fn is_counted(pages: u32, size: u32) -> bool
    ensures { result ≡ true → IsCounted pages size }
{
    pages > 0 && u64::from(pages) * u64::from(size) <= 1 << 30
}

// The outcome of a transaction that did not begin.
fn unbegun_outcome(number: u64, fault: BeginFault) -> Outcome
    ensures { result ≡ unbegun_outcome number fault }
{
    match fault {
        BeginFault::Stopped { op } => Outcome::Fault {
            number,
            cause: Cause::Stopped { op },
        },
        BeginFault::Sixteen | BeginFault::Memory => Outcome::Memory { number },
    }
}

// A transaction that has begun and does nothing, as the store's number of pages is none that a file may have.
fn turn_away<D: Disk, N: Opening>(
    alloc: Global,
    store: Store<D, N>,
    pass: Pass,
    session: &mut SessionSeat,
) -> Ran<D, N>
    requires tied { IsTied store pass }
    requires closed { store.desk.stopped ≡ None → open_in store.events pass.id ≡ false }
    requires alone { IsAlone store.events pass.id }
    requires going { store.desk.stopped ≡ None }
    requires told { session.old.told ≤ length (entries_in store.events) }
    ensures enters { entries_in result.store.events ≡ entries_in store.events }
    ensures replies { result.replies ≡ [] }
    ensures outcome { result.outcome ≡ Fault (length (entries_in store.events)) (Corrupt 1) }
    ensures unbroken { broken_in result.store.events ≡ None }
    ensures session { IsToldBy (entries_in result.store.events) session.old session.new result.outcome }
    ensures resting { IsResting result.store }
{
    let Left { store, number } = leave(store, pass, session);
    store.keeps();
    Ran {
        store,
        outcome: Outcome::Fault {
            number,
            cause: Cause::Corrupt { page: 1 },
        },
        replies: Replies::new(Vec::new(alloc)),
    }
}

// Works on the pages of a pass that has just begun.
fn work<D: Disk, N: Opening, K: Beginning, G: Gate>(
    alloc: Global,
    store: Store<D, N>,
    pass: Pass,
    session: &mut SessionSeat,
    base: Base<'_>,
    passing: &Passing<'_, G>,
    body: Tx,
) -> Ran<D, N>
    requires limits { IsWithinLimits base.found.now }
    requires sized { store.page_size ≡ base.found.now.page_size }
    requires counted_well { IsCounted store.count base.found.now.page_size }
    requires going { store.desk.stopped ≡ None }
    requires tied { IsTied store pass }
    requires begun { pass.done ≡ Begun pass.id ∷ [] }
    requires files { store.desk.told ≡ K.begun.told }
    requires commits { entries_in store.events ≡ K.begun.entries }
    requires counted { store.count ≡ K.begun.count }
    requires id { pass.id ≡ K.begun.id }
    requires own { base.first ≡ K.begun.first }
    requires reads { K.begun.reads ≤ store.desk.reads }
    requires unwritten { IsUnwritten store.events }
    requires alone { IsAlone store.events pass.id }
    requires reading { IsReading store.events pass.id }
    requires catalog { base.catalog.now ≡ N.opened.read.catalog }
    requires first { 0 < times K.begun.first N.opened.read.trunks }
    requires was { WasServed N.opened }
    requires told { session.old.told ≤ length K.begun.entries }
    ensures enters { EntersBy K.begun.entries (entries_in result.store.events) passing.now.turn.client passing.now.turn.tx body result.replies result.outcome }
    ensures ends { EndsAs body result.outcome }
    ensures right { IfTold K.begun.told (λ _. (db : Database) → AreServed N.opened.read N.opened.pages db → AreRight K.begun.entries db body result.replies result.outcome) }
    ensures reason { HasReason result.store.desk result.outcome }
    ensures reads { ReadsFailed K.begun.reads result.store.desk.reads result.outcome }
    ensures filled { IsFilled result.store.page_size result.outcome }
    ensures broken { BreaksAs passing.now.turn.client passing.now.turn.tx body result.replies result.outcome (broken_in result.store.events) }
    ensures whole { IfTold K.begun.told (λ _. (db : Database) → AreServed N.opened.read N.opened.pages db → StopsWhole K.begun.entries db body result.replies result.outcome) }
    ensures session { IsToldBy (entries_in result.store.events) session.old session.new result.outcome }
    ensures resting { IsResting result.store }
{
    let mut pager = Pager::<D, N, K>::over_pass(alloc, store, pass, base.found, base.first);
    let mut replies = Vec::new(alloc);
    let done = carry_known(
        alloc,
        &mut pager,
        base.catalog,
        body.statements.as_slice(),
        body.kind,
        &mut replies,
        passing,
    );
    match done {
        Ok(()) => {
            passing.pass(body.statements.as_slice().len());
            finish(pager, session, passing.turn, body, Replies::new(replies))
        }
        Err(fault) => fail(pager, session, &body, fault, Replies::new(replies)),
    }
}

/// Runs a transaction that may write, while no other is at work: it begins, its statements are carried out,
/// and it commits or is rolled back as it asks, or ends with a fault, and then nothing of it is left. Each
/// statement passes the gate, and so does the ending word.
///
/// The replies are those to its statements up to the first fault. The outcome's number is that of its
/// commit, or else of the commits that it saw. `StaysStopped`: once the store has stopped, each transaction
/// ends with the operation at which it did. A transaction that stops a store has made all its replies, and
/// the commit that may have been made all the same, where there is one, is its own. `Full` comes only where
/// sixteen pages more would take over 2^30 bytes. Over a disk that does not tell its files, `Corrupt` of page 1
/// comes also where page 1 does not name the sizes that recovery found or the number of pages that the
/// store has.
pub fn run_tx<D: Disk, N: Opening, G: Gate>(
    alloc: Global,
    store: Store<D, N>,
    session: &mut SessionSeat,
    base: Base<'_>,
    gate: &G,
    turn: Turn,
    body: Tx,
) -> Ran<D, N>
    requires resting { IsResting store }
    requires limits { IsWithinLimits base.found.now }
    requires found { base.found.now ≡ N.opened.found }
    requires catalog { base.catalog.now ≡ N.opened.read.catalog }
    requires first { 0 < times base.first N.opened.read.trunks }
    requires served { WasServed N.opened }
    requires kind { body.kind ≡ ReadWrite }
    requires told { session.old.told ≤ length (entries_in store.events) }
    ensures enters { Enters store result.store turn.client turn.tx body result.replies result.outcome }
    ensures ends { EndsAs body result.outcome }
    ensures right { WhereWasServed N.opened (λ db. AreRight (entries_in store.events) db body result.replies result.outcome) }
    ensures reason { HasReason result.store.desk result.outcome }
    ensures reads { ReadsFailed store.desk.reads result.store.desk.reads result.outcome }
    ensures filled { IsFilled result.store.page_size result.outcome }
    ensures broken { KeepsBroken store result.store turn.client turn.tx body result.replies result.outcome }
    ensures whole { store.desk.stopped ≡ None → WhereWasServed N.opened (λ db. StopsWhole (entries_in store.events) db body result.replies result.outcome) }
    ensures session { IsTold store result.store session.old session.new result.outcome }
    ensures stopped { StaysStopped store result.store result.outcome }
    ensures resting { IsResting result.store }
{
    alone_law();
    store.keeps();
    let mut store = store;
    let pass = match store.take_pass(session) {
        Ok(pass) => pass,
        Err(fault) => {
            return Ran {
                store,
                outcome: unbegun_outcome(session.told, fault),
                replies: Replies::new(Vec::new(alloc)),
            };
        }
    };
    if !is_counted(store.count(), base.found.page_size) {
        return turn_away(alloc, store, pass, session);
    }
    let passing = Passing { gate, turn };
    work::<D, N, Brand, G>(alloc, store, pass, session, base, &passing, body)
}
