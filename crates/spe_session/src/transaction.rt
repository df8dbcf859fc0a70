//! A transaction of a client, up to its end.

ghost use Rattle.std.specs.Prelude.{◌≡◌, ◌<◌, ◌≤◌, [], IfErr, None, OnOk, length, ℕ};
ghost use Rattle.spe_model.specs.declared.transaction.End.TheVariants as ends;
ghost use Rattle.spe_model.specs.Database.{Database};
ghost use Rattle.spe_store.specs.Event.{broken_in, entries_in};
ghost use Rattle.spe_store.specs.Served.{AreServed};
ghost use Rattle.spe_store.specs.Store.{IfTold};
ghost use Rattle.spe_frame.specs.Times.{times};
ghost use Rattle.spe_exec.specs.Justifying.{JustifiedIn};
ghost use Rattle.spe_session.specs.Carried.{IsFront};
ghost use Rattle.spe_session.specs.Ending.{WasServed};
ghost use Rattle.spe_session.specs.Transaction.{AreRight, BreaksAs, EndsAs, EntersBy, HasReason, IsFilled, IsKept, IsOwnFault, IsResting, IsToldBy, OnTreeFull, ReadsFailed, StopsWhole, number_of, outcome_after, outcome_of};

use crate::beginning::Beginning;
use crate::carrying::carry_out;
use crate::commit::Ended;
use crate::fault::{EndFailed, EndFault};
use crate::leaving::Left;
use crate::pager::Pager;
use crate::passing::Passing;
use spe_disk::{Disk, Gate};
use spe_model::{Catalog, Cause, End, Outcome, Replies, Reply, Statement, Tx, TxKind};
use spe_space::{Pages, SpaceFault, TreeFault};
use spe_store::{Log, Opening, SessionSeat, Store};
use std::alloc::Global;

/// What became of a transaction: the store, how it ended, and the replies as far as they go.
#[derive(Drop)]
pub struct Ran<D: Disk, N: Opening> {
    pub store: Store<D, N>,
    pub outcome: Outcome,
    pub replies: Replies,
}

// The outcome of a transaction that met a fault.
fn outcome_of(number: u64, fault: TreeFault) -> Outcome
    ensures outcome { result ≡ outcome_of number fault }
    ensures number { number_of result ≡ number }
{
    match fault {
        TreeFault::Space(SpaceFault::Busy { page, word }) => Outcome::Busy { number, page, word },
        TreeFault::Space(SpaceFault::Read) => Outcome::Fault {
            number,
            cause: Cause::Read,
        },
        TreeFault::Space(SpaceFault::Stopped { op }) => Outcome::Fault {
            number,
            cause: Cause::Stopped { op },
        },
        TreeFault::Space(SpaceFault::Full { pages }) => Outcome::Full { number, pages },
        TreeFault::Space(SpaceFault::Memory) => Outcome::Memory { number },
        TreeFault::Space(SpaceFault::PageOut { page, .. })
        | TreeFault::Space(SpaceFault::Corrupt { page })
        | TreeFault::Corrupt { page } => Outcome::Fault {
            number,
            cause: Cause::Corrupt { page },
        },
    }
}

// Gives up a transaction that met a fault.
pub(crate) fn fail<D: Disk, N: Opening, K: Beginning>(
    pager: Pager<D, N, K>,
    session: &mut SessionSeat,
    body: &Tx,
    fault: TreeFault,
    replies: Replies,
) -> Ran<D, N>
    requires told { session.old.told ≤ length K.begun.entries }
    requires front { IsFront ⟦<Pager<D, N, K> as Pages>⟧ N.opened.read body.now.kind body.now.statements replies pager }
    requires own { IsOwnFault fault }
    requires short { OnTreeFull (length replies < length body.now.statements) fault }
    requires kept { IsKept (⟦<Pager<D, N, K> as Pages>⟧.refusal pager) fault }
    ensures enters { (client tx : ℕ) → EntersBy K.begun.entries (entries_in result.store.events) client tx body.now result.replies result.outcome }
    ensures ends { EndsAs body.now result.outcome }
    ensures right { IfTold K.begun.told (λ _. (db : Database) → AreServed N.opened.read N.opened.pages db → AreRight K.begun.entries db body.now result.replies result.outcome) }
    ensures reason { HasReason result.store.desk result.outcome }
    ensures reads { ReadsFailed K.begun.reads result.store.desk.reads result.outcome }
    ensures filled { IsFilled result.store.page_size result.outcome }
    ensures unbroken { broken_in result.store.events ≡ None }
    ensures whole { IfTold K.begun.told (λ _. (db : Database) → AreServed N.opened.read N.opened.pages db → StopsWhole K.begun.entries db body.now result.replies result.outcome) }
    ensures session { IsToldBy (entries_in result.store.events) session.old session.new result.outcome }
    ensures resting { IsResting result.store }
{
    pager.rests();
    let Left { store, number } = pager.give_up(session);
    store.keeps();
    Ran {
        store,
        outcome: outcome_of(number, fault),
        replies,
    }
}

// Rolls back a transaction whose statements were all carried out.
fn roll_back<D: Disk, N: Opening, K: Beginning>(
    pager: Pager<D, N, K>,
    session: &mut SessionSeat,
    body: &Tx,
    replies: Replies,
) -> Ran<D, N>
    requires told { session.old.told ≤ length K.begun.entries }
    requires done { JustifiedIn ⟦<Pager<D, N, K> as Pages>⟧ N.opened.read
        (record { kind = body.now.kind; statements = body.now.statements; replies = replies }) pager }
    requires rolls { body.now.end ≡ ends.Rollback }
    ensures enters { (client tx : ℕ) → EntersBy K.begun.entries (entries_in result.store.events) client tx body.now result.replies result.outcome }
    ensures ends { EndsAs body.now result.outcome }
    ensures right { IfTold K.begun.told (λ _. (db : Database) → AreServed N.opened.read N.opened.pages db → AreRight K.begun.entries db body.now result.replies result.outcome) }
    ensures reason { HasReason result.store.desk result.outcome }
    ensures reads { ReadsFailed K.begun.reads result.store.desk.reads result.outcome }
    ensures filled { IsFilled result.store.page_size result.outcome }
    ensures unbroken { broken_in result.store.events ≡ None }
    ensures whole { IfTold K.begun.told (λ _. (db : Database) → AreServed N.opened.read N.opened.pages db → StopsWhole K.begun.entries db body.now result.replies result.outcome) }
    ensures session { IsToldBy (entries_in result.store.events) session.old session.new result.outcome }
    ensures resting { IsResting result.store }
{
    pager.rests();
    let Left { store, number } = pager.give_up(session);
    store.keeps();
    Ran {
        store,
        outcome: Outcome::Rollback { number },
        replies,
    }
}

// The outcome of a transaction that was to commit.
fn outcome_after(answer: Result<u64, EndFailed>) -> Outcome
    ensures { result ≡ outcome_after answer }
{
    match answer {
        Ok(number) => Outcome::Commit { number },
        Err(EndFailed { number, why }) => match why {
            EndFault::Read => Outcome::Fault {
                number,
                cause: Cause::Read,
            },
            EndFault::Stopped { op } => Outcome::Fault {
                number,
                cause: Cause::Stopped { op },
            },
            EndFault::Memory => Outcome::Memory { number },
        },
    }
}

/// Which transaction it is.
#[derive(Clone, Copy, Debug, PartialEq, Eq)]
pub struct Turn {
    /// The client, from 1.
    pub client: u32,
    /// The client's transaction, from 1.
    pub tx: u32,
}

// Commits a transaction whose statements were all carried out.
fn commit_all<D: Disk, N: Opening, K: Beginning>(
    pager: Pager<D, N, K>,
    session: &mut SessionSeat,
    turn: Turn,
    body: Tx,
    replies: Replies,
) -> Ran<D, N>
    requires was { WasServed N.opened }
    requires told { session.old.told ≤ length K.begun.entries }
    requires done { JustifiedIn ⟦<Pager<D, N, K> as Pages>⟧ N.opened.read
        (record { kind = body.kind; statements = body.statements; replies = replies }) pager }
    requires commits { body.end ≡ ends.Commit }
    ensures enters { EntersBy K.begun.entries (entries_in result.store.events) turn.client turn.tx body result.replies result.outcome }
    ensures ends { EndsAs body result.outcome }
    ensures right { IfTold K.begun.told (λ _. (db : Database) → AreServed N.opened.read N.opened.pages db → AreRight K.begun.entries db body result.replies result.outcome) }
    ensures reason { HasReason result.store.desk result.outcome }
    ensures reads { ReadsFailed K.begun.reads result.store.desk.reads result.outcome }
    ensures filled { IsFilled result.store.page_size result.outcome }
    ensures broken { BreaksAs turn.client turn.tx body result.replies result.outcome (broken_in result.store.events) }
    ensures whole { IfTold K.begun.told (λ _. (db : Database) → AreServed N.opened.read N.opened.pages db → StopsWhole K.begun.entries db body result.replies result.outcome) }
    ensures session { IsToldBy (entries_in result.store.events) session.old session.new result.outcome }
    ensures resting { IsResting result.store }
{
    pager.rests();
    let log = Log {
        client: turn.client,
        tx: turn.tx,
        body,
        replies,
    };
    let Ended { store, answer } = pager.commit(session, &log);
    store.keeps();
    let Log { replies, .. } = log;
    Ran {
        store,
        outcome: outcome_after(answer),
        replies,
    }
}

// Ends a transaction whose statements were all carried out, as it asks.
pub(crate) fn finish<D: Disk, N: Opening, K: Beginning>(
    pager: Pager<D, N, K>,
    session: &mut SessionSeat,
    turn: Turn,
    body: Tx,
    replies: Replies,
) -> Ran<D, N>
    requires was { WasServed N.opened }
    requires told { session.old.told ≤ length K.begun.entries }
    requires done { JustifiedIn ⟦<Pager<D, N, K> as Pages>⟧ N.opened.read
        (record { kind = body.kind; statements = body.statements; replies = replies }) pager }
    ensures enters { EntersBy K.begun.entries (entries_in result.store.events) turn.client turn.tx body result.replies result.outcome }
    ensures ends { EndsAs body result.outcome }
    ensures right { IfTold K.begun.told (λ _. (db : Database) → AreServed N.opened.read N.opened.pages db → AreRight K.begun.entries db body result.replies result.outcome) }
    ensures reason { HasReason result.store.desk result.outcome }
    ensures reads { ReadsFailed K.begun.reads result.store.desk.reads result.outcome }
    ensures filled { IsFilled result.store.page_size result.outcome }
    ensures broken { BreaksAs turn.client turn.tx body result.replies result.outcome (broken_in result.store.events) }
    ensures whole { IfTold K.begun.told (λ _. (db : Database) → AreServed N.opened.read N.opened.pages db → StopsWhole K.begun.entries db body result.replies result.outcome) }
    ensures session { IsToldBy (entries_in result.store.events) session.old session.new result.outcome }
    ensures resting { IsResting result.store }
{
    match body.end {
        End::Commit => commit_all(pager, session, turn, body, replies),
        End::Rollback => roll_back(pager, session, &body, replies),
    }
}

// Carries out the statements of a transaction that has just begun, once page 1 is known.
pub(crate) fn carry_known<D: Disk, N: Opening, K: Beginning, G: Gate>(
    alloc: Global,
    pager: &mut Pager<D, N, K>,
    catalog: &Catalog,
    statements: &[Statement],
    kind: TxKind,
    replies: &mut Vec<Reply>,
    passing: &Passing<'_, G>,
) -> Result<(), TreeFault>
    requires bare { (n : ℕ) → ⟦<Pager<D, N, K> as Pages>⟧.laid pager.old n ≡ None }
    requires refusal { ⟦<Pager<D, N, K> as Pages>⟧.refusal pager.old ≡ None }
    requires catalog { catalog.now ≡ N.opened.read.catalog }
    requires first { 0 < times K.begun.first N.opened.read.trunks }
    requires empty { replies.old.items ≡ [] }
    ensures done { OnOk result (JustifiedIn ⟦<Pager<D, N, K> as Pages>⟧ N.opened.read
        (record { kind = kind; statements = statements.now; replies = replies.new.items }) pager.new) }
    ensures front { IsFront ⟦<Pager<D, N, K> as Pages>⟧ N.opened.read kind statements.now replies.new.items pager.new }
    ensures own { IfErr result IsOwnFault }
    ensures short { IfErr result (OnTreeFull (length replies.new.items < length statements.now)) }
    ensures kept { IfErr result (IsKept (⟦<Pager<D, N, K> as Pages>⟧.refusal pager.new)) }
{
    match pager.knows_front() {
        Ok(true) => carry_out(alloc, pager, catalog, statements, kind, replies, passing),
        Ok(false) => Err(TreeFault::Corrupt { page: 1 }),
        Err(fault) => Err(TreeFault::Space(fault)),
    }
}
