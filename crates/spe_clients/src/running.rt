//! Clients run one after another.

ghost use Rattle.std.specs.Prelude.{◌≡◌, ◌<◌, ◌∷◌, [], length, true};
ghost use Rattle.spe_model.specs.Settled.{IsWithinLimits};
ghost use Rattle.spe_frame.specs.Times.{times};
ghost use Rattle.spe_store.specs.Event.{entries_in};
ghost use Rattle.spe_store.specs.Store.{IfTold};
ghost use Rattle.spe_session.specs.Ending.{WasServed};
ghost use Rattle.spe_session.specs.Transaction.{IsResting, WhereWasServed};
ghost use Rattle.spe_clients.specs.Cuts.{CutsAreExact, CutsAreSerial};
ghost use Rattle.spe_clients.specs.Ended.{NumbersRise, StayStopped, all_ended, all_outcomes, ended_from, lengths_of};
ghost use Rattle.spe_clients.specs.Place.{script_of};
ghost use Rattle.spe_clients.specs.Plain.{IsPlain};
ghost use Rattle.spe_clients.specs.Report.{AreCaused, IsLeft, NoneFollows};
ghost use Rattle.spe_clients.specs.Script.{MayRun};
ghost use Rattle.spe_clients.specs.Serial.{AreOrdered, IsSerial};
ghost use Rattle.spe_clients.specs.SoFar.{Goes, IsBaseOf};

use crate::clients::Clients;
use crate::place::Place;
use crate::report::Report;
use crate::room::put;
use spe_disk::{Disk, Gate};
use spe_model::{Transcript, Transcripts, Tx};
use spe_session::{Base, Ran, Turn, run_tx};
use spe_store::{Opening, Parts, SessionSeat, Store};
use std::alloc::Global;

// The store after some clients, and what became of their transactions.
#[derive(Drop)]
struct Worked<D: Disk, N: Opening> {
    store: Store<D, N>,
    transcripts: Transcripts,
}

// The store after a client, and what became of its transactions.
#[derive(Drop)]
struct Served<D: Disk, N: Opening> {
    store: Store<D, N>,
    transcript: Transcript,
}

// Runs one transaction, whose session was told of all commits.
fn run_one<D: Disk, N: Opening, G: Gate>(
    alloc: Global,
    store: Store<D, N>,
    session: &mut SessionSeat,
    base: Base<'_>,
    gate: &G,
    turn: Turn,
    body: Tx,
) -> Ran<D, N>
    requires resting { IsResting store }
    requires base { IsBaseOf N.opened base }
    requires runnable { MayRun body }
    requires told { session.old.told ≡ length (entries_in store.events) }
    ensures goes { Goes N.opened store result.store (record { client = turn.client; tx = turn.tx; body = body; outcome = result.outcome; replies = result.replies } ∷ []) }
    ensures told { session.new.told ≡ length (entries_in result.store.events) }
    ensures resting { IsResting result.store }
{
    run_tx(alloc, store, session, base, gate, turn, body)
}

// Runs the transactions of a client.
fn run_client<D: Disk, N: Opening, G: Gate>(
    alloc: Global,
    store: Store<D, N>,
    base: Base<'_>,
    gate: &G,
    client: u32,
    place: Place,
) -> Served<D, N>
    requires resting { IsResting store }
    requires base { IsBaseOf N.opened base }
    ensures goes { Goes N.opened store result.store (ended_from client 1 (script_of place) result.transcript) }
    ensures complete { length result.transcript ≡ length (script_of place) }
    ensures resting { IsResting result.store }
{
    let Place {
        mut left,
        mut answers,
    } = place;
    let mut store = store;
    let mut session = SessionSeat {
        number: u64::from(client),
        told: store.number(),
    };
    let mut tx = 0;
    while let Some(body) = left.pop() {
        tx += 1;
        let turn = Turn { client, tx };
        let ran = run_one(alloc, store, &mut session, base, gate, turn, body);
        put(&mut answers, (ran.outcome, ran.replies));
        gate.done(client, tx);
        store = ran.store;
    }
    Served {
        store,
        transcript: Transcript::new(answers),
    }
}

// Runs all clients.
fn run_all<D: Disk, N: Opening, G: Gate>(
    alloc: Global,
    store: Store<D, N>,
    base: Base<'_>,
    gate: &G,
    clients: Clients,
) -> Worked<D, N>
    requires resting { IsResting store }
    requires base { IsBaseOf N.opened base }
    ensures goes { Goes N.opened store result.store (all_ended clients result.transcripts) }
    ensures complete { lengths_of result.transcripts ≡ lengths_of clients }
{
    let Clients {
        mut places,
        mut transcripts,
    } = clients;
    let mut store = store;
    let mut client = 0;
    while let Some(place) = places.pop() {
        client += 1;
        let served = run_client(alloc, store, base, gate, client, place);
        put(&mut transcripts, served.transcript);
        store = served.store;
    }
    Worked {
        store,
        transcripts: Transcripts::new(transcripts),
    }
}

/// Runs all transactions of all clients, one after another, over a store in which nothing was done yet, and
/// closes it. The gate is told of each statement before it, and of each transaction once it is over.
///
/// `ordered` and `serial`: they were replied to as one serial run in the order of their commits. `later`:
/// each transaction has seen what those before it saw. `plain`: where each ended as it asked, the outcomes
/// and replies are those of running them on the database. `stopped`: once an operation failed, no
/// transaction goes on. `cuts` and `exact`: what a stop leaves, where the disk tells its files. `causes` and
/// `last`: an outcome names an operation only where one has failed, and none is made after it.
pub fn run_clients<D: Disk, N: Opening, G: Gate>(
    alloc: Global,
    store: Store<D, N>,
    base: Base<'_>,
    gate: &G,
    clients: Clients,
) -> Report<D>
    requires resting { IsResting store }
    requires unused { entries_in store.events ≡ [] }
    requires limits { IsWithinLimits base.found.now }
    requires found { base.found.now ≡ N.opened.found }
    requires catalog { base.catalog.now ≡ N.opened.read.catalog }
    requires first { 0 < times base.first N.opened.read.trunks }
    requires served { WasServed N.opened }
    ensures ordered { AreOrdered clients result.order result.transcripts }
    ensures serial { WhereWasServed N.opened (IsSerial clients result.order result.transcripts) }
    ensures later { NumbersRise (all_outcomes result.transcripts) }
    ensures plain { WhereWasServed N.opened (IsPlain clients result.transcripts) }
    ensures stopped { StayStopped (all_outcomes result.transcripts) }
    ensures cuts { IfTold (D.told result.disk) (λ h. CutsAreSerial N.opened h clients result.order) }
    ensures exact { IfTold (D.told result.disk) (λ h. CutsAreExact N.opened (D.op_faults result.disk) h clients result.order) }
    ensures disk { IsLeft N.opened (D.told result.disk) (D.read_faults result.disk) (D.op_faults result.disk) (all_outcomes result.transcripts) }
    ensures causes { AreCaused N.opened (D.op_faults result.disk) (all_outcomes result.transcripts) }
    ensures last { IfTold (D.told result.disk) (λ h. NoneFollows h (all_outcomes result.transcripts)) }
    ensures attached { D.attached result.disk ≡ true }
{
    let Worked { store, transcripts } = run_all(alloc, store, base, gate, clients);
    store.keeps();
    let Parts { disk, order } = store.close();
    Report {
        disk,
        order,
        transcripts,
    }
}
