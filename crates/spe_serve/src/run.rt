//! Clients that are served over the files of a database.

ghost use Rattle.std.specs.Prelude.{◌≡◌, ◌+◌, ◌<◌, ◌≤◌, ◌^◌, true, false, is_none, length};
ghost use Rattle.std.specs.Option.{option_map};
ghost use Rattle.spe_model.specs.declared.file.FileNo.TheVariants.{Database};
ghost use Rattle.spe_model.specs.Content.{file_of};
ghost use Rattle.spe_model.specs.Settled.{IsWithinLimits};
ghost use Rattle.spe_model.specs.Trace.{History};
ghost use Rattle.spe_disk.specs.Told.{NothingDone};
ghost use Rattle.spe_frame.specs.Times.{times};
ghost use Rattle.spe_session.specs.Ending.{WasServed};
ghost use Rattle.spe_store.specs.Call.{HasOpened};
ghost use Rattle.spe_store.specs.Store.{IfTold};
ghost use Rattle.spe_serve.specs.Asked.{CountsScripts, Gives, IfTexts, asked_of};
ghost use Rattle.spe_serve.specs.Run.{HasRunCause, IsOfSame, IsReadBy, IsRecoveredBy, IsRun, IsRunFor, IsRunOver, IsSoundBy, CountsRun, RunsOpened, WhereKnown, failed_run, unopened_run, unrecovered_run};

use crate::failure::Failure;
use crate::pages::pages_verdict;
use crate::reply::Reply;
use crate::scripts::{Unasked, clients_of, read_clients};
use crate::shared::found_shared;
use crate::writing::refusal_in;
use spe_clients::{Clients, Report, run_clients};
use spe_crash::recovered_pages;
use spe_disk::{Disk, Failed, Gate, Scripts};
use spe_model::{Commits, RecoverFault, Recovered, Text, Transcripts};
use spe_opening::Shared;
use spe_recover::{Want, recover};
use spe_session::Base;
use spe_store::{OpenFault, OpenWhy, Opening, Store};
use spe_verdict::counts_law;
use std::alloc::Global;
use std::marker::Brand;

/// What becomes of clients.
#[derive(Drop)]
pub enum Run {
    /// None is served, as their scripts are such.
    Unasked(Unasked),
    /// None is served, as the database is such.
    Refused(Reply),
    /// The disk failed before one was served.
    DiskFailed,
    /// There was no memory before one was served.
    NoMemory,
    /// All were served, whatever came of it.
    Served(Served),
}

/// What became of clients that were served: the commits in their order, and the outcome of each transaction
/// of each client.
#[derive(Drop)]
pub struct Served {
    pub order: Commits,
    pub transcripts: Transcripts,
}

// Serves clients, once all is read that they share. Their pages are taken from the list with this first
// trunk.
fn serve_opened<D: Disk, N: Opening, G: Gate>(
    alloc: Global,
    disk: D,
    found: &Recovered,
    shared: &Shared,
    first: u32,
    gate: &G,
    clients: Clients,
) -> (Run, D)
    requires attached { D.attached disk ≡ true }
    requires limits { IsWithinLimits found.now }
    requires found { found.now ≡ N.opened.found }
    requires catalog { shared.now.catalog ≡ N.opened.read.catalog }
    requires first { 0 < times first N.opened.read.trunks }
    requires same { option_map (λ (h : History). h.first) (D.told disk) ≡ N.opened.first }
    requires opened { IfTold (D.told disk) (HasOpened N.opened) }
    requires reads { D.read_faults disk ≡ N.opened.reads }
    requires faults { D.op_faults disk ≡ N.opened.faults }
    requires served { WasServed N.opened }
    requires counted { found.now.ops + 16 < 2 ^ 64 }
    ensures run { RunsOpened N.opened clients (D.told result.1) result.0 }
    ensures orderly { IsRunFor clients result.0 }
    ensures same { IsOfSame (D.told disk) (D.told result.1) }
    ensures cause { HasRunCause (D.read_faults disk) (D.read_faults result.1) (D.op_faults disk) (D.op_faults result.1) result.0 }
{
    let store = match Store::<D, N>::new(alloc, disk, found) {
        Ok(store) => store,
        Err(OpenFault { disk, why }) => return (unopened(why), disk),
    };
    let base = Base {
        found,
        catalog: &shared.catalog,
        first,
    };
    let Report {
        disk,
        order,
        transcripts,
    } = run_clients(alloc, store, base, gate, clients);
    (Run::Served(Served { order, transcripts }), disk)
}

// What comes of a store that was not opened.
fn unopened(why: OpenWhy) -> Run
    ensures { result ≡ unopened_run why }
{
    match why {
        OpenWhy::Disk => Run::DiskFailed,
        OpenWhy::Memory => Run::NoMemory,
    }
}

// Serves clients over pages that stand, where no more than this is to be read.
fn serve_shared<D: Disk, G: Gate>(
    alloc: Global,
    disk: D,
    found: &Recovered,
    shared: &Shared,
    gate: &G,
    clients: Clients,
) -> (Run, D)
    requires attached { D.attached disk ≡ true }
    requires limits { IsWithinLimits found.now }
    requires read { IfTold (D.told disk) (IsReadBy found.now shared.now) }
    ensures run { WhereKnown (D.told disk) (D.told result.1) (λ h. IsRunOver clients h result.0) }
    ensures orderly { IsRunFor clients result.0 }
    ensures same { IsOfSame (D.told disk) (D.told result.1) }
    ensures cause { HasRunCause (D.read_faults disk) (D.read_faults result.1) (D.op_faults disk) (D.op_faults result.1) result.0 }
{
    counts_law();
    let [first, ..] = shared.trunks.as_slice() else {
        return (Run::Refused(Reply::Corrupt { page: 1 }), disk);
    };
    if found.ops >= 1 << 63 {
        return (Run::NoMemory, disk);
    }
    serve_opened::<D, Brand, G>(alloc, disk, found, shared, *first, gate, clients)
}

// What comes of a failure before a client is served.
fn failed(failure: Failure) -> Run
    ensures { result ≡ failed_run failure }
{
    match failure {
        Failure::Disk => Run::DiskFailed,
        Failure::Memory => Run::NoMemory,
    }
}

// Serves clients over recovered pages that break no rule of the check.
fn serve_sound<D: Disk, G: Gate>(
    alloc: Global,
    disk: D,
    found: &Recovered,
    gate: &G,
    clients: Clients,
) -> (Run, D)
    requires attached { D.attached disk ≡ true }
    requires limits { IsWithinLimits found.now }
    requires sound { IfTold (D.told disk) (IsSoundBy found.now) }
    ensures run { WhereKnown (D.told disk) (D.told result.1) (λ h. IsRunOver clients h result.0) }
    ensures orderly { IsRunFor clients result.0 }
    ensures same { IsOfSame (D.told disk) (D.told result.1) }
    ensures cause { HasRunCause (D.read_faults disk) (D.read_faults result.1) (D.op_faults disk) (D.op_faults result.1) result.0 }
{
    counts_law();
    let Some(node) = found.node else {
        return (Run::Refused(Reply::Corrupt { page: 1 }), disk);
    };
    let (read, disk) = found_shared::<D, Brand>(alloc, disk, found, node);
    match read {
        Ok(Ok(shared)) => serve_shared(alloc, disk, found, &shared, gate, clients),
        Ok(Err(page)) => (Run::Refused(Reply::Corrupt { page }), disk),
        Err(failure) => (failed(failure), disk),
    }
}

// Serves clients over recovered pages in server form.
fn serve_found<D: Disk, G: Gate>(
    alloc: Global,
    disk: D,
    found: &Recovered,
    gate: &G,
    clients: Clients,
) -> (Run, D)
    requires attached { D.attached disk ≡ true }
    requires limits { IsWithinLimits found.now }
    requires found { IfTold (D.told disk) (IsRecoveredBy found.now) }
    ensures run { WhereKnown (D.told disk) (D.told result.1) (λ h. IsRunOver clients h result.0) }
    ensures orderly { IsRunFor clients result.0 }
    ensures same { IsOfSame (D.told disk) (D.told result.1) }
    ensures cause { HasRunCause (D.read_faults disk) (D.read_faults result.1) (D.op_faults disk) (D.op_faults result.1) result.0 }
{
    let (checked, disk) = pages_verdict::<D, Brand>(alloc, disk, found);
    let answered = match checked {
        Ok(answered) => answered,
        Err(failure) => return (failed(failure), disk),
    };
    match refusal_in(answered) {
        Some(refusal) => (Run::Refused(refusal), disk),
        None => serve_sound(alloc, disk, found, gate, clients),
    }
}

// What comes of the reason why files are not recovered.
fn unrecovered(fault: RecoverFault) -> Run
    ensures { result ≡ unrecovered_run fault }
{
    match fault {
        RecoverFault::Disk => Run::DiskFailed,
        RecoverFault::Memory => Run::NoMemory,
        RecoverFault::Header(_)
        | RecoverFault::JournalPage { .. }
        | RecoverFault::Overlap { .. }
        | RecoverFault::TooLarge { .. }
        | RecoverFault::ShortFile { .. }
        | RecoverFault::NotPrepared => Run::Refused(Reply::Refused(fault)),
    }
}

// Serves clients over the files that are attached, which are recovered first.
fn serve_attached<D: Disk, G: Gate>(
    alloc: Global,
    mut disk: D,
    gate: &G,
    clients: Clients,
) -> (Run, D)
    requires attached { D.attached disk ≡ true }
    requires fresh { NothingDone (D.told disk) }
    requires there { IfTold (D.told disk) (λ h. is_none (file_of h.first Database) ≡ false) }
    ensures run { WhereKnown (D.told disk) (D.told result.1) (λ h. IsRunOver clients h result.0) }
    ensures orderly { IsRunFor clients result.0 }
    ensures same { IsOfSame (D.told disk) (D.told result.1) }
    ensures cause { HasRunCause (D.read_faults disk) (D.read_faults result.1) (D.op_faults disk) (D.op_faults result.1) result.0 }
{
    recovered_pages();
    match recover(alloc, &mut disk, Want::Prepared) {
        Ok(found) => serve_found(alloc, disk, &found, gate, clients),
        Err(fault) => (unrecovered(fault), disk),
    }
}

// Serves clients over a database.
fn serve_clients<D: Disk, G: Gate>(
    alloc: Global,
    database: &Text,
    mut disk: D,
    gate: &G,
    clients: Clients,
) -> (Run, D)
    requires attached { D.attached disk ≡ false }
    ensures run { WhereKnown (D.told disk) (D.told result.1) (λ h. IsRunOver clients h result.0) }
    ensures orderly { IsRunFor clients result.0 }
    ensures same { IsOfSame (D.told disk) (D.told result.1) }
    ensures cause { HasRunCause (D.read_faults disk) (D.read_faults result.1) (D.op_faults disk) (D.op_faults result.1) result.0 }
{
    match disk.attach(database.as_str()) {
        Ok(true) => serve_attached(alloc, disk, gate, clients),
        Ok(false) => (Run::Refused(Reply::NoDatabase), disk),
        Err(Failed) => (Run::DiskFailed, disk),
    }
}

// The clients that these scripts are.
fn seat<C: Scripts>(alloc: Global, scripts: &mut C, names: &[Text]) -> Result<Clients, Unasked>
    requires few { length names.now ≤ 64 }
    ensures asked { IfTexts (C.texts scripts.old) (λ texts. Gives (λ c. c) result (asked_of texts names.now)) }
    ensures counts { CountsScripts (C.faults scripts.old) (C.faults scripts.new) result }
{
    let bodies = read_clients(alloc, scripts, names)?;
    Ok(clients_of(alloc, bodies)?)
}

/// Runs the clients of these scripts over a database, one after another, and says what became of them.
///
/// All scripts are read and parsed before the database is looked at. It is recovered and checked first, and
/// refused where it is not in server form, breaks a rule, or has a page that cannot be served.
pub fn run_scripts<D: Disk, C: Scripts, G: Gate>(
    alloc: Global,
    database: &Text,
    names: &[Text],
    disk: D,
    scripts: &mut C,
    gate: &G,
) -> (Run, D)
    requires few { length names.now ≤ 64 }
    requires attached { D.attached disk ≡ false }
    ensures run { IsRun (C.texts scripts.old) names.now (D.told disk) (D.told result.1) result.0 }
    ensures cause { HasRunCause (D.read_faults disk) (D.read_faults result.1) (D.op_faults disk) (D.op_faults result.1) result.0 }
    ensures scripts { CountsRun (C.faults scripts.old) (C.faults scripts.new) result.0 }
{
    match seat(alloc, scripts, names) {
        Ok(clients) => serve_clients(alloc, database, disk, gate, clients),
        Err(why) => (Run::Unasked(why), disk),
    }
}
