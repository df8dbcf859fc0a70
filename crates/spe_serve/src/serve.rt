//! The top call.

ghost use Rattle.std.specs.Prelude.{◌≡◌, ◌≢◌, ◌⊎◌, ◌≤◌, [], Err, IfOk, false, length, true};
ghost use Rattle.std.specs.Option.{option_map};
ghost use Rattle.spe_render.specs.Outcomes.{rendered};
ghost use Rattle.spe_render.specs.Values.{table_text};
ghost use Rattle.spe_words.specs.declared.command.Command.{Command as AnyCommand};
ghost use Rattle.spe_words.specs.declared.command.WordsFault.TheVariants.{Memory};
ghost use Rattle.spe_words.specs.Grammar.{AskFor};
ghost use Rattle.spe_serve.specs.declared.run.Run.TheVariants.{Unasked as NotAsked};
ghost use Rattle.spe_serve.specs.declared.scripts.Unasked.TheVariants.{Memory as NoMemory};
ghost use Rattle.spe_serve.specs.Answer.{is_built};
ghost use Rattle.spe_serve.specs.Ending.{AnswersStay, DiskFails, Ends, EndsOnFailure, EndsRefused, Prints, PrintsAnswer, PrintsMade, PrintsOutcome, SinkFailsOnce};
ghost use Rattle.spe_serve.specs.Own.{LeavesPagesFor};
ghost use Rattle.spe_serve.specs.Made.{IsMadeAt, IsMadeOf, MakesAll, MakesPart, Settles};
ghost use Rattle.spe_serve.specs.Reply.{AskForNone};
ghost use Rattle.spe_serve.specs.Run.{order_of, served_status};
ghost use Rattle.spe_serve.specs.RunEnding.{EndsOther, EndsRun, EndsRunFor, IsReadAs, IsServing, PrintsRun, ServeNone, serves};

use crate::outcome::{Outcome, carry_out};
use crate::reply::{
    Reply, bad_script_line, closed_line, corrupt_line, damage_line, full_line, no_script_line,
    prepared_line, refusal_line, released_line, sound_line,
};
use crate::run::{Run, run_scripts};
use crate::scripts::Unasked;
use crate::status::served_status;
use spe_crash::recovered_pages;
use spe_disk::{Disk, Failed, Gate, Scripts, Sink, put_all};
use spe_model::{Commits, Names, TableRows, Text, Transcripts, Words};
use spe_render::{print_table, render};
use spe_verdict::{legal_law, verdict_law};
use spe_words::{Command, WordsFault, read_words};
use std::alloc::{AllocError, Global};
use std::sync::Wait;
use std::thread::Threads;

/// How a run ended.
#[derive(Debug, Drop)]
pub struct Finished {
    /// 0 where all is done, 1 where the words are no command, 2 where an input is refused, 3 where
    /// the outside failed, 4 where there was no memory, and 5 where `check` found damage.
    pub status: u8,
    /// The commits in their order; none for a command that serves no client.
    pub order: Commits,
}

const DONE: u8 = 0;

const NO_COMMAND: u8 = 1;

const REFUSED: u8 = 2;

const FAULT: u8 = 3;

const MEMORY: u8 = 4;

const DAMAGE: u8 = 5;

// Puts a text, and answers the status: this one, or that of a fault.
fn put<W: Sink>(out: &mut W, text: &[u8], status: u8) -> u8
    ensures prints { Prints W.Sink out.old out.new text.now status result }
{
    match put_all(out, text) {
        Ok(()) => status,
        Err(Failed) => FAULT,
    }
}

// Puts the rows of a table.
fn put_rows<W: Sink>(out: &mut W, rows: &TableRows) -> u8
    ensures prints { Prints W.Sink out.old out.new (table_text rows.now) 0 result }
{
    match print_table(rows, out) {
        Ok(()) => DONE,
        Err(Failed) => FAULT,
    }
}

// Puts a text that was put together, where there was memory for it.
fn put_made<W: Sink>(out: &mut W, text: Result<Vec<u8>, AllocError>, status: u8) -> u8
    ensures prints { PrintsMade W.Sink out.old out.new text status result }
{
    match text {
        Ok(text) => put(out, text.as_slice(), status),
        Err(AllocError) => put(out, b"memory\n", MEMORY),
    }
}

// Puts an answer.
fn put_answer<W: Sink>(alloc: Global, out: &mut W, reply: &Reply) -> u8
    ensures prints { PrintsAnswer W.Sink out.old out.new reply.now result }
{
    match reply {
        Reply::Words => put(out, b"refused words\n", NO_COMMAND),
        Reply::NoDatabase => put(out, b"refused no-such-database\n", REFUSED),
        Reply::Refused(fault) => put_made(out, refusal_line(alloc, *fault), REFUSED),
        Reply::NotBuilt => put(out, b"refused not-built\n", REFUSED),
        Reply::Sound {
            pages,
            tables,
            rows,
            free,
        } => put_made(out, sound_line(alloc, *pages, *tables, *rows, *free), DONE),
        Reply::Damage { page, rule } => put_made(out, damage_line(alloc, *page, *rule), DAMAGE),
        Reply::Corrupt { page } => put_made(out, corrupt_line(alloc, *page), REFUSED),
        Reply::NoTable => put(out, b"refused no-table\n", REFUSED),
        Reply::ClosedTable(why) => put_made(out, closed_line(alloc, *why), REFUSED),
        Reply::Released { free, pages } => put_made(out, released_line(alloc, *free, *pages), DONE),
        Reply::Prepared { lists, pages } => {
            put_made(out, prepared_line(alloc, *lists, *pages), DONE)
        }
        Reply::AlreadyPrepared => put(out, b"refused prepared\n", REFUSED),
        Reply::Full { pages } => put_made(out, full_line(alloc, *pages), REFUSED),
        Reply::Rows(rows) => put_rows(out, rows),
    }
}

// Puts what there is to print.
fn put_outcome<W: Sink>(alloc: Global, out: &mut W, outcome: &Outcome) -> u8
    ensures { PrintsOutcome W.Sink out.old out.new outcome.now result }
{
    match outcome {
        Outcome::Answered(reply) => put_answer(alloc, out, reply),
        Outcome::DiskFailed => put(out, b"fault disk\n", FAULT),
        Outcome::NoMemory => put(out, b"memory\n", MEMORY),
    }
}

// Puts why no client is served.
fn put_unasked<W: Sink>(alloc: Global, out: &mut W, why: &Unasked) -> u8
    ensures prints { PrintsRun W.Sink out.old out.new (NotAsked why.now) result }
{
    match why {
        Unasked::NoScript { client } => put_made(out, no_script_line(alloc, *client), REFUSED),
        Unasked::BadScript { client, line, kind } => {
            put_made(out, bad_script_line(alloc, *client, *line, *kind), REFUSED)
        }
        Unasked::NotBuilt => put(out, b"refused not-built\n", REFUSED),
        Unasked::Failed => put(out, b"fault scripts\n", FAULT),
        Unasked::Memory => put(out, b"memory\n", MEMORY),
    }
}

// Puts what became of clients that were served.
fn put_served<W: Sink>(out: &mut W, transcripts: &Transcripts) -> u8
    ensures prints { Prints W.Sink out.old out.new (rendered transcripts.now) (served_status transcripts.now) result }
{
    match render(transcripts, out) {
        Ok(()) => served_status(transcripts.as_slice()),
        Err(Failed) => FAULT,
    }
}

// Puts what became of clients.
fn put_run<W: Sink>(alloc: Global, out: &mut W, run: &Run) -> u8
    ensures prints { PrintsRun W.Sink out.old out.new run.now result }
{
    match run {
        Run::Unasked(why) => put_unasked(alloc, out, why),
        Run::Refused(reply) => put_answer(alloc, out, reply),
        Run::DiskFailed => put(out, b"fault disk\n", FAULT),
        Run::NoMemory => put(out, b"memory\n", MEMORY),
        Run::Served(served) => put_served(out, &served.transcripts),
    }
}

// The commits of clients.
fn order_of(alloc: Global, run: Run) -> Commits
    ensures { result ≡ order_of run }
{
    match run {
        Run::Served(served) => served.order,
        Run::Unasked(_) | Run::Refused(_) | Run::DiskFailed | Run::NoMemory => {
            Commits::new(Vec::new(alloc))
        }
    }
}

// Serves clients and prints what became of them.
fn serve<D: Disk, C: Scripts, W: Sink, G: Gate>(
    alloc: Global,
    database: &Text,
    names: &Names,
    disk: D,
    scripts: &mut C,
    out: &mut W,
    gate: &G,
) -> (Finished, D)
    requires few { length names.now ≤ 64 }
    requires attached { D.attached disk ≡ false }
    ensures { EndsRun D.Disk C.Scripts W.Sink disk result.1 scripts.old scripts.new out.old out.new names.now result.0.order result.0.status }
{
    let (run, disk) = run_scripts(alloc, database, names.as_slice(), disk, scripts, gate);
    let status = put_run(alloc, out, &run);
    let order = order_of(alloc, run);
    (Finished { status, order }, disk)
}

// Carries out what words were read as, which is no command that serves clients, and prints what there is to
// print.
fn answer<D: Disk, W: Sink>(
    alloc: Global,
    words: &Words,
    asked: &Result<Command, WordsFault>,
    disk: D,
    out: &mut W,
) -> (Finished, D)
    requires read { IsReadAs words.now asked.now }
    requires none { IfOk asked.now (λ c. serves c ≡ false) }
    requires attached { D.attached disk ≡ false }
    ensures ends { Ends W.Sink out.old out.new words.now (D.told disk) (DiskFails D.Disk disk result.1) (IsMadeOf words.now (D.told disk) (D.told result.1)) result.0.status }
    ensures order { result.0.order ≡ [] }
    ensures short { asked.now ≡ Err Memory → PrintsRun W.Sink out.old out.new (NotAsked NoMemory) result.0.status × (D.told result.1 ≡ D.told disk) }
    ensures untouched { AskForNone words.now → D.told result.1 ≡ D.told disk }
    ensures made { (c : AnyCommand) → AskFor words.now c → IsMadeAt c (D.told disk) (D.told result.1) result.0.status }
    ensures leaves { LeavesPagesFor words.now (D.told disk) (D.told result.1) }
{
    let (outcome, disk) = carry_out(alloc, words, asked, disk);
    let status = put_outcome(alloc, out, &outcome);
    let order = Commits::new(Vec::new(alloc));
    (Finished { status, order }, disk)
}

// The database and the scripts of a command that serves clients.
fn serving(asked: &Result<Command, WordsFault>) -> Option<(&Text, &Names)>
    ensures { IsServing asked.now (option_map (λ found. (found.0.now, found.1.now)) result) }
{
    match asked {
        Ok(command) => match command {
            Command::Run { db, scripts, .. } => Some((db, scripts)),
            Command::Rows { .. }
            | Command::Check { .. }
            | Command::Prepare { .. }
            | Command::Release { .. }
            | Command::Work { .. } => None,
        },
        Err(_) => None,
    }
}

// Does what words were read as.
fn act<D: Disk, C: Scripts, W: Sink, G: Gate>(
    alloc: Global,
    words: &Words,
    asked: &Result<Command, WordsFault>,
    disk: D,
    scripts: &mut C,
    out: &mut W,
    gate: &G,
) -> (Finished, D)
    requires read { IsReadAs words.now asked.now }
    requires attached { D.attached disk ≡ false }
    ensures run { EndsRunFor D.Disk C.Scripts W.Sink disk result.1 scripts.old scripts.new out.old out.new words.now result.0.order result.0.status }
    ensures other { ServeNone words.now → EndsOther D.Disk W.Sink disk result.1 out.old out.new words.now result.0.order result.0.status }
    ensures made { (c : AnyCommand) → AskFor words.now c → serves c ≡ false → IsMadeAt c (D.told disk) (D.told result.1) result.0.status }
    ensures unasked { result.0.status ≡ 1 → AskForNone words.now }
    ensures refused { AskForNone words.now → EndsRefused W.Sink out.old out.new result.0.status }
    ensures sink { EndsOnFailure W.Sink out.old out.new result.0.status }
    ensures untouched { AskForNone words.now → D.told result.1 ≡ D.told disk }
{
    match serving(asked) {
        Some((database, names)) => serve(alloc, database, names, disk, scripts, out, gate),
        None => answer(alloc, words, asked, disk, out),
    }
}

/// Does all that the program does with the words of its command line, the program's own name left
/// out.
///
/// So far five commands are built. All roll back what hot journals there are, and then try whether the
/// pages are sound. `check DATABASE` prints the verdict; `rows DATABASE TABLE` prints the rows of an
/// open table, and refuses damaged pages, a table that there is not, and a closed one, in this order.
/// `release DATABASE` puts the free lists back in stock form, and refuses a database that is not in
/// server form, of which it rolls back nothing, and then damaged pages. `prepare DATABASE LISTS` puts them
/// in server form, and refuses damaged pages, then those in server form, and then those that would be too
/// many with what is to be added. `run DATABASE SCRIPT..` runs the transactions of each script, one after
/// another, and prints what became of them; it refuses a script that there is not, then one that is
/// wrong, then what is not built yet, and then as `release` does, before a transaction begins. `gate` is
/// told of each statement before it, and of each transaction that is over. Other commands are answered as
/// not built, and their database is not looked at. Words that are no command are refused before all else.
pub fn spe<R: Threads + Wait + Sync, D: Disk + Send, C: Scripts, W: Sink, G: Gate + Sync>(
    _rt: &R,
    alloc: Global,
    words: Words,
    disk: D,
    scripts: &mut C,
    out: &mut W,
    gate: &G,
) -> (Finished, D)
    requires { D.attached disk ≡ false }

    // Status 1 comes exactly where the words are no command, whatever the disk does. Where the sink fails, it fails once.
    ensures unasked { result.0.status ≡ 1 → AskForNone words }
    ensures refused { AskForNone words → EndsRefused W.Sink out.old out.new result.0.status }
    ensures sink { EndsOnFailure W.Sink out.old out.new result.0.status }
    ensures untouched { AskForNone words → D.told result.1 ≡ D.told disk }

    // What `run` does: the printed transactions were replied to as one serial run, in the order of their printed commit
    // numbers; and if the program stops before or within any write, opening again gives the pages that are served for the
    // rows after the commits whose journal had been cut, each that was printed among them.
    ensures run { EndsRunFor D.Disk C.Scripts W.Sink disk result.1 scripts.old scripts.new out.old out.new words result.0.order result.0.status }

    // Of a command that serves no client the text, the status and the operations are those of an outcome of the words: a
    // right answer, a failure or want of memory. So it is where the sink took a part of the text alone.
    ensures ends { ServeNone words → Ends W.Sink out.old out.new words (D.told disk) (DiskFails D.Disk disk result.1) (IsMadeOf words (D.told disk) (D.told result.1)) result.0.status }
    ensures order { ServeNone words → result.0.order ≡ [] }

    // Its status is 3 exactly where the sink failed or the disk did.
    ensures fault { ServeNone words → result.0.status ≡ 3 → DiskFails D.Disk disk result.1 ⊎ SinkFailsOnce W.Sink out.old out.new }

    // The operations that it adds are a part of the command's, which are recovery's and then its own; with an
    // answer they are all of them, and then the file holds the pages that the command leaves, and no journal has bytes.
    ensures part { (c : AnyCommand) → AskFor words c → serves c ≡ false → MakesPart c (D.told disk) (D.told result.1) }
    ensures made { result.0.status ≢ 3 → result.0.status ≢ 4 → (c : AnyCommand) → AskFor words c → serves c ≡ false → MakesAll c (D.told disk) (D.told result.1) }
    ensures settled { result.0.status ≢ 3 → result.0.status ≢ 4 → (c : AnyCommand) → AskFor words c → is_built c ≡ true → Settles c (D.told disk) (D.told result.1) }

    // Of what a crash leaves of it the recovered pages are as before, or those after a whole transaction of the command. A
    // right answer stays right, but for one that tells of a transaction, and so do the rows of each table.
    ensures leaves { ServeNone words → LeavesPagesFor words (D.told disk) (D.told result.1) }
    ensures crash { ServeNone words → AnswersStay words (D.told disk) (D.told result.1) }
{
    // The laws that the clause on answers rests on.
    recovered_pages();
    legal_law();
    verdict_law();
    let asked = read_words(alloc, &words);
    act(alloc, &words, &asked, disk, scripts, out, gate)
}
