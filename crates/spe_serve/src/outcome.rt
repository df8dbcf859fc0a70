//! What the program does with its words, up to printing.

ghost use Rattle.std.specs.Prelude.{◌≡◌, Err, IfOk, false, true};
ghost use Rattle.spe_words.specs.declared.command.WordsFault.TheVariants.{Memory};
ghost use Rattle.spe_serve.specs.declared.outcome.Outcome.TheVariants.{NoMemory};
ghost use Rattle.spe_serve.specs.Answer.{HasLists, is_built};
ghost use Rattle.spe_words.specs.Grammar.{AskFor};
ghost use Rattle.spe_serve.specs.Ending.{DiskFails, IsOutcome, IsOutcomeOf, outcome_of};
ghost use Rattle.spe_serve.specs.Made.{IsMadeFor};
ghost use Rattle.spe_serve.specs.Own.{LeavesPagesFor, LeavesPagesOf};
ghost use Rattle.spe_serve.specs.Reply.{AskForNone};
ghost use Rattle.spe_serve.specs.RunEnding.{IsReadAs, serves, unread_outcome};

use crate::failure::Failure;
use crate::file::file_reply;
use crate::reply::Reply;
use spe_disk::{Disk, Failed};
use spe_model::{Text, Words};
use spe_words::{Command, WordsFault};
use std::alloc::Global;

/// What there is to print.
#[derive(Debug, Drop)]
pub enum Outcome {
    /// The answer to the words.
    Answered(Reply),
    /// The disk failed.
    DiskFailed,
    /// There was no memory.
    NoMemory,
}

fn answered(reply: Result<Reply, Failure>) -> Outcome
    ensures { result ≡ outcome_of reply }
{
    match reply {
        Ok(reply) => Outcome::Answered(reply),
        Err(Failure::Disk) => Outcome::DiskFailed,
        Err(Failure::Memory) => Outcome::NoMemory,
    }
}

// The outcome of a command that looks at a database.
fn file_outcome<D: Disk>(
    alloc: Global,
    database: &Text,
    command: &Command,
    mut disk: D,
) -> (Outcome, D)
    requires built { is_built command.now ≡ true }
    requires lists { HasLists command.now }
    requires attached { D.attached disk ≡ false }
    ensures outcome { IsOutcomeOf command.now (D.told disk) (DiskFails D.Disk disk result.1) result.0 }
    ensures made { IsMadeFor command.now (D.told disk) (D.told result.1) result.0 }
    ensures leaves { LeavesPagesOf command.now (D.told disk) (D.told result.1) }
{
    match disk.attach(database.as_str()) {
        Ok(true) => {
            let (reply, disk) = file_reply(alloc, disk, command);
            (answered(reply), disk)
        }
        Ok(false) => (Outcome::Answered(Reply::NoDatabase), disk),
        Err(Failed) => (Outcome::DiskFailed, disk),
    }
}

// The outcome of a command that serves no client.
#[tactic(auto, using(crate::proofs::OwnLemmas::unbuilt_leaves, crate::proofs::MadeLemmas::unbuilt_for))]
fn obey<D: Disk>(alloc: Global, command: &Command, disk: D) -> (Outcome, D)
    requires lists { HasLists command.now }
    requires none { serves command.now ≡ false }
    requires attached { D.attached disk ≡ false }
    ensures outcome { IsOutcomeOf command.now (D.told disk) (DiskFails D.Disk disk result.1) result.0 }
    ensures made { IsMadeFor command.now (D.told disk) (D.told result.1) result.0 }
    ensures leaves { LeavesPagesOf command.now (D.told disk) (D.told result.1) }
{
    match command {
        Command::Rows { db, .. } => file_outcome(alloc, db, command, disk),
        Command::Check { db } => file_outcome(alloc, db, command, disk),
        Command::Release { db } => file_outcome(alloc, db, command, disk),
        Command::Prepare { db, .. } => file_outcome(alloc, db, command, disk),
        Command::Work { .. } => (Outcome::Answered(Reply::NotBuilt), disk),
        Command::Run { .. } => unreachable!(),
    }
}

// What there is to print of words that were not read as a command.
fn unread(fault: WordsFault) -> Outcome
    ensures { result ≡ unread_outcome fault }
{
    match fault {
        WordsFault::Words => Outcome::Answered(Reply::Words),
        WordsFault::Memory => Outcome::NoMemory,
    }
}

/// What there is to print of words, by what they were read as, which is no command that serves clients. The
/// disk is given back.
#[tactic(auto, using(crate::proofs::OwnLemmas::same_for))]
pub fn carry_out<D: Disk>(
    alloc: Global,
    _words: &Words,
    asked: &Result<Command, WordsFault>,
    disk: D,
) -> (Outcome, D)
    requires read { IsReadAs _words.now asked.now }
    requires none { IfOk asked.now (λ c. serves c ≡ false) }
    requires attached { D.attached disk ≡ false }
    ensures outcome { IsOutcome _words.now (D.told disk) (DiskFails D.Disk disk result.1) result.0 }
    ensures untouched { AskForNone _words.now → D.told result.1 ≡ D.told disk }
    ensures short { asked.now ≡ Err Memory → (result.0 ≡ NoMemory) × (D.told result.1 ≡ D.told disk) }
    ensures made { (c : Command) → AskFor _words.now c → IsMadeFor c (D.told disk) (D.told result.1) result.0 }
    ensures leaves { LeavesPagesFor _words.now (D.told disk) (D.told result.1) }
{
    match asked {
        Ok(command) => obey(alloc, command, disk),
        Err(fault) => (unread(*fault), disk),
    }
}
