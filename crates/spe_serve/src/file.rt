//! The answers of the commands that look at a database, over its files.

ghost use Rattle.std.specs.Prelude.{◌≡◌, true, IfOk, IfErr};
ghost use Rattle.spe_model.specs.Recovery.{recovered};
ghost use Rattle.spe_model.specs.Settled.{IsWithinLimits};
ghost use Rattle.spe_disk.specs.Added.{IfTold};
ghost use Rattle.spe_convert.specs.Release.{AreFound, WhereFound};
ghost use Rattle.spe_serve.specs.Answer.{HasLists, is_built, want_of, IsOfRecovery, IsOverFound};
ghost use Rattle.spe_serve.specs.Behind.{IsOwnFor};
ghost use Rattle.spe_serve.specs.Ending.{outcome_of, refused_for};
ghost use Rattle.spe_serve.specs.Made.{IsMadeFor};
ghost use Rattle.spe_serve.specs.Own.{LeavesPagesOf};
ghost use Rattle.spe_serve.specs.Reply.{IsAbout};
ghost use Rattle.spe_serve.specs.Failure.{IsCausedByEither};

use crate::failure::Failure;
use crate::pages::pages_reply;
use crate::reply::Reply;
use crate::writing::writing_reply;
use spe_crash::recovered_pages;
use spe_disk::Disk;
use spe_model::{RecoverFault, Recovered};
use spe_recover::{Want, recover};
use spe_verdict::counts_law;
use spe_words::Command;
use std::alloc::Global;
use std::marker::Brand;

// What becomes of the reason why files are not recovered.
fn refused(fault: RecoverFault) -> Result<Reply, Failure>
    ensures { result ≡ refused_for fault }
{
    match fault {
        RecoverFault::Disk => Err(Failure::Disk),
        RecoverFault::Memory => Err(Failure::Memory),
        RecoverFault::Header(_)
        | RecoverFault::JournalPage { .. }
        | RecoverFault::Overlap { .. }
        | RecoverFault::TooLarge { .. }
        | RecoverFault::ShortFile { .. }
        | RecoverFault::NotPrepared => Ok(Reply::Refused(fault)),
    }
}

// What a command wants of the recovered pages.
fn want_of(command: &Command) -> Want
    ensures { result ≡ want_of command.now }
{
    match command {
        Command::Release { .. } => Want::Prepared,
        Command::Rows { .. }
        | Command::Check { .. }
        | Command::Prepare { .. }
        | Command::Run { .. }
        | Command::Work { .. } => Want::Any,
    }
}

// What a command answers and does over the pages that recovery found, which are such as it wants.
fn found_reply<D: Disk>(
    alloc: Global,
    disk: D,
    found: &Recovered,
    command: &Command,
) -> (Result<Reply, Failure>, D)
    requires built { is_built command.now ≡ true }
    requires lists { HasLists command.now }
    requires limits { IsWithinLimits found.now }
    requires attached { D.attached disk ≡ true }
    requires found { IfTold (D.told disk) (AreFound found.now) }
    ensures reply { IfOk result.0 (λ reply. WhereFound (D.told disk) found.now (λ content pages. IsOverFound command.now pages reply)) }
    ensures about { IfOk result.0 (IsAbout command.now) }
    ensures own { IsOwnFor command.now found.now (D.told disk) (D.told result.1) (outcome_of result.0) }
    ensures cause { IfErr result.0 (IsCausedByEither (D.read_faults disk) (D.read_faults result.1) (D.op_faults disk) (D.op_faults result.1)) }
{
    match command {
        Command::Rows { .. } => pages_reply::<D, Brand>(alloc, disk, found, command),
        Command::Check { .. } => pages_reply::<D, Brand>(alloc, disk, found, command),
        Command::Prepare { .. } => writing_reply(alloc, disk, found, command),
        Command::Release { .. } => writing_reply(alloc, disk, found, command),
        Command::Run { .. } | Command::Work { .. } => unreachable!(),
    }
}

/// Recovers the files that are attached, where they are such as the command wants, and gives its answer.
pub fn file_reply<D: Disk>(
    alloc: Global,
    mut disk: D,
    command: &Command,
) -> (Result<Reply, Failure>, D)
    requires built { is_built command.now ≡ true }
    requires lists { HasLists command.now }
    requires attached { D.attached disk ≡ true }
    ensures reply { IfOk result.0 (λ reply. IfTold (D.told disk) (λ content. IsOfRecovery command.now (recovered content) reply)) }
    ensures about { IfOk result.0 (IsAbout command.now) }
    ensures made { IsMadeFor command.now (D.told disk) (D.told result.1) (outcome_of result.0) }
    ensures leaves { LeavesPagesOf command.now (D.told disk) (D.told result.1) }
    ensures cause { IfErr result.0 (IsCausedByEither (D.read_faults disk) (D.read_faults result.1) (D.op_faults disk) (D.op_faults result.1)) }
{
    // The laws that the clauses on the files rest on.
    recovered_pages();
    counts_law();
    let want = want_of(command);
    let found = recover(alloc, &mut disk, want);
    match found {
        Ok(found) => found_reply(alloc, disk, &found, command),
        Err(fault) => (refused(fault), disk),
    }
}
