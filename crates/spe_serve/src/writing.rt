//! The commands that write, behind recovery: damage is refused before all else.

ghost use Rattle.std.specs.Prelude.{◌≡◌, ◌≤◌, [], true, IfErr, IfOk};
ghost use Rattle.spe_model.specs.Settled.{IsWithinLimits};
ghost use Rattle.spe_disk.specs.Added.{IfTold};
ghost use Rattle.spe_convert.specs.Release.{AreFound, WhereFound};
ghost use Rattle.spe_serve.specs.Answer.{HasLists, IsOverFound, writes};
ghost use Rattle.spe_serve.specs.Behind.{IsOwnFor, refusal_in};
ghost use Rattle.spe_serve.specs.Ending.{outcome_of};
ghost use Rattle.spe_serve.specs.Failure.{IsCausedByEither};
ghost use Rattle.spe_serve.specs.Own.{are_sound};
ghost use Rattle.spe_serve.specs.Reply.{IsAbout};

use crate::failure::Failure;
use crate::pages::pages_verdict;
use crate::prepare::sound_prepare;
use crate::release::sound_release;
use crate::reply::Reply;
use spe_disk::Disk;
use spe_model::Recovered;
use spe_words::Command;
use std::alloc::Global;
use std::marker::Brand;

// What a command that writes refuses by the answer of `check`.
pub(crate) fn refusal_in(reply: Reply) -> Option<Reply>
    ensures { result ≡ refusal_in reply }
{
    match reply {
        Reply::Sound { .. } => None,
        Reply::Damage { page, .. } => Some(Reply::Corrupt { page }),
        Reply::Words
        | Reply::NoDatabase
        | Reply::Refused(_)
        | Reply::NotBuilt
        | Reply::Corrupt { .. }
        | Reply::NoTable
        | Reply::ClosedTable(_)
        | Reply::Rows(_)
        | Reply::Released { .. }
        | Reply::Prepared { .. }
        | Reply::AlreadyPrepared
        | Reply::Full { .. } => Some(reply),
    }
}

// The answer over pages that break no rule.
fn sound_reply<D: Disk>(
    alloc: Global,
    disk: D,
    found: &Recovered,
    command: &Command,
) -> (Result<Reply, Failure>, D)
    requires writes { writes command.now ≡ true }
    requires lists { HasLists command.now }
    requires limits { IsWithinLimits found.now }
    requires attached { D.attached disk ≡ true }
    requires found { IfTold (D.told disk) (AreFound found.now) }
    requires sound { WhereFound (D.told disk) found.now (λ content pages. are_sound pages ≡ true) }
    ensures reply { IfOk result.0 (λ reply. WhereFound (D.told disk) found.now (λ content pages. IsOverFound command.now pages reply)) }
    ensures about { IfOk result.0 (IsAbout command.now) }
    ensures own { IsOwnFor command.now found.now (D.told disk) (D.told result.1) (outcome_of result.0) }
    ensures cause { IfErr result.0 (IsCausedByEither (D.read_faults disk) (D.read_faults result.1) (D.op_faults disk) (D.op_faults result.1)) }
{
    match command {
        Command::Prepare { lists, .. } => sound_prepare(alloc, disk, found, *lists),
        Command::Release { .. } => sound_release(alloc, disk, found),
        Command::Rows { .. } | Command::Check { .. } | Command::Run { .. } | Command::Work { .. } =>
            unreachable!(),
    }
}

/// What a command that writes answers and does over recovered pages.
///
/// Pages that break a rule of `check` are refused first, with the page; over a disk that does not tell its
/// files so is a page that breaks one only when it is read again.
pub fn writing_reply<D: Disk>(
    alloc: Global,
    disk: D,
    found: &Recovered,
    command: &Command,
) -> (Result<Reply, Failure>, D)
    requires writes { writes command.now ≡ true }
    requires lists { HasLists command.now }
    requires limits { IsWithinLimits found.now }
    requires attached { D.attached disk ≡ true }
    requires found { IfTold (D.told disk) (AreFound found.now) }
    ensures reply { IfOk result.0 (λ reply. WhereFound (D.told disk) found.now (λ content pages. IsOverFound command.now pages reply)) }
    ensures about { IfOk result.0 (IsAbout command.now) }
    ensures own { IsOwnFor command.now found.now (D.told disk) (D.told result.1) (outcome_of result.0) }
    ensures cause { IfErr result.0 (IsCausedByEither (D.read_faults disk) (D.read_faults result.1) (D.op_faults disk) (D.op_faults result.1)) }
{
    let (checked, disk) = pages_verdict::<D, Brand>(alloc, disk, found);
    let answered = match checked {
        Ok(answered) => answered,
        Err(failure) => return (Err(failure), disk),
    };
    match refusal_in(answered) {
        Some(refusal) => (Ok(refusal), disk),
        None => sound_reply(alloc, disk, found, command),
    }
}
