//! Answers over the pages that recovery found in the files of a database.

ghost use Rattle.std.specs.Prelude.{◌≡◌, ◌≤◌, [], true, IfOk, IfErr, IsTrue};
ghost use Rattle.spe_model.specs.Settled.{IsWithinLimits};
ghost use Rattle.spe_convert.specs.Release.{WhereFound};
ghost use Rattle.spe_words.specs.declared.command.Command.TheVariants as commands;
ghost use Rattle.spe_serve.specs.Answer.{IsOverFound, only_reads};
ghost use Rattle.spe_serve.specs.Reply.{IsAbout, IsAboutVerdict};
ghost use Rattle.spe_room.specs.Admits.{admits_read};
ghost use Rattle.spe_serve.specs.Failure.{IsCausedBy, IsOwn, faulty_reply, reply_or_failure};

use crate::ask::{answer, check_answer};
use crate::failure::Failure;
use crate::reply::Reply;
use spe_check::{DiskSpace, Origin, found_pages};
use spe_disk::Disk;
use spe_model::Recovered;
use spe_space::{SpaceFault, TreeFault};
use spe_words::Command;
use std::alloc::Global;

// What becomes of a fault of the space. A page that there is not is damage; it comes only where the file is
// changed meanwhile. But for it, a failed reading and want of memory, such a space has no fault.
fn faulty_reply(fault: SpaceFault) -> Result<Reply, Failure>
    requires own { IsTrue (admits_read fault) }
    ensures { result ≡ faulty_reply fault }
{
    match fault {
        SpaceFault::Read => Err(Failure::Disk),
        SpaceFault::PageOut { page, .. } => Ok(Reply::Corrupt { page }),
        SpaceFault::Memory => Err(Failure::Memory),
        SpaceFault::Busy { .. }
        | SpaceFault::Stopped { .. }
        | SpaceFault::Full { .. }
        | SpaceFault::Corrupt { .. } => unreachable!(),
    }
}

// What becomes of an answer over the pages of a space.
fn reply_or_failure(found: Result<Reply, TreeFault>) -> Result<Reply, Failure>
    requires own { IfErr found IsOwn }
    ensures { result ≡ reply_or_failure found }
{
    match found {
        Ok(reply) => Ok(reply),
        Err(TreeFault::Corrupt { page }) => Ok(Reply::Corrupt { page }),
        Err(TreeFault::Space(fault)) => faulty_reply(fault),
    }
}

/// The answer to a command that reads, over the pages that recovery found in the files.
pub fn pages_reply<D: Disk, K: Origin>(
    alloc: Global,
    disk: D,
    found: &Recovered,
    command: &Command,
) -> (Result<Reply, Failure>, D)
    requires reads { only_reads command.now ≡ true }
    requires limits { IsWithinLimits found.now }
    requires attached { D.attached disk ≡ true }
    requires told { D.told disk ≡ K.told }
    requires faults { D.read_faults disk ≡ K.faults }
    requires operations { D.op_faults disk ≡ K.ops }
    ensures reply { IfOk result.0 (λ reply. WhereFound (D.told disk) found.now (λ content pages. IsOverFound command.now pages reply)) }
    ensures about { IfOk result.0 (IsAbout command.now) }
    ensures same { D.told result.1 ≡ D.told disk }
    ensures later { D.read_faults disk ≤ D.read_faults result.1 }
    ensures cause { IfErr result.0 (IsCausedBy (D.read_faults disk) (D.read_faults result.1)) }
{
    found_pages();
    let mut space = DiskSpace::<D, K>::new(disk, found);
    let reply = answer(alloc, &mut space, found.pages, command);
    let disk = space.into_disk();
    (reply_or_failure(reply), disk)
}

/// The answer of `check` over the pages that recovery found in the files.
pub fn pages_verdict<D: Disk, K: Origin>(
    alloc: Global,
    disk: D,
    found: &Recovered,
) -> (Result<Reply, Failure>, D)
    requires limits { IsWithinLimits found.now }
    requires attached { D.attached disk ≡ true }
    requires told { D.told disk ≡ K.told }
    requires faults { D.read_faults disk ≡ K.faults }
    requires operations { D.op_faults disk ≡ K.ops }
    ensures reply { IfOk result.0 (λ reply. WhereFound (D.told disk) found.now (λ content pages. IsOverFound (commands.Check []) pages reply)) }
    ensures about { IfOk result.0 IsAboutVerdict }
    ensures same { D.told result.1 ≡ D.told disk }
    ensures attached { D.attached result.1 ≡ true }
    ensures later { D.read_faults disk ≤ D.read_faults result.1 }
    ensures operations { D.op_faults result.1 ≡ D.op_faults disk }
    ensures cause { IfErr result.0 (IsCausedBy (D.read_faults disk) (D.read_faults result.1)) }
{
    found_pages();
    let mut space = DiskSpace::<D, K>::new(disk, found);
    let reply = check_answer(alloc, &mut space, found.pages);
    let disk = space.into_disk();
    (reply_or_failure(reply), disk)
}
