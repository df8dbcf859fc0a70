//! The command that puts free lists back in stock form, over pages that break no rule.

ghost use Rattle.std.specs.Prelude.{◌≡◌, ◌≤◌, [], true, IfErr, IfOk, ℕ, List};
ghost use Rattle.spe_model.specs.Settled.{IsWithinLimits};
ghost use Rattle.spe_disk.specs.Added.{IfTold};
ghost use Rattle.spe_convert.specs.Release.{AreFound, WhereFound};
ghost use Rattle.spe_words.specs.declared.command.Command.TheVariants as commands;
ghost use Rattle.spe_serve.specs.Answer.{IsOverFound};
ghost use Rattle.spe_serve.specs.Behind.{IsOfReleasing, IsOwnFor, released_reply};
ghost use Rattle.spe_serve.specs.Ending.{outcome_of};
ghost use Rattle.spe_serve.specs.Failure.{IsCausedByEither};
ghost use Rattle.spe_serve.specs.Own.{are_sound};
ghost use Rattle.spe_serve.specs.Reply.{IsAboutRelease};

use crate::failure::Failure;
use crate::reply::Reply;
use spe_convert::{ConvertFault, release};
use spe_disk::Disk;
use spe_model::Recovered;
use spe_verdict::counts_law;
use std::alloc::Global;

// What comes of putting free lists in stock form.
fn released_reply(pages: u32, count: Result<u32, ConvertFault>) -> Result<Reply, Failure>
    requires { IfErr count IsOfReleasing }
    ensures { result ≡ released_reply pages count }
{
    match count {
        Ok(free) => Ok(Reply::Released { free, pages }),
        Err(ConvertFault::Disk) => Err(Failure::Disk),
        Err(ConvertFault::Corrupt { page }) => Ok(Reply::Corrupt { page }),
        Err(ConvertFault::Memory) => Err(Failure::Memory),
        Err(ConvertFault::Full { .. } | ConvertFault::Prepared) => unreachable!(),
    }
}

/// Puts the free lists of recovered pages that break no rule back in stock form, and answers how many pages
/// are free.
pub fn sound_release<D: Disk>(
    alloc: Global,
    mut disk: D,
    found: &Recovered,
) -> (Result<Reply, Failure>, D)
    requires limits { IsWithinLimits found.now }
    requires attached { D.attached disk ≡ true }
    requires found { IfTold (D.told disk) (AreFound found.now) }
    requires sound { WhereFound (D.told disk) found.now (λ content pages. are_sound pages ≡ true) }
    ensures reply { IfOk result.0 (λ reply. WhereFound (D.told disk) found.now (λ content pages. IsOverFound (commands.Release []) pages reply)) }
    ensures about { IfOk result.0 IsAboutRelease }
    ensures own { (db : List ℕ) → IsOwnFor (commands.Release db) found.now (D.told disk) (D.told result.1) (outcome_of result.0) }
    ensures cause { IfErr result.0 (IsCausedByEither (D.read_faults disk) (D.read_faults result.1) (D.op_faults disk) (D.op_faults result.1)) }
{
    counts_law();
    let count = release(alloc, &mut disk, found);
    (released_reply(found.pages, count), disk)
}
