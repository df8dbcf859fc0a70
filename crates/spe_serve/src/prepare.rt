//! The command that puts free lists in server form, over pages that break no rule.

ghost use Rattle.std.specs.Prelude.{◌≡◌, ◌≤◌, [], true, IfErr, IfOk, ℕ, List};
ghost use Rattle.spe_model.specs.Settled.{IsWithinLimits};
ghost use Rattle.spe_disk.specs.Added.{IfTold};
ghost use Rattle.spe_convert.specs.Release.{AreFound, WhereFound};
ghost use Rattle.spe_words.specs.declared.command.Command.TheVariants as commands;
ghost use Rattle.spe_serve.specs.Answer.{IsOverFound};
ghost use Rattle.spe_serve.specs.Behind.{IsOwnFor, prepared_reply};
ghost use Rattle.spe_serve.specs.Ending.{outcome_of};
ghost use Rattle.spe_serve.specs.Failure.{IsCausedByEither};
ghost use Rattle.spe_serve.specs.Own.{are_sound};
ghost use Rattle.spe_serve.specs.Reply.{IsAboutPrepare};

use crate::failure::Failure;
use crate::reply::Reply;
use spe_convert::{ConvertFault, prepare};
use spe_disk::Disk;
use spe_model::Recovered;
use spe_verdict::counts_law;
use std::alloc::Global;

// What comes of putting free lists in server form, so many of them.
fn prepared_reply(lists: u32, pages: Result<u32, ConvertFault>) -> Result<Reply, Failure>
    ensures { result ≡ prepared_reply lists pages }
{
    match pages {
        Ok(pages) => Ok(Reply::Prepared { lists, pages }),
        Err(ConvertFault::Disk) => Err(Failure::Disk),
        Err(ConvertFault::Full { pages }) => Ok(Reply::Full { pages }),
        Err(ConvertFault::Prepared) => Ok(Reply::AlreadyPrepared),
        Err(ConvertFault::Corrupt { page }) => Ok(Reply::Corrupt { page }),
        Err(ConvertFault::Memory) => Err(Failure::Memory),
    }
}

/// Puts the free lists of recovered pages that break no rule in server form, in so many lists.
///
/// Those that are in server form are refused before those for which the file has no room.
pub fn sound_prepare<D: Disk>(
    alloc: Global,
    mut disk: D,
    found: &Recovered,
    lists: u32,
) -> (Result<Reply, Failure>, D)
    requires some { 1 ≤ lists }
    requires few { lists ≤ 16 }
    requires limits { IsWithinLimits found.now }
    requires attached { D.attached disk ≡ true }
    requires found { IfTold (D.told disk) (AreFound found.now) }
    requires sound { WhereFound (D.told disk) found.now (λ content pages. are_sound pages ≡ true) }
    ensures reply { IfOk result.0 (λ reply. WhereFound (D.told disk) found.now (λ content pages. IsOverFound (commands.Prepare [] lists) pages reply)) }
    ensures about { IfOk result.0 (IsAboutPrepare lists) }
    ensures own { (db : List ℕ) → IsOwnFor (commands.Prepare db lists) found.now (D.told disk) (D.told result.1) (outcome_of result.0) }
    ensures cause { IfErr result.0 (IsCausedByEither (D.read_faults disk) (D.read_faults result.1) (D.op_faults disk) (D.op_faults result.1)) }
{
    counts_law();
    let pages = prepare(alloc, &mut disk, found, lists);
    (prepared_reply(lists, pages), disk)
}
