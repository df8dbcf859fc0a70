//! Making the journals that are absent.

ghost use Rattle.std.specs.Prelude.{◌≡◌, ℕ, List, true, length, IfOk, OnOk};
ghost use Rattle.spe_model.specs.Faults.{HasCause};
ghost use Rattle.spe_disk.specs.Told.{absent_journals, makings};
ghost use Rattle.spe_rewrite.specs.Idle.{AreIdle};
ghost use Rattle.spe_disk.specs.Added.{AddsSome, IfBothTold, IfTold, Makes};
ghost use Rattle.spe_rewrite.specs.Told.{counted};
ghost use Rattle.spe_rewrite.specs.Turns.{KeepsIdle};

use spe_disk::{Disk, Failed};
use spe_transactions::{at_work_at_opening, journal_made};

/// Makes each journal that is absent, with no bytes, in ascending order.
///
/// `made` is how many operations were made since attaching; answered is how many were made then, up to
/// the greatest number of the type. Whatever is answered, and wherever a stop cuts it, no recovered
/// page changes.
pub fn make_journals<D: Disk>(disk: &mut D, made: u64) -> Result<u64, Failed>
    requires attached { D.attached disk.old ≡ true }

    // What was done.
    ensures made { OnOk result (Makes (D.told disk.old) (D.told disk.new) (λ content. makings (absent_journals content))) }
    ensures counted { IfOk result (λ now. IfTold (D.told disk.old) (λ content. now ≡ counted made (length (absent_journals content)))) }

    // What it leaves, whatever it answers and wherever a stop cuts it.
    ensures idle { IfBothTold (D.told disk.old) (D.told disk.new) (λ content now. (page_size : ℕ) (pages : List (List ℕ)) → AreIdle page_size content pages → AreIdle page_size now pages) }
    ensures stops { IfTold (D.told disk.old) (λ content. AddsSome (D.told disk.old) (D.told disk.new) (λ ops. (page_size : ℕ) (pages : List (List ℕ)) → AreIdle page_size content pages
        → KeepsIdle page_size content (makings (absent_journals content)) ops pages)) }

    // Why it failed.
    ensures cause { HasCause (D.op_faults disk.old) (D.op_faults disk.new) result }
    ensures readings { D.read_faults disk.new ≡ D.read_faults disk.old }
    ensures attached { D.attached disk.new ≡ true }
{
    // The laws that the clauses on the files rest on.
    at_work_at_opening();
    journal_made();
    let absent = disk.make_journals()?;
    Ok(made.saturating_add(u64::from(absent)))
}
