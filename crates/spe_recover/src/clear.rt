//! Cutting the file and the journals.

ghost use Rattle.std.specs.Prelude.{length, ◌≡◌, ◌<◌, ◌≤◌, ◌+◌, ℕ, true, IfOk, OnOk, OnErr};
ghost use Rattle.spe_model.specs.Content.{Content};
ghost use Rattle.spe_model.specs.Faults.{HasCause};
ghost use Rattle.spe_model.specs.Recovery.{journal_of};
ghost use Rattle.spe_model.specs.Rollback.{any_length, cuts_from, file_cut};
ghost use Rattle.spe_recover.specs.Rule.{Does};
ghost use Rattle.spe_recover.specs.Restored.{Stays, StaysFrom};
ghost use Rattle.spe_recover.specs.Heads.{HaveLengths};
ghost use Rattle.spe_disk.specs.Added.{IfTold, MakesCut};

use crate::heads::{JournalHead, head_at};
use spe_disk::{Disk, Failed, FileNo};

/// Whether a journal has bytes.
pub fn any_length(heads: &[JournalHead; 16]) -> bool
    ensures any { (content : Content) → HaveLengths heads.now content → result ≡ any_length content 0 16 }
{
    let mut id: u8 = 0;
    while id < 16 {
        if head_at(heads, id).length > 0 {
            return true;
        }
        id += 1;
    }
    false
}

/// Cuts the file of `size` bytes to `end` bytes, where it is longer, and answers how many operations
/// that took.
pub fn cut_file<D: Disk>(disk: &mut D, size: u64, end: u64) -> Result<u64, Failed>
    requires attached { D.attached disk.old ≡ true }
    ensures cut { IfOk result (Does (D.told disk.old) (D.told disk.new) (λ content. file_cut size end)) }
    ensures few { IfOk result (λ made. made ≤ 1) }
    ensures stays { OnOk result (Stays (D.told disk.old) (D.told disk.new)) }
    ensures stopped { OnErr result (MakesCut (D.told disk.old) (D.told disk.new) (λ content. file_cut size end)) }
    ensures attached { D.attached disk.new ≡ true }
    ensures readings { D.read_faults disk.new ≡ D.read_faults disk.old }
    ensures cause { HasCause (D.op_faults disk.old) (D.op_faults disk.new) result }
{
    if size <= end {
        return Ok(0);
    }
    disk.cut(FileNo::Database, end)?;
    Ok(1)
}

// Cuts a journal that has bytes, and answers how many operations that took.
fn cut_journal<D: Disk>(disk: &mut D, id: u8, size: u64) -> Result<u64, Failed>
    requires attached { D.attached disk.old ≡ true }
    requires numbered { id < 16 }
    requires size { IfTold (D.told disk.old) (λ content. size ≡ length (journal_of content id)) }
    ensures cut { IfOk result (Does (D.told disk.old) (D.told disk.new) (λ content. cuts_from content id 1)) }
    ensures few { IfOk result (λ made. made ≤ 1) }
    ensures stays { OnOk result (StaysFrom (id + 1) (D.told disk.old) (D.told disk.new)) }
    ensures stopped { OnErr result (MakesCut (D.told disk.old) (D.told disk.new) (λ content. cuts_from content id 1)) }
    ensures attached { D.attached disk.new ≡ true }
    ensures readings { D.read_faults disk.new ≡ D.read_faults disk.old }
    ensures cause { HasCause (D.op_faults disk.old) (D.op_faults disk.new) result }
{
    if size == 0 {
        return Ok(0);
    }
    disk.cut(FileNo::Journal(id), 0)?;
    Ok(1)
}

/// Cuts the journals that have bytes, in ascending order, and answers how many operations that took.
pub fn cut_journals<D: Disk>(disk: &mut D, heads: &[JournalHead; 16]) -> Result<u64, Failed>
    requires attached { D.attached disk.old ≡ true }
    requires lengths { IfTold (D.told disk.old) (HaveLengths heads.now) }
    ensures cut { IfOk result (Does (D.told disk.old) (D.told disk.new) (λ content. cuts_from content 0 16)) }
    ensures few { IfOk result (λ made. made ≤ 16) }
    ensures stopped { OnErr result (MakesCut (D.told disk.old) (D.told disk.new) (λ content. cuts_from content 0 16)) }
    ensures attached { D.attached disk.new ≡ true }
    ensures readings { D.read_faults disk.new ≡ D.read_faults disk.old }
    ensures cause { HasCause (D.op_faults disk.old) (D.op_faults disk.new) result }
{
    let mut made: u64 = 0;
    let mut id: u8 = 0;
    while id < 16 {
        let size = head_at(heads, id).length;
        made += cut_journal(disk, id, size)?;
        id += 1;
    }
    Ok(made)
}
