//! Writing the changed pages.

ghost use Rattle.std.specs.Prelude.{◌≡◌, ◌≤◌, ◌∷◌, [], true, length, map, All, OnOk, OnErr};
ghost use Rattle.spe_model.specs.Faults.{HasCause};
ghost use Rattle.spe_disk.specs.Told.{Adds};
ghost use Rattle.spe_rewrite.specs.Changes.{Ascend};
ghost use Rattle.spe_rewrite.specs.declared.change.Change.{Change};
ghost use Rattle.spe_rewrite.specs.Rewrite.{putting};
ghost use Rattle.spe_disk.specs.Added.{AddsCut};

use crate::change::Change;
use spe_disk::{Disk, Failed, FileNo};

// Where the bytes of page 1 begin that are written.
const REST_AT: usize = 24;

// Writes a changed page, page 1 but for its first 24 bytes.
fn put_page<D: Disk>(disk: &mut D, page_size: u32, change: &Change) -> Result<(), Failed>
    requires attached { D.attached disk.old ≡ true }
    requires numbered { 1 ≤ change.now.page }
    requires low { 512 ≤ page_size }
    requires high { page_size ≤ 65536 }
    requires whole { length change.now.bytes ≡ page_size }
    ensures made { OnOk result (Adds (D.told disk.old) (D.told disk.new) (putting page_size change.now ∷ [])) }
    ensures stopped { OnErr result (AddsCut (D.told disk.old) (D.told disk.new) (putting page_size change.now ∷ [])) }
    ensures attached { D.attached disk.new ≡ true }
    ensures readings { D.read_faults disk.new ≡ D.read_faults disk.old }
    ensures cause { HasCause (D.op_faults disk.old) (D.op_faults disk.new) result }
{
    let bytes = change.bytes.as_slice();
    if change.page == 1 {
        let (_, rest) = bytes.split_at(REST_AT);
        disk.write_at(FileNo::Database, REST_AT as u64, rest)?;
    } else {
        let place = u64::from(change.page - 1) * u64::from(page_size);
        disk.write_at(FileNo::Database, place, bytes)?;
    }
    Ok(())
}

/// Writes the changed pages.
pub fn put_pages<D: Disk>(disk: &mut D, page_size: u32, changes: &[Change]) -> Result<(), Failed>
    requires attached { D.attached disk.old ≡ true }
    requires ascending { Ascend 0 changes.now }
    requires low { 512 ≤ page_size }
    requires high { page_size ≤ 65536 }
    requires whole { All (λ (c : Change). length c.bytes ≡ page_size) changes.now }
    ensures made { OnOk result (Adds (D.told disk.old) (D.told disk.new) (map (putting page_size) changes.now)) }
    ensures stopped { OnErr result (AddsCut (D.told disk.old) (D.told disk.new) (map (putting page_size) changes.now)) }
    ensures attached { D.attached disk.new ≡ true }
    ensures readings { D.read_faults disk.new ≡ D.read_faults disk.old }
    ensures cause { HasCause (D.op_faults disk.old) (D.op_faults disk.new) result }
{
    let mut left = changes;
    while let [change, rest @ ..] = left {
        put_page(disk, page_size, change)?;
        left = rest;
    }
    Ok(())
}
