//! Saving the old pages in the journal.

ghost use Rattle.std.specs.Prelude.{◌≡◌, ◌≤◌, ◌<◌, ◌+◌, ◌*◌, ◌^◌, ◌∷◌, [], true, length, IfOk, OnOk, OnErr};
ghost use Rattle.spe_model.specs.Content.{bytes_of};
ghost use Rattle.spe_model.specs.declared.file.FileNo.TheVariants.{Database};
ghost use Rattle.spe_model.specs.Faults.{HasCause};
ghost use Rattle.spe_model.specs.Recovery.{file_page, file_page_size};
ghost use Rattle.spe_rewrite.specs.Changes.{Ascend};
ghost use Rattle.spe_rewrite.specs.Rewrite.{heading, old_changes, savings};
ghost use Rattle.spe_disk.specs.Added.{IfTold, Makes, MakesCut};
ghost use Rattle.spe_rewrite.specs.Told.{HasEither, KeepsFile};

use crate::change::Change;
use spe_disk::{Disk, Failed, FileNo};
use spe_journal::{HEAD_BYTES, put_head, put_record};

/// Writes the head of the journal.
pub fn write_head<D: Disk>(
    disk: &mut D,
    page_size: u32,
    count: u32,
    nonce: u32,
) -> Result<(), Failed>
    requires attached { D.attached disk.old ≡ true }
    ensures made { OnOk result (Makes (D.told disk.old) (D.told disk.new) (λ content. heading page_size count nonce ∷ [])) }
    ensures keeps { OnOk result (KeepsFile (D.told disk.old) (D.told disk.new)) }
    ensures stopped { OnErr result (MakesCut (D.told disk.old) (D.told disk.new) (λ content. heading page_size count nonce ∷ [])) }
    ensures attached { D.attached disk.new ≡ true }
    ensures readings { D.read_faults disk.new ≡ D.read_faults disk.old }
    ensures cause { HasCause (D.op_faults disk.old) (D.op_faults disk.new) result }
{
    let mut head = [0; HEAD_BYTES];
    put_head(nonce, count, page_size, &mut head);
    disk.write_at(FileNo::Journal(0), 0, &head)?;
    Ok(())
}

// Reads a page of the file.
fn read_page<D: Disk>(disk: &mut D, number: u32, page: &mut [u8]) -> Result<(), Failed>
    requires attached { D.attached disk.old ≡ true }
    requires numbered { 1 ≤ number }
    requires high { length page.old ≤ 65536 }
    requires sized { IfTold (D.told disk.old) (λ content. file_page_size content ≡ length page.old) }
    requires within { IfTold (D.told disk.old) (λ content. number * length page.old ≤ length (bytes_of content Database)) }
    ensures page { OnOk result (IfTold (D.told disk.old) (λ content. page.new ≡ file_page content number)) }
    ensures length { length page.new ≡ length page.old }
    ensures same { D.told disk.new ≡ D.told disk.old }
    ensures attached { D.attached disk.new ≡ true }
    ensures operations { D.op_faults disk.new ≡ D.op_faults disk.old }
    ensures cause { HasCause (D.read_faults disk.old) (D.read_faults disk.new) result }
{
    let place = u64::from(number - 1) * page.len() as u64;
    let _ = disk.read_at(FileNo::Database, place, page)?;
    Ok(())
}

// Saves a changed page as it was, where it is one of `count`, behind `saved` records, and answers how
// many records there are then.
fn save_page<D: Disk>(
    disk: &mut D,
    count: u32,
    nonce: u32,
    saved: u64,
    change: &Change,
    page: &mut [u8],
    piece: &mut [u8],
) -> Result<u64, Failed>
    requires attached { D.attached disk.old ≡ true }
    requires few { saved < change.now.page }
    requires high { length page.old ≤ 65536 }
    requires piece { length piece.old ≡ length page.old + 8 }
    requires sized { IfTold (D.told disk.old) (λ content. file_page_size content ≡ length page.old) }
    requires whole { IfTold (D.told disk.old) (λ content. count * length page.old ≤ length (bytes_of content Database)) }
    ensures made { OnOk result (Makes (D.told disk.old) (D.told disk.new) (λ content. savings (file_page content) (length page.old) nonce saved (old_changes count (change.now ∷ [])))) }
    ensures saved { IfOk result (λ now. now ≡ saved + length (old_changes count (change.now ∷ []))) }
    ensures keeps { OnOk result (KeepsFile (D.told disk.old) (D.told disk.new)) }
    ensures stopped { OnErr result (MakesCut (D.told disk.old) (D.told disk.new) (λ content. savings (file_page content) (length page.old) nonce saved (old_changes count (change.now ∷ [])))) }
    ensures page { length page.new ≡ length page.old }
    ensures piece { length piece.new ≡ length piece.old }
    ensures attached { D.attached disk.new ≡ true }
    ensures cause { HasEither (D.read_faults disk.old) (D.read_faults disk.new) (D.op_faults disk.old) (D.op_faults disk.new) result }
{
    if change.page > count {
        return Ok(saved);
    }
    read_page(disk, change.page, page)?;
    put_record(nonce, change.page, page, piece);
    let place = HEAD_BYTES as u64 + saved * piece.len() as u64;
    disk.write_at(FileNo::Journal(0), place, piece)?;
    Ok(saved + 1)
}

/// Saves each changed page that is one of `count` as it was, and answers how many those are. `page` is
/// as long as a page, `piece` as a record.
pub fn save_pages<D: Disk>(
    disk: &mut D,
    count: u32,
    nonce: u32,
    changes: &[Change],
    page: &mut [u8],
    piece: &mut [u8],
) -> Result<u64, Failed>
    requires attached { D.attached disk.old ≡ true }
    requires ascending { Ascend 0 changes.now }
    requires high { length page.old ≤ 65536 }
    requires piece { length piece.old ≡ length page.old + 8 }
    requires sized { IfTold (D.told disk.old) (λ content. file_page_size content ≡ length page.old) }
    requires whole { IfTold (D.told disk.old) (λ content. count * length page.old ≤ length (bytes_of content Database)) }
    ensures made { OnOk result (Makes (D.told disk.old) (D.told disk.new) (λ content. savings (file_page content) (length page.old) nonce 0 (old_changes count changes.now))) }
    ensures saved { IfOk result (λ saved. saved ≡ length (old_changes count changes.now)) }
    ensures keeps { OnOk result (KeepsFile (D.told disk.old) (D.told disk.new)) }
    ensures stopped { OnErr result (MakesCut (D.told disk.old) (D.told disk.new) (λ content. savings (file_page content) (length page.old) nonce 0 (old_changes count changes.now))) }
    ensures attached { D.attached disk.new ≡ true }
    ensures cause { HasEither (D.read_faults disk.old) (D.read_faults disk.new) (D.op_faults disk.old) (D.op_faults disk.new) result }
{
    let mut saved: u64 = 0;
    let mut left = changes;
    while let [change, rest @ ..] = left {
        saved = save_page(disk, count, nonce, saved, change, page, piece)?;
        left = rest;
    }
    Ok(saved)
}
