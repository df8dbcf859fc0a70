//! Rewriting pages.

ghost use Rattle.std.specs.Prelude.{◌≡◌, ◌≤◌, ◌%◌, ◌^◌, ◌+◌, ◌*◌, ℕ, List, true, length, IfOk, IfErr, OnOk, OnErr};
ghost use Rattle.spe_model.specs.Content.{bytes_of};
ghost use Rattle.spe_model.specs.Covered.{Recovers};
ghost use Rattle.spe_model.specs.declared.file.FileNo.TheVariants.{Database};
ghost use Rattle.spe_model.specs.Recovery.{file_page, file_page_size};
ghost use Rattle.spe_transactions.specs.Pages.{laid_pages};
ghost use Rattle.spe_rewrite.specs.Changes.{AreChanges, changed};
ghost use Rattle.spe_rewrite.specs.declared.fault.RewriteFault.TheVariants.{Memory};
ghost use Rattle.spe_rewrite.specs.Idle.{AreIdle, MayRewrite};
ghost use Rattle.spe_rewrite.specs.Rewrite.{rewrite_of};
ghost use Rattle.spe_disk.specs.Added.{AddsSome, IfBothTold, IfTold, Makes, MakesCut};
ghost use Rattle.spe_rewrite.specs.Told.{HasCauses, HasEither, counted};
ghost use Rattle.spe_rewrite.specs.Turns.{IsFront};

use crate::change::{Change, Changes};
use crate::fault::RewriteFault;
use crate::journal::{save_pages, write_head};
use crate::law::rewrite_turns;
use crate::put::put_pages;
use spe_crash::recovered_pages;
use spe_disk::{Disk, Failed, FileNo};
use std::alloc::Global;

// Makes the operations of a rewriting, and answers how many were made since attaching.
fn rewrite_with<D: Disk>(
    disk: &mut D,
    page_size: u32,
    count: u32,
    made: u64,
    changes: &[Change],
    page: &mut [u8],
    piece: &mut [u8],
) -> Result<u64, Failed>
    requires attached { D.attached disk.old ≡ true }
    requires low { 512 ≤ page_size }
    requires high { page_size ≤ 65536 }
    requires changes { AreChanges page_size changes.now }
    requires some { 1 ≤ length changes.now }
    requires page { length page.old ≡ page_size }
    requires piece { length piece.old ≡ page_size + 8 }
    requires sized { IfTold (D.told disk.old) (λ content. file_page_size content ≡ page_size) }
    requires whole { IfTold (D.told disk.old) (λ content. count * page_size ≤ length (bytes_of content Database)) }
    ensures made { OnOk result (Makes (D.told disk.old) (D.told disk.new) (λ content. rewrite_of (file_page content) page_size count (made % 2 ^ 32) changes.now)) }
    ensures counted { IfOk result (λ now. IfTold (D.told disk.old) (λ content. now ≡ counted made (length (rewrite_of (file_page content) page_size count (made % 2 ^ 32) changes.now)))) }
    ensures stopped { OnErr result (MakesCut (D.told disk.old) (D.told disk.new) (λ content. rewrite_of (file_page content) page_size count (made % 2 ^ 32) changes.now)) }
    ensures attached { D.attached disk.new ≡ true }
    ensures cause { HasEither (D.read_faults disk.old) (D.read_faults disk.new) (D.op_faults disk.old) (D.op_faults disk.new) result }
{
    let nonce = (made % (1 << 32)) as u32;
    write_head(disk, page_size, count, nonce)?;
    let saved = save_pages(disk, count, nonce, changes, page, piece)?;
    put_pages(disk, page_size, changes)?;
    disk.cut(FileNo::Journal(0), 0)?;
    let written = changes.len() as u64;
    Ok(
        made.saturating_add(saved)
            .saturating_add(written)
            .saturating_add(2),
    )
}

// Takes all memory and then makes the operations of a rewriting, none where no page is changed.
fn rewrite_files<D: Disk>(
    alloc: Global,
    disk: &mut D,
    page_size: u32,
    count: u32,
    made: u64,
    changes: &[Change],
) -> Result<u64, RewriteFault>
    requires attached { D.attached disk.old ≡ true }
    requires low { 512 ≤ page_size }
    requires high { page_size ≤ 65536 }
    requires changes { AreChanges page_size changes.now }
    requires sized { IfTold (D.told disk.old) (λ content. file_page_size content ≡ page_size) }
    requires whole { IfTold (D.told disk.old) (λ content. count * page_size ≤ length (bytes_of content Database)) }
    ensures made { OnOk result (Makes (D.told disk.old) (D.told disk.new) (λ content. rewrite_of (file_page content) page_size count (made % 2 ^ 32) changes.now)) }
    ensures counted { IfOk result (λ now. IfTold (D.told disk.old) (λ content. now ≡ counted made (length (rewrite_of (file_page content) page_size count (made % 2 ^ 32) changes.now)))) }
    ensures cut { MakesCut (D.told disk.old) (D.told disk.new) (λ content. rewrite_of (file_page content) page_size count (made % 2 ^ 32) changes.now) }
    ensures untouched { IfErr result (λ fault. fault ≡ Memory → D.told disk.new ≡ D.told disk.old) }
    ensures cause { HasCauses (D.read_faults disk.old) (D.read_faults disk.new) (D.op_faults disk.old) (D.op_faults disk.new) result }
    ensures attached { D.attached disk.new ≡ true }
{
    if changes.is_empty() {
        return Ok(made);
    }
    let mut page = vec![in alloc; 0u8; page_size as usize]?;
    let mut piece = vec![in alloc; 0u8; page_size as usize + 8]?;
    Ok(rewrite_with(disk, page_size, count, made, changes, &mut page, &mut piece)?)
}

/// Rewrites pages of a recovered database, and adds pages at its end, in one transaction of journal 0.
///
/// `changes` are the changed pages in ascending order, with all their bytes. `page_size` is in bytes,
/// `count` is how many pages the database has. `made` is how many operations were made since attaching;
/// answered is how many were made then, up to the greatest number of the type.
///
/// The operations are: the head of the journal, whose nonce is the low 32 bits of `made` and whose size
/// field is `count`; a record of each changed page up to `count`, as the file has it; the changed pages,
/// page 1 but for its first 24 bytes; the cut of the journal to none. Without changed pages there is
/// none. The order, and the 24 bytes, are this project's own; what they write is that of "The Rollback
/// Journal" in SQLite's Database File Format.
///
/// `Memory` is answered before the first operation. `Disk` is answered only where the disk failed: some
/// first operations were made then, the last of them maybe torn, and the recovered pages are those
/// before; where the last one, the cut, was made all the same, they are the new ones.
///
/// In memory it holds one page and one record.
pub fn rewrite<D: Disk>(
    alloc: Global,
    disk: &mut D,
    page_size: u32,
    count: u32,
    made: u64,
    changes: &Changes,
) -> Result<u64, RewriteFault>
    requires attached { D.attached disk.old ≡ true }
    requires low { 512 ≤ page_size }
    requires high { page_size ≤ 65536 }
    requires changes { AreChanges page_size changes.now }
    requires may { IfTold (D.told disk.old) (MayRewrite page_size count changes.now) }

    // What was done, and the files then.
    ensures made { OnOk result (Makes (D.told disk.old) (D.told disk.new) (λ content. rewrite_of (file_page content) page_size count (made % 2 ^ 32) changes.now)) }
    ensures counted { IfOk result (λ now. IfTold (D.told disk.old) (λ content. now ≡ counted made (length (rewrite_of (file_page content) page_size count (made % 2 ^ 32) changes.now)))) }
    ensures rewritten { OnOk result (IfBothTold (D.told disk.old) (D.told disk.new) (λ content now. (pages : List (List ℕ)) → Recovers content pages → AreIdle page_size now (laid_pages pages (changed changes.now)))) }

    // What it leaves, whatever it answers and wherever a stop cuts it.
    ensures stops { IfTold (D.told disk.old) (λ content. AddsSome (D.told disk.old) (D.told disk.new) (λ ops. (pages : List (List ℕ)) → Recovers content pages
        → IsFront content (rewrite_of (file_page content) page_size count (made % 2 ^ 32) changes.now) ops pages (laid_pages pages (changed changes.now)))) }

    // Why it failed.
    ensures untouched { IfErr result (λ fault. fault ≡ Memory → D.told disk.new ≡ D.told disk.old) }
    ensures cause { HasCauses (D.read_faults disk.old) (D.read_faults disk.new) (D.op_faults disk.old) (D.op_faults disk.new) result }
    ensures attached { D.attached disk.new ≡ true }
{
    // The laws that the clauses on the files rest on.
    rewrite_turns();
    recovered_pages();
    rewrite_files(alloc, disk, page_size, count, made, changes.as_slice())
}
