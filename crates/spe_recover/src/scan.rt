//! Reading the hot records of all journals.

ghost use Rattle.std.specs.Prelude.{◌≡◌, ◌+◌, ◌<◌, ◌≤◌, true, length, take, drop, IfOk};
ghost use Rattle.spe_model.specs.Journal.{hot_records};
ghost use Rattle.spe_model.specs.Recovery.{journal_of};
ghost use Rattle.spe_journal.specs.Saved.{saved_in};
ghost use Rattle.spe_recover.specs.Seen.{Notes, NotesPiece, IsScanned, entries_of, entries_from};
ghost use Rattle.spe_recover.specs.Heads.{IsHead, AreHeads};
ghost use Rattle.spe_disk.specs.Added.{IfTold};
ghost use Rattle.spe_recover.specs.Told.{FindsTold, HasDiskCause};

use crate::failure::Failure;
use crate::heads::{JournalHead, head_at};
use crate::note::{note, nothing_seen};
use crate::piece::read_piece;
use crate::seen::Seen;
use spe_disk::Disk;
use spe_journal::{HEAD_BYTES, JournalKind, record_at};
use std::alloc::{AllocError, Global};

// Keeps what a piece of a journal says, and answers whether it is a record.
fn note_piece(
    seen: &mut Seen,
    id: u8,
    nonce: u32,
    page_size: u32,
    piece: &[u8],
) -> Result<bool, AllocError>
    requires low { 512 ≤ page_size }
    requires whole { length piece.now ≡ page_size + 8 }
    ensures { IfOk result (NotesPiece id nonce page_size piece.now seen.old seen.new) }
{
    match record_at(nonce, page_size, piece) {
        Some(saved) => {
            note(seen, id, &saved)?;
            Ok(true)
        }
        None => Ok(false),
    }
}

// Keeps what the records of a journal of `end` bytes say.
fn scan_records<D: Disk>(
    disk: &mut D,
    id: u8,
    nonce: u32,
    page_size: u32,
    end: u64,
    buf: &mut [u8],
    seen: &mut Seen,
) -> Result<(), Failure>
    requires attached { D.attached disk.old ≡ true }
    requires numbered { id < 16 }
    requires low { 512 ≤ page_size }
    requires high { page_size ≤ 65536 }
    requires page { length buf.old ≡ page_size + 8 }
    requires end { IfTold (D.told disk.old) (λ content. end ≡ length (journal_of content id)) }
    ensures notes { FindsTold (D.told disk.old) result (λ content x. Notes (entries_of id (saved_in nonce page_size (drop 512 (journal_of content id)))) seen.old seen.new) }
    ensures same { D.told disk.new ≡ D.told disk.old }
    ensures attached { D.attached disk.new ≡ true }
    ensures operations { D.op_faults disk.new ≡ D.op_faults disk.old }
    ensures cause { HasDiskCause (D.read_faults disk.old) (D.read_faults disk.new) result }
{
    let size = u64::from(page_size) + 8;
    let mut at = HEAD_BYTES as u64;
    let mut left = end.saturating_sub(HEAD_BYTES as u64);
    while left >= size {
        read_piece(disk, id, at, buf)?;
        if !note_piece(seen, id, nonce, page_size, buf)? {
            return Ok(());
        }
        at += size;
        left -= size;
    }
    Ok(())
}

// Keeps what the hot records of a journal say.
fn scan_journal<D: Disk>(
    disk: &mut D,
    id: u8,
    head: &JournalHead,
    page_size: u32,
    buf: &mut [u8],
    seen: &mut Seen,
) -> Result<(), Failure>
    requires attached { D.attached disk.old ≡ true }
    requires numbered { id < 16 }
    requires head { IfTold (D.told disk.old) (λ content. IsHead content page_size id head.now) }
    requires low { 512 ≤ page_size }
    requires high { page_size ≤ 65536 }
    requires page { length buf.old ≡ page_size + 8 }
    ensures notes { FindsTold (D.told disk.old) result (λ content x. Notes (entries_of id (hot_records page_size (journal_of content id))) seen.old seen.new) }
    ensures same { D.told disk.new ≡ D.told disk.old }
    ensures attached { D.attached disk.new ≡ true }
    ensures operations { D.op_faults disk.new ≡ D.op_faults disk.old }
    ensures cause { HasDiskCause (D.read_faults disk.old) (D.read_faults disk.new) result }
{
    match head.kind {
        JournalKind::Hot { nonce } => {
            scan_records(disk, id, nonce, page_size, head.length, buf, seen)
        }
        JournalKind::Cold => Ok(()),
        JournalKind::OtherSize(_) => Ok(()),
    }
}

// Keeps what the hot records of all journals say.
fn scan_all<D: Disk>(
    disk: &mut D,
    heads: &[JournalHead; 16],
    page_size: u32,
    buf: &mut [u8],
    seen: &mut Seen,
) -> Result<(), Failure>
    requires attached { D.attached disk.old ≡ true }
    requires heads { IfTold (D.told disk.old) (λ content. AreHeads content page_size heads.now) }
    requires low { 512 ≤ page_size }
    requires high { page_size ≤ 65536 }
    requires page { length buf.old ≡ page_size + 8 }
    ensures notes { FindsTold (D.told disk.old) result (λ content x. Notes (entries_from content page_size 0 16) seen.old seen.new) }
    ensures same { D.told disk.new ≡ D.told disk.old }
    ensures attached { D.attached disk.new ≡ true }
    ensures operations { D.op_faults disk.new ≡ D.op_faults disk.old }
    ensures cause { HasDiskCause (D.read_faults disk.old) (D.read_faults disk.new) result }
{
    let mut id: u8 = 0;
    while id < 16 {
        let head = head_at(heads, id);
        scan_journal(disk, id, &head, page_size, buf, seen)?;
        id += 1;
    }
    Ok(())
}

/// What the hot records of all journals say, read through one buffer of a record's size.
pub fn scan<D: Disk>(
    alloc: Global,
    disk: &mut D,
    heads: &[JournalHead; 16],
    page_size: u32,
) -> Result<Seen, Failure>
    requires attached { D.attached disk.old ≡ true }
    requires heads { IfTold (D.told disk.old) (λ content. AreHeads content page_size heads.now) }
    requires low { 512 ≤ page_size }
    requires high { page_size ≤ 65536 }
    ensures seen { FindsTold (D.told disk.old) result (λ content seen. IsScanned content page_size seen) }
    ensures same { D.told disk.new ≡ D.told disk.old }
    ensures attached { D.attached disk.new ≡ true }
    ensures operations { D.op_faults disk.new ≡ D.op_faults disk.old }
    ensures cause { HasDiskCause (D.read_faults disk.old) (D.read_faults disk.new) result }
{
    let mut buf = vec![in alloc; 0u8; page_size as usize + 8]?;
    let mut seen = nothing_seen(alloc);
    scan_all(disk, heads, page_size, &mut buf, &mut seen)?;
    Ok(seen)
}
