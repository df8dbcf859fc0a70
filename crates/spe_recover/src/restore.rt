//! Writing saved pages back.

ghost use Rattle.std.specs.Prelude.{◌≡◌, ◌≢◌, ◌≤◌, ◌*◌, ◌^◌, ◌<◌, ◌+◌, ◌∷◌, [], ℕ, true, length, IfOk, OnOk, OnErr, drop, take};
ghost use Rattle.std.specs.List.{flat_map};
ghost use Rattle.spe_model.specs.Faults.{HasCause};
ghost use Rattle.spe_model.specs.Journal.{Saved, hot_records, numbers_from};
ghost use Rattle.spe_model.specs.Recovery.{journal_of};
ghost use Rattle.spe_disk.specs.Told.{Adds};
ghost use Rattle.spe_journal.specs.Saved.{saved_in};
ghost use Rattle.spe_model.specs.Rollback.{restores, write_of, without};
ghost use Rattle.spe_recover.specs.Cuts.{BreaksFirst};
ghost use Rattle.spe_recover.specs.Restored.{is_due, Restored, RestoresPiece, Stays, HasEither};
ghost use Rattle.spe_recover.specs.Heads.{IsHead, AreHeads};
ghost use Rattle.spe_disk.specs.Added.{IfTold, MakesCut};

use crate::heads::{JournalHead, head_at};
use crate::piece::read_piece;
use spe_disk::{Disk, Failed, FileNo};
use spe_journal::{HEAD_BYTES, JournalKind, SavedPage, record_at};
use std::collections::BTreeMap;

// Where the bytes of page 1 begin that are written back.
const REST_AT: usize = 24;

// Writes a page back, page 1 but for its first 24 bytes.
fn write_page<D: Disk>(disk: &mut D, page_size: u32, saved: &SavedPage<'_>) -> Result<(), Failed>
    requires attached { D.attached disk.old ≡ true }
    requires named { saved.now.page ≢ 0 }
    requires low { 512 ≤ page_size }
    requires high { page_size ≤ 65536 }
    requires whole { length saved.now.content.now ≡ page_size }
    ensures written { OnOk result (Adds (D.told disk.old) (D.told disk.new) (write_of page_size (record { page = saved.now.page; content = saved.now.content.now }) ∷ [])) }
    ensures stopped { OnErr result (MakesCut (D.told disk.old) (D.told disk.new) (λ content. write_of page_size (record { page = saved.now.page; content = saved.now.content.now }) ∷ [])) }
    ensures attached { D.attached disk.new ≡ true }
    ensures readings { D.read_faults disk.new ≡ D.read_faults disk.old }
    ensures cause { HasCause (D.op_faults disk.old) (D.op_faults disk.new) result }
{
    if saved.page == 1 {
        let (_, rest) = saved.content.split_at(REST_AT);
        disk.write_at(FileNo::Database, REST_AT as u64, rest)?;
    } else {
        let place = u64::from(saved.page - 1) * u64::from(page_size);
        disk.write_at(FileNo::Database, place, saved.content)?;
    }
    Ok(())
}

// Takes a page from those that are still to be written back, and answers whether it was one of them.
fn take_due(holders: &mut BTreeMap<u32, u8>, pages: u32, page: u32) -> bool
    ensures result { result ≡ is_due holders.old pages page }
    ensures taken { (p : ℕ) → is_due holders.new pages p ≡ without (is_due holders.old pages) page p }
{
    page <= pages && holders.remove(&page).is_some()
}

// Writes a page back, where that is still to be done, and answers how many operations that took.
fn restore<D: Disk>(
    disk: &mut D,
    page_size: u32,
    pages: u32,
    saved: &SavedPage<'_>,
    holders: &mut BTreeMap<u32, u8>,
) -> Result<u64, Failed>
    requires attached { D.attached disk.old ≡ true }
    requires named { saved.now.page ≢ 0 }
    requires low { 512 ≤ page_size }
    requires high { page_size ≤ 65536 }
    requires whole { length saved.now.content.now ≡ page_size }
    ensures restored { IfOk result (Restored page_size pages (record { page = saved.now.page; content = saved.now.content.now } ∷ []) (D.told disk.old) (D.told disk.new) holders.old holders.new) }
    ensures few { IfOk result (λ made. made ≤ 1) }
    ensures stays { OnOk result (Stays (D.told disk.old) (D.told disk.new)) }
    ensures stopped { OnErr result (MakesCut (D.told disk.old) (D.told disk.new) (λ content. restores page_size (is_due holders.old pages) (record { page = saved.now.page; content = saved.now.content.now } ∷ []))) }
    ensures attached { D.attached disk.new ≡ true }
    ensures readings { D.read_faults disk.new ≡ D.read_faults disk.old }
    ensures cause { HasCause (D.op_faults disk.old) (D.op_faults disk.new) result }
{
    if !take_due(holders, pages, saved.page) {
        return Ok(0);
    }
    write_page(disk, page_size, saved)?;
    Ok(1)
}

// Writes back what a piece of a journal says, where it is a record, and answers how many operations
// that took.
fn restore_piece<D: Disk>(
    disk: &mut D,
    nonce: u32,
    page_size: u32,
    pages: u32,
    piece: &[u8],
    holders: &mut BTreeMap<u32, u8>,
) -> Result<Option<u64>, Failed>
    requires attached { D.attached disk.old ≡ true }
    requires low { 512 ≤ page_size }
    requires high { page_size ≤ 65536 }
    requires whole { length piece.now ≡ page_size + 8 }
    ensures restores { IfOk result (RestoresPiece nonce page_size pages piece.now (D.told disk.old) (D.told disk.new) holders.old holders.new) }
    ensures stopped { OnErr result (IfTold (D.told disk.old) (λ content. BreaksFirst nonce page_size pages piece.now (D.told disk.old) (D.told disk.new) holders.old)) }
    ensures attached { D.attached disk.new ≡ true }
    ensures readings { D.read_faults disk.new ≡ D.read_faults disk.old }
    ensures cause { HasCause (D.op_faults disk.old) (D.op_faults disk.new) result }
{
    match record_at(nonce, page_size, piece) {
        Some(saved) => Ok(Some(restore(disk, page_size, pages, &saved, holders)?)),
        None => Ok(None),
    }
}

// A hot journal: its id, the nonce of its records, and how many bytes it has.
#[derive(Clone, Copy)]
struct HotJournal {
    id: u8,
    nonce: u32,
    length: u64,
}

// Writes back the first records of the pages that a journal holds, and answers how many operations
// that took.
fn restore_records<D: Disk>(
    disk: &mut D,
    journal: HotJournal,
    page_size: u32,
    pages: u32,
    buf: &mut [u8],
    holders: &mut BTreeMap<u32, u8>,
) -> Result<u64, Failed>
    requires attached { D.attached disk.old ≡ true }
    requires numbered { journal.id < 16 }
    requires low { 512 ≤ page_size }
    requires high { page_size ≤ 65536 }
    requires page { length buf.old ≡ page_size + 8 }
    requires end { IfTold (D.told disk.old) (λ content. journal.length ≡ length (journal_of content journal.id)) }
    ensures restored { IfOk result (λ made. IfTold (D.told disk.old) (λ content.
        Restored page_size pages (saved_in journal.nonce page_size (drop 512 (journal_of content journal.id))) (D.told disk.old) (D.told disk.new) holders.old holders.new made)) }
    ensures few { IfOk result (λ made. made * 520 ≤ 2 ^ 64) }
    ensures stays { OnOk result (Stays (D.told disk.old) (D.told disk.new)) }
    ensures stopped { OnErr result (MakesCut (D.told disk.old) (D.told disk.new) (λ content. restores page_size (is_due holders.old pages) (saved_in journal.nonce page_size (drop 512 (journal_of content journal.id))))) }
    ensures page { length buf.new ≡ page_size + 8 }
    ensures attached { D.attached disk.new ≡ true }
    ensures cause { HasEither (D.read_faults disk.old) (D.read_faults disk.new) (D.op_faults disk.old) (D.op_faults disk.new) result }
{
    let size = u64::from(page_size) + 8;
    let mut made: u64 = 0;
    let mut at = HEAD_BYTES as u64;
    let mut left = journal.length.saturating_sub(HEAD_BYTES as u64);
    while left >= size {
        read_piece(disk, journal.id, at, buf)?;
        match restore_piece(disk, journal.nonce, page_size, pages, buf, holders)? {
            Some(more) => made += more,
            None => return Ok(made),
        }
        at += size;
        left -= size;
    }
    Ok(made)
}

// Writes back the first records of the pages that a hot journal holds, and answers how many
// operations that took.
fn restore_journal<D: Disk>(
    disk: &mut D,
    id: u8,
    head: &JournalHead,
    page_size: u32,
    pages: u32,
    buf: &mut [u8],
    holders: &mut BTreeMap<u32, u8>,
) -> Result<u64, Failed>
    requires attached { D.attached disk.old ≡ true }
    requires numbered { id < 16 }
    requires head { IfTold (D.told disk.old) (λ content. IsHead content page_size id head.now) }
    requires low { 512 ≤ page_size }
    requires high { page_size ≤ 65536 }
    requires page { length buf.old ≡ page_size + 8 }
    ensures restored { IfOk result (λ made. IfTold (D.told disk.old) (λ content.
        Restored page_size pages (hot_records page_size (journal_of content id)) (D.told disk.old) (D.told disk.new) holders.old holders.new made)) }
    ensures few { IfOk result (λ made. made * 520 ≤ 2 ^ 64) }
    ensures stays { OnOk result (Stays (D.told disk.old) (D.told disk.new)) }
    ensures stopped { OnErr result (MakesCut (D.told disk.old) (D.told disk.new) (λ content. restores page_size (is_due holders.old pages) (hot_records page_size (journal_of content id)))) }
    ensures page { length buf.new ≡ page_size + 8 }
    ensures attached { D.attached disk.new ≡ true }
    ensures cause { HasEither (D.read_faults disk.old) (D.read_faults disk.new) (D.op_faults disk.old) (D.op_faults disk.new) result }
{
    match head.kind {
        JournalKind::Hot { nonce } => {
            let length = head.length;
            let journal = HotJournal { id, nonce, length };
            restore_records(disk, journal, page_size, pages, buf, holders)
        }
        JournalKind::Cold => Ok(0),
        JournalKind::OtherSize(_) => Ok(0),
    }
}

/// Writes back the first hot record of each page that is due, through one buffer of a record's size,
/// and answers how many operations that took.
pub fn restore_all<D: Disk>(
    disk: &mut D,
    heads: &[JournalHead; 16],
    page_size: u32,
    pages: u32,
    buf: &mut [u8],
    holders: &mut BTreeMap<u32, u8>,
) -> Result<u64, Failed>
    requires attached { D.attached disk.old ≡ true }
    requires heads { IfTold (D.told disk.old) (λ content. AreHeads content page_size heads.now) }
    requires low { 512 ≤ page_size }
    requires high { page_size ≤ 65536 }
    requires page { length buf.old ≡ page_size + 8 }
    ensures restored { IfOk result (λ made. IfTold (D.told disk.old) (λ content.
        Restored page_size pages (flat_map (λ i. hot_records page_size (journal_of content i)) (numbers_from 0 16)) (D.told disk.old) (D.told disk.new) holders.old holders.new made)) }
    ensures few { IfOk result (λ made. made ≤ 2 ^ 60) }
    ensures stays { OnOk result (Stays (D.told disk.old) (D.told disk.new)) }
    ensures stopped { OnErr result (MakesCut (D.told disk.old) (D.told disk.new) (λ content. restores page_size (is_due holders.old pages) (flat_map (λ i. hot_records page_size (journal_of content i)) (numbers_from 0 16)))) }
    ensures attached { D.attached disk.new ≡ true }
    ensures cause { HasEither (D.read_faults disk.old) (D.read_faults disk.new) (D.op_faults disk.old) (D.op_faults disk.new) result }
{
    let mut made: u64 = 0;
    let mut id: u8 = 0;
    while id < 16 {
        let head = head_at(heads, id);
        made += restore_journal(disk, id, &head, page_size, pages, buf, holders)?;
        id += 1;
    }
    Ok(made)
}
