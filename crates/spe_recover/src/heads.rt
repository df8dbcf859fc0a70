//! The heads of the journals.

ghost use Rattle.std.specs.Prelude.{◌≡◌, ◌<◌, ◌≤◌, ◌-◌, ℕ, List, Some, min, true, drop, length, slice_get, slice_set};
ghost use Rattle.spe_model.specs.Content.{Content, filled};
ghost use Rattle.spe_model.specs.Journal.{hot_records};
ghost use Rattle.spe_model.specs.Recovery.{journal_of};
ghost use Rattle.spe_journal.specs.Kind.{kind_of, saved_under};
ghost use Rattle.spe_recover.specs.Heads.{IsHead, AreHeads, IsOther};
ghost use Rattle.spe_recover.specs.Told.{FindsTold, HasDiskCause};

use crate::failure::Failure;
use spe_disk::{Disk, FileNo};
use spe_journal::{HEAD_BYTES, JournalKind, journal_kind};

/// What a journal says in front, and how many bytes it has.
#[derive(Clone, Copy, Debug)]
pub struct JournalHead {
    /// What its head says to the database.
    pub kind: JournalKind,
    /// How many bytes the journal has.
    pub length: u64,
}

/// A journal whose head names another page size than the database.
#[derive(Clone, Copy, Debug)]
pub struct OtherSize {
    /// The number of the journal.
    pub id: u8,
    /// The page size that it names, in bytes.
    pub size: u32,
}

// What a journal says of which these are the first bytes, as many as are there.
fn kind_in(head: &[u8], n: usize, page_size: u32) -> JournalKind
    requires { n ≤ length head.now }
    ensures kind { (journal : List ℕ) → head.now ≡ filled journal 0 512 → n ≡ min 512 (length journal - 0) →
        kind_of page_size journal ≡ result }
    ensures saves { (journal : List ℕ) → head.now ≡ filled journal 0 512 → n ≡ min 512 (length journal - 0) →
        hot_records page_size journal ≡ saved_under result page_size (drop 512 journal) }
{
    journal_kind(&head[..n], page_size)
}

// What a journal says to a database of this page size.
fn read_kind<D: Disk>(disk: &mut D, id: u8, page_size: u32) -> Result<JournalKind, Failure>
    requires attached { D.attached disk.old ≡ true }
    requires numbered { id < 16 }
    ensures kind { FindsTold (D.told disk.old) result (λ content kind. kind_of page_size (journal_of content id) ≡ kind) }
    ensures saves { FindsTold (D.told disk.old) result (λ content kind. hot_records page_size (journal_of content id) ≡ saved_under kind page_size (drop 512 (journal_of content id))) }
    ensures same { D.told disk.new ≡ D.told disk.old }
    ensures attached { D.attached disk.new ≡ true }
    ensures operations { D.op_faults disk.new ≡ D.op_faults disk.old }
    ensures cause { HasDiskCause (D.read_faults disk.old) (D.read_faults disk.new) result }
{
    let mut head = [0u8; HEAD_BYTES];
    let n = disk.read_at(FileNo::Journal(id), 0, &mut head)?;
    Ok(kind_in(&head, n, page_size))
}

// How many bytes a journal has.
fn journal_length<D: Disk>(disk: &mut D, id: u8) -> Result<u64, Failure>
    requires attached { D.attached disk.old ≡ true }
    requires numbered { id < 16 }
    ensures length { FindsTold (D.told disk.old) result (λ content n. n ≡ length (journal_of content id)) }
    ensures same { D.told disk.new ≡ D.told disk.old }
    ensures attached { D.attached disk.new ≡ true }
    ensures operations { D.op_faults disk.new ≡ D.op_faults disk.old }
    ensures cause { HasDiskCause (D.read_faults disk.old) (D.read_faults disk.new) result }
{
    Ok(disk.length(FileNo::Journal(id))?.unwrap_or(0))
}

// What a journal says in front, and how many bytes it has.
fn read_head<D: Disk>(disk: &mut D, id: u8, page_size: u32) -> Result<JournalHead, Failure>
    requires attached { D.attached disk.old ≡ true }
    requires numbered { id < 16 }
    ensures head { FindsTold (D.told disk.old) result (λ content head. IsHead content page_size id head) }
    ensures same { D.told disk.new ≡ D.told disk.old }
    ensures attached { D.attached disk.new ≡ true }
    ensures operations { D.op_faults disk.new ≡ D.op_faults disk.old }
    ensures cause { HasDiskCause (D.read_faults disk.old) (D.read_faults disk.new) result }
{
    let length = journal_length(disk, id)?;
    let kind = read_kind(disk, id, page_size)?;
    Ok(JournalHead { kind, length })
}

// Keeps the head of one journal.
fn keep_head(heads: &mut [JournalHead; 16], id: u8, head: JournalHead)
    requires { id < 16 }
    ensures { heads.new ≡ slice_set heads.old id head }
{
    heads[usize::from(id)] = head;
}

/// What each journal says in front to a database of this page size, and how many bytes it has.
pub fn read_heads<D: Disk>(disk: &mut D, page_size: u32) -> Result<[JournalHead; 16], Failure>
    requires attached { D.attached disk.old ≡ true }
    ensures heads { FindsTold (D.told disk.old) result (λ content heads. AreHeads content page_size heads) }
    ensures same { D.told disk.new ≡ D.told disk.old }
    ensures attached { D.attached disk.new ≡ true }
    ensures operations { D.op_faults disk.new ≡ D.op_faults disk.old }
    ensures cause { HasDiskCause (D.read_faults disk.old) (D.read_faults disk.new) result }
{
    let mut heads = [JournalHead {
        kind: JournalKind::Cold,
        length: 0,
    }; 16];
    let mut id: u8 = 0;
    while id < 16 {
        let head = read_head(disk, id, page_size)?;
        keep_head(&mut heads, id, head);
        id += 1;
    }
    Ok(heads)
}

/// The head of one journal.
pub fn head_at(heads: &[JournalHead; 16], id: u8) -> JournalHead
    requires { id < 16 }
    ensures { slice_get heads.now id ≡ Some result }
{
    heads[usize::from(id)]
}

/// The lowest journal whose head names another page size.
pub fn find_other(heads: &[JournalHead; 16]) -> Option<OtherSize>
    ensures other { (content : Content) (page_size : ℕ) → AreHeads content page_size heads.now → IsOther content page_size result }
{
    let mut id: u8 = 0;
    while id < 16 {
        if let JournalKind::OtherSize(size) = head_at(heads, id).kind {
            return Some(OtherSize { id, size });
        }
        id += 1;
    }
    None
}
