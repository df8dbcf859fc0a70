//! The head of a journal: its first 512 bytes.

ghost use Rattle.std.specs.Prelude.{◌≡◌, ◌≤◌, ◌<◌, ◌++◌, ℕ, List, [], length, take, drop, true, IsTrue};
ghost use Rattle.spe_model.specs.Journal.{head_bytes, has_head, head_page_size, hot_records};
ghost use Rattle.spe_journal.specs.Kind.{kind_of, saved_under};
ghost use Rattle.spe_journal.specs.Saved.{saved_in};

use crate::bytes::put_u32;
use spe_model::u32_of;

/// The first bytes of a journal.
const MAGIC: &[u8; 8] = &[0xd9, 0xd5, 0x05, 0xf9, 0x20, 0xa1, 0x63, 0xd7];

/// How long a head is, in bytes. This project's own: the sector size is always 512.
pub const HEAD_BYTES: usize = 512;

// Where the numbers of a head stand, each of four bytes.
const RECORDS_AT: usize = 8;

const NONCE_AT: usize = 12;

const PAGES_AT: usize = 16;

const SECTOR_SIZE_AT: usize = 20;

const PAGE_SIZE_AT: usize = 24;

/// What the head of a journal says.
#[derive(Clone, Copy, Debug, PartialEq, Eq)]
pub enum JournalKind {
    /// There is no head: fewer than 512 bytes, or not the magic in front.
    Cold,
    /// The head names this page size, and not the one that was asked for.
    OtherSize(u32),
    /// The journal can be rolled back, and its checksums begin from this nonce.
    Hot { nonce: u32 },
}

/// Writes the head of a journal ("The Rollback Journal" in SQLite's Database File Format).
///
/// `pages` is the size of the database in pages before the transaction, and `page_size` is in bytes.
/// The number of records is all ones: the records go on up to the end of the file.
pub fn put_head(nonce: u32, pages: u32, page_size: u32, out: &mut [u8; 512])
    ensures bytes { out.new ≡ head_bytes nonce pages page_size }
    ensures head { has_head out.new ≡ true }
    ensures size { head_page_size out.new ≡ page_size }

    // With any bytes behind it, it is the head of a journal that can be rolled back.
    ensures kind { (behind : List ℕ) → kind_of page_size (out.new ++ behind) ≡ JournalKind.Hot nonce }
    ensures saves { (behind : List ℕ) → hot_records page_size (out.new ++ behind) ≡ saved_in nonce page_size behind }

    // Cut off it is none.
    ensures torn { (n : ℕ) → n < 512 → hot_records page_size (take n out.new) ≡ [] }
{
    *out = [0; HEAD_BYTES];
    out[..8].copy_from_slice(MAGIC);
    put_u32(out, RECORDS_AT, u32::MAX);
    put_u32(out, NONCE_AT, nonce);
    put_u32(out, PAGES_AT, pages);
    put_u32(out, SECTOR_SIZE_AT, 512);
    put_u32(out, PAGE_SIZE_AT, page_size);
}

#[tactic(auto, unfolding(spe_model::specs::Journal::has_head))]
fn has_head(journal: &[u8]) -> bool
    ensures head { result ≡ has_head journal.now }
    ensures long { IsTrue result → 512 ≤ length journal.now }
{
    journal.len() >= HEAD_BYTES && journal.starts_with(MAGIC)
}

#[tactic(auto, unfolding(crate::specs::Kind::kind_of, spe_model::specs::Journal::head_page_size))]
fn kind_of(journal: &[u8], page_size: u32) -> JournalKind
    ensures { result ≡ kind_of page_size journal.now }
{
    if !has_head(journal) {
        return JournalKind::Cold;
    }
    let named = u32_of(journal, PAGE_SIZE_AT);
    if named == page_size {
        JournalKind::Hot {
            nonce: u32_of(journal, NONCE_AT),
        }
    } else {
        JournalKind::OtherSize(named)
    }
}

/// Reads the head of a journal.
///
/// `journal` is the whole journal or its first 512 bytes, and what lies behind those changes nothing.
/// `page_size` is that of the database, in bytes. Neither the number of records nor the sector size
/// is looked at, which is this project's own rule.
pub fn journal_kind(journal: &[u8], page_size: u32) -> JournalKind
    ensures kind { result ≡ kind_of page_size journal.now }
    ensures long { (nonce : ℕ) → result ≡ JournalKind.Hot nonce → 512 ≤ length journal.now }
    ensures saves { hot_records page_size journal.now ≡ saved_under result page_size (drop 512 journal.now) }

    // The first 512 bytes tell the same of the whole journal.
    ensures front { 512 ≤ length journal.now →
        (behind : List ℕ) → kind_of page_size (journal.now ++ behind) ≡ result }
    ensures front_saves { 512 ≤ length journal.now →
        (behind : List ℕ) → hot_records page_size (journal.now ++ behind)
        ≡ saved_under result page_size (drop 512 journal.now ++ behind) }
{
    kind_of(journal, page_size)
}
