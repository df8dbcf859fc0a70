//! The records of a journal: a page's number, its content before the transaction, and a checksum.

ghost use Rattle.std.specs.Prelude.{◌≡◌, ◌≢◌, ◌+◌, ◌≤◌, ◌<◌, ℕ, List, [], length, take, is_some, IfNone, IfSome, true};
ghost use Rattle.spe_model.specs.Journal.{Saved, checksum_of, record_bytes, saved_of, is_right};
ghost use Rattle.spe_journal.specs.Saved.{SavesFirst, SavesNone, saved_in};

use crate::bytes::put_u32;
use spe_model::u32_of;

/// How far apart the bytes are that a checksum counts.
const STRIDE: usize = 200;

/// A page and its content before the transaction, as a record of a journal has them.
#[derive(Clone, Copy, Debug)]
pub struct SavedPage<'a> {
    /// The number of the page, from 1 on.
    pub page: u32,
    /// The page's bytes, one page size of them.
    pub content: &'a [u8],
}

/// The checksum of a record: the nonce and every two hundredth byte of the page, counted from its
/// end, modulo 2^32 ("The Rollback Journal" in SQLite's Database File Format).
///
/// The page may have any length. Its first byte is never counted.
pub fn checksum(nonce: u32, page: &[u8]) -> u32
    ensures { result ≡ checksum_of nonce page.now }
{
    let mut sum = nonce;
    let mut at = page.len();
    while at > STRIDE {
        at -= STRIDE;
        let byte = u32::from(page[at]);
        sum = sum.wrapping_add(byte);
    }
    sum
}

/// Writes a record: the page's number, its content and the checksum, which take 8 bytes more than
/// the content.
pub fn put_record(nonce: u32, page: u32, content: &[u8], out: &mut [u8])
    requires { length out.old ≡ length content.now + 8 }
    ensures bytes { out.new ≡ record_bytes nonce page content.now }

    // Where it names a page it reads back, alone and before other records.
    ensures right { page ≢ 0 → is_right nonce (length content.now) out.new ≡ true }
    ensures saved { saved_of (length content.now) out.new ≡ record { page = page; content = content.now } }
    ensures first { page ≢ 0 →
        SavesFirst nonce (length content.now) out.new (record { page = page; content = content.now }) }

    // Cut off it saves nothing.
    ensures torn { (n : ℕ) → n < length out.new → saved_in nonce (length content.now) (take n out.new) ≡ [] }
{
    put_u32(out, 0, page);
    let end = content.len() + 4;
    out[4..end].copy_from_slice(content);
    put_u32(out, end, checksum(nonce, content));
}

/// Reads one whole record of a journal with this nonce, whose pages have `page_size` bytes.
///
/// `None` is for a piece that names no page or has a wrong checksum: the records of a journal end
/// before the first such piece.
pub fn record_at(nonce: u32, page_size: u32, piece: &[u8]) -> Option<SavedPage<'_>>
    requires { length piece.now ≡ page_size + 8 }
    ensures right { is_some result ≡ is_right nonce page_size piece.now }
    ensures saved { IfSome result (λ r.
        record { page = r.page; content = r.content.now } ≡ saved_of page_size piece.now) }
    ensures whole { IfSome result (λ r. (r.page ≢ 0) × (length r.content.now ≡ page_size)) }

    // What a journal saves, by its pieces: this one, and those behind it.
    ensures first { IfSome result (λ r.
        SavesFirst nonce page_size piece.now (record { page = r.page; content = r.content.now })) }
    ensures last { IfNone result (SavesNone nonce page_size piece.now) }
    ensures short { (rest : List ℕ) → length rest < page_size + 8 → saved_in nonce page_size rest ≡ [] }
{
    let size = page_size as usize;
    let page = u32_of(piece, 0);
    let (_, behind) = piece.split_at(4);
    let (content, _) = behind.split_at(size);
    if page == 0 || u32_of(piece, size + 4) != checksum(nonce, content) {
        return None;
    }
    Some(SavedPage { page, content })
}
