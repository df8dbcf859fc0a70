//! A whole journal.

ghost use Rattle.std.specs.Prelude.{◌≡◌, map, All, IfOk};
ghost use Rattle.spe_journal.specs.Saved.{saved_in};
ghost use Rattle.spe_journal.specs.Text.{record_of, IsWhole};

use crate::head::{HEAD_BYTES, JournalKind, journal_kind};
use crate::record::record_at;
use spe_model::Bytes;
use std::alloc::{AllocError, Global};
use std::marker::Model;

/// A page and its content before the transaction.
#[derive(Debug, Drop)]
pub struct Record {
    /// The number of the page, from 1 on.
    pub page: u32,
    /// The page's bytes, one page size of them.
    pub content: Bytes,
}

/// Records in the order in which a journal has them, seen as a list.
#[derive(Debug, Drop)]
pub struct Records {
    inner: Vec<Record>,
}

impl Model for Records {
    ghost use Rattle.std.specs.Prelude.{List};
    ghost use Rattle.spe_journal.specs.declared.text.Record.{Record};

    ghost Value = { List Record };

    ghost view = { λ t. t.inner.items };
}

impl Records {
    ghost use Rattle.std.specs.Prelude.{◌≡◌};

    /// These records.
    pub fn new(inner: Vec<Record>) -> Records
        ensures { result ≡ inner.items }
    {
        Records { inner }
    }

    /// The records as a slice.
    pub fn as_slice(&self) -> &[Record]
        ensures { result.now ≡ self.now }
    {
        self.inner.as_slice()
    }
}

/// What a journal is to a database.
#[derive(Debug, Drop)]
pub enum JournalText {
    /// There is nothing to roll back: fewer than 512 bytes, or not the magic in front.
    Cold,
    /// The journal is of a database with this page size, and not of this one.
    OtherSize(u32),
    /// The records up to the first that is cut off, names no page or has a wrong checksum.
    Hot(Records),
}

impl JournalText {
    ghost use Rattle.std.specs.Prelude.{List, map, All};
    ghost use Rattle.spe_journal.specs.declared.text.Record.{Record};
    ghost use Rattle.spe_model.specs.Journal.{Saved};
    ghost use Rattle.spe_journal.specs.Text.{record_of, text_of, IsWhole};
    ghost use Rattle.spe_journal.specs.Written.{IsWritten};

    /// Reads a journal whole, for a database with pages of `page_size` bytes.
    ///
    /// A journal that is absent has no bytes. Time and memory grow with the number of records, each of
    /// which is copied once. The only error is want of memory.
    pub fn read(alloc: Global, bytes: &[u8], page_size: u32) -> Result<JournalText, AllocError>
        ensures text { IfOk result (λ text. text ≡ text_of page_size bytes.now) }
        ensures whole { IfOk result (λ text.
            (records : List Record) → text ≡ JournalText.Hot records →
            All (IsWhole page_size) records) }

        // What was written reads back, though a stop left some bytes of one more record.
        ensures written { (saved : List Saved) → IsWritten page_size saved bytes.now →
            IfOk result (λ text. text ≡ JournalText.Hot (map record_of saved)) }
    {
        match journal_kind(bytes, page_size) {
            JournalKind::Cold => Ok(JournalText::Cold),
            JournalKind::OtherSize(named) => Ok(JournalText::OtherSize(named)),
            JournalKind::Hot { nonce } => {
                let (_, behind) = bytes.split_at(HEAD_BYTES);
                let found = records_of(alloc, nonce, page_size, behind)?;
                Ok(JournalText::Hot(Records::new(found)))
            }
        }
    }
}

// The records at the front of some bytes.
fn records_of(
    alloc: Global,
    nonce: u32,
    page_size: u32,
    bytes: &[u8],
) -> Result<Vec<Record>, AllocError>
    ensures saved { IfOk result (λ found. found.items ≡ map record_of (saved_in nonce page_size bytes.now)) }
    ensures whole { IfOk result (λ found. All (IsWhole page_size) found.items) }
{
    let size = page_size as usize + 8;
    let mut found = Vec::new(alloc);
    let mut left = bytes;
    while left.len() >= size {
        let (piece, rest) = left.split_at(size);
        let Some(saved) = record_at(nonce, page_size, piece) else {
            return Ok(found);
        };
        found.push(Record {
            page: saved.page,
            content: Bytes::new(Vec::from_slice(alloc, saved.content)?),
        })?;
        left = rest;
    }
    Ok(found)
}
