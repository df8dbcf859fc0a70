//! The operations that roll back hot journals, gathered.

ghost use Rattle.std.specs.Prelude.{◌≡◌, ◌++◌, ◌∷◌, [], ℕ, length, map, filter, IfOk, OnOk};
ghost use Rattle.std.specs.List.{flat_map, list_any};
ghost use Rattle.spe_model.specs.declared.file.FileNo.TheVariants.{Database};
ghost use Rattle.spe_model.specs.Content.{bytes_of};
ghost use Rattle.spe_model.specs.Journal.{hot_records};
ghost use Rattle.spe_model.specs.Recovery.{file_page_size, hot_of};
ghost use Rattle.spe_model.specs.Rollback.{cut_of, file_cut, has_length, rule_of, without};
ghost use Rattle.spe_journal.specs.Saved.{saved_in};
ghost use Rattle.spe_stored.specs.Plan.{is_due, Plans};
ghost use Rattle.spe_stored.specs.Shown.{all_shown};

use crate::files::Files;
use crate::operation::{Operation, page_write};
use spe_journal::{JournalKind, SavedPage, journal_kind, record_at};
use spe_model::FileNo;
use std::alloc::{AllocError, Global};
use std::collections::{BTreeSet, VecDeque};

/// The operations gathered so far, and what they rest on.
#[derive(Drop)]
pub struct Plan {
    pub alloc: Global,
    /// The size of a page.
    pub page_size: u32,
    /// The number of recovered pages.
    pub pages: u32,
    /// The pages that are written back.
    pub done: BTreeSet<u32>,
    pub ops: VecDeque<Operation>,
}

/// The numbers of the journals.
const IDS: &[u8; 16] = &[0, 1, 2, 3, 4, 5, 6, 7, 8, 9, 10, 11, 12, 13, 14, 15];

/// How long the head of a journal is.
const HEAD_BYTES: usize = 512;

// Whether a page is still to be written back, which it is no more afterwards.
fn take(plan: &mut Plan, page: u32) -> Result<bool, AllocError>
    ensures due { IfOk result (λ due. due ≡ is_due plan.old page) }
    ensures taken { OnOk result ((p : ℕ) → is_due plan.new p ≡ without (is_due plan.old) page p) }
    ensures same { plan.new ≡ record plan.old { done = plan.new.done } }
{
    if page > plan.pages {
        return Ok(false);
    }
    Ok(plan.done.insert(page)?)
}

// Writes a page back, where that is still to be done.
fn restore(plan: &mut Plan, saved: &SavedPage<'_>) -> Result<(), AllocError>
    ensures { OnOk result (Plans (record { page = saved.now.page; content = saved.now.content.now } ∷ []) plan.old plan.new) }
{
    if !take(plan, saved.page)? {
        return Ok(());
    }
    let write = page_write(plan.alloc, plan.page_size, saved.page, saved.content)?;
    plan.ops.push_back(Operation::Write(write))?;
    Ok(())
}

// Writes back what the records behind a head say.
fn restore_records(plan: &mut Plan, nonce: u32, bytes: &[u8]) -> Result<(), AllocError>
    ensures { OnOk result (Plans (saved_in nonce plan.old.page_size bytes.now) plan.old plan.new) }
{
    let page_size = plan.page_size;
    let size = page_size as usize + 8;
    let mut left = bytes;
    while left.len() >= size {
        let (piece, rest) = left.split_at(size);
        let Some(saved) = record_at(nonce, page_size, piece) else {
            return Ok(());
        };
        restore(plan, &saved)?;
        left = rest;
    }
    Ok(())
}

// Writes back what a journal says.
fn restore_journal(plan: &mut Plan, journal: &[u8]) -> Result<(), AllocError>
    ensures { OnOk result (Plans (hot_records plan.old.page_size journal.now) plan.old plan.new) }
{
    match journal_kind(journal, plan.page_size) {
        JournalKind::Hot { nonce } => {
            let (_, records) = journal.split_at(HEAD_BYTES);
            restore_records(plan, nonce, records)
        }
        JournalKind::Cold => Ok(()),
        JournalKind::OtherSize(_) => Ok(()),
    }
}

// Writes back what some journals say.
fn restore_all(plan: &mut Plan, files: &Files, ids: &[u8]) -> Result<(), AllocError>
    requires { plan.old.page_size ≡ file_page_size files.now }
    ensures { OnOk result (Plans (flat_map (hot_of files.now) ids.now) plan.old plan.new) }
{
    let mut left = ids;
    while let [id, rest @ ..] = left {
        restore_journal(plan, files.bytes(FileNo::Journal(*id)))?;
        left = rest;
    }
    Ok(())
}

// Whether one of some journals has bytes.
fn any_length(files: &Files, ids: &[u8]) -> bool
    ensures { result ≡ list_any (has_length files.now) ids.now }
{
    let mut left = ids;
    while let [id, rest @ ..] = left {
        if files.has_bytes(*id) {
            return true;
        }
        left = rest;
    }
    false
}

// Cuts the database file to its pages, where it is longer.
fn cut_file(ops: &mut VecDeque<Operation>, size: u64, end: u64) -> Result<(), AllocError>
    ensures { OnOk result (all_shown ops.new.items ≡ all_shown ops.old.items ++ file_cut size end) }
{
    if end < size {
        ops.push_back(Operation::Cut(FileNo::Database, end))?;
    }
    Ok(())
}

// Cuts those of some journals that have bytes.
fn cut_journals(ops: &mut VecDeque<Operation>, files: &Files, ids: &[u8]) -> Result<(), AllocError>
    ensures { OnOk result (all_shown ops.new.items ≡ all_shown ops.old.items ++ map cut_of (filter (has_length files.now) ids.now)) }
{
    let mut left = ids;
    while let [id, rest @ ..] = left {
        if files.has_bytes(*id) {
            ops.push_back(Operation::Cut(FileNo::Journal(*id), 0))?;
        }
        left = rest;
    }
    Ok(())
}

/// The operations that roll back the hot journals of some files with so many recovered pages.
#[tactic(auto, unfolding(spe_model::specs::Rollback::rule_of, spe_model::specs::Rollback::any_length, spe_model::specs::Rollback::cuts_from))]
pub fn rule_of(
    alloc: Global,
    files: &Files,
    page_size: u32,
    pages: u32,
) -> Result<VecDeque<Operation>, AllocError>
    requires { page_size ≡ file_page_size files.now }
    ensures { IfOk result (λ ops. all_shown ops.items ≡ rule_of files.now pages) }
{
    let mut plan = Plan {
        alloc,
        page_size,
        pages,
        done: BTreeSet::new(alloc),
        ops: VecDeque::new(alloc),
    };
    if !any_length(files, IDS) {
        return Ok(plan.ops);
    }
    restore_all(&mut plan, files, IDS)?;
    let Plan { mut ops, .. } = plan;
    let size = files.bytes(FileNo::Database).len() as u64;
    cut_file(&mut ops, size, u64::from(pages) * u64::from(page_size))?;
    cut_journals(&mut ops, files, IDS)?;
    Ok(ops)
}
