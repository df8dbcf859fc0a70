//! The writes that events make.

ghost use Rattle.std.specs.Prelude.{◌≡◌, ℕ, IfOk};
ghost use Rattle.spe_core.specs.declared.event.Event.{out-Event};
ghost use Rattle.spe_core.specs.State.{live_of};
ghost use Rattle.spe_core.specs.Changed.{head_write, record_write, page_write, undo_of_live, undo_writes, operations_of, recovery_op, torn_first, torn_of};
ghost use Rattle.spe_core.specs.Parts.{IsReady, mode_of, state_of};
ghost use Rattle.spe_stored.specs.Shown.{write_shown, writes_shown, torn_shown};

use crate::event::Event;
use crate::parts::{Mode, Parts};
use spe_journal::{put_head, put_record};
use spe_model::{Bytes, FileNo};
use spe_stored::{Operation, Write, copy_of, number_at, page_size, page_write, torn};
use sqlite_items::Boxed;
use std::alloc::AllocError;

// Where the nonce of a journal stands.
const NONCE_AT: usize = 12;

/// The write of the head of a journal. Its nonce is how many operations were made, modulo 2^32.
pub fn head_write(parts: &Parts, id: u8) -> Result<Write, AllocError>
    requires { IsReady parts.now }
    ensures { IfOk result (λ write. write_shown write ≡ head_write (state_of parts.now) id) }
{
    let mut head = [0; 512];
    let nonce = (parts.made % (1 << 32)) as u32;
    put_head(nonce, parts.pages, page_size(&parts.files), &mut head);
    Ok(Write {
        file: FileNo::Journal(id),
        at: 0,
        bytes: Bytes::new(Vec::from_slice(parts.alloc, &head)?),
    })
}

/// The write of a record of a page as the file has it, at the end of a journal.
pub fn record_write(parts: &Parts, id: u8, page: u32) -> Result<Write, AllocError>
    requires { IsReady parts.now }
    ensures { IfOk result (λ write. write_shown write ≡ record_write (state_of parts.now) id page) }
{
    let journal = parts.files.bytes(FileNo::Journal(id));
    let content = parts.files.page(page_size(&parts.files), page);
    let mut record = vec![in parts.alloc; 0u8; content.len() + 8]?;
    put_record(number_at(journal, NONCE_AT), page, content, &mut record);
    Ok(Write {
        file: FileNo::Journal(id),
        at: journal.len() as u64,
        bytes: Bytes::new(record),
    })
}

// The write of the bytes of a page.
fn bytes_write(parts: &Parts, page: u32, bytes: &[u8]) -> Result<Write, AllocError>
    requires { IsReady parts.now }
    ensures { IfOk result (λ write. write_shown write ≡ page_write (state_of parts.now) page bytes.now) }
{
    page_write(parts.alloc, page_size(&parts.files), page, bytes)
}

// The write that gives a page its old bytes.
fn undo_write(parts: &Parts, id: u8) -> Result<Option<Write>, AllocError>
    requires { IsReady parts.now }
    ensures { IfOk result (λ write. writes_shown write ≡ undo_writes (state_of parts.now) (undo_of_live (live_of (state_of parts.now) id))) }
{
    match parts.live.first_changed(id) {
        Some((page, bytes)) => Ok(Some(bytes_write(parts, page, bytes)?)),
        None => Ok(None),
    }
}

// The write of a recovery that is next.
fn recovery_write(parts: &Parts) -> Result<Option<Write>, AllocError>
    ensures { IfOk result (λ write. (n : ℕ) → torn_shown write n ≡ torn_first (recovery_op (state_of parts.now).mode) n) }
{
    match &parts.mode {
        Mode::Serving => Ok(None),
        Mode::Recovering(left) => match left.front() {
            Some(Operation::Write(write)) => Ok(Some(copy_of(parts.alloc, write)?)),
            _ => Ok(None),
        },
    }
}

// The write of an event, where it makes one.
fn write_of(parts: &Parts, event: &Event) -> Result<Option<Write>, AllocError>
    requires { IsReady parts.now }
    ensures { IfOk result (λ write. (n : ℕ) → torn_shown write n ≡ torn_first (operations_of (state_of parts.now) (out-Event event.now)) n) }
{
    match event {
        Event::OpenJournal { id } => Ok(Some(head_write(parts, *id)?)),
        Event::Journal { id, page } => Ok(Some(record_write(parts, *id, *page)?)),
        Event::WriteBytes { page, bytes, .. } => {
            Ok(Some(bytes_write(parts, *page, bytes.as_slice())?))
        }
        Event::UndoBytes { id } => undo_write(parts, *id),
        Event::RecoverOp => recovery_write(parts),
        _ => Ok(None),
    }
}

/// The first bytes of the write of the event that was to come next.
pub fn torn_write(
    parts: &Parts,
    next: &Option<Boxed<Event>>,
    bytes: u64,
) -> Result<Option<Write>, AllocError>
    requires { IsReady parts.now }
    ensures { IfOk result (λ write. writes_shown write ≡ torn_of (state_of parts.now) next.now bytes) }
{
    let Some(next) = next else {
        return Ok(None);
    };
    match write_of(parts, next.get())? {
        Some(write) => Ok(Some(torn(write, bytes))),
        None => Ok(None),
    }
}
