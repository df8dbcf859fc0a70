//! What a transaction does that works.

ghost use Rattle.std.specs.Prelude.{◌≡◌, ◌+◌, true, length, IfOk, OnOk, OnErr};
ghost use Rattle.spe_model.specs.Recovery.{file_page};
ghost use Rattle.spe_core.specs.declared.event.Event.TheOpen.{Event-F};
ghost use Rattle.spe_core.specs.Becomes.{Becomes};
ghost use Rattle.spe_core.specs.Changed.{changed_at};
ghost use Rattle.spe_core.specs.Enabled.{is_step_enabled};
ghost use Rattle.spe_core.specs.Parts.{IsReady, state_of};

use crate::live::Live;
use crate::parts::{Parts, one_more};
use crate::writes::{head_write, record_write};
use spe_model::{Bytes, FileNo};
use spe_stored::page_size;
use std::alloc::AllocError;

// A copy of a page of the file.
fn page_of(parts: &Parts, page: u32) -> Result<Bytes, AllocError>
    requires { IsReady parts.now }
    ensures { IfOk result (λ bytes. bytes ≡ file_page parts.now.files page) }
{
    let page = parts.files.page(page_size(&parts.files), page);
    Ok(Bytes::new(Vec::from_slice(parts.alloc, page)?))
}

/// A transaction begins.
pub fn begin(parts: &mut Parts, id: u8) -> Result<(), AllocError>
    ensures ok { OnOk result (Becomes parts.old parts.new (changed_at (state_of parts.old) (Event-F.Begin id))) }
    ensures err { OnErr result (Becomes parts.old parts.new (state_of parts.old)) }
{
    parts.live.put(id, Live::new(parts.alloc))
}

/// A transaction becomes a reader of a lock.
pub fn grant_read(parts: &mut Parts, id: u8, lock: u32) -> Result<(), AllocError>
    ensures ok { OnOk result (Becomes parts.old parts.new (changed_at (state_of parts.old) (Event-F.GrantRead id lock))) }
    ensures err { OnErr result (Becomes parts.old parts.new (state_of parts.old)) }
{
    parts.live.read_under(id, lock)
}

/// A transaction becomes the writer of a lock.
pub fn grant_write(parts: &mut Parts, id: u8, lock: u32) -> Result<(), AllocError>
    ensures ok { OnOk result (Becomes parts.old parts.new (changed_at (state_of parts.old) (Event-F.GrantWrite id lock))) }
    ensures err { OnErr result (Becomes parts.old parts.new (state_of parts.old)) }
{
    parts.live.write_under(id, lock)
}

/// A transaction that has ended holds a lock no more.
pub fn release(parts: &mut Parts, id: u8, lock: u32)
    ensures { Becomes parts.old parts.new (changed_at (state_of parts.old) (Event-F.Release id lock)) }
{
    parts.live.release(id, lock);
}

/// A page of the file is read.
pub fn read(parts: &mut Parts, id: u8, page: u32) -> Result<(), AllocError>
    requires { IsReady parts.old }
    ensures ok { OnOk result (Becomes parts.old parts.new (changed_at (state_of parts.old) (Event-F.Read id page))) }
    ensures err { OnErr result (Becomes parts.old parts.new (state_of parts.old)) }
{
    if parts.live.has_read(id, page) {
        return Ok(());
    }
    let bytes = page_of(parts, page)?;
    parts.live.note_seen(id, page, bytes)
}

/// The head of a journal is written.
pub fn open_journal(parts: &mut Parts, id: u8) -> Result<(), AllocError>
    requires { IsReady parts.old }
    ensures ok { OnOk result (Becomes parts.old parts.new (changed_at (state_of parts.old) (Event-F.OpenJournal id))) }
    ensures err { OnErr result (Becomes parts.old parts.new (state_of parts.old)) }
{
    let made = one_more(parts.made)?;
    let write = head_write(parts, id)?;
    parts.files.write(&write)?;
    parts.made = made;
    Ok(())
}

/// A page is journalled.
pub fn journal(parts: &mut Parts, id: u8, page: u32) -> Result<(), AllocError>
    requires { IsReady parts.old }
    ensures ok { OnOk result (Becomes parts.old parts.new (changed_at (state_of parts.old) (Event-F.Journal id page))) }
    ensures err { OnErr result (Becomes parts.old parts.new (state_of parts.old)) }
{
    let made = one_more(parts.made)?;
    let bytes = page_of(parts, page)?;
    let write = record_write(parts, id, page)?;
    let kept = parts.files.keep(parts.alloc, &write)?;
    parts.files.write(&write)?;
    if parts.live.note_journalled(id, page, bytes).is_err() {
        parts.files.take_back(write.file, &kept);
        return Err(AllocError);
    }
    parts.made = made;
    Ok(())
}

/// The bytes of a page are written.
pub fn write_bytes(parts: &mut Parts, id: u8, page: u32, bytes: &[u8]) -> Result<(), AllocError>
    requires { IsReady parts.old }
    ensures ok { OnOk result (Becomes parts.old parts.new (changed_at (state_of parts.old) (Event-F.WriteBytes id page bytes.now))) }
    ensures err { OnErr result (Becomes parts.old parts.new (state_of parts.old)) }
{
    let made = one_more(parts.made)?;
    let copy = Bytes::new(Vec::from_slice(parts.alloc, bytes)?);
    let size = page_size(&parts.files);
    let kept = parts.files.keep_page(parts.alloc, size, page, bytes)?;
    parts.files.write_page(size, page, bytes)?;
    if parts.live.note_written(id, page, copy).is_err() {
        parts.files.take_back(FileNo::Database, &kept);
        return Err(AllocError);
    }
    parts.made = made;
    Ok(())
}

/// A page gets its old bytes.
pub fn undo_bytes(parts: &mut Parts, id: u8) -> Result<(), AllocError>
    requires ready { IsReady parts.old }
    requires enabled { is_step_enabled (state_of parts.old) (Event-F.UndoBytes id) ≡ true }
    ensures ok { OnOk result (Becomes parts.old parts.new (changed_at (state_of parts.old) (Event-F.UndoBytes id))) }
    ensures err { OnErr result (Becomes parts.old parts.new (state_of parts.old)) }
{
    let size = page_size(&parts.files);
    let Some((page, bytes)) = parts.live.first_changed(id) else {
        return Ok(());
    };
    let made = one_more(parts.made)?;
    parts.files.write_page(size, page, bytes)?;
    parts.live.undo(id, page);
    parts.made = made;
    Ok(())
}
