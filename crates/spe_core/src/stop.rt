//! A stop of the process, and the operations of a recovery.

ghost use Rattle.std.specs.Prelude.{◌≡◌, ◌≤◌, length, IfOk, OnOk, OnErr};
ghost use Rattle.std.specs.Option.{option_copied};
ghost use Rattle.spe_model.specs.declared.file.FileNo.TheVariants.{Database};
ghost use Rattle.spe_model.specs.Content.{bytes_of};
ghost use Rattle.spe_model.specs.Rollback.{rule_of};
ghost use Rattle.spe_model.specs.Trace.{made_by};
ghost use Rattle.spe_core.specs.declared.event.Event.TheOpen.{Event-F};
ghost use Rattle.spe_core.specs.Becomes.{Becomes};
ghost use Rattle.spe_core.specs.Changed.{changed_at, recovery_left, recovery_op};
ghost use Rattle.spe_core.specs.Enabled.{count_of};
ghost use Rattle.spe_core.specs.Parts.{IsReady, mode_of, state_of};
ghost use Rattle.spe_stored.specs.Shown.{all_shown, ops_shown, write_shown};

use crate::event::Event;
use crate::parts::{Mode, Parts, one_more};
use crate::writes::torn_write;
use spe_stored::{Files, Operation, Write, page_size, rule_of};
use sqlite_items::Boxed;
use std::alloc::{AllocError, Global};
use std::collections::VecDeque;

// The operations that roll the files back after a write, which is taken back where memory is wanting.
fn rule_after(
    alloc: Global,
    files: &mut Files,
    pages: u32,
    write: &Write,
) -> Result<VecDeque<Operation>, AllocError>
    requires { 100 ≤ length (bytes_of files.old Database) }
    ensures rule { IfOk result (λ ops. all_shown ops.items ≡ rule_of files.new pages) }
    ensures ok { OnOk result (files.new ≡ made_by (write_shown write.now) files.old) }
    ensures err { OnErr result (files.new ≡ files.old) }
{
    let kept = files.keep(alloc, write)?;
    files.write(write)?;
    match rule_of(alloc, files, page_size(files), pages) {
        Ok(ops) => Ok(ops),
        Err(AllocError) => {
            files.take_back(write.file, &kept);
            Err(AllocError)
        }
    }
}

/// The process stops, after the first bytes of the write of the event that was to come next.
pub fn stop(parts: &mut Parts, next: &Option<Boxed<Event>>, bytes: u64) -> Result<(), AllocError>
    requires ready { IsReady parts.old }
    requires counted { parts.old.pages ≡ count_of (changed_at (state_of parts.old) (Event-F.Stop next.now bytes)) }
    ensures ok { OnOk result (Becomes parts.old parts.new (changed_at (state_of parts.old) (Event-F.Stop next.now bytes))) }
    ensures err { OnErr result (Becomes parts.old parts.new (state_of parts.old)) }
{
    let left = match torn_write(parts, next, bytes)? {
        Some(write) => rule_after(parts.alloc, &mut parts.files, parts.pages, &write)?,
        None => rule_of(
            parts.alloc,
            &parts.files,
            page_size(&parts.files),
            parts.pages,
        )?,
    };
    parts.live.clear();
    parts.images.clear();
    parts.mode = Mode::Recovering(left);
    Ok(())
}

// The operation of a recovery that is next.
fn first_left(mode: &Mode) -> Option<&Operation>
    ensures { ops_shown (option_copied result) ≡ recovery_op (mode_of mode.now) }
{
    match mode {
        Mode::Serving => None,
        Mode::Recovering(left) => left.front(),
    }
}

// Goes on behind the next operation; behind the last one the files are served again.
fn go_on(mode: &mut Mode)
    ensures { mode_of mode.new ≡ recovery_left (mode_of mode.old) }
{
    if let Mode::Recovering(left) = mode {
        if left.pop_front().is_none() {
            *mode = Mode::Serving;
        }
    }
}

/// The next operation of a recovery is made.
pub fn recover_op(parts: &mut Parts) -> Result<(), AllocError>
    ensures ok { OnOk result (Becomes parts.old parts.new (changed_at (state_of parts.old) Event-F.RecoverOp)) }
    ensures err { OnErr result (Becomes parts.old parts.new (state_of parts.old)) }
{
    if let Some(op) = first_left(&parts.mode) {
        let made = one_more(parts.made)?;
        parts.files.make(op)?;
        parts.made = made;
    }
    go_on(&mut parts.mode);
    Ok(())
}
