//! One step of a core.

ghost use Rattle.std.specs.Prelude.{◌≡◌, true, List, IfOk, OnOk, OnErr};
ghost use Rattle.spe_core.specs.declared.event.Event.{Event};
ghost use Rattle.spe_core.specs.Becomes.{Becomes};
ghost use Rattle.spe_core.specs.Changed.{changed};
ghost use Rattle.spe_core.specs.Changing.{AreOf, answer_of, count_next};
ghost use Rattle.spe_core.specs.Enabled.{count_of, enabled};
ghost use Rattle.spe_core.specs.Parts.{IsReady, state_of};
ghost use Rattle.spe_core.specs.Serial.{IsSerial, after_events, next};

use crate::enabled::is_enabled;
use crate::event::{Answer, Event};
use crate::finish::{commit_cut, roll_cut};
use crate::machine::Core;
use crate::parts::Parts;
use crate::stop::{recover_op, stop};
use crate::work::{
    begin, grant_read, grant_write, journal, open_journal, read, release, undo_bytes, write_bytes,
};
use std::alloc::AllocError;

// Makes an event that is enabled.
fn make(parts: &mut Parts, event: &Event) -> Result<(), AllocError>
    requires ready { IsReady parts.old }
    requires enabled { enabled (state_of parts.old) event.now ≡ true }
    requires counted { count_next (state_of parts.old) event.now ≡ count_of (changed (state_of parts.old) event.now) }
    ensures ok { OnOk result (AreOf parts.new (changed (state_of parts.old) event.now)) }
    ensures err { OnErr result (Becomes parts.old parts.new (state_of parts.old)) }
{
    match event {
        Event::Begin { id } => begin(parts, *id),
        Event::GrantRead { id, lock } => grant_read(parts, *id, *lock),
        Event::GrantWrite { id, lock } => grant_write(parts, *id, *lock),
        Event::Read { id, page } => read(parts, *id, *page),
        Event::OpenJournal { id } => open_journal(parts, *id),
        Event::Journal { id, page } => journal(parts, *id, *page),
        Event::WriteBytes { id, page, bytes } => write_bytes(parts, *id, *page, bytes.as_slice()),
        Event::CommitCut { id } => commit_cut(parts, *id),
        Event::UndoBytes { id } => undo_bytes(parts, *id),
        Event::RollCut { id } => roll_cut(parts, *id),
        Event::Release { id, lock } => {
            release(parts, *id, *lock);
            Ok(())
        }
        Event::Stop { next, bytes } => stop(parts, next, *bytes),
        Event::RecoverOp => recover_op(parts),
        _ => Ok(()),
    }
}

/// Makes an event where it is enabled, and changes nothing where it is not.
///
/// The only error is want of memory, which is also answered where the number of operations made, or
/// of commits, is at the greatest number of its type.
pub fn step(core: &mut Core, event: &Event) -> Result<Answer, AllocError>
    ensures answer { IfOk result (λ answer. answer ≡ answer_of core.old event.now) }
    ensures next { OnOk result (core.new ≡ next core.old event.now) }
    ensures err { OnErr result (core.new ≡ core.old) }

    // Whatever events come, now and later, the run is serial.
    ensures serial { (events : List Event) → IsSerial (after_events core.old events) }
{
    let parts = &mut core.parts;
    if !is_enabled(parts, event) {
        return Ok(Answer::Refused);
    }
    make(parts, event)?;
    Ok(Answer::Done)
}
