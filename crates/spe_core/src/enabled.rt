//! Where an event is enabled.

ghost use Rattle.std.specs.Prelude.{◌≡◌, ◌+◌, ◌-◌, ◌&&◌, ◌||◌, not, take};
ghost use Rattle.std.specs.Option.{option_copied};
ghost use Rattle.spe_model.specs.Header.{header_of};
ghost use Rattle.spe_core.specs.declared.event.Event.{out-Event};
ghost use Rattle.spe_core.specs.declared.event.Event.TheOpen.{Event-F};
ghost use Rattle.spe_stored.specs.Sheets.{has_sheet};
ghost use Rattle.spe_core.specs.Enabled.{is_serving, is_page, is_writable, is_page_for, are_written, is_next_header, may_commit, has_changed, where_live, where_working, where_going, recovers_by_write, makes_write, is_step_enabled, is_stop_enabled, enabled, is_free, lock_of, may_read, may_journal, may_write, may_read_under, may_write_under};
ghost use Rattle.spe_core.specs.Found.{FindsLive};
ghost use Rattle.spe_core.specs.Parts.{IsReady, state_of};

use crate::counts::wanted_count;
use crate::event::Event;
use crate::live::Live;
use crate::parts::{Mode, Parts};
use spe_model::{FileNo, Header};
use spe_stored::{Operation, front_of, page_size};
use sqlite_items::Boxed;

/// Whether the files are served.
pub fn is_serving(parts: &Parts) -> bool
    ensures { result ≡ is_serving (state_of parts.now) }
{
    matches!(parts.mode, Mode::Serving)
}

// The transaction of this number, where it works, while the files are served.
fn working(parts: &Parts, id: u8) -> Option<&Live>
    ensures { FindsLive (where_working (state_of parts.now) id) (option_copied result) }
{
    if !is_serving(parts) {
        return None;
    }
    match parts.live.get(id) {
        Some(t) => if t.is_working() { Some(t) } else { None },
        None => None,
    }
}

// The transaction of this number, where it has not ended, while the files are served.
fn going(parts: &Parts, id: u8) -> Option<&Live>
    ensures { FindsLive (where_going (state_of parts.now) id) (option_copied result) }
{
    if !is_serving(parts) {
        return None;
    }
    match parts.live.get(id) {
        Some(t) => if t.is_ended() { None } else { Some(t) },
        None => None,
    }
}

fn is_page(parts: &Parts, page: u32) -> bool
    requires { IsReady parts.now }
    ensures { result ≡ is_page (state_of parts.now) page }
{
    1 <= page && page <= parts.pages
}

// Whether a transaction of this number is not live, or has ended and holds no lock.
fn is_free(parts: &Parts, id: u8) -> bool
    ensures { result ≡ is_free (state_of parts.now) id }
{
    match parts.live.get(id) {
        Some(t) => t.is_ended() && t.holds_none(),
        None => true,
    }
}

fn may_begin(parts: &Parts, id: u8) -> bool
    ensures { result ≡ is_step_enabled (state_of parts.now) (Event-F.Begin id) }
{
    is_serving(parts) && id < 16 && is_free(parts, id)
}

fn may_grant_read(parts: &Parts, id: u8, lock: u32) -> bool
    ensures { result ≡ is_step_enabled (state_of parts.now) (Event-F.GrantRead id lock) }
{
    match working(parts, id) {
        Some(_) => lock < parts.slots && !parts.live.another_writes(id, lock),
        None => false,
    }
}

fn may_grant_write(parts: &Parts, id: u8, lock: u32) -> bool
    ensures { result ≡ is_step_enabled (state_of parts.now) (Event-F.GrantWrite id lock) }
{
    match working(parts, id) {
        Some(_) => lock < parts.slots && !parts.live.another_holds(id, lock),
        None => false,
    }
}

fn may_release(parts: &Parts, id: u8, lock: u32) -> bool
    ensures { result ≡ is_step_enabled (state_of parts.now) (Event-F.Release id lock) }
{
    if !is_serving(parts) {
        return false;
    }
    match parts.live.get(id) {
        Some(t) => t.is_ended() && t.holds(lock),
        None => false,
    }
}

// The lock of a page.
fn lock_of(parts: &Parts, page: u32) -> u32
    requires { IsReady parts.now }
    ensures { result ≡ lock_of (state_of parts.now) page }
{
    page % parts.slots
}

fn may_read_page(parts: &Parts, page: u32, t: &Live) -> bool
    requires { IsReady parts.now }
    ensures { result ≡ may_read (state_of parts.now) page t.now }
{
    t.holds(lock_of(parts, page)) && (is_page(parts, page) || t.has_written(page))
}

fn may_read(parts: &Parts, id: u8, page: u32) -> bool
    requires { IsReady parts.now }
    ensures { result ≡ is_step_enabled (state_of parts.now) (Event-F.Read id page) }
{
    match working(parts, id) {
        Some(t) => may_read_page(parts, page, t),
        None => false,
    }
}

fn may_open(parts: &Parts, id: u8) -> bool
    ensures { result ≡ is_step_enabled (state_of parts.now) (Event-F.OpenJournal id) }
{
    match working(parts, id) {
        Some(_) => !parts.files.has_bytes(id),
        None => false,
    }
}

fn may_journal_page(parts: &Parts, id: u8, page: u32, t: &Live) -> bool
    requires { IsReady parts.now }
    ensures { result ≡ may_journal (state_of parts.now) id page t.now }
{
    t.writes_under(lock_of(parts, page))
        && (parts.files.has_bytes(id) && is_page(parts, page) && !t.has_journalled(page))
}

fn may_journal(parts: &Parts, id: u8, page: u32) -> bool
    requires { IsReady parts.now }
    ensures { result ≡ is_step_enabled (state_of parts.now) (Event-F.Journal id page) }
{
    match working(parts, id) {
        Some(t) => may_journal_page(parts, id, page, t),
        None => false,
    }
}

// Whether bytes are those of one page, and on page 1 begin as the file does.
#[tactic(auto, unfolding(crate::specs::Enabled::is_page_for))]
fn is_page_for(parts: &Parts, page: u32, bytes: &[u8]) -> bool
    requires { IsReady parts.now }
    ensures { result ≡ is_page_for (state_of parts.now) page bytes.now }
{
    if bytes.len() != page_size(&parts.files) as usize {
        return false;
    }
    let (front, _) = bytes.split_at(24);
    let (first, _) = parts.files.bytes(FileNo::Database).split_at(24);
    page != 1 || front == first
}

// Whether a transaction may write a page.
fn is_writable(parts: &Parts, page: u32, t: &Live) -> bool
    requires { IsReady parts.now }
    ensures { result ≡ is_writable (state_of parts.now) page t.now }
{
    t.has_journalled(page) || (parts.pages < page && page <= wanted_count(t))
}

fn may_write_page(parts: &Parts, page: u32, bytes: &[u8], t: &Live) -> bool
    requires { IsReady parts.now }
    ensures { result ≡ may_write (state_of parts.now) page bytes.now t.now }
{
    t.writes_under(lock_of(parts, page))
        && (is_page_for(parts, page, bytes) && is_writable(parts, page, t))
}

fn may_write(parts: &Parts, id: u8, page: u32, bytes: &[u8]) -> bool
    requires { IsReady parts.now }
    ensures { result ≡ is_step_enabled (state_of parts.now) (Event-F.WriteBytes id page bytes.now) }
{
    match working(parts, id) {
        Some(t) => may_write_page(parts, page, bytes, t),
        None => false,
    }
}

// Whether each page above the count and up to this one was written.
#[tactic(auto, unfolding(crate::specs::Enabled::are_written))]
fn are_written(count: u32, pages: u32, t: &Live) -> bool
    ensures { result ≡ are_written count pages t.now.written }
{
    let mut page = count;
    while page < pages {
        page += 1;
        if !t.has_written(page) {
            return false;
        }
    }
    true
}

// Whether a header may be the next one, for a transaction that wrote it.
#[tactic(auto, unfolding(crate::specs::Enabled::is_next_header))]
fn is_next_header(parts: &Parts, front: &[u8], t: &Live) -> bool
    requires { IsReady parts.now }
    ensures { result ≡ is_next_header (state_of parts.now) t.now.written (header_of front.now) }
{
    match Header::read(front) {
        Ok(header) => {
            header.is_size_valid()
                && parts.pages <= header.pages
                && u64::from(header.pages) * u64::from(page_size(&parts.files)) <= 1 << 30
                && are_written(parts.pages, header.pages, t)
        }
        Err(_) => false,
    }
}

#[tactic(auto, unfolding(crate::specs::Enabled::may_commit))]
fn may_commit(parts: &Parts, t: &Live) -> bool
    requires { IsReady parts.now }
    ensures { result ≡ may_commit (state_of parts.now) t.now }
{
    match t.written(1) {
        Some(page) => is_next_header(parts, front_of(page), t),
        None => true,
    }
}

fn may_cut(parts: &Parts, id: u8) -> bool
    requires { IsReady parts.now }
    ensures { result ≡ is_step_enabled (state_of parts.now) (Event-F.CommitCut id) }
{
    match working(parts, id) {
        Some(t) => may_commit(parts, t),
        None => false,
    }
}

fn may_undo(parts: &Parts, id: u8) -> bool
    ensures { result ≡ is_step_enabled (state_of parts.now) (Event-F.UndoBytes id) }
{
    match going(parts, id) {
        Some(t) => t.has_changed(),
        None => false,
    }
}

fn may_roll(parts: &Parts, id: u8) -> bool
    ensures { result ≡ is_step_enabled (state_of parts.now) (Event-F.RollCut id) }
{
    match going(parts, id) {
        Some(t) => !t.has_changed(),
        None => false,
    }
}

fn is_step_enabled(parts: &Parts, event: &Event) -> bool
    requires { IsReady parts.now }
    ensures { result ≡ is_step_enabled (state_of parts.now) (out-Event event.now) }
{
    match event {
        Event::Begin { id } => may_begin(parts, *id),
        Event::GrantRead { id, lock } => may_grant_read(parts, *id, *lock),
        Event::GrantWrite { id, lock } => may_grant_write(parts, *id, *lock),
        Event::Read { id, page } => may_read(parts, *id, *page),
        Event::OpenJournal { id } => may_open(parts, *id),
        Event::Journal { id, page } => may_journal(parts, *id, *page),
        Event::WriteBytes { id, page, bytes } => may_write(parts, *id, *page, bytes.as_slice()),
        Event::CommitCut { id } => may_cut(parts, *id),
        Event::UndoBytes { id } => may_undo(parts, *id),
        Event::RollCut { id } => may_roll(parts, *id),
        Event::Release { id, lock } => may_release(parts, *id, *lock),
        Event::RecoverOp => !is_serving(parts),
        _ => false,
    }
}

fn recovers_by_write(parts: &Parts) -> bool
    ensures { result ≡ recovers_by_write (state_of parts.now).mode }
{
    match &parts.mode {
        Mode::Serving => false,
        Mode::Recovering(left) => matches!(left.front(), Some(Operation::Write(_))),
    }
}

fn makes_write(parts: &Parts, event: &Event) -> bool
    ensures { result ≡ makes_write (state_of parts.now) (out-Event event.now) }
{
    match event {
        Event::OpenJournal { .. } => true,
        Event::Journal { .. } => true,
        Event::WriteBytes { .. } => true,
        Event::UndoBytes { .. } => true,
        Event::RecoverOp => recovers_by_write(parts),
        _ => false,
    }
}

fn is_stop_enabled(parts: &Parts, next: &Option<Boxed<Event>>) -> bool
    requires { IsReady parts.now }
    ensures { result ≡ is_stop_enabled (state_of parts.now) next.now }
{
    match next {
        Some(next) => makes_write(parts, next.get()) && is_step_enabled(parts, next.get()),
        None => true,
    }
}

/// Whether an event is enabled.
pub fn is_enabled(parts: &Parts, event: &Event) -> bool
    requires { IsReady parts.now }
    ensures { result ≡ enabled (state_of parts.now) event.now }
{
    match event {
        Event::Stop { next, bytes: _ } => is_stop_enabled(parts, next),
        _ => is_step_enabled(parts, event),
    }
}
