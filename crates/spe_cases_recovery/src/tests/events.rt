//! Events of the core, written short.

use super::files::{PAGE, lay, two};
use spe_core::Event;
use spe_model::Bytes;
use sqlite_items::Boxed;
use std::alloc::{AllocError, Global};

/// What is written to a page.
#[derive(Clone, Copy)]
pub enum Filling {
    /// Page 2 with one row.
    Row,
    /// Page 2 as it was, with no row.
    Old,
    /// Page 1 as it names so many pages.
    Pages(u8),
    /// Page 1 with another change counter, so that its number of pages does not count.
    Uncounted,
    /// Page 1 with UTF-16 text, so that its header is not one that is read.
    Unread,
    /// Page 1 as it names 2097153 pages, which take one page more than 2^30 bytes.
    TooMany,
    /// Page 1 with another page size.
    OtherFront,
    /// A byte less than a page.
    Short,
}

/// An event of one transaction, a stop, or an operation of recovery.
#[derive(Clone, Copy)]
pub enum Move {
    Begin,
    /// It becomes a reader of a lock.
    Share(u32),
    /// It becomes the writer of a lock.
    Lock(u32),
    Release(u32),
    Read(u32),
    Open,
    Journal(u32),
    Write(u32, Filling),
    Commit,
    Undo,
    Roll,
    Stop,
    /// A stop after so many bytes of the write of what was to come next.
    StopIn(Next, u64),
    Recover,
    /// An event that is never enabled yet.
    Never(u8),
}

/// What was to come next at a stop: the journal's head, a record of page 2, a row on page 2, its old
/// bytes, an operation of recovery, a lock, or another stop.
#[derive(Clone, Copy)]
pub enum Next {
    Open,
    Record,
    Row,
    Undo,
    Recover,
    Lock,
    Stop,
}

/// The bytes of a page filled so.
pub fn page_of(alloc: Global, filling: Filling) -> Result<Bytes, AllocError> {
    let mut page = two(alloc)?;
    page.truncate(PAGE);
    match filling {
        Filling::Old => {
            page = vec![in alloc; 0u8; PAGE]?;
            lay(&mut page, 0, b"\x0d\x00\x00\x00\x00\x02\x00");
        }
        Filling::Row => {
            page = vec![in alloc; 0u8; PAGE]?;
            lay(&mut page, 0, b"\x0d\x00\x00\x00\x01\x01\xfa\x00\x01\xfa");
            lay(&mut page, 506, b"\x04\x01\x03\x00\x01\x0a");
        }
        Filling::Pages(pages) => lay(&mut page, 31, &[pages]),
        Filling::Uncounted => lay(&mut page, 27, &[4]),
        Filling::Unread => lay(&mut page, 59, &[2]),
        Filling::TooMany => lay(&mut page, 28, &[0, 0x20, 0, 1]),
        Filling::OtherFront => lay(&mut page, 16, &[4]),
        Filling::Short => page.truncate(PAGE - 1),
    }
    Ok(Bytes::new(page))
}

fn next_of(alloc: Global, id: u8, next: Next) -> Result<Event, AllocError> {
    Ok(match next {
        Next::Open => Event::OpenJournal { id },
        Next::Record => Event::Journal { id, page: 2 },
        Next::Row => Event::WriteBytes {
            id,
            page: 2,
            bytes: page_of(alloc, Filling::Row)?,
        },
        Next::Undo => Event::UndoBytes { id },
        Next::Recover => Event::RecoverOp,
        Next::Lock => Event::GrantWrite { id, lock: 4 },
        Next::Stop => Event::Stop {
            next: None,
            bytes: 0,
        },
    })
}

fn never(which: u8) -> Event {
    match which {
        0 => Event::EnterReadOnly { reader: 1 },
        1 => Event::FixSnapshot { reader: 1 },
        2 => Event::ReadAt { reader: 1, page: 2 },
        3 => Event::Leave { reader: 1 },
        _ => Event::Trim { floor: 0 },
    }
}

/// The event, as one of a transaction of this number where it is a transaction's.
pub fn event_of(alloc: Global, id: u8, short: Move) -> Result<Event, AllocError> {
    Ok(match short {
        Move::Begin => Event::Begin { id },
        Move::Share(lock) => Event::GrantRead { id, lock },
        Move::Lock(lock) => Event::GrantWrite { id, lock },
        Move::Release(lock) => Event::Release { id, lock },
        Move::Read(page) => Event::Read { id, page },
        Move::Open => Event::OpenJournal { id },
        Move::Journal(page) => Event::Journal { id, page },
        Move::Write(page, filling) => Event::WriteBytes {
            id,
            page,
            bytes: page_of(alloc, filling)?,
        },
        Move::Commit => Event::CommitCut { id },
        Move::Undo => Event::UndoBytes { id },
        Move::Roll => Event::RollCut { id },
        Move::Stop => Event::Stop {
            next: None,
            bytes: 0,
        },
        Move::StopIn(next, bytes) => Event::Stop {
            next: Some(Boxed::new(alloc, next_of(alloc, id, next)?)?),
            bytes,
        },
        Move::Recover => Event::RecoverOp,
        Move::Never(which) => never(which),
    })
}
