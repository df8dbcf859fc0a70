//! Lists of events, and which of them a core makes.

ghost use Rattle.std.specs.Prelude.{◌≡◌};

use super::events::Filling::{Old, OtherFront, Pages, Row, Short, TooMany, Uncounted, Unread};
use super::events::Move::{
    Begin, Commit, Journal, Lock, Never, Open, Read, Recover, Release, Roll, Share, Stop, StopIn,
    Undo, Write,
};
use super::events::{Filling, Move, Next, event_of, page_of};
use super::files::{PAGE, lay, two};
use super::run::expect;
use spe_core::{Answer, Core, Event, Events, is_opening, run_events, step};
use spe_model::{Bytes, FileNo};
use std::alloc::{AllocError, Global};
use std::test::Fail;

/// A page that is not as it was at first: its number, what was written to it, and how many of the
/// first bytes of that.
pub type Change = (u32, Filling, usize);

/// Events of transaction 0, for each whether it is made (`m`) or refused (`r`), and then how many commits there are,
/// how many bytes journal 0 has, and what of the file has changed.
type Run = (&'static [Move], &'static str, u64, usize, &'static [Change]);

static RUNS: [Run; 52] = [
    // a row is committed
    (
        &[
            Begin,
            Lock(2),
            Read(2),
            Open,
            Journal(2),
            Write(2, Row),
            Commit,
        ],
        "mmmmmmm",
        1,
        0,
        &[(2, Row, 512)],
    ),
    // stopped within the head: as it then is, and as it is recovered; so with nothing of it written
    (&[Begin, StopIn(Next::Open, 300)], "mm", 0, 300, &[]),
    (
        &[Begin, StopIn(Next::Open, 300), Recover, Recover, Recover],
        "mmmmr",
        0,
        0,
        &[],
    ),
    (
        &[Begin, StopIn(Next::Open, 0), Recover, Recover],
        "mmmr",
        0,
        0,
        &[],
    ),
    // within the record, and with all of it written
    (
        &[Begin, Lock(2), Open, StopIn(Next::Record, 519)],
        "mmmm",
        0,
        1031,
        &[],
    ),
    (
        &[
            Begin,
            Lock(2),
            Open,
            StopIn(Next::Record, 519),
            Recover,
            Recover,
            Recover,
        ],
        "mmmmmmr",
        0,
        0,
        &[],
    ),
    (
        &[
            Begin,
            Lock(2),
            Open,
            StopIn(Next::Record, 520),
            Recover,
            Recover,
            Recover,
            Recover,
        ],
        "mmmmmmmr",
        0,
        0,
        &[],
    ),
    // within the page, before the cut, and after it
    (
        &[Begin, Lock(2), Open, Journal(2), StopIn(Next::Row, 100)],
        "mmmmm",
        0,
        1032,
        &[(2, Row, 100)],
    ),
    (
        &[
            Begin,
            Lock(2),
            Open,
            Journal(2),
            StopIn(Next::Row, 100),
            Recover,
            Recover,
            Recover,
            Recover,
        ],
        "mmmmmmmmr",
        0,
        0,
        &[],
    ),
    (
        &[
            Begin,
            Lock(2),
            Open,
            Journal(2),
            Write(2, Row),
            Stop,
            Recover,
            Recover,
            Recover,
            Recover,
        ],
        "mmmmmmmmmr",
        0,
        0,
        &[],
    ),
    (
        &[
            Begin,
            Lock(2),
            Open,
            Journal(2),
            Write(2, Row),
            Commit,
            Stop,
            Recover,
            Recover,
        ],
        "mmmmmmmmr",
        1,
        0,
        &[(2, Row, 512)],
    ),
    // within the write of an undo
    (
        &[
            Begin,
            Lock(2),
            Open,
            Journal(2),
            Write(2, Row),
            StopIn(Next::Undo, 50),
        ],
        "mmmmmm",
        0,
        1032,
        &[(2, Row, 512), (2, Old, 50)],
    ),
    // within recovery, whose next operation is a write, and a cut
    (
        &[
            Begin,
            Lock(2),
            Open,
            Journal(2),
            Write(2, Row),
            Stop,
            StopIn(Next::Recover, 7),
        ],
        "mmmmmmm",
        0,
        1032,
        &[(2, Row, 512), (2, Old, 7)],
    ),
    (
        &[
            Begin,
            Lock(2),
            Open,
            Journal(2),
            Write(2, Row),
            Stop,
            StopIn(Next::Recover, 7),
            Recover,
            Recover,
            Recover,
            Recover,
        ],
        "mmmmmmmmmmr",
        0,
        0,
        &[],
    ),
    (
        &[Begin, StopIn(Next::Open, 300), StopIn(Next::Recover, 1)],
        "mmr",
        0,
        300,
        &[],
    ),
    // served again
    (
        &[Begin, StopIn(Next::Open, 0), Recover, Begin],
        "mmmm",
        0,
        0,
        &[],
    ),
    // undone
    (
        &[
            Begin,
            Lock(2),
            Lock(3),
            Open,
            Journal(2),
            Write(2, Row),
            Undo,
            Undo,
            Read(3),
            Open,
            Journal(3),
            Write(2, Row),
            Commit,
            Roll,
            Commit,
        ],
        "mmmmmmmrrrrrrmr",
        0,
        0,
        &[],
    ),
    (
        &[Begin, Lock(2), Open, Journal(2), Write(2, Row), Roll],
        "mmmmmr",
        0,
        1032,
        &[(2, Row, 512)],
    ),
    // the least page is undone first
    (
        &[
            Begin,
            Lock(2),
            Lock(3),
            Open,
            Journal(3),
            Write(3, Row),
            Journal(2),
            Write(2, Row),
            Undo,
        ],
        "mmmmmmmmm",
        0,
        1552,
        &[(3, Row, 512)],
    ),
    (
        &[
            Begin,
            Lock(2),
            Lock(3),
            Open,
            Journal(3),
            Write(3, Row),
            Journal(2),
            Write(2, Row),
            Undo,
            Undo,
            Undo,
            Roll,
        ],
        "mmmmmmmmmmrm",
        0,
        0,
        &[],
    ),
    // a page is written twice, and two transactions commit
    (
        &[
            Begin,
            Lock(2),
            Open,
            Journal(2),
            Write(2, Row),
            Commit,
            Release(2),
            Begin,
            Lock(2),
            Read(2),
            Open,
            Journal(2),
            Write(2, Row),
            Write(2, Old),
            Commit,
        ],
        "mmmmmmmmmmmmmmm",
        2,
        0,
        &[],
    ),
    // begun twice, after its end, and while recovering
    (&[Begin, Begin], "mr", 0, 0, &[]),
    (&[Begin, Roll, Begin], "mmm", 0, 0, &[]),
    (&[Stop, Begin], "mr", 0, 0, &[]),
    // anything while recovering, and by nobody
    (
        &[
            Begin,
            Stop,
            Read(2),
            Open,
            Journal(2),
            Write(2, Row),
            Commit,
            Undo,
            Roll,
            StopIn(Next::Open, 1),
        ],
        "mmrrrrrrrr",
        0,
        0,
        &[],
    ),
    (
        &[Read(2), Open, Journal(2), Write(2, Row), Commit, Undo, Roll],
        "rrrrrrr",
        0,
        0,
        &[],
    ),
    // anything after the end
    (
        &[
            Begin,
            Lock(2),
            Lock(3),
            Open,
            Journal(2),
            Write(2, Row),
            Commit,
            Undo,
            Roll,
            Read(2),
            Open,
            Journal(3),
            Write(2, Row),
            Commit,
        ],
        "mmmmmmmrrrrrrr",
        1,
        0,
        &[(2, Row, 512)],
    ),
    (
        &[
            Begin,
            Lock(2),
            Lock(3),
            Roll,
            Undo,
            Roll,
            Read(2),
            Open,
            Journal(3),
            Write(2, Row),
            Commit,
        ],
        "mmmmrrrrrrr",
        0,
        0,
        &[],
    ),
    // pages that are none
    (
        &[Begin, Lock(0), Lock(6), Lock(7), Read(0), Read(7), Read(6)],
        "mmmmrrm",
        0,
        0,
        &[],
    ),
    // a journal opened twice
    (&[Begin, Open, Open], "mmr", 0, 512, &[]),
    // records without a head, of pages that are none, and twice
    (&[Begin, Lock(2), Journal(2)], "mmr", 0, 0, &[]),
    (
        &[
            Begin,
            Lock(0),
            Lock(2),
            Lock(7),
            Open,
            Journal(0),
            Journal(7),
            Journal(2),
            Journal(2),
        ],
        "mmmmmrrmr",
        0,
        1032,
        &[],
    ),
    // pages without a record, of another length, and with another front of page 1
    (
        &[Begin, Lock(2), Lock(7), Open, Write(2, Row), Write(7, Row)],
        "mmmmrr",
        0,
        512,
        &[],
    ),
    (
        &[Begin, Lock(2), Open, Journal(2), Write(2, Short)],
        "mmmmr",
        0,
        1032,
        &[],
    ),
    (
        &[Begin, Lock(1), Open, Journal(1), Write(1, OtherFront)],
        "mmmmr",
        0,
        1032,
        &[],
    ),
    // the file grows, once each new page is written
    (
        &[
            Begin,
            Lock(1),
            Lock(7),
            Lock(8),
            Open,
            Journal(1),
            Write(1, Pages(7)),
            Commit,
            Write(8, Row),
            Write(7, Row),
            Commit,
        ],
        "mmmmmmmrrmm",
        1,
        0,
        &[(1, Pages(7), 512), (7, Row, 512)],
    ),
    // stopped once it has grown, and recovered to what it was
    (
        &[
            Begin,
            Lock(1),
            Lock(7),
            Open,
            Journal(1),
            Write(1, Pages(7)),
            Write(7, Row),
            Stop,
        ],
        "mmmmmmmm",
        0,
        1032,
        &[(1, Pages(7), 512), (7, Row, 512)],
    ),
    (
        &[
            Begin,
            Lock(1),
            Lock(7),
            Open,
            Journal(1),
            Write(1, Pages(7)),
            Write(7, Row),
            Stop,
            Recover,
            Recover,
            Recover,
            Recover,
            Recover,
        ],
        "mmmmmmmmmmmmr",
        0,
        0,
        &[],
    ),
    // a header that a database may not have next: fewer pages, a number that does not count, one whose
    // pages are too many, or none that is read
    (
        &[Begin, Lock(1), Open, Journal(1), Write(1, Pages(5)), Commit],
        "mmmmmr",
        0,
        1032,
        &[(1, Pages(5), 512)],
    ),
    (
        &[
            Begin,
            Lock(1),
            Open,
            Journal(1),
            Write(1, Uncounted),
            Commit,
        ],
        "mmmmmr",
        0,
        1032,
        &[(1, Uncounted, 512)],
    ),
    (
        &[Begin, Lock(1), Open, Journal(1), Write(1, TooMany), Commit],
        "mmmmmr",
        0,
        1032,
        &[(1, TooMany, 512)],
    ),
    (
        &[Begin, Lock(1), Open, Journal(1), Write(1, Unread), Commit],
        "mmmmmr",
        0,
        1032,
        &[(1, Unread, 512)],
    ),
    // an undo of nothing
    (&[Begin, Undo], "mr", 0, 0, &[]),
    // recovery of what is served
    (&[Recover], "r", 0, 0, &[]),
    // a stop in another stop, in what makes no write, and in what is not enabled; recovery of what is
    // served
    (&[Begin, StopIn(Next::Stop, 0)], "mr", 0, 0, &[]),
    (
        &[
            Begin,
            Lock(2),
            StopIn(Next::Lock, 0),
            StopIn(Next::Record, 1),
            Recover,
        ],
        "mmrrr",
        0,
        0,
        &[],
    ),
    (
        &[Begin, Never(0), Never(1), Never(2), Never(3), Never(4)],
        "mrrrrr",
        0,
        0,
        &[],
    ),
    // within the first 200 bytes of the head, the first 300 of the record, the first 10 of the page
    (
        &[Begin, StopIn(Next::Open, 200), Recover, Recover, Recover],
        "mmmmr",
        0,
        0,
        &[],
    ),
    (
        &[
            Begin,
            Lock(2),
            Open,
            StopIn(Next::Record, 300),
            Recover,
            Recover,
            Recover,
        ],
        "mmmmmmr",
        0,
        0,
        &[],
    ),
    (
        &[
            Begin,
            Lock(2),
            Open,
            Journal(2),
            StopIn(Next::Row, 10),
            Recover,
            Recover,
            Recover,
            Recover,
        ],
        "mmmmmmmmr",
        0,
        0,
        &[],
    ),
    // without the lock, under one that is only read, and under one that is given up too early
    (
        &[
            Begin,
            Read(2),
            Share(2),
            Read(2),
            Open,
            Journal(2),
            Release(2),
            Lock(2),
            Journal(2),
            Write(2, Row),
            Write(3, Row),
        ],
        "mrmmmrrmmmr",
        0,
        1032,
        &[(2, Row, 512)],
    ),
    // a lock that there is not, a lock kept past the end, and one given back
    (
        &[
            Begin,
            Lock(16),
            Share(16),
            Lock(15),
            Roll,
            Begin,
            Lock(3),
            Release(3),
            Release(15),
            Release(15),
            Begin,
        ],
        "mrrmmrrrmrm",
        0,
        0,
        &[],
    ),
];

// Lays the first bytes of a page filled so over a file, which grows where it must.
fn lay_change(alloc: Global, file: &mut Vec<u8>, change: &Change) -> Result<(), AllocError> {
    let (page, filling, bytes) = *change;
    let from = (page as usize).saturating_sub(1).wrapping_mul(PAGE);
    let content = page_of(alloc, filling)?.into_vec();
    if file.len() < from.saturating_add(bytes) {
        file.resize(from.saturating_add(bytes), 0)?;
    }
    lay(file, from, content.get(..bytes).unwrap_or(&content));
    Ok(())
}

// The bytes of the file with these changes.
pub fn file_of(alloc: Global, changes: &[Change]) -> Result<Vec<u8>, AllocError> {
    let mut file = two(alloc)?;
    for change in changes {
        lay_change(alloc, &mut file, change)?;
    }
    Ok(file)
}

// The events, in their order.
fn events_of(alloc: Global, moves: &[Move]) -> Result<Events, AllocError> {
    let mut found = Vec::new(alloc);
    for short in moves {
        found.push(event_of(alloc, 0, *short)?)?;
    }
    Ok(Events::new(found))
}

// A core that serves the database.
pub fn begun(alloc: Global) -> Result<Option<Core>, AllocError> {
    let file = two(alloc)?;
    if !is_opening(&file) {
        return Ok(None);
    }
    Ok(Some(Core::new(alloc, Bytes::new(file), 16)?))
}

// Whether the core answers the event with this letter: made or refused.
fn answers(core: &mut Core, event: &Event, letter: u8) -> Result<bool, AllocError> {
    Ok(match step(core, event)? {
        Answer::Done => letter == b'm',
        Answer::Refused => letter == b'r',
    })
}

// Whether the core answers the events with these letters, one for each.
pub fn answers_all(core: &mut Core, events: &[Event], letters: &[u8]) -> Result<bool, AllocError> {
    let mut same = events.len() == letters.len();
    for (event, letter) in events.iter().zip(letters) {
        if !answers(core, event, *letter)? {
            same = false;
        }
    }
    Ok(same)
}

// How many of some events are made.
pub fn made_in(letters: &str) -> u64 {
    let mut made = 0u64;
    for letter in letters.as_bytes() {
        if *letter == b'm' {
            made = made.wrapping_add(1);
        }
    }
    made
}

// Whether the core has the commits and bytes that a run says.
fn is_left(alloc: Global, core: &Core, run: &Run) -> Result<bool, AllocError> {
    let (_, _, commits, journal, changes) = *run;
    let file = file_of(alloc, changes)?;
    Ok(
        core.commit_count() == commits
            && core.bytes(FileNo::Journal(0)).len() == journal
            && core.bytes(FileNo::Database) == file.as_slice(),
    )
}

// One by one by `step`: whether each is answered as the run says.
fn steps(alloc: Global, core: &mut Core, run: &Run) -> Result<bool, AllocError> {
    let events = events_of(alloc, run.0)?;
    answers_all(core, events.as_slice(), run.1.as_bytes())
}

// All by `run_events`: whether as many are made as the run says.
fn runs(alloc: Global, core: &mut Core, run: &Run) -> Result<bool, AllocError> {
    let events = events_of(alloc, run.0)?;
    let made = run_events(core, &events)?;
    Ok(made == made_in(run.1))
}

// Whether the core makes of the run what it says, by `step` or by `run_events`.
fn holds_of(alloc: Global, core: &mut Core, run: &Run, by_step: bool) -> Result<bool, AllocError> {
    let made = if by_step {
        steps(alloc, core, run)?
    } else {
        runs(alloc, core, run)?
    };
    let left = is_left(alloc, core, run)?;
    Ok(made && left)
}

fn holds_by(alloc: Global, run: &Run, by_step: bool) -> Result<bool, AllocError> {
    match begun(alloc)? {
        Some(mut core) => holds_of(alloc, &mut core, run, by_step),
        None => Ok(false),
    }
}

fn holds(alloc: Global, run: &Run) -> Result<bool, AllocError> {
    let stepped = holds_by(alloc, run, true)?;
    let ran = holds_by(alloc, run, false)?;
    Ok(stepped && ran)
}

#[test]
fn made_or_refused(rt: HostRuntime) -> Result<(), Fail> {
    for (row, run) in RUNS.iter().enumerate() {
        expect(&rt, row, holds(rt.alloc(), run)?);
    }
    Ok(())
}
