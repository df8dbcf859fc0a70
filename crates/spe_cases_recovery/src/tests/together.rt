//! Lists of events of several transactions at work.

ghost use Rattle.std.specs.Prelude.{◌≡◌};

use super::events::Filling::{Pages, Row};
use super::events::Move::{
    Begin, Commit, Journal, Lock, Open, Read, Recover, Release, Roll, Share, Stop, Undo, Write,
};
use super::events::{Move, event_of};
use super::lists::{Change, answers_all, begun, file_of, made_in};
use super::run::expect;
use spe_core::{Core, Events, run_events};
use spe_model::FileNo;
use std::alloc::{AllocError, Global};
use std::test::Fail;

/// Events, each with its transaction, for each whether it is made (`m`) or refused (`r`), and then how
/// many commits there are, how many bytes some journals have, and what of the file has changed.
type Joint = (
    &'static [(u8, Move)],
    &'static str,
    u64,
    &'static [(u8, usize)],
    &'static [Change],
);

static JOINTS: [Joint; 7] = [
    // two transactions in turn, on pages of their own: both commit
    (
        &[
            (0, Begin),
            (1, Begin),
            (0, Lock(2)),
            (1, Lock(3)),
            (0, Read(2)),
            (1, Read(3)),
            (0, Open),
            (1, Open),
            (1, Journal(3)),
            (0, Journal(2)),
            (0, Write(2, Row)),
            (1, Write(3, Row)),
            (1, Commit),
            (0, Commit),
        ],
        "mmmmmmmmmmmmmm",
        2,
        &[(0, 0), (1, 0)],
        &[(2, Row, 512), (3, Row, 512)],
    ),
    // one commits while the other rolls back
    (
        &[
            (0, Begin),
            (1, Begin),
            (0, Lock(2)),
            (1, Lock(3)),
            (0, Open),
            (1, Open),
            (0, Journal(2)),
            (0, Write(2, Row)),
            (1, Journal(3)),
            (1, Write(3, Row)),
            (0, Undo),
            (1, Commit),
            (0, Roll),
        ],
        "mmmmmmmmmmmmm",
        1,
        &[(0, 0), (1, 0)],
        &[(3, Row, 512)],
    ),
    // a writer beside a reader, a reader beside a writer, and a writer beside another are refused, as long
    // as the lock is held
    (
        &[
            (0, Begin),
            (1, Begin),
            (0, Share(2)),
            (1, Share(2)),
            (0, Lock(2)),
            (1, Roll),
            (0, Lock(2)),
            (1, Release(2)),
            (0, Lock(2)),
            (2, Begin),
            (2, Share(2)),
            (2, Lock(2)),
            (2, Read(2)),
            (0, Commit),
            (2, Lock(2)),
            (0, Release(2)),
            (2, Lock(2)),
            (2, Read(2)),
        ],
        "mmmmrmrmmmrrrmrmmm",
        1,
        &[],
        &[],
    ),
    // a stop with three hot journals, behind a commit: as it is, and recovered
    (
        &[
            (3, Begin),
            (3, Lock(5)),
            (3, Open),
            (3, Journal(5)),
            (3, Write(5, Row)),
            (3, Commit),
            (0, Begin),
            (1, Begin),
            (2, Begin),
            (0, Lock(2)),
            (1, Lock(3)),
            (2, Lock(4)),
            (0, Open),
            (1, Open),
            (2, Open),
            (0, Journal(2)),
            (1, Journal(3)),
            (2, Journal(4)),
            (2, Write(4, Row)),
            (0, Write(2, Row)),
            (1, Write(3, Row)),
            (0, Stop),
        ],
        "mmmmmmmmmmmmmmmmmmmmmm",
        1,
        &[(0, 1032), (1, 1032), (2, 1032), (3, 0)],
        &[(2, Row, 512), (3, Row, 512), (4, Row, 512), (5, Row, 512)],
    ),
    (
        &[
            (3, Begin),
            (3, Lock(5)),
            (3, Open),
            (3, Journal(5)),
            (3, Write(5, Row)),
            (3, Commit),
            (0, Begin),
            (1, Begin),
            (2, Begin),
            (0, Lock(2)),
            (1, Lock(3)),
            (2, Lock(4)),
            (0, Open),
            (1, Open),
            (2, Open),
            (0, Journal(2)),
            (1, Journal(3)),
            (2, Journal(4)),
            (2, Write(4, Row)),
            (0, Write(2, Row)),
            (1, Write(3, Row)),
            (0, Stop),
            (0, Recover),
            (0, Recover),
            (0, Recover),
            (0, Recover),
            (0, Recover),
            (0, Recover),
            (0, Recover),
            (0, Recover),
        ],
        "mmmmmmmmmmmmmmmmmmmmmmmmmmmmmr",
        1,
        &[(0, 0), (1, 0), (2, 0), (3, 0)],
        &[(5, Row, 512)],
    ),
    // the file grows by one while another is at work, which commits what it wrote after that
    (
        &[
            (0, Begin),
            (1, Begin),
            (0, Lock(1)),
            (0, Lock(7)),
            (1, Lock(2)),
            (0, Open),
            (0, Journal(1)),
            (1, Open),
            (1, Journal(2)),
            (1, Read(7)),
            (0, Write(1, Pages(7))),
            (0, Write(7, Row)),
            (1, Write(2, Row)),
            (0, Commit),
            (1, Read(7)),
            (0, Release(7)),
            (1, Share(7)),
            (1, Read(7)),
            (1, Commit),
        ],
        "mmmmmmmmmrmmmmrmmmm",
        2,
        &[(0, 0), (1, 0)],
        &[(1, Pages(7), 512), (7, Row, 512), (2, Row, 512)],
    ),
    // sixteen at once, and none beyond
    (
        &[
            (0, Begin),
            (1, Begin),
            (2, Begin),
            (3, Begin),
            (4, Begin),
            (5, Begin),
            (6, Begin),
            (7, Begin),
            (8, Begin),
            (9, Begin),
            (10, Begin),
            (11, Begin),
            (12, Begin),
            (13, Begin),
            (14, Begin),
            (15, Begin),
            (16, Begin),
            (15, Begin),
            (15, Roll),
            (15, Begin),
        ],
        "mmmmmmmmmmmmmmmmrrmm",
        0,
        &[],
        &[],
    ),
];

// The events, in their order.
fn events_of(alloc: Global, moves: &[(u8, Move)]) -> Result<Events, AllocError> {
    let mut found = Vec::new(alloc);
    for (id, short) in moves {
        found.push(event_of(alloc, *id, *short)?)?;
    }
    Ok(Events::new(found))
}

// Whether the journals have so many bytes.
fn are_long(core: &Core, journals: &[(u8, usize)]) -> bool {
    let mut same = true;
    for (id, size) in journals {
        if core.bytes(FileNo::Journal(*id)).len() != *size {
            same = false;
        }
    }
    same
}

// Whether the core has the commits and bytes that a run says.
fn is_left(alloc: Global, core: &Core, joint: &Joint) -> Result<bool, AllocError> {
    let (_, _, commits, journals, changes) = *joint;
    let file = file_of(alloc, changes)?;
    Ok(
        core.commit_count() == commits
            && are_long(core, journals)
            && core.bytes(FileNo::Database) == file.as_slice(),
    )
}

// Whether the core makes of the run what it says, event by event, or all at once.
fn holds_of(
    alloc: Global,
    core: &mut Core,
    joint: &Joint,
    by_step: bool,
) -> Result<bool, AllocError> {
    let events = events_of(alloc, joint.0)?;
    let made = if by_step {
        answers_all(core, events.as_slice(), joint.1.as_bytes())?
    } else {
        run_events(core, &events)? == made_in(joint.1)
    };
    let left = is_left(alloc, core, joint)?;
    Ok(made && left)
}

fn holds_by(alloc: Global, joint: &Joint, by_step: bool) -> Result<bool, AllocError> {
    match begun(alloc)? {
        Some(mut core) => holds_of(alloc, &mut core, joint, by_step),
        None => Ok(false),
    }
}

fn holds(alloc: Global, joint: &Joint) -> Result<bool, AllocError> {
    let stepped = holds_by(alloc, joint, true)?;
    let ran = holds_by(alloc, joint, false)?;
    Ok(stepped && ran)
}

#[test]
fn several_at_work(rt: HostRuntime) -> Result<(), Fail> {
    for (row, joint) in JOINTS.iter().enumerate() {
        expect(&rt, row, holds(rt.alloc(), joint)?);
    }
    Ok(())
}
