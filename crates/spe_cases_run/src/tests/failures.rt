//! Operations and readings that fail: what is printed, and the rows that are left.

ghost use Rattle.std.specs.Prelude.{◌≡◌, false, IfOk};
ghost use Rattle.spe_disk.specs.Memory.{is_attached};

use super::run::{
    ALL, BOTH, BOTH_SCRIPTS, Ended, Left, NEITHER, Script, expect, is_ended, leaves, left_by,
    op_fails, read_fails, run_of, two_disk,
};
use spe_disk::MemDisk;
use std::alloc::{AllocError, Global};
use std::sync::Wait;
use std::test::Fail;
use std::thread::Threads;

static WORDS: [&str; 4] = ["run", "b.db", "s1", "s2"];

// A transaction over two pages, and one that reads.
static PAIR: [Script; 2] = [
    (
        "s1",
        b"BEGIN; INSERT INTO a VALUES (1, 10); INSERT INTO b VALUES (7, 20); COMMIT;",
    ),
    ("s2", b"SELECT count(*) FROM a;"),
];

// A disk of which this operation fails, made all the same or not.
fn failing_disk(alloc: Global, op: u64, made: bool) -> Result<MemDisk, AllocError>
    ensures { IfOk result (λ d. is_attached d ≡ false) }
{
    let faults = op_fails(alloc, op, made)?;
    two_disk(alloc, faults)
}

fn failed_run<R: Threads + Wait + Sync>(
    rt: &R,
    alloc: Global,
    scripts: &[Script],
    op: u64,
    made: bool,
) -> Result<Ended, AllocError> {
    let disk = failing_disk(alloc, op, made)?;
    run_of(rt, alloc, &WORDS, scripts, disk)
}

// How many operations are made where this one fails: none after it.
fn whole_ops(op: u64, made: bool) -> u64 {
    if made { op } else { op.saturating_sub(1) }
}

// What is printed where one of the operations 17 to 22 fails: the head, two records, two pages and the cut.
static PAIR_TEXTS: [(u64, &str); 6] = [
    (
        17,
        "client 1\ntx 1 fault 0 stopped 17\n  inserted 1\n  inserted 7\nclient 2\ntx 1 fault 0 stopped 17\n",
    ),
    (
        18,
        "client 1\ntx 1 fault 0 stopped 18\n  inserted 1\n  inserted 7\nclient 2\ntx 1 fault 0 stopped 18\n",
    ),
    (
        19,
        "client 1\ntx 1 fault 0 stopped 19\n  inserted 1\n  inserted 7\nclient 2\ntx 1 fault 0 stopped 19\n",
    ),
    (
        20,
        "client 1\ntx 1 fault 0 stopped 20\n  inserted 1\n  inserted 7\nclient 2\ntx 1 fault 0 stopped 20\n",
    ),
    (
        21,
        "client 1\ntx 1 fault 0 stopped 21\n  inserted 1\n  inserted 7\nclient 2\ntx 1 fault 0 stopped 21\n",
    ),
    (
        22,
        "client 1\ntx 1 fault 0 stopped 22\n  inserted 1\n  inserted 7\nclient 2\ntx 1 fault 0 stopped 22\n",
    ),
];

// The same of one page, 17 to 20, and then of the other client's, 21 to 24.
static BOTH_TEXTS: [(u64, &str); 8] = [
    (
        17,
        "client 1\ntx 1 fault 0 stopped 17\n  inserted 1\nclient 2\ntx 1 fault 0 stopped 17\n",
    ),
    (
        18,
        "client 1\ntx 1 fault 0 stopped 18\n  inserted 1\nclient 2\ntx 1 fault 0 stopped 18\n",
    ),
    (
        19,
        "client 1\ntx 1 fault 0 stopped 19\n  inserted 1\nclient 2\ntx 1 fault 0 stopped 19\n",
    ),
    (
        20,
        "client 1\ntx 1 fault 0 stopped 20\n  inserted 1\nclient 2\ntx 1 fault 0 stopped 20\n",
    ),
    (
        21,
        "client 1\ntx 1 commit 1\n  inserted 1\nclient 2\ntx 1 fault 1 stopped 21\n  inserted 7\n",
    ),
    (
        22,
        "client 1\ntx 1 commit 1\n  inserted 1\nclient 2\ntx 1 fault 1 stopped 22\n  inserted 7\n",
    ),
    (
        23,
        "client 1\ntx 1 commit 1\n  inserted 1\nclient 2\ntx 1 fault 1 stopped 23\n  inserted 7\n",
    ),
    (
        24,
        "client 1\ntx 1 commit 1\n  inserted 1\nclient 2\ntx 1 fault 1 stopped 24\n  inserted 7\n",
    ),
];

// Whether a run that failed is printed so, and leaves this.
fn has_failed<R: Threads + Wait + Sync>(
    rt: &R,
    alloc: Global,
    ended: &Ended,
    text: &str,
    ops: u64,
    left: &Left,
) -> Result<bool, AllocError> {
    let printed = is_ended(ended, 3, text, ops);
    let left = leaves(rt, alloc, &ended.disk, ALL, left)?;
    Ok(printed && left)
}

// Whether a run of these scripts, of which an operation fails, made all the same or not, is printed so and
// leaves this.
fn fails<R: Threads + Wait + Sync>(
    rt: &R,
    alloc: Global,
    scripts: &[Script],
    op: u64,
    made: bool,
    text: &str,
    left: &Left,
) -> Result<bool, AllocError> {
    let ended = failed_run(rt, alloc, scripts, op, made)?;
    has_failed(rt, alloc, &ended, text, whole_ops(op, made), left)
}

// A journal that is not made.
#[test]
fn early(rt: HostRuntime) -> Result<(), Fail> {
    for op in 1..=16u64 {
        for made in [false, true] {
            let holds = fails(&rt, rt.alloc(), &PAIR, op, made, "fault disk\n", &NEITHER)?;
            expect(&rt, "journals", op, holds);
        }
    }
    Ok(())
}

// The rows are there only where the journal was cut.
fn pair_left(op: u64, made: bool) -> &'static Left {
    if whole_ops(op, made) < 22 {
        &NEITHER
    } else {
        &BOTH
    }
}

#[test]
fn pair(rt: HostRuntime) -> Result<(), Fail> {
    for (op, text) in &PAIR_TEXTS {
        for made in [false, true] {
            let left = pair_left(*op, made);
            let holds = fails(&rt, rt.alloc(), &PAIR, *op, made, *text, left)?;
            expect(&rt, "pair", *op, holds);
        }
    }
    Ok(())
}

fn both_left(op: u64, made: bool) -> &'static Left {
    let ops = whole_ops(op, made);
    left_by(20 <= ops, 24 <= ops)
}

#[test]
fn both(rt: HostRuntime) -> Result<(), Fail> {
    for (op, text) in &BOTH_TEXTS {
        for made in [false, true] {
            let left = both_left(*op, made);
            let holds = fails(&rt, rt.alloc(), &BOTH_SCRIPTS, *op, made, *text, left)?;
            expect(&rt, "both", *op, holds);
        }
    }
    Ok(())
}

// A disk of which this reading call fails.
fn misread_disk(alloc: Global, read: u64) -> Result<MemDisk, AllocError>
    ensures { IfOk result (λ d. is_attached d ≡ false) }
{
    let faults = read_fails(alloc, read)?;
    two_disk(alloc, faults)
}

// Whether a client is among those that committed.
fn has_committed(ended: &Ended, client: u32) -> bool {
    let order = ended.finished.order.as_slice();
    order.iter().any(|commit| commit.client == client)
}

// Whether the status tells of a failure: there may be no reading call of this number past the twentieth.
fn tells_failure(ended: &Ended, read: u64) -> bool {
    match ended.finished.status {
        0 => ended.disk.faults() == 0 && 20 < read,
        3 => ended.disk.faults() == 1,
        _ => false,
    }
}

fn misread_run<R: Threads + Wait + Sync>(
    rt: &R,
    alloc: Global,
    read: u64,
) -> Result<Ended, AllocError> {
    let disk = misread_disk(alloc, read)?;
    run_of(rt, alloc, &WORDS, &BOTH_SCRIPTS, disk)
}

// Whether a run tells that a reading call failed, and leaves the rows of the commits.
fn has_misread<R: Threads + Wait + Sync>(
    rt: &R,
    alloc: Global,
    ended: &Ended,
    read: u64,
) -> Result<bool, AllocError> {
    let told = tells_failure(ended, read);
    let left = left_by(has_committed(ended, 1), has_committed(ended, 2));
    let same = leaves(rt, alloc, &ended.disk, ALL, left)?;
    Ok(told && same)
}

// A reading call that fails: the rows are those of the commits.
fn fails_to_read<R: Threads + Wait + Sync>(
    rt: &R,
    alloc: Global,
    read: u64,
) -> Result<bool, AllocError> {
    let ended = misread_run(rt, alloc, read)?;
    has_misread(rt, alloc, &ended, read)
}

#[test]
fn readings(rt: HostRuntime) -> Result<(), Fail> {
    for read in 1..=120u64 {
        let holds = fails_to_read(&rt, rt.alloc(), read)?;
        expect(&rt, "readings", read, holds);
    }
    Ok(())
}
