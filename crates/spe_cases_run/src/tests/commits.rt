//! Transactions that are committed: what is printed, how many operations that takes, and what a stop leaves
//! of them.

use super::run::{
    BOTH_SCRIPTS, BOTH_TEXT, Ended, FIRST, Left, NEITHER, expect, is_ended, leaves, left_by,
    no_faults, run_of, two_disk,
};
use spe_disk::MemDisk;
use spe_model::Commit;
use std::alloc::{AllocError, Global};
use std::process::Abort;
use std::sync::Wait;
use std::test::Fail;
use std::thread::Threads;

static BOTH_WORDS: [&str; 6] = ["run", "b.db", "s1", "s2", "--workers", "1"];

static BOTH_ORDER: [Commit; 2] = [
    Commit {
        client: 1,
        tx: 1,
        number: 1,
        ops: 20,
    },
    Commit {
        client: 2,
        tx: 1,
        number: 2,
        ops: 24,
    },
];

fn both_run<R: Threads + Wait + Sync>(rt: &R, alloc: Global) -> Result<Ended, AllocError> {
    let disk = two_disk(alloc, no_faults(alloc))?;
    run_of(rt, alloc, &BOTH_WORDS, &BOTH_SCRIPTS, disk)
}

fn has_both(ended: &Ended) -> bool {
    let ordered = ended.finished.order.as_slice() == BOTH_ORDER.as_slice();
    is_ended(ended, 0, BOTH_TEXT, 24) && ordered
}

// 16 journals are made; then each client writes the head, a record, its page, and cuts its journal.
#[test]
fn both(rt: HostRuntime) -> Result<(), Fail> {
    let ended = both_run(&rt, rt.alloc())?;
    expect(&rt, "both", 0, has_both(&ended));
    Ok(())
}

// Whether the rows are those of the commits within a stop, at which so many bytes of the next operation are
// written: one or none, or all but one of a head and a page, or of a record.
fn stops<R: Threads + Wait + Sync>(
    rt: &R,
    alloc: Global,
    disk: &MemDisk,
    ops: u64,
    bytes: usize,
) -> Result<bool, AllocError> {
    let left = left_by(20 <= ops, 24 <= ops);
    leaves(rt, alloc, disk, (ops as usize, bytes), left)
}

fn expect_stops<R: Threads + Wait + Sync + Abort>(
    rt: &R,
    alloc: Global,
    disk: &MemDisk,
    bytes: usize,
) -> Result<(), AllocError> {
    for ops in 0..=24u64 {
        let holds = stops(rt, alloc, disk, ops, bytes)?;
        expect(rt, "stopped", ops, holds);
    }
    Ok(())
}

fn expect_all_stops<R: Threads + Wait + Sync + Abort>(
    rt: &R,
    alloc: Global,
    disk: &MemDisk,
) -> Result<(), AllocError> {
    for bytes in [0, 1, 511, 519] {
        expect_stops(rt, alloc, disk, bytes)?;
    }
    Ok(())
}

fn expect_stopped<R: Threads + Wait + Sync + Abort>(
    rt: &R,
    alloc: Global,
) -> Result<(), AllocError> {
    let ended = both_run(rt, alloc)?;
    expect_all_stops(rt, alloc, &ended.disk)
}

#[test]
fn stopped(rt: HostRuntime) -> Result<(), Fail> {
    expect_stopped(&rt, rt.alloc())?;
    Ok(())
}

// Stops of the first client alone: within the record, the page and the head, and before and after the cut.
static STOPS: [(usize, usize, bool); 5] = [
    (17, 300, false),
    (18, 10, false),
    (19, 0, false),
    (16, 200, false),
    (20, 0, true),
];

fn first_run<R: Threads + Wait + Sync>(rt: &R, alloc: Global) -> Result<Ended, AllocError> {
    let disk = two_disk(alloc, no_faults(alloc))?;
    run_of(rt, alloc, &["run", "b.db", "s1"], &BOTH_SCRIPTS, disk)
}

fn left_of(there: bool) -> &'static Left {
    if there { &FIRST } else { &NEITHER }
}

fn expect_first<R: Threads + Wait + Sync + Abort>(
    rt: &R,
    alloc: Global,
    ended: &Ended,
) -> Result<(), AllocError> {
    let text = "client 1\ntx 1 commit 1\n  inserted 1\n";
    expect(rt, "first", 0, is_ended(ended, 0, text, 20));
    for (ops, bytes, there) in &STOPS {
        let holds = leaves(rt, alloc, &ended.disk, (*ops, *bytes), left_of(*there))?;
        expect(rt, "first", *ops as u64, holds);
    }
    Ok(())
}

fn expect_one<R: Threads + Wait + Sync + Abort>(rt: &R, alloc: Global) -> Result<(), AllocError> {
    let ended = first_run(rt, alloc)?;
    expect_first(rt, alloc, &ended)
}

#[test]
fn first(rt: HostRuntime) -> Result<(), Fail> {
    expect_one(&rt, rt.alloc())?;
    Ok(())
}
