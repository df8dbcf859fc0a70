//! Free lists that the command `release` puts back in stock form: what is printed, the bytes, stops,
//! refusals and failures.

use super::files::{
    PEOPLE, PEOPLE_PREPARED, PEOPLE_RELEASED, PEOPLE_ROWS, Patch, TWO, TWO_RELEASED, file_of, lay,
};
use super::run::{Ended, disk_of, ended_of, expect, holds, is_ended, prints};
use spe_disk::MemDisk;
use std::alloc::{AllocError, Global};
use std::process::Abort;
use std::sync::Wait;
use std::test::Fail;
use std::thread::Threads;

const WORDS: &[&str] = &["release", "people.db"];

// The table `p` in server form.
fn prepared(alloc: Global, later: &[Patch]) -> Result<Vec<u8>, AllocError> {
    let mut file = file_of(alloc, 2560, &PEOPLE, &PEOPLE_PREPARED)?;
    lay(&mut file, later);
    Ok(file)
}

fn released<R: Threads + Wait + Sync>(
    rt: &R,
    alloc: Global,
    file: &[u8],
    op: u64,
    made: bool,
) -> Result<Ended, AllocError> {
    let disk = disk_of(alloc, file, op, made)?;
    ended_of(rt, alloc, WORDS, disk)
}

fn two_released<R: Threads + Wait + Sync>(rt: &R, alloc: Global) -> Result<Ended, AllocError> {
    let file = file_of(alloc, 3072, &TWO, &[])?;
    released(rt, alloc, &file, 0, false)
}

fn holds_two(alloc: Global, disk: &MemDisk) -> Result<bool, AllocError> {
    let wanted = file_of(alloc, 3072, &TWO, &TWO_RELEASED)?;
    holds(alloc, disk, &wanted)
}

// Two empty tables: 16 journals are made, then the head is written, two records, page 1 but for 24 bytes,
// the trunk, and the journal is cut.
#[test]
fn empty_tables(rt: HostRuntime) -> Result<(), Fail> {
    let ended = two_released(&rt, rt.alloc())?;
    let printed = is_ended(&ended, 0, "released free 3 pages 6\n", 22);
    let held = holds_two(rt.alloc(), &ended.disk)?;
    expect(&rt, "empty tables", 0, printed && held);
    Ok(())
}

// Whether `rows` prints the same, wherever a stop cuts what was done.
fn same_rows<R: Threads + Wait + Sync>(
    rt: &R,
    alloc: Global,
    disk: &MemDisk,
    ops: usize,
) -> Result<bool, AllocError> {
    let words = &["rows", "people.db", "p"];
    let whole = prints(rt, alloc, words, disk, (ops, 0), (0, PEOPLE_ROWS))?;
    let torn = prints(rt, alloc, words, disk, (ops, 7), (0, PEOPLE_ROWS))?;
    Ok(whole && torn)
}

fn expect_stops<R: Threads + Wait + Sync + Abort>(
    rt: &R,
    alloc: Global,
    disk: &MemDisk,
) -> Result<(), AllocError> {
    for ops in 14..=22u64 {
        let same = same_rows(rt, alloc, disk, ops as usize)?;
        expect(rt, "stopped", ops, same);
    }
    Ok(())
}

fn expect_again<R: Threads + Wait + Sync + Abort>(
    rt: &R,
    alloc: Global,
    disk: &MemDisk,
) -> Result<(), AllocError> {
    let check = &["check", "people.db"];
    let sound = (0, "ok pages 5 tables 1 rows 3 free 3\n");
    let checked = prints(rt, alloc, check, disk, (22, 0), sound)?;
    let again = prints(rt, alloc, WORDS, disk, (22, 0), NOT_PREPARED)?;
    expect(rt, "again", 22, checked && again);
    Ok(())
}

const NOT_PREPARED: (u8, &str) = (2, "refused not-prepared\n");

// What a run over the table `p` with these bytes leaves, of which this operation fails.
fn people_released<R: Threads + Wait + Sync>(
    rt: &R,
    alloc: Global,
    patches: &[Patch],
    op: u64,
    made: bool,
) -> Result<Ended, AllocError> {
    let file = prepared(alloc, patches)?;
    released(rt, alloc, &file, op, made)
}

fn holds_people(alloc: Global, disk: &MemDisk) -> Result<bool, AllocError> {
    let wanted = prepared(alloc, &PEOPLE_RELEASED)?;
    holds(alloc, disk, &wanted)
}

fn expect_people<R: Threads + Wait + Sync + Abort>(
    rt: &R,
    alloc: Global,
    ended: &Ended,
) -> Result<(), AllocError> {
    let printed = is_ended(ended, 0, "released free 3 pages 5\n", 22);
    let held = holds_people(alloc, &ended.disk)?;
    expect(rt, "people", 0, printed && held);
    expect_stops(rt, alloc, &ended.disk)?;
    expect_again(rt, alloc, &ended.disk)
}

#[test]
fn people(rt: HostRuntime) -> Result<(), Fail> {
    let ended = people_released(&rt, rt.alloc(), &[], 0, false)?;
    expect_people(&rt, rt.alloc(), &ended)?;
    Ok(())
}

// Bytes laid over the table `p` in server form, and what is printed. A file in stock form comes before a
// damaged one.
static REFUSED: [(&[Patch], &str); 9] = [
    (&[(35, b"\x00")], "refused not-prepared\n"),
    (&[(39, b"\x01")], "refused not-prepared\n"),
    (&[(31, b"\x00")], "refused not-prepared\n"),
    (&[(95, b"\x02")], "refused not-prepared\n"),
    (&[(39, b"\x01"), (512, b"\x00")], "refused not-prepared\n"),
    (&[(512, b"\x00")], "refused corrupt 2\n"),
    (&[(1027, b"\x11")], "refused corrupt 3\n"),
    (&[(1031, b"\x05")], "refused corrupt 5\n"),
    (&[(31, b"\x06")], "refused short-file 6 2560\n"),
];

#[test]
fn refused(rt: HostRuntime) -> Result<(), Fail> {
    for (patches, text) in &REFUSED {
        let ended = people_released(&rt, rt.alloc(), *patches, 0, false)?;
        expect(&rt, *text, 0, is_ended(&ended, 2, *text, 0));
    }
    Ok(())
}

fn stock_released<R: Threads + Wait + Sync>(rt: &R, alloc: Global) -> Result<Ended, AllocError> {
    let file = file_of(alloc, 1024, &PEOPLE, &[])?;
    released(rt, alloc, &file, 0, false)
}

#[test]
fn stock(rt: HostRuntime) -> Result<(), Fail> {
    let ended = stock_released(&rt, rt.alloc())?;
    let refused = is_ended(&ended, NOT_PREPARED.0, NOT_PREPARED.1, 0);
    expect(&rt, "stock", 0, refused);
    Ok(())
}

// An operation that fails, made all the same or not.
fn fails<R: Threads + Wait + Sync>(
    rt: &R,
    alloc: Global,
    op: u64,
    made: bool,
) -> Result<bool, AllocError> {
    let ended = people_released(rt, alloc, &[], op, made)?;
    let failed = is_ended(&ended, 3, "fault disk\n", ended.disk.ops());
    let same = same_rows(rt, alloc, &ended.disk, 64)?;
    Ok(failed && same)
}

#[test]
fn failures(rt: HostRuntime) -> Result<(), Fail> {
    for op in 1..=22u64 {
        for made in [false, true] {
            let holds = fails(&rt, rt.alloc(), op, made)?;
            expect(&rt, "failure", op, holds);
        }
    }
    Ok(())
}
