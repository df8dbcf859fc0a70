//! Free lists of files in memory that are put back in stock form: the bytes, stops and failures.

ghost use Rattle.std.specs.Prelude.{◌≡◌, false, true, IfOk};
ghost use Rattle.spe_disk.specs.Memory.{is_attached};

use super::files::{Patch, disk_of, expect, file_of, lay_all};
use spe_convert::{ConvertFault, release};
use spe_disk::{Disk, FileNo, MemDisk, stopped_at};
use spe_model::{RecoverFault, Recovered};
use spe_recover::{Want, recover};
use std::alloc::{AllocError, Global};
use std::process::Abort;
use std::test::Fail;

// A database of so many pages in server form, how many free pages it has, and what is other bytes once
// they are in stock form.
struct Case {
    name: &'static str,
    pages: usize,
    before: &'static [Patch],
    free: u32,
    after: &'static [Patch],
}

static CASES: [Case; 2] = [
    Case {
        name: "two lists without leaves",
        pages: 5,
        before: &[
            (32, b"\x00\x00\x00\x03"),
            (1024, b"\x00\x00\x00\x02\x00\x00\x00\x04\x00\x00\x00\x05"),
        ],
        free: 3,
        after: &[
            (
                24,
                b"\x00\x00\x00\x04\x00\x00\x00\x05\x00\x00\x00\x03\x00\x00\x00\x03",
            ),
            (92, b"\x00\x00\x00\x04"),
            (
                1024,
                b"\x00\x00\x00\x00\x00\x00\x00\x02\x00\x00\x00\x04\x00\x00\x00\x05",
            ),
        ],
    },
    Case {
        name: "trunks and leaves",
        pages: 9,
        before: &[
            (32, b"\x00\x00\x00\x04"),
            (1536, b"\x00\x00\x00\x02\x00\x00\x00\x05\x00\x00\x00\x06"),
            (
                2048,
                b"\x00\x00\x00\x00\x00\x00\x00\x02\x00\x00\x00\x08\x00\x00\x00\x07",
            ),
            (2560, b"\x00\x00\x00\x09"),
            (4096, b"\x00\x00\x00\x00\x00\x00\x00\x01\x00\x00\x00\x02"),
        ],
        free: 7,
        after: &[
            (
                24,
                b"\x00\x00\x00\x04\x00\x00\x00\x09\x00\x00\x00\x02\x00\x00\x00\x07",
            ),
            (92, b"\x00\x00\x00\x04"),
            (
                512,
                b"\x00\x00\x00\x00\x00\x00\x00\x06\x00\x00\x00\x04\x00\x00\x00\x05\x00\x00\x00\x06\x00\x00\x00\x07\x00\x00\x00\x08\x00\x00\x00\x09",
            ),
        ],
    },
];

fn before(alloc: Global, case: &Case) -> Result<Vec<u8>, AllocError> {
    file_of(alloc, case.pages, case.before)
}

fn after(alloc: Global, case: &Case) -> Result<Vec<u8>, AllocError> {
    let mut file = before(alloc, case)?;
    lay_all(&mut file, case.after);
    Ok(file)
}

// The file before, or after.
fn file_for(alloc: Global, case: &Case, new: bool) -> Result<Vec<u8>, AllocError> {
    if new {
        after(alloc, case)
    } else {
        before(alloc, case)
    }
}

// Attaches a disk and recovers it.
fn recovered(alloc: Global, disk: &mut MemDisk) -> Result<Recovered, RecoverFault>
    requires { is_attached disk.old ≡ false }
    ensures { is_attached disk.new ≡ true }
{
    match disk.attach("lists.db") {
        Ok(_) => recover(alloc, disk, Want::Any),
        Err(_) => Err(RecoverFault::Disk),
    }
}

fn released(alloc: Global, disk: &mut MemDisk) -> Result<u32, ConvertFault>
    requires { is_attached disk.old ≡ false }
    ensures { is_attached disk.new ≡ true }
{
    match disk.attach("lists.db") {
        Ok(_) => match recover(alloc, disk, Want::Any) {
            Ok(found) => release(alloc, disk, &found),
            Err(_) => Err(ConvertFault::Memory),
        },
        Err(_) => Err(ConvertFault::Memory),
    }
}

// The file of a disk has just these bytes.
pub fn has_file(alloc: Global, disk: &mut MemDisk, wanted: &[u8]) -> Result<bool, AllocError>
    requires { is_attached disk.old ≡ true }
{
    let mut found = vec![in alloc; 0u8; wanted.len()]?;
    let read = disk.read_at(FileNo::Database, 0, &mut found);
    Ok(read.is_ok() && found.as_slice() == wanted)
}

// Whether a disk is recovered with this file.
fn comes_back(alloc: Global, disk: &mut MemDisk, wanted: &[u8]) -> Result<bool, AllocError>
    requires { is_attached disk.old ≡ false }
{
    let found = recovered(alloc, disk).is_ok();
    let same = has_file(alloc, disk, wanted)?;
    Ok(found && same)
}

// The same of what it holds after so many operations and so many bytes of the next one.
pub fn leaves(
    alloc: Global,
    disk: &MemDisk,
    ops: usize,
    bytes: usize,
    wanted: &[u8],
) -> Result<bool, AllocError> {
    let mut left = stopped_at(alloc, disk, ops, bytes)?;
    comes_back(alloc, &mut left, wanted)
}

// Whether that is the old file of a case, or the new one.
fn holds(
    alloc: Global,
    disk: &MemDisk,
    case: &Case,
    stop: (usize, usize),
    new: bool,
) -> Result<bool, AllocError> {
    let wanted = file_for(alloc, case, new)?;
    leaves(alloc, disk, stop.0, stop.1, &wanted)
}

// After so many of the operations all but one of the bytes of the next are these: sixteen journals are
// made, then the head is written, two records, page 1 but for 24 bytes and a trunk, and the journal is cut.
static STOPS: [(usize, usize); 8] = [
    (15, 0),
    (16, 511),
    (17, 519),
    (18, 519),
    (19, 487),
    (20, 511),
    (21, 0),
    (22, 0),
];

fn expect_stops(
    rt: &impl Abort,
    alloc: Global,
    case: &Case,
    disk: &MemDisk,
) -> Result<(), AllocError> {
    for (ops, last) in &STOPS {
        for bytes in [0, 1, *last] {
            let right = holds(alloc, disk, case, (*ops, bytes), *ops == 22)?;
            expect(rt, case.name, *ops as u64, right);
        }
    }
    Ok(())
}

// A disk with the file of a case, of which this operation fails.
fn disk_for(alloc: Global, case: &Case, op: u64, made: bool) -> Result<MemDisk, AllocError>
    ensures { IfOk result (λ d. is_attached d ≡ false) }
{
    let file = before(alloc, case)?;
    disk_of(alloc, &file, op, made)
}

// Whether so many pages are released, by so many operations as the stops are over.
fn releases(alloc: Global, disk: &mut MemDisk, free: u32) -> bool
    requires { is_attached disk.old ≡ false }
{
    let answer = released(alloc, disk);
    answer == Ok(free) && disk.ops() == 22
}

fn expect_case(rt: &impl Abort, alloc: Global, case: &Case) -> Result<(), AllocError> {
    let mut disk = disk_for(alloc, case, 0, false)?;
    let right = releases(alloc, &mut disk, case.free);
    expect(rt, case.name, 0, right);
    expect_stops(rt, alloc, case, &disk)
}

#[test]
fn released_files(rt: HostRuntime) -> Result<(), Fail> {
    for case in &CASES {
        expect_case(&rt, rt.alloc(), case)?;
    }
    Ok(())
}

// An operation that fails, made and not made: only the cut that was made turns the pages.
fn fails(alloc: Global, case: &Case, op: u64, made: bool) -> Result<bool, AllocError> {
    let mut disk = disk_for(alloc, case, op, made)?;
    let answer = released(alloc, &mut disk);
    let back = holds(alloc, &disk, case, (64, 0), made && op == 22)?;
    Ok(answer == Err(ConvertFault::Disk) && back)
}

fn expect_failures(rt: &impl Abort, alloc: Global, case: &Case) -> Result<(), AllocError> {
    for op in 1..=22u64 {
        for made in [false, true] {
            let right = fails(alloc, case, op, made)?;
            expect(rt, case.name, op, right);
        }
    }
    Ok(())
}

#[test]
fn failures(rt: HostRuntime) -> Result<(), Fail> {
    for case in &CASES {
        expect_failures(&rt, rt.alloc(), case)?;
    }
    Ok(())
}
