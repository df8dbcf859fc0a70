//! Free lists that the command `prepare` puts in server form: what is printed, the bytes, stops, refusals
//! and failures. That a file has no room is not tried, as it would take a file of 2^30 bytes.

ghost use Rattle.std.specs.Prelude.{◌≡◌, false, IfOk};
ghost use Rattle.spe_disk.specs.Memory.{is_attached};

use super::files::{PEOPLE, PEOPLE_PREPARED, PEOPLE_ROWS, Patch, file_of, lay};
use super::run::{Ended, disk_of, disk_reading, ended_of, expect, holds, is_ended, prints};
use spe_disk::MemDisk;
use std::alloc::{AllocError, Global};
use std::process::Abort;
use std::sync::Wait;
use std::test::Fail;
use std::thread::Threads;

// The table `p` in stock form with other bytes, the number of lists that is asked for, how many operations
// that takes, what is printed, and what is other then. `check`, which does not count the node page as free,
// and `release` follow.
struct Case {
    before: &'static [Patch],
    length: usize,
    lists: &'static str,
    ops: u64,
    text: &'static str,
    after: &'static [Patch],
    grown: usize,
    checked: &'static str,
    released: &'static str,
}

static CASES: [Case; 5] = [
    // The page count counts.
    Case {
        before: &[],
        length: 1024,
        lists: "2",
        ops: 23,
        text: "prepared lists 2 pages 5\n",
        after: &[
            (24, b"\x00\x00\x00\x03\x00\x00\x00\x05\x00\x00\x00\x03"),
            (92, b"\x00\x00\x00\x03"),
            (1024, b"\x00\x00\x00\x02\x00\x00\x00\x04\x00\x00\x00\x05"),
        ],
        grown: 2560,
        checked: "ok pages 5 tables 1 rows 3 free 2\n",
        released: "released free 3 pages 5\n",
    },
    // It does not, and is made to by a transaction of its own.
    Case {
        before: &[(95, b"\x01")],
        length: 1024,
        lists: "2",
        ops: 27,
        text: "prepared lists 2 pages 5\n",
        after: &[
            (24, b"\x00\x00\x00\x03\x00\x00\x00\x05\x00\x00\x00\x03"),
            (92, b"\x00\x00\x00\x03"),
            (1024, b"\x00\x00\x00\x02\x00\x00\x00\x04\x00\x00\x00\x05"),
        ],
        grown: 2560,
        checked: "ok pages 5 tables 1 rows 3 free 2\n",
        released: "released free 3 pages 5\n",
    },
    Case {
        before: &[],
        length: 1024,
        lists: "1",
        ops: 22,
        text: "prepared lists 1 pages 4\n",
        after: &[
            (24, b"\x00\x00\x00\x03\x00\x00\x00\x04\x00\x00\x00\x03"),
            (92, b"\x00\x00\x00\x03"),
            (1024, b"\x00\x00\x00\x01\x00\x00\x00\x04"),
        ],
        grown: 2048,
        checked: "ok pages 4 tables 1 rows 3 free 1\n",
        released: "released free 2 pages 4\n",
    },
    Case {
        before: &[],
        length: 1024,
        lists: "16",
        ops: 37,
        text: "prepared lists 16 pages 19\n",
        after: &[
            (24, b"\x00\x00\x00\x03\x00\x00\x00\x13\x00\x00\x00\x03"),
            (92, b"\x00\x00\x00\x03"),
            (
                1024,
                b"\x00\x00\x00\x10\x00\x00\x00\x04\x00\x00\x00\x05\x00\x00\x00\x06\x00\x00\x00\x07\x00\x00\x00\x08\x00\x00\x00\x09\x00\x00\x00\x0a\x00\x00\x00\x0b\x00\x00\x00\x0c\x00\x00\x00\x0d\x00\x00\x00\x0e\x00\x00\x00\x0f\x00\x00\x00\x10\x00\x00\x00\x11\x00\x00\x00\x12\x00\x00\x00\x13",
            ),
        ],
        grown: 9728,
        checked: "ok pages 19 tables 1 rows 3 free 16\n",
        released: "released free 17 pages 19\n",
    },
    // The trunks 5 and 3 with the leaves 9, 4 and 6, 7, 8.
    Case {
        before: &[
            (
                24,
                b"\x00\x00\x00\x03\x00\x00\x00\x09\x00\x00\x00\x05\x00\x00\x00\x07",
            ),
            (92, b"\x00\x00\x00\x03"),
            (
                1024,
                b"\x00\x00\x00\x00\x00\x00\x00\x03\x00\x00\x00\x06\x00\x00\x00\x07\x00\x00\x00\x08",
            ),
            (
                2048,
                b"\x00\x00\x00\x03\x00\x00\x00\x02\x00\x00\x00\x09\x00\x00\x00\x04",
            ),
        ],
        length: 4608,
        lists: "2",
        ops: 26,
        text: "prepared lists 2 pages 9\n",
        after: &[
            (
                24,
                b"\x00\x00\x00\x04\x00\x00\x00\x09\x00\x00\x00\x03\x00\x00\x00\x00",
            ),
            (92, b"\x00\x00\x00\x04"),
            (
                1024,
                b"\x00\x00\x00\x02\x00\x00\x00\x04\x00\x00\x00\x05\x00\x00\x00\x00\x00\x00\x00\x00",
            ),
            (
                1536,
                b"\x00\x00\x00\x00\x00\x00\x00\x02\x00\x00\x00\x06\x00\x00\x00\x08",
            ),
            (
                2048,
                b"\x00\x00\x00\x00\x00\x00\x00\x02\x00\x00\x00\x07\x00\x00\x00\x09",
            ),
        ],
        grown: 4608,
        checked: "ok pages 9 tables 1 rows 3 free 6\n",
        released: "released free 7 pages 9\n",
    },
];

fn prepared<R: Threads + Wait + Sync>(
    rt: &R,
    alloc: Global,
    case: &Case,
) -> Result<Ended, AllocError> {
    let file = file_of(alloc, case.length, &PEOPLE, case.before)?;
    let disk = disk_of(alloc, &file, 0, false)?;
    ended_of(rt, alloc, &["prepare", "people.db", case.lists], disk)
}

// Whether `rows` prints the same, where all is made up to an operation, and so many bytes of the next.
fn same_rows<R: Threads + Wait + Sync>(
    rt: &R,
    alloc: Global,
    disk: &MemDisk,
    stop: (usize, usize),
) -> Result<bool, AllocError> {
    let words = &["rows", "people.db", "p"];
    prints(rt, alloc, words, disk, stop, (0, PEOPLE_ROWS))
}

// None, one and all but one bytes of page 1, of a page and of a record.
const BYTES: [usize; 5] = [0, 1, 487, 511, 519];

fn expect_stops<R: Threads + Wait + Sync + Abort>(
    rt: &R,
    alloc: Global,
    case: &Case,
    disk: &MemDisk,
) -> Result<(), AllocError> {
    for ops in 14..=case.ops {
        for bytes in &BYTES {
            let same = same_rows(rt, alloc, disk, (ops as usize, *bytes))?;
            expect(rt, case.text, ops, same);
        }
    }
    Ok(())
}

// What is printed of the file at last.
fn stands<R: Threads + Wait + Sync>(
    rt: &R,
    alloc: Global,
    case: &Case,
    disk: &MemDisk,
) -> Result<bool, AllocError> {
    let check = &["check", "people.db"];
    let again = &["prepare", "people.db", case.lists];
    let release = &["release", "people.db"];
    let checked = prints(rt, alloc, check, disk, (64, 0), (0, case.checked))?;
    let refused = prints(rt, alloc, again, disk, (64, 0), (2, "refused prepared\n"))?;
    let released = prints(rt, alloc, release, disk, (64, 0), (0, case.released))?;
    Ok(checked && refused && released)
}

// Whether a disk holds the file of a case at last.
fn holds_case(alloc: Global, case: &Case, disk: &MemDisk) -> Result<bool, AllocError> {
    let mut wanted = file_of(alloc, case.grown, &PEOPLE, case.before)?;
    lay(&mut wanted, case.after);
    holds(alloc, disk, &wanted)
}

fn expect_ended<R: Threads + Wait + Sync + Abort>(
    rt: &R,
    alloc: Global,
    case: &Case,
    ended: &Ended,
) -> Result<(), AllocError> {
    let printed = is_ended(ended, 0, case.text, case.ops);
    let held = holds_case(alloc, case, &ended.disk)?;
    let right = stands(rt, alloc, case, &ended.disk)?;
    expect(rt, case.text, 0, printed && held && right);
    expect_stops(rt, alloc, case, &ended.disk)
}

fn expect_case<R: Threads + Wait + Sync + Abort>(
    rt: &R,
    alloc: Global,
    case: &Case,
) -> Result<(), AllocError> {
    let ended = prepared(rt, alloc, case)?;
    expect_ended(rt, alloc, case, &ended)
}

#[test]
fn prepared_files(rt: HostRuntime) -> Result<(), Fail> {
    for case in &CASES {
        expect_case(&rt, rt.alloc(), case)?;
    }
    Ok(())
}

// Bytes laid over the table `p` in server form, and what is printed. Damage comes before the form.
static REFUSED: [(&[Patch], &str); 5] = [
    (&[], "refused prepared\n"),
    (&[(95, b"\x02")], "refused prepared\n"),
    (&[(512, b"\x00")], "refused corrupt 2\n"),
    (&[(1027, b"\x11")], "refused corrupt 3\n"),
    (&[(31, b"\x06")], "refused short-file 6 2560\n"),
];

const WORDS: &[&str] = &["prepare", "people.db", "2"];

// A disk with the table `p` in server form and these bytes.
fn served_disk(alloc: Global, patches: &[Patch]) -> Result<MemDisk, AllocError>
    ensures { IfOk result (λ d. is_attached d ≡ false) }
{
    let mut file = file_of(alloc, 2560, &PEOPLE, &PEOPLE_PREPARED)?;
    lay(&mut file, patches);
    disk_of(alloc, &file, 0, false)
}

fn refuses<R: Threads + Wait + Sync>(
    rt: &R,
    alloc: Global,
    patches: &[Patch],
    text: &str,
) -> Result<bool, AllocError> {
    let disk = served_disk(alloc, patches)?;
    let ended = ended_of(rt, alloc, WORDS, disk)?;
    Ok(is_ended(&ended, 2, text, 0))
}

#[test]
fn refused(rt: HostRuntime) -> Result<(), Fail> {
    for (patches, text) in &REFUSED {
        let holds = refuses(&rt, rt.alloc(), *patches, *text)?;
        expect(&rt, *text, 0, holds);
    }
    Ok(())
}

// The table `p` with a page count that does not count.
fn uncounted(alloc: Global) -> Result<Vec<u8>, AllocError> {
    file_of(alloc, 1024, &PEOPLE, &[(95, b"\x01")])
}

// Whether a run ended with a fault of the disk, and `rows` prints the same.
fn has_failed<R: Threads + Wait + Sync>(
    rt: &R,
    alloc: Global,
    ended: &Ended,
) -> Result<bool, AllocError> {
    let failed = is_ended(ended, 3, "fault disk\n", ended.disk.ops());
    let same = same_rows(rt, alloc, &ended.disk, (64, 0))?;
    Ok(failed && same)
}

// A disk with that file, of which this operation fails.
fn failing_disk(alloc: Global, op: u64, made: bool) -> Result<MemDisk, AllocError>
    ensures { IfOk result (λ d. is_attached d ≡ false) }
{
    let file = uncounted(alloc)?;
    disk_of(alloc, &file, op, made)
}

// An operation that fails, made all the same or not.
fn fails<R: Threads + Wait + Sync>(
    rt: &R,
    alloc: Global,
    op: u64,
    made: bool,
) -> Result<bool, AllocError> {
    let disk = failing_disk(alloc, op, made)?;
    let ended = ended_of(rt, alloc, WORDS, disk)?;
    has_failed(rt, alloc, &ended)
}

#[test]
fn failures(rt: HostRuntime) -> Result<(), Fail> {
    for op in 1..=27u64 {
        for made in [false, true] {
            let holds = fails(&rt, rt.alloc(), op, made)?;
            expect(&rt, "failure", op, holds);
        }
    }
    Ok(())
}

// A disk with that file, of which this reading call fails.
fn misread_disk(alloc: Global, read: u64) -> Result<MemDisk, AllocError>
    ensures { IfOk result (λ d. is_attached d ≡ false) }
{
    let file = uncounted(alloc)?;
    disk_reading(alloc, &file, read)
}

// A reading call that fails; there may be none of this number past the twentieth.
fn fails_to_read<R: Threads + Wait + Sync>(
    rt: &R,
    alloc: Global,
    read: u64,
) -> Result<bool, AllocError> {
    let disk = misread_disk(alloc, read)?;
    let ended = ended_of(rt, alloc, WORDS, disk)?;
    if is_ended(&ended, 0, "prepared lists 2 pages 5\n", 27) {
        return Ok(20 < read);
    }
    has_failed(rt, alloc, &ended)
}

// Each of the first twenty fails, and so do those after them, as long as there are any.
#[test]
fn failing_reads(rt: HostRuntime) -> Result<(), Fail> {
    for read in 1..=80u64 {
        let holds = fails_to_read(&rt, rt.alloc(), read)?;
        expect(&rt, "readings", read, holds);
    }
    Ok(())
}
