//! Free lists of files in memory that are put in server form: the bytes, stops and refusals.

ghost use Rattle.std.specs.Prelude.{◌≡◌, ◌≤◌, false, true, IfOk};
ghost use Rattle.spe_disk.specs.Memory.{is_attached};

use super::files::{Patch, disk_of, expect, file_of, lay_all, lay_numbers};
use super::release::{has_file, leaves};
use spe_convert::{ConvertFault, prepare};
use spe_disk::{Disk, MemDisk};
use spe_recover::{Want, recover};
use std::alloc::{AllocError, Global};
use std::process::Abort;
use std::test::Fail;

// A database of so many pages, how many lists are made and how many operations that takes, how many pages
// it has then, and what is other bytes once its page count counts, and once its lists are in server form.
struct Case {
    name: &'static str,
    pages: usize,
    before: &'static [Patch],
    lists: u32,
    ops: u64,
    count: usize,
    counted: &'static [Patch],
    after: &'static [Patch],
}

// A table with three rows, and no free page. The page count counts.
const PEOPLE: [Patch; 8] = [
    (24, b"\x00\x00\x00\x02\x00\x00\x00\x02"),
    (92, b"\x00\x00\x00\x02"),
    (100, b"\x0d\x00\x00\x00\x01\x01\xbf\x00\x01\xbf"),
    (
        447,
        b"\x3f\x01\x06\x17\x0f\x0f\x01\x6ftablepp\x02CREATE TABLE p(id INTEGER PRIMARY KEY, name TEXT)",
    ),
    (
        512,
        b"\x0d\x00\x00\x00\x03\x01\xeb\x00\x01\xf8\x01\xf0\x01\xeb",
    ),
    (1003, b"\x03\x03\x03\x00\x00"),
    (1008, b"\x06\x02\x03\x00\x13bob"),
    (1016, b"\x06\x01\x03\x00\x13ann"),
];

// The same, but the page count does not count.
const UNCOUNTED: [Patch; 8] = [
    (24, b"\x00\x00\x00\x02\x00\x00\x00\x02"),
    (92, b"\x00\x00\x00\x01"),
    (100, b"\x0d\x00\x00\x00\x01\x01\xbf\x00\x01\xbf"),
    (
        447,
        b"\x3f\x01\x06\x17\x0f\x0f\x01\x6ftablepp\x02CREATE TABLE p(id INTEGER PRIMARY KEY, name TEXT)",
    ),
    (
        512,
        b"\x0d\x00\x00\x00\x03\x01\xeb\x00\x01\xf8\x01\xf0\x01\xeb",
    ),
    (1003, b"\x03\x03\x03\x00\x00"),
    (1008, b"\x06\x02\x03\x00\x13bob"),
    (1016, b"\x06\x01\x03\x00\x13ann"),
];

static CASES: [Case; 4] = [
    Case {
        name: "two lists of new pages",
        pages: 2,
        before: &PEOPLE,
        lists: 2,
        ops: 23,
        count: 5,
        counted: &[],
        after: &[
            (24, b"\x00\x00\x00\x03\x00\x00\x00\x05\x00\x00\x00\x03"),
            (92, b"\x00\x00\x00\x03"),
            (1024, b"\x00\x00\x00\x02\x00\x00\x00\x04\x00\x00\x00\x05"),
        ],
    },
    Case {
        name: "a page count that does not count",
        pages: 2,
        before: &UNCOUNTED,
        lists: 2,
        ops: 27,
        count: 5,
        counted: &[(92, b"\x00\x00\x00\x02")],
        after: &[
            (24, b"\x00\x00\x00\x03\x00\x00\x00\x05\x00\x00\x00\x03"),
            (92, b"\x00\x00\x00\x03"),
            (1024, b"\x00\x00\x00\x02\x00\x00\x00\x04\x00\x00\x00\x05"),
        ],
    },
    Case {
        name: "a list of two trunks as one list",
        pages: 9,
        before: &[
            (
                24,
                b"\x00\x00\x00\x03\x00\x00\x00\x09\x00\x00\x00\x05\x00\x00\x00\x07",
            ),
            (92, b"\x00\x00\x00\x03"),
            (
                1024,
                b"\x00\x00\x00\x00\x00\x00\x00\x03\x00\x00\x00\x06\x00\x00\x00\x07\x00\x00\x00\x08",
            ),
            (
                2048,
                b"\x00\x00\x00\x03\x00\x00\x00\x02\x00\x00\x00\x09\x00\x00\x00\x04",
            ),
        ],
        lists: 1,
        ops: 24,
        count: 9,
        counted: &[],
        after: &[
            (
                24,
                b"\x00\x00\x00\x04\x00\x00\x00\x09\x00\x00\x00\x03\x00\x00\x00\x00",
            ),
            (92, b"\x00\x00\x00\x04"),
            (
                1024,
                b"\x00\x00\x00\x01\x00\x00\x00\x04\x00\x00\x00\x00\x00\x00\x00\x00\x00\x00\x00\x00",
            ),
            (
                1536,
                b"\x00\x00\x00\x00\x00\x00\x00\x05\x00\x00\x00\x05\x00\x00\x00\x06\x00\x00\x00\x07\x00\x00\x00\x08\x00\x00\x00\x09",
            ),
        ],
    },
    Case {
        name: "sixteen lists",
        pages: 2,
        before: &PEOPLE,
        lists: 16,
        ops: 37,
        count: 19,
        counted: &[],
        after: &[
            (24, b"\x00\x00\x00\x03\x00\x00\x00\x13\x00\x00\x00\x03"),
            (92, b"\x00\x00\x00\x03"),
            (
                1024,
                b"\x00\x00\x00\x10\x00\x00\x00\x04\x00\x00\x00\x05\x00\x00\x00\x06\x00\x00\x00\x07\x00\x00\x00\x08\x00\x00\x00\x09\x00\x00\x00\x0a\x00\x00\x00\x0b\x00\x00\x00\x0c\x00\x00\x00\x0d\x00\x00\x00\x0e\x00\x00\x00\x0f\x00\x00\x00\x10\x00\x00\x00\x11\x00\x00\x00\x12\x00\x00\x00\x13",
            ),
        ],
    },
];

// A trunk that lists 122 pages, and, as one list, a first trunk behind which one with 120 leaves stands.
const LONG: [Patch; 3] = [
    (
        24,
        b"\x00\x00\x00\x03\x00\x00\x00\x7d\x00\x00\x00\x03\x00\x00\x00\x7b",
    ),
    (92, b"\x00\x00\x00\x03"),
    (1024, b"\x00\x00\x00\x00\x00\x00\x00\x7a"),
];

const LONG_AFTER: [Patch; 5] = [
    (24, b"\x00\x00\x00\x04\x00\x00\x00\x7d\x00\x00\x00\x03"),
    (92, b"\x00\x00\x00\x04"),
    (1024, b"\x00\x00\x00\x01\x00\x00\x00\x04"),
    (1536, b"\x00\x00\x00\x7d"),
    (63488, b"\x00\x00\x00\x00\x00\x00\x00\x78"),
];

// Node pages that name two lists, and seventeen.
static SERVERS: [(&[Patch], ConvertFault); 2] = [
    (
        &[
            (32, b"\x00\x00\x00\x03"),
            (1024, b"\x00\x00\x00\x02\x00\x00\x00\x04\x00\x00\x00\x05"),
        ],
        ConvertFault::Prepared,
    ),
    (
        &[(32, b"\x00\x00\x00\x03"), (1024, b"\x00\x00\x00\x11")],
        ConvertFault::Corrupt { page: 3 },
    ),
];

fn prepared(alloc: Global, disk: &mut MemDisk, lists: u32) -> Result<u32, ConvertFault>
    requires some { 1 ≤ lists }
    requires few { lists ≤ 16 }
    requires detached { is_attached disk.old ≡ false }
    ensures { is_attached disk.new ≡ true }
{
    match disk.attach("lists.db") {
        Ok(_) => match recover(alloc, disk, Want::Any) {
            Ok(found) => prepare(alloc, disk, &found, lists),
            Err(_) => Err(ConvertFault::Memory),
        },
        Err(_) => Err(ConvertFault::Memory),
    }
}

// What the file is to be after so many operations.
fn wanted(alloc: Global, case: &Case, ops: u64) -> Result<Vec<u8>, AllocError> {
    let pages = if ops < case.ops {
        case.pages
    } else {
        case.count
    };
    let mut file = file_of(alloc, pages, case.before)?;
    if ops >= 20 {
        lay_all(&mut file, case.counted);
    }
    if ops >= case.ops {
        lay_all(&mut file, case.after);
    }
    Ok(file)
}

fn holds(
    alloc: Global,
    disk: &MemDisk,
    case: &Case,
    ops: u64,
    bytes: usize,
) -> Result<bool, AllocError> {
    let wanted = wanted(alloc, case, ops)?;
    leaves(alloc, disk, ops as usize, bytes, &wanted)
}

// All but the last bytes of the operation after each number of them.
fn expect_stops(
    rt: &impl Abort,
    alloc: Global,
    case: &Case,
    disk: &MemDisk,
) -> Result<(), AllocError> {
    for ops in 15..=case.ops {
        for bytes in [0, 1, 480] {
            let right = holds(alloc, disk, case, ops, bytes)?;
            expect(rt, case.name, ops, right);
        }
    }
    Ok(())
}

// A disk with a file of so many pages.
fn disk_for(alloc: Global, pages: usize, patches: &[Patch]) -> Result<MemDisk, AllocError>
    ensures { IfOk result (λ d. is_attached d ≡ false) }
{
    let file = file_of(alloc, pages, patches)?;
    disk_of(alloc, &file, 0, false)
}

// Whether the lists of a case are made, so many pages are told, and so many operations made.
fn makes(alloc: Global, disk: &mut MemDisk, case: &Case) -> bool
    requires { is_attached disk.old ≡ false }
{
    match prepared(alloc, disk, case.lists.clamp(1, 16)) {
        Ok(count) => count as usize == case.count && disk.ops() == case.ops,
        Err(_) => false,
    }
}

fn expect_case(rt: &impl Abort, alloc: Global, case: &Case) -> Result<(), AllocError> {
    let mut disk = disk_for(alloc, case.pages, case.before)?;
    let right = makes(alloc, &mut disk, case);
    expect(rt, case.name, 0, right);
    expect_stops(rt, alloc, case, &disk)
}

#[test]
fn prepared_files(rt: HostRuntime) -> Result<(), Fail> {
    for case in &CASES {
        expect_case(&rt, rt.alloc(), case)?;
    }
    Ok(())
}

// Whether this is answered, and no operation made.
fn refuses(alloc: Global, disk: &mut MemDisk, fault: ConvertFault) -> bool
    requires { is_attached disk.old ≡ false }
{
    let answer = prepared(alloc, disk, 2);
    answer == Err(fault) && disk.ops() == 0
}

fn is_refused(alloc: Global, patches: &[Patch], fault: ConvertFault) -> Result<bool, AllocError> {
    let mut disk = disk_for(alloc, 5, patches)?;
    Ok(refuses(alloc, &mut disk, fault))
}

#[test]
fn refused_files(rt: HostRuntime) -> Result<(), Fail> {
    for (patches, fault) in &SERVERS {
        let right = is_refused(rt.alloc(), patches, *fault)?;
        expect(&rt, "node page", 0, right);
    }
    Ok(())
}

// A disk whose trunk lists 122 pages.
fn long_disk(alloc: Global) -> Result<MemDisk, AllocError>
    ensures { IfOk result (λ d. is_attached d ≡ false) }
{
    let mut file = file_of(alloc, 125, &LONG)?;
    lay_numbers(&mut file, 1032, 4, 126);
    disk_of(alloc, &file, 0, false)
}

// Whether the file of a disk is such a list as one list.
fn has_long(alloc: Global, disk: &mut MemDisk) -> Result<bool, AllocError>
    requires { is_attached disk.old ≡ true }
{
    let mut wanted = file_of(alloc, 125, &LONG_AFTER)?;
    lay_numbers(&mut wanted, 63496, 5, 125);
    has_file(alloc, disk, &wanted)
}

fn moves_on(alloc: Global, disk: &mut MemDisk) -> Result<bool, AllocError>
    requires { is_attached disk.old ≡ false }
{
    let answer = prepared(alloc, disk, 1);
    let counted = disk.ops() == 26;
    let same = has_long(alloc, disk)?;
    Ok(answer == Ok(125) && counted && same)
}

#[test]
fn moved_trunk(rt: HostRuntime) -> Result<(), Fail> {
    let mut disk = long_disk(rt.alloc())?;
    let right = moves_on(rt.alloc(), &mut disk)?;
    expect(&rt, "long list", 0, right);
    Ok(())
}
