//! Two pages rewritten: the operations, stops and failures.

ghost use Rattle.std.specs.Prelude.{◌≡◌, false, true};
ghost use Rattle.spe_disk.specs.Memory.{is_attached};

use super::blind::{Blind, Made, rewritten, two_pages, untouched};
use super::files::{PAGE, file, journal};
use spe_disk::{Disk, FileNo, MemDisk, stopped_at};
use spe_model::{RecoverFault, Recovered};
use spe_recover::{Want, recover};
use spe_rewrite::RewriteFault;
use std::alloc::{AllocError, Global};
use std::process::Abort;
use std::test::Fail;

// What is made after sixteen journals.
static ALL: [Made; 5] = [
    Made::Write(FileNo::Journal(0), 0, 512),
    Made::Write(FileNo::Journal(0), 512, 520),
    Made::Write(FileNo::Database, 24, 488),
    Made::Write(FileNo::Database, 1024, 512),
    Made::Cut(FileNo::Journal(0), 0),
];

// Attaches a disk and recovers it.
fn recovered(alloc: Global, disk: &mut MemDisk) -> Result<Recovered, RecoverFault>
    requires { is_attached disk.old ≡ false }
    ensures { is_attached disk.new ≡ true }
{
    match disk.attach("two.db") {
        Ok(_) => recover(alloc, disk, Want::Any),
        Err(_) => Err(RecoverFault::Disk),
    }
}

// The file of three pages, or less with zeros behind it.
fn file_of(alloc: Global, disk: &mut MemDisk) -> Result<Vec<u8>, AllocError>
    requires { is_attached disk.old ≡ true }
{
    let mut found = vec![in alloc; 0u8; 3 * PAGE]?;
    let _ = disk.read_at(FileNo::Database, 0, &mut found);
    Ok(found)
}

fn has_pages(found: Result<Recovered, RecoverFault>, count: u32) -> bool {
    matches!(found, Ok(Recovered { pages, .. }) if pages == count)
}

// Whether a disk's file is the one before, or the one after.
fn has_file(alloc: Global, disk: &mut MemDisk, after: bool) -> Result<bool, AllocError>
    requires { is_attached disk.old ≡ true }
{
    let wanted = file(alloc, after)?;
    let found = file_of(alloc, disk)?;
    Ok(found.as_slice() == wanted.as_slice())
}

// Whether recovery of a disk gives the pages before, or those after.
fn comes_back(alloc: Global, disk: &mut MemDisk, after: bool) -> Result<bool, AllocError>
    requires { is_attached disk.old ≡ false }
{
    let counted = has_pages(recovered(alloc, disk), if after { 3 } else { 2 });
    let same = has_file(alloc, disk, after)?;
    Ok(counted && same)
}

// The same of what a disk holds after so many operations, and so many bytes of the next.
fn leaves(
    alloc: Global,
    disk: &MemDisk,
    ops: usize,
    bytes: usize,
    after: bool,
) -> Result<bool, AllocError> {
    let mut left = stopped_at(alloc, disk, ops, bytes)?;
    comes_back(alloc, &mut left, after)
}

fn expect(rt: &impl Abort, ops: u64, bytes: usize, holds: bool) {
    assert!(rt; holds, "{ops} {bytes}");
}

// After so many of the operations all but one of the bytes of the next are these.
static STOPS: [(u64, usize); 6] = [(16, 511), (17, 519), (18, 487), (19, 511), (20, 0), (21, 0)];

fn expect_stops(rt: &impl Abort, alloc: Global, disk: &MemDisk) -> Result<(), AllocError> {
    for (ops, last) in &STOPS {
        for bytes in [0, 1, *last] {
            let holds = leaves(alloc, disk, *ops as usize, bytes, *ops == 21)?;
            expect(rt, *ops, bytes, holds);
        }
    }
    Ok(())
}

// Whether the rewriting makes all.
fn makes_all(alloc: Global, blind: &mut Blind) -> bool
    requires { is_attached blind.old.disk ≡ true }
{
    let answer = rewritten(alloc, blind);
    answer == Ok(21) && blind.made.as_slice() == ALL.as_slice()
}

#[test]
fn stops(rt: HostRuntime) -> Result<(), Fail> {
    let mut done = two_pages(rt.alloc(), 0, 0, false)?;
    let made = makes_all(rt.alloc(), &mut done);
    expect(&rt, 21, 0, made);
    expect_stops(&rt, rt.alloc(), &done.disk)?;
    Ok(())
}

// Whether the journal has just the head and the record.
fn has_journal(alloc: Global, disk: &mut MemDisk) -> Result<bool, AllocError>
    requires { is_attached disk.old ≡ true }
{
    let wanted = journal(alloc)?;
    let mut found = vec![in alloc; 0u8; 1033]?;
    let read = disk.read_at(FileNo::Journal(0), 0, &mut found);
    let (front, _) = found.split_at(1032);
    Ok(read == Ok(1032) && front == wanted.as_slice())
}

// The same before the cut.
fn had_journal(alloc: Global, disk: &MemDisk) -> Result<bool, AllocError> {
    let mut left = stopped_at(alloc, disk, 20, 0)?;
    let _ = left.attach("two.db");
    has_journal(alloc, &mut left)
}

#[test]
fn journalled(rt: HostRuntime) -> Result<(), Fail> {
    let mut done = two_pages(rt.alloc(), 0, 0, false)?;
    let _ = rewritten(rt.alloc(), &mut done);
    let holds = had_journal(rt.alloc(), &done.disk)?;
    expect(&rt, 20, 0, holds);
    Ok(())
}

// Whether the rewriting fails once so many operations were made, and leaves the pages before, or those after.
fn fails(alloc: Global, blind: &mut Blind, made: u64, after: bool) -> Result<bool, AllocError>
    requires { is_attached blind.old.disk ≡ true }
{
    let answer = rewritten(alloc, blind);
    let counted = blind.disk.ops() == made;
    let left = leaves(alloc, &blind.disk, 32, 0, after)?;
    Ok(answer == Err(RewriteFault::Disk) && counted && left)
}

// An operation that fails, made and not made: only the cut that was made turns the pages.
fn operation_fails(alloc: Global, op: u64, made: bool) -> Result<bool, AllocError> {
    let mut blind = two_pages(alloc, op, 0, made)?;
    let count = if made { op } else { op.saturating_sub(1) };
    fails(alloc, &mut blind, count, made && op == 21)
}

#[test]
fn failures(rt: HostRuntime) -> Result<(), Fail> {
    for op in 1..=21u64 {
        for made in [false, true] {
            let holds = operation_fails(rt.alloc(), op, made)?;
            expect(&rt, op, 0, holds);
        }
    }
    Ok(())
}

// The reading call that fails is that of page 1, the second after attaching.
fn reading_fails(alloc: Global) -> Result<bool, AllocError> {
    let mut blind = two_pages(alloc, 0, 2, false)?;
    fails(alloc, &mut blind, 17, false)
}

fn touches_none(alloc: Global, blind: &mut Blind) -> bool
    requires { is_attached blind.old.disk ≡ true }
{
    let answer = untouched(alloc, blind);
    answer == Ok(9) && blind.disk.ops() == 0 && blind.disk.faults() == 0
}

// Where no page is changed no call is made, though the first would fail.
fn changes_none(alloc: Global) -> Result<bool, AllocError> {
    let mut blind = two_pages(alloc, 1, 2, false)?;
    Ok(touches_none(alloc, &mut blind))
}

#[test]
fn others(rt: HostRuntime) -> Result<(), Fail> {
    let failed = reading_fails(rt.alloc())?;
    let same = changes_none(rt.alloc())?;
    expect(&rt, 17, 0, failed && same);
    Ok(())
}
