//! The operations of a transaction, its stops, and operations that fail.

ghost use Rattle.std.specs.Prelude.{◌≡◌, false, true};
ghost use Rattle.spe_disk.specs.Memory.{is_attached};

use super::begin::{opened, session};
use super::commit::{commit, log, undo};
use super::disk::{Blind, Made, PAGE, three_pages};
use spe_disk::{Disk, FileNo, MemDisk, stopped_at};
use spe_model::{RecoverFault, Recovered};
use spe_recover::{Want, recover};
use spe_store::{BeginFault, Receipt, StoreFault};
use std::alloc::{AllocError, Global};
use std::process::Abort;
use std::test::Fail;

// The head, the record of page 2, page 2 and the cut.
static COMMIT: [Made; 4] = [
    Made::Write(FileNo::Journal(0), 0, 512),
    Made::Write(FileNo::Journal(0), 512, 520),
    Made::Write(FileNo::Database, 512, 512),
    Made::Cut(FileNo::Journal(0), 0),
];

// The same with page 2 written back before the cut.
static UNDO: [Made; 5] = [
    Made::Write(FileNo::Journal(0), 0, 512),
    Made::Write(FileNo::Journal(0), 512, 520),
    Made::Write(FileNo::Database, 512, 512),
    Made::Write(FileNo::Database, 512, 512),
    Made::Cut(FileNo::Journal(0), 0),
];

/// What a transaction left: what it answered, what a session that comes next is answered, and the disk.
#[derive(Drop)]
struct Left {
    receipt: Result<Receipt, StoreFault>,
    next: Option<BeginFault>,
    disk: Blind,
}

// Changes page 2 and commits, on a disk of which this operation fails.
fn committed(alloc: Global, op: u64, read: u64, made: bool) -> Result<Left, AllocError> {
    let mut store = opened(alloc, three_pages(alloc, op, read, made)?)?;
    let mut session = session();
    let log = log(alloc);
    let receipt = commit(&mut store, &mut session, &log);
    let next = store.take_pass(&mut session).err();
    Ok(Left {
        receipt,
        next,
        disk: store.close().disk,
    })
}

// Changes page 2 and undoes it.
fn undone(alloc: Global) -> Result<(bool, Blind), AllocError> {
    let mut store = opened(alloc, three_pages(alloc, 0, 0, false)?)?;
    let mut session = session();
    let holds = undo(&mut store, &mut session) == Ok((0, 0));
    Ok((holds, store.close().disk))
}

// Attaches a disk and recovers it.
fn recovered(alloc: Global, disk: &mut MemDisk) -> Result<Recovered, RecoverFault>
    requires { is_attached disk.old ≡ false }
    ensures { is_attached disk.new ≡ true }
{
    match disk.attach("three.db") {
        Ok(_) => recover(alloc, disk, Want::Any),
        Err(_) => Err(RecoverFault::Disk),
    }
}

// The first and the last byte of page 2, and the first of page 3.
fn bytes_of(disk: &mut MemDisk) -> [u8; 3]
    requires { is_attached disk.old ≡ true }
{
    let mut found = [0u8; 2 * PAGE];
    let _ = disk.read_at(FileNo::Database, 512, &mut found);
    [found[0], found[511], found[512]]
}

// Whether recovery of a disk gives three pages.
fn has_three_pages(alloc: Global, disk: &mut MemDisk) -> bool
    requires { is_attached disk.old ≡ false }
    ensures { is_attached disk.new ≡ true }
{
    matches!(recovered(alloc, disk), Ok(Recovered { pages: 3, .. }))
}

// Whether page 2 is then as before, or as after.
fn comes_back(alloc: Global, disk: &mut MemDisk, after: bool) -> bool
    requires { is_attached disk.old ≡ false }
{
    let three = has_three_pages(alloc, disk);
    let wanted = if after { [9, 9, 3] } else { [2, 2, 3] };
    three && bytes_of(disk) == wanted
}

// The same of what a disk holds after so many operations, and so many bytes of the next.
fn leaves(
    alloc: Global,
    disk: &MemDisk,
    ops: usize,
    bytes: usize,
    after: bool,
) -> Result<bool, AllocError> {
    let mut left = stopped_at(alloc, disk, ops, bytes)?;
    Ok(comes_back(alloc, &mut left, after))
}

fn expect(rt: &impl Abort, ops: u64, bytes: usize, holds: bool) {
    assert!(rt; holds, "{ops} {bytes}");
}

// Stops, and whether page 2 is then as after the commit.
static STOPS: [(u64, usize, bool); 10] = [
    (16, 0, false),
    (16, 200, false),
    (16, 511, false),
    (17, 1, false),
    (17, 300, false),
    (17, 519, false),
    (18, 10, false),
    (18, 511, false),
    (19, 0, false),
    (20, 0, true),
];

fn has_committed(left: &Left) -> bool {
    left.receipt == Ok(Receipt { number: 1, ops: 20 })
        && left.disk.made.as_slice() == COMMIT.as_slice()
}

fn expect_stops(rt: &impl Abort, alloc: Global, disk: &MemDisk) -> Result<(), AllocError> {
    for (ops, bytes, after) in &STOPS {
        let holds = leaves(alloc, disk, *ops as usize, *bytes, *after)?;
        expect(rt, *ops, *bytes, holds);
    }
    Ok(())
}

#[test]
fn stops(rt: HostRuntime) -> Result<(), Fail> {
    let left = committed(rt.alloc(), 0, 0, false)?;
    expect(&rt, 20, 0, has_committed(&left));
    expect_stops(&rt, rt.alloc(), &left.disk.disk)?;
    Ok(())
}

fn expect_undone(rt: &impl Abort, alloc: Global, disk: &MemDisk) -> Result<(), AllocError> {
    for ops in 16..22u64 {
        let holds = leaves(alloc, disk, ops as usize, 7, false)?;
        expect(rt, ops, 7, holds);
    }
    Ok(())
}

#[test]
fn undoing(rt: HostRuntime) -> Result<(), Fail> {
    let (holds, disk) = undone(rt.alloc())?;
    expect(&rt, 21, 0, holds && disk.made.as_slice() == UNDO.as_slice());
    expect_undone(&rt, rt.alloc(), &disk.disk)?;
    Ok(())
}

// Whether the store has stopped at this operation, for the transaction and for the next.
fn has_stopped(left: &Left, op: u64) -> bool {
    left.receipt == Err(StoreFault::Stopped { op }) && left.next == Some(BeginFault::Stopped { op })
}

// An operation that fails, made or not, stops the store: only a cut that was made turns the pages.
fn fails(alloc: Global, op: u64, made: bool) -> Result<bool, AllocError> {
    let left = committed(alloc, op, 0, made)?;
    let back = leaves(alloc, &left.disk.disk, 64, 0, made && op == 20)?;
    Ok(has_stopped(&left, op) && back)
}

#[test]
fn failures(rt: HostRuntime) -> Result<(), Fail> {
    for op in 17..=20u64 {
        for made in [false, true] {
            let holds = fails(rt.alloc(), op, made)?;
            expect(&rt, op, 0, holds);
        }
    }
    Ok(())
}

fn has_not_read(left: &Left) -> bool {
    left.receipt == Err(StoreFault::ReadFault) && left.next == None
}

// The reading call that fails is that of page 2, the second after attaching.
#[test]
fn reading(rt: HostRuntime) -> Result<(), Fail> {
    let left = committed(rt.alloc(), 0, 2, false)?;
    let back = leaves(rt.alloc(), &left.disk.disk, 64, 0, false)?;
    expect(&rt, 64, 0, has_not_read(&left) && back);
    Ok(())
}
