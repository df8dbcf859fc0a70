//! Three hot journals: recovery while the disk fails.

ghost use Rattle.std.specs.Prelude.{◌≡◌, false};
ghost use Rattle.spe_disk.specs.Memory.{is_attached};

use super::run::{Failing, is_spoilt, recovered};
use super::stops::three;
use spe_disk::{MemDisk, stopped_at};
use spe_model::{RecoverFault, Recovered};
use std::alloc::{AllocError, Global};
use std::test::Fail;

fn failed(found: Result<Recovered, RecoverFault>) -> bool {
    matches!(found, Err(RecoverFault::Disk))
}

fn has_six_pages(found: Result<Recovered, RecoverFault>) -> bool {
    matches!(found, Ok(Recovered { pages: 6, .. }))
}

// Whether recovery brings all back.
fn comes_back(alloc: Global, disk: &mut MemDisk) -> Result<bool, AllocError>
    requires { is_attached disk.old ≡ false }
{
    let six = has_six_pages(recovered(alloc, disk));
    let whole = is_spoilt(alloc, disk, &[])?;
    Ok(six && whole)
}

// The same of what this disk leaves to the next opening.
fn comes_back_after(alloc: Global, disk: &MemDisk) -> Result<bool, AllocError> {
    let mut opened = stopped_at(alloc, disk, 16, 0)?;
    comes_back(alloc, &mut opened)
}

// Whether recovery fails, so many operations were made, and, run again, it brings all back.
fn holds_of(alloc: Global, disk: &mut MemDisk, ops: u64) -> Result<bool, AllocError>
    requires { is_attached disk.old ≡ false }
{
    let fails = failed(recovered(alloc, disk));
    let counted = disk.faults() == 1 && disk.ops() == ops;
    let back = comes_back_after(alloc, disk)?;
    Ok(fails && counted && back)
}

fn holds(alloc: Global, failing: Failing, ops: u64) -> Result<bool, AllocError> {
    let mut disk = three(alloc, failing)?;
    holds_of(alloc, &mut disk, ops)
}

fn operation_holds(alloc: Global, op: u64, made: bool) -> Result<bool, AllocError> {
    let failing = Failing { op, read: 0, made };
    holds(alloc, failing, if made { op } else { op.saturating_sub(1) })
}

fn read_holds(alloc: Global, read: u64) -> Result<bool, AllocError> {
    let failing = Failing {
        op: 0,
        read,
        made: false,
    };
    holds(alloc, failing, read.saturating_sub(39))
}

// Each operation, made and not made.
#[test]
fn operations(rt: HostRuntime) -> Result<(), Fail> {
    let mut held = 0u8;
    for op in 1..=6u64 {
        if operation_holds(rt.alloc(), op, false)? && operation_holds(rt.alloc(), op, true)? {
            held = held.wrapping_add(1);
        }
    }
    assert_eq!(rt; held, 6);
    Ok(())
}

// The reading calls: attaching, the front of the file, the length and the head of each journal, the
// record of each of three, the length of the file, and those records again, each before its write.
#[test]
fn reads(rt: HostRuntime) -> Result<(), Fail> {
    let mut held = 0u8;
    for read in 1..=41u64 {
        if read_holds(rt.alloc(), read)? {
            held = held.wrapping_add(1);
        }
    }
    assert_eq!(rt; held, 41);
    Ok(())
}

// Whether recovery makes six operations, and no call fails.
fn makes_six(alloc: Global, disk: &mut MemDisk) -> bool
    requires { is_attached disk.old ≡ false }
{
    let six = match recovered(alloc, disk) {
        Ok(found) => found.ops == 6,
        Err(_) => false,
    };
    six && disk.faults() == 0
}

// There are no more.
#[test]
fn no_more(rt: HostRuntime) -> Result<(), Fail> {
    let failing = Failing {
        op: 7,
        read: 42,
        made: false,
    };
    let mut disk = three(rt.alloc(), failing)?;
    let six = makes_six(rt.alloc(), &mut disk);
    assert!(rt; six);
    Ok(())
}
