//! Journals of each kind beside a database whose page 2 was overwritten.

ghost use Rattle.std.specs.Prelude.{◌≡◌, false, true, IfOk};
ghost use Rattle.spe_disk.specs.Memory.{is_attached};

use super::files::{journal, lay};
use super::run::{NOTHING, disk_over, expect, is_spoilt, load, load_pages, recovered};
use spe_disk::MemDisk;
use spe_model::{RecoverFault, Recovered};
use std::alloc::{AllocError, Global};
use std::test::Fail;

// How much is kept of a journal with records of pages 2 and 3, a byte laid over it, whether it is hot
// then, the operations of recovery, and whether page 2 is as it was.
static JOURNALS: [Case; 10] = [
    // whole, and with its second record torn
    (1552, (0, 0xd9), 1, 3, true),
    (1551, (0, 0xd9), 1, 2, true),
    (1032, (0, 0xd9), 1, 2, true),
    // its first record torn, without a page, and with a wrong checksum
    (1031, (0, 0xd9), 1, 1, false),
    (1032, (515, 0), 1, 1, false),
    (1552, (1031, 17), 1, 1, false),
    // a head alone, a head cut off, no magic, no bytes
    (512, (0, 0xd9), 1, 1, false),
    (511, (0, 0xd9), 0, 1, false),
    (1552, (7, 0xd8), 0, 1, false),
    (0, (0, 0xd9), 0, 0, false),
];

type Case = (usize, (usize, u8), u16, u64, bool);

// Puts the journal that a case says onto a disk.
fn load_case(alloc: Global, disk: &mut MemDisk, case: &Case) -> Result<(), AllocError>
    requires { is_attached disk.old ≡ false }
    ensures { is_attached disk.new ≡ false }
{
    let (length, (at, byte), _, _, _) = *case;
    let mut bytes = journal(alloc, &[2, 3])?;
    lay(&mut bytes, at, &[byte]);
    bytes.truncate(length);
    load(disk, 0, &bytes);
    Ok(())
}

// A disk whose page 2 was overwritten, beside the journal that a case says.
fn disk_for(alloc: Global, case: &Case) -> Result<MemDisk, AllocError>
    ensures { IfOk result (λ d. is_attached d ≡ false) }
{
    let mut disk = disk_over(alloc, &[2], NOTHING)?;
    load_case(alloc, &mut disk, case)?;
    Ok(disk)
}

fn wanted_of(case: &Case) -> Recovered {
    let (_, _, rolled, ops, _) = *case;
    Recovered {
        page_size: 512,
        reserved: 0,
        pages: 6,
        node: Some(4),
        rolled,
        ops,
    }
}

// Whether the file is as a case says.
fn is_left(alloc: Global, disk: &mut MemDisk, case: &Case) -> Result<bool, AllocError>
    requires { is_attached disk.old ≡ true }
{
    if case.4 {
        is_spoilt(alloc, disk, &[])
    } else {
        is_spoilt(alloc, disk, &[2])
    }
}

// Whether the disk is recovered as a case says.
fn holds_of(alloc: Global, disk: &mut MemDisk, case: &Case) -> Result<bool, AllocError>
    requires { is_attached disk.old ≡ false }
{
    let found = recovered(alloc, disk) == Ok(wanted_of(case));
    let counted = disk.ops() == case.3;
    let left = is_left(alloc, disk, case)?;
    Ok(found && counted && left)
}

fn holds(alloc: Global, case: &Case) -> Result<bool, AllocError> {
    let mut disk = disk_for(alloc, case)?;
    holds_of(alloc, &mut disk, case)
}

#[test]
fn journals(rt: HostRuntime) -> Result<(), Fail> {
    for (row, case) in JOURNALS.iter().enumerate() {
        expect(&rt, row, holds(rt.alloc(), case)?);
    }
    Ok(())
}

// Whether recovery is refused so, and makes no operation.
fn is_refused(alloc: Global, disk: &mut MemDisk, refusal: RecoverFault) -> bool
    requires { is_attached disk.old ≡ false }
{
    let found = recovered(alloc, disk);
    found == Err(refusal) && disk.ops() == 0
}

// Puts a journal whose head names another page size onto a disk.
fn load_other(alloc: Global, disk: &mut MemDisk) -> Result<(), AllocError>
    requires { is_attached disk.old ≡ false }
    ensures { is_attached disk.new ≡ false }
{
    let mut other = journal(alloc, &[2])?;
    lay(&mut other, 26, &[4, 0]);
    load(disk, 0, &other);
    Ok(())
}

// Puts two journals that hold page 2 onto a disk.
fn load_both(alloc: Global, disk: &mut MemDisk) -> Result<(), AllocError>
    requires { is_attached disk.old ≡ false }
    ensures { is_attached disk.new ≡ false }
{
    load_pages(alloc, disk, 3, &[2])?;
    load_pages(alloc, disk, 0, &[5, 2])
}

#[test]
fn other_page_size(rt: HostRuntime) -> Result<(), Fail> {
    let mut disk = disk_over(rt.alloc(), &[], NOTHING)?;
    load_other(rt.alloc(), &mut disk)?;
    let refusal = RecoverFault::JournalPage { id: 0, size: 1024 };
    let refused = is_refused(rt.alloc(), &mut disk, refusal);
    assert!(rt; refused);
    Ok(())
}

#[test]
fn overlap(rt: HostRuntime) -> Result<(), Fail> {
    let mut disk = disk_over(rt.alloc(), &[], NOTHING)?;
    load_both(rt.alloc(), &mut disk)?;
    let refusal = RecoverFault::Overlap {
        page: 2,
        a: 0,
        b: 3,
    };
    let refused = is_refused(rt.alloc(), &mut disk, refusal);
    assert!(rt; refused);
    Ok(())
}
