//! Making the journals of a disk in memory, of which one is there already.

ghost use Rattle.std.specs.Prelude.{◌≡◌, true, IfOk};
ghost use Rattle.spe_disk.specs.Memory.{is_attached};

use super::run::{Failing, disk_of, expect, load};
use spe_disk::{Disk, Failed, FileNo, MemDisk};
use std::alloc::{AllocError, Global};
use std::test::Fail;

// The operation that fails and whether it is made; what making the journals answers, how many
// operations were made, the highest journal that is there then, and how many are made the next time.
static MAKINGS: [Case; 8] = [
    (0, false, Some(15), 15, 15, 0),
    (1, false, None, 0, 3, 15),
    (1, true, None, 1, 3, 14),
    (4, false, None, 3, 3, 12),
    (4, true, None, 4, 4, 11),
    (15, false, None, 14, 14, 1),
    (15, true, None, 15, 15, 0),
    (16, true, Some(15), 15, 15, 0),
];

type Case = (u64, bool, Option<u8>, u64, u8, u8);

// Whether this journal is there and the next one is not, where there is a next one.
fn is_last(disk: &mut MemDisk, highest: u8) -> bool
    requires { is_attached disk.old ≡ true }
    ensures { is_attached disk.new ≡ true }
{
    if highest < 15 {
        let there = disk.length(FileNo::Journal(highest)) != Ok(None);
        there && disk.length(FileNo::Journal(highest + 1)) == Ok(None)
    } else {
        true
    }
}

// An attached disk with journal 3, on which the operation of a case fails.
fn disk_for(alloc: Global, case: &Case) -> Result<MemDisk, AllocError>
    ensures { IfOk result (λ d. is_attached d ≡ true) }
{
    let failing = Failing {
        op: case.0,
        read: 0,
        made: case.1,
    };
    let mut disk = disk_of(alloc, b"", failing)?;
    load(&mut disk, 3, b"ab");
    let _ = disk.attach("two.db");
    Ok(disk)
}

fn makes(disk: &mut MemDisk, case: &Case) -> bool
    requires { is_attached disk.old ≡ true }
    ensures { is_attached disk.new ≡ true }
{
    disk.make_journals() == case.2.ok_or(Failed) && disk.ops() == case.3
}

fn holds_of(disk: &mut MemDisk, case: &Case) -> bool
    requires { is_attached disk.old ≡ true }
{
    let made = makes(disk, case);
    let kept = disk.length(FileNo::Journal(3)) == Ok(Some(2));
    let last = is_last(disk, case.4);
    let again = disk.make_journals() == Ok(case.5);
    made && kept && last && again
}

fn holds(alloc: Global, case: &Case) -> Result<bool, AllocError> {
    let mut disk = disk_for(alloc, case)?;
    Ok(holds_of(&mut disk, case))
}

#[test]
fn makings(rt: HostRuntime) -> Result<(), Fail> {
    for (row, case) in MAKINGS.iter().enumerate() {
        expect(&rt, row, holds(rt.alloc(), case)?);
    }
    Ok(())
}
