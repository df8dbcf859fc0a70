//! Three hot journals: recovery, stopped and run again.

ghost use Rattle.std.specs.Prelude.{◌≡◌, false, IfOk};
ghost use Rattle.spe_disk.specs.Memory.{is_attached};

use super::run::{Failing, NOTHING, disk_over, expect, is_spoilt, load_pages, recovered};
use super::watched::{Made, Watched};
use spe_disk::{FileNo, MemDisk, stopped_at};
use spe_model::{RecoverFault, Recovered};
use std::alloc::{AllocError, Global};
use std::test::Fail;

// Puts journals 0, 1 and 2 onto a disk.
fn load_three(alloc: Global, disk: &mut MemDisk) -> Result<(), AllocError>
    requires { is_attached disk.old ≡ false }
    ensures { is_attached disk.new ≡ false }
{
    load_pages(alloc, disk, 0, &[2])?;
    load_pages(alloc, disk, 1, &[3])?;
    load_pages(alloc, disk, 2, &[5])
}

/// The database with pages 2, 3 and 5 overwritten, each of which one of journals 0, 1 and 2 holds.
pub fn three(alloc: Global, failing: Failing) -> Result<MemDisk, AllocError>
    ensures { IfOk result (λ d. is_attached d ≡ false) }
{
    let mut disk = disk_over(alloc, &[2, 3, 5], failing)?;
    load_three(alloc, &mut disk)?;
    Ok(disk)
}

// What recovery makes of these files.
const WRITE_2: Made = Made::Write(FileNo::Database, 512, 512);

const WRITE_3: Made = Made::Write(FileNo::Database, 1024, 512);

const WRITE_5: Made = Made::Write(FileNo::Database, 2048, 512);

const CUT_0: Made = Made::Cut(FileNo::Journal(0), 0);

const CUT_1: Made = Made::Cut(FileNo::Journal(1), 0);

const CUT_2: Made = Made::Cut(FileNo::Journal(2), 0);

const ALL: [Made; 6] = [WRITE_2, WRITE_3, WRITE_5, CUT_0, CUT_1, CUT_2];

// After so many operations and bytes of the next, recovery run again makes these.
static STOPS: [Case; 9] = [
    (0, 0, &ALL),
    (0, 1, &ALL),
    (1, 511, &ALL),
    (2, 0, &ALL),
    (3, 0, &ALL),
    (4, 0, &[WRITE_3, WRITE_5, CUT_1, CUT_2]),
    (5, 0, &[WRITE_5, CUT_2]),
    (6, 0, &[]),
    (7, 7, &[]),
];

type Case = (usize, usize, &'static [Made]);

// What the first run answers.
fn is_first(found: Result<Recovered, RecoverFault>) -> bool {
    matches!(
        found,
        Ok(Recovered {
            pages: 6,
            rolled: 7,
            ops: 6,
            ..
        })
    )
}

// What the second answers.
fn is_second(found: Result<Recovered, RecoverFault>, made: u64) -> bool {
    matches!(found, Ok(Recovered { pages: 6, ops, .. }) if ops == made)
}

// Whether recovery makes these operations on a disk, and counts them.
fn makes(alloc: Global, watched: &mut Watched, wanted: &[Made]) -> bool
    requires { is_attached watched.old.disk ≡ false }
{
    let found = watched.recover(alloc);
    is_second(found, wanted.len() as u64) && watched.made() == wanted
}

// Whether recovery after this stop makes the operations that a case says.
fn makes_again(alloc: Global, disk: &MemDisk, case: &Case) -> Result<bool, AllocError> {
    let mut watched = Watched::over(alloc, stopped_at(alloc, disk, case.0, case.1)?);
    Ok(makes(alloc, &mut watched, case.2))
}

// Whether it leaves the database as it was.
fn restores(alloc: Global, disk: &MemDisk, case: &Case) -> Result<bool, AllocError> {
    let mut stopped = stopped_at(alloc, disk, case.0, case.1)?;
    let _ = recovered(alloc, &mut stopped);
    is_spoilt(alloc, &mut stopped, &[])
}

// Whether a disk is recovered as it should be, and so is what a stop leaves of it.
fn holds_of(alloc: Global, disk: &mut MemDisk, case: &Case) -> Result<bool, AllocError>
    requires { is_attached disk.old ≡ false }
{
    let first = is_first(recovered(alloc, disk));
    let made = makes_again(alloc, disk, case)?;
    let restored = restores(alloc, disk, case)?;
    Ok(first && made && restored)
}

fn holds(alloc: Global, case: &Case) -> Result<bool, AllocError> {
    let mut disk = three(alloc, NOTHING)?;
    holds_of(alloc, &mut disk, case)
}

#[test]
fn stops(rt: HostRuntime) -> Result<(), Fail> {
    for (row, case) in STOPS.iter().enumerate() {
        expect(&rt, row, holds(rt.alloc(), case)?);
    }
    Ok(())
}
