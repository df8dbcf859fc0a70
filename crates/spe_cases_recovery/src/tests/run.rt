//! One recovery of files in memory.

ghost use Rattle.std.specs.Prelude.{◌≡◌, false, true, IfOk};
ghost use Rattle.spe_disk.specs.Memory.{is_attached};

use super::files::{PAGE, journal, spoilt};
use spe_disk::{Disk, Faults, FileNo, MemDisk};
use spe_model::{Numbers, RecoverFault, Recovered};
use spe_recover::{Want, recover};
use std::alloc::{AllocError, Global};
use std::process::Abort;

/// Which operation and which reading call fail, 0 for none, and whether the operation is made.
#[derive(Clone, Copy)]
pub struct Failing {
    pub op: u64,
    pub read: u64,
    pub made: bool,
}

/// Nothing fails.
pub const NOTHING: Failing = Failing {
    op: 0,
    read: 0,
    made: false,
};

/// A disk with this database.
pub fn disk_of(alloc: Global, file: &[u8], failing: Failing) -> Result<MemDisk, AllocError>
    ensures { IfOk result (λ d. is_attached d ≡ false) }
{
    let faults = Faults {
        reads: Numbers::new(Vec::from_slice(alloc, &[failing.read])?),
        ops: Numbers::new(Vec::from_slice(alloc, &[failing.op])?),
        made: failing.made,
    };
    let mut disk = MemDisk::new(alloc, 1 << 15, 16, faults)?;
    let _ = disk.load(FileNo::Database, file);
    Ok(disk)
}

/// A disk with the database of which these pages are overwritten.
pub fn disk_over(alloc: Global, pages: &[usize], failing: Failing) -> Result<MemDisk, AllocError>
    ensures { IfOk result (λ d. is_attached d ≡ false) }
{
    let file = spoilt(alloc, pages)?;
    disk_of(alloc, &file, failing)
}

/// Puts a journal of an id onto a disk.
pub fn load(disk: &mut MemDisk, id: u8, journal: &[u8])
    requires { is_attached disk.old ≡ false }
    ensures { is_attached disk.new ≡ false }
{
    if id < 16 {
        let _ = disk.load(FileNo::Journal(id), journal);
    }
}

/// Puts a journal of an id that holds these pages onto a disk.
pub fn load_pages(alloc: Global, disk: &mut MemDisk, id: u8, pages: &[u8]) -> Result<(), AllocError>
    requires { is_attached disk.old ≡ false }
    ensures { is_attached disk.new ≡ false }
{
    let bytes = journal(alloc, pages)?;
    load(disk, id, &bytes);
    Ok(())
}

/// Attaches a disk and recovers it.
pub fn recovered(alloc: Global, disk: &mut MemDisk) -> Result<Recovered, RecoverFault>
    requires { is_attached disk.old ≡ false }
    ensures { is_attached disk.new ≡ true }
{
    wanted(alloc, disk, Want::Any)
}

/// Attaches a disk and recovers it, where its pages are such as are wanted.
pub fn wanted(alloc: Global, disk: &mut MemDisk, want: Want) -> Result<Recovered, RecoverFault>
    requires { is_attached disk.old ≡ false }
    ensures { is_attached disk.new ≡ true }
{
    match disk.attach("two.db") {
        Ok(_) => recover(alloc, disk, want),
        Err(_) => Err(RecoverFault::Disk),
    }
}

// The first six pages of the database file that is attached.
fn file_of(alloc: Global, disk: &mut MemDisk) -> Result<Vec<u8>, AllocError>
    requires { is_attached disk.old ≡ true }
{
    let mut file = vec![in alloc; 0u8; 6 * PAGE]?;
    let _ = disk.read_at(FileNo::Database, 0, &mut file);
    Ok(file)
}

/// Whether the first six pages of the database file that is attached are as they were, but for these
/// pages, which are overwritten.
pub fn is_spoilt(alloc: Global, disk: &mut MemDisk, pages: &[usize]) -> Result<bool, AllocError>
    requires { is_attached disk.old ≡ true }
{
    let wanted = spoilt(alloc, pages)?;
    let file = file_of(alloc, disk)?;
    Ok(file.as_slice() == wanted.as_slice())
}

/// Expects that the case of a row holds.
pub fn expect(rt: &impl Abort, row: usize, holds: bool) {
    assert!(rt; holds, "row {row}");
}
