//! What is wanted of the recovered pages, and files that are longer than those.

ghost use Rattle.std.specs.Prelude.{◌≡◌, false, IfOk};
ghost use Rattle.spe_disk.specs.Memory.{is_attached};

use super::files::{PAGE, journal, lay, spoilt, two};
use super::run::{NOTHING, disk_of, expect, load, load_pages, recovered, wanted};
use super::watched::{Made, Watched};
use spe_disk::{Disk, FileNo, MemDisk};
use spe_model::RecoverFault;
use spe_recover::Want;
use std::alloc::{AllocError, Global};
use std::test::Fail;

// A byte that is laid over the file's header, and whether it is then in server form.
static FORMS: [Form; 5] = [
    (32, 0, true),
    // no page of free lists, free pages in stock form, no count of pages, and one that does not count
    (35, 0, false),
    (39, 1, false),
    (31, 0, false),
    (95, 2, false),
];

type Form = (usize, u8, bool);

// The file with page 2 overwritten and this byte in its header.
fn file_for(alloc: Global, at: usize, byte: u8) -> Result<Vec<u8>, AllocError> {
    let mut file = spoilt(alloc, &[2])?;
    lay(&mut file, at, &[byte]);
    Ok(file)
}

// Whether a file that is wanted in server form is recovered so, with so many operations.
fn form_holds_of(alloc: Global, disk: &mut MemDisk, prepared: bool) -> bool
    requires { is_attached disk.old ≡ false }
{
    match wanted(alloc, disk, Want::Prepared) {
        Ok(found) => prepared && found.node == Some(4) && disk.ops() == 2,
        Err(fault) => !prepared && fault == RecoverFault::NotPrepared && disk.ops() == 0,
    }
}

fn form_disk(alloc: Global, case: &Form) -> Result<MemDisk, AllocError>
    ensures { IfOk result (λ d. is_attached d ≡ false) }
{
    let file = file_for(alloc, case.0, case.1)?;
    disk_of(alloc, &file, NOTHING)
}

fn form_holds(alloc: Global, case: &Form) -> Result<bool, AllocError> {
    let mut disk = form_disk(alloc, case)?;
    load_pages(alloc, &mut disk, 0, &[2])?;
    Ok(form_holds_of(alloc, &mut disk, case.2))
}

#[test]
fn forms(rt: HostRuntime) -> Result<(), Fail> {
    for (row, case) in FORMS.iter().enumerate() {
        expect(&rt, row, form_holds(rt.alloc(), case)?);
    }
    Ok(())
}

// How many bytes the file has, how many a journal of page 2 has, and what recovery makes.
static LENGTHS: [Length; 4] = [
    (
        3584,
        1032,
        &[
            Made::Write(FileNo::Database, 512, 512),
            Made::Cut(FileNo::Database, 3072),
            Made::Cut(FileNo::Journal(0), 0),
        ],
    ),
    (
        3073,
        1,
        &[
            Made::Cut(FileNo::Database, 3072),
            Made::Cut(FileNo::Journal(0), 0),
        ],
    ),
    (3072, 1, &[Made::Cut(FileNo::Journal(0), 0)]),
    // nothing is cut where no journal has bytes
    (3584, 0, &[]),
];

type Length = (usize, usize, &'static [Made]);

// The file, cut or with bytes 7 behind it.
fn file_of(alloc: Global, size: usize) -> Result<Vec<u8>, AllocError> {
    let mut file = two(alloc)?;
    file.resize(size, 7)?;
    Ok(file)
}

// A disk whose file has so many bytes, with so many of a journal of page 2.
fn disk_with(alloc: Global, size: usize, held: usize) -> Result<MemDisk, AllocError>
    ensures { IfOk result (λ d. is_attached d ≡ false) }
{
    let file = file_of(alloc, size)?;
    let mut disk = disk_of(alloc, &file, NOTHING)?;
    load_front(alloc, &mut disk, held)?;
    Ok(disk)
}

// Puts so many bytes of a journal of page 2 onto a disk.
fn load_front(alloc: Global, disk: &mut MemDisk, held: usize) -> Result<(), AllocError>
    requires { is_attached disk.old ≡ false }
    ensures { is_attached disk.new ≡ false }
{
    let mut bytes = journal(alloc, &[2])?;
    bytes.truncate(held);
    load(disk, 0, &bytes);
    Ok(())
}

fn makes(alloc: Global, watched: &mut Watched, made: &[Made]) -> bool
    requires { is_attached watched.old.disk ≡ false }
{
    match watched.recover(alloc) {
        Ok(found) => found.pages == 6 && watched.made() == made,
        Err(_) => false,
    }
}

fn length_holds(alloc: Global, case: &Length) -> Result<bool, AllocError> {
    let mut watched = Watched::over(alloc, disk_with(alloc, case.0, case.1)?);
    Ok(makes(alloc, &mut watched, case.2))
}

#[test]
fn lengths(rt: HostRuntime) -> Result<(), Fail> {
    for (row, case) in LENGTHS.iter().enumerate() {
        expect(&rt, row, length_holds(rt.alloc(), case)?);
    }
    Ok(())
}

// Whether recovery makes three operations, and the file has six pages then.
fn is_cut(alloc: Global, disk: &mut MemDisk) -> bool
    requires { is_attached disk.old ≡ false }
{
    let made = match recovered(alloc, disk) {
        Ok(found) => found.ops == 3,
        Err(_) => false,
    };
    made && disk.length(FileNo::Database) == Ok(Some(3072))
}

// The file itself becomes as long as its pages.
#[test]
fn a_longer_file(rt: HostRuntime) -> Result<(), Fail> {
    let mut disk = disk_with(rt.alloc(), 7 * PAGE, 1032)?;
    let cut = is_cut(rt.alloc(), &mut disk);
    assert!(rt; cut);
    Ok(())
}
