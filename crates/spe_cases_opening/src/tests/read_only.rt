//! The pages of a file, as a space that can only be read.

ghost use Rattle.std.specs.Prelude.{◌≡◌, true, false, IfOk, Some};
ghost use Rattle.spe_disk.specs.Memory.{history_of, is_attached, op_fault_count, read_fault_count};
ghost use Rattle.spe_model.specs.Settled.{IsWithinLimits};

use spe_disk::{Disk, Faults, FileNo, MemDisk};
use spe_model::{Numbers, Recovered};
use spe_room::{DiskSpace, Origin};
use spe_space::{PageSpace, SpaceFault};
use std::alloc::{AllocError, Global};
use std::marker::Brand;
use std::process::Abort;
use std::test::Fail;

#[derive(Clone, Copy)]
enum Call {
    Get(u32),
    // A page of zeros.
    Put(u32),
    Extend,
    Alloc,
    Free(u32),
}

#[derive(Clone, Copy, PartialEq, Eq)]
enum Answer {
    // The first byte of the page.
    Got(u8),
    // There is no such page, of so many.
    Out(u32, u32),
    Other,
}

// Calls one after the other on the six pages, of which the second is a leaf and the last has zeros.
static CALLS: [(Call, Answer); 14] = [
    (Call::Get(2), Answer::Got(13)),
    (Call::Get(2), Answer::Got(13)),
    (Call::Get(6), Answer::Got(0)),
    (Call::Get(0), Answer::Out(0, 6)),
    (Call::Get(7), Answer::Out(7, 6)),
    (Call::Get(u32::MAX), Answer::Out(u32::MAX, 6)),
    (Call::Put(2), Answer::Out(0, 6)),
    (Call::Put(7), Answer::Out(0, 6)),
    (Call::Extend, Answer::Out(0, 6)),
    (Call::Alloc, Answer::Out(0, 6)),
    (Call::Free(2), Answer::Out(0, 6)),
    (Call::Free(7), Answer::Out(0, 6)),
    (Call::Get(2), Answer::Got(13)),
    (Call::Get(1), Answer::Got(b'S')),
];

fn fault_of<T: Drop>(made: Result<T, SpaceFault>) -> Answer {
    match made {
        Err(SpaceFault::PageOut { page, pages }) => Answer::Out(page, pages),
        _ => Answer::Other,
    }
}

// Gets a page into bytes that were ones.
fn got<S: PageSpace>(alloc: Global, space: &mut S, number: u32) -> Result<Answer, AllocError> {
    let mut page = vec![in alloc; 1u8; space.page_size() as usize]?;
    match space.get(number, page.as_mut_slice()) {
        Ok(()) => Ok(
            page.first()
                .map_or(Answer::Other, |first| Answer::Got(*first)),
        ),
        Err(fault) => Ok(fault_of::<()>(Err(fault))),
    }
}

// Puts a page of zeros.
fn put<S: PageSpace>(alloc: Global, space: &mut S, number: u32) -> Result<Answer, AllocError> {
    let page = vec![in alloc; 0u8; space.page_size() as usize]?;
    Ok(fault_of(space.put(number, page.as_slice())))
}

fn extended<S: PageSpace>(space: &mut S) -> Answer {
    fault_of(space.extend())
}

fn handed_out<S: PageSpace>(space: &mut S) -> Answer {
    fault_of(space.alloc())
}

fn taken_back<S: PageSpace>(space: &mut S, number: u32) -> Answer {
    fault_of(space.free(number))
}

fn answer_to<S: PageSpace>(alloc: Global, space: &mut S, call: Call) -> Result<Answer, AllocError> {
    match call {
        Call::Get(page) => got(alloc, space, page),
        Call::Put(page) => put(alloc, space, page),
        Call::Extend => Ok(extended(space)),
        Call::Alloc => Ok(handed_out(space)),
        Call::Free(page) => Ok(taken_back(space, page)),
    }
}

fn expect_row(rt: &impl Abort, row: usize, holds: bool) {
    assert!(rt; holds, "call {row}");
}

fn expect_answers<R: Abort, S: PageSpace>(
    rt: &R,
    alloc: Global,
    space: &mut S,
) -> Result<(), AllocError> {
    for (row, (call, expected)) in CALLS.iter().enumerate() {
        let found = answer_to(alloc, space, *call)?;
        expect_row(rt, row, found == *expected);
    }
    Ok(())
}

// Over a disk that is attached, whatever it was before.
fn expect_of<R: Abort, K: Origin>(
    rt: &R,
    alloc: Global,
    disk: MemDisk,
    found: &Recovered,
) -> Result<(), AllocError>
    requires limits { IsWithinLimits found.now }
    requires attached { is_attached disk ≡ true }
    requires told { Some (history_of disk) ≡ K.told }
    requires faults { read_fault_count disk ≡ K.faults }
    requires operations { op_fault_count disk ≡ K.ops }
{
    let mut space = DiskSpace::<MemDisk, K>::new(disk, found);
    expect_answers(rt, alloc, &mut space)
}

#[tactic(auto, unfolding(spe_model::specs::Header::is_page_size))]
fn expect_over<R: Abort>(rt: &R, alloc: Global, mut disk: MemDisk) -> Result<(), AllocError>
    requires { is_attached disk ≡ false }
{
    let _ = disk.attach("two.db");
    let found = Recovered {
        page_size: 512,
        reserved: 0,
        pages: 6,
        node: Some(4),
        rolled: 0,
        ops: 0,
    };
    expect_of::<R, Brand>(rt, alloc, disk, &found)
}

// Six pages of zeros, but for the first bytes of two.
fn file_of(alloc: Global) -> Result<Vec<u8>, AllocError> {
    let mut file = vec![in alloc; 0u8; 3072]?;
    for (at, byte) in [(0usize, b'S'), (512, 13)] {
        if let Some(place) = file.get_mut(at) {
            *place = byte;
        }
    }
    Ok(file)
}

fn bare_disk(alloc: Global) -> Result<MemDisk, AllocError>
    ensures { IfOk result (λ d. is_attached d ≡ false) }
{
    let faults = Faults {
        reads: Numbers::new(Vec::new(alloc)),
        ops: Numbers::new(Vec::new(alloc)),
        made: false,
    };
    MemDisk::new(alloc, 1 << 20, 256, faults)
}

fn disk_of(alloc: Global) -> Result<MemDisk, AllocError>
    ensures { IfOk result (λ d. is_attached d ≡ false) }
{
    let file = file_of(alloc)?;
    let mut disk = bare_disk(alloc)?;
    let _ = disk.load(FileNo::Database, file.as_slice());
    Ok(disk)
}

#[test]
fn read_only(rt: HostRuntime) -> Result<(), Fail> {
    let disk = disk_of(rt.alloc())?;
    expect_over(&rt, rt.alloc(), disk)?;
    Ok(())
}
