//! What is printed of a database with journals beside it.

ghost use Rattle.std.specs.Prelude.{◌≡◌, false, IfOk};
ghost use Rattle.spe_disk.specs.Memory.{is_attached};

use super::files::{PEOPLE, TWO, file_of, journal, lay, put, two};
use super::run::{Ended, disk_of, expect_row, is_ended, load, run_over};
use spe_disk::{MemDisk, stopped_at};
use std::alloc::{AllocError, Global};
use std::sync::Wait;
use std::test::Fail;
use std::thread::Threads;

// The journals that hold page 2, the page size that their heads name, and the operations, status and
// text of a run where page 2 was overwritten.
static JOURNALS: [Case; 3] = [
    (&[7], 512, 2, 0, "1|1|'ann'\n2|2|'bob'\n3|3|NULL\nrows 3\n"),
    (&[0], 1024, 0, 2, "refused journal-page 0 1024\n"),
    (&[0, 3], 512, 0, 2, "refused overlap 2 0 3\n"),
];

type Case = (&'static [u8], u16, u64, u8, &'static str);

// The people with page 2 overwritten.
fn overwritten(alloc: Global) -> Result<Vec<u8>, AllocError> {
    let mut file = file_of(alloc, 1024, &PEOPLE)?;
    lay(&mut file, &[(512, b"\xff\xff\xff\xff\xff\xff\xff\xff")]);
    lay(&mut file, &[(1000, b"\xff\xff")]);
    Ok(file)
}

// Puts a journal of page 2 onto a disk.
fn load_journal(alloc: Global, disk: &mut MemDisk, id: u8, page_size: u16) -> Result<(), AllocError>
    requires { is_attached disk.old ≡ false }
    ensures { is_attached disk.new ≡ false }
{
    let file = file_of(alloc, 1024, &PEOPLE)?;
    let mut bytes = journal(alloc, 2, &file, 2)?;
    put(&mut bytes, 26, (page_size / 256) as u8);
    load(disk, id, &bytes);
    Ok(())
}

// The disk of a case, of one journal or two.
fn disk_for(alloc: Global, case: &Case) -> Result<MemDisk, AllocError>
    ensures { IfOk result (λ d. is_attached d ≡ false) }
{
    let mut disk = disk_of(alloc, Some(&overwritten(alloc)?), &[])?;
    let mut left = case.0;
    while let [id, rest @ ..] = left {
        load_journal(alloc, &mut disk, *id, case.1)?;
        left = rest;
    }
    Ok(disk)
}

fn journal_holds<R: Threads + Wait + Sync>(
    rt: &R,
    alloc: Global,
    case: &Case,
) -> Result<bool, AllocError> {
    let (_, _, ops, status, text) = *case;
    let disk = disk_for(alloc, case)?;
    let ended = run_over(rt, alloc, &["rows", "people.db", "p"], disk)?;
    Ok(is_ended(&ended, status, text.as_bytes(), ops))
}

#[test]
fn journals(rt: HostRuntime) -> Result<(), Fail> {
    for case in &JOURNALS {
        let holds = journal_holds(&rt, rt.alloc(), case)?;
        expect_row(&rt, case.4, 0, holds);
    }
    Ok(())
}

// The file with the bytes of its pages 2, 3 and 5 overwritten.
fn spoilt(alloc: Global, file: &[u8]) -> Result<Vec<u8>, AllocError> {
    let mut found = Vec::new(alloc);
    for (place, byte) in file.iter().enumerate() {
        let page = place / 512 + 1;
        found.push(if matches!(page, 2 | 3 | 5) {
            0xff
        } else {
            *byte
        })?;
    }
    Ok(found)
}

// Puts a journal that holds this page of the file onto a disk.
fn load_page(
    alloc: Global,
    disk: &mut MemDisk,
    id: u8,
    file: &[u8],
    page: u8,
) -> Result<(), AllocError>
    requires { is_attached disk.old ≡ false }
    ensures { is_attached disk.new ≡ false }
{
    let bytes = journal(alloc, 6, file, page)?;
    load(disk, id, &bytes);
    Ok(())
}

// Puts journals 0, 1 and 2, which hold pages 2, 3 and 5, onto a disk.
fn load_three(alloc: Global, disk: &mut MemDisk) -> Result<(), AllocError>
    requires { is_attached disk.old ≡ false }
    ensures { is_attached disk.new ≡ false }
{
    let file = two(alloc)?;
    load_page(alloc, disk, 0, &file, 2)?;
    load_page(alloc, disk, 1, &file, 3)?;
    load_page(alloc, disk, 2, &file, 5)
}

// Two tables with these pages overwritten.
fn overwritten_two(alloc: Global) -> Result<MemDisk, AllocError>
    ensures { IfOk result (λ d. is_attached d ≡ false) }
{
    let file = two(alloc)?;
    let bytes = spoilt(alloc, &file)?;
    disk_of(alloc, Some(&bytes), &[])
}

// The same, with the journals.
fn three(alloc: Global) -> Result<MemDisk, AllocError>
    ensures { IfOk result (λ d. is_attached d ≡ false) }
{
    let mut disk = overwritten_two(alloc)?;
    load_three(alloc, &mut disk)?;
    Ok(disk)
}

const WORDS: [&str; 2] = ["check", "two.db"];

const SOUND: &[u8] = b"ok pages 6 tables 2 rows 0 free 2\n";

// After so many operations of a check, one that is run again makes so many.
static STOPS: [(usize, u64); 6] = [(0, 6), (1, 6), (3, 6), (4, 4), (5, 2), (6, 0)];

// Whether a check of this disk finds it sound, with so many operations.
fn is_sound<R: Threads + Wait + Sync>(
    rt: &R,
    alloc: Global,
    disk: MemDisk,
    ops: u64,
) -> Result<bool, AllocError>
    requires { is_attached disk ≡ false }
{
    let ended = run_over(rt, alloc, &WORDS, disk)?;
    Ok(is_ended(&ended, 0, SOUND, ops))
}

// The same of what a stop after a check leaves.
fn is_sound_again<R: Threads + Wait + Sync>(
    rt: &R,
    alloc: Global,
    disk: &MemDisk,
    case: (usize, u64),
) -> Result<bool, AllocError> {
    let stopped = stopped_at(alloc, disk, case.0, 0)?;
    is_sound(rt, alloc, stopped, case.1)
}

fn three_run<R: Threads + Wait + Sync>(
    rt: &R,
    alloc: Global,
) -> Result<Ended<MemDisk>, AllocError> {
    let disk = three(alloc)?;
    run_over(rt, alloc, &WORDS, disk)
}

// Whether a check found all sound, and another one after a stop does.
fn has_held<R: Threads + Wait + Sync>(
    rt: &R,
    alloc: Global,
    first: &Ended<MemDisk>,
    case: (usize, u64),
) -> Result<bool, AllocError> {
    let sound = is_ended(first, 0, SOUND, 6);
    let again = is_sound_again(rt, alloc, &first.disk, case)?;
    Ok(sound && again)
}

fn holds<R: Threads + Wait + Sync>(
    rt: &R,
    alloc: Global,
    case: (usize, u64),
) -> Result<bool, AllocError> {
    let first = three_run(rt, alloc)?;
    has_held(rt, alloc, &first, case)
}

#[test]
fn three_journals(rt: HostRuntime) -> Result<(), Fail> {
    for case in &STOPS {
        let holds = holds(&rt, rt.alloc(), *case)?;
        expect_row(&rt, "stopped", case.0 as u64, holds);
    }
    Ok(())
}

// Lays the offset and the cell of a leaf's row, of six bytes with the value 10.
fn lay_row(file: &mut [u8], page: usize, first: u8, i: u8) {
    let cell = 506usize.saturating_sub(usize::from(i).wrapping_mul(6));
    let at = page
        .wrapping_add(8)
        .wrapping_add(usize::from(i).wrapping_mul(2));
    put(file, at, (cell / 256) as u8);
    put(file, at.wrapping_add(1), (cell % 256) as u8);
    let row = [4, first.wrapping_add(i), 3, 0, 1, 10];
    for (place, byte) in row.iter().enumerate() {
        put(file, page.wrapping_add(cell).wrapping_add(place), *byte);
    }
}

// Lays a leaf with these rows, from the page's end.
fn lay_rows(file: &mut [u8], page: usize, first: u8, count: u8) {
    put(file, page, 13);
    put(file, page.wrapping_add(4), count);
    for i in 0..count {
        lay_row(file, page, first, i);
    }
}

// The file grown to 22 pages: `b` has the rows 1 to 64 on the pages 7 and 8, and trunk 5 the leaves 22 down to 9.
fn grown(alloc: Global) -> Result<Vec<u8>, AllocError> {
    let mut file = file_of(alloc, 22 * 512, &TWO)?;
    lay(
        &mut file,
        &[
            (31, b"\x16"),
            (
                1024,
                b"\x05\x00\x00\x00\x01\x01\xfb\x00\x00\x00\x00\x08\x01\xfb",
            ),
            (1534, b"\x07\x3f"),
            (2055, b"\x0e"),
        ],
    );
    for i in 0..14u8 {
        put(
            &mut file,
            2059usize.wrapping_add(usize::from(i).wrapping_mul(4)),
            22u8.wrapping_sub(i),
        );
    }
    lay_rows(&mut file, 3072, 1, 63);
    lay_rows(&mut file, 3584, 64, 1);
    Ok(file)
}

// A journal of the grown file's page 2.
fn grown_journal(alloc: Global) -> Result<Vec<u8>, AllocError> {
    let file = grown(alloc)?;
    journal(alloc, 6, &file, 2)
}

// Puts that journal onto a disk.
fn load_grown(alloc: Global, disk: &mut MemDisk) -> Result<(), AllocError>
    requires { is_attached disk.old ≡ false }
    ensures { is_attached disk.new ≡ false }
{
    let held = grown_journal(alloc)?;
    load(disk, 0, &held);
    Ok(())
}

// The grown file with its page 2 overwritten.
fn overwritten_grown(alloc: Global) -> Result<MemDisk, AllocError>
    ensures { IfOk result (λ d. is_attached d ≡ false) }
{
    let mut file = grown(alloc)?;
    put(&mut file, 512, 0xff);
    disk_of(alloc, Some(&file), &[])
}

// A journal from before a commit that made the file longer: its page goes back, and the file keeps its pages.
fn grown_disk(alloc: Global) -> Result<MemDisk, AllocError>
    ensures { IfOk result (λ d. is_attached d ≡ false) }
{
    let mut disk = overwritten_grown(alloc)?;
    load_grown(alloc, &mut disk)?;
    Ok(disk)
}

fn grown_run<R: Threads + Wait + Sync>(
    rt: &R,
    alloc: Global,
) -> Result<Ended<MemDisk>, AllocError> {
    let disk = grown_disk(alloc)?;
    run_over(rt, alloc, &WORDS, disk)
}

#[test]
fn grown_file(rt: HostRuntime) -> Result<(), Fail> {
    let text = b"ok pages 22 tables 2 rows 64 free 16\n";
    let ended = grown_run(&rt, rt.alloc())?;
    expect_row(&rt, "grown", 22, is_ended(&ended, 0, text, 2));
    Ok(())
}
