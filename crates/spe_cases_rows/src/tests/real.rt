//! What `rows` does over real files, with hot journals beside the database.

use super::files::{SIGNS, SIGNS_ROWS, file_of, journal};
use super::run::{Ended, expect_row, run_over};
use spe_files::FileDisk;
use std::alloc::{Alloc, AllocError, Global};
use std::fs::File;
use std::rt::Files;
use std::test::Fail;
use std::{fs, io, process};

// The file with its page 1 from byte 24 on, and its other pages, overwritten.
fn spoilt(alloc: Global, file: &[u8]) -> Result<Vec<u8>, AllocError> {
    let mut found = Vec::new(alloc);
    for (place, byte) in file.iter().enumerate() {
        found.push(if place < 24 { *byte } else { 0xee })?;
    }
    Ok(found)
}

// Each journal, with the page that it holds.
static JOURNALS: [(u8, u8); 3] = [(0, 2), (1, 3), (7, 1)];

fn lay_out_journal<R: Files<File = File>>(
    rt: &R,
    alloc: Global,
    folder: &str,
    held: (u8, u8),
) -> io::Result<()> {
    let file = file_of(alloc, 1536, &SIGNS)?;
    let bytes = journal(alloc, 3, &file, held.1)?;
    let id = held.0;
    let path = format!(in alloc; "{folder}/{id}-journal")?;
    fs::write(rt, path.as_str(), bytes.as_slice())
}

fn write_spoilt<R: Files<File = File>>(rt: &R, alloc: Global, name: &str) -> io::Result<()> {
    let file = file_of(alloc, 1536, &SIGNS)?;
    let bytes = spoilt(alloc, &file)?;
    fs::write(rt, name, bytes.as_slice())
}

// Writes the spoilt file, and the journals into its folder.
fn lay_out<R: Files<File = File>>(rt: &R, alloc: Global, name: &str) -> io::Result<()> {
    let folder = format!(in alloc; "{name}-journal")?;
    write_spoilt(rt, alloc, name)?;
    fs::create_dir(rt, folder.as_str())?;
    for held in &JOURNALS {
        lay_out_journal(rt, alloc, folder.as_str(), *held)?;
    }
    Ok(())
}

fn is_empty<R: Files<File = File>>(
    rt: &R,
    alloc: Global,
    folder: &str,
    id: u8,
) -> io::Result<bool> {
    let path = format!(in alloc; "{folder}/{id}-journal")?;
    Ok(fs::metadata(rt, path.as_str())?.len() == 0)
}

// Whether each journal is empty.
fn are_empty<R: Files<File = File>>(rt: &R, alloc: Global, folder: &str) -> io::Result<bool> {
    Ok(
        is_empty(rt, alloc, folder, 0)?
            && is_empty(rt, alloc, folder, 1)?
            && is_empty(rt, alloc, folder, 7)?,
    )
}

// Whether the file is whole.
fn is_whole<R: Files<File = File> + Alloc>(rt: &R, alloc: Global, name: &str) -> io::Result<bool> {
    let file = file_of(alloc, 1536, &SIGNS)?;
    let after = fs::read(rt, name)?;
    Ok(after.as_slice() == file.as_slice())
}

// Whether each journal is empty and the file is whole. Removes them.
fn is_left<R: Files<File = File> + Alloc>(rt: &R, alloc: Global, name: &str) -> io::Result<bool> {
    let folder = format!(in alloc; "{name}-journal")?;
    let empty = are_empty(rt, alloc, folder.as_str())?;
    let whole = is_whole(rt, alloc, name)?;
    fs::remove_dir_all(rt, folder.as_str())?;
    fs::remove_file(rt, name)?;
    Ok(empty && whole)
}

fn is_printed<D>(ended: &Ended<D>) -> bool {
    ended.status == 0 && ended.sink.as_slice() == SIGNS_ROWS.as_bytes()
}

// Three journals hold the three pages of the file. Afterwards each is empty, and the file is whole.
#[test]
fn three_journals(rt: HostRuntime) -> Result<(), Fail> {
    let process = process::id(rt.process());
    let name = format!(in rt.alloc(); "/tmp/spe_cases_rows-{process}.db")?;
    lay_out(&rt, rt.alloc(), name.as_str())?;
    let disk = FileDisk::new(&rt, rt.alloc());
    let printed = is_printed(&run_over(&rt, rt.alloc(), &["rows", name.as_str(), "p"], disk)?);
    let left = is_left(&rt, rt.alloc(), name.as_str())?;
    expect_row(&rt, "real files", 3, printed && left);
    Ok(())
}
