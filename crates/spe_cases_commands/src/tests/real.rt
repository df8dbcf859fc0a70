//! Journals of real files that are removed with their folder.

use spe_disk::{Disk, FileNo};
use spe_files::FileDisk;
use std::alloc::{Alloc, Global};
use std::fs::File;
use std::process::Abort;
use std::rt::Files;
use std::test::Fail;
use std::{fs, io, process};

// Makes the journals of a database, writes bytes to the last, and removes them where it may.
fn removes<R: Files<File = File> + Alloc<A = Global> + Clone + Drop>(
    rt: &R,
    name: &str,
    bytes: &[u8],
) -> io::Result<bool> {
    let mut disk = FileDisk::new(rt, rt.alloc());
    let _ = disk.attach(name);
    let _ = disk.make_journals();
    let _ = disk.write_at(FileNo::Journal(15), 0, bytes);
    disk.remove_journals()
}

// Whether nothing is removed where a journal has a byte, or another file is in the folder, and all else.
fn removes_empty_ones<R: Files<File = File> + Alloc<A = Global> + Clone + Drop>(
    rt: &R,
    name: &str,
) -> io::Result<bool> {
    let folder = format!(in rt.alloc(); "{name}-journal")?;
    let last = format!(in rt.alloc(); "{name}-journal/15-journal")?;
    let other = format!(in rt.alloc(); "{name}-journal/16-journal")?;
    let hot = removes(rt, name, b"a")?;
    fs::write(rt, last.as_str(), b"".as_slice())?;
    fs::write(rt, other.as_str(), b"".as_slice())?;
    let foreign = removes(rt, name, b"")?;
    fs::remove_file(rt, other.as_str())?;
    let removed = removes(rt, name, b"")?;
    let there = fs::metadata(rt, folder.as_str()).is_ok();
    Ok(!hot && !foreign && removed && !there)
}

#[test]
fn removed_journals(rt: HostRuntime) -> Result<(), Fail> {
    let process = process::id(rt.process());
    let name = format!(in rt.alloc(); "/tmp/spe_cases_commands-{process}-removed")?;
    fs::write(&rt, name.as_str(), b"abcd".as_slice())?;
    let holds = removes_empty_ones(&rt, name.as_str())?;
    fs::remove_file(&rt, name.as_str())?;
    assert!(rt; holds);
    Ok(())
}
