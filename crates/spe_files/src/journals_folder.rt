//! The folder of journals, once none of them is needed.

use std::alloc::Global;
use std::fs::{self, DirEntry};
use std::io;
use std::rt::Files;

// The names of the journals in their folder.
static NAMES: [&str; 16] = [
    "0-journal",
    "1-journal",
    "2-journal",
    "3-journal",
    "4-journal",
    "5-journal",
    "6-journal",
    "7-journal",
    "8-journal",
    "9-journal",
    "10-journal",
    "11-journal",
    "12-journal",
    "13-journal",
    "14-journal",
    "15-journal",
];

// Whether a file of a folder is an empty journal.
fn is_empty_journal<R: Files>(entry: &DirEntry<R, Global>) -> io::Result<bool> {
    let about = entry.metadata()?;
    let named = NAMES.iter().any(|name| *name == entry.file_name());
    Ok(named && about.is_file() && about.len() == 0)
}

// Whether there is nothing in a folder but empty journals.
fn has_only_empty_journals<R: Files + Alloc<A = Global> + Clone + Drop>(
    rt: &R,
    folder: &str,
) -> io::Result<bool> {
    for entry in fs::read_dir(rt, folder)? {
        if !is_empty_journal(&entry?)? {
            return Ok(false);
        }
    }
    Ok(true)
}

// Removes a file, if there is one.
fn remove<R: Files>(rt: &R, path: &str) -> io::Result<()> {
    match fs::remove_file(rt, path) {
        Err(error) if error.kind() != io::ErrorKind::NotFound => Err(error),
        _ => Ok(()),
    }
}

/// Removes a folder of journals with the journals in it, where each of them is empty and nothing else is in
/// the folder. `false` where that is not so, and nothing was removed.
pub fn remove_folder<R: Files + Alloc<A = Global> + Clone + Drop>(
    rt: &R,
    folder: &str,
) -> io::Result<bool> {
    if !has_only_empty_journals(rt, folder)? {
        return Ok(false);
    }
    for name in &NAMES {
        let path = format!(in rt.alloc(); "{folder}/{name}")?;
        remove(rt, path.as_str())?;
    }
    fs::remove_dir(rt, folder)?;
    Ok(true)
}
