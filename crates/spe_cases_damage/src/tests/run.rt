//! One run of the program over files in memory.

ghost use Rattle.std.specs.Prelude.{◌≡◌, false, IfOk};
ghost use Rattle.spe_disk.specs.Memory.{is_attached};

use super::files::{Case, Patch, lay};
use spe_disk::{Faults, FileNo, MemDisk, MemScripts, MemSink, OpenGate};
use spe_model::{Numbers, Text, Words};
use spe_serve::spe;
use std::alloc::{AllocError, Global};
use std::process::Abort;
use std::sync::Wait;
use std::thread::Threads;

/// What a run left.
#[derive(Drop)]
struct Ended {
    status: u8,
    commits: usize,
    disk: MemDisk,
    sink: MemSink,
}

fn push_word(alloc: Global, words: &mut Vec<Text>, word: &str) -> Result<(), AllocError> {
    let text = Text::new(String::from_str(alloc, word)?);
    words.push(text)?;
    Ok(())
}

fn words_of(alloc: Global, words: &[&str]) -> Result<Words, AllocError> {
    let mut found = Vec::new(alloc);
    for word in words {
        push_word(alloc, &mut found, word)?;
    }
    Ok(Words::new(found))
}

// A disk with this database file.
fn disk_of(alloc: Global, file: &[u8]) -> Result<MemDisk, AllocError>
    ensures { IfOk result (λ d. is_attached d ≡ false) }
{
    let faults = Faults {
        reads: Numbers::new(Vec::new(alloc)),
        ops: Numbers::new(Vec::new(alloc)),
        made: false,
    };
    let mut disk = MemDisk::new(alloc, 1 << 16, 8, faults)?;
    let _ = disk.load(FileNo::Database, file);
    Ok(disk)
}

fn sink_of(alloc: Global) -> Result<MemSink, AllocError> {
    MemSink::new(alloc, 1 << 14, 1 << 14, Numbers::new(Vec::new(alloc)))
}

fn run_with<R: Threads + Wait + Sync>(
    rt: &R,
    alloc: Global,
    words: Words,
    disk: MemDisk,
    mut sink: MemSink,
) -> Ended
    requires { is_attached disk ≡ false }
{
    let mut scripts = MemScripts::new(alloc, Numbers::new(Vec::new(alloc)));
    let (finished, disk) = spe(rt, alloc, words, disk, &mut scripts, &mut sink, &OpenGate);
    Ended {
        status: finished.status,
        commits: finished.order.as_slice().len(),
        disk,
        sink,
    }
}

// Runs the program over this file.
fn run<R: Threads + Wait + Sync>(
    rt: &R,
    alloc: Global,
    words: &[&str],
    file: &[u8],
) -> Result<Ended, AllocError> {
    let words = words_of(alloc, words)?;
    let disk = disk_of(alloc, file)?;
    let sink = sink_of(alloc)?;
    Ok(run_with(rt, alloc, words, disk, sink))
}

// Whether a run ended with this status and text and wrote nothing.
fn is_ended(ended: &Ended, status: u8, text: &[u8]) -> bool {
    ended.status == status
        && ended.commits == 0
        && ended.disk.ops() == 0
        && ended.sink.as_slice() == text
}

// Whether the program, over this file, ends so.
fn ends<R: Threads + Wait + Sync>(
    rt: &R,
    alloc: Global,
    words: &[&str],
    file: &[u8],
    (status, text): (u8, &str),
) -> Result<bool, AllocError> {
    let ended = run(rt, alloc, words, file)?;
    Ok(is_ended(&ended, status, text.as_bytes()))
}

/// Runs the program over this file, and expects this status and text, and that nothing was written.
pub fn expect<R: Threads + Wait + Sync + Abort>(
    rt: &R,
    alloc: Global,
    words: &[&str],
    file: &[u8],
    end: (u8, &str),
) -> Result<(), AllocError> {
    let holds = ends(rt, alloc, words, file, end)?;
    expect_case(rt, end.1, holds);
    Ok(())
}

/// The file with these changes.
pub fn with_changes(alloc: Global, base: &[u8], patches: &[Patch]) -> Result<Vec<u8>, AllocError> {
    let mut file = Vec::from_slice(alloc, base)?;
    lay(&mut file, patches);
    Ok(file)
}

// Whether a check of the file with the changes of a case ends with this status and the text of the case.
fn is_checked<R: Threads + Wait + Sync>(
    rt: &R,
    alloc: Global,
    base: &[u8],
    case: &Case,
    status: u8,
) -> Result<bool, AllocError> {
    let file = with_changes(alloc, base, case.1)?;
    ends(rt, alloc, &["check", "d.db"], &file, (status, case.2))
}

/// Checks the file with the changes of each case, and expects this status and the text of the case.
pub fn expect_checks<R: Threads + Wait + Sync + Abort>(
    rt: &R,
    alloc: Global,
    base: &[u8],
    cases: &[Case],
    status: u8,
) -> Result<(), AllocError> {
    for case in cases {
        let holds = is_checked(rt, alloc, base, case, status)?;
        expect_case(rt, case.0, holds);
    }
    Ok(())
}

fn expect_case<R: Abort>(rt: &R, name: &str, holds: bool) {
    assert!(rt; holds, "{name}");
}
