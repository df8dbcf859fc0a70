//! One run of the program over files in memory.

ghost use Rattle.std.specs.Prelude.{◌≡◌, false, IfOk};
ghost use Rattle.spe_disk.specs.Memory.{is_attached};

use spe_disk::{Disk, Faults, FileNo, MemDisk, MemScripts, MemSink, OpenGate};
use spe_model::{Numbers, Text, Words};
use spe_serve::spe;
use std::alloc::{AllocError, Global};
use std::process::Abort;
use std::sync::Wait;
use std::thread::Threads;

/// What a run left.
#[derive(Drop)]
pub struct Ended<D> {
    pub status: u8,
    pub commits: usize,
    pub disk: D,
    pub sink: MemSink,
}

fn push_word(alloc: Global, words: &mut Vec<Text>, word: &str) -> Result<(), AllocError> {
    let text = Text::new(String::from_str(alloc, word)?);
    words.push(text)?;
    Ok(())
}

/// The words of a command line.
pub fn words_of(alloc: Global, words: &[&str]) -> Result<Words, AllocError> {
    let mut found = Vec::new(alloc);
    for word in words {
        push_word(alloc, &mut found, word)?;
    }
    Ok(Words::new(found))
}

/// A disk with this database file, where there is one, whose listed reading calls fail.
pub fn disk_of(alloc: Global, file: Option<&[u8]>, failing: &[u64]) -> Result<MemDisk, AllocError>
    ensures { IfOk result (λ d. is_attached d ≡ false) }
{
    let faults = Faults {
        reads: Numbers::new(Vec::from_slice(alloc, failing)?),
        ops: Numbers::new(Vec::new(alloc)),
        made: false,
    };
    let mut disk = MemDisk::new(alloc, 1 << 20, 8, faults)?;
    if let Some(bytes) = file {
        let _ = disk.load(FileNo::Database, bytes);
    }
    Ok(disk)
}

/// Puts a journal of an id onto a disk.
pub fn load(disk: &mut MemDisk, id: u8, journal: &[u8])
    requires { is_attached disk.old ≡ false }
    ensures { is_attached disk.new ≡ false }
{
    if id < 16 {
        let _ = disk.load(FileNo::Journal(id), journal);
    }
}

/// A sink that takes at most so many bytes a call, and whose listed calls fail.
pub fn sink_of(alloc: Global, most: usize, failing: &[u64]) -> Result<MemSink, AllocError> {
    let failing = Numbers::new(Vec::from_slice(alloc, failing)?);
    MemSink::new(alloc, 1 << 16, most, failing)
}

// Runs the program over a disk: its status, how many commits it made, and the disk.
fn run<R: Threads + Wait + Sync, D: Disk + Send>(
    rt: &R,
    alloc: Global,
    words: Words,
    disk: D,
    sink: &mut MemSink,
) -> (u8, usize, D)
    requires { D.attached disk ≡ false }
{
    let mut scripts = MemScripts::new(alloc, Numbers::new(Vec::new(alloc)));
    let (finished, disk) = spe(rt, alloc, words, disk, &mut scripts, sink, &OpenGate);
    (finished.status, finished.order.as_slice().len(), disk)
}

/// Runs it, and gathers what it left.
pub fn ended_of<R: Threads + Wait + Sync, D: Disk + Send>(
    rt: &R,
    alloc: Global,
    words: Words,
    disk: D,
    mut sink: MemSink,
) -> Ended<D>
    requires { D.attached disk ≡ false }
{
    let (status, commits, disk) = run(rt, alloc, words, disk, &mut sink);
    Ended {
        status,
        commits,
        disk,
        sink,
    }
}

/// Runs it with a sink that takes all.
pub fn run_over<R: Threads + Wait + Sync, D: Disk + Drop + Send>(
    rt: &R,
    alloc: Global,
    words: &[&str],
    disk: D,
) -> Result<Ended<D>, AllocError>
    requires { D.attached disk ≡ false }
{
    let words = words_of(alloc, words)?;
    let sink = sink_of(alloc, 1 << 16, &[])?;
    Ok(ended_of(rt, alloc, words, disk, sink))
}

/// Whether a run ended with this status and text and made so many operations.
pub fn is_ended(ended: &Ended<MemDisk>, status: u8, text: &[u8], ops: u64) -> bool {
    ended.status == status
        && ended.commits == 0
        && ended.disk.ops() == ops
        && ended.sink.as_slice() == text
}

// Whether a run over this disk ends with this status and text, and writes nothing.
fn ends<R: Threads + Wait + Sync>(
    rt: &R,
    alloc: Global,
    words: &[&str],
    disk: MemDisk,
    end: (u8, &str),
) -> Result<bool, AllocError>
    requires { is_attached disk ≡ false }
{
    let ended = run_over(rt, alloc, words, disk)?;
    Ok(is_ended(&ended, end.0, end.1.as_bytes(), 0))
}

/// Runs the program over this file, where there is one, and expects this status and text.
pub fn expect<R: Threads + Wait + Sync + Abort>(
    rt: &R,
    alloc: Global,
    words: &[&str],
    file: Option<&[u8]>,
    end: (u8, &str),
) -> Result<(), AllocError> {
    let disk = disk_of(alloc, file, &[])?;
    expect_of(rt, alloc, words, disk, end)
}

/// The same over this disk.
pub fn expect_of<R: Threads + Wait + Sync + Abort>(
    rt: &R,
    alloc: Global,
    words: &[&str],
    disk: MemDisk,
    end: (u8, &str),
) -> Result<(), AllocError>
    requires { is_attached disk ≡ false }
{
    let holds = ends(rt, alloc, words, disk, end)?;
    expect_row(rt, end.1, 0, holds);
    Ok(())
}

/// Expects that a row of a table holds.
pub fn expect_row<R: Abort>(rt: &R, name: &str, row: u64, holds: bool) {
    assert!(rt; holds, "{name} {row}");
}
