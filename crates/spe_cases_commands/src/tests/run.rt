//! Runs of the program over files in memory.

ghost use Rattle.std.specs.Prelude.{◌≡◌, false, true, IfOk};
ghost use Rattle.spe_disk.specs.Memory.{is_attached};

use spe_disk::{Disk, Faults, FileNo, MemDisk, MemScripts, MemSink, OpenGate, stopped_at};
use spe_model::{Numbers, Text, Words};
use spe_serve::spe;
use std::alloc::{AllocError, Global};
use std::process::Abort;
use std::sync::Wait;
use std::thread::Threads;

fn push_word(alloc: Global, words: &mut Vec<Text>, word: &str) -> Result<(), AllocError> {
    let text = Text::new(String::from_str(alloc, word)?);
    words.push(text)?;
    Ok(())
}

fn words_of(alloc: Global, words: &[&str]) -> Result<Words, AllocError> {
    let mut found = Vec::new(alloc);
    for word in words {
        push_word(alloc, &mut found, word)?;
    }
    Ok(Words::new(found))
}

/// A disk with this file, of which this operation fails, made all the same or not; none where it is 0.
pub fn disk_of(alloc: Global, file: &[u8], op: u64, made: bool) -> Result<MemDisk, AllocError>
    ensures { IfOk result (λ d. is_attached d ≡ false) }
{
    let faults = Faults {
        reads: Numbers::new(Vec::new(alloc)),
        ops: Numbers::new(Vec::from_slice(alloc, &[op])?),
        made,
    };
    disk_with(alloc, file, faults)
}

/// A disk with this file, of which this reading call fails.
pub fn disk_reading(alloc: Global, file: &[u8], read: u64) -> Result<MemDisk, AllocError>
    ensures { IfOk result (λ d. is_attached d ≡ false) }
{
    let faults = Faults {
        reads: Numbers::new(Vec::from_slice(alloc, &[read])?),
        ops: Numbers::new(Vec::new(alloc)),
        made: false,
    };
    disk_with(alloc, file, faults)
}

fn disk_with(alloc: Global, file: &[u8], faults: Faults) -> Result<MemDisk, AllocError>
    ensures { IfOk result (λ d. is_attached d ≡ false) }
{
    let mut disk = MemDisk::new(alloc, 1 << 20, 64, faults)?;
    let _ = disk.load(FileNo::Database, file);
    Ok(disk)
}

/// What a run left.
#[derive(Drop)]
pub struct Ended {
    pub status: u8,
    pub disk: MemDisk,
    pub sink: MemSink,
}

fn run<R: Threads + Wait + Sync>(
    rt: &R,
    alloc: Global,
    words: Words,
    disk: MemDisk,
    sink: &mut MemSink,
) -> (u8, MemDisk)
    requires { is_attached disk ≡ false }
{
    let mut scripts = MemScripts::new(alloc, Numbers::new(Vec::new(alloc)));
    let (finished, disk) = spe(rt, alloc, words, disk, &mut scripts, sink, &OpenGate);
    (finished.status, disk)
}

/// Runs the program over a disk, with a sink that takes all.
pub fn ended_of<R: Threads + Wait + Sync>(
    rt: &R,
    alloc: Global,
    words: &[&str],
    disk: MemDisk,
) -> Result<Ended, AllocError>
    requires { is_attached disk ≡ false }
{
    let words = words_of(alloc, words)?;
    let mut sink = MemSink::new(alloc, 1 << 16, 1 << 16, Numbers::new(Vec::new(alloc)))?;
    let (status, disk) = run(rt, alloc, words, disk, &mut sink);
    Ok(Ended { status, disk, sink })
}

/// Whether a run ended with this status and text, and so many operations were tried.
pub fn is_ended(ended: &Ended, status: u8, text: &str, ops: u64) -> bool {
    ended.status == status && ended.sink.as_slice() == text.as_bytes() && ended.disk.ops() == ops
}

/// Whether the program over what a disk holds after so many operations, and so many bytes of the next,
/// ends with this status and text.
pub fn prints<R: Threads + Wait + Sync>(
    rt: &R,
    alloc: Global,
    words: &[&str],
    disk: &MemDisk,
    stop: (usize, usize),
    wanted: (u8, &str),
) -> Result<bool, AllocError> {
    let left = stopped_at(alloc, disk, stop.0, stop.1)?;
    let ended = ended_of(rt, alloc, words, left)?;
    Ok(ended.status == wanted.0 && ended.sink.as_slice() == wanted.1.as_bytes())
}

// Reads a file from its start, and says whether it has just these bytes.
fn reads(alloc: Global, disk: &mut MemDisk, wanted: &[u8]) -> Result<bool, AllocError>
    requires { is_attached disk.old ≡ true }
{
    let mut found = vec![in alloc; 0u8; wanted.len()]?;
    let read = disk.read_at(FileNo::Database, 0, &mut found);
    let length = disk.length(FileNo::Database);
    Ok(read.is_ok() && length == Ok(Some(wanted.len() as u64)) && found.as_slice() == wanted)
}

/// Whether the file that a disk holds at last has just these bytes.
pub fn holds(alloc: Global, disk: &MemDisk, wanted: &[u8]) -> Result<bool, AllocError> {
    let mut left = stopped_at(alloc, disk, 64, 0)?;
    let _ = left.attach("left.db");
    reads(alloc, &mut left, wanted)
}

/// Expects that a step of a test holds.
pub fn expect(rt: &impl Abort, step: &str, at: u64, holds: bool) {
    assert!(rt; holds, "{step} {at}");
}
