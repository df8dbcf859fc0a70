//! Clients that are run over files in memory.

ghost use Rattle.std.specs.Prelude.{◌≡◌, false, IfOk};
ghost use Rattle.spe_disk.specs.Memory.{is_attached};

use super::files::{TWO_LENGTH, two_of};
use spe_disk::{Faults, FileNo, MemDisk, MemScripts, MemSink, OpenGate, stopped_at};
use spe_model::{Numbers, Text, Words};
use spe_serve::{Finished, spe};
use std::alloc::{AllocError, Global};
use std::process::Abort;
use std::sync::Wait;
use std::thread::Threads;

/// The name of a script, and its text.
pub type Script = (&'static str, &'static [u8]);

fn push_word(alloc: Global, words: &mut Vec<Text>, word: &str) -> Result<(), AllocError> {
    let text = Text::new(String::from_str(alloc, word)?);
    words.push(text)?;
    Ok(())
}

/// These words.
pub fn words_of(alloc: Global, words: &[&str]) -> Result<Words, AllocError> {
    let mut found = Vec::new(alloc);
    for word in words {
        push_word(alloc, &mut found, word)?;
    }
    Ok(Words::new(found))
}

fn numbers_of(alloc: Global, numbers: &[u64]) -> Result<Numbers, AllocError> {
    Ok(Numbers::new(Vec::from_slice(alloc, numbers)?))
}

/// No call of a disk fails.
pub fn no_faults(alloc: Global) -> Faults {
    Faults {
        reads: Numbers::new(Vec::new(alloc)),
        ops: Numbers::new(Vec::new(alloc)),
        made: false,
    }
}

/// This operation fails, made all the same or not.
pub fn op_fails(alloc: Global, op: u64, made: bool) -> Result<Faults, AllocError> {
    let ops = numbers_of(alloc, &[op])?;
    let reads = Numbers::new(Vec::new(alloc));
    Ok(Faults { reads, ops, made })
}

/// This reading call fails.
pub fn read_fails(alloc: Global, read: u64) -> Result<Faults, AllocError> {
    let reads = numbers_of(alloc, &[read])?;
    let ops = Numbers::new(Vec::new(alloc));
    Ok(Faults {
        reads,
        ops,
        made: false,
    })
}

/// A disk with no file.
pub fn bare_disk(alloc: Global, faults: Faults) -> Result<MemDisk, AllocError>
    ensures { IfOk result (λ d. is_attached d ≡ false) }
{
    MemDisk::new(alloc, 1 << 20, 256, faults)
}

/// A disk with this file.
pub fn disk_with(alloc: Global, file: &[u8], faults: Faults) -> Result<MemDisk, AllocError>
    ensures { IfOk result (λ d. is_attached d ≡ false) }
{
    let mut disk = bare_disk(alloc, faults)?;
    let _ = disk.load(FileNo::Database, file);
    Ok(disk)
}

/// A disk with the file that has two empty tables.
pub fn two_disk(alloc: Global, faults: Faults) -> Result<MemDisk, AllocError>
    ensures { IfOk result (λ d. is_attached d ≡ false) }
{
    let file = two_of(alloc, TWO_LENGTH, &[])?;
    disk_with(alloc, &file, faults)
}

// Gives each name its text.
fn add_all(scripts: &mut MemScripts, texts: &[Script]) -> Result<(), AllocError> {
    for (name, text) in texts {
        scripts.add(name, text)?;
    }
    Ok(())
}

/// These scripts, of which these readings fail.
pub fn scripts_of(
    alloc: Global,
    texts: &[Script],
    fails: &[u64],
) -> Result<MemScripts, AllocError> {
    let mut scripts = MemScripts::new(alloc, numbers_of(alloc, fails)?);
    add_all(&mut scripts, texts)?;
    Ok(scripts)
}

/// A sink that takes at most so many bytes a call, of which these calls fail.
pub fn sink_of(alloc: Global, most: usize, fails: &[u64]) -> Result<MemSink, AllocError> {
    let fails = numbers_of(alloc, fails)?;
    MemSink::new(alloc, 1 << 16, most, fails)
}

/// What a run left.
#[derive(Drop)]
pub struct Ended {
    pub finished: Finished,
    pub disk: MemDisk,
    pub sink: MemSink,
}

/// Runs the program over a disk, with these scripts and this sink.
pub fn ended_of<R: Threads + Wait + Sync>(
    rt: &R,
    alloc: Global,
    words: &[&str],
    disk: MemDisk,
    scripts: &mut MemScripts,
    sink: MemSink,
) -> Result<Ended, AllocError>
    requires { is_attached disk ≡ false }
{
    let words = words_of(alloc, words)?;
    let mut sink = sink;
    let (finished, disk) = spe(rt, alloc, words, disk, scripts, &mut sink, &OpenGate);
    Ok(Ended {
        finished,
        disk,
        sink,
    })
}

// Runs the program over a disk, with these scripts and a sink that takes all.
fn run_with<R: Threads + Wait + Sync>(
    rt: &R,
    alloc: Global,
    words: &[&str],
    scripts: &mut MemScripts,
    disk: MemDisk,
) -> Result<Ended, AllocError>
    requires { is_attached disk ≡ false }
{
    let sink = sink_of(alloc, 1 << 16, &[])?;
    ended_of(rt, alloc, words, disk, scripts, sink)
}

/// Runs the program over a disk, with scripts of these texts.
pub fn run_of<R: Threads + Wait + Sync>(
    rt: &R,
    alloc: Global,
    words: &[&str],
    texts: &[Script],
    disk: MemDisk,
) -> Result<Ended, AllocError>
    requires { is_attached disk ≡ false }
{
    let mut scripts = scripts_of(alloc, texts, &[])?;
    run_with(rt, alloc, words, &mut scripts, disk)
}

/// Whether a run ended with this status and text, and so many operations were made.
pub fn is_ended(ended: &Ended, status: u8, text: &str, ops: u64) -> bool {
    ended.finished.status == status
        && ended.sink.as_slice() == text.as_bytes()
        && ended.disk.ops() == ops
}

/// Whether a run ended well with this text.
pub fn is_printed(ended: &Ended, text: &str) -> bool {
    ended.finished.status == 0 && ended.sink.as_slice() == text.as_bytes()
}

// Runs the program over what a disk holds after so many operations, and so many bytes of the next.
fn run_stopped<R: Threads + Wait + Sync>(
    rt: &R,
    alloc: Global,
    words: &[&str],
    disk: &MemDisk,
    stop: (usize, usize),
) -> Result<Ended, AllocError> {
    let left = stopped_at(alloc, disk, stop.0, stop.1)?;
    run_of(rt, alloc, words, &[], left)
}

/// Whether the program over what a disk holds after so many operations, and so many bytes of the next,
/// prints this.
pub fn prints<R: Threads + Wait + Sync>(
    rt: &R,
    alloc: Global,
    words: &[&str],
    disk: &MemDisk,
    stop: (usize, usize),
    text: &str,
) -> Result<bool, AllocError> {
    let ended = run_stopped(rt, alloc, words, disk, stop)?;
    Ok(is_printed(&ended, text))
}

/// A transaction over one page, and then one over another.
pub static BOTH_SCRIPTS: [Script; 2] = [
    ("s1", b"BEGIN; INSERT INTO a VALUES (1, 10); COMMIT;"),
    ("s2", b"BEGIN; INSERT INTO b VALUES (7, 20); COMMIT;"),
];

/// What is printed of them.
pub const BOTH_TEXT: &str =
    "client 1\ntx 1 commit 1\n  inserted 1\nclient 2\ntx 1 commit 2\n  inserted 7\n";

/// What is printed of `check`, and of the rows of `a` and of `b`.
pub type Left = (&'static str, &'static str, &'static str);

/// Whether what a disk holds after so many operations, and so many bytes of the next, is printed so.
pub fn leaves<R: Threads + Wait + Sync>(
    rt: &R,
    alloc: Global,
    disk: &MemDisk,
    stop: (usize, usize),
    left: &Left,
) -> Result<bool, AllocError> {
    let checked = prints(rt, alloc, &["check", "b.db"], disk, stop, left.0)?;
    let first = prints(rt, alloc, &["rows", "b.db", "a"], disk, stop, left.1)?;
    let second = prints(rt, alloc, &["rows", "b.db", "b"], disk, stop, left.2)?;
    Ok(checked && first && second)
}

/// More operations than a run makes: nothing of it is cut off.
pub const ALL: (usize, usize) = (256, 0);

/// Both tables are empty.
pub static NEITHER: Left = (
    "ok pages 6 tables 2 rows 0 free 2\n",
    "rows 0\n",
    "rows 0\n",
);

/// Table `a` has the row 1.
pub static FIRST: Left = (
    "ok pages 6 tables 2 rows 1 free 2\n",
    "1|1|10\nrows 1\n",
    "rows 0\n",
);

/// Table `b` has the row 7.
pub static SECOND: Left = (
    "ok pages 6 tables 2 rows 1 free 2\n",
    "rows 0\n",
    "7|7|20\nrows 1\n",
);

/// Both have their row.
pub static BOTH: Left = (
    "ok pages 6 tables 2 rows 2 free 2\n",
    "1|1|10\nrows 1\n",
    "7|7|20\nrows 1\n",
);

/// What is left where the transactions of these clients are.
pub fn left_by(first: bool, second: bool) -> &'static Left {
    match (first, second) {
        (false, false) => &NEITHER,
        (true, false) => &FIRST,
        (false, true) => &SECOND,
        (true, true) => &BOTH,
    }
}

/// Expects that a step of a test holds.
pub fn expect(rt: &impl Abort, step: &str, at: u64, holds: bool) {
    assert!(rt; holds, "{step} {at}");
}
