//! A sink and scripts that fail, and many rows.

ghost use Rattle.std.specs.Prelude.{◌≡◌, false, IfOk};
ghost use Rattle.spe_disk.specs.Memory.{is_attached};

use super::run::{
    ALL, BOTH, BOTH_SCRIPTS, BOTH_TEXT, Ended, Script, ended_of, expect, is_ended, leaves,
    no_faults, prints, scripts_of, sink_of, two_disk,
};
use spe_disk::{MemDisk, MemScripts, MemSink};
use std::alloc::{AllocError, Global};
use std::sync::Wait;
use std::test::Fail;
use std::thread::Threads;

static WORDS: [&str; 4] = ["run", "b.db", "s1", "s2"];

fn sound_disk(alloc: Global) -> Result<MemDisk, AllocError>
    ensures { IfOk result (λ d. is_attached d ≡ false) }
{
    two_disk(alloc, no_faults(alloc))
}

fn ended_with<R: Threads + Wait + Sync>(
    rt: &R,
    alloc: Global,
    words: &[&str],
    scripts: &mut MemScripts,
    sink: MemSink,
) -> Result<Ended, AllocError> {
    let disk = sound_disk(alloc)?;
    ended_of(rt, alloc, words, disk, scripts, sink)
}

// A run whose sink takes so many bytes a call and fails at the second.
fn sunk_run<R: Threads + Wait + Sync>(
    rt: &R,
    alloc: Global,
    most: usize,
) -> Result<Ended, AllocError> {
    let mut scripts = scripts_of(alloc, &BOTH_SCRIPTS, &[])?;
    let sink = sink_of(alloc, most, &[2])?;
    ended_with(rt, alloc, &WORDS, &mut scripts, sink)
}

// Whether some first bytes of the text, and so many at most, were taken before the sink failed.
fn is_front(ended: &Ended, most: usize) -> bool {
    let taken = ended.sink.as_slice();
    ended.finished.status == 3
        && !taken.is_empty()
        && taken.len() <= most
        && BOTH_TEXT.as_bytes().starts_with(taken)
        && ended.finished.order.as_slice().len() == 2
}

// Whether this was taken, and both transactions are there all the same.
fn has_sunk<R: Threads + Wait + Sync>(
    rt: &R,
    alloc: Global,
    ended: &Ended,
    most: usize,
) -> Result<bool, AllocError> {
    let front = is_front(ended, most);
    let left = leaves(rt, alloc, &ended.disk, ALL, &BOTH)?;
    Ok(front && left)
}

fn sinks<R: Threads + Wait + Sync>(rt: &R, alloc: Global, most: usize) -> Result<bool, AllocError> {
    let ended = sunk_run(rt, alloc, most)?;
    has_sunk(rt, alloc, &ended, most)
}

// Printing comes after all transactions.
#[test]
fn sink(rt: HostRuntime) -> Result<(), Fail> {
    for most in [1, 8, 40] {
        let holds = sinks(&rt, rt.alloc(), most)?;
        expect(&rt, "sink", most as u64, holds);
    }
    Ok(())
}

// Scripts, the reading of them that fails, the status and what is printed.
type Unread = (&'static [Script], u64, u8, &'static str);

// All are read before one is parsed.
static UNREAD: [Unread; 5] = [
    (&[("s1", b""), ("s2", b"")], 1, 3, "fault scripts\n"),
    (&[("s1", b""), ("s2", b"")], 2, 3, "fault scripts\n"),
    (&[("s1", b"COMMIT"), ("s2", b"")], 2, 3, "fault scripts\n"),
    (&[], 1, 3, "fault scripts\n"),
    (&[], 2, 2, "refused no-script 1\n"),
];

fn unread_run<R: Threads + Wait + Sync>(
    rt: &R,
    alloc: Global,
    texts: &[Script],
    read: u64,
) -> Result<Ended, AllocError> {
    let mut scripts = scripts_of(alloc, texts, &[read])?;
    let sink = sink_of(alloc, 1 << 16, &[])?;
    ended_with(rt, alloc, &WORDS, &mut scripts, sink)
}

fn is_unread<R: Threads + Wait + Sync>(
    rt: &R,
    alloc: Global,
    case: &Unread,
) -> Result<bool, AllocError> {
    let (texts, read, status, text) = case;
    let ended = unread_run(rt, alloc, *texts, *read)?;
    Ok(is_ended(&ended, *status, *text, 0))
}

#[test]
fn unread(rt: HostRuntime) -> Result<(), Fail> {
    for case in &UNREAD {
        let holds = is_unread(&rt, rt.alloc(), case)?;
        expect(&rt, case.3, case.1, holds);
    }
    Ok(())
}

// Adds an INSERT of this row.
fn add_row(alloc: Global, script: &mut String, row: u64) -> Result<(), AllocError> {
    let insert = format!(in alloc; "INSERT INTO a VALUES ({row}, 10); ")?;
    script.push_str(insert.as_str())?;
    Ok(())
}

// A transaction of 64 rows.
fn many_rows(alloc: Global) -> Result<String, AllocError> {
    let mut script = String::from_str(alloc, "BEGIN; ")?;
    for row in 1..=64u64 {
        add_row(alloc, &mut script, row)?;
    }
    script.push_str("COMMIT; SELECT count(*) FROM a;")?;
    Ok(script)
}

fn many_scripts(alloc: Global) -> Result<MemScripts, AllocError> {
    let mut scripts = scripts_of(alloc, &[], &[])?;
    let script = many_rows(alloc)?;
    scripts.add("many", script.as_str().as_bytes())?;
    Ok(scripts)
}

fn many_run<R: Threads + Wait + Sync>(rt: &R, alloc: Global) -> Result<Ended, AllocError> {
    let mut scripts = many_scripts(alloc)?;
    let sink = sink_of(alloc, 1 << 16, &[])?;
    ended_with(rt, alloc, &["run", "b.db", "many"], &mut scripts, sink)
}

// Whether the first and the last lines are such.
fn tells_many(ended: &Ended) -> bool {
    let text = ended.sink.as_slice();
    ended.finished.status == 0
        && text.starts_with(b"client 1\ntx 1 commit 1\n  inserted 1\n  inserted 2\n")
        && text.ends_with(b"\n  inserted 63\n  inserted 64\ntx 2 commit 2\n  count 64\n")
}

// The line that is printed of this row.
fn add_line(alloc: Global, text: &mut String, row: u64) -> Result<(), AllocError> {
    let line = format!(in alloc; "{row}|{row}|10\n")?;
    text.push_str(line.as_str())?;
    Ok(())
}

// What is printed of 64 rows.
fn rows_text(alloc: Global) -> Result<String, AllocError> {
    let mut text = String::new(alloc);
    for row in 1..=64u64 {
        add_line(alloc, &mut text, row)?;
    }
    text.push_str("rows 64\n")?;
    Ok(text)
}

// Whether the rows are there. The file has grown by sixteen pages, of which the split of the root took two.
fn leaves_many<R: Threads + Wait + Sync>(
    rt: &R,
    alloc: Global,
    disk: &MemDisk,
) -> Result<bool, AllocError> {
    let text = rows_text(alloc)?;
    let sound = "ok pages 22 tables 2 rows 64 free 16\n";
    let checked = prints(rt, alloc, &["check", "b.db"], disk, ALL, sound)?;
    let there = prints(rt, alloc, &["rows", "b.db", "a"], disk, ALL, text.as_str())?;
    Ok(checked && there)
}

// Whether they are printed and there.
fn has_many<R: Threads + Wait + Sync>(
    rt: &R,
    alloc: Global,
    ended: &Ended,
) -> Result<bool, AllocError> {
    let told = tells_many(ended);
    let left = leaves_many(rt, alloc, &ended.disk)?;
    Ok(told && left)
}

fn puts_many<R: Threads + Wait + Sync>(rt: &R, alloc: Global) -> Result<bool, AllocError> {
    let ended = many_run(rt, alloc)?;
    has_many(rt, alloc, &ended)
}

#[test]
fn many(rt: HostRuntime) -> Result<(), Fail> {
    let holds = puts_many(&rt, rt.alloc())?;
    expect(&rt, "many", 64, holds);
    Ok(())
}
