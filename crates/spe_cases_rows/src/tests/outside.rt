//! What is printed where the words are off, a file is refused, or the outside fails.

ghost use Rattle.std.specs.Prelude.{◌≡◌, false, IfOk};
ghost use Rattle.spe_disk.specs.Memory.{is_attached};

use super::files::{PEOPLE, Patch, file_of, lay, two};
use super::run::{
    Ended, disk_of, ended_of, expect, expect_of, expect_row, is_ended, run_over, sink_of, words_of,
};
use spe_disk::{MemDisk, MemSink};
use std::alloc::{AllocError, Global};
use std::process::Abort;
use std::sync::Wait;
use std::test::Fail;
use std::thread::Threads;

// Words, and what is printed of them, though the first reading call would fail: the disk is not asked.
static WORDS: [(&[&str], u8, &str); 17] = [
    (&[], 1, "refused words\n"),
    (&["rows"], 1, "refused words\n"),
    (&["rows", "people.db"], 1, "refused words\n"),
    (&["rows", "people.db", ""], 1, "refused words\n"),
    (&["rows", "-people.db", "p"], 1, "refused words\n"),
    (&["rows", "people.db", "p", "q"], 1, "refused words\n"),
    (&["Rows", "people.db", "p"], 1, "refused words\n"),
    (&["backup", "b.db", "c.db"], 1, "refused words\n"),
    (
        &["run", "b.db", "--workers", "17", "s"],
        1,
        "refused words\n",
    ),
    (
        &["run", "b.db", "--workers", "2", "--workers", "2", "s"],
        1,
        "refused words\n",
    ),
    (&["prepare", "b.db", "17"], 1, "refused words\n"),
    (&["check"], 1, "refused words\n"),
    (&["check", ""], 1, "refused words\n"),
    (&["check", "d.db", "t"], 1, "refused words\n"),
    (&["check", "d.db", "--workers=1"], 1, "refused words\n"),
    // commands to come
    (&["run", "b.db", "s"], 2, "refused no-script 1\n"),
    (&["work", "b.db", "1", "100"], 2, "refused not-built\n"),
];

fn expect_words<R: Threads + Wait + Sync + Abort>(
    rt: &R,
    alloc: Global,
    case: &(&[&str], u8, &str),
) -> Result<(), AllocError> {
    let (words, status, text) = *case;
    let disk = disk_of(alloc, None, &[1])?;
    expect_of(rt, alloc, words, disk, (status, text))
}

#[test]
fn words(rt: HostRuntime) -> Result<(), Fail> {
    for case in &WORDS {
        expect_words(&rt, rt.alloc(), case)?;
    }
    Ok(())
}

// Bytes laid over the file `people.db`, how much of it is kept, and what is printed of it.
static FILES: [(Patch, usize, &str); 22] = [
    ((0, b""), 0, "refused header 1\n"),
    ((0, b""), 99, "refused header 1\n"),
    ((5, b"f"), 1024, "refused header 2\n"),
    ((21, b"\x41"), 1024, "refused header 2\n"),
    ((18, b"\x03"), 1024, "refused header 2\n"),
    ((19, b"\x02"), 1024, "refused header 3\n"),
    ((16, b"\x03\x00"), 1024, "refused header 4\n"),
    ((55, b"\x01"), 1024, "refused header 5\n"),
    ((59, b"\x02"), 1024, "refused header 6\n"),
    ((20, b"\x21"), 1024, "refused header 7\n"),
    ((47, b"\x03"), 1024, "refused header 8\n"),
    // a page missing from the file, a page that is cut off, too many pages
    ((31, b"\x03"), 1024, "refused short-file 3 1024\n"),
    ((0, b""), 1023, "refused short-file 2 1023\n"),
    (
        (28, b"\x00\x20\x00\x01"),
        1024,
        "refused too-large 2097153\n",
    ),
    // a node page that is the page of a table
    ((35, b"\x02"), 1024, "refused corrupt 2\n"),
    // an interior page, keys out of order by one offset and by two, a reserved serial type
    ((512, b"\x05"), 1024, "refused corrupt 2\n"),
    ((520, b"\x01\xf9"), 1024, "refused corrupt 2\n"),
    ((520, b"\x01\xf0\x01\xf8"), 1024, "refused corrupt 2\n"),
    ((1007, b"\x0a"), 1024, "refused corrupt 2\n"),
    // a root page past the file, the schema's own page as a root, an object that is no table
    ((462, b"\x03"), 1024, "refused corrupt 1\n"),
    ((462, b"\x01"), 1024, "refused corrupt 1\n"),
    ((455, b"tible"), 1024, "refused no-table\n"),
];

fn expect_file<R: Threads + Wait + Sync + Abort>(
    rt: &R,
    alloc: Global,
    case: &(Patch, usize, &str),
) -> Result<(), AllocError> {
    let (patch, length, text) = *case;
    let mut file = file_of(alloc, 1024, &PEOPLE)?;
    lay(&mut file, &[patch]);
    file.truncate(length);
    expect(
        rt,
        alloc,
        &["rows", "people.db", "p"],
        Some(&file),
        (2, text),
    )
}

#[test]
fn files(rt: HostRuntime) -> Result<(), Fail> {
    for case in &FILES {
        expect_file(&rt, rt.alloc(), case)?;
    }
    Ok(())
}

type Refused = (&'static [Patch], usize, &'static str);

// Bytes laid over the file with two tables, how much of it is kept, and what is printed of it.
static REFUSED: [Refused; 22] = [
    (&[], 0, "refused header 1\n"),
    (&[], 60, "refused header 1\n"),
    (&[(5, b"f")], 3072, "refused header 2\n"),
    (&[(23, b"\x00")], 3072, "refused header 2\n"),
    (&[(18, b"\x02")], 3072, "refused header 3\n"),
    (&[(19, b"\x02")], 3072, "refused header 3\n"),
    (&[(16, b"\x01\x00")], 3072, "refused header 4\n"),
    // auto-vacuum, UTF-16 of both kinds, 479 usable bytes, formats before 4
    (&[(55, b"\x01")], 3072, "refused header 5\n"),
    (&[(52, b"\x01")], 3072, "refused header 5\n"),
    (&[(59, b"\x02")], 3072, "refused header 6\n"),
    (&[(59, b"\x03")], 3072, "refused header 6\n"),
    (&[(20, b"\x21")], 3072, "refused header 7\n"),
    (&[(47, b"\x01")], 3072, "refused header 8\n"),
    (&[(47, b"\x03")], 3072, "refused header 8\n"),
    // the lowest of several, and before the number of pages and what they hold
    (
        &[(20, b"\x21"), (47, b"\x03"), (55, b"\x01"), (59, b"\x02")],
        3072,
        "refused header 5\n",
    ),
    (&[(20, b"\x21"), (47, b"\x03")], 3072, "refused header 7\n"),
    (&[(47, b"\x03"), (31, b"\x07")], 3072, "refused header 8\n"),
    (&[(59, b"\x02"), (512, b"\x00")], 3072, "refused header 6\n"),
    (&[(31, b"\x07")], 3072, "refused short-file 7 3072\n"),
    (&[], 3000, "refused short-file 6 3000\n"),
    (&[(512, b"\x00")], 2560, "refused short-file 6 2560\n"),
    (
        &[(28, b"\x00\x20\x00\x01")],
        3072,
        "refused too-large 2097153\n",
    ),
];

fn expect_refused<R: Threads + Wait + Sync + Abort>(
    rt: &R,
    alloc: Global,
    case: &Refused,
) -> Result<(), AllocError> {
    let (patches, length, text) = *case;
    let mut file = two(alloc)?;
    lay(&mut file, patches);
    file.truncate(length);
    expect(rt, alloc, &["check", "two.db"], Some(&file), (2, text))
}

#[test]
fn refused(rt: HostRuntime) -> Result<(), Fail> {
    for case in &REFUSED {
        expect_refused(&rt, rt.alloc(), case)?;
    }
    Ok(())
}

// Words of a database that is not there; a name behind `--` may begin with `-`.
static ABSENT: [&[&str]; 4] = [
    &["rows", "people.db", "p"],
    &["rows", "--", "-people.db", "p"],
    &["check", "b.db"],
    &["check", "d.db"],
];

#[test]
fn no_file(rt: HostRuntime) -> Result<(), Fail> {
    for words in &ABSENT {
        let end = (2, "refused no-such-database\n");
        expect(&rt, rt.alloc(), *words, None, end)?;
    }
    Ok(())
}

// A command of which the outside fails.
#[derive(Clone, Copy)]
enum Asked {
    Rows,
    Check,
}

fn file_for(alloc: Global, asked: Asked) -> Result<Vec<u8>, AllocError> {
    match asked {
        Asked::Rows => file_of(alloc, 1024, &PEOPLE),
        Asked::Check => two(alloc),
    }
}

fn words_for(asked: Asked) -> &'static [&'static str] {
    match asked {
        Asked::Rows => &["rows", "people.db", "p"],
        Asked::Check => &["check", "two.db"],
    }
}

// Its disk, of which a reading call fails.
fn disk_for(alloc: Global, asked: Asked, call: u64) -> Result<MemDisk, AllocError>
    ensures { IfOk result (λ d. is_attached d ≡ false) }
{
    let file = file_for(alloc, asked)?;
    disk_of(alloc, Some(&file), &[call])
}

// How a run ends of which a reading call was to fail, and whether it should end so.
#[derive(Drop)]
enum Failing {
    // It has fewer reading calls.
    Past(bool),
    // The call failed.
    Within(bool),
}

fn failing_of(ended: &Ended<MemDisk>) -> Failing {
    if ended.disk.faults() == 0 {
        Failing::Past(ended.status == 0)
    } else {
        Failing::Within(is_ended(ended, 3, b"fault disk\n", 0))
    }
}

// How a run ends of which this reading call fails, if it has so many.
fn ends_at<R: Threads + Wait + Sync>(
    rt: &R,
    alloc: Global,
    asked: Asked,
    call: u64,
) -> Result<Failing, AllocError> {
    let disk = disk_for(alloc, asked, call)?;
    let ended = run_over(rt, alloc, words_for(asked), disk)?;
    Ok(failing_of(&ended))
}

// How many reading calls fail, each as it should, from the first on, until a run passes.
fn failing_calls<R: Threads + Wait + Sync>(
    rt: &R,
    alloc: Global,
    asked: Asked,
) -> Result<u64, AllocError> {
    for call in 1..=200u64 {
        match ends_at(rt, alloc, asked, call)? {
            Failing::Within(true) => {}
            Failing::Past(true) => return Ok(call - 1),
            _ => return Ok(0),
        }
    }
    Ok(200)
}

// Each reading call fails once, from the naming of the database to the last page; a run that has
// none left to fail passes.
#[test]
fn failing_reads(rt: HostRuntime) -> Result<(), Fail> {
    let calls = failing_calls(&rt, rt.alloc(), Asked::Rows)?;
    expect_row(&rt, "readings", calls, 21 < calls && calls < 200);
    Ok(())
}

#[test]
fn failing_reads_of_a_check(rt: HostRuntime) -> Result<(), Fail> {
    let calls = failing_calls(&rt, rt.alloc(), Asked::Check)?;
    expect_row(&rt, "readings", calls, 24 < calls && calls < 200);
    Ok(())
}

// A run whose sink takes eight bytes once and then fails.
fn sunk_run<R: Threads + Wait + Sync>(
    rt: &R,
    alloc: Global,
    asked: Asked,
    sink: MemSink,
) -> Result<Ended<MemDisk>, AllocError> {
    let disk = disk_for(alloc, asked, 0)?;
    let words = words_of(alloc, words_for(asked))?;
    Ok(ended_of(rt, alloc, words, disk, sink))
}

fn sink_fails<R: Threads + Wait + Sync>(
    rt: &R,
    alloc: Global,
    asked: Asked,
    text: &[u8],
) -> Result<bool, AllocError> {
    let sink = sink_of(alloc, 8, &[2])?;
    let ended = sunk_run(rt, alloc, asked, sink)?;
    Ok(is_ended(&ended, 3, text, 0))
}

#[test]
fn failing_sink(rt: HostRuntime) -> Result<(), Fail> {
    let rows = sink_fails(&rt, rt.alloc(), Asked::Rows, b"1|1|'ann")?;
    let check = sink_fails(&rt, rt.alloc(), Asked::Check, b"ok pages")?;
    expect_row(&rt, "sink", 2, rows && check);
    Ok(())
}
