//! Clients that are not served: what is wrong with their scripts or their database, and what comes first.

ghost use Rattle.std.specs.Prelude.{◌≡◌, false, IfOk};
ghost use Rattle.spe_disk.specs.Memory.{is_attached};

use super::files::{Patch, TWO_LENGTH, two_of};
use super::run::{Script, bare_disk, disk_with, expect, is_ended, no_faults, run_of, two_disk};
use spe_disk::MemDisk;
use std::alloc::{AllocError, Global};
use std::sync::Wait;
use std::test::Fail;
use std::thread::Threads;

const ONE: &[&str] = &["run", "b.db", "s1"];

const TWO: &[&str] = &["run", "b.db", "s1", "s2"];

const GOOD: Script = ("s1", b"INSERT INTO a VALUES (1, 10);");

// Words, scripts, and what is printed of them.
type Refused = (&'static [&'static str], &'static [Script], &'static str);

// Words and scripts that are refused whatever the database is, and what is printed. That one is missing comes
// first, then what is wrong with one, the first before the second, then what is not built.
static SCRIPTS: [Refused; 18] = [
    (ONE, &[], "refused no-script 1\n"),
    (TWO, &[GOOD], "refused no-script 2\n"),
    (TWO, &[], "refused no-script 1\n"),
    (
        ONE,
        &[("s1", b"SELECT * FROM a JOIN b;")],
        "refused script 1 line 1 unsupported\n",
    ),
    (
        ONE,
        &[("s1", b"SELECT * FROM a;\n\n ? ;")],
        "refused script 1 line 3 token\n",
    ),
    (
        ONE,
        &[("s1", b"SELECT a;")],
        "refused script 1 line 1 expected\n",
    ),
    (
        ONE,
        &[("s1", b"INSERT INTO a VALUES (9223372036854775808, 1);")],
        "refused script 1 line 1 number-range\n",
    ),
    (
        ONE,
        &[("s1", b"BEGIN;\nBEGIN;")],
        "refused script 1 line 2 nested\n",
    ),
    (
        TWO,
        &[GOOD, ("s2", b"SELECT * FROM a;\nCOMMIT;")],
        "refused script 2 line 2 not-open\n",
    ),
    (
        ONE,
        &[("s1", b"\n\n\xff")],
        "refused script 1 line 0 not-utf8\n",
    ),
    (
        TWO,
        &[("s1", b"\nCOMMIT"), ("s2", b"COMMIT")],
        "refused script 1 line 2 not-open\n",
    ),
    (TWO, &[("s1", b"COMMIT")], "refused no-script 2\n"),
    (
        ONE,
        &[("s1", b"BEGIN READONLY; COMMIT;")],
        "refused not-built\n",
    ),
    (ONE, &[("s1", b"DELETE FROM a;")], "refused not-built\n"),
    (
        ONE,
        &[("s1", b"BEGIN; DELETE FROM a WHERE id = 1; ROLLBACK;")],
        "refused not-built\n",
    ),
    (
        TWO,
        &[GOOD, ("s2", b"SELECT * FROM a; BEGIN READONLY;")],
        "refused not-built\n",
    ),
    (
        TWO,
        &[("s1", b"DELETE FROM a;"), ("s2", b"COMMIT")],
        "refused script 2 line 1 not-open\n",
    ),
    (TWO, &[("s1", b"DELETE FROM a;")], "refused no-script 2\n"),
];

fn sound_disk(alloc: Global) -> Result<MemDisk, AllocError>
    ensures { IfOk result (λ d. is_attached d ≡ false) }
{
    two_disk(alloc, no_faults(alloc))
}

fn empty_disk(alloc: Global) -> Result<MemDisk, AllocError>
    ensures { IfOk result (λ d. is_attached d ≡ false) }
{
    bare_disk(alloc, no_faults(alloc))
}

// A disk with two tables in a file of so many bytes, and these bytes over it.
fn other_disk(alloc: Global, length: usize, patches: &[Patch]) -> Result<MemDisk, AllocError>
    ensures { IfOk result (λ d. is_attached d ≡ false) }
{
    let file = two_of(alloc, length, patches)?;
    disk_with(alloc, &file, no_faults(alloc))
}

// Whether a run over a disk is refused with this text, and changes nothing.
fn refuses<R: Threads + Wait + Sync>(
    rt: &R,
    alloc: Global,
    words: &[&str],
    texts: &[Script],
    disk: MemDisk,
    text: &str,
) -> Result<bool, AllocError>
    requires { is_attached disk ≡ false }
{
    let ended = run_of(rt, alloc, words, texts, disk)?;
    let ordered = ended.finished.order.as_slice().is_empty();
    Ok(is_ended(&ended, 2, text, 0) && ordered)
}

// Whether scripts are refused where there is a database.
fn refuses_sound<R: Threads + Wait + Sync>(
    rt: &R,
    alloc: Global,
    words: &[&str],
    texts: &[Script],
    text: &str,
) -> Result<bool, AllocError> {
    let disk = sound_disk(alloc)?;
    refuses(rt, alloc, words, texts, disk, text)
}

// Whether they are where there is none.
fn refuses_empty<R: Threads + Wait + Sync>(
    rt: &R,
    alloc: Global,
    words: &[&str],
    texts: &[Script],
    text: &str,
) -> Result<bool, AllocError> {
    let disk = empty_disk(alloc)?;
    refuses(rt, alloc, words, texts, disk, text)
}

fn refuses_both<R: Threads + Wait + Sync>(
    rt: &R,
    alloc: Global,
    case: &Refused,
) -> Result<bool, AllocError> {
    let (words, texts, text) = *case;
    let sound = refuses_sound(rt, alloc, words, texts, text)?;
    let empty = refuses_empty(rt, alloc, words, texts, text)?;
    Ok(sound && empty)
}

#[test]
fn scripts(rt: HostRuntime) -> Result<(), Fail> {
    for case in &SCRIPTS {
        let holds = refuses_both(&rt, rt.alloc(), case)?;
        expect(&rt, case.2, 0, holds);
    }
    Ok(())
}

#[test]
fn no_database(rt: HostRuntime) -> Result<(), Fail> {
    let text = "refused no-such-database\n";
    let holds = refuses_empty(&rt, rt.alloc(), ONE, &[GOOD], text)?;
    expect(&rt, text, 0, holds);
    Ok(())
}

// How many bytes a database has, bytes that are laid over it, and what is printed. That it is not in server
// form comes before damage, and damage before a page of a table without a cell.
static DATABASES: [(usize, &[Patch], &str); 9] = [
    (
        TWO_LENGTH,
        &[
            (
                24,
                b"\x00\x00\x00\x04\x00\x00\x00\x06\x00\x00\x00\x04\x00\x00\x00\x03",
            ),
            (92, b"\x00\x00\x00\x04"),
            (
                1536,
                b"\x00\x00\x00\x00\x00\x00\x00\x02\x00\x00\x00\x05\x00\x00\x00\x06",
            ),
        ],
        "refused not-prepared\n",
    ),
    (
        TWO_LENGTH,
        &[(39, b"\x01"), (512, b"\x00")],
        "refused not-prepared\n",
    ),
    (TWO_LENGTH, &[(95, b"\x02")], "refused not-prepared\n"),
    (TWO_LENGTH, &[(512, b"\x00")], "refused corrupt 2\n"),
    (
        TWO_LENGTH,
        &[(512, b"\x00"), (1024, b"\x00")],
        "refused corrupt 2\n",
    ),
    (TWO_LENGTH, &[(1539, b"\x00")], "refused corrupt 4\n"),
    (TWO_LENGTH, &[(31, b"\x07")], "refused short-file 7 3072\n"),
    // Page 3 is an interior page without a cell, and page 7 its only child.
    (
        3584,
        &[
            (31, b"\x07"),
            (1024, b"\x05\x00\x00\x00\x00\x02\x00\x00\x00\x00\x00\x07"),
            (3072, b"\x0d\x00\x00\x00\x00\x02"),
        ],
        "refused corrupt 3\n",
    ),
    // So it is, and the node page names no list.
    (
        3584,
        &[
            (31, b"\x07"),
            (1024, b"\x05\x00\x00\x00\x00\x02\x00\x00\x00\x00\x00\x07"),
            (3072, b"\x0d\x00\x00\x00\x00\x02"),
            (1539, b"\x00"),
        ],
        "refused corrupt 4\n",
    ),
];

fn refuses_database<R: Threads + Wait + Sync>(
    rt: &R,
    alloc: Global,
    length: usize,
    patches: &[Patch],
    text: &str,
) -> Result<bool, AllocError> {
    let disk = other_disk(alloc, length, patches)?;
    refuses(rt, alloc, ONE, &[GOOD], disk, text)
}

#[test]
fn databases(rt: HostRuntime) -> Result<(), Fail> {
    for (length, patches, text) in &DATABASES {
        let holds = refuses_database(&rt, rt.alloc(), *length, *patches, *text)?;
        expect(&rt, *text, 0, holds);
    }
    Ok(())
}
