//! Real files.

ghost use Rattle.std.specs.Prelude.{◌≡◌, ◌<◌, false, true};

use spe_disk::{Disk, Failed, FileNo, Scripts, Sink};
use spe_files::{FileDisk, FileFault, FileScripts, OutSink};
use std::alloc::{Alloc, AllocError, Global};
use std::fs::File;
use std::process::Abort;
use std::rt::Files;
use std::test::Fail;
use std::{fs, io, process};

// A name for a file of this process alone.
fn path(alloc: Global, process: u32, name: &str) -> io::Result<String> {
    Ok(format!(in alloc; "/tmp/spe_cases_files-{process}-{name}")?)
}

/// Expects that a row of a table holds.
pub fn expect(rt: &impl Abort, name: &str, row: usize, holds: bool) {
    assert!(rt; holds, "{name} {row}");
}

#[test]
fn no_database(rt: HostRuntime) -> Result<(), Fail> {
    let name = path(rt.alloc(), process::id(rt.process()), "none")?;
    let mut disk = FileDisk::new(&rt, rt.alloc());
    let absent = disk.attach(name.as_str()) == Ok(false);
    expect(&rt, "no database", 0, absent);
    Ok(())
}

// Whether four bytes, and eight more from byte 10 on, have this length.
fn grows<D: Disk>(disk: &mut D) -> bool
    requires { D.attached disk.old ≡ true }
    ensures { D.attached disk.new ≡ true }
{
    let before = disk.length(FileNo::Database);
    let written = disk.write_at(FileNo::Database, 10, b"efghijkl");
    let after = disk.length(FileNo::Database);
    before == Ok(Some(4)) && written == Ok(()) && after == Ok(Some(18))
}

// Whether they are this from byte 2 on, and nothing from byte 18 on.
fn reads<D: Disk>(disk: &mut D) -> bool
    requires { D.attached disk.old ≡ true }
    ensures { D.attached disk.new ≡ true }
{
    let mut bytes = [b'x'; 20];
    let some = disk.read_at(FileNo::Database, 2, &mut bytes);
    let same = &bytes == b"cd\0\0\0\0\0\0efghijkl\0\0\0\0";
    let none = disk.read_at(FileNo::Database, 18, &mut bytes);
    some == Ok(16) && same && none == Ok(0) && bytes == [0; 20]
}

// Whether a cut to so many bytes leaves this length.
fn cuts<D: Disk>(disk: &mut D, length: u64, left: u64) -> bool
    requires { D.attached disk.old ≡ true }
    ensures { D.attached disk.new ≡ true }
{
    let cut = disk.cut(FileNo::Database, length);
    cut == Ok(()) && disk.length(FileNo::Database) == Ok(Some(left))
}

// Whether it grows, is read and is cut so.
fn changes<D: Disk>(disk: &mut D) -> bool
    requires { D.attached disk.old ≡ true }
{
    let grown = grows(disk);
    let read = reads(disk);
    let kept = cuts(disk, 100, 18);
    let cut = cuts(disk, 3, 3);
    grown && read && kept && cut
}

fn works<R: Files<File = File>>(rt: &R, alloc: Global, name: &str) -> bool {
    let mut disk = FileDisk::new(rt, alloc);
    let attached = disk.attach(name);
    changes(&mut disk) && attached == Ok(true)
}

// The same of a new file of four bytes, which is removed.
fn database_works<R: Files<File = File>>(rt: &R, alloc: Global, name: &str) -> io::Result<bool> {
    fs::write(rt, name, b"abcd".as_slice())?;
    let holds = works(rt, alloc, name);
    fs::remove_file(rt, name)?;
    Ok(holds)
}

#[test]
fn a_database(rt: HostRuntime) -> Result<(), Fail> {
    let name = path(rt.alloc(), process::id(rt.process()), "some")?;
    let holds = database_works(&rt, rt.alloc(), name.as_str())?;
    expect(&rt, "a database", 0, holds);
    Ok(())
}

// Whether a journal has this length.
fn has_length<D: Disk>(disk: &mut D, id: u8, length: Option<u64>) -> bool
    requires attached { D.attached disk.old ≡ true }
    requires numbered { id < 16 }
    ensures { D.attached disk.new ≡ true }
{
    disk.length(FileNo::Journal(id)) == Ok(length)
}

// Whether so many journals are made.
fn makes<D: Disk>(disk: &mut D, made: u8) -> bool
    requires { D.attached disk.old ≡ true }
    ensures { D.attached disk.new ≡ true }
{
    disk.make_journals() == Ok(made)
}

// Whether all journals are made once, and the last is written to.
fn makes_all<D: Disk>(disk: &mut D) -> bool
    requires { D.attached disk.old ≡ true }
{
    let absent = has_length(disk, 3, None);
    let first = makes(disk, 16);
    let second = makes(disk, 0);
    let empty = has_length(disk, 3, Some(0));
    let written = disk.write_at(FileNo::Journal(15), 2, b"ab");
    absent && first && second && empty && written == Ok(())
}

// Makes the journals of a database, and writes to the last.
fn makes_journals<R: Files<File = File>>(rt: &R, alloc: Global, name: &str) -> bool {
    let mut disk = FileDisk::new(rt, alloc);
    let attached = disk.attach(name);
    makes_all(&mut disk) && attached == Ok(true)
}

// Whether they are all there.
fn has_all<D: Disk>(disk: &mut D) -> bool
    requires { D.attached disk.old ≡ true }
{
    let there = has_length(disk, 15, Some(4));
    let made = makes(disk, 0);
    there && made
}

// What is found of them when the database is opened again.
fn has_journals<R: Files<File = File>>(rt: &R, alloc: Global, name: &str) -> bool {
    let mut disk = FileDisk::new(rt, alloc);
    let attached = disk.attach(name);
    has_all(&mut disk) && attached == Ok(true)
}

// Makes the journals, finds their folder and them, and removes all.
fn journals_hold<R: Files<File = File> + Alloc>(
    rt: &R,
    alloc: Global,
    name: &str,
    folder: &str,
) -> io::Result<bool> {
    fs::write(rt, name, b"abcd".as_slice())?;
    let made = makes_journals(rt, alloc, name);
    let folds = fs::metadata(rt, folder)?.is_dir();
    let again = has_journals(rt, alloc, name);
    fs::remove_dir_all(rt, folder)?;
    fs::remove_file(rt, name)?;
    Ok(made && folds && again)
}

#[test]
fn journals(rt: HostRuntime) -> Result<(), Fail> {
    let name = path(rt.alloc(), process::id(rt.process()), "hot")?;
    let folder = path(rt.alloc(), process::id(rt.process()), "hot-journal")?;
    let holds = journals_hold(&rt, rt.alloc(), name.as_str(), folder.as_str())?;
    expect(&rt, "journals", 0, holds);
    Ok(())
}

// A journal of another program, as it stands beside a database: its front, the value of the bytes
// behind up to byte 512, where its head ends, and its length. Behind its head stand records.
type Beside = (&'static [u8], u8, usize);

// Journals that take nothing back. TRUNCATE leaves no byte. PERSIST leaves 28 zeros over the front of
// the head, the zeros that end the head of a sector, and the records; of a longer sector the head may
// have gone to any bytes.
static COLD: [Beside; 4] = [
    (b"", 0, 0),
    (&[0; 28], 0, 2576),
    (&[0; 28], 0, 28),
    (&[0; 28], 1, 512),
];

// Journals that may take something back. A program that was killed leaves the magic, how many records
// there are, a nonce, 2 pages, sectors of 512 bytes and pages of 1024, with or without records; torn
// ones, and what is no head, can not be told.
static HOT: [Beside; 8] = [
    (
        b"\xd9\xd5\x05\xf9\x20\xa1\x63\xd7\0\0\0\x02\x38\x3a\x70\xb3\0\0\0\x02\0\0\x02\0\0\0\x04\0",
        0,
        2576,
    ),
    (
        b"\xd9\xd5\x05\xf9\x20\xa1\x63\xd7\0\0\0\0\x38\x3a\x70\xb3\0\0\0\x02\0\0\x02\0\0\0\x04\0",
        0,
        512,
    ),
    (b"\xd9\xd5\x05\xf9\x20\xa1\x63\xd7", 0, 511),
    (b"\xd9", 0, 1),
    (b"", 0, 1),
    (b"", 0, 27),
    (b"", 1, 512),
    (
        b"\0\0\0\0\0\0\0\0\0\0\0\0\0\0\0\0\0\0\0\0\0\0\0\0\0\0\0\x01",
        0,
        512,
    ),
];

// The bytes of such a journal.
fn bytes_of(alloc: Global, journal: &Beside) -> Result<Vec<u8>, AllocError> {
    let (front, head, length) = *journal;
    let mut bytes = vec![in alloc; b'r'; length]?;
    for place in bytes.iter_mut().take(512) {
        *place = head;
    }
    for (place, byte) in bytes.iter_mut().zip(front) {
        *place = *byte;
    }
    Ok(bytes)
}

// Whether a database attaches, what it says of its fault, and whether journals can be made.
type Opened = (Result<bool, Failed>, Option<FileFault>, Result<u8, Failed>);

fn opened<R: Files<File = File>>(rt: &R, alloc: Global, name: &str) -> Opened {
    let mut disk = FileDisk::new(rt, alloc);
    let found = disk.attach(name);
    let fault = disk.first_fault();
    (found, fault, disk.make_journals())
}

fn write_journal<R: Files<File = File>>(
    rt: &R,
    alloc: Global,
    path: &str,
    journal: &Beside,
) -> io::Result<()> {
    let bytes = bytes_of(alloc, journal)?;
    fs::write(rt, path, bytes.as_slice())
}

// What a database of some name does with such a journal.
fn opened_beside<R: Files<File = File>>(
    rt: &R,
    alloc: Global,
    name: &str,
    journal: &Beside,
) -> io::Result<Opened> {
    let path = format!(in alloc; "{name}-journal")?;
    write_journal(rt, alloc, path.as_str(), journal)?;
    let found = opened(rt, alloc, name);
    fs::remove_file(rt, path.as_str())?;
    Ok(found)
}

// Makes a database, and expects the same of it beside each of these journals.
fn expect_each<R: Abort + Files<File = File>>(
    rt: &R,
    alloc: Global,
    name: &str,
    journals: &[Beside],
    wanted: &Opened,
) -> io::Result<()> {
    fs::write(rt, name, b"abcd".as_slice())?;
    for (row, journal) in journals.iter().enumerate() {
        let found = opened_beside(rt, alloc, name, journal)?;
        expect(rt, name, row, found == *wanted);
    }
    fs::remove_file(rt, name)
}

#[test]
fn cold_journals_of_others(rt: HostRuntime) -> Result<(), Fail> {
    let name = path(rt.alloc(), process::id(rt.process()), "cold")?;
    let wanted = (Ok(true), None, Err(Failed));
    expect_each(&rt, rt.alloc(), name.as_str(), &COLD, &wanted)?;
    Ok(())
}

#[test]
fn hot_journals_of_others(rt: HostRuntime) -> Result<(), Fail> {
    let name = path(rt.alloc(), process::id(rt.process()), "other")?;
    let wanted = (Err(Failed), Some(FileFault::StockJournal), Err(Failed));
    expect_each(&rt, rt.alloc(), name.as_str(), &HOT, &wanted)?;
    Ok(())
}

// Whether the disk reads nothing of a journal.
fn reads_none<D: Disk>(disk: &mut D) -> bool
    requires { D.attached disk.old ≡ true }
    ensures { D.attached disk.new ≡ true }
{
    let mut bytes = [b'x'; 2];
    disk.read_at(FileNo::Journal(3), 0, &mut bytes) == Ok(0)
}

// Whether each journal is absent, and the database is there.
fn has_none<D: Disk>(disk: &mut D) -> bool
    requires { D.attached disk.old ≡ true }
{
    let absent = has_length(disk, 3, None);
    let unread = reads_none(disk);
    let length = disk.length(FileNo::Database);
    absent && unread && length == Ok(Some(4))
}

// The same where it is opened, and that no fault is told.
fn has_no_journals<R: Files<File = File>>(rt: &R, alloc: Global, name: &str) -> bool {
    let mut disk = FileDisk::new(rt, alloc);
    let attached = disk.attach(name);
    let none = has_none(&mut disk);
    none && attached == Ok(true) && disk.first_fault() == None
}

// The same of a database and an empty file in the place of its folder.
fn is_below<R: Files<File = File>>(
    rt: &R,
    alloc: Global,
    name: &str,
    journal: &str,
) -> io::Result<bool> {
    fs::write(rt, name, b"abcd".as_slice())?;
    fs::write(rt, journal, b"".as_slice())?;
    let holds = has_no_journals(rt, alloc, name);
    fs::remove_file(rt, journal)?;
    fs::remove_file(rt, name)?;
    Ok(holds)
}

// Over a cold journal of another program each journal of this one is absent.
#[test]
fn no_journal_below_a_file(rt: HostRuntime) -> Result<(), Fail> {
    let name = path(rt.alloc(), process::id(rt.process()), "below")?;
    let journal = path(rt.alloc(), process::id(rt.process()), "below-journal")?;
    let holds = is_below(&rt, rt.alloc(), name.as_str(), journal.as_str())?;
    expect(&rt, "below a file", 0, holds);
    Ok(())
}

// Whether the disk names this path for a fault.
fn names<R: Files<File = File>>(
    disk: &FileDisk<'_, R>,
    fault: FileFault,
    path: &str,
) -> Result<bool, AllocError> {
    let found = disk.path(fault)?;
    Ok(found.as_str() == path)
}

// Whether a folder is refused, and for which reason.
fn refuses_folder<R: Files<File = File>>(disk: &mut FileDisk<'_, R>) -> bool
    requires { disk.old.attached ≡ false }
{
    let refused = disk.attach("/tmp");
    refused == Err(Failed) && disk.first_fault() == Some(FileFault::NotPlain)
}

fn names_both<R: Files<File = File>>(disk: &FileDisk<'_, R>) -> Result<bool, AllocError> {
    let plain = names(disk, FileFault::NotPlain, "/tmp")?;
    let stock = names(disk, FileFault::StockJournal, "/tmp-journal")?;
    Ok(plain && stock)
}

#[test]
fn a_folder_is_no_database(rt: HostRuntime) -> Result<(), Fail> {
    let mut disk = FileDisk::new(&rt, rt.alloc());
    let refused = refuses_folder(&mut disk);
    let named = names_both(&disk)?;
    expect(&rt, "a folder", 0, refused && named);
    Ok(())
}

// Whether a reading gives no text.
fn lacks<S: Scripts>(scripts: &mut S, alloc: Global, name: &str) -> bool {
    matches!(scripts.read(alloc, name), Ok(None))
}

// Whether it gives so many bytes.
fn gives_bytes<S: Scripts>(scripts: &mut S, alloc: Global, name: &str, bytes: usize) -> bool {
    matches!(scripts.read(alloc, name), Ok(Some(text)) if text.len() == bytes)
}

// Whether it gives this text.
fn gives<S: Scripts>(scripts: &mut S, alloc: Global, name: &str, text: &[u8]) -> bool {
    matches!(scripts.read(alloc, name), Ok(Some(found)) if found.as_slice() == text)
}

// Whether it fails.
fn fails<S: Scripts>(scripts: &mut S, alloc: Global, name: &str) -> bool {
    scripts.read(alloc, name).is_err()
}

// Writes a script that is longer than any may be.
fn write_long<R: Files<File = File>>(rt: &R, alloc: Global, name: &str) -> io::Result<()> {
    let text = vec![in alloc; b';'; 16_777_220]?;
    fs::write(rt, name, text.as_slice())
}

// Whether no script, one that is too long, a short one and a folder are read so.
fn are_read<R: Files<File = File>>(rt: &R, alloc: Global, name: &str) -> io::Result<bool> {
    let mut scripts = FileScripts::new(rt);
    let none = lacks(&mut scripts, alloc, name);
    write_long(rt, alloc, name)?;
    let long = gives_bytes(&mut scripts, alloc, name, 16_777_217);
    fs::write(rt, name, b"BEGIN;".as_slice())?;
    let short = gives(&mut scripts, alloc, name, b"BEGIN;");
    Ok(none && long && short && fails(&mut scripts, alloc, "/tmp"))
}

#[test]
fn scripts(rt: HostRuntime) -> Result<(), Fail> {
    let name = path(rt.alloc(), process::id(rt.process()), "script")?;
    let read = are_read(&rt, rt.alloc(), name.as_str())?;
    fs::remove_file(&rt, name.as_str())?;
    expect(&rt, "scripts", 0, read);
    Ok(())
}

// Whether all of this is put.
fn is_put<S: Sink>(sink: &mut S, text: &[u8]) -> bool {
    sink.put(text) == Ok(text.len())
}

// The test prints two lines.
#[test]
fn puts(rt: HostRuntime) {
    let mut sink = OutSink::new(&rt);
    let first = is_put(&mut sink, b"") && is_put(&mut sink, b"put\n");
    let head = sink.head().starts_with(b"put\n\0");
    let second = is_put(&mut sink, &[b'.'; 70]) && is_put(&mut sink, b"\n");
    let later = sink.head().len() == 64 && sink.head().ends_with(b"....");
    expect(&rt, "puts", 0, first && head && second && later);
}
