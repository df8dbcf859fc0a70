//! Errors, each with its text.

use spe_convert::ConvertFault;
use spe_disk::{Failed, ScriptFault};
use spe_files::FileFault;
use spe_model::{HeaderFault, PageFault, RecordFault, RecoverFault, Refusal, SqlFault, SqlKind};
use spe_parse::Halt;
use spe_rewrite::RewriteFault;
use spe_script::{ScriptError, ScriptKind};
use spe_space::{SpaceFault, TreeFault};
use spe_store::{BeginFault, OpenWhy, StoreFault};
use spe_words::WordsFault;
use std::alloc::{AllocError, Global};
use std::fmt::Display;
use std::process::Abort;
use std::test::Fail;

static HEADERS: [(HeaderFault, &str); 8] = [
    (HeaderFault::Short, "the file has fewer than 100 bytes"),
    (
        HeaderFault::NotADatabase,
        "the file does not begin as a SQLite 3 database does",
    ),
    (
        HeaderFault::Wal,
        "the file is in write-ahead log mode: set its journal mode to DELETE by sqlite3",
    ),
    (
        HeaderFault::BadPageSize,
        "the page size is no power of two from 512 to 65536",
    ),
    (HeaderFault::AutoVacuum, "the file has auto-vacuum"),
    (HeaderFault::Encoding, "the text encoding is not UTF-8"),
    (
        HeaderFault::Reserved,
        "fewer than 480 bytes of a page can be used",
    ),
    (
        HeaderFault::SchemaFormat,
        "the schema format is neither 0 nor 4",
    ),
];

static PAGES: [(PageFault, &str); 6] = [
    (
        PageFault::BadType,
        "the type byte is that of no b-tree page",
    ),
    (
        PageFault::OffsetOut,
        "the cell offsets run out of the usable bytes",
    ),
    (PageFault::CellOut, "a cell runs out of the usable bytes"),
    (PageFault::Overlap, "two cells share a byte"),
    (PageFault::OutOfOrder, "the keys do not ascend"),
    (PageFault::Memory, "out of memory"),
];

static RECORDS: [(RecordFault, &str); 6] = [
    (
        RecordFault::HeaderLength,
        "the header of the record has a wrong length",
    ),
    (RecordFault::ReservedType, "a serial type is 10 or 11"),
    (
        RecordFault::Short,
        "the values need more bytes than the record has",
    ),
    (
        RecordFault::Trailing,
        "the values need fewer bytes than the record has",
    ),
    (RecordFault::NotUtf8, "a text is not UTF-8"),
    (RecordFault::Memory, "out of memory"),
];

static RECOVERIES: [(RecoverFault, &str); 8] = [
    (RecoverFault::Disk, "the disk failed"),
    (
        RecoverFault::Header(HeaderFault::Encoding),
        "page 1 is not the header of a database that is read here: the text encoding is not UTF-8",
    ),
    (
        RecoverFault::JournalPage { id: 3, size: 512 },
        "journal 3 is of pages of 512 bytes, and the database is not",
    ),
    (
        RecoverFault::Overlap {
            page: 7,
            a: 0,
            b: 15,
        },
        "page 7 stands in two hot journals, 0 and 15",
    ),
    (
        RecoverFault::TooLarge { pages: 4294967295 },
        "the database has 4294967295 pages, which are more than 2^30 bytes",
    ),
    (
        RecoverFault::ShortFile {
            pages: 5,
            bytes: 4096,
        },
        "the database has 5 pages, and its file only 4096 bytes",
    ),
    (
        RecoverFault::NotPrepared,
        "the free lists are not in server form: prepare the database first",
    ),
    (RecoverFault::Memory, "out of memory"),
];

static REFUSALS: [(Refusal, &str); 12] = [
    (Refusal::ReadOnly, "the transaction is read-only"),
    (Refusal::NoTable, "there is no such table"),
    (Refusal::ClosedTable, "the table is closed to statements"),
    (Refusal::NoColumn, "there is no such column"),
    (Refusal::NotByRowid, "a condition may only be on the rowid"),
    (
        Refusal::Count,
        "there are more or fewer values than columns, or a column is set twice",
    ),
    (
        Refusal::Class,
        "a value is of a class that its column does not take",
    ),
    (
        Refusal::NotNull,
        "a column that is NOT NULL would hold NULL",
    ),
    (Refusal::RowidFixed, "the rowid can not be changed"),
    (Refusal::RowidTaken, "there is a row with this rowid"),
    (Refusal::RowidsUsedUp, "the largest rowid is in use"),
    (Refusal::TooLarge, "the record has more than 1000000 bytes"),
];

static TEXTS: [(SqlFault, &str); 5] = [
    (
        SqlFault {
            at: 0,
            kind: SqlKind::Token,
        },
        "no token at byte 0",
    ),
    (
        SqlFault {
            at: 12,
            kind: SqlKind::Expected,
        },
        "not expected at byte 12",
    ),
    (
        SqlFault {
            at: 7,
            kind: SqlKind::Unsupported,
        },
        "not supported at byte 7",
    ),
    (
        SqlFault {
            at: 33,
            kind: SqlKind::NumberRange,
        },
        "a whole number past 64 bits at byte 33",
    ),
    (
        SqlFault {
            at: 0,
            kind: SqlKind::Memory,
        },
        "out of memory at byte 0",
    ),
];

static HALTS: [(Halt, &str); 3] = [
    (Halt::Ends, "the statement ends too early"),
    (
        Halt::Fault(SqlFault {
            at: 5,
            kind: SqlKind::Expected,
        }),
        "not expected at byte 5",
    ),
    (Halt::Memory, "out of memory"),
];

static SCRIPTS: [(ScriptKind, &str); 9] = [
    (ScriptKind::NotUtf8, "the script is not UTF-8"),
    (ScriptKind::Token, "no token"),
    (ScriptKind::Expected, "not expected"),
    (ScriptKind::Unsupported, "not supported"),
    (ScriptKind::NumberRange, "a whole number past 64 bits"),
    (ScriptKind::Nested, "BEGIN inside a transaction"),
    (
        ScriptKind::NotOpen,
        "the end of a transaction where none is open",
    ),
    (
        ScriptKind::TooLong,
        "the script has more than 16777216 bytes",
    ),
    (ScriptKind::Memory, "out of memory"),
];

static REFUSED_SCRIPTS: [(ScriptError, &str); 2] = [
    (
        ScriptError {
            line: 12,
            kind: ScriptKind::Nested,
        },
        "line 12: BEGIN inside a transaction",
    ),
    (
        ScriptError {
            line: 0,
            kind: ScriptKind::TooLong,
        },
        "line 0: the script has more than 16777216 bytes",
    ),
];

static TREES: [(TreeFault, &str); 8] = [
    (
        TreeFault::Space(SpaceFault::Busy { page: 9, word: 48 }),
        "another transaction holds page 9; its lock word is 0x30",
    ),
    (
        TreeFault::Space(SpaceFault::Read),
        "the disk could not read",
    ),
    (
        TreeFault::Space(SpaceFault::Stopped { op: 3 }),
        "the disk failed at operation 3, and all that writes has stopped",
    ),
    (
        TreeFault::Space(SpaceFault::Full { pages: 262144 }),
        "the database has 262144 pages and may not grow",
    ),
    (
        TreeFault::Space(SpaceFault::PageOut { page: 8, pages: 7 }),
        "page 8 is none of the 7 pages, or the pages are read-only",
    ),
    (
        TreeFault::Space(SpaceFault::Corrupt { page: 2 }),
        "the bytes for page 2 may not be put there",
    ),
    (TreeFault::Space(SpaceFault::Memory), "out of memory"),
    (TreeFault::Corrupt { page: 4 }, "page 4 is damaged"),
];

static REWRITES: [(RewriteFault, &str); 2] = [
    (RewriteFault::Disk, "the disk failed"),
    (RewriteFault::Memory, "out of memory"),
];

static CONVERSIONS: [(ConvertFault, &str); 5] = [
    (ConvertFault::Disk, "the disk failed"),
    (
        ConvertFault::Full { pages: 262144 },
        "the database has 262144 pages, and no room for more",
    ),
    (ConvertFault::Prepared, "the free lists are in server form"),
    (
        ConvertFault::Corrupt { page: 6 },
        "the free lists are damaged at page 6",
    ),
    (ConvertFault::Memory, "out of memory"),
];

static STORES: [(StoreFault, &str); 4] = [
    (StoreFault::ReadFault, "the disk failed in a reading"),
    (
        StoreFault::Stopped { op: 3 },
        "operation 3 on the disk failed",
    ),
    (
        StoreFault::PageOut { page: 8, pages: 7 },
        "page 8 is not one of 7",
    ),
    (StoreFault::Memory, "out of memory"),
];

static OPENINGS: [(OpenWhy, &str); 2] = [
    (
        OpenWhy::Disk,
        "the disk failed while the journals were made",
    ),
    (OpenWhy::Memory, "out of memory"),
];

static BEGINNINGS: [(BeginFault, &str); 3] = [
    (
        BeginFault::Stopped { op: 3 },
        "operation 3 on the disk failed",
    ),
    (
        BeginFault::Sixteen,
        "sixteen transactions that may write are at work",
    ),
    (BeginFault::Memory, "out of memory"),
];

static FILES: [(FileFault, &str); 5] = [
    (
        FileFault::StockJournal,
        "another program's journal, which may be hot: let sqlite3 finish it and put the journal mode to DELETE, by 'PRAGMA journal_mode = PERSIST; PRAGMA journal_mode = DELETE'",
    ),
    (
        FileFault::NotPlain,
        "a database is a plain file, and this is none",
    ),
    (
        FileFault::NoPermission,
        "there is no permission to open, read or write it or a journal of it",
    ),
    (FileFault::Memory, "there was no memory for its path"),
    (
        FileFault::Refused,
        "it or a journal of it could not be opened, read, written or cut",
    ),
];

fn expect(
    rt: &impl Abort,
    alloc: Global,
    error: impl Display + Drop,
    text: &str,
) -> Result<(), AllocError> {
    let shown = format!(in alloc; "{error}")?;
    assert_eq!(rt; shown.as_str(), text);
    Ok(())
}

fn expect_each<T: Display + Copy>(
    rt: &impl Abort,
    alloc: Global,
    table: &[(T, &str)],
) -> Result<(), AllocError> {
    for (error, text) in table {
        expect(rt, alloc, *error, *text)?;
    }
    Ok(())
}

#[test]
fn formats(rt: HostRuntime) -> Result<(), Fail> {
    expect_each(&rt, rt.alloc(), &HEADERS)?;
    expect_each(&rt, rt.alloc(), &PAGES)?;
    expect_each(&rt, rt.alloc(), &RECORDS)?;
    expect_each(&rt, rt.alloc(), &RECOVERIES)?;
    Ok(())
}

#[test]
fn statements(rt: HostRuntime) -> Result<(), Fail> {
    expect_each(&rt, rt.alloc(), &REFUSALS)?;
    expect_each(&rt, rt.alloc(), &TEXTS)?;
    expect_each(&rt, rt.alloc(), &TREES)?;
    Ok(())
}

#[test]
fn scripts(rt: HostRuntime) -> Result<(), Fail> {
    expect_each(&rt, rt.alloc(), &HALTS)?;
    expect_each(&rt, rt.alloc(), &SCRIPTS)?;
    expect_each(&rt, rt.alloc(), &REFUSED_SCRIPTS)?;
    Ok(())
}

#[test]
fn transactions(rt: HostRuntime) -> Result<(), Fail> {
    expect_each(&rt, rt.alloc(), &REWRITES)?;
    expect_each(&rt, rt.alloc(), &CONVERSIONS)?;
    expect_each(&rt, rt.alloc(), &STORES)?;
    expect_each(&rt, rt.alloc(), &OPENINGS)?;
    expect_each(&rt, rt.alloc(), &BEGINNINGS)?;
    Ok(())
}

#[test]
fn outside(rt: HostRuntime) -> Result<(), Fail> {
    expect_each(&rt, rt.alloc(), &FILES)?;
    expect(&rt, rt.alloc(), Failed, "the disk or the output failed")?;
    let failed = ScriptFault::Failed;
    expect(&rt, rt.alloc(), failed, "the script could not be read")?;
    let memory = ScriptFault::Memory(AllocError);
    expect(&rt, rt.alloc(), memory, "out of memory")?;
    let words = WordsFault::Words;
    expect(&rt, rt.alloc(), words, "these words are no command")?;
    expect(&rt, rt.alloc(), WordsFault::Memory, "out of memory")?;
    Ok(())
}
