//! The words of command lines.

use super::files::expect;
use spe_model::{Names, Text, Words};
use spe_words::{Command, WordsFault, read_words};
use std::alloc::{AllocError, Global};
use std::process::Abort;
use std::test::Fail;

// Words with a blank between them, and the command that they ask for, its numbers last. No word is empty but
// where two blanks meet, or one begins or ends the line.
static LINES: [(&str, &str); 46] = [
    ("", "none"),
    ("rows A p", "rows A p"),
    ("rows A", "none"),
    ("rows A p q", "none"),
    ("rows A ", "none"),
    (" rows A p", "none"),
    ("rows - p", "rows - p"),
    ("rows -A p", "none"),
    ("rows -- -A p", "rows -A p"),
    ("rows A -- --", "rows A --"),
    ("rows A p --", "rows A p"),
    ("rows --help p", "none"),
    ("rows --workers 4 A p", "none"),
    ("Rows A p", "none"),
    ("row A p", "none"),
    ("backup B C", "none"),
    ("check A", "check A"),
    ("check", "none"),
    ("prepare A 2", "prepare A 2"),
    ("prepare A 0000000016", "prepare A 16"),
    ("prepare A 00000000016", "none"),
    ("prepare A 17", "none"),
    ("prepare A 0", "none"),
    ("prepare A +2", "none"),
    ("prepare A 2x", "none"),
    ("release A", "release A"),
    ("work W 1 100", "work W 1 100"),
    ("work W 4294967295 100000", "work W 4294967295 100000"),
    ("work W 4294967296 1", "none"),
    ("work W 1 0", "none"),
    ("run B s", "run B s 4 1000 262144"),
    ("run B", "none"),
    ("run B --workers 16 s", "run B s 16 1000 262144"),
    ("run B --workers 17 s", "none"),
    ("run B --workers 2 --workers 2 s", "none"),
    ("run B --workers=2 --workers 2 s", "none"),
    ("run --slots=16 B s --retries=0 t", "run B s,t 4 0 16"),
    ("run B s --slots 17", "none"),
    ("run B s --slots 8", "none"),
    ("run B s --slots 524288", "none"),
    ("run B s --retries 1000001", "none"),
    ("run B s --retries -1", "none"),
    ("run B s --retries=-1", "none"),
    ("run B s --worker 2", "none"),
    ("run B s --workers", "none"),
    (
        "run B -- s --workers 2",
        "run B s,--workers,2 4 1000 262144",
    ),
];

// Words with options of `run`: both spellings, the ends of their ranges, leading zeros.
static OPTIONS: [(&str, &str); 43] = [
    ("run B s --workers 2", "run B s 2 1000 262144"),
    ("run B --workers=2 s", "run B s 2 1000 262144"),
    ("run B s --workers 1", "run B s 1 1000 262144"),
    ("run B s --workers=16", "run B s 16 1000 262144"),
    ("run B s --workers 0", "none"),
    ("run B s --workers=17", "none"),
    ("run B s --workers 0000000003", "run B s 3 1000 262144"),
    ("run B s --workers 00000000003", "none"),
    ("run B s --workers 4294967297", "none"),
    ("run B s --workers=2 --workers=3", "none"),
    ("run B -- --workers=2", "run B --workers=2 4 1000 262144"),
    ("run B s --retries 7", "run B s 4 7 262144"),
    ("run --retries=7 B s", "run B s 4 7 262144"),
    ("run B s --retries 0", "run B s 4 0 262144"),
    ("run B s --retries=1000000", "run B s 4 1000000 262144"),
    ("run B s --retries=1000001", "none"),
    ("run B s --retries 0000000007", "run B s 4 7 262144"),
    ("run B s --retries 00000000007", "none"),
    ("run B s --retries 4294967296", "none"),
    ("run B s --retries 7 --retries 7", "none"),
    (
        "run B -- s --retries 7",
        "run B s,--retries,7 4 1000 262144",
    ),
    ("run B -- --retries=7", "run B --retries=7 4 1000 262144"),
    ("run B s --slots 32", "run B s 4 1000 32"),
    ("run B s --slots=131072", "run B s 4 1000 131072"),
    ("run B s --slots 16", "run B s 4 1000 16"),
    ("run B s --slots=262144", "run B s 4 1000 262144"),
    ("run B s --slots=0", "none"),
    ("run B s --slots=8", "none"),
    ("run B s --slots=524288", "none"),
    ("run B s --slots 100000", "none"),
    ("run B s --slots 0000000016", "run B s 4 1000 16"),
    ("run B s --slots 00000000016", "none"),
    ("run B s --slots 4294967312", "none"),
    ("run B s --slots=16 --slots 16", "none"),
    ("run B -- s --slots 16", "run B s,--slots,16 4 1000 262144"),
    ("run B -- --slots=16", "run B --slots=16 4 1000 262144"),
    (
        "run --slots=64 B --workers 3 s --retries=5 t",
        "run B s,t 3 5 64",
    ),
    ("run B s --workers 2 3", "run B s,3 2 1000 262144"),
    ("run B s --workers=", "none"),
    ("run B s --workers -- 2", "none"),
    ("run B s --workers -2", "none"),
    ("run B s --retries=7x", "none"),
    ("run B s --slots +16", "none"),
];

fn push_word(alloc: Global, words: &mut Vec<Text>, word: &str) -> Result<(), AllocError> {
    let text = Text::new(String::from_str(alloc, word)?);
    words.push(text)?;
    Ok(())
}

fn push_words(alloc: Global, words: &mut Vec<Text>, line: &str) -> Result<(), AllocError> {
    for word in line.split(' ') {
        push_word(alloc, words, word)?;
    }
    Ok(())
}

// The words of a line, none of an empty one.
fn words_of(alloc: Global, line: &str) -> Result<Words, AllocError> {
    let mut found = Vec::new(alloc);
    if !line.is_empty() {
        push_words(alloc, &mut found, line)?;
    }
    Ok(Words::new(found))
}

fn push_name(text: &mut String, name: &str) -> Result<(), AllocError> {
    if !text.is_empty() {
        text.push(',')?;
    }
    text.push_str(name)
}

fn joined(alloc: Global, names: &Names) -> Result<String, AllocError> {
    let mut text = String::new(alloc);
    for name in names.as_slice() {
        push_name(&mut text, name.as_str())?;
    }
    Ok(text)
}

// A command in one line.
fn shown(alloc: Global, command: &Command) -> Result<String, AllocError> {
    match command {
        Command::Rows { db, table } => {
            let (db, table) = (db.as_str(), table.as_str());
            format!(in alloc; "rows {db} {table}")
        }
        Command::Check { db } => {
            let db = db.as_str();
            format!(in alloc; "check {db}")
        }
        Command::Prepare { db, lists } => {
            let db = db.as_str();
            format!(in alloc; "prepare {db} {lists}")
        }
        Command::Release { db } => {
            let db = db.as_str();
            format!(in alloc; "release {db}")
        }
        Command::Run {
            db,
            scripts,
            workers,
            retries,
            slots,
        } => {
            let db = db.as_str();
            let scripts = joined(alloc, scripts)?;
            format!(in alloc; "run {db} {scripts} {workers} {retries} {slots}")
        }
        Command::Work { db, seed, count } => {
            let db = db.as_str();
            format!(in alloc; "work {db} {seed} {count}")
        }
    }
}

// The command of a line of words in one line, or `none`.
fn read(alloc: Global, line: &str) -> Result<String, AllocError> {
    match read_words(alloc, &words_of(alloc, line)?) {
        Ok(command) => shown(alloc, &command),
        Err(WordsFault::Words) => String::from_str(alloc, "none"),
        Err(WordsFault::Memory) => String::from_str(alloc, "memory"),
    }
}

// Whether a line of words asks for this.
fn is_read(alloc: Global, line: &str, text: &str) -> Result<bool, AllocError> {
    let found = read(alloc, line)?;
    Ok(found.as_str() == text)
}

fn expect_lines(rt: &impl Abort, alloc: Global, lines: &[(&str, &str)]) -> Result<(), AllocError> {
    for (row, (line, text)) in lines.iter().enumerate() {
        let holds = is_read(alloc, line, text)?;
        expect(rt, line, row, holds);
    }
    Ok(())
}

#[test]
fn lines(rt: HostRuntime) -> Result<(), Fail> {
    expect_lines(&rt, rt.alloc(), &LINES)?;
    Ok(())
}

#[test]
fn options(rt: HostRuntime) -> Result<(), Fail> {
    expect_lines(&rt, rt.alloc(), &OPTIONS)?;
    Ok(())
}

// `run` with so many scripts.
fn scripts_line(alloc: Global, count: u8) -> Result<String, AllocError> {
    let mut line = String::from_str(alloc, "run B")?;
    for _ in 0..count {
        line.push_str(" s")?;
    }
    Ok(line)
}

fn reads_many(alloc: Global) -> Result<bool, AllocError> {
    let line = scripts_line(alloc, 64)?;
    let found = read(alloc, line.as_str())?;
    Ok(found.as_str().starts_with("run B s,s,s,"))
}

fn reads_too_many(alloc: Global) -> Result<bool, AllocError> {
    let line = scripts_line(alloc, 65)?;
    is_read(alloc, line.as_str(), "none")
}

#[test]
fn sixty_four_scripts(rt: HostRuntime) -> Result<(), Fail> {
    let many = reads_many(rt.alloc())?;
    let more = reads_too_many(rt.alloc())?;
    expect(&rt, "scripts", 64, many && more);
    Ok(())
}
