//! Scripts, their transactions, and their faults with the lines of these.

use super::expect;
use super::statements::shown;
use spe_model::{End, Tx, TxKind};
use spe_script::{ScriptError, ScriptKind, read_script};
use std::alloc::{AllocError, Global};
use std::process::Abort;
use std::test::Fail;

// Scripts, and the transactions that they are.
static SCRIPTS: [(&str, &str); 18] = [
    ("", ""),
    (" \n-- nothing\n/* at all", ""),
    (";;\n; ;", ""),
    ("DELETE FROM a", "write (delete a) commit|"),
    (
        "DELETE FROM a;;DELETE FROM b;",
        "write (delete a) commit|write (delete b) commit|",
    ),
    (
        "BEGIN;DELETE FROM a;SELECT * FROM a;COMMIT",
        "write (delete a) (select a all) commit|",
    ),
    (
        "begin transaction; update a set v = 1; End Transaction;",
        "write (update a v := 1) commit|",
    ),
    (
        "BEGIN;COMMIT;BEGIN TRANSACTION;ROLLBACK TRANSACTION;Begin;rollback",
        "write commit|write rollback|write rollback|",
    ),
    (
        "BEGIN READONLY;SELECT v FROM a;COMMIT TRANSACTION;BEGIN readonly;ROLLBACK",
        "read (select a v) commit|read rollback|",
    ),
    ("BEGIN;DELETE FROM a", "write (delete a) rollback|"),
    ("BEGIN READONLY", "read rollback|"),
    ("BEGIN;;\n;", "write rollback|"),
    (
        "DELETE FROM a;BEGIN;DELETE FROM b;END;DELETE FROM c",
        "write (delete a) commit|write (delete b) commit|write (delete c) commit|",
    ),
    (
        "\r\nBEGIN\r\n;\tDELETE\u{c}FROM a\r\n;ROLLBACK\r\n",
        "write (delete a) rollback|",
    ),
    (
        "-- a;b\nBEGIN--;\n;/* ; */DELETE FROM \"a;b\";INSERT INTO a VALUES (';');COMMIT",
        "write (delete a;b) (insert a all: ';') commit|",
    ),
    (
        "SELECT readonly, transaction FROM transaction; DELETE FROM readonly",
        "write (select transaction readonly transaction) commit|write (delete readonly) commit|",
    ),
    (
        "BEGIN;SELECT count(*) FROM a WHERE id BETWEEN 1 AND 2",
        "write (count a where id >= 1 where id <= 2) rollback|",
    ),
    (
        "BEGIN READONLY;DELETE FROM a;END;BEGIN",
        "read (delete a) commit|write rollback|",
    ),
];

// Scripts with a BEGIN inside a transaction, or the end of one outside, and with items that are none.
static FAULTS: [(&str, &str); 42] = [
    ("BEGIN;BEGIN", "line 1 nested"),
    ("BEGIN\n;\nBEGIN READONLY", "line 3 nested"),
    ("BEGIN READONLY;\n\nBEGIN", "line 3 nested"),
    ("BEGIN;COMMIT;BEGIN;\nBEGIN", "line 2 nested"),
    ("COMMIT", "line 1 not open"),
    ("\n END", "line 2 not open"),
    ("ROLLBACK", "line 1 not open"),
    ("BEGIN;COMMIT;\nCOMMIT", "line 2 not open"),
    ("BEGIN;ROLLBACK;\n\nEND;BEGIN;BEGIN", "line 3 not open"),
    ("DELETE FROM a;\n\n\nROLLBACK", "line 4 not open"),
    // before what follows the word
    ("COMMIT\nfoo", "line 1 not open"),
    ("BEGIN;\nBEGIN\n$", "line 2 nested"),
    ("BEGIN;\nBEGIN\nIMMEDIATE", "line 2 nested"),
    ("BEGIN foo", "line 1 expected"),
    ("BEGIN\nREADONLY\nTRANSACTION", "line 3 expected"),
    ("BEGIN TRANSACTION\nREADONLY", "line 2 expected"),
    ("BEGIN\n\"transaction\"", "line 2 expected"),
    ("BEGIN;COMMIT\nWORK", "line 2 expected"),
    ("BEGIN;END TRANSACTION\nTRANSACTION", "line 2 expected"),
    ("BEGIN;ROLLBACK\nTO a", "line 2 expected"),
    ("BEGIN\nIMMEDIATE", "line 2 unsupported"),
    ("SAVEPOINT a", "line 1 unsupported"),
    ("BEGIN;ROLLBACK TRANSACTION\n1.5", "line 2 unsupported"),
    // an item that ends too early, before a semicolon, the text's end or no token
    ("DELETE FROM\n\n;\n\n", "line 3 expected"),
    ("DELETE FROM\n\n", "line 3 expected"),
    ("DELETE FROM\n\n$", "line 3 token"),
    ("DELETE FROM a\n$", "line 2 token"),
    ("DELETE FROM a;\n$", "line 2 token"),
    ("BEGIN\n'", "line 2 token"),
    ("\n\n'unclosed\n\n", "line 3 token"),
    ("DELETE FROM a\nDELETE FROM b", "line 2 expected"),
    (
        "DELETE FROM a WHERE i =\n-\n9223372036854775809",
        "line 2 range",
    ),
    (
        "DELETE FROM a WHERE i = 1 AND\ni = 9223372036854775808 '",
        "line 2 range",
    ),
    // the first of two
    ("DELETE FROM a;\nSELECT;\nCOMMIT", "line 2 expected"),
    ("DELETE FROM a;\nCOMMIT;\nSELECT", "line 2 not open"),
    ("SELECT\n;\n'", "line 2 expected"),
    // line feeds in comments and strings count, carriage returns do not
    ("-- one\n/* two\nthree */ $", "line 3 token"),
    ("INSERT INTO a VALUES ('1\n2'\n)\n,", "line 4 expected"),
    ("\r\r$", "line 1 token"),
    ("\r\n\r\n$", "line 3 token"),
    ("\u{e9}\n\u{2003}\nCOMMIT", "line 1 expected"),
    ("\u{feff}BEGIN", "line 1 expected"),
];

fn kind_text(kind: ScriptKind) -> &'static str {
    match kind {
        ScriptKind::NotUtf8 => "no text",
        ScriptKind::Token => "token",
        ScriptKind::Expected => "expected",
        ScriptKind::Unsupported => "unsupported",
        ScriptKind::NumberRange => "range",
        ScriptKind::Nested => "nested",
        ScriptKind::NotOpen => "not open",
        ScriptKind::TooLong => "too long",
        ScriptKind::Memory => "memory",
    }
}

fn begin_text(kind: TxKind) -> &'static str {
    match kind {
        TxKind::ReadWrite => "write ",
        TxKind::ReadOnly => "read ",
    }
}

fn end_text(end: End) -> &'static str {
    match end {
        End::Commit => "commit|",
        End::Rollback => "rollback|",
    }
}

fn push_tx(alloc: Global, text: &mut String, tx: &Tx) -> Result<(), AllocError> {
    text.push_str(begin_text(tx.kind))?;
    for statement in tx.statements.as_slice() {
        text.push('(')?;
        shown(alloc, text, statement)?;
        text.push_str(") ")?;
    }
    text.push_str(end_text(tx.end))?;
    Ok(())
}

fn txs_text(alloc: Global, txs: &[Tx]) -> Result<String, AllocError> {
    let mut text = String::new(alloc);
    for tx in txs {
        push_tx(alloc, &mut text, tx)?;
    }
    Ok(text)
}

fn error_text(alloc: Global, error: ScriptError) -> Result<String, AllocError> {
    let (line, kind) = (error.line, kind_text(error.kind));
    format!(in alloc; "line {line} {kind}")
}

// What a script is, in one line.
fn read(alloc: Global, bytes: &[u8]) -> Result<String, AllocError> {
    match read_script(alloc, bytes) {
        Ok(txs) => txs_text(alloc, txs.as_slice()),
        Err(error) => error_text(alloc, error),
    }
}

fn is_read(alloc: Global, script: &[u8], line: &str) -> Result<bool, AllocError> {
    let found = read(alloc, script)?;
    Ok(found.as_str() == line)
}

fn expect_all(rt: &impl Abort, alloc: Global, cases: &[(&str, &str)]) -> Result<(), AllocError> {
    for (script, line) in cases {
        let holds = is_read(alloc, script.as_bytes(), line)?;
        expect(rt, script, holds);
    }
    Ok(())
}

// A script that is the same line over and over, with some bytes behind it.
fn repeated(alloc: Global, line: &[u8], times: usize, end: &str) -> Result<Vec<u8>, AllocError> {
    let mut bytes = Vec::new(alloc);
    for _ in 0..times {
        bytes.extend_from_slice(line)?;
    }
    bytes.extend_from_slice(end.as_bytes())?;
    Ok(bytes)
}

// A line of 1024 bytes: a statement, and a comment behind it.
fn long_line(alloc: Global) -> Result<Vec<u8>, AllocError> {
    let mut line = Vec::from_slice(alloc, b"DELETE FROM a;--")?;
    line.resize(1023, b';')?;
    line.push(b'\n')?;
    Ok(line)
}

// How many transactions a script is, or its fault.
fn counted(alloc: Global, script: &[u8]) -> Result<String, AllocError> {
    match read_script(alloc, script) {
        Ok(txs) => {
            let count = txs.as_slice().len();
            format!(in alloc; "{count}")
        }
        Err(error) => error_text(alloc, error),
    }
}

// Whether such a script is so many transactions, or has this fault.
fn is_long(
    alloc: Global,
    line: &[u8],
    times: usize,
    end: &str,
    expected: &str,
) -> Result<bool, AllocError> {
    let script = repeated(alloc, line, times, end)?;
    let found = counted(alloc, script.as_slice())?;
    Ok(found.as_str() == expected)
}

#[test]
fn scripts(rt: HostRuntime) -> Result<(), Fail> {
    expect_all(&rt, rt.alloc(), &SCRIPTS)?;
    Ok(())
}

#[test]
fn script_faults(rt: HostRuntime) -> Result<(), Fail> {
    expect_all(&rt, rt.alloc(), &FAULTS)?;
    Ok(())
}

static NO_TEXTS: [&[u8]; 3] = [&[255], b"COMMIT\n\xc3", b"\xed\xa0\x80"];

#[test]
fn scripts_that_are_no_text(rt: HostRuntime) -> Result<(), Fail> {
    for script in &NO_TEXTS {
        let holds = is_read(rt.alloc(), *script, "line 0 no text")?;
        expect(&rt, "no text", holds);
    }
    Ok(())
}

// What stands behind so many lines, and what such a script is: 16777216 bytes, and one more.
static LONGEST: [(&str, &str); 2] = [("", "16384"), (";", "line 0 too long")];

fn expect_longest(rt: &impl Abort, alloc: Global, line: &[u8]) -> Result<(), AllocError> {
    for (end, expected) in &LONGEST {
        let holds = is_long(alloc, line, 16_384, end, expected)?;
        expect(rt, expected, holds);
    }
    Ok(())
}

// Too long a script is refused before it is found to be no text.
#[test]
fn longest_scripts(rt: HostRuntime) -> Result<(), Fail> {
    let line = long_line(rt.alloc())?;
    expect_longest(&rt, rt.alloc(), line.as_slice())?;
    let holds = is_long(rt.alloc(), &[255; 64], 262_145, "", "line 0 too long")?;
    expect(&rt, "bytes", holds);
    Ok(())
}

// So many lines of comments, and what is wrong behind the last.
static COMMENTS: [(usize, &str); 2] = [(262_143, "line 262144 token"), (1, "line 2 token")];

#[test]
fn long_comments(rt: HostRuntime) -> Result<(), Fail> {
    let line = b"-- a line that says nothing, with a `;` and a `/*`, and ends so\n";
    for (times, expected) in &COMMENTS {
        let holds = is_long(rt.alloc(), line, *times, "$", *expected)?;
        expect(&rt, *expected, holds);
    }
    Ok(())
}
