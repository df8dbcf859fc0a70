//! Definitions of tables, and what they declare.

use super::expect;
use spe_catalog::definition;
use spe_model::{Affinity, Column, Declaration};
use std::alloc::{AllocError, Global};
use std::process::Abort;
use std::test::Fail;

// Texts, and their columns: name and affinity, `!` where it takes no NULL, `*` at the one that is
// the rowid.
static DECLARED: [(&str, &str); 9] = [
    (
        "CREATE TABLE p(id INTEGER PRIMARY KEY, name TEXT)",
        "id integer*|name text|",
    ),
    // any case, comments, a name that counts for nothing
    (
        "create /* a */ table \"q q\" ( a integer primary key asc , -- b\n b varchar(10) not null )",
        "a integer*|b text!|",
    ),
    // no type, and types by their parts
    (
        "CREATE TABLE t(a, b CHARINT, c FLOAT, d BLOB, e DECIMAL(10, -5), f DOUBLE PRECISION)",
        "a blob|b integer|c real|d blob|e numeric|f real|",
    ),
    // the second word of a type counts, and so does the blank between two
    (
        "CREATE TABLE t(a UNSIGNED BIG INT, b IN T)",
        "a integer|b numeric|",
    ),
    // names in each kind of quotes
    (
        "CREATE TABLE t(\"a\"\"b\" TEXT, `c` TEXT, [d e] TEXT, 'f' TEXT)",
        "a\"b text|c text|d e text|f text|",
    ),
    (
        "CREATE TABLE t(a INT NULL NOT NULL NULL NOT NULL)",
        "a integer!|",
    ),
    (
        "CREATE TABLE t(a TEXT, b INTEGER NOT NULL PRIMARY KEY)",
        "a text|b integer!*|",
    ),
    // two columns of one name are declared; the table is closed for them
    ("CREATE TABLE t(a, A)", "a blob|A blob|"),
    // every word behind a name belongs to its type
    ("CREATE TABLE t(a TEXT b)", "a text|"),
];

// Texts that are not understood.
static UNKNOWN: [&str; 16] = [
    "CREATE TABLE t(a INT PRIMARY KEY)",
    "CREATE TABLE t(a \"INTEGER\" PRIMARY KEY)",
    "CREATE TABLE t(a INTEGER(4) PRIMARY KEY)",
    "CREATE TABLE t(a BIG INTEGER PRIMARY KEY)",
    "CREATE TABLE t(a PRIMARY KEY)",
    "CREATE TABLE t(a INTEGER PRIMARY KEY PRIMARY KEY)",
    "CREATE TABLE t(a INTEGER PRIMARY KEY, b INTEGER PRIMARY KEY)",
    "CREATE TABLE t(a INTEGER PRIMARY KEY DESC)",
    "CREATE TABLE t(a INTEGER PRIMARY KEY AUTOINCREMENT)",
    "CREATE TABLE t(a TEXT DEFAULT 'x')",
    "CREATE TABLE t(a TEXT, UNIQUE(a))",
    "CREATE TABLE t(a TEXT) WITHOUT ROWID",
    "CREATE TABLE t(a TEXT);",
    "CREATE TABLE IF NOT EXISTS t(a TEXT)",
    "CREATE TABLE t(a,)",
    "CREATE TABLE t(a TEXT ?)",
];

// More texts with their columns: constraints in any order, names of every spelling, lengths and comments.
static SPELLED: [(&str, &str); 13] = [
    (
        "CREATE TABLE t(a INTEGER PRIMARY KEY ASC NOT NULL NULL)",
        "a integer!*|",
    ),
    ("CREATE TABLE t(a INTEGER NULL PRIMARY KEY)", "a integer*|"),
    (
        "CREATE TABLE \"main\"\"t\"(\"key\" TEXT, [NULL] \"INT\", `not` 'x')",
        "key text|NULL integer|not numeric|",
    ),
    (
        "CREATE TABLE select(order, group TEXT, values INT)",
        "order blob|group text|values integer|",
    ),
    (
        "CREATE TABLE t(\u{e9}t\u{e9} TEXT, _a$1 \u{fc}ber)",
        "\u{e9}t\u{e9} text|_a$1 numeric|",
    ),
    (
        "CREATE TABLE t(a 'te''xt', b [my int], c \"x\"\"blob\", d `real`)",
        "a numeric|b integer|c blob|d real|",
    ),
    (
        "CREATE TABLE t(a VARCHAR ( 10 ), b DECIMAL(+10,- 5), c FLOAT(-1), d X(007))",
        "a text|b numeric|c real|d numeric|",
    ),
    (
        "CREATE TABLE t(a x y z(1) NOT NULL, b DOUBLE(1, 2) NULL)",
        "a numeric!|b real|",
    ),
    (
        "CREATE/**/TABLE--\nt/**/(a/*,*/,b/* not\n*/INT--)\n)",
        "a blob|b integer|",
    ),
    ("CREATE TABLE t(a TEXT)-- the end", "a text|"),
    ("CREATE TABLE t(a TEXT)/* the end", "a text|"),
    (
        "CREATE TABLE t(a \"--\", b '/* no comment', [c--])",
        "a numeric|b numeric|c-- blob|",
    ),
    (
        "CREATE TABLE t(a INTEGER PRIMARY KEY, A, b, B TEXT)",
        "a integer*|A blob|b blob|B text|",
    ),
];

// Types, and the affinity that they give a column.
static TYPES: [(&str, &str); 18] = [
    ("TEXTINT", "integer"),
    ("FLOATINGPOINT", "integer"),
    ("BLOBCHAR", "text"),
    ("REALCLOB", "text"),
    ("NTEXT", "text"),
    ("XBLOBREAL", "blob"),
    ("DOUBT", "real"),
    ("FLOAT8", "real"),
    ("Surreal", "real"),
    ("STRING", "numeric"),
    ("BOOLEAN", "numeric"),
    ("DATE TIME", "numeric"),
    ("FLO AT", "numeric"),
    ("cha r", "numeric"),
    ("IN\u{d6}T", "numeric"),
    ("\u{130}NT", "numeric"),
    ("point", "integer"),
    ("Varchar", "text"),
];

// More texts that are not understood: what stands before and behind the columns,
static FRAMES: [&str; 20] = [
    "",
    "CREATE TABLE",
    "CREATE TABLE t",
    "CREATE TABLE t()",
    "CREATE TABLE t(a",
    "CREATE TABLE t(a TEXT))",
    "CREATE TABLE t(,a)",
    "CREATE TABLE t(a b c,)",
    "CREATE TEMP TABLE t(a)",
    "CREATE VIRTUAL TABLE t USING fts5(a)",
    "CREATE TABLE t AS SELECT 1",
    "CREATE TABLE main.t(a)",
    "CREATE VIEW t(a)",
    "\"CREATE\" TABLE t(a)",
    "CREATE TABLE t(a) STRICT",
    "CREATE TABLE t(1)",
    "CREATE TABLE t(a 1)",
    "CREATE TABLE t(x'00')",
    "CREATE TABLE not(a)",
    "CREATE TABLE t(\"\" TEXT)",
];

// and what stands in them.
static PARTS: [&str; 25] = [
    "CREATE TABLE t(key TEXT)",
    "CREATE TABLE t(a TEXT unique)",
    "CREATE TABLE t(a TEXT COLLATE NOCASE)",
    "CREATE TABLE t(a TEXT CHECK(a > 1))",
    "CREATE TABLE t(a REFERENCES b)",
    "CREATE TABLE t(a AS (1))",
    "CREATE TABLE t(a INT GENERATED ALWAYS AS (1))",
    "CREATE TABLE t(a CONSTRAINT c NOT NULL)",
    "CREATE TABLE t(a, FOREIGN KEY(a) REFERENCES b)",
    "CREATE TABLE t(a, PRIMARY KEY(a))",
    "CREATE TABLE t(a NOT)",
    "CREATE TABLE t(a INT ASC)",
    "CREATE TABLE t(a INTEGER PRIMARY)",
    "CREATE TABLE t(a INTEGER ASC PRIMARY KEY)",
    "CREATE TABLE t(a INTEGER NOT NULL TEXT)",
    "CREATE TABLE t(a (10))",
    "CREATE TABLE t(a VARCHAR())",
    "CREATE TABLE t(a VARCHAR(1.5))",
    "CREATE TABLE t(a VARCHAR(1, 2, 3))",
    "CREATE TABLE t(a VARCHAR(max))",
    "CREATE TABLE t(a INT(1) UNSIGNED)",
    "CREATE TABLE t(a INTEGER(1) PRIMARY KEY, b)",
    "CREATE TABLE t(a 'INTEGER' PRIMARY KEY)",
    "CREATE TABLE t(a INT EGER PRIMARY KEY)",
    "CREATE TABLE t(a INTEGER /* not closed PRIMARY KEY)",
];

fn affinity(affinity: Affinity) -> &'static str {
    match affinity {
        Affinity::Integer => " integer",
        Affinity::Text => " text",
        Affinity::Blob => " blob",
        Affinity::Real => " real",
        Affinity::Numeric => " numeric",
    }
}

fn put_column(out: &mut String, column: &Column, is_alias: bool) -> Result<(), AllocError> {
    out.push_str(column.name.as_str())?;
    out.push_str(affinity(column.affinity))?;
    out.push_str(if column.not_null { "!" } else { "" })?;
    out.push_str(if is_alias { "*|" } else { "|" })
}

fn put_columns(out: &mut String, columns: &[Column], alias: Option<u32>) -> Result<(), AllocError> {
    for (place, column) in columns.iter().enumerate() {
        put_column(out, column, alias.is_some_and(|a| a as usize == place))?;
    }
    Ok(())
}

fn written(alloc: Global, declaration: &Declaration) -> Result<String, AllocError> {
    let mut out = String::new(alloc);
    put_columns(&mut out, declaration.columns.as_slice(), declaration.alias)?;
    Ok(out)
}

// The columns of a text in writing, or nothing of one that is not understood.
fn read(alloc: Global, sql: &str) -> Result<String, AllocError> {
    match definition(alloc, sql)? {
        Some(declaration) => written(alloc, &declaration),
        None => Ok(String::new(alloc)),
    }
}

fn is_read(alloc: Global, sql: &str, columns: &str) -> Result<bool, AllocError> {
    let found = read(alloc, sql)?;
    Ok(found.as_str() == columns)
}

fn expect_all<R: Abort>(rt: &R, alloc: Global, cases: &[(&str, &str)]) -> Result<(), AllocError> {
    for (sql, columns) in cases {
        let holds = is_read(alloc, sql, columns)?;
        expect(rt, sql, holds);
    }
    Ok(())
}

fn expect_unknown<R: Abort>(rt: &R, alloc: Global, texts: &[&str]) -> Result<(), AllocError> {
    for sql in texts {
        let holds = is_read(alloc, sql, "")?;
        expect(rt, sql, holds);
    }
    Ok(())
}

#[test]
fn declared(rt: HostRuntime) -> Result<(), Fail> {
    expect_all(&rt, rt.alloc(), &DECLARED)?;
    Ok(())
}

#[test]
fn unknown(rt: HostRuntime) -> Result<(), Fail> {
    expect_unknown(&rt, rt.alloc(), &UNKNOWN)?;
    Ok(())
}

#[test]
fn spelled(rt: HostRuntime) -> Result<(), Fail> {
    expect_all(&rt, rt.alloc(), &SPELLED)?;
    Ok(())
}

// Whether a column of this type has this affinity.
fn has_affinity(alloc: Global, declared: &str, affinity: &str) -> Result<bool, AllocError> {
    let sql = format!(in alloc; "CREATE TABLE t(a {declared})")?;
    let columns = format!(in alloc; "a {affinity}|")?;
    is_read(alloc, sql.as_str(), columns.as_str())
}

#[test]
fn types(rt: HostRuntime) -> Result<(), Fail> {
    for (declared, affinity) in &TYPES {
        let holds = has_affinity(rt.alloc(), *declared, *affinity)?;
        expect(&rt, *declared, holds);
    }
    Ok(())
}

#[test]
fn unknown_frames(rt: HostRuntime) -> Result<(), Fail> {
    expect_unknown(&rt, rt.alloc(), &FRAMES)?;
    Ok(())
}

#[test]
fn unknown_parts(rt: HostRuntime) -> Result<(), Fail> {
    expect_unknown(&rt, rt.alloc(), &PARTS)?;
    Ok(())
}
