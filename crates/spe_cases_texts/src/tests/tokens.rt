//! Tokens of texts, and the places at which none can be cut.

use super::expect;
use spe_lex::lex;
use spe_model::{SqlFault, SqlKind, Token, TokenKind};
use std::alloc::{AllocError, Global};
use std::process::Abort;
use std::test::Fail;

// Texts, and their tokens: kind, place and length of each.
static TEXTS: [(&str, &str); 22] = [
    ("", ""),
    // words, with letters of more than one byte
    (
        "a _b9$ \u{e9}t\u{e9} SELECT",
        "word 0 1|word 2 4|word 7 5|word 13 6|",
    ),
    ("\u{a0}\u{2003}x", "word 0 6|"),
    // names in each kind of quotes
    ("\"a\"\"b\" `c``` [d\"e]", "name 0 6|name 7 5|name 13 5|"),
    ("'a''b' '' ''''", "string 0 6|string 7 2|string 10 4|"),
    (
        "x'' X'0aFF' x '0'",
        "blob 0 3|blob 4 7|word 12 1|string 14 3|",
    ),
    (
        "0 007 12345678901234567890",
        "number 0 1|number 2 3|number 6 20|",
    ),
    (
        "1.5 1e5 2E 1.2.3 4.\u{e9}_z9",
        "fraction 0 3|fraction 4 3|fraction 8 2|fraction 11 5|fraction 17 7|",
    ),
    (
        "; , ( ) * =",
        "sign 0 1|sign 2 1|sign 4 1|sign 6 1|sign 8 1|sign 10 1|",
    ),
    (
        "< <= > >= - +",
        "sign 0 1|sign 2 2|sign 5 1|sign 7 2|sign 10 1|sign 12 1|",
    ),
    // the longest is taken, also where none stands between two
    ("<==>=<>", "sign 0 2|sign 2 1|sign 3 2|sign 5 1|sign 6 1|"),
    ("ax'00'12b3", "word 0 2|string 2 4|number 6 2|word 8 2|"),
    (
        "-1- -2+3",
        "sign 0 1|number 1 1|sign 2 1|sign 4 1|number 5 1|sign 6 1|number 7 1|",
    ),
    ("[a]\"b\"'c'`d`", "name 0 3|name 3 3|string 6 3|name 9 3|"),
    // comments up to the line's end, up to `*/`, and open ones
    ("a--b 'c\nd --", "word 0 1|word 8 1|"),
    ("a/*'*/b/**/c/* d", "word 0 1|word 6 1|word 11 1|"),
    ("/*/ a */b/* c * / */d", "word 8 1|word 20 1|"),
    ("---1\r2\n3/*", "number 7 1|"),
    ("a/*\n--*/b", "word 0 1|word 8 1|"),
    // a quoted text has no comment in it
    ("'--' \"/*\" [--]", "string 0 4|name 5 4|name 10 4|"),
    ("\ta\n\u{c}\rb ", "word 1 1|word 5 1|"),
    (
        "count(*)=x'ff';",
        "word 0 5|sign 5 1|sign 6 1|sign 7 1|sign 8 1|blob 9 5|sign 14 1|",
    ),
];

// Texts with a byte at which no token can be cut, and its place.
static FAULTS: [(&str, &str); 24] = [
    ("'a", "fault 0"),
    ("a 'b''", "fault 2"),
    ("'a'''b'", "fault 6"),
    ("a \"b", "fault 2"),
    ("a `b\"'", "fault 2"),
    ("a, [b'", "fault 3"),
    ("a \"\"", "fault 2"),
    ("a+``", "fault 2"),
    ("[]", "fault 0"),
    ("[a]]", "fault 3"),
    ("a x'0'", "fault 2"),
    ("X'0g'", "fault 0"),
    ("1 x'00", "fault 2"),
    ("x'0 0'", "fault 0"),
    ("\u{e9} ?", "fault 3"),
    ("a.b", "fault 1"),
    (".5", "fault 0"),
    ("$a", "fault 0"),
    ("1.5$", "fault 3"),
    ("a /b", "fault 2"),
    ("a!=1", "fault 1"),
    ("a\u{b}b", "fault 1"),
    ("a\0", "fault 1"),
    ("/* ? */ -- '\n\\", "fault 13"),
];

fn kind_text(kind: TokenKind) -> &'static str {
    match kind {
        TokenKind::Word => "word",
        TokenKind::QuotedName => "name",
        TokenKind::Str => "string",
        TokenKind::Blob => "blob",
        TokenKind::Number => "number",
        TokenKind::Fraction => "fraction",
        TokenKind::Sign => "sign",
    }
}

fn push_token(alloc: Global, text: &mut String, token: &Token) -> Result<(), AllocError> {
    let (kind, at, length) = (kind_text(token.kind), token.at, token.length);
    let one = format!(in alloc; "{kind} {at} {length}|")?;
    text.push_str(one.as_str())
}

// Tokens in one line.
fn shown(alloc: Global, tokens: &[Token]) -> Result<String, AllocError> {
    let mut text = String::new(alloc);
    for token in tokens {
        push_token(alloc, &mut text, token)?;
    }
    Ok(text)
}

// The tokens of a text in one line, or the place of its fault.
fn read(alloc: Global, text: &str) -> Result<String, AllocError> {
    match lex(alloc, text) {
        Ok(tokens) => shown(alloc, tokens.as_slice()),
        Err(
            SqlFault {
                at,
                kind: SqlKind::Token,
            },
        ) => format!(in alloc; "fault {at}"),
        Err(_) => String::from_str(alloc, "another fault"),
    }
}

fn is_read(alloc: Global, text: &str, expected: &str) -> Result<bool, AllocError> {
    let found = read(alloc, text)?;
    Ok(found.as_str() == expected)
}

fn expect_all(rt: &impl Abort, alloc: Global, cases: &[(&str, &str)]) -> Result<(), AllocError> {
    for (text, expected) in cases {
        let holds = is_read(alloc, text, expected)?;
        expect(rt, text, holds);
    }
    Ok(())
}

#[test]
fn texts(rt: HostRuntime) -> Result<(), Fail> {
    expect_all(&rt, rt.alloc(), &TEXTS)?;
    Ok(())
}

#[test]
fn faults(rt: HostRuntime) -> Result<(), Fail> {
    expect_all(&rt, rt.alloc(), &FAULTS)?;
    Ok(())
}
