//! Statements, their faults and the places of these.

use super::expect;
use spe_model::{Cond, Names, Op, Set, SqlFault, SqlKind, Statement, Text, Value};
use spe_parse::parse;
use std::alloc::{AllocError, Global};
use std::process::Abort;
use std::test::Fail;

// Texts, and the statements that they are.
static FORMS: [(&str, &str); 35] = [
    ("SELECT * FROM a", "select a all"),
    (
        "select v, t from a where rowid = 3",
        "select a v t where rowid = 3",
    ),
    ("SELECT \"v\" FROM a;", "select a v"),
    ("SELECT count(*) FROM a", "count a"),
    (
        "SeLeCt CoUnT ( * ) FrOm a WhErE id>=-1 aNd id<+7 ;",
        "count a where id >= -1 where id < 7",
    ),
    ("SELECT count FROM a", "select a count"),
    ("SELECT COUNT, v FROM a", "select a COUNT v"),
    ("SELECT v, count FROM a", "select a v count"),
    ("SELECT \"count\" FROM a", "select a count"),
    ("SELECT * FROM count", "select count all"),
    (
        "SELECT readonly, transaction FROM work",
        "select work readonly transaction",
    ),
    (
        "SELECT key, \"from\" FROM [select]",
        "select select key from",
    ),
    (
        "SELECT [a\"b], \"c\"\"d\", `e``f` FROM [g h]",
        "select g h a\"b c\"d e`f",
    ),
    ("SELECT \"it's\" FROM _a$1", "select _a$1 it's"),
    ("SELECT \u{e9}t\u{e9} FROM a", "select a \u{e9}t\u{e9}"),
    ("SELECT/**/*--x\nFROM/* y */a/* not closed", "select a all"),
    ("-- first\nSELECT * FROM a -- last", "select a all"),
    ("/*/ still */DELETE FROM a", "delete a"),
    (
        "SELECT * FROM a WHERE id = 1 AND id < 2 AND id <= 3 AND id > 4 AND id >= 5",
        "select a all where id = 1 where id < 2 where id <= 3 where id > 4 where id >= 5",
    ),
    (
        "SELECT * FROM a WHERE id BETWEEN -5 AND 5",
        "select a all where id >= -5 where id <= 5",
    ),
    (
        "SELECT * FROM a WHERE id BETWEEN 1 AND 5 AND v between 2 and 3 AND id = 4",
        "select a all where id >= 1 where id <= 5 where v >= 2 where v <= 3 where id = 4",
    ),
    ("INSERT INTO a VALUES (1)", "insert a all: 1"),
    (
        "INSERT INTO a VALUES (NULL, -1, +2, 'x''y', x'0aFF', X'', '')",
        "insert a all: null -1 2 'x'y' x#10#255 x ''",
    ),
    ("insert into a (v) values (null)", "insert a v: null"),
    (
        "INSERT INTO \"a\" (id, [v w]) VALUES (7, '\u{e9}');",
        "insert a id v w: 7 '\u{e9}'",
    ),
    ("INSERT INTO a (v, v) VALUES (1)", "insert a v v: 1"),
    ("UPDATE a SET v = 1", "update a v := 1"),
    (
        "UPDATE a SET v = NULL, t = 'b', w = x'01' WHERE id = 3;",
        "update a v := null t := 'b' w := x#1 where id = 3",
    ),
    ("update count set count = -0", "update count count := 0"),
    ("DELETE FROM a", "delete a"),
    (
        "DELETE FROM a WHERE id > 1 AND id < 3",
        "delete a where id > 1 where id < 3",
    ),
    ("DELETE FROM a;", "delete a"),
    ("DELETE FROM index", "delete index"),
    ("DELETE FROM \"not\"", "delete not"),
    ("DELETE FROM a WHERE \"and\" = 1", "delete a where and = 1"),
];

// Texts, and where no rule admits what stands there.
static FAULTS: [(&str, &str); 62] = [
    ("", "fault 0 expected"),
    ("  ", "fault 2 expected"),
    ("-- nothing\n", "fault 11 expected"),
    (";", "fault 0 expected"),
    ("SELECT", "fault 6 expected"),
    ("SELECT ", "fault 7 expected"),
    ("SELECT FROM a", "fault 7 expected"),
    ("SELECT 1 FROM a", "fault 7 expected"),
    ("SELECT 'v' FROM a", "fault 7 expected"),
    ("SELECT *, v FROM a", "fault 8 expected"),
    ("SELECT v w FROM a", "fault 9 expected"),
    ("SELECT v, FROM a", "fault 10 expected"),
    ("SELECT v, * FROM a", "fault 10 expected"),
    ("SELECT count(v) FROM a", "fault 13 expected"),
    ("SELECT count(*), v FROM a", "fault 15 expected"),
    ("SELECT v, count(*) FROM a", "fault 15 expected"),
    ("SELECT \"count\"(*) FROM a", "fault 14 expected"),
    ("SELECT count(*) a", "fault 16 expected"),
    ("SELECT * FROM a, b", "fault 15 expected"),
    ("SELECT * FROM a WHERE", "fault 21 expected"),
    ("SELECT * FROM a WHERE v", "fault 23 expected"),
    ("SELECT * FROM a WHERE v = 'x'", "fault 26 expected"),
    ("SELECT * FROM a WHERE v = NULL", "fault 26 expected"),
    ("SELECT * FROM a WHERE v = - w", "fault 28 expected"),
    ("SELECT * FROM a WHERE v = - -1", "fault 28 expected"),
    ("SELECT * FROM a WHERE v <> 1", "fault 25 expected"),
    ("SELECT * FROM a WHERE v == 1", "fault 25 expected"),
    ("SELECT * FROM a WHERE 1 = v", "fault 22 expected"),
    ("SELECT * FROM a WHERE v BETWEEN 1 AND", "fault 37 expected"),
    ("SELECT * FROM a WHERE v BETWEEN 1, 2", "fault 33 expected"),
    ("SELECT * FROM a WHERE v = 1 AND", "fault 31 expected"),
    ("SELECT * FROM a WHERE v = 1 w = 2", "fault 28 expected"),
    ("SELECT * FROM a;;", "fault 16 expected"),
    ("SELECT * FROM a; SELECT * FROM a", "fault 17 expected"),
    ("INSERT a VALUES (1)", "fault 7 expected"),
    ("INSERT INTO a VALUES ()", "fault 22 expected"),
    ("INSERT INTO a VALUES (v)", "fault 22 expected"),
    ("INSERT INTO a VALUES (1", "fault 23 expected"),
    ("INSERT INTO a VALUES (1 2)", "fault 24 expected"),
    ("INSERT INTO a VALUES (1,)", "fault 24 expected"),
    ("INSERT INTO a VALUES (1), (2)", "fault 24 expected"),
    ("INSERT INTO a () VALUES (1)", "fault 15 expected"),
    ("INSERT INTO a (v) VALUE (1)", "fault 18 expected"),
    ("UPDATE a SET v = w", "fault 17 expected"),
    ("UPDATE a SET v 1", "fault 15 expected"),
    ("UPDATE a SET v < 1", "fault 15 expected"),
    ("UPDATE a SET v = 1 AND w = 2", "fault 19 expected"),
    ("UPDATE SET v = 1", "fault 7 expected"),
    ("DELETE a", "fault 7 expected"),
    ("DELETE FROM a b", "fault 14 expected"),
    ("DELETE FROM 'a'", "fault 12 expected"),
    ("DELETE FROM a SET", "fault 14 expected"),
    ("BEGIN", "fault 0 expected"),
    ("'SELECT' * FROM a", "fault 0 expected"),
    ("[SELECT] * FROM a", "fault 0 expected"),
    ("CREATE TABLE a(v)", "fault 0 unsupported"),
    ("SELECT x FROM FROM 'unclosed", "fault 14 expected"),
    ("SELECT x FROM 'unclosed", "fault 14 token"),
    ("SELECT x FROM a 'unclosed", "fault 16 token"),
    ("SELECT x FROM a; 'unclosed", "fault 17 token"),
    ("SELECT x FROM a; b 'unclosed", "fault 17 expected"),
    ("SELECT ?", "fault 7 token"),
];

// Texts with the part of SQL that is left out, and with tokens that are none.
static LEFT_OUT: [(&str, &str); 25] = [
    ("SELECT * FROM a JOIN b;", "fault 16 unsupported"),
    ("SELECT * FROM a join", "fault 16 unsupported"),
    ("SELECT DISTINCT v FROM a", "fault 7 unsupported"),
    ("SELECT v AS w FROM a", "fault 9 unsupported"),
    ("SELECT \"as\" AS w FROM a", "fault 12 unsupported"),
    ("SELECT 1.5 FROM a", "fault 7 unsupported"),
    ("SELECT * FROM a WHERE v = 1.5", "fault 26 unsupported"),
    ("SELECT * FROM a WHERE v = -1e5", "fault 27 unsupported"),
    ("SELECT * FROM a WHERE v IN (1)", "fault 24 unsupported"),
    ("SELECT * FROM a WHERE v IS NULL", "fault 24 unsupported"),
    ("SELECT * FROM a WHERE NOT v = 1", "fault 22 unsupported"),
    (
        "SELECT * FROM a WHERE v = 1 OR v = 2",
        "fault 28 unsupported",
    ),
    (
        "SELECT * FROM a WHERE v BETWEEN 1 OR 5",
        "fault 34 unsupported",
    ),
    ("SELECT * FROM a ORDER BY v", "fault 16 unsupported"),
    ("INSERT OR REPLACE INTO a VALUES (1)", "fault 7 unsupported"),
    ("INSERT INTO a DEFAULT VALUES", "fault 14 unsupported"),
    ("INSERT INTO a VALUES (1.0)", "fault 22 unsupported"),
    (
        "INSERT INTO a VALUES (1) RETURNING v",
        "fault 25 unsupported",
    ),
    ("DELETE FROM a LIMIT 1", "fault 14 unsupported"),
    ("1.5", "fault 0 unsupported"),
    ("SELECT * FROM a WHERE v = 1.5'", "fault 26 unsupported"),
    ("SELECT x'0' FROM a", "fault 7 token"),
    ("SELECT \"\" FROM a", "fault 7 token"),
    ("SELECT * FROM a WHERE [v", "fault 22 token"),
    ("SELECT [a]]", "fault 10 token"),
];

// What stands behind `DELETE FROM a WHERE i = `, and what is read.
static NUMBERS: [(&str, &str); 21] = [
    (
        "9223372036854775807",
        "delete a where i = 9223372036854775807",
    ),
    (
        "+9223372036854775807",
        "delete a where i = 9223372036854775807",
    ),
    (
        "-9223372036854775807",
        "delete a where i = -9223372036854775807",
    ),
    (
        "-9223372036854775808",
        "delete a where i = -9223372036854775808",
    ),
    (
        "- 9223372036854775808",
        "delete a where i = -9223372036854775808",
    ),
    ("-/* sign */00", "delete a where i = 0"),
    (
        "00000000000000000000000000000000000000000000000012",
        "delete a where i = 12",
    ),
    (
        "-09223372036854775808",
        "delete a where i = -9223372036854775808",
    ),
    ("9223372036854775808", "fault 24 range"),
    ("+9223372036854775808", "fault 24 range"),
    ("09223372036854775808", "fault 24 range"),
    ("-9223372036854775809", "fault 24 range"),
    ("- /* sign */ 9223372036854775809", "fault 24 range"),
    ("18446744073709551615", "fault 24 range"),
    ("18446744073709551616", "fault 24 range"),
    ("-18446744073709551617", "fault 24 range"),
    (
        "99999999999999999999999999999999999999999",
        "fault 24 range",
    ),
    ("9223372036854775808 'unclosed", "fault 24 range"),
    ("9223372036854775808 AND", "fault 24 range"),
    ("- 9223372036854775807 'unclosed", "fault 46 token"),
    ("1 AND j = -9223372036854775809", "fault 34 range"),
];

// The words of SQL that are left out.
static OTHER_WORDS: [&str; 39] = [
    "ALTER", "ANALYZE", "AS", "ATTACH", "CASE", "CAST", "CREATE", "CROSS", "DEFAULT", "DEFERRED",
    "DETACH", "DISTINCT", "DROP", "EXCEPT", "EXISTS", "EXPLAIN", "GROUP", "HAVING", "IN",
    "INDEXED", "INNER", "IS", "JOIN", "LEFT", "LIKE", "LIMIT", "NATURAL", "NOT", "OFFSET", "ON",
    "OR", "ORDER", "PRAGMA", "REINDEX", "RELEASE", "REPLACE", "UNION", "VACUUM", "WITH",
];

static LONG_OTHER_WORDS: [&str; 5] = [
    "EXCLUSIVE",
    "IMMEDIATE",
    "INTERSECT",
    "RETURNING",
    "SAVEPOINT",
];

// The words of the grammar, in small letters.
static GRAMMAR_WORDS: [&str; 16] = [
    "and", "begin", "between", "commit", "delete", "end", "from", "insert", "into", "null",
    "rollback", "select", "set", "update", "values", "where",
];

fn push_value(alloc: Global, text: &mut String, value: &Value) -> Result<(), AllocError> {
    match value {
        Value::Null => text.push_str("null")?,
        Value::Int(number) => push_number(alloc, text, *number)?,
        Value::Text(inner) => {
            text.push('\'')?;
            text.push_str(inner.as_str())?;
            text.push('\'')?;
        }
        Value::Blob(bytes) => push_blob(alloc, text, bytes.as_slice())?,
        Value::Real8(_) => text.push_str("real")?,
    }
    Ok(())
}

fn push_number(alloc: Global, text: &mut String, number: i64) -> Result<(), AllocError> {
    let digits = format!(in alloc; "{number}")?;
    text.push_str(digits.as_str())?;
    Ok(())
}

// The bytes of a blob in decimal.
fn push_blob(alloc: Global, text: &mut String, bytes: &[u8]) -> Result<(), AllocError> {
    text.push('x')?;
    for byte in bytes {
        text.push('#')?;
        push_number(alloc, text, i64::from(*byte))?;
    }
    Ok(())
}

fn push_names(text: &mut String, names: &Names) -> Result<(), AllocError> {
    for name in names.as_slice() {
        text.push(' ')?;
        text.push_str(name.as_str())?;
    }
    Ok(())
}

fn op_text(op: Op) -> &'static str {
    match op {
        Op::Equal => " = ",
        Op::Less => " < ",
        Op::LessEqual => " <= ",
        Op::Greater => " > ",
        Op::GreaterEqual => " >= ",
    }
}

fn push_conds(alloc: Global, text: &mut String, conds: &[Cond]) -> Result<(), AllocError> {
    for cond in conds {
        text.push_str(" where ")?;
        text.push_str(cond.name.as_str())?;
        text.push_str(op_text(cond.op))?;
        push_number(alloc, text, cond.number)?;
    }
    Ok(())
}

fn push_sets(alloc: Global, text: &mut String, sets: &[Set]) -> Result<(), AllocError> {
    for set in sets {
        text.push(' ')?;
        text.push_str(set.name.as_str())?;
        text.push_str(" := ")?;
        push_value(alloc, text, &set.value)?;
    }
    Ok(())
}

fn push_columns(text: &mut String, all: bool, columns: &Names) -> Result<(), AllocError> {
    if all {
        text.push_str(" all")?;
    }
    push_names(text, columns)
}

fn push_values(alloc: Global, text: &mut String, values: &[Value]) -> Result<(), AllocError> {
    text.push(':')?;
    for value in values {
        text.push(' ')?;
        push_value(alloc, text, value)?;
    }
    Ok(())
}

fn push_head(text: &mut String, verb: &str, table: &Text) -> Result<(), AllocError> {
    text.push_str(verb)?;
    text.push_str(table.as_str())
}

// A statement in one line.
pub fn shown(alloc: Global, text: &mut String, statement: &Statement) -> Result<(), AllocError> {
    match statement {
        Statement::Select {
            table,
            all,
            columns,
            conds,
        } => {
            push_head(text, "select ", table)?;
            push_columns(text, *all, columns)?;
            push_conds(alloc, text, conds.as_slice())
        }
        Statement::Count { table, conds } => {
            push_head(text, "count ", table)?;
            push_conds(alloc, text, conds.as_slice())
        }
        Statement::Insert {
            table,
            listed,
            columns,
            values,
        } => {
            push_head(text, "insert ", table)?;
            push_columns(text, !*listed, columns)?;
            push_values(alloc, text, values.as_slice())
        }
        Statement::Update { table, sets, conds } => {
            push_head(text, "update ", table)?;
            push_sets(alloc, text, sets.as_slice())?;
            push_conds(alloc, text, conds.as_slice())
        }
        Statement::Delete { table, conds } => {
            push_head(text, "delete ", table)?;
            push_conds(alloc, text, conds.as_slice())
        }
    }
}

fn kind_text(kind: SqlKind) -> &'static str {
    match kind {
        SqlKind::Token => "token",
        SqlKind::Expected => "expected",
        SqlKind::Unsupported => "unsupported",
        SqlKind::NumberRange => "range",
        SqlKind::Memory => "memory",
    }
}

fn statement_text(alloc: Global, statement: &Statement) -> Result<String, AllocError> {
    let mut line = String::new(alloc);
    shown(alloc, &mut line, statement)?;
    Ok(line)
}

fn fault_text(alloc: Global, fault: SqlFault) -> Result<String, AllocError> {
    let (at, kind) = (fault.at, kind_text(fault.kind));
    format!(in alloc; "fault {at} {kind}")
}

// What a text is, in one line.
fn read(alloc: Global, text: &str) -> Result<String, AllocError> {
    match parse(alloc, text) {
        Ok(statement) => statement_text(alloc, &statement),
        Err(fault) => fault_text(alloc, fault),
    }
}

// Whether a text is that.
fn is_read(alloc: Global, text: &str, line: &str) -> Result<bool, AllocError> {
    let found = read(alloc, text)?;
    Ok(found.as_str() == line)
}

// Whether digits are read so.
fn is_number(alloc: Global, digits: &str, line: &str) -> Result<bool, AllocError> {
    let text = format!(in alloc; "DELETE FROM a WHERE i = {digits}")?;
    is_read(alloc, text.as_str(), line)
}

// Whether a word is refused so where a name is due.
fn is_refused(alloc: Global, word: &str, kind: &str) -> Result<bool, AllocError> {
    let text = format!(in alloc; "DELETE FROM {word}")?;
    let line = format!(in alloc; "fault 12 {kind}")?;
    is_read(alloc, text.as_str(), line.as_str())
}

// Whether it is refused so behind names, in quotes, of the same letters.
fn is_refused_last(alloc: Global, word: &str, kind: &str) -> Result<bool, AllocError> {
    let text = format!(in alloc; "SELECT [{word}] FROM \"{word}\" {word}")?;
    let found = read(alloc, text.as_str())?;
    Ok(found.as_str().ends_with(kind))
}

// Whether it is a name in quotes.
fn is_name(alloc: Global, word: &str) -> Result<bool, AllocError> {
    let text = format!(in alloc; "DELETE FROM `{word}`")?;
    let line = format!(in alloc; "delete {word}")?;
    is_read(alloc, text.as_str(), line.as_str())
}

// Whether a word is refused so at the front and where a name is due, and is a name in quotes.
fn is_word(alloc: Global, word: &str, kind: &str) -> Result<bool, AllocError> {
    let refused = is_refused(alloc, word, kind)?;
    let last = is_refused_last(alloc, word, kind)?;
    let name = is_name(alloc, word)?;
    Ok(refused && last && name)
}

fn expect_words(
    rt: &impl Abort,
    alloc: Global,
    words: &[&str],
    kind: &str,
) -> Result<(), AllocError> {
    for word in words {
        let holds = is_word(alloc, word, kind)?;
        expect(rt, word, holds);
    }
    Ok(())
}

fn expect_all(rt: &impl Abort, alloc: Global, cases: &[(&str, &str)]) -> Result<(), AllocError> {
    for (text, line) in cases {
        let holds = is_read(alloc, text, line)?;
        expect(rt, text, holds);
    }
    Ok(())
}

#[test]
fn statements(rt: HostRuntime) -> Result<(), Fail> {
    expect_all(&rt, rt.alloc(), &FORMS)?;
    Ok(())
}

#[test]
fn first_faults(rt: HostRuntime) -> Result<(), Fail> {
    expect_all(&rt, rt.alloc(), &FAULTS)?;
    expect_all(&rt, rt.alloc(), &LEFT_OUT)?;
    Ok(())
}

#[test]
fn numbers(rt: HostRuntime) -> Result<(), Fail> {
    for (digits, line) in &NUMBERS {
        let holds = is_number(rt.alloc(), *digits, *line)?;
        expect(&rt, *digits, holds);
    }
    Ok(())
}

#[test]
fn words(rt: HostRuntime) -> Result<(), Fail> {
    expect_words(&rt, rt.alloc(), &OTHER_WORDS, "unsupported")?;
    expect_words(&rt, rt.alloc(), &LONG_OTHER_WORDS, "unsupported")?;
    expect_words(&rt, rt.alloc(), &GRAMMAR_WORDS, "expected")?;
    Ok(())
}
