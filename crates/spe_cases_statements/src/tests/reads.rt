//! Statements that read, over pages and over maps.

ghost use Rattle.std.specs.Prelude.{◌≡◌, None};
ghost use Rattle.spe_space.specs.View.{map_refusal};

use crate::tests::build::{statement_of, tables};
use crate::tests::files::{EMPTY, File, KINDS, LAST, LONG, ONE, SHORT, SPOILT};
use crate::tests::run::is_reply;
use crate::tests::space::space_of;
use crate::tests::steps::Answer::{self, Counted, Refused, Rows};
use crate::tests::steps::Command;
use crate::tests::steps::Field::{Int, Null, Text, Zeros};
use spe_catalog::read_catalog;
use spe_exec::read;
use spe_model::{Refusal, Reply, Statement, TxKind};
use spe_parse::parse;
use spe_slow::SlowDb;
use spe_space::{MapSpace, SpaceFault, TreeFault};
use std::alloc::{AllocError, Global};
use std::process::Abort;
use std::test::Fail;

// The statement, and the reply.
type Case = (&'static str, Answer);

static OF_EMPTY: [Case; 3] = [
    ("SELECT * FROM a", Rows(&[])),
    ("SELECT count(*) FROM a", Counted(0)),
    ("SELECT v FROM b WHERE id = 1", Rows(&[])),
];

static OF_ONE: [Case; 4] = [
    ("SELECT * FROM a", Rows(&[&[Int(1), Int(10)]])),
    ("SELECT v FROM a WHERE id = 1", Rows(&[&[Int(10)]])),
    ("SELECT v FROM a WHERE id = 0", Rows(&[])),
    ("SELECT count(*) FROM b", Counted(0)),
];

static OF_LAST: [Case; 4] = [
    ("SELECT count(*) FROM a", Counted(1)),
    (
        "SELECT * FROM a WHERE id >= 9223372036854775807",
        Rows(&[&[Int(i64::MAX), Int(1)]]),
    ),
    ("SELECT * FROM a WHERE id < 9223372036854775807", Rows(&[])),
    ("SELECT * FROM c", Refused(Refusal::NoTable)),
];

// Each operator, over three leaves.
static CONDITIONS: [Case; 20] = [
    (
        "SELECT * FROM a",
        Rows(&[
            &[Int(i64::MIN), Int(1)],
            &[Int(-3), Int(2)],
            &[Int(5), Null],
            &[Int(10), Int(40)],
            &[Int(20), Int(-7)],
            &[Int(i64::MAX), Int(300)],
        ]),
    ),
    ("SELECT COUNT(*) FROM a", Counted(6)),
    (
        "SELECT * FROM a WHERE id = 10",
        Rows(&[&[Int(10), Int(40)]]),
    ),
    ("SELECT * FROM a WHERE id = 12", Rows(&[])),
    (
        "SELECT id FROM a WHERE id < 5",
        Rows(&[&[Int(i64::MIN)], &[Int(-3)]]),
    ),
    (
        "SELECT id FROM a WHERE id <= 5",
        Rows(&[&[Int(i64::MIN)], &[Int(-3)], &[Int(5)]]),
    ),
    (
        "SELECT id FROM a WHERE id > 10",
        Rows(&[&[Int(20)], &[Int(i64::MAX)]]),
    ),
    (
        "SELECT id FROM a WHERE id >= 10",
        Rows(&[&[Int(10)], &[Int(20)], &[Int(i64::MAX)]]),
    ),
    (
        "SELECT id FROM a WHERE id BETWEEN -3 AND 10",
        Rows(&[&[Int(-3)], &[Int(5)], &[Int(10)]]),
    ),
    (
        "SELECT count(*) FROM a WHERE id BETWEEN 10 AND 5",
        Counted(0),
    ),
    (
        "SELECT count(*) FROM a WHERE id BETWEEN -9223372036854775808 AND 9223372036854775807",
        Counted(6),
    ),
    ("SELECT id FROM a WHERE id > 9223372036854775807", Rows(&[])),
    (
        "SELECT id FROM a WHERE id < -9223372036854775808",
        Rows(&[]),
    ),
    (
        "SELECT v FROM a WHERE id >= 9223372036854775807",
        Rows(&[&[Int(300)]]),
    ),
    (
        "SELECT v FROM a WHERE id <= -9223372036854775808",
        Rows(&[&[Int(1)]]),
    ),
    (
        "SELECT count(*) FROM a WHERE id < 9223372036854775807",
        Counted(5),
    ),
    (
        "SELECT count(*) FROM a WHERE id > -9223372036854775808",
        Counted(5),
    ),
    (
        "SELECT v FROM a WHERE id > 5 AND oid < 20 AND rowid <= 10",
        Rows(&[&[Int(40)]]),
    ),
    ("SELECT v FROM a WHERE id = 5 AND id = 10", Rows(&[])),
    (
        "SELECT count(*) FROM a WHERE id >= 6 AND id <= 9",
        Counted(0),
    ),
];

// Names of columns and of the rowid, each kind of value, and each refusal of a statement that reads.
static NAMES: [Case; 18] = [
    (
        "select V, Id, _rowid_, v from A where ID between 5 and 5;",
        Rows(&[&[Null, Int(5), Int(5), Null]]),
    ),
    (
        "SELECT * FROM k",
        Rows(&[&[Text("x"), Int(3)], &[Text("yy"), Int(7)]]),
    ),
    (
        "SELECT oid, id, v FROM k WHERE rowid > 3",
        Rows(&[&[Int(7), Int(7), Text("yy")]]),
    ),
    (
        "SELECT * FROM each",
        Rows(&[
            &[Int(7), Null, Null, Null, Null],
            &[Int(1), Text("x"), Zeros(2), Null, Int(5)],
            &[Int(9), Null, Zeros(1000), Null, Null],
        ]),
    ),
    (
        "SELECT rowid, b, \"i\" FROM each WHERE oid >= 3",
        Rows(&[&[Int(3), Zeros(1000), Int(9)]]),
    ),
    ("SELECT count(*) FROM each WHERE rowid <= 2", Counted(2)),
    (
        "SELECT rowid, oid FROM own",
        Rows(&[&[Text("p"), Int(1)], &[Text("q"), Int(2)]]),
    ),
    ("SELECT v FROM own WHERE oid = 2", Rows(&[&[Int(5)]])),
    (
        "SELECT v FROM own WHERE rowid = 2",
        Refused(Refusal::NotByRowid),
    ),
    ("SELECT * FROM c", Refused(Refusal::NoTable)),
    (
        "SELECT count(*) FROM c WHERE q = 1",
        Refused(Refusal::NoTable),
    ),
    ("SELECT * FROM shut", Refused(Refusal::ClosedTable)),
    (
        "SELECT count(*) FROM shut WHERE q = 1",
        Refused(Refusal::ClosedTable),
    ),
    ("SELECT v, q FROM a", Refused(Refusal::NoColumn)),
    ("SELECT * FROM a WHERE q = 1", Refused(Refusal::NoColumn)),
    (
        "SELECT count(*) FROM a WHERE v = 1 AND q = 1",
        Refused(Refusal::NoColumn),
    ),
    ("SELECT * FROM a WHERE v = 1", Refused(Refusal::NotByRowid)),
    (
        "SELECT count(*) FROM a WHERE id = 1 AND v > 1",
        Refused(Refusal::NotByRowid),
    ),
];

// The reply over pages; none to a statement that writes.
fn reply_over(
    alloc: Global,
    space: &mut MapSpace,
    kind: TxKind,
    statement: &Statement,
) -> Result<Option<Reply>, TreeFault>
    requires { map_refusal space.old ≡ None }
{
    let catalog = read_catalog(alloc, space)?;
    match statement {
        Statement::Select { .. } | Statement::Count { .. } => {
            read(alloc, space, &catalog, statement, kind).map(Some)
        }
        _ => Ok(None),
    }
}

// Gives these rows to a database.
fn apply_all(alloc: Global, database: &mut SlowDb, rows: &[Command]) -> Result<(), AllocError> {
    for row in rows {
        let _ = database.apply(&statement_of(alloc, row)?)?;
    }
    Ok(())
}

// The reply over maps to which the rows of the file were given.
fn reply_of_maps(
    alloc: Global,
    file: &File,
    kind: TxKind,
    statement: &Statement,
) -> Result<Reply, AllocError> {
    let mut database = SlowDb::new(alloc, tables(alloc)?)?;
    apply_all(alloc, &mut database, file.rows)?;
    database.apply_in(kind, statement)
}

fn is_answer(reply: &Result<Option<Reply>, TreeFault>, answer: &Answer) -> bool {
    match reply {
        Ok(Some(reply)) => is_reply(reply, answer),
        _ => false,
    }
}

// Whether the pages of a file give this answer.
fn pages_give(
    alloc: Global,
    file: &File,
    kind: TxKind,
    statement: &Statement,
    answer: &Answer,
) -> Result<bool, AllocError> {
    let mut space = space_of(alloc, file)?;
    let reply = reply_over(alloc, &mut space, kind, statement);
    Ok(is_answer(&reply, answer))
}

// Whether maps with the same rows give it.
fn maps_give(
    alloc: Global,
    file: &File,
    kind: TxKind,
    statement: &Statement,
    answer: &Answer,
) -> Result<bool, AllocError> {
    let reply = reply_of_maps(alloc, file, kind, statement)?;
    Ok(is_reply(&reply, answer))
}

fn gives(
    alloc: Global,
    file: &File,
    kind: TxKind,
    text: &str,
    answer: &Answer,
) -> Result<bool, AllocError> {
    match parse(alloc, text) {
        Ok(statement) => Ok(
            pages_give(alloc, file, kind, &statement, answer)?
                && maps_give(alloc, file, kind, &statement, answer)?,
        ),
        Err(_) => Ok(false),
    }
}

// Reads a statement over the pages of a file, and over maps with the same rows.
fn expect_case(
    rt: &impl Abort,
    alloc: Global,
    file: &File,
    kind: TxKind,
    text: &str,
    answer: &Answer,
) -> Result<(), AllocError> {
    let holds = gives(alloc, file, kind, text, answer)?;
    assert!(rt; holds, "{text}");
    Ok(())
}

// The fault of a statement that reads, over the pages of a file.
fn fault_over(
    alloc: Global,
    file: &File,
    statement: &Statement,
) -> Result<Option<TreeFault>, AllocError> {
    let mut space = space_of(alloc, file)?;
    let reply = reply_over(alloc, &mut space, TxKind::ReadOnly, statement);
    Ok(reply.err())
}

fn fault_to(alloc: Global, file: &File, text: &str) -> Result<Option<TreeFault>, AllocError> {
    match parse(alloc, text) {
        Ok(statement) => fault_over(alloc, file, &statement),
        Err(_) => Ok(None),
    }
}

fn expect_fault(
    rt: &impl Abort,
    alloc: Global,
    file: &File,
    text: &str,
    fault: TreeFault,
) -> Result<(), AllocError> {
    let found = fault_to(alloc, file, text)?;
    assert_eq!(rt; found, Some(fault), "{text}");
    Ok(())
}

fn expect_cases(
    rt: &impl Abort,
    alloc: Global,
    file: &File,
    kind: TxKind,
    cases: &[Case],
) -> Result<(), AllocError> {
    for (text, answer) in cases {
        expect_case(rt, alloc, file, kind, text, answer)?;
    }
    Ok(())
}

#[test]
fn few_rows(rt: HostRuntime) -> Result<(), Fail> {
    let alloc = rt.alloc();
    expect_cases(&rt, alloc, &EMPTY, TxKind::ReadOnly, &OF_EMPTY)?;
    expect_cases(&rt, alloc, &ONE, TxKind::ReadOnly, &OF_ONE)?;
    expect_cases(&rt, alloc, &LAST, TxKind::ReadOnly, &OF_LAST)?;
    Ok(())
}

#[test]
fn operators(rt: HostRuntime) -> Result<(), Fail> {
    expect_cases(&rt, rt.alloc(), &KINDS, TxKind::ReadWrite, &CONDITIONS)?;
    Ok(())
}

#[test]
fn names(rt: HostRuntime) -> Result<(), Fail> {
    expect_cases(&rt, rt.alloc(), &KINDS, TxKind::ReadWrite, &NAMES)?;
    Ok(())
}

// Pages that stand for no database.
#[test]
fn faults(rt: HostRuntime) -> Result<(), Fail> {
    let alloc = rt.alloc();
    let spoilt = TreeFault::Corrupt { page: 2 };
    let long = TreeFault::Corrupt { page: 7 };
    let short = TreeFault::Space(SpaceFault::PageOut { page: 9, pages: 6 });
    expect_fault(&rt, alloc, &SPOILT, "SELECT count(*) FROM a", spoilt)?;
    expect_fault(&rt, alloc, &LONG, "SELECT * FROM a", long)?;
    expect_fault(&rt, alloc, &SHORT, "SELECT * FROM a", short)?;
    Ok(())
}
