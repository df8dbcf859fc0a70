//! Each refusal.

use crate::tests::run::expect_case;
use crate::tests::steps::Answer::{Changed, Counted, Inserted, Refused, Rows};
use crate::tests::steps::Command::{Count, Delete, Insert, Select, Update};
use crate::tests::steps::Field::{Int, Null, Real8, Text, Zeros};
use crate::tests::steps::{Case, REAL};
use spe_model::Op::{Equal, Greater, Less};
use spe_model::Refusal;
use spe_model::TxKind::{ReadOnly, ReadWrite};
use std::test::Fail;

// By the transaction and the table.
static TABLES: [Case; 3] = [
    Case {
        name: "ReadOnly",
        steps: &[
            (
                ReadOnly,
                Insert("a", false, &[], &[Int(1), Int(1)]),
                Refused(Refusal::ReadOnly),
            ),
            (
                ReadOnly,
                Update("a", &[("v", Int(1))], &[]),
                Refused(Refusal::ReadOnly),
            ),
            (ReadOnly, Delete("a", &[]), Refused(Refusal::ReadOnly)),
            (ReadOnly, Count("a", &[]), Counted(0)),
            (ReadOnly, Select("a", true, &[], &[]), Rows(&[])),
        ],
    },
    Case {
        name: "NoTable",
        steps: &[
            (
                ReadWrite,
                Select("c", true, &[], &[]),
                Refused(Refusal::NoTable),
            ),
            (ReadWrite, Count("c", &[]), Refused(Refusal::NoTable)),
            (
                ReadWrite,
                Insert("c", false, &[], &[Int(1)]),
                Refused(Refusal::NoTable),
            ),
            (
                ReadWrite,
                Update("c", &[("v", Int(1))], &[]),
                Refused(Refusal::NoTable),
            ),
            (ReadWrite, Delete("c", &[]), Refused(Refusal::NoTable)),
            (ReadOnly, Count("c", &[]), Refused(Refusal::NoTable)),
        ],
    },
    Case {
        name: "ClosedTable",
        steps: &[
            (
                ReadWrite,
                Select("shut", true, &[], &[]),
                Refused(Refusal::ClosedTable),
            ),
            (ReadWrite, Count("shut", &[]), Refused(Refusal::ClosedTable)),
            (
                ReadWrite,
                Insert("shut", false, &[], &[Int(1)]),
                Refused(Refusal::ClosedTable),
            ),
            (
                ReadWrite,
                Update("shut", &[("v", Int(1))], &[]),
                Refused(Refusal::ClosedTable),
            ),
            (
                ReadWrite,
                Delete("shut", &[]),
                Refused(Refusal::ClosedTable),
            ),
        ],
    },
];

// By the names of the statement, and by how many values it has.
static NAMES: [Case; 3] = [
    Case {
        name: "NoColumn",
        steps: &[
            (
                ReadWrite,
                Select("a", false, &["v", "q"], &[]),
                Refused(Refusal::NoColumn),
            ),
            (
                ReadWrite,
                Count("a", &[("q", Equal, 1)]),
                Refused(Refusal::NoColumn),
            ),
            (
                ReadWrite,
                Insert("a", true, &["q"], &[Int(1)]),
                Refused(Refusal::NoColumn),
            ),
            (
                ReadWrite,
                Update("a", &[("q", Int(1))], &[]),
                Refused(Refusal::NoColumn),
            ),
            (
                ReadWrite,
                Update("a", &[("v", Int(1))], &[("q", Equal, 1)]),
                Refused(Refusal::NoColumn),
            ),
            (
                ReadWrite,
                Delete("a", &[("q", Equal, 1)]),
                Refused(Refusal::NoColumn),
            ),
        ],
    },
    Case {
        name: "NotByRowid",
        steps: &[
            (
                ReadWrite,
                Select("a", true, &[], &[("v", Equal, 1)]),
                Refused(Refusal::NotByRowid),
            ),
            (
                ReadWrite,
                Count("a", &[("id", Equal, 1), ("v", Equal, 1)]),
                Refused(Refusal::NotByRowid),
            ),
            (
                ReadWrite,
                Update("a", &[("v", Int(1))], &[("v", Equal, 1)]),
                Refused(Refusal::NotByRowid),
            ),
            (
                ReadWrite,
                Delete("a", &[("V", Less, 1)]),
                Refused(Refusal::NotByRowid),
            ),
        ],
    },
    Case {
        name: "Count",
        steps: &[
            (
                ReadWrite,
                Insert("a", false, &[], &[Int(1)]),
                Refused(Refusal::Count),
            ),
            (
                ReadWrite,
                Insert("a", false, &[], &[Int(1), Int(2), Int(3)]),
                Refused(Refusal::Count),
            ),
            (
                ReadWrite,
                Insert("a", true, &["id", "v"], &[Int(1)]),
                Refused(Refusal::Count),
            ),
            (
                ReadWrite,
                Insert("a", true, &["v", "V"], &[Int(1), Int(2)]),
                Refused(Refusal::Count),
            ),
            (
                ReadWrite,
                Insert("a", true, &["id", "rowid"], &[Int(1), Int(2)]),
                Refused(Refusal::Count),
            ),
            (
                ReadWrite,
                Insert("a", true, &["oid", "_rowid_"], &[Int(1), Int(2)]),
                Refused(Refusal::Count),
            ),
            (
                ReadWrite,
                Update("a", &[("v", Int(1)), ("V", Int(2))], &[]),
                Refused(Refusal::Count),
            ),
            (ReadWrite, Count("a", &[]), Counted(0)),
        ],
    },
];

// By the values.
static VALUES: [Case; 2] = [
    Case {
        name: "Class",
        steps: &[
            (
                ReadWrite,
                Insert("each", true, &["i"], &[Text("x")]),
                Refused(Refusal::Class),
            ),
            (
                ReadWrite,
                Insert("each", true, &["i", "t"], &[Int(1), Int(2)]),
                Refused(Refusal::Class),
            ),
            (
                ReadWrite,
                Insert("each", true, &["i", "r"], &[Int(1), Int(1)]),
                Refused(Refusal::Class),
            ),
            (
                ReadWrite,
                Insert("each", true, &["i", "r"], &[Int(1), Text("x")]),
                Refused(Refusal::Class),
            ),
            (
                ReadWrite,
                Insert("each", true, &["i", "n"], &[Int(1), Text("x")]),
                Refused(Refusal::Class),
            ),
            (
                ReadWrite,
                Insert("each", true, &["i", "r"], &[Int(1), Real8(REAL)]),
                Refused(Refusal::Class),
            ),
            (
                ReadWrite,
                Insert("each", true, &["i", "b"], &[Int(1), Real8(REAL)]),
                Refused(Refusal::Class),
            ),
            (
                ReadWrite,
                Insert("a", false, &[], &[Text("1"), Int(1)]),
                Refused(Refusal::Class),
            ),
            (
                ReadWrite,
                Insert("a", false, &[], &[Zeros(1), Int(1)]),
                Refused(Refusal::Class),
            ),
            (
                ReadWrite,
                Insert("a", false, &[], &[Real8(REAL), Int(1)]),
                Refused(Refusal::Class),
            ),
            (
                ReadWrite,
                Insert("a", true, &["oid", "v"], &[Text("x"), Int(1)]),
                Refused(Refusal::Class),
            ),
            (
                ReadWrite,
                Update("a", &[("v", Text("x"))], &[]),
                Refused(Refusal::Class),
            ),
            (
                ReadWrite,
                Insert(
                    "each",
                    false,
                    &[],
                    &[Zeros(1), Zeros(2), Zeros(3), Zeros(4), Zeros(5)],
                ),
                Inserted(1),
            ),
            (
                ReadWrite,
                Insert(
                    "each",
                    false,
                    &[],
                    &[Int(1), Text("x"), Int(2), Null, Int(3)],
                ),
                Inserted(2),
            ),
            (
                ReadWrite,
                Insert("each", false, &[], &[Int(1), Null, Text("x"), Null, Null]),
                Inserted(3),
            ),
            (ReadWrite, Count("each", &[]), Counted(3)),
        ],
    },
    Case {
        name: "NotNull",
        steps: &[
            (
                ReadWrite,
                Insert("k", false, &[], &[Null, Int(1)]),
                Refused(Refusal::NotNull),
            ),
            (
                ReadWrite,
                Insert("k", true, &["id"], &[Int(1)]),
                Refused(Refusal::NotNull),
            ),
            (
                ReadWrite,
                Update("k", &[("v", Null)], &[]),
                Refused(Refusal::NotNull),
            ),
            (
                ReadWrite,
                Insert("k", false, &[], &[Text("x"), Null]),
                Inserted(1),
            ),
            (
                ReadWrite,
                Insert("k", true, &["v"], &[Text("y")]),
                Inserted(2),
            ),
            (ReadWrite, Update("k", &[("v", Text("z"))], &[]), Changed(2)),
        ],
    },
];

// By the rowid and the rows. A blob of n bytes, from 8,186 to 1,048,569, that stands beside the rowid's column makes
// a record of n + 5 bytes: the header has its length, the type of NULL and three bytes for the blob's.
static ROWS: [Case; 4] = [
    Case {
        name: "RowidFixed",
        steps: &[
            (
                ReadWrite,
                Update("a", &[("id", Int(1))], &[]),
                Refused(Refusal::RowidFixed),
            ),
            (
                ReadWrite,
                Update("a", &[("v", Int(1)), ("rowid", Int(1))], &[]),
                Refused(Refusal::RowidFixed),
            ),
            (
                ReadWrite,
                Update("each", &[("oid", Null)], &[]),
                Refused(Refusal::RowidFixed),
            ),
            (
                ReadWrite,
                Update("k", &[("_ROWID_", Int(2))], &[("id", Equal, 1)]),
                Refused(Refusal::RowidFixed),
            ),
        ],
    },
    Case {
        name: "RowidTaken",
        steps: &[
            (
                ReadWrite,
                Insert("a", false, &[], &[Int(5), Int(1)]),
                Inserted(5),
            ),
            (
                ReadWrite,
                Insert("a", false, &[], &[Int(5), Int(2)]),
                Refused(Refusal::RowidTaken),
            ),
            (
                ReadWrite,
                Insert("a", true, &["OID"], &[Int(5)]),
                Refused(Refusal::RowidTaken),
            ),
            (
                ReadWrite,
                Insert("a", false, &[], &[Int(4), Int(2)]),
                Inserted(4),
            ),
            (
                ReadWrite,
                Select("a", true, &[], &[]),
                Rows(&[&[Int(4), Int(2)], &[Int(5), Int(1)]]),
            ),
        ],
    },
    Case {
        name: "RowidsUsedUp",
        steps: &[
            (
                ReadWrite,
                Insert("a", false, &[], &[Int(i64::MAX), Int(1)]),
                Inserted(i64::MAX),
            ),
            (
                ReadWrite,
                Insert("a", true, &["v"], &[Int(2)]),
                Refused(Refusal::RowidsUsedUp),
            ),
            (
                ReadWrite,
                Insert("a", false, &[], &[Null, Int(2)]),
                Refused(Refusal::RowidsUsedUp),
            ),
            (
                ReadWrite,
                Insert("a", false, &[], &[Int(7), Int(2)]),
                Inserted(7),
            ),
            (
                ReadWrite,
                Delete("a", &[("id", Equal, i64::MAX)]),
                Changed(1),
            ),
            (ReadWrite, Insert("a", true, &["v"], &[Int(3)]), Inserted(8)),
        ],
    },
    Case {
        name: "TooLarge",
        steps: &[
            (
                ReadWrite,
                Insert("k", false, &[], &[Zeros(999_996), Int(1)]),
                Refused(Refusal::TooLarge),
            ),
            (ReadWrite, Count("k", &[]), Counted(0)),
            (
                ReadWrite,
                Insert("k", false, &[], &[Zeros(999_995), Int(1)]),
                Inserted(1),
            ),
            (
                ReadWrite,
                Update("k", &[("v", Zeros(999_996))], &[]),
                Refused(Refusal::TooLarge),
            ),
            (
                ReadWrite,
                Update("k", &[("v", Zeros(999_996))], &[("id", Greater, 1)]),
                Changed(0),
            ),
            (
                ReadWrite,
                Select("k", false, &["v"], &[]),
                Rows(&[&[Zeros(999_995)]]),
            ),
            (
                ReadWrite,
                Update("k", &[("v", Zeros(999_995))], &[]),
                Changed(1),
            ),
        ],
    },
];

#[test]
fn tables(rt: HostRuntime) -> Result<(), Fail> {
    for case in &TABLES {
        expect_case(&rt, rt.alloc(), case)?;
    }
    Ok(())
}

#[test]
fn names(rt: HostRuntime) -> Result<(), Fail> {
    for case in &NAMES {
        expect_case(&rt, rt.alloc(), case)?;
    }
    Ok(())
}

#[test]
fn values(rt: HostRuntime) -> Result<(), Fail> {
    for case in &VALUES {
        expect_case(&rt, rt.alloc(), case)?;
    }
    Ok(())
}

#[test]
fn rows(rt: HostRuntime) -> Result<(), Fail> {
    for case in &ROWS {
        expect_case(&rt, rt.alloc(), case)?;
    }
    Ok(())
}
