//! What statements answer, and what they leave.

use crate::tests::run::expect_case;
use crate::tests::steps::Answer::{Changed, Counted, Inserted, Refused, Rows};
use crate::tests::steps::Case;
use crate::tests::steps::Command::{Count, Delete, Insert, Select, Update};
use crate::tests::steps::Field::{Int, Null, Text, Zeros};
use spe_model::Op::{Equal, Greater, GreaterEqual, Less, LessEqual};
use spe_model::Refusal;
use spe_model::TxKind::{ReadOnly, ReadWrite};
use std::test::Fail;

// Rows that come and change.
static WRITES: [Case; 3] = [
    Case {
        name: "the last rowid",
        steps: &[
            (
                ReadWrite,
                Insert("a", false, &[], &[Int(i64::MAX), Int(1)]),
                Inserted(i64::MAX),
            ),
            (
                ReadWrite,
                Insert("a", true, &["v"], &[Int(2)]),
                Refused(Refusal::RowidsUsedUp),
            ),
            (
                ReadWrite,
                Insert("a", false, &[], &[Int(i64::MAX), Int(3)]),
                Refused(Refusal::RowidTaken),
            ),
            (
                ReadWrite,
                Insert("a", false, &[], &[Int(5), Text("x")]),
                Refused(Refusal::Class),
            ),
            (ReadWrite, Count("a", &[]), Counted(1)),
        ],
    },
    Case {
        name: "two tables",
        steps: &[
            (
                ReadWrite,
                Insert("a", false, &[], &[Int(1), Int(10)]),
                Inserted(1),
            ),
            (
                ReadWrite,
                Insert("b", false, &[], &[Int(7), Int(20)]),
                Inserted(7),
            ),
            (ReadWrite, Count("a", &[]), Counted(1)),
            (
                ReadWrite,
                Select("a", true, &[], &[]),
                Rows(&[&[Int(1), Int(10)]]),
            ),
            (
                ReadWrite,
                Select("b", true, &[], &[]),
                Rows(&[&[Int(7), Int(20)]]),
            ),
        ],
    },
    Case {
        name: "a row is changed",
        steps: &[
            (
                ReadWrite,
                Insert("a", false, &[], &[Int(1), Int(10)]),
                Inserted(1),
            ),
            (
                ReadWrite,
                Update("a", &[("v", Int(11))], &[("id", Equal, 1)]),
                Changed(1),
            ),
            (
                ReadOnly,
                Select("a", true, &[], &[]),
                Rows(&[&[Int(1), Int(11)]]),
            ),
            (
                ReadWrite,
                Update("a", &[("v", Int(12))], &[("id", Equal, 2)]),
                Changed(0),
            ),
            (
                ReadWrite,
                Select("a", false, &["v"], &[]),
                Rows(&[&[Int(11)]]),
            ),
        ],
    },
];

// Rowids that are given to new rows, and the names of the rowid.
static ROWIDS: [Case; 3] = [
    Case {
        name: "rowids are found",
        steps: &[
            (ReadWrite, Insert("a", true, &["v"], &[Int(1)]), Inserted(1)),
            (
                ReadWrite,
                Insert("a", false, &[], &[Null, Int(2)]),
                Inserted(2),
            ),
            (
                ReadWrite,
                Insert("a", false, &[], &[Int(-9), Int(3)]),
                Inserted(-9),
            ),
            (ReadWrite, Delete("a", &[("id", Greater, -9)]), Changed(2)),
            (
                ReadWrite,
                Insert("a", true, &["v"], &[Int(4)]),
                Inserted(-8),
            ),
            (ReadWrite, Delete("a", &[]), Changed(2)),
            (ReadWrite, Insert("a", true, &["v"], &[Int(5)]), Inserted(1)),
            (
                ReadWrite,
                Select("a", true, &[], &[]),
                Rows(&[&[Int(1), Int(5)]]),
            ),
        ],
    },
    Case {
        name: "names of the rowid",
        steps: &[
            (
                ReadWrite,
                Insert("a", true, &["rowid", "v"], &[Int(4), Int(1)]),
                Inserted(4),
            ),
            (
                ReadWrite,
                Insert("a", true, &["_ROWID_", "V"], &[Int(5), Int(2)]),
                Inserted(5),
            ),
            (
                ReadWrite,
                Insert("a", true, &["Oid", "v"], &[Int(6), Int(3)]),
                Inserted(6),
            ),
            (
                ReadWrite,
                Select(
                    "a",
                    false,
                    &["rowid", "_rowid_", "OID", "ID", "v"],
                    &[("oid", Equal, 5)],
                ),
                Rows(&[&[Int(5), Int(5), Int(5), Int(5), Int(2)]]),
            ),
            (
                ReadWrite,
                Update("a", &[("v", Int(9))], &[("RowID", GreaterEqual, 5)]),
                Changed(2),
            ),
            (
                ReadWrite,
                Select("A", false, &["v"], &[]),
                Rows(&[&[Int(1)], &[Int(9)], &[Int(9)]]),
            ),
        ],
    },
    Case {
        name: "a column of such a name",
        steps: &[
            (
                ReadWrite,
                Insert("own", false, &[], &[Text("x"), Int(1)]),
                Inserted(1),
            ),
            (
                ReadWrite,
                Insert("own", true, &["ROWID", "oid"], &[Text("y"), Int(8)]),
                Inserted(8),
            ),
            (
                ReadWrite,
                Select("own", false, &["rowid", "oid"], &[]),
                Rows(&[&[Text("x"), Int(1)], &[Text("y"), Int(8)]]),
            ),
            (
                ReadWrite,
                Count("own", &[("_rowid_", Equal, 8)]),
                Counted(1),
            ),
            (
                ReadWrite,
                Count("own", &[("rowid", Equal, 8)]),
                Refused(Refusal::NotByRowid),
            ),
            (
                ReadWrite,
                Update("own", &[("rowid", Text("z"))], &[("oid", Less, 8)]),
                Changed(1),
            ),
            (
                ReadWrite,
                Select("own", true, &[], &[]),
                Rows(&[&[Text("z"), Int(1)], &[Text("y"), Null]]),
            ),
        ],
    },
];

// Rows that are chosen.
static CONDITIONS: [Case; 1] = [Case {
    name: "conditions",
    steps: &[
        (
            ReadWrite,
            Insert("a", false, &[], &[Int(1), Int(0)]),
            Inserted(1),
        ),
        (
            ReadWrite,
            Insert("a", false, &[], &[Int(2), Int(0)]),
            Inserted(2),
        ),
        (
            ReadWrite,
            Insert("a", false, &[], &[Int(3), Int(0)]),
            Inserted(3),
        ),
        (
            ReadWrite,
            Insert("a", false, &[], &[Int(i64::MIN), Int(0)]),
            Inserted(i64::MIN),
        ),
        (
            ReadWrite,
            Select("a", false, &["id"], &[]),
            Rows(&[&[Int(i64::MIN)], &[Int(1)], &[Int(2)], &[Int(3)]]),
        ),
        (
            ReadWrite,
            Select("a", false, &["id"], &[("id", Less, 2)]),
            Rows(&[&[Int(i64::MIN)], &[Int(1)]]),
        ),
        (
            ReadWrite,
            Select("a", false, &["id"], &[("id", LessEqual, 2)]),
            Rows(&[&[Int(i64::MIN)], &[Int(1)], &[Int(2)]]),
        ),
        (
            ReadWrite,
            Select("a", false, &["id"], &[("id", Greater, 2)]),
            Rows(&[&[Int(3)]]),
        ),
        (
            ReadWrite,
            Select("a", false, &["id"], &[("id", GreaterEqual, 2)]),
            Rows(&[&[Int(2)], &[Int(3)]]),
        ),
        (
            ReadWrite,
            Select("a", false, &["id"], &[("id", Equal, 2)]),
            Rows(&[&[Int(2)]]),
        ),
        (
            ReadWrite,
            Select(
                "a",
                false,
                &["id"],
                &[("id", GreaterEqual, 2), ("id", LessEqual, 3)],
            ),
            Rows(&[&[Int(2)], &[Int(3)]]),
        ),
        (
            ReadWrite,
            Count("a", &[("id", Greater, 3), ("id", Less, 9)]),
            Counted(0),
        ),
        (
            ReadWrite,
            Delete("a", &[("id", GreaterEqual, 1), ("id", Less, 3)]),
            Changed(2),
        ),
        (
            ReadWrite,
            Select("a", false, &["id"], &[]),
            Rows(&[&[Int(i64::MIN)], &[Int(3)]]),
        ),
    ],
}];

// Values, tables of one name, and refusals that change nothing.
static REST: [Case; 4] = [
    Case {
        name: "what is not looked at",
        steps: &[
            (
                ReadWrite,
                Insert("a", false, &["q", "q"], &[Int(1), Int(2)]),
                Inserted(1),
            ),
            (
                ReadWrite,
                Select("a", true, &["q"], &[]),
                Rows(&[&[Int(1), Int(2)]]),
            ),
        ],
    },
    Case {
        name: "values of a row",
        steps: &[
            (
                ReadWrite,
                Insert(
                    "each",
                    false,
                    &[],
                    &[Int(1), Text("x"), Zeros(2), Null, Int(0)],
                ),
                Inserted(1),
            ),
            (
                ReadWrite,
                Select("each", true, &[], &[]),
                Rows(&[&[Int(1), Text("x"), Zeros(2), Null, Int(0)]]),
            ),
            (
                ReadWrite,
                Insert("each", true, &["n", "i"], &[Int(5), Int(7)]),
                Inserted(2),
            ),
            (
                ReadWrite,
                Select(
                    "each",
                    false,
                    &["n", "t", "i", "rowid", "n"],
                    &[("oid", Equal, 2)],
                ),
                Rows(&[&[Int(5), Null, Int(7), Int(2), Int(5)]]),
            ),
            (
                ReadWrite,
                Update(
                    "each",
                    &[("t", Null), ("n", Zeros(1))],
                    &[("oid", Equal, 1)],
                ),
                Changed(1),
            ),
            (
                ReadWrite,
                Select("each", true, &[], &[]),
                Rows(&[
                    &[Int(1), Null, Zeros(2), Null, Zeros(1)],
                    &[Int(7), Null, Null, Null, Int(5)],
                ]),
            ),
        ],
    },
    Case {
        name: "the first of one name",
        steps: &[
            (
                ReadWrite,
                Insert("Twin", false, &[], &[Int(1)]),
                Inserted(1),
            ),
            (
                ReadWrite,
                Insert("TWIN", false, &[], &[Int(1), Int(2)]),
                Refused(Refusal::Count),
            ),
            (
                ReadWrite,
                Select("TWIN", true, &[], &[]),
                Rows(&[&[Int(1)]]),
            ),
            (
                ReadWrite,
                Select("twin", false, &["w"], &[]),
                Refused(Refusal::NoColumn),
            ),
        ],
    },
    Case {
        name: "nothing is changed by a refusal",
        steps: &[
            (
                ReadWrite,
                Insert("k", false, &[], &[Text("x"), Int(1)]),
                Inserted(1),
            ),
            (
                ReadWrite,
                Update("k", &[("v", Null)], &[]),
                Refused(Refusal::NotNull),
            ),
            (
                ReadOnly,
                Update("k", &[("v", Text("y"))], &[]),
                Refused(Refusal::ReadOnly),
            ),
            (ReadOnly, Delete("k", &[]), Refused(Refusal::ReadOnly)),
            (
                ReadWrite,
                Insert("k", false, &[], &[Text("y"), Int(1)]),
                Refused(Refusal::RowidTaken),
            ),
            (
                ReadWrite,
                Select("k", true, &[], &[]),
                Rows(&[&[Text("x"), Int(1)]]),
            ),
        ],
    },
];

#[test]
fn writes(rt: HostRuntime) -> Result<(), Fail> {
    for case in &WRITES {
        expect_case(&rt, rt.alloc(), case)?;
    }
    Ok(())
}

#[test]
fn rowids(rt: HostRuntime) -> Result<(), Fail> {
    for case in &ROWIDS {
        expect_case(&rt, rt.alloc(), case)?;
    }
    Ok(())
}

#[test]
fn conditions(rt: HostRuntime) -> Result<(), Fail> {
    for case in &CONDITIONS {
        expect_case(&rt, rt.alloc(), case)?;
    }
    Ok(())
}

#[test]
fn rest(rt: HostRuntime) -> Result<(), Fail> {
    for case in &REST {
        expect_case(&rt, rt.alloc(), case)?;
    }
    Ok(())
}
