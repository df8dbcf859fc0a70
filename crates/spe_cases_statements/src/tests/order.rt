//! The order of the refusals.

use crate::tests::run::expect_case;
use crate::tests::steps::Answer::{Inserted, Refused};
use crate::tests::steps::Case;
use crate::tests::steps::Command::{Count, Delete, Insert, Select, Update};
use crate::tests::steps::Field::{Int, Null, Text, Zeros};
use spe_model::Op::Equal;
use spe_model::Refusal;
use spe_model::TxKind::{ReadOnly, ReadWrite};
use std::test::Fail;

// There is cause for two refusals, or more; the lowest is answered.
static PAIRS: [Case; 16] = [
    Case {
        name: "ReadOnly before NoTable",
        steps: &[(ReadOnly, Delete("c", &[]), Refused(Refusal::ReadOnly))],
    },
    Case {
        name: "ReadOnly before ClosedTable",
        steps: &[(
            ReadOnly,
            Insert("shut", false, &[], &[]),
            Refused(Refusal::ReadOnly),
        )],
    },
    Case {
        name: "NoTable before NoColumn",
        steps: &[(
            ReadWrite,
            Insert("c", true, &["q"], &[Int(1)]),
            Refused(Refusal::NoTable),
        )],
    },
    Case {
        name: "ClosedTable before NoColumn",
        steps: &[(
            ReadWrite,
            Select("shut", false, &["q"], &[]),
            Refused(Refusal::ClosedTable),
        )],
    },
    Case {
        name: "ClosedTable before NotNull",
        steps: &[(
            ReadWrite,
            Insert("shut", false, &[], &[Null]),
            Refused(Refusal::ClosedTable),
        )],
    },
    Case {
        name: "NoColumn before NotByRowid",
        steps: &[(
            ReadWrite,
            Count("a", &[("v", Equal, 1), ("q", Equal, 1)]),
            Refused(Refusal::NoColumn),
        )],
    },
    Case {
        name: "NoColumn before Count",
        steps: &[(
            ReadWrite,
            Insert("a", true, &["q"], &[]),
            Refused(Refusal::NoColumn),
        )],
    },
    Case {
        name: "NotByRowid before Count",
        steps: &[(
            ReadWrite,
            Update("a", &[("v", Int(1)), ("v", Int(2))], &[("v", Equal, 1)]),
            Refused(Refusal::NotByRowid),
        )],
    },
    Case {
        name: "NotByRowid before RowidFixed",
        steps: &[(
            ReadWrite,
            Update("a", &[("id", Int(1))], &[("v", Equal, 1)]),
            Refused(Refusal::NotByRowid),
        )],
    },
    Case {
        name: "Count before Class",
        steps: &[
            (
                ReadWrite,
                Insert("a", false, &[], &[Text("x")]),
                Refused(Refusal::Count),
            ),
            (
                ReadWrite,
                Update("a", &[("v", Text("x")), ("v", Int(1))], &[]),
                Refused(Refusal::Count),
            ),
        ],
    },
    Case {
        name: "Class before NotNull",
        steps: &[(
            ReadWrite,
            Insert("each", false, &[], &[Null, Int(1), Null, Null, Null]),
            Refused(Refusal::Class),
        )],
    },
    Case {
        name: "NotNull before RowidFixed",
        steps: &[(
            ReadWrite,
            Update("k", &[("id", Int(3)), ("v", Null)], &[]),
            Refused(Refusal::NotNull),
        )],
    },
    Case {
        name: "NotNull before RowidTaken",
        steps: &[
            (
                ReadWrite,
                Insert("k", false, &[], &[Text("x"), Int(1)]),
                Inserted(1),
            ),
            (
                ReadWrite,
                Insert("k", false, &[], &[Null, Int(1)]),
                Refused(Refusal::NotNull),
            ),
        ],
    },
    Case {
        name: "RowidFixed before TooLarge",
        steps: &[
            (
                ReadWrite,
                Insert("k", false, &[], &[Text("x"), Int(1)]),
                Inserted(1),
            ),
            (
                ReadWrite,
                Update("k", &[("id", Int(3)), ("v", Zeros(1_000_000))], &[]),
                Refused(Refusal::RowidFixed),
            ),
        ],
    },
    Case {
        name: "RowidTaken before TooLarge",
        steps: &[
            (
                ReadWrite,
                Insert("k", false, &[], &[Text("x"), Int(1)]),
                Inserted(1),
            ),
            (
                ReadWrite,
                Insert("k", false, &[], &[Zeros(1_000_000), Int(1)]),
                Refused(Refusal::RowidTaken),
            ),
        ],
    },
    Case {
        name: "RowidsUsedUp before TooLarge",
        steps: &[
            (
                ReadWrite,
                Insert("k", false, &[], &[Text("x"), Int(i64::MAX)]),
                Inserted(i64::MAX),
            ),
            (
                ReadWrite,
                Insert("k", true, &["v"], &[Zeros(1_000_000)]),
                Refused(Refusal::RowidsUsedUp),
            ),
        ],
    },
];

#[test]
fn pairs(rt: HostRuntime) -> Result<(), Fail> {
    for case in &PAIRS {
        expect_case(&rt, rt.alloc(), case)?;
    }
    Ok(())
}
