//! Rows removed over pages and over maps.

use crate::tests::inserts::expect;
use crate::tests::steps::Answer::{Changed, Counted, Inserted, Refused, Rows};
use crate::tests::steps::Command::{Count, Delete, Insert, Select};
use crate::tests::steps::Field::{Int, Zeros};
use crate::tests::steps::Step;
use spe_model::Op::{Equal, Greater, GreaterEqual, Less};
use spe_model::Refusal;
use spe_model::TxKind::{ReadOnly, ReadWrite};
use std::test::Fail;

// Rows that are chosen or not, with and without pages of their own, until none is left, and rows put in
// afterwards.
static CHOSEN: [Step; 15] = [
    (
        ReadWrite,
        Insert("a", false, &[], &[Int(1), Int(10)]),
        Inserted(1),
    ),
    (
        ReadWrite,
        Insert("a", false, &[], &[Int(-5), Int(30)]),
        Inserted(-5),
    ),
    (
        ReadWrite,
        Insert("a", false, &[], &[Int(3), Zeros(3000)]),
        Inserted(3),
    ),
    (
        ReadWrite,
        Insert("a", false, &[], &[Int(2), Int(20)]),
        Inserted(2),
    ),
    (ReadWrite, Delete("a", &[("id", Equal, 9)]), Changed(0)),
    (
        ReadWrite,
        Delete("a", &[("id", Greater, 1), ("rowid", Less, 3)]),
        Changed(1),
    ),
    (
        ReadOnly,
        Select("a", true, &[], &[]),
        Rows(&[
            &[Int(-5), Int(30)],
            &[Int(1), Int(10)],
            &[Int(3), Zeros(3000)],
        ]),
    ),
    (
        ReadWrite,
        Delete("a", &[("id", GreaterEqual, 2)]),
        Changed(1),
    ),
    (
        ReadOnly,
        Select("a", true, &[], &[]),
        Rows(&[&[Int(-5), Int(30)], &[Int(1), Int(10)]]),
    ),
    // The greatest rowid went, and its successor is the one that is left's.
    (ReadWrite, Insert("a", true, &["v"], &[Int(7)]), Inserted(2)),
    (ReadWrite, Delete("a", &[]), Changed(3)),
    (ReadWrite, Delete("a", &[]), Changed(0)),
    (ReadWrite, Count("a", &[]), Counted(0)),
    (ReadWrite, Insert("a", true, &["v"], &[Int(8)]), Inserted(1)),
    (
        ReadOnly,
        Select("a", true, &[], &[]),
        Rows(&[&[Int(1), Int(8)]]),
    ),
];

// Refusals, which remove no row.
static REFUSED: [Step; 8] = [
    (
        ReadWrite,
        Insert("a", false, &[], &[Int(1), Int(10)]),
        Inserted(1),
    ),
    (
        ReadOnly,
        Delete("a", &[("id", Equal, 1)]),
        Refused(Refusal::ReadOnly),
    ),
    (ReadWrite, Delete("c", &[]), Refused(Refusal::NoTable)),
    (
        ReadWrite,
        Delete("a", &[("q", Equal, 1)]),
        Refused(Refusal::NoColumn),
    ),
    (
        ReadWrite,
        Delete("a", &[("v", Equal, 10)]),
        Refused(Refusal::NotByRowid),
    ),
    (ReadWrite, Delete("b", &[]), Changed(0)),
    (ReadWrite, Count("a", &[]), Counted(1)),
    (
        ReadOnly,
        Select("a", true, &[], &[]),
        Rows(&[&[Int(1), Int(10)]]),
    ),
];

#[test]
fn chosen_rows(rt: HostRuntime) -> Result<(), Fail> {
    expect(&rt, rt.alloc(), &CHOSEN)?;
    Ok(())
}

#[test]
fn refused_deletes(rt: HostRuntime) -> Result<(), Fail> {
    expect(&rt, rt.alloc(), &REFUSED)?;
    Ok(())
}
