//! Rows changed over pages and over maps.

use crate::tests::inserts::expect;
use crate::tests::steps::Answer::{Changed, Counted, Inserted, Refused, Rows};
use crate::tests::steps::Command::{Count, Insert, Select, Update};
use crate::tests::steps::Field::{Int, Null, Text, Zeros};
use crate::tests::steps::Step;
use spe_model::Op::{Equal, GreaterEqual, Less};
use spe_model::Refusal;
use spe_model::TxKind::{ReadOnly, ReadWrite};
use std::test::Fail;

// Rows that are chosen or not, whose records get longer and shorter.
static CHOSEN: [Step; 13] = [
    (
        ReadWrite,
        Insert("a", false, &[], &[Int(1), Int(10)]),
        Inserted(1),
    ),
    (
        ReadWrite,
        Insert("a", false, &[], &[Int(2), Int(20)]),
        Inserted(2),
    ),
    (
        ReadWrite,
        Insert("a", false, &[], &[Int(-5), Int(30)]),
        Inserted(-5),
    ),
    (
        ReadWrite,
        Update("a", &[("v", Int(7))], &[("id", GreaterEqual, 1)]),
        Changed(2),
    ),
    (
        ReadWrite,
        Update("a", &[("v", Int(8))], &[("id", Equal, 9)]),
        Changed(0),
    ),
    (
        ReadWrite,
        Update("a", &[("V", Null)], &[("rowid", Less, 0)]),
        Changed(1),
    ),
    (
        ReadWrite,
        Update("a", &[("v", Zeros(3000))], &[("id", Equal, 1)]),
        Changed(1),
    ),
    (
        ReadOnly,
        Select("a", true, &[], &[]),
        Rows(&[&[Int(-5), Null], &[Int(1), Zeros(3000)], &[Int(2), Int(7)]]),
    ),
    (
        ReadWrite,
        Update("a", &[("v", Zeros(2))], &[("id", Less, 2)]),
        Changed(2),
    ),
    (
        ReadOnly,
        Select("a", true, &[], &[]),
        Rows(&[&[Int(-5), Zeros(2)], &[Int(1), Zeros(2)], &[Int(2), Int(7)]]),
    ),
    (ReadWrite, Update("a", &[("v", Int(0))], &[]), Changed(3)),
    (
        ReadOnly,
        Select("a", true, &[], &[("id", Equal, -5)]),
        Rows(&[&[Int(-5), Int(0)]]),
    ),
    (ReadWrite, Count("b", &[]), Counted(0)),
];

// Refusals, which change no row.
static REFUSED: [Step; 11] = [
    (
        ReadWrite,
        Insert("a", false, &[], &[Int(1), Int(10)]),
        Inserted(1),
    ),
    (
        ReadWrite,
        Update("a", &[("v", Zeros(1_000_000))], &[]),
        Refused(Refusal::TooLarge),
    ),
    (
        ReadWrite,
        Update("a", &[("v", Zeros(1_000_000))], &[("id", Equal, 2)]),
        Changed(0),
    ),
    (
        ReadWrite,
        Update("a", &[("id", Int(4))], &[]),
        Refused(Refusal::RowidFixed),
    ),
    (
        ReadWrite,
        Update("a", &[("v", Text("x"))], &[]),
        Refused(Refusal::Class),
    ),
    (
        ReadWrite,
        Update("a", &[("v", Int(1)), ("V", Int(2))], &[]),
        Refused(Refusal::Count),
    ),
    (
        ReadWrite,
        Update("a", &[("q", Int(1))], &[]),
        Refused(Refusal::NoColumn),
    ),
    (
        ReadWrite,
        Update("a", &[("v", Int(1))], &[("v", Equal, 10)]),
        Refused(Refusal::NotByRowid),
    ),
    (
        ReadOnly,
        Update("a", &[("v", Int(1))], &[]),
        Refused(Refusal::ReadOnly),
    ),
    (
        ReadWrite,
        Update("c", &[("v", Int(1))], &[]),
        Refused(Refusal::NoTable),
    ),
    (
        ReadOnly,
        Select("a", true, &[], &[]),
        Rows(&[&[Int(1), Int(10)]]),
    ),
];

#[test]
fn chosen_rows(rt: HostRuntime) -> Result<(), Fail> {
    expect(&rt, rt.alloc(), &CHOSEN)?;
    Ok(())
}

#[test]
fn refused_updates(rt: HostRuntime) -> Result<(), Fail> {
    expect(&rt, rt.alloc(), &REFUSED)?;
    Ok(())
}
