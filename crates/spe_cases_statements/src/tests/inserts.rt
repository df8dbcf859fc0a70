//! Rows put in over pages and over maps.

ghost use Rattle.std.specs.Prelude.{◌≡◌, None};
ghost use Rattle.spe_space.specs.View.{map_refusal};

use crate::tests::build::{statement_of, tables};
use crate::tests::files::EMPTY;
use crate::tests::run::is_reply;
use crate::tests::space::space_of;
use crate::tests::steps::Answer::{Counted, Inserted, Refused, Rows};
use crate::tests::steps::Command::{Count, Insert, Select};
use crate::tests::steps::Field::{Int, Null, Text, Zeros};
use crate::tests::steps::{Answer, Step};
use spe_catalog::read_catalog;
use spe_exec::run;
use spe_model::TxKind::{ReadOnly, ReadWrite};
use spe_model::{Catalog, Refusal, Statement, TxKind};
use spe_slow::SlowDb;
use spe_space::MapSpace;
use std::alloc::{AllocError, Global};
use std::process::Abort;
use std::test::Fail;

// The last rowid there may be, and no other.
static LAST: [Step; 6] = [
    (
        ReadWrite,
        Insert("a", false, &[], &[Int(i64::MAX), Int(1)]),
        Inserted(i64::MAX),
    ),
    (
        ReadWrite,
        Insert("a", true, &["v"], &[Int(2)]),
        Refused(Refusal::RowidsUsedUp),
    ),
    (
        ReadWrite,
        Insert("a", false, &[], &[Int(i64::MAX), Int(3)]),
        Refused(Refusal::RowidTaken),
    ),
    (
        ReadWrite,
        Insert("a", false, &[], &[Int(5), Text("x")]),
        Refused(Refusal::Class),
    ),
    (ReadWrite, Count("a", &[]), Counted(1)),
    (ReadWrite, Count("b", &[]), Counted(0)),
];

// Rowids that are left out, NULL or given, and records that are long or too long.
static EACH: [Step; 12] = [
    (ReadWrite, Insert("a", true, &["v"], &[Int(7)]), Inserted(1)),
    (
        ReadWrite,
        Insert("a", false, &[], &[Null, Int(8)]),
        Inserted(2),
    ),
    (
        ReadWrite,
        Insert("a", true, &["v", "id"], &[Null, Int(-5)]),
        Inserted(-5),
    ),
    (
        ReadWrite,
        Insert("a", true, &["V"], &[Zeros(1000)]),
        Inserted(3),
    ),
    (
        ReadWrite,
        Insert("a", true, &["v"], &[Zeros(1_000_000)]),
        Refused(Refusal::TooLarge),
    ),
    (
        ReadWrite,
        Insert("a", false, &[], &[Int(2), Zeros(1_000_000)]),
        Refused(Refusal::RowidTaken),
    ),
    (
        ReadWrite,
        Insert("a", false, &[], &[Int(9), Zeros(1_000_000)]),
        Refused(Refusal::TooLarge),
    ),
    (
        ReadOnly,
        Insert("a", false, &[], &[Int(9), Int(9)]),
        Refused(Refusal::ReadOnly),
    ),
    (
        ReadWrite,
        Insert("c", false, &[], &[Int(9)]),
        Refused(Refusal::NoTable),
    ),
    (
        ReadWrite,
        Insert("a", false, &[], &[Int(9)]),
        Refused(Refusal::Count),
    ),
    (
        ReadOnly,
        Select("a", true, &[], &[]),
        Rows(&[
            &[Int(-5), Null],
            &[Int(1), Int(7)],
            &[Int(2), Int(8)],
            &[Int(3), Zeros(1000)],
        ]),
    ),
    (ReadWrite, Count("b", &[]), Counted(0)),
];

// A database over pages that answered all calls.
#[derive(Drop)]
struct Paged {
    space: MapSpace,
    ghost well: { map_refusal space ≡ None },
}

// The pages after a statement, where it gives this answer.
fn after(
    alloc: Global,
    paged: Paged,
    catalog: &Catalog,
    kind: TxKind,
    statement: &Statement,
    answer: &Answer,
) -> Option<Paged> {
    let Paged { mut space } = paged;
    match run(alloc, &mut space, catalog, statement, kind) {
        Ok(reply) if is_reply(&reply, answer) => Some(Paged { space }),
        _ => None,
    }
}

// The pages after a statement that gives this answer over pages and over maps.
fn both_after(
    alloc: Global,
    paged: Paged,
    database: &mut SlowDb,
    catalog: &Catalog,
    step: &Step,
) -> Result<Option<Paged>, AllocError> {
    let (kind, command, answer) = step;
    let statement = statement_of(alloc, command)?;
    let reply = database.apply_in(*kind, &statement)?;
    if !is_reply(&reply, answer) {
        return Ok(None);
    }
    Ok(after(alloc, paged, catalog, *kind, &statement, answer))
}

// Whether all statements give their answers over pages and over maps.
fn give(
    alloc: Global,
    paged: Paged,
    database: &mut SlowDb,
    catalog: &Catalog,
    steps: &[Step],
) -> Result<bool, AllocError> {
    let mut now = paged;
    for step in steps {
        match both_after(alloc, now, database, catalog, step)? {
            Some(next) => now = next,
            None => return Ok(false),
        }
    }
    Ok(true)
}

// The same from two empty tables on.
fn give_from_empty(alloc: Global, steps: &[Step]) -> Result<bool, AllocError> {
    let mut database = SlowDb::new(alloc, tables(alloc)?)?;
    let mut space = space_of(alloc, &EMPTY)?;
    match read_catalog(alloc, &mut space) {
        Ok(catalog) => give(alloc, Paged { space }, &mut database, &catalog, steps),
        Err(_) => Ok(false),
    }
}

/// Stops the test unless all statements give their answers, from two empty tables on.
pub fn expect(rt: &impl Abort, alloc: Global, steps: &[Step]) -> Result<(), AllocError> {
    let holds = give_from_empty(alloc, steps)?;
    assert!(rt; holds, "{steps}", steps = steps.len());
    Ok(())
}

#[test]
fn last_rowid(rt: HostRuntime) -> Result<(), Fail> {
    expect(&rt, rt.alloc(), &LAST)?;
    Ok(())
}

#[test]
fn each_rowid(rt: HostRuntime) -> Result<(), Fail> {
    expect(&rt, rt.alloc(), &EACH)?;
    Ok(())
}
