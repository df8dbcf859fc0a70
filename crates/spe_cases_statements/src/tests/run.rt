//! Statements are carried out, and the replies compared.

use crate::tests::build::{statement_of, tables};
use crate::tests::steps::{Answer, Case, Command, Field};
use spe_model::{Reply, TxKind, Value, Values};
use spe_slow::SlowDb;
use std::alloc::{AllocError, Global};
use std::process::Abort;

fn are_zeros(bytes: &[u8], count: usize) -> bool {
    bytes.len() == count && bytes.iter().all(|byte| *byte == 0)
}

fn is_value(value: &Value, field: &Field) -> bool {
    match (value, field) {
        (Value::Null, Field::Null) => true,
        (Value::Int(a), Field::Int(b)) => a == b,
        (Value::Text(text), Field::Text(wanted)) => text.as_str() == *wanted,
        (Value::Blob(bytes), Field::Zeros(count)) => are_zeros(bytes.as_slice(), *count),
        (Value::Real8(a), Field::Real8(b)) => a == b,
        _ => false,
    }
}

fn is_row(row: &Values, fields: &[Field]) -> bool {
    let values = row.as_slice();
    values.len() == fields.len()
        && values
            .iter()
            .zip(fields)
            .all(|(value, field)| is_value(value, field))
}

fn are_rows(rows: &[Values], wanted: &[&[Field]]) -> bool {
    rows.len() == wanted.len()
        && rows
            .iter()
            .zip(wanted)
            .all(|(row, fields)| is_row(row, fields))
}

/// Whether a reply is this one.
pub fn is_reply(reply: &Reply, answer: &Answer) -> bool {
    match (reply, answer) {
        (Reply::Rows(rows), Answer::Rows(wanted)) => are_rows(rows.as_slice(), wanted),
        (Reply::Count(a), Answer::Counted(b)) => a == b,
        (Reply::Changed(a), Answer::Changed(b)) => a == b,
        (Reply::Inserted(a), Answer::Inserted(b)) => a == b,
        (Reply::Refused(a), Answer::Refused(b)) => a == b,
        _ => false,
    }
}

// A statement that may write goes by `apply`, so that both calls are made.
fn reply_to(
    alloc: Global,
    database: &mut SlowDb,
    kind: TxKind,
    command: &Command,
) -> Result<Reply, AllocError> {
    let statement = statement_of(alloc, command)?;
    match kind {
        TxKind::ReadWrite => database.apply(&statement),
        TxKind::ReadOnly => database.apply_in(kind, &statement),
    }
}

fn expect_reply(
    rt: &impl Abort,
    alloc: Global,
    database: &mut SlowDb,
    name: &str,
    step: &(TxKind, Command, Answer),
) -> Result<(), AllocError> {
    let (kind, command, answer) = step;
    let reply = reply_to(alloc, database, *kind, command)?;
    assert!(rt; is_reply(&reply, answer), "{reply:?} in {name}");
    Ok(())
}

/// Carries out the statements of a case on tables without rows.
pub fn expect_case(rt: &impl Abort, alloc: Global, case: &Case) -> Result<(), AllocError> {
    let mut database = SlowDb::new(alloc, tables(alloc)?)?;
    for step in case.steps {
        expect_reply(rt, alloc, &mut database, case.name, step)?;
    }
    Ok(())
}
