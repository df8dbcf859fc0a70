//! Tables and statements of `spe_model` from constants.

use crate::tests::steps::{Command, Field, Heading, PLANS, Plan, Test};
use spe_model::{
    Bytes, Column, Columns, Cond, Conds, Names, Set, Sets, Statement, TableDef, Tables, Text,
    Value, Values,
};
use std::alloc::{AllocError, Global};

fn text_of(alloc: Global, text: &str) -> Result<Text, AllocError> {
    Ok(Text::new(String::from_str(alloc, text)?))
}

fn value_of(alloc: Global, field: &Field) -> Result<Value, AllocError> {
    Ok(match field {
        Field::Null => Value::Null,
        Field::Int(number) => Value::Int(*number),
        Field::Text(text) => Value::Text(text_of(alloc, text)?),
        Field::Zeros(count) => Value::Blob(Bytes::new(vec![in alloc; 0u8; *count]?)),
        Field::Real8(bytes) => Value::Real8(*bytes),
    })
}

fn names_of(alloc: Global, names: &[&str]) -> Result<Names, AllocError> {
    let mut found = Vec::new(alloc);
    for name in names {
        found.push(text_of(alloc, name)?)?;
    }
    Ok(Names::new(found))
}

fn values_of(alloc: Global, fields: &[Field]) -> Result<Values, AllocError> {
    let mut found = Vec::new(alloc);
    for field in fields {
        found.push(value_of(alloc, field)?)?;
    }
    Ok(Values::new(found))
}

fn conds_of(alloc: Global, tests: &[Test]) -> Result<Conds, AllocError> {
    let mut found = Vec::new(alloc);
    for (name, op, number) in tests {
        let name = text_of(alloc, name)?;
        found.push(Cond {
            name,
            op: *op,
            number: *number,
        })?;
    }
    Ok(Conds::new(found))
}

fn sets_of(alloc: Global, sets: &[(&str, Field)]) -> Result<Sets, AllocError> {
    let mut found = Vec::new(alloc);
    for (name, field) in sets {
        let name = text_of(alloc, name)?;
        let value = value_of(alloc, field)?;
        found.push(Set { name, value })?;
    }
    Ok(Sets::new(found))
}

fn select_of(
    alloc: Global,
    table: &str,
    all: bool,
    columns: &[&str],
    tests: &[Test],
) -> Result<Statement, AllocError> {
    Ok(Statement::Select {
        table: text_of(alloc, table)?,
        all,
        columns: names_of(alloc, columns)?,
        conds: conds_of(alloc, tests)?,
    })
}

fn count_of(alloc: Global, table: &str, tests: &[Test]) -> Result<Statement, AllocError> {
    Ok(Statement::Count {
        table: text_of(alloc, table)?,
        conds: conds_of(alloc, tests)?,
    })
}

fn insert_of(
    alloc: Global,
    table: &str,
    listed: bool,
    columns: &[&str],
    values: &[Field],
) -> Result<Statement, AllocError> {
    Ok(Statement::Insert {
        table: text_of(alloc, table)?,
        listed,
        columns: names_of(alloc, columns)?,
        values: values_of(alloc, values)?,
    })
}

fn update_of(
    alloc: Global,
    table: &str,
    sets: &[(&str, Field)],
    tests: &[Test],
) -> Result<Statement, AllocError> {
    Ok(Statement::Update {
        table: text_of(alloc, table)?,
        sets: sets_of(alloc, sets)?,
        conds: conds_of(alloc, tests)?,
    })
}

fn delete_of(alloc: Global, table: &str, tests: &[Test]) -> Result<Statement, AllocError> {
    Ok(Statement::Delete {
        table: text_of(alloc, table)?,
        conds: conds_of(alloc, tests)?,
    })
}

/// The statement of a command.
pub fn statement_of(alloc: Global, command: &Command) -> Result<Statement, AllocError> {
    match *command {
        Command::Select(table, all, columns, tests) => select_of(alloc, table, all, columns, tests),
        Command::Count(table, tests) => count_of(alloc, table, tests),
        Command::Insert(table, listed, columns, values) => {
            insert_of(alloc, table, listed, columns, values)
        }
        Command::Update(table, sets, tests) => update_of(alloc, table, sets, tests),
        Command::Delete(table, tests) => delete_of(alloc, table, tests),
    }
}

// The columns under these headings.
fn columns_of(alloc: Global, headings: &[Heading]) -> Result<Columns, AllocError> {
    let mut columns = Vec::new(alloc);
    for (name, affinity, not_null) in headings {
        let name = text_of(alloc, name)?;
        columns.push(Column {
            name,
            affinity: *affinity,
            not_null: *not_null,
        })?;
    }
    Ok(Columns::new(columns))
}

fn table_of(alloc: Global, plan: &Plan) -> Result<TableDef, AllocError> {
    Ok(TableDef {
        name: text_of(alloc, plan.name)?,
        columns: columns_of(alloc, plan.headings)?,
        alias: plan.alias,
        closed: plan.closed,
    })
}

/// The tables of every case.
pub fn tables(alloc: Global) -> Result<Tables, AllocError> {
    let mut found = Vec::new(alloc);
    for plan in &PLANS {
        found.push(table_of(alloc, plan)?)?;
    }
    Ok(Tables::new(found))
}
