//! Copies, each equal to what it is a copy of.

ghost use Rattle.std.specs.Prelude.{◌≡◌, IfOk};

use crate::lists::{Bytes, Names, Text};
use crate::statement::{Cond, Conds, Set, Sets, Statement, Statements};
use crate::transaction::Tx;
use crate::value::{Value, Values};
use std::alloc::{AllocError, Global};

/// A type whose values can be copied where there is memory.
pub trait Copies: Drop {
    /// An equal value.
    fn copy(&self, alloc: Global) -> Result<Self, AllocError>
        ensures { IfOk result (λ x. x ≡ self.now) };
}

// A copy of each.
fn copy_all<T: Copies>(alloc: Global, items: &[T]) -> Result<Vec<T>, AllocError>
    ensures { IfOk result (λ v. v.items ≡ items.now) }
{
    let mut found = Vec::new(alloc);
    let mut left = items;
    while let [first, rest @ ..] = left {
        found.push(first.copy(alloc)?)?;
        left = rest;
    }
    Ok(found)
}

impl Copies for Text {
    fn copy(&self, alloc: Global) -> Result<Text, AllocError> {
        Ok(Text::new(String::from_str(alloc, self.as_str())?))
    }
}

impl Copies for Bytes {
    fn copy(&self, alloc: Global) -> Result<Bytes, AllocError> {
        Ok(Bytes::new(Vec::from_slice(alloc, self.as_slice())?))
    }
}

impl Copies for Value {
    fn copy(&self, alloc: Global) -> Result<Value, AllocError> {
        Ok(match self {
            Value::Null => Value::Null,
            Value::Int(number) => Value::Int(*number),
            Value::Text(text) => Value::Text(text.copy(alloc)?),
            Value::Blob(bytes) => Value::Blob(bytes.copy(alloc)?),
            Value::Real8(bytes) => Value::Real8(*bytes),
        })
    }
}

impl Copies for Values {
    fn copy(&self, alloc: Global) -> Result<Values, AllocError> {
        Ok(Values::new(copy_all(alloc, self.as_slice())?))
    }
}

impl Copies for Names {
    fn copy(&self, alloc: Global) -> Result<Names, AllocError> {
        Ok(Names::new(copy_all(alloc, self.as_slice())?))
    }
}

impl Copies for Cond {
    fn copy(&self, alloc: Global) -> Result<Cond, AllocError> {
        Ok(Cond {
            name: self.name.copy(alloc)?,
            op: self.op,
            number: self.number,
        })
    }
}

impl Copies for Conds {
    fn copy(&self, alloc: Global) -> Result<Conds, AllocError> {
        Ok(Conds::new(copy_all(alloc, self.as_slice())?))
    }
}

impl Copies for Set {
    fn copy(&self, alloc: Global) -> Result<Set, AllocError> {
        Ok(Set {
            name: self.name.copy(alloc)?,
            value: self.value.copy(alloc)?,
        })
    }
}

impl Copies for Sets {
    fn copy(&self, alloc: Global) -> Result<Sets, AllocError> {
        Ok(Sets::new(copy_all(alloc, self.as_slice())?))
    }
}

impl Copies for Statement {
    fn copy(&self, alloc: Global) -> Result<Statement, AllocError> {
        Ok(match self {
            Statement::Select {
                table,
                all,
                columns,
                conds,
            } => Statement::Select {
                table: table.copy(alloc)?,
                all: *all,
                columns: columns.copy(alloc)?,
                conds: conds.copy(alloc)?,
            },
            Statement::Count { table, conds } => Statement::Count {
                table: table.copy(alloc)?,
                conds: conds.copy(alloc)?,
            },
            Statement::Insert {
                table,
                listed,
                columns,
                values,
            } => Statement::Insert {
                table: table.copy(alloc)?,
                listed: *listed,
                columns: columns.copy(alloc)?,
                values: values.copy(alloc)?,
            },
            Statement::Update { table, sets, conds } => Statement::Update {
                table: table.copy(alloc)?,
                sets: sets.copy(alloc)?,
                conds: conds.copy(alloc)?,
            },
            Statement::Delete { table, conds } => Statement::Delete {
                table: table.copy(alloc)?,
                conds: conds.copy(alloc)?,
            },
        })
    }
}

impl Copies for Statements {
    fn copy(&self, alloc: Global) -> Result<Statements, AllocError> {
        Ok(Statements::new(copy_all(alloc, self.as_slice())?))
    }
}

impl Tx {
    /// An equal transaction.
    pub fn copy(&self, alloc: Global) -> Result<Tx, AllocError>
        ensures { IfOk result (λ tx. tx ≡ self.now) }
    {
        Ok(Tx {
            kind: self.kind,
            statements: self.statements.copy(alloc)?,
            end: self.end,
        })
    }
}
