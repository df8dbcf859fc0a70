//! The conditions of a statement.

ghost use Rattle.std.specs.Prelude.{◌≡◌};
ghost use Rattle.spe_model.specs.Conditions.{compares, is_chosen};

use spe_model::{Cond, Op};

fn compares(op: Op, a: i64, b: i64) -> bool
    ensures { result ≡ compares op a b }
{
    match op {
        Op::Equal => a == b,
        Op::Less => a < b,
        Op::LessEqual => a <= b,
        Op::Greater => a > b,
        Op::GreaterEqual => a >= b,
    }
}

/// Whether a rowid meets all conditions.
pub fn is_chosen(conds: &[Cond], rowid: i64) -> bool
    ensures { result ≡ is_chosen conds.now rowid }
{
    conds
        .iter()
        .all(|cond| compares(cond.op, rowid, cond.number))
}
