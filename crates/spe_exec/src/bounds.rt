//! The conditions of a statement as one span of rowids.

ghost use Rattle.std.specs.Prelude.{◌≡◌};
ghost use Rattle.spe_exec.specs.Bounds.{Narrows, Bounds, KeepsFrom, KeepsUpTo, KeepsAbove, KeepsBelow, IsLarger, IsNext};

use spe_model::{Cond, Op};

/// The rowids from one to another, both included.
#[derive(Clone, Copy, Debug, PartialEq, Eq)]
pub struct Span {
    pub low: i64,
    pub high: i64,
}

// The larger of two numbers.
fn larger(a: i64, b: i64) -> i64
    ensures { IsLarger a b result }
{
    if a < b { b } else { a }
}

// The next number.
fn next(number: i64) -> Option<i64>
    ensures { IsNext number result }
{
    if number == i64::MAX {
        None
    } else {
        Some(number + 1)
    }
}

// The rowids of a span from a number on.
fn from(span: Span, number: i64) -> Span
    ensures { KeepsFrom span number result }
{
    Span {
        low: larger(span.low, number),
        high: span.high,
    }
}

// The rowids of a span up to a number.
fn up_to(span: Span, number: i64) -> Span
    ensures { KeepsUpTo span number result }
{
    Span {
        low: span.low,
        high: span.high.min(number),
    }
}

// The rowids of a span above a number.
fn above(span: Span, number: i64) -> Option<Span>
    ensures { KeepsAbove span number result }
{
    match next(number) {
        Some(above) => Some(from(span, above)),
        None => None,
    }
}

// The rowids of a span below a number.
fn below(span: Span, number: i64) -> Option<Span>
    ensures { KeepsBelow span number result }
{
    if number == i64::MIN {
        None
    } else {
        Some(up_to(span, number - 1))
    }
}

// The rowids of a span that meet a condition.
fn narrowed(span: Span, cond: &Cond) -> Option<Span>
    ensures { Narrows span cond.now result }
{
    match cond.op {
        Op::Equal => Some(up_to(from(span, cond.number), cond.number)),
        Op::Less => below(span, cond.number),
        Op::LessEqual => Some(up_to(span, cond.number)),
        Op::Greater => above(span, cond.number),
        Op::GreaterEqual => Some(from(span, cond.number)),
    }
}

/// The rowids that meet all conditions: those from one to another, or none. The names of the conditions
/// are not looked at.
pub fn bounds(conds: &[Cond]) -> Option<Span>
    ensures { Bounds conds.now result }
{
    let mut span = Span {
        low: i64::MIN,
        high: i64::MAX,
    };
    let mut left = conds;
    while let [cond, rest @ ..] = left {
        let Some(next) = narrowed(span, cond) else {
            return None;
        };
        span = next;
        left = rest;
    }
    if span.low <= span.high {
        Some(span)
    } else {
        None
    }
}
