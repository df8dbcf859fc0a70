//! Lists and clauses.

ghost use Rattle.std.specs.Prelude.{◌≡◌, ◌<◌, ◌++◌, ◌∷◌, [], OnOk, length};
ghost use Rattle.spe_model.specs.Definition.{is_sign};
ghost use Rattle.spe_parse.specs.Part.{ahead, name_at, listed, enclosed};
ghost use Rattle.spe_parse.specs.Number.{literal_at};
ghost use Rattle.spe_parse.specs.Clause.{op_of, op_at, comparison_at, bounds_at, cond_at, conds_at, where_at, set_at};
ghost use Rattle.spe_parse.specs.Read.{IsPart};

use crate::halt::Halt;
use crate::left::Left;
use crate::number::{integer, literal};
use crate::word::is_sign;
use spe_lex::Lexeme;
use spe_model::{Cond, Conds, Copies, Names, Op, Set, Sets, Text, Values};
use std::alloc::Global;

/// Reads names with commas between them.
pub fn names(left: &mut Left<'_, '_>, alloc: Global) -> Result<Names, Halt>
    ensures { IsPart (λ n. (n, left.new)) result (listed name_at left.old) }
{
    let mut found = Vec::new(alloc);
    'names: loop {
        found.push(left.name(alloc)?)?;
        if !left.stands_sign(",") {
            return Ok(Names::new(found));
        }
        left.pass();
    }
}

/// Reads names in parentheses.
pub fn enclosed_names(left: &mut Left<'_, '_>, alloc: Global) -> Result<Names, Halt>
    ensures { IsPart (λ n. (n, left.new)) result (enclosed name_at left.old) }
{
    left.sign("(")?;
    let names = names(left, alloc)?;
    left.sign(")")?;
    Ok(names)
}

// Reads literals with commas between them.
fn literals(left: &mut Left<'_, '_>, alloc: Global) -> Result<Values, Halt>
    ensures { IsPart (λ v. (v, left.new)) result (listed literal_at left.old) }
{
    let mut found = Vec::new(alloc);
    'literals: loop {
        found.push(literal(left, alloc)?)?;
        if !left.stands_sign(",") {
            return Ok(Values::new(found));
        }
        left.pass();
    }
}

/// Reads literals in parentheses.
pub fn enclosed_literals(left: &mut Left<'_, '_>, alloc: Global) -> Result<Values, Halt>
    ensures { IsPart (λ v. (v, left.new)) result (enclosed literal_at left.old) }
{
    left.sign("(")?;
    let values = literals(left, alloc)?;
    left.sign(")")?;
    Ok(values)
}

// Reads a name that is set to a literal.
#[tactic(auto, unfolding(crate::specs::Clause::set_at))]
fn set(left: &mut Left<'_, '_>, alloc: Global) -> Result<Set, Halt>
    ensures set { IsPart (λ s. (s, left.new)) result (set_at left.old) }
    ensures shorter { OnOk result (length left.new < length left.old) }
{
    let name = left.name(alloc)?;
    left.sign("=")?;
    let value = literal(left, alloc)?;
    Ok(Set { name, value })
}

/// Reads names that are set to literals, with commas between them.
pub fn sets(left: &mut Left<'_, '_>, alloc: Global) -> Result<Sets, Halt>
    ensures { IsPart (λ s. (s, left.new)) result (listed set_at left.old) }
{
    let mut found = Vec::new(alloc);
    'sets: loop {
        found.push(set(left, alloc)?)?;
        if !left.stands_sign(",") {
            return Ok(Sets::new(found));
        }
        left.pass();
    }
}

// The comparison that a sign stands for.
#[tactic(auto, unfolding(crate::specs::Clause::op_of))]
fn op_of(token: &Lexeme<'_>) -> Option<Op>
    ensures { result ≡ op_of token.now }
{
    if is_sign("=", token) {
        Some(Op::Equal)
    } else if is_sign("<", token) {
        Some(Op::Less)
    } else if is_sign("<=", token) {
        Some(Op::LessEqual)
    } else if is_sign(">", token) {
        Some(Op::Greater)
    } else if is_sign(">=", token) {
        Some(Op::GreaterEqual)
    } else {
        None
    }
}

// Reads the sign of a comparison.
fn op(left: &mut Left<'_, '_>) -> Result<Op, Halt>
    ensures op { IsPart (λ o. (o, left.new)) result (op_at left.old) }
    ensures shorter { OnOk result (length left.new < length left.old) }
{
    let [first, ..] = left.tokens() else {
        return Err(Halt::Ends);
    };
    let Some(op) = op_of(first) else {
        return Err(left.halt());
    };
    left.pass();
    Ok(op)
}

// Reads what a name is compared with.
#[tactic(auto, unfolding(crate::specs::Clause::comparison_at))]
fn comparison(left: &mut Left<'_, '_>, name: Text, found: &mut Vec<Cond>) -> Result<(), Halt>
    ensures conds { IsPart (λ _. (found.new.items, left.new)) result (ahead found.old.items (comparison_at name left.old)) }
    ensures shorter { OnOk result (length left.new < length left.old) }
{
    let op = op(left)?;
    let number = integer(left)?;
    found.push(Cond { name, op, number })?;
    Ok(())
}

// Reads the two bounds of a name.
#[tactic(auto, unfolding(crate::specs::Clause::bounds_at))]
fn bounds(
    left: &mut Left<'_, '_>,
    alloc: Global,
    name: Text,
    found: &mut Vec<Cond>,
) -> Result<(), Halt>
    ensures conds { IsPart (λ _. (found.new.items, left.new)) result (ahead found.old.items (bounds_at name left.old)) }
    ensures shorter { OnOk result (length left.new < length left.old) }
{
    let low = integer(left)?;
    left.word("AND")?;
    let high = integer(left)?;
    found.push(Cond {
        name: name.copy(alloc)?,
        op: Op::GreaterEqual,
        number: low,
    })?;
    found.push(Cond {
        name,
        op: Op::LessEqual,
        number: high,
    })?;
    Ok(())
}

// Reads a condition.
#[tactic(auto, unfolding(crate::specs::Clause::cond_at))]
fn cond(left: &mut Left<'_, '_>, alloc: Global, found: &mut Vec<Cond>) -> Result<(), Halt>
    ensures conds { IsPart (λ _. (found.new.items, left.new)) result (ahead found.old.items (cond_at left.old)) }
    ensures shorter { OnOk result (length left.new < length left.old) }
{
    let name = left.name(alloc)?;
    if left.stands_word("BETWEEN") {
        left.pass();
        bounds(left, alloc, name, found)
    } else {
        comparison(left, name, found)
    }
}

// Reads conditions with AND between each two.
fn conds(left: &mut Left<'_, '_>, alloc: Global) -> Result<Conds, Halt>
    ensures { IsPart (λ c. (c, left.new)) result (conds_at left.old) }
{
    let mut found = Vec::new(alloc);
    'conds: loop {
        cond(left, alloc, &mut found)?;
        if !left.stands_word("AND") {
            return Ok(Conds::new(found));
        }
        left.pass();
    }
}

/// Reads the conditions behind WHERE, which may be missing.
#[tactic(auto, unfolding(crate::specs::Clause::where_at))]
pub fn filter(left: &mut Left<'_, '_>, alloc: Global) -> Result<Conds, Halt>
    ensures { IsPart (λ c. (c, left.new)) result (where_at left.old) }
{
    if !left.stands_word("WHERE") {
        return Ok(Conds::new(Vec::new(alloc)));
    }
    left.pass();
    conds(left, alloc)
}
