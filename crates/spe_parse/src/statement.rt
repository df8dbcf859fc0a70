//! The forms of a statement.

ghost use Rattle.std.specs.Prelude.{◌≡◌};
ghost use Rattle.spe_parse.specs.Grammar.{from_at, stands_count, count_at, columns_at, shown_at, select_at, targets_at, insert_at, update_at, delete_at, statement_at};
ghost use Rattle.spe_parse.specs.Read.{IsPart};

use crate::clause::{enclosed_literals, enclosed_names, filter, names, sets};
use crate::halt::Halt;
use crate::left::Left;
use crate::word::{is_sign, is_word};
use spe_model::{Conds, Names, Statement, Text};
use std::alloc::Global;

// Reads the table behind FROM, and the conditions on its rows.
#[tactic(auto, unfolding(crate::specs::Grammar::from_at))]
fn from(left: &mut Left<'_, '_>, alloc: Global) -> Result<(Text, Conds), Halt>
    ensures { IsPart (λ f. (f, left.new)) result (from_at left.old) }
{
    left.word("FROM")?;
    let table = left.name(alloc)?;
    let conds = filter(left, alloc)?;
    Ok((table, conds))
}

// Whether COUNT and a parenthesis stand at the front.
fn stands_count(left: &Left<'_, '_>) -> bool
    ensures { result ≡ stands_count left.now }
{
    match left.tokens() {
        [first, second, ..] => is_word("COUNT", first) && is_sign("(", second),
        _ => false,
    }
}

// Reads what follows `COUNT (`.
#[tactic(auto, unfolding(crate::specs::Grammar::count_at))]
fn count(left: &mut Left<'_, '_>, alloc: Global) -> Result<Statement, Halt>
    ensures { IsPart (λ s. (s, left.new)) result (count_at left.old) }
{
    left.sign("*")?;
    left.sign(")")?;
    let (table, conds) = from(left, alloc)?;
    Ok(Statement::Count { table, conds })
}

// Reads whether all columns are shown, and otherwise which.
#[tactic(auto, unfolding(crate::specs::Grammar::columns_at))]
fn columns(left: &mut Left<'_, '_>, alloc: Global) -> Result<(bool, Names), Halt>
    ensures { IsPart (λ c. (c, left.new)) result (columns_at left.old) }
{
    if left.stands_sign("*") {
        left.pass();
        return Ok((true, Names::new(Vec::new(alloc))));
    }
    Ok((false, names(left, alloc)?))
}

// Reads which columns are shown, and of which rows.
#[tactic(auto, unfolding(crate::specs::Grammar::shown_at))]
fn shown(left: &mut Left<'_, '_>, alloc: Global) -> Result<Statement, Halt>
    ensures { IsPart (λ s. (s, left.new)) result (shown_at left.old) }
{
    let (all, columns) = columns(left, alloc)?;
    let (table, conds) = from(left, alloc)?;
    Ok(Statement::Select {
        table,
        all,
        columns,
        conds,
    })
}

// Reads what follows SELECT.
#[tactic(auto, unfolding(crate::specs::Grammar::select_at))]
fn select(left: &mut Left<'_, '_>, alloc: Global) -> Result<Statement, Halt>
    ensures { IsPart (λ s. (s, left.new)) result (select_at left.old) }
{
    if !stands_count(left) {
        return shown(left, alloc);
    }
    left.pass();
    left.pass();
    count(left, alloc)
}

// Reads whether names are listed, and which.
#[tactic(auto, unfolding(crate::specs::Grammar::targets_at))]
fn targets(left: &mut Left<'_, '_>, alloc: Global) -> Result<(bool, Names), Halt>
    ensures { IsPart (λ t. (t, left.new)) result (targets_at left.old) }
{
    if !left.stands_sign("(") {
        return Ok((false, Names::new(Vec::new(alloc))));
    }
    Ok((true, enclosed_names(left, alloc)?))
}

// Reads what follows INSERT.
#[tactic(auto, unfolding(crate::specs::Grammar::insert_at))]
fn insert(left: &mut Left<'_, '_>, alloc: Global) -> Result<Statement, Halt>
    ensures { IsPart (λ s. (s, left.new)) result (insert_at left.old) }
{
    left.word("INTO")?;
    let table = left.name(alloc)?;
    let (listed, columns) = targets(left, alloc)?;
    left.word("VALUES")?;
    let values = enclosed_literals(left, alloc)?;
    Ok(Statement::Insert {
        table,
        listed,
        columns,
        values,
    })
}

// Reads what follows UPDATE.
#[tactic(auto, unfolding(crate::specs::Grammar::update_at))]
fn update(left: &mut Left<'_, '_>, alloc: Global) -> Result<Statement, Halt>
    ensures { IsPart (λ s. (s, left.new)) result (update_at left.old) }
{
    let table = left.name(alloc)?;
    left.word("SET")?;
    let sets = sets(left, alloc)?;
    let conds = filter(left, alloc)?;
    Ok(Statement::Update { table, sets, conds })
}

// Reads what follows DELETE.
#[tactic(auto, unfolding(crate::specs::Grammar::delete_at))]
fn delete(left: &mut Left<'_, '_>, alloc: Global) -> Result<Statement, Halt>
    ensures { IsPart (λ s. (s, left.new)) result (delete_at left.old) }
{
    let (table, conds) = from(left, alloc)?;
    Ok(Statement::Delete { table, conds })
}

/// Reads one statement from the front of some tokens, and leaves what follows it.
#[tactic(auto, unfolding(crate::specs::Grammar::statement_at))]
pub fn read_statement(left: &mut Left<'_, '_>, alloc: Global) -> Result<Statement, Halt>
    ensures { IsPart (λ s. (s, left.new)) result (statement_at left.old) }
{
    let [first, ..] = left.tokens() else {
        return Err(Halt::Ends);
    };
    if is_word("SELECT", first) {
        left.pass();
        select(left, alloc)
    } else if is_word("INSERT", first) {
        left.pass();
        insert(left, alloc)
    } else if is_word("UPDATE", first) {
        left.pass();
        update(left, alloc)
    } else if is_word("DELETE", first) {
        left.pass();
        delete(left, alloc)
    } else {
        Err(left.halt())
    }
}
