//! Statements that read.

ghost use Rattle.std.specs.Prelude.{◌≡◌, None, IfOk, false, length, map};
ghost use Rattle.spe_model.specs.declared.reply.Reply.TheVariants as replies;
ghost use Rattle.spe_model.specs.Conditions.{chosen};
ghost use Rattle.spe_model.specs.Meaning.{reply_to};
ghost use Rattle.spe_model.specs.Naming.{meant_by};
ghost use Rattle.spe_model.specs.Rows.{selected};
ghost use Rattle.spe_model.specs.Statement.{is_write, conds_of};
ghost use Rattle.spe_space.specs.Calls.{Reads, RefusesTree};
ghost use Rattle.spe_exec.specs.Run.{AnswersRows, AnswersTable, NamesRows, NamesTable, GivesMeaning};
ghost use Rattle.spe_exec.specs.Adds.{AddsOfRows, AddsOfTable, AddsOfStatement};
ghost use Rattle.spe_exec.specs.Misses.{MissesOfRows, MissesOfTable, MissesOfStatement, MissesStatement};

use crate::chosen::chosen_pairs;
use crate::finding::{entry_named, table_name};
use crate::select::{Shown, show};
use spe_model::{
    Catalog, Cond, Entry, Named, Refusal, Reply, Rows, Statement, TableDef, Text, TxKind,
};
use spe_search::Pair;
use spe_slow::{meant_by, rowless_refusal};
use spe_space::{Pages, TreeFault};
use std::alloc::{AllocError, Global};

// What names mean.
fn meant_by_all(alloc: Global, table: &TableDef, names: &[Text]) -> Result<Vec<Named>, AllocError>
    ensures { IfOk result (λ found. found.items ≡ map (meant_by table.now) names.now) }
{
    names
        .iter()
        .map(|name| meant_by(table, name))
        .collect(alloc)
}

// What a SELECT answers on an open table.
fn select<S: Pages>(
    alloc: Global,
    space: &mut S,
    entry: &Entry,
    all: bool,
    columns: &[Text],
    conds: &[Cond],
) -> Result<Reply, TreeFault>
    requires { S.Pages.refusal space.old ≡ None }
    ensures answer { AnswersRows S.Pages space.old space.new entry.now (λ rows. replies.Rows (map (selected entry.now.table all columns.now) (chosen conds.now rows))) result }
    ensures damage { NamesRows S.Pages space.old space.new entry.now result }
    ensures adds { AddsOfRows S.Pages space.old space.new entry.now conds.now }
    ensures page_out { MissesOfRows S.Pages space.old space.new entry.now conds.now result }
    ensures kept { Reads S.Pages space.old space.new }
    ensures refusal { RefusesTree S.Pages space.old space.new result }
{
    let names = meant_by_all(alloc, &entry.table, columns)?;
    let pairs = match chosen_pairs(alloc, space, entry.root, conds) {
        Ok(pairs) => pairs,
        Err(fault) => return Err(fault),
    };
    match show(alloc, &entry.table, all, names.as_slice(), pairs.as_slice())? {
        Shown::Rows(rows) => Ok(Reply::Rows(Rows::new(rows))),
        Shown::Damage(leaf) => Err(TreeFault::Corrupt { page: leaf }),
    }
}

// How many rows these are.
fn count_of(pairs: &[Pair]) -> u64
    ensures { result ≡ length pairs.now }
{
    pairs.len() as u64
}

// What a COUNT answers on an open table.
fn count<S: Pages>(
    alloc: Global,
    space: &mut S,
    entry: &Entry,
    conds: &[Cond],
) -> Result<Reply, TreeFault>
    requires { S.Pages.refusal space.old ≡ None }
    ensures answer { AnswersRows S.Pages space.old space.new entry.now (λ rows. replies.Count (length (chosen conds.now rows))) result }
    ensures damage { NamesRows S.Pages space.old space.new entry.now result }
    ensures adds { AddsOfRows S.Pages space.old space.new entry.now conds.now }
    ensures page_out { MissesOfRows S.Pages space.old space.new entry.now conds.now result }
    ensures kept { Reads S.Pages space.old space.new }
    ensures refusal { RefusesTree S.Pages space.old space.new result }
{
    match chosen_pairs(alloc, space, entry.root, conds) {
        Ok(pairs) => Ok(Reply::Count(count_of(pairs.as_slice()))),
        Err(fault) => Err(fault),
    }
}

// What a statement that reads answers on an open table, which does not refuse it.
fn read_rows<S: Pages>(
    alloc: Global,
    space: &mut S,
    entry: &Entry,
    statement: &Statement,
) -> Result<Reply, TreeFault>
    requires reads { is_write statement.now ≡ false }
    requires refusal { S.Pages.refusal space.old ≡ None }
    ensures answer { AnswersRows S.Pages space.old space.new entry.now (λ rows. reply_to entry.now.table rows statement.now) result }
    ensures damage { NamesRows S.Pages space.old space.new entry.now result }
    ensures adds { AddsOfRows S.Pages space.old space.new entry.now (conds_of statement.now) }
    ensures page_out { MissesOfRows S.Pages space.old space.new entry.now (conds_of statement.now) result }
    ensures kept { Reads S.Pages space.old space.new }
    ensures refusal { RefusesTree S.Pages space.old space.new result }
{
    match statement {
        Statement::Select {
            all,
            columns,
            conds,
            ..
        } => select(
            alloc,
            space,
            entry,
            *all,
            columns.as_slice(),
            conds.as_slice(),
        ),
        Statement::Count { conds, .. } => count(alloc, space, entry, conds.as_slice()),
        Statement::Insert { .. } | Statement::Update { .. } | Statement::Delete { .. } => {
            unreachable!()
        }
    }
}

// What a statement that reads answers on a table.
fn answer<S: Pages>(
    alloc: Global,
    space: &mut S,
    entry: &Entry,
    statement: &Statement,
) -> Result<Reply, TreeFault>
    requires reads { is_write statement.now ≡ false }
    requires refusal { S.Pages.refusal space.old ≡ None }
    ensures answer { AnswersTable S.Pages space.old space.new entry.now statement.now result }
    ensures damage { NamesRows S.Pages space.old space.new entry.now result }
    ensures adds { AddsOfTable S.Pages space.old space.new entry.now (conds_of statement.now) }
    ensures page_out { MissesOfTable S.Pages space.old space.new entry.now (conds_of statement.now) result }
    ensures kept { Reads S.Pages space.old space.new }
    ensures refusal { RefusesTree S.Pages space.old space.new result }
{
    match rowless_refusal(&entry.table, statement) {
        Some(refusal) => Ok(Reply::Refused(refusal)),
        None => read_rows(alloc, space, entry, statement),
    }
}

// What `read` answers.
fn reply<S: Pages>(
    alloc: Global,
    space: &mut S,
    catalog: &Catalog,
    statement: &Statement,
    kind: TxKind,
) -> Result<Reply, TreeFault>
    requires reads { is_write statement.now ≡ false }
    requires refusal { S.Pages.refusal space.old ≡ None }
    ensures meaning { GivesMeaning S.Pages space.old space.new catalog.now kind statement.now result }
    ensures damage { NamesTable S.Pages space.old space.new catalog.now statement.now result }
    ensures adds { AddsOfStatement S.Pages space.old space.new catalog.now statement.now }
    ensures page_out { MissesOfStatement S.Pages space.old space.new catalog.now statement.now result }
    ensures kept { Reads S.Pages space.old space.new }
    ensures refusal { RefusesTree S.Pages space.old space.new result }
{
    match entry_named(catalog, table_name(statement)) {
        Some(entry) => answer(alloc, space, entry, statement),
        None => Ok(Reply::Refused(Refusal::NoTable)),
    }
}

/// Carries out a statement that reads, a SELECT or a COUNT, on the database for which the pages of a
/// space stand, whose catalog is given.
///
/// Only the pages of the table's tree are got that the conditions touch, and the overflow pages of the
/// rows. The kind of the transaction makes no difference to such a statement. Corrupt and PageOut are as
/// of `range`; Corrupt may also name the leaf that a row was read from which a SELECT would show and
/// whose record is damaged or has fields for which the table has no columns.
pub fn read<S: Pages>(
    alloc: Global,
    space: &mut S,
    catalog: &Catalog,
    statement: &Statement,
    kind: TxKind,
) -> Result<Reply, TreeFault>
    requires reads { is_write statement.now ≡ false }
    requires refusal { S.Pages.refusal space.old ≡ None }
    ensures meaning { GivesMeaning S.Pages space.old space.new catalog.now kind statement.now result }
    ensures damage { NamesTable S.Pages space.old space.new catalog.now statement.now result }
    ensures adds { AddsOfStatement S.Pages space.old space.new catalog.now statement.now }
    ensures page_out { MissesOfStatement S.Pages space.old space.new catalog.now statement.now result }
    ensures inside { MissesStatement S.Pages space.old space.new catalog.now result }
    ensures kept { Reads S.Pages space.old space.new }
    ensures refusal { RefusesTree S.Pages space.old space.new result }
{
    reply(alloc, space, catalog, statement, kind)
}
