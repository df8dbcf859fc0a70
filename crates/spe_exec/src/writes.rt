//! Statements, those that write among them.

ghost use Rattle.std.specs.Prelude.{◌≡◌, None, true, false};
ghost use Rattle.spe_model.specs.Rows.{written};
ghost use Rattle.spe_model.specs.Statement.{is_write};
ghost use Rattle.spe_space.specs.Calls.{Keeps, Reads, RefusesTree};
ghost use Rattle.spe_slow.specs.Answers.{rows_answer, table_answer};
ghost use Rattle.spe_exec.specs.Adds.{AddsOfStatement};
ghost use Rattle.spe_exec.specs.Inserts.{IsIdle, WhereNamed, WhereTable};
ghost use Rattle.spe_exec.specs.Misses.{MissesOfStatement, MissesStatement};
ghost use Rattle.spe_exec.specs.Run.{GivesMeaning, NamesTable};
ghost use Rattle.spe_exec.specs.Updates.{CarriesRows, pages_of_written};
ghost use Rattle.spe_exec.specs.Writes.{DoesMeaning, IsLikelyWrite, SparesStatement};

use crate::deleting::delete;
use crate::finding::{entry_named, table_name};
use crate::inserting::insert;
use crate::reads::read;
use crate::updating::update;
use spe_frame::shifts_law;
use spe_model::{Catalog, Entry, Refusal, Reply, Statement, TxKind};
use spe_slow::rowless_refusal;
use spe_space::{PageSpace, TreeFault};
use std::alloc::Global;

// What a statement that writes does to an open table, which does not refuse it whatever its rows are.
fn write_rows<S: PageSpace>(
    alloc: Global,
    space: &mut S,
    entry: &Entry,
    statement: &Statement,
) -> Result<Reply, TreeFault>
    requires writes { is_write statement.now ≡ true }
    requires refusal { S.Pages.refusal space.old ≡ None }
    ensures carries { WhereTable S.Pages space.old space.new entry.now (λ pages t.
        CarriesRows S.Pages space.old space.new pages t (pages_of_written (S.Pages.used space.old) t.entry.table (written t.entry.table t.rows statement.now)) (rows_answer t.entry.table t.rows statement.now) result) }
    ensures idle { IsIdle S.Pages space.old space.new result }
    ensures kept { Keeps S.Pages space.old space.new }
    ensures refusal { RefusesTree S.Pages space.old space.new result }
{
    match statement {
        Statement::Insert { .. } => insert(alloc, space, entry, statement),
        Statement::Update { conds, .. } => {
            update(alloc, space, entry, statement, conds.as_slice())
        }
        Statement::Delete { conds, .. } => delete(alloc, space, entry, conds.as_slice()),
        Statement::Select { .. } | Statement::Count { .. } => unreachable!(),
    }
}

// What a statement that writes does to the table that it names, in a transaction that may write.
fn write_table<S: PageSpace>(
    alloc: Global,
    space: &mut S,
    entry: &Entry,
    statement: &Statement,
) -> Result<Reply, TreeFault>
    requires writes { is_write statement.now ≡ true }
    requires refusal { S.Pages.refusal space.old ≡ None }
    ensures carries { WhereNamed S.Pages space.old space.new entry.now (λ pages t.
        CarriesRows S.Pages space.old space.new pages t (pages_of_written (S.Pages.used space.old) t.entry.table (written t.entry.table t.rows statement.now)) (table_answer t.entry.table t.rows statement.now) result) }
    ensures idle { IsIdle S.Pages space.old space.new result }
    ensures kept { Keeps S.Pages space.old space.new }
    ensures refusal { RefusesTree S.Pages space.old space.new result }
{
    shifts_law(space);
    match rowless_refusal(&entry.table, statement) {
        Some(refusal) => Ok(Reply::Refused(refusal)),
        None => write_rows(alloc, space, entry, statement),
    }
}

// What a statement that writes does.
fn write<S: PageSpace>(
    alloc: Global,
    space: &mut S,
    catalog: &Catalog,
    statement: &Statement,
    kind: TxKind,
) -> Result<Reply, TreeFault>
    requires writes { is_write statement.now ≡ true }
    requires refusal { S.Pages.refusal space.old ≡ None }
    ensures meaning { DoesMeaning S.Pages space.old space.new catalog.now kind statement.now result }
    ensures idle { IsIdle S.Pages space.old space.new result }
    ensures few { SparesStatement S.Pages space.old space.new catalog.now statement.now }
    ensures likely { IsLikelyWrite S.Pages space.old space.new catalog.now result }
    ensures kept { Keeps S.Pages space.old space.new }
    ensures refusal { RefusesTree S.Pages space.old space.new result }
{
    shifts_law(space);
    match kind {
        TxKind::ReadOnly => Ok(Reply::Refused(Refusal::ReadOnly)),
        TxKind::ReadWrite => match entry_named(catalog, table_name(statement)) {
            Some(entry) => write_table(alloc, space, entry, statement),
            None => Ok(Reply::Refused(Refusal::NoTable)),
        },
    }
}

/// Carries out a statement on the database for which the pages of a space stand, whose catalog is given.
///
/// A SELECT and a COUNT are as of `read`. An INSERT puts a row where the pages are served, and answers
/// its rowid: the one given, or where there is none or it is NULL the one after the largest, 1 in a
/// table without rows. One walk down the tree looks for the rowid and puts the row, and one before it
/// looks for the largest where none is given. An UPDATE reads the rows that its conditions choose, makes
/// their new records, and then gives each row its own, by one walk down the tree; it answers how many
/// there are. A DELETE reads the rows that its conditions choose, all where it has none, and then takes
/// out each, by one walk down the tree; it answers how many there were. A refusal is the lowest for which
/// there is cause, and puts nothing.
///
/// For each row that is written at most 128 pages are handed out, and those of its record's overflow
/// chain; for one that is taken out none. The faults are those of `insert_row`, `largest` and `find`, and
/// of `chosen_pairs`, `replace_rows` and `remove_rows`; an UPDATE and a DELETE also call the leaf corrupt
/// that holds a chosen row whose record is damaged or has fields for which the table has no columns. After
/// a fault some pages may be put, and what was put is of no use.
pub fn run<S: PageSpace>(
    alloc: Global,
    space: &mut S,
    catalog: &Catalog,
    statement: &Statement,
    kind: TxKind,
) -> Result<Reply, TreeFault>
    requires refusal { S.Pages.refusal space.old ≡ None }
    ensures meaning { DoesMeaning S.Pages space.old space.new catalog.now kind statement.now result }
    ensures read { is_write statement.now ≡ false → GivesMeaning S.Pages space.old space.new catalog.now kind statement.now result }
    ensures damage { is_write statement.now ≡ false → NamesTable S.Pages space.old space.new catalog.now statement.now result }
    ensures adds { is_write statement.now ≡ false → AddsOfStatement S.Pages space.old space.new catalog.now statement.now }
    ensures page_out { is_write statement.now ≡ false → MissesOfStatement S.Pages space.old space.new catalog.now statement.now result }
    ensures inside { is_write statement.now ≡ false → MissesStatement S.Pages space.old space.new catalog.now result }
    ensures still { is_write statement.now ≡ false → Reads S.Pages space.old space.new }
    ensures idle { IsIdle S.Pages space.old space.new result }
    ensures few { is_write statement.now ≡ true → SparesStatement S.Pages space.old space.new catalog.now statement.now }
    ensures likely { is_write statement.now ≡ true → IsLikelyWrite S.Pages space.old space.new catalog.now result }
    ensures kept { Keeps S.Pages space.old space.new }
    ensures refusal { RefusesTree S.Pages space.old space.new result }
{
    match statement {
        Statement::Insert { .. } | Statement::Update { .. } | Statement::Delete { .. } => {
            write(alloc, space, catalog, statement, kind)
        }
        Statement::Select { .. } | Statement::Count { .. } => {
            read(alloc, space, catalog, statement, kind)
        }
    }
}
