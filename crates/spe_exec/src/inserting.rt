//! A row that an INSERT puts into an open table.

ghost use Rattle.std.specs.Prelude.{◌≡◌, ◌≤◌, ℕ, List, None, IfOk, false, true, length};
ghost use Rattle.spe_model.specs.Statement.{is_insert};
ghost use Rattle.spe_model.specs.Rows.{next_rowid};
ghost use Rattle.spe_model.specs.Standing.{IsTableRow};
ghost use Rattle.spe_model.specs.declared.value.Value.{Value};
ghost use Rattle.spe_space.specs.Calls.{Keeps, Reads, RefusesTree};
ghost use Rattle.spe_slow.specs.Answers.{inserted_at, is_taken, rows_answer};
ghost use Rattle.spe_exec.specs.Inserts.{Carries, IsIdle, IsRecordOrNone, WhereTable, given_at, length_at, long_refusal, next_at, put_in, record_size, refused_long};

use spe_frame::shifts_law;
use spe_model::{Bytes, Entry, Refusal, Reply, Statement, TableDef};
use spe_modify::insert_row;
use spe_record::encode;
use spe_search::{find, largest};
use spe_served::table_law;
use spe_slow::{given_rowid, is_too_long, new_values, rowid_after};
use spe_space::{PageSpace, SpaceFault, TreeFault};
use std::alloc::{AllocError, Global};

// The record of a new row with this rowid, or none where it would be longer than any may be.
fn new_record(
    alloc: Global,
    table: &TableDef,
    statement: &Statement,
    rowid: i64,
) -> Result<Option<Bytes>, AllocError>
    ensures { IfOk result (IsRecordOrNone table.now statement.now rowid) }
{
    let values = new_values(alloc, table, statement, rowid)?;
    if is_too_long(table, &values) {
        return Ok(None);
    }
    Ok(Some(encode(alloc, &values, table.alias)?))
}

// Puts in a row with this rowid and record, unless the rowid is there.
fn put<S: PageSpace>(
    alloc: Global,
    space: &mut S,
    entry: &Entry,
    rowid: i64,
    bytes: &[u8],
) -> Result<Reply, TreeFault>
    requires refusal { S.Pages.refusal space.old ≡ None }
    requires most { length bytes.now ≤ 1000000 }
    ensures carries { WhereTable S.Pages space.old space.new entry.now (λ pages t. (values : List Value)
        → IsTableRow t.entry.table (rowid, bytes.now) (rowid, values)
        → Carries S.Pages space.old space.new pages t (length bytes.now) (put_in t.rows (rowid, values)) result) }
    ensures idle { IsIdle S.Pages space.old space.new result }
    ensures kept { Keeps S.Pages space.old space.new }
    ensures refusal { RefusesTree S.Pages space.old space.new result }
{
    match insert_row(alloc, space, entry.root, rowid, bytes) {
        Ok(true) => Ok(Reply::Inserted(rowid)),
        Ok(false) => Ok(Reply::Refused(Refusal::RowidTaken)),
        Err(fault) => Err(fault),
    }
}

// Why a row with too long a record is refused, by whether its rowid is there.
fn long_refusal(is_there: bool) -> Refusal
    ensures { result ≡ long_refusal is_there }
{
    if is_there {
        Refusal::RowidTaken
    } else {
        Refusal::TooLarge
    }
}

// Refuses a row whose record is too long: where the rowid is there, for that.
fn refuse_long<S: PageSpace>(
    alloc: Global,
    space: &mut S,
    entry: &Entry,
    rowid: i64,
) -> Result<Reply, TreeFault>
    requires refusal { S.Pages.refusal space.old ≡ None }
    ensures carries { WhereTable S.Pages space.old space.new entry.now (λ pages t. (size : ℕ)
        → Carries S.Pages space.old space.new pages t size (refused_long t.rows rowid) result) }
    ensures kept { Reads S.Pages space.old space.new }
    ensures refusal { RefusesTree S.Pages space.old space.new result }
{
    table_law(space);
    shifts_law(space);
    match find(alloc, space, entry.root, rowid) {
        Ok(found) => Ok(Reply::Refused(long_refusal(found.is_some()))),
        Err(fault) => Err(fault),
    }
}

// Carries out an INSERT that gives this rowid.
fn insert_at<S: PageSpace>(
    alloc: Global,
    space: &mut S,
    entry: &Entry,
    statement: &Statement,
    rowid: i64,
) -> Result<Reply, TreeFault>
    requires refusal { S.Pages.refusal space.old ≡ None }
    ensures carries { WhereTable S.Pages space.old space.new entry.now (λ pages t.
        Carries S.Pages space.old space.new pages t (length_at t.entry.table statement.now rowid) (given_at t.entry.table t.rows statement.now rowid) result) }
    ensures idle { IsIdle S.Pages space.old space.new result }
    ensures kept { Keeps S.Pages space.old space.new }
    ensures refusal { RefusesTree S.Pages space.old space.new result }
{
    shifts_law(space);
    match new_record(alloc, &entry.table, statement, rowid) {
        Ok(Some(record)) => put(alloc, space, entry, rowid, record.as_slice()),
        Ok(None) => refuse_long(alloc, space, entry, rowid),
        Err(AllocError) => Err(TreeFault::Space(SpaceFault::Memory)),
    }
}

// Carries out an INSERT whose new row gets this rowid, which no row has.
fn insert_new<S: PageSpace>(
    alloc: Global,
    space: &mut S,
    entry: &Entry,
    statement: &Statement,
    rowid: i64,
) -> Result<Reply, TreeFault>
    requires refusal { S.Pages.refusal space.old ≡ None }
    ensures carries { WhereTable S.Pages space.old space.new entry.now (λ pages t. is_taken t.rows rowid ≡ false
        → Carries S.Pages space.old space.new pages t (length_at t.entry.table statement.now rowid) (inserted_at t.entry.table t.rows statement.now rowid) result) }
    ensures idle { IsIdle S.Pages space.old space.new result }
    ensures kept { Keeps S.Pages space.old space.new }
    ensures refusal { RefusesTree S.Pages space.old space.new result }
{
    shifts_law(space);
    match new_record(alloc, &entry.table, statement, rowid) {
        Ok(Some(record)) => put(alloc, space, entry, rowid, record.as_slice()),
        Ok(None) => Ok(Reply::Refused(Refusal::TooLarge)),
        Err(AllocError) => Err(TreeFault::Space(SpaceFault::Memory)),
    }
}

// Carries out an INSERT that gives no rowid: the new row gets the one after the largest.
fn insert_next<S: PageSpace>(
    alloc: Global,
    space: &mut S,
    entry: &Entry,
    statement: &Statement,
) -> Result<Reply, TreeFault>
    requires refusal { S.Pages.refusal space.old ≡ None }
    ensures carries { WhereTable S.Pages space.old space.new entry.now (λ pages t.
        Carries S.Pages space.old space.new pages t (length_at t.entry.table statement.now (next_rowid t.rows)) (next_at t.entry.table t.rows statement.now) result) }
    ensures idle { IsIdle S.Pages space.old space.new result }
    ensures kept { Keeps S.Pages space.old space.new }
    ensures refusal { RefusesTree S.Pages space.old space.new result }
{
    table_law(space);
    shifts_law(space);
    let last = match largest(alloc, space, entry.root) {
        Ok(last) => last,
        Err(fault) => return Err(fault),
    };
    match rowid_after(last) {
        Ok(rowid) => insert_new(alloc, space, entry, statement, rowid),
        Err(refusal) => Ok(Reply::Refused(refusal)),
    }
}

/// Carries out an INSERT on an open table, which does not refuse it whatever its rows are.
pub fn insert<S: PageSpace>(
    alloc: Global,
    space: &mut S,
    entry: &Entry,
    statement: &Statement,
) -> Result<Reply, TreeFault>
    requires insert { is_insert statement.now ≡ true }
    requires refusal { S.Pages.refusal space.old ≡ None }
    ensures carries { WhereTable S.Pages space.old space.new entry.now (λ pages t.
        Carries S.Pages space.old space.new pages t (record_size t.entry.table t.rows statement.now) (rows_answer t.entry.table t.rows statement.now) result) }
    ensures idle { IsIdle S.Pages space.old space.new result }
    ensures kept { Keeps S.Pages space.old space.new }
    ensures refusal { RefusesTree S.Pages space.old space.new result }
{
    match given_rowid(&entry.table, statement) {
        Some(rowid) => insert_at(alloc, space, entry, statement, rowid),
        None => insert_next(alloc, space, entry, statement),
    }
}
