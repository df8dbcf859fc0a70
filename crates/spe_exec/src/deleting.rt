//! Rows of an open table that a DELETE takes out.

ghost use Rattle.std.specs.Prelude.{◌≡◌, None, IfOk, length};
ghost use Rattle.std.specs.Option.{option_map};
ghost use Rattle.spe_space.specs.Calls.{Keeps, RefusesTree};
ghost use Rattle.spe_search.specs.Pairs.{pair_seen};
ghost use Rattle.spe_exec.specs.Deletes.{AreRowids, deleted_by};
ghost use Rattle.spe_exec.specs.Inserts.{IsIdle, WhereTable};
ghost use Rattle.spe_exec.specs.Rows.{values_in};
ghost use Rattle.spe_exec.specs.Updates.{CarriesRows};
ghost use Rattle.spe_exec.specs.declared.deleting.Rowids.TheVariants.{Damage};

use crate::chosen::chosen_pairs;
use crate::rows::values_in;
use spe_frame::shifts_law;
use spe_model::{Cond, Entry, Reply, TableDef};
use spe_modify::remove_rows;
use spe_search::Pair;
use spe_served::table_law;
use spe_space::{PageSpace, SpaceFault, TreeFault};
use std::alloc::{AllocError, Global};

/// The rowids of stored rows.
#[derive(Debug, Drop)]
pub enum Rowids {
    /// Each row is one of the table, and these are their rowids.
    Sound(Vec<i64>),
    /// The leaf of a row whose record is damaged, or has more fields than the table has columns.
    Damage(u32),
}

// The rowid of a stored row that is one of the table.
fn rowid_of(alloc: Global, table: &TableDef, pair: &Pair) -> Result<Option<i64>, AllocError>
    ensures { IfOk result (λ found. found ≡ option_map (λ _. pair.now.rowid) (values_in table.now (pair_seen pair.now))) }
{
    match values_in(alloc, table, pair)? {
        Some(_) => Ok(Some(pair.rowid)),
        None => Ok(None),
    }
}

fn damage_at(pair: &Pair) -> Rowids
    ensures { result ≡ Damage pair.now.leaf }
{
    Rowids::Damage(pair.leaf)
}

/// The rowids of stored rows, where each is a row of the table.
pub fn rowids_of(alloc: Global, table: &TableDef, pairs: &[Pair]) -> Result<Rowids, AllocError>
    ensures { IfOk result (AreRowids table.now pairs.now) }
{
    let mut made = Vec::new(alloc);
    let mut left = pairs;
    while let [pair, rest @ ..] = left {
        match rowid_of(alloc, table, pair)? {
            Some(rowid) => made.push(rowid)?,
            None => return Ok(damage_at(pair)),
        }
        left = rest;
    }
    Ok(Rowids::Sound(made))
}

// How many these are.
fn count_of(rowids: &[i64]) -> u64
    ensures { result ≡ length rowids.now }
{
    rowids.len() as u64
}

/// Carries out a DELETE with these conditions on an open table, which does not refuse it. All rows that it
/// takes out are read before the first is taken.
pub fn delete<S: PageSpace>(
    alloc: Global,
    space: &mut S,
    entry: &Entry,
    conds: &[Cond],
) -> Result<Reply, TreeFault>
    requires refusal { S.Pages.refusal space.old ≡ None }
    ensures carries { WhereTable S.Pages space.old space.new entry.now (λ pages t.
        CarriesRows S.Pages space.old space.new pages t 0 (deleted_by conds.now t.rows) result) }
    ensures idle { IsIdle S.Pages space.old space.new result }
    ensures kept { Keeps S.Pages space.old space.new }
    ensures refusal { RefusesTree S.Pages space.old space.new result }
{
    table_law(space);
    shifts_law(space);
    let pairs = match chosen_pairs(alloc, space, entry.root, conds) {
        Ok(pairs) => pairs,
        Err(fault) => return Err(fault),
    };
    let rowids = match rowids_of(alloc, &entry.table, pairs.as_slice()) {
        Ok(Rowids::Sound(rowids)) => rowids,
        Ok(Rowids::Damage(leaf)) => return Err(TreeFault::Corrupt { page: leaf }),
        Err(AllocError) => return Err(TreeFault::Space(SpaceFault::Memory)),
    };
    match remove_rows(alloc, space, entry.root, rowids.as_slice()) {
        Ok(()) => Ok(Reply::Changed(count_of(rowids.as_slice()))),
        Err(fault) => Err(fault),
    }
}
