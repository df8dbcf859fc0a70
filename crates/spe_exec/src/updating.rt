//! Rows of an open table that an UPDATE changes.

ghost use Rattle.std.specs.Prelude.{◌≡◌, None, true, length};
ghost use Rattle.spe_model.specs.Rows.{written};
ghost use Rattle.spe_model.specs.Statement.{conds_of, is_update};
ghost use Rattle.spe_space.specs.Calls.{Keeps, RefusesTree};
ghost use Rattle.spe_slow.specs.Answers.{rows_answer};
ghost use Rattle.spe_exec.specs.Inserts.{IsIdle, WhereTable};
ghost use Rattle.spe_exec.specs.Updates.{CarriesRows, pages_of_written};

use crate::changing::{Changes, change_rows};
use crate::chosen::chosen_pairs;
use spe_frame::shifts_law;
use spe_model::{Cond, Entry, Refusal, Reply, Statement};
use spe_modify::{StoredRow, replace_rows};
use spe_served::table_law;
use spe_slow::by_column;
use spe_space::{PageSpace, SpaceFault, TreeFault};
use std::alloc::{AllocError, Global};

// How many rows these are.
fn count_of(stored: &[StoredRow]) -> u64
    ensures { result ≡ length stored.now }
{
    stored.len() as u64
}

/// Carries out an UPDATE with these conditions on an open table, which does not refuse it whatever its rows
/// are. All rows that it changes are read, and their records made, before the first is put.
pub fn update<S: PageSpace>(
    alloc: Global,
    space: &mut S,
    entry: &Entry,
    statement: &Statement,
    conds: &[Cond],
) -> Result<Reply, TreeFault>
    requires update { is_update statement.now ≡ true }
    requires conds { conds.now ≡ conds_of statement.now }
    requires refusal { S.Pages.refusal space.old ≡ None }
    ensures carries { WhereTable S.Pages space.old space.new entry.now (λ pages t.
        CarriesRows S.Pages space.old space.new pages t (pages_of_written (S.Pages.used space.old) t.entry.table (written t.entry.table t.rows statement.now)) (rows_answer t.entry.table t.rows statement.now) result) }
    ensures idle { IsIdle S.Pages space.old space.new result }
    ensures kept { Keeps S.Pages space.old space.new }
    ensures refusal { RefusesTree S.Pages space.old space.new result }
{
    table_law(space);
    shifts_law(space);
    let given = by_column(alloc, &entry.table, statement)?;
    let pairs = match chosen_pairs(alloc, space, entry.root, conds) {
        Ok(pairs) => pairs,
        Err(fault) => return Err(fault),
    };
    let stored = match change_rows(alloc, &entry.table, given.as_slice(), pairs.as_slice()) {
        Ok(Changes::Records(stored)) => stored,
        Ok(Changes::Long) => return Ok(Reply::Refused(Refusal::TooLarge)),
        Ok(Changes::Damage(leaf)) => return Err(TreeFault::Corrupt { page: leaf }),
        Err(AllocError) => return Err(TreeFault::Space(SpaceFault::Memory)),
    };
    match replace_rows(alloc, space, entry.root, stored.as_slice()) {
        Ok(()) => Ok(Reply::Changed(count_of(stored.as_slice()))),
        Err(fault) => Err(fault),
    }
}
