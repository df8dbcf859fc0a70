//! Runs of children.

ghost use Rattle.std.specs.Prelude.{◌≡◌, ◌∷◌, [], length, IfOk};
ghost use Rattle.spe_model.specs.Page.{ascends};
ghost use Rattle.spe_cut.specs.Leaf.{last_key};
ghost use Rattle.spe_cut.specs.Run.{alone, separator};
ghost use Rattle.spe_insert.specs.Run.{run_of, with_first};

use spe_model::{Bytes, Cell, Cells};
use std::alloc::{AllocError, Global};

/// Children of an interior page that stand at one place.
#[derive(Debug, Drop)]
pub struct Run {
    /// A cell for each child but the last.
    pub cells: Cells,
    /// The last child.
    pub right: u32,
}

/// One child alone.
pub fn one_child(alloc: Global, page: u32) -> Run
    ensures { run_of result ≡ alone page }
{
    Run {
        cells: Cells::new(Vec::new(alloc)),
        right: page,
    }
}

/// The run behind one child more, whose rowids are at most `key`.
pub fn run_behind(alloc: Global, key: i64, page: u32, run: Run) -> Result<Run, AllocError>
    ensures { IfOk result (λ all. run_of all ≡ with_first (separator key page) (run_of run)) }
{
    let Run { cells, right } = run;
    let mut cells = cells.into_vec();
    cells.insert(
        0,
        Cell {
            left: page,
            key,
            payload: 0,
            local: Bytes::new(Vec::new(alloc)),
            chain: 0,
        },
    )?;
    Ok(Run {
        cells: Cells::new(cells),
        right,
    })
}

/// The rowid of the last cell, or 0 where there is none.
pub fn last_key_of(cells: &[Cell]) -> i64
    ensures { result ≡ last_key cells.now }
{
    let mut key = 0;
    let mut left = cells;
    while let [cell, rest @ ..] = left {
        key = cell.key;
        left = rest;
    }
    key
}

/// Whether the rowids of cells ascend.
pub fn ascends_in(cells: &[Cell]) -> bool
    ensures { result ≡ ascends cells.now }
{
    let [first, rest @ ..] = cells else {
        return true;
    };
    let mut key = first.key;
    let mut left = rest;
    while let [cell, rest @ ..] = left {
        if cell.key <= key {
            return false;
        }
        key = cell.key;
        left = rest;
    }
    true
}
