//! Places among the cells of a page.

ghost use Rattle.std.specs.Prelude.{◌≡◌, ◌≤◌, ◌++◌, take, drop, length, IfOk};
ghost use Rattle.spe_model.specs.Tree.{rank};
ghost use Rattle.spe_cut.specs.Run.{with_child, with_run};
ghost use Rattle.spe_insert.specs.Place.{place_at, place_for};
ghost use Rattle.spe_insert.specs.Run.{run_of};

use crate::run::Run;
use spe_model::{Cell, Cells};
use std::alloc::AllocError;

// A rowid as a number from 0 that sorts as it does.
fn rank_of(rowid: i64) -> u64
    ensures { result ≡ rank rowid }
{
    rowid.abs_diff(i64::MIN)
}

/// How many cells stand before the first whose rowid is not below this one.
pub fn place_of(cells: &[Cell], rowid: i64) -> usize
    ensures place { result ≡ place_for (rank rowid) cells.now }
    ensures within { result ≤ length cells.now }
{
    let key = rank_of(rowid);
    let mut place = 0;
    let mut left = cells;
    while let [cell, rest @ ..] = left {
        if rank_of(cell.key) >= key {
            return place;
        }
        place += 1;
        left = rest;
    }
    place
}

// The cells with others before the one at a place.
fn put_cells(cells: Vec<Cell>, place: usize, new: Vec<Cell>) -> Result<Vec<Cell>, AllocError>
    requires { place ≤ length cells.items }
    ensures { IfOk result (λ all. all.items ≡ take place cells.items ++ (new.items ++ drop place cells.items)) }
{
    let mut all = cells;
    let mut left = new;
    while let Some(cell) = left.pop() {
        all.insert(place, cell)?;
    }
    Ok(all)
}

/// The children with another at a place.
pub fn set_child(children: Run, place: usize, child: u32) -> Run
    requires { place ≤ length children.cells }
    ensures child { run_of result ≡ with_child (place_at place (run_of children)) child }
    ensures within { place ≤ length result.cells }
{
    let Run { cells, right } = children;
    let mut cells = cells.into_vec();
    if place == cells.len() {
        return Run {
            cells: Cells::new(cells),
            right: child,
        };
    }
    cells[place].left = child;
    Run {
        cells: Cells::new(cells),
        right,
    }
}

/// The children of an interior page with a run in the place of one of them. The last child of the run
/// takes the cell of the one before.
pub fn with_children(children: Run, place: usize, run: Run) -> Result<Run, AllocError>
    requires { place ≤ length children.cells }
    ensures { IfOk result (λ all. run_of all ≡ with_run (place_at place (run_of children)) (run_of run)) }
{
    let Run { cells: new, right } = run;
    let Run { cells, right } = set_child(children, place, right);
    let cells = put_cells(cells.into_vec(), place, new.into_vec())?;
    Ok(Run {
        cells: Cells::new(cells),
        right,
    })
}
