//! Two children one behind the other, among those of a page.

ghost use Rattle.std.specs.Prelude.{◌≡◌, ◌⊎◌, ◌+◌, ◌<◌, [], drop, None, length, IfOk, IfSome};
ghost use Rattle.spe_model.specs.Tree.{rank};
ghost use Rattle.spe_cut.specs.Run.{with_run};
ghost use Rattle.spe_insert.specs.Place.{place_for};
ghost use Rattle.spe_insert.specs.Run.{run_of};
ghost use Rattle.spe_delete.specs.Join.{two_pages};
ghost use Rattle.spe_mend.specs.Filled.{FilledBeside};
ghost use Rattle.spe_mend.specs.Mended.{PairBecomesRun, PairOfRun};
ghost use Rattle.spe_mend.specs.Stretch.{PairHasChild, PairStands, first_two, pair_place};

use spe_cut::{root_law, stretch_law};
use spe_insert::{Run, place_of, with_children};
use spe_model::{Cell, Cells};
use std::alloc::AllocError;

/// Two children of an interior page, one behind the other.
#[derive(Debug, Drop)]
pub struct Pair {
    /// The number of the cell between them, from 0.
    pub place: usize,
    pub first: u32,
    /// The rowid that parts them.
    pub key: i64,
    pub second: u32,
}

/// The child of an interior page in which a rowid belongs, and its neighbour: the next one, where there is
/// one, else the one before. `None` where the page has no cell.
pub fn pair_at(cells: &[Cell], right: u32, rowid: i64) -> Option<Pair>
    ensures within { IfSome result (λ pair. pair.place < length cells.now) }
    ensures pair { IfSome result (λ pair. two_pages pair.key pair.first pair.second ≡ first_two (drop pair.place cells.now) right) }
    ensures near { IfSome result (λ pair. (pair.place ≡ place_for (rank rowid) cells.now) ⊎ (pair.place + 1 ≡ place_for (rank rowid) cells.now)) }
    ensures none { result ≡ None → cells.now ≡ [] }
{
    if cells.is_empty() {
        return None;
    }
    let place = place_of(cells, rowid).min(cells.len() - 1);
    let (_, rest) = cells.split_at(place);
    match rest {
        [] => None,
        [cell] => Some(Pair {
            place,
            first: cell.left,
            key: cell.key,
            second: right,
        }),
        [cell, next, ..] => Some(Pair {
            place,
            first: cell.left,
            key: cell.key,
            second: next.left,
        }),
    }
}

/// The children of an interior page with a run in the place of the two on both sides of a cell.
pub fn with_pair(children: Run, place: usize, run: Run) -> Result<Run, AllocError>
    requires { place < length children.cells }
    ensures { IfOk result (λ all. run_of all ≡ with_run (pair_place place (run_of children)) (run_of run)) }
{
    let Run { cells, right } = children;
    let mut cells = cells.into_vec();
    let _cell = cells.remove(place);
    let others = Run {
        cells: Cells::new(cells),
        right,
    };
    with_children(others, place, run)
}

/// Two children stand at their place among all children, and are a run there. Where they become another
/// run with the same rows, so do all children with it; and each interior page below has a cell where each
/// of that run and each of the others has. The child in which a rowid belongs is one of two that `pair_at`
/// finds.
pub fn pair_law()
    ensures stands { PairStands }
    ensures pair { PairOfRun }
    ensures becomes { PairBecomesRun }
    ensures filled { FilledBeside }
    ensures child { PairHasChild }
{
    root_law();
    stretch_law();
}
