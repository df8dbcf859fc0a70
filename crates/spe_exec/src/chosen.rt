//! The stored rows that conditions choose.

ghost use Rattle.std.specs.Prelude.{◌≡◌, None};
ghost use Rattle.spe_space.specs.Calls.{Reads, RefusesTree};
ghost use Rattle.spe_search.specs.Found.{NamesDamage};
ghost use Rattle.spe_search.specs.Leaves.{TellsLeaves};
ghost use Rattle.spe_exec.specs.Run.{ReadsChosen};
ghost use Rattle.spe_exec.specs.Adds.{AddsChosen};
ghost use Rattle.spe_exec.specs.Misses.{MissesChosen};

use crate::bounds::bounds;
use spe_model::Cond;
use spe_search::{LeafPairs, range_with_leaves};
use spe_space::{Pages, TreeFault};
use std::alloc::Global;

/// The rows of the table whose tree has the page `root` as its root, as far as their rowids meet all
/// conditions, each with the leaf that it was read from. Only the pages are got between the least and
/// the greatest such rowid.
pub fn chosen_pairs<S: Pages>(
    alloc: Global,
    space: &mut S,
    root: u32,
    conds: &[Cond],
) -> Result<LeafPairs, TreeFault>
    requires { S.Pages.refusal space.old ≡ None }
    ensures found { ReadsChosen S.Pages space.old space.new root conds.now result }
    ensures leaves { TellsLeaves S.Pages space.old space.new root result }
    ensures damage { NamesDamage S.Pages space.old space.new root 20 result }
    ensures adds { AddsChosen S.Pages space.old space.new root conds.now }
    ensures page_out { MissesChosen S.Pages space.old space.new root conds.now result }
    ensures kept { Reads S.Pages space.old space.new }
    ensures refusal { RefusesTree S.Pages space.old space.new result }
{
    match bounds(conds) {
        Some(span) => range_with_leaves(alloc, space, root, span.low, span.high),
        None => Ok(LeafPairs::new(alloc)),
    }
}
