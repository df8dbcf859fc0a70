//! A row that is put into the tree below a page.

ghost use Rattle.std.specs.Prelude.{◌≡◌, ◌≤◌, false, None, length, IfOk, IfSome};
ghost use Rattle.spe_model.specs.Standing.{all_pages};
ghost use Rattle.spe_space.specs.Calls.{Keeps, Reads, RefusesTree, sight};
ghost use Rattle.spe_frame.specs.Held.{Spares};
ghost use Rattle.spe_write.specs.Chain.{IsLikelyOfTree};
ghost use Rattle.spe_insert.specs.Below.{Becomes, IsShort, IsThere, WhereTree, pages_for};
ghost use Rattle.spe_insert.specs.Edit.{puts};
ghost use Rattle.spe_insert.specs.Run.{run_of};

use crate::down::look;
use crate::law::below_law;
use crate::leaf_step::put_in_leaf;
use crate::run::Run;
use crate::run_step::put_run;
use spe_search::Step;
use spe_space::{PageSpace, TreeFault};
use std::alloc::Global;

/// Puts a row into the tree under the page `page`, at most `levels` levels deep, and answers the run
/// that the tree has become: one page where all fits, else `page` and new ones. `None`, and nothing is
/// put, where the tree has a row with the rowid.
///
/// A page is got on the way down, and once more where its child became several; each page that changes
/// is put once. `buf` is one page long and is written over. Corrupt names a page that is no legal page
/// of a table or that lies too deep. It fails as `get`, `alloc` and `put` do.
pub(crate) fn put_below<S: PageSpace>(
    alloc: Global,
    space: &mut S,
    page: u32,
    levels: u32,
    rowid: i64,
    payload: &[u8],
    buf: &mut [u8],
) -> Result<Option<Run>, TreeFault>
    requires size { length buf.old ≡ S.Pages.size space.old }
    requires refusal { S.Pages.refusal space.old ≡ None }
    requires most { length payload.now ≤ 2147483647 }
    ensures put { IfOk result (λ put. IfSome put (λ run. WhereTree S.Pages space.old space.new levels page rowid (λ pages height low high.
        Becomes S.Pages space.old space.new pages height low high page rowid (puts payload.now) (run_of run)))) }
    ensures short { IfOk result (λ put. IfSome put (λ run. IsShort (S.Pages.used space.old) (run_of run))) }
    ensures there { IfOk result (λ put. put ≡ None → WhereTree S.Pages space.old space.new levels page rowid (λ pages height low high.
        IsThere S.Pages space.old space.new pages height page rowid)) }
    ensures idle { IfOk result (λ put. put ≡ None → Reads S.Pages space.old space.new) }
    ensures spares { WhereTree S.Pages space.old space.new levels page rowid (λ pages height low high.
        Spares S.Pages space.old space.new pages
        (all_pages (S.Pages.used space.old) (sight S.Pages space.old pages) height page)
        (pages_for (S.Pages.used space.old) height (length payload.now))) }
    ensures likely { WhereTree S.Pages space.old space.new levels page rowid (λ pages height low high.
        S.Pages.sealed space.old ≡ false → IsLikelyOfTree S.Pages space.new pages result) }
    ensures kept { Keeps S.Pages space.old space.new }
    ensures refusal { RefusesTree S.Pages space.old space.new result }
{
    below_law(space);
    if levels == 0 {
        return Err(TreeFault::Corrupt { page });
    }
    match look(alloc, space, page, rowid, buf) {
        Ok(Step::Missing) => match put_in_leaf(alloc, space, page, rowid, payload, buf) {
            Ok(run) => Ok(Some(run)),
            Err(fault) => Err(fault),
        },
        Ok(Step::Row(_)) => Ok(None),
        Ok(Step::Child(child)) => match put_below(
            alloc,
            space,
            child,
            levels - 1,
            rowid,
            payload,
            buf,
        ) {
            Ok(Some(run)) => match put_run(alloc, space, page, rowid, run, buf) {
                Ok(all) => Ok(Some(all)),
                Err(fault) => Err(fault),
            },
            Ok(None) => Ok(None),
            Err(fault) => Err(fault),
        },
        Err(fault) => Err(fault),
    }
}
