//! A row that is taken out of the tree below a page.

ghost use Rattle.std.specs.Prelude.{◌≡◌, true, false, None, length, IfOk, IfSome};
ghost use Rattle.spe_model.specs.Standing.{all_pages};
ghost use Rattle.spe_space.specs.Calls.{Keeps, Reads, RefusesTree, sight};
ghost use Rattle.spe_frame.specs.Held.{Spares};
ghost use Rattle.spe_write.specs.Chain.{IsLikelyOfTree};
ghost use Rattle.spe_insert.specs.Below.{WhereTree};
ghost use Rattle.spe_delete.specs.Leaf.{IsAbsent};
ghost use Rattle.spe_delete.specs.Below.{IsBare, TakesRow};

use crate::leaf::drop_cell;
use crate::leaf_end::drop_leaf;
use spe_cut::gone_law;
use spe_insert::{below_law, look};
use spe_search::Step;
use spe_space::{PageSpace, TreeFault};
use std::alloc::Global;

/// Takes the row with a rowid out of the tree under the page `page`, at most `levels` levels deep, and
/// answers whether the page is a leaf that has no cell then. `None`, and nothing is put, where the tree
/// has no such row.
///
/// A page is got on the way down, and once more where the leaf below it has no cell: then the leaf goes,
/// unless the page has two children alone. `buf` is one page long and is written over. Corrupt names a
/// page that is no legal page of a table or that lies too deep, or a page of a chain that ends wrong. It
/// fails as `get`, `put` and `free` do.
pub(crate) fn take_below<S: PageSpace>(
    alloc: Global,
    space: &mut S,
    page: u32,
    levels: u32,
    rowid: i64,
    buf: &mut [u8],
) -> Result<Option<bool>, TreeFault>
    requires size { length buf.old ≡ S.Pages.size space.old }
    requires refusal { S.Pages.refusal space.old ≡ None }
    ensures taken { IfOk result (λ left. IfSome left (λ bare. WhereTree S.Pages space.old space.new levels page rowid (λ pages height low high.
        TakesRow S.Pages space.old space.new pages height low high page rowid))) }
    ensures bare { IfOk result (λ left. IfSome left (λ bare. bare ≡ true → WhereTree S.Pages space.old space.new levels page rowid (λ pages height low high.
        IsBare S.Pages space.old space.new pages height page))) }
    ensures absent { IfOk result (λ left. left ≡ None → WhereTree S.Pages space.old space.new levels page rowid (λ pages height low high.
        IsAbsent S.Pages space.old space.new pages height page rowid)) }
    ensures idle { IfOk result (λ left. left ≡ None → Reads S.Pages space.old space.new) }
    ensures spares { WhereTree S.Pages space.old space.new levels page rowid (λ pages height low high.
        Spares S.Pages space.old space.new pages
        (all_pages (S.Pages.used space.old) (sight S.Pages space.old pages) height page) 0) }
    ensures likely { WhereTree S.Pages space.old space.new levels page rowid (λ pages height low high.
        S.Pages.sealed space.old ≡ false → IsLikelyOfTree S.Pages space.new pages result) }
    ensures kept { Keeps S.Pages space.old space.new }
    ensures refusal { RefusesTree S.Pages space.old space.new result }
{
    below_law(space);
    gone_law();
    if levels == 0 {
        return Err(TreeFault::Corrupt { page });
    }
    match look(alloc, space, page, rowid, buf) {
        Ok(Step::Missing) => Ok(None),
        Ok(Step::Row(_)) => match drop_cell(alloc, space, page, rowid, buf) {
            Ok(Some(cells)) => Ok(Some(cells.as_slice().is_empty())),
            Ok(None) => Ok(None),
            Err(fault) => Err(fault),
        },
        Ok(Step::Child(child)) => match take_below(alloc, space, child, levels - 1, rowid, buf) {
            Ok(Some(true)) => match drop_leaf(alloc, space, page, child, rowid, buf) {
                Ok(Some(_)) => Ok(Some(false)),
                Ok(None) => Ok(Some(false)),
                Err(fault) => Err(fault),
            },
            Ok(Some(false)) => Ok(Some(false)),
            Ok(None) => Ok(None),
            Err(fault) => Err(fault),
        },
        Err(fault) => Err(fault),
    }
}
