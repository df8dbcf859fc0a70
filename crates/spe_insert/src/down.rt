//! A page that is looked at on the way down.

ghost use Rattle.std.specs.Prelude.{◌≡◌, ◌≤◌, ℕ, ◌∷◌, [], length, OnOk};
ghost use Rattle.spe_model.specs.Paging.{Agrees, Paging};
ghost use Rattle.spe_model.specs.Tree.{IsTree};
ghost use Rattle.spe_space.specs.Calls.{Reads, RefusesTree, sight};
ghost use Rattle.spe_frame.specs.Held.{Shifts, WhereHeld};
ghost use Rattle.spe_search.specs.Found.{GivesStep};
ghost use Rattle.spe_write.specs.Chain.{IsLikelyOfTree};
ghost use Rattle.spe_insert.specs.Below.{IsPage};

use crate::node::header_of;
use spe_frame::see_page;
use spe_search::{Flaw, Step, step_in};
use spe_space::{Pages, SpaceFault, TreeFault};
use std::alloc::Global;

/// Copies a page that is held into `buf`, and says where it leads on the way to a rowid. Corrupt names
/// the page, where it is no legal page of a table. It fails as `get` does.
pub fn look<S: Pages>(
    alloc: Global,
    space: &mut S,
    page: u32,
    rowid: i64,
    buf: &mut [u8],
) -> Result<Step, TreeFault>
    requires { length buf.old ≡ S.Pages.size space.old }
    ensures given { GivesStep S.Pages space.old space.new page rowid result }
    ensures bytes { OnOk result ((pages : Paging) → Agrees pages (S.Pages.seen space.new)
        → IsPage S.Pages space.old pages page buf.new) }
    ensures wide { OnOk result (480 ≤ S.Pages.used space.old) }
    ensures inside { OnOk result (S.Pages.used space.old ≤ length buf.new) }
    ensures shifts { WhereHeld S.Pages space.old space.new (page ∷ []) (λ pages.
        Shifts S.Pages space.old space.new pages (page ∷ []) (page ∷ []) 0) }
    ensures likely { WhereHeld S.Pages space.old space.new (page ∷ []) (λ pages. (height low high : ℕ)
        → IsTree (S.Pages.used space.old) (sight S.Pages space.old pages) height low high page
        → IsLikelyOfTree S.Pages space.new pages result) }
    ensures reads { Reads S.Pages space.old space.new }
    ensures refusal { RefusesTree S.Pages space.old space.new result }
{
    match see_page(space, page, buf) {
        Ok(()) => (),
        Err(fault) => return Err(TreeFault::Space(fault)),
    }
    let usable = space.usable() as usize;
    match step_in(alloc, buf, header_of(page), usable, rowid) {
        Ok(step) => Ok(step),
        Err(Flaw::Broken) => Err(TreeFault::Corrupt { page }),
        Err(Flaw::Memory) => Err(TreeFault::Space(SpaceFault::Memory)),
    }
}
