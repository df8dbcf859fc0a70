//! Trunks that are read and put.

ghost use Rattle.std.specs.Prelude.{◌≡◌, ◌≢◌, ◌+◌, ◌*◌, ◌<◌, ◌≤◌, ℕ, false, drop, length, IsSome, IsTrue, IfErr, IfOk, OnErr, OnOk};
ghost use Rattle.spe_model.specs.Big.{u32_at};
ghost use Rattle.spe_model.specs.FreeList.{leaf_count};
ghost use Rattle.spe_model.specs.Paging.{Agrees, Paging};
ghost use Rattle.spe_space.specs.Calls.{Keeps, Reads, RefusesTree, sight};
ghost use Rattle.spe_space.specs.Outcome.{Fits, FitsGet, FitsPut, refusal_after};
ghost use Rattle.spe_freelist.specs.Steps.{OnFault, PutsTrunk};
ghost use Rattle.spe_freelist.specs.Trunk.{leaves_at, most_leaves};

use crate::trunk::make_trunk;
use spe_model::u32_of;
use spe_space::{Pages, SpaceFault, TreeFault};

/// Copies a trunk into `page`, and answers how many leaves it has. Corrupt names the trunk, where they are
/// more than it has room for.
pub(crate) fn see_trunk<S: Pages>(
    space: &mut S,
    trunk: u32,
    page: &mut [u8],
) -> Result<u32, TreeFault>
    requires { length page.old ≡ S.Pages.size space.old }
    ensures bytes { OnOk result ((pages : Paging) → Agrees pages (S.Pages.seen space.new)
        → page.new ≡ sight S.Pages space.old pages trunk) }
    ensures count { IfOk result (λ count. (count ≡ u32_at page.new 4) × (count ≤ most_leaves (S.Pages.used space.old))) }
    ensures len { length page.new ≡ length page.old }
    ensures used { OnOk result (480 ≤ S.Pages.used space.old) }
    ensures only { (n : ℕ) → n ≢ trunk → S.Pages.seen space.new n ≡ S.Pages.seen space.old n }
    ensures known { (n : ℕ) → IsSome (S.Pages.laid space.old n) → S.Pages.seen space.new n ≡ S.Pages.seen space.old n }
    ensures kept { Reads S.Pages space.old space.new }
    ensures alone { S.Pages.shared space.old ≡ false
        → (S.Pages.count space.new ≡ S.Pages.count space.old) × (S.Pages.shared space.new ≡ false) }
    ensures refusal { RefusesTree S.Pages space.old space.new result }
    ensures fault { IfErr result (OnFault (FitsGet (S.Pages.count space.new) trunk)
        (λ at. (at ≡ trunk) × ((pages : Paging) → Agrees pages (S.Pages.seen space.new)
        → most_leaves (S.Pages.used space.old) < leaf_count (sight S.Pages space.old pages) trunk))) }
    ensures admitted { IfErr result (OnFault (λ fault. IsTrue (S.Pages.admits fault)) (λ at. Unit {0})) }
{
    match space.get(trunk, page) {
        Ok(()) => (),
        Err(fault) => return Err(TreeFault::Space(fault)),
    }
    let count = u32_of(page, 4);
    if count > space.usable() / 4 - 2 {
        return Err(TreeFault::Corrupt { page: trunk });
    }
    Ok(count)
}

/// Puts a trunk with the first `count` leaves that `page` names and this next trunk. `page` has its reserved
/// bytes, and is then what was put.
pub(crate) fn lay_trunk<S: Pages>(
    space: &mut S,
    trunk: u32,
    next: u32,
    count: u32,
    page: &mut [u8],
) -> Result<(), SpaceFault>
    requires size { length page.old ≡ S.Pages.size space.old }
    requires room { count ≤ most_leaves (S.Pages.used space.old) }
    ensures put { OnOk result (PutsTrunk S.Pages space.old space.new trunk next
        (leaves_at page.old count) (drop (S.Pages.used space.old) page.old)) }
    ensures err { OnErr result ((n : ℕ) → S.Pages.laid space.new n ≡ S.Pages.laid space.old n) }
    ensures len { length page.new ≡ length page.old }
    ensures seen { S.Pages.seen space.new ≡ S.Pages.seen space.old }
    ensures kept { Keeps S.Pages space.old space.new }
    ensures alone { S.Pages.shared space.old ≡ false
        → (S.Pages.count space.new ≡ S.Pages.count space.old) × (S.Pages.shared space.new ≡ false) }
    ensures refusal { S.Pages.refusal space.new ≡ refusal_after result (S.Pages.refusal space.old) }
    ensures open { OnOk result (S.Pages.sealed space.old ≡ false) }
    ensures fault { IfErr result (Fits (S.Pages.sealed space.old) (S.Pages.count space.new)
        (FitsPut (S.Pages.count space.new) trunk)) }
    ensures admitted { IfErr result (λ fault. IsTrue (S.Pages.admits fault)) }
{
    make_trunk(page, space.usable(), next, count);
    match space.put(trunk, page) {
        Ok(()) => Ok(()),
        Err(fault) => Err(fault),
    }
}
