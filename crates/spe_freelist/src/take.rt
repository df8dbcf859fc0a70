//! A page is taken from a free list.

ghost use Rattle.std.specs.Prelude.{◌≡◌, ◌⊎◌, ◌+◌, ◌-◌, ◌*◌, ◌<◌, ◌≤◌, ◌≢◌, ℕ, None, drop, false, length, IfErr, IfOk, IsSome, IsTrue, OnErr, OnOk};
ghost use Rattle.spe_model.specs.Big.{u32_at};
ghost use Rattle.spe_model.specs.FreeList.{leaf_count, leaves_of, next_trunk};
ghost use Rattle.spe_model.specs.Paging.{Agrees, Paging};
ghost use Rattle.spe_space.specs.Calls.{Keeps, RefusesTree, sight};
ghost use Rattle.spe_space.specs.Free.{DifferAt};
ghost use Rattle.spe_space.specs.declared.fault.SpaceFault.TheVariants.{Memory};
ghost use Rattle.spe_space.specs.Front.{number_in};
ghost use Rattle.spe_space.specs.Outcome.{Fits, FitsGet, FitsPut};
ghost use Rattle.spe_freelist.specs.Steps.{Grows, GrowsNot, HasNone, IsDamaged, IsTrunkOf, LeavesAlone, OnFault, PutsTrunk, TakesNot, Took};
ghost use Rattle.spe_freelist.specs.Trunk.{leaves_at, most_leaves};

use crate::step::{lay_trunk, see_trunk};
use crate::trunk::{add_fifteen, put_reserved, reserved_of};
use spe_model::u32_of;
use spe_space::{Pages, TreeFault};
use std::alloc::Global;

// The last of so many leaves.
fn last_leaf(page: &[u8], usable: u32, count: u32) -> u32
    requires room { 8 + 4 * count ≤ usable }
    requires within { usable ≤ length page.now }
    ensures { result ≡ u32_at page.now (4 + 4 * count) }
{
    u32_of(page, (4 + 4 * count) as usize)
}

// Takes the last of the leaves of the first trunk, which is in `page`. Corrupt names the trunk, where that
// leaf is page 0.
fn take_leaf<S: Pages>(
    space: &mut S,
    first: u32,
    count: u32,
    page: &mut [u8],
) -> Result<u32, TreeFault>
    requires size { length page.old ≡ S.Pages.size space.old }
    requires some { 0 < count }
    requires room { count ≤ most_leaves (S.Pages.used space.old) }
    ensures leaf { IfOk result (λ leaf. leaf ≡ u32_at page.old (4 + 4 * count)) }
    ensures put { OnOk result (PutsTrunk S.Pages space.old space.new first (u32_at page.old 0)
        (leaves_at page.old (count - 1)) (drop (S.Pages.used space.old) page.old)) }
    ensures err { OnErr result ((n : ℕ) → S.Pages.laid space.new n ≡ S.Pages.laid space.old n) }
    ensures seen { S.Pages.seen space.new ≡ S.Pages.seen space.old }
    ensures kept { Keeps S.Pages space.old space.new }
    ensures alone { S.Pages.shared space.old ≡ false
        → (S.Pages.count space.new ≡ S.Pages.count space.old) × (S.Pages.shared space.new ≡ false) }
    ensures refusal { RefusesTree S.Pages space.old space.new result }
    ensures open { OnOk result (S.Pages.sealed space.old ≡ false) }
    ensures fault { IfErr result (OnFault
        (Fits (S.Pages.sealed space.old) (S.Pages.count space.new) (FitsPut (S.Pages.count space.new) first))
        (λ at. (at ≡ first) × (u32_at page.old (4 + 4 * count) ≡ 0))) }
    ensures admitted { IfErr result (OnFault (λ fault. IsTrue (S.Pages.admits fault)) (λ at. Unit {0})) }
{
    let leaf = last_leaf(page, space.usable(), count);
    if leaf == 0 {
        return Err(TreeFault::Corrupt { page: first });
    }
    let next = u32_of(page, 0);
    match lay_trunk(space, first, next, count - 1, page) {
        Ok(()) => Ok(leaf),
        Err(fault) => Err(TreeFault::Space(fault)),
    }
}

// Takes the trunk behind the first one, which is in `page` and gets its leaves. Corrupt names the trunk that is
// taken, where it has too many leaves.
fn take_trunk<S: Pages>(
    alloc: Global,
    space: &mut S,
    first: u32,
    trunk: u32,
    page: &mut [u8],
) -> Result<u32, TreeFault>
    requires { length page.old ≡ S.Pages.size space.old }
    ensures trunk { IfOk result (λ taken. taken ≡ trunk) }
    ensures put { OnOk result ((pages : Paging) → Agrees pages (S.Pages.seen space.new)
        → PutsTrunk S.Pages space.old space.new first (next_trunk (sight S.Pages space.old pages) trunk)
        (leaves_of (sight S.Pages space.old pages) trunk) (drop (S.Pages.used space.old) page.old)) }
    ensures room { OnOk result ((pages : Paging) → Agrees pages (S.Pages.seen space.new)
        → leaf_count (sight S.Pages space.old pages) trunk ≤ most_leaves (S.Pages.used space.old)) }
    ensures err { OnErr result ((n : ℕ) → S.Pages.laid space.new n ≡ S.Pages.laid space.old n) }
    ensures only { (n : ℕ) → n ≢ trunk → S.Pages.seen space.new n ≡ S.Pages.seen space.old n }
    ensures known { (n : ℕ) → IsSome (S.Pages.laid space.old n) → S.Pages.seen space.new n ≡ S.Pages.seen space.old n }
    ensures kept { Keeps S.Pages space.old space.new }
    ensures alone { S.Pages.shared space.old ≡ false
        → (S.Pages.count space.new ≡ S.Pages.count space.old) × (S.Pages.shared space.new ≡ false) }
    ensures refusal { RefusesTree S.Pages space.old space.new result }
    ensures open { OnOk result (S.Pages.sealed space.old ≡ false) }
    ensures fault { IfErr result (OnFault
        (λ fault. (fault ≡ Memory) ⊎ (FitsGet (S.Pages.count space.new) trunk fault
        ⊎ Fits (S.Pages.sealed space.old) (S.Pages.count space.new) (FitsPut (S.Pages.count space.new) first) fault))
        (λ at. (at ≡ trunk) × ((pages : Paging) → Agrees pages (S.Pages.seen space.new)
        → most_leaves (S.Pages.used space.old) < leaf_count (sight S.Pages space.old pages) trunk))) }
    ensures admitted { IfErr result (OnFault (λ fault. (fault ≡ Memory) ⊎ IsTrue (S.Pages.admits fault)) (λ at. Unit {0})) }
{
    let usable = space.usable();
    let reserved = reserved_of(alloc, page, usable)?;
    let count = see_trunk(space, trunk, page)?;
    let next = u32_of(page, 0);
    put_reserved(page, usable, reserved.as_slice());
    match lay_trunk(space, first, next, count, page) {
        Ok(()) => Ok(trunk),
        Err(fault) => Err(TreeFault::Space(fault)),
    }
}

// Adds sixteen pages and takes the first. The others become leaves of the first trunk, which is in `page`.
fn take_new<S: Pages>(space: &mut S, first: u32, page: &mut [u8]) -> Result<u32, TreeFault>
    requires { length page.old ≡ S.Pages.size space.old }
    ensures grown { IfOk result (λ added. (pages : Paging) → Agrees pages (S.Pages.seen space.new)
        → Grows S.Pages space.old space.new pages first added (drop (S.Pages.used space.old) page.old)) }
    ensures err { OnErr result ((pages : Paging) → Agrees pages (S.Pages.seen space.new)
        → S.Pages.stands space.old pages → LeavesAlone S.Pages space.old space.new pages) }
    ensures only { (n : ℕ) → n ≢ 1 → S.Pages.seen space.new n ≡ S.Pages.seen space.old n }
    ensures known { (n : ℕ) → IsSome (S.Pages.laid space.old n) → S.Pages.seen space.new n ≡ S.Pages.seen space.old n }
    ensures kept { Keeps S.Pages space.old space.new }
    ensures alone { S.Pages.shared space.old ≡ false
        → ((S.Pages.count space.new ≡ S.Pages.count space.old) ⊎ (S.Pages.count space.new ≡ S.Pages.count space.old + 16))
        × (S.Pages.shared space.new ≡ false) }
    ensures named { S.Pages.shared space.old ≡ false → first ≢ 1 → (pages : Paging) → Agrees pages (S.Pages.seen space.new)
        → S.Pages.stands space.old pages → number_in (sight S.Pages space.new pages) ≡ S.Pages.count space.new }
    ensures refusal { RefusesTree S.Pages space.old space.new result }
    ensures open { OnOk result (S.Pages.sealed space.old ≡ false) }
    ensures fault { IfErr result (OnFault
        (λ fault. GrowsNot S.Pages space.old space.new fault
        ⊎ Fits (S.Pages.sealed space.old) (S.Pages.count space.new) (FitsPut (S.Pages.count space.new) first) fault)
        (λ at. ⊥)) }
    ensures admitted { IfErr result (OnFault (λ fault. IsTrue (S.Pages.admits fault)) (λ at. Unit {0})) }
{
    let added = match space.extend() {
        Ok(added) => added,
        Err(fault) => return Err(TreeFault::Space(fault)),
    };
    add_fifteen(page, space.usable(), added);
    match lay_trunk(space, first, 0, 15, page) {
        Ok(()) => Ok(added),
        Err(fault) => Err(TreeFault::Space(fault)),
    }
}

// Takes a page from the list that begins at `first`.
pub(crate) fn take<S: Pages>(alloc: Global, space: &mut S, first: u32) -> Result<u32, TreeFault>
    ensures used { OnOk result (480 ≤ S.Pages.used space.old) }
    ensures took { IfOk result (λ page. (pages : Paging) → Agrees pages (S.Pages.seen space.new)
        → Took S.Pages space.old space.new pages first page) }
    ensures err { OnErr result ((pages : Paging) → Agrees pages (S.Pages.seen space.new)
        → S.Pages.stands space.old pages → LeavesAlone S.Pages space.old space.new pages) }
    ensures seen { (pages : Paging) → Agrees pages (S.Pages.seen space.new)
        → DifferAt (S.Pages.seen space.old) (S.Pages.seen space.new)
        (IsTrunkOf (sight S.Pages space.old pages) first) }
    ensures known { (n : ℕ) → IsSome (S.Pages.laid space.old n) → S.Pages.seen space.new n ≡ S.Pages.seen space.old n }
    ensures kept { Keeps S.Pages space.old space.new }
    ensures alone { S.Pages.shared space.old ≡ false
        → ((S.Pages.count space.new ≡ S.Pages.count space.old) ⊎ (S.Pages.count space.new ≡ S.Pages.count space.old + 16))
        × (S.Pages.shared space.new ≡ false) }
    ensures named { S.Pages.shared space.old ≡ false → first ≢ 1 → (pages : Paging) → Agrees pages (S.Pages.seen space.new)
        → S.Pages.stands space.old pages → number_in (sight S.Pages space.new pages) ≡ S.Pages.count space.new }
    ensures counted { S.Pages.shared space.old ≡ false → (pages : Paging) → Agrees pages (S.Pages.seen space.new)
        → HasNone (sight S.Pages space.old pages) first ⊎ (S.Pages.count space.new ≡ S.Pages.count space.old) }
    ensures refusal { RefusesTree S.Pages space.old space.new result }
    ensures open { OnOk result (S.Pages.sealed space.old ≡ false) }
    ensures fault { IfErr result (OnFault (TakesNot S.Pages space.old space.new first)
        (λ at. (pages : Paging) → Agrees pages (S.Pages.seen space.new)
        → IsDamaged (S.Pages.used space.old) (sight S.Pages space.old pages) first at)) }
    ensures admitted { IfErr result (OnFault (λ fault. (fault ≡ Memory) ⊎ IsTrue (S.Pages.admits fault)) (λ at. Unit {0})) }
{
    let mut buf = vec![in alloc; 0u8; space.page_size() as usize]?;
    let page = buf.as_mut_slice();
    let count = see_trunk(space, first, page)?;
    if count > 0 {
        return take_leaf(space, first, count, page);
    }
    match u32_of(page, 0) {
        0 => take_new(space, first, page),
        next => take_trunk(alloc, space, first, next, page),
    }
}
