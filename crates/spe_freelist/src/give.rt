//! A page is given to a free list.

ghost use Rattle.std.specs.Prelude.{◌≡◌, ◌⊎◌, ◌+◌, ◌-◌, ◌*◌, ◌<◌, ◌≤◌, ◌≢◌, ℕ, [], ◌∷◌, ◌++◌, drop, false, length, replicate, IfErr, IfOk, IsSome, IsTrue, OnErr, OnOk};
ghost use Rattle.spe_model.specs.Big.{u32_at};
ghost use Rattle.spe_model.specs.FreeList.{leaf_count};
ghost use Rattle.spe_model.specs.Paging.{Agrees, Paging};
ghost use Rattle.spe_space.specs.Calls.{Keeps, RefusesTree, sight};
ghost use Rattle.spe_space.specs.declared.fault.SpaceFault.TheVariants.{Memory};
ghost use Rattle.spe_space.specs.Free.{DifferAt};
ghost use Rattle.spe_space.specs.Outcome.{Fits, FitsPut};
ghost use Rattle.spe_freelist.specs.Steps.{Gave, GivesNot, OnFault, PutsTrunk, PutsTrunks};
ghost use Rattle.spe_freelist.specs.Trunk.{full_leaves, leaves_at, most_leaves};

use crate::step::{lay_trunk, see_trunk};
use crate::trunk::{add_leaf, clear_reserved, put_reserved, reserved_of};
use spe_model::u32_of;
use spe_space::{Pages, TreeFault};
use std::alloc::Global;

// Makes a page the last leaf of the first trunk, which is in `bytes`.
fn give_leaf<S: Pages>(
    space: &mut S,
    first: u32,
    count: u32,
    page: u32,
    bytes: &mut [u8],
) -> Result<(), TreeFault>
    requires size { length bytes.old ≡ S.Pages.size space.old }
    requires room { count < full_leaves (S.Pages.used space.old) }
    ensures put { OnOk result (PutsTrunk S.Pages space.old space.new first (u32_at bytes.old 0)
        (leaves_at bytes.old count ++ page ∷ []) (drop (S.Pages.used space.old) bytes.old)) }
    ensures err { OnErr result ((n : ℕ) → S.Pages.laid space.new n ≡ S.Pages.laid space.old n) }
    ensures seen { S.Pages.seen space.new ≡ S.Pages.seen space.old }
    ensures kept { Keeps S.Pages space.old space.new }
    ensures alone { S.Pages.shared space.old ≡ false
        → (S.Pages.count space.new ≡ S.Pages.count space.old) × (S.Pages.shared space.new ≡ false) }
    ensures refusal { RefusesTree S.Pages space.old space.new result }
    ensures open { OnOk result (S.Pages.sealed space.old ≡ false) }
    ensures fault { IfErr result (OnFault
        (Fits (S.Pages.sealed space.old) (S.Pages.count space.new) (FitsPut (S.Pages.count space.new) first)) (λ at. ⊥)) }
    ensures admitted { IfErr result (OnFault (λ fault. IsTrue (S.Pages.admits fault)) (λ at. Unit {0})) }
{
    add_leaf(bytes, space.usable(), count, page);
    let next = u32_of(bytes, 0);
    match lay_trunk(space, first, next, count + 1, bytes) {
        Ok(()) => Ok(()),
        Err(fault) => Err(TreeFault::Space(fault)),
    }
}

// Makes a page the trunk behind the first one, which is in `bytes` and gives it its leaves.
fn give_trunk<S: Pages>(
    alloc: Global,
    space: &mut S,
    first: u32,
    count: u32,
    page: u32,
    bytes: &mut [u8],
) -> Result<(), TreeFault>
    requires size { length bytes.old ≡ S.Pages.size space.old }
    requires room { count ≤ most_leaves (S.Pages.used space.old) }
    ensures put { OnOk result (PutsTrunks S.Pages space.old space.new first page (u32_at bytes.old 0)
        (leaves_at bytes.old count) (drop (S.Pages.used space.old) bytes.old)) }
    ensures err { OnErr result ((n : ℕ) → n ≢ page → S.Pages.laid space.new n ≡ S.Pages.laid space.old n) }
    ensures seen { S.Pages.seen space.new ≡ S.Pages.seen space.old }
    ensures kept { Keeps S.Pages space.old space.new }
    ensures alone { S.Pages.shared space.old ≡ false
        → (S.Pages.count space.new ≡ S.Pages.count space.old) × (S.Pages.shared space.new ≡ false) }
    ensures refusal { RefusesTree S.Pages space.old space.new result }
    ensures open { OnOk result (S.Pages.sealed space.old ≡ false) }
    ensures fault { IfErr result (OnFault (λ fault. (fault ≡ Memory)
        ⊎ (Fits (S.Pages.sealed space.old) (S.Pages.count space.new) (FitsPut (S.Pages.count space.new) page) fault
        ⊎ Fits (S.Pages.sealed space.old) (S.Pages.count space.new) (FitsPut (S.Pages.count space.new) first) fault)) (λ at. ⊥)) }
    ensures admitted { IfErr result (OnFault (λ fault. (fault ≡ Memory) ⊎ IsTrue (S.Pages.admits fault)) (λ at. Unit {0})) }
{
    let usable = space.usable();
    let reserved = reserved_of(alloc, bytes, usable)?;
    let next = u32_of(bytes, 0);
    clear_reserved(bytes, usable);
    match lay_trunk(space, page, next, count, bytes) {
        Ok(()) => (),
        Err(fault) => return Err(TreeFault::Space(fault)),
    }
    put_reserved(bytes, usable, reserved.as_slice());
    match lay_trunk(space, first, page, 0, bytes) {
        Ok(()) => Ok(()),
        Err(fault) => Err(TreeFault::Space(fault)),
    }
}

// Gives a page to the list that begins at `first`.
pub(crate) fn give<S: Pages>(
    alloc: Global,
    space: &mut S,
    first: u32,
    page: u32,
) -> Result<(), TreeFault>
    ensures used { OnOk result (480 ≤ S.Pages.used space.old) }
    ensures gave { OnOk result ((pages : Paging) → Agrees pages (S.Pages.seen space.new)
        → Gave S.Pages space.old space.new pages first page) }
    ensures err { OnErr result ((n : ℕ) → n ≢ page → S.Pages.laid space.new n ≡ S.Pages.laid space.old n) }
    ensures only { (n : ℕ) → n ≢ first → S.Pages.seen space.new n ≡ S.Pages.seen space.old n }
    ensures known { (n : ℕ) → IsSome (S.Pages.laid space.old n) → S.Pages.seen space.new n ≡ S.Pages.seen space.old n }
    ensures kept { Keeps S.Pages space.old space.new }
    ensures alone { S.Pages.shared space.old ≡ false
        → (S.Pages.count space.new ≡ S.Pages.count space.old) × (S.Pages.shared space.new ≡ false) }
    ensures refusal { RefusesTree S.Pages space.old space.new result }
    ensures open { OnOk result (S.Pages.sealed space.old ≡ false) }
    ensures fault { IfErr result (OnFault (GivesNot S.Pages space.old space.new first page)
        (λ at. (at ≡ first) × ((pages : Paging) → Agrees pages (S.Pages.seen space.new)
        → most_leaves (S.Pages.used space.old) < leaf_count (sight S.Pages space.old pages) first))) }
    ensures admitted { IfErr result (OnFault (λ fault. (fault ≡ Memory) ⊎ IsTrue (S.Pages.admits fault)) (λ at. Unit {0})) }
{
    let mut buf = vec![in alloc; 0u8; space.page_size() as usize]?;
    let bytes = buf.as_mut_slice();
    let count = see_trunk(space, first, bytes)?;
    if count < space.usable() / 4 - 8 {
        return give_leaf(space, first, count, page, bytes);
    }
    give_trunk(alloc, space, first, count, page, bytes)
}
