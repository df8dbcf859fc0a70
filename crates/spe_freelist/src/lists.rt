//! Pages handed out from one of several free lists, and taken back.

ghost use Rattle.std.specs.Prelude.{◌≡◌, ◌⊎◌, ◌+◌, ◌<◌, ◌≢◌, ℕ, false, IfErr, IfOk, IsSome, IsTrue, OnErr, OnOk};
ghost use Rattle.spe_model.specs.FreeList.{leaf_count};
ghost use Rattle.spe_model.specs.Paging.{Agrees, Paging};
ghost use Rattle.spe_space.specs.Calls.{Keeps, RefusesTree, sight};
ghost use Rattle.spe_space.specs.declared.fault.SpaceFault.TheVariants.{Memory};
ghost use Rattle.spe_space.specs.Free.{DifferAt};
ghost use Rattle.spe_space.specs.Front.{number_in};
ghost use Rattle.spe_space.specs.Outcome.{IsFull};
ghost use Rattle.spe_space.specs.Space.{FrontStays};
ghost use Rattle.spe_freelist.specs.Lists.{freed};
ghost use Rattle.spe_freelist.specs.Place.{IsForTaking, IsLikelyOfTree, LeavesLists, ListsStay, MayBeGiven, TakesPage, WhereListed, trunks_of};
ghost use Rattle.spe_freelist.specs.Steps.{Gave, GivesNot, HasNone, IsDamaged, IsTrunkOf, OnFault, OnFullOf, TakesNot, Took};
ghost use Rattle.spe_freelist.specs.Trunk.{most_leaves};

use crate::give::give;
use crate::take::take;
use spe_space::{Pages, TreeFault};
use std::alloc::Global;

/// Hands out a page from the free list whose first trunk is `first`: the last leaf of the first trunk; where
/// that has none, the trunk behind it, whose leaves and next trunk the first one takes; where there is
/// none either, the first of sixteen new pages, of which the others become its leaves, the last page first.
///
/// The first trunk is got and put once, and the trunk that is handed out is got once. What is put of a trunk
/// has zeros behind its leaves, and the reserved bytes that the page has. Corrupt names a trunk with more
/// leaves than a page has room for, or whose last leaf is page 0. Full comes only where the list has
/// neither a leaf nor a second trunk. (This project's own.)
pub fn alloc<S: Pages>(alloc: Global, space: &mut S, first: u32) -> Result<u32, TreeFault>
    ensures taken { IfOk result (λ page. WhereListed S.Pages space.old space.new first (λ pages place.
        TakesPage S.Pages space.old space.new pages first page place)) }
    ensures stay { OnErr result (WhereListed S.Pages space.old space.new first (λ pages place.
        ListsStay S.Pages space.old space.new pages first place)) }
    ensures likely { WhereListed S.Pages space.old space.new first (λ pages place.
        S.Pages.sealed space.old ≡ false → IsLikelyOfTree S.Pages space.new pages result) }
    ensures laid { WhereListed S.Pages space.old space.new first (λ pages place.
        DifferAt (S.Pages.laid space.old) (S.Pages.laid space.new) (IsForTaking S.Pages space.old pages first)) }
    ensures front { WhereListed S.Pages space.old space.new first (λ pages place.
        FrontStays S.Pages space.old space.new pages) }
    ensures full { IfErr result (OnFault (OnFullOf (λ full. S.Pages.sealed space.old ≡ false
        → (pages : Paging) → Agrees pages (S.Pages.seen space.new)
        → HasNone (sight S.Pages space.old pages) first
        × IsFull (S.Pages.count space.new) (S.Pages.limit space.old) full)) (λ at. Unit {0})) }
    ensures put { IfOk result (λ page. (pages : Paging) → Agrees pages (S.Pages.seen space.new)
        → Took S.Pages space.old space.new pages first page) }
    ensures seen { (pages : Paging) → Agrees pages (S.Pages.seen space.new)
        → DifferAt (S.Pages.seen space.old) (S.Pages.seen space.new)
        (IsTrunkOf (sight S.Pages space.old pages) first) }
    ensures fault { IfErr result (OnFault (TakesNot S.Pages space.old space.new first)
        (λ at. (pages : Paging) → Agrees pages (S.Pages.seen space.new)
        → IsDamaged (S.Pages.used space.old) (sight S.Pages space.old pages) first at)) }
    ensures known { (n : ℕ) → IsSome (S.Pages.laid space.old n) → S.Pages.seen space.new n ≡ S.Pages.seen space.old n }
    ensures kept { Keeps S.Pages space.old space.new }
    ensures alone { S.Pages.shared space.old ≡ false
        → ((S.Pages.count space.new ≡ S.Pages.count space.old) ⊎ (S.Pages.count space.new ≡ S.Pages.count space.old + 16))
        × (S.Pages.shared space.new ≡ false) }
    ensures named { S.Pages.shared space.old ≡ false → WhereListed S.Pages space.old space.new first (λ pages place.
        number_in (sight S.Pages space.new pages) ≡ S.Pages.count space.new) }
    ensures counted { S.Pages.shared space.old ≡ false → (pages : Paging) → Agrees pages (S.Pages.seen space.new)
        → HasNone (sight S.Pages space.old pages) first ⊎ (S.Pages.count space.new ≡ S.Pages.count space.old) }
    ensures open { OnOk result (S.Pages.sealed space.old ≡ false) }
    ensures admitted { IfErr result (OnFault (λ fault. (fault ≡ Memory) ⊎ IsTrue (S.Pages.admits fault)) (λ at. Unit {0})) }
    ensures refusal { RefusesTree S.Pages space.old space.new result }
{
    take(alloc, space, first)
}

/// Takes a page back into the free list whose first trunk is `first`: it becomes the last leaf of the first
/// trunk, where that has fewer than U / 4 - 8 leaves, of U bytes that a page uses; else it becomes the trunk
/// behind it, and takes all its leaves and its next trunk.
///
/// The first trunk is got and put once. What was on the page is not read: where it becomes a trunk, it is put
/// once, with zeros behind its leaves. Corrupt names the first trunk, where it has more leaves than a page
/// has room for. (This project's own.)
pub fn free<S: Pages>(alloc: Global, space: &mut S, first: u32, page: u32) -> Result<(), TreeFault>
    ensures freed { OnOk result (WhereListed S.Pages space.old space.new first (λ pages place.
        MayBeGiven S.Pages space.old pages first page place
        → LeavesLists S.Pages space.old space.new pages first place
        (freed (S.Pages.used space.old) page (trunks_of S.Pages space.old pages place)))) }
    ensures stay { OnErr result (WhereListed S.Pages space.old space.new first (λ pages place.
        MayBeGiven S.Pages space.old pages first page place
        → ListsStay S.Pages space.old space.new pages first place)) }
    ensures likely { WhereListed S.Pages space.old space.new first (λ pages place.
        S.Pages.sealed space.old ≡ false → MayBeGiven S.Pages space.old pages first page place
        → IsLikelyOfTree S.Pages space.new pages result) }
    ensures laid { (pages : Paging) → Agrees pages (S.Pages.seen space.new)
        → DifferAt (S.Pages.laid space.old) (S.Pages.laid space.new) (λ n. (n ≡ first) ⊎ (n ≡ page)) }
    ensures put { OnOk result ((pages : Paging) → Agrees pages (S.Pages.seen space.new)
        → Gave S.Pages space.old space.new pages first page) }
    ensures only { (n : ℕ) → n ≢ first → S.Pages.seen space.new n ≡ S.Pages.seen space.old n }
    ensures fault { IfErr result (OnFault (GivesNot S.Pages space.old space.new first page)
        (λ at. (at ≡ first) × ((pages : Paging) → Agrees pages (S.Pages.seen space.new)
        → most_leaves (S.Pages.used space.old) < leaf_count (sight S.Pages space.old pages) first))) }
    ensures known { (n : ℕ) → IsSome (S.Pages.laid space.old n) → S.Pages.seen space.new n ≡ S.Pages.seen space.old n }
    ensures kept { Keeps S.Pages space.old space.new }
    ensures alone { S.Pages.shared space.old ≡ false
        → (S.Pages.count space.new ≡ S.Pages.count space.old) × (S.Pages.shared space.new ≡ false) }
    ensures open { OnOk result (S.Pages.sealed space.old ≡ false) }
    ensures admitted { IfErr result (OnFault (λ fault. (fault ≡ Memory) ⊎ IsTrue (S.Pages.admits fault)) (λ at. Unit {0})) }
    ensures refusal { RefusesTree S.Pages space.old space.new result }
{
    give(alloc, space, first, page)
}
