//! Chains of trunks, which name free pages.

ghost use Rattle.std.specs.Prelude.{◌≡◌, ◌+◌, ◌-◌, ◌*◌, ◌/◌, ◌^◌, ◌≤◌, IfOk, IfErr, length, map, nat_le};
ghost use Rattle.spe_model.specs.Walk.{Mark, Names};
ghost use Rattle.spe_check.specs.MetPages.{has_met};
ghost use Rattle.spe_check.specs.Shown.{Walked, RefusesHalt, AsksWithin};
ghost use Rattle.spe_check.specs.Trunks.{leaves_in, GetsMet, TriesTrunkBytes, TriesTrunk, TriesTrunks};
ghost use Rattle.spe_check.specs.Tries.{IsBroken, Tries};

use crate::halt::Halt;
use crate::met::Met;
use crate::rule::try_rule;
use spe_model::u32_of;
use spe_space::Pages;

/// What a trunk names.
#[derive(Clone, Copy, Debug)]
pub struct Trunk {
    /// The next trunk, or 0.
    pub next: u32,
    /// How many free pages it lists.
    pub leaves: u32,
}

// Meets the free pages that a trunk lists.
fn try_leaves(met: &mut Met, trunk: u32, bytes: &[u8], count: usize) -> Result<(), Halt>
    requires { 8 + 4 * count ≤ length bytes.now }
    ensures tried { Tries met.old.pages (has_met met.old) (has_met met.new) (map (Names trunk) (leaves_in bytes.now count)) result }
    ensures pages { met.new.pages ≡ met.old.pages }
    ensures broken { IfErr result IsBroken }
{
    for index in 0..count {
        match met.meet(trunk, u32_of(bytes, 8 + 4 * index)) {
            Ok(()) => (),
            Err(halt) => return Err(halt),
        }
    }
    Ok(())
}

fn has_room(leaves: u32, usable: usize) -> bool
    requires { 480 ≤ usable }
    ensures { result ≡ nat_le leaves (usable / 4 - 2) }
{
    leaves as usize <= usable / 4 - 2
}

// Tries what the bytes of a trunk name, once it is met.
fn trunk_in(met: &mut Met, trunk: u32, bytes: &[u8], usable: usize) -> Result<Trunk, Halt>
    requires low { 480 ≤ usable }
    requires high { usable ≤ 65536 }
    requires inside { usable ≤ length bytes.now }
    ensures tried { TriesTrunkBytes met.old met.new trunk usable bytes.now result }
    ensures few { IfOk result (λ found. found.leaves ≤ 16384) }
    ensures pages { met.new.pages ≡ met.old.pages }
    ensures broken { IfErr result IsBroken }
{
    let leaves = u32_of(bytes, 4);
    match try_rule(has_room(leaves, usable), trunk, 10) {
        Ok(()) => (),
        Err(halt) => return Err(halt),
    }
    match try_leaves(met, trunk, bytes, leaves as usize) {
        Ok(()) => Ok(Trunk {
            next: u32_of(bytes, 0),
            leaves,
        }),
        Err(halt) => Err(halt),
    }
}

/// Meets a page, whose number stands on the page `holder`, and gets it.
pub fn get_met<S: Pages>(
    space: &mut S,
    met: &mut Met,
    holder: u32,
    page: u32,
    buf: &mut [u8],
) -> Result<(), Halt>
    requires { length buf.old ≡ S.Pages.size space.old }
    ensures tried { GetsMet S.Pages space.new met.old met.new holder page buf.new result }
    ensures walked { Walked S.Pages space.old space.new met.old met.new }
    ensures refusal { RefusesHalt S.Pages space.old space.new result }
    ensures asks { AsksWithin met.old result }
{
    match met.meet(holder, page) {
        Ok(()) => (),
        Err(halt) => return Err(halt),
    }
    space.get(page, buf)?;
    Ok(())
}

// Tries a trunk, whose number stands on the page `holder`.
fn try_trunk<S: Pages>(
    space: &mut S,
    met: &mut Met,
    holder: u32,
    trunk: u32,
    buf: &mut [u8],
) -> Result<Trunk, Halt>
    requires { length buf.old ≡ S.Pages.size space.old }
    ensures tried { TriesTrunk S.Pages space.new met.old met.new holder trunk result }
    ensures few { IfOk result (λ found. found.leaves ≤ 16384) }
    ensures walked { Walked S.Pages space.old space.new met.old met.new }
    ensures refusal { RefusesHalt S.Pages space.old space.new result }
    ensures asks { AsksWithin met.old result }
{
    let usable = space.usable() as usize;
    match get_met(space, met, holder, trunk, buf) {
        Ok(()) => (),
        Err(halt) => return Err(halt),
    }
    trunk_in(met, trunk, buf, usable)
}

/// Tries the chain of trunks from the page `first` on, whose number stands on the page `holder`, and
/// answers how many free pages it has, trunks among them.
///
/// `buf` is one page long and is written over. Each trunk is got once. There are no more trunks than
/// pages: one more is met as any page is, and then the walk ends.
pub fn try_trunks<S: Pages>(
    space: &mut S,
    met: &mut Met,
    holder: u32,
    first: u32,
    buf: &mut [u8],
) -> Result<u64, Halt>
    requires { length buf.old ≡ S.Pages.size space.old }
    ensures tried { TriesTrunks S.Pages space.new met.old met.new holder first result }
    ensures few { IfOk result (λ free. free ≤ 2 ^ 48) }
    ensures walked { Walked S.Pages space.old space.new met.old met.new }
    ensures refusal { RefusesHalt S.Pages space.old space.new result }
    ensures asks { AsksWithin met.old result }
{
    let mut most = met.pages;
    let mut at = holder;
    let mut trunk = first;
    let mut free = 0;
    'trunks: while trunk != 0 {
        if most == 0 {
            return match met.meet(at, trunk) {
                Ok(()) => Ok(free),
                Err(halt) => Err(halt),
            };
        }
        let found = match try_trunk(space, met, at, trunk, buf) {
            Ok(found) => found,
            Err(halt) => return Err(halt),
        };
        free += 1 + u64::from(found.leaves);
        most -= 1;
        at = trunk;
        trunk = found.next;
    }
    Ok(free)
}
