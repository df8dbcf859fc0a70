//! Chains of overflow pages.

ghost use Rattle.std.specs.Prelude.{◌≡◌, ◌+◌, ◌≤◌, ◌==◌, ℕ, Bool, not, [], ◌∷◌, OnOk, IfErr};
ghost use Rattle.spe_model.specs.Walk.{Mark, Keeps};
ghost use Rattle.spe_check.specs.Chains.{kept_of, TriesLink, TriesChain};
ghost use Rattle.spe_check.specs.Shown.{Walked, RefusesHalt, AsksWithin};
ghost use Rattle.spe_check.specs.Tries.{IsBroken, Tries};

use crate::halt::Halt;
use crate::walk::Walk;
use spe_model::u32_of;
use spe_space::Pages;
use std::alloc::AllocError;

// Appends bytes where they are wanted.
fn keep(wanted: bool, bytes: &[u8], out: &mut Vec<u8>) -> Result<(), AllocError>
    ensures { OnOk result (out.new.items ≡ kept_of wanted out.old.items bytes.now) }
{
    if wanted {
        out.extend_from_slice(bytes)?;
    }
    Ok(())
}

// Whether a page follows where one has to.
fn try_some(holder: u32, page: u32) -> Result<(), Halt>
    ensures tried { (count : ℕ) (met : ℕ → Bool) → Tries count met met (Keeps holder 7 (not (page == 0)) ∷ []) result }
    ensures broken { IfErr result IsBroken }
{
    if page == 0 {
        return Err(Halt::Broken {
            page: holder,
            rule: 7,
        });
    }
    Ok(())
}

/// Whether none follows where none may.
pub fn try_none(holder: u32, page: u32) -> Result<(), Halt>
    ensures tried { (count : ℕ) (met : ℕ → Bool) → Tries count met met (Keeps holder 7 (page == 0) ∷ []) result }
    ensures broken { IfErr result IsBroken }
{
    if page != 0 {
        return Err(Halt::Broken {
            page: holder,
            rule: 7,
        });
    }
    Ok(())
}

// Tries a page that has to follow, puts `here` of its bytes behind the walk's payload where they are
// wanted, and answers the number of the next.
fn try_link<S: Pages>(
    space: &mut S,
    walk: &mut Walk,
    holder: u32,
    page: u32,
    here: usize,
    wanted: bool,
) -> Result<u32, Halt>
    requires room { here + 4 ≤ S.Pages.used space.old }
    requires within { S.Pages.used space.old ≤ S.Pages.size space.old }
    ensures tried { TriesLink S.Pages space.new walk.old.met walk.new.met holder page here wanted walk.old.payload.items walk.new.payload.items result }
    ensures walked { Walked S.Pages space.old space.new walk.old.met walk.new.met }
    ensures refusal { RefusesHalt S.Pages space.old space.new result }
    ensures asks { AsksWithin walk.old.met result }
{
    match try_some(holder, page) {
        Ok(()) => (),
        Err(halt) => return Err(halt),
    }
    match walk.met.meet(holder, page) {
        Ok(()) => (),
        Err(halt) => return Err(halt),
    }
    let mut bytes = walk.buffers.take(space.page_size())?;
    space.get(page, &mut bytes)?;
    keep(wanted, &bytes[4..4 + here], &mut walk.payload)?;
    let next = u32_of(&bytes, 0);
    walk.buffers.give_back(bytes);
    Ok(next)
}

/// Tries the chain of overflow pages from page `first` on, whose number stands on the page `holder`,
/// and which holds `bytes` bytes. They are put behind the walk's payload where they are wanted.
///
/// Each page is got once.
pub fn try_chain<S: Pages>(
    space: &mut S,
    walk: &mut Walk,
    holder: u32,
    first: u32,
    bytes: u64,
    wanted: bool,
) -> Result<(), Halt>
    ensures tried { TriesChain S.Pages space.new walk.old.met walk.new.met holder first bytes wanted walk.old.payload.items walk.new.payload.items result }
    ensures walked { Walked S.Pages space.old space.new walk.old.met walk.new.met }
    ensures refusal { RefusesHalt S.Pages space.old space.new result }
    ensures asks { AsksWithin walk.old.met result }
{
    let usable = space.usable();
    let mut at = holder;
    let mut page = first;
    let mut left = bytes;
    'links: while left > 0 {
        let here = left.min(u64::from(usable - 4));
        let next = match try_link(space, walk, at, page, here as usize, wanted) {
            Ok(next) => next,
            Err(halt) => return Err(halt),
        };
        left -= here;
        at = page;
        page = next;
    }
    try_none(at, page)
}
