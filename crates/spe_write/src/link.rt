//! One page of a chain.

ghost use Rattle.std.specs.Prelude.{◌≡◌, ◌+◌, ◌*◌, ◌^◌, ◌<◌, ◌≤◌, ℕ, [], ◌∷◌, false, length, Some, IfOk};
ghost use Rattle.spe_model.specs.Chain.{IsAmiss, links, next_page};
ghost use Rattle.spe_model.specs.Paging.{Agrees, Paging};
ghost use Rattle.spe_space.specs.Calls.{Keeps, RefusesTree, sight};
ghost use Rattle.spe_space.specs.Outcome.{refusal_after};
ghost use Rattle.spe_frame.specs.Held.{IsLikely, Shifts, Spares, WhereHeld};
ghost use Rattle.spe_write.specs.Chain.{GivesLink, IsLikelyOfTree, NamesLink, link_page};

use byteorder::{BigEndian, ByteOrder};
use spe_frame::{give_page, lay_page, see_page, shifts_law, take_page};
use spe_model::u32_of;
use spe_space::{PageSpace, SpaceFault, TreeFault, is_amiss};

/// How many overflow pages so many bytes need.
pub(crate) fn links_of(usable: u32, bytes: usize) -> usize
    requires { 480 ≤ usable }
    ensures { result ≡ links usable bytes }
{
    bytes.div_ceil((usable - 4) as usize)
}

/// Where a piece of a payload begins, by its index.
pub(crate) fn start_of(index: usize, room: usize, len: usize) -> usize
    requires { index * room < len }
    ensures { result ≡ index * room }
{
    index * room
}

// Makes an overflow page of some bytes of the payload.
fn fill_link(buf: &mut [u8], next: u32, bytes: &[u8])
    requires { 4 + length bytes.now ≤ length buf.old }
    ensures { buf.new ≡ link_page (length buf.old) next bytes.now }
{
    let (head, rest) = buf.split_at_mut(4);
    BigEndian::write_u32(head, next);
    let (body, tail) = rest.split_at_mut(bytes.len());
    body.copy_from_slice(bytes);
    tail.fill(0);
}

/// Puts bytes on a new page, before the page `next`. `buf` is one page long and is written over.
pub(crate) fn lay_link<S: PageSpace>(
    space: &mut S,
    bytes: &[u8],
    next: u32,
    buf: &mut [u8],
) -> Result<u32, SpaceFault>
    requires size { length buf.old ≡ S.Pages.size space.old }
    requires room { 4 + length bytes.now ≤ S.Pages.size space.old }
    ensures shifts { IfOk result (λ page. WhereHeld S.Pages space.old space.new [] (λ pages.
        Shifts S.Pages space.old space.new pages [] (page ∷ []) 1)) }
    ensures small { next < 2 ^ 32 }
    ensures put { IfOk result (λ page. S.Pages.laid space.new page ≡ Some (link_page (S.Pages.size space.old) next bytes.now)) }
    ensures spares { WhereHeld S.Pages space.old space.new [] (λ pages.
        Spares S.Pages space.old space.new pages [] 1) }
    ensures likely { WhereHeld S.Pages space.old space.new [] (λ pages.
        S.Pages.sealed space.old ≡ false → IsLikely S.Pages space.new pages result) }
    ensures kept { Keeps S.Pages space.old space.new }
    ensures refusal { S.Pages.refusal space.new ≡ refusal_after result (S.Pages.refusal space.old) }
{
    shifts_law(space);
    fill_link(buf, next, bytes);
    let page = take_page(space)?;
    match lay_page(space, page, buf) {
        Ok(()) => Ok(page),
        Err(fault) => Err(fault),
    }
}

/// Frees a page of a chain, after which `left` bytes are left, and answers the number of the next.
/// Corrupt names the page, where this number does not go with what is left. `buf` is one page long and is
/// written over.
pub(crate) fn free_link<S: PageSpace>(
    space: &mut S,
    page: u32,
    left: u64,
    buf: &mut [u8],
) -> Result<u32, TreeFault>
    requires { length buf.old ≡ S.Pages.size space.old }
    ensures given { IfOk result (λ next. WhereHeld S.Pages space.old space.new (page ∷ []) (λ pages.
        2 ≤ page → GivesLink S.Pages space.old space.new pages page next)) }
    ensures spares { WhereHeld S.Pages space.old space.new (page ∷ []) (λ pages.
        2 ≤ page → Spares S.Pages space.old space.new pages (page ∷ []) 0) }
    ensures likely { WhereHeld S.Pages space.old space.new (page ∷ []) (λ pages.
        S.Pages.sealed space.old ≡ false → 2 ≤ page
        → (IsAmiss left (next_page (sight S.Pages space.old pages) page) → ⊥) → IsLikelyOfTree S.Pages space.new pages result) }
    ensures damage { NamesLink S.Pages space.old space.new page left result }
    ensures kept { Keeps S.Pages space.old space.new }
    ensures refusal { RefusesTree S.Pages space.old space.new result }
{
    shifts_law(space);
    match see_page(space, page, buf) {
        Ok(()) => (),
        Err(fault) => return Err(TreeFault::Space(fault)),
    }
    let next = u32_of(buf, 0);
    if is_amiss(left, next) {
        return Err(TreeFault::Corrupt { page });
    }
    match give_page(space, page) {
        Ok(()) => Ok(next),
        Err(fault) => Err(TreeFault::Space(fault)),
    }
}
