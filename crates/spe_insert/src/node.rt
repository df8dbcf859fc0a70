//! One b-tree page that is written.

ghost use Rattle.std.specs.Prelude.{◌≡◌, ◌≢◌, ◌≤◌, ◌⊎◌, [], ◌∷◌, true, false, length, IfOk, OnOk};
ghost use Rattle.spe_model.specs.Paging.{Agrees, Paging};
ghost use Rattle.spe_model.specs.Tree.{header_end};
ghost use Rattle.spe_space.specs.Calls.{Keeps, Reads, sight};
ghost use Rattle.spe_space.specs.Outcome.{refusal_after};
ghost use Rattle.spe_format.specs.Canonical.{IsWritable, fits};
ghost use Rattle.spe_frame.specs.Held.{HasHead, IsLikely, Shifts, Spares, WhereHeld};
ghost use Rattle.spe_insert.specs.Node.{IsUnlaid, KnowsHead, LaysNode};

use spe_format::put_page;
use spe_frame::{lay_page, see_page, shifts_law};
use spe_model::PageCells;
use spe_space::{Pages, SpaceFault};

/// Where the header of a page begins: page 1 begins with that of the file.
pub(crate) fn header_of(page: u32) -> usize
    ensures value { result ≡ header_end page }
    ensures either { (result ≡ 0) ⊎ (result ≡ 100) }
{
    if page == 1 { 100 } else { 0 }
}

// Makes `buf`, which is a copy of a page, one that has its header: page 1 is got again, as calls that
// hand out pages change it.
fn see_head<S: Pages>(space: &mut S, page: u32, buf: &mut [u8]) -> Result<(), SpaceFault>
    requires { length buf.old ≡ S.Pages.size space.old }
    ensures head { OnOk result (KnowsHead S.Pages space.old space.new page buf.new) }
    ensures shifts { WhereHeld S.Pages space.old space.new (page ∷ []) (λ pages.
        Shifts S.Pages space.old space.new pages (page ∷ []) (page ∷ []) 0) }
    ensures likely { WhereHeld S.Pages space.old space.new (page ∷ []) (λ pages.
        IsLikely S.Pages space.new pages result) }
    ensures reads { Reads S.Pages space.old space.new }
    ensures refusal { S.Pages.refusal space.new ≡ refusal_after result (S.Pages.refusal space.old) }
{
    shifts_law(space);
    if page != 1 {
        return Ok(());
    }
    see_page(space, page, buf)
}

/// Puts cells on a page that is held, where they fit, and answers whether they do. Where they don't,
/// nothing is put.
///
/// `buf` is a copy of the page as it is, and is written over; what lies behind the usable bytes stays. Page 1 is got once more. It fails as `get`
/// and `put` do.
pub fn lay_node<S: Pages>(
    space: &mut S,
    page: u32,
    cells: &PageCells,
    buf: &mut [u8],
) -> Result<bool, SpaceFault>
    requires size { length buf.old ≡ S.Pages.size space.old }
    requires cells { IsWritable cells.now (S.Pages.used space.old) }
    ensures fits { IfOk result (λ fit. fit ≡ fits cells.now (header_end page) (S.Pages.used space.old)) }
    ensures node { IfOk result (λ fit. fit ≡ true → LaysNode S.Pages space.old space.new page cells.now) }
    ensures idle { IfOk result (λ fit. fit ≡ false → IsUnlaid S.Pages space.old space.new) }
    ensures shifts { OnOk result (WhereHeld S.Pages space.old space.new (page ∷ []) (λ pages.
        Shifts S.Pages space.old space.new pages (page ∷ []) (page ∷ []) 0)) }
    ensures spares { WhereHeld S.Pages space.old space.new (page ∷ []) (λ pages.
        Spares S.Pages space.old space.new pages (page ∷ []) 0) }
    ensures likely { WhereHeld S.Pages space.old space.new (page ∷ []) (λ pages.
        S.Pages.sealed space.old ≡ false → page ≢ 1 → IsLikely S.Pages space.new pages result) }
    ensures kept { Keeps S.Pages space.old space.new }
    ensures refusal { S.Pages.refusal space.new ≡ refusal_after result (S.Pages.refusal space.old) }
{
    shifts_law(space);
    match see_head(space, page, buf) {
        Ok(()) => (),
        Err(fault) => return Err(fault),
    }
    let usable = space.usable() as usize;
    if !put_page(cells, buf, header_of(page), usable) {
        return Ok(false);
    }
    match lay_page(space, page, buf) {
        Ok(()) => Ok(true),
        Err(fault) => Err(fault),
    }
}

/// Puts cells, which fit, on a page that is held, other than page 1.
///
/// `buf` is one page long; what lies behind its usable bytes is put as it is. It fails as `put` does.
pub fn lay_lower<S: Pages>(
    space: &mut S,
    page: u32,
    cells: &PageCells,
    buf: &mut [u8],
) -> Result<(), SpaceFault>
    requires size { length buf.old ≡ S.Pages.size space.old }
    requires cells { IsWritable cells.now (S.Pages.used space.old) }
    requires fits { fits cells.now 0 (S.Pages.used space.old) ≡ true }
    ensures node { OnOk result (page ≢ 1 → LaysNode S.Pages space.old space.new page cells.now) }
    ensures shifts { OnOk result (WhereHeld S.Pages space.old space.new (page ∷ []) (λ pages.
        page ≢ 1 → Shifts S.Pages space.old space.new pages (page ∷ []) (page ∷ []) 0)) }
    ensures spares { WhereHeld S.Pages space.old space.new (page ∷ []) (λ pages.
        page ≢ 1 → Spares S.Pages space.old space.new pages (page ∷ []) 0) }
    ensures likely { WhereHeld S.Pages space.old space.new (page ∷ []) (λ pages.
        S.Pages.sealed space.old ≡ false → page ≢ 1 → IsLikely S.Pages space.new pages result) }
    ensures kept { Keeps S.Pages space.old space.new }
    ensures refusal { S.Pages.refusal space.new ≡ refusal_after result (S.Pages.refusal space.old) }
{
    let usable = space.usable() as usize;
    let _fit = put_page(cells, buf, 0, usable);
    match lay_page(space, page, buf) {
        Ok(()) => Ok(()),
        Err(fault) => Err(fault),
    }
}
