//! Single changes: a page is seen, laid, taken or given.

ghost use Rattle.std.specs.Prelude.{◌≡◌, ◌≢◌, ◌≤◌, [], ◌∷◌, false, length, IfOk, OnOk};
ghost use Rattle.spe_model.specs.Paging.{Agrees, Paging};
ghost use Rattle.spe_space.specs.Calls.{Keeps, Reads, sight};
ghost use Rattle.spe_space.specs.Outcome.{refusal_after};
ghost use Rattle.spe_frame.specs.Held.{HasHead, IsLikely, Puts, Shifts, Spares, WhereHeld};

use spe_space::{PageSpace, Pages, SpaceFault};

/// Copies a page that is held into `buf`. It fails as `get` does, and of a held page PageOut names
/// none that is not there.
pub fn see_page<S: Pages>(space: &mut S, page: u32, buf: &mut [u8]) -> Result<(), SpaceFault>
    requires { length buf.old ≡ S.Pages.size space.old }
    ensures bytes { OnOk result ((pages : Paging) → Agrees pages (S.Pages.seen space.new)
        → buf.new ≡ sight S.Pages space.old pages page) }
    ensures shifts { WhereHeld S.Pages space.old space.new (page ∷ []) (λ pages.
        Shifts S.Pages space.old space.new pages (page ∷ []) (page ∷ []) 0) }
    ensures likely { WhereHeld S.Pages space.old space.new (page ∷ []) (λ pages.
        IsLikely S.Pages space.new pages result) }
    ensures reads { Reads S.Pages space.old space.new }
    ensures refusal { S.Pages.refusal space.new ≡ refusal_after result (S.Pages.refusal space.old) }
{
    space.get(page, buf)
}

/// Puts a page that is held. Page 1 keeps its first 100 bytes. It fails as `put` does.
pub fn lay_page<S: Pages>(space: &mut S, page: u32, bytes: &[u8]) -> Result<(), SpaceFault>
    requires { length bytes.now ≡ S.Pages.size space.old }
    ensures shifts { OnOk result (WhereHeld S.Pages space.old space.new (page ∷ []) (λ pages.
        HasHead page (sight S.Pages space.old pages 1) bytes.now
        → Shifts S.Pages space.old space.new pages (page ∷ []) (page ∷ []) 0)) }
    ensures put { OnOk result (Puts S.Pages space.old space.new page bytes.now) }
    ensures spares { WhereHeld S.Pages space.old space.new (page ∷ []) (λ pages.
        HasHead page (sight S.Pages space.old pages 1) bytes.now
        → Spares S.Pages space.old space.new pages (page ∷ []) 0) }
    ensures likely { WhereHeld S.Pages space.old space.new (page ∷ []) (λ pages.
        S.Pages.sealed space.old ≡ false → page ≢ 1 → IsLikely S.Pages space.new pages result) }
    ensures kept { Keeps S.Pages space.old space.new }
    ensures refusal { S.Pages.refusal space.new ≡ refusal_after result (S.Pages.refusal space.old) }
{
    match space.put(page, bytes) {
        Ok(()) => (),
        Err(fault) => return Err(fault),
    }
    Ok(())
}

/// Hands out a page, which is then held. It fails as `alloc` does.
pub fn take_page<S: PageSpace>(space: &mut S) -> Result<u32, SpaceFault>
    ensures shifts { IfOk result (λ page. WhereHeld S.Pages space.old space.new [] (λ pages.
        Shifts S.Pages space.old space.new pages [] (page ∷ []) 1)) }
    ensures spares { WhereHeld S.Pages space.old space.new [] (λ pages.
        Spares S.Pages space.old space.new pages [] 1) }
    ensures likely { WhereHeld S.Pages space.old space.new [] (λ pages.
        S.Pages.sealed space.old ≡ false → IsLikely S.Pages space.new pages result) }
    ensures kept { Keeps S.Pages space.old space.new }
    ensures refusal { S.Pages.refusal space.new ≡ refusal_after result (S.Pages.refusal space.old) }
{
    let page = match space.alloc() {
        Ok(page) => page,
        Err(fault) => return Err(fault),
    };
    Ok(page)
}

/// Makes a page free that is held, other than page 1. It fails as `free` does.
pub fn give_page<S: PageSpace>(space: &mut S, page: u32) -> Result<(), SpaceFault>
    ensures shifts { OnOk result (WhereHeld S.Pages space.old space.new (page ∷ []) (λ pages.
        2 ≤ page → Shifts S.Pages space.old space.new pages (page ∷ []) [] 0)) }
    ensures spares { WhereHeld S.Pages space.old space.new (page ∷ []) (λ pages.
        2 ≤ page → Spares S.Pages space.old space.new pages (page ∷ []) 0) }
    ensures likely { WhereHeld S.Pages space.old space.new (page ∷ []) (λ pages.
        S.Pages.sealed space.old ≡ false → 2 ≤ page → IsLikely S.Pages space.new pages result) }
    ensures kept { Keeps S.Pages space.old space.new }
    ensures refusal { S.Pages.refusal space.new ≡ refusal_after result (S.Pages.refusal space.old) }
{
    match space.free(page) {
        Ok(()) => (),
        Err(fault) => return Err(fault),
    }
    Ok(())
}
