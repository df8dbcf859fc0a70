//! Pages that are made free, one behind the other.

ghost use Rattle.std.specs.Prelude.{◌≡◌, [], false, OnOk};
ghost use Rattle.spe_space.specs.Calls.{Keeps};
ghost use Rattle.spe_space.specs.Outcome.{refusal_after};
ghost use Rattle.spe_frame.specs.Held.{IsLikely, Shifts, Spares, WhereHeld};
ghost use Rattle.spe_frame.specs.Times.{Lacks};

use spe_frame::{give_page, shifts_law};
use spe_space::{PageSpace, SpaceFault};

/// Makes pages free that are held, of which none is page 1. It fails as `free` does.
pub fn give_pages<S: PageSpace>(space: &mut S, list: &[u32]) -> Result<(), SpaceFault>
    ensures freed { OnOk result (WhereHeld S.Pages space.old space.new list.now (λ pages.
        Lacks list.now 1 → Shifts S.Pages space.old space.new pages list.now [] 0)) }
    ensures spares { WhereHeld S.Pages space.old space.new list.now (λ pages.
        Lacks list.now 1 → Spares S.Pages space.old space.new pages list.now 0) }
    ensures likely { WhereHeld S.Pages space.old space.new list.now (λ pages.
        S.Pages.sealed space.old ≡ false → Lacks list.now 1 → IsLikely S.Pages space.new pages result) }
    ensures kept { Keeps S.Pages space.old space.new }
    ensures refusal { S.Pages.refusal space.new ≡ refusal_after result (S.Pages.refusal space.old) }
{
    shifts_law(space);
    let mut left = list;
    'frees: while let [page, rest @ ..] = left {
        match give_page(space, *page) {
            Ok(()) => (),
            Err(fault) => return Err(fault),
        }
        left = rest;
    }
    Ok(())
}
