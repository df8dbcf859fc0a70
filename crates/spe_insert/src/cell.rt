//! The cell of a row.

ghost use Rattle.std.specs.Prelude.{◌≡◌, ◌≤◌, [], false, None, length, IfOk};
ghost use Rattle.spe_model.specs.Chain.{links};
ghost use Rattle.spe_model.specs.Paging.{Paging};
ghost use Rattle.spe_model.specs.declared.page.Kind.TheVariants.{TableLeaf};
ghost use Rattle.spe_space.specs.Calls.{Keeps, RefusesTree};
ghost use Rattle.spe_format.specs.Canonical.{IsWritableCell};
ghost use Rattle.spe_frame.specs.Held.{Spares, WhereHeld};
ghost use Rattle.spe_write.specs.Chain.{HasChain, IsLikelyOfTree};
ghost use Rattle.spe_insert.specs.Cell.{HasPayload};

use spe_format::local_size;
use spe_frame::shifts_law;
use spe_model::{Bytes, Cell, Kind};
use spe_space::{PageSpace, TreeFault};
use spe_write::write_chain;
use std::alloc::Global;

/// The cell of a row for a leaf: what of the payload has no place in the cell is written into a chain
/// of new overflow pages. It fails as `write_chain` does.
pub fn write_cell<S: PageSpace>(
    alloc: Global,
    space: &mut S,
    rowid: i64,
    payload: &[u8],
) -> Result<Cell, TreeFault>
    requires refusal { S.Pages.refusal space.old ≡ None }
    requires most { length payload.now ≤ 2147483647 }
    ensures key { IfOk result (λ c. c.key ≡ rowid) }
    ensures form { IfOk result (IsWritableCell TableLeaf (S.Pages.used space.old)) }
    ensures payload { IfOk result (λ c. WhereHeld S.Pages space.old space.new [] (λ pages.
        HasPayload S.Pages space.old space.new pages c payload.now)) }
    ensures spares { WhereHeld S.Pages space.old space.new [] (λ pages.
        Spares S.Pages space.old space.new pages [] (links (S.Pages.used space.old) (length payload.now))) }
    ensures likely { WhereHeld S.Pages space.old space.new [] (λ pages.
        S.Pages.sealed space.old ≡ false → IsLikelyOfTree S.Pages space.new pages result) }
    ensures kept { Keeps S.Pages space.old space.new }
    ensures refusal { RefusesTree S.Pages space.old space.new result }
{
    shifts_law(space);
    let size = local_size(Kind::TableLeaf, payload.len() as u64, space.usable());
    let (head, rest) = payload.split_at(size as usize);
    let local = Bytes::new(Vec::from_slice(alloc, head)?);
    let chain = match write_rest(alloc, space, rest) {
        Ok(chain) => chain,
        Err(fault) => return Err(fault),
    };
    Ok(Cell {
        left: 0,
        key: rowid,
        payload: payload.len() as u64,
        local,
        chain,
    })
}

// A chain of what is left of a payload, 0 where nothing is.
fn write_rest<S: PageSpace>(alloc: Global, space: &mut S, rest: &[u8]) -> Result<u32, TreeFault>
    requires { S.Pages.refusal space.old ≡ None }
    ensures none { IfOk result (λ first. length rest.now ≡ 0 → first ≡ 0) }
    ensures chain { IfOk result (λ first. WhereHeld S.Pages space.old space.new [] (λ pages.
        HasChain S.Pages space.old space.new pages rest.now first)) }
    ensures spares { WhereHeld S.Pages space.old space.new [] (λ pages.
        Spares S.Pages space.old space.new pages [] (links (S.Pages.used space.old) (length rest.now))) }
    ensures likely { WhereHeld S.Pages space.old space.new [] (λ pages.
        S.Pages.sealed space.old ≡ false → IsLikelyOfTree S.Pages space.new pages result) }
    ensures kept { Keeps S.Pages space.old space.new }
    ensures refusal { RefusesTree S.Pages space.old space.new result }
{
    shifts_law(space);
    if rest.is_empty() {
        return Ok(0);
    }
    write_chain(alloc, space, rest)
}
