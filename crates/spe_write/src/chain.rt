//! Chains of overflow pages.

ghost use Rattle.std.specs.Prelude.{◌≡◌, ◌+◌, ℕ, [], false, None, length, IfOk, OnOk};
ghost use Rattle.spe_model.specs.Chain.{links};
ghost use Rattle.spe_model.specs.Paging.{Paging};
ghost use Rattle.spe_space.specs.Calls.{Keeps, RefusesTree, sight};
ghost use Rattle.spe_frame.specs.Held.{Shifts, Spares, WhereHeld};
ghost use Rattle.spe_write.specs.Chain.{HasChain, IsLikelyOfTree, WhereChain, pages_of_chain};

use crate::link::{free_link, lay_link, links_of, start_of};
use spe_frame::{forest_law, shifts_law};
use spe_space::{PageSpace, TreeFault};
use std::alloc::Global;

/// Writes bytes into a chain of new overflow pages, and answers the number of its first page: 0 where
/// there are no bytes.
///
/// The chain is written from its last page on, and each page is put once. ("Cell Payload Overflow Pages"
/// in SQLite's Database File Format.) A call that fails leaves pages that it has handed out, which
/// nothing names.
pub fn write_chain<S: PageSpace>(
    alloc: Global,
    space: &mut S,
    bytes: &[u8],
) -> Result<u32, TreeFault>
    requires { S.Pages.refusal space.old ≡ None }
    ensures chain { IfOk result (λ first. WhereHeld S.Pages space.old space.new [] (λ pages.
        HasChain S.Pages space.old space.new pages bytes.now first)) }
    ensures spares { WhereHeld S.Pages space.old space.new [] (λ pages.
        Spares S.Pages space.old space.new pages [] (links (S.Pages.used space.old) (length bytes.now))) }
    ensures likely { WhereHeld S.Pages space.old space.new [] (λ pages.
        S.Pages.sealed space.old ≡ false → IsLikelyOfTree S.Pages space.new pages result) }
    ensures kept { Keeps S.Pages space.old space.new }
    ensures refusal { RefusesTree S.Pages space.old space.new result }
{
    shifts_law(space);
    forest_law(space);
    let usable = space.usable();
    let room = (usable - 4) as usize;
    let mut buf = vec![in alloc; 0u8; space.page_size() as usize]?;
    let mut index = links_of(usable, bytes.len());
    let mut left = bytes;
    let mut first = 0;
    'links: while index > 0 {
        index -= 1;
        let start = start_of(index, room, bytes.len());
        let (rest, piece) = left.split_at(start);
        first = match lay_link(space, piece, first, buf.as_mut_slice()) {
            Ok(page) => page,
            Err(fault) => return Err(TreeFault::Space(fault)),
        };
        left = rest;
    }
    Ok(first)
}

/// Frees the overflow pages of the chain that begins at page `first` and holds `bytes` bytes.
///
/// Each page is got once before it is freed. Corrupt names a page that was read, which ends the chain
/// early or names a page after its last. Where there are no bytes, no page is asked for.
pub fn free_chain<S: PageSpace>(
    alloc: Global,
    space: &mut S,
    first: u32,
    bytes: u64,
) -> Result<(), TreeFault>
    requires { S.Pages.refusal space.old ≡ None }
    ensures freed { OnOk result (WhereChain S.Pages space.old space.new bytes first (λ pages.
        Shifts S.Pages space.old space.new pages
        (pages_of_chain (S.Pages.used space.old) (sight S.Pages space.old pages) bytes first) [] 0)) }
    ensures spares { WhereChain S.Pages space.old space.new bytes first (λ pages.
        Spares S.Pages space.old space.new pages
        (pages_of_chain (S.Pages.used space.old) (sight S.Pages space.old pages) bytes first) 0) }
    ensures likely { WhereChain S.Pages space.old space.new bytes first (λ pages.
        S.Pages.sealed space.old ≡ false → IsLikelyOfTree S.Pages space.new pages result) }
    ensures kept { Keeps S.Pages space.old space.new }
    ensures refusal { RefusesTree S.Pages space.old space.new result }
{
    shifts_law(space);
    forest_law(space);
    let room = u64::from(space.usable() - 4);
    let mut buf = vec![in alloc; 0u8; space.page_size() as usize]?;
    let mut page = first;
    let mut left = bytes;
    'links: while left > 0 {
        left -= left.min(room);
        page = match free_link(space, page, left, buf.as_mut_slice()) {
            Ok(next) => next,
            Err(fault) => return Err(fault),
        };
    }
    Ok(())
}
