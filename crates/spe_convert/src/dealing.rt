//! Free pages dealt out to lists.

ghost use Rattle.std.specs.Prelude.{◌≡◌, ◌+◌, ◌<◌, ◌≤◌, ◌++◌, length, map, IfOk, OnOk};
ghost use Rattle.spe_convert.specs.Dealt.{dealt, freed_at, made_at, made_of};
ghost use Rattle.spe_convert.specs.Trunk.{bare};

use crate::trunk::Trunk;
use std::alloc::{AllocError, Global};

// The first trunks of lists that have no other page.
fn bare_trunks(alloc: Global, pages: &[u32]) -> Result<Vec<Trunk>, AllocError>
    ensures { IfOk result (λ trunks. trunks.items ≡ map bare pages.now) }
{
    let mut trunks = Vec::new(alloc);
    let mut left = pages;
    while let [first, rest @ ..] = left {
        trunks.push(Trunk::bare(alloc, *first))?;
        left = rest;
    }
    Ok(trunks)
}

// Frees a page into this list, and keeps the trunk that this makes behind the others.
fn free_into(
    alloc: Global,
    most: usize,
    firsts: &mut [Trunk],
    list: usize,
    page: u32,
    others: &mut Vec<Trunk>,
) -> Result<(), AllocError>
    requires { list < length firsts.old }
    ensures firsts { OnOk result (firsts.new ≡ freed_at most list page firsts.old) }
    ensures others { OnOk result (others.new.items ≡ others.old.items ++ made_at most list page firsts.old) }
    ensures long { length firsts.new ≡ length firsts.old }
{
    let first = &mut firsts[list];
    if first.has_room(most) {
        return first.add_leaf(page);
    }
    others.push(first.move_on(alloc, page))?;
    Ok(())
}

/// Frees pages into the lists with these first trunks, in turn, and keeps the trunks that this makes
/// behind the others.
pub fn deal(
    alloc: Global,
    most: usize,
    firsts: &mut [Trunk],
    pages: &[u32],
    others: &mut Vec<Trunk>,
) -> Result<(), AllocError>
    requires { 1 ≤ length firsts.old }
    ensures firsts { OnOk result (firsts.new ≡ dealt most (length firsts.old) 0 firsts.old pages.now) }
    ensures others { OnOk result (others.new.items ≡ others.old.items ++ made_of most (length firsts.old) 0 firsts.old pages.now) }
{
    let lists = firsts.len();
    for index in 0..pages.len() {
        free_into(alloc, most, firsts, index % lists, pages[index], others)?;
    }
    Ok(())
}

/// The node page's lists: the first trunks, with what is dealt out to them, and then the other trunks in
/// the order in which they are made.
pub fn deal_out(
    alloc: Global,
    most: usize,
    firsts: &[u32],
    pages: &[u32],
) -> Result<(Vec<Trunk>, Vec<Trunk>), AllocError>
    requires { 1 ≤ length firsts.now }
    ensures firsts { IfOk result (λ lists. lists.0.items ≡ dealt most (length firsts.now) 0 (map bare firsts.now) pages.now) }
    ensures others { IfOk result (λ lists. lists.1.items ≡ made_of most (length firsts.now) 0 (map bare firsts.now) pages.now) }
{
    let mut trunks = bare_trunks(alloc, firsts)?;
    let mut others = Vec::new(alloc);
    deal(alloc, most, &mut trunks, pages, &mut others)?;
    Ok((trunks, others))
}
