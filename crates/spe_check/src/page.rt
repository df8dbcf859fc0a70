//! A page of a tree.

ghost use Rattle.std.specs.Prelude.{◌≡◌, ◌≤◌, ◌<◌, ◌⊎◌, OnOk, IfErr, length, take};
ghost use Rattle.spe_model.specs.Kind.{is_leaf, is_table};
ghost use Rattle.spe_model.specs.Page.{page_at};
ghost use Rattle.spe_model.specs.Tree.{header_end};
ghost use Rattle.spe_check.specs.Pages.{is_of_sort, stands_well, IsReading, IsHaltOf, TriesRead, TriesPlace, TellsSort};
ghost use Rattle.spe_check.specs.Shown.{Walked, RefusesHalt, AsksWithin};
ghost use Rattle.spe_check.specs.Tries.{IsBroken};

use crate::halt::Halt;
use crate::met::Met;
use crate::rule::try_rule;
use spe_format::LegalPage;
use spe_model::{Kind, PageCells, PageFault};
use spe_space::{Pages, SpaceFault};
use std::alloc::Global;

/// Whether pages of this kind have no children.
pub fn is_leaf(kind: Kind) -> bool
    ensures { result ≡ is_leaf kind }
{
    matches!(kind, Kind::TableLeaf | Kind::IndexLeaf)
}

/// Whether pages of this kind stand in the tree of a table.
pub fn is_table(kind: Kind) -> bool
    ensures { result ≡ is_table kind }
{
    matches!(kind, Kind::TableLeaf | Kind::TableInterior)
}

fn is_of_sort(table: bool, kind: Kind) -> bool
    ensures { result ≡ is_of_sort table kind }
{
    if table {
        is_table(kind)
    } else {
        !is_table(kind)
    }
}

// Whether a leaf may stand where so many levels are left: where the first one stood, if one was met.
fn stands_well(leaf: Option<u32>, levels: u32, kind: Kind) -> bool
    ensures { result ≡ stands_well leaf levels kind }
{
    match leaf {
        Some(level) => levels != 0 && (!is_leaf(kind) || levels == level),
        None => levels != 0,
    }
}

fn header_of(page: u32) -> usize
    ensures value { result ≡ header_end page }
    ensures either { (result ≡ 0) ⊎ (result ≡ 100) }
{
    if page == 1 { 100 } else { 0 }
}

/// Tries the rules of a page's kind and of its place in the tree. So many levels are left, it among
/// them; `leaf` says how many were left at the first leaf of the tree, where one was met.
pub fn try_place(
    table: bool,
    leaf: Option<u32>,
    levels: u32,
    page: u32,
    kind: Kind,
) -> Result<(), Halt>
    ensures tried { TriesPlace table leaf levels page kind result }
    ensures some { OnOk result (0 < levels) }
    ensures broken { IfErr result IsBroken }
{
    match try_rule(is_of_sort(table, kind), page, 4) {
        Ok(()) => (),
        Err(halt) => return Err(halt),
    }
    try_rule(stands_well(leaf, levels, kind), page, 5)
}

fn halt_of(fault: PageFault, page: u32) -> Halt
    ensures { IsHaltOf page fault result }
{
    match fault {
        PageFault::Memory => Halt::Space(SpaceFault::Memory),
        _ => Halt::Broken { page, rule: 3 },
    }
}

// What the bytes of a page hold.
fn node_in<'b>(
    alloc: Global,
    bytes: &'b [u8],
    at: usize,
    usable: usize,
    page: u32,
) -> Result<LegalPage<'b>, Halt>
    requires at { (at ≡ 0) ⊎ (at ≡ 100) }
    requires low { 480 ≤ usable }
    requires high { usable ≤ 65536 }
    requires inside { usable ≤ length bytes.now }
    ensures { IsReading page (page_at (take usable bytes.now) at) result }
{
    match LegalPage::new(alloc, bytes, at, usable) {
        Ok(node) => Ok(node),
        Err(fault) => Err(halt_of(fault, page)),
    }
}

/// Meets a page, whose number stands on the page `holder`, and reads what it holds. `buf` is one page
/// long, and lends the page's cells.
///
/// Broken is rule 1 or 2 as for any page that is met, and rule 3 where the page is not of the format.
pub fn read_met<'b, S: Pages>(
    alloc: Global,
    space: &mut S,
    met: &mut Met,
    holder: u32,
    page: u32,
    buf: &'b mut [u8],
) -> Result<LegalPage<'b>, Halt>
    requires { length buf.old ≡ S.Pages.size space.old }
    ensures tried { TriesRead S.Pages space.new met.old met.new holder page result }
    ensures sort { TellsSort S.Pages space.new page result }
    ensures walked { Walked S.Pages space.old space.new met.old met.new }
    ensures refusal { RefusesHalt S.Pages space.old space.new result }
    ensures asks { AsksWithin met.old result }
{
    match met.meet(holder, page) {
        Ok(()) => (),
        Err(halt) => return Err(halt),
    }
    let usable = space.usable() as usize;
    space.get(page, buf)?;
    node_in(alloc, buf, header_of(page), usable, page)
}

/// The same with copies of the page's cells.
pub fn copy_met<S: Pages>(
    alloc: Global,
    space: &mut S,
    met: &mut Met,
    holder: u32,
    page: u32,
    buf: &mut [u8],
) -> Result<PageCells, Halt>
    requires { length buf.old ≡ S.Pages.size space.old }
    ensures tried { TriesRead S.Pages space.new met.old met.new holder page result }
    ensures sort { TellsSort S.Pages space.new page result }
    ensures walked { Walked S.Pages space.old space.new met.old met.new }
    ensures refusal { RefusesHalt S.Pages space.old space.new result }
    ensures asks { AsksWithin met.old result }
{
    match read_met(alloc, space, met, holder, page, buf) {
        Ok(node) => Ok(node.copied(alloc)?),
        Err(halt) => Err(halt),
    }
}
