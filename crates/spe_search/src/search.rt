//! Rows by their rowids.

ghost use Rattle.std.specs.Prelude.{◌≡◌, ◌≢◌, ◌≤◌, ◌⊎◌, ℕ, ℤ, None, length, IfErr};
ghost use Rattle.spe_model.specs.Tree.{header_end, rank};
ghost use Rattle.spe_space.specs.Calls.{Reads, RefusesTree};
ghost use Rattle.spe_space.specs.Found.{AddsOfChain, MissesInChain, OnMissing, ReadsChain};
ghost use Rattle.spe_search.specs.Found.{GivesStep, GivesWhole, NamesRow, FindsPayload, FindsBelow, NamesDamage};
ghost use Rattle.spe_search.specs.Inside.{MissesTree};
ghost use Rattle.spe_search.specs.Range.{AddsOfRange, MissesInRange};

use crate::page::{Flaw, Found, Step, step_in};
use spe_model::Bytes;
use spe_space::{Pages, SpaceFault, TreeFault, extend_by_chain, is_amiss};
use std::alloc::Global;

// Where the header of a page begins: page 1 begins with that of the file.
pub fn header_of(page: u32) -> usize
    ensures value { result ≡ header_end page }
    ensures either { (result ≡ 0) ⊎ (result ≡ 100) }
{
    if page == 1 { 100 } else { 0 }
}

// Gets a page, and says where it leads.
fn step_at<S: Pages>(
    alloc: Global,
    space: &mut S,
    page: u32,
    rowid: i64,
    buf: &mut [u8],
) -> Result<Step, TreeFault>
    requires { length buf.old ≡ S.Pages.size space.old }
    ensures given { GivesStep S.Pages space.old space.new page rowid result }
    ensures only { (n : ℕ) → n ≢ page → S.Pages.seen space.new n ≡ S.Pages.seen space.old n }
    ensures page_out { IfErr result (OnMissing (λ at. at ≡ page)) }
    ensures kept { Reads S.Pages space.old space.new }
    ensures refusal { RefusesTree S.Pages space.old space.new result }
{
    let usable = space.usable() as usize;
    space.get(page, buf)?;
    match step_in(alloc, buf, header_of(page), usable, rowid) {
        Ok(step) => Ok(step),
        Err(Flaw::Broken) => Err(TreeFault::Corrupt { page }),
        Err(Flaw::Memory) => Err(TreeFault::Space(SpaceFault::Memory)),
    }
}

// The whole payload of a row of which the leaf `page` has the beginning.
pub fn whole_of<S: Pages>(
    space: &mut S,
    page: u32,
    found: Found,
    buf: &mut [u8],
) -> Result<Bytes, TreeFault>
    requires { length buf.old ≡ S.Pages.size space.old }
    ensures whole { ReadsChain S.Pages space.old space.new found.chain found.rest (λ b. b) found.local result }
    ensures damage { NamesRow S.Pages space.old space.new page found result }
    ensures adds { AddsOfChain S.Pages space.old space.new found.chain found.rest }
    ensures page_out { MissesInChain S.Pages space.old space.new found.chain found.rest result }
    ensures kept { Reads S.Pages space.old space.new }
    ensures refusal { RefusesTree S.Pages space.old space.new result }
{
    if is_amiss(found.rest, found.chain) {
        return Err(TreeFault::Corrupt { page });
    }
    let Found { local, rest, chain } = found;
    let mut whole = local.into_vec();
    extend_by_chain(space, chain, rest, buf, &mut whole)?;
    Ok(Bytes::new(whole))
}

// The row of which the leaf `page` has the beginning.
fn row_of<S: Pages>(
    space: &mut S,
    page: u32,
    found: Found,
    buf: &mut [u8],
) -> Result<Option<Bytes>, TreeFault>
    requires { length buf.old ≡ S.Pages.size space.old }
    ensures whole { GivesWhole S.Pages space.old space.new found result }
    ensures damage { NamesRow S.Pages space.old space.new page found result }
    ensures adds { AddsOfChain S.Pages space.old space.new found.chain found.rest }
    ensures page_out { MissesInChain S.Pages space.old space.new found.chain found.rest result }
    ensures kept { Reads S.Pages space.old space.new }
    ensures refusal { RefusesTree S.Pages space.old space.new result }
{
    let payload = whole_of(space, page, found, buf)?;
    Ok(Some(payload))
}

// The payload of a row, at most so many levels below a page. `buf` is one page long and is written
// over.
fn descend<S: Pages>(
    alloc: Global,
    space: &mut S,
    page: u32,
    rowid: i64,
    levels: u32,
    buf: &mut [u8],
) -> Result<Option<Bytes>, TreeFault>
    requires { length buf.old ≡ S.Pages.size space.old }
    ensures found { FindsBelow S.Pages space.old space.new page rowid levels result }
    ensures damage { NamesDamage S.Pages space.old space.new page levels result }
    ensures adds { AddsOfRange S.Pages space.old space.new page (rank rowid) (rank rowid) }
    ensures page_out { MissesInRange S.Pages space.old space.new page (rank rowid) (rank rowid) result }
    ensures kept { Reads S.Pages space.old space.new }
    ensures refusal { RefusesTree S.Pages space.old space.new result }
{
    if levels == 0 {
        return Err(TreeFault::Corrupt { page });
    }
    match step_at(alloc, space, page, rowid, buf) {
        Ok(Step::Missing) => Ok(None),
        Ok(Step::Row(found)) => row_of(space, page, found, buf),
        Ok(Step::Child(child)) => descend(alloc, space, child, rowid, levels - 1, buf),
        Err(fault) => Err(fault),
    }
}

/// The payload of the row with this rowid in the table whose tree has the page `root` as its root, or
/// `None` where there is no such row.
///
/// One page is got a level, and then the overflow pages of the row. Corrupt names a page that is no
/// legal page of a table, whose overflow page number does not go with the bytes left, or that would
/// be the tree's 21st level. Where the tree stands, PageOut names one of its pages or of the row's
/// overflow pages. ("B-tree Pages" in SQLite's Database File Format.)
pub fn find<S: Pages>(
    alloc: Global,
    space: &mut S,
    root: u32,
    rowid: i64,
) -> Result<Option<Bytes>, TreeFault>
    requires { S.Pages.refusal space.old ≡ None }
    ensures found { FindsPayload S.Pages space.old space.new root rowid result }
    ensures damage { NamesDamage S.Pages space.old space.new root 20 result }
    ensures adds { AddsOfRange S.Pages space.old space.new root (rank rowid) (rank rowid) }
    ensures page_out { MissesInRange S.Pages space.old space.new root (rank rowid) (rank rowid) result }
    ensures inside { MissesTree S.Pages space.old space.new root result }
    ensures kept { Reads S.Pages space.old space.new }
    ensures refusal { RefusesTree S.Pages space.old space.new result }
{
    let mut buf = vec![in alloc; 0u8; space.page_size() as usize]?;
    descend(alloc, space, root, rowid, 20, buf.as_mut_slice())
}
