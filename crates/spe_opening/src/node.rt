//! A page of a table's tree that is read.

ghost use Rattle.std.specs.Prelude.{◌≡◌, ◌≤◌, ◌⊎◌, IfErr, IfOk, Ok, length, take};
ghost use Rattle.spe_model.specs.declared.page.PageCells.{PageCells};
ghost use Rattle.spe_model.specs.Page.{page_at};
ghost use Rattle.spe_model.specs.Tree.{header_end};
ghost use Rattle.spe_space.specs.declared.fault.SpaceFault.TheVariants.{Memory};
ghost use Rattle.spe_space.specs.declared.fault.TreeFault.TheVariants.{Corrupt, Space};
ghost use Rattle.spe_space.specs.Calls.{Reads, RefusesTree};
ghost use Rattle.spe_opening.specs.Below.{ReadsNode};

use spe_format::read_page;
use spe_model::{PageCells, PageFault};
use spe_space::{Pages, SpaceFault, TreeFault};
use std::alloc::Global;

// Where the header of a page begins: page 1 begins with that of the file.
fn header_of(page: u32) -> usize
    ensures value { result ≡ header_end page }
    ensures either { (result ≡ 0) ⊎ (result ≡ 100) }
{
    if page == 1 { 100 } else { 0 }
}

// What the bytes of a page hold. Corrupt names the page, where they are no legal page.
fn node_in(alloc: Global, page: u32, bytes: &[u8], usable: usize) -> Result<PageCells, TreeFault>
    requires low { 480 ≤ usable }
    requires high { usable ≤ 65536 }
    requires inside { usable ≤ length bytes.now }
    ensures legal { IfOk result (λ node. page_at (take usable bytes.now) (header_end page) ≡ Ok node) }
    ensures fault { (node : PageCells) → page_at (take usable bytes.now) (header_end page) ≡ Ok node
        → IfErr result (λ fault. fault ≡ Space Memory) }
    ensures only { IfErr result (λ fault. (fault ≡ Space Memory) ⊎ (fault ≡ Corrupt page)) }
{
    match read_page(alloc, bytes, header_of(page), usable) {
        Ok(node) => Ok(node),
        Err(PageFault::Memory) => Err(TreeFault::Space(SpaceFault::Memory)),
        Err(_) => Err(TreeFault::Corrupt { page }),
    }
}

// Gets a page, and reads what it holds. `buf` is one page long and is written over.
pub(crate) fn see_node<S: Pages>(
    alloc: Global,
    space: &mut S,
    page: u32,
    buf: &mut [u8],
) -> Result<PageCells, TreeFault>
    requires { length buf.old ≡ S.Pages.size space.old }
    ensures given { ReadsNode S.Pages space.old space.new page result }
    ensures kept { Reads S.Pages space.old space.new }
    ensures refusal { RefusesTree S.Pages space.old space.new result }
{
    let usable = space.usable() as usize;
    match space.get(page, buf) {
        Ok(()) => (),
        Err(fault) => return Err(TreeFault::Space(fault)),
    }
    match node_in(alloc, page, buf, usable) {
        Ok(node) => Ok(node),
        Err(fault) => Err(fault),
    }
}
