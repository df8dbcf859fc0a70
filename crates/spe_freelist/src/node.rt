//! The node page.

ghost use Rattle.std.specs.Prelude.{◌≡◌, ◌≢◌, ◌+◌, ◌*◌, ◌≤◌, ℕ, length, IfErr, IfOk};
ghost use Rattle.spe_space.specs.Calls.{Reads, RefusesTree};
ghost use Rattle.spe_space.specs.Found.{OnMissing};
ghost use Rattle.spe_freelist.specs.Node.{firsts, IsNamed, ReadsNode};

use crate::trunks::Trunks;
use spe_model::u32_of;
use spe_space::{Pages, TreeFault};
use std::alloc::{AllocError, Global};

// The first trunks that a node page names, in their order.
fn firsts_in(alloc: Global, page: &[u8], count: usize) -> Result<Vec<u32>, AllocError>
    requires { 4 + 4 * count ≤ length page.now }
    ensures { IfOk result (λ trunks. trunks.items ≡ firsts page.now count) }
{
    let mut trunks = Vec::new(alloc);
    for index in 0..count {
        trunks.push(u32_of(page, 4 + 4 * index))?;
    }
    Ok(trunks)
}

// The first trunks that a node page names, or `None` where it breaks a rule.
fn node_in(alloc: Global, page: &[u8]) -> Result<Option<Trunks>, AllocError>
    requires { 68 ≤ length page.now }
    ensures { IfOk result (IsNamed page.now) }
{
    let count = u32_of(page, 0);
    if count == 0 || count > 16 {
        return Ok(None);
    }
    let trunks = firsts_in(alloc, page, count as usize)?;
    if trunks.as_slice().contains(&0) {
        return Ok(None);
    }
    Ok(Some(Trunks::new(trunks)))
}

/// The first trunks that the node page `node` names, of which there are 1 to 16.
///
/// Corrupt names the node page where it names another number of lists, or page 0 as a first trunk. No
/// other page is asked for, and this one once. (This project's own: the number of lists in four bytes, and then as many first
/// trunks, each in four.)
pub fn read_node<S: Pages>(alloc: Global, space: &mut S, node: u32) -> Result<Trunks, TreeFault>
    ensures found { ReadsNode S.Pages space.old space.new node result }
    ensures only { (n : ℕ) → n ≢ node → S.Pages.seen space.new n ≡ S.Pages.seen space.old n }
    ensures page_out { IfErr result (OnMissing (λ at. at ≡ node)) }
    ensures kept { Reads S.Pages space.old space.new }
    ensures refusal { RefusesTree S.Pages space.old space.new result }
{
    let mut buf = vec![in alloc; 0u8; space.page_size() as usize]?;
    let page = buf.as_mut_slice();
    space.get(node, page)?;
    match node_in(alloc, page)? {
        Some(trunks) => Ok(trunks),
        None => Err(TreeFault::Corrupt { page: node }),
    }
}
