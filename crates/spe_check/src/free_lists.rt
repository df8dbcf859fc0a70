//! The free lists of a database.

ghost use Rattle.std.specs.Prelude.{◌≡◌, ◌+◌, ◌*◌, ◌^◌, ◌≤◌, ◌==◌, IfOk, length, take};
ghost use Rattle.spe_model.specs.FreeList.{is_list_count};
ghost use Rattle.spe_check.specs.FreeLists.{TriesFree, TriesList, TriesLists, TriesNode, TriesStock};
ghost use Rattle.spe_check.specs.Shown.{Walked, RefusesHalt, AsksWithin};

use crate::halt::Halt;
use crate::met::Met;
use crate::rule::try_rule;
use crate::trunk::{get_met, try_trunks};
use spe_model::{Header, u32_of};
use spe_space::Pages;

fn is_list_count(count: u32) -> bool
    ensures { result ≡ is_list_count count }
{
    1 <= count && count <= 16
}

// The part of a node page that names its lists: their number, and at most 16 first trunks.
fn names_in(page: &[u8]) -> [u8; 68]
    requires { 68 ≤ length page.now }
    ensures { result ≡ take 68 page.now }
{
    let mut names = [0u8; 68];
    names.copy_from_slice(&page[..68]);
    names
}

// Tries a list that a node page names, from its first trunk on, and answers how many pages it has.
fn try_list<S: Pages>(
    space: &mut S,
    met: &mut Met,
    node: u32,
    first: u32,
    buf: &mut [u8],
) -> Result<u64, Halt>
    requires { length buf.old ≡ S.Pages.size space.old }
    ensures tried { TriesList S.Pages space.new met.old met.new node first result }
    ensures few { IfOk result (λ free. free ≤ 2 ^ 48) }
    ensures walked { Walked S.Pages space.old space.new met.old met.new }
    ensures refusal { RefusesHalt S.Pages space.old space.new result }
    ensures asks { AsksWithin met.old result }
{
    if first == 0 {
        return Err(Halt::Broken {
            page: node,
            rule: 1,
        });
    }
    try_trunks(space, met, node, first, buf)
}

// Tries the lists that a node page names, and answers how many pages they have.
fn try_lists<S: Pages>(
    space: &mut S,
    met: &mut Met,
    node: u32,
    names: &[u8],
    count: usize,
    buf: &mut [u8],
) -> Result<u64, Halt>
    requires size { length buf.old ≡ S.Pages.size space.old }
    requires few { count ≤ 16 }
    requires inside { 4 + 4 * count ≤ length names.now }
    ensures tried { TriesLists S.Pages space.new met.old met.new node names.now count result }
    ensures walked { Walked S.Pages space.old space.new met.old met.new }
    ensures refusal { RefusesHalt S.Pages space.old space.new result }
    ensures asks { AsksWithin met.old result }
{
    let mut free = 0;
    for index in 0..count {
        let first = u32_of(names, 4 + 4 * index);
        match try_list(space, met, node, first, buf) {
            Ok(more) => free += more,
            Err(halt) => return Err(halt),
        }
    }
    Ok(free)
}

// Tries a node page and its lists, and answers how many pages these have.
fn try_node<S: Pages>(space: &mut S, met: &mut Met, node: u32, buf: &mut [u8]) -> Result<u64, Halt>
    requires { length buf.old ≡ S.Pages.size space.old }
    ensures tried { TriesNode S.Pages space.new met.old met.new node result }
    ensures walked { Walked S.Pages space.old space.new met.old met.new }
    ensures refusal { RefusesHalt S.Pages space.old space.new result }
    ensures asks { AsksWithin met.old result }
{
    let usable = space.usable() as usize;
    match get_met(space, met, 1, node, buf) {
        Ok(()) => (),
        Err(halt) => return Err(halt),
    }
    let names = names_in(&buf[..usable]);
    let count = u32_of(&names, 0);
    match try_rule(is_list_count(count), node, 11) {
        Ok(()) => (),
        Err(halt) => return Err(halt),
    }
    try_lists(space, met, node, &names, count as usize, buf)
}

fn are_as_many(free: u64, number: u32) -> bool
    ensures { result ≡ (free == number) }
{
    free == u64::from(number)
}

// Tries the only list of a database in stock form, and whether it has so many pages.
fn try_stock<S: Pages>(
    space: &mut S,
    met: &mut Met,
    first: u32,
    number: u32,
    buf: &mut [u8],
) -> Result<u64, Halt>
    requires { length buf.old ≡ S.Pages.size space.old }
    ensures tried { TriesStock S.Pages space.new met.old met.new first number result }
    ensures walked { Walked S.Pages space.old space.new met.old met.new }
    ensures refusal { RefusesHalt S.Pages space.old space.new result }
    ensures asks { AsksWithin met.old result }
{
    let free = match try_trunks(space, met, 1, first, buf) {
        Ok(free) => free,
        Err(halt) => return Err(halt),
    };
    match try_rule(are_as_many(free, number), 1, 10) {
        Ok(()) => Ok(free),
        Err(halt) => Err(halt),
    }
}

/// Tries the free lists of a database whose page 1 begins with this header, and answers how many free
/// pages they have, trunks among them and the node page not.
///
/// `buf` is one page long and is written over. The node page and each trunk are got once, and page 1 is
/// not got.
pub fn try_free<S: Pages>(
    space: &mut S,
    met: &mut Met,
    header: &Header,
    buf: &mut [u8],
) -> Result<u64, Halt>
    requires { length buf.old ≡ S.Pages.size space.old }
    ensures tried { TriesFree S.Pages space.new met.old met.new header.now result }
    ensures walked { Walked S.Pages space.old space.new met.old met.new }
    ensures refusal { RefusesHalt S.Pages space.old space.new result }
    ensures asks { AsksWithin met.old result }
{
    match header.node() {
        Some(node) => try_node(space, met, node, buf),
        None => try_stock(space, met, header.first_free, header.free_count, buf),
    }
}
