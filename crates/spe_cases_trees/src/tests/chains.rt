//! Chains of overflow pages, read by themselves.

ghost use Rattle.std.specs.Prelude.{◌≡◌, IfOk, None};
ghost use Rattle.spe_space.specs.View.{map_refusal};

use crate::tests::long::{link_of, payload_of};
use crate::tests::space::{Filling, expect};
use spe_space::{MapSpace, SpaceFault, TreeFault, read_chain};
use std::alloc::{AllocError, Global};
use std::test::Fail;

#[derive(Clone, Copy, PartialEq, Eq)]
enum Answer {
    Well,
    Corrupt(u32),
    // There is no such page; there are five.
    Out(u32),
    Other,
}

// A chain in five pages of 512 bytes.
struct Chain {
    name: &'static str,
    bytes: u32,
    first: u32,
    // Its pages in order, and the page that the last of them names.
    order: &'static [u32],
    last: u32,
    answer: Answer,
}

static CHAINS: [Chain; 16] = [
    Chain {
        name: "no bytes",
        bytes: 0,
        first: 0,
        order: &[],
        last: 0,
        answer: Answer::Well,
    },
    Chain {
        name: "one byte",
        bytes: 1,
        first: 5,
        order: &[5],
        last: 0,
        answer: Answer::Well,
    },
    Chain {
        name: "one page, exactly full",
        bytes: 508,
        first: 3,
        order: &[3],
        last: 0,
        answer: Answer::Well,
    },
    Chain {
        name: "one byte on a second page",
        bytes: 509,
        first: 4,
        order: &[4, 2],
        last: 0,
        answer: Answer::Well,
    },
    Chain {
        name: "two full pages",
        bytes: 1016,
        first: 2,
        order: &[2, 5],
        last: 0,
        answer: Answer::Well,
    },
    Chain {
        name: "page 1 among them",
        bytes: 1017,
        first: 3,
        order: &[3, 1, 2],
        last: 0,
        answer: Answer::Well,
    },
    Chain {
        name: "no first page",
        bytes: 1,
        first: 0,
        order: &[],
        last: 0,
        answer: Answer::Out(0),
    },
    // No page is asked for.
    Chain {
        name: "a first page for nothing",
        bytes: 0,
        first: 3,
        order: &[3],
        last: 0,
        answer: Answer::Well,
    },
    Chain {
        name: "the first page is the last",
        bytes: 509,
        first: 3,
        order: &[3],
        last: 0,
        answer: Answer::Corrupt(3),
    },
    Chain {
        name: "the second page is the last",
        bytes: 1017,
        first: 3,
        order: &[3, 5],
        last: 0,
        answer: Answer::Corrupt(5),
    },
    Chain {
        name: "a full page that goes on",
        bytes: 508,
        first: 3,
        order: &[3],
        last: 4,
        answer: Answer::Corrupt(3),
    },
    Chain {
        name: "a second page that goes on",
        bytes: 509,
        first: 3,
        order: &[3, 4],
        last: 5,
        answer: Answer::Corrupt(4),
    },
    // The page after is not asked for.
    Chain {
        name: "a last page that names none there is",
        bytes: 508,
        first: 3,
        order: &[3],
        last: 6,
        answer: Answer::Corrupt(3),
    },
    Chain {
        name: "a first page past the last",
        bytes: 1,
        first: 6,
        order: &[],
        last: 0,
        answer: Answer::Out(6),
    },
    Chain {
        name: "a second page past the last",
        bytes: 509,
        first: 3,
        order: &[3],
        last: 6,
        answer: Answer::Out(6),
    },
    Chain {
        name: "the greatest number",
        bytes: 1017,
        first: 3,
        order: &[3, 4],
        last: 4294967295,
        answer: Answer::Out(4294967295),
    },
];

// Fills the pages of a chain with a payload, 508 bytes a page.
fn load_chain(
    alloc: Global,
    filling: &mut Filling,
    chain: &Chain,
    payload: &[u8],
) -> Result<(), AllocError> {
    let mut left = payload;
    for (i, page) in chain.order.iter().enumerate() {
        let (here, rest) = left.split_at(left.len().min(508));
        let next = chain.order.get(i.wrapping_add(1)).unwrap_or(&chain.last);
        let bytes = link_of(alloc, *next, here)?;
        filling.load(*page, &bytes);
        left = rest;
    }
    Ok(())
}

fn space_of(alloc: Global, chain: &Chain, payload: &[u8]) -> Result<MapSpace, AllocError>
    ensures { IfOk result (λ s. map_refusal s ≡ None) }
{
    let mut filling = Filling::new(alloc, false, 5)?;
    load_chain(alloc, &mut filling, chain, payload)?;
    Ok(filling.into_space())
}

// What a chain of this first page says, and whether it is the payload.
fn answer_in(alloc: Global, space: &mut MapSpace, first: u32, payload: &[u8]) -> Answer
    requires { map_refusal space.old ≡ None }
{
    match read_chain(alloc, space, first, payload.len() as u64) {
        Ok(bytes) if bytes.as_slice() == payload => Answer::Well,
        Err(TreeFault::Corrupt { page }) => Answer::Corrupt(page),
        Err(TreeFault::Space(SpaceFault::PageOut { page, pages: 5 })) => Answer::Out(page),
        _ => Answer::Other,
    }
}

fn holds(alloc: Global, chain: &Chain) -> Result<bool, AllocError> {
    let payload = payload_of(alloc, chain.bytes)?;
    let mut space = space_of(alloc, chain, &payload)?;
    Ok(answer_in(alloc, &mut space, chain.first, &payload) == chain.answer)
}

#[test]
fn chains(rt: HostRuntime) -> Result<(), Fail> {
    for chain in &CHAINS {
        let holds = holds(rt.alloc(), chain)?;
        expect(&rt, chain.name, 0, holds);
    }
    Ok(())
}

// Fills the pages after page 1 with these bytes, one after the other, up to page 1970.
fn load_links(alloc: Global, filling: &mut Filling, payload: &[u8]) -> Result<(), AllocError> {
    let mut page: u32 = 2;
    for here in payload.chunks(508) {
        let next = if page < 1970 { page.wrapping_add(1) } else { 0 };
        let bytes = link_of(alloc, next, here)?;
        filling.load(page, &bytes);
        page = next;
    }
    Ok(())
}

fn linked(alloc: Global, payload: &[u8]) -> Result<MapSpace, AllocError>
    ensures { IfOk result (λ s. map_refusal s ≡ None) }
{
    let mut filling = Filling::new(alloc, false, 1970)?;
    load_links(alloc, &mut filling, payload)?;
    Ok(filling.into_space())
}

// Whether the pages after page 1, which hold these million bytes, are read so; the last of the 1969
// has 256.
fn reads_million(alloc: Global, payload: &[u8]) -> Result<bool, AllocError> {
    let mut space = linked(alloc, payload)?;
    Ok(answer_in(alloc, &mut space, 2, payload) == Answer::Well)
}

#[test]
fn million(rt: HostRuntime) -> Result<(), Fail> {
    let payload = payload_of(rt.alloc(), 1_000_000)?;
    let read = reads_million(rt.alloc(), &payload)?;
    assert!(rt; read);
    Ok(())
}
