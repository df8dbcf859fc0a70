//! Chains of overflow pages, written, read back and freed.

ghost use Rattle.std.specs.Prelude.{◌≡◌, IfOk, None};
ghost use Rattle.spe_space.specs.View.{map_refusal};

use spe_space::{MapSpace, Pages, SpaceFault, TreeFault, read_chain};
use spe_write::{free_chain, write_chain};
use std::alloc::{AllocError, Global};
use std::process::Abort;
use std::test::Fail;

#[derive(Clone, Copy, Debug, PartialEq, Eq)]
enum Answer {
    // All was as it should be, and the space has so many pages.
    Pages(u32),
    // The space may not grow past so many pages.
    Full(u32),
    // The bytes read are others.
    Bytes,
    Other,
}

// A chain in a space of 512 bytes a page, of which there is one at first.
struct Chain {
    name: &'static str,
    bytes: u32,
    limit: u32,
    answer: Answer,
}

static CHAINS: [Chain; 12] = [
    Chain {
        name: "no bytes",
        bytes: 0,
        limit: 64,
        answer: Answer::Pages(1),
    },
    Chain {
        name: "one byte",
        bytes: 1,
        limit: 64,
        answer: Answer::Pages(17),
    },
    Chain {
        name: "439 bytes",
        bytes: 439,
        limit: 64,
        answer: Answer::Pages(17),
    },
    Chain {
        name: "508 bytes, a page exactly full",
        bytes: 508,
        limit: 64,
        answer: Answer::Pages(17),
    },
    Chain {
        name: "a byte on a second page",
        bytes: 509,
        limit: 64,
        answer: Answer::Pages(17),
    },
    Chain {
        name: "947 bytes on two pages",
        bytes: 947,
        limit: 64,
        answer: Answer::Pages(17),
    },
    Chain {
        name: "two pages exactly full",
        bytes: 1016,
        limit: 64,
        answer: Answer::Pages(17),
    },
    Chain {
        name: "sixteen pages exactly full",
        bytes: 8128,
        limit: 17,
        answer: Answer::Pages(17),
    },
    Chain {
        name: "a byte on a seventeenth",
        bytes: 8129,
        limit: 64,
        answer: Answer::Pages(33),
    },
    Chain {
        name: "a million bytes on 1969 pages",
        bytes: 1_000_000,
        limit: 2000,
        answer: Answer::Pages(1985),
    },
    Chain {
        name: "no room for a page",
        bytes: 1,
        limit: 16,
        answer: Answer::Full(1),
    },
    Chain {
        name: "no room for the last page",
        bytes: 8129,
        limit: 32,
        answer: Answer::Full(17),
    },
];

/// So many bytes that count up to 250, again and again.
pub fn payload_of(alloc: Global, length: u32) -> Result<Vec<u8>, AllocError> {
    let mut bytes = Vec::new(alloc);
    for i in 0..length {
        bytes.push((i % 251) as u8)?;
    }
    Ok(bytes)
}

/// One page of 512 bytes, beside which there may come others.
#[tactic(auto, unfolding(spe_model::specs::Header::is_page_size))]
pub fn space_up_to(alloc: Global, limit: u32) -> Result<MapSpace, AllocError>
    ensures { IfOk result (λ s. map_refusal s ≡ None) }
{
    MapSpace::new(alloc, 512, 1, limit.clamp(1, 4096))
}

// Page 0 is none, and so the space says how many pages it has.
fn pages_of(space: &mut MapSpace, alloc: Global) -> Result<Answer, AllocError> {
    let mut buf = vec![in alloc; 0u8; space.page_size() as usize]?;
    Ok(match space.get(0, &mut buf) {
        Err(SpaceFault::PageOut { page: 0, pages }) => Answer::Pages(pages),
        _ => Answer::Other,
    })
}

fn fault_of(fault: TreeFault) -> Answer {
    match fault {
        TreeFault::Space(SpaceFault::Full { pages }) => Answer::Full(pages),
        _ => Answer::Other,
    }
}

// The pages that a chain had are free once it is freed: a second one takes them.
fn answer_of(alloc: Global, chain: &Chain) -> Result<Answer, AllocError> {
    let payload = payload_of(alloc, chain.bytes)?;
    let mut space = space_up_to(alloc, chain.limit)?;
    let length = u64::from(chain.bytes);
    let first = match write_chain(alloc, &mut space, &payload) {
        Ok(first) => first,
        Err(fault) => return Ok(fault_of(fault)),
    };
    match read_chain(alloc, &mut space, first, length) {
        Ok(bytes) if bytes.as_slice() == payload.as_slice() => (),
        _ => return Ok(Answer::Bytes),
    }
    let Ok(()) = free_chain(alloc, &mut space, first, length) else {
        return Ok(Answer::Other);
    };
    let Ok(_) = write_chain(alloc, &mut space, &payload) else {
        return Ok(Answer::Other);
    };
    pages_of(&mut space, alloc)
}

fn expect_chain(rt: &impl Abort, alloc: Global, chain: &Chain) -> Result<(), AllocError> {
    let answer = answer_of(alloc, chain)?;
    assert_eq!(rt; answer, chain.answer, "{}", chain.name);
    Ok(())
}

#[test]
fn chains(rt: HostRuntime) -> Result<(), Fail> {
    for chain in &CHAINS {
        expect_chain(&rt, rt.alloc(), chain)?;
    }
    Ok(())
}
