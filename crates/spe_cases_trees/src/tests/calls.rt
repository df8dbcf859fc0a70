//! Getting and putting pages, and pages that are added, handed out and taken back.

use crate::tests::files::Patch;
use crate::tests::space::{Filling, Held, expect, lay};
use spe_space::SpaceFault;
use std::alloc::{AllocError, Global};
use std::process::Abort;
use std::test::Fail;

#[derive(Clone, Copy)]
enum Call {
    Get(u32),
    // A page that is full of one byte.
    Put(u32, u8),
    Extend,
    Alloc,
    Free(u32),
    // What page 1 names at 24, 28 and 92.
    Front,
}

#[derive(Clone, Copy, PartialEq, Eq)]
enum Answer {
    Done,
    Page(u32),
    // Each byte of the page is this one.
    Bytes(u8),
    Mixed,
    Front(u32, u32, u32),
    Out(u32, u32),
    Full(u32),
    Other,
}

// Calls, one after the other, on so many pages.
struct Calls {
    name: &'static str,
    pages: u32,
    limit: u32,
    // What stands on the pages before.
    loaded: &'static [Patch],
    calls: &'static [(Call, Answer)],
}

const COUNTED: Patch = (1, 24, b"\x00\x00\x00\x07\x00\x00\x00\x03");

static CALLS: [Calls; 6] = [
    Calls {
        name: "a page put and got again",
        pages: 3,
        limit: 3,
        loaded: &[(2, 0, &[9; 512])],
        calls: &[
            (Call::Get(2), Answer::Bytes(9)),
            (Call::Put(2, 5), Answer::Done),
            (Call::Get(2), Answer::Bytes(5)),
            (Call::Put(2, 6), Answer::Done),
            (Call::Get(2), Answer::Bytes(6)),
            (Call::Get(3), Answer::Bytes(0)),
            (Call::Put(3, 1), Answer::Done),
            (Call::Get(3), Answer::Bytes(1)),
            (Call::Put(1, 8), Answer::Done),
            (Call::Get(1), Answer::Bytes(8)),
            (Call::Get(2), Answer::Bytes(6)),
        ],
    },
    Calls {
        name: "no such page",
        pages: 3,
        limit: 128,
        loaded: &[],
        calls: &[
            (Call::Get(0), Answer::Out(0, 3)),
            (Call::Get(4), Answer::Out(4, 3)),
            (Call::Put(0, 1), Answer::Out(0, 3)),
            (Call::Put(4, 1), Answer::Out(4, 3)),
            (Call::Free(0), Answer::Out(0, 3)),
            (Call::Free(4), Answer::Out(4, 3)),
            (Call::Get(3), Answer::Bytes(0)),
            (Call::Extend, Answer::Page(4)),
            (Call::Get(0), Answer::Out(0, 19)),
            (Call::Get(20), Answer::Out(20, 19)),
            (Call::Put(20, 1), Answer::Out(20, 19)),
            (Call::Free(20), Answer::Out(20, 19)),
        ],
    },
    Calls {
        name: "pages are added",
        pages: 3,
        limit: 35,
        loaded: &[COUNTED, (1, 92, b"\x00\x00\x00\x05"), (3, 0, &[9; 512])],
        calls: &[
            (Call::Front, Answer::Front(7, 3, 5)),
            (Call::Extend, Answer::Page(4)),
            (Call::Front, Answer::Front(8, 19, 8)),
            (Call::Get(3), Answer::Bytes(9)),
            (Call::Get(4), Answer::Bytes(0)),
            (Call::Get(19), Answer::Bytes(0)),
            (Call::Put(19, 1), Answer::Done),
            (Call::Extend, Answer::Page(20)),
            (Call::Front, Answer::Front(9, 35, 9)),
            (Call::Get(19), Answer::Bytes(1)),
            (Call::Get(35), Answer::Bytes(0)),
            (Call::Extend, Answer::Full(35)),
            (Call::Front, Answer::Front(9, 35, 9)),
            (Call::Get(36), Answer::Out(36, 35)),
        ],
    },
    // After the greatest number the change counter is 0.
    Calls {
        name: "one page short of room",
        pages: 1,
        limit: 32,
        loaded: &[(1, 24, b"\xff\xff\xff\xff\x00\x00\x00\x01")],
        calls: &[
            (Call::Extend, Answer::Page(2)),
            (Call::Front, Answer::Front(0, 17, 0)),
            (Call::Extend, Answer::Full(17)),
            (Call::Alloc, Answer::Full(17)),
        ],
    },
    Calls {
        name: "free pages, the least first",
        pages: 9,
        limit: 9,
        loaded: &[(5, 0, &[9; 512])],
        calls: &[
            (Call::Free(1), Answer::Done),
            (Call::Alloc, Answer::Full(9)),
            (Call::Free(7), Answer::Done),
            (Call::Free(5), Answer::Done),
            (Call::Free(9), Answer::Done),
            (Call::Alloc, Answer::Page(5)),
            (Call::Get(5), Answer::Bytes(9)),
            (Call::Free(8), Answer::Done),
            (Call::Alloc, Answer::Page(7)),
            (Call::Alloc, Answer::Page(8)),
            (Call::Alloc, Answer::Page(9)),
            (Call::Alloc, Answer::Full(9)),
        ],
    },
    Calls {
        name: "all sixteen are handed out",
        pages: 3,
        limit: 35,
        loaded: &[COUNTED],
        calls: &[
            (Call::Free(2), Answer::Done),
            (Call::Alloc, Answer::Page(2)),
            (Call::Front, Answer::Front(7, 3, 0)),
            (Call::Alloc, Answer::Page(4)),
            (Call::Front, Answer::Front(8, 19, 8)),
            (Call::Alloc, Answer::Page(5)),
            (Call::Alloc, Answer::Page(6)),
            (Call::Alloc, Answer::Page(7)),
            (Call::Free(4), Answer::Done),
            (Call::Alloc, Answer::Page(4)),
            (Call::Alloc, Answer::Page(8)),
            (Call::Alloc, Answer::Page(9)),
            (Call::Alloc, Answer::Page(10)),
            (Call::Alloc, Answer::Page(11)),
            (Call::Alloc, Answer::Page(12)),
            (Call::Alloc, Answer::Page(13)),
            (Call::Alloc, Answer::Page(14)),
            (Call::Alloc, Answer::Page(15)),
            (Call::Alloc, Answer::Page(16)),
            (Call::Alloc, Answer::Page(17)),
            (Call::Alloc, Answer::Page(18)),
            (Call::Alloc, Answer::Page(19)),
            (Call::Front, Answer::Front(8, 19, 8)),
            (Call::Alloc, Answer::Page(20)),
            (Call::Front, Answer::Front(9, 35, 9)),
            (Call::Get(20), Answer::Bytes(0)),
        ],
    },
];

fn fault_of(fault: SpaceFault) -> Answer {
    match fault {
        SpaceFault::PageOut { page, pages } => Answer::Out(page, pages),
        SpaceFault::Full { pages } => Answer::Full(pages),
        _ => Answer::Other,
    }
}

fn done_of(answer: Result<(), SpaceFault>) -> Answer {
    answer.map_or_else(fault_of, |_| Answer::Done)
}

fn page_of(answer: Result<u32, SpaceFault>) -> Answer {
    answer.map_or_else(fault_of, Answer::Page)
}

fn bytes_of(bytes: &[u8]) -> Answer {
    match bytes.first() {
        Some(first) if bytes.iter().all(|byte| byte == first) => Answer::Bytes(*first),
        _ => Answer::Mixed,
    }
}

fn number_at(bytes: &[u8], at: usize) -> u32 {
    match bytes.get(at..).and_then(|bytes| bytes.first_chunk::<4>()) {
        Some(number) => u32::from_be_bytes(*number),
        None => 0,
    }
}

fn front_of(bytes: &[u8]) -> Answer {
    Answer::Front(
        number_at(bytes, 24),
        number_at(bytes, 28),
        number_at(bytes, 92),
    )
}

fn got(alloc: Global, held: &mut Held, page: u32) -> Result<Answer, AllocError> {
    match held.get(alloc, page)? {
        Ok(bytes) => Ok(bytes_of(&bytes)),
        Err(fault) => Ok(fault_of(fault)),
    }
}

fn front(alloc: Global, held: &mut Held) -> Result<Answer, AllocError> {
    match held.get(alloc, 1)? {
        Ok(bytes) => Ok(front_of(&bytes)),
        Err(fault) => Ok(fault_of(fault)),
    }
}

fn put(alloc: Global, held: &mut Held, page: u32, byte: u8) -> Result<Answer, AllocError> {
    let answer = held.put(alloc, page, byte)?;
    Ok(done_of(answer))
}

fn answer_of(alloc: Global, held: &mut Held, call: Call) -> Result<Answer, AllocError> {
    match call {
        Call::Get(page) => got(alloc, held, page),
        Call::Put(page, byte) => put(alloc, held, page, byte),
        Call::Extend => Ok(page_of(held.extend())),
        Call::Alloc => Ok(page_of(held.alloc())),
        Call::Free(page) => Ok(done_of(held.free(page))),
        Call::Front => front(alloc, held),
    }
}

// A page of zeros but for those of these patches that are its own.
fn loaded_page(alloc: Global, page: u32, patches: &[Patch]) -> Result<Vec<u8>, AllocError> {
    let mut bytes = vec![in alloc; 0u8; 512]?;
    for (of, at, patch) in patches {
        if *of == page {
            lay(&mut bytes, *at, *patch);
        }
    }
    Ok(bytes)
}

fn held_of(alloc: Global, calls: &Calls) -> Result<Held, AllocError> {
    let mut filling = Filling::limited(alloc, calls.pages, calls.limit)?;
    for page in 1..=calls.pages {
        let bytes = loaded_page(alloc, page, calls.loaded)?;
        filling.load(page, &bytes);
    }
    Ok(filling.into_held())
}

fn expect_calls(rt: &impl Abort, alloc: Global, calls: &Calls) -> Result<(), AllocError> {
    let mut held = held_of(alloc, calls)?;
    for (row, (call, answer)) in calls.calls.iter().enumerate() {
        let given = answer_of(alloc, &mut held, *call)?;
        expect(rt, calls.name, row as i64, given == *answer);
    }
    Ok(())
}

#[test]
fn pages(rt: HostRuntime) -> Result<(), Fail> {
    for calls in &CALLS {
        expect_calls(&rt, rt.alloc(), calls)?;
    }
    Ok(())
}
