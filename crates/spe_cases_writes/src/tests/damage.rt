//! Chains that are freed by another length than they were written with.

use crate::tests::chains::{payload_of, space_up_to};
use spe_space::{SpaceFault, TreeFault};
use spe_write::{free_chain, write_chain};
use std::alloc::{AllocError, Global};
use std::process::Abort;
use std::test::Fail;

#[derive(Clone, Copy, Debug, PartialEq, Eq)]
enum Answer {
    Well,
    Corrupt(u32),
    // There is no such page.
    Out(u32),
    Other,
}

// A chain of new pages, which is freed as one of other bytes. The pages that are handed out first are 2,
// for the last page of the chain, and 3, for the page before it.
struct Damage {
    name: &'static str,
    bytes: u32,
    freed: u64,
    // The page from which on it is freed, where not from its first.
    from: Option<u32>,
    answer: Answer,
}

static DAMAGES: [Damage; 6] = [
    Damage {
        name: "as it was written",
        bytes: 1017,
        freed: 1017,
        from: None,
        answer: Answer::Well,
    },
    Damage {
        name: "a page names one after the last",
        bytes: 509,
        freed: 508,
        from: None,
        answer: Answer::Corrupt(3),
    },
    Damage {
        name: "the last page ends the chain early",
        bytes: 509,
        freed: 1017,
        from: None,
        answer: Answer::Corrupt(2),
    },
    Damage {
        name: "nothing to free",
        bytes: 509,
        freed: 0,
        from: None,
        answer: Answer::Well,
    },
    Damage {
        name: "from page 0 on",
        bytes: 509,
        freed: 509,
        from: Some(0),
        answer: Answer::Out(0),
    },
    Damage {
        name: "from a page past the end",
        bytes: 509,
        freed: 509,
        from: Some(18),
        answer: Answer::Out(18),
    },
];

fn answer_of(alloc: Global, damage: &Damage) -> Result<Answer, AllocError> {
    let payload = payload_of(alloc, damage.bytes)?;
    let mut space = space_up_to(alloc, 64)?;
    let Ok(first) = write_chain(alloc, &mut space, &payload) else {
        return Ok(Answer::Other);
    };
    let from = damage.from.unwrap_or(first);
    Ok(match free_chain(alloc, &mut space, from, damage.freed) {
        Ok(()) => Answer::Well,
        Err(TreeFault::Corrupt { page }) => Answer::Corrupt(page),
        Err(TreeFault::Space(SpaceFault::PageOut { page, pages: 17 })) => Answer::Out(page),
        _ => Answer::Other,
    })
}

fn expect_damage(rt: &impl Abort, alloc: Global, damage: &Damage) -> Result<(), AllocError> {
    let answer = answer_of(alloc, damage)?;
    assert_eq!(rt; answer, damage.answer, "{}", damage.name);
    Ok(())
}

#[test]
fn damages(rt: HostRuntime) -> Result<(), Fail> {
    for damage in &DAMAGES {
        expect_damage(&rt, rt.alloc(), damage)?;
    }
    Ok(())
}
