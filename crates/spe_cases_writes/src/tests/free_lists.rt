//! Pages given to free lists and taken from them.

ghost use Rattle.std.specs.Prelude.{◌≡◌, None, IfOk, IsTrue, OnOk};
ghost use Rattle.spe_space.specs.View.{map_refusal};

use byteorder::{BigEndian, ByteOrder};
use spe_freelist::{alloc, free};
use spe_space::{MapSpace, Pages, SpaceFault, TreeFault};
use std::alloc::{AllocError, Global};
use std::process::Abort;
use std::test::Fail;

#[derive(Clone, Copy, Debug, PartialEq, Eq)]
enum Answer {
    // The page that was taken last, 0 where none was; then what the first trunk names: the next trunk, how
    // many leaves, and the last of them, 0 where there is none.
    Trunk {
        page: u32,
        next: u32,
        leaves: u32,
        last: u32,
    },
    Full(u32),
    Corrupt(u32),
    // There is no such page.
    Out(u32),
    Other,
}

// A list in a space of 512 bytes a page. The first trunk is page 3. Pages from 40 on are given to it, and
// then some are taken.
struct Case {
    name: &'static str,
    pages: u32,
    limit: u32,
    given: u32,
    taken: u32,
    answer: Answer,
}

static CASES: [Case; 14] = [
    Case {
        name: "the first leaf",
        pages: 300,
        limit: 316,
        given: 1,
        taken: 0,
        answer: Answer::Trunk {
            page: 0,
            next: 0,
            leaves: 1,
            last: 40,
        },
    },
    Case {
        name: "the last leaf goes first",
        pages: 300,
        limit: 316,
        given: 3,
        taken: 1,
        answer: Answer::Trunk {
            page: 42,
            next: 0,
            leaves: 2,
            last: 41,
        },
    },
    Case {
        name: "119 leaves, and one more",
        pages: 300,
        limit: 316,
        given: 120,
        taken: 0,
        answer: Answer::Trunk {
            page: 0,
            next: 0,
            leaves: 120,
            last: 159,
        },
    },
    Case {
        name: "the 121st page is a trunk",
        pages: 300,
        limit: 316,
        given: 121,
        taken: 0,
        answer: Answer::Trunk {
            page: 0,
            next: 160,
            leaves: 0,
            last: 0,
        },
    },
    Case {
        name: "a trunk is handed out, and leaves its leaves",
        pages: 300,
        limit: 316,
        given: 121,
        taken: 1,
        answer: Answer::Trunk {
            page: 160,
            next: 0,
            leaves: 120,
            last: 159,
        },
    },
    Case {
        name: "through the second trunk",
        pages: 300,
        limit: 316,
        given: 122,
        taken: 3,
        answer: Answer::Trunk {
            page: 159,
            next: 0,
            leaves: 119,
            last: 158,
        },
    },
    Case {
        name: "a third trunk",
        pages: 300,
        limit: 316,
        given: 242,
        taken: 0,
        answer: Answer::Trunk {
            page: 0,
            next: 281,
            leaves: 0,
            last: 0,
        },
    },
    Case {
        name: "the second trunk stays behind the third",
        pages: 300,
        limit: 316,
        given: 242,
        taken: 1,
        answer: Answer::Trunk {
            page: 281,
            next: 160,
            leaves: 120,
            last: 280,
        },
    },
    Case {
        name: "all are taken, through three trunks",
        pages: 300,
        limit: 316,
        given: 242,
        taken: 242,
        answer: Answer::Trunk {
            page: 40,
            next: 0,
            leaves: 0,
            last: 0,
        },
    },
    Case {
        name: "six pages, and sixteen more",
        pages: 6,
        limit: 22,
        given: 0,
        taken: 1,
        answer: Answer::Trunk {
            page: 7,
            next: 0,
            leaves: 15,
            last: 8,
        },
    },
    Case {
        name: "leaves from 22 down to 9",
        pages: 6,
        limit: 22,
        given: 0,
        taken: 2,
        answer: Answer::Trunk {
            page: 8,
            next: 0,
            leaves: 14,
            last: 9,
        },
    },
    Case {
        name: "the last of sixteen",
        pages: 6,
        limit: 22,
        given: 0,
        taken: 16,
        answer: Answer::Trunk {
            page: 22,
            next: 0,
            leaves: 0,
            last: 0,
        },
    },
    Case {
        name: "no room for sixteen more",
        pages: 6,
        limit: 37,
        given: 0,
        taken: 17,
        answer: Answer::Full(22),
    },
    Case {
        name: "no room for the first sixteen",
        pages: 300,
        limit: 315,
        given: 2,
        taken: 3,
        answer: Answer::Full(300),
    },
];

fn answer_to(fault: TreeFault) -> Answer {
    match fault {
        TreeFault::Space(SpaceFault::Full { pages }) => Answer::Full(pages),
        TreeFault::Space(SpaceFault::PageOut { page, .. }) => Answer::Out(page),
        TreeFault::Corrupt { page } => Answer::Corrupt(page),
        _ => Answer::Other,
    }
}

#[tactic(auto, unfolding(spe_model::specs::Header::is_page_size))]
fn space_of(memory: Global, pages: u32, limit: u32) -> Result<MapSpace, AllocError>
    ensures { IfOk result (λ s. map_refusal s ≡ None) }
{
    let limit = limit.clamp(1, 4096);
    MapSpace::new(memory, 512, pages.clamp(1, limit), limit)
}

// Gives so many pages from `from` on to a list.
fn give_many(
    memory: Global,
    space: &mut MapSpace,
    first: u32,
    from: u32,
    count: u32,
) -> Result<(), TreeFault>
    requires { map_refusal space.old ≡ None }
    ensures { OnOk result (map_refusal space.new ≡ None) }
{
    for index in 0..count {
        match free(memory, space, first, from.saturating_add(index)) {
            Ok(()) => (),
            Err(fault) => return Err(fault),
        }
    }
    Ok(())
}

// Takes so many pages from a list, and answers the last.
fn take_many(memory: Global, space: &mut MapSpace, first: u32, count: u32) -> Result<u32, TreeFault>
    requires { map_refusal space.old ≡ None }
    ensures { OnOk result (map_refusal space.new ≡ None) }
{
    let mut last = 0;
    for _ in 0..count {
        last = match alloc(memory, space, first) {
            Ok(page) => page,
            Err(fault) => return Err(fault),
        };
    }
    Ok(last)
}

// What a trunk names, after `page` was taken.
fn trunk_of(memory: Global, space: &mut MapSpace, page: u32) -> Result<Answer, AllocError> {
    let mut buf = vec![in memory; 0u8; 512]?;
    if space.page_size() != 512 {
        return Ok(Answer::Other);
    }
    let Ok(()) = space.get(3, &mut buf) else {
        return Ok(Answer::Other);
    };
    let leaves = BigEndian::read_u32(&buf[4..]);
    let last = if leaves == 0 || leaves > 126 {
        0
    } else {
        BigEndian::read_u32(&buf[4 + 4 * leaves as usize..])
    };
    Ok(Answer::Trunk {
        page,
        next: BigEndian::read_u32(&buf),
        leaves,
        last,
    })
}

fn answer_of(memory: Global, case: &Case) -> Result<Answer, AllocError> {
    let mut space = space_of(memory, case.pages, case.limit)?;
    let Ok(()) = give_many(memory, &mut space, 3, 40, case.given) else {
        return Ok(Answer::Other);
    };
    match take_many(memory, &mut space, 3, case.taken) {
        Ok(page) => trunk_of(memory, &mut space, page),
        Err(fault) => Ok(answer_to(fault)),
    }
}

fn expect_case(rt: &impl Abort, memory: Global, case: &Case) -> Result<(), AllocError> {
    let answer = answer_of(memory, case)?;
    assert_eq!(rt; answer, case.answer, "{}", case.name);
    Ok(())
}

#[test]
fn free_lists(rt: HostRuntime) -> Result<(), Fail> {
    for case in &CASES {
        expect_case(&rt, rt.alloc(), case)?;
    }
    Ok(())
}

// A first trunk that names a next trunk and so many leaves, all of them page 0, and what is asked of it.
struct Damage {
    name: &'static str,
    next: u32,
    leaves: u32,
    given: u32,
    taken: u32,
    answer: Answer,
}

static DAMAGES: [Damage; 7] = [
    Damage {
        name: "126 leaves are read, and go to the page that is given",
        next: 0,
        leaves: 126,
        given: 1,
        taken: 0,
        answer: Answer::Trunk {
            page: 0,
            next: 40,
            leaves: 0,
            last: 0,
        },
    },
    Damage {
        name: "and back",
        next: 5,
        leaves: 126,
        given: 1,
        taken: 1,
        answer: Answer::Trunk {
            page: 40,
            next: 5,
            leaves: 126,
            last: 0,
        },
    },
    Damage {
        name: "a page is given to 127 leaves",
        next: 0,
        leaves: 127,
        given: 1,
        taken: 0,
        answer: Answer::Corrupt(3),
    },
    Damage {
        name: "a page is taken from 127 leaves",
        next: 0,
        leaves: 127,
        given: 0,
        taken: 1,
        answer: Answer::Corrupt(3),
    },
    Damage {
        name: "the last leaf is page 0",
        next: 0,
        leaves: 1,
        given: 0,
        taken: 1,
        answer: Answer::Corrupt(3),
    },
    Damage {
        name: "the trunk itself is the next one",
        next: 3,
        leaves: 0,
        given: 0,
        taken: 2,
        answer: Answer::Trunk {
            page: 3,
            next: 3,
            leaves: 0,
            last: 0,
        },
    },
    Damage {
        name: "there is no next trunk",
        next: 301,
        leaves: 0,
        given: 0,
        taken: 1,
        answer: Answer::Out(301),
    },
];

// Puts the first trunk.
fn put_head(
    memory: Global,
    space: &mut MapSpace,
    next: u32,
    leaves: u32,
) -> Result<bool, AllocError>
    requires { map_refusal space.old ≡ None }
    ensures { IfOk result (λ put. IsTrue put → map_refusal space.new ≡ None) }
{
    let mut buf = vec![in memory; 0u8; 512]?;
    if space.page_size() != 512 {
        return Ok(false);
    }
    BigEndian::write_u32(&mut buf, next);
    BigEndian::write_u32(&mut buf[4..], leaves);
    match space.put(3, &buf) {
        Ok(()) => Ok(true),
        Err(_) => Ok(false),
    }
}

fn answer_to_damage(memory: Global, damage: &Damage) -> Result<Answer, AllocError> {
    let mut space = space_of(memory, 300, 300)?;
    if !put_head(memory, &mut space, damage.next, damage.leaves)? {
        return Ok(Answer::Other);
    }
    match give_many(memory, &mut space, 3, 40, damage.given) {
        Ok(()) => (),
        Err(fault) => return Ok(answer_to(fault)),
    }
    match take_many(memory, &mut space, 3, damage.taken) {
        Ok(page) => trunk_of(memory, &mut space, page),
        Err(fault) => Ok(answer_to(fault)),
    }
}

fn expect_damage(rt: &impl Abort, memory: Global, damage: &Damage) -> Result<(), AllocError> {
    let answer = answer_to_damage(memory, damage)?;
    assert_eq!(rt; answer, damage.answer, "{}", damage.name);
    Ok(())
}

#[test]
fn damaged_lists(rt: HostRuntime) -> Result<(), Fail> {
    for damage in &DAMAGES {
        expect_damage(&rt, rt.alloc(), damage)?;
    }
    Ok(())
}

// Gives two pages to each of so many lists, which begin at pages 3 and on.
fn give_each(memory: Global, space: &mut MapSpace, lists: u32) -> Result<(), TreeFault>
    requires { map_refusal space.old ≡ None }
    ensures { OnOk result (map_refusal space.new ≡ None) }
{
    for list in 0..lists.min(16) {
        match give_many(memory, space, 3 + list, 40 + 2 * list, 2) {
            Ok(()) => (),
            Err(fault) => return Err(fault),
        }
    }
    Ok(())
}

// Takes a page from each of so many lists, and answers how many gave the page that was given to them last.
fn take_each(memory: Global, space: &mut MapSpace, lists: u32) -> Result<u32, TreeFault>
    requires { map_refusal space.old ≡ None }
{
    let mut right: u32 = 0;
    for list in 0..lists.min(16) {
        match take_many(memory, space, 3 + list, 1) {
            Ok(page) => right = right.saturating_add(u32::from(page == 41 + 2 * list)),
            Err(fault) => return Err(fault),
        }
    }
    Ok(right)
}

fn right_of(memory: Global, lists: u32) -> Result<u32, AllocError> {
    let mut space = space_of(memory, 300, 300)?;
    let Ok(()) = give_each(memory, &mut space, lists) else {
        return Ok(0);
    };
    match take_each(memory, &mut space, lists) {
        Ok(right) => Ok(right),
        Err(_) => Ok(0),
    }
}

#[test]
fn several_lists(rt: HostRuntime) -> Result<(), Fail> {
    let one = right_of(rt.alloc(), 1)?;
    let sixteen = right_of(rt.alloc(), 16)?;
    assert_eq!(&rt; [one, sixteen], [1, 16]);
    Ok(())
}
