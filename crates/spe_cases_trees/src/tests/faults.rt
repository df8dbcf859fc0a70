//! Damage, and the page that is named for it.

use crate::tests::files::{File, Patch};
use crate::tests::space::expect;
use crate::tests::tables::space_of;
use spe_search::{find, largest, range};
use spe_space::{SpaceFault, TreeFault};
use std::alloc::{AllocError, Global};
use std::test::Fail;

// What a search says of a file.
#[derive(Clone, Copy, PartialEq, Eq)]
enum Answer {
    Well,
    Corrupt(u32),
    /// There is no such page; the file has four.
    Out(u32),
    Other,
}

fn answer_of<T: Drop>(found: Result<T, TreeFault>) -> Answer {
    match found {
        Ok(_) => Answer::Well,
        Err(TreeFault::Corrupt { page }) => Answer::Corrupt(page),
        Err(TreeFault::Space(SpaceFault::PageOut { page, pages: 4 })) => Answer::Out(page),
        Err(TreeFault::Space(_)) => Answer::Other,
    }
}

// A file of four pages, and what `find` of rowid 5, `range` over all and `largest` say from its root.
struct Damage {
    name: &'static str,
    root: u32,
    patches: &'static [Patch],
    find: Answer,
    range: Answer,
    largest: Answer,
}

static DAMAGES: [Damage; 17] = [
    Damage {
        name: "an index leaf",
        root: 2,
        patches: &[(2, 0, b"\x0a\x00\x00\x00\x00\x02\x00\x00")],
        find: Answer::Corrupt(2),
        range: Answer::Corrupt(2),
        largest: Answer::Corrupt(2),
    },
    Damage {
        name: "no type",
        root: 2,
        patches: &[],
        find: Answer::Corrupt(2),
        range: Answer::Corrupt(2),
        largest: Answer::Corrupt(2),
    },
    Damage {
        name: "an index page as a child",
        root: 2,
        patches: &[
            (2, 0, b"\x05\x00\x00\x00\x00\x02\x00\x00\x00\x00\x00\x03"),
            (3, 0, b"\x02\x00\x00\x00\x00\x02\x00\x00\x00\x00\x00\x04"),
        ],
        find: Answer::Corrupt(3),
        range: Answer::Corrupt(3),
        largest: Answer::Corrupt(3),
    },
    Damage {
        name: "a cell past the end",
        root: 2,
        patches: &[(2, 0, b"\x0d\x00\x00\x00\x01\x02X\x00\x02X")],
        find: Answer::Corrupt(2),
        range: Answer::Corrupt(2),
        largest: Answer::Corrupt(2),
    },
    Damage {
        name: "a cell in the array of offsets",
        root: 2,
        patches: &[(2, 0, b"\x0d\x00\x00\x00\x01\x00\x09\x00\x00\x09")],
        find: Answer::Corrupt(2),
        range: Answer::Corrupt(2),
        largest: Answer::Corrupt(2),
    },
    Damage {
        name: "a payload that the page ends",
        root: 2,
        patches: &[
            (2, 0, b"\x0d\x00\x00\x00\x01\x01\xfd\x00\x01\xfd"),
            (2, 509, b"\x05\x05a"),
        ],
        find: Answer::Corrupt(2),
        range: Answer::Corrupt(2),
        largest: Answer::Corrupt(2),
    },
    Damage {
        name: "offsets past the end",
        root: 2,
        patches: &[(2, 0, b"\x0d\x00\x00\x01\x00")],
        find: Answer::Corrupt(2),
        range: Answer::Corrupt(2),
        largest: Answer::Corrupt(2),
    },
    Damage {
        name: "page 0 as a child",
        root: 2,
        patches: &[(2, 0, b"\x05\x00\x00\x00\x00\x02\x00\x00\x00\x00\x00\x00")],
        find: Answer::Out(0),
        range: Answer::Out(0),
        largest: Answer::Out(0),
    },
    Damage {
        name: "a child past the last page",
        root: 2,
        patches: &[(2, 0, b"\x05\x00\x00\x00\x00\x02\x00\x00\x00\x00\x00\x09")],
        find: Answer::Out(9),
        range: Answer::Out(9),
        largest: Answer::Out(9),
    },
    Damage {
        name: "page 0 as the root",
        root: 0,
        patches: &[],
        find: Answer::Out(0),
        range: Answer::Out(0),
        largest: Answer::Out(0),
    },
    Damage {
        name: "a root past the last page",
        root: 5,
        patches: &[],
        find: Answer::Out(5),
        range: Answer::Out(5),
        largest: Answer::Out(5),
    },
    Damage {
        name: "damage before the row",
        root: 2,
        patches: &[
            (
                2,
                0,
                b"\x05\x00\x00\x00\x01\x01\xfb\x00\x00\x00\x00\x04\x01\xfb",
            ),
            (2, 507, b"\x00\x00\x00\x03\x04"),
            (4, 0, b"\x0d\x00\x00\x00\x01\x01\xfd\x00\x01\xfd"),
            (4, 509, b"\x01\x05a"),
        ],
        find: Answer::Well,
        range: Answer::Corrupt(3),
        largest: Answer::Well,
    },
    Damage {
        name: "damage after the row",
        root: 2,
        patches: &[
            (
                2,
                0,
                b"\x05\x00\x00\x00\x01\x01\xfb\x00\x00\x00\x00\x04\x01\xfb",
            ),
            (2, 507, b"\x00\x00\x00\x03\x05"),
            (3, 0, b"\x0d\x00\x00\x00\x01\x01\xfd\x00\x01\xfd"),
            (3, 509, b"\x01\x05a"),
        ],
        find: Answer::Well,
        range: Answer::Corrupt(4),
        largest: Answer::Corrupt(4),
    },
    Damage {
        name: "no first overflow page",
        root: 2,
        patches: &[
            (2, 0, b"\x0d\x00\x00\x00\x01\x01\xd2\x00\x01\xd2"),
            (2, 466, b"\x83^\x05"),
        ],
        find: Answer::Corrupt(2),
        range: Answer::Corrupt(2),
        largest: Answer::Well,
    },
    Damage {
        name: "a chain that ends early",
        root: 2,
        patches: &[
            (2, 0, b"\x0d\x00\x00\x00\x01\x01\xd2\x00\x01\xd2"),
            (2, 466, b"\x87Z\x05"),
            (2, 511, b"\x03"),
        ],
        find: Answer::Corrupt(3),
        range: Answer::Corrupt(3),
        largest: Answer::Well,
    },
    Damage {
        name: "a last overflow page that names a next",
        root: 2,
        patches: &[
            (2, 0, b"\x0d\x00\x00\x00\x01\x01\xd2\x00\x01\xd2"),
            (2, 466, b"\x83^\x05"),
            (2, 511, b"\x03"),
            (3, 0, b"\x00\x00\x00\x04"),
        ],
        find: Answer::Corrupt(3),
        range: Answer::Corrupt(3),
        largest: Answer::Well,
    },
    Damage {
        name: "an overflow page past the last page",
        root: 2,
        patches: &[
            (2, 0, b"\x0d\x00\x00\x00\x01\x01\xd2\x00\x01\xd2"),
            (2, 466, b"\x83^\x05"),
            (2, 511, b"\x09"),
        ],
        find: Answer::Out(9),
        range: Answer::Out(9),
        largest: Answer::Well,
    },
];

fn find_over(alloc: Global, file: &File, root: u32) -> Result<Answer, AllocError> {
    let mut space = space_of(alloc, file)?;
    Ok(answer_of(find(alloc, &mut space, root, 5)))
}

fn range_over(alloc: Global, file: &File, root: u32) -> Result<Answer, AllocError> {
    let mut space = space_of(alloc, file)?;
    Ok(answer_of(range(alloc, &mut space, root, i64::MIN, i64::MAX)))
}

fn largest_over(alloc: Global, file: &File, root: u32) -> Result<Answer, AllocError> {
    let mut space = space_of(alloc, file)?;
    Ok(answer_of(largest(alloc, &mut space, root)))
}

fn holds(alloc: Global, damage: &Damage) -> Result<bool, AllocError> {
    let file = File {
        large: false,
        pages: 4,
        patches: damage.patches,
    };
    let found = find_over(alloc, &file, damage.root)?;
    let ranged = range_over(alloc, &file, damage.root)?;
    let last = largest_over(alloc, &file, damage.root)?;
    Ok(found == damage.find && ranged == damage.range && last == damage.largest)
}

#[test]
fn damages(rt: HostRuntime) -> Result<(), Fail> {
    for damage in &DAMAGES {
        let holds = holds(rt.alloc(), damage)?;
        expect(&rt, damage.name, 0, holds);
    }
    Ok(())
}
