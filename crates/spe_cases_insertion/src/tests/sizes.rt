//! How full the pages of a table are once many rows were put.

ghost use Rattle.std.specs.Prelude.{◌≡◌, None, OnOk};
ghost use Rattle.spe_space.specs.View.{map_refusal};

use super::tables::{space_of, start};
use spe_insert::insert;
use spe_space::{MapSpace, PageSpace, TreeFault};
use std::alloc::{AllocError, Global};
use std::process::Abort;
use std::test::Fail;

const PAYLOAD: [u8; 15] = [7; 15];

#[derive(Clone, Copy, Debug, PartialEq, Eq)]
enum Order {
    Ascending,
    Descending,
    Random,
}

// The pages of so many bytes are to be full by so many percent at least.
struct Filling {
    name: &'static str,
    page_size: u32,
    order: Order,
    rows: u32,
    least: u64,
}

static FILLINGS: [Filling; 9] = [
    Filling {
        name: "ascending, pages of 512 bytes",
        page_size: 512,
        order: Order::Ascending,
        rows: 100_000,
        least: 90,
    },
    Filling {
        name: "ascending, pages of 4096 bytes",
        page_size: 4096,
        order: Order::Ascending,
        rows: 100_000,
        least: 90,
    },
    Filling {
        name: "ascending, pages of 65536 bytes",
        page_size: 65536,
        order: Order::Ascending,
        rows: 30_000,
        least: 90,
    },
    Filling {
        name: "random, pages of 512 bytes",
        page_size: 512,
        order: Order::Random,
        rows: 100_000,
        least: 60,
    },
    Filling {
        name: "random, pages of 4096 bytes",
        page_size: 4096,
        order: Order::Random,
        rows: 100_000,
        least: 60,
    },
    Filling {
        name: "random, pages of 65536 bytes",
        page_size: 65536,
        order: Order::Random,
        rows: 30_000,
        least: 60,
    },
    Filling {
        name: "descending, pages of 512 bytes",
        page_size: 512,
        order: Order::Descending,
        rows: 100_000,
        least: 45,
    },
    Filling {
        name: "descending, pages of 4096 bytes",
        page_size: 4096,
        order: Order::Descending,
        rows: 100_000,
        least: 45,
    },
    Filling {
        name: "descending, pages of 65536 bytes",
        page_size: 65536,
        order: Order::Descending,
        rows: 30_000,
        least: 45,
    },
];

// Numbers below 2^32 in an order like that of chance; no two turns have one.
fn scattered(turn: u32) -> u32 {
    let first = (turn ^ (turn >> 16)).wrapping_mul(0x7feb_352d);
    let second = (first ^ (first >> 15)).wrapping_mul(0x846c_a68b);
    second ^ (second >> 16)
}

fn rowid_at(order: Order, turn: u32) -> u32 {
    match order {
        Order::Ascending => turn,
        Order::Descending => u32::MAX - turn,
        Order::Random => scattered(turn),
    }
}

// The bytes that a row takes on a leaf: its place in the array, its length, its rowid and its payload.
fn bytes_of(rowid: u32) -> u64 {
    let rowid_length = match rowid {
        0..=0x7f => 1,
        0x80..=0x3fff => 2,
        0x4000..=0x1f_ffff => 3,
        0x20_0000..=0xfff_ffff => 4,
        _ => 5,
    };
    18 + rowid_length
}

// Puts all rows, and answers how many bytes those take that were not there.
fn put_each(
    alloc: Global,
    space: &mut MapSpace,
    root: u32,
    filling: &Filling,
) -> Result<u64, TreeFault>
    requires { map_refusal space.old ≡ None }
    ensures { OnOk result (map_refusal space.new ≡ None) }
{
    let mut bytes = 0u64;
    for turn in 0..filling.rows {
        let rowid = rowid_at(filling.order, turn);
        match insert(alloc, space, root, i64::from(rowid), &PAYLOAD) {
            Ok(true) => bytes = bytes.wrapping_add(bytes_of(rowid)),
            Ok(false) => (),
            Err(fault) => return Err(fault),
        }
    }
    Ok(bytes)
}

// How many bytes the rows take, and how many pages were handed out for them.
fn fill(alloc: Global, space: &mut MapSpace, filling: &Filling) -> Result<(u64, u32), TreeFault>
    requires { map_refusal space.old ≡ None }
{
    let root = match start(alloc, space) {
        Ok(root) => root,
        Err(fault) => return Err(fault),
    };
    let bytes = match put_each(alloc, space, root, filling) {
        Ok(bytes) => bytes,
        Err(fault) => return Err(fault),
    };
    match space.alloc() {
        Ok(next) => Ok((bytes, next.saturating_sub(root))),
        Err(fault) => Err(TreeFault::Space(fault)),
    }
}

// Whether all rows were put and the room of the pages is taken by so many percent, the root and the leaf at
// the end aside, which may have few cells yet.
fn is_full(alloc: Global, filling: &Filling) -> Result<bool, AllocError> {
    let mut space = space_of(alloc, filling.page_size)?;
    let Ok((bytes, pages)) = fill(alloc, &mut space, filling) else {
        return Ok(false);
    };
    let room = u64::from(pages.saturating_sub(2)) * u64::from(filling.page_size.saturating_sub(8));
    let least = u64::from(filling.rows) * 19;
    Ok(bytes >= least && bytes.saturating_mul(100) >= room.saturating_mul(filling.least))
}

fn expect_full(rt: &impl Abort, alloc: Global, filling: &Filling) -> Result<(), AllocError> {
    let full = is_full(alloc, filling)?;
    assert!(rt; full, "{}", filling.name);
    Ok(())
}

#[test]
fn fillings(rt: HostRuntime) -> Result<(), Fail> {
    for filling in &FILLINGS {
        expect_full(&rt, rt.alloc(), filling)?;
    }
    Ok(())
}
