//! Rows of given lengths, from none to a million bytes, put into a table and read again.

ghost use Rattle.std.specs.Prelude.{◌≡◌, ◌≤◌, IfOk, None, OnOk, length};
ghost use Rattle.spe_space.specs.View.{map_refusal};

use super::tables::{space_of, start};
use spe_insert::insert;
use spe_search::find;
use spe_space::{MapSpace, TreeFault};
use std::alloc::{AllocError, Global};
use std::process::Abort;
use std::test::Fail;

static PAGE_SIZES: [u32; 3] = [512, 4096, 65536];

// Around the most that a cell of each page size has of its payload, the least, and one overflow page.
static LENGTHS: [u32; 22] = [
    1_000_000, 999_999, 0, 1, 39, 127, 128, 476, 477, 478, 488, 489, 984, 985, 4061, 4062, 4092,
    8153, 8154, 65501, 65502, 131_034,
];

// A payload that tells lengths apart.
fn payload_of(alloc: Global, bytes: u32) -> Result<Vec<u8>, AllocError>
    ensures { IfOk result (λ bytes. length bytes.items ≤ 1000000) }
{
    Ok(vec![in alloc; (bytes % 251) as u8; bytes.min(1_000_000) as usize]?)
}

// The row of each length has the length as its rowid, but for its sign.
fn put_each(alloc: Global, space: &mut MapSpace, root: u32) -> Result<(), TreeFault>
    requires { map_refusal space.old ≡ None }
    ensures { OnOk result (map_refusal space.new ≡ None) }
{
    for bytes in &LENGTHS {
        let payload = payload_of(alloc, *bytes)?;
        match insert(alloc, space, root, -i64::from(*bytes), &payload) {
            Ok(_) => (),
            Err(fault) => return Err(fault),
        }
    }
    Ok(())
}

// How many lengths have their row.
fn find_each(alloc: Global, space: &mut MapSpace, root: u32) -> Result<usize, TreeFault>
    requires { map_refusal space.old ≡ None }
{
    let mut found = 0usize;
    for bytes in &LENGTHS {
        let payload = payload_of(alloc, *bytes)?;
        let row = match find(alloc, space, root, -i64::from(*bytes)) {
            Ok(row) => row,
            Err(fault) => return Err(fault),
        };
        if let Some(bytes) = row
            && bytes.as_slice() == payload.as_slice()
        {
            found = found.wrapping_add(1);
        }
    }
    Ok(found)
}

fn rows_of(alloc: Global, space: &mut MapSpace) -> Result<usize, TreeFault>
    requires { map_refusal space.old ≡ None }
{
    let root = match start(alloc, space) {
        Ok(root) => root,
        Err(fault) => return Err(fault),
    };
    match put_each(alloc, space, root) {
        Ok(()) => find_each(alloc, space, root),
        Err(fault) => Err(fault),
    }
}

fn found_of(alloc: Global, page_size: u32) -> Result<usize, AllocError> {
    let mut space = space_of(alloc, page_size)?;
    match rows_of(alloc, &mut space) {
        Ok(found) => Ok(found),
        Err(_) => Ok(0),
    }
}

fn expect_all(rt: &impl Abort, alloc: Global, page_size: u32) -> Result<(), AllocError> {
    let found = found_of(alloc, page_size)?;
    assert_eq!(rt; found, 22, "pages of {page_size} bytes");
    Ok(())
}

#[test]
fn lengths(rt: HostRuntime) -> Result<(), Fail> {
    for page_size in &PAGE_SIZES {
        expect_all(&rt, rt.alloc(), *page_size)?;
    }
    Ok(())
}
