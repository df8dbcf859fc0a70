//! Rows of a table that get other payloads, and are read again.

ghost use Rattle.std.specs.Prelude.{◌≡◌, ◌≤◌, IfOk, None, OnOk, length};
ghost use Rattle.spe_space.specs.View.{map_refusal};

use super::tables::{space_of, start};
use spe_insert::{insert, replace};
use spe_search::find;
use spe_space::{MapSpace, Pages, TreeFault};
use std::alloc::{AllocError, Global};
use std::process::Abort;
use std::test::Fail;

#[derive(Clone, Copy, Debug, PartialEq, Eq)]
enum Answer {
    // How many rows got another payload, how many of those that are not there did, how many of all have the
    // payload that they should have then.
    Rows {
        replaced: u32,
        absent: u32,
        found: u32,
    },
    Other,
}

// Rows 1 to `rows`, of payloads of up to `before` bytes, of which each second gets one of up to `after`.
struct Change {
    name: &'static str,
    page_size: u32,
    rows: u32,
    before: u32,
    after: u32,
}

static CHANGES: [Change; 7] = [
    Change {
        name: "as long, a leaf",
        page_size: 512,
        rows: 8,
        before: 40,
        after: 40,
    },
    Change {
        name: "longer, a leaf becomes several",
        page_size: 512,
        rows: 8,
        before: 20,
        after: 400,
    },
    Change {
        name: "longer, three levels",
        page_size: 512,
        rows: 200,
        before: 60,
        after: 476,
    },
    Change {
        name: "shorter, three levels",
        page_size: 512,
        rows: 150,
        before: 476,
        after: 10,
    },
    Change {
        name: "chains where there were none",
        page_size: 512,
        rows: 40,
        before: 100,
        after: 3000,
    },
    Change {
        name: "no chains where there were some",
        page_size: 512,
        rows: 40,
        before: 3000,
        after: 100,
    },
    Change {
        name: "other chains, pages of 4096 bytes",
        page_size: 4096,
        rows: 60,
        before: 9000,
        after: 20000,
    },
];

// A payload whose length and bytes tell rows and their versions apart.
fn payload_of(alloc: Global, rowid: u32, most: u32, version: u8) -> Result<Vec<u8>, AllocError>
    ensures { IfOk result (λ bytes. length bytes.items ≤ 1000000) }
{
    let turn = u64::from(rowid % 100003);
    let length = (turn * 31 + u64::from(most)) % (u64::from(most) + 1);
    let byte = (turn % 100) as u8;
    Ok(vec![in alloc; byte.wrapping_add(version); length.min(1000000) as usize]?)
}

// Whether a row is one of those that get another payload.
fn is_changed(rowid: u32) -> bool {
    rowid % 2 == 0
}

fn put_rows(
    alloc: Global,
    space: &mut MapSpace,
    root: u32,
    change: &Change,
) -> Result<(), TreeFault>
    requires { map_refusal space.old ≡ None }
    ensures { OnOk result (map_refusal space.new ≡ None) }
{
    for turn in 0..change.rows.min(10000) {
        let rowid = turn + 1;
        let payload = payload_of(alloc, rowid, change.before, 0)?;
        match insert(alloc, space, root, i64::from(rowid), &payload) {
            Ok(_) => (),
            Err(fault) => return Err(fault),
        }
    }
    Ok(())
}

// Gives each second of the rowids from `first` on another payload, and answers how many were there.
fn replace_rows(
    alloc: Global,
    space: &mut MapSpace,
    root: u32,
    change: &Change,
    first: u32,
) -> Result<u32, TreeFault>
    requires { map_refusal space.old ≡ None }
    ensures { OnOk result (map_refusal space.new ≡ None) }
{
    let mut replaced = 0u32;
    for turn in 0..change.rows.min(10000) {
        let rowid = first.min(20000) + turn;
        if !is_changed(rowid) {
            continue;
        }
        let payload = payload_of(alloc, rowid, change.after, 100)?;
        let there = match replace(alloc, space, root, i64::from(rowid), &payload) {
            Ok(there) => there,
            Err(fault) => return Err(fault),
        };
        if there {
            replaced = replaced.wrapping_add(1);
        }
    }
    Ok(replaced)
}

// How many rows have the payload that they should have.
fn find_rows(
    alloc: Global,
    space: &mut MapSpace,
    root: u32,
    change: &Change,
) -> Result<u32, TreeFault>
    requires { map_refusal space.old ≡ None }
{
    let mut found = 0u32;
    for turn in 0..change.rows.min(10000) {
        let rowid = turn + 1;
        let payload = if is_changed(rowid) {
            payload_of(alloc, rowid, change.after, 100)?
        } else {
            payload_of(alloc, rowid, change.before, 0)?
        };
        let row = match find(alloc, space, root, i64::from(rowid)) {
            Ok(row) => row,
            Err(fault) => return Err(fault),
        };
        if let Some(bytes) = row
            && bytes.as_slice() == payload.as_slice()
        {
            found = found.wrapping_add(1);
        }
    }
    Ok(found)
}

fn rows_of(alloc: Global, space: &mut MapSpace, change: &Change) -> Result<Answer, TreeFault>
    requires { map_refusal space.old ≡ None }
{
    let root = match start(alloc, space) {
        Ok(root) => root,
        Err(fault) => return Err(fault),
    };
    match put_rows(alloc, space, root, change) {
        Ok(()) => (),
        Err(fault) => return Err(fault),
    }
    let replaced = match replace_rows(alloc, space, root, change, 1) {
        Ok(replaced) => replaced,
        Err(fault) => return Err(fault),
    };
    let absent = match replace_rows(alloc, space, root, change, change.rows.min(10000) + 1) {
        Ok(absent) => absent,
        Err(fault) => return Err(fault),
    };
    match find_rows(alloc, space, root, change) {
        Ok(found) => Ok(Answer::Rows {
            replaced,
            absent,
            found,
        }),
        Err(fault) => Err(fault),
    }
}

fn answer_of(alloc: Global, change: &Change) -> Result<Answer, AllocError> {
    let mut space = space_of(alloc, change.page_size)?;
    match rows_of(alloc, &mut space, change) {
        Ok(answer) => Ok(answer),
        Err(_) => Ok(Answer::Other),
    }
}

fn expect_change(rt: &impl Abort, alloc: Global, change: &Change) -> Result<(), AllocError> {
    let answer = answer_of(alloc, change)?;
    let all = Answer::Rows {
        replaced: change.rows / 2,
        absent: 0,
        found: change.rows,
    };
    assert_eq!(rt; answer, all, "{}", change.name);
    Ok(())
}

#[test]
fn payloads(rt: HostRuntime) -> Result<(), Fail> {
    for change in &CHANGES {
        expect_change(&rt, rt.alloc(), change)?;
    }
    Ok(())
}
