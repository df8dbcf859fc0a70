//! A row on a leaf of its own is found again.

ghost use Rattle.std.specs.Prelude.{◌≡◌, IfOk, None};
ghost use Rattle.spe_space.specs.View.{map_refusal};

use spe_insert::{lay_leaf, write_cell};
use spe_model::Cells;
use spe_search::find;
use spe_space::{MapSpace, PageSpace, Pages};
use std::alloc::{AllocError, Global};
use std::process::Abort;
use std::test::Fail;

#[derive(Clone, Copy, Debug, PartialEq, Eq)]
enum Answer {
    // The row is found with its payload.
    Found,
    // The row is found with other bytes.
    Bytes,
    // The cells are on more than one page.
    Split,
    Other,
}

// A row in a space of 512 bytes a page.
struct Row {
    rowid: i64,
    bytes: u32,
}

static ROWS: [Row; 10] = [
    Row { rowid: 1, bytes: 0 },
    Row {
        rowid: -1,
        bytes: 1,
    },
    Row {
        rowid: i64::MAX,
        bytes: 476,
    },
    Row {
        rowid: i64::MIN,
        bytes: 477,
    },
    Row {
        rowid: 0,
        bytes: 478,
    },
    Row {
        rowid: 2,
        bytes: 508,
    },
    Row {
        rowid: 3,
        bytes: 985,
    },
    Row {
        rowid: 4,
        bytes: 986,
    },
    Row {
        rowid: -5,
        bytes: 1000,
    },
    Row {
        rowid: 6,
        bytes: 5000,
    },
];

// So many bytes that count up to 250, again and again.
fn payload_of(alloc: Global, length: u32) -> Result<Vec<u8>, AllocError> {
    let mut bytes = Vec::new(alloc);
    for i in 0..length.min(5000) {
        bytes.push((i % 251) as u8)?;
    }
    Ok(bytes)
}

// One page of 512 bytes, beside which there may come others.
#[tactic(auto, unfolding(spe_model::specs::Header::is_page_size))]
fn new_space(alloc: Global) -> Result<MapSpace, AllocError>
    ensures { IfOk result (λ s. map_refusal s ≡ None) }
{
    MapSpace::new(alloc, 512, 1, 64)
}

// The row is put on a new page, and then searched for with that page as the root.
fn answer_of(alloc: Global, row: &Row) -> Result<Answer, AllocError> {
    let payload = payload_of(alloc, row.bytes)?;
    if payload.len() > 5000 {
        return Ok(Answer::Other);
    }
    let mut space = new_space(alloc)?;
    let mut buf = vec![in alloc; 0u8; space.page_size() as usize]?;
    let Ok(page) = space.alloc() else {
        return Ok(Answer::Other);
    };
    let Ok(cell) = write_cell(alloc, &mut space, row.rowid, &payload) else {
        return Ok(Answer::Other);
    };
    let mut cells = Vec::new(alloc);
    cells.push(cell)?;
    match lay_leaf(alloc, &mut space, page, Cells::new(cells), 0, &mut buf) {
        Ok(run) if run.right == page => (),
        _ => return Ok(Answer::Split),
    }
    match find(alloc, &mut space, page, row.rowid) {
        Ok(Some(bytes)) if bytes.as_slice() == payload.as_slice() => Ok(Answer::Found),
        Ok(Some(_)) => Ok(Answer::Bytes),
        _ => Ok(Answer::Other),
    }
}

fn expect_row(rt: &impl Abort, alloc: Global, row: &Row) -> Result<(), AllocError> {
    let answer = answer_of(alloc, row)?;
    assert_eq!(rt; answer, Answer::Found, "{} bytes", row.bytes);
    Ok(())
}

#[test]
fn one_row(rt: HostRuntime) -> Result<(), Fail> {
    for row in &ROWS {
        expect_row(&rt, rt.alloc(), row)?;
    }
    Ok(())
}
