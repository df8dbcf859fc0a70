use crate::tests::pages::page_of;
use spe_format::{Cell, put_in_slot, slot_for};
use spe_model::Bytes;
use std::alloc::{AllocError, Global};
use std::process::Abort;
use std::test::Fail;

// The rows 1 and 2 on a leaf, in the written form.
static FRONT: &[u8] = b"\x0d\x00\x00\x00\x02\x01\xf8\x00\x01\xfc\x01\xf8";

static END: &[u8] = b"\x02\x02\x01\x08\x02\x01\x01\x00";

// The same with the second row's length in two bytes.
static LONG: &[u8] = b"\x0d\x00\x00\x00\x02\x01\xf7\x00\x01\xfc\x01\xf7";

static LONG_END: &[u8] = b"\x80\x02\x02\x01\x08\x02\x01\x01\x00";

// A leaf of 512 bytes with another row put into its place, or nothing where it has none there.
fn put(alloc: Global, page: Vec<u8>, rowid: i64) -> Result<Option<Vec<u8>>, AllocError> {
    let mut page = page;
    if page.len() != 512 {
        return Ok(None);
    }
    let Some(slot) = slot_for(&page, 0, 512, rowid) else {
        return Ok(None);
    };
    let cell = Cell {
        left: 0,
        key: rowid,
        payload: 2,
        local: Bytes::new(Vec::from_slice(alloc, b"\x01\x09")?),
        chain: 0,
    };
    if put_in_slot(&mut page, 0, 512, slot, &cell) {
        Ok(Some(page))
    } else {
        Ok(None)
    }
}

// Whether the page is these bytes at its front and its end, and zeros.
fn is_page(
    alloc: Global,
    page: &Option<Vec<u8>>,
    front: &[u8],
    end: &[u8],
) -> Result<bool, AllocError> {
    let wanted = page_of(alloc, 512, front, end)?;
    match page {
        Some(found) => Ok(found.as_slice() == wanted.as_slice()),
        None => Ok(false),
    }
}

// The rowid that is put, and the front and the end of the page then.
static PUTS: [(i64, &[u8], &[u8]); 2] = [
    (
        3,
        b"\x0d\x00\x00\x00\x03\x01\xf4\x00\x01\xfc\x01\xf8\x01\xf4",
        b"\x02\x03\x01\x09\x02\x02\x01\x08\x02\x01\x01\x00",
    ),
    (
        0,
        b"\x0d\x00\x00\x00\x03\x01\xf4\x00\x01\xfc\x01\xf8\x01\xf4",
        b"\x02\x02\x01\x08\x02\x01\x01\x00\x02\x00\x01\x09",
    ),
];

#[test]
fn a_row_is_put_into_its_place(rt: HostRuntime) -> Result<(), Fail> {
    for (rowid, front, end) in &PUTS {
        let page = page_of(rt.alloc(), 512, FRONT, END)?;
        let put = put(rt.alloc(), page, *rowid)?;
        let same = is_page(rt.alloc(), &put, *front, *end)?;
        assert!(rt; same);
    }
    Ok(())
}

#[test]
fn no_place_is_found(rt: HostRuntime) -> Result<(), Fail> {
    let there = page_of(rt.alloc(), 512, FRONT, END)?;
    let there = put(rt.alloc(), there, 2)?;
    let long = page_of(rt.alloc(), 512, LONG, LONG_END)?;
    let long = put(rt.alloc(), long, 3)?;
    let none = there.is_none() && long.is_none();
    assert!(rt; none);
    Ok(())
}
