use spe_format::{Kind, PageCells, PageFault, legal_is_writable, local_size, put_page, read_page};
use std::alloc::{AllocError, Global};
use std::process::Abort;
use std::test::Fail;

/// A page of so many bytes, zero but for these at its front and these at its end.
pub(crate) fn page_of(
    alloc: Global,
    length: usize,
    front: &[u8],
    end: &[u8],
) -> Result<Vec<u8>, AllocError> {
    let mut page = vec![in alloc; 0u8; length]?;
    for (i, byte) in front.iter().enumerate() {
        if let Some(place) = page.get_mut(i) {
            *place = *byte;
        }
    }
    for (place, byte) in page.iter_mut().rev().zip(end.iter().rev()) {
        *place = *byte;
    }
    Ok(page)
}

fn read(alloc: Global, page: &[u8]) -> Result<PageCells, PageFault> {
    if page.len() == 512 {
        read_page(alloc, page, 0, 512)
    } else if page.len() == 65536 {
        read_page(alloc, page, 0, 65536)
    } else {
        Err(PageFault::Memory)
    }
}

#[test]
fn empty_leaf_of_the_largest_page(rt: HostRuntime) -> Result<(), Fail> {
    let page = page_of(rt.alloc(), 65536, b"\x0d\x00\x00\x00\x00\x00\x00\x00", b"")?;
    let found = read(rt.alloc(), &page)?;
    assert_eq!(rt; found.kind, Kind::TableLeaf);
    assert_eq!(rt; found.cells.as_slice().len(), 0);
    assert_eq!(rt; found.right, 0);
    Ok(())
}

// The front and the end of a page of 512 bytes, its kind, how many cells it has, and its right child.
static KINDS: [(&[u8], &[u8], Kind, usize, u32); 4] = [
    (
        b"\x0d\x00\x00\x00\x02\x01\xf8\x00\x01\xfc\x01\xf8",
        b"\x02\x02\x01\x08\x02\x01\x01\x00",
        Kind::TableLeaf,
        2,
        0,
    ),
    (
        b"\x05\x00\x00\x00\x01\x01\xfb\x00\x00\x00\x00\x09\x01\xfb",
        b"\x00\x00\x00\x07\x05",
        Kind::TableInterior,
        1,
        9,
    ),
    (
        b"\x0a\x00\x00\x00\x02\x01\xfa\x00\x01\xfd\x01\xfa",
        b"\x02\x01\x00\x02\x01\x01",
        Kind::IndexLeaf,
        2,
        0,
    ),
    (
        b"\x02\x00\x00\x00\x01\x01\xf9\x00\x00\x00\x00\x03\x01\xf9",
        b"\x00\x00\x00\x08\x02\x01\x05",
        Kind::IndexInterior,
        1,
        3,
    ),
];

#[test]
fn kinds(rt: HostRuntime) -> Result<(), Fail> {
    for (front, end, kind, count, right) in &KINDS {
        let page = page_of(rt.alloc(), 512, *front, *end)?;
        let found = read(rt.alloc(), &page)?;
        assert_eq!(rt; found.kind, *kind);
        assert_eq!(rt; found.cells.as_slice().len(), *count);
        assert_eq!(rt; found.right, *right);
    }
    Ok(())
}

static FAULTS: [(&[u8], &[u8], PageFault); 8] = [
    (b"\x07", b"", PageFault::BadType),
    (b"\x0d\x00\x00\x01\x00", b"", PageFault::OffsetOut),
    (
        b"\x0d\x00\x00\x00\x01\x00\x00\x00\x00\x09",
        b"",
        PageFault::OffsetOut,
    ),
    (
        b"\x0d\x00\x00\x00\x01\x00\x00\x00\x02\x01",
        b"",
        PageFault::OffsetOut,
    ),
    (
        b"\x0d\x00\x00\x00\x01\x00\x00\x00\x02\x00",
        b"",
        PageFault::CellOut,
    ),
    (
        b"\x0d\x00\x00\x00\x01\x00\x00\x00\x01\xfc",
        b"\x03\x01\x01\x00",
        PageFault::CellOut,
    ),
    (
        b"\x0d\x00\x00\x00\x02\x00\x00\x00\x01\xfb\x01\xfc",
        b"\x02\x02\x01\x08\x00",
        PageFault::Overlap,
    ),
    (
        b"\x0d\x00\x00\x00\x02\x00\x00\x00\x01\xf8\x01\xfc",
        b"\x02\x02\x01\x08\x02\x02\x01\x08",
        PageFault::OutOfOrder,
    ),
];

#[test]
fn faults(rt: HostRuntime) -> Result<(), Fail> {
    for (front, end, fault) in &FAULTS {
        let page = page_of(rt.alloc(), 512, *front, *end)?;
        let found = read(rt.alloc(), &page);
        assert!(rt; matches!(found, Err(f) if f == *fault), "{fault:?}");
    }
    Ok(())
}

// On a table leaf with 512 usable bytes: the length of a payload, and how much of it is local.
static LOCAL: [(u64, u64); 6] = [
    (0, 0),
    (477, 477),
    (478, 39),
    (547, 39),
    (985, 477),
    (986, 39),
];

#[test]
fn local(rt: HostRuntime) {
    for (payload, size) in &LOCAL {
        assert_eq!(rt; local_size(Kind::TableLeaf, *payload, 512), *size);
    }
}

/// What a page of 512 bytes holds, written to one of other bytes.
fn rewritten(alloc: Global, page: &[u8]) -> Result<[u8; 512], PageFault> {
    let mut out = [0x55; 512];
    if page.len() != 512 {
        return Err(PageFault::Memory);
    }
    let cells = match read_page(alloc, page, 0, 512) {
        Ok(cells) => cells,
        Err(fault) => return Err(fault),
    };
    legal_is_writable(&cells, page, 0, 512);
    put_page(&cells, &mut out, 0, 512);
    Ok(out)
}

fn expect_same(
    rt: &impl Abort,
    alloc: Global,
    case: &(&[u8], &[u8], Kind, usize, u32),
) -> Result<(), PageFault> {
    let (front, end, _, _, _) = *case;
    let page = page_of(alloc, 512, front, end)?;
    let out = rewritten(alloc, &page)?;
    assert!(rt; out.as_slice() == page.as_slice());
    Ok(())
}

// Each page of the table is in the one written form.
#[test]
fn put(rt: HostRuntime) -> Result<(), Fail> {
    for case in &KINDS {
        expect_same(&rt, rt.alloc(), case)?;
    }
    Ok(())
}

// Cells in another order, with a gap between, behind a header that counts fragments.
#[test]
fn put_in_order(rt: HostRuntime) -> Result<(), Fail> {
    let loose = b"\x0d\x00\x00\x00\x02\x01\xf5\x03\x01\xf5\x01\xfc";
    let cells = b"\x02\x01\x01\x08\x00\x00\x00\x02\x02\x01\x09";
    let page = page_of(rt.alloc(), 512, loose, cells)?;
    let out = rewritten(rt.alloc(), &page)?;
    let front = b"\x0d\x00\x00\x00\x02\x01\xf8\x00\x01\xfc\x01\xf8";
    let end = b"\x02\x02\x01\x09\x02\x01\x01\x08";
    let wanted = page_of(rt.alloc(), 512, front, end)?;
    assert!(rt; out.as_slice() == wanted.as_slice());
    Ok(())
}

#[test]
fn put_empty_leaf_of_the_largest_page(rt: HostRuntime) -> Result<(), Fail> {
    let mut page = page_of(rt.alloc(), 65536, b"\x0d", b"\x01")?;
    if page.len() == 65536 {
        let cells = read_page(rt.alloc(), &page, 0, 65536)?;
        legal_is_writable(&cells, &page, 0, 65536);
        let fits = put_page(&cells, &mut page, 0, 65536);
        assert!(rt; fits);
    }
    assert!(rt; page.starts_with(b"\x0d\x00\x00\x00\x00\x00\x00\x00"));
    assert!(rt; page.iter().skip(8).all(|byte| *byte == 0));
    Ok(())
}

// Page 1 keeps its first hundred bytes, and a page its reserved ones.
#[test]
fn put_keeps_what_is_around(rt: HostRuntime) -> Result<(), Fail> {
    let leaf = page_of(rt.alloc(), 512, KEPT_FRONT, KEPT_END)?;
    let mut page = [0x55; 520];
    if leaf.len() == 512 {
        let cells = read_page(rt.alloc(), &leaf, 0, 512)?;
        legal_is_writable(&cells, &leaf, 0, 512);
        let fits = put_page(&cells, &mut page, 100, 512);
        assert!(rt; fits);
    }
    assert!(rt; page.iter().take(100).all(|byte| *byte == 0x55));
    assert!(rt; &page[100..110] == b"\x0d\x00\x00\x00\x01\x01\xfc\x00\x01\xfc".as_slice());
    assert!(rt; &page[508..] == b"\x02\x01\x01\x08\x55\x55\x55\x55\x55\x55\x55\x55".as_slice());
    Ok(())
}

const KEPT_FRONT: &[u8] = b"\x0d\x00\x00\x00\x01\x01\xfc\x00\x01\xfc";

const KEPT_END: &[u8] = b"\x02\x01\x01\x08";
