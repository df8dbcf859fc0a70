//! Pages that are read, put and added.

use super::begin::{First, Three, begun};
use super::disk::{Counted, PAGE, three_pages};
use spe_session::Pager;
use spe_space::{Pages, SpaceFault};
use std::test::Fail;

// The first and the last byte of a page.
fn ends(pager: &mut Pager<Counted, Three, First>, page: u32) -> Result<(u8, u8), SpaceFault> {
    if pager.page_size() as usize != PAGE {
        return Err(SpaceFault::Memory);
    }
    let mut buf = [7u8; PAGE];
    match pager.get(page, &mut buf) {
        Ok(()) => Ok((buf[0], buf[PAGE - 1])),
        Err(fault) => Err(fault),
    }
}

// Puts a page of nines.
fn put_nines(pager: &mut Pager<Counted, Three, First>, page: u32) -> Result<(), SpaceFault> {
    if pager.page_size() as usize != PAGE {
        return Err(SpaceFault::Memory);
    }
    pager.put(page, &[9; PAGE])
}

// Gets pages 2 and 3, puts page 3, and gets both again.
fn shows(pager: &mut Pager<Counted, Three, First>) -> Result<bool, SpaceFault> {
    let second = ends(pager, 2)?;
    let third = ends(pager, 3)?;
    put_nines(pager, 3)?;
    let put = ends(pager, 3)?;
    let again = ends(pager, 2)?;
    Ok(second == (2, 2) && third == (3, 3) && put == (9, 9) && again == (2, 2))
}

// How many readings were tried, and how many operations.
fn tried(pager: Pager<Counted, Three, First>) -> (u64, u64) {
    let disk = pager.into_parts().store.close().disk;
    (disk.readings, disk.made)
}

#[test]
fn pages_are_read_once_and_kept(rt: HostRuntime) -> Result<(), Fail> {
    let alloc = rt.alloc();
    let mut pager = begun(alloc, three_pages(alloc, 0)?)?;
    let shown = shows(&mut pager);
    assert_eq!(rt; (shown, tried(pager)), (Ok(true), (2, 0)));
    Ok(())
}
