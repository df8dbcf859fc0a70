//! The bytes of pages whose free lists change.

use spe_convert::{counted_page, front_page, node_page, trunk_page};
use std::alloc::{AllocError, Global};
use std::test::Fail;

// A page whose bytes count up from 0.
fn counting() -> [u8; 128] {
    let mut page = [0u8; 128];
    let mut next = 0u8;
    for byte in &mut page {
        *byte = next;
        next = next.wrapping_add(1);
    }
    page
}

// Whether bytes begin and end so, and are so many.
fn has_ends(bytes: &[u8], length: usize, front: &[u8], back: &[u8]) -> bool {
    bytes.len() == length && bytes.starts_with(front) && bytes.ends_with(back)
}

fn node_holds(alloc: Global) -> Result<bool, AllocError> {
    let node = node_page(alloc, &[4, 5], 480, &[7; 512])?;
    Ok(
        node.as_slice()
            .starts_with(b"\x00\x00\x00\x02\x00\x00\x00\x04\x00\x00\x00\x05"),
    )
}

// A trunk with leaves, behind which the bytes that no list uses stay.
fn trunk_holds(alloc: Global) -> Result<bool, AllocError> {
    let trunk = trunk_page(alloc, 0, &[4, 5], 480, &[7; 512])?;
    Ok(has_ends(
        trunk.as_slice(),
        512,
        b"\x00\x00\x00\x00\x00\x00\x00\x02\x00\x00\x00\x04\x00\x00\x00\x05",
        b"\x00\x00\x07\x07\x07\x07\x07\x07\x07\x07\x07\x07\x07\x07\x07\x07\x07\x07\x07\x07\x07\x07\x07\x07\x07\x07\x07\x07\x07\x07\x07\x07\x07\x07",
    ))
}

fn bare_trunk_holds(alloc: Global) -> Result<bool, AllocError> {
    let bare = trunk_page(alloc, 9, &[], 512, &[0; 512])?;
    Ok(has_ends(
        bare.as_slice(),
        512,
        b"\x00\x00\x00\x09\x00\x00\x00\x00",
        b"",
    ))
}

#[test]
fn lists(rt: HostRuntime) -> Result<(), Fail> {
    let node = node_holds(rt.alloc())?;
    let trunk = trunk_holds(rt.alloc())?;
    let bare = bare_trunk_holds(rt.alloc())?;
    assert!(rt; node && trunk && bare);
    Ok(())
}

fn front_holds(alloc: Global, page: &[u8; 128]) -> Result<bool, AllocError> {
    let front = front_page(alloc, 5, 3, 2, page)?;
    Ok(has_ends(
        front.as_slice(),
        128,
        b"\x00\x01\x02\x03\x04\x05\x06\x07\x08\x09\x0a\x0b\x0c\x0d\x0e\x0f\x10\x11\x12\x13\x14\x15\x16\x17\x18\x19\x1a\x1c\x00\x00\x00\x05\x00\x00\x00\x03\x00\x00\x00\x02\x28\x29",
        b"\x5a\x5b\x18\x19\x1a\x1c\x60\x61\x62\x63\x64\x65\x66\x67\x68\x69\x6a\x6b\x6c\x6d\x6e\x6f\x70\x71\x72\x73\x74\x75\x76\x77\x78\x79\x7a\x7b\x7c\x7d\x7e\x7f",
    ))
}

fn counted_holds(alloc: Global, page: &[u8; 128]) -> Result<bool, AllocError> {
    let counted = counted_page(alloc, 5, page)?;
    Ok(has_ends(
        counted.as_slice(),
        128,
        b"\x00\x01\x02\x03\x04\x05\x06\x07\x08\x09\x0a\x0b\x0c\x0d\x0e\x0f\x10\x11\x12\x13\x14\x15\x16\x17\x18\x19\x1a\x1b\x00\x00\x00\x05\x20\x21",
        b"\x5a\x5b\x18\x19\x1a\x1b\x60\x61\x62\x63\x64\x65\x66\x67\x68\x69\x6a\x6b\x6c\x6d\x6e\x6f\x70\x71\x72\x73\x74\x75\x76\x77\x78\x79\x7a\x7b\x7c\x7d\x7e\x7f",
    ))
}

#[test]
fn fronts(rt: HostRuntime) -> Result<(), Fail> {
    let page = counting();
    let front = front_holds(rt.alloc(), &page)?;
    let counted = counted_holds(rt.alloc(), &page)?;
    assert!(rt; front && counted);
    Ok(())
}
