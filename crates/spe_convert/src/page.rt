//! The bytes of pages that change.

ghost use Rattle.std.specs.Prelude.{◌≡◌, ◌+◌, ◌-◌, ◌*◌, ◌≤◌, ◌++◌, ◌∷◌, drop, take, length, IfOk, OnOk};
ghost use Rattle.byteorder.specs.Endian.{big_bytes};
ghost use Rattle.spe_model.specs.Content.{zeros};
ghost use Rattle.spe_convert.specs.Changes.{counted_page, front_page};
ghost use Rattle.spe_convert.specs.Trunk.{number_bytes, page_of};

use byteorder::{BigEndian, ByteOrder};
use spe_model::{Bytes, u32_of};
use std::alloc::{AllocError, Global};

// Each of these writes behind what is there.

fn push_number(page: &mut Vec<u8>, number: u32) -> Result<(), AllocError>
    ensures bytes { OnOk result (page.new.items ≡ page.old.items ++ big_bytes 4 number) }
    ensures long { OnOk result (length page.new.items ≡ length page.old.items + 4) }
{
    let mut bytes = [0; 4];
    BigEndian::write_u32(&mut bytes, number);
    page.extend_from_slice(&bytes)
}

fn push_numbers(page: &mut Vec<u8>, numbers: &[u32]) -> Result<(), AllocError>
    ensures bytes { OnOk result (page.new.items ≡ page.old.items ++ number_bytes numbers.now) }
    ensures long { OnOk result (length page.new.items ≡ length page.old.items + 4 * length numbers.now) }
{
    let mut left = numbers;
    while let [first, rest @ ..] = left {
        push_number(page, *first)?;
        left = rest;
    }
    Ok(())
}

fn push_part(page: &mut Vec<u8>, bytes: &[u8], from: usize, to: usize) -> Result<(), AllocError>
    requires order { from ≤ to }
    requires inside { to ≤ length bytes.now }
    ensures { OnOk result (page.new.items ≡ page.old.items ++ take (to - from) (drop from bytes.now)) }
{
    page.extend_from_slice(&bytes[from..to])
}

fn push_from(page: &mut Vec<u8>, bytes: &[u8], from: usize) -> Result<(), AllocError>
    requires { from ≤ length bytes.now }
    ensures { OnOk result (page.new.items ≡ page.old.items ++ drop from bytes.now) }
{
    page.extend_from_slice(&bytes[from..])
}

// Zeros up to the usable end of the page, and then its reserved bytes.
fn push_rest(page: &mut Vec<u8>, usable: usize, old: &[u8]) -> Result<(), AllocError>
    requires low { length page.old.items ≤ usable }
    requires high { usable ≤ length old.now }
    ensures { OnOk result (page.new.items ≡ page.old.items ++ zeros (usable - length page.old.items) ++ drop usable old.now) }
{
    page.resize(usable, 0)?;
    push_from(page, old, usable)
}

/// The bytes of a trunk: its next trunk, and the pages that it lists. Its reserved bytes are those of
/// `old`.
pub fn trunk_page(
    alloc: Global,
    next: u32,
    leaves: &[u32],
    usable: u32,
    old: &[u8],
) -> Result<Bytes, AllocError>
    requires few { length leaves.now ≤ 16384 }
    requires low { 8 + 4 * length leaves.now ≤ usable }
    requires high { usable ≤ length old.now }
    ensures { IfOk result (λ page. page ≡ page_of usable (next ∷ length leaves.now ∷ leaves.now) old.now) }
{
    let mut page = Vec::new(alloc);
    push_number(&mut page, next)?;
    push_number(&mut page, leaves.len() as u32)?;
    push_numbers(&mut page, leaves)?;
    push_rest(&mut page, usable as usize, old)?;
    Ok(Bytes::new(page))
}

/// The bytes of a node page that names these first trunks.
pub fn node_page(
    alloc: Global,
    firsts: &[u32],
    usable: u32,
    old: &[u8],
) -> Result<Bytes, AllocError>
    requires few { length firsts.now ≤ 16 }
    requires low { 68 ≤ usable }
    requires high { usable ≤ length old.now }
    ensures { IfOk result (λ page. page ≡ page_of usable (length firsts.now ∷ firsts.now) old.now) }
{
    let mut page = Vec::new(alloc);
    push_number(&mut page, firsts.len() as u32)?;
    push_numbers(&mut page, firsts)?;
    push_rest(&mut page, usable as usize, old)?;
    Ok(Bytes::new(page))
}

/// Page 1 with its change counter raised by one, modulo 2^32, and copied to the place of the counter
/// that the page count is valid for; with this page count, this first page of its free lists, and this
/// number of free pages.
#[tactic(auto, unfolding(crate::specs::Changes::front_page))]
pub fn front_page(
    alloc: Global,
    count: u32,
    first: u32,
    free: u32,
    page: &[u8],
) -> Result<Bytes, AllocError>
    requires { 100 ≤ length page.now }
    ensures { IfOk result (λ bytes. bytes ≡ front_page count first free page.now) }
{
    let raised = u32_of(page, 24).wrapping_add(1);
    let mut bytes = Vec::new(alloc);
    push_part(&mut bytes, page, 0, 24)?;
    push_number(&mut bytes, raised)?;
    push_number(&mut bytes, count)?;
    push_number(&mut bytes, first)?;
    push_number(&mut bytes, free)?;
    push_part(&mut bytes, page, 40, 92)?;
    push_number(&mut bytes, raised)?;
    push_from(&mut bytes, page, 96)?;
    Ok(Bytes::new(bytes))
}

/// Page 1 with this page count, which is valid: the change counter is copied.
#[tactic(auto, unfolding(crate::specs::Changes::counted_page))]
pub fn counted_page(alloc: Global, count: u32, page: &[u8]) -> Result<Bytes, AllocError>
    requires { 100 ≤ length page.now }
    ensures { IfOk result (λ bytes. bytes ≡ counted_page count page.now) }
{
    let mut bytes = Vec::new(alloc);
    push_part(&mut bytes, page, 0, 28)?;
    push_number(&mut bytes, count)?;
    push_part(&mut bytes, page, 32, 92)?;
    push_part(&mut bytes, page, 24, 28)?;
    push_from(&mut bytes, page, 96)?;
    Ok(Bytes::new(bytes))
}
