//! The bytes of a trunk.

ghost use Rattle.std.specs.Prelude.{◌≡◌, ◌+◌, ◌-◌, ◌*◌, ◌^◌, ◌<◌, ◌≤◌, [], ◌∷◌, ◌++◌, take, drop, replicate, length, IfOk};
ghost use Rattle.spe_model.specs.Big.{u32_at};
ghost use Rattle.spe_space.specs.Front.{with_u32};
ghost use Rattle.spe_freelist.specs.Trunk.{fifteen, leaves_at, with_zeros, IsTrunk};

use byteorder::{BigEndian, ByteOrder};
use std::alloc::{AllocError, Global};

fn put_u32(bytes: &mut [u8], at: usize, number: u32)
    requires { at + 4 ≤ length bytes.old }
    ensures bytes { bytes.new ≡ with_u32 at number bytes.old }
    ensures len { length bytes.new ≡ length bytes.old }
    ensures small { number < 2 ^ 32 }
{
    BigEndian::write_u32(&mut bytes[at..], number);
}

fn put_zeros(bytes: &mut [u8], from: usize, to: usize)
    requires low { from ≤ to }
    requires high { to ≤ length bytes.old }
    ensures bytes { bytes.new ≡ with_zeros from to bytes.old }
    ensures len { length bytes.new ≡ length bytes.old }
{
    bytes[from..to].fill(0);
}

/// Makes a page a trunk, with the first `count` leaves that it names and this next trunk.
pub(crate) fn make_trunk(page: &mut [u8], usable: u32, next: u32, count: u32)
    requires room { 8 + 4 * count ≤ usable }
    requires within { usable ≤ length page.old }
    ensures trunk { IsTrunk usable next (leaves_at page.old count) (drop usable page.old) page.new }
    ensures len { length page.new ≡ length page.old }
{
    put_u32(page, 0, next);
    put_u32(page, 4, count);
    put_zeros(page, (8 + 4 * count) as usize, usable as usize);
}

/// Names one more leaf behind the first `count` leaves.
pub(crate) fn add_leaf(page: &mut [u8], usable: u32, count: u32, leaf: u32)
    requires room { 12 + 4 * count ≤ usable }
    requires within { usable ≤ length page.old }
    ensures leaves { leaves_at page.new (count + 1) ≡ leaves_at page.old count ++ leaf ∷ [] }
    ensures next { u32_at page.new 0 ≡ u32_at page.old 0 }
    ensures reserved { drop usable page.new ≡ drop usable page.old }
    ensures len { length page.new ≡ length page.old }
{
    put_u32(page, (8 + 4 * count) as usize, leaf);
}

/// Names the fifteen pages behind `first` as leaves.
pub(crate) fn add_fifteen(page: &mut [u8], usable: u32, first: u32)
    requires small { first + 15 < 2 ^ 32 }
    requires room { 68 ≤ usable }
    requires within { usable ≤ length page.old }
    ensures leaves { leaves_at page.new 15 ≡ fifteen first }
    ensures reserved { drop usable page.new ≡ drop usable page.old }
    ensures len { length page.new ≡ length page.old }
{
    for index in 0..15 {
        add_leaf(page, usable, index, first + 15 - index);
    }
}

/// The reserved bytes of a page.
pub(crate) fn reserved_of(alloc: Global, page: &[u8], usable: u32) -> Result<Vec<u8>, AllocError>
    requires { usable ≤ length page.now }
    ensures { IfOk result (λ reserved. reserved.items ≡ drop usable page.now) }
{
    let mut reserved = Vec::new(alloc);
    let (_, tail) = page.split_at(usable as usize);
    reserved.extend_from_slice(tail)?;
    Ok(reserved)
}

/// Gives a page other reserved bytes.
pub(crate) fn put_reserved(page: &mut [u8], usable: u32, reserved: &[u8])
    requires { usable + length reserved.now ≡ length page.old }
    ensures used { take usable page.new ≡ take usable page.old }
    ensures reserved { drop usable page.new ≡ reserved.now }
    ensures len { length page.new ≡ length page.old }
{
    let (_, tail) = page.split_at_mut(usable as usize);
    tail.copy_from_slice(reserved);
}

/// Makes the reserved bytes of a page zeros.
pub(crate) fn clear_reserved(page: &mut [u8], usable: u32)
    requires { usable ≤ length page.old }
    ensures used { take usable page.new ≡ take usable page.old }
    ensures reserved { drop usable page.new ≡ replicate (length page.old - usable) 0 }
    ensures len { length page.new ≡ length page.old }
{
    let (_, tail) = page.split_at_mut(usable as usize);
    tail.fill(0);
}
