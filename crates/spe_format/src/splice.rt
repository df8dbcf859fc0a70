//! Bytes put at a place in others.

ghost use Rattle.std.specs.Prelude.{◌≡◌, ◌+◌, ◌-◌, ◌≤◌, length, replicate};
ghost use Rattle.byteorder.specs.Endian.{big_bytes};
ghost use Rattle.spe_format.specs.Canonical.{splice};
ghost use Rattle.spe_format.specs.Spelling.{varint_bytes};

use crate::varint::put_varint;
use byteorder::{BigEndian, ByteOrder};

pub fn put_bytes(page: &mut [u8], at: usize, bytes: &[u8])
    requires { at + length bytes.now ≤ length page.old }
    ensures { page.new ≡ splice at bytes.now page.old }
{
    let end = at + bytes.len();
    page[at..end].copy_from_slice(bytes);
}

// The lowest two bytes of a number, the highest first.
pub fn put_u16(page: &mut [u8], at: usize, number: usize)
    requires { at + 2 ≤ length page.old }
    ensures { page.new ≡ splice at (big_bytes 2 number) page.old }
{
    put_bytes(
        page,
        at,
        &[(number / 256 % 256) as u8, (number % 256) as u8],
    );
}

pub fn put_u32(page: &mut [u8], at: usize, number: u32)
    requires { at + 4 ≤ length page.old }
    ensures { page.new ≡ splice at (big_bytes 4 number) page.old }
{
    let mut bytes = [0; 4];
    BigEndian::write_u32(&mut bytes, number);
    put_bytes(page, at, &bytes);
}

// A varint in its shortest spelling. Answers how many bytes that takes.
pub fn put_number(page: &mut [u8], at: usize, number: u64) -> usize
    requires { at + length (varint_bytes number) ≤ length page.old }
    ensures bytes { page.new ≡ splice at (varint_bytes number) page.old }
    ensures len { result ≡ length (varint_bytes number) }
{
    let mut bytes = [0; 9];
    let len = put_varint(number, &mut bytes);
    let (spelled, _) = bytes.split_at(len);
    put_bytes(page, at, spelled);
    len
}

pub fn put_zeros(page: &mut [u8], from: usize, to: usize)
    requires low { from ≤ to }
    requires high { to ≤ length page.old }
    ensures { page.new ≡ splice from (replicate (to - from) 0) page.old }
{
    page[from..to].fill(0);
}
