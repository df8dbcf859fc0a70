//! Big-endian numbers put at a place in some bytes.

ghost use Rattle.std.specs.Prelude.{◌≡◌, ◌+◌, ◌≤◌, ◌++◌, length, take, drop};
ghost use Rattle.byteorder.specs.Endian.{big_bytes};

use byteorder::{BigEndian, ByteOrder};

pub fn put_u32(out: &mut [u8], at: usize, number: u32)
    requires { at + 4 ≤ length out.old }
    ensures { out.new ≡ take at out.old ++ big_bytes 4 number ++ drop (at + 4) out.old }
{
    BigEndian::write_u32(&mut out[at..], number);
}
