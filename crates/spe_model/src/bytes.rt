//! Big-endian numbers at a place in some bytes.

ghost use Rattle.std.specs.Prelude.{◌≡◌, ◌+◌, ◌≤◌, length};
ghost use Rattle.spe_model.specs.Big.{u16_at, u32_at};

use byteorder::{BigEndian, ByteOrder};

/// The number in the two bytes from a place on.
#[tactic(auto, unfolding(crate::specs::Big::u16_at))]
pub fn u16_of(bytes: &[u8], at: usize) -> u16
    requires { at + 2 ≤ length bytes.now }
    ensures { result ≡ u16_at bytes.now at }
{
    BigEndian::read_u16(&bytes[at..])
}

/// The number in the four bytes from a place on.
#[tactic(auto, unfolding(crate::specs::Big::u32_at))]
pub fn u32_of(bytes: &[u8], at: usize) -> u32
    requires { at + 4 ≤ length bytes.now }
    ensures { result ≡ u32_at bytes.now at }
{
    BigEndian::read_u32(&bytes[at..])
}
