//! Varints: numbers of one to nine bytes ("B-tree Pages" in SQLite's Database File Format).

ghost use Rattle.std.specs.Prelude.{◌≡◌, ◌<◌, ◌≤◌, ◌-◌, ◌^◌, ℕ, List, ◌++◌, drop, length, Some, IfSome};
ghost use Rattle.spe_model.specs.Varint.{varint_of};
ghost use Rattle.spe_format.specs.Spelling.{AreBytes, groups, varint_bytes};
ghost use Rattle.spe_model.specs.Varint.{varint_length};

// Reads a varint of any length.
#[tactic(auto, using(crate::proofs::VarintLemmas::fits_56), unfolding(spe_model::specs::Varint::varint_of))]
fn read_long(bytes: &[u8]) -> Option<(u64, usize)>
    ensures value { result ≡ varint_of bytes.now }
    ensures within { IfSome result (λ found. (0 < found.1) × (found.1 ≤ length bytes.now)) }
{
    let mut value: u64 = 0;
    for (read, byte) in bytes.iter().enumerate() {
        let byte = u64::from(*byte);
        if read == 8 {
            return Some((value * 256 + byte, 9));
        }
        if byte < 128 {
            return Some((value * 128 + byte, read + 1));
        }
        value = value * 128 + (byte - 128);
    }
    None
}

/// Reads the varint at the front: its value and its length in bytes, 1 to 9.
///
/// `None` exactly where the bytes end inside it. Spellings longer than need be are read too.
#[tactic(auto, unfolding(spe_model::specs::Varint::varint_of))]
pub fn read_varint(bytes: &[u8]) -> Option<(u64, usize)>
    ensures value { result ≡ varint_of bytes.now }
    ensures within { IfSome result (λ found. (0 < found.1) × (found.1 ≤ length bytes.now)) }
{
    match bytes {
        [a, ..] if *a < 128 => Some((u64::from(*a), 1)),
        [a, b, ..] if *b < 128 => Some((u64::from(*a - 128) * 128 + u64::from(*b), 2)),
        [a, b, c, ..] if *c < 128 => Some((
            u64::from(*a - 128) * 16384 + u64::from(*b - 128) * 128 + u64::from(*c),
            3,
        )),
        _ => read_long(bytes),
    }
}

/// How many bytes a number takes in its shortest spelling, 1 to 9.
pub fn varint_length(value: u64) -> usize
    ensures value { result ≡ varint_length value }
    ensures within { (1 ≤ result) × (result ≤ 9) }
    ensures fits { result < 9 → value < 128 ^ result }
    ensures least { 1 < result → 128 ^ (result - 1) ≤ value }
{
    match value {
        0..=0x7f => 1,
        0x80..=0x3fff => 2,
        0x4000..=0x1f_ffff => 3,
        0x20_0000..=0xfff_ffff => 4,
        0x1000_0000..=0x7_ffff_ffff => 5,
        0x8_0000_0000..=0x3ff_ffff_ffff => 6,
        0x400_0000_0000..=0x1_ffff_ffff_ffff => 7,
        0x2_0000_0000_0000..=0xff_ffff_ffff_ffff => 8,
        _ => 9,
    }
}

// Writes the lowest `count` groups of seven bits at the front.
fn put_groups(number: u64, count: usize, out: &mut [u8; 9])
    requires { count ≤ 9 }
    ensures { out.new ≡ groups count number ++ drop count out.old }
{
    let mut rest = number;
    let mut at = count;
    while at > 0 {
        at -= 1;
        out[at] = 128 + (rest % 128) as u8;
        rest /= 128;
    }
}

/// Writes a number in its shortest spelling at the front, and answers how many bytes that takes, 1
/// to 9. The rest of `out` stays as it is.
pub fn put_varint(value: u64, out: &mut [u8; 9]) -> usize
    ensures bytes { out.new ≡ varint_bytes value ++ drop result out.old }
    ensures len { result ≡ length (varint_bytes value) }
    ensures least { result ≡ varint_length value }
    ensures reads_back { (rest : List ℕ) → varint_of (varint_bytes value ++ rest) ≡ Some (value, result) }
    ensures shortest { (bytes : List ℕ) (n : ℕ) → AreBytes bytes → varint_of bytes ≡ Some (value, n) → result ≤ n }
{
    let len = varint_length(value);
    if len == 9 {
        put_groups(value / 256, 8, out);
        out[8] = (value % 256) as u8;
    } else {
        put_groups(value / 128, len - 1, out);
        out[len - 1] = (value % 128) as u8;
    }
    len
}
