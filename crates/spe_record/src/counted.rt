//! Records whose values are counted and not made.

ghost use Rattle.std.specs.Prelude.{◌≡◌, ◌<◌, ◌↔◌, IsTrue, IsUtf8};
ghost use Rattle.std.specs.Option.{option_map};
ghost use Rattle.spe_model.specs.Record.{is_text, record_of, value_of};
ghost use Rattle.spe_model.specs.Serial.{is_reserved, types_at};
ghost use Rattle.spe_record.specs.Counted.{count_of, judged, seen_of, seen_with};

use crate::types::size;
use spe_format::read_varint;
use spe_model::RecordFault;

/// What the serial types of a record say of it, and of its texts.
#[derive(Clone, Copy, Debug)]
pub struct Seen {
    /// How many there are.
    pub count: usize,
    /// Whether one of them is reserved.
    pub reserved: bool,
    /// How many bytes the values take, or 2^64 - 1 where they take more.
    pub total: u64,
    /// Whether each text is UTF-8, as far as there are bytes.
    pub texts: bool,
}

// From this length on blocks of many bytes are faster than single ones.
const BLOCK: usize = 64;

fn are_utf8(bytes: &[u8]) -> bool
    ensures { IsTrue result ↔ IsUtf8 bytes.now }
{
    if bytes.len() < BLOCK {
        return str::from_utf8(bytes).is_ok();
    }
    simdutf8::is_utf8(bytes)
}

// The value of a serial type whose bytes these are is no text, or it is UTF-8.
#[tactic(auto, using(crate::proofs::ValuesLemmas::is_utf8_true, crate::proofs::ValuesLemmas::is_utf8_false), unfolding(spe_model::specs::Record::value_of))]
fn is_text(kind: u64, bytes: &[u8]) -> bool
    ensures { result ≡ is_text (value_of kind bytes.now) }
{
    if kind < 12 || kind % 2 == 0 {
        return true;
    }
    are_utf8(bytes)
}

fn is_reserved(kind: u64) -> bool
    ensures { result ≡ is_reserved kind }
{
    kind == 10 || kind == 11
}

// With one serial type more, the bytes of whose value stand here.
fn seen_with(seen: Seen, kind: u64, bytes: &[u8]) -> Seen
    requires { seen.count < 18446744073709551615 }
    ensures { result ≡ seen_with seen kind bytes.now }
{
    Seen {
        count: seen.count + 1,
        reserved: seen.reserved || is_reserved(kind),
        total: seen.total.saturating_add(size(kind)),
        texts: seen.texts && is_text(kind, bytes),
    }
}

// What the serial types say that fill some bytes, or None where the last is cut off.
pub fn seen_of(types: &[u8], body: &[u8]) -> Option<Seen>
    ensures { result ≡ option_map (seen_of body.now) (types_at types.now) }
{
    let mut seen = Seen {
        count: 0,
        reserved: false,
        total: 0,
        texts: true,
    };
    let mut left = types;
    let mut values = body;
    while !left.is_empty() {
        let (kind, len) = read_varint(left)?;
        let here = size(kind).min(values.len() as u64);
        let (value, after) = values.split_at(here as usize);
        seen = seen_with(seen, kind, value);
        (_, left) = left.split_at(len);
        values = after;
    }
    Some(seen)
}

// How many values there are in a body of so many bytes, or the lowest fault.
pub fn judged(seen: Seen, body: u64) -> Result<usize, RecordFault>
    ensures { result ≡ judged seen body }
{
    if seen.reserved {
        Err(RecordFault::ReservedType)
    } else if seen.total > body {
        Err(RecordFault::Short)
    } else if seen.total < body {
        Err(RecordFault::Trailing)
    } else if !seen.texts {
        Err(RecordFault::NotUtf8)
    } else {
        Ok(seen.count)
    }
}

/// How many values the record has that fills `bytes`. The fault is the lowest that holds, as of
/// `decode`; no value is made, and no memory is taken.
#[tactic(auto, unfolding(spe_model::specs::Record::record_of))]
pub fn value_count(bytes: &[u8]) -> Result<usize, RecordFault>
    ensures { result ≡ count_of (record_of bytes.now) }
{
    let Some((header, first)) = read_varint(bytes) else {
        return Err(RecordFault::HeaderLength);
    };
    if header < first as u64 || header > bytes.len() as u64 {
        return Err(RecordFault::HeaderLength);
    }
    let (front, body) = bytes.split_at(header as usize);
    let Some(seen) = seen_of(&front[first..], body) else {
        return Err(RecordFault::HeaderLength);
    };
    judged(seen, body.len() as u64)
}
