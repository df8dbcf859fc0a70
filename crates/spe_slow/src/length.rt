//! How long the record of a row is.

ghost use Rattle.std.specs.Prelude.{◌≡◌, ◌≤◌, ◌<◌, ◌^◌, ◌-◌, ◌+◌, ◌*◌, min, sum_by, map};
ghost use Rattle.spe_model.specs.Serial.{size_of};
ghost use Rattle.spe_model.specs.Varint.{varint_length};
ghost use Rattle.spe_model.specs.Length.{integer_type, type_length, body_length, header_length, fields, record_length};

use crate::naming::is_alias;
use spe_model::{Value, Values};

// How many bytes a number takes in its shortest spelling as a varint.
fn varint_length(value: u64) -> u64
    ensures value { result ≡ varint_length value }
    ensures within { result ≤ 9 }
{
    match value {
        0..=0x7f => 1,
        0x80..=0x3fff => 2,
        0x4000..=0x1f_ffff => 3,
        0x20_0000..=0xfff_ffff => 4,
        0x1000_0000..=0x7_ffff_ffff => 5,
        0x8_0000_0000..=0x3ff_ffff_ffff => 6,
        0x400_0000_0000..=0x1_ffff_ffff_ffff => 7,
        0x2_0000_0000_0000..=0xff_ffff_ffff_ffff => 8,
        _ => 9,
    }
}

// How many bytes a whole number takes.
fn integer_length(number: i64) -> u64
    ensures { result ≡ size_of (integer_type number) }
{
    match number {
        0 | 1 => 0,
        -0x80..=0x7f => 1,
        -0x8000..=0x7fff => 2,
        -0x80_0000..=0x7f_ffff => 3,
        -0x8000_0000..=0x7fff_ffff => 4,
        -0x8000_0000_0000..=0x7fff_ffff_ffff => 6,
        _ => 8,
    }
}

// How many bytes the serial type of a value takes.
#[tactic(auto, unfolding(spe_model::specs::Length::type_length))]
fn type_length(value: &Value) -> u64
    ensures value { result ≡ type_length value.now }
    ensures within { result ≤ 9 }
{
    match value {
        Value::Null | Value::Int(_) | Value::Real8(_) => 1,
        Value::Text(text) => varint_length(
            (text.as_slice().len() as u64)
                .saturating_mul(2)
                .saturating_add(13),
        ),
        Value::Blob(bytes) => varint_length(
            (bytes.as_slice().len() as u64)
                .saturating_mul(2)
                .saturating_add(12),
        ),
    }
}

// How many bytes a value takes.
#[tactic(auto, unfolding(spe_model::specs::Length::body_length))]
fn body_length(value: &Value) -> u64
    ensures { result ≡ body_length value.now }
{
    match value {
        Value::Null => 0,
        Value::Int(number) => integer_length(*number),
        Value::Real8(_) => 8,
        Value::Text(text) => text.as_slice().len() as u64,
        Value::Blob(bytes) => bytes.as_slice().len() as u64,
    }
}

// How long a header is whose serial types take so many bytes: its own length takes the fewest bytes
// that count them too.
#[tactic(auto, unfolding(spe_model::specs::Length::header_length))]
fn header_length(types: u64) -> u64
    ensures { result ≡ min (header_length types) 18446744073709551615 }
{
    let least = types.saturating_add(varint_length(types));
    types.saturating_add(varint_length(least))
}

/// How many bytes the record of a row with these values takes, or 2^64 - 1 where it takes more. In
/// the rowid's column the field is NULL.
#[tactic(auto, unfolding(spe_model::specs::Length::record_length))]
pub fn encoded_length(values: &Values, alias: Option<u32>) -> u64
    ensures { result ≡ min (record_length alias values.now) 18446744073709551615 }
{
    let mut types = 0u64;
    let mut bodies = 0u64;
    for (place, value) in values.as_slice().iter().enumerate() {
        if is_alias(alias, place) {
            types = types.saturating_add(1);
        } else {
            types = types.saturating_add(type_length(value));
            bodies = bodies.saturating_add(body_length(value));
        }
    }
    header_length(types).saturating_add(bodies)
}
