//! How long the record of a row is.

ghost use Rattle.std.specs.Prelude.{◌≡◌, ◌≤◌, min, sum_by};
ghost use Rattle.spe_model.specs.Alias.{is_alias};
ghost use Rattle.spe_model.specs.Length.{integer_type, type_length, body_length, header_length, fields, record_length};
ghost use Rattle.spe_record.specs.Written.{field_at};

use crate::types::size;
use spe_format::varint_length;
use spe_model::{Value, Values};

// The column at a place is the rowid.
pub fn is_alias(alias: Option<u32>, place: usize) -> bool
    ensures { result ≡ is_alias alias place }
{
    alias.is_some_and(|a| a as usize == place)
}

// The serial type of a whole number: that of the fewest bytes that hold it.
pub fn integer_type(number: i64) -> u64
    ensures { result ≡ integer_type number }
{
    match number {
        0 => 8,
        1 => 9,
        -0x80..=0x7f => 1,
        -0x8000..=0x7fff => 2,
        -0x80_0000..=0x7f_ffff => 3,
        -0x8000_0000..=0x7fff_ffff => 4,
        -0x8000_0000_0000..=0x7fff_ffff_ffff => 5,
        _ => 6,
    }
}

// How many bytes the serial type of a value takes.
#[tactic(auto, unfolding(spe_model::specs::Length::type_length))]
fn type_length(value: &Value) -> u64
    ensures { result ≡ type_length value.now }
{
    match value {
        Value::Null | Value::Int(_) | Value::Real8(_) => 1,
        Value::Text(text) => varint_length(
            (text.as_slice().len() as u64)
                .saturating_mul(2)
                .saturating_add(13),
        ) as u64,
        Value::Blob(bytes) => varint_length(
            (bytes.as_slice().len() as u64)
                .saturating_mul(2)
                .saturating_add(12),
        ) as u64,
    }
}

// How many bytes a value takes.
#[tactic(auto, unfolding(spe_model::specs::Length::body_length))]
fn body_length(value: &Value) -> u64
    ensures { result ≡ body_length value.now }
{
    match value {
        Value::Null => 0,
        Value::Int(number) => size(integer_type(*number)),
        Value::Real8(_) => 8,
        Value::Text(text) => text.as_slice().len() as u64,
        Value::Blob(bytes) => bytes.as_slice().len() as u64,
    }
}

// The same of the field at a place, which is NULL in the rowid's column.

#[tactic(auto, unfolding(spe_model::specs::Length::type_length))]
fn type_length_at(alias: Option<u32>, place: usize, value: &Value) -> u64
    ensures { result ≡ type_length (field_at alias place value.now) }
{
    if is_alias(alias, place) {
        1
    } else {
        type_length(value)
    }
}

#[tactic(auto, unfolding(spe_model::specs::Length::body_length))]
fn body_length_at(alias: Option<u32>, place: usize, value: &Value) -> u64
    ensures { result ≡ body_length (field_at alias place value.now) }
{
    if is_alias(alias, place) {
        0
    } else {
        body_length(value)
    }
}

// How many bytes the serial types of a row take, or 2^64 - 1 where they take more.
pub fn types_length(values: &[Value], alias: Option<u32>) -> u64
    ensures { result ≡ min (sum_by type_length (fields alias values.now)) 18446744073709551615 }
{
    let mut sum = 0u64;
    let mut place = 0;
    let mut left = values;
    while let [value, rest @ ..] = left {
        sum = sum.saturating_add(type_length_at(alias, place, value));
        place += 1;
        left = rest;
    }
    sum
}

// How many bytes the fields of a row take, or 2^64 - 1 where they take more.
fn bodies_length(values: &[Value], alias: Option<u32>) -> u64
    ensures { result ≡ min (sum_by body_length (fields alias values.now)) 18446744073709551615 }
{
    let mut sum = 0u64;
    let mut place = 0;
    let mut left = values;
    while let [value, rest @ ..] = left {
        sum = sum.saturating_add(body_length_at(alias, place, value));
        place += 1;
        left = rest;
    }
    sum
}

// How long a header is whose serial types take so many bytes: its own length takes the fewest bytes
// that count them too.
#[tactic(auto, unfolding(spe_model::specs::Length::header_length))]
pub fn header_length(types: u64) -> u64
    ensures { result ≡ min (header_length types) 18446744073709551615 }
{
    let least = types.saturating_add(varint_length(types) as u64);
    types.saturating_add(varint_length(least) as u64)
}

/// How many bytes the record of a row with these values takes, or 2^64 - 1 where it takes more.
///
/// `alias` is the column that is another name of the rowid, counted from 0; its field is NULL.
pub fn encoded_length(values: &Values, alias: Option<u32>) -> u64
    ensures { result ≡ min (record_length alias values.now) 18446744073709551615 }
{
    let values = values.as_slice();
    header_length(types_length(values, alias)).saturating_add(bodies_length(values, alias))
}
