//! Records as they are written.

ghost use Rattle.std.specs.Prelude.{◌≡◌, ◌≤◌, ◌*◌, ◌++◌, IfOk, OnOk, Ok, length};
ghost use Rattle.std.specs.List.{flat_map};
ghost use Rattle.spe_model.specs.Length.{integer_type, serial_type, fields, record_length};
ghost use Rattle.spe_model.specs.Record.{record_of};
ghost use Rattle.spe_model.specs.Serial.{size_of};
ghost use Rattle.byteorder.specs.Endian.{big_bytes, low_bytes};
ghost use Rattle.std.specs.Int.{w64};
ghost use Rattle.spe_format.specs.Spelling.{varint_bytes};
ghost use Rattle.spe_record.specs.Written.{type_bytes, value_bytes, record_bytes, field_at, IsSpelled, AreSpelled, IsSound, AreSound};

use crate::length::{encoded_length, header_length, integer_type, is_alias, types_length};
use crate::types::size;
use byteorder::{BigEndian, ByteOrder};
use spe_format::put_varint;
use spe_model::{Bytes, Value, Values};
use std::alloc::{AllocError, Global};

// No memory holds more bytes.
const MOST: u64 = 1 << 62;

// Twice a length, which is what serial types count.
fn twice(len: usize) -> Result<u64, AllocError>
    ensures value { IfOk result (λ n. n ≡ 2 * len) }
    ensures within { IfOk result (λ n. n ≤ 9223372036854775808) }
{
    if len as u64 > MOST {
        return Err(AllocError);
    }
    Ok(2 * len as u64)
}

fn serial_type(value: &Value) -> Result<u64, AllocError>
    ensures { IfOk result (λ n. n ≡ serial_type value.now) }
{
    Ok(match value {
        Value::Null => 0,
        Value::Int(number) => integer_type(*number),
        Value::Real8(_) => 7,
        Value::Text(text) => 13 + twice(text.as_slice().len())?,
        Value::Blob(bytes) => 12 + twice(bytes.as_slice().len())?,
    })
}

// Each of these writes behind what is there.

fn push_number(out: &mut Vec<u8>, number: u64) -> Result<(), AllocError>
    ensures bytes { OnOk result (out.new.items ≡ out.old.items ++ varint_bytes number) }
    ensures spelled { IsSpelled number }
{
    let mut bytes = [0; 9];
    let len = put_varint(number, &mut bytes);
    let (spelled, _) = bytes.split_at(len);
    out.extend_from_slice(spelled)
}

#[tactic(auto, unfolding(crate::specs::Written::type_bytes))]
fn push_type(
    out: &mut Vec<u8>,
    alias: Option<u32>,
    place: usize,
    value: &Value,
) -> Result<(), AllocError>
    ensures bytes { OnOk result (out.new.items ≡ out.old.items ++ type_bytes (field_at alias place value.now)) }
    ensures spelled { OnOk result (IsSpelled (serial_type (field_at alias place value.now))) }
{
    if is_alias(alias, place) {
        push_number(out, 0)
    } else {
        push_number(out, serial_type(value)?)
    }
}

fn push_integer(out: &mut Vec<u8>, number: i64) -> Result<(), AllocError>
    ensures { OnOk result (out.new.items ≡ out.old.items ++ big_bytes (size_of (integer_type number)) (low_bytes w64 (size_of (integer_type number)) number)) }
{
    let count = size(integer_type(number)) as usize;
    if count == 0 {
        return Ok(());
    }
    let mut bytes = [0; 8];
    BigEndian::write_int(&mut bytes, number, count);
    let (front, _) = bytes.split_at(count);
    out.extend_from_slice(front)
}

#[tactic(auto, unfolding(crate::specs::Written::value_bytes), using(crate::proofs::ValuesLemmas::is_utf8_true))]
fn push_value(out: &mut Vec<u8>, value: &Value) -> Result<(), AllocError>
    ensures bytes { OnOk result (out.new.items ≡ out.old.items ++ value_bytes value.now) }
    ensures sound { OnOk result (IsSound value.now) }
{
    match value {
        Value::Null => Ok(()),
        Value::Int(number) => push_integer(out, *number),
        Value::Text(text) => {
            let text = text.as_str();
            out.extend_from_slice(text.as_bytes())
        }
        Value::Blob(bytes) => out.extend_from_slice(bytes.as_slice()),
        Value::Real8(bytes) => out.extend_from_slice(bytes),
    }
}

#[tactic(auto, unfolding(crate::specs::Written::value_bytes))]
fn push_field(
    out: &mut Vec<u8>,
    alias: Option<u32>,
    place: usize,
    value: &Value,
) -> Result<(), AllocError>
    ensures bytes { OnOk result (out.new.items ≡ out.old.items ++ value_bytes (field_at alias place value.now)) }
    ensures sound { OnOk result (IsSound (field_at alias place value.now)) }
{
    if !is_alias(alias, place) {
        return push_value(out, value);
    }
    Ok(())
}

// The serial types of a row's fields.
fn push_types(out: &mut Vec<u8>, values: &[Value], alias: Option<u32>) -> Result<(), AllocError>
    ensures bytes { OnOk result (out.new.items ≡ out.old.items ++ flat_map type_bytes (fields alias values.now)) }
    ensures spelled { OnOk result (AreSpelled (fields alias values.now)) }
{
    let mut place = 0;
    let mut left = values;
    while let [value, rest @ ..] = left {
        push_type(out, alias, place, value)?;
        place += 1;
        left = rest;
    }
    Ok(())
}

// The fields of a row.
fn push_fields(out: &mut Vec<u8>, values: &[Value], alias: Option<u32>) -> Result<(), AllocError>
    ensures bytes { OnOk result (out.new.items ≡ out.old.items ++ flat_map value_bytes (fields alias values.now)) }
    ensures sound { OnOk result (AreSound (fields alias values.now)) }
{
    let mut place = 0;
    let mut left = values;
    while let [value, rest @ ..] = left {
        push_field(out, alias, place, value)?;
        place += 1;
        left = rest;
    }
    Ok(())
}

/// The record of a row with these values, in its one written form.
///
/// `alias` is the column that is another name of the rowid, counted from 0; its field is written as
/// NULL, since the row's key says it. (SQLite's Database File Format, "Record Format" and "ROWIDs and
/// the INTEGER PRIMARY KEY".)
pub fn encode(alloc: Global, values: &Values, alias: Option<u32>) -> Result<Bytes, AllocError>
    ensures bytes { IfOk result (λ b. b ≡ record_bytes alias values.now) }
    ensures len { IfOk result (λ b. length b ≡ record_length alias values.now) }
    ensures reads_back { IfOk result (λ b. record_of b ≡ Ok (fields alias values.now)) }
{
    let list = values.as_slice();
    let types = types_length(list, alias);
    if types > MOST {
        return Err(AllocError);
    }
    let mut out = Vec::with_capacity(alloc, encoded_length(values, alias) as usize)?;
    push_number(&mut out, header_length(types))?;
    push_types(&mut out, list, alias)?;
    push_fields(&mut out, list, alias)?;
    Ok(Bytes::new(out))
}
