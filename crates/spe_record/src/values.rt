//! The values of a record.

ghost use Rattle.std.specs.Prelude.{◌≡◌, length};
ghost use Rattle.spe_model.specs.Serial.{size_of, types_at};
ghost use Rattle.spe_model.specs.Record.{value_of};
ghost use Rattle.spe_record.specs.Answers.{Fills, GivesValue, GivesValues, GivesText, values_at};

use crate::types::size;
use byteorder::{BigEndian, ByteOrder};
use spe_format::read_varint;
use spe_model::{Bytes, RecordFault, Text, Value};
use std::alloc::Global;

// A copy of these bytes as a text.
#[tactic(auto, using(crate::proofs::ValuesLemmas::is_utf8_true, crate::proofs::ValuesLemmas::is_utf8_false))]
fn text_of(alloc: Global, bytes: &[u8]) -> Result<Text, RecordFault>
    ensures { GivesText result bytes.now }
{
    match str::from_utf8(bytes) {
        Ok(text) => Ok(Text::new(String::from_str(alloc, text)?)),
        Err(_) => Err(RecordFault::NotUtf8),
    }
}

// The value of a serial type.
#[tactic(auto, unfolding(spe_model::specs::Record::value_of))]
fn value(alloc: Global, kind: u64, bytes: &[u8]) -> Result<Value, RecordFault>
    requires size { length bytes.now ≡ size_of kind }
    ensures { GivesValue result (value_of kind bytes.now) }
{
    match kind {
        0 | 10 | 11 => Ok(Value::Null),
        1..=6 => Ok(Value::Int(BigEndian::read_int(bytes, bytes.len()))),
        7 => Ok(Value::Real8([
            bytes[0], bytes[1], bytes[2], bytes[3], bytes[4], bytes[5], bytes[6], bytes[7],
        ])),
        8 => Ok(Value::Int(0)),
        9 => Ok(Value::Int(1)),
        _ if kind % 2 == 0 => Ok(Value::Blob(Bytes::new(Vec::from_slice(alloc, bytes)?))),
        _ => match text_of(alloc, bytes) {
            Ok(text) => Ok(Value::Text(text)),
            Err(fault) => Err(fault),
        },
    }
}

// The values of the serial types that fill some bytes, one after the other.
pub fn values_from(alloc: Global, types: &[u8], bytes: &[u8]) -> Result<Vec<Value>, RecordFault>
    requires { Fills (types_at types.now) (length bytes.now) }
    ensures { GivesValues (λ v. v.items) result (values_at (types_at types.now) bytes.now) }
{
    let mut found = Vec::new(alloc);
    let mut left = types;
    let mut body = bytes;
    while !left.is_empty() {
        let Some((kind, len)) = read_varint(left) else {
            unreachable!();
        };
        let (front, after) = body.split_at(size(kind) as usize);
        match value(alloc, kind, front) {
            Ok(value) => found.push(value)?,
            Err(fault) => return Err(fault),
        }
        (_, left) = left.split_at(len);
        body = after;
    }
    Ok(found)
}
