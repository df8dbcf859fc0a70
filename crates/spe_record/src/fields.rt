//! The values of a record one by one, lent by its bytes.

ghost use Rattle.std.specs.Prelude.{◌≡◌, ◌<◌, length};
ghost use Rattle.spe_model.specs.Record.{record_of, record_of_types, value_of};
ghost use Rattle.spe_model.specs.Serial.{size_of, types_at};
ghost use Rattle.spe_record.specs.Fields.{field_seen, IsLedBy};

use crate::counted::{judged, seen_of};
use crate::types::size;
use byteorder::{BigEndian, ByteOrder};
use spe_format::read_varint;
use spe_model::RecordFault;
use std::marker::Model;

/// A value of a record, whose bytes stand there.
#[derive(Clone, Copy, Debug)]
pub enum Field<'a> {
    Null,
    Int(i64),
    /// UTF-8.
    Text(&'a [u8]),
    Blob(&'a [u8]),
    /// The eight bytes of a floating-point number, the highest first.
    Real8(&'a [u8]),
}

/// The values of a record that are still to be lent, seen as their list.
#[derive(Debug, Drop)]
pub struct Fields<'a> {
    types: &'a [u8],
    body: &'a [u8],
    count: usize,
}

impl<'a> Model for Fields<'a> {
    ghost use Rattle.std.specs.Prelude.{List};
    ghost use Rattle.spe_model.specs.Serial.{types_at};
    ghost use Rattle.spe_model.specs.declared.value.Value.{Value as Kept};
    ghost use Rattle.spe_record.specs.Answers.{values_at};
    ghost use Rattle.spe_record.specs.Fields.{AreFields};

    ghost Value = { List Kept };

    ghost view = { λ f. values_at (types_at f.types.now) f.body.now };

    ghost invariant = { λ f. AreFields f.types.now f.body.now f.count };
}

// The value of a serial type.
#[tactic(auto, unfolding(spe_model::specs::Record::value_of))]
fn lent_as(kind: u64, bytes: &[u8]) -> Field<'_>
    requires size { length bytes.now ≡ size_of kind }
    ensures { field_seen result ≡ value_of kind bytes.now }
{
    match kind {
        0 | 10 | 11 => Field::Null,
        1..=6 => Field::Int(BigEndian::read_int(bytes, bytes.len())),
        7 => Field::Real8(bytes),
        8 => Field::Int(0),
        9 => Field::Int(1),
        _ if kind % 2 == 0 => Field::Blob(bytes),
        _ => Field::Text(bytes),
    }
}

// The values of the serial types that fill some bytes, which are to fill a body.
fn fields_of<'a>(types: &'a [u8], body: &'a [u8]) -> Result<Fields<'a>, RecordFault>
    requires { length body.now < 18446744073709551615 }
    ensures { result ≡ record_of_types (types_at types.now) body.now }
{
    let Some(seen) = seen_of(types, body) else {
        return Err(RecordFault::HeaderLength);
    };
    match judged(seen, body.len() as u64) {
        Ok(count) => Ok(Fields { types, body, count }),
        Err(fault) => Err(fault),
    }
}

impl<'a> Fields<'a> {
    /// The values of the record that fills `bytes`. The fault is the lowest that holds, as of
    /// `decode`; no value is made, and no memory is taken.
    #[tactic(auto, unfolding(spe_model::specs::Record::record_of))]
    pub fn new(bytes: &'a [u8]) -> Result<Fields<'a>, RecordFault>
        ensures { result ≡ record_of bytes.now }
    {
        let Some((header, first)) = read_varint(bytes) else {
            return Err(RecordFault::HeaderLength);
        };
        if header < first as u64 || header > bytes.len() as u64 {
            return Err(RecordFault::HeaderLength);
        }
        let (front, body) = bytes.split_at(header as usize);
        fields_of(&front[first..], body)
    }

    /// How many there are.
    pub fn count(&self) -> usize
        ensures { result ≡ length self.now }
    {
        self.count
    }

    /// Lends the next.
    pub fn next_field(&mut self) -> Option<Field<'a>>
        ensures { IsLedBy self.old result self.new }
    {
        if self.count == 0 {
            return None;
        }
        let Some((kind, len)) = read_varint(self.types) else {
            unreachable!();
        };
        let (front, body) = self.body.split_at(size(kind) as usize);
        let (_, types) = self.types.split_at(len);
        self.types = types;
        self.body = body;
        self.count -= 1;
        Some(lent_as(kind, front))
    }
}
