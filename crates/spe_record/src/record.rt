//! Whole records.

ghost use Rattle.std.specs.Prelude.{◌<◌, length};
ghost use Rattle.spe_model.specs.Record.{record_of, record_of_types};
ghost use Rattle.spe_model.specs.Serial.{types_at};
ghost use Rattle.spe_record.specs.Answers.{GivesRecord, TriesLengths};

use crate::counted::{judged, seen_of};
use crate::values::values_from;
use spe_format::read_varint;
use spe_model::{RecordFault, Values};
use std::alloc::Global;

// Whether bytes are serial types of which none is reserved, and whose values fill a body. The texts among
// these are not looked at.
fn try_lengths(types: &[u8], body: &[u8]) -> Result<(), RecordFault>
    requires { length body.now < 18446744073709551615 }
    ensures { TriesLengths result (types_at types.now) body.now }
{
    let Some(seen) = seen_of(types, &[]) else {
        return Err(RecordFault::HeaderLength);
    };
    match judged(seen, body.len() as u64) {
        Ok(_count) => Ok(()),
        Err(fault) => Err(fault),
    }
}

// The values of the serial types that fill some bytes, which are to fill a body.
fn values_of_types(alloc: Global, types: &[u8], body: &[u8]) -> Result<Values, RecordFault>
    requires { length body.now < 18446744073709551615 }
    ensures { GivesRecord result (record_of_types (types_at types.now) body.now) }
{
    match try_lengths(types, body) {
        Ok(()) => (),
        Err(fault) => return Err(fault),
    }
    match values_from(alloc, types, body) {
        Ok(values) => Ok(Values::new(values)),
        Err(fault) => Err(fault),
    }
}

/// The values of a record, which fills `bytes`. The fault is the lowest that holds.
///
/// The header is its own length in bytes and then the serial types, each a varint; the values
/// follow in that order. (SQLite's Database File Format, "Record Format".) A text that is not UTF-8
/// is refused: this is the project's own rule.
#[tactic(auto, unfolding(spe_model::specs::Record::record_of))]
pub fn decode(alloc: Global, bytes: &[u8]) -> Result<Values, RecordFault>
    ensures { GivesRecord result (record_of bytes.now) }
{
    let Some((header, first)) = read_varint(bytes) else {
        return Err(RecordFault::HeaderLength);
    };
    if header < first as u64 || header > bytes.len() as u64 {
        return Err(RecordFault::HeaderLength);
    }
    let (front, body) = bytes.split_at(header as usize);
    values_of_types(alloc, &front[first..], body)
}
