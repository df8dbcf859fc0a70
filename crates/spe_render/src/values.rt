//! The text of values and of rows of a table.

ghost use Rattle.std.specs.Prelude.{◌≡◌, ◌∷◌, []};
ghost use Rattle.hex.specs.Hex.{encode_lower};
ghost use Rattle.spe_record.specs.Fields.{field_seen};
ghost use Rattle.spe_render.specs.Passes.{Passes};
ghost use Rattle.spe_render.specs.Values.{barred, barred_value, joined, quoted, row_text, rows_text, value_text};

use crate::printer::Printer;
use memchr::memchr;
use spe_disk::Sink;
use spe_model::{Value, Values};
use spe_record::Field;

// Prints a text with each quote doubled.
fn put_quoted<W: Sink>(out: &mut Printer, sink: &mut W, text: &[u8])
    ensures { Passes (W.taken sink.old) (W.taken sink.new) (W.faults sink.old) (W.faults sink.new) out.old out.new (quoted text.now) }
{
    let mut left = text;
    while let Some(place) = memchr(b'\'', left) {
        let (run, rest) = left.split_at(place);
        out.bytes(sink, run);
        out.bytes(sink, b"''");
        (_, left) = rest.split_at(1);
    }
    out.bytes(sink, left);
}

// Prints the two hexadecimal digits of a byte.
fn put_hex_byte<W: Sink>(out: &mut Printer, sink: &mut W, byte: u8)
    ensures { Passes (W.taken sink.old) (W.taken sink.new) (W.faults sink.old) (W.faults sink.new) out.old out.new (encode_lower (byte ∷ [])) }
{
    let mut digits = [0; 2];
    if hex::encode_to_slice([byte], &mut digits).is_err() {
        unreachable!();
    }
    out.bytes(sink, &digits);
}

// Prints the hexadecimal digits of bytes.
fn put_hex<W: Sink>(out: &mut Printer, sink: &mut W, bytes: &[u8])
    ensures { Passes (W.taken sink.old) (W.taken sink.new) (W.faults sink.old) (W.faults sink.new) out.old out.new (encode_lower bytes.now) }
{
    let mut left = bytes;
    while let [byte, rest @ ..] = left {
        put_hex_byte(out, sink, *byte);
        left = rest;
    }
}

fn put_field<W: Sink>(out: &mut Printer, sink: &mut W, field: Field<'_>)
    ensures { Passes (W.taken sink.old) (W.taken sink.new) (W.faults sink.old) (W.faults sink.new) out.old out.new (value_text (field_seen field.entry)) }
{
    match field {
        Field::Null => out.bytes(sink, b"NULL"),
        Field::Int(number) => out.signed(sink, number),
        Field::Text(text) => {
            out.byte(sink, b'\'');
            put_quoted(out, sink, text);
            out.byte(sink, b'\'');
        }
        Field::Blob(bytes) => {
            out.bytes(sink, b"x'");
            put_hex(out, sink, bytes);
            out.byte(sink, b'\'');
        }
        Field::Real8(bytes) => {
            out.bytes(sink, b"r'");
            put_hex(out, sink, bytes);
            out.byte(sink, b'\'');
        }
    }
}

/// Prints a value behind a bar.
pub fn put_barred_field<W: Sink>(out: &mut Printer, sink: &mut W, field: Field<'_>)
    ensures { Passes (W.taken sink.old) (W.taken sink.new) (W.faults sink.old) (W.faults sink.new) out.old out.new (barred_value (field_seen field.entry)) }
{
    out.byte(sink, b'|');
    put_field(out, sink, field);
}

// A value, lent.
fn field_of(value: &Value) -> Field<'_>
    ensures { field_seen result ≡ value.now }
{
    match value {
        Value::Null => Field::Null,
        Value::Int(number) => Field::Int(*number),
        Value::Text(text) => Field::Text(text.as_slice()),
        Value::Blob(bytes) => Field::Blob(bytes.as_slice()),
        Value::Real8(bytes) => Field::Real8(bytes),
    }
}

// Prints values, each behind a bar.
fn put_barred<W: Sink>(out: &mut Printer, sink: &mut W, values: &[Value])
    ensures { Passes (W.taken sink.old) (W.taken sink.new) (W.faults sink.old) (W.faults sink.new) out.old out.new (barred values.now) }
{
    let mut left = values;
    while let [value, rest @ ..] = left {
        put_barred_field(out, sink, field_of(value));
        left = rest;
    }
}

/// Prints values with bars between them.
pub fn put_joined<W: Sink>(out: &mut Printer, sink: &mut W, values: &[Value])
    ensures { Passes (W.taken sink.old) (W.taken sink.new) (W.faults sink.old) (W.faults sink.new) out.old out.new (joined values.now) }
{
    if let [value, rest @ ..] = values {
        put_field(out, sink, field_of(value));
        put_barred(out, sink, rest);
    }
}

// Prints the line of a row.
fn put_row<W: Sink>(out: &mut Printer, sink: &mut W, row: &(i64, Values))
    ensures { Passes (W.taken sink.old) (W.taken sink.new) (W.faults sink.old) (W.faults sink.new) out.old out.new (row_text row.now) }
{
    let (rowid, values) = row;
    out.signed(sink, *rowid);
    put_barred(out, sink, values.as_slice());
    out.byte(sink, b'\n');
}

/// Prints a line for each row of a table: its rowid, and each value behind a bar.
pub fn put_rows<W: Sink>(out: &mut Printer, sink: &mut W, rows: &[(i64, Values)])
    ensures { Passes (W.taken sink.old) (W.taken sink.new) (W.faults sink.old) (W.faults sink.new) out.old out.new (rows_text rows.now) }
{
    let mut left = rows;
    while let [row, rest @ ..] = left {
        put_row(out, sink, row);
        left = rest;
    }
}
