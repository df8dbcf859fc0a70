//! The line of a row, from the bytes of its record.

ghost use Rattle.std.specs.Prelude.{◌≡◌, ◌≤◌, ◌∷◌, [], length};
ghost use Rattle.spe_model.specs.Alias.{is_alias};
ghost use Rattle.spe_model.specs.Standing.{shown};
ghost use Rattle.spe_record.specs.Fields.{field_seen};
ghost use Rattle.spe_render.specs.Passes.{Passes};
ghost use Rattle.spe_render.specs.Stored.{put_at, PutsRow, row_of};
ghost use Rattle.spe_render.specs.Values.{barred, barred_value, row_text};

use crate::printer::Printer;
use crate::values::put_barred_field;
use spe_disk::Sink;
use spe_model::TableDef;
use spe_record::{Field, Fields};

fn is_alias(alias: Option<u32>, place: usize) -> bool
    ensures { result ≡ is_alias alias place }
{
    match alias {
        Some(column) => column as usize == place,
        None => false,
    }
}

// What is shown in a column whose field this is.
fn shown_at<'a>(alias: Option<u32>, place: usize, rowid: i64, field: Option<Field<'a>>) -> Field<'a>
    ensures { field_seen result ≡ put_at alias place rowid field.entry }
{
    if is_alias(alias, place) {
        return Field::Int(rowid);
    }
    match field {
        Some(field) => field,
        None => Field::Null,
    }
}

// Prints the values of a row, each behind a bar: NULL for each column that its record lacks, and the
// rowid in the column that is another name of it.
fn put_fields<W: Sink>(
    out: &mut Printer,
    sink: &mut W,
    table: &TableDef,
    rowid: i64,
    fields: Fields<'_>,
)
    requires { length fields ≤ length table.now.columns }
    ensures { Passes (W.taken sink.old) (W.taken sink.new) (W.faults sink.old) (W.faults sink.new) out.old out.new (barred (shown table.now rowid fields.entry)) }
{
    let count = table.columns.as_slice().len();
    let mut left = fields;
    let mut place = 0;
    while place < count {
        let field = left.next_field();
        put_barred_field(out, sink, shown_at(table.alias, place, rowid, field));
        place += 1;
    }
}

// Prints the line of a row of which these are the fields.
fn put_row_of<W: Sink>(
    out: &mut Printer,
    sink: &mut W,
    table: &TableDef,
    rowid: i64,
    fields: Fields<'_>,
)
    requires { length fields ≤ length table.now.columns }
    ensures { Passes (W.taken sink.old) (W.taken sink.new) (W.faults sink.old) (W.faults sink.new) out.old out.new (row_text (rowid, shown table.now rowid fields.entry)) }
{
    out.signed(sink, rowid);
    put_fields(out, sink, table, rowid, fields);
    out.byte(sink, b'\n');
}

/// Prints the line of a row that is stored as this rowid and this payload, and answers whether there
/// is one: nothing is printed where the payload is no record or has more values than the table has
/// columns. No value is made.
pub fn put_stored<W: Sink>(
    out: &mut Printer,
    sink: &mut W,
    table: &TableDef,
    rowid: i64,
    payload: &[u8],
) -> bool
    ensures { PutsRow (W.taken sink.old) (W.taken sink.new) (W.faults sink.old) (W.faults sink.new) out.old out.new (row_of table.now rowid payload.now) result }
{
    let fields = match Fields::new(payload) {
        Ok(fields) => fields,
        Err(_) => return false,
    };
    if fields.count() > table.columns.as_slice().len() {
        return false;
    }
    put_row_of(out, sink, table, rowid, fields);
    true
}
