//! The text of a table.

ghost use Rattle.std.specs.Prelude.{OnOk, OnErr};
ghost use Rattle.spe_disk.specs.Sink.{Appends, AppendsFront, CountsFault};
ghost use Rattle.spe_render.specs.Passes.{Passes};
ghost use Rattle.spe_render.specs.Values.{table_text};

use crate::printer::Printer;
use crate::replies::put_count;
use crate::values::put_rows;
use spe_disk::{Failed, Sink};
use spe_model::{TableRows, Values};

// Prints the rows of a table, and how many they are.
fn put_table<W: Sink>(out: &mut Printer, sink: &mut W, rows: &[(i64, Values)])
    ensures { Passes (W.taken sink.old) (W.taken sink.new) (W.faults sink.old) (W.faults sink.new) out.old out.new (table_text rows.now) }
{
    put_rows(out, sink, rows);
    put_count(out, sink, b"rows ", rows.len() as u64);
}

/// Puts the text of a table to a sink: for each row a line with its rowid, and each value behind a
/// bar, and then a line with the number of rows. Where it fails, the sink has taken some first bytes
/// of the text, or none, and failed once: nothing is put after that.
pub fn print_table<W: Sink>(rows: &TableRows, out: &mut W) -> Result<(), Failed>
    ensures ok { OnOk result (Appends (W.taken out.old) (W.taken out.new) (table_text rows.now)) }
    ensures err { OnErr result (AppendsFront (W.taken out.old) (W.taken out.new) (table_text rows.now)) }
    ensures counts { CountsFault (W.faults out.old) (W.faults out.new) result }
{
    let mut printer = Printer::new();
    put_table(&mut printer, out, rows.as_slice());
    printer.finish(out)
}
