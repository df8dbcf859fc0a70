//! A table that is put to a sink while its tree is walked.

ghost use Rattle.std.specs.Prelude.{◌≡◌, None, OnOk, OnErr};
ghost use Rattle.spe_disk.specs.Sink.{Appends, AppendsFront, CountsFault};
ghost use Rattle.spe_render.specs.Passes.{Passes};
ghost use Rattle.spe_search.specs.Inside.{MissesTree};
ghost use Rattle.spe_space.specs.Calls.{Reads, RefusesTree};
ghost use Rattle.spe_stream.specs.Table.{NamesRows, PutsShown, PutsStored, PutsTable, end_of, last_line, stop_of, text_put};

use crate::shown::ShownRows;
use crate::stream::RowPrinter;
use spe_disk::{Failed, Sink};
use spe_model::TableDef;
use spe_render::{Printer, put_count};
use spe_search::for_each_row;
use spe_space::{Pages, SpaceFault, TreeFault};
use std::alloc::Global;

/// What came of a table that was put to a sink.
#[derive(Drop)]
pub struct Streamed {
    /// The rows whose lines were printed.
    pub shown: ShownRows,
    /// Why the walk over the table's tree ended before its end, if not for the sink.
    pub walk: Result<(), TreeFault>,
    /// Whether the sink failed. No row is taken after that, so that the walk may have ended there.
    pub sink: Result<(), Failed>,
}

// Why the printer wanted no more rows.
fn stop_of(taker: &RowPrinter<'_>) -> Result<(), TreeFault>
    ensures { result ≡ stop_of taker.now.flaw taker.now.printer }
{
    if let Some(page) = taker.flaw {
        return Err(TreeFault::Corrupt { page });
    }
    if taker.printer.has_failed() {
        return Ok(());
    }
    Err(TreeFault::Space(SpaceFault::Memory))
}

// What a walk that ended so says of the table.
fn end_of(taker: &RowPrinter<'_>, walk: Result<bool, TreeFault>) -> Result<(), TreeFault>
    ensures { result ≡ end_of walk taker.now.flaw taker.now.printer }
{
    match walk {
        Ok(true) => Ok(()),
        Ok(false) => stop_of(taker),
        Err(fault) => Err(fault),
    }
}

// Prints how many rows there are, behind a walk without a fault.
fn put_last<W: Sink>(printer: &mut Printer, out: &mut W, count: u64, walk: &Result<(), TreeFault>)
    ensures { Passes (W.taken out.old) (W.taken out.new) (W.faults out.old) (W.faults out.new) printer.old printer.new (last_line count walk.now) }
{
    if walk.is_ok() {
        put_count(printer, out, b"rows ", count);
    }
}

/// Puts the text of the table whose tree has the page `root` as its root to a sink, while the tree is
/// walked: for each row its line, in the order of their rowids, and then a line with the number of rows.
/// No list of the rows is made.
///
/// Where the walk meets a fault, the sink has the lines of the rows before it, and no line with a
/// number. Corrupt names the leaf of a row whose record is damaged or has more fields than the table
/// has columns, or is as of `for_each_row`; PageOut is as there. Memory comes also where one row more
/// stands behind 2^64 - 1 rows. Where the sink fails, it has taken some first bytes of the text, or none,
/// and failed once: nothing is put after that, and the walk ends.
pub fn put_table<S: Pages, W: Sink>(
    alloc: Global,
    space: &mut S,
    table: &TableDef,
    root: u32,
    out: &mut W,
) -> Streamed
    requires { S.Pages.refusal space.old ≡ None }
    ensures rows { PutsTable S.Pages space.old space.new table.now root result.shown.rows result.walk result.sink }
    ensures stored { PutsStored S.Pages space.old space.new table.now root result.shown.rows result.walk result.sink }
    ensures shown { PutsShown S.Pages space.old space.new table.now root result.shown.rows }
    ensures text { OnOk result.sink (Appends (W.taken out.old) (W.taken out.new) (text_put result.shown.rows result.walk)) }
    ensures some { OnErr result.sink (AppendsFront (W.taken out.old) (W.taken out.new) (text_put result.shown.rows result.walk)) }
    ensures counts { CountsFault (W.faults out.old) (W.faults out.new) result.sink }
    ensures damage { NamesRows S.Pages space.old space.new table.now root result.walk }
    ensures inside { MissesTree S.Pages space.old space.new root result.walk }
    ensures kept { Reads S.Pages space.old space.new }
    ensures refusal { RefusesTree S.Pages space.old space.new result.walk }
{
    let mut taker = RowPrinter::new(table);
    let walked = for_each_row(alloc, space, root, &mut taker, out);
    let walk = end_of(&taker, walked);
    let RowPrinter {
        mut printer,
        count,
        shown,
        ..
    } = taker;
    put_last(&mut printer, out, count, &walk);
    let sink = printer.finish(out);
    Streamed { shown, walk, sink }
}
