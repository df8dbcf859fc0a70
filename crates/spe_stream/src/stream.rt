//! The rows of a table that are printed as they are read.

ghost use Rattle.std.specs.Prelude.{◌≡◌, ◌+◌, [], true, false, None, Some};

use crate::shown::{ShownRows, StoredRow};
use spe_disk::Sink;
use spe_model::TableDef;
use spe_render::{Printer, put_stored};
use spe_search::RowTaker;

/// Prints the rows of a table, and counts them.
#[derive(Drop)]
pub(crate) struct RowPrinter<'t> {
    pub(crate) table: &'t TableDef,
    pub(crate) printer: Printer,
    pub(crate) count: u64,
    pub(crate) shown: ShownRows,
    /// The leaf of a row that is none of the table.
    pub(crate) flaw: Option<u32>,
}

impl<'t> RowPrinter<'t> {
    /// A printer of the rows of a table, which has printed none.
    pub(crate) fn new(table: &'t TableDef) -> RowPrinter<'t>
        ensures table { result.table.now ≡ table.now }
        ensures printer { result.printer ≡ Some [] }
        ensures count { result.count ≡ 0 }
        ensures shown { result.shown.rows ≡ [] }
        ensures flaw { result.flaw ≡ None }
    {
        RowPrinter {
            table,
            printer: Printer::new(),
            count: 0,
            shown: ShownRows::none(),
            flaw: None,
        }
    }
}

impl<W: Sink> RowTaker<W> for RowPrinter<'_> {
    ghost use Rattle.std.proofs.Common.{◌≡◌, refl, ◌∙◌};
    ghost use Rattle.spe_stream.specs.Shown.{Puts};
    ghost use Rattle.spe_stream.specs.ShownLaws.{puts_none, puts_both};

    ghost taken = { λ old before new after pairs more.
        (new.table.now ≡ old.table.now) × Puts old.table.now (W.taken before) (W.taken after) (W.faults before) (W.faults after) old.printer new.printer old.count new.count old.shown.rows new.shown.rows old.flaw new.flaw pairs more };

    fn take(&mut self, out: &mut W, leaf: u32, rowid: i64, payload: &[u8]) -> bool {
        if self.count == u64::MAX {
            return false;
        }
        if !put_stored(&mut self.printer, out, self.table, rowid, payload) {
            self.flaw = Some(leaf);
            return false;
        }
        self.count += 1;
        self.shown = self.shown.with(&StoredRow {
            table: self.table,
            rowid,
            payload,
        });
        !self.printer.has_failed()
    }

    ghost none = { λ s w. (refl, puts_none s.table.now) };

    ghost both = { λ a b c u v w some others more one two. (two.0 ∙ one.0, puts_both a.table.now b.table.now one.0 one.1 two.1) };
}
