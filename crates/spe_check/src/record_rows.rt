//! The rows of a table's tree, whose records are tried, or of which nothing is.

ghost use Rattle.std.specs.Prelude.{◌≡◌, true, false, refl, IfOk, IfErr, Ok, length, nat_le};
ghost use Rattle.std.proofs.lemmas.Bool.{true≢false};
ghost use Rattle.spe_model.specs.Record.{record_of};
ghost use Rattle.spe_model.specs.Verdict.{fits};
ghost use Rattle.spe_check.specs.RecordRows.{no_outlook, record_outlook, TriesRecord};
ghost use Rattle.spe_check.specs.Visitor.{IsOwn};

use crate::halt::Halt;
use crate::rule::try_rule;
use crate::visitor::RowVisitor;
use spe_model::Values;
use spe_record::{RecordFault, decode, value_count};
use spe_space::SpaceFault;
use std::alloc::Global;

fn has_at_most(columns: usize, values: &Values) -> bool
    ensures { result ≡ nat_le (length values.now) columns }
{
    values.as_slice().len() <= columns
}

/// The values of the record of a row, which stands on the page `leaf`. Broken is rule 8, where the
/// payload is no record or has more values than the table has columns.
pub fn try_record(alloc: Global, leaf: u32, columns: usize, payload: &[u8]) -> Result<Values, Halt>
    ensures tried { TriesRecord leaf columns payload.now result }
    ensures values { IfOk result (λ values. record_of payload.now ≡ Ok values) }
    ensures own { IfErr result IsOwn }
{
    match decode(alloc, payload) {
        Ok(values) => match try_rule(has_at_most(columns, &values), leaf, 8) {
            Ok(()) => Ok(values),
            Err(halt) => Err(halt),
        },
        Err(RecordFault::Memory) => Err(Halt::Space(SpaceFault::Memory)),
        Err(_) => Err(Halt::Broken {
            page: leaf,
            rule: 8,
        }),
    }
}

// Whether a payload is a record with at most so many values. No value is made.
fn is_record_of(columns: usize, payload: &[u8]) -> bool
    ensures { result ≡ fits columns (record_of payload.now) }
{
    match value_count(payload) {
        Ok(count) => count <= columns,
        Err(_) => false,
    }
}

/// Tries the records of a table with so many columns, and counts its rows.
#[derive(Debug, Drop)]
pub struct RecordRows {
    columns: usize,
    count: u64,
}

impl RecordRows {
    /// No row yet.
    pub fn new(columns: usize) -> RecordRows
        ensures columns { result.columns ≡ columns }
        ensures count { result.count ≡ 0 }
    {
        RecordRows { columns, count: 0 }
    }

    /// How many rows there were, or the greatest number of 64 bits where there were more.
    pub fn count(&self) -> u64
        ensures { result ≡ self.now.count }
    {
        self.count
    }
}

impl RowVisitor for RecordRows {
    ghost outlook = { λ s rows. record_outlook s.columns s.count rows };

    ghost floor = { λ _. 0 };

    ghost wanted = { λ _. true };

    ghost idle = { λ _ none. absurd (true≢false none) };

    fn wants(&self) -> bool {
        true
    }

    fn visit(&mut self, leaf: u32, _rowid: i64, payload: &[u8]) -> Result<(), Halt> {
        match try_rule(is_record_of(self.columns, payload), leaf, 8) {
            Ok(()) => {
                self.count = self.count.saturating_add(1);
                Ok(())
            }
            Err(halt) => Err(halt),
        }
    }
}

/// Wants no rows.
#[derive(Clone, Copy, Debug)]
pub struct NoRows;

impl RowVisitor for NoRows {
    ghost outlook = { λ _ rows. no_outlook rows };

    ghost floor = { λ _. 0 };

    ghost wanted = { λ _. false };

    ghost idle = { λ _ _ _ _. (refl, refl) };

    fn wants(&self) -> bool {
        false
    }

    fn visit(&mut self, _leaf: u32, _rowid: i64, _payload: &[u8]) -> Result<(), Halt> {
        Ok(())
    }
}
