//! The rows of the schema's tree.

ghost use Rattle.std.specs.Prelude.{◌≡◌, ◌∷◌, ◌++◌, [], true, IfOk, IfErr, OnOk};
ghost use Rattle.std.proofs.lemmas.Bool.{true≢false};
ghost use Rattle.spe_check.specs.SchemaRows.{floor_of, is_free, schema_outlook, AreNames, TriesName};
ghost use Rattle.spe_check.specs.Visitor.{IsOwn};

use crate::halt::Halt;
use crate::record_rows::try_record;
use crate::visitor::RowVisitor;
use spe_catalog::{NameSet, SchemaRow};
use std::alloc::{AllocError, Global};
use std::marker::Model;

/// A row of the schema and the leaf page that it stands on, seen as a pair of them.
#[derive(Debug, Drop)]
pub struct Placed {
    leaf: u32,
    row: SchemaRow,
}

impl Model for Placed {
    ghost use Rattle.std.specs.Prelude.{ℕ};
    ghost use Rattle.spe_model.specs.Schema.{SchemaRow as Row};

    ghost Value = { ℕ × Row };

    ghost view = { λ p. (p.leaf, p.row) };
}

impl Placed {
    /// The leaf page.
    pub fn leaf(&self) -> u32
        ensures { result ≡ self.now.0 }
    {
        self.leaf
    }

    /// The row.
    pub fn row(&self) -> &SchemaRow
        ensures { result.now ≡ self.now.1 }
    {
        &self.row
    }
}

/// Tries the rows of the schema and keeps them, each with its leaf: rule 8, and then rule 9 against the
/// rows before it. A row takes time by the logarithm of the number of tables.
#[derive(Drop)]
pub struct SchemaRows {
    alloc: Global,
    placed: Vec<Placed>,
    tables: NameSet,
    ghost named: { AreNames placed.items tables },
}

impl SchemaRows {
    /// No row yet.
    pub fn new(alloc: Global) -> SchemaRows
        ensures { result.placed.items ≡ [] }
    {
        SchemaRows {
            alloc,
            placed: Vec::new(alloc),
            tables: NameSet::new(alloc),
        }
    }

    /// The rows, in their order.
    pub fn into_placed(self) -> Vec<Placed>
        ensures { result.items ≡ self.placed.items }
    {
        let SchemaRows { placed, .. } = self;
        placed
    }

    // Keeps a row, where it is no table whose name is taken, and says whether it did.
    fn place(&mut self, leaf: u32, row: SchemaRow) -> Result<bool, AllocError>
        ensures free { IfOk result (λ kept. kept ≡ is_free self.old.placed.items row) }
        ensures kept { IfOk result (λ kept. kept ≡ true → self.new.placed.items ≡ self.old.placed.items ++ (leaf, row) ∷ []) }
    {
        self.placed.reserve(1)?;
        if row.is_table() && !self.tables.insert(self.alloc, row.name().as_str())? {
            return Ok(false);
        }
        self.placed.push_reserved(Placed { leaf, row });
        Ok(true)
    }

    // Keeps a row. Broken is rule 9, where it is a table whose name is taken.
    fn try_name(&mut self, leaf: u32, row: SchemaRow) -> Result<(), Halt>
        ensures tried { TriesName self.old.placed.items leaf row result }
        ensures kept { OnOk result (self.new.placed.items ≡ self.old.placed.items ++ (leaf, row) ∷ []) }
        ensures own { IfErr result IsOwn }
    {
        if self.place(leaf, row)? {
            return Ok(());
        }
        Err(Halt::Broken {
            page: leaf,
            rule: 9,
        })
    }
}

impl RowVisitor for SchemaRows {
    ghost outlook = { λ s rows. schema_outlook s.placed.items rows };

    ghost floor = { λ s. floor_of s.placed.items };

    ghost wanted = { λ _. true };

    ghost idle = { λ _ none. absurd (true≢false none) };

    fn wants(&self) -> bool {
        true
    }

    fn visit(&mut self, leaf: u32, rowid: i64, payload: &[u8]) -> Result<(), Halt> {
        let values = match try_record(self.alloc, leaf, 5, payload) {
            Ok(values) => values,
            Err(halt) => return Err(halt),
        };
        match SchemaRow::from_values(rowid, values.into_vec()) {
            Some(row) => self.try_name(leaf, row),
            None => Err(Halt::Broken {
                page: leaf,
                rule: 9,
            }),
        }
    }
}
