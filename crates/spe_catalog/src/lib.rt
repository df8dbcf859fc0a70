//! The tables that a database's schema names, open and closed.
//!
//! A definition's text is read exactly as far as the grammar of definitions goes, and a row of the
//! schema, a table and the catalog of pages are what the definitions of `spe_model` say, whatever the
//! pages below a space are, as long as they agree with those that were given. Corrupt names a page
//! with its cause. Want of memory alone is free.
#![tactic(auto)]

mod affinity;
mod column;
mod constraint;
mod definitions;
mod left;
mod lengths;
mod miss;
mod names;
mod reader;
mod reading;
mod schema;
mod table;
mod words;

pub use definitions::definition;
pub use names::NameSet;
pub use reader::read_catalog;
pub use schema::{SchemaRow, schema_row};
pub use spe_model::{Catalog, Declaration, Entry};
pub use table::{Attached, are_distinct, table_of};
