//! What names mean in a table.

ghost use Rattle.std.specs.Prelude.{◌≡◌, position};
ghost use Rattle.spe_model.specs.Agree.{agree};
ghost use Rattle.spe_model.specs.Alias.{is_alias};
ghost use Rattle.spe_model.specs.Naming.{is_rowid_name, column_at, has_name, meant_by, is_same, is_nothing, is_column};

use spe_model::{Column, Named, TableDef, Text};

/// Whether two names agree without regard to ASCII case.
pub fn agree(a: &Text, b: &Text) -> bool
    ensures { result ≡ agree a.now b.now }
{
    a.as_str().eq_ignore_ascii_case(b.as_str())
}

// Whether the rowid has this name in every table.
#[tactic(auto, unfolding(spe_model::specs::Naming::is_rowid_name))]
fn is_rowid_name(name: &Text) -> bool
    ensures { result ≡ is_rowid_name name.now }
{
    let name = name.as_str();
    name.eq_ignore_ascii_case("rowid")
        || name.eq_ignore_ascii_case("_rowid_")
        || name.eq_ignore_ascii_case("oid")
}

/// Whether the column at a place is the rowid.
pub fn is_alias(alias: Option<u32>, place: usize) -> bool
    ensures { result ≡ is_alias alias place }
{
    alias.is_some_and(|a| a as usize == place)
}

/// What the column at a place is.
pub fn column_at(table: &TableDef, place: usize) -> Named
    ensures { result ≡ column_at table.now place }
{
    if is_alias(table.alias, place) {
        Named::Rowid
    } else {
        Named::Column(place)
    }
}

// The place of the first column of a name.
fn place_named(columns: &[Column], name: &Text) -> Option<usize>
    ensures { result ≡ position (has_name name.now) columns.now }
{
    columns.iter().position(|column| agree(&column.name, name))
}

/// What a name means.
#[tactic(auto, unfolding(spe_model::specs::Naming::meant_by))]
pub fn meant_by(table: &TableDef, name: &Text) -> Named
    ensures { result ≡ meant_by table.now name.now }
{
    match place_named(table.columns.as_slice(), name) {
        Some(place) => column_at(table, place),
        None if is_rowid_name(name) => Named::Rowid,
        None => Named::Nothing,
    }
}

/// Whether two names mean the rowid both, or the same column.
pub fn is_same(a: Named, b: Named) -> bool
    ensures { result ≡ is_same a b }
{
    match (a, b) {
        (Named::Rowid, Named::Rowid) => true,
        (Named::Column(i), Named::Column(j)) => i == j,
        _ => false,
    }
}

pub fn is_nothing(named: Named) -> bool
    ensures { result ≡ is_nothing named }
{
    matches!(named, Named::Nothing)
}

pub fn is_column(named: Named) -> bool
    ensures { result ≡ is_column named }
{
    matches!(named, Named::Column(_))
}
