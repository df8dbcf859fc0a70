//! The catalog of pages.

ghost use Rattle.std.specs.Prelude.{◌≡◌, ◌≢◌, ◌<◌, ◌⊎◌, ℕ, ◌∷◌, [], None, length};
ghost use Rattle.spe_space.specs.Calls.{Reads, RefusesTree};
ghost use Rattle.spe_model.specs.Schema.{is_index_kind};
ghost use Rattle.spe_model.specs.Kind.{kind_of};
ghost use Rattle.spe_model.specs.Tree.{header_end};
ghost use Rattle.spe_catalog.specs.Reader.{TellsKind, TellsRoot, MakesEntry, PushesEntry, MakesEntries, MakesCatalog, FindsCatalog, NamesSchema};
ghost use Rattle.spe_catalog.specs.Asks.{AddsOnly, MissesOnly, MissesStanding, IsRootOf, IsRootIn, AddsOfCatalog, MissesOfCatalog};

use crate::reading::{Reading, read_rows};
use crate::schema::SchemaRow;
use crate::table::{Attached, table_of};
use spe_model::{Catalog, Entry};
use spe_search::range_with_leaves;
use spe_space::{Pages, TreeFault};
use std::alloc::Global;

// Whether a type byte is that of a page of an index.
#[tactic(auto, unfolding(spe_model::specs::Kind::kind_of))]
fn is_index_byte(byte: u8) -> bool
    ensures { result ≡ is_index_kind (kind_of byte) }
{
    matches!(byte, 2 | 10)
}

// Where the header of a page begins: page 1 begins with that of the file.
fn header_of(page: u32) -> usize
    ensures value { result ≡ header_end page }
    ensures either { (result ≡ 0) ⊎ (result ≡ 100) }
{
    if page == 1 { 100 } else { 0 }
}

// Gets a page, and says whether it is one of an index.
fn is_index_page<S: Pages>(space: &mut S, page: u32, buf: &mut [u8]) -> Result<bool, TreeFault>
    requires { length buf.old ≡ S.Pages.size space.old }
    ensures kind { TellsKind S.Pages space.old space.new page result }
    ensures only { (n : ℕ) → n ≢ page → S.Pages.seen space.new n ≡ S.Pages.seen space.old n }
    ensures page_out { MissesOnly result (λ at. at ≡ page) }
    ensures kept { Reads S.Pages space.old space.new }
    ensures refusal { RefusesTree S.Pages space.old space.new result }
{
    let _size = space.page_size();
    space.get(page, buf)?;
    Ok(is_index_byte(buf[header_of(page)]))
}

// Whether there is a root page, and it is no page of an index.
fn is_rooted<S: Pages>(space: &mut S, root: u32, buf: &mut [u8]) -> Result<bool, TreeFault>
    requires { length buf.old ≡ S.Pages.size space.old }
    ensures rooted { TellsRoot S.Pages space.old space.new root result }
    ensures adds { AddsOnly S.Pages space.old space.new (λ n. (n ≡ root) × (0 < n)) }
    ensures page_out { MissesOnly result (λ at. (at ≡ root) × (0 < at)) }
    ensures kept { Reads S.Pages space.old space.new }
    ensures refusal { RefusesTree S.Pages space.old space.new result }
{
    if root == 0 {
        return Ok(false);
    }
    let is_index = is_index_page(space, root, buf)?;
    Ok(!is_index)
}

// The table of a row, and its root.
fn make_entry<S: Pages>(
    alloc: Global,
    space: &mut S,
    attached: &Attached,
    row: &SchemaRow,
    buf: &mut [u8],
) -> Result<Entry, TreeFault>
    requires size { length buf.old ≡ S.Pages.size space.old }
    ensures made { MakesEntry S.Pages space.old space.new attached.now row.now result }
    ensures adds { AddsOnly S.Pages space.old space.new (IsRootOf row.now) }
    ensures page_out { MissesOnly result (IsRootOf row.now) }
    ensures kept { Reads S.Pages space.old space.new }
    ensures refusal { RefusesTree S.Pages space.old space.new result }
{
    let root = row.root().unwrap_or(0);
    let rooted = is_rooted(space, root, buf)?;
    let table = table_of(alloc, attached, rooted, row)?;
    Ok(Entry { table, root })
}

// Pushes the table of a row, where it names one.
fn push_entry<S: Pages>(
    alloc: Global,
    space: &mut S,
    attached: &Attached,
    row: &SchemaRow,
    buf: &mut [u8],
    out: &mut Vec<Entry>,
) -> Result<(), TreeFault>
    requires size { length buf.old ≡ S.Pages.size space.old }
    ensures made { PushesEntry S.Pages space.old space.new attached.now row.now out.old.items out.new.items result }
    ensures adds { AddsOnly S.Pages space.old space.new (IsRootIn (row.now ∷ [])) }
    ensures page_out { MissesOnly result (IsRootIn (row.now ∷ [])) }
    ensures kept { Reads S.Pages space.old space.new }
    ensures refusal { RefusesTree S.Pages space.old space.new result }
{
    if !row.is_table() {
        return Ok(());
    }
    let entry = make_entry(alloc, space, attached, row, buf)?;
    out.push(entry)?;
    Ok(())
}

// The tables of some rows.
fn entries<S: Pages>(
    alloc: Global,
    space: &mut S,
    attached: &Attached,
    rows: &[SchemaRow],
    buf: &mut [u8],
) -> Result<Vec<Entry>, TreeFault>
    requires size { length buf.old ≡ S.Pages.size space.old }
    ensures made { MakesEntries S.Pages space.old space.new attached.now rows.now (λ v. v.items) result }
    ensures adds { AddsOnly S.Pages space.old space.new (IsRootIn rows.now) }
    ensures page_out { MissesOnly result (IsRootIn rows.now) }
    ensures kept { Reads S.Pages space.old space.new }
    ensures refusal { RefusesTree S.Pages space.old space.new result }
{
    let mut found = Vec::new(alloc);
    let mut left = rows;
    while let [row, rest @ ..] = left {
        push_entry(alloc, space, attached, row, buf, &mut found)?;
        left = rest;
    }
    Ok(found)
}

// The catalog of these rows.
fn catalog_of<S: Pages>(
    alloc: Global,
    space: &mut S,
    rows: &[SchemaRow],
) -> Result<Catalog, TreeFault>
    ensures made { MakesCatalog S.Pages space.old space.new rows.now result }
    ensures adds { AddsOnly S.Pages space.old space.new (IsRootIn rows.now) }
    ensures page_out { MissesOnly result (IsRootIn rows.now) }
    ensures kept { Reads S.Pages space.old space.new }
    ensures refusal { RefusesTree S.Pages space.old space.new result }
{
    let attached = Attached::new(alloc, rows)?;
    let mut buf = vec![in alloc; 0u8; space.page_size() as usize]?;
    let found = entries(alloc, space, &attached, rows, buf.as_mut_slice())?;
    Ok(Catalog::new(found))
}

// The catalog, as `read_catalog` has it.
fn catalog_in<S: Pages>(alloc: Global, space: &mut S) -> Result<Catalog, TreeFault>
    requires { S.Pages.refusal space.old ≡ None }
    ensures found { FindsCatalog S.Pages space.old space.new result }
    ensures damage { NamesSchema S.Pages space.old space.new result }
    ensures adds { AddsOfCatalog S.Pages space.old space.new }
    ensures page_out { MissesOfCatalog S.Pages space.old space.new result }
    ensures kept { Reads S.Pages space.old space.new }
    ensures refusal { RefusesTree S.Pages space.old space.new result }
{
    let pairs = range_with_leaves(alloc, space, 1, i64::MIN, i64::MAX)?;
    match read_rows(alloc, pairs.as_slice())? {
        Reading::Rows(rows) => catalog_of(alloc, space, rows.as_slice()),
        Reading::Damage(leaf) => Err(TreeFault::Corrupt { page: leaf }),
    }
}

/// The tables that the schema of the pages names, open and closed, in the order of their rows.
///
/// Each page of the schema's tree is got once, and then the root page of each table. Corrupt is as of
/// `range`, or names the leaf that a schema row was read from whose record is no schema record, whose
/// name is that of a table before it, or whose root page has a number past 32 bits. Where the schema's
/// tree stands, PageOut names one of its pages, an overflow page of one of its rows, or, where all rows
/// are in order, the root page of a table. ("Storage Of The SQL Database Schema" in SQLite's Database
/// File Format; which tables are open is this project's own.)
pub fn read_catalog<S: Pages>(alloc: Global, space: &mut S) -> Result<Catalog, TreeFault>
    requires { S.Pages.refusal space.old ≡ None }
    ensures found { FindsCatalog S.Pages space.old space.new result }
    ensures damage { NamesSchema S.Pages space.old space.new result }
    ensures adds { AddsOfCatalog S.Pages space.old space.new }
    ensures page_out { MissesOfCatalog S.Pages space.old space.new result }
    ensures inside { MissesStanding S.Pages space.old space.new result }
    ensures kept { Reads S.Pages space.old space.new }
    ensures refusal { RefusesTree S.Pages space.old space.new result }
{
    catalog_in(alloc, space)
}
