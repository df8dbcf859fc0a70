//! What is said of one table, over the pages of a space that stand for a database.

ghost use Rattle.std.specs.Prelude.{◌≡◌, None, IfOk};
ghost use Rattle.std.specs.Option.{option_copied};
ghost use Rattle.spe_model.specs.Rows.{table_named};
ghost use Rattle.spe_space.specs.Calls.{Reads, RefusesTree};
ghost use Rattle.spe_serve.specs.Answer.{reply_of_table};
ghost use Rattle.spe_serve.specs.Reply.{IsAboutRows};
ghost use Rattle.spe_serve.specs.Space.{is_named, entry_named, AsksOfRows, AsksOfTable, AsksStanding, GivesRows, GivesTable, GivesStanding, NamesRows, NamesTable};

use crate::reply::Reply;
use crate::row::rows;
use spe_catalog::read_catalog;
use spe_model::{Catalog, Entry, Text};
use spe_search::{range_with_leaves, spans_the_table};
use spe_space::{Pages, TreeFault};
use std::alloc::Global;

// Whether a table has this name.
fn is_named(entry: &Entry, name: &Text) -> bool
    ensures { result ≡ is_named name.now entry.now }
{
    entry
        .table
        .name
        .as_str()
        .eq_ignore_ascii_case(name.as_str())
}

// The first table of a catalog that has this name.
fn entry_named<'a>(catalog: &'a Catalog, name: &Text) -> Option<&'a Entry>
    ensures { option_copied result ≡ entry_named name.now catalog.now }
{
    catalog
        .as_slice()
        .iter()
        .find(|entry| is_named(entry, name))
}

// The rows of an open table. Corrupt names the leaf of a row whose record is none of the table.
fn open_reply<S: Pages>(alloc: Global, space: &mut S, entry: &Entry) -> Result<Reply, TreeFault>
    requires { S.Pages.refusal space.old ≡ None }
    ensures rows { GivesRows S.Pages space.old space.new entry.now result }
    ensures about { IfOk result IsAboutRows }
    ensures damage { NamesRows S.Pages space.old space.new entry.now result }
    ensures asks { AsksOfRows S.Pages space.old space.new entry.now result }
    ensures kept { Reads S.Pages space.old space.new }
    ensures refusal { RefusesTree S.Pages space.old space.new result }
{
    spans_the_table();
    let pairs = match range_with_leaves(alloc, space, entry.root, i64::MIN, i64::MAX) {
        Ok(pairs) => pairs,
        Err(fault) => return Err(fault),
    };
    match rows(alloc, &entry.table, pairs.as_slice())? {
        Ok(rows) => Ok(Reply::Rows(rows)),
        Err(page) => Err(TreeFault::Corrupt { page }),
    }
}

// The rows of a table, unless it is closed.
fn entry_reply<S: Pages>(alloc: Global, space: &mut S, entry: &Entry) -> Result<Reply, TreeFault>
    requires { S.Pages.refusal space.old ≡ None }
    ensures table { GivesTable S.Pages space.old space.new entry.now result }
    ensures about { IfOk result IsAboutRows }
    ensures damage { NamesRows S.Pages space.old space.new entry.now result }
    ensures asks { AsksOfTable S.Pages space.old space.new entry.now result }
    ensures kept { Reads S.Pages space.old space.new }
    ensures refusal { RefusesTree S.Pages space.old space.new result }
{
    match entry.table.closed {
        Some(why) => Ok(Reply::ClosedTable(why)),
        None => open_reply(alloc, space, entry),
    }
}

/// What the database for which the pages of a space stand says of the table of this name.
///
/// The schema's tree is read, the root page of each table, and then the tree of this one. Corrupt never
/// comes where the pages stand for a database, and PageOut then names one of these pages. Whatever the
/// pages are, Corrupt names a page that was read and breaks a rule, or the leaf that a row of the schema or
/// of the table was read from whose record may not stand there.
pub fn table_reply<S: Pages>(alloc: Global, space: &mut S, name: &Text) -> Result<Reply, TreeFault>
    requires { S.Pages.refusal space.old ≡ None }
    ensures reply { GivesStanding S.Pages space.old space.new (λ db reply. reply ≡ reply_of_table (table_named name.now db)) result }
    ensures about { IfOk result IsAboutRows }
    ensures damage { NamesTable S.Pages space.old space.new name.now result }
    ensures asks { AsksStanding S.Pages space.old space.new result }
    ensures kept { Reads S.Pages space.old space.new }
    ensures refusal { RefusesTree S.Pages space.old space.new result }
{
    let catalog = match read_catalog(alloc, space) {
        Ok(catalog) => catalog,
        Err(fault) => return Err(fault),
    };
    match entry_named(&catalog, name) {
        Some(entry) => entry_reply(alloc, space, entry),
        None => Ok(Reply::NoTable),
    }
}
