//! The trees of the objects that the schema names.

ghost use Rattle.std.specs.Prelude.{◌≡◌, ◌≤◌, IfOk, SomeIff, None, length};
ghost use Rattle.spe_model.specs.Schema.{root_of};
ghost use Rattle.spe_model.specs.Verdict.{no_marks, record_marks, tree_levels};
ghost use Rattle.spe_model.specs.Walk.{walk_rows};
ghost use Rattle.spe_catalog.specs.Table.{Attaches};
ghost use Rattle.spe_check.specs.Objects.{index_tree, table_tree, OpensTable, TriesFrom, TriesTree, TriesObject, TriesObjects};
ghost use Rattle.spe_check.specs.RecordRows.{saturated};
ghost use Rattle.spe_check.specs.SchemaRows.{rows_in};
ghost use Rattle.spe_check.specs.TableTree.{TriesTableFrom};
ghost use Rattle.spe_check.specs.Shown.{Walked, RefusesHalt, AsksWithin};

use crate::halt::Halt;
use crate::index_tree::walk_index_from;
use crate::page::{is_table, read_met};
use crate::record_rows::{NoRows, RecordRows};
use crate::schema_rows::Placed;
use crate::table_tree::walk_table_from;
use crate::visitor::RowVisitor;
use crate::walk::{Bounds, Depth, Walk};
use spe_catalog::{Attached, SchemaRow, table_of};
use spe_format::LegalPage;
use spe_model::PageCells;
use spe_space::Pages;
use std::alloc::{AllocError, Global};

/// How many levels a tree may have, its root and its leaves among them.
#[tactic(auto, unfolding(spe_model::specs::Verdict::tree_levels))]
pub fn tree_levels() -> u32
    ensures { result ≡ tree_levels }
{
    20
}

// The tables that have an index or a trigger among these rows.
fn attached_to(alloc: Global, placed: &[Placed]) -> Result<Attached, AllocError>
    ensures { IfOk result (Attaches (rows_in placed.now)) }
{
    let mut attached = Attached::none(alloc);
    let mut left = placed;
    while let [first, rest @ ..] = left {
        attached.add(alloc, first.row())?;
        left = rest;
    }
    Ok(attached)
}

// How many columns the open table of a row has, or `None` where it is no open table's row. Its root is
// a page of a table.
fn open_columns(
    alloc: Global,
    attached: &Attached,
    row: &SchemaRow,
) -> Result<Option<usize>, AllocError>
    ensures { OpensTable attached.now row.now result }
{
    if !row.is_table() {
        return Ok(None);
    }
    let table = table_of(alloc, attached, true, row)?;
    let columns = table.columns.as_slice().len();
    match table.closed {
        Some(_) => Ok(None),
        None => Ok(Some(columns)),
    }
}

// The root of a row's object, or 0 where it has none. `None` where there are fewer pages.
fn root_within(pages: u32, row: &SchemaRow) -> Option<u32>
    ensures { SomeIff result (root_of row.now.rootpage ≤ pages) (root_of row.now.rootpage) }
{
    match row.root() {
        Some(root) if root <= pages => Some(root),
        _ => None,
    }
}

// Tries the tree of an index from its root on.
fn try_index<S: Pages>(
    space: &mut S,
    walk: &mut Walk,
    root: u32,
    node: &PageCells,
) -> Result<u64, Halt>
    ensures tried { TriesFrom S.Pages space.new walk.old.met walk.new.met index_tree (λ _ _. 0) root node.now result }
    ensures walked { Walked S.Pages space.old space.new walk.old.met walk.new.met }
    ensures refusal { RefusesHalt S.Pages space.old space.new result }
    ensures asks { AsksWithin walk.old.met result }
{
    let levels = tree_levels();
    let depth = Depth { leaf: None, levels };
    match walk_index_from(space, walk, depth, root, node) {
        Ok(_level) => Ok(0),
        Err(halt) => Err(halt),
    }
}

// Tries the tree of a table from its root on, which was met and read already and holds `node`.
fn try_table<S: Pages, V: RowVisitor>(
    space: &mut S,
    walk: &mut Walk,
    visitor: &mut V,
    root: u32,
    node: &LegalPage<'_>,
) -> Result<u32, Halt>
    ensures tried { TriesTableFrom S.Pages V.RowVisitor space.new walk.old.met walk.new.met visitor.old visitor.new None tree_levels 0 18446744073709551616 root node.now result }
    ensures walked { Walked S.Pages space.old space.new walk.old.met walk.new.met }
    ensures refusal { RefusesHalt S.Pages space.old space.new result }
    ensures asks { AsksWithin walk.old.met result }
{
    let levels = tree_levels();
    let depth = Depth { leaf: None, levels };
    let unbounded = Bounds {
        low: None,
        high: None,
    };
    walk_table_from(space, walk, visitor, depth, unbounded, root, node)
}

// Tries the tree of a closed table, or of another object, from its root on.
fn try_closed<S: Pages>(
    space: &mut S,
    walk: &mut Walk,
    root: u32,
    node: &LegalPage<'_>,
) -> Result<u64, Halt>
    ensures tried { TriesFrom S.Pages space.new walk.old.met walk.new.met (table_tree no_marks) (λ _ _. 0) root node.now result }
    ensures walked { Walked S.Pages space.old space.new walk.old.met walk.new.met }
    ensures refusal { RefusesHalt S.Pages space.old space.new result }
    ensures asks { AsksWithin walk.old.met result }
{
    match try_table(space, walk, &mut NoRows, root, node) {
        Ok(_level) => Ok(0),
        Err(halt) => Err(halt),
    }
}

// Tries the tree of an open table with so many columns from its root on, and counts its rows.
fn try_open<S: Pages>(
    space: &mut S,
    walk: &mut Walk,
    columns: usize,
    root: u32,
    node: &LegalPage<'_>,
) -> Result<u64, Halt>
    ensures tried { TriesFrom S.Pages space.new walk.old.met walk.new.met (table_tree (record_marks columns)) (λ usable pages. saturated (length (walk_rows usable pages tree_levels root))) root node.now result }
    ensures walked { Walked S.Pages space.old space.new walk.old.met walk.new.met }
    ensures refusal { RefusesHalt S.Pages space.old space.new result }
    ensures asks { AsksWithin walk.old.met result }
{
    let mut rows = RecordRows::new(columns);
    match try_table(space, walk, &mut rows, root, node) {
        Ok(_level) => Ok(rows.count()),
        Err(halt) => Err(halt),
    }
}

// Tries the tree of a row's object from its root on, which was read and holds `node`, and answers how
// many rows it has, where it is an open table.
fn try_tree<S: Pages>(
    space: &mut S,
    walk: &mut Walk,
    attached: &Attached,
    row: &SchemaRow,
    root: u32,
    node: &LegalPage<'_>,
) -> Result<u64, Halt>
    ensures tried { TriesTree S.Pages space.new walk.old.met walk.new.met attached.now root row.now node.now result }
    ensures walked { Walked S.Pages space.old space.new walk.old.met walk.new.met }
    ensures refusal { RefusesHalt S.Pages space.old space.new result }
    ensures asks { AsksWithin walk.old.met result }
{
    if !is_table(node.kind()) {
        let cells = node.copied(walk.alloc)?;
        return try_index(space, walk, root, &cells);
    }
    match open_columns(walk.alloc, attached, row)? {
        Some(columns) => try_open(space, walk, columns, root, node),
        None => try_closed(space, walk, root, node),
    }
}

// Tries the tree of a row's object, where the row names a root, and answers how many rows it has,
// where it is an open table. Its root is met under the row's leaf.
fn try_object<S: Pages>(
    space: &mut S,
    walk: &mut Walk,
    attached: &Attached,
    placed: &Placed,
) -> Result<u64, Halt>
    ensures tried { TriesObject S.Pages space.new walk.old.met walk.new.met attached.now placed.now result }
    ensures walked { Walked S.Pages space.old space.new walk.old.met walk.new.met }
    ensures refusal { RefusesHalt S.Pages space.old space.new result }
    ensures asks { AsksWithin walk.old.met result }
{
    let row = placed.row();
    let leaf = placed.leaf();
    let Some(root) = root_within(walk.met.pages, row) else {
        return Err(Halt::Broken {
            page: leaf,
            rule: 1,
        });
    };
    if root == 0 {
        return Ok(0);
    }
    let mut own = walk.buffers.take(space.page_size())?;
    let node = match read_met(
        walk.alloc,
        space,
        &mut walk.met,
        leaf,
        root,
        own.as_mut_slice(),
    ) {
        Ok(node) => node,
        Err(halt) => return Err(halt),
    };
    let rows = try_tree(space, walk, attached, row, root, &node);
    walk.buffers.give_back(own);
    rows
}

/// Tries the trees of the objects that these rows of the schema name, in their order, and answers how
/// many rows the open tables have, or the greatest number of 64 bits where they have more.
///
/// A row without a root, or with one that is negative, has no tree. The tree of an open table is one of
/// a table; of any other object the root's own kind says what it is. Each page is got once.
pub fn try_objects<S: Pages>(space: &mut S, walk: &mut Walk, placed: &[Placed]) -> Result<u64, Halt>
    ensures tried { TriesObjects S.Pages space.new walk.old.met walk.new.met placed.now result }
    ensures walked { Walked S.Pages space.old space.new walk.old.met walk.new.met }
    ensures refusal { RefusesHalt S.Pages space.old space.new result }
    ensures asks { AsksWithin walk.old.met result }
{
    let attached = attached_to(walk.alloc, placed)?;
    let mut rows: u64 = 0;
    let mut left = placed;
    'objects: while let [first, rest @ ..] = left {
        match try_object(space, walk, &attached, first) {
            Ok(more) => rows = rows.saturating_add(more),
            Err(halt) => return Err(halt),
        }
        left = rest;
    }
    Ok(rows)
}
