//! The verdict over the pages of a database.

ghost use Rattle.std.specs.Prelude.{IfErr, ◌≡◌, ◌≤◌, ◌+◌, ◌*◌, ◌^◌, None};
ghost use Rattle.spe_model.specs.Served.{usable_in};
ghost use Rattle.spe_space.specs.Calls.{Reads};
ghost use Rattle.spe_space.specs.Outcome.{IsInside, OnPageOut, refusal_after};
ghost use Rattle.spe_check.specs.Check.{GivesVerdict};
ghost use Rattle.spe_check.specs.Shown.{Walked, RefusesHalt, AsksWithin};
ghost use Rattle.spe_check.specs.Verdicts.{narrowed, tables_among, with_row, TriesAll, TriesSchema};

use crate::free_lists::try_free;
use crate::halt::Halt;
use crate::objects::{tree_levels, try_objects};
use crate::schema_rows::{Placed, SchemaRows};
use crate::table_tree::walk_table;
use crate::walk::{Bounds, Depth, Walk};
use spe_model::{Header, Verdict};
use spe_space::{Pages, SpaceFault};
use spe_verdict::{bounds_law, counts_law};
use std::alloc::Global;

// A number in 32 bits, or the greatest of these.
fn narrowed(number: u64) -> u32
    ensures { result ≡ narrowed number }
{
    u32::try_from(number).unwrap_or(u32::MAX)
}

// One table more, where the row is a table's.
fn with_row(tables: u32, placed: &Placed) -> u32
    ensures { result ≡ with_row tables placed.now }
{
    if placed.row().is_table() {
        tables.saturating_add(1)
    } else {
        tables
    }
}

// How many rows of the schema are those of tables, or the greatest number of 32 bits.
fn count_tables(placed: &[Placed]) -> u32
    ensures { result ≡ narrowed (tables_among placed.now) }
{
    let mut tables = 0;
    let mut left = placed;
    'rows: while let [first, rest @ ..] = left {
        tables = with_row(tables, first);
        left = rest;
    }
    tables
}

// Tries the tree of the schema, and answers its rows with their leaves.
fn try_schema<S: Pages>(space: &mut S, walk: &mut Walk) -> Result<Vec<Placed>, Halt>
    ensures tried { TriesSchema S.Pages space.new walk.old.met walk.new.met result }
    ensures walked { Walked S.Pages space.old space.new walk.old.met walk.new.met }
    ensures refusal { RefusesHalt S.Pages space.old space.new result }
    ensures asks { AsksWithin walk.old.met result }
{
    let levels = tree_levels();
    let depth = Depth { leaf: None, levels };
    let unbounded = Bounds {
        low: None,
        high: None,
    };
    let mut rows = SchemaRows::new(walk.alloc);
    match walk_table(space, walk, &mut rows, depth, unbounded, 1, 1) {
        Ok(_level) => Ok(rows.into_placed()),
        Err(halt) => Err(halt),
    }
}

// Tries all that is to be tried of pages that begin with this header, and answers what there is.
fn try_all<S: Pages>(space: &mut S, walk: &mut Walk, header: &Header) -> Result<Verdict, Halt>
    ensures tried { TriesAll S.Pages space.new walk.old.met walk.new.met header.now result }
    ensures walked { Walked S.Pages space.old space.new walk.old.met walk.new.met }
    ensures refusal { RefusesHalt S.Pages space.old space.new result }
    ensures asks { AsksWithin walk.old.met result }
{
    let placed = match try_schema(space, walk) {
        Ok(placed) => placed,
        Err(halt) => return Err(halt),
    };
    let rows = match try_objects(space, walk, placed.as_slice()) {
        Ok(rows) => rows,
        Err(halt) => return Err(halt),
    };
    let mut bytes = walk.buffers.take(space.page_size())?;
    match try_free(space, &mut walk.met, header, &mut bytes) {
        Ok(free) => Ok(Verdict::Stands {
            tables: count_tables(placed.as_slice()),
            rows,
            free: narrowed(free),
        }),
        Err(halt) => Err(halt),
    }
}

/// Whether so many pages are sound, the first of which begins with this header.
///
/// The walk goes over the tree of the schema, the trees of its rows and the free lists, and breaks off at the first
/// rule that is broken. Each page is got once, and none is asked for past the last of so many.
pub fn check<S: Pages>(
    alloc: Global,
    space: &mut S,
    header: &Header,
    pages: u32,
) -> Result<Verdict, SpaceFault>
    requires refusal { S.Pages.refusal space.old ≡ None }
    requires size { S.Pages.size space.old ≡ header.now.page_size }
    requires used { S.Pages.used space.old ≡ usable_in header.now }
    requires few { pages * header.now.page_size ≤ 2 ^ 30 }
    ensures verdict { GivesVerdict S.Pages space.old space.new header.now pages result }
    ensures kept { Reads S.Pages space.old space.new }
    ensures refusal { S.Pages.refusal space.new ≡ refusal_after result (S.Pages.refusal space.old) }
    ensures asks { IfErr result (OnPageOut (IsInside pages)) }
{
    counts_law();
    bounds_law();
    let mut walk = Walk::new(alloc, pages)?;
    match try_all(space, &mut walk, header) {
        Ok(verdict) => Ok(verdict),
        Err(Halt::Broken { page, rule }) => Ok(Verdict::Broken { page, rule }),
        Err(Halt::Space(fault)) => Err(fault),
    }
}
