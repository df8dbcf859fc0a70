//! The trees of open tables.

ghost use Rattle.std.specs.Prelude.{◌≡◌, is_some, length};
ghost use Rattle.spe_space.specs.Calls.{Reads, RefusesTree};
ghost use Rattle.spe_opening.specs.Below.{TestsEntries, TestsEntry, TestsTable};

use crate::below::test_below;
use crate::height::height_below;
use spe_model::Entry;
use spe_space::{Pages, TreeFault};
use std::alloc::Global;

// Makes sure that each interior page of a table's tree has a cell.
fn test_table<S: Pages>(
    alloc: Global,
    space: &mut S,
    root: u32,
    buf: &mut [u8],
) -> Result<(), TreeFault>
    requires { length buf.old ≡ S.Pages.size space.old }
    ensures tests { TestsTable S.Pages space.old space.new root result }
    ensures kept { Reads S.Pages space.old space.new }
    ensures refusal { RefusesTree S.Pages space.old space.new result }
{
    let height = match height_below(alloc, space, root, 20, buf) {
        Ok(height) => height,
        Err(fault) => return Err(fault),
    };
    test_below(alloc, space, root, height, buf)
}

fn is_closed(entry: &Entry) -> bool
    ensures { result ≡ is_some entry.now.table.closed }
{
    entry.table.closed.is_some()
}

// The same of a table that is open. A closed one need not have a tree.
fn test_entry<S: Pages>(
    alloc: Global,
    space: &mut S,
    entry: &Entry,
    buf: &mut [u8],
) -> Result<(), TreeFault>
    requires { length buf.old ≡ S.Pages.size space.old }
    ensures tests { TestsEntry S.Pages space.old space.new entry.now result }
    ensures kept { Reads S.Pages space.old space.new }
    ensures refusal { RefusesTree S.Pages space.old space.new result }
{
    if is_closed(entry) {
        return Ok(());
    }
    test_table(alloc, space, entry.root, buf)
}

// The same of each of some tables.
pub(crate) fn test_entries<S: Pages>(
    alloc: Global,
    space: &mut S,
    entries: &[Entry],
    buf: &mut [u8],
) -> Result<(), TreeFault>
    requires { length buf.old ≡ S.Pages.size space.old }
    ensures tests { TestsEntries S.Pages space.old space.new entries.now result }
    ensures kept { Reads S.Pages space.old space.new }
    ensures refusal { RefusesTree S.Pages space.old space.new result }
{
    let mut left = entries;
    while let [entry, rest @ ..] = left {
        match test_entry(alloc, space, entry, buf) {
            Ok(()) => (),
            Err(fault) => return Err(fault),
        }
        left = rest;
    }
    Ok(())
}
