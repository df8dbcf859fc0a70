//! Free pages in stock form.

ghost use Rattle.std.specs.Prelude.{◌≡◌, ◌≤◌, ◌++◌, true, All, length, map, IfOk, OnOk};
ghost use Rattle.spe_model.specs.Settled.{IsWithinLimits};
ghost use Rattle.spe_model.specs.Standing.{IsOneOf};
ghost use Rattle.spe_convert.specs.Changes.{change_of};
ghost use Rattle.spe_convert.specs.Dealt.{chained, first_of};
ghost use Rattle.spe_convert.specs.Made.{HaveSize, changed_pages, heads, trunk_of};
ghost use Rattle.spe_convert.specs.Reading.{HasPlainReading, WhereHeld, are_ascending, usable_of};
ghost use Rattle.spe_convert.specs.Trunk.{room};

use crate::fault::ConvertFault;
use crate::page::trunk_page;
use crate::trunks::read_page;
use spe_disk::Disk;
use spe_model::Recovered;
use spe_rewrite::Change;
use std::alloc::Global;

// A page that there is as a trunk. Its reserved bytes stay.
#[tactic(auto, unfolding(crate::specs::Trunk::room))]
fn trunk_change<D: Disk>(
    alloc: Global,
    disk: &mut D,
    found: &Recovered,
    page: u32,
    next: u32,
    leaves: &[u32],
    buf: &mut [u8],
) -> Result<Change, ConvertFault>
    requires attached { D.attached disk.old ≡ true }
    requires limits { IsWithinLimits found.now }
    requires size { length buf.old ≡ found.now.page_size }
    requires inside { IsOneOf found.now.pages page }
    requires few { length leaves.now ≤ room (usable_of found.now) }
    ensures made { IfOk result (λ change. WhereHeld (D.told disk.old) found.now (λ pages. change ≡ change_of (usable_of found.now) pages (trunk_of page next leaves.now))) }
    ensures page { IfOk result (λ change. change.page ≡ page) }
    ensures sized { IfOk result (λ change. length change.bytes ≡ found.now.page_size) }
    ensures same { D.told disk.new ≡ D.told disk.old }
    ensures attached { D.attached disk.new ≡ true }
    ensures cause { HasPlainReading (D.read_faults disk.old) (D.read_faults disk.new) result }
    ensures operations { D.op_faults disk.new ≡ D.op_faults disk.old }
{
    read_page(disk, found, page, buf)?;
    let usable = found.page_size - u32::from(found.reserved);
    let bytes = trunk_page(alloc, next, leaves, usable, buf)?;
    Ok(Change { page, bytes })
}

/// The first of some pages, 0 where there is none.
pub fn first_of(pages: &[u32]) -> u32
    ensures { result ≡ first_of pages.now }
{
    match pages {
        [first, ..] => *first,
        [] => 0,
    }
}

/// Free pages in one list: the first becomes a trunk with as many next ones as leaves as are written to
/// one at most, and so on. `free` are their numbers, ascending. Each trunk is put behind what is in `changes`.
///
/// `buf` is one page long and is written over. Each trunk is read once.
pub fn chain_changes<D: Disk>(
    alloc: Global,
    disk: &mut D,
    found: &Recovered,
    free: &[u32],
    buf: &mut [u8],
    changes: &mut Vec<Change>,
) -> Result<(), ConvertFault>
    requires attached { D.attached disk.old ≡ true }
    requires limits { IsWithinLimits found.now }
    requires size { length buf.old ≡ found.now.page_size }
    requires inside { All (IsOneOf found.now.pages) free.now }
    ensures made { OnOk result (WhereHeld (D.told disk.old) found.now (λ pages. changes.new.items ≡ changes.old.items ++ map (change_of (usable_of found.now) pages) (chained (room (usable_of found.now)) (length free.now) free.now))) }
    ensures numbers { OnOk result (changed_pages changes.new.items ≡ changed_pages changes.old.items ++ heads (chained (room (usable_of found.now)) (length free.now) free.now)) }
    ensures sized { OnOk result (HaveSize found.now.page_size changes.old.items → HaveSize found.now.page_size changes.new.items) }
    ensures same { D.told disk.new ≡ D.told disk.old }
    ensures attached { D.attached disk.new ≡ true }
    ensures cause { HasPlainReading (D.read_faults disk.old) (D.read_faults disk.new) result }
    ensures operations { D.op_faults disk.new ≡ D.op_faults disk.old }
{
    let most = most_leaves(found);
    let mut left = free;
    while let [first, rest @ ..] = left {
        let (leaves, more) = rest.split_at(rest.len().min(most));
        let change = match trunk_change(alloc, disk, found, *first, first_of(more), leaves, buf) {
            Ok(change) => change,
            Err(fault) => return Err(fault),
        };
        changes.push(change)?;
        left = more;
    }
    Ok(())
}

// How many leaves are written to a trunk at most.
#[tactic(auto, unfolding(crate::specs::Trunk::room))]
pub fn most_leaves(found: &Recovered) -> usize
    requires { IsWithinLimits found.now }
    ensures { result ≡ room (usable_of found.now) }
{
    ((found.page_size - u32::from(found.reserved)) / 4 - 8) as usize
}
