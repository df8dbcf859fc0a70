//! Free pages in server form.

ghost use Rattle.std.specs.Prelude.{◌≡◌, ◌+◌, ◌-◌, ◌*◌, ◌^◌, ◌≤◌, ◌++◌, true, All, length, map, IfOk, OnOk};
ghost use Rattle.spe_model.specs.Settled.{IsWithinLimits};
ghost use Rattle.spe_model.specs.Standing.{IsOneOf};
ghost use Rattle.spe_rewrite.specs.Changes.{AreChanges};
ghost use Rattle.spe_model.specs.Journal.{numbers_from};
ghost use Rattle.spe_convert.specs.Changes.{added, before, change_of, prepared_changes, server_changes};
ghost use Rattle.spe_convert.specs.Made.{HaveSize, IsWritable, changed_pages, dealt_pages, heads, named_by};
ghost use Rattle.spe_convert.specs.Prepare.{HasRoomFor};
ghost use Rattle.spe_convert.specs.Reading.{HasPlainReading, WhereHeld, are_ascending, usable_of};
ghost use Rattle.spe_convert.specs.Trunk.{room};

use crate::dealing::deal_out;
use crate::fault::ConvertFault;
use crate::page::{front_page, node_page, trunk_page};
use crate::stock::{first_of, most_leaves};
use crate::trunk::Trunk;
use crate::trunks::read_page;
use spe_disk::Disk;
use spe_model::Recovered;
use spe_rewrite::{Change, Changes};
use std::alloc::{AllocError, Global};

// How many pages are to be added, so that there is one for the node page and one for each list.
fn added(free: &[u32], lists: u32) -> u32
    requires { lists ≤ 16 }
    ensures { result ≡ lists + 1 - length free.now }
{
    let wanted = lists as usize + 1;
    (wanted - free.len().min(wanted)) as u32
}

/// How many pages are to be added for the node page and the lists, where the file has room for them.
pub fn room_for(found: &Recovered, lists: u32, free: &[u32]) -> Result<u32, ConvertFault>
    requires few { lists ≤ 16 }
    requires limits { IsWithinLimits found.now }
    ensures { HasRoomFor found.now lists free.now result }
{
    let added = added(free, lists);
    let bytes = (u64::from(found.pages) + u64::from(added)) * u64::from(found.page_size);
    if bytes > 1 << 30 {
        Err(ConvertFault::Full { pages: found.pages })
    } else {
        Ok(added)
    }
}

// The free pages, and so many new ones at the end.
fn supply(alloc: Global, free: &[u32], pages: u32, added: u32) -> Result<Vec<u32>, AllocError>
    requires { pages + added ≤ 2 ^ 30 }
    ensures { IfOk result (λ all. all.items ≡ free.now ++ numbers_from (pages + 1) added) }
{
    let mut all = Vec::new(alloc);
    all.extend_from_slice(free)?;
    for page in pages + 1..pages + 1 + added {
        all.push(page)?;
    }
    Ok(all)
}

// A page as it was; a new one has zeros.
fn old_page<D: Disk>(
    disk: &mut D,
    found: &Recovered,
    page: u32,
    buf: &mut [u8],
) -> Result<(), ConvertFault>
    requires attached { D.attached disk.old ≡ true }
    requires numbered { 1 ≤ page }
    requires size { length buf.old ≡ found.now.page_size }
    ensures held { OnOk result (WhereHeld (D.told disk.old) found.now (λ pages. buf.new ≡ before found.now.page_size found.now.pages pages page)) }
    ensures long { length buf.new ≡ length buf.old }
    ensures same { D.told disk.new ≡ D.told disk.old }
    ensures attached { D.attached disk.new ≡ true }
    ensures cause { HasPlainReading (D.read_faults disk.old) (D.read_faults disk.new) result }
    ensures operations { D.op_faults disk.new ≡ D.op_faults disk.old }
{
    if page > found.pages {
        buf.fill(0);
        return Ok(());
    }
    read_page(disk, found, page, buf)?;
    Ok(())
}

// The node page, which names these first trunks.
fn node_change<D: Disk>(
    alloc: Global,
    disk: &mut D,
    found: &Recovered,
    page: u32,
    firsts: &[u32],
    buf: &mut [u8],
) -> Result<Change, ConvertFault>
    requires attached { D.attached disk.old ≡ true }
    requires limits { IsWithinLimits found.now }
    requires size { length buf.old ≡ found.now.page_size }
    requires numbered { 1 ≤ page }
    requires few { length firsts.now ≤ 16 }
    ensures made { IfOk result (λ change. WhereHeld (D.told disk.old) found.now (λ pages. change ≡ named_by (usable_of found.now) page firsts.now (before found.now.page_size found.now.pages pages))) }
    ensures page { IfOk result (λ change. change.page ≡ page) }
    ensures sized { IfOk result (λ change. length change.bytes ≡ found.now.page_size) }
    ensures same { D.told disk.new ≡ D.told disk.old }
    ensures attached { D.attached disk.new ≡ true }
    ensures cause { HasPlainReading (D.read_faults disk.old) (D.read_faults disk.new) result }
    ensures operations { D.op_faults disk.new ≡ D.op_faults disk.old }
{
    old_page(disk, found, page, buf)?;
    let usable = found.page_size - u32::from(found.reserved);
    let bytes = node_page(alloc, firsts, usable, buf)?;
    Ok(Change { page, bytes })
}

// A trunk as it is to be.
#[tactic(auto, unfolding(crate::specs::Trunk::room))]
fn server_trunk<D: Disk>(
    alloc: Global,
    disk: &mut D,
    found: &Recovered,
    trunk: &Trunk,
    buf: &mut [u8],
) -> Result<Change, ConvertFault>
    requires attached { D.attached disk.old ≡ true }
    requires limits { IsWithinLimits found.now }
    requires size { length buf.old ≡ found.now.page_size }
    requires right { IsWritable (room (usable_of found.now)) trunk.now }
    ensures made { IfOk result (λ change. WhereHeld (D.told disk.old) found.now (λ pages. change ≡ change_of (usable_of found.now) (before found.now.page_size found.now.pages pages) trunk.now)) }
    ensures page { IfOk result (λ change. change.page ≡ trunk.now.page) }
    ensures sized { IfOk result (λ change. length change.bytes ≡ found.now.page_size) }
    ensures same { D.told disk.new ≡ D.told disk.old }
    ensures attached { D.attached disk.new ≡ true }
    ensures cause { HasPlainReading (D.read_faults disk.old) (D.read_faults disk.new) result }
    ensures operations { D.op_faults disk.new ≡ D.op_faults disk.old }
{
    old_page(disk, found, trunk.page(), buf)?;
    let usable = found.page_size - u32::from(found.reserved);
    let bytes = trunk_page(alloc, trunk.next(), trunk.leaves(), usable, buf)?;
    Ok(Change {
        page: trunk.page(),
        bytes,
    })
}

// Trunks as they are to be, behind what is in `changes`.
fn trunk_changes<D: Disk>(
    alloc: Global,
    disk: &mut D,
    found: &Recovered,
    trunks: &[Trunk],
    buf: &mut [u8],
    changes: &mut Vec<Change>,
) -> Result<(), ConvertFault>
    requires attached { D.attached disk.old ≡ true }
    requires limits { IsWithinLimits found.now }
    requires size { length buf.old ≡ found.now.page_size }
    requires right { All (IsWritable (room (usable_of found.now))) trunks.now }
    ensures made { OnOk result (WhereHeld (D.told disk.old) found.now (λ pages. changes.new.items ≡ changes.old.items ++ map (change_of (usable_of found.now) (before found.now.page_size found.now.pages pages)) trunks.now)) }
    ensures numbers { OnOk result (changed_pages changes.new.items ≡ changed_pages changes.old.items ++ heads trunks.now) }
    ensures sized { OnOk result (HaveSize found.now.page_size changes.old.items → HaveSize found.now.page_size changes.new.items) }
    ensures buf { length buf.new ≡ length buf.old }
    ensures same { D.told disk.new ≡ D.told disk.old }
    ensures attached { D.attached disk.new ≡ true }
    ensures cause { HasPlainReading (D.read_faults disk.old) (D.read_faults disk.new) result }
    ensures operations { D.op_faults disk.new ≡ D.op_faults disk.old }
{
    let mut left = trunks;
    while let [trunk, rest @ ..] = left {
        let change = match server_trunk(alloc, disk, found, trunk, buf) {
            Ok(change) => change,
            Err(fault) => return Err(fault),
        };
        changes.push(change)?;
        left = rest;
    }
    Ok(())
}

// The node page, the first trunks and the others, where these pages are put in server form.
fn dealt_changes<D: Disk>(
    alloc: Global,
    disk: &mut D,
    found: &Recovered,
    lists: u32,
    pages: &[u32],
    buf: &mut [u8],
    changes: &mut Vec<Change>,
) -> Result<(), ConvertFault>
    requires attached { D.attached disk.old ≡ true }
    requires limits { IsWithinLimits found.now }
    requires size { length buf.old ≡ found.now.page_size }
    requires some { 1 ≤ lists }
    requires few { lists ≤ 16 }
    requires long { lists + 1 ≤ length pages.now }
    requires numbered { All (λ n. 1 ≤ n) pages.now }
    ensures made { OnOk result (WhereHeld (D.told disk.old) found.now (λ paging. changes.new.items ≡ changes.old.items ++ server_changes (usable_of found.now) lists (before found.now.page_size found.now.pages paging) pages.now)) }
    ensures numbers { OnOk result (changed_pages changes.new.items ≡ changed_pages changes.old.items ++ dealt_pages (room (usable_of found.now)) lists pages.now) }
    ensures sized { OnOk result (HaveSize found.now.page_size changes.old.items → HaveSize found.now.page_size changes.new.items) }
    ensures same { D.told disk.new ≡ D.told disk.old }
    ensures attached { D.attached disk.new ≡ true }
    ensures cause { HasPlainReading (D.read_faults disk.old) (D.read_faults disk.new) result }
    ensures operations { D.op_faults disk.new ≡ D.op_faults disk.old }
{
    let (node, rest) = pages.split_at(1);
    let (firsts, more) = rest.split_at(lists as usize);
    let change = match node_change(alloc, disk, found, first_of(node), firsts, buf) {
        Ok(change) => change,
        Err(fault) => return Err(fault),
    };
    changes.push(change)?;
    let (trunks, others) = deal_out(alloc, most_leaves(found), firsts, more)?;
    match trunk_changes(alloc, disk, found, trunks.as_slice(), buf, changes) {
        Ok(()) => (),
        Err(fault) => return Err(fault),
    }
    trunk_changes(alloc, disk, found, others.as_slice(), buf, changes)
}

/// The pages that change where these free pages are put in server form, with so many new ones.
pub fn server_changes<D: Disk>(
    alloc: Global,
    disk: &mut D,
    found: &Recovered,
    lists: u32,
    free: &[u32],
    more: u32,
    buf: &mut [u8],
) -> Result<Changes, ConvertFault>
    requires attached { D.attached disk.old ≡ true }
    requires limits { IsWithinLimits found.now }
    requires size { length buf.old ≡ found.now.page_size }
    requires some { 1 ≤ lists }
    requires few { lists ≤ 16 }
    requires ascending { are_ascending 1 found.now.pages free.now ≡ true }
    requires more { more ≡ added found.now.pages lists free.now }
    requires fits { (found.now.pages + more) * found.now.page_size ≤ 2 ^ 30 }
    ensures made { IfOk result (λ changes. WhereHeld (D.told disk.old) found.now (λ pages. changes ≡ prepared_changes found.now.page_size (usable_of found.now) found.now.pages lists free.now pages)) }
    ensures changes { IfOk result (AreChanges found.now.page_size) }
    ensures same { D.told disk.new ≡ D.told disk.old }
    ensures attached { D.attached disk.new ≡ true }
    ensures cause { HasPlainReading (D.read_faults disk.old) (D.read_faults disk.new) result }
    ensures operations { D.op_faults disk.new ≡ D.op_faults disk.old }
{
    let pages = supply(alloc, free, found.pages, more)?;
    read_page(disk, found, 1, buf)?;
    let bytes = front_page(
        alloc,
        found.pages + more,
        first_of(pages.as_slice()),
        0,
        buf,
    )?;
    let mut changes = Vec::new(alloc);
    changes.push(Change { page: 1, bytes })?;
    match dealt_changes(
        alloc,
        disk,
        found,
        lists,
        pages.as_slice(),
        buf,
        &mut changes,
    ) {
        Ok(()) => Ok(Changes::new(changes)),
        Err(fault) => Err(fault),
    }
}
