//! The free pages of a database, read from its file.

ghost use Rattle.std.specs.Prelude.{◌≡◌, ◌+◌, ◌*◌, ◌≤◌, ◌&&◌, ◌++◌, ◌∷◌, true, length, map, nat_le, nat_lt, is_none, IfOk, OnOk};
ghost use Rattle.spe_model.specs.Big.{u32_at};
ghost use Rattle.spe_model.specs.FreeList.{is_list_count, names_node};
ghost use Rattle.spe_model.specs.Journal.{numbers_from};
ghost use Rattle.spe_model.specs.Settled.{IsWithinLimits};
ghost use Rattle.spe_convert.specs.Free.{FindsFree};
ghost use Rattle.spe_convert.specs.Reading.{HasReading, ReadsInto, WhereHeld, are_ascending, found_free, found_lists, found_node, usable_of};

use crate::fault::ConvertFault;
use crate::trunks::{is_one_of, read_page, read_trunks};
use spe_disk::Disk;
use spe_model::{Recovered, u32_of};
use std::alloc::{AllocError, Global};

pub fn is_list_count(count: u32) -> bool
    ensures { result ≡ is_list_count count }
{
    1 <= count && count <= 16
}

pub fn names_node(page: &[u8]) -> bool
    requires { 40 ≤ length page.now }
    ensures { result ≡ names_node page.now }
{
    u32_of(page, 32) != 0 && u32_of(page, 36) == 0
}

// The first trunks that a node page names, in their order.
fn firsts_in(alloc: Global, page: &[u8], count: usize) -> Result<Vec<u32>, AllocError>
    requires { 4 + 4 * count ≤ length page.now }
    ensures { IfOk result (λ trunks. trunks.items ≡ map (λ i. u32_at page.now (4 + 4 * i)) (numbers_from 0 count)) }
{
    let mut trunks = Vec::new(alloc);
    for index in 0..count {
        trunks.push(u32_of(page, 4 + 4 * index))?;
    }
    Ok(trunks)
}

// Reads the lists with these first trunks, whose numbers stand on the page `node`.
fn read_lists<D: Disk>(
    disk: &mut D,
    found: &Recovered,
    node: u32,
    firsts: &[u32],
    buf: &mut [u8],
    free: &mut Vec<u32>,
) -> Result<(), ConvertFault>
    requires attached { D.attached disk.old ≡ true }
    requires limits { IsWithinLimits found.now }
    requires size { length buf.old ≡ found.now.page_size }
    ensures read { WhereHeld (D.told disk.old) found.now (λ pages. ReadsInto free.old.items free.new.items result (found_lists (usable_of found.now) found.now.pages pages firsts.now)) }
    ensures same { D.told disk.new ≡ D.told disk.old }
    ensures attached { D.attached disk.new ≡ true }
    ensures cause { HasReading (D.read_faults disk.old) (D.read_faults disk.new) result }
    ensures operations { D.op_faults disk.new ≡ D.op_faults disk.old }
{
    let mut left = firsts;
    while let [first, rest @ ..] = left {
        if *first == 0 {
            return Err(ConvertFault::Corrupt { page: node });
        }
        match read_trunks(disk, found, *first, buf, free) {
            Ok(()) => (),
            Err(fault) => return Err(fault),
        }
        left = rest;
    }
    Ok(())
}

// Reads a node page and the lists that it names.
fn read_node<D: Disk>(
    alloc: Global,
    disk: &mut D,
    found: &Recovered,
    node: u32,
    buf: &mut [u8],
    free: &mut Vec<u32>,
) -> Result<(), ConvertFault>
    requires attached { D.attached disk.old ≡ true }
    requires limits { IsWithinLimits found.now }
    requires size { length buf.old ≡ found.now.page_size }
    ensures read { WhereHeld (D.told disk.old) found.now (λ pages. ReadsInto free.old.items free.new.items result (found_node (usable_of found.now) found.now.pages pages node)) }
    ensures same { D.told disk.new ≡ D.told disk.old }
    ensures attached { D.attached disk.new ≡ true }
    ensures cause { HasReading (D.read_faults disk.old) (D.read_faults disk.new) result }
    ensures operations { D.op_faults disk.new ≡ D.op_faults disk.old }
{
    if !is_one_of(node, found.pages) {
        return Err(ConvertFault::Corrupt { page: node });
    }
    read_page(disk, found, node, buf)?;
    let count = u32_of(buf, 0);
    if !is_list_count(count) {
        return Err(ConvertFault::Corrupt { page: node });
    }
    let firsts = firsts_in(alloc, buf, count as usize)?;
    free.push(node)?;
    read_lists(disk, found, node, firsts.as_slice(), buf, free)
}

// Reads all free pages, the node page among them, in the order of the lists.
fn read_all<D: Disk>(
    alloc: Global,
    disk: &mut D,
    found: &Recovered,
    buf: &mut [u8],
    free: &mut Vec<u32>,
) -> Result<(), ConvertFault>
    requires attached { D.attached disk.old ≡ true }
    requires limits { IsWithinLimits found.now }
    requires size { length buf.old ≡ found.now.page_size }
    ensures read { WhereHeld (D.told disk.old) found.now (λ pages. ReadsInto free.old.items free.new.items result (found_free (usable_of found.now) found.now.pages pages)) }
    ensures same { D.told disk.new ≡ D.told disk.old }
    ensures attached { D.attached disk.new ≡ true }
    ensures cause { HasReading (D.read_faults disk.old) (D.read_faults disk.new) result }
    ensures operations { D.op_faults disk.new ≡ D.op_faults disk.old }
{
    read_page(disk, found, 1, buf)?;
    let first = u32_of(buf, 32);
    if names_node(buf) {
        read_node(alloc, disk, found, first, buf, free)
    } else {
        read_trunks(disk, found, first, buf, free)
    }
}

fn is_placed(below: u32, page: u32, most: u32) -> bool
    ensures { result ≡ (nat_lt below page && nat_le page most) }
{
    below < page && page <= most
}

// The first number that is not above the one before it, and above 1, or is above `most`.
fn misplaced(pages: &[u32], most: u32) -> Option<u32>
    ensures { is_none result ≡ are_ascending 1 most pages.now }
{
    let mut below = 1;
    let mut left = pages;
    while let [first, rest @ ..] = left {
        if !is_placed(below, *first, most) {
            return Some(*first);
        }
        below = *first;
        left = rest;
    }
    None
}

/// Reads the numbers of all free pages, the node page among them, in ascending order.
///
/// `buf` is one page long and is written over. Page 1, the node page and each trunk are read once.
/// Corrupt names a page of the free lists that breaks a rule, or a page that is listed twice, is page 1
/// or is none of the pages; it is not answered where the pages stand.
pub fn read_free<D: Disk>(
    alloc: Global,
    disk: &mut D,
    found: &Recovered,
    buf: &mut [u8],
) -> Result<Vec<u32>, ConvertFault>
    requires attached { D.attached disk.old ≡ true }
    requires limits { IsWithinLimits found.now }
    requires size { length buf.old ≡ found.now.page_size }
    ensures read { WhereHeld (D.told disk.old) found.now (FindsFree (usable_of found.now) found.now.pages result) }
    ensures ascending { IfOk result (λ free. are_ascending 1 found.now.pages free.items ≡ true) }
    ensures same { D.told disk.new ≡ D.told disk.old }
    ensures attached { D.attached disk.new ≡ true }
    ensures cause { HasReading (D.read_faults disk.old) (D.read_faults disk.new) result }
    ensures operations { D.op_faults disk.new ≡ D.op_faults disk.old }
{
    let mut free = Vec::new(alloc);
    match read_all(alloc, disk, found, buf, &mut free) {
        Ok(()) => (),
        Err(fault) => return Err(fault),
    }
    free.sort_unstable();
    match misplaced(free.as_slice(), found.pages) {
        Some(page) => Err(ConvertFault::Corrupt { page }),
        None => Ok(free),
    }
}
