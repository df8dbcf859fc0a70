//! Chains of trunks, read from the file of a database.

ghost use Rattle.std.specs.Prelude.{◌≡◌, ◌+◌, ◌-◌, ◌*◌, ◌/◌, ◌≤◌, ◌++◌, true, length, map, nat_le, OnOk};
ghost use Rattle.spe_model.specs.Big.{u32_at};
ghost use Rattle.spe_model.specs.Journal.{numbers_from};
ghost use Rattle.spe_model.specs.Settled.{IsWithinLimits};
ghost use Rattle.spe_model.specs.Standing.{IsOneOf};
ghost use Rattle.spe_model.specs.Faults.{HasCause};
ghost use Rattle.spe_model.specs.Walk.{is_one_of};
ghost use Rattle.spe_convert.specs.Reading.{HasReading, ReadsTrunk, ReadsTrunks, WhereHeld, usable_of};

use crate::fault::ConvertFault;
use spe_disk::{Disk, Failed, FileNo};
use spe_model::{Recovered, u32_of};
use std::alloc::AllocError;

/// Reads a page that there is.
pub fn read_page<D: Disk>(
    disk: &mut D,
    found: &Recovered,
    page: u32,
    buf: &mut [u8],
) -> Result<(), Failed>
    requires attached { D.attached disk.old ≡ true }
    requires inside { IsOneOf found.now.pages page }
    requires size { length buf.old ≡ found.now.page_size }
    ensures held { OnOk result (WhereHeld (D.told disk.old) found.now (λ pages. buf.new ≡ pages page)) }
    ensures same { D.told disk.new ≡ D.told disk.old }
    ensures attached { D.attached disk.new ≡ true }
    ensures cause { HasCause (D.read_faults disk.old) (D.read_faults disk.new) result }
    ensures operations { D.op_faults disk.new ≡ D.op_faults disk.old }
{
    let at = u64::from(page - 1) * u64::from(found.page_size);
    disk.read_at(FileNo::Database, at, buf)?;
    Ok(())
}

pub fn is_one_of(page: u32, count: u32) -> bool
    ensures { result ≡ is_one_of count page }
{
    1 <= page && page <= count
}

fn has_room(leaves: u32, usable: u32) -> bool
    requires { 480 ≤ usable }
    ensures { result ≡ nat_le leaves (usable / 4 - 2) }
{
    leaves <= usable / 4 - 2
}

// Keeps the pages that a trunk lists.
fn keep_leaves(free: &mut Vec<u32>, trunk: &[u8], count: usize) -> Result<(), AllocError>
    requires { 8 + 4 * count ≤ length trunk.now }
    ensures { OnOk result (free.new.items ≡ free.old.items ++ map (λ i. u32_at trunk.now (8 + 4 * i)) (numbers_from 0 count)) }
{
    for index in 0..count {
        free.push(u32_of(trunk, 8 + 4 * index))?;
    }
    Ok(())
}

// Reads a trunk, keeps it and the pages that it lists, and answers its next trunk.
fn read_trunk<D: Disk>(
    disk: &mut D,
    found: &Recovered,
    trunk: u32,
    buf: &mut [u8],
    free: &mut Vec<u32>,
) -> Result<u32, ConvertFault>
    requires attached { D.attached disk.old ≡ true }
    requires limits { IsWithinLimits found.now }
    requires size { length buf.old ≡ found.now.page_size }
    ensures read { WhereHeld (D.told disk.old) found.now (ReadsTrunk (usable_of found.now) found.now.pages trunk free.old.items free.new.items result) }
    ensures same { D.told disk.new ≡ D.told disk.old }
    ensures attached { D.attached disk.new ≡ true }
    ensures cause { HasReading (D.read_faults disk.old) (D.read_faults disk.new) result }
    ensures operations { D.op_faults disk.new ≡ D.op_faults disk.old }
{
    if !is_one_of(trunk, found.pages) {
        return Err(ConvertFault::Corrupt { page: trunk });
    }
    read_page(disk, found, trunk, buf)?;
    let leaves = u32_of(buf, 4);
    if !has_room(leaves, found.page_size - u32::from(found.reserved)) {
        return Err(ConvertFault::Corrupt { page: trunk });
    }
    free.push(trunk)?;
    keep_leaves(free, buf, leaves as usize)?;
    Ok(u32_of(buf, 0))
}

/// Reads the chain of trunks from the page `first` on, and keeps each trunk and the pages that it lists
/// behind those in `free`.
///
/// `buf` is one page long and is written over. Each trunk is read once, and no more are read than there
/// are pages. Corrupt names a trunk that breaks a rule.
pub fn read_trunks<D: Disk>(
    disk: &mut D,
    found: &Recovered,
    first: u32,
    buf: &mut [u8],
    free: &mut Vec<u32>,
) -> Result<(), ConvertFault>
    requires attached { D.attached disk.old ≡ true }
    requires limits { IsWithinLimits found.now }
    requires size { length buf.old ≡ found.now.page_size }
    ensures read { WhereHeld (D.told disk.old) found.now (ReadsTrunks (usable_of found.now) found.now.pages (found.now.pages + 1) first free.old.items free.new.items result) }
    ensures same { D.told disk.new ≡ D.told disk.old }
    ensures attached { D.attached disk.new ≡ true }
    ensures cause { HasReading (D.read_faults disk.old) (D.read_faults disk.new) result }
    ensures operations { D.op_faults disk.new ≡ D.op_faults disk.old }
{
    let mut most = u64::from(found.pages) + 1;
    let mut trunk = first;
    'trunks: while trunk != 0 {
        if most == 0 {
            return Err(ConvertFault::Corrupt { page: trunk });
        }
        trunk = match read_trunk(disk, found, trunk, buf, free) {
            Ok(next) => next,
            Err(fault) => return Err(fault),
        };
        most -= 1;
    }
    Ok(())
}
