//! Free lists put in server form.

ghost use Rattle.std.specs.Prelude.{◌≡◌, ◌≢◌, ◌≤◌, ℕ, true, length, take, if◌then◌else◌, ◌∷◌, [], ◌&&◌, ◌==◌, not, IfErr, IfOk};
ghost use Rattle.spe_model.specs.Header.{fields, is_size_valid};
ghost use Rattle.spe_model.specs.Settled.{IsWithinLimits, page_in};
ghost use Rattle.spe_rewrite.specs.Changes.{AreChanges};
ghost use Rattle.spe_disk.specs.Added.{AddsSome, IfTold};
ghost use Rattle.spe_convert.specs.Causes.{HasPrepareCause, HasRefusing};
ghost use Rattle.spe_convert.specs.Changes.{counted_page};
ghost use Rattle.spe_convert.specs.declared.fault.ConvertFault.TheVariants.{Disk, Memory};
ghost use Rattle.spe_convert.specs.Free.{IsDamage};
ghost use Rattle.spe_convert.specs.Made.{change_with};
ghost use Rattle.spe_convert.specs.Prepare.{IsAllPrepared, IsFullWhere, IsNoneOrPart, IsPreparedExactly, PlansServer, Refuses, count_changes, making_and_preparing};
ghost use Rattle.spe_convert.specs.Reading.{HasPlainReading, WhereHeld, usable_of};
ghost use Rattle.spe_convert.specs.Release.{AreFound, WhereFound};

use crate::fault::ConvertFault;
use crate::free::{is_list_count, names_node, read_free};
use crate::page::counted_page;
use crate::releasing::fault_of;
use crate::server::{room_for, server_changes};
use crate::trunks::{is_one_of, read_page};
use spe_crash::recovered_pages;
use spe_disk::Disk;
use spe_model::{Recovered, u32_of};
use spe_rewrite::{Change, Changes, make_journals, rewrite};
use std::alloc::{AllocError, Global};

// What is to be done: the pages that change so that the page count counts, those that change then, and
// how many pages there are at the end.
#[derive(Debug, Drop)]
struct Planned {
    first: Changes,
    second: Changes,
    count: u32,
}

// A page count counts where it is not 0 and was written with the last change.
fn counts(pages: u32, change: u32, valid_for: u32) -> bool
    ensures { result ≡ (not (pages == 0) && (change == valid_for)) }
{
    pages != 0 && change == valid_for
}

fn is_counted(page: &[u8]) -> bool
    requires { 100 ≤ length page.now }
    ensures { result ≡ is_size_valid (fields (take 100 page.now)) }
{
    let pages = u32_of(page, 28);
    let change = u32_of(page, 24);
    let valid_for = u32_of(page, 92);
    counts(pages, change, valid_for)
}

// Page 1 with this page count, which counts; nothing where it counts as it is.
fn counted_front(alloc: Global, count: u32, page: &[u8]) -> Result<Changes, AllocError>
    requires { 100 ≤ length page.now }
    ensures made { IfOk result (λ changes. changes ≡ (if is_size_valid (fields (take 100 page.now)) then [] else change_with 1 (counted_page count page.now) ∷ [])) }
    ensures changes { IfOk result (AreChanges (length page.now)) }
{
    let mut changes = Vec::new(alloc);
    if is_counted(page) {
        return Ok(Changes::new(changes));
    }
    let bytes = counted_page(alloc, count, page)?;
    changes.push(Change { page: 1, bytes })?;
    Ok(Changes::new(changes))
}

// What changes so that the page count counts.
fn count_changes<D: Disk>(
    alloc: Global,
    disk: &mut D,
    found: &Recovered,
    buf: &mut [u8],
) -> Result<Changes, ConvertFault>
    requires attached { D.attached disk.old ≡ true }
    requires limits { IsWithinLimits found.now }
    requires size { length buf.old ≡ found.now.page_size }
    ensures made { IfOk result (λ changes. WhereHeld (D.told disk.old) found.now (λ pages. changes ≡ count_changes found.now.pages pages)) }
    ensures changes { IfOk result (AreChanges found.now.page_size) }
    ensures same { D.told disk.new ≡ D.told disk.old }
    ensures attached { D.attached disk.new ≡ true }
    ensures cause { HasPlainReading (D.read_faults disk.old) (D.read_faults disk.new) result }
    ensures operations { D.op_faults disk.new ≡ D.op_faults disk.old }
{
    read_page(disk, found, 1, buf)?;
    let changes = counted_front(alloc, found.pages, buf)?;
    Ok(changes)
}

// Refuses free lists that are in server form.
fn refuse_server<D: Disk>(
    disk: &mut D,
    found: &Recovered,
    buf: &mut [u8],
) -> Result<(), ConvertFault>
    requires attached { D.attached disk.old ≡ true }
    requires limits { IsWithinLimits found.now }
    requires size { length buf.old ≡ found.now.page_size }
    ensures refused { WhereHeld (D.told disk.old) found.now (λ pages. (lists : ℕ) → Refuses found.now lists result pages) }
    ensures buf { length buf.new ≡ length buf.old }
    ensures same { D.told disk.new ≡ D.told disk.old }
    ensures attached { D.attached disk.new ≡ true }
    ensures cause { HasRefusing (D.read_faults disk.old) (D.read_faults disk.new) result }
    ensures operations { D.op_faults disk.new ≡ D.op_faults disk.old }
{
    read_page(disk, found, 1, buf)?;
    if !names_node(buf) {
        return Ok(());
    }
    let node = u32_of(buf, 32);
    if !is_one_of(node, found.pages) {
        return Err(ConvertFault::Corrupt { page: node });
    }
    read_page(disk, found, node, buf)?;
    let lists = u32_of(buf, 0);
    if !is_list_count(lists) {
        return Err(ConvertFault::Corrupt { page: node });
    }
    Err(ConvertFault::Prepared)
}

// What is to be done, or why the free lists are refused.
fn plan_server<D: Disk>(
    alloc: Global,
    disk: &mut D,
    found: &Recovered,
    lists: u32,
) -> Result<Planned, ConvertFault>
    requires attached { D.attached disk.old ≡ true }
    requires limits { IsWithinLimits found.now }
    requires some { 1 ≤ lists }
    requires few { lists ≤ 16 }
    ensures plans { IfOk result (λ plan. PlansServer found.now lists (D.told disk.old) plan.count plan.first plan.second) }
    ensures first { IfOk result (λ plan. AreChanges found.now.page_size plan.first) }
    ensures second { IfOk result (λ plan. AreChanges found.now.page_size plan.second) }
    ensures refused { WhereHeld (D.told disk.old) found.now (Refuses found.now lists result) }
    ensures same { D.told disk.new ≡ D.told disk.old }
    ensures attached { D.attached disk.new ≡ true }
    ensures cause { HasRefusing (D.read_faults disk.old) (D.read_faults disk.new) result }
    ensures operations { D.op_faults disk.new ≡ D.op_faults disk.old }
{
    let mut buf = vec![in alloc; 0u8; found.page_size as usize]?;
    match refuse_server(disk, found, &mut buf) {
        Ok(()) => (),
        Err(fault) => return Err(fault),
    }
    let free = match read_free(alloc, disk, found, &mut buf) {
        Ok(free) => free,
        Err(fault) => return Err(fault),
    };
    let added = match room_for(found, lists, free.as_slice()) {
        Ok(added) => added,
        Err(fault) => return Err(fault),
    };
    let first = match count_changes(alloc, disk, found, &mut buf) {
        Ok(first) => first,
        Err(fault) => return Err(fault),
    };
    let second = match server_changes(alloc, disk, found, lists, free.as_slice(), added, &mut buf) {
        Ok(second) => second,
        Err(fault) => return Err(fault),
    };
    let count = found.pages + added;
    Ok(Planned {
        first,
        second,
        count,
    })
}

/// Puts the free lists of a recovered database in server form, in so many lists, and answers how many
/// pages there are then.
///
/// `lists` is 1 to 16. The free pages are taken in ascending order, with new ones at the end of the file
/// until there is one for the node page and one for each list. The first becomes the node page, the next
/// ones the first trunks; the j-th of the rest, from 0, is freed into list j modulo `lists`. Page 1 names
/// the node page, its change counter is raised by one, and its page count is valid. All other bytes stay.
///
/// Each journal that is absent is made first. Where the page count that page 1 names is not valid, one
/// transaction of journal 0 makes it so, as pages are added only above a page count that is valid. A
/// second one does all else. The operations of each are those of `rewrite` of `spe_rewrite`. The form of
/// the lists is this project's own.
///
/// `Full` and `Prepared` are answered before any operation, and so is `Corrupt`, which names a page of the
/// free lists that breaks a rule, and never comes where the pages stand for a database. `Disk` is answered
/// only where the disk failed. Then, and after `Memory`, some first operations were made, and the recovered
/// pages are those before, those with a valid page count, or the new ones where the last operation was made
/// all the same.
///
/// In memory it holds the numbers of the free pages and the pages that change, and not the file.
pub fn prepare<D: Disk>(
    alloc: Global,
    disk: &mut D,
    found: &Recovered,
    lists: u32,
) -> Result<u32, ConvertFault>
    requires attached { D.attached disk.old ≡ true }
    requires limits { IsWithinLimits found.now }
    requires some { 1 ≤ lists }
    requires few { lists ≤ 16 }
    requires found { IfTold (D.told disk.old) (AreFound found.now) }

    // What was done, and the files then: the rows are those before.
    ensures whole { IfOk result (λ count. WhereFound (D.told disk.old) found.now (λ content pages. IsAllPrepared found.now lists pages (making_and_preparing found.now lists content pages) (D.told disk.old) (D.told disk.new) count)) }

    // What it leaves, whatever it answers and wherever a stop cuts it.
    ensures stops { WhereFound (D.told disk.old) found.now (λ content pages. AddsSome (D.told disk.old) (D.told disk.new) (IsNoneOrPart found.now lists content pages (making_and_preparing found.now lists content pages))) }

    // Why it is refused.
    ensures prepared { WhereFound (D.told disk.old) found.now (λ content pages. IsPreparedExactly result (page_in pages)) }
    ensures full { WhereFound (D.told disk.old) found.now (λ content pages. IsFullWhere found.now lists result (page_in pages)) }
    ensures sound { IfErr result (λ fault. WhereFound (D.told disk.old) found.now (λ content pages. IsDamage (usable_of found.now) found.now.pages fault (page_in pages))) }
    ensures untouched { IfErr result (λ fault. fault ≢ Disk → fault ≢ Memory → D.told disk.new ≡ D.told disk.old) }
    ensures cause { HasPrepareCause (D.read_faults disk.old) (D.read_faults disk.new) (D.op_faults disk.old) (D.op_faults disk.new) result }
    ensures attached { D.attached disk.new ≡ true }
{
    // The laws that the clauses on the files rest on.
    recovered_pages();
    let plan = match plan_server(alloc, disk, found, lists) {
        Ok(plan) => plan,
        Err(fault) => return Err(fault),
    };
    let made = match make_journals(disk, found.ops) {
        Ok(made) => made,
        Err(_) => return Err(ConvertFault::Disk),
    };
    let counted = match rewrite(alloc, disk, found.page_size, found.pages, made, &plan.first) {
        Ok(counted) => counted,
        Err(fault) => return Err(fault_of(fault)),
    };
    match rewrite(
        alloc,
        disk,
        found.page_size,
        found.pages,
        counted,
        &plan.second,
    ) {
        Ok(_) => Ok(plan.count),
        Err(fault) => Err(fault_of(fault)),
    }
}
