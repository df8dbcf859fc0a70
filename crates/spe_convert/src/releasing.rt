//! Free lists put back in stock form.

ghost use Rattle.std.specs.Prelude.{◌≡◌, ◌≢◌, ◌≤◌, ◌∷◌, true, length, IfErr, IfOk};
ghost use Rattle.spe_model.specs.Settled.{IsWithinLimits, page_in};
ghost use Rattle.spe_disk.specs.Told.{absent_journals, makings};
ghost use Rattle.spe_rewrite.specs.Changes.{AreChanges};
ghost use Rattle.spe_disk.specs.Added.{AddsSome, IfTold, Makes};
ghost use Rattle.spe_convert.specs.Causes.{HasReleaseCause, fault_of};
ghost use Rattle.spe_convert.specs.Changes.{front_change, released_changes};
ghost use Rattle.spe_convert.specs.declared.fault.ConvertFault.TheVariants.{Disk};
ghost use Rattle.spe_convert.specs.Free.{IsDamage};
ghost use Rattle.spe_convert.specs.Reading.{HasPlainReading, HasReading, WhereHeld, are_ascending, usable_of};
ghost use Rattle.spe_convert.specs.Release.{AreFound, IsPart, IsWhole, Plans, Rests, WhereFound, WhereResting, making_first, releasing};

use crate::fault::ConvertFault;
use crate::free::read_free;
use crate::page::front_page;
use crate::stock::{chain_changes, first_of};
use crate::trunks::read_page;
use spe_crash::recovered_pages;
use spe_disk::Disk;
use spe_model::Recovered;
use spe_rewrite::{Change, Changes, RewriteFault, make_journals, rewrite};
use std::alloc::Global;

// How many free pages there are.
#[tactic(auto, using(crate::proofs::AscendLemmas::few_ascending))]
fn count_of(free: &[u32], pages: u32) -> u32
    requires { are_ascending 1 pages free.now ≡ true }
    ensures { result ≡ length free.now }
{
    free.len() as u32
}

// Page 1 with these free pages as one list in stock form.
fn front_change<D: Disk>(
    alloc: Global,
    disk: &mut D,
    found: &Recovered,
    free: &[u32],
    buf: &mut [u8],
) -> Result<Change, ConvertFault>
    requires attached { D.attached disk.old ≡ true }
    requires limits { IsWithinLimits found.now }
    requires size { length buf.old ≡ found.now.page_size }
    requires ascending { are_ascending 1 found.now.pages free.now ≡ true }
    ensures made { IfOk result (λ change. WhereHeld (D.told disk.old) found.now (λ pages. change ≡ front_change found.now.pages free.now pages)) }
    ensures page { IfOk result (λ change. change.page ≡ 1) }
    ensures sized { IfOk result (λ change. length change.bytes ≡ found.now.page_size) }
    ensures same { D.told disk.new ≡ D.told disk.old }
    ensures attached { D.attached disk.new ≡ true }
    ensures cause { HasPlainReading (D.read_faults disk.old) (D.read_faults disk.new) result }
    ensures operations { D.op_faults disk.new ≡ D.op_faults disk.old }
{
    read_page(disk, found, 1, buf)?;
    let first = first_of(free);
    let count = count_of(free, found.pages);
    let bytes = front_page(alloc, found.pages, first, count, buf)?;
    Ok(Change { page: 1, bytes })
}

// The pages that change where these free pages are put in stock form.
fn stock_changes<D: Disk>(
    alloc: Global,
    disk: &mut D,
    found: &Recovered,
    free: &[u32],
    buf: &mut [u8],
) -> Result<Changes, ConvertFault>
    requires attached { D.attached disk.old ≡ true }
    requires limits { IsWithinLimits found.now }
    requires size { length buf.old ≡ found.now.page_size }
    requires ascending { are_ascending 1 found.now.pages free.now ≡ true }
    ensures made { IfOk result (λ changes. WhereHeld (D.told disk.old) found.now (λ pages. changes ≡ released_changes (usable_of found.now) found.now.pages free.now pages)) }
    ensures changes { IfOk result (AreChanges found.now.page_size) }
    ensures same { D.told disk.new ≡ D.told disk.old }
    ensures attached { D.attached disk.new ≡ true }
    ensures cause { HasPlainReading (D.read_faults disk.old) (D.read_faults disk.new) result }
    ensures operations { D.op_faults disk.new ≡ D.op_faults disk.old }
{
    let front = match front_change(alloc, disk, found, free, buf) {
        Ok(front) => front,
        Err(fault) => return Err(fault),
    };
    let mut changes = Vec::new(alloc);
    changes.push(front)?;
    match chain_changes(alloc, disk, found, free, buf, &mut changes) {
        Ok(()) => Ok(Changes::new(changes)),
        Err(fault) => Err(fault),
    }
}

// How many free pages there are, and the pages that change where they are put in stock form.
fn plan<D: Disk>(
    alloc: Global,
    disk: &mut D,
    found: &Recovered,
) -> Result<(u32, Changes), ConvertFault>
    requires attached { D.attached disk.old ≡ true }
    requires limits { IsWithinLimits found.now }
    ensures plans { IfOk result (λ plan. Plans found.now (D.told disk.old) plan.0 plan.1) }
    ensures changes { IfOk result (λ plan. AreChanges found.now.page_size plan.1) }
    ensures sound { IfErr result (λ fault. WhereHeld (D.told disk.old) found.now (IsDamage (usable_of found.now) found.now.pages fault)) }
    ensures same { D.told disk.new ≡ D.told disk.old }
    ensures attached { D.attached disk.new ≡ true }
    ensures cause { HasReading (D.read_faults disk.old) (D.read_faults disk.new) result }
    ensures operations { D.op_faults disk.new ≡ D.op_faults disk.old }
{
    let mut buf = vec![in alloc; 0u8; found.page_size as usize]?;
    let free = match read_free(alloc, disk, found, &mut buf) {
        Ok(free) => free,
        Err(fault) => return Err(fault),
    };
    let changes = match stock_changes(alloc, disk, found, free.as_slice(), &mut buf) {
        Ok(changes) => changes,
        Err(fault) => return Err(fault),
    };
    let count = count_of(free.as_slice(), found.pages);
    Ok((count, changes))
}

pub fn fault_of(fault: RewriteFault) -> ConvertFault
    ensures { result ≡ fault_of fault }
{
    match fault {
        RewriteFault::Disk => ConvertFault::Disk,
        RewriteFault::Memory => ConvertFault::Memory,
    }
}

// Puts free lists in stock form, where no journal has bytes and so many operations were made.
fn release_pages<D: Disk>(
    alloc: Global,
    disk: &mut D,
    found: &Recovered,
    made: u64,
) -> Result<u32, ConvertFault>
    requires attached { D.attached disk.old ≡ true }
    requires limits { IsWithinLimits found.now }
    requires rests { IfTold (D.told disk.old) (Rests found.now) }
    ensures whole { IfOk result (λ count. WhereResting (D.told disk.old) found.now (λ content pages. IsWhole found.now pages (releasing found.now made content pages) (D.told disk.old) (D.told disk.new) count)) }
    ensures stops { WhereResting (D.told disk.old) found.now (λ content pages. AddsSome (D.told disk.old) (D.told disk.new) (IsPart found.now content pages (releasing found.now made content pages))) }
    ensures sound { IfErr result (λ fault. WhereHeld (D.told disk.old) found.now (IsDamage (usable_of found.now) found.now.pages fault)) }
    ensures untouched { IfErr result (λ fault. fault ≢ Disk → D.told disk.new ≡ D.told disk.old) }
    ensures cause { HasReleaseCause (D.read_faults disk.old) (D.read_faults disk.new) (D.op_faults disk.old) (D.op_faults disk.new) result }
    ensures attached { D.attached disk.new ≡ true }
{
    // The laws that the clauses on the files rest on.
    recovered_pages();
    let (count, changes) = match plan(alloc, disk, found) {
        Ok(plan) => plan,
        Err(fault) => return Err(fault),
    };
    match rewrite(alloc, disk, found.page_size, found.pages, made, &changes) {
        Ok(_) => Ok(count),
        Err(fault) => Err(fault_of(fault)),
    }
}

/// Puts the free lists of a recovered database back in stock form, in one transaction of journal 0, and
/// answers how many free pages there are.
///
/// Each journal that is absent is made first. The node page, the trunks and all that these list then make
/// one list, the first of them a trunk with as many next ones as leaves as are written to one at most, and
/// so on; page 1 names it, its change counter is raised by one, and its page count is valid. All other
/// bytes stay. The operations are those of `rewrite` of `spe_rewrite`: the head of the journal, a record of
/// each page that changes, the pages, and the cut of the journal.
///
/// `Corrupt` names a page of the free lists that breaks a rule, and never comes where the pages stand for a
/// database. But for `Disk` a refusal makes the journals alone. `Disk` is answered only where the disk
/// failed: some first operations were made then, and the recovered pages are those before, or the new ones
/// where the cut of the journal was made all the same.
///
/// In memory it holds the numbers of the free pages and the pages that change, and not the file.
pub fn release<D: Disk>(alloc: Global, disk: &mut D, found: &Recovered) -> Result<u32, ConvertFault>
    requires attached { D.attached disk.old ≡ true }
    requires limits { IsWithinLimits found.now }
    requires found { IfTold (D.told disk.old) (AreFound found.now) }

    // What was done, and the files then: the rows are those before.
    ensures whole { IfOk result (λ count. WhereFound (D.told disk.old) found.now (λ content pages. IsWhole found.now pages (making_first found.now content pages) (D.told disk.old) (D.told disk.new) count)) }

    // What it leaves, whatever it answers and wherever a stop cuts it: the old rows or the new pages.
    ensures stops { WhereFound (D.told disk.old) found.now (λ content pages. AddsSome (D.told disk.old) (D.told disk.new) (IsPart found.now content pages (making_first found.now content pages))) }

    // Why it is refused.
    ensures sound { IfErr result (λ fault. WhereFound (D.told disk.old) found.now (λ content pages. IsDamage (usable_of found.now) found.now.pages fault (page_in pages))) }
    ensures untouched { IfErr result (λ fault. fault ≢ Disk → Makes (D.told disk.old) (D.told disk.new) (λ content. makings (absent_journals content))) }
    ensures cause { HasReleaseCause (D.read_faults disk.old) (D.read_faults disk.new) (D.op_faults disk.old) (D.op_faults disk.new) result }
    ensures attached { D.attached disk.new ≡ true }
{
    // The laws that the clauses on the files rest on.
    recovered_pages();
    let made = make_journals(disk, found.ops)?;
    release_pages(alloc, disk, found, made)
}
