//! A transaction that ends writes its pages.

ghost use Rattle.std.specs.Prelude.{◌≡◌, ◌≤◌, ◌*◌, ◌+◌, ◌<◌, ◌^◌, ℕ, List, None, Some, IfErr, OnErr, OnOk, is_some, length, replicate, true};
ghost use Rattle.spe_store.specs.Call.{IsTied};
ghost use Rattle.spe_store.specs.Event.{broken_in, open_in, seen_in, written_in};
ghost use Rattle.spe_session.specs.Alone.{IsAlone, IsReading};
ghost use Rattle.spe_session.specs.Ending.{FailsEnd, WasServed};
ghost use Rattle.spe_session.specs.Pages.{AreSized, AreUpTo, are_numbered, bytes_at, laid_in};
ghost use Rattle.spe_session.specs.Working.{AreSaved, BeginsSo, Carries, IsFault, IsWrittenTo, ReadsFrom, Writes};

use crate::fault::{EndFault, end_fault};
use crate::page_set::PageSet;
use crate::saving::save_pages;
use crate::writing::{write_added, write_pages};
use spe_disk::Disk;
use spe_store::{Opening, Pass, Store};
use std::alloc::Global;

// Drops the journal of a transaction that has written nothing, after a fault, and answers why it failed.
fn drop_saved<D: Disk, N: Opening>(
    store: &mut Store<D, N>,
    pass: &mut Pass,
    fault: EndFault,
) -> EndFault
    requires tied { IsTied store.old pass.old }
    requires alone { IsAlone store.old.events pass.old.id }
    requires unwritten { (p : ℕ) → written_in store.old.events pass.old.id p ≡ None }
    requires fault { IsFault N.opened store.old fault }
    requires unbroken { broken_in store.old.events ≡ None }
    ensures fault { IsFault N.opened store.new result }
    ensures reads { (before : ℕ) → ReadsFrom before store.old.desk.reads fault → ReadsFrom before store.new.desk.reads result }
    ensures fails { FailsEnd pass.old.id store.old store.new }
    ensures unbroken { broken_in store.new.events ≡ None }
    ensures tied { IsTied store.new pass.new }
    ensures id { pass.new.id ≡ pass.old.id }
    ensures counted { store.new.count ≡ store.old.count }
{
    match store.drop_journal(pass) {
        Ok(()) => fault,
        Err(fault) => end_fault(fault),
    }
}

// Opens the journal and saves each page that was put, of those after all commits. Where this fails the journal
// is dropped, if the store goes on.
fn save_all<D: Disk, N: Opening>(
    store: &mut Store<D, N>,
    pass: &mut Pass,
    dirty: &PageSet,
) -> Result<(), EndFault>
    requires tied { IsTied store.old pass.old }
    requires going { store.old.desk.stopped ≡ None }
    requires alone { IsAlone store.old.events pass.old.id }
    requires reading { IsReading store.old.events pass.old.id }
    requires unwritten { (p : ℕ) → written_in store.old.events pass.old.id p ≡ None }
    requires unbroken { broken_in store.old.events ≡ None }
    requires numbered { bytes_at dirty.now 0 ≡ None }
    requires few { store.old.count ≤ 1073741824 }
    ensures saved { OnOk result (AreSaved (store.old.count + 1) store.old.count dirty.now store.new.events pass.old.id) }
    ensures unwritten { OnOk result ((p : ℕ) → written_in store.new.events pass.old.id p ≡ None) }
    ensures carries { OnOk result (Carries pass.old.id store.old.events store.new.events) }
    ensures going { OnOk result (store.new.desk.stopped ≡ None) }
    ensures fault { IfErr result (IsFault N.opened store.new) }
    ensures reads { IfErr result (ReadsFrom store.old.desk.reads store.new.desk.reads) }
    ensures fails { OnErr result (FailsEnd pass.old.id store.old store.new) }
    ensures unbroken { broken_in store.new.events ≡ None }
    ensures tied { IsTied store.new pass.new }
    ensures id { pass.new.id ≡ pass.old.id }
    ensures sized { store.new.page_size ≡ store.old.page_size }
    ensures counted { store.new.count ≡ store.old.count }
{
    match store.open_journal(pass) {
        Ok(()) => (),
        Err(fault) => return Err(end_fault(fault)),
    }
    match save_pages(store, pass, dirty) {
        Ok(()) => Ok(()),
        Err(fault) => Err(drop_saved(store, pass, fault)),
    }
}

// Writes each page that was put or added. A stop is the one fault that can come.
fn write_all<D: Disk, N: Opening>(
    store: &mut Store<D, N>,
    pass: &mut Pass,
    dirty: &PageSet,
    zeros: &[u8],
    pages: u32,
) -> Result<(), EndFault>
    requires tied { IsTied store.old pass.old }
    requires going { store.old.desk.stopped ≡ None }
    requires some { 1 ≤ store.old.count }
    requires few { store.old.count ≤ 1073741824 }
    requires more { store.old.count ≤ pages }
    requires size { AreSized store.old.page_size dirty.now }
    requires zeros { zeros.now ≡ replicate store.old.page_size 0 }
    requires served { WasServed N.opened }
    requires front { (bytes : List ℕ) → bytes_at dirty.now 1 ≡ Some bytes → BeginsSo (seen_in store.old.events pass.old.id) bytes }
    requires numbered { are_numbered store.old.count pages dirty.now ≡ true }
    requires unwritten { (p : ℕ) → written_in store.old.events pass.old.id p ≡ None }
    requires saved { AreSaved (store.old.count + 1) store.old.count dirty.now store.old.events pass.old.id }
    ensures written { OnOk result (IsWrittenTo (pages + 1) (laid_in store.old.count pages store.old.page_size dirty.now) (written_in store.new.events pass.old.id)) }
    ensures writes { Writes pass.old.id store.old.events store.new.events }
    ensures going { OnOk result (store.new.desk.stopped ≡ None) }
    ensures fault { IfErr result (IsFault N.opened store.new) }
    ensures stops { OnErr result (is_some store.new.desk.stopped ≡ true) }
    ensures tied { IsTied store.new pass.new }
    ensures id { pass.new.id ≡ pass.old.id }
    ensures sized { store.new.page_size ≡ store.old.page_size }
    ensures counted { store.new.count ≡ store.old.count }
{
    match write_pages(store, pass, dirty) {
        Ok(()) => write_added(store, pass, dirty, zeros, pages),
        Err(fault) => Err(fault),
    }
}

// Saves and writes all that was put or added, where something was. All memory that is needed for what is
// written is taken first.
pub(crate) fn put_all<D: Disk, N: Opening>(
    store: &mut Store<D, N>,
    pass: &mut Pass,
    dirty: &PageSet,
    pages: u32,
    size: u32,
    alloc: Global,
) -> Result<(), EndFault>
    requires tied { IsTied store.old pass.old }
    requires going { store.old.desk.stopped ≡ None }
    requires alone { IsAlone store.old.events pass.old.id }
    requires reading { IsReading store.old.events pass.old.id }
    requires unwritten { (p : ℕ) → written_in store.old.events pass.old.id p ≡ None }
    requires unbroken { broken_in store.old.events ≡ None }
    requires some { 1 ≤ store.old.count }
    requires few { pages ≤ 1073741824 }
    requires more { store.old.count ≤ pages }
    requires of_store { store.old.page_size ≡ size }
    requires size { AreSized size dirty.now }
    requires placed { AreUpTo pages dirty.now }
    requires served { WasServed N.opened }
    requires front { (bytes : List ℕ) → bytes_at dirty.now 1 ≡ Some bytes → BeginsSo (seen_in store.old.events pass.old.id) bytes }
    requires numbered { are_numbered store.old.count pages dirty.now ≡ true }
    ensures written { OnOk result ((p : ℕ) → written_in store.new.events pass.old.id p ≡ laid_in store.old.count pages size dirty.now p) }
    ensures carries { OnOk result (Carries pass.old.id store.old.events store.new.events) }
    ensures going { OnOk result (store.new.desk.stopped ≡ None) }
    ensures fault { IfErr result (IsFault N.opened store.new) }
    ensures reads { IfErr result (ReadsFrom store.old.desk.reads store.new.desk.reads) }
    ensures fails { OnErr result (FailsEnd pass.old.id store.old store.new) }
    ensures unbroken { broken_in store.new.events ≡ None }
    ensures tied { IsTied store.new pass.new }
    ensures id { pass.new.id ≡ pass.old.id }
    ensures sized { store.new.page_size ≡ store.old.page_size }
    ensures counted { store.new.count ≡ store.old.count }
{
    if dirty.first_from(0).is_none() {
        return Ok(());
    }
    let Ok(zeros) = Vec::from_elem(alloc, 0, size as usize) else {
        return Err(EndFault::Memory);
    };
    match save_all(store, pass, dirty) {
        Ok(()) => write_all(store, pass, dirty, zeros.as_slice(), pages),
        Err(fault) => Err(fault),
    }
}
