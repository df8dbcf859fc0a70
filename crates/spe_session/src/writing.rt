//! A transaction that ends writes the pages that it changes.

ghost use Rattle.std.specs.Prelude.{◌≡◌, ◌≤◌, ◌+◌, ℕ, None, Some, ◌<◌, List, IfErr, OnErr, OnOk, is_some, length, replicate, true, unwrap_or};
ghost use Rattle.spe_transactions.specs.Work.{has_page};
ghost use Rattle.spe_store.specs.Call.{IsTied, MayWrite};
ghost use Rattle.spe_store.specs.Event.{journalled_in, seen_in, written_in};
ghost use Rattle.spe_session.specs.Pages.{AreSized, bytes_at, laid_in};
ghost use Rattle.spe_session.specs.Ending.{WasServed};
ghost use Rattle.spe_session.specs.Working.{AreSaved, BeginsSo, IsFault, IsWrittenTo, Writes, WritesOne};

use crate::fault::{EndFault, end_fault};
use crate::page_set::PageSet;
use crate::saving::first_within;
use spe_disk::Disk;
use spe_store::{Opening, Pass, Store};

// Writes a page. Nothing is listed where it fails.
fn write_page<D: Disk, N: Opening>(
    store: &mut Store<D, N>,
    pass: &mut Pass,
    page: u32,
    bytes: &[u8],
) -> Result<(), EndFault>
    requires size { length bytes.now ≡ store.old.page_size }
    requires tied { IsTied store.old pass.old }
    requires going { store.old.desk.stopped ≡ None }
    requires some { 1 ≤ store.old.count }
    requires front { page ≡ 1 → BeginsSo (seen_in store.old.events pass.old.id) bytes.now }
    requires may { MayWrite N.opened store.old pass.old.id page }
    ensures writes { OnOk result (WritesOne pass.old.id page bytes.now store.old.events store.new.events) }
    ensures same { OnErr result (store.new.events ≡ store.old.events) }
    ensures going { OnOk result (store.new.desk.stopped ≡ None) }
    ensures fault { IfErr result (IsFault N.opened store.new) }
    ensures stops { OnErr result (is_some store.new.desk.stopped ≡ true) }
    ensures tied { IsTied store.new pass.new }
    ensures id { pass.new.id ≡ pass.old.id }
    ensures sized { store.new.page_size ≡ store.old.page_size }
    ensures counted { store.new.count ≡ store.old.count }
{
    store.keeps();
    match store.write(pass, page, bytes) {
        Ok(()) => Ok(()),
        Err(fault) => Err(end_fault(fault)),
    }
}

// Writes each page that was put, of those after all commits, in their order.
pub(crate) fn write_pages<D: Disk, N: Opening>(
    store: &mut Store<D, N>,
    pass: &mut Pass,
    dirty: &PageSet,
) -> Result<(), EndFault>
    requires tied { IsTied store.old pass.old }
    requires going { store.old.desk.stopped ≡ None }
    requires some { 1 ≤ store.old.count }
    requires few { store.old.count ≤ 1073741824 }
    requires size { AreSized store.old.page_size dirty.now }
    requires front { (bytes : List ℕ) → bytes_at dirty.now 1 ≡ Some bytes → BeginsSo (seen_in store.old.events pass.old.id) bytes }
    requires numbered { bytes_at dirty.now 0 ≡ None }
    requires unwritten { (p : ℕ) → written_in store.old.events pass.old.id p ≡ None }
    requires saved { AreSaved (store.old.count + 1) store.old.count dirty.now store.old.events pass.old.id }
    ensures written { OnOk result (IsWrittenTo (store.old.count + 1) (bytes_at dirty.now) (written_in store.new.events pass.old.id)) }
    ensures writes { Writes pass.old.id store.old.events store.new.events }
    ensures going { OnOk result (store.new.desk.stopped ≡ None) }
    ensures fault { IfErr result (IsFault N.opened store.new) }
    ensures stops { OnErr result (is_some store.new.desk.stopped ≡ true) }
    ensures tied { IsTied store.new pass.new }
    ensures id { pass.new.id ≡ pass.old.id }
    ensures sized { store.new.page_size ≡ store.old.page_size }
    ensures counted { store.new.count ≡ store.old.count }
{
    let count = store.count();
    let mut next = 1;
    while let Some((page, bytes)) = first_within(dirty, next, count) {
        match write_page(store, pass, page, bytes) {
            Ok(()) => (),
            Err(fault) => return Err(fault),
        }
        next = page + 1;
    }
    Ok(())
}

// The bytes of a page that was added: those that were put, or else zeros.
fn added_bytes<'a>(dirty: &'a PageSet, zeros: &'a [u8], page: u32) -> &'a [u8]
    ensures { result.now ≡ unwrap_or (bytes_at dirty.now page) zeros.now }
{
    match dirty.get(page) {
        Some(bytes) => bytes,
        None => zeros,
    }
}

// Writes each page that was added, as it was put or as zeros, in their order.
pub(crate) fn write_added<D: Disk, N: Opening>(
    store: &mut Store<D, N>,
    pass: &mut Pass,
    dirty: &PageSet,
    zeros: &[u8],
    pages: u32,
) -> Result<(), EndFault>
    requires tied { IsTied store.old pass.old }
    requires going { store.old.desk.stopped ≡ None }
    requires some { 1 ≤ store.old.count }
    requires more { store.old.count ≤ pages }
    requires size { AreSized store.old.page_size dirty.now }
    requires zeros { zeros.now ≡ replicate store.old.page_size 0 }
    requires served { WasServed N.opened }
    requires first { store.old.count < pages → has_page (journalled_in store.old.events) pass.old.id 1 ≡ true }
    requires written { IsWrittenTo (store.old.count + 1) (laid_in store.old.count pages store.old.page_size dirty.now) (written_in store.old.events pass.old.id) }
    ensures written { OnOk result (IsWrittenTo (pages + 1) (laid_in store.old.count pages store.old.page_size dirty.now) (written_in store.new.events pass.old.id)) }
    ensures writes { Writes pass.old.id store.old.events store.new.events }
    ensures going { OnOk result (store.new.desk.stopped ≡ None) }
    ensures fault { IfErr result (IsFault N.opened store.new) }
    ensures stops { OnErr result (is_some store.new.desk.stopped ≡ true) }
    ensures tied { IsTied store.new pass.new }
    ensures id { pass.new.id ≡ pass.old.id }
    ensures sized { store.new.page_size ≡ store.old.page_size }
    ensures counted { store.new.count ≡ store.old.count }
{
    let mut page = store.count();
    while page < pages {
        page += 1;
        store.keeps();
        match write_page(store, pass, page, added_bytes(dirty, zeros, page)) {
            Ok(()) => (),
            Err(fault) => return Err(fault),
        }
    }
    Ok(())
}
