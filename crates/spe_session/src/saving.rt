//! A transaction that ends saves the pages that it changes, as they are after all commits.

ghost use Rattle.std.specs.Prelude.{◌≡◌, ◌≤◌, ◌+◌, ℕ, None, Some, IfErr, OnErr, OnOk, true};
ghost use Rattle.spe_transactions.specs.Work.{has_page};
ghost use Rattle.spe_space.specs.Outcome.{IsInside};
ghost use Rattle.spe_store.specs.Call.{IsTied};
ghost use Rattle.spe_store.specs.Event.{journalled_in, open_in, written_in};
ghost use Rattle.spe_session.specs.Alone.{IsAlone};
ghost use Rattle.spe_session.specs.Pages.{bytes_at};
ghost use Rattle.spe_session.specs.Working.{AreSaved, IsFault, IsFirstWithin, ReadsFrom, Saves};

use crate::fault::{EndFault, end_fault};
use crate::page_set::PageSet;
use spe_disk::Disk;
use spe_store::{Opening, Pass, Store};

// The first page between two numbers that is kept, with its bytes.
pub(crate) fn first_within(dirty: &PageSet, from: u32, last: u32) -> Option<(u32, &[u8])>
    ensures { IsFirstWithin from last dirty.now result }
{
    match dirty.first_from(from) {
        Some((page, bytes)) => {
            if page <= last {
                return Some((page, bytes));
            }
            None
        }
        None => None,
    }
}

// Saves a page. Nothing is listed where it fails.
fn save_page<D: Disk, N: Opening>(
    store: &mut Store<D, N>,
    pass: &mut Pass,
    page: u32,
) -> Result<(), EndFault>
    requires tied { IsTied store.old pass.old }
    requires going { store.old.desk.stopped ≡ None }
    requires alone { IsAlone store.old.events pass.old.id }
    requires open { open_in store.old.events pass.old.id ≡ true }
    requires unwritten { (p : ℕ) → written_in store.old.events pass.old.id p ≡ None }
    requires inside { IsInside store.old.count page }
    ensures saved { OnOk result (has_page (journalled_in store.new.events) pass.old.id page ≡ true) }
    ensures saves { Saves pass.old.id store.old.events store.new.events }
    ensures going { OnOk result (store.new.desk.stopped ≡ None) }
    ensures fault { IfErr result (IsFault N.opened store.new) }
    ensures reads { IfErr result (ReadsFrom store.old.desk.reads store.new.desk.reads) }
    ensures later { store.old.desk.reads ≤ store.new.desk.reads }
    ensures tied { IsTied store.new pass.new }
    ensures id { pass.new.id ≡ pass.old.id }
    ensures sized { store.new.page_size ≡ store.old.page_size }
    ensures counted { store.new.count ≡ store.old.count }
{
    store.keeps();
    match store.journal(pass, page) {
        Ok(()) => Ok(()),
        Err(fault) => Err(end_fault(fault)),
    }
}

// Saves each page that was put, of those after all commits, in their order.
pub(crate) fn save_pages<D: Disk, N: Opening>(
    store: &mut Store<D, N>,
    pass: &mut Pass,
    dirty: &PageSet,
) -> Result<(), EndFault>
    requires tied { IsTied store.old pass.old }
    requires going { store.old.desk.stopped ≡ None }
    requires alone { IsAlone store.old.events pass.old.id }
    requires open { open_in store.old.events pass.old.id ≡ true }
    requires unwritten { (p : ℕ) → written_in store.old.events pass.old.id p ≡ None }
    requires numbered { bytes_at dirty.now 0 ≡ None }
    requires few { store.old.count ≤ 1073741824 }
    ensures saved { OnOk result (AreSaved (store.old.count + 1) store.old.count dirty.now store.new.events pass.old.id) }
    ensures saves { Saves pass.old.id store.old.events store.new.events }
    ensures going { OnOk result (store.new.desk.stopped ≡ None) }
    ensures fault { IfErr result (IsFault N.opened store.new) }
    ensures reads { IfErr result (ReadsFrom store.old.desk.reads store.new.desk.reads) }
    ensures later { store.old.desk.reads ≤ store.new.desk.reads }
    ensures tied { IsTied store.new pass.new }
    ensures id { pass.new.id ≡ pass.old.id }
    ensures sized { store.new.page_size ≡ store.old.page_size }
    ensures counted { store.new.count ≡ store.old.count }
{
    let count = store.count();
    let mut next = 1;
    while let Some((page, _)) = first_within(dirty, next, count) {
        match save_page(store, pass, page) {
            Ok(()) => (),
            Err(fault) => return Err(fault),
        }
        next = page + 1;
    }
    Ok(())
}
