//! A record of a page, as the file has it.

ghost use Rattle.std.specs.Prelude.{◌≡◌, ◌+◌, ◌<◌, ◌≤◌, length, None, IfOk, IfErr};
ghost use Rattle.spe_model.specs.Journal.{record_bytes};
ghost use Rattle.spe_store.specs.Desk.{Looks, ReadsPage};
ghost use Rattle.spe_store.specs.Mishap.{IsMishap};

use crate::desk::Desk;
use crate::stop::Mishap;
use spe_disk::Disk;
use spe_journal::put_record;
use spe_model::Bytes;
use std::alloc::Global;

/// Where a record is written, and what it saves.
#[derive(Clone, Copy, Drop)]
pub(crate) struct Place {
    pub(crate) nonce: u32,
    pub(crate) page: u32,
    pub(crate) at: u64,
}

/// A record with the bytes that it saves, and where it ends.
#[derive(Drop)]
pub(crate) struct Entry {
    pub(crate) old: Bytes,
    pub(crate) text: Vec<u8>,
    pub(crate) end: u64,
}

/// The record of a page as it is in the file.
pub(crate) fn entry_of<D: Disk>(
    desk: &mut Desk<D>,
    alloc: Global,
    page_size: u32,
    place: Place,
) -> Result<Entry, Mishap>
    requires going { desk.old.stopped ≡ None }
    requires high { page_size ≤ 65536 }
    ensures looks { Looks desk.old desk.new }
    ensures read { IfOk result (λ e. ReadsPage desk.old.told page_size place.page e.old) }
    ensures sized { IfOk result (λ e. length e.old ≡ page_size) }
    ensures text { IfOk result (λ e. e.text.items ≡ record_bytes place.nonce place.page e.old) }
    ensures end { IfOk result (λ e. e.end ≡ place.at + page_size + 8) }
    ensures refused { IfErr result (IsMishap desk.old desk.new) }
{
    let size = page_size as usize;
    let Ok(mut old) = Vec::from_elem(alloc, 0, size) else {
        return Err(Mishap::Memory);
    };
    if desk.read_page(page_size, place.page, &mut old).is_err() {
        return Err(Mishap::Reading);
    }
    let Ok(mut text) = Vec::from_elem(alloc, 0, size + 8) else {
        return Err(Mishap::Memory);
    };
    put_record(place.nonce, place.page, &old, &mut text);
    let Some(end) = place.at.checked_add(u64::from(page_size) + 8) else {
        return Err(Mishap::Memory);
    };
    Ok(Entry {
        old: Bytes::new(old),
        text,
        end,
    })
}
