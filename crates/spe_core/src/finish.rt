//! What ends a transaction.

ghost use Rattle.std.specs.Prelude.{◌≡◌, ◌+◌, ◌≤◌, ◌++◌, length, vec_capacity, IfOk, OnOk, OnErr};
ghost use Rattle.spe_model.specs.Trace.{after};
ghost use Rattle.spe_core.specs.declared.event.Event.TheOpen.{Event-F};
ghost use Rattle.spe_core.specs.Becomes.{Becomes, count_after, journalled_count};
ghost use Rattle.spe_core.specs.Changed.{changed_at, cuts_of, images_of};
ghost use Rattle.spe_core.specs.Parts.{IsReady, state_of};

use crate::commit::Image;
use crate::counts::named_count;
use crate::parts::{Parts, one_more};
use spe_model::FileNo;
use spe_stored::{Files, Sheets};
use std::alloc::AllocError;

// The number of operations made, with the cut of a journal that has bytes.
fn made_with_cut(parts: &Parts, id: u8) -> Result<u64, AllocError>
    ensures { IfOk result (λ made. made ≡ parts.now.made + length (cuts_of parts.now.files id)) }
{
    if parts.files.has_bytes(id) {
        one_more(parts.made)
    } else {
        Ok(parts.made)
    }
}

// Cuts a journal that has bytes to none.
fn cut_journal(files: &mut Files, id: u8)
    ensures { files.new ≡ after files.old (cuts_of files.old id) }
{
    if files.has_bytes(id) {
        files.cut(FileNo::Journal(id), 0);
    }
}

// The number of recovered pages after a transaction commits.
fn count_after(parts: &Parts, id: u8) -> u32
    requires { IsReady parts.now }
    ensures { result ≡ count_after (state_of parts.now) id }
{
    match parts.live.get(id) {
        Some(t) => match t.written(1) {
            Some(page) => named_count(page),
            None => parts.pages,
        },
        None => parts.pages,
    }
}

// How many pages a transaction journalled.
fn journalled_count(parts: &Parts, id: u8) -> usize
    ensures { result ≡ journalled_count (state_of parts.now) id }
{
    match parts.live.get(id) {
        Some(t) => t.journalled_len(),
        None => 0,
    }
}

// Moves the pages before a commit behind the images, for which there is room.
fn push_images(images: &mut Vec<Image>, stamp: u64, mut journalled: Sheets)
    requires { length images.old.items + length journalled ≤ vec_capacity images.old }
    ensures { images.new.items ≡ images.old.items ++ images_of stamp journalled }
{
    while let Some((page, bytes)) = journalled.pop_first() {
        images.push_reserved(Image { page, stamp, bytes });
    }
}

/// A transaction commits.
pub fn commit_cut(parts: &mut Parts, id: u8) -> Result<(), AllocError>
    requires { IsReady parts.old }
    ensures ok { OnOk result (state_of parts.new ≡ changed_at (state_of parts.old) (Event-F.CommitCut id)) }
    ensures count { OnOk result (parts.new.pages ≡ count_after (state_of parts.old) id) }
    ensures err { OnErr result (Becomes parts.old parts.new (state_of parts.old)) }
{
    let made = made_with_cut(parts, id)?;
    let pages = count_after(parts, id);
    let count = journalled_count(parts, id);
    parts.images.reserve(count)?;
    let stamp = one_more(parts.commits.len())?;
    if let Some(t) = parts.live.get(id) {
        parts.commits.push(t)?;
    }
    if let Some(journalled) = parts.live.end(parts.alloc, id) {
        push_images(&mut parts.images, stamp, journalled);
    }
    cut_journal(&mut parts.files, id);
    parts.made = made;
    parts.pages = pages;
    Ok(())
}

/// A transaction ends with nothing written.
pub fn roll_cut(parts: &mut Parts, id: u8) -> Result<(), AllocError>
    ensures ok { OnOk result (Becomes parts.old parts.new (changed_at (state_of parts.old) (Event-F.RollCut id))) }
    ensures err { OnErr result (Becomes parts.old parts.new (state_of parts.old)) }
{
    let made = made_with_cut(parts, id)?;
    let _lists = parts.live.end(parts.alloc, id);
    cut_journal(&mut parts.files, id);
    parts.made = made;
    Ok(())
}
