//! Keeping what the hot records say.

ghost use Rattle.std.specs.Prelude.{◌≡◌, ◌≤◌, [], ◌∷◌, ℕ, length, take, drop, OnOk, None};
ghost use Rattle.spe_recover.specs.Seen.{Notes, Held, IsSeen, with_holder, is_lower, rest_in, or_else};

use crate::seen::{Clash, Seen};
use spe_journal::SavedPage;
use std::alloc::{AllocError, Global};
use std::collections::BTreeMap;

/// Nothing was read yet.
pub fn nothing_seen(alloc: Global) -> Seen
    ensures held { IsSeen (λ p. []) result }
    ensures rest { result.rest ≡ None }
{
    Seen {
        holders: BTreeMap::new(alloc),
        clash: None,
        rest: None,
    }
}

// Whether a page is below the one that is known to clash, or none is known.
fn is_lower(page: u32, clash: Option<Clash>) -> bool
    ensures { result ≡ is_lower page clash }
{
    match clash {
        Some(known) => page < known.page,
        None => true,
    }
}

// Keeps that this journal holds this page.
fn note_holder(seen: &mut Seen, id: u8, page: u32) -> Result<(), AllocError>
    ensures held { OnOk result ((held : Held) → IsSeen held seen.old → IsSeen (with_holder held id page) seen.new) }
    ensures rest { seen.new.rest ≡ seen.old.rest }
{
    match seen.holders.get(&page).copied() {
        None => {
            let _ = seen.holders.insert(page, id)?;
        }
        Some(first) => {
            if first != id && is_lower(page, seen.clash) {
                seen.clash = Some(Clash {
                    page,
                    first,
                    second: id,
                });
            }
        }
    }
    Ok(())
}

// Bytes 24 to 99 of a page.
fn rest_of(content: &[u8]) -> [u8; 76]
    requires { 100 ≤ length content.now }
    ensures { result ≡ take 76 (drop 24 content.now) }
{
    let mut rest = [0u8; 76];
    rest.copy_from_slice(&content[24..100]);
    rest
}

// Keeps the rest of the header, where the record is of page 1 and none was kept.
fn note_rest(seen: &mut Seen, saved: &SavedPage<'_>)
    requires { 100 ≤ length saved.now.content.now }
    ensures rest { seen.new.rest ≡ or_else seen.old.rest (rest_in (record { page = saved.now.page; content = saved.now.content.now })) }
    ensures holders { seen.new.holders ≡ seen.old.holders }
    ensures clash { seen.new.clash ≡ seen.old.clash }
{
    if saved.page == 1 && seen.rest.is_none() {
        seen.rest = Some(rest_of(saved.content));
    }
}

/// Keeps what a record of a hot journal says.
pub fn note(seen: &mut Seen, id: u8, saved: &SavedPage<'_>) -> Result<(), AllocError>
    requires { 100 ≤ length saved.now.content.now }
    ensures { OnOk result (Notes ((id, record { page = saved.now.page; content = saved.now.content.now }) ∷ []) seen.old seen.new) }
{
    note_holder(seen, id, saved.page)?;
    note_rest(seen, saved);
    Ok(())
}
