//! A store over the file of three pages, and sixteen passes.

ghost use Rattle.std.specs.Prelude.{◌≡◌, [], true, IfOk};
ghost use Rattle.spe_disk.specs.Memory.{is_attached};

use super::disk::{Blind, three_pages};
use spe_model::Recovered;
use spe_store::{BeginFault, Opening, SessionSeat, Store};
use std::alloc::{AllocError, Global};
use std::test::Fail;

/// What was read of the file.
pub struct Three;

impl Opening for Three {
    ghost use Rattle.std.specs.Prelude.{[], None};
    ghost use Rattle.spe_store.specs.Opened.{Opened};

    ghost opened = { record {
      read = record { usable = 0; catalog = []; trunks = [] };
      found = record { page_size = 512; reserved = 0; pages = 3; node = None; rolled = 0; ops = 0 };
      first = None;
      pages = [];
      reads = 0;
      faults = 0;
    } };
}

/// A store over it, in which nothing was done.
pub fn opened(alloc: Global, blind: Blind) -> Result<Store<Blind, Three>, AllocError>
    requires attached { is_attached blind.disk ≡ true }
    requires reads { blind.reads ≡ 0 }
    requires ops { blind.ops ≡ 0 }
    ensures events { IfOk result (λ s. s.events ≡ []) }
    ensures sized { IfOk result (λ s. s.page_size ≡ 512) }
    ensures counted { IfOk result (λ s. s.count ≡ 3) }
{
    let found = Recovered {
        page_size: 512,
        reserved: 0,
        pages: 3,
        node: None,
        rolled: 0,
        ops: 0,
    };
    match Store::new(alloc, blind, &found) {
        Ok(store) => Ok(store),
        Err(_) => Err(AllocError),
    }
}

/// A session to which nothing was told.
pub fn session() -> SessionSeat {
    SessionSeat { number: 1, told: 0 }
}

// Takes fifteen passes, whose ids are 0 to 14.
fn fifteen(store: &mut Store<Blind, Three>, session: &mut SessionSeat) -> Result<bool, BeginFault> {
    let mut are_next = true;
    for id in 0..15u8 {
        let pass = store.take_pass(session)?;
        are_next = are_next && pass.id() == id;
    }
    Ok(are_next)
}

// Takes the last, after which there is none; gives it back, and takes another. Answers both ids.
fn last(
    store: &mut Store<Blind, Three>,
    session: &mut SessionSeat,
) -> Result<(u8, u8), BeginFault> {
    let last = store.take_pass(session)?;
    let id = last.id();
    match store.take_pass(session) {
        Ok(_) => return Ok((id, 16)),
        Err(BeginFault::Sixteen) => (),
        Err(fault) => return Err(fault),
    }
    let (seat, _) = store.finish(last, session);
    store.put_back(session, seat);
    let again = store.take_pass(session)?;
    Ok((id, again.id()))
}

fn has_sixteen(store: &mut Store<Blind, Three>) -> bool {
    let mut session = session();
    let first = fifteen(store, &mut session);
    first == Ok(true) && last(store, &mut session) == Ok((15, 15))
}

#[test]
fn sixteen_passes(rt: HostRuntime) -> Result<(), Fail> {
    let mut store = opened(rt.alloc(), three_pages(rt.alloc(), 0, 0, false)?)?;
    let holds = has_sixteen(&mut store);
    assert!(rt; holds);
    Ok(())
}
