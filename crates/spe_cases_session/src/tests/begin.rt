//! A transaction that has begun on the file of three pages.

ghost use Rattle.std.specs.Prelude.{◌≡◌, [], None, true, IfOk};
ghost use Rattle.spe_disk.specs.Memory.{is_attached};
ghost use Rattle.spe_model.specs.Settled.{IsWithinLimits};

use super::disk::Counted;
use spe_model::Recovered;
use spe_session::{Beginning, Pager, alone_law};
use spe_store::{Opening, SessionSeat, Store};
use std::alloc::{AllocError, Global};

/// What was read of the file.
pub struct Three;

impl Opening for Three {
    ghost use Rattle.std.specs.Prelude.{[], None};
    ghost use Rattle.spe_store.specs.Opened.{Opened};

    ghost opened = { record {
      read = record { usable = 0; catalog = []; trunks = [] };
      found = record { page_size = 512; reserved = 0; pages = 3; node = None; rolled = 0; ops = 0 };
      first = None;
      pages = [];
      reads = 0;
      faults = 0;
    } };
}

/// What the first transaction on it began on.
pub struct First;

impl Beginning for First {
    ghost use Rattle.std.specs.Prelude.{[], None};
    ghost use Rattle.spe_session.specs.Below.{Begun};

    ghost begun = { record { told = None; entries = []; count = 3; id = 0; first = 3; reads = 0 } };
}

fn found() -> Recovered
    ensures limits { IsWithinLimits result }
    ensures found { result ≡ record { page_size = 512; reserved = 0; pages = 3; node = None; rolled = 0; ops = 0 } }
{
    Recovered {
        page_size: 512,
        reserved: 0,
        pages: 3,
        node: None,
        rolled: 0,
        ops: 0,
    }
}

// A store over it, in which nothing was done.
fn opened(alloc: Global, disk: Counted) -> Result<Store<Counted, Three>, AllocError>
    requires attached { is_attached disk.disk ≡ true }
    requires reads { disk.reads ≡ 0 }
    requires ops { disk.ops ≡ 0 }
    ensures events { IfOk result (λ s. s.events ≡ []) }
    ensures sized { IfOk result (λ s. s.page_size ≡ 512) }
    ensures counted { IfOk result (λ s. s.count ≡ 3) }
{
    match Store::new(alloc, disk, &found()) {
        Ok(store) => Ok(store),
        Err(_) => Err(AllocError),
    }
}

/// The pages of the first transaction on it.
pub fn begun(alloc: Global, disk: Counted) -> Result<Pager<Counted, Three, First>, AllocError>
    requires attached { is_attached disk.disk ≡ true }
    requires reads { disk.reads ≡ 0 }
    requires ops { disk.ops ≡ 0 }
{
    let mut session = SessionSeat { number: 1, told: 0 };
    let mut store = opened(alloc, disk)?;
    store.keeps();
    alone_law();
    let Ok(pass) = store.take_pass(&mut session) else {
        return Err(AllocError);
    };
    Ok(Pager::over_pass(alloc, store, pass, &found(), 3))
}
