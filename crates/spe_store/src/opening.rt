//! What a store was opened on.

use std::marker::Brand;

/// What was read of a database once, before all transactions, and what its disk was then. Each caller
/// picks it, and all stores of one type share it.
///
/// To proofs it names the usable bytes of a page, the tables and the first trunks of the free lists that
/// were read; what recovery found; what the files held when the disk was attached, where the disk tells
/// it, and the pages recovered from that; and how often readings and operations had failed.
pub trait Opening {
    ghost use Rattle.spe_store.specs.Opened.{Opened};

    ghost opened: { Opened };
}

impl Opening for Brand {
    ghost use Rattle.std.specs.Prelude.{[], None};

    ghost opened = { record {
      read = record { usable = 0; catalog = []; trunks = [] };
      found = record { page_size = 0; reserved = 0; pages = 0; node = None; rolled = 0; ops = 0 };
      first = None;
      pages = [];
      reads = 0;
      faults = 0;
    } };
}
