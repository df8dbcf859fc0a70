//! What a transaction began on.

use std::marker::Brand;

/// What a transaction began on. Each caller picks it, and all that is done with the pages keeps it, as it is
/// said by the type.
///
/// To proofs it names what had been done to the files, where the disk tells that; the commits that there
/// were, and how many pages; the transaction's id, and the first trunk of its free list; and how many
/// readings had failed.
pub trait Beginning {
    ghost use Rattle.spe_session.specs.Below.{Begun};

    ghost begun: { Begun };
}

impl Beginning for Brand {
    ghost use Rattle.std.specs.Prelude.{[], None};

    ghost begun = { record {
      told = None;
      entries = [];
      count = 0;
      id = 0;
      first = 0;
      reads = 0;
    } };
}
