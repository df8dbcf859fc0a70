//! The journal of a transaction that ends is cut.

ghost use Rattle.std.specs.Prelude.{◌<◌, nat_lt};
ghost use Rattle.spe_model.specs.Rollback.{cut_of};
ghost use Rattle.spe_store.specs.Desk.{TriesIf};

use crate::desk::Desk;
use crate::stop::Stop;
use spe_disk::{Disk, FileNo};

/// Cuts a journal that has bytes.
pub(crate) fn cut_journal<D: Disk>(desk: &mut Desk<D>, id: u8, end: u64) -> Result<(), Stop>
    requires { id < 16 }
    ensures { TriesIf (nat_lt 0 end) desk.old desk.new (cut_of id) result }
{
    if end > 0 {
        return desk.cut(FileNo::Journal(id), 0);
    }
    match desk.stopped() {
        Some(op) => Err(Stop { op }),
        None => Ok(()),
    }
}
