//! Reading pieces of journals.

ghost use Rattle.std.specs.Prelude.{◌≡◌, ◌+◌, ◌<◌, ◌≤◌, true, length, take, drop};
ghost use Rattle.spe_model.specs.Faults.{HasCause};
ghost use Rattle.spe_model.specs.Recovery.{journal_of};
ghost use Rattle.spe_recover.specs.Told.{FindsTold};

use spe_disk::{Disk, Failed, FileNo};

/// Fills `buf` with the bytes of a journal from byte `at` on.
pub fn read_piece<D: Disk>(disk: &mut D, id: u8, at: u64, buf: &mut [u8]) -> Result<(), Failed>
    requires attached { D.attached disk.old ≡ true }
    requires numbered { id < 16 }
    ensures piece { FindsTold (D.told disk.old) result (λ content x.
        at + length buf.old ≤ length (journal_of content id) → buf.new ≡ take (length buf.old) (drop at (journal_of content id))) }
    ensures same { D.told disk.new ≡ D.told disk.old }
    ensures attached { D.attached disk.new ≡ true }
    ensures operations { D.op_faults disk.new ≡ D.op_faults disk.old }
    ensures cause { HasCause (D.read_faults disk.old) (D.read_faults disk.new) result }
{
    let _ = disk.read_at(FileNo::Journal(id), at, buf)?;
    Ok(())
}
