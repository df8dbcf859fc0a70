//! A page is read from a store in which no transaction has written a page.

ghost use Rattle.std.specs.Prelude.{◌≡◌, ◌≤◌, [], None, length, IfErr, IfSome, OnErr, OnOk};
ghost use Rattle.spe_model.specs.Faults.{Rose};
ghost use Rattle.spe_space.specs.declared.fault.SpaceFault.TheVariants.{Read};
ghost use Rattle.spe_space.specs.Outcome.{IsInside};
ghost use Rattle.spe_store.specs.Call.{IsTied};
ghost use Rattle.spe_store.specs.Event.{seen_in};
ghost use Rattle.spe_session.specs.Alone.{IsAlone, IsReading};
ghost use Rattle.spe_session.specs.Below.{IsUnwritten, StaysBelow, below_of, space_fault};
ghost use Rattle.spe_session.specs.Pages.{ReadsOne};

use spe_disk::Disk;
use spe_space::SpaceFault;
use spe_store::{Opening, Pass, Store, StoreFault};

/// A fault of the store as one of a space.
pub(crate) fn space_fault(fault: StoreFault) -> SpaceFault
    ensures { result ≡ space_fault fault }
{
    match fault {
        StoreFault::ReadFault => SpaceFault::Read,
        StoreFault::Stopped { op } => SpaceFault::Stopped { op },
        StoreFault::PageOut { page, pages } => SpaceFault::PageOut { page, pages },
        StoreFault::Memory => SpaceFault::Memory,
    }
}

/// Reads a page for the first time, of those after all commits. The disk's failure is the one fault that can
/// come.
pub(crate) fn read_once<D: Disk, N: Opening>(
    store: &mut Store<D, N>,
    pass: &mut Pass,
    page: u32,
    buf: &mut [u8],
) -> Result<(), SpaceFault>
    requires inside { IsInside store.old.count page }
    requires sized { length buf.old ≡ store.old.page_size }
    requires tied { IsTied store.old pass.old }
    requires going { store.old.desk.stopped ≡ None }
    requires unwritten { IsUnwritten store.old.events }
    requires alone { IsAlone store.old.events pass.old.id }
    requires reading { IsReading store.old.events pass.old.id }
    requires fresh { seen_in pass.old.done pass.old.id page ≡ [] }
    ensures read { OnOk result (ReadsOne page buf.new (seen_in pass.old.done pass.old.id) (seen_in pass.new.done pass.new.id)) }
    ensures gives { OnOk result (IfSome (below_of N.opened store.old) (λ pages. pages page ≡ buf.new)) }
    ensures err { OnErr result (pass.new ≡ pass.old) }
    ensures id { pass.new.id ≡ pass.old.id }
    ensures fault { IfErr result (λ fault. fault ≡ Read) }
    ensures cause { OnErr result (Rose store.old.desk.reads store.new.desk.reads) }
    ensures later { store.old.desk.reads ≤ store.new.desk.reads }
    ensures below { StaysBelow N.opened store.old store.new }
    ensures len { length buf.new ≡ length buf.old }
    ensures tied { IsTied store.new pass.new }
    ensures unwritten { IsUnwritten store.new.events }
    ensures alone { IsAlone store.new.events pass.new.id }
    ensures reading { IsReading store.new.events pass.new.id }
{
    match store.read(pass, page, buf) {
        Ok(()) => Ok(()),
        Err(fault) => Err(space_fault(fault)),
    }
}
