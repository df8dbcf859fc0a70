//! What clients share of the pages that recovery found.

ghost use Rattle.std.specs.Prelude.{◌≡◌, ◌≤◌, None, Some, true, IfErr, IfOk, IsTrue};
ghost use Rattle.spe_model.specs.Settled.{IsWithinLimits};
ghost use Rattle.spe_space.specs.Calls.{Reads, RefusesTree};
ghost use Rattle.spe_convert.specs.Release.{WhereFound};
ghost use Rattle.spe_room.specs.Admits.{admits_read};
ghost use Rattle.spe_serve.specs.Failure.{IsCausedBy, IsOwn};
ghost use Rattle.spe_serve.specs.Shared.{IsSharedOver, TellsShared, faulty_shared, shared_or_failure};

use crate::failure::Failure;
use spe_check::{DiskSpace, Origin, found_pages};
use spe_disk::Disk;
use spe_model::Recovered;
use spe_opening::{Shared, read_shared};
use spe_space::{Pages, SpaceFault, TreeFault};
use std::alloc::Global;

// What a fault of the space comes to. A page that there is not is damage; it comes only where the file is
// changed meanwhile.
fn faulty_shared(fault: SpaceFault) -> Result<Result<Shared, u32>, Failure>
    requires own { IsTrue (admits_read fault) }
    ensures { result ≡ faulty_shared fault }
{
    match fault {
        SpaceFault::Read => Err(Failure::Disk),
        SpaceFault::PageOut { page, .. } => Ok(Err(page)),
        SpaceFault::Memory => Err(Failure::Memory),
        SpaceFault::Busy { .. }
        | SpaceFault::Stopped { .. }
        | SpaceFault::Full { .. }
        | SpaceFault::Corrupt { .. } => unreachable!(),
    }
}

fn shared_or_failure(found: Result<Shared, TreeFault>) -> Result<Result<Shared, u32>, Failure>
    requires own { IfErr found IsOwn }
    ensures { result ≡ shared_or_failure found }
{
    match found {
        Ok(shared) => Ok(Ok(shared)),
        Err(TreeFault::Corrupt { page }) => Ok(Err(page)),
        Err(TreeFault::Space(fault)) => faulty_shared(fault),
    }
}

// What is read over the pages that a space tells.
fn told_shared<S: Pages>(alloc: Global, space: &mut S, node: u32) -> Result<Shared, TreeFault>
    requires { S.Pages.refusal space.old ≡ None }
    ensures shared { TellsShared S.Pages space.old node result }
    ensures kept { Reads S.Pages space.old space.new }
    ensures refusal { RefusesTree S.Pages space.old space.new result }
{
    read_shared(alloc, space, node)
}

/// What all clients share of the pages that recovery found in the files, whose page 1 names this node page.
/// A page in its place, where an interior page of a table has no cell, so that these pages are not served.
pub fn found_shared<D: Disk, K: Origin>(
    alloc: Global,
    disk: D,
    found: &Recovered,
    node: u32,
) -> (Result<Result<Shared, u32>, Failure>, D)
    requires limits { IsWithinLimits found.now }
    requires node { found.now.node ≡ Some node }
    requires attached { D.attached disk ≡ true }
    requires told { D.told disk ≡ K.told }
    requires faults { D.read_faults disk ≡ K.faults }
    requires operations { D.op_faults disk ≡ K.ops }
    ensures shared { IfOk result.0 (λ read. WhereFound (D.told disk) found.now (λ content pages. IsSharedOver pages read)) }
    ensures same { D.told result.1 ≡ D.told disk }
    ensures attached { D.attached result.1 ≡ true }
    ensures later { D.read_faults disk ≤ D.read_faults result.1 }
    ensures operations { D.op_faults result.1 ≡ D.op_faults disk }
    ensures cause { IfErr result.0 (IsCausedBy (D.read_faults disk) (D.read_faults result.1)) }
{
    found_pages();
    let mut space = DiskSpace::<D, K>::new(disk, found);
    let read = told_shared(alloc, &mut space, node);
    let disk = space.into_disk();
    (shared_or_failure(read), disk)
}
