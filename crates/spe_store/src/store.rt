//! The store, and what is so of it at every time.

use crate::desk::Desk;
use crate::opening::Opening;
use crate::order::Order;
use crate::story::Story;
use crate::work::{Work, no_works};
use spe_disk::{Disk, Failed};
use spe_model::{Commits, Recovered};
use std::alloc::Global;
use std::marker::{Model, PhantomData};
use thiserror::Error;

/// Why a store was not opened.
#[derive(Clone, Copy, Debug, PartialEq, Eq, Error)]
pub enum OpenWhy {
    /// The disk failed while the journals were made.
    #[error("the disk failed while the journals were made")]
    Disk,
    /// There is no memory left.
    #[error("out of memory")]
    Memory,
}

/// A store was not opened, and why. The disk is given back, so this is no error by itself: `why` is.
#[derive(Drop)]
pub struct OpenFault<D: Disk> {
    pub disk: D,
    pub why: OpenWhy,
}

/// What a store was made of, once it is closed: the disk, and the list of commits.
#[derive(Drop)]
pub struct Parts<D: Disk> {
    pub disk: D,
    pub order: Commits,
}

/// What up to sixteen transactions do to the files of a database.
#[derive(Drop)]
pub struct Store<D: Disk, N: Opening> {
    pub(crate) alloc: Global,
    pub(crate) desk: Desk<D>,
    pub(crate) page_size: u32,
    pub(crate) count: u32,
    pub(crate) works: Vec<Work>,
    pub(crate) order: Order,
    pub(crate) story: Story,
    pub(crate) of: PhantomData<N>,
}

impl<D: Disk, N: Opening> Model for Store<D, N> {
    ghost use Rattle.spe_store.specs.Store.{Store, IsStored};

    ghost Value = { Store };

    ghost view = { λ s. record { desk = s.desk; events = s.story.events; page_size = s.page_size; count = s.count } };

    ghost invariant = { λ s. IsStored N.opened (record { desk = s.desk; events = s.story.events; page_size = s.page_size; count = s.count }) s.works.items s.order };
}

impl<D: Disk, N: Opening> Store<D, N> {
    ghost use Rattle.std.specs.Prelude.{◌≡◌, ◌≤◌, [], true, None, IfOk, IfErr, length};
    ghost use Rattle.std.specs.Option.{option_map};
    ghost use Rattle.spe_model.specs.Trace.{History};
    ghost use Rattle.spe_store.specs.Store.{IfTold, IsOf, NeverFall};
    ghost use Rattle.spe_model.specs.Settled.{IsWithinLimits};
    ghost use Rattle.spe_store.specs.Call.{CutsAreLeft, CutsAreServed, HasOpened, IsNew, IsUnopened, KeepsCuts, KeepsPages};
    ghost use Rattle.spe_store.specs.Desk.{Counts};
    ghost use Rattle.spe_store.specs.Event.{broken_in, entries_in};
    ghost use Rattle.spe_store.specs.Served.{rows_from};

    /// A store over a disk whose files were recovered, with what recovery found. The journals that are absent
    /// are made.
    ///
    /// The type names what was read of the files and of the disk, and no operation may have been made since
    /// but those that recovery counted. Where the disk fails some journals may have been made, which changes
    /// no recovered page.
    pub fn new(alloc: Global, disk: D, found: &Recovered) -> Result<Store<D, N>, OpenFault<D>>
        requires attached { D.attached disk ≡ true }
        requires limits { IsWithinLimits found.now }
        requires found { found.now ≡ N.opened.found }
        requires first { option_map (λ (h : History). h.first) (D.told disk) ≡ N.opened.first }
        requires opened { IfTold (D.told disk) (HasOpened N.opened) }
        requires reads { D.read_faults disk ≡ N.opened.reads }
        requires faults { D.op_faults disk ≡ N.opened.faults }
        ensures new { IfOk result (IsNew N.opened) }
        ensures unopened { IfErr result (λ fault. IsUnopened N.opened (D.op_faults fault.disk) fault.why) }
        ensures cuts { IfErr result (λ fault. IfTold (D.told fault.disk) (λ h. CutsAreServed N.opened h [])) }
        ensures same { IfErr result (λ fault. option_map (λ (h : History). h.first) (D.told fault.disk) ≡ N.opened.first) }
        ensures attached { IfErr result (λ fault. D.attached fault.disk ≡ true) }
        ensures readings { IfErr result (λ fault. D.read_faults fault.disk ≡ D.read_faults disk) }
    {
        let mut disk = disk;
        let Ok(works) = no_works(alloc) else {
            return Err(OpenFault {
                disk,
                why: OpenWhy::Memory,
            });
        };
        let made = match disk.make_journals() {
            Ok(made) => made,
            Err(Failed) => {
                return Err(OpenFault {
                    disk,
                    why: OpenWhy::Disk,
                });
            }
        };
        let Some(ops) = found.ops.checked_add(u64::from(made)) else {
            return Err(OpenFault {
                disk,
                why: OpenWhy::Disk,
            });
        };
        let desk = Desk::new(disk, ops);
        Ok(Store {
            alloc,
            desk,
            page_size: found.page_size,
            count: found.pages,
            works,
            order: Order::none(alloc),
            story: Story::none(),
            of: PhantomData,
        })
    }

    /// How many commits there are.
    pub fn number(&self) -> u64
        ensures { result ≡ length (entries_in self.now.events) }
    {
        self.order.len() as u64
    }

    /// How many pages there are after all commits.
    pub fn count(&self) -> u32
        ensures { result ≡ self.now.count }
    {
        self.count
    }

    /// Gives the disk and the list of commits.
    ///
    /// At each cut of the trace the recovered pages are those after the commits within it. Where the store has
    /// stopped at the cut of a commit, this may count as one more. What is known of the disk is what the store
    /// knew of it; once it has stopped at an operation, no later one was made.
    pub fn close(self) -> Parts<D>
        ensures order { result.order ≡ rows_from 1 (entries_in self.events) }
        ensures sorted { NeverFall result.order }
        ensures cuts { IfTold (D.told result.disk) (λ h. CutsAreLeft N.opened h (entries_in self.events) (broken_in self.events)) }
        ensures disk { IsOf N.opened (record self.desk { told = D.told result.disk; reads = D.read_faults result.disk; faults = D.op_faults result.disk }) }
        ensures attached { D.attached result.disk ≡ true }
        ensures told { D.told result.disk ≡ self.desk.told }
        ensures reads { D.read_faults result.disk ≡ self.desk.reads }
        ensures faults { D.op_faults result.disk ≡ self.desk.faults }
        ensures counted { Counts self.desk.told self.desk.stopped self.desk.ops }
    {
        let Store { desk, order, .. } = self;
        Parts {
            disk: desk.into_disk(),
            order: order.into_commits(),
        }
    }

    /// What is so at every time.
    ///
    /// The disk is that of the opening, and its counts of faults have not fallen. At each cut of the trace so
    /// far the recovered pages are those after the commits within it, and these are served for what the
    /// commits leave, where the pages of the opening were. Until the store stops, what each transaction has
    /// read is as after all commits, and no cut of a commit has failed. The page size is the one that recovery
    /// found.
    pub fn keeps(&self)
        ensures disk { IsOf N.opened self.now.desk }
        ensures cuts { KeepsCuts N.opened self.now }
        ensures pages { KeepsPages N.opened self.now }
        ensures unbroken { self.now.desk.stopped ≡ None → broken_in self.now.events ≡ None }
        ensures sized { self.now.page_size ≡ N.opened.found.page_size }
    {
        let _story = &self.story;
    }
}
