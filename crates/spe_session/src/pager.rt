//! The pages of one transaction.

ghost use Rattle.std.specs.Prelude.{◌≡◌, ◌≤◌, ◌<◌, ◌*◌, ◌+◌, ◌-◌, ◌/◌, ◌^◌, ◌∷◌, ℕ, [], None, Some, IfSome, length, replicate, false, true};
ghost use Rattle.spe_model.specs.Faults.{Rose};
ghost use Rattle.spe_model.specs.Paging.{Agrees, IsPageSize, IsUsableSize};
ghost use Rattle.spe_model.specs.Settled.{IsWithinLimits};
ghost use Rattle.spe_space.specs.declared.fault.SpaceFault.TheVariants.{Full, Read};
ghost use Rattle.spe_space.specs.Outcome.{IsInside, refusal_of};
ghost use Rattle.spe_store.specs.Call.{IsTied};
ghost use Rattle.spe_store.specs.Event.{entries_in, seen_in};
ghost use Rattle.spe_store.specs.Event.Event.{Begun};
ghost use Rattle.spe_session.specs.Alone.{IsAlone, IsReading};
ghost use Rattle.spe_session.specs.Below.{HasNoRoom, IsAdmitted, IsBelow, IsUnwritten, admits_own, below_of};
ghost use Rattle.spe_session.specs.Pages.{AreSized, AreUpTo, IsShown, KeepsSeen, are_numbered, bytes_at, front_read, front_shown, laid_in};

use crate::beginning::Beginning;
use crate::page_set::PageSet;
use spe_disk::Disk;
use spe_model::Recovered;
use spe_space::{Pages, SpaceFault};
use spe_store::{Opening, Pass, Store};
use std::alloc::Global;
use std::marker::PhantomData;

/// How many bytes the pages of a database take at most.
const FILE_BYTES: u32 = 1 << 30;

/// The pages of one transaction, which no other changes meanwhile, over the store of its database.
///
/// A page is read at most once and kept. What is put is kept too, and not written before the transaction
/// ends; a page that is added takes no memory until it is put. So a pager that is given up has changed
/// nothing.
#[derive(Drop)]
pub struct Pager<D: Disk, N: Opening, K: Beginning> {
    pub(crate) store: Store<D, N>,
    pub(crate) pass: Pass,
    pub(crate) clean: PageSet,
    pub(crate) dirty: PageSet,
    pub(crate) size: u32,
    pub(crate) usable: u32,
    pub(crate) pages: u32,
    pub(crate) limit: u32,
    pub(crate) first: u32,
    pub(crate) refusal: Option<SpaceFault>,
    pub(crate) alloc: Global,
    of: PhantomData<K>,
    // The sizes are those of a page, and the store's.
    ghost range: { IsPageSize size },
    ghost used: { IsUsableSize size usable },
    ghost of_store: { store.page_size ≡ size },
    // The store goes on, it has the pass, and no page is written.
    ghost going: { store.desk.stopped ≡ None },
    ghost tied: { IsTied store pass },
    ghost unwritten: { IsUnwritten store.events },
    // No other transaction is at work, and this one has done nothing but read.
    ghost alone: { IsAlone store.events pass.id },
    ghost reading: { IsReading store.events pass.id },
    // It is the store that the transaction began on, with its files and commits, and the id and list are its own.
    ghost files: { store.desk.told ≡ K.begun.told },
    ghost commits: { entries_in store.events ≡ K.begun.entries },
    ghost counted: { store.count ≡ K.begun.count },
    ghost id: { pass.id ≡ K.begun.id },
    ghost own: { first ≡ K.begun.first },
    // A page is listed as read just where it is kept as clean, once, and as after all commits.
    ghost seen: { KeepsSeen clean (seen_in pass.done pass.id) },
    ghost below: { IsBelow (below_of N.opened store) (seen_in pass.done pass.id) },
    ghost clean_sized: { AreSized size clean },
    // What was put is one of the pages, and one page long.
    ghost dirty_sized: { AreSized size dirty },
    ghost placed: { AreUpTo pages dirty },
    // Page 1 shows the front with which it was read, and was put where pages were added; and there is no page 0.
    ghost fronted: { front_shown dirty clean ≡ front_read clean },
    ghost numbered: { are_numbered store.count pages dirty ≡ true },
    // There are as many pages as after all commits, or more, and no more than there may be.
    ghost some: { 1 ≤ store.count },
    ghost more: { store.count ≤ pages },
    ghost few: { pages ≤ limit },
    ghost bounded: { limit * size ≤ 2 ^ 30 },
    ghost most: { 2 ^ 30 < (limit + 1) * size },
    // Nobody else holds a page, and the store has not stopped.
    ghost admitted: { IsAdmitted refusal },
    // A refusal has its cause: a reading that failed since the transaction began, or a file that is full.
    ghost later: { K.begun.reads ≤ store.desk.reads },
    ghost caused: { refusal ≡ Some Read → Rose K.begun.reads store.desk.reads },
    ghost filled: { (number : ℕ) → refusal ≡ Some (Full number) → HasNoRoom number size },
}

/// What a pager was made of, in which nothing was written.
#[derive(Drop)]
pub struct Parts<D: Disk, N: Opening> {
    pub store: Store<D, N>,
    pub pass: Pass,
}

impl<D: Disk, N: Opening, K: Beginning> Pager<D, N, K> {
    /// The pages after all commits, for a transaction that has just begun and takes free pages from the list
    /// whose first trunk is `first`.
    pub fn over_pass(
        alloc: Global,
        store: Store<D, N>,
        pass: Pass,
        found: &Recovered,
        first: u32,
    ) -> Pager<D, N, K>
        requires limits { IsWithinLimits found.now }
        requires sized { store.page_size ≡ found.now.page_size }
        requires some { 1 ≤ store.count }
        requires few { store.count * found.now.page_size ≤ 2 ^ 30 }
        requires going { store.desk.stopped ≡ None }
        requires tied { IsTied store pass }
        requires begun { pass.done ≡ Begun pass.id ∷ [] }
        requires files { store.desk.told ≡ K.begun.told }
        requires commits { entries_in store.events ≡ K.begun.entries }
        requires counted { store.count ≡ K.begun.count }
        requires id { pass.id ≡ K.begun.id }
        requires own { first ≡ K.begun.first }
        requires reads { K.begun.reads ≤ store.desk.reads }
        requires unwritten { IsUnwritten store.events }
        requires alone { IsAlone store.events pass.id }
        requires reading { IsReading store.events pass.id }
        ensures size { ⟦<Pager<D, N, K> as Pages>⟧.size result ≡ found.now.page_size }
        ensures usable { ⟦<Pager<D, N, K> as Pages>⟧.used result ≡ found.now.page_size - found.now.reserved }
        ensures count { ⟦<Pager<D, N, K> as Pages>⟧.count result ≡ store.count }
        ensures limit { ⟦<Pager<D, N, K> as Pages>⟧.limit result ≡ 2 ^ 30 / found.now.page_size }
        ensures told { ⟦<Pager<D, N, K> as Pages>⟧.told result ≡ below_of N.opened store }
        ensures seen { (n : ℕ) → ⟦<Pager<D, N, K> as Pages>⟧.seen result n ≡ [] }
        ensures laid { (n : ℕ) → ⟦<Pager<D, N, K> as Pages>⟧.laid result n ≡ None }
        ensures refusal { ⟦<Pager<D, N, K> as Pages>⟧.refusal result ≡ None }
    {
        let pages = store.count();
        Pager {
            store,
            pass,
            clean: PageSet::none(alloc),
            dirty: PageSet::none(alloc),
            size: found.page_size,
            usable: found.page_size - u32::from(found.reserved),
            pages,
            limit: FILE_BYTES / found.page_size,
            first,
            refusal: None,
            alloc,
            of: PhantomData,
        }
    }

    /// Gives the transaction up. Nothing was written, and the pass lists what was read.
    pub fn into_parts(self) -> Parts<D, N>
        ensures seen { seen_in result.pass.done result.pass.id ≡ ⟦<Pager<D, N, K> as Pages>⟧.seen self }
        ensures told { below_of N.opened result.store ≡ ⟦<Pager<D, N, K> as Pages>⟧.told self }
        ensures files { result.store.desk.told ≡ K.begun.told }
        ensures commits { entries_in result.store.events ≡ K.begun.entries }
        ensures counted { result.store.count ≡ K.begun.count }
        ensures sized { result.store.page_size ≡ ⟦<Pager<D, N, K> as Pages>⟧.size self }
        ensures id { result.pass.id ≡ K.begun.id }
        ensures caused { ⟦<Pager<D, N, K> as Pages>⟧.refusal self ≡ Some Read → Rose K.begun.reads result.store.desk.reads }
        ensures filled { (number : ℕ) → ⟦<Pager<D, N, K> as Pages>⟧.refusal self ≡ Some (Full number) → HasNoRoom number result.store.page_size }
        ensures going { result.store.desk.stopped ≡ None }
        ensures tied { IsTied result.store result.pass }
        ensures unwritten { IsUnwritten result.store.events }
        ensures alone { IsAlone result.store.events result.pass.id }
        ensures reading { IsReading result.store.events result.pass.id }
    {
        let Pager { store, pass, .. } = self;
        Parts { store, pass }
    }
}

impl<D: Disk, N: Opening, K: Beginning> Pager<D, N, K> {
    // Whether there is the page.
    pub(crate) fn has(&self, page: u32) -> bool
        ensures there { result ≡ true → IsInside self.now.pages page }
        ensures missing { result ≡ false → IsInside self.now.pages page → ⊥ }
    {
        page > 0 && page <= self.pages
    }

    // Keeps a fault other than want of memory, and gives it back.
    pub(crate) fn refuse(&mut self, fault: SpaceFault) -> SpaceFault
        requires admitted { admits_own fault ≡ true }
        requires caused { fault ≡ Read → Rose K.begun.reads self.old.store.desk.reads }
        requires filled { (number : ℕ) → fault ≡ Full number → HasNoRoom number self.old.size }
        ensures fault { result ≡ fault }
        ensures kept { self.new.refusal ≡ refusal_of fault self.old.refusal }
        ensures store { self.new.store ≡ self.old.store }
        ensures pass { self.new.pass ≡ self.old.pass }
        ensures clean { self.new.clean ≡ self.old.clean }
        ensures dirty { self.new.dirty ≡ self.old.dirty }
        ensures size { self.new.size ≡ self.old.size }
        ensures usable { self.new.usable ≡ self.old.usable }
        ensures pages { self.new.pages ≡ self.old.pages }
        ensures limit { self.new.limit ≡ self.old.limit }
    {
        self.refusal = match fault {
            SpaceFault::Memory => self.refusal,
            other => Some(other),
        };
        fault
    }
}
