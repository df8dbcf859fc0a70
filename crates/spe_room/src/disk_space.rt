//! The pages of a database file, of which no other is written.

ghost use Rattle.std.specs.Prelude.{◌≡◌, ◌≤◌, ◌<◌, ◌*◌, ◌+◌, ◌-◌, ◌^◌, ℕ, [], ◌∷◌, true, false, Some, None, length, IfErr, OnOk};
ghost use Rattle.spe_model.specs.Faults.{Rose};
ghost use Rattle.spe_model.specs.Paging.{IsPageSize, IsUsableSize};
ghost use Rattle.spe_model.specs.Settled.{IsWithinLimits};
ghost use Rattle.spe_space.specs.Outcome.{IsInside, refusal_after};
ghost use Rattle.spe_space.specs.declared.fault.SpaceFault.TheVariants.{Read, PageOut};
ghost use Rattle.spe_room.specs.Admits.{KeepsOwn};
ghost use Rattle.spe_room.specs.Held.{AreOf, IsHeld, given_in, told_pages};

use crate::given::{GivenPage, GivenPages};
use crate::origin::Origin;
use spe_disk::{Disk, Failed};
use spe_model::{FileNo, Recovered};
use spe_space::{Pages, SpaceFault};
use std::marker::PhantomData;

/// The pages of a database file, which can only be read.
///
/// It keeps no page: each time that one is got it is read anew. A disk that tells nothing of itself may
/// give other bytes then, and no pages agree with both.
#[derive(Drop)]
pub struct DiskSpace<D: Disk, K: Origin> {
    pub(crate) disk: D,
    pub(crate) size: u32,
    pub(crate) usable: u32,
    pub(crate) pages: u32,
    pub(crate) given: GivenPages,
    pub(crate) refusal: Option<SpaceFault>,
    of: PhantomData<K>,
    ghost range: { IsPageSize size },
    ghost used: { IsUsableSize size usable },
    ghost some: { 1 ≤ pages },
    ghost few: { pages * size ≤ 2 ^ 30 },
    ghost attached: { D.attached disk ≡ true },
    ghost kept: { D.told disk ≡ K.told },
    ghost counted: { K.faults ≤ D.read_faults disk },
    ghost unmade: { D.op_faults disk ≡ K.ops },
    ghost caused: { refusal ≡ Some Read → Rose K.faults (D.read_faults disk) },
    ghost missing: { (at number : ℕ) → refusal ≡ Some (PageOut at number) → IsInside pages at → ⊥ },
    ghost own: { KeepsOwn refusal },
    ghost held: { AreOf K.told size pages (given_in given.pages) },
}

impl<D: Disk, K: Origin> DiskSpace<D, K> {
    /// The pages that recovery found in the database file.
    pub fn new(disk: D, found: &Recovered) -> DiskSpace<D, K>
        requires limits { IsWithinLimits found.now }
        requires attached { D.attached disk ≡ true }
        requires told { D.told disk ≡ K.told }
        requires faults { D.read_faults disk ≡ K.faults }
        requires operations { D.op_faults disk ≡ K.ops }
        ensures size { ⟦<DiskSpace<D, K> as Pages>⟧.size result ≡ found.now.page_size }
        ensures usable { ⟦<DiskSpace<D, K> as Pages>⟧.used result ≡ found.now.page_size - found.now.reserved }
        ensures pages { ⟦<DiskSpace<D, K> as Pages>⟧.count result ≡ found.now.pages }
        ensures told { ⟦<DiskSpace<D, K> as Pages>⟧.told result ≡ told_pages K.told found.now.page_size found.now.pages }
        ensures given { (n : ℕ) → ⟦<DiskSpace<D, K> as Pages>⟧.seen result n ≡ [] }
        ensures refusal { ⟦<DiskSpace<D, K> as Pages>⟧.refusal result ≡ None }
    {
        DiskSpace {
            disk,
            size: found.page_size,
            usable: found.page_size - u32::from(found.reserved),
            pages: found.pages,
            given: GivenPages::none(),
            refusal: None,
            of: PhantomData,
        }
    }

    /// The disk, whose files are as they were, and its count of operations that failed. Where the space
    /// keeps the refusal Read, its count of reading calls that failed has risen; where it keeps PageOut,
    /// the page is none of the space's. It keeps no other refusal.
    pub fn into_disk(self) -> D
        ensures told { D.told result ≡ K.told }
        ensures attached { D.attached result ≡ true }
        ensures counted { K.faults ≤ D.read_faults result }
        ensures operations { D.op_faults result ≡ K.ops }
        ensures caused { ⟦<DiskSpace<D, K> as Pages>⟧.refusal self ≡ Some Read → Rose K.faults (D.read_faults result) }
        ensures missing { (at number : ℕ) → ⟦<DiskSpace<D, K> as Pages>⟧.refusal self ≡ Some (PageOut at number)
            → IsInside (⟦<DiskSpace<D, K> as Pages>⟧.count self) at → ⊥ }
        ensures own { KeepsOwn (⟦<DiskSpace<D, K> as Pages>⟧.refusal self) }
    {
        let DiskSpace { disk, .. } = self;
        disk
    }
}

impl<D: Disk, K: Origin> DiskSpace<D, K> {
    // Whether the space has the page.
    pub(crate) fn has(&self, page: u32) -> bool
        ensures there { result ≡ true → IsInside self.now.pages page }
        ensures missing { result ≡ false → IsInside self.now.pages page → ⊥ }
    {
        page > 0 && page <= self.pages
    }

    // Keeps the refusal of a page that there is not, and gives it back.
    pub(crate) fn refuse_page(&mut self, page: u32) -> SpaceFault
        requires missing { IsInside self.old.pages page → ⊥ }
        ensures fault { result ≡ PageOut page self.old.pages }
        ensures kept { self.new.refusal ≡ Some (PageOut page self.old.pages) }
        ensures given { self.new.given ≡ self.old.given }
        ensures size { self.new.size ≡ self.old.size }
        ensures usable { self.new.usable ≡ self.old.usable }
        ensures pages { self.new.pages ≡ self.old.pages }
    {
        let fault = SpaceFault::PageOut {
            page,
            pages: self.pages,
        };
        self.refusal = Some(fault);
        fault
    }

    // Reads a page. Bytes that the file has not are zeros.
    pub(crate) fn read(&mut self, page: u32, buf: &mut [u8]) -> Result<(), SpaceFault>
        requires inside { IsInside self.old.pages page }
        requires size { length buf.old ≡ self.old.size }
        ensures held { OnOk result (IsHeld K.told self.old.size self.old.pages page buf.new) }
        ensures fault { IfErr result (λ fault. fault ≡ Read) }
        ensures refusal { self.new.refusal ≡ refusal_after result self.old.refusal }
        ensures given { self.new.given ≡ self.old.given }
        ensures size { self.new.size ≡ self.old.size }
        ensures usable { self.new.usable ≡ self.old.usable }
        ensures pages { self.new.pages ≡ self.old.pages }
    {
        let at = u64::from(page - 1) * u64::from(self.size);
        match self.disk.read_at(FileNo::Database, at, buf) {
            Ok(_) => Ok(()),
            Err(Failed) => {
                self.refusal = Some(SpaceFault::Read);
                Err(SpaceFault::Read)
            }
        }
    }

    // A page is given with these bytes.
    pub(crate) fn give(&mut self, page: u32, bytes: &[u8])
        requires held { IsHeld K.told self.old.size self.old.pages page bytes.now }
        ensures given { self.new.given.pages ≡ (page, bytes.now) ∷ self.old.given.pages }
        ensures refusal { self.new.refusal ≡ self.old.refusal }
        ensures size { self.new.size ≡ self.old.size }
        ensures usable { self.new.usable ≡ self.old.usable }
        ensures pages { self.new.pages ≡ self.old.pages }
    {
        self.given = self.given.with(&GivenPage { page, bytes });
    }
}
