//! A page is shown: as it was put, as it was read, or as it is below.

ghost use Rattle.std.specs.Prelude.{◌≡◌, ◌≢◌, ◌≤◌, ◌⊎◌, ℕ, [], None, IfErr, IsSome, Some, IsTrue, OnErr, OnOk, length, replicate, true, false};
ghost use Rattle.spe_model.specs.Paging.{Agrees, Paging};
ghost use Rattle.spe_space.specs.declared.fault.SpaceFault.TheVariants.{Memory, Read};
ghost use Rattle.spe_space.specs.Outcome.{IsInside, refusal_after};
ghost use Rattle.spe_store.specs.Event.{seen_in};
ghost use Rattle.spe_session.specs.Below.{below_of};
ghost use Rattle.spe_session.specs.Pages.{HasFrontOf, IsShown, ReadsOne, bytes_at, laid_in};

use crate::beginning::Beginning;
use crate::fetch::read_once;
use crate::page_set::PageSet;
use crate::pager::Pager;
use spe_disk::Disk;
use spe_model::Bytes;
use spe_space::SpaceFault;
use spe_store::Opening;

// Makes all bytes zero.
fn blank(buf: &mut [u8])
    ensures { buf.new ≡ replicate (length buf.old) 0 }
{
    buf.fill(0);
}

// Bytes in room that was taken for them.
fn filled(room: Vec<u8>, bytes: &[u8]) -> Bytes
    requires { length room.items ≡ length bytes.now }
    ensures { result ≡ bytes.now }
{
    let mut room = room;
    room.as_mut_slice().copy_from_slice(bytes);
    Bytes::new(room)
}

impl<D: Disk, N: Opening, K: Beginning> Pager<D, N, K> {
    // Copies a page that is kept, or was added, and says whether it is such a page.
    fn copy_kept(&self, page: u32, buf: &mut [u8]) -> bool
        requires size { length buf.old ≡ self.now.size }
        requires inside { IsInside self.now.pages page }
        ensures shown { result ≡ true → IsShown (seen_in self.now.pass.done self.now.pass.id) (laid_in self.now.store.count self.now.pages self.now.size self.now.dirty) page buf.new }
        ensures front { result ≡ true → page ≡ 1 → HasFrontOf self.now.clean buf.new }
        ensures put { result ≡ false → bytes_at self.now.dirty page ≡ None }
        ensures read { result ≡ false → bytes_at self.now.clean page ≡ None }
        ensures below { result ≡ false → page ≤ self.now.store.count }
        ensures len { length buf.new ≡ length buf.old }
    {
        if let Some(bytes) = self.dirty.get(page) {
            buf.copy_from_slice(bytes);
            return true;
        }
        if page > self.store.count() {
            blank(buf);
            return true;
        }
        if let Some(bytes) = self.clean.get(page) {
            buf.copy_from_slice(bytes);
            return true;
        }
        false
    }

    // Reads a page that is not kept, and keeps it. Room for it is taken first, so that no page is read twice.
    fn read_below(&mut self, page: u32, buf: &mut [u8]) -> Result<(), SpaceFault>
        requires size { length buf.old ≡ self.old.size }
        requires inside { IsInside self.old.store.count page }
        requires fresh { bytes_at self.old.clean page ≡ None }
        ensures read { OnOk result (ReadsOne page buf.new (seen_in self.old.pass.done self.old.pass.id) (seen_in self.new.pass.done self.new.pass.id)) }
        ensures kept { OnOk result (bytes_at self.new.clean page ≡ Some buf.new) }
        ensures err { OnErr result (seen_in self.new.pass.done self.new.pass.id ≡ seen_in self.old.pass.done self.old.pass.id) }
        ensures len { length buf.new ≡ length buf.old }
        ensures fault { IfErr result (λ fault. (fault ≡ Read) ⊎ (fault ≡ Memory)) }
        ensures refusal { self.new.refusal ≡ refusal_after result self.old.refusal }
        ensures told { below_of N.opened self.new.store ≡ below_of N.opened self.old.store }
        ensures base { self.new.store.count ≡ self.old.store.count }
        ensures dirty { self.new.dirty ≡ self.old.dirty }
        ensures size { self.new.size ≡ self.old.size }
        ensures usable { self.new.usable ≡ self.old.usable }
        ensures pages { self.new.pages ≡ self.old.pages }
        ensures limit { self.new.limit ≡ self.old.limit }
    {
        let room = vec![in self.alloc; 0u8; self.size as usize]?;
        self.clean.put(page, Bytes::new(Vec::new(self.alloc)))?;
        match read_once(&mut self.store, &mut self.pass, page, buf) {
            Ok(()) => {
                self.clean.set(page, filled(room, buf));
                Ok(())
            }
            Err(fault) => {
                self.clean.remove(page);
                Err(self.refuse(fault))
            }
        }
    }

    // Copies a page, which is read unless it is kept.
    pub(crate) fn show(&mut self, page: u32, buf: &mut [u8]) -> Result<(), SpaceFault>
        requires size { length buf.old ≡ self.old.size }
        requires inside { IsInside self.old.pages page }
        ensures shown { OnOk result (IsShown (seen_in self.new.pass.done self.new.pass.id) (laid_in self.old.store.count self.old.pages self.old.size self.old.dirty) page buf.new) }
        ensures front { OnOk result (page ≡ 1 → HasFrontOf self.new.clean buf.new) }
        ensures earlier { (pages : Paging) → Agrees pages (seen_in self.new.pass.done self.new.pass.id) → Agrees pages (seen_in self.old.pass.done self.old.pass.id) }
        ensures only { (n : ℕ) → n ≢ page → seen_in self.new.pass.done self.new.pass.id n ≡ seen_in self.old.pass.done self.old.pass.id n }
        ensures known { IsSome (laid_in self.old.store.count self.old.pages self.old.size self.old.dirty page) → seen_in self.new.pass.done self.new.pass.id page ≡ seen_in self.old.pass.done self.old.pass.id page }
        ensures len { length buf.new ≡ length buf.old }
        ensures fault { IfErr result (λ fault. (fault ≡ Read) ⊎ (fault ≡ Memory)) }
        ensures refusal { self.new.refusal ≡ refusal_after result self.old.refusal }
        ensures told { below_of N.opened self.new.store ≡ below_of N.opened self.old.store }
        ensures base { self.new.store.count ≡ self.old.store.count }
        ensures dirty { self.new.dirty ≡ self.old.dirty }
        ensures size { self.new.size ≡ self.old.size }
        ensures usable { self.new.usable ≡ self.old.usable }
        ensures pages { self.new.pages ≡ self.old.pages }
        ensures limit { self.new.limit ≡ self.old.limit }
    {
        if self.copy_kept(page, buf) {
            return Ok(());
        }
        self.read_below(page, buf)
    }
}
