//! Page 1, read when a transaction begins.

ghost use Rattle.std.specs.Prelude.{◌≡◌, ◌≤◌, ◌⊎◌, None, IfErr, IfOk, length, true};
ghost use Rattle.spe_model.specs.Paging.{Agrees, Paging};
ghost use Rattle.spe_model.specs.Served.{usable_in};
ghost use Rattle.spe_space.specs.declared.fault.SpaceFault.TheVariants.{Memory, Read};
ghost use Rattle.spe_space.specs.Outcome.{refusal_after};
ghost use Rattle.spe_store.specs.Event.{seen_in};
ghost use Rattle.spe_session.specs.Below.{below_of};
ghost use Rattle.spe_session.specs.Front.{IsFrontOf};
ghost use Rattle.spe_session.specs.Pages.{laid_in};

use crate::beginning::Beginning;
use crate::pager::Pager;
use spe_disk::Disk;
use spe_model::Header;
use spe_space::SpaceFault;
use spe_store::Opening;

// Whether a header names these sizes and this number of pages.
fn names(header: &Header, size: u32, usable: u32, pages: u32) -> bool
    ensures size { result ≡ true → header.now.page_size ≡ size }
    ensures used { result ≡ true → usable_in header.now ≡ usable }
    ensures number { result ≡ true → header.now.pages ≡ pages }
{
    header.page_size == size
        && header.page_size.saturating_sub(u32::from(header.reserved)) == usable
        && header.pages == pages
}

// Whether a page 1 has a legal header that names these sizes and this number of pages.
fn is_front_of(bytes: &[u8], size: u32, usable: u32, pages: u32) -> bool
    requires long { 512 ≤ length bytes.now }
    ensures front { result ≡ true → length bytes.now ≡ size → IsFrontOf size usable pages bytes.now }
{
    match Header::read(&bytes[..100]) {
        Ok(header) => names(&header, size, usable, pages),
        Err(_) => false,
    }
}

impl<D: Disk, N: Opening, K: Beginning> Pager<D, N, K> {
    /// Reads page 1, which was not put, and says whether its header is legal and names the sizes and the
    /// number of pages that the store has.
    pub(crate) fn knows_front(&mut self) -> Result<bool, SpaceFault>
        requires bare { laid_in self.old.store.count self.old.pages self.old.size self.old.dirty 1 ≡ None }
        ensures known { IfOk result (λ known. known ≡ true → (pages : Paging) → Agrees pages (seen_in self.new.pass.done self.new.pass.id)
            → IsFrontOf self.new.size self.new.usable self.new.pages (pages 1)) }
        ensures fault { IfErr result (λ fault. (fault ≡ Read) ⊎ (fault ≡ Memory)) }
        ensures refusal { self.new.refusal ≡ refusal_after result self.old.refusal }
        ensures told { below_of N.opened self.new.store ≡ below_of N.opened self.old.store }
        ensures base { self.new.store.count ≡ self.old.store.count }
        ensures dirty { self.new.dirty ≡ self.old.dirty }
        ensures size { self.new.size ≡ self.old.size }
        ensures usable { self.new.usable ≡ self.old.usable }
        ensures pages { self.new.pages ≡ self.old.pages }
        ensures limit { self.new.limit ≡ self.old.limit }
    {
        let mut front = vec![in self.alloc; 0u8; self.size as usize]?;
        self.show(1, front.as_mut_slice())?;
        Ok(is_front_of(front.as_slice(), self.size, self.usable, self.pages))
    }
}
