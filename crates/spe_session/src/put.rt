//! What is put on the pages of a transaction.

ghost use Rattle.std.specs.Prelude.{◌≡◌, ◌≤◌, ◌+◌, ◌<◌, None, Ok, Some, IfErr, OnErr, OnOk, length, take, drop, true, false};
ghost use Rattle.spe_model.specs.Header.{fields, header_of, is_size_valid};
ghost use Rattle.spe_space.specs.declared.fault.SpaceFault.TheVariants.{Memory};
ghost use Rattle.spe_space.specs.Front.{KeepsFront, SpoilsFront, recounted};
ghost use Rattle.spe_space.specs.Outcome.{IsInside};
ghost use Rattle.spe_store.specs.Event.{seen_in};
ghost use Rattle.spe_session.specs.Below.{below_of};
ghost use Rattle.spe_session.specs.Pages.{HasFrontOf, IsLent, Sets, bytes_at, first_of, laid_in};

use crate::beginning::Beginning;
use crate::pager::Pager;
use spe_disk::Disk;
use spe_model::{Bytes, Header};
use spe_space::recount;
use spe_store::Opening;
use std::alloc::AllocError;

// Whether bytes have the first 24 bytes and the number of pages of another page 1.
fn keeps_front(front: &[u8], bytes: &[u8]) -> bool
    requires front { 32 ≤ length front.now }
    requires bytes { 32 ≤ length bytes.now }
    ensures keeps { result ≡ true → KeepsFront front.now bytes.now }
    ensures spoils { result ≡ false → KeepsFront front.now bytes.now → ⊥ }
{
    bytes[..24] == front[..24] && bytes[28..32] == front[28..32]
}

// Whether bytes have a legal header, whose page count is valid.
fn has_header(bytes: &[u8]) -> bool
    ensures legal { result ≡ true → header_of bytes.now ≡ Ok (fields bytes.now) }
    ensures valid { result ≡ true → is_size_valid (fields bytes.now) ≡ true }
    ensures spoilt { result ≡ false → header_of bytes.now ≡ Ok (fields bytes.now) → is_size_valid (fields bytes.now) ≡ true → ⊥ }
{
    match Header::read(bytes) {
        Ok(header) => header.is_size_valid(),
        Err(_) => false,
    }
}

// Page 1 once it names so many pages.
pub(crate) fn recounted(front: Vec<u8>, pages: u32) -> Bytes
    requires { 96 ≤ length front.items }
    ensures bytes { result ≡ recounted pages front.items }
    ensures front { take 24 result ≡ take 24 front.items }
    ensures len { length result ≡ length front.items }
{
    let mut front = front;
    recount(front.as_mut_slice(), pages);
    Bytes::new(front)
}

impl<D: Disk, N: Opening, K: Beginning> Pager<D, N, K> {
    // Page 1, where it was put or read.
    fn first_page(&self) -> Option<&[u8]>
        ensures { IsLent (first_of self.now.dirty self.now.clean) result }
    {
        if let Some(bytes) = self.dirty.get(1) {
            return Some(bytes);
        }
        self.clean.get(1)
    }

    // Whether bytes may be put on page 1: it is known, and they keep its front and have a header.
    fn may_be_first(&self, bytes: &[u8]) -> bool
        requires size { length bytes.now ≡ self.now.size }
        ensures legal { result ≡ true → header_of bytes.now ≡ Ok (fields bytes.now) }
        ensures front { result ≡ true → HasFrontOf self.now.clean bytes.now }
        ensures spoils { result ≡ false → SpoilsFront (below_of N.opened self.now.store) (seen_in self.now.pass.done self.now.pass.id)
            (laid_in self.now.store.count self.now.pages self.now.size self.now.dirty) self.now.pages bytes.now }
    {
        let Some(front) = self.first_page() else {
            return false;
        };
        keeps_front(front, bytes) && has_header(bytes)
    }

    // Whether bytes may be put on a page: on any but page 1 all may.
    pub(crate) fn may_be_put(&self, page: u32, bytes: &[u8]) -> bool
        requires size { length bytes.now ≡ self.now.size }
        ensures legal { result ≡ true → page ≡ 1 → header_of bytes.now ≡ Ok (fields bytes.now) }
        ensures front { result ≡ true → page ≡ 1 → HasFrontOf self.now.clean bytes.now }
        ensures first { result ≡ false → page ≡ 1 }
        ensures spoils { result ≡ false → SpoilsFront (below_of N.opened self.now.store) (seen_in self.now.pass.done self.now.pass.id)
            (laid_in self.now.store.count self.now.pages self.now.size self.now.dirty) self.now.pages bytes.now }
    {
        page != 1 || self.may_be_first(bytes)
    }

    // Lays bytes over a page.
    pub(crate) fn lay(&mut self, page: u32, bytes: &[u8]) -> Result<(), AllocError>
        requires inside { IsInside self.old.pages page }
        requires size { length bytes.now ≡ self.old.size }
        requires front { page ≡ 1 → HasFrontOf self.old.clean bytes.now }
        ensures ok { OnOk result (Sets page (Some bytes.now) self.old.dirty self.new.dirty) }
        ensures err { OnErr result (self.new.dirty ≡ self.old.dirty) }
        ensures store { self.new.store ≡ self.old.store }
        ensures pass { self.new.pass ≡ self.old.pass }
        ensures size { self.new.size ≡ self.old.size }
        ensures usable { self.new.usable ≡ self.old.usable }
        ensures pages { self.new.pages ≡ self.old.pages }
        ensures limit { self.new.limit ≡ self.old.limit }
        ensures refusal { self.new.refusal ≡ self.old.refusal }
    {
        let mut copy = Vec::new(self.alloc);
        copy.extend_from_slice(bytes)?;
        self.dirty.put(page, Bytes::new(copy))
    }

    // Whether there may be sixteen pages more.
    pub(crate) fn has_room(&self) -> bool
        ensures room { result ≡ true → self.now.pages + 16 ≤ self.now.limit }
        ensures full { result ≡ false → self.now.limit < self.now.pages + 16 }
    {
        self.limit >= 16 && self.pages <= self.limit - 16
    }

    // Lays a page 1 that names sixteen pages more, which are zeros.
    pub(crate) fn grow(&mut self, front: Bytes) -> Result<(), AllocError>
        requires room { self.old.pages + 16 ≤ self.old.limit }
        requires size { length front ≡ self.old.size }
        requires front { HasFrontOf self.old.clean front }
        ensures ok { OnOk result (Sets 1 (Some front) self.old.dirty self.new.dirty) }
        ensures more { OnOk result (self.new.pages ≡ self.old.pages + 16) }
        ensures err { OnErr result (self.new.dirty ≡ self.old.dirty) }
        ensures same { OnErr result (self.new.pages ≡ self.old.pages) }
        ensures store { self.new.store ≡ self.old.store }
        ensures pass { self.new.pass ≡ self.old.pass }
        ensures size { self.new.size ≡ self.old.size }
        ensures usable { self.new.usable ≡ self.old.usable }
        ensures limit { self.new.limit ≡ self.old.limit }
        ensures refusal { self.new.refusal ≡ self.old.refusal }
    {
        self.dirty.put(1, front)?;
        self.pages += 16;
        Ok(())
    }
}
