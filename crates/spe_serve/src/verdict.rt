//! The verdict over the pages of a space.

ghost use Rattle.std.specs.Prelude.{◌≡◌, ◌≤◌, ◌*◌, ◌^◌, ◌+◌, Bool, true, None, Ok, IfOk, IfErr, OnOk, take};
ghost use Rattle.spe_model.specs.Header.{header_of};
ghost use Rattle.spe_model.specs.Served.{usable_in};
ghost use Rattle.spe_model.specs.Verdict.{verdict_of};
ghost use Rattle.spe_space.specs.Calls.{Reads, RefusesTree};
ghost use Rattle.spe_space.specs.Found.{OnMissing};
ghost use Rattle.spe_serve.specs.Space.{AsksInside, IsOfFront, Undamaged, GivesFront, GivesOver, names_front};

use spe_check::check;
use spe_model::{Header, Verdict};
use spe_space::{Pages, TreeFault};
use std::alloc::Global;

// The header at the front of page 1.
fn read_front<S: Pages>(alloc: Global, space: &mut S) -> Result<Header, TreeFault>
    ensures front { GivesFront S.Pages space.old space.new result }
    ensures sized { IfOk result (λ header. header.reserved ≤ header.page_size) }
    ensures damage { IfErr result IsOfFront }
    ensures asks { IfErr result (OnMissing (λ at. at ≡ 1)) }
    ensures kept { Reads S.Pages space.old space.new }
    ensures refusal { RefusesTree S.Pages space.old space.new result }
{
    let mut buf = vec![in alloc; 0u8; space.page_size() as usize]?;
    space.get(1, &mut buf)?;
    match Header::read(&buf[..100]) {
        Ok(header) => Ok(header),
        Err(_) => Err(TreeFault::Corrupt { page: 1 }),
    }
}

// Whether a header names pages of this size and of so many used bytes.
fn names_front(header: &Header, size: u32, used: u32) -> bool
    requires { header.now.reserved ≤ header.now.page_size }
    ensures { result ≡ names_front header.now size used }
{
    header.page_size == size && header.page_size - u32::from(header.reserved) == used
}

/// The verdict over so many pages.
///
/// Corrupt of page 1 comes only where that page, as it is read now, has not the front that was found
/// before. PageOut names one of so many pages, whatever their bytes.
pub fn verdict<S: Pages>(alloc: Global, space: &mut S, pages: u32) -> Result<Verdict, TreeFault>
    requires refusal { S.Pages.refusal space.old ≡ None }
    requires some { 1 ≤ pages }
    requires few { pages * S.Pages.size space.old ≤ 2 ^ 30 }
    ensures verdict { GivesOver S.Pages space.old space.new (λ shown verdict. verdict ≡ verdict_of (S.Pages.used space.old) pages shown) result }
    ensures wide { OnOk result (480 ≤ S.Pages.used space.old) }
    ensures damage { IfErr result IsOfFront }
    ensures asks { AsksInside pages result }
    ensures kept { Reads S.Pages space.old space.new }
    ensures refusal { RefusesTree S.Pages space.old space.new result }
{
    let header = match read_front(alloc, space) {
        Ok(header) => header,
        Err(fault) => return Err(fault),
    };
    let size = space.page_size();
    let used = space.usable();
    if !names_front(&header, size, used) {
        return Err(TreeFault::Corrupt { page: 1 });
    }
    match check(alloc, space, &header, pages) {
        Ok(verdict) => Ok(verdict),
        Err(fault) => Err(TreeFault::Space(fault)),
    }
}
