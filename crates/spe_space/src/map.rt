//! Pages in memory.

ghost use Rattle.std.specs.Prelude.{◌≡◌, ◌≢◌, ℕ, List, [], replicate, ◌<◌, ◌≤◌, ◌⊎◌, ◌+◌, ◌-◌, ◌*◌, ◌&&◌, nat_le, nat_lt, true, false, All, IsTrue, vec_len, length, IfOk, None, Some};
ghost use Rattle.std.specs.Ordering.{nat_cmp};
ghost use Rattle.std.specs.BTreeSet.{contains};
ghost use Rattle.spe_model.specs.Paging.{IsPageSize};
ghost use Rattle.spe_space.specs.Free.{IsLaterPage};
ghost use Rattle.spe_space.specs.Outcome.{IsInside};
ghost use Rattle.spe_space.specs.Slots.{IsSized};

use crate::fault::SpaceFault;
use crate::slot::{Slot, zeros};
use std::alloc::{AllocError, Global};
use std::collections::BTreeSet;

/// A space whose pages are kept in memory, with no reserved bytes, and whose free pages are a set of its own.
///
/// Page 1 may hold anything. It never answers Busy, Read, Stopped or Corrupt.
#[derive(Debug, Drop)]
pub struct MapSpace {
    pub(crate) slots: Vec<Slot>,
    pub(crate) free_pages: BTreeSet<u32>,
    pub(crate) size: u32,
    limit: u32,
    pub(crate) refusal: Option<SpaceFault>,
    pub(crate) alloc: Global,
    ghost range: { IsPageSize size },
    ghost each: { All (IsSized size) slots.items },
    ghost some: { 1 ≤ vec_len slots },
    ghost few: { vec_len slots ≤ limit },
    ghost most: { limit ≤ 2097152 },
    ghost bounded: { limit * size ≤ 1073741824 },
    ghost inside: { (n : ℕ) → IsTrue (contains nat_cmp free_pages n) → IsLaterPage (vec_len slots) n },
}

impl MapSpace {
    ghost use Rattle.spe_space.specs.View.{map_size, map_count, map_limit, map_below, map_seen, map_laid, map_free, map_refusal};

    /// So many pages of zeros, none of which was given or put or is free; it may come to have `limit`.
    pub fn new(
        alloc: Global,
        page_size: u32,
        pages: u32,
        limit: u32,
    ) -> Result<MapSpace, AllocError>
        requires range { IsPageSize page_size }
        requires first { 1 ≤ pages }
        requires few { pages ≤ limit }
        requires most { limit * page_size ≤ 1073741824 }
        ensures size { IfOk result (λ it. map_size it ≡ page_size) }
        ensures count { IfOk result (λ it. map_count it ≡ pages) }
        ensures limit { IfOk result (λ it. map_limit it ≡ limit) }
        ensures below { IfOk result (λ it. (n : ℕ) → IsInside pages n → map_below it n ≡ Some (replicate page_size 0)) }
        ensures seen { IfOk result (λ it. (n : ℕ) → map_seen it n ≡ []) }
        ensures laid { IfOk result (λ it. (n : ℕ) → map_laid it n ≡ None) }
        ensures free { IfOk result (λ it. (n : ℕ) → map_free it n ≡ false) }
        ensures refusal { IfOk result (λ it. map_refusal it ≡ None) }
    {
        let mut slots = Vec::new(alloc);
        for _ in 0..pages {
            slots.push(zeros(alloc, page_size, false)?)?;
        }
        Ok(MapSpace {
            slots,
            free_pages: BTreeSet::new(alloc),
            size: page_size,
            limit,
            refusal: None,
            alloc,
        })
    }

    /// How many pages the space may come to have.
    pub fn limit(&self) -> u32
        ensures { result ≡ map_limit self.now }
    {
        self.limit
    }

    /// Sets a page as it is below the space, before it is given.
    pub fn load(&mut self, page: u32, bytes: &[u8])
        requires inside { IsInside (map_count self.old) page }
        requires size { length bytes.now ≡ map_size self.old }
        requires fresh { map_seen self.old page ≡ [] }
        ensures below { map_below self.new page ≡ Some bytes.now }
        ensures others { (n : ℕ) → n ≢ page → map_below self.new n ≡ map_below self.old n }
        ensures seen { map_seen self.new ≡ map_seen self.old }
        ensures laid { map_laid self.new ≡ map_laid self.old }
        ensures free { map_free self.new ≡ map_free self.old }
        ensures size { map_size self.new ≡ map_size self.old }
        ensures count { map_count self.new ≡ map_count self.old }
        ensures limit { map_limit self.new ≡ map_limit self.old }
        ensures refusal { map_refusal self.new ≡ map_refusal self.old }
    {
        let slot = &mut self.slots[page as usize - 1];
        slot.below.as_mut_slice().copy_from_slice(bytes);
        slot.got = false;
    }

    pub(crate) fn count(&self) -> u32
        ensures { result ≡ map_count self.now }
    {
        self.slots.len() as u32
    }

    pub(crate) fn has(&self, page: u32) -> bool
        ensures there { result ≡ true → (0 < page) × (page - 1 < length self.now.slots.items) }
        ensures missing { result ≡ false → (page ≡ 0) ⊎ (vec_len self.now.slots < page) }
    {
        page > 0 && page as usize <= self.slots.len()
    }

    // Whether there may be sixteen pages more.
    pub(crate) fn has_room(&self) -> bool
        ensures room { result ≡ true → map_count self.now + 16 ≤ map_limit self.now }
        ensures full { result ≡ false → map_limit self.now < map_count self.now + 16 }
    {
        self.count() + 16 <= self.limit
    }

    // Keeps a fault, and gives it back.
    pub(crate) fn refuse(&mut self, fault: SpaceFault) -> SpaceFault
        ensures fault { result ≡ fault }
        ensures kept { self.new ≡ record self.old { refusal = Some fault } }
    {
        self.refusal = Some(fault);
        fault
    }
}

/// The pages from `first` up to `end`, without it.
pub(crate) fn pages_between(
    alloc: Global,
    first: u32,
    end: u32,
) -> Result<BTreeSet<u32>, AllocError>
    requires { first ≤ end }
    ensures { IfOk result (λ set. (n : ℕ) → contains nat_cmp set n ≡ (nat_le first n && nat_lt n end)) }
{
    let mut set = BTreeSet::new(alloc);
    for page in first..end {
        let _ = set.insert(page)?;
    }
    Ok(set)
}
