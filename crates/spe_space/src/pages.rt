//! What every space of pages does.

ghost use Rattle.std.specs.Prelude.{◌≡◌, ◌≢◌, ◌⊎◌, ◌+◌, ◌*◌, ◌^◌, ◌<◌, ◌≤◌, ℕ, Bool, true, false, Option, replicate, length, Some, IsSome, IsTrue, IfOk, IfErr, IfSome, OnOk, OnErr};
ghost use Rattle.spe_model.specs.Paging.{Paging, PageMap, Given, Agrees, lay, IsPageSize, IsUsableSize};
ghost use Rattle.spe_space.specs.declared.fault.SpaceFault.{SpaceFault as Fault};
ghost use Rattle.spe_space.specs.Free.{EachStanding, IsApart, IsSame, IsNew, IsLaterPage};
ghost use Rattle.spe_space.specs.Front.{number_in, recounted, IsGiven, SpoilsFront, SpoilsGrowth};
ghost use Rattle.spe_space.specs.Outcome.{refusal_after, IsInside, Fits, FitsGet, FitsPut, FitsExtend, OnCorrupt};

use crate::fault::SpaceFault;

/// Numbered pages, the first of which is 1.
///
/// Nothing is known of a page before it was given or put, since others may change it until then. So
/// what is said of pages is said of every list of pages below the space that agrees with those given.
/// A page may be given more than once. Such a list agrees with each time: where a space that is not
/// steady gave different bytes for one page, none does, and nothing is said of pages any more. With a
/// steady space some list agrees always. A space in memory is steady, and so is one over a file whose
/// content is told.
pub trait Pages {
    // The bytes of a page.
    ghost size: { Self → ℕ };

    // The bytes of a page that the format uses.
    ghost used: { Self → ℕ };

    // The number of pages.
    ghost count: { Self → ℕ };

    // How many pages there may come to be.
    ghost limit: { Self → ℕ };

    // Whether others may add pages meanwhile.
    ghost shared: { Self → Bool };

    // Whether pages can only be read.
    ghost sealed: { Self → Bool };

    // The pages below the space, where it tells them.
    ghost told: { Self → Option Paging };

    // The pages that were given, as they were below the space: of each, the bytes of each time that counts.
    ghost seen: { Self → Given };

    // The pages that were put, with their newest bytes.
    ghost laid: { Self → PageMap };

    // Whether a page is free in a list of pages with `laid` over it.
    ghost is_free: { Self → Paging → ℕ → Bool };

    // Whether page 1 of such a list names the space's number of pages, and its free pages are in order.
    ghost stands: { Self → Paging → Type 0 };

    // The faults that such a space may answer.
    ghost admits: { Fault → Bool };

    // The last fault other than Memory.
    ghost refusal: { Self → Option Fault };

    // Whether a page that such a space gave before is given with the same bytes again.
    ghost steady: { Bool };

    /// The size of a page in bytes.
    fn page_size(&self) -> u32
        ensures value { result ≡ size self.now }
        ensures range { IsPageSize result };

    /// How many bytes of a page the format uses, from 480 to the page size.
    fn usable(&self) -> u32
        ensures value { result ≡ used self.now }
        ensures range { IsUsableSize (size self.now) result }
        ensures most { result ≤ 65536 };

    /// Copies a page into `buf`: its newest bytes where it was put, else those below the space.
    ///
    /// A page that was not put is given by this. Where it was given before, the space may give other bytes
    /// now only if it is not steady.
    fn get(&mut self, page: u32, buf: &mut [u8]) -> Result<(), SpaceFault>
        requires { length buf.old ≡ size self.old }
        ensures ok { OnOk result ((pages : Paging) → Agrees pages (seen self.new)
            → buf.new ≡ lay (laid self.old) pages page) }
        ensures earlier { (pages : Paging) → Agrees pages (seen self.new) → Agrees pages (seen self.old) }
        ensures only { (n : ℕ) → n ≢ page → seen self.new n ≡ seen self.old n }
        ensures known { IsSome (laid self.old page) → seen self.new page ≡ seen self.old page }
        ensures laid { laid self.new ≡ laid self.old }
        ensures free { is_free self.new ≡ is_free self.old }
        ensures stands { EachStanding (seen self.new) (stands self.old) (stands self.new) }
        ensures told { told self.new ≡ told self.old }
        ensures size { size self.new ≡ size self.old }
        ensures used { used self.new ≡ used self.old }
        ensures limit { limit self.new ≡ limit self.old }
        ensures sealed { sealed self.new ≡ sealed self.old }
        ensures count { count self.old ≤ count self.new }
        ensures alone { shared self.old ≡ false → (count self.new ≡ count self.old) × (shared self.new ≡ false) }
        ensures refusal { refusal self.new ≡ refusal_after result (refusal self.old) }
        ensures inside { OnOk result (IsInside (count self.new) page) }
        ensures fault { IfErr result (FitsGet (count self.new) page) }
        ensures admitted { IfErr result (λ fault. IsTrue (admits fault)) };

    /// Lays bytes over a page.
    ///
    /// Corrupt comes only on page 1: where it was neither given nor put, where the bytes have not its
    /// first 24 bytes and its number of pages, or where they are no legal header with a valid page
    /// count, which is the space's number of pages unless the space tells what its pages hold. A
    /// read-only space answers PageOut with page 0.
    fn put(&mut self, page: u32, bytes: &[u8]) -> Result<(), SpaceFault>
        requires { length bytes.now ≡ size self.old }
        ensures ok { OnOk result (laid self.new page ≡ Some bytes.now) }
        ensures err { OnErr result (laid self.new page ≡ laid self.old page) }
        ensures others { (n : ℕ) → n ≢ page → laid self.new n ≡ laid self.old n }
        ensures seen { seen self.new ≡ seen self.old }
        ensures free { EachStanding (seen self.old) (stands self.old) (λ pages.
            IsApart (lay (laid self.old) pages) (is_free self.old pages) page bytes.now
            → IsSame (is_free self.old pages) (is_free self.new pages)) }
        ensures stands { EachStanding (seen self.old) (stands self.old) (λ pages.
            IsApart (lay (laid self.old) pages) (is_free self.old pages) page bytes.now
            → stands self.new pages) }
        ensures told { told self.new ≡ told self.old }
        ensures size { size self.new ≡ size self.old }
        ensures used { used self.new ≡ used self.old }
        ensures limit { limit self.new ≡ limit self.old }
        ensures sealed { sealed self.new ≡ sealed self.old }
        ensures count { count self.old ≤ count self.new }
        ensures alone { shared self.old ≡ false → (count self.new ≡ count self.old) × (shared self.new ≡ false) }
        ensures refusal { refusal self.new ≡ refusal_after result (refusal self.old) }
        ensures inside { OnOk result (IsInside (count self.new) page) }
        ensures open { OnOk result (sealed self.old ≡ false) }
        ensures fault { IfErr result (Fits (sealed self.old) (count self.new) (FitsPut (count self.new) page)) }
        ensures corrupt { IfErr result (OnCorrupt
            (SpoilsFront (told self.old) (seen self.old) (laid self.old) (count self.new) bytes.now)) }
        ensures admitted { IfErr result (λ fault. IsTrue (admits fault)) };

    /// Adds 16 pages of zeros, and answers the first of them. Page 1 is put too: it then names the new
    /// number of pages, and its change counter is one more.
    ///
    /// Full comes only where there may not be 16 pages more, and Corrupt only where page 1 would be no
    /// legal header and the space does not tell what its pages hold. A read-only space answers PageOut
    /// with page 0. A fault puts nothing.
    fn extend(&mut self) -> Result<u32, SpaceFault>
        ensures front { IfOk result (λ first. (pages : Paging) → Agrees pages (seen self.new)
            → laid self.new 1 ≡ Some (recounted (first + 15) (lay (laid self.old) pages 1))) }
        ensures zeros { IfOk result (λ first. (n : ℕ) → IsNew first n
            → laid self.new n ≡ Some (replicate (size self.old) 0)) }
        ensures others { IfOk result (λ first. (n : ℕ) → n ≢ 1 → (IsNew first n → ⊥)
            → laid self.new n ≡ laid self.old n) }
        ensures err { OnErr result (laid self.new ≡ laid self.old) }
        ensures earlier { (pages : Paging) → Agrees pages (seen self.new) → Agrees pages (seen self.old) }
        ensures only { (n : ℕ) → n ≢ 1 → seen self.new n ≡ seen self.old n }
        ensures known { IsSome (laid self.old 1) → seen self.new 1 ≡ seen self.old 1 }
        ensures above { IfOk result (λ first. (count self.old < first) × (count self.new ≡ first + 15)) }
        // Where a list stands, the new pages lie above its number of pages.
        ensures numbered { IfOk result (λ first. EachStanding (seen self.new) (stands self.old) (λ pages.
            first ≡ number_in (lay (laid self.old) pages) + 1)) }
        ensures free { EachStanding (seen self.new) (stands self.old) (λ pages.
            IsSame (is_free self.old pages) (is_free self.new pages)) }
        ensures stands { EachStanding (seen self.new) (stands self.old) (stands self.new) }
        ensures told { told self.new ≡ told self.old }
        ensures size { size self.new ≡ size self.old }
        ensures used { used self.new ≡ used self.old }
        ensures limit { limit self.new ≡ limit self.old }
        ensures sealed { sealed self.new ≡ sealed self.old }
        ensures count { count self.old ≤ count self.new }
        ensures alone { shared self.old ≡ false
            → IfOk result (λ first. first ≡ count self.old + 1)
            × OnErr result (count self.new ≡ count self.old) × (shared self.new ≡ false) }
        ensures refusal { refusal self.new ≡ refusal_after result (refusal self.old) }
        ensures open { OnOk result (sealed self.old ≡ false) }
        ensures fault { IfErr result (Fits (sealed self.old) (count self.new)
            (FitsExtend (count self.new) (limit self.old))) }
        ensures corrupt { IfErr result (OnCorrupt
            (SpoilsGrowth (told self.old) (seen self.new) (laid self.old) (count self.new + 16))) }
        ensures admitted { IfErr result (λ fault. IsTrue (admits fault)) };

    // What was given is what is told.
    ghost given: { (s : Self) → IfSome (told s) (λ pages. Agrees pages (seen s)) };

    // No other adds pages once page 1 was given or put.
    ghost settled: { (s : Self) → IsGiven (seen s) 1 ⊎ IsSome (laid s 1) → shared s ≡ false };

    // There is a page 1, and never more pages than there may be.
    ghost within: { (s : Self) → IsInside (limit s) (count s) };

    // Some list of pages agrees with all that a steady space gave.
    ghost agreed: { steady ≡ true → (s : Self) → (pages : Paging) × Agrees pages (seen s) };

    // A page has 512 bytes at least, and as many pages as there may come to be take 2^30 at most.
    ghost bounded: { (s : Self) → (512 ≤ size s) × (limit s * size s ≤ 2 ^ 30) };

    // Of pages that stand, the free ones lie from 2 to the number of pages that page 1 names.
    ghost placed: { (s : Self) → (pages : Paging) → stands s pages
        → (n : ℕ) → IsTrue (is_free s pages n) → IsLaterPage (number_in (lay (laid s) pages)) n };

    // Where no other adds pages, page 1 of pages that stand names the space's number of pages.
    ghost named: { (s : Self) → (pages : Paging) → Agrees pages (seen s) → stands s pages
        → shared s ≡ false → number_in (lay (laid s) pages) ≡ count s };
}
