//! What is known once all was read that recovery rests on.

ghost use Rattle.std.specs.Prelude.{◌≡◌, ◌*◌, ◌^◌, ◌≤◌, ◌++◌, ℕ, nat_lt, length, take, drop, unwrap_or, Ok, IfErr, IfOk};
ghost use Rattle.std.specs.Option.{option_map};
ghost use Rattle.spe_model.specs.declared.file.FileNo.TheVariants.{Database};
ghost use Rattle.spe_model.specs.Content.{Content, bytes_of};
ghost use Rattle.spe_model.specs.Header.{header_of, page_size_at};
ghost use Rattle.spe_model.specs.Recovery.{file_page_size, image_of, recovered_to, recovered_with};
ghost use Rattle.spe_recover.specs.Seen.{IsScanned};
ghost use Rattle.spe_recover.specs.Survey.{AreHeld, Counts, Surveys, IsLimited, IsOfFiles, hot_outcome};

use crate::seen::Seen;
use spe_model::{Header, RecoverFault, page_count};

/// What the recovered pages are.
#[derive(Clone, Copy, Debug)]
pub struct Survey {
    /// The header of the recovered page 1.
    pub header: Header,
    /// Bytes in a page.
    pub page_size: u32,
    /// How many bytes the file has.
    pub size: u64,
    /// The number of pages.
    pub pages: u32,
}

// The most bytes that the pages of a database may have.
const MOST_BYTES: u64 = 1 << 30;

fn is_too_large(count: u64, page_size: u32) -> bool
    ensures { result ≡ nat_lt (2 ^ 30) (count * page_size) }
{
    match count.checked_mul(u64::from(page_size)) {
        Some(bytes) => bytes > MOST_BYTES,
        None => true,
    }
}

// Whether each page above the whole ones of the file is held by a journal.
fn are_held(seen: &Seen, whole: u64, count: u64) -> bool
    requires { count ≤ 2 ^ 30 }
    ensures { AreHeld seen.now whole count result }
{
    let mut left = count;
    while left > whole {
        if !seen.holders.contains_key(&(left as u32)) {
            return false;
        }
        left -= 1;
    }
    true
}

// The number of pages, where they are not too many and all there.
fn count_pages(seen: &Seen, page_size: u32, count: u64, size: u64) -> Result<u32, RecoverFault>
    requires low { 512 ≤ page_size }
    requires some { 1 ≤ count }
    ensures counts { (content : Content) → page_size ≡ file_page_size content → size ≡ length (bytes_of content Database) →
        IsScanned content page_size seen.now → Counts content count result (recovered_to content count) }
    ensures plain { IfErr result IsOfFiles }
    ensures some { IfOk result (λ n. 1 ≤ n) }
    ensures few { IfOk result (λ n. n * page_size ≤ 2 ^ 30) }
{
    if is_too_large(count, page_size) {
        return Err(RecoverFault::TooLarge { pages: count });
    }
    if !are_held(seen, size / u64::from(page_size), count) {
        return Err(RecoverFault::ShortFile {
            pages: count as u32,
            bytes: size,
        });
    }
    Ok(count as u32)
}

// The pages, given the first bytes of the recovered page 1.
fn survey_with(seen: &Seen, front: &[u8], page_size: u32, size: u64) -> Result<Survey, RecoverFault>
    requires low { 512 ≤ page_size }
    requires paged { page_size ≡ page_size_at front.now }
    ensures surveys { (content : Content) → page_size ≡ file_page_size content → size ≡ length (bytes_of content Database) →
        IsScanned content page_size seen.now → front.now ≡ take 100 (image_of content 1) →
        Surveys content result (recovered_with content (header_of (take 100 (image_of content 1)))) }
    ensures plain { IfErr result IsOfFiles }
    ensures same { IfOk result (λ found. found.page_size ≡ page_size) }
    ensures limits { IfOk result IsLimited }
{
    let header = match Header::read(front) {
        Ok(header) => header,
        Err(fault) => return Err(RecoverFault::Header(fault)),
    };
    match count_pages(seen, page_size, page_count(&header, size), size) {
        Ok(pages) => Ok(Survey {
            header,
            page_size,
            size,
            pages,
        }),
        Err(fault) => Err(fault),
    }
}

// The first bytes of the recovered page 1, given those of the file.
fn lay_rest(front: &mut [u8; 100], seen: &Seen)
    ensures { front.new ≡ take 24 front.old ++ unwrap_or seen.now.rest (drop 24 front.old) }
{
    if let Some(rest) = &seen.rest {
        front[24..].copy_from_slice(rest);
    }
}

/// The pages, given the first 100 bytes of the file, its length and what the hot records say.
pub fn survey_hot(
    seen: &Seen,
    front: &mut [u8; 100],
    page_size: u32,
    size: u64,
) -> Result<Survey, RecoverFault>
    requires low { 512 ≤ page_size }
    requires paged { page_size ≡ page_size_at front.old }
    ensures surveys { (content : Content) → page_size ≡ file_page_size content → size ≡ length (bytes_of content Database) →
        IsScanned content page_size seen.now → front.old ≡ take 100 (bytes_of content Database) →
        Surveys content result (hot_outcome content) }
    ensures plain { IfErr result IsOfFiles }
    ensures same { IfOk result (λ found. found.page_size ≡ page_size) }
    ensures limits { IfOk result IsLimited }
{
    if let Some(clash) = seen.clash {
        return Err(RecoverFault::Overlap {
            page: clash.page,
            a: clash.first,
            b: clash.second,
        });
    }
    lay_rest(front, seen);
    survey_with(seen, front, page_size, size)
}
