//! With which bytes a core can begin.

ghost use Rattle.std.specs.Prelude.{◌≡◌, ◌↔◌, IsTrue};
ghost use Rattle.spe_core.specs.Opening.{IsOpening};
ghost use Rattle.spe_core.specs.Whole.{is_whole};

use spe_model::Header;
use spe_stored::front_of;

// Whether the pages that a header names are all in a file of so many bytes.
fn is_whole(header: &Header, size: u64) -> bool
    ensures { result ≡ is_whole header.now size }
{
    let end = u64::from(header.pages) * u64::from(header.page_size);
    header.is_size_valid() && end <= 1 << 30 && end <= size
}

/// Whether a core can begin with these bytes: a database file with a legal header, whose size in pages
/// counts, and whose pages are all there and take at most 2^30 bytes.
pub fn is_opening(bytes: &[u8]) -> bool
    ensures { IsTrue result ↔ IsOpening bytes.now }
{
    match Header::read(front_of(bytes)) {
        Ok(header) => is_whole(&header, bytes.len() as u64),
        Err(_) => false,
    }
}
