//! Numbers that pages name.

ghost use Rattle.std.specs.Prelude.{◌≡◌, ◌≤◌, length, slice_index, take};
ghost use Rattle.spe_model.specs.declared.file.FileNo.TheVariants.{Database};
ghost use Rattle.spe_model.specs.Big.{u32_at};
ghost use Rattle.spe_model.specs.Content.{bytes_of};
ghost use Rattle.spe_model.specs.Recovery.{file_page_size};

use crate::files::Files;
use spe_model::{FileNo, u16_of};

// Where the size of a page stands on page 1.
const PAGE_SIZE_AT: usize = 16;

/// The size of a page, as the file's page 1 names it.
#[tactic(auto, unfolding(spe_model::specs::Header::page_size_at))]
pub fn page_size(files: &Files) -> u32
    requires { 100 ≤ length (bytes_of files.now Database) }
    ensures { result ≡ file_page_size files.now }
{
    let (front, _) = files.bytes(FileNo::Database).split_at(100);
    match u16_of(front, PAGE_SIZE_AT) {
        1 => 65536,
        size => u32::from(size),
    }
}

fn byte_at(bytes: &[u8], at: usize) -> u8
    ensures { result ≡ slice_index bytes.now at }
{
    bytes.get(at).copied().unwrap_or(0)
}

/// The number at a place near the front, where a byte that is missing counts as 0.
#[tactic(auto, unfolding(spe_model::specs::Big::u32_at))]
pub fn number_at(bytes: &[u8], at: usize) -> u32
    requires { at ≤ 100 }
    ensures { result ≡ u32_at bytes.now at }
{
    u32::from_be_bytes([
        byte_at(bytes, at),
        byte_at(bytes, at + 1),
        byte_at(bytes, at + 2),
        byte_at(bytes, at + 3),
    ])
}

/// The first 100 bytes of a page, as far as it has them.
pub fn front_of(page: &[u8]) -> &[u8]
    ensures { result.now ≡ take 100 page.now }
{
    let (front, _) = page.split_at(page.len().min(100));
    front
}
