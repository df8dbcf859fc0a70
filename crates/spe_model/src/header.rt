//! The first hundred bytes of a database file.

ghost use Rattle.std.specs.Prelude.{◌≡◌, ◌≢◌, ◌+◌, ◌<◌, ◌≤◌, length};
ghost use Rattle.byteorder.specs.Endian.{big_bytes};
ghost use Rattle.spe_model.specs.Header.{page_count_of, size_number, with_bytes};

use crate::bytes::{u16_of, u32_of};
use byteorder::{BigEndian, ByteOrder};
use thiserror::Error;

/// What the header of a database file names.
///
/// The fields are those of "The Database Header" in SQLite's Database File Format. Numbers are
/// big-endian in the file.
#[derive(Clone, Copy, Debug, PartialEq, Eq)]
pub struct Header {
    /// Bytes in a page: a power of two from 512 to 65536.
    pub page_size: u32,
    /// Bytes at the end of each page that no page uses.
    pub reserved: u8,
    /// The change counter.
    pub change: u32,
    /// The size in pages; it counts only where it is not 0 and `change` is `valid_for`.
    pub pages: u32,
    /// The first freelist trunk, or 0. In server form, the page that names the lists.
    pub first_free: u32,
    /// The number of free pages. In server form, 0.
    pub free_count: u32,
    /// The schema cookie.
    pub cookie: u32,
    /// The schema format: 0 or 4.
    pub schema_format: u32,
    /// The text encoding: 1, which is UTF-8. A file may have 0 in its place.
    pub encoding: u32,
    /// The change counter for which `pages` was written.
    pub valid_for: u32,
}

/// Why bytes are no header that is read here. Where several hold, the lowest number is answered.
#[derive(Clone, Copy, Debug, PartialEq, Eq, Error)]
pub enum HeaderFault {
    /// There are fewer than 100 bytes.
    #[error("the file has fewer than 100 bytes")]
    Short = 1,
    /// The first 16 bytes, the payload fractions or a version byte are not a database's.
    #[error("the file does not begin as a SQLite 3 database does")]
    NotADatabase = 2,
    /// A version byte names the write-ahead log.
    #[error("the file is in write-ahead log mode: set its journal mode to DELETE by sqlite3")]
    Wal = 3,
    /// The page size is no power of two from 512 to 65536.
    #[error("the page size is no power of two from 512 to 65536")]
    BadPageSize = 4,
    /// The file has auto-vacuum.
    #[error("the file has auto-vacuum")]
    AutoVacuum = 5,
    /// The text encoding is not UTF-8.
    #[error("the text encoding is not UTF-8")]
    Encoding = 6,
    /// Fewer than 480 bytes of a page can be used.
    #[error("fewer than 480 bytes of a page can be used")]
    Reserved = 7,
    /// The schema format is neither 0 nor 4.
    #[error("the schema format is neither 0 nor 4")]
    SchemaFormat = 8,
}

const MAGIC: &[u8; 16] = b"SQLite format 3\0";

impl Header {
    ghost use Rattle.std.specs.Prelude.{◌≡◌, ◌≤◌, length, true, IsTrue, IfOk, OnOk};
    ghost use Rattle.spe_model.specs.Header.{ReadsBack, with_header, is_size_valid, IsSized, header_of, is_database, is_wal, is_page_size, front_fault_of, node_of, page_size_at, unless};

    #[tactic(auto, unfolding(crate::specs::Header::is_database))]
    fn is_database(bytes: &[u8]) -> bool
        requires { 100 ≤ length bytes.now }
        ensures { result ≡ is_database bytes.now }
    {
        bytes.starts_with(MAGIC)
            && matches!(bytes[18], 1 | 2)
            && matches!(bytes[19], 1 | 2)
            && bytes[21] == 64
            && bytes[22] == 32
            && bytes[23] == 32
    }

    #[tactic(auto, unfolding(crate::specs::Header::is_wal))]
    fn is_wal(bytes: &[u8]) -> bool
        requires { 100 ≤ length bytes.now }
        ensures { result ≡ is_wal bytes.now }
    {
        bytes[18] == 2 || bytes[19] == 2
    }

    #[tactic(auto, unfolding(crate::specs::Header::page_size_at))]
    fn page_size_of(bytes: &[u8]) -> u32
        requires { 100 ≤ length bytes.now }
        ensures { result ≡ page_size_at bytes.now }
    {
        match u16_of(bytes, 16) {
            1 => 65536,
            size => u32::from(size),
        }
    }

    #[tactic(auto, unfolding(crate::specs::Header::is_page_size))]
    fn is_page_size(size: u32) -> bool
        ensures value { result ≡ is_page_size size }
        ensures within { IsTrue result → (512 ≤ size) × (size ≤ 65536) }
    {
        matches!(
            size,
            512 | 1024 | 2048 | 4096 | 8192 | 16384 | 32768 | 65536
        )
    }

    /// The page size in bytes that the front of a database file names, of which 100 bytes are looked
    /// at, or the lowest of the first four faults, without which it is known.
    pub fn read_page_size(bytes: &[u8]) -> Result<u32, HeaderFault>
        ensures size { result ≡ unless (front_fault_of bytes.now) (page_size_at bytes.now) }
        ensures power { IfOk result (λ size. is_page_size size ≡ true) }
        ensures low { IfOk result (λ size. 512 ≤ size) }
        ensures high { IfOk result (λ size. size ≤ 65536) }
        ensures long { OnOk result (100 ≤ length bytes.now) }
    {
        if bytes.len() < 100 {
            return Err(HeaderFault::Short);
        }
        if !Header::is_database(bytes) {
            return Err(HeaderFault::NotADatabase);
        }
        if Header::is_wal(bytes) {
            return Err(HeaderFault::Wal);
        }
        let page_size = Header::page_size_of(bytes);
        if !Header::is_page_size(page_size) {
            return Err(HeaderFault::BadPageSize);
        }
        Ok(page_size)
    }

    /// Reads the header at the front of a database file, of which 100 bytes are looked at.
    ///
    /// The fault is the lowest that holds. A text encoding of 0 is taken as 1.
    pub fn read(bytes: &[u8]) -> Result<Header, HeaderFault>
        ensures header { result ≡ header_of bytes.now }
        ensures sized { IfOk result IsSized }
    {
        let page_size = Header::read_page_size(bytes)?;
        if u32_of(bytes, 52) != 0 {
            return Err(HeaderFault::AutoVacuum);
        }
        if u32_of(bytes, 56) > 1 {
            return Err(HeaderFault::Encoding);
        }
        if page_size < u32::from(bytes[20]) + 480 {
            return Err(HeaderFault::Reserved);
        }
        let schema_format = u32_of(bytes, 44);
        if schema_format != 0 && schema_format != 4 {
            return Err(HeaderFault::SchemaFormat);
        }
        Ok(Header {
            page_size,
            reserved: bytes[20],
            change: u32_of(bytes, 24),
            pages: u32_of(bytes, 28),
            first_free: u32_of(bytes, 32),
            free_count: u32_of(bytes, 36),
            cookie: u32_of(bytes, 40),
            schema_format,
            encoding: 1,
            valid_for: u32_of(bytes, 92),
        })
    }

    /// Writes what the header names into page 1, and changes no other byte.
    ///
    /// Each number stands at its place in "The Database Header" of SQLite's Database File Format; a page
    /// size of 65536 is written as 1.
    pub fn put(&self, page: &mut [u8])
        requires { 100 ≤ length page.old }
        ensures bytes { page.new ≡ with_header self.now page.old }
        ensures reads_back { ReadsBack self.now page.new }
    {
        let size = size_number(self.page_size);
        put_bytes(page, 16, &[(size / 256 % 256) as u8, (size % 256) as u8]);
        put_u8(page, 20, self.reserved);
        put_u32(page, 24, self.change);
        put_u32(page, 28, self.pages);
        put_u32(page, 32, self.first_free);
        put_u32(page, 36, self.free_count);
        put_u32(page, 40, self.cookie);
        put_u32(page, 44, self.schema_format);
        put_u32(page, 56, self.encoding);
        put_u32(page, 92, self.valid_for);
    }

    /// Whether the size in pages that the header names counts.
    pub fn is_size_valid(&self) -> bool
        ensures { result ≡ is_size_valid self.now }
    {
        self.pages != 0 && self.change == self.valid_for
    }

    /// In server form, the page that names the free lists.
    pub fn node(&self) -> Option<u32>
        ensures { result ≡ node_of self.now }
    {
        if self.first_free != 0 && self.free_count == 0 {
            Some(self.first_free)
        } else {
            None
        }
    }
}

fn put_bytes(page: &mut [u8], at: usize, bytes: &[u8])
    requires { at + length bytes.now ≤ length page.old }
    ensures bytes { page.new ≡ with_bytes at bytes.now page.old }
    ensures len { length page.new ≡ length page.old }
{
    let end = at + bytes.len();
    page[at..end].copy_from_slice(bytes);
}

// The number at offset 16 that stands for a page size.
fn size_number(size: u32) -> u32
    ensures { result ≡ size_number size }
{
    if size == 65536 { 1 } else { size }
}

fn put_u8(page: &mut [u8], at: usize, number: u8)
    requires { at + 1 ≤ length page.old }
    ensures bytes { page.new ≡ with_bytes at (big_bytes 1 number) page.old }
    ensures len { length page.new ≡ length page.old }
    ensures small { number < 256 }
{
    put_bytes(page, at, &[number]);
}

fn put_u32(page: &mut [u8], at: usize, number: u32)
    requires { at + 4 ≤ length page.old }
    ensures bytes { page.new ≡ with_bytes at (big_bytes 4 number) page.old }
    ensures len { length page.new ≡ length page.old }
    ensures small { number < 4294967296 }
{
    let mut bytes = [0; 4];
    BigEndian::write_u32(&mut bytes, number);
    put_bytes(page, at, &bytes);
}

/// How many pages a file of `file_bytes` bytes with this header has: what the header names where
/// that counts, else the whole pages of the file, and at least 1.
pub fn page_count(header: &Header, file_bytes: u64) -> u64
    requires { header.now.page_size ≢ 0 }
    ensures { result ≡ page_count_of header.now file_bytes }
{
    if header.is_size_valid() {
        u64::from(header.pages)
    } else {
        (file_bytes / u64::from(header.page_size)).max(1)
    }
}
