//! What recovery finds.

use crate::header::HeaderFault;
use thiserror::Error;

/// What the recovered pages are, once every hot journal was rolled back.
#[derive(Clone, Copy, Debug, PartialEq, Eq)]
pub struct Recovered {
    /// Bytes in a page.
    pub page_size: u32,
    /// Bytes at the end of each page that no page uses.
    pub reserved: u8,
    /// The number of pages.
    pub pages: u32,
    /// The page that names the free lists, where the file is in server form.
    pub node: Option<u32>,
    /// A bit for each journal that was hot, journal 0 in the lowest.
    pub rolled: u16,
    /// How many operations recovery made.
    pub ops: u64,
}

/// Why a set of files is not recovered. The first that holds is answered, in this order.
#[derive(Clone, Copy, Debug, PartialEq, Eq, Error)]
pub enum RecoverFault {
    /// The disk failed.
    #[error("the disk failed")]
    Disk,
    /// The header of the file, or of the recovered page 1, has this fault.
    #[error("page 1 is not the header of a database that is read here: {0}")]
    Header(#[source] HeaderFault),
    /// A journal has a head that names another page size than the file; the lowest such journal.
    #[error("journal {id} is of pages of {size} bytes, and the database is not")]
    JournalPage { id: u8, size: u32 },
    /// A page is in two hot journals; the least such page, and the two lowest journals.
    #[error("page {page} stands in two hot journals, {a} and {b}")]
    Overlap { page: u32, a: u8, b: u8 },
    /// The pages would take more than 2^30 bytes.
    #[error("the database has {pages} pages, which are more than 2^30 bytes")]
    TooLarge { pages: u64 },
    /// A page up to the page count is in no hot journal, and not whole in the file of so many bytes.
    #[error("the database has {pages} pages, and its file only {bytes} bytes")]
    ShortFile { pages: u32, bytes: u64 },
    /// The free lists are not in server form, or the size in pages does not count.
    #[error("the free lists are not in server form: prepare the database first")]
    NotPrepared,
    /// There was no memory.
    #[error("out of memory")]
    Memory,
}
