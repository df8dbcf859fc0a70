//! The room of a database's pages: spaces over the files of a disk.
//!
//! `DiskSpace` is the space over the pages of a recovered database file, which is not written; it keeps no
//! page. `Origin` says what its disk was before the pages were read, and `found_pages` that the space gives
//! the pages that recovery found.
#![tactic(auto)]

mod disk_space;
mod found;
mod given;
mod origin;
mod read_only;

pub use disk_space::DiskSpace;
pub use found::found_pages;
pub use origin::Origin;
