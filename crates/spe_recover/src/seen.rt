//! What is kept of the hot records that were read.

use std::collections::BTreeMap;

/// A page that two journals hold.
#[derive(Clone, Copy, Debug)]
pub struct Clash {
    /// The number of the page.
    pub page: u32,
    /// The lowest journal that holds it.
    pub first: u8,
    /// The next journal that holds it.
    pub second: u8,
}

/// Which journals hold which pages, and what the header becomes.
#[derive(Debug, Drop)]
pub struct Seen {
    /// The lowest journal that holds a page, by the page's number.
    pub holders: BTreeMap<u32, u8>,
    /// The least page that two journals hold.
    pub clash: Option<Clash>,
    /// Bytes 24 to 99 of the first record of page 1.
    pub rest: Option<[u8; 76]>,
}
