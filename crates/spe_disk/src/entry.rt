//! What the log of a disk in memory is made of.

use spe_model::FileNo;

/// Some bytes of the log's store, by their places.
#[derive(Clone, Copy, Debug)]
pub struct Span {
    pub start: usize,
    pub end: usize,
}

/// An operation that was made.
#[derive(Clone, Copy, Debug)]
pub enum Entry {
    /// To this file, from this byte on, these bytes were written.
    Written(FileNo, u64, Span),
    /// This file was cut to at most this length.
    Cut(FileNo, u64),
}
