//! B-tree pages.

ghost use Rattle.std.specs.Prelude.{◌≡◌};

use crate::lists::Bytes;
use std::alloc::{AllocError, AllocFailed};
use std::marker::Model;
use thiserror::Error;

/// The four kinds of b-tree page.
#[derive(Clone, Copy, Debug, PartialEq, Eq)]
pub enum Kind {
    /// Rows of a table: type byte 13.
    TableLeaf,
    /// Rowids that lead to the rows of a table: type byte 5.
    TableInterior,
    /// Entries of an index: type byte 10.
    IndexLeaf,
    /// Entries of an index that lead to others: type byte 2.
    IndexInterior,
}

/// A cell of a b-tree page. Parts that its kind has not are 0 or empty.
#[derive(Debug, Drop)]
pub struct Cell {
    /// The child whose keys are at most this cell's; interior pages have it.
    pub left: u32,
    /// The rowid; table pages have it.
    pub key: i64,
    /// The length of the whole payload in bytes, at most 2^31 - 1.
    pub payload: u64,
    /// The part of the payload that stands in the page.
    pub local: Bytes,
    /// The first overflow page of the rest, or 0 where there is none.
    pub chain: u32,
}

/// Cells in the order of their keys, seen as a list.
#[derive(Debug, Drop)]
pub struct Cells {
    inner: Vec<Cell>,
}

impl Model for Cells {
    ghost use Rattle.std.specs.Prelude.{List};
    ghost use Rattle.spe_model.specs.declared.page.Cell.{Cell};

    ghost Value = { List Cell };

    ghost view = { λ t. t.inner.items };
}

impl Cells {
    ghost use Rattle.std.specs.Prelude.{◌≡◌};

    /// These cells.
    pub fn new(inner: Vec<Cell>) -> Cells
        ensures { result ≡ inner.items }
    {
        Cells { inner }
    }

    /// The cells as a slice.
    pub fn as_slice(&self) -> &[Cell]
        ensures { result.now ≡ self.now }
    {
        self.inner.as_slice()
    }

    /// The cells as a vector.
    pub fn into_vec(self) -> Vec<Cell>
        ensures { result.items ≡ self }
    {
        let Cells { inner } = self;
        inner
    }
}

/// What a b-tree page holds.
#[derive(Debug, Drop)]
pub struct PageCells {
    pub kind: Kind,
    pub cells: Cells,
    /// The right-most child, or 0 on a leaf.
    pub right: u32,
}

/// Why a page could not be read. Where several hold, the lowest number is answered.
#[derive(Clone, Copy, Debug, PartialEq, Eq, Error)]
pub enum PageFault {
    /// The type byte is that of no kind.
    #[error("the type byte is that of no b-tree page")]
    BadType = 1,
    /// The array of cell offsets, or one of its offsets, runs out of the usable bytes.
    #[error("the cell offsets run out of the usable bytes")]
    OffsetOut = 2,
    /// A cell runs out of the usable bytes, or its payload is over 2^31 - 1 bytes.
    #[error("a cell runs out of the usable bytes")]
    CellOut = 3,
    /// Two cells share a byte.
    #[error("two cells share a byte")]
    Overlap = 4,
    /// The keys of a table page do not ascend strictly.
    #[error("the keys do not ascend")]
    OutOfOrder = 5,
    /// There was no memory for the cells.
    #[error("out of memory")]
    Memory = 6,
}

impl From<AllocError> for PageFault {
    ghost use Rattle.spe_model.specs.declared.page.PageFault.TheVariants.{Memory};

    ghost from_gives = { λ _ e. e ≡ Memory };

    fn from(_: AllocError) -> PageFault {
        PageFault::Memory
    }
}

impl<T: Drop> From<AllocFailed<T>> for PageFault {
    ghost use Rattle.spe_model.specs.declared.page.PageFault.TheVariants.{Memory};

    ghost from_gives = { λ _ e. e ≡ Memory };

    fn from(_: AllocFailed<T>) -> PageFault {
        PageFault::Memory
    }
}
