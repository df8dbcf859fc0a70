//! Whether the cells of a page lie and stand in order, seen in one pass over them.

ghost use Rattle.std.specs.Prelude.{◌≡◌, ◌≤◌, IsTrue, Some, length};
ghost use Rattle.std.specs.List.{list_all};
ghost use Rattle.std.specs.Option.{option_map};
ghost use Rattle.spe_model.specs.Page.{is_within, numbers, placed_at, placed_all};
ghost use Rattle.spe_format.specs.Order.{least_of, order_of, seen_after, trail_of};

use crate::cell::cell_of;
use byteorder::{BigEndian, ByteOrder};
use spe_model::Kind;

/// The order of cells.
#[derive(Clone, Copy, Debug)]
pub struct Order {
    /// Each cell ends at or before the begin of each one before it, so that no two share a byte.
    pub falls: bool,
    /// Each key is above the one before it.
    pub rises: bool,
}

/// The begin of a cell, where it ends, and its key.
#[derive(Clone, Copy, Debug)]
pub struct Place {
    pub begin: usize,
    pub end: usize,
    pub key: i64,
}

// Where the cell at an offset lies, and its key.
#[tactic(auto, unfolding(spe_model::specs::Page::placed_at))]
fn place_of(kind: Kind, page: &[u8], offset: usize) -> Option<Place>
    requires low { 480 ≤ length page.now }
    requires high { length page.now ≤ 65536 }
    requires within { offset ≤ length page.now }
    ensures { result ≡ option_map (trail_of offset) (placed_at kind (length page.now) page.now offset) }
{
    let (_, tail) = page.split_at(offset);
    let (parts, rest) = cell_of(kind, page.len() as u32, tail)?;
    Some(Place {
        begin: offset,
        end: page.len() - rest.len(),
        key: parts.key,
    })
}

// The last of the cells so far, of which it has the least begin.
fn least_of(last: Place, next: Place) -> Place
    ensures { result ≡ least_of last next }
{
    Place {
        begin: last.begin.min(next.begin),
        end: next.end,
        key: next.key,
    }
}

// The order with one cell more.
fn with_place(order: Order, last: Place, next: Place) -> Order
    ensures { result ≡ seen_after order last next }
{
    Order {
        falls: order.falls && next.end <= last.begin,
        rises: order.rises && last.key < next.key,
    }
}

/// The order of the cells at the offsets of an array, or `None` where one of them runs out of the
/// page.
pub fn order_of(kind: Kind, page: &[u8], array: &[u8]) -> Option<Order>
    requires low { 480 ≤ length page.now }
    requires high { length page.now ≤ 65536 }
    requires within { IsTrue (list_all (is_within 0 (length page.now)) (numbers array.now)) }
    ensures { result ≡ option_map order_of (placed_all kind (length page.now) page.now (numbers array.now)) }
{
    let mut order = Order {
        falls: true,
        rises: true,
    };
    let [_, _, rest @ ..] = array else {
        return Some(order);
    };
    let mut last = place_of(kind, page, usize::from(BigEndian::read_u16(array)))?;
    let mut left = rest;
    while let [_, _, rest @ ..] = left {
        let next = place_of(kind, page, usize::from(BigEndian::read_u16(left)))?;
        order = with_place(order, last, next);
        last = least_of(last, next);
        left = rest;
    }
    Some(order)
}
