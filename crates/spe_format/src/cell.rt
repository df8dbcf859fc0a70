//! The cells of a b-tree page, as they lie in it.

ghost use Rattle.std.specs.Prelude.{◌≡◌, ◌≤◌, IfSome, length};
ghost use Rattle.std.specs.Option.{option_map};
ghost use Rattle.spe_model.specs.Cell.{number_at, long_at, left_at, payload_at, key_at, bytes_at, chain_at, cell_at};
ghost use Rattle.spe_format.specs.View.{cell_seen};

use crate::kind::{has_payload, is_leaf, is_table, local_size};
use crate::varint::read_varint;
use spe_model::{Kind, u32_of};

/// A cell that borrows its page. Parts that its kind has not are 0 or empty.
#[derive(Clone, Copy, Debug)]
pub struct Parts<'a> {
    /// The child whose keys are at most this cell's; interior pages have it.
    pub left: u32,
    /// The rowid; table pages have it.
    pub key: i64,
    /// The length of the whole payload in bytes, at most 2^31 - 1.
    pub payload: u64,
    /// The part of the payload that stands in the page.
    pub local: &'a [u8],
    /// The first overflow page of the rest, or 0 where there is none.
    pub chain: u32,
}

fn number_of(bytes: &[u8]) -> Option<(u64, &[u8])>
    ensures value { option_map (λ x. (x.0, x.1.now)) result ≡ number_at bytes.now }
    ensures shorter { IfSome result (λ x. length x.1.now ≤ length bytes.now) }
{
    let (number, len) = read_varint(bytes)?;
    Some((number, &bytes[len..]))
}

fn long_of(bytes: &[u8]) -> Option<(u32, &[u8])>
    ensures value { option_map (λ x. (x.0, x.1.now)) result ≡ long_at bytes.now }
    ensures shorter { IfSome result (λ x. length x.1.now ≤ length bytes.now) }
{
    if bytes.len() < 4 {
        return None;
    }
    Some((u32_of(bytes, 0), &bytes[4..]))
}

#[tactic(auto, unfolding(spe_model::specs::Cell::left_at))]
fn left_of(kind: Kind, bytes: &[u8]) -> Option<(u32, &[u8])>
    ensures value { option_map (λ x. (x.0, x.1.now)) result ≡ left_at kind bytes.now }
    ensures shorter { IfSome result (λ x. length x.1.now ≤ length bytes.now) }
{
    if is_leaf(kind) {
        Some((0, bytes))
    } else {
        long_of(bytes)
    }
}

#[tactic(auto, unfolding(spe_model::specs::Cell::payload_at))]
fn payload_of(kind: Kind, bytes: &[u8]) -> Option<(u64, &[u8])>
    ensures value { option_map (λ x. (x.0, x.1.now)) result ≡ payload_at kind bytes.now }
    ensures shorter { IfSome result (λ x. length x.1.now ≤ length bytes.now) }
{
    if has_payload(kind) {
        number_of(bytes)
    } else {
        Some((0, bytes))
    }
}

#[tactic(auto, unfolding(spe_model::specs::Cell::key_at))]
fn key_of(kind: Kind, bytes: &[u8]) -> Option<(i64, &[u8])>
    ensures value { option_map (λ x. (x.0, x.1.now)) result ≡ key_at kind bytes.now }
    ensures shorter { IfSome result (λ x. length x.1.now ≤ length bytes.now) }
{
    if is_table(kind) {
        let (number, rest) = number_of(bytes)?;
        Some((number.cast_signed(), rest))
    } else {
        Some((0, bytes))
    }
}

#[tactic(auto, unfolding(spe_model::specs::Cell::bytes_at))]
pub(crate) fn bytes_of(count: u64, bytes: &[u8]) -> Option<(&[u8], &[u8])>
    ensures value { option_map (λ x. (x.0.now, x.1.now)) result ≡ bytes_at count bytes.now }
    ensures shorter { IfSome result (λ x. length x.1.now ≤ length bytes.now) }
{
    if (bytes.len() as u64) < count {
        return None;
    }
    Some(bytes.split_at(count as usize))
}

#[tactic(auto, unfolding(spe_model::specs::Cell::chain_at))]
pub(crate) fn chain_of(whole: bool, bytes: &[u8]) -> Option<(u32, &[u8])>
    ensures value { option_map (λ x. (x.0, x.1.now)) result ≡ chain_at whole bytes.now }
    ensures shorter { IfSome result (λ x. length x.1.now ≤ length bytes.now) }
{
    if whole {
        Some((0, bytes))
    } else {
        long_of(bytes)
    }
}

/// The cell at the front of some bytes, and the bytes after it.
#[tactic(auto, unfolding(spe_model::specs::Cell::cell_at))]
pub fn cell_of(kind: Kind, usable: u32, bytes: &[u8]) -> Option<(Parts<'_>, &[u8])>
    requires low { 480 ≤ usable }
    requires high { usable ≤ 65536 }
    ensures value { option_map (λ x. (cell_seen x.0, x.1.now)) result ≡ cell_at kind usable bytes.now }
    ensures shorter { IfSome result (λ x. length x.1.now ≤ length bytes.now) }
{
    let (left, rest) = left_of(kind, bytes)?;
    let (payload, rest) = payload_of(kind, rest)?;
    if payload > 0x7fff_ffff {
        return None;
    }
    let (key, rest) = key_of(kind, rest)?;
    let size = if has_payload(kind) {
        local_size(kind, payload, usable)
    } else {
        0
    };
    let (local, rest) = bytes_of(size, rest)?;
    let (chain, rest) = chain_of(size == payload, rest)?;
    Some((
        Parts {
            left,
            key,
            payload,
            local,
            chain,
        },
        rest,
    ))
}
