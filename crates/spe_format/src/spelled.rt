//! Cells of a table's leaf in their written form.

ghost use Rattle.std.specs.Prelude.{◌≡◌, ◌≤◌, ◌++◌, IfSome, length};
ghost use Rattle.spe_format.specs.Canonical.{IsInRange};
ghost use Rattle.spe_format.specs.Packed.{IsSpelled};
ghost use Rattle.spe_format.specs.Spelling.{varint_bytes};
ghost use Rattle.spe_format.specs.View.{cell_seen};

use crate::cell::{Parts, bytes_of, chain_of};
use crate::kind::local_size;
use crate::varint::{read_varint, varint_length};
use spe_model::Kind;

// A number in its shortest spelling, and the bytes after it.
fn number_spelled(bytes: &[u8]) -> Option<(u64, &[u8])>
    ensures { IfSome result (λ x. bytes.now ≡ varint_bytes x.0 ++ x.1.now) }
{
    let (number, len) = read_varint(bytes)?;
    if len != varint_length(number) {
        return None;
    }
    Some((number, &bytes[len..]))
}

// What the types of a cell's parts say of it.
fn see_parts(parts: &Parts<'_>)
    ensures { IsInRange (cell_seen parts.now) }
{
    let _left = parts.left;
    let _key = parts.key;
    let _payload = parts.payload;
    let _chain = parts.chain;
}

/// The cell at the front of some bytes, if it is in its written form, and the bytes after it.
pub fn cell_spelled(usable: u32, bytes: &[u8]) -> Option<(Parts<'_>, &[u8])>
    requires low { 480 ≤ usable }
    requires high { usable ≤ 65536 }
    ensures { IfSome result (λ x. IsSpelled usable bytes.now (cell_seen x.0) x.1.now) }
{
    let (payload, rest) = number_spelled(bytes)?;
    if payload > 0x7fff_ffff {
        return None;
    }
    let (key, rest) = number_spelled(rest)?;
    let size = local_size(Kind::TableLeaf, payload, usable);
    let (local, rest) = bytes_of(size, rest)?;
    let (chain, rest) = chain_of(size == payload, rest)?;
    let parts = Parts {
        left: 0,
        key: key.cast_signed(),
        payload,
        local,
        chain,
    };
    see_parts(&parts);
    Some((parts, rest))
}
