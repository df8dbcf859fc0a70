//! What all transactions share.

ghost use Rattle.std.specs.Prelude.{◌≡◌, None};
ghost use Rattle.spe_space.specs.Calls.{Reads, RefusesTree};
ghost use Rattle.spe_opening.specs.Shared.{AsksInside, FindsShared};

use crate::tables::test_entries;
use spe_catalog::read_catalog;
use spe_freelist::{Trunks, read_node};
use spe_model::Catalog;
use spe_space::{Pages, TreeFault};
use std::alloc::Global;

/// What is read of a database once, before all transactions.
#[derive(Debug, Drop)]
pub struct Shared {
    /// The tables of its schema.
    pub catalog: Catalog,
    /// The first trunks of its free lists.
    pub trunks: Trunks,
}

/// Reads what all transactions share of a database in server form, whose page 1 names the node page
/// `node`, and makes sure that its pages may be served.
///
/// Of pages that stand for a database Corrupt names only an interior page of an open table's tree, not
/// page 1, that has no cell. It is this project's own that such pages are not served: the format allows
/// them. No leaf of a table is got but the left-most. It fails as `get` does.
pub fn read_shared<S: Pages>(alloc: Global, space: &mut S, node: u32) -> Result<Shared, TreeFault>
    requires refusal { S.Pages.refusal space.old ≡ None }
    ensures found { FindsShared S.Pages space.old space.new node result }
    ensures asks { AsksInside S.Pages space.old space.new node result }
    ensures kept { Reads S.Pages space.old space.new }
    ensures refusal { RefusesTree S.Pages space.old space.new result }
{
    let catalog = match read_catalog(alloc, space) {
        Ok(catalog) => catalog,
        Err(fault) => return Err(fault),
    };
    let trunks = match read_node(alloc, space, node) {
        Ok(trunks) => trunks,
        Err(fault) => return Err(fault),
    };
    let mut buf = vec![in alloc; 0u8; space.page_size() as usize]?;
    match test_entries(alloc, space, catalog.as_slice(), buf.as_mut_slice()) {
        Ok(()) => Ok(Shared { catalog, trunks }),
        Err(fault) => Err(fault),
    }
}
