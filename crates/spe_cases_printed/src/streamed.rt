//! Tables that are put to a sink while they are read.

ghost use Rattle.std.specs.Prelude.{◌≡◌, ℕ, [], IfOk, None};
ghost use Rattle.spe_space.specs.View.{map_count, map_refusal, map_seen, map_size};

use spe_disk::{Failed, MemSink};
use spe_model::{Affinity, Column, Columns, Numbers, TableDef, Text};
use spe_space::{MapSpace, SpaceFault, TreeFault};
use spe_stream::{Streamed, put_table};
use std::alloc::{AllocError, Global};
use std::process::Abort;
use std::test::Fail;

// A space of two pages that is being filled.
#[derive(Drop)]
struct Filling {
    space: MapSpace,
    ghost sized: { map_size space ≡ 512 },
    ghost counted: { map_count space ≡ 2 },
    ghost fresh: { (n : ℕ) → map_seen space n ≡ [] },
    ghost well: { map_refusal space ≡ None },
}

impl Filling {
    #[tactic(auto, unfolding(spe_model::specs::Header::is_page_size))]
    fn new(alloc: Global) -> Result<Filling, AllocError> {
        let space = MapSpace::new(alloc, 512, 2, 2)?;
        Ok(Filling { space })
    }

    // Fills page 2.
    fn load(&mut self, bytes: &[u8]) {
        if bytes.len() == 512 {
            self.space.load(2, bytes);
        }
    }
}

// A leaf with the rows 1 and 2, up to its first cell.
const LEAF: &[u8] = b"\x0d\x00\x00\x00\x02\x01\xf2\x00\x01\xfa\x01\xf2";

// The cells of the rows 2 and 1: the number 10, and the text bob.
const CELLS: &[u8] = b"\x06\x02\x03\x00\x13bob\x04\x01\x03\x00\x01\x0a";

fn lay(page: &mut [u8], at: usize, bytes: &[u8]) {
    for (i, byte) in bytes.iter().enumerate() {
        if let Some(place) = page.get_mut(at.wrapping_add(i)) {
            *place = *byte;
        }
    }
}

// The leaf, with this as the type of the text of row 2.
fn leaf(alloc: Global, kind: u8) -> Result<Vec<u8>, AllocError> {
    let mut page = vec![in alloc; 0u8; 512]?;
    lay(page.as_mut_slice(), 0, LEAF);
    lay(page.as_mut_slice(), 498, CELLS);
    lay(page.as_mut_slice(), 502, &[kind]);
    Ok(page)
}

fn space_of(alloc: Global, kind: u8) -> Result<MapSpace, AllocError>
    ensures { IfOk result (λ space. map_refusal space ≡ None) }
{
    let page = leaf(alloc, kind)?;
    let mut filling = Filling::new(alloc)?;
    filling.load(page.as_slice());
    let Filling { space } = filling;
    Ok(space)
}

fn text_of(alloc: Global, text: &str) -> Result<Text, AllocError> {
    Ok(Text::new(String::from_str(alloc, text)?))
}

fn column(alloc: Global, name: &str, affinity: Affinity) -> Result<Column, AllocError> {
    Ok(Column {
        name: text_of(alloc, name)?,
        affinity,
        not_null: false,
    })
}

// The table of the columns `id`, which is the rowid, and `v`.
fn table_of(alloc: Global) -> Result<TableDef, AllocError> {
    let id = column(alloc, "id", Affinity::Integer)?;
    let v = column(alloc, "v", Affinity::Numeric)?;
    let mut columns = Vec::new(alloc);
    columns.push(id)?;
    columns.push(v)?;
    Ok(TableDef {
        name: text_of(alloc, "a")?,
        columns: Columns::new(columns),
        alias: Some(0),
        closed: None,
    })
}

// A sink of which these calls fail.
fn sink_of(alloc: Global, fails: &[u64]) -> Result<MemSink, AllocError> {
    let fails = Numbers::new(Vec::from_slice(alloc, fails)?);
    MemSink::new(alloc, 1024, 8, fails)
}

fn streamed(alloc: Global, root: u32, kind: u8, out: &mut MemSink) -> Result<Streamed, AllocError> {
    let table = table_of(alloc)?;
    let mut space = space_of(alloc, kind)?;
    Ok(put_table(alloc, &mut space, &table, root, out))
}

// How a walk and a sink end.
type Ends = (Result<(), TreeFault>, Result<(), Failed>);

// The root, the type of row 2's text, the calls of the sink that fail, how it ends, and what the sink took of
// eight bytes a call at most. Type 11 is none; page 9 is none.
static CASES: [(u32, u8, &[u64], Ends, &[u8]); 4] = [
    (
        2,
        0x13,
        &[],
        (Ok(()), Ok(())),
        b"1|1|10\n2|2|'bob'\nrows 2\n",
    ),
    (
        2,
        11,
        &[],
        (Err(TreeFault::Corrupt { page: 2 }), Ok(())),
        b"1|1|10\n",
    ),
    (2, 0x13, &[2], (Ok(()), Err(Failed)), b"1|1|10\n2"),
    (
        9,
        0x13,
        &[],
        (
            Err(TreeFault::Space(SpaceFault::PageOut { page: 9, pages: 2 })),
            Ok(()),
        ),
        b"",
    ),
];

fn ends(alloc: Global, row: usize, out: &mut MemSink) -> Result<bool, AllocError> {
    let (root, kind, _, (walk, sink), _) = CASES[row & 3];
    let found = streamed(alloc, root, kind, out)?;
    Ok(found.walk == walk && found.sink == sink)
}

fn holds(alloc: Global, row: usize) -> Result<bool, AllocError> {
    let (_, _, fails, _, text) = CASES[row & 3];
    let mut out = sink_of(alloc, fails)?;
    let ended = ends(alloc, row, &mut out)?;
    Ok(ended && out.as_slice() == text)
}

fn expect(rt: &impl Abort, row: usize, holds: bool) {
    assert!(rt; holds, "streamed {row}");
}

#[test]
fn tables(rt: HostRuntime) -> Result<(), Fail> {
    for row in 0..4usize {
        let holds = holds(rt.alloc(), row)?;
        expect(&rt, row, holds);
    }
    Ok(())
}
