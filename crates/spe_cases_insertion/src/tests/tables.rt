//! Rows put into a table in some order, and read again.

ghost use Rattle.std.specs.Prelude.{◌≡◌, ◌≤◌, IfOk, None, OnOk, length};
ghost use Rattle.spe_space.specs.View.{map_refusal};

use super::reserved::Reserved;
use spe_insert::{insert, lay_lower};
use spe_model::{Cells, Kind, PageCells};
use spe_search::find;
use spe_space::{MapSpace, PageSpace, Pages, TreeFault};
use std::alloc::{AllocError, Global};
use std::process::Abort;
use std::test::Fail;

#[derive(Clone, Copy, Debug, PartialEq, Eq)]
enum Answer {
    // How many rows were put, how many were there when each was put again, and how many are found.
    Rows { put: u32, again: u32, found: u32 },
    Other,
}

#[derive(Clone, Copy, Debug, PartialEq, Eq)]
enum Order {
    Ascending,
    Descending,
    Mixed,
}

// A table of so many rows, of payloads of up to `bytes` bytes.
struct Table {
    name: &'static str,
    page_size: u32,
    order: Order,
    rows: u32,
    bytes: u32,
}

static TABLES: [Table; 9] = [
    Table {
        name: "ascending, a leaf",
        page_size: 512,
        order: Order::Ascending,
        rows: 9,
        bytes: 40,
    },
    Table {
        name: "ascending, two levels",
        page_size: 512,
        order: Order::Ascending,
        rows: 200,
        bytes: 60,
    },
    Table {
        name: "descending, two levels",
        page_size: 512,
        order: Order::Descending,
        rows: 200,
        bytes: 60,
    },
    Table {
        name: "mixed, two levels",
        page_size: 512,
        order: Order::Mixed,
        rows: 300,
        bytes: 60,
    },
    Table {
        name: "mixed, a row a leaf, three levels",
        page_size: 512,
        order: Order::Mixed,
        rows: 150,
        bytes: 476,
    },
    Table {
        name: "mixed, with chains",
        page_size: 512,
        order: Order::Mixed,
        rows: 40,
        bytes: 3000,
    },
    Table {
        name: "mixed, pages of 4096 bytes",
        page_size: 4096,
        order: Order::Mixed,
        rows: 300,
        bytes: 200,
    },
    Table {
        name: "descending, pages of 65536 bytes",
        page_size: 65536,
        order: Order::Descending,
        rows: 200,
        bytes: 500,
    },
    Table {
        name: "rows of a million bytes",
        page_size: 65536,
        order: Order::Ascending,
        rows: 3,
        bytes: 1000000,
    },
];

impl Table {
    // The rowid of the row that is put at this turn: no two turns have one.
    fn rowid_at(&self, turn: u32) -> i64 {
        match self.order {
            Order::Ascending => i64::from(turn) + 1,
            Order::Descending => -i64::from(turn),
            Order::Mixed => (i64::from(turn % 10007) * 7919) % 10007 - 5000,
        }
    }

    // The payload of a row: its length and its bytes tell rows apart.
    fn payload_of(&self, alloc: Global, rowid: i64) -> Result<Vec<u8>, AllocError>
        ensures { IfOk result (λ bytes. length bytes.items ≤ 1000000) }
    {
        let turn = rowid.unsigned_abs() % 100003;
        let length = (turn * 31 + u64::from(self.bytes)) % (u64::from(self.bytes) + 1);
        Ok(vec![in alloc; (turn % 251) as u8; length.min(1000000) as usize]?)
    }
}

// Makes a page an empty leaf.
pub(crate) fn lay_empty<S: PageSpace>(
    alloc: Global,
    space: &mut S,
    page: u32,
) -> Result<(), TreeFault>
    requires { S.Pages.refusal space.old ≡ None }
    ensures { OnOk result (S.Pages.refusal space.new ≡ None) }
{
    let mut buf = vec![in alloc; 0u8; space.page_size() as usize]?;
    // A page has 480 usable bytes at least.
    let _usable = space.usable();
    let leaf = PageCells {
        kind: Kind::TableLeaf,
        cells: Cells::new(Vec::new(alloc)),
        right: 0,
    };
    match lay_lower(space, page, &leaf, &mut buf) {
        Ok(()) => Ok(()),
        Err(fault) => Err(TreeFault::Space(fault)),
    }
}

// An empty leaf on a new page, beside page 1.
pub(crate) fn start<S: PageSpace>(alloc: Global, space: &mut S) -> Result<u32, TreeFault>
    requires { S.Pages.refusal space.old ≡ None }
    ensures { OnOk result (S.Pages.refusal space.new ≡ None) }
{
    let root = match space.alloc() {
        Ok(root) => root,
        Err(fault) => return Err(TreeFault::Space(fault)),
    };
    match lay_empty(alloc, space, root) {
        Ok(()) => Ok(root),
        Err(fault) => Err(fault),
    }
}

// Puts all rows, and answers how many were not there.
fn put_each<S: PageSpace>(
    alloc: Global,
    space: &mut S,
    root: u32,
    table: &Table,
) -> Result<u32, TreeFault>
    requires { S.Pages.refusal space.old ≡ None }
    ensures { OnOk result (S.Pages.refusal space.new ≡ None) }
{
    let mut put = 0u32;
    for turn in 0..table.rows.min(10000) {
        let rowid = table.rowid_at(turn);
        let payload = table.payload_of(alloc, rowid)?;
        let added = match insert(alloc, space, root, rowid, &payload) {
            Ok(added) => added,
            Err(fault) => return Err(fault),
        };
        if added {
            put = put.wrapping_add(1);
        }
    }
    Ok(put)
}

// How many rows have their payload.
fn find_each<S: PageSpace>(
    alloc: Global,
    space: &mut S,
    root: u32,
    table: &Table,
) -> Result<u32, TreeFault>
    requires { S.Pages.refusal space.old ≡ None }
{
    let mut found = 0u32;
    for turn in 0..table.rows.min(10000) {
        let rowid = table.rowid_at(turn);
        let payload = table.payload_of(alloc, rowid)?;
        let row = match find(alloc, space, root, rowid) {
            Ok(row) => row,
            Err(fault) => return Err(fault),
        };
        if let Some(bytes) = row
            && bytes.as_slice() == payload.as_slice()
        {
            found = found.wrapping_add(1);
        }
    }
    Ok(found)
}

fn rows_of<S: PageSpace>(alloc: Global, space: &mut S, table: &Table) -> Result<Answer, TreeFault>
    requires { S.Pages.refusal space.old ≡ None }
{
    let root = match start(alloc, space) {
        Ok(root) => root,
        Err(fault) => return Err(fault),
    };
    let put = match put_each(alloc, space, root, table) {
        Ok(put) => put,
        Err(fault) => return Err(fault),
    };
    let again = match put_each(alloc, space, root, table) {
        Ok(again) => again,
        Err(fault) => return Err(fault),
    };
    match find_each(alloc, space, root, table) {
        Ok(found) => Ok(Answer::Rows { put, again, found }),
        Err(fault) => Err(fault),
    }
}

#[tactic(auto, unfolding(spe_model::specs::Header::is_page_size))]
pub(crate) fn space_of(alloc: Global, page_size: u32) -> Result<MapSpace, AllocError>
    ensures { IfOk result (λ s. map_refusal s ≡ None) }
{
    match page_size {
        4096 => MapSpace::new(alloc, 4096, 1, 10000),
        65536 => MapSpace::new(alloc, 65536, 1, 1000),
        _ => MapSpace::new(alloc, 512, 1, 40000),
    }
}

fn answer_of(alloc: Global, table: &Table) -> Result<Answer, AllocError> {
    let mut space = space_of(alloc, table.page_size)?;
    match rows_of(alloc, &mut space, table) {
        Ok(answer) => Ok(answer),
        Err(_) => Ok(Answer::Other),
    }
}

// The same on pages that have reserved bytes.
fn reserved_answer_of(alloc: Global, table: &Table) -> Result<Answer, AllocError> {
    let mut space = Reserved {
        space: space_of(alloc, table.page_size)?,
    };
    match rows_of(alloc, &mut space, table) {
        Ok(answer) => Ok(answer),
        Err(_) => Ok(Answer::Other),
    }
}

// Stops the test unless all rows were put, were there when each was put again, and are found.
fn expect_all(rt: &impl Abort, table: &Table, answer: Answer) {
    let all = Answer::Rows {
        put: table.rows,
        again: 0,
        found: table.rows,
    };
    assert_eq!(rt; answer, all, "{}", table.name);
}

#[test]
fn tables(rt: HostRuntime) -> Result<(), Fail> {
    for table in &TABLES {
        let answer = answer_of(rt.alloc(), table)?;
        expect_all(&rt, table, answer);
    }
    Ok(())
}

#[test]
fn tables_on_pages_with_reserved_bytes(rt: HostRuntime) -> Result<(), Fail> {
    for table in &TABLES {
        let answer = reserved_answer_of(rt.alloc(), table)?;
        expect_all(&rt, table, answer);
    }
    Ok(())
}
