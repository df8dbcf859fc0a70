//! The row that splits a root.

ghost use Rattle.std.specs.Prelude.{◌≡◌, IfOk, None, OnOk};
ghost use Rattle.spe_space.specs.View.{map_refusal};

use super::tables::lay_empty;
use spe_insert::insert;
use spe_space::{MapSpace, PageSpace, Pages, TreeFault};
use std::alloc::{AllocError, Global};
use std::test::Fail;

const ROOT: u32 = 2;

// The page of 512 bytes that a root becomes once the 64th row of eight bytes is put: one key, 63, between pages
// 8 and 7, which were new.
const FRONT: [u8; 14] = [5, 0, 0, 0, 1, 1, 0xfb, 0, 0, 0, 0, 7, 1, 0xfb];

const CELL: [u8; 5] = [0, 0, 0, 8, 63];

#[derive(Clone, Copy, Debug, PartialEq, Eq)]
enum Answer {
    // The new root, and the page that is handed out next.
    Split { next: u32 },
    // The root has other bytes.
    Bytes,
    Other,
}

#[tactic(auto, unfolding(spe_model::specs::Header::is_page_size))]
fn six_pages(alloc: Global) -> Result<MapSpace, AllocError>
    ensures { IfOk result (λ s. map_refusal s ≡ None) }
{
    MapSpace::new(alloc, 512, 6, 64)
}

// Rows of three bytes before their value, which is 10.
fn put_rows(alloc: Global, space: &mut MapSpace) -> Result<(), TreeFault>
    requires { map_refusal space.old ≡ None }
    ensures { OnOk result (map_refusal space.new ≡ None) }
{
    for rowid in 1..=64u32 {
        match insert(alloc, space, ROOT, i64::from(rowid), &[3, 0, 1, 10]) {
            Ok(_) => (),
            Err(fault) => return Err(fault),
        }
    }
    Ok(())
}

// Whether a page has these bytes, and zeros between them.
fn is_root(page: &[u8]) -> bool {
    page.starts_with(&FRONT)
        && page.ends_with(&CELL)
        && page.iter().filter(|byte| **byte != 0).count() == 9
}

// The root's bytes, and the page that is handed out next.
fn look(alloc: Global, space: &mut MapSpace) -> Result<Answer, TreeFault> {
    let mut page = vec![in alloc; 0u8; space.page_size() as usize]?;
    match space.get(ROOT, page.as_mut_slice()) {
        Ok(()) => (),
        Err(fault) => return Err(TreeFault::Space(fault)),
    }
    if !is_root(page.as_slice()) {
        return Ok(Answer::Bytes);
    }
    match space.alloc() {
        Ok(next) => Ok(Answer::Split { next }),
        Err(fault) => Err(TreeFault::Space(fault)),
    }
}

fn split_root(alloc: Global, space: &mut MapSpace) -> Result<Answer, TreeFault>
    requires { map_refusal space.old ≡ None }
{
    match lay_empty(alloc, space, ROOT) {
        Ok(()) => (),
        Err(fault) => return Err(fault),
    }
    match put_rows(alloc, space) {
        Ok(()) => look(alloc, space),
        Err(fault) => Err(fault),
    }
}

fn answer_of(alloc: Global) -> Result<Answer, AllocError> {
    let mut space = six_pages(alloc)?;
    match split_root(alloc, &mut space) {
        Ok(answer) => Ok(answer),
        Err(_) => Ok(Answer::Other),
    }
}

#[test]
fn row_that_splits_the_root(rt: HostRuntime) -> Result<(), Fail> {
    let answer = answer_of(rt.alloc())?;
    assert_eq!(rt; answer, Answer::Split { next: 9 });
    Ok(())
}
