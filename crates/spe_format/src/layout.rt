//! How the cells of a page lie.

ghost use Rattle.std.specs.Prelude.{◌≡◌, ◌≤◌, IfOk, IfSome, IsTrue, length, not};
ghost use Rattle.std.specs.List.{list_all, list_any};
ghost use Rattle.std.specs.Option.{option_map};
ghost use Rattle.spe_model.specs.Page.{apart, is_within, placed_at, placed_all};
ghost use Rattle.spe_format.specs.Answers.{FindsCells, GivesPage};
ghost use Rattle.spe_format.specs.Layout.{is_span, is_taken, with_taken, are_free, layout_of};

use crate::cell::cell_of;
use spe_model::{Kind, PageFault};
use std::alloc::{AllocError, Global};

// Where the cell at an offset ends.
#[tactic(auto, unfolding(spe_model::specs::Page::placed_at))]
fn end_of(kind: Kind, page: &[u8], offset: usize) -> Option<usize>
    requires low { 480 ≤ length page.now }
    requires high { length page.now ≤ 65536 }
    requires within { offset ≤ length page.now }
    ensures end { result ≡ option_map (λ x. x.1) (placed_at kind (length page.now) page.now offset) }
    ensures inside { IfSome result (λ end. (offset ≤ end) × (end ≤ length page.now)) }
{
    let (_, tail) = page.split_at(offset);
    let (_, rest) = cell_of(kind, page.len() as u32, tail)?;
    Some(page.len() - rest.len())
}

// From where to where the cells at some offsets lie.
fn spans_of(
    alloc: Global,
    kind: Kind,
    page: &[u8],
    offsets: &[usize],
) -> Result<Vec<(usize, usize)>, PageFault>
    requires low { 480 ≤ length page.now }
    requires high { length page.now ≤ 65536 }
    requires within { IsTrue (list_all (is_within 0 (length page.now)) offsets.now) }
    ensures found { FindsCells (λ v. v.items) result (option_map (λ x. x.1) (placed_all kind (length page.now) page.now offsets.now)) }
    ensures inside { IfOk result (λ v. IsTrue (list_all (is_span (length page.now)) v.items)) }
{
    let mut spans = Vec::new(alloc);
    let mut left = offsets;
    while let [offset, rest @ ..] = left {
        let Some(end) = end_of(kind, page, *offset) else {
            return Err(PageFault::CellOut);
        };
        spans.push((*offset, end))?;
        left = rest;
    }
    Ok(spans)
}

fn has_mark(marks: &[bool]) -> bool
    ensures { result ≡ list_any (λ b. b) marks.now }
{
    marks.iter().any(|mark| *mark)
}

// Marks the bytes of a span, unless one of them is marked.
fn take_span(marks: &mut [bool], span: (usize, usize)) -> bool
    requires { IsTrue (is_span (length marks.old) span) }
    ensures free { result ≡ not (is_taken marks.old span) }
    ensures taken { IsTrue result → marks.new ≡ with_taken marks.old span }
{
    let run = &mut marks[span.0..span.1];
    if has_mark(run) {
        return false;
    }
    run.fill(true);
    true
}

// Marks the bytes of each span, until one finds a mark.
fn take_all(marks: &mut [bool], spans: &[(usize, usize)]) -> bool
    requires { IsTrue (list_all (is_span (length marks.old)) spans.now) }
    ensures { result ≡ are_free marks.old spans.now }
{
    let mut left = spans;
    while let [span, rest @ ..] = left {
        if !take_span(marks, *span) {
            return false;
        }
        left = rest;
    }
    true
}

// No two of these spans of the first `size` bytes share a byte.
#[tactic(auto, using(crate::proofs::LayoutLemmas::free_is_apart))]
fn are_apart(alloc: Global, spans: &[(usize, usize)], size: usize) -> Result<bool, AllocError>
    requires { IsTrue (list_all (is_span size) spans.now) }
    ensures { IfOk result (λ free. free ≡ apart spans.now) }
{
    let mut marks = vec![in alloc; false; size]?;
    Ok(take_all(marks.as_mut_slice(), spans))
}

// The cells at some offsets are there, and no two share a byte. The time is that of the cells and
// the page, as the marking ends at the first byte that is shared.
pub fn check_layout(
    alloc: Global,
    kind: Kind,
    page: &[u8],
    offsets: &[usize],
) -> Result<(), PageFault>
    requires low { 480 ≤ length page.now }
    requires high { length page.now ≤ 65536 }
    requires within { IsTrue (list_all (is_within 0 (length page.now)) offsets.now) }
    ensures { GivesPage result (layout_of (placed_all kind (length page.now) page.now offsets.now)) }
{
    let spans = spans_of(alloc, kind, page, offsets)?;
    if are_apart(alloc, spans.as_slice(), page.len())? {
        Ok(())
    } else {
        Err(PageFault::Overlap)
    }
}
