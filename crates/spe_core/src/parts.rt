//! What a core is made of.

ghost use Rattle.std.specs.Prelude.{◌≡◌, ◌+◌, IfOk};

use crate::beginning::Beginning;
use crate::commit::{Commits, Image};
use crate::lives::Lives;
use spe_stored::{Files, Operation};
use std::alloc::{AllocError, Global};
use std::collections::VecDeque;

/// Serving, or recovering with these operations left to make.
#[derive(Drop)]
pub enum Mode {
    Serving,
    Recovering(VecDeque<Operation>),
}

/// The parts of a core, with the number of its recovered pages, which no step counts anew.
#[derive(Drop)]
pub struct Parts {
    pub alloc: Global,
    pub opening: Beginning,
    pub slots: u32,
    pub files: Files,
    pub pages: u32,
    pub made: u64,
    pub commits: Commits,
    pub images: Vec<Image>,
    pub live: Lives,
    pub mode: Mode,
}

/// The number of operations made, with one more.
pub fn one_more(made: u64) -> Result<u64, AllocError>
    ensures { IfOk result (λ more. more ≡ made + 1) }
{
    match made.checked_add(1) {
        Some(more) => Ok(more),
        None => Err(AllocError),
    }
}
