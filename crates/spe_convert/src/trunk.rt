//! Trunks of free lists as they are to be written.

use std::alloc::{AllocError, Global};
use std::marker::Model;
use std::mem;

/// A trunk as it is to be written.
#[derive(Debug, Drop)]
pub struct Trunk {
    page: u32,
    next: u32,
    leaves: Vec<u32>,
}

impl Model for Trunk {
    ghost use Rattle.spe_convert.specs.Made.{trunk_of};
    ghost use Rattle.spe_convert.specs.Trunk.{Trunk};

    ghost Value = { Trunk };

    ghost view = { λ t. trunk_of t.page t.next t.leaves.items };
}

impl Trunk {
    ghost use Rattle.std.specs.Prelude.{◌≡◌, ◌≤◌, length, nat_lt, OnOk};
    ghost use Rattle.spe_convert.specs.Trunk.{bare, emptied, taking, with_leaf};

    /// The first trunk of a list that has no other page.
    pub fn bare(alloc: Global, page: u32) -> Trunk
        ensures { result ≡ bare page }
    {
        Trunk {
            page,
            next: 0,
            leaves: Vec::new(alloc),
        }
    }

    /// The number of its page.
    pub fn page(&self) -> u32
        ensures { result ≡ self.now.page }
    {
        self.page
    }

    /// The next trunk, 0 where it is the last.
    pub fn next(&self) -> u32
        ensures { result ≡ self.now.next }
    {
        self.next
    }

    /// The free pages that it lists.
    pub fn leaves(&self) -> &[u32]
        ensures { result.now ≡ self.now.leaves }
    {
        self.leaves.as_slice()
    }

    /// Whether it lists fewer pages than so many.
    pub fn has_room(&self, most: usize) -> bool
        ensures { result ≡ nat_lt (length self.now.leaves) most }
    {
        self.leaves.len() < most
    }

    /// Lists a page more.
    pub fn add_leaf(&mut self, page: u32) -> Result<(), AllocError>
        ensures { OnOk result (self.new ≡ with_leaf page self.old) }
    {
        self.leaves.push(page)?;
        Ok(())
    }

    /// Leaves its next trunk and all that it lists to a page, which becomes the trunk behind it.
    pub fn move_on(&mut self, alloc: Global, page: u32) -> Trunk
        ensures left { self.new ≡ emptied page self.old }
        ensures made { result ≡ taking page self.old }
    {
        let leaves = mem::replace(&mut self.leaves, Vec::new(alloc));
        let next = mem::replace(&mut self.next, page);
        Trunk { page, next, leaves }
    }
}
