//! Pages with their bytes, in the order of their numbers.

use spe_model::Bytes;
use std::alloc::{AllocError, Global};
use std::collections::BTreeMap;
use std::marker::Model;

/// Some pages with their bytes.
#[derive(Drop)]
pub(crate) struct PageSet {
    map: BTreeMap<u32, Bytes>,
}

impl Model for PageSet {
    ghost use Rattle.std.specs.Prelude.{ℕ, List};

    ghost Value = { List (ℕ × List ℕ) };

    ghost view = { λ s. s.map.entries };
}

impl PageSet {
    ghost use Rattle.std.specs.Prelude.{◌≡◌, [], Some, None, IsSome, OnOk, OnErr};
    ghost use Rattle.spe_session.specs.Pages.{IsFirstFrom, IsLent, Sets, bytes_at};

    /// No pages.
    pub(crate) fn none(alloc: Global) -> PageSet
        ensures { result ≡ [] }
    {
        PageSet {
            map: BTreeMap::new(alloc),
        }
    }

    /// The bytes of a page, where it is kept.
    pub(crate) fn get(&self, page: u32) -> Option<&[u8]>
        ensures { IsLent (bytes_at self.now page) result }
    {
        match self.map.get(&page) {
            Some(bytes) => Some(bytes.as_slice()),
            None => None,
        }
    }

    /// The first page from a number on that is kept, with its bytes.
    pub(crate) fn first_from(&self, page: u32) -> Option<(u32, &[u8])>
        ensures { IsFirstFrom page self.now result }
    {
        match self.map.range(page..).next() {
            Some((page, bytes)) => Some((*page, bytes.as_slice())),
            None => None,
        }
    }

    /// Keeps bytes for a page, in the place of those that it had.
    pub(crate) fn put(&mut self, page: u32, bytes: Bytes) -> Result<(), AllocError>
        ensures ok { OnOk result (Sets page (Some bytes) self.old self.new) }
        ensures err { OnErr result (self.new ≡ self.old) }
    {
        let _old = self.map.insert(page, bytes)?;
        Ok(())
    }

    /// Gives a page that is kept other bytes. It takes no memory.
    pub(crate) fn set(&mut self, page: u32, bytes: Bytes)
        requires { IsSome (bytes_at self.old page) }
        ensures { Sets page (Some bytes) self.old self.new }
    {
        let Some(kept) = self.map.get_mut(&page) else {
            return;
        };
        *kept = bytes;
    }

    /// Keeps a page no more.
    pub(crate) fn remove(&mut self, page: u32)
        ensures { Sets page None self.old self.new }
    {
        let _gone = self.map.remove(&page);
    }
}
