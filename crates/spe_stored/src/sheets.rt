//! Pages with their bytes, by their numbers.

ghost use Rattle.std.specs.Prelude.{◌≡◌, [], ◌∷◌, MatchOption, OnOk, OnErr, length};
ghost use Rattle.std.specs.List.{find};
ghost use Rattle.std.specs.Option.{option_copied, option_map};
ghost use Rattle.spe_stored.specs.Sheets.{sheet_at, has_sheet, with_sheet, without_sheet};

use spe_model::Bytes;
use std::alloc::{AllocError, Global};
use std::collections::BTreeMap;
use std::marker::Model;

/// Pages with their bytes, in the order of their numbers.
#[derive(Drop)]
pub struct Sheets {
    map: BTreeMap<u32, Bytes>,
}

impl Model for Sheets {
    ghost use Rattle.std.specs.Prelude.{ℕ, List};
    ghost use Rattle.std.specs.Ordering.{nat_cmp};
    ghost use Rattle.std.specs.BTreeMap.{IsOrdered};

    ghost Value = { List (ℕ × List ℕ) };

    ghost view = { λ s. s.map.entries };

    ghost invariant = { λ s. IsOrdered nat_cmp s.map };
}

impl Sheets {
    /// No pages.
    pub fn new(alloc: Global) -> Sheets
        ensures { result ≡ [] }
    {
        Sheets {
            map: BTreeMap::new(alloc),
        }
    }

    /// How many pages there are.
    pub fn len(&self) -> usize
        ensures { result ≡ length self.now }
    {
        self.map.len()
    }

    /// The bytes of a page, where it is among them.
    pub fn get(&self, page: u32) -> Option<&[u8]>
        ensures { option_copied result ≡ sheet_at page self.now }
    {
        match self.map.get(&page) {
            Some(bytes) => Some(bytes.as_slice()),
            None => None,
        }
    }

    /// Whether a page is among them.
    pub fn has(&self, page: u32) -> bool
        ensures { result ≡ has_sheet page self.now }
    {
        self.map.contains_key(&page)
    }

    /// The least page that is among others too, with its bytes here.
    ///
    /// It goes through the others up to that page, and looks each up here.
    pub fn first_among(&self, others: &Sheets) -> Option<(u32, &[u8])>
        ensures { option_map (λ p. (p.0, p.1.now)) result ≡ find (λ s. has_sheet s.0 others.now) self.now }
    {
        for (page, _) in &others.map {
            if let Some(bytes) = self.map.get(page) {
                return Some((*page, bytes.as_slice()));
            }
        }
        None
    }

    /// Takes out the least page, where there is one.
    pub fn pop_first(&mut self) -> Option<(u32, Bytes)>
        ensures { MatchOption result ((self.old ≡ []) × (self.new ≡ [])) (λ s. self.old ≡ s ∷ self.new) }
    {
        self.map.pop_first()
    }

    /// Makes these the bytes of a page.
    pub fn put(&mut self, page: u32, bytes: Bytes) -> Result<(), AllocError>
        ensures ok { OnOk result (self.new ≡ with_sheet page bytes self.old) }
        ensures err { OnErr result (self.new ≡ self.old) }
    {
        let _old = self.map.insert(page, bytes)?;
        Ok(())
    }

    /// Takes a page out.
    pub fn remove(&mut self, page: u32)
        ensures { self.new ≡ without_sheet page self.old }
    {
        let _bytes = self.map.remove(&page);
    }
}
