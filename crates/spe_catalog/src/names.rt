//! Sets of names.

ghost use Rattle.std.specs.Prelude.{◌≡◌, false, not, ◌||◌, ℕ, List, IfOk, OnOk, OnErr};
ghost use Rattle.spe_model.specs.Agree.{agree};
ghost use Rattle.spe_catalog.specs.Names.{has_name};

use std::alloc::{AllocError, Global};
use std::collections::BTreeSet;
use std::marker::Model;

/// Names without regard to ASCII case, seen as a list of them in small letters.
///
/// A look-up takes time by the logarithm of their number.
#[derive(Drop)]
pub struct NameSet {
    folded: BTreeSet<String>,
}

impl Model for NameSet {
    ghost use Rattle.std.specs.Prelude.{ℕ, List, map, string_bytes};

    ghost Value = { List (List ℕ) };

    ghost view = { λ s. map string_bytes s.folded.keys };
}

impl NameSet {
    /// No names.
    pub fn new(alloc: Global) -> NameSet
        ensures { (name : List ℕ) → has_name result name ≡ false }
    {
        NameSet {
            folded: BTreeSet::new(alloc),
        }
    }

    /// Adds a name, and says whether none agreed with it.
    pub fn insert(&mut self, alloc: Global, name: &str) -> Result<bool, AllocError>
        ensures added { IfOk result (λ added. added ≡ not (has_name self.old name.now)) }
        ensures has { OnOk result ((other : List ℕ) → has_name self.new other ≡ (agree name.now other || has_name self.old other)) }
        ensures same { IfOk result (λ added. added ≡ false → self.new ≡ self.old) }
        ensures kept { OnErr result (self.new ≡ self.old) }
    {
        let folded = name.to_ascii_lowercase(alloc)?;
        Ok(self.folded.insert(folded)?)
    }

    /// Whether a name agrees with one of these.
    pub fn has(&self, alloc: Global, name: &str) -> Result<bool, AllocError>
        ensures { IfOk result (λ has. has ≡ has_name self.now name.now) }
    {
        let sought = name.to_ascii_lowercase(alloc)?;
        Ok(self.folded.contains(sought.as_str()))
    }
}
