//! Scripts in memory.

use crate::scripts::{ScriptFault, Scripts};
use spe_model::Numbers;
use std::alloc::{AllocError, Global};
use std::collections::BTreeMap;

/// Texts by name, as they were added.
#[derive(Drop)]
pub struct MemScripts {
    alloc: Global,
    texts: BTreeMap<String, Vec<u8>>,
    failing: Numbers,
    calls: u64,
    faults: u64,
}

impl MemScripts {
    ghost use Rattle.std.specs.Prelude.{◌≡◌, ◌≢◌, List, ℕ, OnOk, OnErr, None, Some};
    ghost use Rattle.spe_disk.specs.MemScripts.{texts_of, script_faults, script_reads, listed_reads};

    /// No texts. `fails` lists the calls of `read` that fail, counted from 1.
    pub fn new(alloc: Global, fails: Numbers) -> MemScripts
        ensures no_texts { (name : List ℕ) → texts_of result name ≡ None }
        ensures no_faults { script_faults result ≡ 0 }
        ensures no_reads { script_reads result ≡ 0 }
        ensures fails { listed_reads result ≡ fails }
    {
        MemScripts {
            alloc,
            texts: BTreeMap::new(alloc),
            failing: fails,
            calls: 0,
            faults: 0,
        }
    }

    /// Gives a name its text, in the place of the one that it had.
    #[tactic(auto, using(std::proofs::lemmas::Map::Text::text_keys))]
    pub fn add(&mut self, name: &str, bytes: &[u8]) -> Result<(), AllocError>
        ensures added { OnOk result (texts_of self.new name.now ≡ Some bytes.now) }
        ensures others { OnOk result ((other : List ℕ) → other ≢ name.now → texts_of self.new other ≡ texts_of self.old other) }
        ensures same { OnErr result ((other : List ℕ) → texts_of self.new other ≡ texts_of self.old other) }
        ensures faults { script_faults self.new ≡ script_faults self.old }
        ensures reads { script_reads self.new ≡ script_reads self.old }
        ensures fails { listed_reads self.new ≡ listed_reads self.old }
    {
        let name = String::from_str(self.alloc, name)?;
        let text = Vec::from_slice(self.alloc, bytes)?;
        match self.texts.insert(name, text) {
            Ok(_) => Ok(()),
            Err(refused) => Err(refused.into()),
        }
    }
}

impl Scripts for MemScripts {
    ghost use Rattle.std.specs.Prelude.{◌≡◌, Some};
    ghost use Rattle.spe_disk.specs.Scripts.{ReadsText, CountsScriptFault};
    ghost use Rattle.spe_disk.specs.MemScripts.{texts_of, script_faults, ScriptsAsListed};

    ghost texts = { λ s. Some (texts_of s) };

    ghost faults = { script_faults };

    fn read(&mut self, alloc: Global, name: &str) -> Result<Option<Vec<u8>>, ScriptFault>
        ensures text { ReadsText (Some (texts_of self.old)) name.now result }
        ensures same { Some (texts_of self.new) ≡ Some (texts_of self.old) }
        ensures counts { CountsScriptFault (script_faults self.old) (script_faults self.new) result }
        ensures listed { ScriptsAsListed self.old self.new result }
    {
        self.calls = self.calls.saturating_add(1);
        if self.failing.as_slice().contains(&self.calls) {
            self.faults = self.faults.saturating_add(1);
            return Err(ScriptFault::Failed);
        }
        match self.texts.get(name) {
            None => Ok(None),
            Some(text) => Ok(Some(Vec::from_slice(alloc, text.as_slice())?)),
        }
    }
}
