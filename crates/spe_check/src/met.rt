//! The pages that a walk has met.

ghost use Rattle.std.specs.Prelude.{◌≡◌, ◌<◌, ◌/◌, ◌==◌, ◌||◌, ℕ, [], ◌∷◌, OnErr, false, IfOk, IfErr, OnOk, length, vec_len};
ghost use Rattle.spe_check.specs.Marked.{is_marked};
ghost use Rattle.spe_check.specs.Tries.{IsBroken, Tries};
ghost use Rattle.spe_model.specs.Walk.{Mark, Names};
ghost use Rattle.spe_space.specs.Outcome.{IsInside};

use crate::halt::Halt;
use std::alloc::{AllocError, Global};

/// Which of the pages 1 to `pages` were met: a bit for each.
#[derive(Debug, Drop)]
pub struct Met {
    bits: Vec<u64>,
    pub(crate) pages: u32,
    ghost room: { pages / 64 < vec_len bits },
}

impl Met {
    ghost use Rattle.spe_check.specs.MetPages.{has_met};

    /// No page of so many.
    pub fn new(alloc: Global, pages: u32) -> Result<Met, AllocError>
        ensures none { IfOk result (λ met. (n : ℕ) → has_met met n ≡ false) }
        ensures pages { IfOk result (λ met. met.pages ≡ pages) }
    {
        let bits = vec![in alloc; 0u64; pages as usize / 64 + 1]?;
        Ok(Met { bits, pages })
    }

    /// Meets a page whose number stands on the page `holder`.
    ///
    /// Broken is rule 1 with `holder` where there is no such page, and rule 2 with the page where it
    /// was met before; then nothing is met.
    pub fn meet(&mut self, holder: u32, page: u32) -> Result<(), Halt>
        ensures tried { Tries self.old.pages (has_met self.old) (has_met self.new) (Names holder page ∷ []) result }
        ensures pages { self.new.pages ≡ self.old.pages }
        ensures broken { IfErr result IsBroken }
        ensures inside { OnOk result (IsInside self.old.pages page) }
    {
        if page == 0 || page > self.pages {
            return Err(Halt::Broken {
                page: holder,
                rule: 1,
            });
        }
        if is_marked(self.bits.as_slice(), page) {
            return Err(Halt::Broken { page, rule: 2 });
        }
        mark(&mut self.bits, page);
        Ok(())
    }
}

fn is_marked(bits: &[u64], page: u32) -> bool
    requires { page / 64 < length bits.now }
    ensures { result ≡ is_marked bits.now page }
{
    let word = bits[page as usize / 64];
    (word >> (page % 64)) & 1 == 1
}

#[tactic(auto, using(crate::proofs::MarkLemmas::marked_more))]
fn mark(bits: &mut Vec<u64>, page: u32)
    requires { page / 64 < vec_len bits.old }
    ensures marked { (n : ℕ) → is_marked bits.new.items n ≡ (page == n || is_marked bits.old.items n) }
    ensures len { vec_len bits.new ≡ vec_len bits.old }
{
    let place = page as usize / 64;
    let word = bits[place];
    bits[place] = word | (1u64 << (page % 64));
}
