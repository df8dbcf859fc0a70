//! One rule.

ghost use Rattle.std.specs.Prelude.{◌≡◌, ℕ, Bool, true, [], ◌∷◌, OnOk, IfErr};
ghost use Rattle.spe_model.specs.Walk.{Mark, Keeps};
ghost use Rattle.spe_check.specs.Tries.{IsBroken, Tries};

use crate::halt::Halt;

/// Breaks off where this rule is not kept.
pub fn try_rule(kept: bool, page: u32, rule: u8) -> Result<(), Halt>
    ensures tried { (count : ℕ) (met : ℕ → Bool) → Tries count met met (Keeps page rule kept ∷ []) result }
    ensures kept { OnOk result (kept ≡ true) }
    ensures broken { IfErr result IsBroken }
{
    if !kept {
        return Err(Halt::Broken { page, rule });
    }
    Ok(())
}
