//! What is done with the rows of a table's tree while it is walked.

use crate::halt::Halt;

/// Visits the rows of a table's tree in the order of the walk, and tries what is to be tried of each.
///
/// One that does not want rows is not called for them: nothing is tried of a row then.
pub trait RowVisitor {
    ghost use Rattle.std.specs.Prelude.{◌≡◌, ◌≤◌, ◌+◌, ℕ, ℤ, Bool, true, false, List, [], ◌∷◌, IfErr, OnOk};
    ghost use Rattle.spe_model.specs.Tree.{rank};
    ghost use Rattle.spe_model.specs.Verdict.{LeafRow};
    ghost use Rattle.spe_check.specs.Visitor.{Outlook, IsOwn};
    ghost use Rattle.spe_check.specs.Tries.{Tries};

    // What comes of it where these rows are to come, each with its leaf.
    ghost outlook: { Self → List LeafRow → Outlook };

    // The rank of each row so far is below this number.
    ghost floor: { Self → ℕ };

    // Whether it wants rows.
    ghost wanted: { Self → Bool };

    /// Whether it wants rows. That never changes.
    fn wants(&self) -> bool
        ensures value { result ≡ wanted self.now };

    /// Visits a row.
    fn visit(&mut self, leaf: u32, rowid: i64, payload: &[u8]) -> Result<(), Halt>
        ensures tried { (count : ℕ) (met : ℕ → Bool) (later : List LeafRow) → floor self.old ≤ rank rowid
            → Tries count met met ((outlook self.old ((leaf, rowid, payload.now) ∷ later)).marks leaf rowid payload.now) result }
        ensures next { OnOk result ((later : List LeafRow) → outlook self.new later ≡ outlook self.old ((leaf, rowid, payload.now) ∷ later)) }
        ensures above { OnOk result (floor self.old ≤ rank rowid → floor self.new ≤ rank rowid + 1) }
        ensures own { IfErr result IsOwn }
        ensures wanted { wanted self.new ≡ wanted self.old };

    // Where it wants no rows, nothing is tried of a row and nothing comes of it.
    ghost idle: { (s : Self) → wanted s ≡ false → (r : LeafRow) (later : List LeafRow)
        → ((outlook s later).marks r.0 r.1 r.2 ≡ []) × (outlook s (r ∷ later) ≡ outlook s later) };
}
