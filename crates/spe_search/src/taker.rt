//! Who takes the rows of a table while its tree is walked.

/// Takes rows one by one, and gives what it makes of them to `out`.
pub trait RowTaker<W> {
    ghost use Rattle.std.specs.Prelude.{◌∷◌, [], ◌++◌, Bool, true, List};
    ghost use Rattle.spe_search.specs.declared.pairs.Pair.{Pair};

    // Between two states these rows were taken, one after the other, and whether more are wanted.
    ghost taken: { Self → W → Self → W → List Pair → Bool → Type 0 };

    /// Takes a row that was read from the leaf `leaf`, and answers whether more are wanted.
    fn take(&mut self, out: &mut W, leaf: u32, rowid: i64, payload: &[u8]) -> bool
        ensures { taken self.old out.old self.new out.new (record { rowid = rowid; payload = payload.now; leaf = leaf } ∷ []) result };

    // Where nothing was done no row was taken.
    ghost none: { (s : Self) (w : W) → taken s w s w [] true };

    // Rows behind rows.
    ghost both: { (a b c : Self) (u v w : W) (some others : List Pair) (more : Bool)
        → taken a u b v some true → taken b v c w others more → taken a u c w (some ++ others) more };
}
