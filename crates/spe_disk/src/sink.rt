//! Where the engine prints.

ghost use Rattle.std.specs.Prelude.{◌≡◌, ◌≤◌, List, [], ℕ, Option, Ok, length, IfOk, OnOk, OnErr};
ghost use Rattle.spe_disk.specs.Sink.{Takes, Appends, AppendsFront, CountsFault};

use crate::disk::Failed;

/// A sink that takes bytes, as standard output does.
pub trait Sink {
    /// The bytes taken, where the sink tells them.
    ghost taken: { Self → Option (List ℕ) };

    /// How often the sink has failed, up to the greatest number of its type.
    ghost faults: { Self → ℕ };

    /// Takes some first bytes of a piece, and answers how many. Where it can take none of a piece that
    /// has bytes, it fails. A call that failed has taken some first bytes, or none.
    fn put(&mut self, bytes: &[u8]) -> Result<usize, Failed>
        ensures within { IfOk result (λ n. n ≤ length bytes.now) }
        ensures takes { Takes (taken self.old) (taken self.new) bytes.now result }
        ensures some { result ≡ Ok 0 → bytes.now ≡ [] }
        ensures counts { CountsFault (faults self.old) (faults self.new) result };
}

/// Puts all the bytes, piece by piece. Where the sink fails, it has taken some first bytes, or none, and
/// no piece is put any more: it failed once.
pub fn put_all<W: Sink>(out: &mut W, bytes: &[u8]) -> Result<(), Failed>
    ensures ok { OnOk result (Appends (W.taken out.old) (W.taken out.new) bytes.now) }
    ensures err { OnErr result (AppendsFront (W.taken out.old) (W.taken out.new) bytes.now) }
    ensures counts { CountsFault (W.faults out.old) (W.faults out.new) result }
{
    let mut left = bytes;
    while !left.is_empty() {
        let count = out.put(left)?;
        left = &left[count..];
    }
    Ok(())
}
