//! One file, in memory.

ghost use Rattle.std.specs.Prelude.{◌≡◌, ◌≤◌, ◌+◌, ◌++◌, length, take, drop};

use std::alloc::{AllocError, Global};
use std::marker::Model;

/// The bytes of a file, where it is there.
#[derive(Debug, Drop)]
pub struct Stored {
    bytes: Vec<u8>,
    there: bool,
}

/// What a write takes from a file.
#[derive(Debug, Drop)]
pub struct Kept {
    /// Whether the file was there.
    pub there: bool,
    /// How many bytes it had.
    pub size: usize,
    /// From where on the bytes lay that were written over.
    pub at: usize,
    /// The bytes that were written over.
    pub bytes: Vec<u8>,
}

impl Model for Stored {
    ghost use Rattle.std.specs.Prelude.{◌≡◌, ℕ, List, Option, [], false};
    ghost use Rattle.spe_stored.specs.Stored.{bytes_if};

    ghost Value = { Option (List ℕ) };

    ghost view = { λ f. bytes_if f.there f.bytes.items };

    ghost invariant = { λ f. f.there ≡ false → f.bytes.items ≡ [] };
}

impl Stored {
    ghost use Rattle.std.specs.Prelude.{◌≡◌, ◌≤◌, ◌+◌, [], Some, None, IfOk, OnOk, OnErr, length, take, unwrap_or};
    ghost use Rattle.spe_model.specs.Trace.{laid_over};
    ghost use Rattle.spe_stored.specs.Kept.{taken_back, Keeps};

    /// A file that is not there.
    pub fn absent(alloc: Global) -> Stored
        ensures { result ≡ None }
    {
        Stored {
            bytes: Vec::new(alloc),
            there: false,
        }
    }

    /// A file of these bytes.
    pub fn holding(bytes: Vec<u8>) -> Stored
        ensures { result ≡ Some bytes.items }
    {
        Stored { bytes, there: true }
    }

    /// The bytes, none where the file is not there.
    pub fn as_slice(&self) -> &[u8]
        ensures { result.now ≡ unwrap_or self.now [] }
    {
        self.bytes.as_slice()
    }

    /// Lays bytes over those from byte `at` on, with zeros in a gap before them.
    pub fn write(&mut self, at: usize, bytes: &[u8]) -> Result<(), AllocError>
        ensures ok { OnOk result (self.new ≡ Some (laid_over (unwrap_or self.old []) at bytes.now)) }
        ensures err { OnErr result (self.new ≡ self.old) }
    {
        let Some(end) = at.checked_add(bytes.len()) else {
            return Err(AllocError);
        };
        let size = self.bytes.len().max(end);
        self.bytes.resize(size, 0)?;
        lay(self.bytes.as_mut_slice(), at, bytes);
        self.there = true;
        Ok(())
    }

    /// What of the file is lost by a write of `count` bytes from byte `at` on.
    pub fn keep(&self, alloc: Global, at: usize, count: usize) -> Result<Kept, AllocError>
        ensures { IfOk result (λ kept. Keeps kept self.now at count) }
    {
        let size = self.bytes.len();
        let at = at.min(size);
        let end = at + count.min(size - at);
        Ok(Kept {
            there: self.there,
            size,
            at,
            bytes: Vec::from_slice(alloc, &self.bytes[at..end])?,
        })
    }

    /// Takes a write back.
    pub fn take_back(&mut self, kept: &Kept)
        requires { kept.now.at + length kept.now.bytes.items ≤ length (unwrap_or self.old []) }
        ensures { self.new ≡ taken_back kept.now (unwrap_or self.old []) }
    {
        lay(self.bytes.as_mut_slice(), kept.at, kept.bytes.as_slice());
        self.bytes.truncate(if kept.there { kept.size } else { 0 });
        self.there = kept.there;
    }

    /// Keeps at most this many bytes; a file that is not there becomes one of none.
    pub fn cut(&mut self, size: u64)
        ensures { self.new ≡ Some (take size (unwrap_or self.old [])) }
    {
        let size = size.min(self.bytes.len() as u64) as usize;
        self.bytes.truncate(size);
        self.there = true;
    }
}

// Puts bytes in the place of those from `at` on.
fn lay(old: &mut [u8], at: usize, bytes: &[u8])
    requires { at + length bytes.now ≤ length old.old }
    ensures { old.new ≡ take at old.old ++ bytes.now ++ drop (at + length bytes.now) old.old }
{
    old[at..at + bytes.len()].copy_from_slice(bytes);
}
