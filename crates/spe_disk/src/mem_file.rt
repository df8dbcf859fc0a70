//! A file of a disk in memory.

ghost use Rattle.std.specs.Prelude.{◌≡◌, ◌≤◌, ◌+◌, ◌++◌, [], Some, None, IfOk, OnOk, OnErr, IsOk, length, take, drop, unwrap_or, min};
ghost use Rattle.std.specs.Option.{option_copied};
ghost use Rattle.spe_model.specs.Content.{zeros};
ghost use Rattle.spe_model.specs.Trace.{laid_over};

use std::alloc::{AllocError, Global};
use std::marker::Model;

/// The bytes of a file, where it is there, and how long it may grow without taking memory.
#[derive(Debug, Drop)]
pub struct MemFile {
    bytes: Vec<u8>,
    there: bool,
    limit: usize,
}

impl Model for MemFile {
    ghost use Rattle.std.specs.Prelude.{◌≡◌, ◌≤◌, [], false, vec_capacity};
    ghost use Rattle.spe_disk.specs.Held.{HeldFile, bytes_if};

    ghost Value = { HeldFile };

    ghost view = { λ f. record { bytes = bytes_if f.there f.bytes.items; limit = f.limit } };

    ghost invariant = { λ f. (f.limit ≤ vec_capacity f.bytes) × (f.there ≡ false → f.bytes.items ≡ []) };
}

impl MemFile {
    /// A file that is not there.
    pub fn absent(alloc: Global) -> MemFile
        ensures absent { result.bytes ≡ None }
        ensures limit { result.limit ≡ 0 }
    {
        MemFile {
            bytes: Vec::new(alloc),
            there: false,
            limit: 0,
        }
    }

    /// A file of these bytes.
    pub fn holding(alloc: Global, bytes: &[u8]) -> Result<MemFile, AllocError>
        ensures bytes { IfOk result (λ f. f.bytes ≡ Some bytes.now) }
        ensures limit { IfOk result (λ f. f.limit ≡ length bytes.now) }
    {
        Ok(MemFile {
            bytes: Vec::from_slice(alloc, bytes)?,
            there: true,
            limit: bytes.len(),
        })
    }

    /// The bytes, where the file is there.
    pub fn bytes(&self) -> Option<&[u8]>
        ensures { option_copied result ≡ self.now.bytes }
    {
        if self.there {
            Some(self.bytes.as_slice())
        } else {
            None
        }
    }

    /// How many bytes there are.
    pub fn size(&self) -> usize
        ensures { result ≡ length (unwrap_or self.now.bytes []) }
    {
        self.bytes.len()
    }

    /// Takes the memory for this many bytes more.
    pub fn reserve(&mut self, room: usize) -> Result<(), AllocError>
        ensures bytes { self.new.bytes ≡ self.old.bytes }
        ensures limit { OnOk result (self.new.limit ≡ length (unwrap_or self.old.bytes []) + room) }
    {
        self.bytes.reserve_exact(room)?;
        self.limit = self.bytes.len() + room;
        Ok(())
    }

    /// Makes these the bytes of the file.
    pub fn put(&mut self, bytes: &[u8]) -> Result<(), AllocError>
        ensures ok { OnOk result (self.new.bytes ≡ Some bytes.now) }
        ensures err { OnErr result (self.new.bytes ≡ self.old.bytes) }
        ensures fits { length bytes.now ≤ self.old.limit → IsOk result }
        ensures limit { self.old.limit ≤ self.new.limit }
        ensures within { OnOk result (length bytes.now ≤ self.new.limit) }
    {
        self.bytes.resize(bytes.len(), 0)?;
        self.bytes.as_mut_slice().copy_from_slice(bytes);
        self.limit = self.limit.max(bytes.len());
        self.there = true;
        Ok(())
    }

    /// Lays bytes over those from byte `at` on, with zeros in a gap before them.
    pub fn write(&mut self, at: usize, bytes: &[u8]) -> Result<(), AllocError>
        ensures ok { OnOk result (self.new.bytes ≡ Some (laid_over (unwrap_or self.old.bytes []) at bytes.now)) }
        ensures err { OnErr result (self.new.bytes ≡ self.old.bytes) }
        ensures fits { at + length bytes.now ≤ self.old.limit → length (unwrap_or self.old.bytes []) ≤ self.old.limit → IsOk result }
        ensures limit { self.old.limit ≤ self.new.limit }
        ensures within { OnOk result (length (unwrap_or self.new.bytes []) ≤ self.new.limit) }
    {
        let limit = self.limit;
        let Some(end) = at.checked_add(bytes.len()) else {
            return Err(AllocError);
        };
        let size = self.bytes.len().max(end);
        self.bytes.resize(size, 0)?;
        lay(self.bytes.as_mut_slice(), at, bytes);
        self.limit = limit.max(size);
        self.there = true;
        Ok(())
    }

    /// Keeps at most this many bytes; a file that is not there becomes one of none.
    pub fn cut(&mut self, size: u64)
        ensures bytes { self.new.bytes ≡ Some (take size (unwrap_or self.old.bytes [])) }
        ensures limit { self.new.limit ≡ self.old.limit }
    {
        let size = size.min(self.bytes.len() as u64) as usize;
        self.bytes.truncate(size);
        self.there = true;
    }
}

// Puts bytes in the place of those from `at` on.
fn lay(old: &mut [u8], at: usize, bytes: &[u8])
    requires { at + length bytes.now ≤ length old.old }
    ensures { old.new ≡ take at old.old ++ bytes.now ++ drop (at + length bytes.now) old.old }
{
    old[at..at + bytes.len()].copy_from_slice(bytes);
}
