//! Standard output.

use spe_disk::{Failed, Sink};
use std::io::{self, Write};

/// How many first bytes of all that was taken are kept.
const HEAD_BYTES: usize = 64;

/// Standard output. It does not tell what it took, but keeps the first bytes.
#[derive(Drop)]
pub struct OutSink<'a, R: Print> {
    rt: &'a R,
    faults: u64,
    head: [u8; HEAD_BYTES],
    kept: usize,
}

impl<'a, R: Print> OutSink<'a, R> {
    ghost use Rattle.std.specs.Prelude.{◌≡◌};

    /// The runtime's standard output.
    pub fn new(rt: &'a R) -> Self {
        OutSink {
            rt,
            faults: 0,
            head: [0; HEAD_BYTES],
            kept: 0,
        }
    }

    /// The first 64 bytes that were taken, with zeros behind them where there are fewer.
    pub fn head(&self) -> &[u8] {
        &self.head
    }

    // Keeps of these bytes what there is room for.
    fn keep(&mut self, bytes: &[u8])
        ensures { self.new.faults ≡ self.old.faults }
    {
        for (place, byte) in self.head.iter_mut().skip(self.kept).zip(bytes) {
            *place = *byte;
        }
        self.kept = self.kept.saturating_add(bytes.len());
    }
}

impl<R: Print> Sink for OutSink<'_, R> {
    ghost use Rattle.std.specs.Prelude.{None};

    ghost taken = { λ _. None };

    ghost faults = { λ s. s.faults };

    fn put(&mut self, bytes: &[u8]) -> Result<usize, Failed> {
        match io::writer(self.rt).write(bytes) {
            Ok(count) if count > 0 || bytes.is_empty() => {
                self.keep(&bytes[..count]);
                Ok(count)
            }
            _ => {
                self.faults = self.faults.saturating_add(1);
                Err(Failed)
            }
        }
    }
}
