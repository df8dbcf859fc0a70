//! A sink in memory.

ghost use Rattle.std.specs.Prelude.{◌≤◌, vec_len, vec_capacity};

use crate::disk::Failed;
use crate::sink::Sink;
use spe_model::Numbers;
use std::alloc::{AllocError, Global};

/// A sink that keeps what it takes.
#[derive(Debug, Drop)]
pub struct MemSink {
    room: usize,
    most: usize,
    store: Vec<u8>,
    failing: Numbers,
    calls: u64,
    faults: u64,
    ghost reserved: { room ≤ vec_capacity store },
    ghost within: { vec_len store ≤ room },
}

impl MemSink {
    ghost use Rattle.std.specs.Prelude.{◌≡◌, [], IfOk};
    ghost use Rattle.spe_disk.specs.MemSink.{bytes_taken, sink_faults, put_count, sink_room, most_taken, listed_puts};

    /// An empty sink with room for this many bytes, which takes at most `most` of them a call.
    ///
    /// `fails` lists the calls of `put` that fail, counted from 1; they take nothing. So does a call
    /// that takes none of a piece that has bytes, for want of room or with `most` at 0.
    pub fn new(
        alloc: Global,
        room: usize,
        most: usize,
        fails: Numbers,
    ) -> Result<MemSink, AllocError>
        ensures nothing_taken { IfOk result (λ s. bytes_taken s ≡ []) }
        ensures no_faults { IfOk result (λ s. sink_faults s ≡ 0) }
        ensures no_puts { IfOk result (λ s. put_count s ≡ 0) }
        ensures room { IfOk result (λ s. sink_room s ≡ room) }
        ensures most { IfOk result (λ s. most_taken s ≡ most) }
        ensures fails { IfOk result (λ s. listed_puts s ≡ fails) }
    {
        Ok(MemSink {
            room,
            most,
            store: Vec::with_capacity(alloc, room)?,
            failing: fails,
            calls: 0,
            faults: 0,
        })
    }

    /// The bytes taken.
    pub fn as_slice(&self) -> &[u8]
        ensures { result.now ≡ bytes_taken self.now }
    {
        self.store.as_slice()
    }
}

impl Sink for MemSink {
    ghost use Rattle.std.specs.Prelude.{◌≡◌, ◌≤◌, [], Some, Ok, IfOk, length};
    ghost use Rattle.spe_disk.specs.Sink.{Takes, CountsFault};
    ghost use Rattle.spe_disk.specs.MemSink.{bytes_taken, sink_faults, PutsAsListed};

    ghost taken = { λ s. Some (bytes_taken s) };

    ghost faults = { sink_faults };

    fn put(&mut self, bytes: &[u8]) -> Result<usize, Failed>
        ensures within { IfOk result (λ n. n ≤ length bytes.now) }
        ensures takes { Takes (Some (bytes_taken self.old)) (Some (bytes_taken self.new)) bytes.now result }
        ensures some { result ≡ Ok 0 → bytes.now ≡ [] }
        ensures counts { CountsFault (sink_faults self.old) (sink_faults self.new) result }
        ensures listed { PutsAsListed self.old self.new bytes.now result }
    {
        self.calls = self.calls.saturating_add(1);
        let free = self.room - self.store.len();
        let count = bytes.len().min(free).min(self.most);
        if self.failing.as_slice().contains(&self.calls) || (count == 0 && !bytes.is_empty()) {
            self.faults = self.faults.saturating_add(1);
            return Err(Failed);
        }
        let (front, _) = bytes.split_at(count);
        if self.store.extend_from_slice(front).is_err() {
            self.faults = self.faults.saturating_add(1);
            return Err(Failed);
        }
        Ok(count)
    }
}
