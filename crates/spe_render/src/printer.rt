//! Text on its way to a sink.

ghost use Rattle.std.specs.Prelude.{◌≡◌, ◌∷◌, [], Some, decimal, not, is_some, IsTrue, IsFalse};
ghost use Rattle.std.specs.Fmt.{signed_decimal};
ghost use Rattle.spe_render.specs.Passes.{Ends, Passes, HasNone, KeepsText};

use arrayvec::ArrayVec;
use itoa::Buffer;
use spe_disk::{Failed, Sink, put_all};
use std::marker::Model;

// How many bytes wait at most.
const PIECE_BYTES: usize = 32_768;

/// Text that waits until there is enough of it to put to a sink.
///
/// A printer is used with one sink. Once the sink failed, nothing more is put to it.
#[derive(Drop)]
pub struct Printer {
    waiting: ArrayVec<u8, PIECE_BYTES>,
    has_failed: bool,
}

impl Model for Printer {
    ghost use Rattle.std.specs.Prelude.{List, ℕ, Option, Some, None, if◌then◌else◌};

    // What waits, or None where the sink failed.
    ghost Value = { Option (List ℕ) };

    ghost view = { λ p. if p.has_failed then None else Some p.waiting.items };
}

impl Printer {
    /// A printer for which no text waits.
    pub fn new() -> Printer
        ensures { result ≡ Some [] }
    {
        Printer {
            waiting: ArrayVec::new(),
            has_failed: false,
        }
    }

    // Puts what waits to the sink.
    fn flush<W: Sink>(&mut self, sink: &mut W)
        ensures none { HasNone self.new }
        ensures gives { Passes (W.taken sink.old) (W.taken sink.new) (W.faults sink.old) (W.faults sink.new) self.old self.new [] }
    {
        if self.has_failed {
            return;
        }
        if put_all(sink, self.waiting.as_slice()).is_err() {
            self.has_failed = true;
        }
        self.waiting.clear();
    }

    // Lets bytes wait where there is room; where the sink failed they go nowhere.
    fn keep(&mut self, bytes: &[u8]) -> bool
        ensures kept { IsTrue result → KeepsText self.old self.new bytes.now }
        ensures same { IsFalse result → self.new ≡ self.old }
    {
        self.has_failed || self.waiting.try_extend_from_slice(bytes).is_ok()
    }

    // The same of one byte.
    fn keep_byte(&mut self, byte: u8) -> bool
        ensures kept { IsTrue result → KeepsText self.old self.new (byte ∷ []) }
        ensures same { IsFalse result → self.new ≡ self.old }
    {
        self.has_failed || self.waiting.try_push(byte).is_ok()
    }

    // Puts bytes where nothing waits before them.
    fn put<W: Sink>(&mut self, sink: &mut W, bytes: &[u8])
        requires { HasNone self.old }
        ensures { Passes (W.taken sink.old) (W.taken sink.new) (W.faults sink.old) (W.faults sink.new) self.old self.new bytes.now }
    {
        if self.has_failed {
            return;
        }
        if put_all(sink, bytes).is_err() {
            self.has_failed = true;
        }
    }

    // Prints bytes for which there was no room.
    fn flush_and_print<W: Sink>(&mut self, sink: &mut W, bytes: &[u8])
        ensures { Passes (W.taken sink.old) (W.taken sink.new) (W.faults sink.old) (W.faults sink.new) self.old self.new bytes.now }
    {
        self.flush(sink);
        if self.keep(bytes) {
            return;
        }
        self.put(sink, bytes);
    }

    /// Whether the sink failed.
    pub fn has_failed(&self) -> bool
        ensures { result ≡ not (is_some self.now) }
    {
        self.has_failed
    }

    /// Prints these bytes.
    pub fn bytes<W: Sink>(&mut self, sink: &mut W, bytes: &[u8])
        ensures { Passes (W.taken sink.old) (W.taken sink.new) (W.faults sink.old) (W.faults sink.new) self.old self.new bytes.now }
    {
        if self.keep(bytes) {
            return;
        }
        self.flush_and_print(sink, bytes);
    }

    /// Prints one byte.
    pub fn byte<W: Sink>(&mut self, sink: &mut W, byte: u8)
        ensures { Passes (W.taken sink.old) (W.taken sink.new) (W.faults sink.old) (W.faults sink.new) self.old self.new (byte ∷ []) }
    {
        if self.keep_byte(byte) {
            return;
        }
        self.flush_and_print(sink, &[byte]);
    }

    /// Prints a number that is not negative.
    pub fn number<W: Sink>(&mut self, sink: &mut W, number: u64)
        ensures { Passes (W.taken sink.old) (W.taken sink.new) (W.faults sink.old) (W.faults sink.new) self.old self.new (decimal number) }
    {
        self.bytes(sink, Buffer::new().format(number).as_bytes());
    }

    /// Prints a number with its sign where it is negative.
    pub fn signed<W: Sink>(&mut self, sink: &mut W, number: i64)
        ensures { Passes (W.taken sink.old) (W.taken sink.new) (W.faults sink.old) (W.faults sink.new) self.old self.new (signed_decimal number) }
    {
        self.bytes(sink, Buffer::new().format(number).as_bytes());
    }

    /// Puts what waits. `Failed` says that the sink failed, now or before.
    pub fn finish<W: Sink>(mut self, sink: &mut W) -> Result<(), Failed>
        ensures { Ends (W.taken sink.old) (W.taken sink.new) (W.faults sink.old) (W.faults sink.new) self result }
    {
        self.flush(sink);
        if self.has_failed { Err(Failed) } else { Ok(()) }
    }
}
