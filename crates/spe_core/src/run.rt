//! A run of events.

ghost use Rattle.std.specs.Prelude.{◌≡◌, ℕ, List, take, IfOk, OnOk, OnErr};
ghost use Rattle.spe_core.specs.declared.event.Event.{Event};
ghost use Rattle.spe_core.specs.Changing.{count_done, done_count};
ghost use Rattle.spe_core.specs.Serial.{IsSerial, after_events};

use crate::event::{Answer, Events};
use crate::machine::Core;
use crate::steps::step;
use std::alloc::AllocError;

// What an answer adds to the number of events that were done.
fn count_of(answer: Answer) -> u64
    ensures { result ≡ count_done answer }
{
    match answer {
        Answer::Done => 1,
        Answer::Refused => 0,
    }
}

/// Steps each of these events in order, and answers how many were done.
///
/// The only error is want of memory. The core is then what the steps made until then left.
pub fn run_events(core: &mut Core, events: &Events) -> Result<u64, AllocError>
    ensures state { OnOk result (core.new ≡ after_events core.old events.now) }
    ensures count { IfOk result (λ done. done ≡ done_count core.old events.now) }
    ensures partly { OnErr result ((n : ℕ) × (core.new ≡ after_events core.old (take n events.now))) }

    // Whatever events come, now and later, the run is serial.
    ensures serial { IsSerial core.new }
    ensures always { (events : List Event) → IsSerial (after_events core.old events) }
{
    // Names the parts, so that what holds of them is known from the first event on.
    let _parts = &core.parts;
    let mut done: u64 = 0;
    let mut left = events.as_slice();
    while let [event, rest @ ..] = left {
        done += count_of(step(core, event)?);
        left = rest;
    }
    Ok(done)
}
