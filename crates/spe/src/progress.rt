//! How far long work is, for a person at a terminal.

use spe_disk::Gate;
use std::io;
use std::sync::atomic::AtomicU64;
use std::sync::atomic::Ordering::Relaxed;
use std::time::{Clock, Instant};

const SECOND: u64 = 1_000;

/// The gate that holds nobody back, and tells a terminal how many transactions are over, once a second at
/// most.
#[derive(Drop)]
pub struct Progress<'a, R> {
    rt: &'a R,
    /// Whether standard error is a terminal.
    shows: bool,
    begun: Option<Instant>,
    over: AtomicU64,
    /// The milliseconds since the begin at which it was told last.
    told: AtomicU64,
}

impl<'a, R: Clock + Eprint> Progress<'a, R> {
    pub fn new(rt: &'a R, shows: bool) -> Progress<'a, R> {
        Progress {
            rt,
            shows,
            begun: Instant::now(rt).ok(),
            over: AtomicU64::new(0),
            told: AtomicU64::new(0),
        }
    }

    // The milliseconds since the begin, where a second has passed since it was told last.
    fn due(&self) -> Option<u64> {
        let passed = self.begun?.elapsed(self.rt).ok()?;
        let now = u64::try_from(passed.as_millis()).ok()?;
        (now.saturating_sub(self.told.load(Relaxed)) >= SECOND).then_some(now)
    }

    fn tell(&self, over: u64) {
        if let Some(now) = self.due() {
            self.told.store(now, Relaxed);
            let _ = eprint!(self.rt; "\rspe: {over} transactions are over");
        }
    }

    /// Ends the line of what was told.
    pub fn end(&self) -> io::Result<()> {
        if self.told.load(Relaxed) > 0 {
            eprintln!(self.rt)?;
        }
        Ok(())
    }
}

impl<R: Clock + Eprint> Gate for Progress<'_, R> {
    fn pass(&self, _client: u32, _tx: u32, _statement: u32) {}

    fn done(&self, _client: u32, _tx: u32) {
        let over = self.over.fetch_add(1, Relaxed).saturating_add(1);
        if self.shows {
            self.tell(over);
        }
    }
}
