//! What the gate is told of statements and transactions.

ghost use Rattle.std.specs.Prelude.{◌≡◌, false, IfOk};
ghost use Rattle.spe_disk.specs.Memory.{is_attached};

use super::run::{Script, expect, no_faults, scripts_of, sink_of, two_disk, words_of};
use spe_disk::{Gate, MemDisk};
use spe_serve::spe;
use std::alloc::{AllocError, Global};
use std::sync::Wait;
use std::sync::atomic::AtomicU64;
use std::sync::atomic::Ordering::Relaxed;
use std::test::Fail;
use std::thread::Threads;

// A call: the client, its transaction, and the statement, or none once the transaction is over.
type Call = (u32, u32, Option<u32>);

// A gate that counts its calls, and those that are not the ones that it awaits.
#[derive(Drop)]
struct Awaiting {
    calls: &'static [Call],
    made: AtomicU64,
    wrong: AtomicU64,
}

impl Awaiting {
    fn take(&self, call: Call) {
        let at = self.made.fetch_add(1, Relaxed);
        if self.calls.get(at as usize) != Some(&call) {
            self.wrong.fetch_add(1, Relaxed);
        }
    }

    fn is_done(&self) -> bool {
        self.made.load(Relaxed) == self.calls.len() as u64 && self.wrong.load(Relaxed) == 0
    }
}

impl Gate for Awaiting {
    fn pass(&self, client: u32, tx: u32, statement: u32) {
        self.take((client, tx, Some(statement)));
    }

    fn done(&self, client: u32, tx: u32) {
        self.take((client, tx, None));
    }
}

static WORDS: [&str; 4] = ["run", "b.db", "s1", "s2"];

static SCRIPTS: [Script; 2] = [
    (
        "s1",
        b"BEGIN; INSERT INTO a VALUES (1, 10); SELECT * FROM none; ROLLBACK; INSERT INTO a VALUES (2, 20);",
    ),
    ("s2", b"BEGIN; COMMIT;"),
];

// The ending word comes behind the last statement.
static CALLS: [Call; 9] = [
    (1, 1, Some(1)),
    (1, 1, Some(2)),
    (1, 1, Some(3)),
    (1, 1, None),
    (1, 2, Some(1)),
    (1, 2, Some(2)),
    (1, 2, None),
    (2, 1, Some(1)),
    (2, 1, None),
];

fn sound_disk(alloc: Global) -> Result<MemDisk, AllocError>
    ensures { IfOk result (λ d. is_attached d ≡ false) }
{
    two_disk(alloc, no_faults(alloc))
}

// The status of a run that passes a gate.
fn status_of<R: Threads + Wait + Sync>(
    rt: &R,
    alloc: Global,
    gate: &Awaiting,
) -> Result<u8, AllocError> {
    let disk = sound_disk(alloc)?;
    let words = words_of(alloc, &WORDS)?;
    let mut scripts = scripts_of(alloc, &SCRIPTS, &[])?;
    let mut sink = sink_of(alloc, 1 << 16, &[])?;
    let (finished, _) = spe(rt, alloc, words, disk, &mut scripts, &mut sink, gate);
    Ok(finished.status)
}

#[test]
fn told_of_each(rt: HostRuntime) -> Result<(), Fail> {
    let gate = Awaiting {
        calls: &CALLS,
        made: AtomicU64::new(0),
        wrong: AtomicU64::new(0),
    };
    let status = status_of(&rt, rt.alloc(), &gate)?;
    expect(&rt, "told", 0, status == 0 && gate.is_done());
    Ok(())
}
