// Threads that race for few words, one an id's each, while the store pins what they hold. Whatever the schedule, each answer is legal, who was let in is counted beside the table, and in the end all words are 0.
ghost use Rattle.std.specs.Prelude.{◌≡◌, ◌<◌, All, length, IfOk};
ghost use Rattle.spe_cases_locks.specs.Workers.{IsAtTable};

use crate::worker::Worker;
use spe_slots::{IdSeat, Pin, Slots, StoreSeat, Try};
use std::alloc::{AllocError, Global};
use std::sync::atomic::AtomicU64;
use std::sync::atomic::Ordering::SeqCst;
use std::test::Fail;
use std::thread;
use std::thread::Threads;

// Sixteen of ids, and the store's.
const THREADS: usize = 17;

const WORDS: u32 = 64;

const GRANTS: u64 = 10_000;

// Tries of an id, of which far fewer meet another id's lock than are granted.
const TRIES: u64 = 1_000_000;

const PINS: u64 = 100_000;

// Who is let in at one word.
#[derive(Drop)]
struct Inside {
    readers: AtomicU64,
    writers: AtomicU64,
}

// The grants of all threads, the pins, and how many answers were illegal.
#[derive(Drop)]
struct Tally {
    grants: AtomicU64,
    pins: AtomicU64,
    wrong: AtomicU64,
}

fn add(counter: &AtomicU64, holds: bool) {
    if holds {
        counter.fetch_add(1, SeqCst);
    }
}

// Whether the word stands against a read, or a write, of the id.
fn stands_against(word: u64, id: u8, write: bool) -> bool
    requires { id < 16 }
{
    let writer = word >> 16 & 31;
    let written = writer != 0 && writer != id as u64 + 1;
    let read = word & 0xffff & !(1 << id) != 0;
    written || write && read
}

// Whether the id reads or writes under the word.
fn holds(word: u64, id: u8, write: bool) -> bool
    requires { id < 16 }
{
    word >> 16 & 31 == id as u64 + 1 || !write && word >> id & 1 == 1
}

// Whether the store has pinned a lock of the id.
fn is_pinned(word: u64, id: u8) -> bool
    requires { id < 16 }
{
    word >> (32 + id) & 1 == 1 || word >> 48 & 1 == 1
}

// The number after this one, in no order that the words know of.
fn next(number: u64) -> u64 {
    number
        .wrapping_mul(6_364_136_223_846_793_005)
        .wrapping_add(1_442_695_040_888_963_407)
}

// Who writes is alone, and who reads is beside no writer. Each is counted out before it gives its lock up.
fn stay(inside: &Inside, tally: &Tally, write: bool) {
    if write {
        add(&tally.wrong, inside.writers.fetch_add(1, SeqCst) != 0);
        add(&tally.wrong, inside.readers.load(SeqCst) != 0);
        add(&tally.wrong, inside.readers.load(SeqCst) != 0);
        inside.writers.fetch_sub(1, SeqCst);
    } else {
        inside.readers.fetch_add(1, SeqCst);
        add(&tally.wrong, inside.writers.load(SeqCst) != 0);
        add(&tally.wrong, inside.writers.load(SeqCst) != 0);
        inside.readers.fetch_sub(1, SeqCst);
    }
}

// A lock that the store has pinned, or for which another step came between, is kept for a later turn.
fn release(slots: &Slots<()>, seat: &mut IdSeat<()>, tally: &Tally, k: u32)
    requires table { seat.old.table ≡ slots.now.table }
    requires word { k < slots.now.count }
    ensures { seat.new.table ≡ slots.now.table }
{
    let id = seat.id();
    match slots.try_release(seat, k) {
        Try::Done => {}
        Try::Conflict(shown) => add(&tally.wrong, !is_pinned(shown.word, id)),
        Try::Raced(shown, found) => add(&tally.wrong, shown == found),
    }
}

// Whether the id was let in.
fn visit(
    slots: &Slots<()>,
    seat: &mut IdSeat<()>,
    inside: &Inside,
    tally: &Tally,
    k: u32,
    write: bool,
) -> bool
    requires table { seat.old.table ≡ slots.now.table }
    requires word { k < slots.now.count }
    ensures { seat.new.table ≡ slots.now.table }
{
    let id = seat.id();
    let answer = if write {
        slots.try_write(seat, k)
    } else {
        slots.try_read(seat, k)
    };
    match answer {
        Try::Done => {
            stay(inside, tally, write);
            release(slots, seat, tally, k);
            return true;
        }
        Try::Conflict(shown) => add(&tally.wrong, !stands_against(shown.word, id, write)),
        Try::Raced(shown, found) => add(
            &tally.wrong,
            shown == found || stands_against(shown, id, write),
        ),
    }
    false
}

// One id's visits, to all words but the first, which it reads from before the race to its end.
fn work(slots: &Slots<()>, seat: &mut IdSeat<()>, inside: &[Inside], tally: &Tally)
    requires table { seat.old.table ≡ slots.now.table }
    requires words { length inside.now ≡ slots.now.count }
    ensures { seat.new.table ≡ slots.now.table }
{
    let mut number = seat.id() as u64;
    let mut grants = 0u64;
    for _ in 0..TRIES {
        number = next(number);
        let k = slots.word_of((number >> 40) as u32 % (WORDS - 1) + 1);
        let write = number >> 33 & 3 == 0;
        if grants < GRANTS && visit(slots, seat, &inside[k as usize], tally, k, write) {
            grants = grants.wrapping_add(1);
        }
    }
    tally.grants.fetch_add(grants, SeqCst);
}

// Pins a lock of the id, if it has one there, and clears the pin.
fn pin(slots: &Slots<()>, store: &mut StoreSeat<()>, tally: &Tally, id: u8, k: u32, write: bool)
    requires table { store.old.table ≡ slots.now.table }
    requires word { k < slots.now.count }
    requires id { id < 16 }
    ensures { store.new.table ≡ slots.now.table }
{
    let answer = if write {
        slots.pin_write(store, id, k)
    } else {
        slots.pin_read(store, id, k)
    };
    match answer {
        Pin::Done => {
            add(&tally.pins, true);
            slots.unpin(store, id, k);
        }
        Pin::Pinless(shown) => add(&tally.wrong, holds(shown, id, write)),
        Pin::Raced(shown, found) => add(&tally.wrong, shown == found),
    }
}

fn pin_all(slots: &Slots<()>, store: &mut StoreSeat<()>, tally: &Tally)
    requires { store.old.table ≡ slots.now.table }
    ensures { store.new.table ≡ slots.now.table }
{
    let mut number = 17u64;
    for _ in 0..PINS {
        number = next(number);
        let k = slots.word_of((number >> 40) as u32 % WORDS);
        let id = (number >> 33 & 15) as u8;
        pin(slots, store, tally, id, k, number >> 50 & 1 == 1);
    }
}

fn run(slots: &Slots<()>, worker: &mut Worker, inside: &[Inside], tally: &Tally)
    requires table { IsAtTable slots.now worker.old }
    requires words { length inside.now ≡ slots.now.count }
    ensures { IsAtTable slots.now worker.new }
{
    match worker {
        Worker::Id(seat) => work(slots, seat, inside, tally),
        Worker::Store(store) => pin_all(slots, store, tally),
    }
}

fn race<R: Threads + Sync>(
    rt: &R,
    slots: &Slots<()>,
    workers: &mut [Worker],
    inside: &[Inside],
    tally: &Tally,
)
    requires seated { All (λ w. IsAtTable slots.now w) workers.old }
    requires words { length inside.now ≡ slots.now.count }
    ensures { All (λ w. IsAtTable slots.now w) workers.new }
{
    thread::for_each_mut(
        rt,
        workers,
        THREADS,
        &|_, worker| run(slots, worker, inside, tally),
    );
}

// An id gives up what it still holds. Nothing is pinned any more.
fn release_all(slots: &Slots<()>, seat: &mut IdSeat<()>, tally: &Tally)
    requires { seat.old.table ≡ slots.now.table }
    ensures { seat.new.table ≡ slots.now.table }
{
    for page in 0..WORDS {
        match slots.try_release(seat, slots.word_of(page)) {
            Try::Done => {}
            _ => add(&tally.wrong, true),
        }
    }
}

// Each word is 0 by now, which the store is shown where it asks for a pin of an id that has no lock.
fn look_at_all(slots: &Slots<()>, store: &mut StoreSeat<()>, tally: &Tally)
    requires { store.old.table ≡ slots.now.table }
    ensures { store.new.table ≡ slots.now.table }
{
    for page in 0..WORDS {
        match slots.pin_read(store, 0, slots.word_of(page)) {
            Pin::Pinless(word) => add(&tally.wrong, word != 0),
            _ => add(&tally.wrong, true),
        }
    }
}

// The ids give all up, and then the store looks.
fn settle(slots: &Slots<()>, worker: &mut Worker, ids: bool, tally: &Tally)
    requires { IsAtTable slots.now worker.old }
    ensures { IsAtTable slots.now worker.new }
{
    match worker {
        Worker::Id(seat) => {
            if ids {
                release_all(slots, seat, tally);
            }
        }
        Worker::Store(store) => {
            if !ids {
                look_at_all(slots, store, tally);
            }
        }
    }
}

fn settle_each(slots: &Slots<()>, workers: &mut [Worker], ids: bool, tally: &Tally)
    requires { All (λ w. IsAtTable slots.now w) workers.old }
    ensures { All (λ w. IsAtTable slots.now w) workers.new }
{
    for at in 0..workers.len() {
        settle(slots, &mut workers[at], ids, tally);
    }
}

// Nobody inside any word.
fn nobody(alloc: Global, count: u32) -> Result<Vec<Inside>, AllocError>
    ensures { IfOk result (λ inside. length inside.items ≡ count) }
{
    let mut inside = Vec::new(alloc);
    for _ in 0..count {
        inside.push(Inside {
            readers: AtomicU64::new(0),
            writers: AtomicU64::new(0),
        })?;
    }
    Ok(inside)
}

fn reading_first(slots: &Slots<()>, mut seat: IdSeat<()>) -> IdSeat<()>
    requires { seat.table ≡ slots.now.table }
    ensures { result.table ≡ slots.now.table }
{
    slots.try_read(&mut seat, slots.word_of(0));
    seat
}

// The ids, each of which reads the first word, and the store.
fn gather(
    alloc: Global,
    slots: &Slots<()>,
    mut seats: Vec<IdSeat<()>>,
    store: StoreSeat<()>,
) -> Result<Vec<Worker>, AllocError>
    requires store { store.table ≡ slots.now.table }
    requires seated { All (λ s. s.table ≡ slots.now.table) seats.items }
    ensures { IfOk result (λ workers. All (λ w. IsAtTable slots.now w) workers.items) }
{
    let mut workers = Vec::new(alloc);
    workers.push(Worker::Store(store))?;
    while let Some(seat) = seats.pop() {
        workers.push(Worker::Id(reading_first(slots, seat)))?;
    }
    Ok(workers)
}

// What came of the race.
fn raced<R: Threads + Sync>(rt: &R, alloc: Global) -> Result<Tally, AllocError> {
    let tally = Tally {
        grants: AtomicU64::new(0),
        pins: AtomicU64::new(0),
        wrong: AtomicU64::new(0),
    };
    if !WORDS.is_power_of_two() {
        return Ok(tally);
    }
    let (slots, ids, store, _) = Slots::<()>::new(alloc, WORDS)?;
    let inside = nobody(alloc, WORDS)?;
    let mut workers = gather(alloc, &slots, ids.into_vec(), store)?;
    race(rt, &slots, &mut workers, &inside, &tally);
    settle_each(&slots, &mut workers, true, &tally);
    settle_each(&slots, &mut workers, false, &tally);
    Ok(tally)
}

#[test]
fn ids_that_race_exclude_each_other(rt: HostRuntime) -> Result<(), Fail> {
    let tally = raced(&rt, rt.alloc())?;
    let right = tally.wrong.load(SeqCst) == 0;
    let granted = tally.grants.load(SeqCst) == 16 * GRANTS;
    let pinned = tally.pins.load(SeqCst) > 0;
    assert!(rt; right && granted && pinned);
    Ok(())
}
