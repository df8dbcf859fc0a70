// Commits and sessions at one table, whose commits have logs of several fields.
ghost use Rattle.std.specs.Prelude.{◌≡◌, ◌<◌, ◌+◌, ℕ, [], All, length, IfOk, false, None, Some};
ghost use mathlib.Core.List.{IsPrefix};
ghost use Rattle.spe_slotrule.specs.Known.{is_given_out};

use spe_slots::{IdSeat, Maker, SessionSeat, Sessions, Slots, StoreSeat, What};
use std::alloc::{AllocError, Global};
use std::test::Fail;

// What a transaction asked and what was replied, as a log has them.
#[derive(Drop)]
struct Log {
    client: u32,
    tx: u32,
    statements: Vec<u8>,
    replies: Vec<u64>,
}

fn log_of(alloc: Global, client: u32) -> Log {
    Log {
        client,
        tx: 1,
        statements: Vec::new(alloc),
        replies: Vec::new(alloc),
    }
}

// What the second session was told before and after it met the first, which was told less.
fn met(
    slots: &Slots<Log>,
    first: &mut SessionSeat<Log>,
    second: &mut SessionSeat<Log>,
) -> (u64, u64)
    requires table { (first.old.table ≡ slots.now.table) × (second.old.table ≡ slots.now.table) }
    ensures table { (first.new.table ≡ first.old.table) × (second.new.table ≡ second.old.table) }
    ensures begins { IsPrefix first.old.part.seen second.new.part.seen }
    ensures kept { IsPrefix second.old.part.seen second.new.part.seen }
{
    let before = second.told();
    slots.meet(first, second);
    (before, second.told())
}

// A pass that writes a page and undoes another, and commits. The answer is the number of the commit.
fn worked(
    slots: &Slots<Log>,
    store: &mut StoreSeat<Log>,
    seat: &mut IdSeat<Log>,
    session: &mut SessionSeat<Log>,
    log: &Log,
) -> u64
    requires table { (store.old.table ≡ slots.now.table) × (seat.old.table ≡ slots.now.table) × (session.old.table ≡ slots.now.table) }
    requires home { (is_given_out seat.old.part.id store.old.part.out ≡ false) × (session.old.part.out ≡ None) }
    requires first { store.old.part.commits ≡ [] }
    ensures table { (store.new.table ≡ store.old.table) × (seat.new.table ≡ seat.old.table) × (session.new.table ≡ session.old.table) }
    ensures one { length store.new.part.commits ≡ 1 }
    ensures home { session.new.part.out ≡ None }
{
    let id = seat.id();
    slots.hand_out(store, session, id);
    slots.list_page(store, seat, 7, &[1, 2], What::Read);
    slots.list_page(store, seat, 7, &[1, 2], What::Journalled);
    slots.list_page(store, seat, 7, &[3, 4], What::Written);
    slots.list_page(store, seat, 9, &[5, 6], What::Written);
    slots.list_page(store, seat, 9, &[], What::Undone);
    let number = slots.add_commit(store, session, log, 4);
    slots.clear_pages(store, seat);
    slots.tell_looks(seat, session);
    slots.take_home(store, session);
    number
}

// The numbers of two commits, and what the sessions that made them were told before and after they met: once the second
// session had seen nothing, and then its list began with the first's.
fn turns(
    slots: &Slots<Log>,
    store: &mut StoreSeat<Log>,
    seat: &mut IdSeat<Log>,
    first: &mut SessionSeat<Log>,
    second: &mut SessionSeat<Log>,
    log: &Log,
) -> [u64; 8]
    requires table { (store.old.table ≡ slots.now.table) × (seat.old.table ≡ slots.now.table) }
    requires sessions { (first.old.table ≡ slots.now.table) × (second.old.table ≡ slots.now.table) }
    requires home { (is_given_out seat.old.part.id store.old.part.out ≡ false) × (first.old.part.out ≡ None) }
    requires first { store.old.part.commits ≡ [] }
    ensures table { store.new.table ≡ slots.now.table }
    ensures sessions { (first.new.table ≡ slots.now.table) × (second.new.table ≡ slots.now.table) }
{
    let one = worked(slots, store, seat, first, log);
    let (new, heard) = met(slots, first, second);
    let two = slots.add_commit(store, second, log, 9);
    let (before, after) = met(slots, first, second);
    let (less, more) = met(slots, second, first);
    [one, new, heard, two, before, after, less, more]
}

fn told_in_turn(alloc: Global, count: u32) -> Result<[u64; 8], AllocError> {
    if count < 16 || 262_144 < count || !count.is_power_of_two() {
        return Ok([0; 8]);
    }
    let (slots, ids, mut store, mut maker) = Slots::<Log>::new(alloc, count)?;
    let mut seats = ids.into_vec();
    let mut first = slots.session(&mut maker);
    let mut second = slots.session(&mut maker);
    let log = log_of(alloc, 0);
    let told = turns(
        &slots,
        &mut store,
        &mut seats[2],
        &mut first,
        &mut second,
        &log,
    );
    let mut sessions = Vec::with_capacity(alloc, 2)?;
    sessions.push(first)?;
    sessions.push(second)?;
    slots.close(store, maker, Sessions::from_vec(sessions));
    Ok(told)
}

// So many sessions, each with one commit.
fn connect(
    alloc: Global,
    slots: &Slots<Log>,
    store: &mut StoreSeat<Log>,
    maker: &mut Maker<Log>,
    count: u32,
) -> Result<Vec<SessionSeat<Log>>, AllocError>
    requires table { (store.old.table ≡ slots.now.table) × (maker.old.table ≡ slots.now.table) }
    requires new { (maker.old.part.sessions ≡ 0) × (store.old.part.commits ≡ []) × (store.old.part.faults ≡ 0) }
    ensures table { (store.new.table ≡ slots.now.table) × (maker.new.table ≡ slots.now.table) }
    ensures seated { IfOk result (λ seats. All (λ s. s.table ≡ slots.now.table) seats.items) }
    ensures all { IfOk result (λ seats. length seats.items ≡ maker.new.part.sessions) }
    ensures faults { store.new.part.faults ≡ 0 }
{
    let log = log_of(alloc, 3);
    let mut seats = Vec::new(alloc);
    for number in 0..count {
        let mut seat = slots.session(maker);
        slots.add_commit(store, &mut seat, &log, number as u64);
        seats.push(seat)?;
    }
    Ok(seats)
}

// What the sessions were told at the close, summed up, and what the last was told.
fn closed(alloc: Global, count: u32, sessions: u32) -> Result<(u64, u64), AllocError> {
    if count < 16 || 262_144 < count || !count.is_power_of_two() {
        return Ok((0, 0));
    }
    let (slots, _, mut store, mut maker) = Slots::<Log>::new(alloc, count)?;
    let mut seats = connect(alloc, &slots, &mut store, &mut maker, sessions)?;
    let mut sum = 0u64;
    for seat in &seats {
        sum = sum.wrapping_add(seat.told());
    }
    let mut last = 0;
    if let Some(seat) = seats.first_mut() {
        slots.tell(&mut store, seat, 2, true);
        last = seat.told();
    }
    slots.close(store, maker, Sessions::from_vec(seats));
    Ok((sum, last))
}

#[test]
fn sessions_that_meet_are_told(rt: HostRuntime) -> Result<(), Fail> {
    let told = told_in_turn(rt.alloc(), 16)?;
    assert!(rt; told == [1, 0, 1, 2, 2, 2, 1, 2]);
    Ok(())
}

#[test]
fn a_table_closes_with_64_sessions(rt: HostRuntime) -> Result<(), Fail> {
    let (sum, last) = closed(rt.alloc(), 64, 64)?;
    assert!(rt; sum == 2080 && last == 64);
    Ok(())
}
