// Worked rows on lock words: who conflicts with whom, what the store may pin, and what word each refusal shows.
ghost use Rattle.std.specs.Prelude.{◌≡◌, ◌<◌, All, length};

use spe_slots::{IdSeat, Pin, Slots, StoreSeat, Try};
use std::alloc::{AllocError, Global};
use std::process::Abort;
use std::test::Fail;

#[derive(Clone, Copy)]
enum Act {
    Read,
    Write,
    Release,
    PinRead,
    PinWrite,
    Unpin,
}

// The id that asks or that the store asks for, what is asked, the page, and the word that the refusal must show. None: the answer must be Done.
type Row = (usize, Act, u32, Option<u64>);

// The word of a conflict. None: Done. A race, which no single thread can have, is the word of all ones.
fn conflict_of(answer: Try) -> Option<u64> {
    match answer {
        Try::Done => None,
        Try::Conflict(shown) => Some(shown.word),
        Try::Raced(_, _) => Some(u64::MAX),
    }
}

// The word in which the store found no lock of the id.
fn pinless_of(answer: Pin) -> Option<u64> {
    match answer {
        Pin::Done => None,
        Pin::Pinless(word) => Some(word),
        Pin::Raced(_, _) => Some(u64::MAX),
    }
}

fn played(
    slots: &Slots<()>,
    store: &mut StoreSeat<()>,
    seat: &mut IdSeat<()>,
    act: Act,
    page: u32,
) -> Option<u64>
    requires { (store.old.table ≡ slots.now.table) × (seat.old.table ≡ slots.now.table) }
    ensures { (store.new.table ≡ store.old.table) × (seat.new.table ≡ seat.old.table) }
{
    let word = slots.word_of(page);
    let id = seat.id();
    match act {
        Act::Read => conflict_of(slots.try_read(seat, word)),
        Act::Write => conflict_of(slots.try_write(seat, word)),
        Act::Release => conflict_of(slots.try_release(seat, word)),
        Act::PinRead => pinless_of(slots.pin_read(store, id, word)),
        Act::PinWrite => pinless_of(slots.pin_write(store, id, word)),
        Act::Unpin => {
            slots.unpin(store, id, word);
            None
        }
    }
}

// Plays the rows in their order. The answer is the first row that is not as it must be.
fn first_wrong(
    slots: &Slots<()>,
    store: &mut StoreSeat<()>,
    seats: &mut [IdSeat<()>],
    rows: &[Row],
) -> Option<usize>
    requires store { store.old.table ≡ slots.now.table }
    requires seats { All (λ s. s.table ≡ slots.now.table) seats.old }
{
    for at in 0..rows.len() {
        let (seat, act, page, conflict) = rows[at];
        if seats.len() <= seat {
            return Some(at);
        }
        if played(slots, store, &mut seats[seat], act, page) != conflict {
            return Some(at);
        }
    }
    None
}

// The same at a new table of that many words.
fn first_wrong_of(alloc: Global, count: u32, rows: &[Row]) -> Result<Option<usize>, AllocError> {
    if count < 16 || 262_144 < count || !count.is_power_of_two() {
        return Ok(Some(rows.len()));
    }
    let (slots, ids, mut store, _) = Slots::<()>::new(alloc, count)?;
    let mut seats = ids.into_vec();
    Ok(first_wrong(&slots, &mut store, &mut seats, rows))
}

// Among 64 words page 69 is under the word of page 5, and page 68 is not.
const TWO_PAGES: [Row; 3] = [
    (0, Act::Write, 5, None),
    (1, Act::Read, 69, Some(0x10000)),
    (1, Act::Read, 68, None),
];

const A_WRITER_AFTER_A_READER: [Row; 6] = [
    (3, Act::Read, 9, None),
    (5, Act::Write, 9, Some(0x8)),
    (3, Act::Release, 9, None),
    (3, Act::Release, 9, None),
    (5, Act::Write, 9, None),
    (3, Act::Read, 9, Some(0x60000)),
];

const A_READER_THAT_WRITES: [Row; 4] = [
    (3, Act::Read, 7, None),
    (3, Act::Write, 7, None),
    (3, Act::Write, 7, None),
    (0, Act::Read, 7, Some(0x40008)),
];

const A_READER_BESIDE_ANOTHER: [Row; 4] = [
    (3, Act::Read, 7, None),
    (0, Act::Read, 7, None),
    (3, Act::Read, 7, None),
    (3, Act::Write, 7, Some(0x9)),
];

// The first and the last word of the largest table.
const THE_LARGEST_TABLE: [Row; 8] = [
    (0, Act::Write, 0, None),
    (15, Act::Write, 262_143, None),
    (15, Act::Read, 262_144, Some(0x10000)),
    (0, Act::Read, u32::MAX, Some(0x100000)),
    (0, Act::Release, 262_144, None),
    (15, Act::Release, 262_143, None),
    (15, Act::Read, 0, None),
    (0, Act::Write, 0, Some(0x8000)),
];

// A read pin is bit 32 and the id up, the write pin bit 48. A pin holds the locks of its id alone, and
// stands against nobody.
const PINS_OF_A_READER: [Row; 11] = [
    (2, Act::PinRead, 9, Some(0)),
    (2, Act::Read, 9, None),
    (2, Act::PinWrite, 9, Some(0x4)),
    (2, Act::PinRead, 9, None),
    (2, Act::Release, 9, Some(0x4_0000_0004)),
    (15, Act::Read, 9, None),
    (15, Act::PinRead, 9, None),
    (0, Act::Write, 9, Some(0x8004_0000_8004)),
    (2, Act::Unpin, 9, None),
    (15, Act::Release, 9, Some(0x8000_0000_8004)),
    (2, Act::Release, 9, None),
];

// A write lock serves for a read pin. Both pins of an id go at once, and another id's stay.
const PINS_OF_A_WRITER: [Row; 11] = [
    (3, Act::Write, 7, None),
    (3, Act::PinRead, 7, None),
    (3, Act::Release, 7, Some(0x8_0004_0000)),
    (3, Act::PinWrite, 7, None),
    (0, Act::PinRead, 7, Some(0x1_0008_0004_0000)),
    (0, Act::Unpin, 7, None),
    (3, Act::Release, 7, Some(0x1_0008_0004_0000)),
    (0, Act::Read, 7, Some(0x1_0008_0004_0000)),
    (3, Act::Unpin, 7, None),
    (0, Act::Read, 7, Some(0x4_0000)),
    (3, Act::Release, 7, None),
];

// The first wrong row of a table, by its place.
fn first_wrong_in(alloc: Global, table: u8) -> Result<Option<usize>, AllocError> {
    match table {
        0 => first_wrong_of(alloc, 64, &TWO_PAGES),
        1 => first_wrong_of(alloc, 64, &A_WRITER_AFTER_A_READER),
        2 => first_wrong_of(alloc, 64, &A_READER_THAT_WRITES),
        3 => first_wrong_of(alloc, 16, &A_READER_BESIDE_ANOTHER),
        4 => first_wrong_of(alloc, 262_144, &THE_LARGEST_TABLE),
        5 => first_wrong_of(alloc, 64, &PINS_OF_A_READER),
        _ => first_wrong_of(alloc, 16, &PINS_OF_A_WRITER),
    }
}

fn expect(rt: &impl Abort, table: u8, wrong: Option<usize>) {
    let row = wrong.unwrap_or(0);
    assert!(rt; wrong.is_none(), "row {row} of table {table}");
}

#[test]
fn rows_show_the_words_of_refusals(rt: HostRuntime) -> Result<(), Fail> {
    for table in 0..7u8 {
        let wrong = first_wrong_in(rt.alloc(), table)?;
        expect(&rt, table, wrong);
    }
    Ok(())
}
