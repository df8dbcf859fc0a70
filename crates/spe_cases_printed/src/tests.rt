//! Texts of transcripts, as sinks in memory take them.

use spe_disk::{Failed, MemSink};
use spe_model::{
    Bytes, Cause, Numbers, Outcome, Refusal, Replies, Reply, Rows, Text, Transcript, Transcripts,
    Value, Values,
};
use spe_render::render;
use std::alloc::{AllocError, Global};
use std::process::Abort;

/// A value that a table can hold.
#[derive(Clone, Copy)]
enum Field {
    Null,
    Int(i64),
    Text(&'static str),
    Blob(&'static [u8]),
    Real8([u8; 8]),
}

/// A reply that a table can hold.
#[derive(Clone, Copy)]
enum Answer {
    Rows(&'static [&'static [Field]]),
    Count(u64),
    Changed(u64),
    Inserted(i64),
    Refused(Refusal),
}

/// Outcomes, each with its text behind `tx 1 `.
static OUTCOMES: [(Outcome, &str); 14] = [
    (Outcome::Commit { number: 1 }, "commit 1"),
    (
        Outcome::Commit {
            number: 18446744073709551615,
        },
        "commit 18446744073709551615",
    ),
    (Outcome::Rollback { number: 0 }, "rollback 0"),
    (Outcome::ReadOnly { number: 10 }, "readonly 10"),
    (
        Outcome::Busy {
            number: 3,
            page: 2,
            word: 0,
        },
        "busy 3 page 2 word 0x0",
    ),
    (
        Outcome::Busy {
            number: 3,
            page: 4294967295,
            word: 1,
        },
        "busy 3 page 4294967295 word 0x1",
    ),
    (
        Outcome::Busy {
            number: 3,
            page: 7,
            word: 0x8000_0000_00AB_CDEF,
        },
        "busy 3 page 7 word 0x8000000000abcdef",
    ),
    (
        Outcome::Busy {
            number: 3,
            page: 7,
            word: 0x10,
        },
        "busy 3 page 7 word 0x10",
    ),
    (
        Outcome::Full {
            number: 4,
            pages: 262128,
        },
        "full 4 pages 262128",
    ),
    (
        Outcome::Fault {
            number: 5,
            cause: Cause::Read,
        },
        "fault 5 read",
    ),
    (
        Outcome::Fault {
            number: 5,
            cause: Cause::Stopped { op: 12 },
        },
        "fault 5 stopped 12",
    ),
    (
        Outcome::Fault {
            number: 5,
            cause: Cause::Corrupt { page: 9 },
        },
        "fault 5 corrupt 9",
    ),
    (Outcome::Memory { number: 6 }, "memory 6"),
    (Outcome::Memory { number: 0 }, "memory 0"),
];

/// Replies, each with its lines.
static ANSWERS: [(Answer, &str); 27] = [
    (Answer::Rows(&[]), "  rows 0\n"),
    (Answer::Rows(&[&[Field::Null]]), "  row NULL\n  rows 1\n"),
    (
        Answer::Rows(&[
            &[Field::Int(0), Field::Int(-1)],
            &[
                Field::Int(9223372036854775807),
                Field::Int(-9223372036854775808),
            ],
        ]),
        "  row 0|-1\n  row 9223372036854775807|-9223372036854775808\n  rows 2\n",
    ),
    (Answer::Rows(&[&[Field::Text("")]]), "  row ''\n  rows 1\n"),
    (
        Answer::Rows(&[&[Field::Text("it's")]]),
        "  row 'it''s'\n  rows 1\n",
    ),
    (
        Answer::Rows(&[&[Field::Text("''")]]),
        "  row ''''''\n  rows 1\n",
    ),
    (
        Answer::Rows(&[&[Field::Text("a|b\tc\nd")]]),
        "  row 'a|b\tc\nd'\n  rows 1\n",
    ),
    (
        Answer::Rows(&[&[Field::Text("Gr\u{fc}n")]]),
        "  row 'Gr\u{fc}n'\n  rows 1\n",
    ),
    (
        Answer::Rows(&[&[Field::Blob(&[])]]),
        "  row x''\n  rows 1\n",
    ),
    (
        Answer::Rows(&[&[Field::Blob(&[0, 10, 39, 171, 255])]]),
        "  row x'000a27abff'\n  rows 1\n",
    ),
    (
        Answer::Rows(&[&[Field::Real8([64, 9, 33, 251, 84, 68, 45, 24])]]),
        "  row r'400921fb54442d18'\n  rows 1\n",
    ),
    (Answer::Count(0), "  count 0\n"),
    (
        Answer::Count(18446744073709551615),
        "  count 18446744073709551615\n",
    ),
    (Answer::Changed(3), "  changed 3\n"),
    (Answer::Inserted(-5), "  inserted -5\n"),
    (Answer::Refused(Refusal::ReadOnly), "  error ReadOnly\n"),
    (Answer::Refused(Refusal::NoTable), "  error NoTable\n"),
    (
        Answer::Refused(Refusal::ClosedTable),
        "  error ClosedTable\n",
    ),
    (Answer::Refused(Refusal::NoColumn), "  error NoColumn\n"),
    (Answer::Refused(Refusal::NotByRowid), "  error NotByRowid\n"),
    (Answer::Refused(Refusal::Count), "  error Count\n"),
    (Answer::Refused(Refusal::Class), "  error Class\n"),
    (Answer::Refused(Refusal::NotNull), "  error NotNull\n"),
    (Answer::Refused(Refusal::RowidFixed), "  error RowidFixed\n"),
    (Answer::Refused(Refusal::RowidTaken), "  error RowidTaken\n"),
    (
        Answer::Refused(Refusal::RowidsUsedUp),
        "  error RowidsUsedUp\n",
    ),
    (Answer::Refused(Refusal::TooLarge), "  error TooLarge\n"),
];

/// Two clients with transactions and one with none.
static CLIENTS: [&[Outcome]; 3] = [
    &[
        Outcome::Commit { number: 2 },
        Outcome::Rollback { number: 2 },
    ],
    &[],
    &[Outcome::Commit { number: 1 }],
];

static CLIENTS_TEXT: &str =
    "client 1\ntx 1 commit 2\ntx 2 rollback 2\nclient 2\nclient 3\ntx 1 commit 1\n";

/// How many bytes a sink takes a call, which calls fail, its room, and how many bytes of the text of
/// the clients it has in the end.
static SINKS: [(usize, u64, usize, usize); 7] = [
    (65536, 0, 65536, 71),
    (1, 0, 65536, 71),
    (10, 0, 71, 71),
    (10, 1, 65536, 0),
    (10, 2, 65536, 10),
    (10, 0, 25, 25),
    (0, 0, 65536, 0),
];

fn value_of(alloc: Global, field: Field) -> Result<Value, AllocError> {
    Ok(match field {
        Field::Null => Value::Null,
        Field::Int(number) => Value::Int(number),
        Field::Text(text) => Value::Text(Text::new(String::from_str(alloc, text)?)),
        Field::Blob(bytes) => Value::Blob(Bytes::new(Vec::from_slice(alloc, bytes)?)),
        Field::Real8(bytes) => Value::Real8(bytes),
    })
}

fn rows_of(alloc: Global, rows: &[&[Field]]) -> Result<Rows, AllocError> {
    let mut found = Vec::new(alloc);
    for row in rows {
        let mut values = Vec::new(alloc);
        for field in *row {
            values.push(value_of(alloc, *field)?)?;
        }
        found.push(Values::new(values))?;
    }
    Ok(Rows::new(found))
}

fn reply_of(alloc: Global, answer: Answer) -> Result<Reply, AllocError> {
    Ok(match answer {
        Answer::Rows(rows) => Reply::Rows(rows_of(alloc, rows)?),
        Answer::Count(count) => Reply::Count(count),
        Answer::Changed(count) => Reply::Changed(count),
        Answer::Inserted(rowid) => Reply::Inserted(rowid),
        Answer::Refused(refusal) => Reply::Refused(refusal),
    })
}

/// One client with one transaction.
fn one(alloc: Global, outcome: Outcome, replies: Vec<Reply>) -> Result<Transcripts, AllocError> {
    let mut transactions = Vec::new(alloc);
    transactions.push((outcome, Replies::new(replies)))?;
    let mut clients = Vec::new(alloc);
    clients.push(Transcript::new(transactions))?;
    Ok(Transcripts::new(clients))
}

fn clients_of(alloc: Global, clients: &[&[Outcome]]) -> Result<Transcripts, AllocError> {
    let mut found = Vec::new(alloc);
    for outcomes in clients {
        let mut transactions = Vec::new(alloc);
        for outcome in *outcomes {
            transactions.push((*outcome, Replies::new(Vec::new(alloc))))?;
        }
        found.push(Transcript::new(transactions))?;
    }
    Ok(Transcripts::new(found))
}

fn sink_of(alloc: Global, room: usize, most: usize, failing: u64) -> Result<MemSink, AllocError> {
    let failing = Numbers::new(Vec::from_slice(alloc, &[failing])?);
    MemSink::new(alloc, room, most, failing)
}

/// Renders transcripts into a sink, and expects this text behind a line of the client.
fn expect<R: Abort>(
    rt: &R,
    alloc: Global,
    transcripts: &Transcripts,
    texts: &[&str],
) -> Result<(), AllocError> {
    let mut sink = sink_of(alloc, 1 << 16, 1 << 16, 0)?;
    let done = render(transcripts, &mut sink);
    let mut text = Vec::new(alloc);
    for piece in texts {
        text.extend_from_slice(piece.as_bytes())?;
    }
    assert!(rt; done.is_ok());
    assert_eq!(rt; sink.as_slice(), text.as_slice());
    Ok(())
}

fn outcome_row<R: Abort>(rt: &R, alloc: Global, row: &(Outcome, &str)) -> Result<(), AllocError> {
    let (outcome, text) = row;
    let transcripts = one(alloc, *outcome, Vec::new(alloc))?;
    expect(rt, alloc, &transcripts, &["client 1\ntx 1 ", text, "\n"])
}

fn answer_row<R: Abort>(rt: &R, alloc: Global, row: &(Answer, &str)) -> Result<(), AllocError> {
    let (answer, text) = row;
    let mut replies = Vec::new(alloc);
    replies.push(reply_of(alloc, *answer)?)?;
    let transcripts = one(alloc, Outcome::Commit { number: 7 }, replies)?;
    expect(
        rt,
        alloc,
        &transcripts,
        &["client 1\ntx 1 commit 7\n", text],
    )
}

fn sink_row<R: Abort>(
    rt: &R,
    alloc: Global,
    row: &(usize, u64, usize, usize),
) -> Result<(), AllocError> {
    let (most, failing, room, taken) = *row;
    let transcripts = clients_of(alloc, &CLIENTS)?;
    let mut sink = sink_of(alloc, room, most, failing)?;
    let done = render(&transcripts, &mut sink);
    assert_eq!(rt; done.is_ok(), taken == 71);
    assert_eq!(rt;
        sink.as_slice(),
        CLIENTS_TEXT.as_bytes().get(..taken).unwrap_or(&[])
    );
    Ok(())
}

/// A text of so many letters, between short ones.
fn long_row<R: Abort>(rt: &R, alloc: Global, letters: usize) -> Result<(), AllocError> {
    let long = vec![in alloc; b'q'; letters]?;
    let mut values = Vec::new(alloc);
    values.push(Value::Int(1))?;
    values.push(Value::Blob(Bytes::new(long)))?;
    values.push(Value::Null)?;
    let mut rows = Vec::new(alloc);
    rows.push(Values::new(values))?;
    let mut replies = Vec::new(alloc);
    replies.push(Reply::Rows(Rows::new(rows)))?;
    let transcripts = one(alloc, Outcome::Commit { number: 7 }, replies)?;
    let mut text = Vec::new(alloc);
    text.extend_from_slice(b"client 1\ntx 1 commit 7\n  row 1|x'")?;
    for _ in 0..letters {
        text.extend_from_slice(b"71")?;
    }
    text.extend_from_slice(b"'|NULL\n  rows 1\n")?;
    let mut sink = sink_of(alloc, 1 << 18, 1 << 18, 0)?;
    let done = render(&transcripts, &mut sink);
    assert!(rt; done.is_ok());
    assert_eq!(rt; sink.as_slice(), text.as_slice());
    Ok(())
}

#[test]
fn outcomes(rt: HostRuntime) -> Result<(), AllocError> {
    for row in &OUTCOMES {
        outcome_row(&rt, rt.alloc(), row)?;
    }
    Ok(())
}

#[test]
fn replies(rt: HostRuntime) -> Result<(), AllocError> {
    for row in &ANSWERS {
        answer_row(&rt, rt.alloc(), row)?;
    }
    Ok(())
}

#[test]
fn clients_and_sinks(rt: HostRuntime) -> Result<(), AllocError> {
    for row in &SINKS {
        sink_row(&rt, rt.alloc(), row)?;
    }
    Ok(())
}

#[test]
fn long_texts(rt: HostRuntime) -> Result<(), AllocError> {
    for letters in &LONG {
        long_row(&rt, rt.alloc(), *letters)?;
    }
    Ok(())
}

/// So many letters that the text ends within, at and behind pieces of 32,768 bytes.
static LONG: [usize; 4] = [0, 16_360, 16_384, 50_000];
