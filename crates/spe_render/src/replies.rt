//! The text of replies.

ghost use Rattle.std.specs.Prelude.{◌≡◌, ◌∷◌, [], ◌++◌, decimal};
ghost use Rattle.spe_render.specs.Passes.{Passes};
ghost use Rattle.spe_render.specs.Replies.{all_shown, inserted_reply, refusal_name, refused_reply, replies_text, reply_text, rows_reply, shown_text};

use crate::printer::Printer;
use crate::values::put_joined;
use spe_disk::Sink;
use spe_model::{Refusal, Reply, Rows, Values};

// Prints the line of a row that a statement asked for.
fn put_shown<W: Sink>(out: &mut Printer, sink: &mut W, row: &Values)
    ensures { Passes (W.taken sink.old) (W.taken sink.new) (W.faults sink.old) (W.faults sink.new) out.old out.new (shown_text row.now) }
{
    out.bytes(sink, b"  row ");
    put_joined(out, sink, row.as_slice());
    out.byte(sink, b'\n');
}

fn put_all_shown<W: Sink>(out: &mut Printer, sink: &mut W, rows: &[Values])
    ensures { Passes (W.taken sink.old) (W.taken sink.new) (W.faults sink.old) (W.faults sink.new) out.old out.new (all_shown rows.now) }
{
    let mut left = rows;
    while let [row, rest @ ..] = left {
        put_shown(out, sink, row);
        left = rest;
    }
}

/// Prints a line that ends with a count.
pub fn put_count<W: Sink>(out: &mut Printer, sink: &mut W, words: &[u8], count: u64)
    ensures { Passes (W.taken sink.old) (W.taken sink.new) (W.faults sink.old) (W.faults sink.new) out.old out.new (words.now ++ decimal count ++ 10 ∷ []) }
{
    out.bytes(sink, words);
    out.number(sink, count);
    out.byte(sink, b'\n');
}

// Prints rows that a statement asked for, and how many they are.
fn put_counted_rows<W: Sink>(out: &mut Printer, sink: &mut W, rows: &Rows)
    ensures { Passes (W.taken sink.old) (W.taken sink.new) (W.faults sink.old) (W.faults sink.new) out.old out.new (rows_reply rows.now) }
{
    let shown = rows.as_slice();
    put_all_shown(out, sink, shown);
    put_count(out, sink, b"  rows ", shown.len() as u64);
}

fn put_inserted<W: Sink>(out: &mut Printer, sink: &mut W, rowid: i64)
    ensures { Passes (W.taken sink.old) (W.taken sink.new) (W.faults sink.old) (W.faults sink.new) out.old out.new (inserted_reply rowid) }
{
    out.bytes(sink, b"  inserted ");
    out.signed(sink, rowid);
    out.byte(sink, b'\n');
}

fn name_of(refusal: Refusal) -> &'static [u8]
    ensures { result.now ≡ refusal_name refusal }
{
    match refusal {
        Refusal::ReadOnly => b"ReadOnly",
        Refusal::NoTable => b"NoTable",
        Refusal::ClosedTable => b"ClosedTable",
        Refusal::NoColumn => b"NoColumn",
        Refusal::NotByRowid => b"NotByRowid",
        Refusal::Count => b"Count",
        Refusal::Class => b"Class",
        Refusal::NotNull => b"NotNull",
        Refusal::RowidFixed => b"RowidFixed",
        Refusal::RowidTaken => b"RowidTaken",
        Refusal::RowidsUsedUp => b"RowidsUsedUp",
        Refusal::TooLarge => b"TooLarge",
    }
}

fn put_refused<W: Sink>(out: &mut Printer, sink: &mut W, refusal: Refusal)
    ensures { Passes (W.taken sink.old) (W.taken sink.new) (W.faults sink.old) (W.faults sink.new) out.old out.new (refused_reply refusal) }
{
    out.bytes(sink, b"  error ");
    out.bytes(sink, name_of(refusal));
    out.byte(sink, b'\n');
}

fn put_reply<W: Sink>(out: &mut Printer, sink: &mut W, reply: &Reply)
    ensures { Passes (W.taken sink.old) (W.taken sink.new) (W.faults sink.old) (W.faults sink.new) out.old out.new (reply_text reply.now) }
{
    match reply {
        Reply::Rows(rows) => put_counted_rows(out, sink, rows),
        Reply::Count(count) => put_count(out, sink, b"  count ", *count),
        Reply::Changed(count) => put_count(out, sink, b"  changed ", *count),
        Reply::Inserted(rowid) => put_inserted(out, sink, *rowid),
        Reply::Refused(refusal) => put_refused(out, sink, *refusal),
    }
}

/// Prints the lines of replies, each behind two blanks.
pub fn put_replies<W: Sink>(out: &mut Printer, sink: &mut W, replies: &[Reply])
    ensures { Passes (W.taken sink.old) (W.taken sink.new) (W.faults sink.old) (W.faults sink.new) out.old out.new (replies_text replies.now) }
{
    let mut left = replies;
    while let [reply, rest @ ..] = left {
        put_reply(out, sink, reply);
        left = rest;
    }
}
