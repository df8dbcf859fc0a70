//! The text of transactions and clients.

ghost use Rattle.std.specs.Prelude.{◌≡◌};
ghost use Rattle.hex.specs.Hex.{encode_lower};
ghost use Rattle.byteorder.specs.Endian.{big_bytes};
ghost use Rattle.spe_render.specs.Passes.{Passes};
ghost use Rattle.spe_render.specs.Outcomes.{cause_text, client_text, clients_text, ending_text, numbered, outcome_text, transaction_text, transactions_text, without_zeros, word_text};

use crate::printer::Printer;
use crate::replies::put_replies;
use spe_disk::Sink;
use spe_model::{Cause, Outcome, Replies, Transcript};

// The hexadecimal digits of a lock word, zeros at the front among them.
fn digits_of(word: u64) -> [u8; 16]
    ensures { result ≡ encode_lower (big_bytes 8 word) }
{
    let mut digits = [0; 16];
    if hex::encode_to_slice(word.to_be_bytes(), &mut digits).is_err() {
        unreachable!();
    }
    digits
}

// Digits without the zeros at their front.
fn significant(digits: &[u8]) -> &[u8]
    ensures { result.now ≡ without_zeros digits.now }
{
    let mut left = digits;
    while let [digit, rest @ ..] = left {
        if *digit != b'0' || rest.is_empty() {
            return left;
        }
        left = rest;
    }
    left
}

fn put_word<W: Sink>(out: &mut Printer, sink: &mut W, word: u64)
    ensures { Passes (W.taken sink.old) (W.taken sink.new) (W.faults sink.old) (W.faults sink.new) out.old out.new (word_text word) }
{
    let digits = digits_of(word);
    out.bytes(sink, b"0x");
    out.bytes(sink, significant(&digits));
}

// Prints words and a number behind them.
fn put_number<W: Sink>(out: &mut Printer, sink: &mut W, words: &[u8], number: u64)
    ensures { Passes (W.taken sink.old) (W.taken sink.new) (W.faults sink.old) (W.faults sink.new) out.old out.new (numbered words.now number) }
{
    out.bytes(sink, words);
    out.number(sink, number);
}

fn put_cause<W: Sink>(out: &mut Printer, sink: &mut W, cause: Cause)
    ensures { Passes (W.taken sink.old) (W.taken sink.new) (W.faults sink.old) (W.faults sink.new) out.old out.new (cause_text cause) }
{
    match cause {
        Cause::Read => out.bytes(sink, b" read"),
        Cause::Stopped { op } => put_number(out, sink, b" stopped ", op),
        Cause::Corrupt { page } => put_number(out, sink, b" corrupt ", page as u64),
    }
}

// Prints how a transaction ended.
fn put_ending<W: Sink>(out: &mut Printer, sink: &mut W, outcome: Outcome)
    ensures { Passes (W.taken sink.old) (W.taken sink.new) (W.faults sink.old) (W.faults sink.new) out.old out.new (ending_text outcome) }
{
    match outcome {
        Outcome::Commit { number } => put_number(out, sink, b" commit ", number),
        Outcome::Rollback { number } => put_number(out, sink, b" rollback ", number),
        Outcome::ReadOnly { number } => put_number(out, sink, b" readonly ", number),
        Outcome::Busy { number, page, word } => {
            put_number(out, sink, b" busy ", number);
            put_number(out, sink, b" page ", page as u64);
            out.bytes(sink, b" word ");
            put_word(out, sink, word);
        }
        Outcome::Full { number, pages } => {
            put_number(out, sink, b" full ", number);
            put_number(out, sink, b" pages ", pages as u64);
        }
        Outcome::Fault { number, cause } => {
            put_number(out, sink, b" fault ", number);
            put_cause(out, sink, cause);
        }
        Outcome::Memory { number } => put_number(out, sink, b" memory ", number),
    }
}

// Prints the line of a transaction.
fn put_outcome<W: Sink>(out: &mut Printer, sink: &mut W, number: u64, outcome: Outcome)
    ensures { Passes (W.taken sink.old) (W.taken sink.new) (W.faults sink.old) (W.faults sink.new) out.old out.new (outcome_text number outcome) }
{
    put_number(out, sink, b"tx ", number);
    put_ending(out, sink, outcome);
    out.byte(sink, b'\n');
}

fn put_transaction<W: Sink>(
    out: &mut Printer,
    sink: &mut W,
    number: u64,
    transaction: &(Outcome, Replies),
)
    ensures { Passes (W.taken sink.old) (W.taken sink.new) (W.faults sink.old) (W.faults sink.new) out.old out.new (transaction_text number transaction.now) }
{
    let (outcome, replies) = transaction;
    put_outcome(out, sink, number, *outcome);
    put_replies(out, sink, replies.as_slice());
}

fn put_transactions<W: Sink>(out: &mut Printer, sink: &mut W, transactions: &[(Outcome, Replies)])
    ensures { Passes (W.taken sink.old) (W.taken sink.new) (W.faults sink.old) (W.faults sink.new) out.old out.new (transactions_text 1 transactions.now) }
{
    let mut left = transactions;
    let mut number = 1;
    while let [transaction, rest @ ..] = left {
        put_transaction(out, sink, number, transaction);
        left = rest;
        number += 1;
    }
}

fn put_client<W: Sink>(out: &mut Printer, sink: &mut W, number: u64, client: &Transcript)
    ensures { Passes (W.taken sink.old) (W.taken sink.new) (W.faults sink.old) (W.faults sink.new) out.old out.new (client_text number client.now) }
{
    put_number(out, sink, b"client ", number);
    out.byte(sink, b'\n');
    put_transactions(out, sink, client.as_slice());
}

/// Prints the lines of clients, which are numbered from 1.
pub fn put_clients<W: Sink>(out: &mut Printer, sink: &mut W, clients: &[Transcript])
    ensures { Passes (W.taken sink.old) (W.taken sink.new) (W.faults sink.old) (W.faults sink.new) out.old out.new (clients_text 1 clients.now) }
{
    let mut left = clients;
    let mut client_number = 1;
    while let [client, rest @ ..] = left {
        put_client(out, sink, client_number, client);
        left = rest;
        client_number += 1;
    }
}
