//! The transactions that a script is.

ghost use Rattle.std.specs.Prelude.{◌≡◌, ◌≤◌, length, take};
ghost use Rattle.std.specs.List.{count_by};
ghost use Rattle.spe_script.specs.Script.{is_line_feed, line_of, txs_in, script_of};
ghost use Rattle.spe_script.specs.Read.{IsRead, IsScript, IsLocated};

use crate::fault::{Misread, ScriptError, ScriptKind};
use crate::gathered::Gathered;
use crate::item::item_of;
use crate::part::Border;
use crate::stretch::read_stretch;
use spe_lex::Cursor;
use spe_model::Txs;
use std::alloc::Global;

// How many bytes a script may have.
const LONGEST: usize = 1 << 24;

// The transactions of a text.
fn read_text(alloc: Global, text: &str) -> Result<Txs, Misread>
    ensures { IsRead result (txs_in text.now) }
{
    let size = text.len() as u64;
    let mut cursor = Cursor::new(text);
    let mut tokens = Vec::new(alloc);
    let mut gathered = Gathered::new(alloc);
    'stretches: loop {
        let border = read_stretch(&mut cursor, size, &mut tokens)?;
        let item = item_of(gathered.is_open(), tokens.as_slice(), border, alloc)?;
        gathered.take(item, alloc)?;
        if !matches!(border, Border::Semicolon(_)) {
            return Ok(gathered.finish()?);
        }
    }
}

fn is_line_feed(byte: u8) -> bool
    ensures { result ≡ is_line_feed byte }
{
    byte == b'\n'
}

// How many line feeds stand before a place.
fn line_feeds(text: &[u8], at: u64) -> usize
    ensures value { result ≡ count_by is_line_feed (take at text.now) }
    ensures within { result ≤ length text.now }
{
    text.iter()
        .take(at as usize)
        .filter(|byte| is_line_feed(**byte))
        .count()
}

// The line of a place in a text, counted from 1.
fn line_of(text: &[u8], at: u64) -> u64
    ensures { result ≡ line_of text.now at }
{
    1 + line_feeds(text, at) as u64
}

// The same with the line of a fault in the place of its place.
fn located(text: &[u8], found: Result<Txs, Misread>) -> Result<Txs, ScriptError>
    ensures { IsLocated text.now found result }
{
    match found {
        Ok(txs) => Ok(txs),
        Err(
            Misread {
                kind: ScriptKind::Memory,
                ..
            },
        ) => Err(ScriptError {
            line: 0,
            kind: ScriptKind::Memory,
        }),
        Err(misread) => Err(ScriptError {
            line: line_of(text, misread.at),
            kind: misread.kind,
        }),
    }
}

/// The transactions that a script is, in order.
///
/// Items stand between semicolons: a statement, `BEGIN`, `BEGIN READONLY`, `COMMIT`, `END` or
/// `ROLLBACK`, each with or without the word TRANSACTION but for `BEGIN READONLY`. A statement outside
/// a transaction is one by itself and is committed; a transaction that is open at the end is rolled
/// back. The fault is the first one by its place, with the line of that place. `TooLong`, for more than
/// 16777216 bytes, and then `NotUtf8` go before all others and stand in line 0. `Memory` is tied to
/// nothing. The grammar is this project's own, and `docs/STATEMENTS.md` has it.
#[tactic(auto, unfolding(crate::specs::Script::script_of))]
pub fn read_script(alloc: Global, bytes: &[u8]) -> Result<Txs, ScriptError>
    ensures { IsScript result (script_of bytes.now) }
{
    if bytes.len() > LONGEST {
        return Err(ScriptError {
            line: 0,
            kind: ScriptKind::TooLong,
        });
    }
    let Ok(text) = str::from_utf8(bytes) else {
        return Err(ScriptError {
            line: 0,
            kind: ScriptKind::NotUtf8,
        });
    };
    located(bytes, read_text(alloc, text))
}
