//! The item that a stretch is.

ghost use Rattle.std.specs.Prelude.{◌≡◌};
ghost use Rattle.spe_parse.specs.Read.{IsPart};
ghost use Rattle.spe_script.specs.Item.{begins, commits, rolls_back, past_transaction, begin_at, item_at, whole_item};
ghost use Rattle.spe_script.specs.Script.{kind_of, border_fault, misplaced, item_of};
ghost use Rattle.spe_script.specs.Read.{IsRead, IsAnswerTo};

use crate::fault::{Misread, ScriptKind};
use crate::part::{Border, Item};
use spe_lex::Lexeme;
use spe_model::{End, SqlKind, TxKind};
use spe_parse::{Halt, Left, read_statement};
use std::alloc::Global;

// Whether COMMIT or END stands at the front.
fn commits(left: &Left<'_, '_>) -> bool
    ensures { result ≡ commits left.now }
{
    left.stands_word("COMMIT") || left.stands_word("END")
}

// Passes the word TRANSACTION, where it stands at the front.
fn pass_transaction(left: &mut Left<'_, '_>)
    ensures { left.new ≡ past_transaction left.old }
{
    if left.stands_word("TRANSACTION") {
        left.pass();
    }
}

// Reads what follows BEGIN.
#[tactic(auto, unfolding(crate::specs::Item::begin_at))]
fn begin(left: &mut Left<'_, '_>) -> Result<Item, Halt>
    ensures { IsPart (λ i. (i, left.new)) result (begin_at left.old) }
{
    if left.stands_word("READONLY") {
        left.pass();
        return Ok(Item::Begin(TxKind::ReadOnly));
    }
    pass_transaction(left);
    Ok(Item::Begin(TxKind::ReadWrite))
}

// Reads an item from the front of some tokens.
#[tactic(auto, unfolding(crate::specs::Item::item_at))]
fn item(left: &mut Left<'_, '_>, alloc: Global) -> Result<Item, Halt>
    ensures { IsPart (λ i. (i, left.new)) result (item_at left.old) }
{
    if left.stands_word("BEGIN") {
        left.pass();
        begin(left)
    } else if commits(left) {
        left.pass();
        pass_transaction(left);
        Ok(Item::Close(End::Commit))
    } else if left.stands_word("ROLLBACK") {
        left.pass();
        pass_transaction(left);
        Ok(Item::Close(End::Rollback))
    } else {
        Ok(Item::Statement(read_statement(left, alloc)?))
    }
}

// Reads an item, with nothing behind it.
#[tactic(auto, unfolding(crate::specs::Item::whole_item))]
fn whole_item(tokens: &[Lexeme<'_>], alloc: Global) -> Result<Item, Halt>
    ensures { IsPart (λ i. i) result (whole_item tokens.now) }
{
    let mut left = Left::new(tokens);
    let found = item(&mut left, alloc)?;
    match left.tokens() {
        [] => Ok(found),
        _ => Err(left.halt()),
    }
}

// What is wrong where BEGIN stands inside a transaction, or the end of one outside.
fn misplaced(is_open: bool, left: &Left<'_, '_>) -> Option<ScriptKind>
    ensures { result ≡ misplaced is_open left.now }
{
    if is_open {
        if left.stands_word("BEGIN") {
            Some(ScriptKind::Nested)
        } else {
            None
        }
    } else if commits(left) || left.stands_word("ROLLBACK") {
        Some(ScriptKind::NotOpen)
    } else {
        None
    }
}

fn kind_of(kind: SqlKind) -> ScriptKind
    ensures { result ≡ kind_of kind }
{
    match kind {
        SqlKind::Token => ScriptKind::Token,
        SqlKind::Expected => ScriptKind::Expected,
        SqlKind::Unsupported => ScriptKind::Unsupported,
        SqlKind::NumberRange => ScriptKind::NumberRange,
        SqlKind::Memory => ScriptKind::Memory,
    }
}

// The fault where a stretch ends too early.
fn border_fault(border: Border) -> Misread
    ensures { result ≡ border_fault border }
{
    match border {
        Border::Semicolon(at) | Border::TextEnd(at) => Misread {
            at,
            kind: ScriptKind::Expected,
        },
        Border::NoToken(at) => Misread {
            at,
            kind: ScriptKind::Token,
        },
    }
}

// What is answered of what is found before a border.
fn answer(border: Border, found: Result<Item, Halt>) -> Result<Option<Item>, Misread>
    ensures { IsAnswerTo border found result }
{
    match found {
        Ok(item) => match border {
            Border::NoToken(_) => Err(border_fault(border)),
            _ => Ok(Some(item)),
        },
        Err(Halt::Fault(fault)) => Err(Misread {
            at: fault.at,
            kind: kind_of(fault.kind),
        }),
        Err(Halt::Ends) => Err(border_fault(border)),
        Err(Halt::Memory) => Err(Misread {
            at: 0,
            kind: ScriptKind::Memory,
        }),
    }
}

/// The item that the tokens before a border are, if they are one.
pub fn item_of(
    is_open: bool,
    tokens: &[Lexeme<'_>],
    border: Border,
    alloc: Global,
) -> Result<Option<Item>, Misread>
    ensures { IsRead result (item_of is_open tokens.now border) }
{
    let [first, ..] = tokens else {
        return match border {
            Border::NoToken(_) => Err(border_fault(border)),
            _ => Ok(None),
        };
    };
    if let Some(kind) = misplaced(is_open, &Left::new(tokens)) {
        return Err(Misread {
            at: first.at(),
            kind,
        });
    }
    answer(border, whole_item(tokens, alloc))
}
