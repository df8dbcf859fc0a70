//! The statement that a text is.

ghost use Rattle.std.specs.Prelude.{◌≡◌};
ghost use Rattle.spe_parse.specs.Grammar.{past_semicolon, sole_at, end_fault, statement_of};
ghost use Rattle.spe_lex.specs.Reading.{IsReading};
ghost use Rattle.spe_parse.specs.Read.{IsPart};
ghost use Rattle.spe_parse.specs.Answer.{IsAnswerTo};

use crate::halt::Halt;
use crate::left::Left;
use crate::statement::read_statement;
use spe_lex::read_front;
use spe_model::{SqlFault, SqlKind, Statement};
use std::alloc::Global;

// Passes a `;`, where it stands at the front.
fn pass_semicolon(left: &mut Left<'_, '_>)
    ensures { left.new ≡ past_semicolon left.old }
{
    if left.stands_sign(";") {
        left.pass();
    }
}

// Reads one statement, with nothing behind it but a `;`.
#[tactic(auto, unfolding(crate::specs::Grammar::sole_at))]
fn sole(left: &mut Left<'_, '_>, alloc: Global) -> Result<Statement, Halt>
    ensures { IsPart (λ s. s) result (sole_at left.old) }
{
    let statement = read_statement(left, alloc)?;
    pass_semicolon(left);
    match left.tokens() {
        [] => Ok(statement),
        _ => Err(left.halt()),
    }
}

// The fault where the tokens of a text end, which has so many bytes.
fn end_fault(size: u64, unread: Option<u64>) -> SqlFault
    ensures { result ≡ end_fault size unread }
{
    match unread {
        Some(at) => SqlFault {
            at,
            kind: SqlKind::Token,
        },
        None => SqlFault {
            at: size,
            kind: SqlKind::Expected,
        },
    }
}

// What is answered of what is found in such a text.
fn answer(
    size: u64,
    unread: Option<u64>,
    found: Result<Statement, Halt>,
) -> Result<Statement, SqlFault>
    ensures { IsAnswerTo size unread found result }
{
    match found {
        Ok(statement) => match unread {
            None => Ok(statement),
            Some(_) => Err(end_fault(size, unread)),
        },
        Err(Halt::Fault(fault)) => Err(fault),
        Err(Halt::Ends) => Err(end_fault(size, unread)),
        Err(Halt::Memory) => Err(SqlFault {
            at: 0,
            kind: SqlKind::Memory,
        }),
    }
}

/// The statement that a text is, which a `;` may end.
///
/// The fault is the first one by its place, in bytes from 0: `Token` where no token stands,
/// `NumberRange` at a whole number, its sign included, that does not fit 64 bits, and `Unsupported`
/// or `Expected` at a token for which the grammar has no room, or where the text ends too early. The
/// grammar is this project's own, and `docs/STATEMENTS.md` has it. `Memory` stands at 0 and is tied
/// to nothing.
pub fn parse(alloc: Global, text: &str) -> Result<Statement, SqlFault>
    ensures { IsReading (λ s. s) result (statement_of text.now) }
{
    let front = read_front(alloc, text)?;
    let mut left = Left::new(front.lexemes.as_slice());
    let found = sole(&mut left, alloc);
    answer(text.len() as u64, front.fault, found)
}
