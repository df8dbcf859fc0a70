//! The constraints of a column.

ghost use Rattle.std.specs.Prelude.{◌≡◌, ◌<◌, IfSome, length, true};
ghost use Rattle.std.specs.Option.{option_map};
ghost use Rattle.spe_model.specs.Definition.{mark_of};
ghost use Rattle.spe_catalog.specs.Constraint.{mark_seen, said_seen, is_mark, begins_mark, after_mark, StartsSaid, joined, said_at};

use crate::left::Left;
use crate::words::is_word;
use spe_lex::Lexeme;

/// The words that constraints are made of.
#[derive(Clone, Copy, Debug, PartialEq, Eq)]
pub enum Mark {
    Not,
    Null,
    Primary,
    Key,
    Asc,
}

/// What the constraints of a column say of it.
#[derive(Clone, Copy, Debug)]
pub struct Said {
    pub not_null: bool,
    /// Whether the column is the primary key.
    pub is_key: bool,
}

#[tactic(auto, unfolding(spe_model::specs::Definition::mark_of))]
fn mark_of(token: &Lexeme<'_>) -> Option<Mark>
    ensures { option_map mark_seen result ≡ mark_of token.now }
{
    if is_word(b"NOT", token) {
        Some(Mark::Not)
    } else if is_word(b"NULL", token) {
        Some(Mark::Null)
    } else if is_word(b"PRIMARY", token) {
        Some(Mark::Primary)
    } else if is_word(b"KEY", token) {
        Some(Mark::Key)
    } else if is_word(b"ASC", token) {
        Some(Mark::Asc)
    } else {
        None
    }
}

// Whether a word that constraints are made of stands at the front.
fn begins_mark(tokens: &[Lexeme<'_>]) -> bool
    ensures { result ≡ begins_mark tokens.now }
{
    match tokens {
        [first, ..] => mark_of(first).is_some(),
        [] => false,
    }
}

fn is_mark(mark: Mark, token: &Lexeme<'_>) -> bool
    ensures { result ≡ is_mark (mark_seen mark) (mark_of token.now) }
{
    mark_of(token) == Some(mark)
}

// What follows this mark at the front.
fn after_mark<'a, 'b>(mark: Mark, tokens: &'a [Lexeme<'b>]) -> Option<&'a [Lexeme<'b>]>
    ensures value { option_map (λ rest. rest.now) result ≡ after_mark (mark_seen mark) tokens.now }
    ensures shorter { IfSome result (λ rest. length rest.now < length tokens.now) }
{
    match tokens {
        [first, rest @ ..] if is_mark(mark, first) => Some(rest),
        _ => None,
    }
}

// One constraint at the front, and what follows it.
fn constraint_at<'a, 'b>(tokens: &'a [Lexeme<'b>]) -> Option<(Said, &'a [Lexeme<'b>])>
    requires { begins_mark tokens.now ≡ true }
    ensures { StartsSaid tokens.now (option_map (λ x. (said_seen x.0, x.1.now)) result) }
{
    if let Some(rest) = after_mark(Mark::Null, tokens) {
        return Some((make_said(false, false), rest));
    }
    if let Some(rest) = after_mark(Mark::Not, tokens) {
        return Some((make_said(true, false), after_mark(Mark::Null, rest)?));
    }
    let rest = after_mark(Mark::Primary, tokens)?;
    let rest = after_mark(Mark::Key, rest)?;
    match after_mark(Mark::Asc, rest) {
        Some(rest) => Some((make_said(false, true), rest)),
        None => Some((make_said(false, true), rest)),
    }
}

fn make_said(not_null: bool, is_key: bool) -> Said
    ensures { result ≡ record { not_null = not_null; is_key = is_key } }
{
    Said { not_null, is_key }
}

// What two constraints say, of which at most one makes the column the primary key.
fn joined(first: Said, second: Said) -> Option<Said>
    ensures { option_map said_seen result ≡ joined (said_seen first) (said_seen second) }
{
    if first.is_key && second.is_key {
        return None;
    }
    Some(make_said(
        first.not_null || second.not_null,
        first.is_key || second.is_key,
    ))
}

// Takes one constraint from the front.
fn take_constraint(left: &mut Left<'_, '_>) -> Option<Said>
    requires { begins_mark left.old ≡ true }
    ensures { StartsSaid left.old (option_map (λ said. (said_seen said, left.new)) result) }
{
    let (next, rest) = constraint_at(left.tokens())?;
    left.set(rest);
    Some(next)
}

/// What the constraints at the front say, and what follows them. `None` where a word that constraints
/// are made of is out of place, or PRIMARY KEY stands twice.
pub fn said_at<'a, 'b>(tokens: &'a [Lexeme<'b>]) -> Option<(Said, &'a [Lexeme<'b>])>
    ensures { option_map (λ x. (said_seen x.0, x.1.now)) result ≡ said_at tokens.now }
{
    let mut all = make_said(false, false);
    let mut left = Left::new(tokens);
    while begins_mark(left.tokens()) {
        let next = take_constraint(&mut left)?;
        all = joined(all, next)?;
    }
    Some((all, left.tokens()))
}
