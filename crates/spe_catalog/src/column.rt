//! The columns of a definition.

ghost use Rattle.std.specs.Prelude.{◌≡◌, ◌≤◌, codes, length};
ghost use Rattle.std.specs.List.{prefix_len};
ghost use Rattle.std.specs.Option.{option_map};
ghost use Rattle.spe_model.specs.Definition.{is_name, is_only, is_word, is_rowid_type, name_at, type_at, column_at};
ghost use Rattle.spe_catalog.specs.Miss.{FindsDeclared};

use crate::affinity::affinity_of;
use crate::constraint::said_at;
use crate::lengths::lengths_at;
use crate::miss::Miss;
use crate::words::{is_name, is_word};
use spe_lex::Lexeme;
use spe_model::{Column, Text};
use std::alloc::Global;

// A name at the front, and what follows it.
pub fn name_at<'a, 'b>(
    alloc: Global,
    tokens: &'a [Lexeme<'b>],
) -> Result<(Text, &'a [Lexeme<'b>]), Miss>
    ensures { FindsDeclared (λ x. (x.0, x.1.now)) result (name_at tokens.now) }
{
    let [first, rest @ ..] = tokens else {
        return Err(Miss::Unknown);
    };
    if !is_name(first) {
        return Err(Miss::Unknown);
    }
    Ok((first.unquoted(alloc)?, rest))
}

// How many names stand at the front.
fn names(tokens: &[Lexeme<'_>]) -> usize
    ensures value { result ≡ prefix_len is_name tokens.now }
    ensures within { result ≤ length tokens.now }
{
    let mut count = 0;
    let mut left = tokens;
    while let [first, rest @ ..] = left {
        if !is_name(first) {
            return count;
        }
        count += 1;
        left = rest;
    }
    count
}

// The words of a type at the front, whether lengths follow them, and what follows these.
#[tactic(auto, unfolding(spe_model::specs::Definition::type_at))]
fn type_at<'a, 'b>(tokens: &'a [Lexeme<'b>]) -> Option<(&'a [Lexeme<'b>], bool, &'a [Lexeme<'b>])>
    ensures { option_map (λ x. (record { words = x.0.now; has_lengths = x.1 }, x.2.now)) result ≡ type_at tokens.now }
{
    let count = names(tokens);
    let (words, rest) = tokens.split_at(count);
    if count == 0 {
        return Some((words, false, tokens));
    }
    let (has_lengths, rest) = lengths_at(rest)?;
    Some((words, has_lengths, rest))
}

// Whether a type is the one word INTEGER, without quotes and lengths.
fn is_rowid_type(words: &[Lexeme<'_>], has_lengths: bool) -> bool
    ensures { result ≡ is_rowid_type (record { words = words.now; has_lengths = has_lengths }) }
{
    match words {
        [word] => is_word(b"INTEGER", word) && !has_lengths,
        _ => false,
    }
}

/// A column at the front, whether it is the rowid, and what follows it.
#[tactic(auto, unfolding(spe_model::specs::Definition::column_at))]
pub fn column_at<'a, 'b>(
    alloc: Global,
    tokens: &'a [Lexeme<'b>],
) -> Result<(Column, bool, &'a [Lexeme<'b>]), Miss>
    ensures { FindsDeclared (λ x. ((x.0, x.1), x.2.now)) result (column_at tokens.now) }
{
    let (name, rest) = name_at(alloc, tokens)?;
    let Some((words, has_lengths, rest)) = type_at(rest) else {
        return Err(Miss::Unknown);
    };
    let Some((said, rest)) = said_at(rest) else {
        return Err(Miss::Unknown);
    };
    if said.is_key && !is_rowid_type(words, has_lengths) {
        return Err(Miss::Unknown);
    }
    let column = Column {
        name,
        affinity: affinity_of(alloc, words)?,
        not_null: said.not_null,
    };
    Ok((column, said.is_key, rest))
}
