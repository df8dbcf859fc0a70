//! The affinity of a column.

ghost use Rattle.std.specs.Prelude.{◌≡◌, ◌∷◌, ◌++◌, IfOk, OnOk};
ghost use Rattle.spe_model.specs.Definition.{has_part, type_text, affinity_in, affinity_of};
ghost use Rattle.spe_catalog.specs.Text.{capitals, behind_blanks};

use spe_lex::Lexeme;
use spe_model::Affinity;
use std::alloc::{AllocError, Global};

// Whether a text has another in it.
fn has_part(part: &[u8], text: &[u8]) -> bool
    ensures { result ≡ has_part part.now text.now }
{
    let mut left = text;
    while let [_, rest @ ..] = left {
        if left.starts_with(part) {
            return true;
        }
        left = rest;
    }
    left.starts_with(part)
}

// Adds what a word means, in capitals.
fn push_capitals(alloc: Global, word: &Lexeme<'_>, text: &mut Vec<u8>) -> Result<(), AllocError>
    ensures { OnOk result (text.new.items ≡ text.old.items ++ capitals word.now) }
{
    let meant = word.unquoted(alloc)?;
    let mut left = meant.as_slice();
    while let [byte, rest @ ..] = left {
        text.push(byte.to_ascii_uppercase())?;
        left = rest;
    }
    Ok(())
}

// Adds a blank and what each word means, in capitals.
fn push_words(alloc: Global, words: &[Lexeme<'_>], text: &mut Vec<u8>) -> Result<(), AllocError>
    ensures { OnOk result (text.new.items ≡ text.old.items ++ behind_blanks words.now) }
{
    let mut left = words;
    while let [word, rest @ ..] = left {
        text.push(b' ')?;
        push_capitals(alloc, word, text)?;
        left = rest;
    }
    Ok(())
}

// The words of a type in capitals, a blank between each two.
fn type_text(
    alloc: Global,
    first: &Lexeme<'_>,
    others: &[Lexeme<'_>],
) -> Result<Vec<u8>, AllocError>
    ensures { IfOk result (λ v. v.items ≡ type_text (first.now ∷ others.now)) }
{
    let mut text = Vec::new(alloc);
    push_capitals(alloc, first, &mut text)?;
    push_words(alloc, others, &mut text)?;
    Ok(text)
}

#[tactic(auto, unfolding(spe_model::specs::Definition::affinity_in))]
fn affinity_in(text: &[u8]) -> Affinity
    ensures { result ≡ affinity_in text.now }
{
    if has_part(b"INT", text) {
        Affinity::Integer
    } else if has_part(b"CHAR", text) || has_part(b"CLOB", text) || has_part(b"TEXT", text) {
        Affinity::Text
    } else if has_part(b"BLOB", text) {
        Affinity::Blob
    } else if has_part(b"REAL", text) || has_part(b"FLOA", text) || has_part(b"DOUB", text) {
        Affinity::Real
    } else {
        Affinity::Numeric
    }
}

fn affinity_from(
    alloc: Global,
    first: &Lexeme<'_>,
    others: &[Lexeme<'_>],
) -> Result<Affinity, AllocError>
    ensures { IfOk result (λ a. a ≡ affinity_of (first.now ∷ others.now)) }
{
    let text = type_text(alloc, first, others)?;
    Ok(affinity_in(text.as_slice()))
}

/// The affinity of a column whose type has these words ("Determination Of Column Affinity" in
/// SQLite's documents).
pub fn affinity_of(alloc: Global, words: &[Lexeme<'_>]) -> Result<Affinity, AllocError>
    ensures { IfOk result (λ a. a ≡ affinity_of words.now) }
{
    match words {
        [first, others @ ..] => affinity_from(alloc, first, others),
        [] => Ok(Affinity::Blob),
    }
}
