//! The lengths of a declared type.

ghost use Rattle.std.specs.Prelude.{◌≡◌, codes};
ghost use Rattle.std.specs.Option.{option_map};
ghost use Rattle.spe_model.specs.Definition.{after_integer, after_lengths, lengths_at};

use crate::words::{after_number, after_sign, is_number, is_sign};
use spe_lex::Lexeme;

// What follows a whole number, which may have a sign.
fn after_integer<'a, 'b>(tokens: &'a [Lexeme<'b>]) -> Option<&'a [Lexeme<'b>]>
    ensures { option_map (λ rest. rest.now) result ≡ after_integer tokens.now }
{
    let [first, rest @ ..] = tokens else {
        return None;
    };
    if is_number(first) {
        return Some(rest);
    }
    if is_sign(b"-", first) || is_sign(b"+", first) {
        after_number(rest)
    } else {
        None
    }
}

// What follows one or two lengths in parentheses.
#[tactic(auto, unfolding(spe_model::specs::Definition::after_lengths))]
fn after_lengths<'a, 'b>(tokens: &'a [Lexeme<'b>]) -> Option<&'a [Lexeme<'b>]>
    ensures { option_map (λ rest. rest.now) result ≡ after_lengths tokens.now }
{
    let inside = after_sign(b"(", tokens)?;
    let rest = after_integer(inside)?;
    if let Some(rest) = after_sign(b")", rest) {
        return Some(rest);
    }
    let second = after_sign(b",", rest)?;
    let rest = after_integer(second)?;
    after_sign(b")", rest)
}

// Whether lengths stand at the front, and what follows them.
pub fn lengths_at<'a, 'b>(tokens: &'a [Lexeme<'b>]) -> Option<(bool, &'a [Lexeme<'b>])>
    ensures { option_map (λ x. (x.0, x.1.now)) result ≡ lengths_at tokens.now }
{
    if after_sign(b"(", tokens).is_some() {
        Some((true, after_lengths(tokens)?))
    } else {
        Some((false, tokens))
    }
}
