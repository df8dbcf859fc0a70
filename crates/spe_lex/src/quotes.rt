//! What the text of a token means.

ghost use Rattle.std.specs.Prelude.{◌≡◌, ◌&&◌, ◌==◌, IfOk, IsUtf8, drop, if◌then◌else◌};
ghost use Rattle.spe_model.specs.Token.{begins_with, inner, undoubled, unquoted, blob_bytes};
ghost use Rattle.spe_lex.specs.Lexed.{AreHexPairs};

use crate::piece::begins_with;
use hex::FromHexError;
use spe_model::{Bytes, Text};
use std::alloc::{AllocError, Global};

// A text without its first and its last byte.
pub fn inner(bytes: &[u8]) -> &[u8]
    ensures { result.now ≡ inner bytes.now }
{
    match bytes {
        [_, within @ .., _] => within,
        _ => &[],
    }
}

// What follows a byte, where a quote that doubles it is passed.
fn behind(quote: u8, first: u8, rest: &[u8]) -> &[u8]
    ensures { result.now ≡ (if (first == quote) && begins_with quote rest.now then drop 1 rest.now else rest.now) }
{
    if first == quote && begins_with(rest, quote) {
        &rest[1..]
    } else {
        rest
    }
}

// Some bytes with one quote for each doubled one.
pub fn undoubled(alloc: Global, quote: u8, bytes: &[u8]) -> Result<Vec<u8>, AllocError>
    ensures { IfOk result (λ v. v.items ≡ undoubled quote bytes.now) }
{
    let mut found = Vec::new(alloc);
    let mut left = bytes;
    while let [first, rest @ ..] = left {
        found.push(*first)?;
        left = behind(quote, *first, rest);
    }
    Ok(found)
}

// What the text of a token means, once its quotes are undone.
#[tactic(auto, unfolding(spe_model::specs::Token::unquoted))]
fn meant(alloc: Global, text: &[u8]) -> Result<Vec<u8>, AllocError>
    ensures { IfOk result (λ v. v.items ≡ unquoted text.now) }
{
    match text {
        [b'[', ..] => Vec::from_slice(alloc, inner(text)),
        [quote @ (b'\'' | b'"' | b'`'), ..] => undoubled(alloc, *quote, inner(text)),
        _ => Vec::from_slice(alloc, text),
    }
}

/// What the text of a token means as a name or a string.
pub fn unquoted_text(alloc: Global, text: &str) -> Result<Text, AllocError>
    requires { IsUtf8 (unquoted text.now) }
    ensures { IfOk result (λ t. t ≡ unquoted text.now) }
{
    let bytes = meant(alloc, text.as_bytes())?;
    let Ok(string) = String::from_utf8(bytes) else {
        unreachable!();
    };
    Ok(Text::new(string))
}

/// What the text of a token means as a blob.
#[tactic(auto, unfolding(spe_model::specs::Token::blob_bytes))]
pub fn hex_bytes(alloc: Global, text: &[u8]) -> Result<Bytes, AllocError>
    requires { AreHexPairs (inner (drop 1 text.now)) }
    ensures { IfOk result (λ b. b ≡ blob_bytes text.now) }
{
    let [_, quoted @ ..] = text else {
        return Ok(Bytes::new(Vec::new(alloc)));
    };
    match hex::decode(alloc, inner(quoted)) {
        Ok(bytes) => Ok(Bytes::new(bytes)),
        Err(fault) => match fault {
            FromHexError::OutOfMemory => Err(AllocError),
            _ => unreachable!(),
        },
    }
}
