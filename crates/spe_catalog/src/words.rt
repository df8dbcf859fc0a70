//! Single tokens of definitions.

ghost use Rattle.std.specs.Prelude.{◌≡◌, ◌<◌, ◌≤◌, IfSome, length};
ghost use Rattle.std.specs.Option.{option_map};
ghost use Rattle.spe_model.specs.Agree.{agree};
ghost use Rattle.spe_model.specs.Definition.{is_word, is_sign, is_number, is_reserved, is_name, after};

use spe_lex::{Lexeme, TokenKind};

/// Whether two names agree without regard to ASCII case.
pub fn agree(a: &[u8], b: &[u8]) -> bool
    ensures { result ≡ agree a.now b.now }
{
    a.eq_ignore_ascii_case(b)
}

// Whether a token is this word without quotes, in any case.
#[tactic(auto, unfolding(spe_model::specs::Definition::is_word))]
pub fn is_word(word: &[u8], token: &Lexeme<'_>) -> bool
    ensures { result ≡ is_word word.now token.now }
{
    matches!(token.kind(), TokenKind::Word) && agree(token.text().as_bytes(), word)
}

#[tactic(auto, unfolding(spe_model::specs::Definition::is_sign))]
pub fn is_sign(sign: &[u8], token: &Lexeme<'_>) -> bool
    ensures { result ≡ is_sign sign.now token.now }
{
    matches!(token.kind(), TokenKind::Sign) && token.text().as_bytes() == sign
}

pub fn is_number(token: &Lexeme<'_>) -> bool
    ensures { result ≡ is_number token.now }
{
    matches!(token.kind(), TokenKind::Number)
}

// Whether a word is a name only in quotes.
#[tactic(auto, unfolding(spe_model::specs::Definition::is_reserved))]
fn is_reserved(word: &[u8]) -> bool
    ensures { result ≡ is_reserved word.now }
{
    agree(word, b"AS")
        || agree(word, b"ASC")
        || agree(word, b"CHECK")
        || agree(word, b"COLLATE")
        || agree(word, b"CONSTRAINT")
        || agree(word, b"DEFAULT")
        || agree(word, b"FOREIGN")
        || agree(word, b"GENERATED")
        || agree(word, b"KEY")
        || agree(word, b"NOT")
        || agree(word, b"NULL")
        || agree(word, b"PRIMARY")
        || agree(word, b"REFERENCES")
        || agree(word, b"UNIQUE")
}

// Whether a token is a name: one in quotes, a string, or a word that is not reserved.
#[tactic(auto, unfolding(spe_model::specs::Definition::is_name))]
pub fn is_name(token: &Lexeme<'_>) -> bool
    ensures { result ≡ is_name token.now }
{
    match token.kind() {
        TokenKind::QuotedName | TokenKind::Str => true,
        TokenKind::Word => !is_reserved(token.text().as_bytes()),
        _ => false,
    }
}

// What follows this word at the front.
pub fn after_word<'a, 'b>(word: &[u8], tokens: &'a [Lexeme<'b>]) -> Option<&'a [Lexeme<'b>]>
    ensures value { option_map (λ rest. rest.now) result ≡ after (is_word word.now) tokens.now }
    ensures shorter { IfSome result (λ rest. length rest.now < length tokens.now) }
{
    match tokens {
        [first, rest @ ..] if is_word(word, first) => Some(rest),
        _ => None,
    }
}

// What follows this sign at the front.
pub fn after_sign<'a, 'b>(sign: &[u8], tokens: &'a [Lexeme<'b>]) -> Option<&'a [Lexeme<'b>]>
    ensures value { option_map (λ rest. rest.now) result ≡ after (is_sign sign.now) tokens.now }
    ensures shorter { IfSome result (λ rest. length rest.now < length tokens.now) }
{
    match tokens {
        [first, rest @ ..] if is_sign(sign, first) => Some(rest),
        _ => None,
    }
}

// What follows digits at the front.
pub fn after_number<'a, 'b>(tokens: &'a [Lexeme<'b>]) -> Option<&'a [Lexeme<'b>]>
    ensures value { option_map (λ rest. rest.now) result ≡ after is_number tokens.now }
{
    match tokens {
        [first, rest @ ..] if is_number(first) => Some(rest),
        _ => None,
    }
}
