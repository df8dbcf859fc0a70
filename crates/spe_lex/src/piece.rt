//! What stands at the front of a text.

ghost use Rattle.std.specs.Prelude.{◌≡◌, ◌≤◌, ◌<◌, ◌^◌, ◌∷◌, IfSome, length};
ghost use Rattle.std.specs.Char.{is_ascii_digit, is_ascii_hexdigit};
ghost use Rattle.std.specs.List.{prefix_len};
ghost use Rattle.spe_model.specs.Token.{begins_with, begins_word, continues_word, continues_fraction, begins_fraction, is_not_line_feed, is_sign, is_quote, through_comment, before_quote, before_bracket, before_blob_end, quoted_name, blob, number, sign, quotation, piece_of};
ghost use Rattle.spe_lex.specs.Piece.{piece_at};

use spe_model::TokenKind;

/// What stands in a text: a token of a kind, or none where blanks or a comment stand; and how many
/// bytes it has.
pub type Piece = (Option<TokenKind>, usize);

pub fn begins_with(bytes: &[u8], byte: u8) -> bool
    ensures { result ≡ begins_with byte bytes.now }
{
    matches!(bytes, [first, ..] if *first == byte)
}

fn begins_word(byte: u8) -> bool
    ensures { result ≡ begins_word byte }
{
    byte.is_ascii_alphabetic() || byte == b'_' || byte >= 128
}

fn continues_word(byte: u8) -> bool
    ensures { result ≡ continues_word byte }
{
    begins_word(byte) || byte.is_ascii_digit() || byte == b'$'
}

fn continues_fraction(byte: u8) -> bool
    ensures { result ≡ continues_fraction byte }
{
    begins_word(byte) || byte.is_ascii_digit() || byte == b'.'
}

fn begins_fraction(bytes: &[u8]) -> bool
    ensures { result ≡ begins_fraction bytes.now }
{
    matches!(bytes, [b'.' | b'e' | b'E', ..])
}

fn is_sign(byte: u8) -> bool
    ensures { result ≡ is_sign byte }
{
    matches!(
        byte,
        b';' | b',' | b'(' | b')' | b'*' | b'=' | b'<' | b'>' | b'-' | b'+'
    )
}

fn is_quote(byte: u8) -> bool
    ensures { result ≡ is_quote byte }
{
    matches!(byte, b'\'' | b'[' | b'"' | b'`')
}

fn word_length(bytes: &[u8]) -> usize
    ensures value { result ≡ prefix_len continues_word bytes.now }
    ensures within { result ≤ length bytes.now }
{
    bytes
        .iter()
        .take_while(|byte| continues_word(**byte))
        .count()
}

fn digits(bytes: &[u8]) -> usize
    ensures value { result ≡ prefix_len is_ascii_digit bytes.now }
    ensures within { result ≤ length bytes.now }
{
    bytes
        .iter()
        .take_while(|byte| byte.is_ascii_digit())
        .count()
}

fn fraction_length(bytes: &[u8]) -> usize
    ensures value { result ≡ prefix_len continues_fraction bytes.now }
    ensures within { result ≤ length bytes.now }
{
    bytes
        .iter()
        .take_while(|byte| continues_fraction(**byte))
        .count()
}

fn hex_digits(bytes: &[u8]) -> usize
    ensures value { result ≡ prefix_len is_ascii_hexdigit bytes.now }
    ensures within { result ≤ length bytes.now }
{
    bytes
        .iter()
        .take_while(|byte| byte.is_ascii_hexdigit())
        .count()
}

fn line_length(bytes: &[u8]) -> usize
    ensures value { result ≡ prefix_len is_not_line_feed bytes.now }
    ensures within { result ≤ length bytes.now }
{
    bytes.iter().take_while(|byte| **byte != b'\n').count()
}

// How long some text is up to the first `*/`, with that, or up to its end.
fn through_comment(bytes: &[u8]) -> usize
    ensures value { result ≡ through_comment bytes.now }
    ensures within { result ≤ length bytes.now }
{
    let mut count = 0;
    let mut left = bytes;
    while let [first, rest @ ..] = left {
        if *first == b'*' && begins_with(rest, b'/') {
            return count + 2;
        }
        count += 1;
        left = rest;
    }
    count
}

// How many bytes stand before the quote that closes a text.
fn before_quote(quote: u8, bytes: &[u8]) -> Option<usize>
    ensures value { result ≡ before_quote quote bytes.now }
    ensures within { IfSome result (λ n. n < length bytes.now) }
{
    let mut count = 0;
    let mut left = bytes;
    while let [first, rest @ ..] = left {
        if *first != quote {
            count += 1;
            left = rest;
            continue;
        }
        let [second, after @ ..] = rest else {
            return Some(count);
        };
        if *second != quote {
            return Some(count);
        }
        count += 2;
        left = after;
    }
    None
}

// How many bytes stand before the bracket that closes a name.
fn before_bracket(bytes: &[u8]) -> Option<usize>
    ensures value { result ≡ before_bracket bytes.now }
    ensures within { IfSome result (λ n. n < length bytes.now) }
{
    let mut count = 0;
    let mut left = bytes;
    while let [first, rest @ ..] = left {
        if *first == b']' {
            return Some(count);
        }
        count += 1;
        left = rest;
    }
    None
}

// How many hexadecimal digits stand before the quote that closes a blob, where they are pairs and
// nothing else stands there.
#[tactic(auto, unfolding(spe_model::specs::Token::before_blob_end))]
fn before_blob_end(bytes: &[u8]) -> Option<usize>
    ensures value { result ≡ before_blob_end bytes.now }
    ensures within { IfSome result (λ n. n < length bytes.now) }
{
    let digits = hex_digits(bytes);
    let (_, rest) = bytes.split_at(digits);
    if digits % 2 == 0 && begins_with(rest, b'\'') {
        Some(digits)
    } else {
        None
    }
}

// The digits that the text begins with, with what makes a fraction of them.
#[tactic(auto, unfolding(spe_model::specs::Token::number))]
fn number(bytes: &[u8]) -> Option<Piece>
    ensures { result ≡ number bytes.now }
{
    let digits = digits(bytes);
    let (_, rest) = bytes.split_at(digits);
    if begins_fraction(rest) {
        Some((Some(TokenKind::Fraction), fraction_length(bytes)))
    } else {
        Some((Some(TokenKind::Number), digits))
    }
}

// A comparison with `=` in it, or one sign.
#[tactic(auto, unfolding(spe_model::specs::Token::sign))]
fn sign(first: u8, rest: &[u8]) -> Option<Piece>
    ensures { result ≡ sign first rest.now }
{
    if (first == b'<' || first == b'>') && begins_with(rest, b'=') {
        return Some((Some(TokenKind::Sign), 2));
    }
    if is_sign(first) {
        Some((Some(TokenKind::Sign), 1))
    } else {
        None
    }
}

// A name in quotes or brackets, which is not empty.
fn quoted_name(within: Option<usize>) -> Option<Piece>
    requires { IfSome within (λ n. n < 2 ^ 63) }
    ensures { result ≡ quoted_name within }
{
    match within {
        None | Some(0) => None,
        Some(count) => Some((Some(TokenKind::QuotedName), count + 2)),
    }
}

// A string, or a name in quotes or brackets.
#[tactic(auto, unfolding(spe_model::specs::Token::quotation))]
fn quotation(first: u8, rest: &[u8]) -> Option<Piece>
    ensures { result ≡ quotation first rest.now }
{
    match first {
        b'\'' => match before_quote(first, rest) {
            Some(count) => Some((Some(TokenKind::Str), count + 2)),
            None => None,
        },
        b'[' => quoted_name(before_bracket(rest)),
        _ => quoted_name(before_quote(first, rest)),
    }
}

// A blob whose `x` and quote stand before some text.
fn blob(bytes: &[u8]) -> Option<Piece>
    ensures { result ≡ blob (before_blob_end bytes.now) }
{
    match before_blob_end(bytes) {
        Some(count) => Some((Some(TokenKind::Blob), count + 3)),
        None => None,
    }
}

// The longest piece at the front of a text, which begins with `first` and goes on with `rest`.
#[tactic(auto, unfolding(spe_model::specs::Token::piece_of))]
fn piece_from(first: u8, rest: &[u8], text: &[u8]) -> Option<Piece>
    requires { text.now ≡ first ∷ rest.now }
    ensures { result ≡ piece_of first rest.now }
{
    if first.is_ascii_whitespace() {
        Some((None, 1))
    } else if first == b'-' && begins_with(rest, b'-') {
        Some((None, 1 + line_length(rest)))
    } else if first == b'/' && begins_with(rest, b'*') {
        Some((None, 2 + through_comment(&rest[1..])))
    } else if matches!(first, b'x' | b'X') && begins_with(rest, b'\'') {
        blob(&rest[1..])
    } else if begins_word(first) {
        Some((Some(TokenKind::Word), 1 + word_length(rest)))
    } else if first.is_ascii_digit() {
        number(text)
    } else if is_quote(first) {
        quotation(first, rest)
    } else {
        sign(first, rest)
    }
}

/// The longest piece at the front of a text, or `None` where none stands there.
pub fn piece(text: &[u8]) -> Option<Piece>
    ensures { result ≡ piece_at text.now }
{
    let [first, rest @ ..] = text else {
        return None;
    };
    piece_from(*first, rest, text)
}
