//! Whole numbers and literals.

ghost use Rattle.std.specs.Prelude.{◌≡◌, ◌<◌, true, OnOk, length};
ghost use Rattle.std.specs.Str.Parse.{digits_value};
ghost use Rattle.spe_lex.specs.Lexed.{AreDigits};
ghost use Rattle.spe_parse.specs.Number.{fitting, signed_fitting, number_at, integer_at, literal_at};
ghost use Rattle.spe_parse.specs.Read.{IsPart};

use crate::halt::Halt;
use crate::left::Left;
use crate::word::{is_blob, is_number, is_sign, is_string, is_word};
use spe_model::{SqlFault, SqlKind, Value};
use std::alloc::Global;

// The number that digits write, where it fits.
fn magnitude(digits: &str) -> Option<u64>
    requires { AreDigits digits.now }
    ensures { result ≡ fitting (digits_value 10 digits.now) }
{
    match digits.parse::<u64>() {
        Ok(number) => Some(number),
        Err(_) => None,
    }
}

// The negative of a number, where it fits.
fn negated(number: u64) -> Option<i64>
    ensures { result ≡ signed_fitting true number }
{
    if number < 1 << 63 {
        Some(-(number as i64))
    } else if number == 1 << 63 {
        Some(i64::MIN)
    } else {
        None
    }
}

// A number or its negative, where it fits.
fn signed(negative: bool, number: u64) -> Option<i64>
    ensures { result ≡ signed_fitting negative number }
{
    if negative {
        return negated(number);
    }
    if number < 1 << 63 {
        Some(number as i64)
    } else {
        None
    }
}

// The number that a sign and digits write, where it fits.
fn signed_digits(negative: bool, digits: &str) -> Option<i64>
    requires { AreDigits digits.now }
    ensures { result ≡ signed_fitting negative (digits_value 10 digits.now) }
{
    match magnitude(digits) {
        Some(number) => signed(negative, number),
        None => None,
    }
}

// Reads digits whose sign, where they have one, is at this place.
#[tactic(auto, unfolding(crate::specs::Number::number_at))]
fn number(left: &mut Left<'_, '_>, at: u64, negative: bool) -> Result<i64, Halt>
    ensures number { IsPart (λ n. (n, left.new)) result (number_at at negative left.old) }
    ensures shorter { OnOk result (length left.new < length left.old) }
{
    let [first, ..] = left.tokens() else {
        return Err(Halt::Ends);
    };
    if !is_number(first) {
        return Err(left.halt());
    }
    let Some(number) = signed_digits(negative, first.digits()) else {
        return Err(Halt::Fault(SqlFault {
            at,
            kind: SqlKind::NumberRange,
        }));
    };
    left.pass();
    Ok(number)
}

/// Reads a whole number, which may have a sign.
#[tactic(auto, unfolding(crate::specs::Number::integer_at))]
pub fn integer(left: &mut Left<'_, '_>) -> Result<i64, Halt>
    ensures integer { IsPart (λ n. (n, left.new)) result (integer_at left.old) }
    ensures shorter { OnOk result (length left.new < length left.old) }
{
    let [first, ..] = left.tokens() else {
        return Err(Halt::Ends);
    };
    let at = first.at();
    if is_sign("-", first) {
        left.pass();
        return number(left, at, true);
    }
    if is_sign("+", first) {
        left.pass();
        return number(left, at, false);
    }
    number(left, at, false)
}

/// Reads NULL, a string, a blob or a whole number.
#[tactic(auto, unfolding(crate::specs::Number::literal_at))]
pub fn literal(left: &mut Left<'_, '_>, alloc: Global) -> Result<Value, Halt>
    ensures literal { IsPart (λ v. (v, left.new)) result (literal_at left.old) }
    ensures shorter { OnOk result (length left.new < length left.old) }
{
    let [first, ..] = left.tokens() else {
        return Err(Halt::Ends);
    };
    let value = if is_word("NULL", first) {
        Value::Null
    } else if is_string(first) {
        Value::Text(first.unquoted(alloc)?)
    } else if is_blob(first) {
        Value::Blob(first.blob(alloc)?)
    } else {
        return Ok(Value::Int(integer(left)?));
    };
    left.pass();
    Ok(value)
}
