//! The definitions of tables.

ghost use Rattle.std.specs.Prelude.{◌≡◌, [], None, IfOk, codes, is_some, length, vec_len};
ghost use Rattle.std.specs.Option.{option_map};
ghost use Rattle.spe_model.specs.Definition.{declaration_of, table_at, end_at, name_at, column_at, after, is_sign};
ghost use Rattle.spe_catalog.specs.Miss.{FindsDeclared};
ghost use Rattle.spe_catalog.specs.Columns.{NextAlias, PlacesAlias, all_columns};

use crate::column::column_at;
use crate::left::Left;
use crate::miss::Miss;
use crate::words::{after_sign, after_word, is_name};
use spe_lex::{Lexeme, lexemes};
use spe_model::{Column, Columns, Declaration};
use std::alloc::{AllocError, Global};

// The place of the column that is the rowid, once a column joins these; a second is Unknown. A place
// past 32 bits counts as want of memory.
fn next_alias(
    columns: &Vec<Column>,
    alias: Option<u32>,
    is_alias: bool,
) -> Result<Option<u32>, Miss>
    ensures { PlacesAlias columns.now.items alias is_alias result }
{
    match (is_alias, alias) {
        (false, _) => Ok(alias),
        (true, None) => match u32::try_from(columns.len()) {
            Ok(place) => Ok(Some(place)),
            Err(_) => Err(Miss::Memory),
        },
        (true, Some(_)) => Err(Miss::Unknown),
    }
}

// Whether the parenthesis stands here that ends the text.
fn is_end(tokens: &[Lexeme<'_>]) -> bool
    ensures { result ≡ is_some (end_at tokens.now) }
{
    match after_sign(b")", tokens) {
        Some(rest) => rest.is_empty(),
        None => false,
    }
}

// Takes a column from the front, and says whether it is the rowid.
fn take_column(alloc: Global, left: &mut Left<'_, '_>) -> Result<(Column, bool), Miss>
    ensures { FindsDeclared (λ x. ((x.0, x.1), left.new)) result (column_at left.old) }
{
    let (column, is_alias, rest) = column_at(alloc, left.tokens())?;
    left.set(rest);
    Ok((column, is_alias))
}

// Takes a comma from the front.
fn take_comma(left: &mut Left<'_, '_>) -> Result<(), Miss>
    ensures { FindsDeclared (λ _. left.new) result (after (is_sign (codes ",")) left.old) }
{
    let Some(rest) = after_sign(b",", left.tokens()) else {
        return Err(Miss::Unknown);
    };
    left.set(rest);
    Ok(())
}

// The columns up to the parenthesis that ends the text, with commas between them.
fn columns<'a, 'b>(alloc: Global, tokens: &'a [Lexeme<'b>]) -> Result<Declaration, Miss>
    ensures { FindsDeclared (λ x. x) result (all_columns [] None (length tokens.now) tokens.now) }
{
    let mut columns = Vec::new(alloc);
    let mut alias = None;
    let mut left = Left::new(tokens);
    let mut most = tokens.len();
    while most > 0 {
        most -= 1;
        let (next, is_alias) = take_column(alloc, &mut left)?;
        alias = next_alias(&columns, alias, is_alias)?;
        columns.push(next)?;
        if is_end(left.tokens()) {
            return Ok(Declaration {
                columns: Columns::new(columns),
                alias,
            });
        }
        take_comma(&mut left)?;
    }
    Err(Miss::Unknown)
}

// What follows a name at the front.
fn after_name<'a, 'b>(tokens: &'a [Lexeme<'b>]) -> Option<&'a [Lexeme<'b>]>
    ensures { option_map (λ rest. rest.now) result ≡ option_map (λ x. x.1) (name_at tokens.now) }
{
    match tokens {
        [first, rest @ ..] if is_name(first) => Some(rest),
        _ => None,
    }
}

// What the tokens of a definition declare.
#[tactic(auto, unfolding(spe_model::specs::Definition::table_at))]
fn table_at(alloc: Global, tokens: &[Lexeme<'_>]) -> Result<Declaration, Miss>
    ensures { FindsDeclared (λ x. x) result (table_at tokens.now) }
{
    let Some(rest) = after_word(b"CREATE", tokens) else {
        return Err(Miss::Unknown);
    };
    let Some(rest) = after_word(b"TABLE", rest) else {
        return Err(Miss::Unknown);
    };
    let Some(rest) = after_name(rest) else {
        return Err(Miss::Unknown);
    };
    let Some(inside) = after_sign(b"(", rest) else {
        return Err(Miss::Unknown);
    };
    columns(alloc, inside)
}

fn declared(alloc: Global, text: &str) -> Result<Declaration, Miss>
    ensures { FindsDeclared (λ x. x) result (declaration_of text.now) }
{
    let tokens = lexemes(alloc, text)?;
    table_at(alloc, tokens.as_slice())
}

/// What the text of a table's definition declares, or `None` where it is not understood.
///
/// The text is this project's part of CREATE TABLE: names with types, NOT NULL, NULL, and PRIMARY KEY
/// once, on a column whose type is the bare word INTEGER. The name in the text counts for nothing.
/// Time is linear in the text. A column past the 2^32nd that is the rowid counts as want of memory.
pub fn definition(alloc: Global, text: &str) -> Result<Option<Declaration>, AllocError>
    ensures { IfOk result (λ d. d ≡ declaration_of text.now) }
{
    match declared(alloc, text) {
        Ok(declaration) => Ok(Some(declaration)),
        Err(Miss::Unknown) => Ok(None),
        Err(Miss::Memory) => Err(AllocError),
    }
}
