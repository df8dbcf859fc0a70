//! Single tokens of statements.

ghost use Rattle.std.specs.Prelude.{◌≡◌};
ghost use Rattle.std.specs.Bool.{OnTrue};
ghost use Rattle.spe_model.specs.declared.token.TokenKind.TheVariants.{Blob, Number};
ghost use Rattle.spe_model.specs.Agree.{agree};
ghost use Rattle.spe_model.specs.Definition.{is_word, is_sign, is_number};
ghost use Rattle.spe_parse.specs.Word.{is_string, is_blob, is_among, is_left_out_word, is_left_out, is_name, grammar_words, statement_words, query_words, join_words, expression_words, clause_words};
ghost use Rattle.spe_parse.specs.Part.{kind_of};

use spe_lex::Lexeme;
use spe_model::{SqlKind, TokenKind};

fn agree(a: &str, b: &str) -> bool
    ensures { result ≡ agree a.now b.now }
{
    a.eq_ignore_ascii_case(b)
}

// Whether a token is this word without quotes, in any case.
#[tactic(auto, unfolding(spe_model::specs::Definition::is_word))]
pub fn is_word(word: &str, token: &Lexeme<'_>) -> bool
    ensures { result ≡ is_word word.now token.now }
{
    matches!(token.kind(), TokenKind::Word) && agree(token.text(), word)
}

/// Whether a token is this sign.
#[tactic(auto, unfolding(spe_model::specs::Definition::is_sign))]
pub fn is_sign(sign: &str, token: &Lexeme<'_>) -> bool
    ensures { result ≡ is_sign sign.now token.now }
{
    matches!(token.kind(), TokenKind::Sign) && token.text() == sign
}

pub fn is_number(token: &Lexeme<'_>) -> bool
    ensures test { result ≡ is_number token.now }
    ensures kind { OnTrue result (token.now.kind ≡ Number) }
{
    matches!(token.kind(), TokenKind::Number)
}

pub fn is_string(token: &Lexeme<'_>) -> bool
    ensures { result ≡ is_string token.now.kind }
{
    matches!(token.kind(), TokenKind::Str)
}

pub fn is_blob(token: &Lexeme<'_>) -> bool
    ensures test { result ≡ is_blob token.now.kind }
    ensures kind { OnTrue result (token.now.kind ≡ Blob) }
{
    matches!(token.kind(), TokenKind::Blob)
}

// Whether a word is one of those that statements and scripts are made of.
#[tactic(auto, unfolding(crate::specs::Word::is_among))]
fn is_of_grammar(text: &str) -> bool
    ensures { result ≡ is_among grammar_words text.now }
{
    agree(text, "AND")
        || agree(text, "BEGIN")
        || agree(text, "BETWEEN")
        || agree(text, "COMMIT")
        || agree(text, "DELETE")
        || agree(text, "END")
        || agree(text, "FROM")
        || agree(text, "INSERT")
        || agree(text, "INTO")
        || agree(text, "NULL")
        || agree(text, "ROLLBACK")
        || agree(text, "SELECT")
        || agree(text, "SET")
        || agree(text, "UPDATE")
        || agree(text, "VALUES")
        || agree(text, "WHERE")
}

// Whether a word begins a statement that is left out.
#[tactic(auto, unfolding(crate::specs::Word::is_among))]
fn begins_other(text: &str) -> bool
    ensures { result ≡ is_among statement_words text.now }
{
    agree(text, "ALTER")
        || agree(text, "ANALYZE")
        || agree(text, "ATTACH")
        || agree(text, "CREATE")
        || agree(text, "DETACH")
        || agree(text, "DROP")
        || agree(text, "EXPLAIN")
        || agree(text, "PRAGMA")
        || agree(text, "REINDEX")
        || agree(text, "RELEASE")
        || agree(text, "REPLACE")
        || agree(text, "SAVEPOINT")
        || agree(text, "VACUUM")
}

// Whether a word is of longer queries.
#[tactic(auto, unfolding(crate::specs::Word::is_among))]
fn is_of_query(text: &str) -> bool
    ensures { result ≡ is_among query_words text.now }
{
    agree(text, "AS")
        || agree(text, "DISTINCT")
        || agree(text, "EXCEPT")
        || agree(text, "GROUP")
        || agree(text, "HAVING")
        || agree(text, "INDEXED")
        || agree(text, "INTERSECT")
        || agree(text, "LIMIT")
        || agree(text, "OFFSET")
        || agree(text, "ORDER")
        || agree(text, "UNION")
        || agree(text, "WITH")
}

// Whether a word is of joins.
#[tactic(auto, unfolding(crate::specs::Word::is_among))]
fn is_of_join(text: &str) -> bool
    ensures { result ≡ is_among join_words text.now }
{
    agree(text, "CROSS")
        || agree(text, "INNER")
        || agree(text, "JOIN")
        || agree(text, "LEFT")
        || agree(text, "NATURAL")
        || agree(text, "ON")
}

// Whether a word is of expressions.
#[tactic(auto, unfolding(crate::specs::Word::is_among))]
fn is_of_expression(text: &str) -> bool
    ensures { result ≡ is_among expression_words text.now }
{
    agree(text, "CASE")
        || agree(text, "CAST")
        || agree(text, "EXISTS")
        || agree(text, "IN")
        || agree(text, "IS")
        || agree(text, "LIKE")
        || agree(text, "NOT")
        || agree(text, "OR")
}

// Whether a word is of clauses that are left out.
#[tactic(auto, unfolding(crate::specs::Word::is_among))]
fn is_of_clause(text: &str) -> bool
    ensures { result ≡ is_among clause_words text.now }
{
    agree(text, "DEFAULT")
        || agree(text, "DEFERRED")
        || agree(text, "EXCLUSIVE")
        || agree(text, "IMMEDIATE")
        || agree(text, "RETURNING")
}

// Whether a word of SQL is left out.
fn is_left_out_word(text: &str) -> bool
    ensures { result ≡ is_left_out_word text.now }
{
    begins_other(text)
        || is_of_query(text)
        || is_of_join(text)
        || is_of_expression(text)
        || is_of_clause(text)
}

// Whether a token belongs to the part of SQL that is left out.
#[tactic(auto, unfolding(crate::specs::Word::is_left_out))]
fn is_left_out(token: &Lexeme<'_>) -> bool
    ensures { result ≡ is_left_out token.now }
{
    match token.kind() {
        TokenKind::Fraction => true,
        TokenKind::Word => is_left_out_word(token.text()),
        _ => false,
    }
}

// Whether a token is a name: one in quotes, or a word that is no other.
#[tactic(auto, unfolding(crate::specs::Word::is_name))]
pub fn is_name(token: &Lexeme<'_>) -> bool
    ensures { result ≡ is_name token.now }
{
    match token.kind() {
        TokenKind::QuotedName => true,
        TokenKind::Word => !(is_of_grammar(token.text()) || is_left_out_word(token.text())),
        _ => false,
    }
}

// Why a token is refused where no rule admits it.
pub fn kind_of(token: &Lexeme<'_>) -> SqlKind
    ensures { result ≡ kind_of token.now }
{
    if is_left_out(token) {
        SqlKind::Unsupported
    } else {
        SqlKind::Expected
    }
}
