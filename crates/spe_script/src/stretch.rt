//! The tokens between two semicolons.

ghost use Rattle.std.specs.Prelude.{◌≡◌, ◌∷◌, IfOk};
ghost use Rattle.spe_script.specs.Script.{stretches};
ghost use Rattle.spe_script.specs.Gathered.{stretches_behind};

use crate::part::Border;
use spe_lex::{Cursor, Lexeme, Next};
use spe_parse::is_sign;
use std::alloc::AllocError;

/// Reads the tokens of a text of this size up to the next semicolon, in the place of those that are
/// there, and passes it.
pub fn read_stretch<'a>(
    cursor: &mut Cursor<'a>,
    size: u64,
    tokens: &mut Vec<Lexeme<'a>>,
) -> Result<Border, AllocError>
    ensures { IfOk result (λ b. stretches size cursor.old ≡ (tokens.new.items, b) ∷ stretches_behind size b cursor.new) }
{
    tokens.clear();
    'tokens: loop {
        match cursor.next() {
            Next::Token(lexeme) => {
                if is_sign(";", &lexeme) {
                    return Ok(Border::Semicolon(lexeme.at()));
                }
                tokens.push(lexeme)?;
            }
            Next::Fault(at) => return Ok(Border::NoToken(at)),
            Next::End => return Ok(Border::TextEnd(size)),
        }
    }
}
