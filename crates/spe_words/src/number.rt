//! Numbers in words.

ghost use Rattle.std.specs.Prelude.{◌≡◌, ℕ, IfSome, IfNone};
ghost use Rattle.spe_words.specs.Grammar.{IsNumber};

// The number that a text is, where it is from `least` to `most`.
pub fn number(text: &str, least: u32, most: u32) -> Option<u32>
    ensures found { IfSome result (IsNumber least most text.now) }
    ensures none { IfNone result ((n : ℕ) → ¬ IsNumber least most text.now n) }
{
    if text.len() > 10 || text.starts_with('+') {
        return None;
    }
    match text.parse::<u32>() {
        Ok(number) if least <= number && number <= most => Some(number),
        _ => None,
    }
}
