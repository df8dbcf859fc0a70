//! Command words.

ghost use Rattle.std.specs.Prelude.{◌≡◌, ◌≢◌, IfNone, IfSome};
ghost use Rattle.spe_words.specs.Found.{kind_word};
ghost use Rattle.spe_words.specs.declared.kind.Kind.{Kind};

/// What a command line asks for, by its command word.
#[derive(Clone, Copy)]
pub enum Kind {
    Rows,
    Check,
    Prepare,
    Release,
    Run,
    Work,
}

// The kind of a command word.
pub fn kind_of(word: &str) -> Option<Kind>
    ensures found { IfSome result (λ kind. kind_word kind ≡ word.now) }
    ensures none { IfNone result ((kind : Kind) → kind_word kind ≢ word.now) }
{
    if word == "rows" {
        Some(Kind::Rows)
    } else if word == "check" {
        Some(Kind::Check)
    } else if word == "prepare" {
        Some(Kind::Prepare)
    } else if word == "release" {
        Some(Kind::Release)
    } else if word == "run" {
        Some(Kind::Run)
    } else if word == "work" {
        Some(Kind::Work)
    } else {
        None
    }
}
