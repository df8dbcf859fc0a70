//! The law of justified replies.

ghost use Rattle.spe_exec.specs.Justifying.{JustifiedHere, JustifiedMore, JustifiedNone, JustifiedRun};

use spe_space::Pages;

/// Replies that are justified stay so with the reply of `run` to one statement more; and at the start of a
/// transaction there is nothing to justify. `more` is said of a statement that reads, on pages of which
/// nothing more is known; `run` of any, in a space that is ready for calls that write, and `here` says that
/// replies justified so are justified.
///
/// It does nothing: its contract is a law, for a caller that calls it where it needs it.
pub fn justified_more<S: Pages>()
    ensures none { JustifiedNone }
    ensures more { JustifiedMore S.Pages }
    ensures here { JustifiedHere S.Pages }
    ensures run { JustifiedRun S.Pages }
{}
