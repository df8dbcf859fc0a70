//! Which journals are hot.

ghost use Rattle.std.specs.Prelude.{◌≡◌, ◌<◌, ◌*◌, ◌^◌, ◌%◌, ℕ, bit_or, if◌then◌else◌};
ghost use Rattle.std.specs.Int.{bit_at};
ghost use Rattle.spe_model.specs.Content.{Content};
ghost use Rattle.spe_model.specs.Journal.{is_hot};
ghost use Rattle.spe_model.specs.Recovery.{journal_of};
ghost use Rattle.spe_recover.specs.Heads.{AreHeads, says_hot};

use crate::heads::{JournalHead, head_at};
use spe_journal::JournalKind;

// Whether there are records to roll back.
fn says_hot(kind: JournalKind) -> bool
    ensures { result ≡ says_hot kind }
{
    match kind {
        JournalKind::Hot { nonce: _ } => true,
        JournalKind::Cold => false,
        JournalKind::OtherSize(_) => false,
    }
}

// The bits with this journal's, where it is hot.
fn with_bit(rolled: u16, id: u8, hot: bool) -> u16
    requires { id < 16 }
    ensures { result ≡ (if hot then bit_or rolled (1 * 2 ^ id % 2 ^ 16) else rolled) }
{
    if hot { rolled | 1 << id } else { rolled }
}

/// A bit for each journal that is hot, journal 0 in the lowest.
pub fn find_rolled(heads: &[JournalHead; 16]) -> u16
    ensures rolled { (content : Content) (page_size : ℕ) → AreHeads content page_size heads.now →
        (id : ℕ) → id < 16 → bit_at result id ≡ (if is_hot page_size (journal_of content id) then 1 else 0) }
{
    let mut rolled: u16 = 0;
    let mut id: u8 = 0;
    while id < 16 {
        let hot = says_hot(head_at(heads, id).kind);
        rolled = with_bit(rolled, id, hot);
        id += 1;
    }
    rolled
}
