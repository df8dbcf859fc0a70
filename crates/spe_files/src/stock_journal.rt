//! The journal that another program, as `sqlite3`, leaves beside a database.

ghost use Rattle.std.specs.Prelude.{◌≡◌};
ghost use Rattle.spe_files.specs.Stock.{is_cold};

/// How many bytes at a journal's front decide whether it is cold: as many as SQLite overwrites with
/// zeros where its journal mode is PERSIST.
pub const FRONT_BYTES: usize = 28;

const ZEROS: &[u8; 28] = &[0; FRONT_BYTES];

/// Whether a journal takes nothing back, by its bytes or by the first 28 of them: it is empty, as the
/// journal mode TRUNCATE leaves it, or begins with 28 zeros, as PERSIST leaves it. Any other may be
/// hot.
#[tactic(auto, unfolding(crate::specs::Stock::is_cold))]
pub fn is_cold_journal(front: &[u8]) -> bool
    ensures cold { result ≡ is_cold front.now }
{
    front.is_empty() || front.starts_with(ZEROS)
}
