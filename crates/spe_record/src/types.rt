//! The serial types of a record.

ghost use Rattle.std.specs.Prelude.{◌≡◌};
ghost use Rattle.spe_model.specs.Serial.{size_of};

// How many bytes a value of a serial type takes.
pub fn size(kind: u64) -> u64
    ensures { result ≡ size_of kind }
{
    match kind {
        0..=4 => kind,
        5 => 6,
        6 | 7 => 8,
        8..=11 => 0,
        _ => (kind - 12) / 2,
    }
}
