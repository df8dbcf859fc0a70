//! What a disk was before its pages were read.

use std::marker::Brand;

/// The disk that a space reads, as it was when the space was made. Each caller picks it.
pub trait Origin {
    ghost use Rattle.std.specs.Prelude.{ℕ, Option};
    ghost use Rattle.spe_model.specs.Trace.{History};

    // What its files held and what was done to them, where it tells that.
    ghost told: { Option History };

    // How often a reading call had failed.
    ghost faults: { ℕ };

    // How often an operation had failed.
    ghost ops: { ℕ };
}

impl Origin for Brand {
    ghost use Rattle.std.specs.Prelude.{None};

    ghost told = { None };

    ghost faults = { 0 };

    ghost ops = { 0 };
}
