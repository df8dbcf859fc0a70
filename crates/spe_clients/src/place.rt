//! A client that waits.

ghost use Rattle.std.specs.Prelude.{◌≡◌, ◌<◌, ◌≤◌, ◌^◌, [], All, vec_capacity, vec_len};
ghost use Rattle.spe_clients.specs.Script.{MayRun};

use spe_model::{Outcome, Replies, Tx};

// A client that waits: the transactions that are left, the first of them last, and room for their outcomes.
#[derive(Drop)]
pub(crate) struct Place {
    pub(crate) left: Vec<Tx>,
    pub(crate) answers: Vec<(Outcome, Replies)>,
    ghost runnable: { All MayRun left.items },
    ghost few: { vec_len left < 2 ^ 32 },
    ghost empty: { answers.items ≡ [] },
    ghost room: { vec_len left ≤ vec_capacity answers },
}
