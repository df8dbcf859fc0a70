//! Where the statements of a transaction pass the gate.

use crate::transaction::Turn;
use spe_disk::Gate;

/// The gate, and the transaction that passes it.
#[derive(Drop)]
pub struct Passing<'a, G> {
    pub gate: &'a G,
    pub turn: Turn,
}

impl<G: Gate> Passing<'_, G> {
    /// Passes the gate for what comes behind so many statements: the next one, or the ending word behind
    /// the last. Past 2^32 - 1 the number stays.
    pub fn pass(&self, done: usize) {
        let number = match u32::try_from(done) {
            Ok(done) => done.saturating_add(1),
            Err(_) => u32::MAX,
        };
        self.gate.pass(self.turn.client, self.turn.tx, number);
    }
}
