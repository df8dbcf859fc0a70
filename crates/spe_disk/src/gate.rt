//! The gate that each statement passes.

/// What is told before each statement, and once a transaction is over.
///
/// A test holds clients back here, to choose in which order their statements come.
pub trait Gate {
    /// Comes before the statement of this number, from 1, of a client's transaction; its ending word
    /// has the number after its last statement.
    fn pass(&self, client: u32, tx: u32, statement: u32);

    /// Comes once a client's transaction has an outcome other than busy.
    fn done(&self, client: u32, tx: u32);
}

/// The gate that does nothing.
#[derive(Clone, Copy, Debug)]
pub struct OpenGate;

impl Gate for OpenGate {
    fn pass(&self, _client: u32, _tx: u32, _statement: u32) {}

    fn done(&self, _client: u32, _tx: u32) {}
}
