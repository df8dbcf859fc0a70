//! What a transaction asked and was answered.

use spe_model::{Replies, Tx};

/// A transaction of a client with the replies to its statements.
#[derive(Debug, Drop)]
pub struct Log {
    /// The client, from 1.
    pub client: u32,
    /// The client's transaction, from 1.
    pub tx: u32,
    /// What was asked.
    pub body: Tx,
    /// The replies to its statements, in their order.
    pub replies: Replies,
}
