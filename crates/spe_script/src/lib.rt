//! Scripts: the transactions of a client, written one after the other.
//!
//! A script is cut at its semicolons, and what stands between two of them is an item or nothing. It is
//! read as the transactions that its items make, or refused at the first place that is wrong, by its
//! line. The tokens of one item are kept at a time. Want of memory alone is free.
#![tactic(auto)]

mod fault;
mod gathered;
mod item;
mod part;
mod reading;
mod stretch;

pub use fault::{ScriptError, ScriptKind};
pub use reading::read_script;
pub use spe_model::{End, Tx, TxKind, Txs};
