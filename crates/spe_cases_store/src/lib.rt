//! Tests of the store of transactions.
#![tactic(auto)]

#[cfg(test)]
mod tests;
