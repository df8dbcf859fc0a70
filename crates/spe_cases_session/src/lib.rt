//! Tests of the pages of a transaction.
#![tactic(auto)]

#[cfg(test)]
mod tests;
