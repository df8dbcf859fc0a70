//! Tests of what all transactions share of a database, and of the pages of a file that are only read.
#![tactic(auto)]

#[cfg(test)]
mod tests;
