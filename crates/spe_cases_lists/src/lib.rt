//! Tests of the free lists of a database, read from files in memory, and of the bytes of their pages.
#![tactic(auto)]

#[cfg(test)]
mod tests;
