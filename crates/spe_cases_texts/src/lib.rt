//! Tests of texts that are read: tokens, statements and definitions of tables.
#![tactic(auto)]

#[cfg(test)]
mod tests;
