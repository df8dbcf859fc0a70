//! Tests of spaces, chains, trees, schemas and node pages, over pages in memory.
#![tactic(auto)]

#[cfg(test)]
mod tests;
