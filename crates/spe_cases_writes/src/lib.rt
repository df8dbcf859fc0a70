//! Tests of what is written to pages, over pages in memory.
#![tactic(auto)]

#[cfg(test)]
mod tests;
