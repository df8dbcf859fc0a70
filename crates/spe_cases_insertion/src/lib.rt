//! Tests of rows put into trees, over pages in memory.
#![tactic(auto)]

#[cfg(test)]
mod tests;
