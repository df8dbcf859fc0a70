//! Tests of b-tree pages, read and written, on bytes worked out by hand.
#![tactic(auto)]

#[cfg(test)]
mod tests;
