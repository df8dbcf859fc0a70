//! Tests of what rewrites the pages of a file.
#![tactic(auto)]

#[cfg(test)]
mod tests;
