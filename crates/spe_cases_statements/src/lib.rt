//! Tests of what statements mean, on databases over maps and over pages.
#![tactic(auto)]

#[cfg(test)]
mod tests;
