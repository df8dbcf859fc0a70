//! Tests of the command `run`, through the call that does all that the program does.
#![tactic(auto)]

#[cfg(test)]
mod tests;
