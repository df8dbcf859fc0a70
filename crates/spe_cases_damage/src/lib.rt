//! Tests of the commands `check` and `rows` over sound and damaged files, through the call that does all that the program
//! does.
#![tactic(auto)]

#[cfg(test)]
mod tests;
