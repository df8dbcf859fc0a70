//! Tests of the texts that the libraries' errors show to a person.
#![tactic(auto)]

#[cfg(test)]
mod tests;
