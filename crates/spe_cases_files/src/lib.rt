//! Tests of the edge of the program: the words of its command line and its real files.
#![tactic(auto)]

#[cfg(test)]
mod tests;
