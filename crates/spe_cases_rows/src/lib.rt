//! Tests of the commands `rows` and `check` over words, journals and failures outside, through the call that does all that
//! the program does.
#![tactic(auto)]

#[cfg(test)]
mod tests;
