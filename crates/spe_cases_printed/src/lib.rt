//! Tests of printed texts: outcomes, replies, values, tables that are printed while they are read, and sinks
//! that take little or fail.
#![tactic(auto)]

#[cfg(test)]
mod streamed;
#[cfg(test)]
mod tests;
