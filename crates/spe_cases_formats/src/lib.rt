//! Tests of the readers and writers of varints, records and journals, on bytes worked out by hand.
#![tactic(auto)]

#[cfg(test)]
mod tests;
