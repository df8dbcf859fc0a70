//! Tests of the table of lock words: worked words, a table of the largest size, commits and sessions, and threads that race.
#![tactic(auto)]

#[cfg(test)]
mod commits;
#[cfg(test)]
mod fields;
#[cfg(test)]
mod race;
#[cfg(test)]
mod rows;
mod worker;
