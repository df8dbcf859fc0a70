//! Tests of recovery, over disks in memory, of those disks, and of the core.
#![tactic(auto)]

#[cfg(test)]
mod tests;
