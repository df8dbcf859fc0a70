//! What a session is to the store.

/// A session of one client at a time, with what the store told it.
#[derive(Clone, Copy, Debug, PartialEq, Eq)]
pub struct SessionSeat {
    /// The session's number.
    pub number: u64,
    /// The greatest number of commits that it was told.
    pub told: u64,
}

/// What a commit answers.
#[derive(Clone, Copy, Debug, PartialEq, Eq)]
pub struct Receipt {
    /// The commit's number, from 1.
    pub number: u64,
    /// How many operations had been made on the disk by then.
    pub ops: u64,
}
