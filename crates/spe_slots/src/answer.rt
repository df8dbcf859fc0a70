// What the calls answer.
/// The lock word that was shown.
#[derive(Debug, Drop)]
pub struct Shown {
    pub word: u64,
}

/// What a try answers.
#[derive(Debug, Drop)]
pub enum Try {
    /// The id has what it asked for.
    Done,
    /// The word was not free for what the id asked.
    Conflict(Shown),
    /// The look showed the first word, and the exchange found the second.
    Raced(u64, u64),
}

/// What a pin answers.
#[derive(Debug, Drop)]
pub enum Pin {
    /// The store has the pin.
    Done,
    /// The look showed this word, in which the id has no such lock.
    Pinless(u64),
    /// The look showed the first word, and the exchange found the second.
    Raced(u64, u64),
}

/// What becomes of a page in the record of a pass.
#[derive(Clone, Copy, Debug)]
pub enum What {
    /// The pass has read it, with these bytes.
    Read,
    /// The pass has journalled it, with these bytes, as they were before.
    Journalled,
    /// The pass has written these bytes, in the place of any that it had written there.
    Written,
    /// What the pass had written there is undone.
    Undone,
}
