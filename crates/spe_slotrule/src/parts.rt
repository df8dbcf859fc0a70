// What the seats of a table know, as plain data. No value of these types is ever made: they stand in contracts and proofs alone.
use std::collections::LinkedList;

/// A page with its bytes.
pub struct PageBytes {
    pub page: u32,
    pub bytes: LinkedList<u8>,
}

/// A commit, as the list of commits has it. Its place in the list is its number.
pub struct CommitEntry<E> {
    pub log: E,
    // How many operations on the files had been made when it counted.
    pub ops: u64,
    pub session: u64,
    // The pages that its pass had written.
    pub written: LinkedList<PageBytes>,
}

/// A commit at whose cut the store stopped, so that nobody knows whether it counts.
pub struct StoppedCommit<E> {
    pub log: E,
    pub session: u64,
    // The pages that its pass had written.
    pub written: LinkedList<PageBytes>,
}

/// What a pass has read, journalled and written.
pub struct PassRecord {
    pub read: LinkedList<PageBytes>,
    pub journalled: LinkedList<PageBytes>,
    pub written: LinkedList<PageBytes>,
}

/// The lock word that was looked at last, what was expected there and what was found.
pub struct Look {
    pub index: u64,
    pub expected: u64,
    pub found: u64,
}

/// What the seat of an id knows.
pub struct IdPart {
    pub id: u64,
    // The lock words that it reads, and those that it writes.
    pub reads: LinkedList<u64>,
    pub writes: LinkedList<u64>,
    pub looks: u64,
    pub last: Look,
    // How many of its looks showed a word that was not free for what was asked.
    pub conflicts: u64,
    pub failed_reads: u64,
    pub pages: PassRecord,
    pub faults: u64,
    pub stop: Option<u64>,
}

/// A pin: an id and the lock word in which the store holds that id's lock.
pub struct Pin {
    pub id: u64,
    pub lock: u64,
}

/// An id that is out with a session.
pub struct IdOut {
    pub id: u64,
    pub session: u64,
}

/// Where a store stopped: the operation that failed, and the commit whose cut it was.
pub struct StoreStop<E> {
    pub op: u64,
    pub commit: Option<StoppedCommit<E>>,
}

/// What the seat of the store knows.
pub struct StorePart<E> {
    pub commits: LinkedList<CommitEntry<E>>,
    pub read_pins: LinkedList<Pin>,
    pub write_pins: LinkedList<Pin>,
    pub floor: u64,
    // The number of commits when no reader was last seen.
    pub clear: u64,
    // For each id what its pass has read, journalled and written.
    pub records: LinkedList<PassRecord>,
    pub looks: u64,
    pub last: Look,
    pub out: LinkedList<IdOut>,
    pub faults: u64,
    pub stop: Option<StoreStop<E>>,
    // The sessions that were taken in at the close.
    pub closed: LinkedList<SessionPart<E>>,
}

/// What the seat of a session knows.
pub struct SessionPart<E> {
    pub number: u64,
    pub seen: LinkedList<CommitEntry<E>>,
    pub own: LinkedList<CommitEntry<E>>,
    // The greatest number of commits that it was told.
    pub told: u64,
    pub is_in: bool,
    pub out: Option<u64>,
    pub snapshot: Option<u64>,
    pub floor: u64,
    pub faults: u64,
    pub stop: Option<u64>,
    // Its commit at whose cut the store stopped.
    pub stopped: Option<StoppedCommit<E>>,
    pub looks: u64,
    pub last: Look,
    pub conflicts: u64,
    pub failed_reads: u64,
}

/// What the seat that draws numbers knows: how many ids and how many sessions it drew.
pub struct MakerPart {
    pub ids: u64,
    pub sessions: u64,
}

/// What one session tells another. It is a copy, so there may be any number of them.
pub struct NotePart<E> {
    pub seen: LinkedList<CommitEntry<E>>,
    // What the session that made the note had been told at most.
    pub told: u64,
    pub floor: u64,
    pub faults: u64,
    pub stop: Option<u64>,
}

/// The parts that a seat has. A join puts the parts of two seats together and changes none. Who has
/// the store's part has the turn.
pub struct View<E> {
    pub id: Option<IdPart>,
    pub store: Option<StorePart<E>>,
    pub session: Option<SessionPart<E>>,
    pub maker: Option<MakerPart>,
    pub note: Option<NotePart<E>>,
}
