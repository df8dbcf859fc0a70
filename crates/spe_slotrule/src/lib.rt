//! The rule of a table of lock words, by which sixteen transactions exclude each other by page.
//!
//! A lock word is a `u64` that changes in single atomic steps. The rule ties the words to what the
//! seats of the table know. Each number that was drawn stands in one view. A reader bit or a writer
//! is set exactly where its id lists the word, a writer has no reader beside it but itself, a pin is
//! set exactly where the store lists it and stands under a lock of its id. What any session or note
//! has seen begins the store's list of commits, of which a session's own list has those that carry its
//! number, and nobody was told of more commits, faults or another stop than the store has. Each kind of step
//! on the table keeps the rule, so it holds between any two steps.
#![tactic(auto)]

mod locks;
mod parts;
mod pins;
mod rule;
mod shares;
mod tells;
mod word;

pub use locks::{GrantRead, GrantWrite, LookToRead, LookToRelease, LookToWrite, Release};
pub use parts::{
    CommitEntry, IdOut, IdPart, Look, MakerPart, NotePart, PageBytes, PassRecord, Pin, SessionPart,
    StoppedCommit, StorePart, StoreStop, View,
};
pub use pins::{LookToPin, OfId, PinRead, PinWrite, Unpin};
pub use rule::{COMMITS, FIRST_LOCK, FLOOR, NEXT_ID, NEXT_SESSION, SlotRule};
pub use shares::{
    DrawId, DrawSession, JoinParts, SplitAll, SplitId, SplitMaker, SplitNote, SplitSession,
};
pub use tells::{Commit, Makes, Tell};
pub use word::{
    count, has_lock, is_reader, is_writer, own_write_pin, pinned, read_free, read_pin, readers,
    unpinned, with_read_pin, with_reader, with_write_pin, with_writer, without_locks, write_free,
    write_pin, writer,
};
