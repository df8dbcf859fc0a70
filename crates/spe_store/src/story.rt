//! What transactions did, which only proofs read.

ghost use Rattle.std.specs.Prelude.{◌≡◌, List, [], ◌∷◌};
ghost use Rattle.spe_store.specs.Event.{Event, end_of, event_of};

use crate::kind::{Ending, Kind};
use crate::log::Log;
use std::marker::Model;

/// What transactions did, the newest first. It takes no memory, and its functions do nothing when they
/// run.
#[derive(Drop)]
pub(crate) struct Story {
    pub(crate) ghost events: { List Event },
}

impl Model for Story {
    ghost use base.Fml.{ftrue};

    ghost also_owns = { λ _. ftrue };
}

/// What a transaction did: which one, to which page, and the bytes that the page had or got.
#[derive(Clone, Copy, Drop)]
pub(crate) struct Done<'a> {
    pub(crate) kind: Kind,
    pub(crate) id: u8,
    pub(crate) page: u32,
    pub(crate) bytes: &'a [u8],
}

/// How a transaction committed, or failed to: which one, of which session, how many operations were then
/// made, and what it asked and was answered.
#[derive(Clone, Copy, Drop)]
pub(crate) struct Ended<'a> {
    pub(crate) ending: Ending,
    pub(crate) id: u8,
    pub(crate) session: u64,
    pub(crate) ops: u64,
    pub(crate) log: &'a Log,
}

impl Story {
    /// Nothing was done.
    pub(crate) fn none() -> Story
        ensures { result.events ≡ [] }
    {
        Story {}
    }

    /// One thing more was done.
    pub(crate) fn with(&self, _done: &Done<'_>) -> Story
        ensures { result.events ≡ event_of _done.now.kind _done.now.id _done.now.page _done.now.bytes.now ∷ self.now.events }
    {
        Story {}
    }

    /// One transaction more has ended.
    pub(crate) fn with_end(&self, _ended: &Ended<'_>) -> Story
        ensures { result.events ≡ end_of _ended.now.ending _ended.now.id _ended.now.session _ended.now.ops _ended.now.log.now ∷ self.now.events }
    {
        Story {}
    }
}
