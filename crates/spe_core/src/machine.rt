//! The core.

use crate::beginning::Beginning;
use crate::commit::Commits;
use crate::counts::named_count;
use crate::lives::Lives;
use crate::parts::{Mode, Parts};
use spe_model::{Bytes, FileNo};
use spe_stored::Files;
use std::alloc::{AllocError, Global};
use std::marker::Model;

/// The core of the engine: its files, its transactions, and what was committed.
///
/// It holds in memory the files as they are, what the transactions that go on have done, and images
/// of pages before commits. No step goes through the database or, but for the growth of its buffer,
/// copies it. A step takes time and memory for the pages that its event names; one that ends a
/// transaction, or finds nothing to undo, also for the pages that were journalled and written, and a
/// stop for the bytes of the journals.
#[derive(Drop)]
pub struct Core {
    pub(crate) parts: Parts,
}

impl Model for Core {
    ghost use Rattle.spe_core.specs.State.{State};
    ghost use Rattle.spe_core.specs.Parts.{state_of};
    ghost use Rattle.spe_core.specs.Changing.{IsHeld};

    ghost Value = { State };

    ghost view = { λ c. state_of c.parts };

    ghost invariant = { λ c. IsHeld c.parts };
}

impl Core {
    ghost use Rattle.std.specs.Prelude.{◌≡◌, length, IfOk};
    ghost use Rattle.spe_model.specs.Content.{bytes_of};
    ghost use Rattle.spe_core.specs.Opening.{AreSlots, IsOpening, opened};

    /// A core that serves a database file of these bytes, with so many locks.
    ///
    /// The only error is want of memory.
    pub fn new(alloc: Global, pages: Bytes, slots: u32) -> Result<Core, AllocError>
        requires opening { IsOpening pages }
        requires slots { AreSlots slots }
        ensures { IfOk result (λ core. core ≡ opened pages slots) }
    {
        let opening = Beginning::of(&pages);
        let count = named_count(pages.as_slice());
        let files = Files::alone(alloc, pages.into_vec())?;
        Ok(Core {
            parts: Parts {
                alloc,
                opening,
                slots,
                files,
                pages: count,
                made: 0,
                commits: Commits::new(),
                images: Vec::new(alloc),
                live: Lives::new(alloc),
                mode: Mode::Serving,
            },
        })
    }

    /// The bytes of a file as it is, none where it is absent.
    pub fn bytes(&self, file: FileNo) -> &[u8]
        ensures { result.now ≡ bytes_of self.now.content file }
    {
        self.parts.files.bytes(file)
    }

    /// How many transactions were committed.
    pub fn commit_count(&self) -> u64
        ensures { result ≡ length self.now.commits }
    {
        self.parts.commits.len()
    }
}
