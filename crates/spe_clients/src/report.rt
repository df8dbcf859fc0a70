//! What a run of clients leaves.

use spe_disk::Disk;
use spe_model::{Commits, Transcripts};

/// What a run of clients leaves: the disk, the commits in their order, and what became of the transactions
/// of each client.
#[derive(Drop)]
pub struct Report<D: Disk> {
    pub disk: D,
    pub order: Commits,
    pub transcripts: Transcripts,
}
