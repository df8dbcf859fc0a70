//! Why there is no answer from a disk.

/// Why there is no answer from a disk.
#[derive(Clone, Copy, Debug)]
pub enum Failure {
    /// The disk failed.
    Disk,
    /// There was no memory.
    Memory,
}
