//! How a worker's round ends.

/// What a round of a worker came to.
#[derive(Clone, Copy, Debug, PartialEq, Eq)]
pub enum WorkDone {
    /// There was no work to take, or another worker is at it.
    Nothing,
    /// A work was finished, well or badly.
    Done,
    /// The Finish came too late.
    Stale,
    /// A step found no memory.
    NoMemory,
}
