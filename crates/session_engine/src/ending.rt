//! How a session ends.
use thiserror::Error;

/// How a session ended, if its input came to its end or was no frame.
#[derive(Clone, Copy, Debug, PartialEq, Eq)]
pub enum Ended {
    /// The input was whole frames.
    Clean,
    /// The input ended inside a frame.
    MidFrame,
    /// What came wasn't a frame; that was answered, and nothing that came after it was read.
    Malformed,
}

/// What ended a session before its input did.
#[derive(Clone, Copy, Debug, PartialEq, Eq, Error)]
pub enum SessionFault {
    /// A read failed, or the session read as often as there are numbers of 64 bits.
    #[error("the session's input failed")]
    Read,
    /// A write or a flush failed.
    #[error("the session's output failed")]
    Write,
    /// Out of memory for what was read, or for an answer's frame.
    #[error("no memory for the session")]
    Memory,
}
