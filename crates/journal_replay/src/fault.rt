//! What ends a replay before its answer, and what the process then says.
use std::error::Error;
use std::fmt;
use std::fmt::{Display, Formatter};

/// What ends a replay before its answer.
#[derive(Clone, Copy, Debug, PartialEq, Eq)]
pub enum ReplayFault {
    /// The line of this number, counted from 1, isn't an entry, or lacks its line feed; of the first line, no journal
    /// begins so.
    NotAnEntry(u64),
    /// The input can't be read.
    Input,
    /// The output can't be written.
    Output,
    /// Out of memory.
    NoMemory,
}

/// The line that the process writes to standard error, without its line feed.
impl Display for ReplayFault {
    ghost use Rattle.std.specs.Prelude.{Some};
    ghost use Rattle.journal_replay.specs.Texts.{replay_fault_text};

    ghost output = { λ fault. Some (replay_fault_text fault) };

    fn fmt<W: fmt::Write>(&self, f: &mut Formatter<W>) -> fmt::Result {
        match self {
            ReplayFault::NotAnEntry(line) => write!(f, "store: line {line}: not an entry"),
            ReplayFault::Input => f.write_str("store: input failed"),
            ReplayFault::Output => f.write_str("store: output failed"),
            ReplayFault::NoMemory => f.write_str("store: no memory"),
        }
    }
}

impl Error for ReplayFault {}
