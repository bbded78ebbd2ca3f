//! What ends a run before its input does, and what the process then says.
ghost use Rattle.std.specs.Prelude.{◌≡◌};
ghost use Rattle.program_lines.specs.Endings.{status_of as status_of_lem};

use memory_growth::OutOfMemory;
use std::error::Error;
use std::fmt;
use std::fmt::{Display, Formatter};

/// What ends a run before its input does.
#[derive(Clone, Copy, Debug, PartialEq, Eq)]
pub enum Fault {
    /// The line of this number, counted from 1, isn't a step, or lacks its line feed.
    NotAStep(u64),
    /// The input can't be read.
    Input,
    /// The output can't be written.
    Output,
    /// A socket can't be served.
    Socket,
    /// The journal that is to be saved has lost entries to a fold.
    Folded,
    /// Out of memory outside a step.
    NoMemory,
}

/// The line that the process writes to standard error, without its line feed.
impl Display for Fault {
    ghost use Rattle.std.specs.Prelude.{Some};
    ghost use Rattle.program_lines.specs.Endings.{fault_text};

    ghost output = { λ fault. Some (fault_text fault) };

    fn fmt<W: fmt::Write>(&self, f: &mut Formatter<W>) -> fmt::Result {
        match self {
            Fault::NotAStep(line) => write!(f, "store: line {line}: not a step"),
            Fault::Input => f.write_str("store: input failed"),
            Fault::Output => f.write_str("store: output failed"),
            Fault::Socket => f.write_str("store: socket failed"),
            Fault::Folded => f.write_str("store: journal folded"),
            Fault::NoMemory => f.write_str("store: no memory"),
        }
    }
}

impl Error for Fault {}

impl From<OutOfMemory> for Fault {
    ghost use Rattle.std.specs.Prelude.{◌≡◌};
    ghost use Rattle.program_lines.specs.declared.fault.Fault.TheVariants.{NoMemory};

    ghost from_gives = { λ _ fault. fault ≡ NoMemory };

    fn from(_refused: OutOfMemory) -> Fault {
        Fault::NoMemory
    }
}

/// The status with which the process ends: 0 after a run to the end of its input, 1 after a fault.
pub fn status_of(outcome: &Result<(), Fault>) -> u8
    ensures { result ≡ status_of_lem outcome.now }
{
    match outcome {
        Ok(()) => 0,
        Err(_) => 1,
    }
}
