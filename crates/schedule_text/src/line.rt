//! What a line of a schedule says.
ghost use Rattle.std.specs.Prelude.{◌≡◌};
ghost use Rattle.schedule_text.specs.Prefixes.{line_prefix};

use crate::Prefix;
use obj_id::JobNo;
use private_store::Step;

/// What a line of a schedule says.
#[derive(Debug, Drop)]
pub enum Line {
    /// Nothing: the line is empty, or a comment.
    Skipped,
    /// A step as it stands.
    Step(Step),
    /// A device worker finishes the job's work of this number at the node. What it hands in is
    /// known once the device was called, or wasn't.
    Finish {
        node: u32,
        job: JobNo,
        number: u64,
        outcome: FinishWord,
    },
}

impl Line {
    /// What the answer to the line begins with. A line that is skipped has no answer.
    pub fn prefix(&self) -> Option<Prefix>
        ensures { result ≡ line_prefix self.now }
    {
        match self {
            Line::Skipped => None,
            Line::Step(step) => Some(Prefix::of(step)),
            Line::Finish { node, .. } => Some(Prefix::Device(*node)),
        }
    }
}

/// What becomes of a work that is finished.
#[derive(Clone, Copy, Debug, PartialEq, Eq)]
pub enum FinishWord {
    /// The device is called, and its answer handed in.
    Ok,
    /// The work failed, without a call.
    Fail,
    /// As `Ok`, but the bytes of a read are damaged.
    Damage,
}
