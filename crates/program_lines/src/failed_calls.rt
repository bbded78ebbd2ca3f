//! What is said of device calls that failed: a line for each, and at most one in a second.
ghost use Rattle.std.specs.Prelude.{◌≡◌, None};
ghost use Rattle.program_lines.specs.FailedCalls.{after_failure, call_text, due_unsaid, is_due as is_due_lem, with_unsaid};

use obj_id::DeviceKey;
use std::fmt;
use std::fmt::{Display, Formatter};
use std::time::{Duration, Instant};

/// How long no line is written after one, in seconds.
const PAUSE: u64 = 1;

/// What a device was called for.
#[derive(Clone, Copy, Debug, PartialEq, Eq)]
pub enum DeviceCall {
    Write,
    Read,
    Erase,
}

impl DeviceCall {
    fn word(self) -> &'static str
        ensures { result.now ≡ call_text self }
    {
        match self {
            DeviceCall::Write => "write",
            DeviceCall::Read => "read",
            DeviceCall::Erase => "erase",
        }
    }
}

/// A device call that failed, and is to be said.
#[derive(Clone, Copy, Debug)]
pub struct FailedCall<'a> {
    pub node: u32,
    pub key: DeviceKey,
    pub call: DeviceCall,
    /// Why it failed.
    pub reason: &'a str,
    /// How many failed before it for which no line was written since the last one.
    pub unsaid: u64,
}

/// The line that the process writes to standard error, without its line feed.
impl<'a> Display for FailedCall<'a> {
    ghost use Rattle.std.specs.Prelude.{Some};
    ghost use Rattle.program_lines.specs.FailedCalls.{failed_text};

    ghost output = { λ failed. Some (failed_text failed.node failed.key failed.call failed.reason.now failed.unsaid) };

    fn fmt<W: fmt::Write>(&self, f: &mut Formatter<W>) -> fmt::Result {
        let node = self.node;
        let job = self.key.job.0;
        let work = self.key.number;
        let call = self.call.word();
        let reason = self.reason;
        let unsaid = self.unsaid;
        write!(
            f,
            "store: node {node}: job {job}: work {work}: {call} failed: {reason}"
        )?;
        if unsaid == 0 {
            return Ok(());
        }
        write!(f, " (and {unsaid} more since the last line)")
    }
}

/// When a line was last written for a call that failed, and how many failed since then without one.
#[derive(Clone, Copy, Debug)]
pub struct SaidCalls {
    last: Option<Instant>,
    unsaid: u64,
}

impl SaidCalls {
    /// No call has failed.
    pub const fn new() -> SaidCalls
        ensures { result ≡ record { last = None; unsaid = 0 } }
    {
        SaidCalls {
            last: None,
            unsaid: 0,
        }
    }

    /// A call failed at this time. If its line is to be written, how many failed since the last one without a line.
    pub fn fail(&mut self, now: Instant) -> Option<u64>
        ensures due { result ≡ due_unsaid self.old now }
        ensures said { self.new ≡ after_failure self.old now }
    {
        if !is_due(self.last, now) {
            self.skip(1);
            return None;
        }
        let unsaid = self.unsaid;
        *self = SaidCalls {
            last: Some(now),
            unsaid: 0,
        };
        Some(unsaid)
    }

    /// So many calls failed that get no line.
    pub fn skip(&mut self, more: u64)
        ensures { self.new ≡ with_unsaid more self.old }
    {
        self.unsaid = self.unsaid.saturating_add(more);
    }
}

/// Whether a line may be written now, after one at the last time.
fn is_due(last: Option<Instant>, now: Instant) -> bool
    ensures { result ≡ is_due_lem last now }
{
    match last {
        None => true,
        Some(last) => now.duration_since(last) >= Duration::from_secs(PAUSE),
    }
}
