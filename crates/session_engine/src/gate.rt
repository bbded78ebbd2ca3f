//! What a session calls.
use bytes::Bytes;
use obj_id::{Command, JobKey, JobNo, Refusal, Reply};
use private_store::Awaited;

/// What a session asks of a node. Each gate states by `gives` what an answer means to it.
pub trait Gate {
    ghost use Rattle.std.specs.Prelude.{IsTrue, IfErr};
    ghost use Rattle.wire_frames.specs.Writing.{has_reply_frame};
    ghost use Rattle.session_engine.specs.Calls.{GateCall, to_enter, to_call, to_wait, to_leave, GateAnswer, replied, left, entry_answer, IsEntryRefusal};

    // the gate before, what it is asked, what it answers, and the gate after
    ghost gives: { Self → GateCall → GateAnswer → Self → Type 0 };

    /// Lets a session into the job, whose key it shows, and gives its number. `NotAdmitted` if
    /// the job isn't live here or has another key, `TooMany` if its numbers are used up, and
    /// `NoMemory`.
    fn enter(&mut self, job: JobNo, key: JobKey) -> Result<u32, Refusal>
        ensures gives { gives self.old (to_enter job key) (entry_answer result) self.new }
        ensures refusal { IfErr result IsEntryRefusal };

    /// Answers a command of the job's session, by a reply that has a frame.
    fn call(&mut self, job: JobNo, session: u32, command: Command<Bytes>) -> Reply<Bytes>
        ensures gives { gives self.old (to_call job session command) (replied result) self.new }
        ensures frame { IsTrue (has_reply_frame result) };

    /// The same, for a command that is tried again while its answer is Pending.
    fn call_wait(&mut self, job: JobNo, session: u32, awaited: Awaited) -> Reply<Bytes>
        ensures gives { gives self.old (to_wait job session awaited) (replied result) self.new }
        ensures frame { IsTrue (has_reply_frame result) };

    /// Releases all that the session holds, which calls no more: now, or later if there is no memory for it now. Takes none of its
    /// own.
    fn leave(&mut self, job: JobNo, session: u32)
        ensures gives { gives self.old (to_leave job session) left self.new };
}
