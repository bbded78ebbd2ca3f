//! A gate of one job and one object.
ghost use Rattle.std.specs.Prelude.{IsTrue};
ghost use Rattle.wire_frames.specs.Writing.{has_reply_frame};

use bytes::Bytes;
use obj_id::{Command, JobKey, JobNo, Refusal, Reply};
use private_store::Awaited;
use session_engine::Gate;

const JOB: JobNo = JobNo(1);

const KEY: JobKey = JobKey([0; 32]);

/// The number of each session.
const SESSION: u32 = 7;

/// What is read of any object.
pub const PAGE: [u8; 2000] = [7; 2000];

/// A gate that lets sessions into job 1, and keeps the length of the object that was made last. It
/// promises nothing: tests look at what it counted.
#[derive(Drop)]
pub struct Desk {
    length: u32,
    /// Sessions that were let in.
    pub entries: u32,
    /// How often a session was left.
    pub leaves: u32,
    /// Whether that was the last call.
    pub is_left: bool,
    /// Calls of another job or session, or of nobody who is in.
    pub strays: u32,
}

impl Desk {
    pub fn new() -> Desk {
        Desk {
            length: 0,
            entries: 0,
            leaves: 0,
            is_left: false,
            strays: 0,
        }
    }

    fn look_at(&mut self, job: JobNo, session: u32) {
        self.is_left = false;
        if job != JOB || session != SESSION || self.entries == 0 {
            self.strays = self.strays.saturating_add(1);
        }
    }

    fn make(&mut self, length: u32) -> Reply<Bytes>
        ensures { IsTrue (has_reply_frame result) }
    {
        self.length = length;
        Reply::Placed(0, length.saturating_add(15) / 16 * 16)
    }

    fn answer(&mut self, command: &Command<Bytes>) -> Reply<Bytes>
        ensures { IsTrue (has_reply_frame result) }
    {
        match command {
            Command::Create { length, .. } => self.make(*length),
            Command::Seal(_) => Reply::Ok,
            Command::Get(_) => Reply::Got(self.length),
            Command::Read { .. } => Reply::Bytes(Bytes::from_static(&PAGE)),
            Command::Leave => Reply::Ok,
            _ => Reply::Refused(Refusal::Absent),
        }
    }
}

impl Gate for Desk {
    ghost use Rattle.std.specs.Prelude.{⊤};

    ghost gives = { λ _ _ _ _. ⊤ };

    fn enter(&mut self, job: JobNo, key: JobKey) -> Result<u32, Refusal> {
        if job != JOB || key != KEY {
            return Err(Refusal::NotAdmitted);
        }
        self.entries = self.entries.saturating_add(1);
        Ok(SESSION)
    }

    fn call(&mut self, job: JobNo, session: u32, command: Command<Bytes>) -> Reply<Bytes> {
        self.look_at(job, session);
        self.answer(&command)
    }

    fn call_wait(&mut self, job: JobNo, session: u32, awaited: Awaited) -> Reply<Bytes> {
        self.look_at(job, session);
        match awaited {
            Awaited::Create { length, .. } => self.make(length),
            Awaited::Get(_) => Reply::Got(self.length),
        }
    }

    fn leave(&mut self, job: JobNo, session: u32) {
        self.look_at(job, session);
        self.leaves = self.leaves.saturating_add(1);
        self.is_left = true;
    }
}
