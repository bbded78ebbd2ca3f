//! The stream of an open session, and what is noted of it.
ghost use Rattle.std.specs.Prelude.{◌≡◌};

use obj_id::JobNo;
use std::os::unix::net::UnixStream;
use std::sync::atomic::{AtomicU32, AtomicU64, Ordering};
use std::time::Instant;

/// What is noted of a session whose Hello was taken.
#[derive(Clone, Copy, Debug, PartialEq, Eq)]
pub struct ListedSession {
    pub session: u32,
    pub job: JobNo,
    /// Whole seconds since its stream was opened.
    pub seconds: u64,
    /// How many commands were taken from it.
    pub commands: u64,
}

/// A stream that is served, and what is noted of its session: in atomics, so that who serves it waits for nobody.
#[derive(Drop)]
pub struct OpenStream {
    stream: UnixStream,
    // none if the clock couldn't be read
    opened: Option<Instant>,
    // until a Hello is taken both are 0: no job and no session has that number
    job: AtomicU32,
    session: AtomicU32,
    commands: AtomicU64,
}

impl OpenStream {
    /// A stream that was opened at this time, and of which no Hello was taken.
    pub(crate) fn new(stream: UnixStream, opened: Option<Instant>) -> OpenStream
        ensures { result.stream ≡ stream }
    {
        OpenStream {
            stream,
            opened,
            job: AtomicU32::new(0),
            session: AtomicU32::new(0),
            commands: AtomicU64::new(0),
        }
    }

    /// The stream itself.
    pub fn stream(&self) -> &UnixStream
        ensures { result.now ≡ self.now.stream }
    {
        &self.stream
    }

    /// Its Hello was taken: it is this session of this job from now on.
    pub fn note_session(&self, job: JobNo, session: u32) {
        // the session last, since who finds it there reads the job too
        self.job.store(job.0, Ordering::SeqCst);
        self.session.store(session, Ordering::SeqCst);
    }

    /// A command was taken from it.
    pub fn note_command(&self) {
        self.commands.fetch_add(1, Ordering::Relaxed);
    }

    /// Whether it is this session of this job.
    pub(crate) fn is_of(&self, job: JobNo, session: u32) -> bool {
        session != 0
            && self.session.load(Ordering::SeqCst) == session
            && self.job.load(Ordering::SeqCst) == job.0
    }

    /// What is noted of its session, if its Hello was taken. Without a time its age is 0.
    pub(crate) fn listed(&self, now: Option<Instant>) -> Option<ListedSession> {
        let session = self.session.load(Ordering::SeqCst);
        if session == 0 {
            return None;
        }
        let seconds = match (now, self.opened) {
            (Some(now), Some(opened)) => now.duration_since(opened).as_secs(),
            _ => 0,
        };
        Some(ListedSession {
            session,
            job: JobNo(self.job.load(Ordering::SeqCst)),
            seconds,
            commands: self.commands.load(Ordering::Relaxed),
        })
    }
}
