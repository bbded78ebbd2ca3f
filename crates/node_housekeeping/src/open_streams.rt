//! The streams of a node's open sessions.
ghost use Rattle.std.specs.Prelude.{◌≡◌, IfOk};

use crate::open_stream::{ListedSession, OpenStream};
use memory_growth::{OutOfMemory, boxes, lists};
use obj_id::JobNo;
use std::alloc::Global;
use std::net::Shutdown;
use std::os::fd::AsRawFd;
use std::os::unix::net::UnixStream;
use std::sync::atomic::{AtomicU32, Ordering};
use std::sync::{Arc, Mutex, Wait};
use std::time::{Clock, Instant};

/// How many descriptors are left to the workers' devices: two for each of the most nodes that there may be. A stream that would take one of
/// them isn't served.
const SPARE: u32 = 16;

/// Streams that are served.
#[derive(Drop)]
struct Streams {
    open: Vec<Arc<OpenStream>>,
    // what all of them were shut down for, and those that come later are
    shut: Option<Shutdown>,
}

/// The streams of a node's open sessions, so that somebody else can end them.
#[derive(Drop)]
pub struct OpenStreams {
    streams: Mutex<Streams>,
    // how many descriptors the process may have open
    most: AtomicU32,
}

impl OpenStreams {
    /// None is open.
    pub fn new(alloc: Global) -> OpenStreams {
        OpenStreams {
            streams: Mutex::new(Streams {
                open: Vec::new(alloc),
                shut: None,
            }),
            most: AtomicU32::new(u32::MAX),
        }
    }

    /// Says how many descriptors the process may have open. Until then there is no bound.
    pub fn bound(&self, most: u32) {
        self.most.store(most, Ordering::SeqCst);
    }

    /// Whether there are descriptors to spare beside the stream's. It was given the lowest that was free, so its number says how many are
    /// in use at least.
    pub fn have_spare(&self, stream: &UnixStream) -> bool {
        let number = u32::try_from(stream.as_raw_fd()).unwrap_or(0);
        number.saturating_add(SPARE) < self.most.load(Ordering::SeqCst)
    }

    /// A stream is served from now on. Without memory for its place it is closed.
    pub fn open<R: Wait + Clock>(
        &self,
        rt: &R,
        alloc: Global,
        stream: UnixStream,
    ) -> Result<Arc<OpenStream>, OutOfMemory>
        ensures { IfOk result (λ made. made.value.stream ≡ stream) }
    {
        let opened = Instant::now(rt).ok();
        let made = boxes::counted(alloc, OpenStream::new(stream, opened))?;
        self.keep(rt, &made)?;
        Ok(made)
    }

    /// Gives it a place among the others, and shuts it down if they are.
    fn keep<R: Wait>(&self, rt: &R, made: &Arc<OpenStream>) -> Result<(), OutOfMemory> {
        let shared = boxes::another(made)?;
        let mut streams = self.streams.lock(rt);
        lists::push(&mut streams.open, shared)?;
        if let Some(how) = streams.shut {
            let _ = made.stream().shutdown(how);
        }
        Ok(())
    }

    /// A stream is no longer served.
    pub fn close<R: Wait>(&self, rt: &R, stream: &UnixStream) {
        let _ = stream.shutdown(Shutdown::Both);
        let number = stream.as_raw_fd();
        let mut streams = self.streams.lock(rt);
        let place = streams
            .open
            .iter()
            .position(|open| open.stream().as_raw_fd() == number);
        if let Some(place) = place {
            let _ = streams.open.swap_remove(place);
        }
    }

    /// Shuts down all that are open, and each that is opened later.
    pub fn shut<R: Wait>(&self, rt: &R, how: Shutdown) {
        let mut streams = self.streams.lock(rt);
        streams.shut = Some(how);
        for open in &streams.open {
            let _ = open.stream().shutdown(how);
        }
    }

    /// Shuts down the stream of this job's session both ways, so that it ends as if its client had gone: whether it is open.
    pub fn shut_session<R: Wait>(&self, rt: &R, job: JobNo, session: u32) -> bool {
        let streams = self.streams.lock(rt);
        for open in &streams.open {
            if open.is_of(job, session) {
                let _ = open.stream().shutdown(Shutdown::Both);
                return true;
            }
        }
        false
    }

    /// What is noted of each session whose Hello was taken.
    pub fn listed<R: Wait + Clock>(
        &self,
        rt: &R,
        alloc: Global,
    ) -> Result<Vec<ListedSession>, OutOfMemory> {
        let now = Instant::now(rt).ok();
        let streams = self.streams.lock(rt);
        let mut listed = lists::with_room_for(alloc, &streams.open)?;
        for open in &streams.open {
            if let Some(session) = open.listed(now) {
                lists::push(&mut listed, session)?;
            }
        }
        Ok(listed)
    }
}
