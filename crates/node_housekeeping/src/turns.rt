//! Whose turn it is among the lanes by which messages come to a node.
ghost use Rattle.std.specs.Prelude.{◌<◌};

use obj_id::JobNo;
use obj_id::limits::MOST_NODES;
use std::array;
use std::sync::{Condvar, Mutex, Wait};

/// How many lanes there are: a job's messages take one, so that a job with many delays none but those whose numbers are the same modulo 16.
pub const LANES: usize = 16;

/// From how many nodes messages come at most.
const SOURCES: usize = MOST_NODES as usize;

/// The turn of a lane to give a message from a node.
#[derive(Clone, Copy)]
pub struct Turn {
    pub lane: usize,
    pub source: usize,
}

/// How many messages from each node a lane has that nobody has received yet, and from which one the next is.
#[derive(Clone, Copy)]
struct Lane {
    counts: [u64; SOURCES],
    next: usize,
    // one of its messages is being handed in
    is_taken: bool,
}

impl Lane {
    /// Without a message.
    fn new() -> Lane {
        Lane {
            counts: [0; SOURCES],
            next: 0,
            is_taken: false,
        }
    }

    /// Whether it has a message, and none is being handed in.
    fn is_ready(&self) -> bool {
        !self.is_taken && self.counts.iter().any(|count| *count > 0)
    }

    /// The node whose message comes next, and is handed in from now on.
    fn take(&mut self) -> Option<usize> {
        let first = self.next % SOURCES;
        for step in 0..SOURCES {
            let source = (first + step) % SOURCES;
            if !self.is_taken && self.counts[source] > 0 {
                self.counts[source] -= 1;
                self.next = source + 1;
                self.is_taken = true;
                return Some(source);
            }
        }
        None
    }
}

/// The lanes of a node.
#[derive(Clone, Copy)]
struct Lanes {
    lanes: [Lane; LANES],
    // the lane from which on a ready one is looked for
    next: usize,
    // how many nodes may still send
    open: u32,
}

impl Lanes {
    /// Whether a lane is ready.
    fn is_ready(&self) -> bool {
        self.lanes.iter().any(|lane| lane.is_ready())
    }

    /// The turn of the first lane that is ready, from the next one on.
    fn take(&mut self) -> Option<Turn> {
        let first = self.next % LANES;
        for step in 0..LANES {
            let lane = (first + step) % LANES;
            if let Some(source) = self.lanes[lane].take() {
                self.next = lane + 1;
                return Some(Turn { lane, source });
            }
        }
        None
    }
}

/// The turns at a node: each lane that has a message has its turn, one message at a time, so that a lane's messages are handed in one after
/// another.
#[derive(Drop)]
pub struct Turns {
    lanes: Mutex<Lanes>,
    // a lane is ready, or no node may send any more
    changed: Condvar,
}

impl Turns {
    /// No lane has a message, and so many nodes may send.
    pub fn new(open: u32) -> Turns {
        Turns {
            lanes: Mutex::new(Lanes {
                lanes: array::from_fn(|_| Lane::new()),
                next: 0,
                open,
            }),
            changed: Condvar::new(),
        }
    }

    /// The lane has one message more from the node.
    pub fn add<R: Wait>(&self, rt: &R, lane: usize, source: usize) {
        let mut lanes = self.lanes.lock(rt);
        if lane < LANES && source < SOURCES {
            let count = lanes.lanes[lane].counts[source];
            lanes.lanes[lane].counts[source] = count.saturating_add(1);
        }
        drop(lanes);
        self.changed.notify_one();
    }

    /// A node sends no more.
    pub fn close<R: Wait>(&self, rt: &R) {
        let mut lanes = self.lanes.lock(rt);
        lanes.open = lanes.open.saturating_sub(1);
        drop(lanes);
        self.changed.notify_all();
    }

    /// The next turn, once a lane is ready. `None` once no node may send and none is: what a lane has whose message is being handed in is
    /// left to who does that.
    pub fn next<R: Wait>(&self, rt: &R) -> Option<Turn> {
        let mut lanes = self.changed.wait_while(rt, self.lanes.lock(rt), |lanes| {
            lanes.open > 0 && !lanes.is_ready()
        });
        let turn = lanes.take();
        let is_ready = lanes.is_ready();
        drop(lanes);
        if is_ready {
            self.changed.notify_one();
        }
        turn
    }

    /// The message of the turn was handed in.
    pub fn end<R: Wait>(&self, rt: &R, turn: Turn) {
        let mut lanes = self.lanes.lock(rt);
        if turn.lane < LANES {
            lanes.lanes[turn.lane].is_taken = false;
        }
        drop(lanes);
    }
}

/// The lane of the job's messages.
pub fn lane_of(job: JobNo) -> usize
    ensures { result < 16 }
{
    job.0 as usize % LANES
}
