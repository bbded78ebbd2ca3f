//! The sessions of a node that are open.
ghost use Rattle.std.specs.Prelude.{◌≡◌};

use crate::marked_sessions::MarkedSessions;
use std::sync::{Condvar, Mutex, Wait};

/// How many sessions of a node are open, and who waits for their end.
#[derive(Drop)]
pub struct OpenSessions {
    // those that haven't ended
    open: Mutex<usize>,
    ended: Condvar,
}

/// How many sessions of a node were open when they were counted. Only `OpenSessions::count` makes one.
#[derive(Clone, Copy)]
pub struct CountedSessions {
    node: u32,
    sessions: usize,
}

impl CountedSessions {
    /// How many they were.
    pub fn sessions(&self) -> usize
        ensures { result ≡ self.now.sessions }
    {
        self.sessions
    }
}

impl OpenSessions {
    /// None is open.
    pub fn new() -> OpenSessions {
        OpenSessions {
            open: Mutex::new(0),
            ended: Condvar::new(),
        }
    }

    /// A session begins, unless there are as many as may be or there is no memory for its mark: whether it does.
    pub fn begin<R: Wait, N: Drop>(&self, rt: &R, marked: &MarkedSessions<N>) -> bool {
        let mut open = self.open.lock(rt);
        // under the lock, so that nobody else takes the place or the room
        let begins = marked.make_room(rt, *open);
        if begins {
            *open = open.saturating_add(1);
        }
        begins
    }

    /// A session has ended.
    pub fn end<R: Wait>(&self, rt: &R) {
        let mut open = self.open.lock(rt);
        *open = open.saturating_sub(1);
        drop(open);
        self.ended.notify_all();
    }

    /// Counts those that are open, at the node of this number.
    pub fn count<R: Wait>(&self, rt: &R, node: u32) -> CountedSessions
        ensures { result.node ≡ node }
    {
        CountedSessions {
            node,
            sessions: *self.open.lock(rt),
        }
    }

    /// Waits for the open sessions to end.
    pub fn wait_for_all<R: Wait>(&self, rt: &R) {
        let open = self
            .ended
            .wait_while(rt, self.open.lock(rt), |open| *open > 0);
        drop(open);
    }
}
