//! The sessions of a node that are to be left later.
ghost use Rattle.std.specs.Prelude.{◌≡◌};

use memory_growth::lists;
use std::alloc::Global;
use std::snapshot::Snapshot;
use std::sync::atomic::{AtomicBool, Ordering};
use std::sync::{Mutex, Wait};

/// The sessions that a node has at most, open and marked ones together.
pub const MOST_SESSIONS: usize = 1_024;

/// That a session was marked, to be left later. Only `MarkedSessions::mark` makes one. Clauses see what the node let the session in with. Takes
/// no bytes.
#[derive(Drop)]
pub struct Marked<N> {
    of: Snapshot<N>,
}

/// The sessions that found no memory to be left, in the order in which they are tried, as the node let them in. There is room for all that are
/// open.
#[derive(Drop)]
pub struct MarkedSessions<N> {
    marked: Mutex<Vec<N>>,
    // whether some are marked, so that each command doesn't lock them to see that none is
    are_marked: AtomicBool,
}

impl<N: Drop> MarkedSessions<N> {
    /// None is marked.
    pub fn new(alloc: Global) -> MarkedSessions<N> {
        MarkedSessions {
            marked: Mutex::new(Vec::new(alloc)),
            are_marked: AtomicBool::new(false),
        }
    }

    /// Makes the room for the mark of one session more, while so many are open: whether it could. There may not be as many as that.
    pub(crate) fn make_room<R: Wait>(&self, rt: &R, open: usize) -> bool {
        let mut marked = self.marked.lock(rt);
        if open >= MOST_SESSIONS - marked.len().min(MOST_SESSIONS) {
            return false;
        }
        lists::reserve(&mut *marked, open + 1).is_ok()
    }

    /// Marks a session: it is to be left later, after those that are marked. One that wasn't opened may find no room, and is then never left.
    pub fn mark<R: Wait>(&self, rt: &R, entered: N) -> Marked<N>
        ensures { result.of.value ≡ entered }
    {
        let of = Snapshot::of(&entered);
        let mut marked = self.marked.lock(rt);
        let _ = lists::push(&mut *marked, entered);
        self.tell_marked(&*marked);
        Marked { of }
    }

    /// Whether some are marked. Takes no lock.
    pub fn are_marked(&self) -> bool {
        self.are_marked.load(Ordering::SeqCst)
    }

    /// Takes out the session that was marked first: it is left now, or marked again.
    pub fn take_marked<R: Wait>(&self, rt: &R) -> Option<N> {
        let mut marked = self.marked.lock(rt);
        if marked.is_empty() {
            return None;
        }
        let entered = marked.remove(0);
        self.tell_marked(&*marked);
        Some(entered)
    }

    /// Tells whether some are marked, while they are locked.
    fn tell_marked(&self, marked: &[N]) {
        self.are_marked.store(!marked.is_empty(), Ordering::SeqCst);
    }
}
