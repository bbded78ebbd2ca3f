//! Places at which one thread is kept until another one lets it go on.
use std::sync::atomic::{AtomicBool, Ordering};
use std::thread;

/// How often a thread looks at a flag before it gives up.
const MOST_TURNS: u32 = 10_000_000;

/// A gate, which is closed until it is opened.
#[derive(Drop)]
pub(crate) struct Gate {
    is_reached: AtomicBool,
    is_open: AtomicBool,
    is_given_up: AtomicBool,
}

impl Gate {
    /// A closed gate, at which nobody is.
    pub(crate) fn new() -> Gate {
        Gate {
            is_reached: AtomicBool::new(false),
            is_open: AtomicBool::new(false),
            is_given_up: AtomicBool::new(false),
        }
    }

    /// Comes to the gate, and waits until it is open. Who waits too long gives up, and goes on.
    pub(crate) fn pass(&self) {
        self.is_reached.store(true, Ordering::SeqCst);
        if !is_set_in_time(&self.is_open) {
            self.is_given_up.store(true, Ordering::SeqCst);
        }
    }

    /// Waits until somebody has come to the gate: whether one has, in time.
    pub(crate) fn await_arrival(&self) -> bool {
        is_set_in_time(&self.is_reached)
    }

    /// Opens the gate for good: whether nobody had given up before.
    pub(crate) fn open(&self) -> bool {
        let is_kept = !self.is_given_up.load(Ordering::SeqCst);
        self.is_open.store(true, Ordering::SeqCst);
        is_kept
    }
}

/// Whether the flag is set before too many looks at it.
fn is_set_in_time(flag: &AtomicBool) -> bool {
    for _ in 0..MOST_TURNS {
        if flag.load(Ordering::SeqCst) {
            return true;
        }
        thread::yield_now();
    }
    false
}
