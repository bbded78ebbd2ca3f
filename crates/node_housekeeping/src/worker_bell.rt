//! What wakes a node's worker.
use std::sync::{Condvar, Mutex, Wait};

/// What a worker is asked for.
#[derive(Drop)]
struct BellState {
    /// A round: a work waits, or a key, or an answer that found no memory.
    round: bool,
    /// Its end.
    end: bool,
}

/// Wakes a worker for a round, or for its end.
#[derive(Drop)]
pub struct WorkerBell {
    asked: Mutex<BellState>,
    rung: Condvar,
}

impl WorkerBell {
    /// Nothing was asked for.
    pub fn new() -> WorkerBell {
        WorkerBell {
            asked: Mutex::new(BellState {
                round: false,
                end: false,
            }),
            rung: Condvar::new(),
        }
    }

    /// Asks for a round.
    pub fn ask<R: Wait>(&self, rt: &R) {
        self.asked.lock(rt).round = true;
        self.rung.notify_all();
    }

    /// Asks the worker to end.
    pub fn end<R: Wait>(&self, rt: &R) {
        self.asked.lock(rt).end = true;
        self.rung.notify_all();
    }

    /// Waits until a round is asked for, which is then asked for no longer, or the worker is to end: false then.
    pub fn await_round<R: Wait>(&self, rt: &R) -> bool {
        let asked = self.asked.lock(rt);
        let mut asked = self
            .rung
            .wait_while(rt, asked, |asked| !asked.round && !asked.end);
        asked.round = false;
        !asked.end
    }
}
