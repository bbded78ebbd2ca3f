//! What may pause the steps of nodes, so that a test can keep a node under its lock.
use private_store::Event;

/// Pauses each step that a session, the operator or a worker asks for, under its node's lock and right before the step. It only pauses: no
/// contract speaks of it. It is passed no handle, so one that may wait for ever has to hold its own. Arrivals aren't paused.
pub trait Pause: Clone {
    /// The node of this number is about to step the event.
    fn before_step(&self, node: u32, event: &Event);
}

/// Pauses nothing: what a program passes.
#[derive(Clone, Copy, Drop)]
pub struct NoPause;

impl Pause for NoPause {
    fn before_step(&self, _node: u32, _event: &Event) {}
}
