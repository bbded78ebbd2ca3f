//! The threads of workers.
use memory_growth::boxes;
use node_gate::{Actor, ActorSource, JournaledNode, Posted};
use node_housekeeping::{NoPause, Pause, WorkDone, WorkerBell};
use shared_nodes::{ReceiptBuffer, SharedNode};
use spill_device::SpillDevice;
use std::sync::{Arc, Wait};
use std::thread::{JoinHandle, Threads};
use std::time::{Clock, Duration};
use std::{io, thread};

/// How long a worker rests after a step that found no memory, in milliseconds.
const REST: u64 = 10;

/// A worker of a node in a thread.
#[derive(Drop)]
pub struct Working<K: JournaledNode, P = NoPause> {
    node: Arc<SharedNode<K, P>>,
    thread: JoinHandle<()>,
}

impl<K: JournaledNode, P: Pause> Working<K, P> {
    /// Waits for the worker, which erases the keys that wait. Works that nobody has taken by then are left.
    pub fn end<R: Threads + Wait>(self, rt: &R) {
        let Working { node, thread } = self;
        node.upkeep().bell.end(rt);
        thread.join(rt);
    }
}

/// Lets a worker carry out the works of the node on the device, in a thread of its own, until it is ended.
pub fn work<
    K: JournaledNode + Send + 'static,
    R: Threads + Wait + Clock + Copy + Send + 'static,
    P: Pause + Send + Sync + 'static,
    D: SpillDevice + Drop + Send + 'static,
>(rt: R, actors: ActorSource, node: Arc<SharedNode<K, P>>, device: D) -> io::Result<Working<K, P>>
where
    K::Receipt: Send + 'static,
    K::Mail: Send + 'static,
    K::Posted: Send + 'static,
    <K::Posted as Posted>::Directory: Send + 'static,
    K::Erase: Send + 'static,
    K::Entered: Send + 'static,
    K::Prepared: Send + 'static,
    K::Gone: Send + 'static,
{
    let theirs = boxes::another(&node)?;
    let job = move || work_all(&rt, actors.actor(), &*theirs, device);
    let thread = thread::spawn(&rt, job)?;
    Ok(Working { node, thread })
}

/// Carries out the works of the node by this actor until the worker is to end, and erases the keys that are left.
fn work_all<K: JournaledNode, P: Pause, R: Wait + Clock, D: SpillDevice + Drop>(
    rt: &R,
    actor: Actor,
    node: &SharedNode<K, P>,
    device: D,
) {
    let mut device = device;
    let mut actor = actor;
    let mut kept = None;
    let mut receipts = ReceiptBuffer::new(node.upkeep().alloc);
    for _ in rt.forever() {
        if !node.upkeep().bell.await_round(rt) {
            break;
        }
        let done = node.round(rt, &mut actor, &mut device, &mut kept, &mut receipts);
        go_on(rt, &node.upkeep().bell, done);
    }
    node.erase_keys(rt, &mut device);
    node.audit_all(rt, receipts);
}

/// Asks for another round after one that came to something: more may wait. One that found no memory rests first.
fn go_on<R: Wait + Clock>(rt: &R, bell: &WorkerBell, done: WorkDone) {
    if done == WorkDone::NoMemory {
        thread::sleep(rt, Duration::from_millis(REST));
    }
    if done != WorkDone::Nothing {
        bell.ask(rt);
    }
}
