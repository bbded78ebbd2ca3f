//! The threads that hand in what comes to a node.
use node_gate::{JournaledNode, Posted};
use node_housekeeping::Pause;
use node_links::{Inbox, end_turn};
use shared_nodes::{ReceiptBuffer, SharedNode};
use std::sync::{Arc, Wait};
use std::thread::{JoinHandle, Threads};
use std::{io, thread};

/// Hands the messages that come to the node in, in a thread of its own, until no node sends any more.
pub(crate) fn receive<
    K: JournaledNode + Send + 'static,
    R: Threads + Wait + Copy + Send + 'static,
    P: Pause + Send + Sync + 'static,
>(rt: R, node: Arc<SharedNode<K, P>>, inbox: Arc<Inbox<K::Posted>>) -> io::Result<JoinHandle<()>>
where
    K::Receipt: Send + 'static,
    K::Mail: Send + 'static,
    K::Posted: Send + 'static,
    <K::Posted as Posted>::Directory: Send + 'static,
    K::Erase: Send + 'static,
    K::Entered: Send + 'static,
    K::Prepared: Send + 'static,
    K::Gone: Send + 'static,
{
    let job = move || receive_all(&rt, &*node, &*inbox);
    let thread = thread::spawn(&rt, job)?;
    Ok(thread)
}

/// Hands the messages in whose turn it is, until no node sends any more. A turn can't be ended before its message has arrived or is counted as
/// lost.
fn receive_all<K: JournaledNode, P: Pause, R: Wait>(
    rt: &R,
    node: &SharedNode<K, P>,
    inbox: &Inbox<K::Posted>,
) {
    let mut receipts = ReceiptBuffer::new(node.upkeep().alloc);
    for _ in rt.forever() {
        let Some((posted, handing)) = inbox.next(rt) else {
            break;
        };
        let lost = node.receive_one(rt, posted, &mut receipts);
        end_turn::<K, R>(rt, inbox, handing, lost, receipts.last());
    }
    node.audit_all(rt, receipts);
}
