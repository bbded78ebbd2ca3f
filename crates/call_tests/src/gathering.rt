//! Receipts that an actor gathers, of which the journal denies some.
use crate::actors::actor;
use crate::calls::{JOB, admit, answered};
use assertions::holds;
use cluster_threads::Cluster;
use memory_growth::OutOfMemory;
use node_gate::JournaledNode;
use obj_id::{Command, Reply};
use shared_nodes::{ReceiptBuffer, SharedNode};
use std::alloc::Global;
use std::process::Abort;
use std::sync::Wait;

/// How many receipts are gathered: more than a buffer holds at once.
pub(crate) const GATHERED: u64 = 300;

/// How many of them are another node's.
pub(crate) const DENIED: u64 = 2;

/// Which of them are.
fn is_denied(turn: u64) -> bool {
    turn == 7 || turn == GATHERED - 1
}

/// A Usage at the one node, whose receipt is gathered as if it were the other's.
fn gather_one<K: JournaledNode, R: Wait + Abort>(
    rt: &R,
    stepped: &SharedNode<K>,
    asked: &SharedNode<K>,
    receipts: &mut ReceiptBuffer<K::Receipt>,
) -> Result<(), OutOfMemory> {
    asked.make_room(rt, receipts)?;
    let (reply, receipt) = stepped.call(rt, &mut actor(), JOB, 1, Command::Usage);
    holds!(rt; matches!(answered(rt, reply), Reply::Usage(_)));
    if let Some(receipt) = receipt {
        receipts.add(receipt);
    }
    Ok(())
}

/// Gathers so many at node 0.
fn gather<K: JournaledNode, R: Wait + Abort>(
    rt: &R,
    node: &SharedNode<K>,
    other: &SharedNode<K>,
    receipts: &mut ReceiptBuffer<K::Receipt>,
) -> Result<(), OutOfMemory> {
    for turn in 0..GATHERED {
        let stepped = if is_denied(turn) { other } else { node };
        gather_one(rt, stepped, node, receipts)?;
    }
    Ok(())
}

/// Many receipts are gathered at node 0, two of them of node 1: one that is looked for as room is made, and the last, which is looked for at the
/// end.
pub(crate) fn gather_many<K: JournaledNode, R: Wait + Abort>(
    rt: &R,
    alloc: Global,
    cluster: &Cluster<K>,
) -> Result<(), OutOfMemory> {
    let node = cluster.node(0).expect(rt, "a node");
    let other = cluster.node(1).expect(rt, "a node");
    admit(rt, node);
    admit(rt, other);
    let mut receipts = ReceiptBuffer::new(alloc);
    let gathered = gather(rt, &**node, &**other, &mut receipts);
    node.audit_all(rt, receipts);
    gathered
}
