//! What a worker does with a device that fails, and what the directory is sent.
use crate::actors::actor;
use crate::calls::{JOB, admit_with, answered, object};
use assertions::{holds, same};
use bytes::Bytes;
use cluster_threads::Cluster;
use node_gate::JournaledNode;
use node_housekeeping::WorkDone;
use obj_id::{Command, Kind, ObjectId, Quota, Refusal, Reply};
use shared_nodes::SharedNode;
use spill_device::{FaultyDevice, MemoryDevice, SpillDevice};
use std::alloc::Global;
use std::process::Abort;
use std::sync::Wait;

/// Room for one object of 32 bytes, and for one on the device.
const ONE: Quota = Quota {
    window: 32,
    device: 32,
};

/// What a session asks for.
#[derive(Drop)]
enum Asked {
    Create(ObjectId, u32),
    Seal(ObjectId),
    Get(ObjectId),
    Delete(ObjectId),
}

fn command(asked: &Asked) -> Command<Bytes> {
    match asked {
        Asked::Create(id, length) => Command::Create {
            id: *id,
            kind: Kind::Primary,
            length: *length,
        },
        Asked::Seal(id) => Command::Seal(*id),
        Asked::Get(id) => Command::Get(*id),
        Asked::Delete(id) => Command::Delete(*id),
    }
}

/// The answer, unless it is that memory ran out: that ends the test.
fn response<K: JournaledNode, R: Wait + Abort>(
    rt: &R,
    node: &SharedNode<K>,
    asked: &Asked,
) -> Reply<Bytes> {
    answered(rt, node.call(rt, &mut actor(), JOB, 1, command(asked)).0)
}

/// The first object is in the way of the second: a write of it that failed is answered once, and then it is written.
fn spill_the_first<K: JournaledNode, R: Wait + Abort, D: SpillDevice>(
    rt: &R,
    node: &SharedNode<K>,
    device: &mut D,
) {
    let (first, second) = (object(rt, 1), object(rt, 2));
    holds!(rt; matches!(response(rt, node, &Asked::Create(first, 32)), Reply::Placed(0, 32)));
    holds!(rt; matches!(response(rt, node, &Asked::Seal(first)), Reply::Ok));
    holds!(rt; matches!(response(rt, node, &Asked::Create(second, 16)), Reply::Refused(Refusal::Pending)));
    same!(rt; node.work_once(rt, &mut actor(), device, &mut None), WorkDone::Done);
    holds!(rt; matches!(response(rt, node, &Asked::Create(second, 16)), Reply::Refused(Refusal::DeviceFailed)));
    holds!(rt; matches!(response(rt, node, &Asked::Create(second, 16)), Reply::Refused(Refusal::Pending)));
    same!(rt; node.work_once(rt, &mut actor(), device, &mut None), WorkDone::Done);
    holds!(rt; matches!(response(rt, node, &Asked::Create(second, 16)), Reply::Placed(0, 16)));
}

/// The second object makes way, and the first comes back from the device.
fn restore_the_first<K: JournaledNode, R: Wait + Abort, D: SpillDevice>(
    rt: &R,
    node: &SharedNode<K>,
    device: &mut D,
) {
    let (first, second) = (object(rt, 1), object(rt, 2));
    holds!(rt; matches!(response(rt, node, &Asked::Delete(second)), Reply::Ok));
    holds!(rt; matches!(response(rt, node, &Asked::Get(first)), Reply::Refused(Refusal::Pending)));
    same!(rt; node.work_once(rt, &mut actor(), device, &mut None), WorkDone::Done);
    holds!(rt; matches!(response(rt, node, &Asked::Get(first)), Reply::Got(32)));
    same!(rt; node.work_once(rt, &mut actor(), device, &mut None), WorkDone::Nothing);
}

/// Nine commands, an admission, and three works, each taken and finished, at a device that fails once.
pub(crate) fn work_at_a_failing_device<K: JournaledNode, R: Wait + Abort>(
    rt: &R,
    alloc: Global,
    cluster: &Cluster<K>,
) {
    let node = cluster.node(0).expect(rt, "a node");
    let mut device = FaultyDevice::new(MemoryDevice::new(alloc), 1);
    admit_with(rt, node, ONE);
    spill_the_first(rt, node, &mut device);
    restore_the_first(rt, node, &mut device);
    same!(rt; device.failures(), 1);
}

/// What node 1 is answered, asked twice, of an object that was sealed and deleted at node 0.
pub(crate) fn ask_for_deleted<K: JournaledNode, R: Wait + Abort>(
    rt: &R,
    cluster: &Cluster<K>,
) -> Reply<Bytes> {
    let first = object(rt, 1);
    let node = cluster.node(0).expect(rt, "a node");
    admit_with(rt, node, ONE);
    holds!(rt; matches!(response(rt, node, &Asked::Create(first, 32)), Reply::Placed(0, 32)));
    holds!(rt; matches!(response(rt, node, &Asked::Seal(first)), Reply::Ok));
    holds!(rt; matches!(response(rt, node, &Asked::Delete(first)), Reply::Ok));
    let node = cluster.node(1).expect(rt, "a node");
    admit_with(rt, node, ONE);
    holds!(rt; matches!(response(rt, node, &Asked::Get(first)), Reply::Refused(Refusal::Pending)));
    response(rt, node, &Asked::Get(first))
}

/// What node 1 is answered, asked twice, of an object that was sealed at node 0, if its links are closed: what asks node 0 for it is lost.
pub(crate) fn ask_by_a_closed_link<K: JournaledNode, R: Wait + Abort>(
    rt: &R,
    cluster: &Cluster<K>,
) -> Reply<Bytes> {
    let first = object(rt, 1);
    let node = cluster.node(0).expect(rt, "a node");
    admit_with(rt, node, ONE);
    holds!(rt; matches!(response(rt, node, &Asked::Create(first, 32)), Reply::Placed(0, 32)));
    holds!(rt; matches!(response(rt, node, &Asked::Seal(first)), Reply::Ok));
    let node = cluster.node(1).expect(rt, "a node");
    admit_with(rt, node, ONE);
    node.close_ways(rt);
    holds!(rt; matches!(response(rt, node, &Asked::Get(first)), Reply::Refused(Refusal::Pending)));
    response(rt, node, &Asked::Get(first))
}
