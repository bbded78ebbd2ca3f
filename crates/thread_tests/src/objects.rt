//! Jobs and their objects at a node, called as a direct caller does.
use crate::actors::actor;
use assertions::holds;
use bytes::Bytes;
use memory_growth::{OutOfMemory, lists, shared};
use node_gate::JournaledNode;
use node_housekeeping::Pause;
use obj_id::{Command, JobKey, JobNo, Kind, ObjectId, Quota, Reply, TaskNo};
use shared_nodes::SharedNode;
use std::alloc::Global;
use std::process::Abort;
use std::sync::Wait;

pub(crate) const KEY: JobKey = JobKey([0; 32]);

/// The job's object of this index.
pub(crate) fn object(rt: &impl Abort, job: JobNo, index: u32) -> ObjectId {
    ObjectId::new(TaskNo([0; 20]), job, index).expect(rt, "an id")
}

/// Admits the job: it isn't refused.
pub(crate) fn admit<K: JournaledNode, P: Pause, R: Wait + Abort>(
    rt: &R,
    node: &SharedNode<K, P>,
    job: JobNo,
    quota: Quota,
) {
    let (reply, _) = node.admit(rt, &mut actor(), job, quota, KEY);
    holds!(rt; matches!(reply, Reply::Ok));
}

/// The answer to a command of the job's first session.
pub(crate) fn response<K: JournaledNode, R: Wait>(
    rt: &R,
    node: &SharedNode<K>,
    job: JobNo,
    command: Command<Bytes>,
) -> Reply<Bytes> {
    node.call(rt, &mut actor(), job, 1, command).0
}

/// Creates an object of 20 bytes, writes the first five of them, and seals it: none of it is refused.
pub(crate) fn seal_hello<K: JournaledNode, R: Wait + Abort>(
    rt: &R,
    alloc: Global,
    node: &SharedNode<K>,
    id: ObjectId,
) -> Result<(), OutOfMemory> {
    let hello = shared::from_vec(lists::copied(alloc, b"Hello")?)?;
    let job = id.job();
    holds!(rt; matches!(response(rt, node, job, Command::Create { id, kind: Kind::Primary, length: 20 }), Reply::Placed(_, 32)));
    holds!(rt; matches!(response(rt, node, job, Command::Write { id, offset: 0, bytes: hello }), Reply::Ok));
    holds!(rt; matches!(response(rt, node, job, Command::Seal(id)), Reply::Ok));
    Ok(())
}

/// Whether the reply is the bytes of that object.
pub(crate) fn is_hello(reply: &Reply<Bytes>) -> bool {
    let hello = b"Hello\0\0\0\0\0\0\0\0\0\0\0\0\0\0\0";
    matches!(reply, Reply::Bytes(bytes) if bytes.as_slice() == hello.as_slice())
}
