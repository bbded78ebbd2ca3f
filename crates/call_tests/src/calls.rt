//! Calls at nodes behind locks, with the receipts that they give.
use crate::actors::actor;
use crate::named::Named;
use assertions::{holds, same};
use bytes::Bytes;
use cluster_threads::Cluster;
use memory_growth::{OutOfMemory, lists, shared, texts};
use node_gate::JournaledNode;
use obj_id::{Command, JobKey, JobNo, Kind, ObjectId, Quota, Refusal, Reply, TaskNo};
use private_store::StepAnswer;
use schedule_text::answer_text;
use session_engine::Gate;
use session_threads::Session;
use shared_nodes::SharedNode;
use std::alloc::Global;
use std::process::Abort;
use std::sync::Wait;
use std::time::Clock;

pub(crate) const JOB: JobNo = JobNo(1);

const KEY: JobKey = JobKey([0; 32]);

const QUOTA: Quota = Quota {
    window: 64,
    device: 0,
};

/// What lies in the window, and nothing on the device.
const NARROW: Quota = Quota {
    window: 32,
    device: 0,
};

/// The job's object of this index.
pub(crate) fn object(rt: &impl Abort, index: u32) -> ObjectId {
    ObjectId::new(TaskNo([0; 20]), JOB, index).expect(rt, "an id")
}

/// The answers to the commands, in order.
const TOLD: &str = "\
placed 0 32
ok
ok
got 20
bytes 48656c6c6f000000000000000000000000000000
ok
";

/// The commands of an object that is created, filled, sealed, held, read and released.
fn command(alloc: Global, id: ObjectId, turn: u64) -> Result<Command<Bytes>, OutOfMemory> {
    match turn {
        0 => Ok(Command::Create {
            id,
            kind: Kind::Primary,
            length: 20,
        }),
        1 => {
            let hello = lists::copied(alloc, b"Hello")?;
            Ok(Command::Write {
                id,
                offset: 0,
                bytes: shared::from_vec(hello)?,
            })
        }
        2 => Ok(Command::Seal(id)),
        3 => Ok(Command::Get(id)),
        4 => Ok(Command::Read {
            id,
            offset: 0,
            count: 20,
        }),
        _ => Ok(Command::Release(id)),
    }
}

/// The answer to the command of this turn, which is called once more if memory ran out, and its receipt.
fn called<K: JournaledNode, R: Wait>(
    rt: &R,
    alloc: Global,
    node: &SharedNode<K>,
    id: ObjectId,
    turn: u64,
) -> Result<(Reply<Bytes>, Option<K::Receipt>), OutOfMemory> {
    let first = node.call(rt, &mut actor(), JOB, 1, command(alloc, id, turn)?);
    if matches!(&first.0, Reply::Refused(Refusal::NoMemory)) {
        return Ok(node.call(rt, &mut actor(), JOB, 1, command(alloc, id, turn)?));
    }
    Ok(first)
}

/// Calls the commands one after another: each answer is the one that is due, and each receipt names the next entry. The last.
fn call_all<K: JournaledNode, R: Wait + Abort>(
    rt: &R,
    alloc: Global,
    node: &SharedNode<K>,
    id: ObjectId,
) -> Result<Option<K::Receipt>, OutOfMemory>
where
    K::Receipt: Named,
{
    let mut last = None;
    let mut response = String::new(alloc);
    for turn in 0..6u64 {
        let (reply, receipt) = called(rt, alloc, node, id, turn)?;
        let text = answer_text(alloc, JOB, &StepAnswer::Response(reply))?;
        texts::push_str(&mut response, text.as_str())?;
        texts::push_str(&mut response, "\n")?;
        let named = receipt.as_ref().map(|receipt| receipt.named());
        same!(rt; named, Some((0, JOB, turn + 2)));
        last = receipt;
    }
    same!(rt; response.as_str(), TOLD);
    Ok(last)
}

/// Whether the reply says so much of what is used of the window.
fn is_used(reply: &Reply<Bytes>, bytes: u64) -> bool {
    matches!(reply, Reply::Usage(usage) if usage.window_used == bytes)
}

/// The reply, unless it is that memory ran out: that ends the test.
pub(crate) fn answered(rt: &impl Abort, reply: Reply<Bytes>) -> Reply<Bytes> {
    if matches!(&reply, Reply::Refused(Refusal::NoMemory)) {
        panic!(rt; "NoMemory");
    }
    reply
}

/// A command that is called after the receipt of an earlier one.
fn call_later<K: JournaledNode, R: Wait + Abort>(rt: &R, cluster: &Cluster<K>, earlier: &K::Receipt)
where
    K::Receipt: Named,
{
    if let Some(node) = cluster.node(0) {
        let (reply, receipt) = node.call_after(rt, &mut actor(), earlier, JOB, 1, Command::Usage);
        holds!(rt; is_used(&answered(rt, reply), 32));
        same!(rt; receipt.map(|receipt| receipt.named()), Some((0, JOB, 8)));
    }
    // another node's journal says No of it
    if let Some(node) = cluster.node(1) {
        let (reply, receipt) = node.call_after(rt, &mut actor(), earlier, JOB, 1, Command::Usage);
        holds!(rt; matches!(reply, Reply::Refused(Refusal::Stale)));
        holds!(rt; receipt.is_none());
    }
}

/// Admits the job, and once more if memory ran out.
pub(crate) fn admit<K: JournaledNode, R: Wait>(rt: &R, node: &SharedNode<K>) {
    admit_with(rt, node, QUOTA);
}

/// The same, with this quota.
pub(crate) fn admit_with<K: JournaledNode, R: Wait>(rt: &R, node: &SharedNode<K>, quota: Quota) {
    let (reply, _) = node.admit(rt, &mut actor(), JOB, quota, KEY);
    if matches!(&reply, Reply::Refused(Refusal::NoMemory)) {
        node.admit(rt, &mut actor(), JOB, quota, KEY);
    }
}

/// Ends the job, and once more if memory ran out.
fn end<K: JournaledNode, R: Wait>(rt: &R, node: &SharedNode<K>) -> Reply<Bytes> {
    let (reply, _) = node.end_job(rt, &mut actor(), JOB);
    if matches!(&reply, Reply::Refused(Refusal::NoMemory)) {
        return node.end_job(rt, &mut actor(), JOB).0;
    }
    reply
}

/// Narrows the job's window to what lies in it, and ends the job: neither is refused.
fn narrow_and_end<K: JournaledNode, R: Wait + Abort>(rt: &R, node: &SharedNode<K>) {
    holds!(rt; matches!(answered(rt, node.requota(rt, &mut actor(), JOB, NARROW).0), Reply::Ok));
    holds!(rt; matches!(end(rt, node), Reply::Ok));
}

/// Six commands of a direct caller, and one admission by the cluster, whose receipt alone it gathers.
pub(crate) fn call_six<K: JournaledNode, R: Wait + Abort>(
    rt: &R,
    alloc: Global,
    cluster: &Cluster<K>,
) -> Result<(), OutOfMemory>
where
    K::Receipt: Named,
{
    let node = cluster.node(0).expect(rt, "a node");
    admit(rt, node);
    call_all(rt, alloc, node, object(rt, 1))?;
    Ok(())
}

/// A receipt of node 0 is shown to node 1, whose journal says No of it.
fn show_to_another<K: JournaledNode, R: Wait + Abort>(
    rt: &R,
    cluster: &Cluster<K>,
    receipt: &K::Receipt,
) {
    let node = cluster.node(1).expect(rt, "a node");
    node.check(rt, receipt);
}

/// The six commands, one that shows the last receipt of them, and the operator's three orders.
pub(crate) fn call_with_receipts<K: JournaledNode, R: Wait + Abort>(
    rt: &R,
    alloc: Global,
    cluster: &Cluster<K>,
) -> Result<(), OutOfMemory>
where
    K::Receipt: Named,
{
    let node = cluster.node(0).expect(rt, "a node");
    admit(rt, node);
    let last = call_all(rt, alloc, node, object(rt, 1))?;
    let last = last.expect(rt, "a receipt");
    call_later(rt, cluster, &last);
    show_to_another(rt, cluster, &last);
    narrow_and_end(rt, node);
    Ok(())
}

/// A Release or a Get of the session, called once more if memory ran out.
fn called_again<K: JournaledNode, R: Wait>(
    rt: &R,
    node: &SharedNode<K>,
    session: u32,
    id: ObjectId,
    is_get: bool,
) -> Reply<Bytes> {
    let command = get_or_release(id, is_get);
    let (reply, _) = node.call(rt, &mut actor(), JOB, session, command);
    if matches!(&reply, Reply::Refused(Refusal::NoMemory)) {
        let command = get_or_release(id, is_get);
        return node.call(rt, &mut actor(), JOB, session, command).0;
    }
    reply
}

fn get_or_release(id: ObjectId, is_get: bool) -> Command<Bytes> {
    if is_get {
        Command::Get(id)
    } else {
        Command::Release(id)
    }
}

/// A session holds the object and ends: the hold is gone at the next step.
fn hold_and_leave<K: JournaledNode, R: Wait + Clock + Abort>(
    rt: &R,
    node: &SharedNode<K>,
    id: ObjectId,
) {
    let mut session = Session::new(rt, actor(), node);
    let number = session.enter(JOB, KEY).expect(rt, "a session");
    let reply = called_again(rt, node, number, id, true);
    holds!(rt; matches!(&reply, Reply::Got(20)));
    session.leave(JOB, number);
    session.end();
    let reply = called_again(rt, node, number, id, false);
    holds!(rt; matches!(&reply, Reply::Refused(Refusal::NotHeld)));
}

/// The same of a session that is marked: the hold is gone at the next step, before which the session is left.
fn hold_and_mark<K: JournaledNode, R: Wait + Abort>(rt: &R, node: &SharedNode<K>, id: ObjectId) {
    // makes the room for the mark
    holds!(rt; node.begin_session(rt) || node.begin_session(rt));
    let entered = node.enter(rt, JOB, &KEY).expect(rt, "a session");
    let number = K::session(&entered);
    let reply = called_again(rt, node, number, id, true);
    holds!(rt; matches!(&reply, Reply::Got(20)));
    node.leave_later(rt, entered);
    let reply = called_again(rt, node, number, id, false);
    holds!(rt; matches!(&reply, Reply::Refused(Refusal::NotHeld)));
    node.upkeep().sessions.end(rt);
}

/// Each Leave is made once: at once, or before the next step if memory ran out, as it may if the journal's list has to grow.
pub(crate) fn leave_often<K: JournaledNode, R: Wait + Clock + Abort>(
    rt: &R,
    alloc: Global,
    cluster: &Cluster<K>,
) -> Result<(), OutOfMemory>
where
    K::Receipt: Named,
{
    let node = cluster.node(0).expect(rt, "a node");
    let id = object(rt, 1);
    admit(rt, node);
    call_all(rt, alloc, node, id)?;
    for _ in 0..4u32 {
        hold_and_leave(rt, node, id);
    }
    hold_and_mark(rt, node, id);
    end(rt, node);
    Ok(())
}
