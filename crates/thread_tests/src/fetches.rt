//! What is sealed at one node is fetched at another one, and a message that finds no room is counted.
use crate::actors::actor;
use crate::named::Named;
use crate::objects::{admit, is_hello, object, response, seal_hello};
use crate::trials::{Trial, try_out};
use assertions::{holds, same};
use memory_growth::OutOfMemory;
use node_gate::JournaledNode;
use obj_id::{Command, JobNo, Quota, Refusal, Reply};
use private_store::Awaited;
use shared_nodes::SharedNode;
use std::alloc::Global;
use std::process::Abort;
use std::sync::Wait;
use std::test::Fail;
use std::time::Clock;

const JOB: JobNo = JobNo(1);

const QUOTA: Quota = Quota {
    window: 64,
    device: 0,
};

/// How many messages a link holds that nobody receives.
const MOST_IN_LINK: u64 = 1_024;

/// How many more are sent.
const TOO_MANY: u64 = 3;

/// Asks for the object at the node until it is there, and reads it.
fn get_and_read<K: JournaledNode, R: Wait + Clock + Abort>(rt: &R, node: &SharedNode<K>)
where
    K::Receipt: Named,
{
    let id = object(rt, JOB, 1);
    let (reply, receipt) = node.call_wait(rt, &mut actor(), JOB, 1, Awaited::Get(id));
    holds!(rt; matches!(reply, Reply::Got(20)));
    same!(rt; receipt.map(|receipt| receipt.named().0), Some(1));
    holds!(rt; is_hello(&response(rt, node, JOB, Command::Read { id, offset: 0, count: 20 })));
}

/// The job is admitted at both nodes, and seals an object at the first.
fn begin<K: JournaledNode, R: Wait + Abort>(
    rt: &R,
    alloc: Global,
    sealing: &SharedNode<K>,
    fetching: &SharedNode<K>,
) -> Result<(), OutOfMemory> {
    admit(rt, sealing, JOB, QUOTA);
    admit(rt, fetching, JOB, QUOTA);
    seal_hello(rt, alloc, sealing, object(rt, JOB, 1))
}

/// An object is fetched at a node that is connected with the one where it was sealed.
pub(crate) fn fetch<K: JournaledNode, R: Wait + Clock + Abort>(
    rt: &R,
    alloc: Global,
    sealing: &SharedNode<K>,
    fetching: &SharedNode<K>,
) -> Result<(), OutOfMemory>
where
    K::Receipt: Named,
{
    begin(rt, alloc, sealing, fetching)?;
    get_and_read(rt, fetching);
    Ok(())
}

/// Asks for the object again and again: each time but the first it asks the other node for the chunks, too.
fn ask_often<K: JournaledNode, R: Wait + Abort>(rt: &R, node: &SharedNode<K>) {
    let id = object(rt, JOB, 1);
    for _ in 0..1 + MOST_IN_LINK + TOO_MANY {
        let reply = response(rt, node, JOB, Command::Get(id));
        holds!(rt; matches!(reply, Reply::Refused(Refusal::Pending)));
    }
}

/// It is asked for at a node from which nobody receives.
pub(crate) fn ask_beside<K: JournaledNode, R: Wait + Abort>(
    rt: &R,
    alloc: Global,
    sealing: &SharedNode<K>,
    fetching: &SharedNode<K>,
) -> Result<(), OutOfMemory> {
    begin(rt, alloc, sealing, fetching)?;
    ask_often(rt, fetching);
    Ok(())
}

#[test]
fn an_object_is_fetched_by_a_call_that_waits(rt: HostRuntime) -> Result<(), Fail> {
    let report = try_out(rt, rt.alloc(), &Trial::Fetch)?;
    same!(rt; (report.disagreeing, report.lost, report.erase_failures), (0, 0, 0));
    Ok(())
}

#[test]
fn a_message_that_finds_its_link_full_is_counted(rt: HostRuntime) -> Result<(), Fail> {
    let report = try_out(rt, rt.alloc(), &Trial::FullLink)?;
    same!(rt; (report.disagreeing, report.lost), (0, TOO_MANY));
    Ok(())
}
