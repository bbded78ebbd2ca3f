//! Two sessions of one job at a node.
use crate::actors::actor;
use crate::objects::{KEY, admit, is_hello, object, seal_hello};
use crate::trials::{Trial, try_out};
use assertions::{holds, same};
use memory_growth::OutOfMemory;
use node_gate::JournaledNode;
use obj_id::{Command, JobNo, Quota, Refusal, Reply};
use session_engine::Gate;
use session_threads::Session;
use shared_nodes::SharedNode;
use std::alloc::Global;
use std::process::Abort;
use std::sync::Wait;
use std::test::Fail;
use std::time::Clock;

const JOB: JobNo = JobNo(1);

const QUOTA: Quota = Quota {
    window: 32,
    device: 0,
};

/// The holder reads on after the other session's end, and no more after its own.
fn hold_beside<G: Gate, H: Gate>(rt: &impl Abort, holding: &mut G, ending: &mut H) {
    let id = object(rt, JOB, 1);
    let holder = holding.enter(JOB, KEY).expect(rt, "a session");
    let other = ending.enter(JOB, KEY).expect(rt, "a session");
    holds!(rt; matches!(holding.call(JOB, holder, Command::Get(id)), Reply::Got(20)));
    ending.leave(JOB, other);
    holds!(rt; is_hello(&holding.call(JOB, holder, Command::Read { id, offset: 0, count: 20 })));
    holding.leave(JOB, holder);
    let reply = holding.call(
        JOB,
        holder,
        Command::Read {
            id,
            offset: 0,
            count: 20,
        },
    );
    holds!(rt; matches!(reply, Reply::Refused(Refusal::NotHeld)));
    same!(rt; (holder, other), (1, 2));
}

/// One session holds an object, and the other one ends.
pub(crate) fn two_sessions<K: JournaledNode, R: Wait + Clock + Abort>(
    rt: &R,
    alloc: Global,
    node: &SharedNode<K>,
) -> Result<(), OutOfMemory> {
    admit(rt, node, JOB, QUOTA);
    seal_hello(rt, alloc, node, object(rt, JOB, 1))?;
    let mut holding = Session::new(rt, actor(), node);
    let mut ending = Session::new(rt, actor(), node);
    hold_beside(rt, &mut holding, &mut ending);
    holding.end();
    ending.end();
    Ok(())
}

#[test]
fn a_hold_stands_when_another_session_ends(rt: HostRuntime) -> Result<(), Fail> {
    let report = try_out(rt, rt.alloc(), &Trial::TwoSessions)?;
    // the admission, three of a direct caller, and of the sessions three and two Leaves
    same!(rt; (report.entries, report.receipts, report.disagreeing), (9, 6, 0));
    Ok(())
}
