//! While a step of one node is kept under its lock, another node steps.
ghost use Rattle.std.specs.Prelude.{◌≡◌};

use crate::actors::actor;
use crate::gates::Gate;
use crate::named::Named;
use crate::objects::admit;
use assertions::same;
use cluster_history::{ClusterShape, HistoryName};
use cluster_threads::Cluster;
use memory_growth::boxes;
use node_gate::{JournaledNode, Posted};
use node_housekeeping::Pause;
use node_journal::{Recorded, Unnamed};
use obj_id::{Command, JobNo, Quota, Reply};
use private_store::Event;
use shared_nodes::{SharedNode, Totals};
use std::alloc::Global;
use std::marker::Brand;
use std::process::Abort;
use std::sync::ledger::Ledger;
use std::sync::{Arc, Wait};
use std::test::Fail;
use std::thread::{JoinHandle, Threads};
use std::{io, thread};

const JOB: JobNo = JobNo(1);

const QUOTA: Quota = Quota {
    window: 32,
    device: 0,
};

/// The commands at node 0 pass a gate.
#[derive(Clone, Drop)]
struct KeptCommands {
    gate: Arc<Gate>,
}

impl Pause for KeptCommands {
    fn before_step(&self, node: u32, event: &Event) {
        if node == 0 && matches!(event, Event::Call { .. }) {
            self.gate.pass();
        }
    }
}

/// The receipt of a Usage, if it is answered.
fn usage_at<K: JournaledNode, P: Pause, R: Wait>(
    rt: &R,
    node: &SharedNode<K, P>,
    job: JobNo,
) -> Option<K::Receipt> {
    let (reply, receipt) = node.call(rt, &mut actor(), job, 1, Command::Usage);
    if !matches!(reply, Reply::Usage(_)) {
        return None;
    }
    receipt
}

/// The same, in a thread of its own.
fn start_usage<
    K: JournaledNode + Send + 'static,
    R: Threads + Wait + Copy + Send + 'static,
    P: Pause + Send + Sync + 'static,
>(rt: R, node: Arc<SharedNode<K, P>>, job: JobNo) -> io::Result<JoinHandle<Option<K::Receipt>>>
where
    K::Receipt: Send + 'static,
    K::Mail: Send + 'static,
    K::Posted: Send + 'static,
    <K::Posted as Posted>::Directory: Send + 'static,
    K::Erase: Send + 'static,
    K::Entered: Send + 'static,
    K::Prepared: Send + 'static,
    K::Gone: Send + 'static,
{
    let call = move || usage_at(&rt, &*node, job);
    Ok(thread::spawn(&rt, call)?)
}

/// A command at a node is kept until one at another node is answered.
fn step_beside<
    K: JournaledNode + Send + 'static,
    R: Threads + Wait + Abort + Copy + Send + 'static,
>(rt: R, cluster: &Cluster<K, KeptCommands>, gate: &Gate) -> io::Result<()>
where
    K::Receipt: Named + Send + 'static,
    K::Mail: Send + 'static,
    K::Posted: Send + 'static,
    <K::Posted as Posted>::Directory: Send + 'static,
    K::Erase: Send + 'static,
    K::Entered: Send + 'static,
    K::Prepared: Send + 'static,
    K::Gone: Send + 'static,
{
    let kept = cluster.node(0).expect(&rt, "a node");
    let other = cluster.node(1).expect(&rt, "a node");
    admit(&rt, kept, JOB, QUOTA);
    admit(&rt, other, JOB, QUOTA);
    let calling = start_usage(rt, boxes::another(kept)?, JOB)?;
    let is_reached = gate.await_arrival();
    let beside = usage_at(&rt, other, JOB).map(|receipt| receipt.named().0);
    let is_kept = gate.open();
    let at_last = calling.join(&rt).map(|receipt| receipt.named().0);
    same!(rt; (is_reached, is_kept, beside, at_last), (true, true, Some(1), Some(0)));
    Ok(())
}

/// The same, at two nodes of their own under the name: what the report says then.
fn try_at<
    L: Ledger + HistoryName + Send + Sync + 'static,
    S: ClusterShape + Send + Sync + 'static,
    R: Threads + Wait + Abort + Copy + Send + 'static,
>(
    rt: R,
    alloc: Global,
    gate: &Arc<Gate>,
    pause: KeptCommands,
    unnamed: Unnamed<S>,
) -> io::Result<Totals>
    requires nodes { 2 ≡ S.nodes }
    requires memory { 1024 ≡ S.memory }
    requires name { (unnamed.blank.name ≡ L.name) × (unnamed.blank.parts ≡ L.parts) }
    requires book { unnamed.opened.seen.book ≡ L.book }
    requires all { unnamed.opened.nodes ≡ S.nodes }
{
    let seats = unnamed.named::<L>();
    let cluster = Cluster::<Recorded<L, S>, _>::start(alloc, 2, 1024, seats, pause)?;
    let stepped = step_beside(rt, &cluster, gate);
    let report = cluster.close(&rt, Vec::new(alloc)).totals();
    stepped?;
    Ok(report)
}

/// The same, of this shape.
fn try_shaped<
    S: ClusterShape + Send + Sync + 'static,
    R: Threads + Wait + Abort + Copy + Send + 'static,
>(rt: R, alloc: Global) -> io::Result<Totals>
    requires nodes { 2 ≡ S.nodes }
    requires memory { 1024 ≡ S.memory }
{
    let gate = boxes::counted(alloc, Gate::new())?;
    let pause = KeptCommands {
        gate: boxes::another(&gate)?,
    };
    try_at::<Brand, S, R>(rt, alloc, &gate, pause, Unnamed::new(2))
}

/// The same, under a new name.
fn try_out<R: Threads + Wait + Abort + Copy + Send + 'static>(
    rt: R,
    alloc: Global,
) -> io::Result<Totals> {
    try_shaped::<Brand, R>(rt, alloc)
}

#[test]
fn a_node_steps_while_a_step_of_another_one_is_kept(rt: HostRuntime) -> Result<(), Fail> {
    let report = try_out(rt, rt.alloc())?;
    same!(rt; (report.entries, report.disagreeing, report.lost), (4, 0, 0));
    Ok(())
}
