//! Trials at a new cluster, which is closed at the end of each.
ghost use Rattle.std.specs.Prelude.{◌≡◌};

use crate::direct::{live_on, six_commands};
use crate::fetches::{ask_beside, fetch};
use crate::kept_calls::call_beside;
use crate::kept_devices::DeviceCall;
use crate::named::Named;
use crate::sessions::two_sessions;
use cluster_history::{ClusterShape, HistoryName};
use cluster_threads::Cluster;
use node_gate::{JournaledNode, Posted};
use node_housekeeping::NoPause;
use node_journal::{Recorded, Unnamed};
use shared_nodes::Totals;
use std::alloc::Global;
use std::io;
use std::marker::Brand;
use std::process::Abort;
use std::sync::Wait;
use std::sync::ledger::Ledger;
use std::thread::Threads;
use std::time::Clock;

/// What is tried at a cluster whose steps nothing pauses.
#[derive(Drop)]
pub(crate) enum Trial {
    /// A job's admission and six commands of an object's life.
    SixCommands,
    /// The same, and the rest of the job's life.
    WholeJob,
    /// An object is fetched at a node that is connected with the one where it was sealed.
    Fetch,
    /// It is asked for at a node from which nobody receives.
    FullLink,
    /// One session holds an object, and another one ends.
    TwoSessions,
    /// Calls of this kind are kept, of a device that fails at the call of this number, from 1; at 0 it fails at none.
    KeptCall(DeviceCall, u64),
}

impl Trial {
    /// How many nodes it needs.
    fn nodes(&self) -> u32 {
        match self {
            Trial::Fetch | Trial::FullLink => 2,
            _ => 1,
        }
    }
}

/// Carries the trial out at the cluster, which is connected first if anything is fetched there.
fn carry_out<
    L: Ledger + HistoryName + Send + Sync + 'static,
    S: ClusterShape + Send + Sync + 'static,
    R: Threads + Wait + Clock + Abort + Copy + Send + 'static,
>(rt: R, alloc: Global, trial: &Trial, cluster: &mut Cluster<Recorded<L, S>>) -> io::Result<()> {
    if matches!(trial, Trial::Fetch) {
        cluster.connect(rt)?;
    }
    carry_out_at(rt, alloc, trial, cluster)
}

/// The same, at one that is connected.
fn carry_out_at<
    K: JournaledNode + Send + 'static,
    R: Threads + Wait + Clock + Abort + Copy + Send + 'static,
>(rt: R, alloc: Global, trial: &Trial, cluster: &Cluster<K>) -> io::Result<()>
where
    K::Receipt: Named + Send + 'static,
    K::Mail: Send + 'static,
    K::Posted: Send + 'static,
    <K::Posted as Posted>::Directory: Send + 'static,
    K::Erase: Send + 'static,
    K::Entered: Send + 'static,
    K::Prepared: Send + 'static,
    K::Gone: Send + 'static,
{
    let node = cluster.node(0).expect(&rt, "a node");
    match trial {
        Trial::SixCommands => {
            six_commands(&rt, alloc, node)?;
        }
        Trial::WholeJob => live_on(&rt, node, &six_commands(&rt, alloc, node)?),
        Trial::Fetch => fetch(&rt, alloc, node, cluster.node(1).expect(&rt, "a node"))?,
        Trial::FullLink => ask_beside(&rt, alloc, node, cluster.node(1).expect(&rt, "a node"))?,
        Trial::TwoSessions => two_sessions(&rt, alloc, node)?,
        Trial::KeptCall(kept, failing) => call_beside(rt, alloc, node, *kept, *failing)?,
    }
    Ok(())
}

/// The same, at a cluster of its own under the name: what the report says then.
fn try_at<
    L: Ledger + HistoryName + Send + Sync + 'static,
    S: ClusterShape + Send + Sync + 'static,
    R: Threads + Wait + Clock + Abort + Copy + Send + 'static,
>(rt: R, alloc: Global, trial: &Trial, nodes: u32, unnamed: Unnamed<S>) -> io::Result<Totals>
    requires nodes { nodes ≡ S.nodes }
    requires memory { 1024 ≡ S.memory }
    requires name { (unnamed.blank.name ≡ L.name) × (unnamed.blank.parts ≡ L.parts) }
    requires book { unnamed.opened.seen.book ≡ L.book }
    requires all { unnamed.opened.nodes ≡ S.nodes }
{
    let seats = unnamed.named::<L>();
    let mut cluster = Cluster::<Recorded<L, S>, _>::start(alloc, nodes, 1024, seats, NoPause)?;
    let carried_out = carry_out(rt, alloc, trial, &mut cluster);
    let report = cluster.close(&rt, Vec::new(alloc)).totals();
    carried_out?;
    Ok(report)
}

/// The same, of this shape.
fn try_shaped<
    S: ClusterShape + Send + Sync + 'static,
    R: Threads + Wait + Clock + Abort + Copy + Send + 'static,
>(rt: R, alloc: Global, trial: &Trial, nodes: u32) -> io::Result<Totals>
    requires nodes { nodes ≡ S.nodes }
    requires memory { 1024 ≡ S.memory }
{
    try_at::<Brand, S, R>(rt, alloc, trial, nodes, Unnamed::new(nodes))
}

/// The same, under a new name.
pub(crate) fn try_out<R: Threads + Wait + Clock + Abort + Copy + Send + 'static>(
    rt: R,
    alloc: Global,
    trial: &Trial,
) -> io::Result<Totals> {
    let nodes = trial.nodes();
    try_shaped::<Brand, R>(rt, alloc, trial, nodes)
}
