//! Trials at a new cluster, which is closed at the end of each, and what its report has to say then.
ghost use Rattle.std.specs.Prelude.{◌≡◌};

use crate::calls::{call_six, call_with_receipts, leave_often};
use crate::gathering::{DENIED, GATHERED, gather_many};
use crate::named::Named;
use crate::works::{ask_by_a_closed_link, ask_for_deleted, work_at_a_failing_device};
use assertions::{holds, same};
use cluster_history::{ClusterShape, HistoryName};
use cluster_threads::Cluster;
use memory_growth::OutOfMemory;
use node_gate::JournaledNode;
use node_housekeeping::NoPause;
use node_journal::{Recorded, Unnamed};
use obj_id::{Refusal, Reply};
use shared_nodes::Totals;
use std::alloc::Global;
use std::io;
use std::marker::Brand;
use std::process::Abort;
use std::sync::Wait;
use std::sync::ledger::Ledger;
use std::test::Fail;
use std::thread::Threads;
use std::time::Clock;

/// What is tried.
enum Trial {
    DirectCalls,
    LaterCall,
    Leaves,
    ManyReceipts,
    FailingDevice,
    Deletion,
    ClosedLink,
}

impl Trial {
    /// How many nodes it needs.
    fn nodes(&self) -> u32 {
        match self {
            Trial::DirectCalls | Trial::Leaves | Trial::FailingDevice => 1,
            Trial::LaterCall | Trial::ManyReceipts | Trial::Deletion | Trial::ClosedLink => 2,
        }
    }

    /// Carries it out at a cluster of so many nodes: whether all was answered as it is due if no message is lost.
    fn carry_out<K: JournaledNode, R: Wait + Clock + Abort>(
        &self,
        rt: &R,
        alloc: Global,
        cluster: &Cluster<K>,
    ) -> Result<bool, OutOfMemory>
    where
        K::Receipt: Named,
    {
        match self {
            Trial::DirectCalls => call_six(rt, alloc, cluster)?,
            Trial::LaterCall => call_with_receipts(rt, alloc, cluster)?,
            Trial::Leaves => leave_often(rt, alloc, cluster)?,
            Trial::ManyReceipts => gather_many(rt, alloc, cluster)?,
            Trial::FailingDevice => work_at_a_failing_device(rt, alloc, cluster),
            Trial::Deletion => {
                let last = ask_for_deleted(rt, cluster);
                return Ok(matches!(&last, Reply::Refused(Refusal::Absent)));
            }
            Trial::ClosedLink => {
                let last = ask_by_a_closed_link(rt, cluster);
                return Ok(matches!(&last, Reply::Refused(Refusal::Pending)));
            }
        }
        Ok(true)
    }

    /// What the report has to say once the cluster is closed. What Seal tells the directory is lost if memory runs out there.
    fn check<R: Abort>(&self, rt: &R, report: &Totals) {
        let entries = report.entries;
        let receipts = (report.receipts, report.disagreeing);
        match self {
            Trial::DirectCalls =>
                same!(rt; (entries, receipts, report.lost <= 1), (7, (1, 0), true)),
            // the operator's three orders, and the receipt that was shown to another node
            Trial::LaterCall =>
                same!(rt; (entries, receipts, report.lost == 0), (10, (4, 1), true)),
            Trial::Leaves => {
                same!(rt; (entries, report.disagreeing, report.lost <= 1), (23, 0, true))
            }
            // and those of two admissions
            Trial::ManyReceipts => same!(rt; receipts, (GATHERED + 2, DENIED)),
            Trial::FailingDevice => same!(rt; (entries, receipts), (16, (7, 0))),
            Trial::Deletion => {}
            Trial::ClosedLink => same!(rt; report.lost, 1),
        }
        same!(rt; report.erase_failures, 0);
    }
}

/// Carries out the trial at a cluster of its own.
fn try_at<L: Ledger + HistoryName, S: ClusterShape, R: Threads + Wait + Clock + Abort>(
    rt: &R,
    alloc: Global,
    trial: &Trial,
    nodes: u32,
    unnamed: Unnamed<S>,
) -> io::Result<()>
    requires nodes { nodes ≡ S.nodes }
    requires memory { 1024 ≡ S.memory }
    requires name { (unnamed.blank.name ≡ L.name) × (unnamed.blank.parts ≡ L.parts) }
    requires book { unnamed.opened.seen.book ≡ L.book }
    requires all { unnamed.opened.nodes ≡ S.nodes }
{
    let seats = unnamed.named::<L>();
    let cluster = Cluster::<Recorded<L, S>, _>::start(alloc, nodes, 1024, seats, NoPause)?;
    let carried_out = trial.carry_out(rt, alloc, &cluster);
    let report = cluster.close(rt, Vec::new(alloc)).totals();
    let as_due = carried_out?;
    holds!(rt; as_due || report.lost > 0);
    trial.check(rt, &report);
    Ok(())
}

/// The same, of this shape.
fn try_shaped<S: ClusterShape, R: Threads + Wait + Clock + Abort>(
    rt: &R,
    alloc: Global,
    trial: &Trial,
    nodes: u32,
) -> io::Result<()>
    requires nodes { nodes ≡ S.nodes }
    requires memory { 1024 ≡ S.memory }
{
    try_at::<Brand, S, R>(rt, alloc, trial, nodes, Unnamed::new(nodes))
}

fn try_once<R: Threads + Wait + Clock + Abort>(
    rt: &R,
    alloc: Global,
    trial: &Trial,
) -> io::Result<()> {
    let nodes = trial.nodes();
    try_shaped::<Brand, R>(rt, alloc, trial, nodes)
}

#[test]
fn receipts_of_direct_callers_are_not_gathered(rt: HostRuntime) -> Result<(), Fail> {
    Ok(try_once(&rt, rt.alloc(), &Trial::DirectCalls)?)
}

#[test]
fn a_call_comes_after_the_receipt_that_it_shows(rt: HostRuntime) -> Result<(), Fail> {
    Ok(try_once(&rt, rt.alloc(), &Trial::LaterCall)?)
}

/// Tried once more if memory ran out before the node was there, or for a command.
#[test]
fn a_session_is_left_though_memory_runs_out(rt: HostRuntime) -> Result<(), Fail> {
    if try_once(&rt, rt.alloc(), &Trial::Leaves).is_err() {
        try_once(&rt, rt.alloc(), &Trial::Leaves)?;
    }
    Ok(())
}

#[test]
fn every_receipt_that_is_gathered_is_looked_for(rt: HostRuntime) -> Result<(), Fail> {
    Ok(try_once(&rt, rt.alloc(), &Trial::ManyReceipts)?)
}

#[test]
fn what_a_closed_link_is_to_carry_is_lost(rt: HostRuntime) -> Result<(), Fail> {
    Ok(try_once(&rt, rt.alloc(), &Trial::ClosedLink)?)
}

#[test]
fn a_write_that_fails_is_told_once(rt: HostRuntime) -> Result<(), Fail> {
    Ok(try_once(&rt, rt.alloc(), &Trial::FailingDevice)?)
}

#[test]
fn the_directory_is_told_what_is_deleted(rt: HostRuntime) -> Result<(), Fail> {
    Ok(try_once(&rt, rt.alloc(), &Trial::Deletion)?)
}
