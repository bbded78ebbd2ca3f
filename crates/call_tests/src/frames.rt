//! Sessions at a node: streams that were written by hand, and what they are answered.
ghost use Rattle.std.specs.Prelude.{◌≡◌};

use crate::actors::actor;
use crate::calls::admit;
use assertions::same;
use cluster_history::{ClusterShape, HistoryName};
use cluster_threads::Cluster;
use memory_growth::{OutOfMemory, lists};
use node_gate::JournaledNode;
use node_housekeeping::NoPause;
use node_journal::{Recorded, Unnamed};
use session_engine::{Ended, SessionFault, serve};
use session_threads::Session;
use shared_nodes::SharedNode;
use std::alloc::Global;
use std::io;
use std::marker::Brand;
use std::process::Abort;
use std::sync::Wait;
use std::sync::ledger::Ledger;
use std::test::Fail;
use std::time::Clock;

/// A Hello of job 1 with its key.
const HELLO: &str =
    "0000002501000000010000000000000000000000000000000000000000000000000000000000000000";

/// A Hello, and then an object of 20 bytes that is created, sealed and held.
const WORKED: &str = "\
0000002501000000010000000000000000000000000000000000000000000000000000000000000000\
0000002202000000000000000000000000000000000000000100000001000000010000000014\
0000001d0400000000000000000000000000000000000000010000000100000001\
0000001d0500000000000000000000000000000000000000010000000100000001";

const TOLD: &str = "0000000180000000098100000000000000200000000180000000058200000014";

/// A Hello, and then a frame of a kind that there is not.
const NO_KIND: &str = "\
0000002501000000010000000000000000000000000000000000000000000000000000000000000000\
0000000115";

/// A Hello, and then a copy of no kind that there is.
const NO_KIND_OF_COPY: &str = "\
0000002501000000010000000000000000000000000000000000000000000000000000000000000000\
0000002202000000000000000000000000000000000000000100000001000000010200000014";

/// A Hello, and then a Get of an invalid id.
const NO_ID: &str = "\
0000002501000000010000000000000000000000000000000000000000000000000000000000000000\
0000001d0500000000000000000000000000000000000000000000000000000000";

/// More bytes than any stream here is answered.
const ROOM: usize = 64;

/// What came of a stream.
#[derive(Drop)]
struct Served {
    outcome: Result<Ended, SessionFault>,
    written: Vec<u8>,
}

/// Serves the stream at the node.
fn told_at<K: JournaledNode, R: Wait + Clock>(
    rt: &R,
    alloc: Global,
    node: &SharedNode<K>,
    input: &[u8],
) -> Result<Served, OutOfMemory> {
    let mut written = lists::with_capacity(alloc, ROOM)?;
    let mut reader = input;
    let mut session = Session::new(rt, actor(), node);
    let outcome = serve(alloc, &mut reader, &mut written, &mut session);
    session.end();
    Ok(Served { outcome, written })
}

/// Serves the stream at the cluster's node, to which a job is admitted that has a window of 64 bytes.
fn told_by<K: JournaledNode, R: Wait + Clock + Abort>(
    rt: &R,
    alloc: Global,
    cluster: &Cluster<K>,
    input: &[u8],
) -> Result<Served, OutOfMemory> {
    let node = cluster.node(0).expect(rt, "a node");
    admit(rt, node);
    told_at(rt, alloc, node, input)
}

/// The same, at a cluster of its own under the name.
fn response_by<L: Ledger + HistoryName, S: ClusterShape, R: Wait + Clock + Abort>(
    rt: &R,
    alloc: Global,
    unnamed: Unnamed<S>,
    input: &[u8],
) -> io::Result<Served>
    requires nodes { 1 ≡ S.nodes }
    requires memory { 1024 ≡ S.memory }
    requires name { (unnamed.blank.name ≡ L.name) × (unnamed.blank.parts ≡ L.parts) }
    requires book { unnamed.opened.seen.book ≡ L.book }
    requires all { unnamed.opened.nodes ≡ S.nodes }
{
    let seats = unnamed.named::<L>();
    let cluster = Cluster::<Recorded<L, S>, _>::start(alloc, 1, 1024, seats, NoPause)?;
    Ok(told_by(rt, alloc, &cluster, input)?)
}

/// The same, of this shape.
fn response_of<S: ClusterShape, R: Wait + Clock + Abort>(
    rt: &R,
    alloc: Global,
    input: &[u8],
) -> io::Result<Served>
    requires nodes { 1 ≡ S.nodes }
    requires memory { 1024 ≡ S.memory }
{
    response_by::<Brand, S, R>(rt, alloc, Unnamed::new(1), input)
}

fn response<R: Wait + Clock + Abort>(rt: &R, alloc: Global, input: &[u8]) -> io::Result<Served> {
    response_of::<Brand, R>(rt, alloc, input)
}

/// Checks that the stream of these digits is answered so, and ends so.
fn check(
    rt: &(impl Wait + Clock + Abort),
    alloc: Global,
    input: &str,
    answers: &str,
    ended: Ended,
) -> Result<(), Fail> {
    let input = hex::decode(alloc, input)?;
    let answers = hex::decode(alloc, answers)?;
    let response = response(rt, alloc, &input)?;
    same!(rt; (response.outcome, response.written), (Ok(ended), answers));
    Ok(())
}

#[test]
fn streams_are_answered_at_a_node(rt: HostRuntime) -> Result<(), Fail> {
    let alloc = rt.alloc();
    check(&rt, alloc, WORKED, TOLD, Ended::Clean)?;
    check(&rt, alloc, HELLO, "0000000180", Ended::Clean)?;
    check(&rt, alloc, NO_ID, "0000000180000000028f02", Ended::Clean)?;
    Ok(())
}

#[test]
fn streams_that_are_no_frames_end_at_a_node(rt: HostRuntime) -> Result<(), Fail> {
    let alloc = rt.alloc();
    check(&rt, alloc, "00000000", "000000028f14", Ended::Malformed)?;
    check(&rt, alloc, "ffffffff", "000000028f14", Ended::Malformed)?;
    check(&rt, alloc, "000000", "", Ended::MidFrame)?;
    let told = "0000000180000000028f14";
    check(&rt, alloc, NO_KIND, told, Ended::Malformed)?;
    check(&rt, alloc, NO_KIND_OF_COPY, told, Ended::Malformed)?;
    Ok(())
}
