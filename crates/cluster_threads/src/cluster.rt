//! The nodes of a process.
ghost use Rattle.std.specs.Prelude.{◌≡◌, ◌↔◌, ◌≤◌, ◌<◌, vec_len, IfOk, OnOk, IfSome, IsSome};
ghost use Rattle.shared_nodes.specs.NodeLists.{AreNumbered};

use crate::Working;
use crate::receiving::receive;
use memory_growth::{OutOfMemory, boxes, lists};
use node_gate::{ActorSource, JournaledNode, Posted, SeatedNode, nothing_beside};
use node_housekeeping::{NoPause, Pause, Waiting};
use node_links::{Inbox, Outbox};
use shared_nodes::{NodeList, Report, SharedNode};
use std::alloc::Global;
use std::sync::{Arc, Mutex, Wait};
use std::thread::{JoinHandle, Threads};
use std::{io, mem};

/// How many threads hand in the messages that come to a node: while one hashes what it received, another one hands in.
const RECEIVERS: usize = 4;

/// The nodes of a process, by number, with one directory and a way from each node to each other one.
#[derive(Drop)]
pub struct Cluster<K: JournaledNode, P = NoPause> {
    nodes: Arc<NodeList<K, P>>,
    waiting: Arc<Waiting>,
    actors: ActorSource,
    // by node, while nobody receives from them
    inboxes: Vec<Inbox<K::Posted>>,
    receiving: Vec<JoinHandle<()>>,
    alloc: Global,
}

impl<K: JournaledNode, P: Pause> Cluster<K, P> {
    /// So many nodes, each with so many bytes of memory, on all parts of the name: one for each node. What they send one another
    /// is received once they are connected. Clones of `pause` pause their steps: a program passes `NoPause`.
    pub fn start(
        alloc: Global,
        nodes: u32,
        memory: u64,
        seats: K::Share,
        pause: P,
    ) -> io::Result<Cluster<K, P>>
    where
        K: SeatedNode,
        requires memory { K.SeatedNode.may_have memory }
        requires seats { (K.SeatedNode.parts seats ≡ nodes) × (K.SeatedNode.amount seats ≡ 0) }
        requires first { K.SeatedNode.next_number seats ≡ 0 }
        requires all { K.SeatedNode.all_parts ≡ nodes }
        ensures { IfOk result (λ cluster. vec_len cluster.nodes.value.nodes ≡ nodes) }
    {
        let mut seats = seats;
        let stepped = seat_all::<K>(alloc, nodes, memory, &mut seats)?;
        let directory = boxes::counted(alloc, Mutex::new(K::directory(alloc, seats)))?;
        let mut inboxes = Vec::new(alloc);
        for _ in 0..nodes {
            lists::push(&mut inboxes, Inbox::new(alloc, nodes.saturating_sub(1))?)?;
        }
        let waiting = boxes::counted(alloc, Waiting::new())?;
        let all = share_all(alloc, stepped, &directory, &mut inboxes, &waiting, &pause)?;
        Ok(Cluster {
            nodes: boxes::counted(alloc, all)?,
            waiting,
            actors: K::actors(),
            inboxes,
            receiving: Vec::new(alloc),
            alloc,
        })
    }

    /// Shows of any share of the name that it has no part, if the nodes are as many as the name has parts: so nothing beside them can
    /// be stepped under it. Locks all nodes at once, in their order, and leaves all as it is.
    pub fn nothing_beside<R: Wait>(&self, rt: &R, other: &mut K::Share)
    where
        K: SeatedNode,
        requires { vec_len self.now.nodes.value.nodes ≡ K.SeatedNode.all_parts }
        ensures none { K.SeatedNode.parts other.old ≡ 0 }
        ensures same { (K.SeatedNode.parts other.new ≡ K.SeatedNode.parts other.old) × (K.SeatedNode.amount other.new ≡ K.SeatedNode.amount other.old) }
    {
        nothing_beside(rt, self.nodes.as_slice(), other);
    }

    /// Lets each node receive what the others send it, in threads of its own. A cluster of one node has nothing to receive.
    pub fn connect<R: Threads + Wait + Copy + Send + 'static>(&mut self, rt: R) -> io::Result<()>
    where
        K: Send + 'static,
        K::Receipt: Send + 'static,
        K::Mail: Send + 'static,
        K::Posted: Send + 'static,
        <K::Posted as Posted>::Directory: Send + 'static,
        K::Erase: Send + 'static,
        K::Entered: Send + 'static,
        K::Prepared: Send + 'static,
        K::Gone: Send + 'static,
        P: Send + Sync + 'static,
    {
        let inboxes = mem::replace(&mut self.inboxes, Vec::new(self.alloc));
        if inboxes.len() < 2 {
            return Ok(());
        }
        for (number, inbox) in (0..u32::MAX).zip(inboxes) {
            self.receive_at(rt, number, inbox)?;
        }
        Ok(())
    }

    /// Lets the node of this number receive what comes to its inbox.
    fn receive_at<R: Threads + Wait + Copy + Send + 'static>(
        &mut self,
        rt: R,
        number: u32,
        inbox: Inbox<K::Posted>,
    ) -> io::Result<()>
    where
        K: Send + 'static,
        K::Receipt: Send + 'static,
        K::Mail: Send + 'static,
        K::Posted: Send + 'static,
        <K::Posted as Posted>::Directory: Send + 'static,
        K::Erase: Send + 'static,
        K::Entered: Send + 'static,
        K::Prepared: Send + 'static,
        K::Gone: Send + 'static,
        P: Send + Sync + 'static,
    {
        let inbox = boxes::counted(self.alloc, inbox)?;
        let Some(node) = self.nodes.get(number) else {
            return Ok(());
        };
        for _ in 0..RECEIVERS {
            lists::reserve(&mut self.receiving, 1)?;
            let thread = receive(rt, boxes::another(node)?, boxes::another(&inbox)?)?;
            lists::push(&mut self.receiving, thread)?;
        }
        Ok(())
    }

    /// Closes the links, and waits for what was accepted to be received. What is sent from then on is lost.
    fn disconnect<R: Threads + Wait>(&mut self, rt: &R)
        ensures { self.new.nodes ≡ self.old.nodes }
    {
        for node in self.nodes.as_slice() {
            node.close_ways(rt);
        }
        for thread in mem::replace(&mut self.receiving, Vec::new(self.alloc)) {
            thread.join(rt);
        }
    }

    /// The leave to make actors that step the nodes.
    pub fn actors(&self) -> ActorSource {
        self.actors
    }

    /// The nodes, by number.
    pub fn nodes(&self) -> &Arc<NodeList<K, P>>
        ensures { result.now ≡ self.now.nodes }
    {
        &self.nodes
    }

    /// How many nodes there are.
    pub fn count(&self) -> usize
        ensures { result ≡ vec_len self.now.nodes.value.nodes }
    {
        self.nodes.count()
    }

    /// The node of this number, if there is one.
    pub fn node(&self, number: u32) -> Option<&Arc<SharedNode<K, P>>>
        ensures there { IsSome result ↔ (number < vec_len self.now.nodes.value.nodes) }
        ensures which { IfSome result (λ node. node.now.value.number ≡ number) }
    {
        self.nodes.get(number)
    }

    /// Shuts all nodes: who waits for another answer is answered Pending, and no listener takes a stream any more.
    pub fn shut<R: Wait>(&self, rt: &R) {
        self.waiting.shut(rt);
    }

    /// Shuts all nodes, and waits for the open sessions, then for the links, and then for these workers: so what a session sent last
    /// still arrives, and what an arrival leaves to be erased still is. At last it says what was counted, at each node once.
    pub fn close<R: Threads + Wait>(self, rt: &R, workers: Vec<Working<K, P>>) -> Report
        ensures { result.nodes ≡ vec_len self.nodes.value.nodes }
    {
        let mut cluster = self;
        cluster.shut(rt);
        let ended = cluster.nodes.end_sessions(rt);
        cluster.disconnect(rt);
        for worker in workers {
            worker.end(rt);
        }
        cluster.nodes.report(rt, &ended)
    }
}

/// So many nodes, in the order of their numbers, each with so many bytes of memory and on one part of the name.
fn seat_all<K: SeatedNode>(
    alloc: Global,
    nodes: u32,
    memory: u64,
    seats: &mut K::Share,
) -> Result<Vec<K>, OutOfMemory>
    requires memory { K.may_have memory }
    requires seats { (K.parts seats.old ≡ nodes) × (K.amount seats.old ≡ 0) }
    requires first { K.next_number seats.old ≡ 0 }
    requires all { K.all_parts ≡ nodes }
    ensures count { IfOk result (λ stepped. vec_len stepped ≡ nodes) }
    ensures numbered { IfOk result (λ stepped. AreNumbered stepped.items K.JournaledNode.node_number) }
    ensures next { OnOk result (K.next_number seats.new ≡ nodes) }
{
    let mut stepped = Vec::new(alloc);
    for number in 0..nodes {
        let seat = K::split_seat(seats);
        lists::push(&mut stepped, K::seated(alloc, number, memory, seat))?;
    }
    Ok(stepped)
}

/// These nodes, each with its ways to the others and to the directory.
fn share_all<K: JournaledNode, P: Pause>(
    alloc: Global,
    stepped: Vec<K>,
    directory: &Arc<Mutex<<K::Posted as Posted>::Directory>>,
    inboxes: &mut Vec<Inbox<K::Posted>>,
    waiting: &Arc<Waiting>,
    pause: &P,
) -> io::Result<NodeList<K, P>>
    requires { AreNumbered stepped.items K.node_number }
    ensures { IfOk result (λ all. vec_len all.nodes ≡ vec_len stepped) }
{
    let mut all = NodeList::new(alloc);
    for node in stepped {
        let outbox = Outbox::open(alloc, all.count(), directory, inboxes)?;
        let woken = boxes::another(waiting)?;
        let shared = SharedNode::new(alloc, node, outbox, woken, pause.clone()?);
        all.push(boxes::counted(alloc, shared)?)?;
    }
    Ok(all)
}
