//! The nodes of a process, by number.
ghost use Rattle.std.specs.Prelude.{◌≡◌, ◌↔◌, ◌<◌, ◌+◌, OnOk, OnErr, IfSome, IsSome, vec_len};
ghost use Rattle.std.specs.Arc.{arc_value};
ghost use Rattle.shared_nodes.specs.NodeLists.{AreNumbered};

use crate::SharedNode;
use crate::report::{Report, SessionsEnded, SessionsShut};
use memory_growth::{OutOfMemory, lists};
use node_gate::JournaledNode;
use node_housekeeping::{NoPause, Pause};
use std::alloc::Global;
use std::net::Shutdown;
use std::sync::{Arc, Wait};

/// Nodes, each at the place of its number: the first is node 0.
#[derive(Drop)]
pub struct NodeList<K: JournaledNode, P = NoPause> {
    nodes: Vec<Arc<SharedNode<K, P>>>,
    ghost numbered: { AreNumbered nodes.items (λ shared. (arc_value shared).number) },
}

impl<K: JournaledNode, P: Pause> NodeList<K, P> {
    /// No node. Takes no memory.
    pub fn new(alloc: Global) -> NodeList<K, P>
        ensures { vec_len result.nodes ≡ 0 }
    {
        NodeList {
            nodes: Vec::new(alloc),
        }
    }

    /// One node more, which has the next number. The error is out of memory, and then the list is as it was.
    pub fn push(&mut self, node: Arc<SharedNode<K, P>>) -> Result<(), OutOfMemory>
        requires { (arc_value node).number ≡ vec_len self.old.nodes }
        ensures ok { OnOk result (vec_len self.new.nodes ≡ vec_len self.old.nodes + 1) }
        ensures err { OnErr result (self.new.nodes.items ≡ self.old.nodes.items) }
    {
        lists::push(&mut self.nodes, node)
    }

    /// How many nodes there are.
    pub fn count(&self) -> usize
        ensures { result ≡ vec_len self.now.nodes }
    {
        self.nodes.len()
    }

    /// The node of this number, if there is one.
    pub fn get(&self, number: u32) -> Option<&Arc<SharedNode<K, P>>>
        ensures there { IsSome result ↔ (number < vec_len self.now.nodes) }
        ensures which { IfSome result (λ node. (arc_value node.now).number ≡ number) }
    {
        match self.nodes.get(number as usize) {
            Some(node) => Some(node),
            None => None,
        }
    }

    /// The nodes, by number.
    pub fn as_slice(&self) -> &[Arc<SharedNode<K, P>>]
        ensures { result.now ≡ self.now.nodes.items }
    {
        &self.nodes
    }

    /// Shuts down the streams of all open sessions of all nodes, and of those that are opened later. Of one that is shut down for reading,
    /// what was sent before is still answered, and then its session ends.
    pub fn shut_sessions<R: Wait>(&self, rt: &R, how: Shutdown) -> SessionsShut
        ensures { result.nodes ≡ vec_len self.now.nodes }
    {
        let mut shut = SessionsShut::none();
        for node in &self.nodes {
            shut = node.shut_sessions(rt, how, shut);
        }
        shut
    }

    /// Whether a session of any node is open.
    pub fn have_sessions<R: Wait>(&self, rt: &R) -> bool {
        self.nodes
            .iter()
            .any(|node| node.open_sessions(rt).sessions() > 0)
    }

    /// Waits for the open sessions of all nodes to end.
    pub fn await_sessions<R: Wait>(&self, rt: &R) {
        for node in &self.nodes {
            node.await_sessions(rt);
        }
    }

    /// Waits for the open sessions of all nodes to end, and leaves those that are marked then.
    pub fn end_sessions<R: Wait>(&self, rt: &R) -> SessionsEnded
        ensures { result.nodes ≡ vec_len self.now.nodes }
    {
        let mut ended = SessionsEnded::none();
        for node in &self.nodes {
            ended = node.end_sessions(rt, ended);
        }
        ended
    }

    /// What was counted at all nodes, whose sessions have ended.
    pub fn report<R: Wait>(&self, rt: &R, ended: &SessionsEnded) -> Report
        requires { ended.now.nodes ≡ vec_len self.now.nodes }
        ensures { result.nodes ≡ vec_len self.now.nodes }
    {
        let mut report = Report::none();
        for node in &self.nodes {
            report = node.report(rt, ended, report);
        }
        report
    }
}
