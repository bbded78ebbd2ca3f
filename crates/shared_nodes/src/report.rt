//! What is said of all nodes of a list: that their sessions were shut down, or ended, and what was counted at them. Each is a value that only
//! the node of the next number lets grow.
ghost use Rattle.std.specs.Prelude.{◌≡◌, ◌<◌, ◌+◌};

use crate::SharedNode;
use node_gate::JournaledNode;
use node_housekeeping::{Pause, Tally};
use std::net::Shutdown;
use std::sync::Wait;

/// That the streams of all sessions of the first nodes were shut down, and those of sessions that come later are.
#[derive(Drop)]
pub struct SessionsShut {
    nodes: u64,
}

/// That no session of the first nodes was open any more, and that those that were marked were left.
#[derive(Drop)]
pub struct SessionsEnded {
    nodes: u64,
}

/// What was counted, over all nodes. Each number stays at its type's last value.
#[derive(Clone, Copy, Debug, PartialEq, Eq)]
pub struct Totals {
    /// Entries of the journals.
    pub entries: u64,
    /// Receipts that the cluster's own actors gathered, each looked for in its node's journal: those of sessions, workers and links,
    /// and of the operator's orders; and those that were handed to `SharedNode::check`. Not those that direct callers of a node keep.
    pub receipts: u64,
    /// Those of them that their node's journal doesn't have: 0 in a right run.
    pub disagreeing: u64,
    /// Messages that didn't come to the place that they were sent to: a link was full or closed, or there was no memory.
    pub lost: u64,
    /// Device keys that weren't erased.
    pub erase_failures: u64,
}

/// What was counted at the first nodes, each once, after its sessions had ended.
#[derive(Clone, Copy)]
pub struct Report {
    nodes: u64,
    totals: Totals,
}

impl SessionsShut {
    /// Of no node.
    pub fn none() -> SessionsShut
        ensures { result.nodes ≡ 0 }
    {
        SessionsShut { nodes: 0 }
    }
}

impl SessionsEnded {
    /// Of no node.
    pub fn none() -> SessionsEnded
        ensures { result.nodes ≡ 0 }
    {
        SessionsEnded { nodes: 0 }
    }
}

impl Report {
    /// Of no node.
    pub fn none() -> Report
        ensures { result.nodes ≡ 0 }
    {
        Report {
            nodes: 0,
            totals: Totals {
                entries: 0,
                receipts: 0,
                disagreeing: 0,
                lost: 0,
                erase_failures: 0,
            },
        }
    }

    /// Of how many nodes it is.
    pub fn nodes(&self) -> u64
        ensures { result ≡ self.now.nodes }
    {
        self.nodes
    }

    /// What was counted.
    pub fn totals(&self) -> Totals
        ensures { result ≡ self.now.totals }
    {
        self.totals
    }
}

impl Totals {
    /// With so many entries of a node more, and what else was counted there.
    fn with(self, entries: u64, tally: Tally) -> Totals {
        Totals {
            entries: self.entries.saturating_add(entries),
            receipts: self.receipts.saturating_add(tally.receipts),
            disagreeing: self.disagreeing.saturating_add(tally.disagreeing),
            lost: self.lost.saturating_add(tally.lost),
            erase_failures: self.erase_failures.saturating_add(tally.unerased),
        }
    }
}

impl<K: JournaledNode, P: Pause> SharedNode<K, P> {
    /// Shuts down the streams of all open sessions, and of those that are opened later, after those of the nodes before. Of one that is shut
    /// down for reading, what was sent before is still answered, and then its session ends.
    pub fn shut_sessions<R: Wait>(
        &self,
        rt: &R,
        how: Shutdown,
        before: SessionsShut,
    ) -> SessionsShut
        requires { before.nodes ≡ self.now.number }
        ensures { result.nodes ≡ before.nodes + 1 }
    {
        self.housekeeping.upkeep.streams.shut(rt, how);
        SessionsShut {
            nodes: before.nodes + 1,
        }
    }

    /// Waits for the open sessions to end, and leaves those that are marked then, after those of the nodes before.
    pub fn end_sessions<R: Wait>(&self, rt: &R, before: SessionsEnded) -> SessionsEnded
        requires { before.nodes ≡ self.now.number }
        ensures { result.nodes ≡ before.nodes + 1 }
    {
        self.housekeeping.upkeep.sessions.wait_for_all(rt);
        self.leave_marked(rt);
        SessionsEnded {
            nodes: before.nodes + 1,
        }
    }

    /// The report of the nodes before, with what was counted at this one, whose sessions have ended.
    pub fn report<R: Wait>(&self, rt: &R, ended: &SessionsEnded, before: Report) -> Report
        requires ended { self.now.number < ended.now.nodes }
        requires before { before.nodes ≡ self.now.number }
        ensures { result.nodes ≡ before.nodes + 1 }
    {
        let _ended = ended;
        Report {
            nodes: before.nodes + 1,
            totals: before
                .totals
                .with(self.entries(rt), self.housekeeping.counted(rt)),
        }
    }
}
