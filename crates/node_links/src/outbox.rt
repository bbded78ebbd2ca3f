//! The ways out of a node: to the directory and to each other node.
use crate::inbox::Inbox;
use crate::lanes::OutLanes;
use memory_growth::{boxes, lists};
use node_gate::Posted;
use obj_id::Endpoint;
use std::alloc::Global;
use std::io;
use std::sync::{Arc, Mutex, Wait};

/// The directory of the cluster, and a way to each other node, by number.
pub struct Outbox<M: Posted> {
    directory: Arc<Mutex<M::Directory>>,
    nodes: Vec<Option<OutLanes<M>>>,
}

// By hand, so that it is proved here and not in each crate above.
impl<M: Posted> Drop for Outbox<M> {
    fn drop(self) {
        let Outbox {
            directory: _directory,
            nodes: _nodes,
        } = self;
    }
}

impl<M: Posted> Outbox<M> {
    /// The ways out of the node of this number, one to each other node that has an inbox.
    pub fn open(
        alloc: Global,
        number: usize,
        directory: &Arc<Mutex<M::Directory>>,
        inboxes: &mut [Inbox<M>],
    ) -> io::Result<Outbox<M>> {
        let mut nodes = Vec::new(alloc);
        for (node, inbox) in inboxes.iter_mut().enumerate() {
            if node == number {
                lists::push(&mut nodes, None)?;
            } else {
                let turns = boxes::another(&inbox.turns)?;
                let (way_out, way_in) = OutLanes::open(alloc, number, turns)?;
                lists::push(&mut nodes, Some(way_out))?;
                lists::push(&mut inbox.ways, way_in)?;
            }
        }
        Ok(Outbox {
            directory: boxes::another(directory)?,
            nodes,
        })
    }

    /// The way to the node of this number, if there is one.
    fn way(&self, node: u32) -> Option<&OutLanes<M>> {
        self.nodes.get(node as usize)?.as_ref()
    }

    /// Hands a message over to its place.
    pub fn deliver<R: Wait>(&self, rt: &R, posted: M) -> Delivery<M> {
        match posted.to() {
            Endpoint::Directory => match posted.through(rt, &mut *self.directory.lock(rt)) {
                Err(_) => Delivery::Lost,
                Ok(None) => Delivery::Over,
                Ok(Some(located)) => Delivery::Answered(located),
            },
            Endpoint::Node(node) => match self.way(node) {
                Some(way) if way.send(rt, posted) => Delivery::Over,
                _ => Delivery::Lost,
            },
        }
    }

    /// Closes the ways out to other nodes: what was accepted is still received.
    pub fn close<R: Wait>(&self, rt: &R) {
        for way in &self.nodes {
            if let Some(way) = way {
                way.close(rt);
            }
        }
    }
}

/// What became of a message that was handed over.
#[derive(Drop)]
pub enum Delivery<M: Posted> {
    /// It came to its place, or is on its way.
    Over,
    /// It didn't come there.
    Lost,
    /// The directory's answer to it.
    Answered(M),
}
