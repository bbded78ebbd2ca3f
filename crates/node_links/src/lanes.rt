//! The links from one node to another, by lane.
use fetch_link::{LinkReceiver, LinkSender, Sent, open};
use memory_growth::lists;
use node_gate::Posted;
use node_housekeeping::{LANES, Turns, lane_of};
use std::alloc::Global;
use std::io;
use std::sync::{Arc, Mutex, Wait};

/// The links to another node, by lane: a job that sends more than a link holds loses its own messages alone, and those of other lanes
/// come in turn with them.
#[derive(Drop)]
pub(crate) struct OutLanes<M: Posted> {
    // the node that sends
    source: usize,
    lanes: Vec<Mutex<LinkSender<M>>>,
    // of the node that receives
    turns: Arc<Turns>,
}

/// The other ends of these links.
#[derive(Drop)]
pub(crate) struct InLanes<M: Posted> {
    pub(crate) source: usize,
    pub(crate) lanes: Vec<Mutex<LinkReceiver<M>>>,
}

impl<M: Posted> OutLanes<M> {
    /// New links from the node of this number to one that has these turns, with their other ends.
    pub(crate) fn open(
        alloc: Global,
        source: usize,
        turns: Arc<Turns>,
    ) -> io::Result<(OutLanes<M>, InLanes<M>)> {
        let mut senders = lists::with_capacity(alloc, LANES)?;
        let mut receivers = lists::with_capacity(alloc, LANES)?;
        for _ in 0..LANES {
            let (sender, receiver) = open(alloc)?;
            lists::push(&mut senders, Mutex::new(sender))?;
            lists::push(&mut receivers, Mutex::new(receiver))?;
        }
        let way_out = OutLanes {
            source,
            lanes: senders,
            turns,
        };
        let way_in = InLanes {
            source,
            lanes: receivers,
        };
        Ok((way_out, way_in))
    }

    /// Sends a message by the lane of its job: whether the link took it. That it has a turn is known before the link can be closed.
    pub(crate) fn send<R: Wait>(&self, rt: &R, posted: M) -> bool {
        let lane = lane_of(posted.job());
        let Some(link) = self.lanes.get(lane) else {
            return false;
        };
        let mut link = link.lock(rt);
        let sent = link.send_next(rt, posted);
        if sent == Sent::Accepted {
            self.turns.add(rt, lane, self.source);
        }
        drop(link);
        sent == Sent::Accepted
    }

    /// Closes the links: what was accepted is still received.
    pub(crate) fn close<R: Wait>(&self, rt: &R) {
        for link in &self.lanes {
            link.lock(rt).close();
        }
        self.turns.close(rt);
    }
}
