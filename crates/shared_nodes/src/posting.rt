//! What a step sends is handed over once the node's lock is left.
ghost use Rattle.std.specs.Prelude.{◌≡◌, IsSomeAnd, MatchOption};

use crate::SharedNode;
use crate::receipt_buffer::ReceiptBuffer;
use node_gate::{JournaledNode, Posted};
use node_housekeeping::{CountedLost, JobEvent, Pause, Sender, SentCounts};
use node_links::Delivery;
use std::sync::Wait;

impl<K: JournaledNode, P: Pause> SharedNode<K, P> {
    /// Hands over what a step has sent, in order, and counts it, and what is lost: whether a Pull was among it.
    pub(crate) fn post<R: Wait>(&self, rt: &R, sender: Sender, mut mail: K::Mail) -> bool {
        match mail.next() {
            Some(first) => self.post_all(rt, sender, first, mail),
            None => false,
        }
    }

    /// The same of a step that has sent something: most send nothing.
    fn post_all<R: Wait>(&self, rt: &R, sender: Sender, first: K::Posted, others: K::Mail) -> bool {
        let mut sent = SentCounts::new();
        let mut lost = self.post_one(rt, sender, first, &mut sent);
        for posted in others {
            lost = lost.saturating_add(self.post_one(rt, sender, posted, &mut sent));
        }
        self.housekeeping.upkeep.counts.note_sent(rt, &sent);
        self.housekeeping.tallies.lost(rt, lost);
        sent.number(JobEvent::Pull) > 0
    }

    /// Counts a message, and hands it over: how many are lost.
    fn post_one<R: Wait>(
        &self,
        rt: &R,
        sender: Sender,
        posted: K::Posted,
        sent: &mut SentCounts,
    ) -> u64 {
        sent.count(sender, posted.job(), posted.from(), posted.message());
        u64::from(!self.deliver(rt, posted))
    }

    /// Hands a message over to its place: whether it came there. What the directory answers arrives here, and no answer of it makes
    /// a node send.
    fn deliver<R: Wait>(&self, rt: &R, posted: K::Posted) -> bool {
        match self.outbox.deliver(rt, posted) {
            Delivery::Over => true,
            Delivery::Lost => false,
            Delivery::Answered(located) => self.arrive_located(rt, located),
        }
    }
}
