//! What other nodes and the directory send to the node arrives.
ghost use Rattle.std.specs.Prelude.{◌≡◌, ◌⊎◌, ◌<◌, ◌++◌, ◌∷◌, [], true, false, Some, None, MatchOption, MatchResult, IfSome, IfNone, IfOk, IfErr, OnErr};
ghost use Rattle.std.specs.Prelude.{IsSomeAnd};
ghost use Rattle.obj_id.specs.declared.refusals.Refusal.TheVariants.{NoMemory, Stale};

use crate::SharedNode;
use crate::receipt_buffer::ReceiptBuffer;
use node_gate::{JournaledNode, Posted};
use node_housekeeping::{CountedLost, JobEvent, Pause, Sender};
use node_steps::{Stepped, step_arrival, step_located};
use obj_id::Refusal;
use std::sync::Wait;

impl<K: JournaledNode, P: Pause> SharedNode<K, P> {
    /// A message that was posted to the node arrives, what the step sends is handed over, and the receipt is of the message's entry.
    /// `Stale` if it was posted to another place, or isn't made for a node; and `NoMemory`. Then it is lost.
    pub fn arrive<R: Wait>(&self, rt: &R, posted: K::Posted) -> Result<K::Receipt, Refusal>
        ensures arrived { IfOk result (λ r. K.arrived posted r) }
        ensures node { IfOk result (λ r. K.made_at r ≡ self.now.number) }
        ensures refused { IfErr result (λ r. (r ≡ NoMemory) ⊎ (r ≡ Stale)) }
    {
        let job = posted.job();
        let prepared = self.prepare_arrival(rt, &posted);
        let mut kept = self.lock(rt);
        let before = kept.prepare(job, prepared);
        let stepped = step_arrival(rt, &mut *kept, &self.housekeeping, posted);
        let rest = kept.prepare(job, before);
        drop(kept);
        drop(rest);
        let Stepped { receipt, mail, .. } = stepped?;
        self.housekeeping
            .upkeep
            .counts
            .note(rt, job, JobEvent::Arrival);
        self.post(rt, Sender::Arrival, mail);
        Ok(receipt)
    }

    /// A message of a link arrives, and its receipt is gathered; or it is counted as lost, as it is without room for the receipt.
    pub fn receive_one<R: Wait>(
        &self,
        rt: &R,
        posted: K::Posted,
        receipts: &mut ReceiptBuffer<K::Receipt>,
    ) -> Option<CountedLost>
        ensures { MatchOption result (IsSomeAnd receipts.new.last (K.arrived posted)) (λ counted. counted.messages ≡ 1) }
    {
        if self.make_room(rt, receipts).is_err() {
            return Some(self.housekeeping.tallies.lost(rt, 1));
        }
        match self.arrive(rt, posted) {
            Ok(receipt) => {
                receipts.add(receipt);
                None
            }
            Err(_) => Some(self.housekeeping.tallies.lost(rt, 1)),
        }
    }

    /// What the directory answered to a message of the node arrives: whether it isn't lost.
    pub(crate) fn arrive_located<R: Wait>(&self, rt: &R, located: K::Posted) -> bool {
        let job = located.job();
        let is_taken = step_located(rt, &mut *self.lock(rt), &self.housekeeping, located);
        if is_taken {
            self.housekeeping
                .upkeep
                .counts
                .note(rt, job, JobEvent::Arrival);
        }
        is_taken
    }
}
