//! A step of a node with its journal, taken apart: its answer, its mail and its receipt.
ghost use Rattle.std.specs.Prelude.{◌≡◌, ◌⊎◌, ◌↔◌, ◌<◌, Some, IfOk, IfErr, OnOk, OnErr, IsErrOf};
ghost use Rattle.obj_id.specs.declared.messages.Arrival.{Arrival};
ghost use Rattle.obj_id.specs.declared.messages.Endpoint.TheVariants as place;
ghost use Rattle.obj_id.specs.declared.refusals.Refusal.TheVariants.{NoMemory, Stale};
ghost use Rattle.private_store.specs.declared.schedules.NodeEvent.TheVariants as node_event;
ghost use Rattle.private_store.specs.rules.Cluster.{arrival_of};
ghost use Rattle.node_gate.specs.Calls.{IsSmallCall};
ghost use Rattle.node_journal.specs.Posts.{posts_left, IsArrival, IsAstray};
ghost use Rattle.node_journal.specs.Stepping.{IsOneArrival, IsOneStep, IsUntouched, seen_node};
ghost use Rattle.node_journal.specs.Witnesses.{IsArrived, IsCalledBy, IsReceiptOf, witness_of};

use crate::posts::{Mail, Posted};
use crate::{Kept, Receipt};
use memory_growth::OutOfMemory;
use node_core::Erase;
use node_gate::Made;
use obj_id::Refusal;
use private_store::Event;
use std::sync::ledger::Ledger;

impl<L: Ledger> Kept<L> {
    /// `step`, taken apart. The error is out of memory.
    pub(crate) fn step_made(
        &mut self,
        event: &Event,
    ) -> Result<Made<Receipt<L>, Mail<L>, Erase>, OutOfMemory>
        ensures once { IfOk result (λ m. IsOneStep (node_event.Own event.now) m.reply (posts_left m.mail) (witness_of m.receipt) (seen_node self.old.node self.old.count self.old.logs) (seen_node self.new.node self.new.count self.new.logs)) }
        ensures stepped { IfOk result (λ m. IsReceiptOf event.now m.reply (witness_of m.receipt)) }
        ensures called { IfOk result (λ m. IsCalledBy event.now m.reply (witness_of m.receipt)) }
        ensures small { IfOk result (λ m. IsSmallCall event.now m.reply) }
        ensures node { IfOk result (λ m. m.receipt.node ≡ self.old.number) }
        ensures mail { IfOk result (λ m. (m.mail.job ≡ m.receipt.job) × (m.mail.node ≡ m.receipt.node)) }
        ensures same { OnErr result (IsUntouched (seen_node self.old.node self.old.count self.old.logs) (seen_node self.new.node self.new.count self.new.logs)) }
        ensures number { self.new.number ≡ self.old.number }
    {
        let made = self.step(event)?;
        Ok(made.into_parts())
    }

    /// `step_after`, taken apart.
    pub(crate) fn step_made_after(
        &mut self,
        receipt: &Receipt<L>,
        event: &Event,
    ) -> Result<Made<Receipt<L>, Mail<L>, Erase>, Refusal>
        ensures once { IfOk result (λ m. IsOneStep (node_event.Own event.now) m.reply (posts_left m.mail) (witness_of m.receipt) (seen_node self.old.node self.old.count self.old.logs) (seen_node self.new.node self.new.count self.new.logs)) }
        ensures stepped { IfOk result (λ m. IsReceiptOf event.now m.reply (witness_of m.receipt)) }
        ensures called { IfOk result (λ m. IsCalledBy event.now m.reply (witness_of m.receipt)) }
        ensures small { IfOk result (λ m. IsSmallCall event.now m.reply) }
        ensures later { IfOk result (λ m. (m.receipt.node ≡ receipt.now.node) × (receipt.now.entry.number < m.receipt.entry.number)) }
        ensures node { IfOk result (λ m. m.receipt.node ≡ self.old.number) }
        ensures mail { IfOk result (λ m. (m.mail.job ≡ m.receipt.job) × (m.mail.node ≡ m.receipt.node)) }
        ensures same { OnErr result (IsUntouched (seen_node self.old.node self.old.count self.old.logs) (seen_node self.new.node self.new.count self.new.logs)) }
        ensures refusal { IfErr result (λ r. (r ≡ NoMemory) ⊎ (r ≡ Stale)) }
        ensures number { self.new.number ≡ self.old.number }
    {
        let made = self.step_after(receipt, event)?;
        Ok(made.into_parts())
    }

    /// `arrive`, taken apart.
    pub(crate) fn arrive_made(
        &mut self,
        posted: Posted<L>,
    ) -> Result<Made<Receipt<L>, Mail<L>, Erase>, Refusal>
        ensures once { IfOk result (λ m. (a : Arrival) → arrival_of posted.from posted.message ≡ Some a → IsOneArrival posted.job a m.reply (posts_left m.mail) (witness_of m.receipt) (seen_node self.old.node self.old.count self.old.logs) (seen_node self.new.node self.new.count self.new.logs)) }
        ensures arrived { IfOk result (λ m. (a : Arrival) → arrival_of posted.from posted.message ≡ Some a → IsArrived posted.job a (witness_of m.receipt)) }
        ensures here { OnOk result (posted.to ≡ place.Node self.old.number) }
        ensures is { OnOk result (IsArrival (arrival_of posted.from posted.message)) }
        ensures of_job { IfOk result (λ m. m.receipt.job ≡ posted.job) }
        ensures node { IfOk result (λ m. m.receipt.node ≡ self.old.number) }
        ensures mail { IfOk result (λ m. (m.mail.job ≡ m.receipt.job) × (m.mail.node ≡ m.receipt.node)) }
        ensures stale { IsErrOf result Stale ↔ IsAstray self.old.number posted }
        ensures same { OnErr result (IsUntouched (seen_node self.old.node self.old.count self.old.logs) (seen_node self.new.node self.new.count self.new.logs)) }
        ensures refusal { IfErr result (λ r. (r ≡ NoMemory) ⊎ (r ≡ Stale)) }
        ensures number { self.new.number ≡ self.old.number }
    {
        let made = self.arrive(posted)?;
        Ok(made.into_parts())
    }
}
