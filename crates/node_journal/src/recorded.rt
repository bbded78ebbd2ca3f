//! A node with its journal at its place in the history of its cluster: each step is an entry of both.
ghost use Rattle.std.specs.Prelude.{◌≡◌, ◌⊎◌, ◌↔◌, ◌≤◌, ◌<◌, ◌+◌, ◌^◌, List, Some, None, IfOk, IfErr, IfSome, OnErr, IsErrOf};
ghost use mathlib.Core.List.{IsPrefix};
ghost use Rattle.job_admission.specs.Admissions.{largest_memory};
ghost use Rattle.obj_id.specs.declared.messages.Arrival.{Arrival};
ghost use Rattle.obj_id.specs.declared.refusals.Refusal.TheVariants.{NoMemory, Stale};
ghost use Rattle.private_store.specs.declared.schedules.NodeEvent.TheVariants as node_event;
ghost use Rattle.private_store.specs.declared.schedules.Traced.{Traced};
ghost use Rattle.private_store.specs.rules.Cluster.{arrival_of};
ghost use Rattle.obj_id.specs.declared.messages.Endpoint.TheVariants as place;
ghost use Rattle.cluster_history.specs.Histories.{count_at};
ghost use Rattle.cluster_history.specs.Rules.{GoesOn, MayFollow};
ghost use Rattle.cluster_history.specs.Sending.{IsMailOf};
ghost use Rattle.node_gate.specs.Calls.{IsSmallCall};
ghost use Rattle.node_journal.specs.Posts.{posts_left, IsAstray};
ghost use Rattle.node_journal.specs.Recorded.{ComesAfter, IsLastIn, IsRecorded, delivery_entry, event_entry};
ghost use Rattle.node_journal.specs.Stepping.{IsOneArrival, IsOneStep, IsUntouched, seen_node};
ghost use Rattle.node_journal.specs.Witnesses.{IsArrived, IsCalledBy, IsReceiptOf, witness_of};

use crate::posts::Mail;
use crate::recorded_directory::{Delivered, Delivery};
use crate::recorded_posts::{RecordedMail, RecordedPosted};
use crate::seats::Seat;
use crate::{Kept, Receipt};
use cluster_history::{ClusterShape, HistoryName, Place, Sight};
use logbook::Plain;
use memory_growth::OutOfMemory;
use node_core::Erase;
use node_gate::Made;
use obj_id::{Endpoint, Refusal};
use private_store::{Event, Traced};
use std::alloc::Global;
use std::marker::Model;
use std::snapshot::Snapshot;
use std::sync::Wait;
use std::sync::ledger::Ledger;

/// A node with its journal, which holds one part of its name's ledger and its place in the history of its cluster. Contracts see both.
///
/// Whenever it can be seen, the node shows what it shows after all that its place knows of the history, and the place has as many entries
/// there as the journal.
pub struct Recorded<L: Ledger + HistoryName, S: ClusterShape> {
    pub(crate) kept: Kept<L>,
    pub(crate) place: Place<L, S>,
}

impl<L: Ledger + HistoryName, S: ClusterShape> Model for Recorded<L, S> {
    ghost use Rattle.std.specs.Prelude.{ℕ, List};
    ghost use Rattle.private_store.specs.declared.schedules.Traced.{Traced};
    ghost use Rattle.node_journal.specs.declared.kept.Kept.{Kept};
    ghost use Rattle.node_journal.specs.Recorded.{IsRecorded};

    ghost Value = { Kept L × (ℕ × List Traced) };

    ghost view = { λ r. (r.kept, r.place) };

    ghost invariant = { λ r. IsRecorded S.nodes S.memory r.kept.node r.kept.number r.kept.count r.place };
}

// By hand, so that it is proved here and not in each crate above.
impl<L: Ledger + HistoryName, S: ClusterShape> Drop for Recorded<L, S> {
    fn drop(self) {
        let Recorded {
            kept: _kept,
            place: _place,
        } = self;
    }
}

/// The receipt of an entry of the journal, with the history up to the same step.
#[derive(Drop)]
pub struct RecordedReceipt<L: Ledger + HistoryName, S: ClusterShape> {
    pub(crate) receipt: Receipt<L>,
    pub(crate) sight: Sight<L, S>,
}

impl<L: Ledger + HistoryName, S: ClusterShape> RecordedReceipt<L, S> {
    /// The receipt of the journal's entry.
    pub fn receipt(&self) -> &Receipt<L>
        ensures { result.now ≡ self.now.receipt }
    {
        &self.receipt
    }

    /// The history up to the step.
    pub fn sight(&self) -> &Sight<L, S>
        ensures { result.now ≡ self.now.sight }
    {
        &self.sight
    }
}

/// The entry of an event, which its receipt has whole.
struct Happened;

impl<L: Ledger> Plain<Receipt<L>, Traced, u64> for Happened {
    ghost use Rattle.std.specs.Prelude.{None};
    ghost use Rattle.node_journal.specs.Recorded.{event_entry};

    ghost ask = { λ r. event_entry r.node r.asked.value r.whole.value };

    ghost state = { λ r. None };
}

impl<L: Ledger + HistoryName, S: ClusterShape> Recorded<L, S> {
    /// A node of this number, with so many bytes of memory, no job and no entry, on its seat.
    pub(crate) fn seated(
        alloc: Global,
        number: u32,
        memory: u64,
        seat: Seat<L, S>,
    ) -> Recorded<L, S>
        requires memory { (memory ≤ largest_memory) × (memory ≡ S.memory) }
        requires number { seat ≡ number }
        ensures { result.0.number ≡ number }
    {
        let (share, place) = seat.into_parts();
        Recorded {
            kept: Kept::new(alloc, number, memory, share),
            place,
        }
    }

    /// One step of an event, after that of an earlier receipt, if one is shown. The error is out of memory.
    pub(crate) fn record_step<R: Wait>(
        &mut self,
        rt: &R,
        event: &Event,
        earlier: &Option<RecordedReceipt<L, S>>,
    ) -> Result<Made<RecordedReceipt<L, S>, RecordedMail<L, S>, Erase>, OutOfMemory>
        ensures once { IfOk result (λ m. IsOneStep (node_event.Own event.now) m.reply (posts_left m.mail.0) (witness_of m.receipt.receipt) (seen_node self.old.0.node self.old.0.count self.old.0.logs) (seen_node self.new.0.node self.new.0.count self.new.0.logs) × GoesOn S.nodes S.memory self.old.1.0 self.old.1.1 self.old.1.1 self.new.1.1 (event_entry self.old.0.number event.now m.reply)) }
        ensures stepped { IfOk result (λ m. IsReceiptOf event.now m.reply (witness_of m.receipt.receipt) × IsLastIn (event_entry m.receipt.receipt.node event.now m.reply) m.receipt.sight) }
        ensures called { IfOk result (λ m. IsCalledBy event.now m.reply (witness_of m.receipt.receipt) × IsLastIn (event_entry m.receipt.receipt.node event.now m.reply) m.receipt.sight) }
        ensures rises { IfOk result (λ m. IfSome earlier.now (λ r. ComesAfter r.sight m.receipt.sight)) }
        ensures small { IfOk result (λ m. IsSmallCall event.now m.reply) }
        ensures node { IfOk result (λ m. m.receipt.receipt.node ≡ self.old.0.number) }
        ensures same { OnErr result (IsUntouched (seen_node self.old.0.node self.old.0.count self.old.0.logs) (seen_node self.new.0.node self.new.0.count self.new.0.logs) × (self.new.1 ≡ self.old.1)) }
        ensures number { self.new.0.number ≡ self.old.0.number }
    {
        let Recorded { kept, place } = self;
        let made = kept.step_made(event)?;
        let count = kept.entries() - 1;
        let before = known_with(place, earlier);
        add_event(rt, place, count, &made.receipt, &before);
        Ok(with_sight(made, place.sight()))
    }

    /// The same, if the journal doesn't say No of the receipt: otherwise the error is `Stale`.
    pub(crate) fn record_step_after<R: Wait>(
        &mut self,
        rt: &R,
        receipt: &RecordedReceipt<L, S>,
        event: &Event,
    ) -> Result<Made<RecordedReceipt<L, S>, RecordedMail<L, S>, Erase>, Refusal>
        ensures once { IfOk result (λ m. IsOneStep (node_event.Own event.now) m.reply (posts_left m.mail.0) (witness_of m.receipt.receipt) (seen_node self.old.0.node self.old.0.count self.old.0.logs) (seen_node self.new.0.node self.new.0.count self.new.0.logs) × GoesOn S.nodes S.memory self.old.1.0 self.old.1.1 self.old.1.1 self.new.1.1 (event_entry self.old.0.number event.now m.reply)) }
        ensures called { IfOk result (λ m. IsCalledBy event.now m.reply (witness_of m.receipt.receipt) × IsLastIn (event_entry m.receipt.receipt.node event.now m.reply) m.receipt.sight) }
        ensures small { IfOk result (λ m. IsSmallCall event.now m.reply) }
        ensures later { IfOk result (λ m. (m.receipt.receipt.node ≡ receipt.now.receipt.node) × (receipt.now.receipt.entry.number < m.receipt.receipt.entry.number)) }
        ensures rises { IfOk result (λ m. ComesAfter receipt.now.sight m.receipt.sight) }
        ensures node { IfOk result (λ m. m.receipt.receipt.node ≡ self.old.0.number) }
        ensures same { OnErr result (IsUntouched (seen_node self.old.0.node self.old.0.count self.old.0.logs) (seen_node self.new.0.node self.new.0.count self.new.0.logs) × (self.new.1 ≡ self.old.1)) }
        ensures refusal { IfErr result (λ r. (r ≡ NoMemory) ⊎ (r ≡ Stale)) }
        ensures number { self.new.0.number ≡ self.old.0.number }
    {
        let Recorded { kept, place } = self;
        let made = kept.step_made_after(&receipt.receipt, event)?;
        let count = kept.entries() - 1;
        let mut before = place.sight();
        before.learn(&receipt.sight);
        add_event(rt, place, count, &made.receipt, &before);
        Ok(with_sight(made, place.sight()))
    }

    /// A message that was posted to the node arrives, after the step that sent it. `Stale` if it was posted to another place or isn't made
    /// for a node, and `NoMemory`: then it is lost.
    pub(crate) fn record_arrival<R: Wait>(
        &mut self,
        rt: &R,
        posted: RecordedPosted<L, S>,
    ) -> Result<Made<RecordedReceipt<L, S>, RecordedMail<L, S>, Erase>, Refusal>
        ensures once { IfOk result (λ m. (a : Arrival) → arrival_of posted.0.from posted.0.message ≡ Some a → IsOneArrival posted.0.job a m.reply (posts_left m.mail.0) (witness_of m.receipt.receipt) (seen_node self.old.0.node self.old.0.count self.old.0.logs) (seen_node self.new.0.node self.new.0.count self.new.0.logs)
            × GoesOn S.nodes S.memory self.old.1.0 self.old.1.1 posted.1.0 self.new.1.1 (delivery_entry S.nodes posted.0.job posted.0.from posted.0.to posted.0.message posted.1.0 posted.1.1 m.reply)) }
        ensures arrived { IfOk result (λ m. (a : Arrival) → arrival_of posted.0.from posted.0.message ≡ Some a → IsArrived posted.0.job a (witness_of m.receipt.receipt)
            × IsLastIn (delivery_entry S.nodes posted.0.job posted.0.from posted.0.to posted.0.message posted.1.0 posted.1.1 (witness_of m.receipt.receipt).whole) m.receipt.sight) }
        ensures node { IfOk result (λ m. m.receipt.receipt.node ≡ self.old.0.number) }
        ensures of_job { IfOk result (λ m. m.receipt.receipt.job ≡ posted.0.job) }
        ensures stale { IsErrOf result Stale ↔ IsAstray self.old.0.number posted.0 }
        ensures same { OnErr result (IsUntouched (seen_node self.old.0.node self.old.0.count self.old.0.logs) (seen_node self.new.0.node self.new.0.count self.new.0.logs) × (self.new.1 ≡ self.old.1)) }
        ensures refusal { IfErr result (λ r. (r ≡ NoMemory) ⊎ (r ≡ Stale)) }
        ensures number { self.new.0.number ≡ self.old.0.number }
    {
        let Recorded { kept, place } = self;
        let (posted, (sight, index)) = posted.into_parts();
        let (job, from, to) = (posted.job(), posted.from(), posted.to());
        let message = Snapshot::of(posted.message());
        let made = kept.arrive_made(posted)?;
        let count = kept.entries() - 1;
        let delivered = Delivered {
            job,
            from,
            to,
            message,
            sight,
            index,
            reply: Snapshot::of(&made.reply),
        };
        place.add::<R, Delivered<L, S>, Delivery>(rt, count, &delivered, &delivered.sight);
        Ok(with_sight(made, place.sight()))
    }
}

/// All that a place knows, and what an earlier receipt has, if one is shown.
fn known_with<L: Ledger + HistoryName, S: ClusterShape>(
    place: &Place<L, S>,
    earlier: &Option<RecordedReceipt<L, S>>,
) -> Sight<L, S>
    ensures known { IsPrefix place.now.1 result }
    ensures earlier { IfSome earlier.now (λ r. IsPrefix r.sight result) }
{
    let mut known = place.sight();
    if let Some(receipt) = earlier {
        known.learn(&receipt.sight);
    }
    known
}

/// Adds the entry of an event to the history, after what was seen of it, the place's own among it.
fn add_event<R: Wait, L: Ledger + HistoryName, S: ClusterShape>(
    rt: &R,
    place: &mut Place<L, S>,
    count: u64,
    receipt: &Receipt<L>,
    seen: &Sight<L, S>,
)
    requires few { count + 1 < 2 ^ 64 }
    requires counted { count_at S.nodes place.old.0 place.old.1 ≡ count }
    requires here { receipt.now.node ≡ place.old.0 }
    requires follows { (before : List Traced) → MayFollow S.nodes S.memory place.old.0 place.old.1 before (event_entry receipt.now.node receipt.now.asked.value receipt.now.whole.value) }
    ensures place { place.new.0 ≡ place.old.0 }
    ensures goes_on { GoesOn S.nodes S.memory place.old.0 place.old.1 place.old.1 place.new.1 (event_entry receipt.now.node receipt.now.asked.value receipt.now.whole.value) }
    ensures after { (earlier : List Traced) → IsPrefix earlier seen.now → ComesAfter earlier place.new.1 }
{
    place.add::<R, Receipt<L>, Happened>(rt, count, receipt, seen);
}

/// What a step gave, with the history up to it, whose newest entry sent the mail.
fn with_sight<L: Ledger + HistoryName, S: ClusterShape>(
    made: Made<Receipt<L>, Mail<L>, Erase>,
    sight: Sight<L, S>,
) -> Made<RecordedReceipt<L, S>, RecordedMail<L, S>, Erase>
    requires { ∥ IsMailOf S.nodes made.mail.job.0 (place.Node made.mail.node) sight 0 (posts_left made.mail) ∥₁ }
    ensures reply { result.reply ≡ made.reply }
    ensures erase { result.erase ≡ made.erase }
    ensures mail { result.mail.0 ≡ made.mail }
    ensures receipt { (result.receipt.receipt ≡ made.receipt) × (result.receipt.sight ≡ sight) }
{
    let Made {
        reply,
        erase,
        mail,
        receipt,
    } = made;
    let all = mail.rest.len();
    Made {
        reply,
        erase,
        mail: RecordedMail {
            mail,
            sight: sight.again(),
            given: 0,
            all,
        },
        receipt: RecordedReceipt { receipt, sight },
    }
}
