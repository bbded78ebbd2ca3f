//! What a node with its journal, at its place in the history, promises to those that step it.
use crate::beside::nothing_beside;
use crate::looking::live_jobs_of;
use crate::recorded_directory::RecordedDirectory;
use crate::recorded_posts::{RecordedMail, RecordedPosted};
use crate::seats::{Seat, Seats};
use crate::{Agreement, Entered, Recorded, RecordedReceipt};
use bytes::Bytes;
use cluster_history::{ClusterShape, HistoryName};
use hashed_bytes::Hashed;
use job_region::Zeros;
use memory_growth::OutOfMemory;
use node_core::{Erase, JobRow, Prepared};
use node_gate::{Access, Actor, JournaledNode, Keeper, LiveJob, Made, Posted, SeatedNode};
use obj_id::{
    ChunkIndex, Command, DeviceKey, Endpoint, FetchNo, JobKey, JobNo, Message, NodeNo, ObjectId,
    Refusal, Usage,
};
use private_store::{Event, Judged};
use std::alloc::Global;
use std::slice;
use std::sync::Wait;
use std::sync::ledger::Ledger;

impl<L: Ledger + HistoryName, S: ClusterShape> JournaledNode for Recorded<L, S> {
    ghost use Rattle.std.specs.Prelude.{◌≡◌, ◌==◌, ℕ, Some, None};
    ghost use Rattle.cluster_history.specs.Rules.{GoesOn};
    ghost use Rattle.node_journal.specs.Recorded.{ComesAfter, IsLastIn, delivery_entry, event_entry};
    ghost use Rattle.std.proofs.Common.{rules};
    ghost use Rattle.obj_id.specs.declared.messages.Arrival.{Arrival};
    ghost use Rattle.private_store.specs.declared.schedules.NodeEvent.TheVariants as node_event;
    ghost use Rattle.private_store.specs.rules.Cluster.{arrival_of};
    ghost use Rattle.spill_work.specs.Line.{front_of};
    ghost use Rattle.row_steps.specs.Erased.{keys_of};
    ghost use Rattle.node_journal.specs.Auditing.{is_no};
    ghost use Rattle.node_journal.specs.Journals.{IsSwept, agreement, is_live_in};
    ghost use Rattle.node_journal.specs.Logs.{journal_of};
    ghost use Rattle.node_journal.specs.Looking.{AreLive, IsUsageTold};
    ghost use Rattle.node_journal.specs.Posts.{posts_left, IsAstray};
    ghost use Rattle.node_journal.specs.Stepping.{IsFolded, IsOneArrival, IsOneStep, IsUntouched, seen_node};
    ghost use Rattle.node_journal.specs.Witnesses.{IsArrived, IsCalledBy, IsReceiptOf, witness_of};

    type Receipt = RecordedReceipt<L, S>;

    type Mail = RecordedMail<L, S>;

    type Posted = RecordedPosted<L, S>;

    type Erase = Erase;

    type Entered = Entered<L>;

    type Prepared = Prepared;

    type Gone = JobRow;

    ghost node_number = { λ r. r.0.number };

    ghost made_at = { λ receipt. receipt.receipt.node };

    ghost entry_number = { λ receipt. receipt.receipt.entry.number };

    ghost job_of = { λ receipt. receipt.receipt.job };

    ghost posts = { λ mail. posts_left mail.0 };

    ghost keys = { keys_of };

    ghost steps = { λ e response sent receipt old new. IsOneStep (node_event.Own e) response sent (witness_of receipt.receipt) (seen_node old.0.node old.0.count old.0.logs) (seen_node new.0.node new.0.count new.0.logs) × GoesOn S.nodes S.memory old.1.0 old.1.1 old.1.1 new.1.1 (event_entry old.0.number e response) };

    ghost arrives = { λ posted response sent receipt old new. (a : Arrival) → arrival_of posted.0.from posted.0.message ≡ Some a → IsOneArrival posted.0.job a response sent (witness_of receipt.receipt) (seen_node old.0.node old.0.count old.0.logs) (seen_node new.0.node new.0.count new.0.logs)
        × GoesOn S.nodes S.memory old.1.0 old.1.1 posted.1.0 new.1.1 (delivery_entry S.nodes posted.0.job posted.0.from posted.0.to posted.0.message posted.1.0 posted.1.1 response) };

    ghost arrived = { λ posted receipt. (a : Arrival) → arrival_of posted.0.from posted.0.message ≡ Some a → IsArrived posted.0.job a (witness_of receipt.receipt)
        × IsLastIn (delivery_entry S.nodes posted.0.job posted.0.from posted.0.to posted.0.message posted.1.0 posted.1.1 (witness_of receipt.receipt).whole) receipt.sight };

    ghost astray = { λ r posted. IsAstray r.0.number posted.0 };

    ghost receipt_of = { λ e response receipt. IsReceiptOf e response (witness_of receipt.receipt) × IsLastIn (event_entry receipt.receipt.node e response) receipt.sight };

    ghost called_by = { λ e response receipt. IsCalledBy e response (witness_of receipt.receipt) × IsLastIn (event_entry receipt.receipt.node e response) receipt.sight };

    ghost rises = { λ earlier later. ComesAfter earlier.sight later.sight };

    ghost untouched = { λ old new. IsUntouched (seen_node old.0.node old.0.count old.0.logs) (seen_node new.0.node new.0.count new.0.logs) × (new.1 ≡ old.1) };

    ghost folds = { λ job old new. IsFolded job.0 (seen_node old.0.node old.0.count old.0.logs) (seen_node new.0.node new.0.count new.0.logs) × (new.1 ≡ old.1) };

    ghost sweeps = { λ old new. ((new.0.node ≡ old.0.node) × (new.0.count ≡ old.0.count) × (new.0.number ≡ old.0.number)) × ((job : ℕ) → IsSwept (is_live_in old.0.node job) (journal_of old.0.logs job) (journal_of new.0.logs job)) × (new.1 ≡ old.1) };

    ghost rests = { λ old new. (((new.0.node ≡ old.0.node) × (new.0.number ≡ old.0.number)) × ((new.0.logs ≡ old.0.logs) × (new.0.count ≡ old.0.count))) × (new.1 ≡ old.1) };

    ghost lets_in = { λ old new. ((new.0.logs ≡ old.0.logs) × (new.0.count ≡ old.0.count) × (new.0.number ≡ old.0.number)) × (new.1 ≡ old.1) };

    ghost pass = { λ entered. record { job = entered.job; key = entered.key; session = entered.session } };

    ghost shows_live = { λ r live. AreLive r.0.node r.0.logs live };

    ghost shows_usage = { λ r job told. IsUsageTold r.0.node job told };

    ghost idle = { λ r. front_of r.0.node.works.works ≡ None };

    ghost misses = { λ r receipt. is_no (agreement (receipt.receipt.node == r.0.number) receipt.receipt.entry (journal_of r.0.logs receipt.receipt.job.0)) };

    fn number(&self) -> u32 {
        self.kept.number()
    }

    fn step<R: Wait>(
        &mut self,
        rt: &R,
        actor: &mut Actor,
        event: &Event,
        earlier: &Option<RecordedReceipt<L, S>>,
    ) -> Result<Made<RecordedReceipt<L, S>, RecordedMail<L, S>, Erase>, OutOfMemory> {
        let made = self.record_step(rt, event, earlier)?;
        actor.note(event);
        Ok(made)
    }

    fn step_after<R: Wait>(
        &mut self,
        rt: &R,
        actor: &mut Actor,
        receipt: &RecordedReceipt<L, S>,
        event: &Event,
    ) -> Result<Made<RecordedReceipt<L, S>, RecordedMail<L, S>, Erase>, Refusal> {
        let made = self.record_step_after(rt, receipt, event)?;
        actor.note(event);
        Ok(made)
    }

    fn arrive<R: Wait>(
        &mut self,
        rt: &R,
        posted: RecordedPosted<L, S>,
    ) -> Result<Made<RecordedReceipt<L, S>, RecordedMail<L, S>, Erase>, Refusal> {
        self.record_arrival(rt, posted)
    }

    fn fold(&mut self, job: JobNo, _ended: &RecordedReceipt<L, S>) {
        let Recorded { kept, place: _ } = self;
        let _ = kept.checkpoint(job);
    }

    fn sweep(&mut self, in_turn: bool, job: Option<JobNo>) {
        let Recorded { kept, place: _ } = self;
        if in_turn {
            kept.sweep();
        }
        if let Some(job) = job {
            // without memory for a fold, the next command makes up for it
            let _ = kept.sweep_job(job);
        }
    }

    fn has_work(&self) -> bool {
        self.kept.has_work()
    }

    fn misses(&self, receipt: &RecordedReceipt<L, S>) -> bool {
        matches!(self.kept.agrees(&receipt.receipt), Agreement::No)
    }

    fn input(receipt: &RecordedReceipt<L, S>) -> Option<&Judged> {
        receipt.receipt.input().as_ref()
    }

    fn job(receipt: &RecordedReceipt<L, S>) -> JobNo {
        receipt.receipt.job()
    }

    fn keys(erase: &Erase) -> &[DeviceKey] {
        match erase {
            Erase::NoKey => &[],
            Erase::One(key) => slice::from_ref(key),
            Erase::Many(keys) => keys.as_slice(),
        }
    }

    fn enter(&mut self, job: JobNo, key: &JobKey) -> Result<Entered<L>, Refusal> {
        let Recorded { kept, place: _ } = self;
        kept.enter(job, key)
    }

    fn job_entered(entered: &Entered<L>) -> JobNo {
        entered.job()
    }

    fn session(entered: &Entered<L>) -> u32 {
        entered.session()
    }

    fn wants(&self, job: JobNo, command: &Command<Bytes>) -> bool {
        self.kept.node().wants(job, command)
    }

    fn share_copy(&mut self, job: JobNo, id: &ObjectId) -> Option<Bytes> {
        let Recorded { kept, place: _ } = self;
        kept.share_copy(job, id)
    }

    fn expect(&mut self, job: JobNo, id: &ObjectId, hashed: Hashed) {
        let Recorded { kept, place: _ } = self;
        kept.expect(job, id, hashed);
    }

    fn compare(&mut self, job: JobNo, id: &ObjectId) -> bool {
        let Recorded { kept, place: _ } = self;
        kept.compare(job, id)
    }

    fn extent_wanted(&self, job: JobNo, command: &Command<Bytes>) -> Option<u32> {
        self.kept.node().extent_wanted(job, command)
    }

    fn length_with_last(
        &self,
        job: JobNo,
        from: NodeNo,
        id: &ObjectId,
        number: FetchNo,
        index: ChunkIndex,
        len: usize,
    ) -> Option<u32> {
        self.kept
            .node()
            .length_with_last(job, from, id, number, index, len)
    }

    fn copy_part(&self, job: JobNo, id: &ObjectId, offset: u32, len: u32) -> Option<Bytes> {
        self.kept.node().copy_part(job, id, offset, len)
    }

    fn prepare(&mut self, job: JobNo, prepared: Prepared) -> Prepared {
        let Recorded { kept, place: _ } = self;
        kept.prepare(job, prepared)
    }

    fn take_gone(&mut self) -> Option<JobRow> {
        let Recorded { kept, place: _ } = self;
        kept.take_gone()
    }

    fn nothing_prepared() -> Prepared {
        Prepared::nothing()
    }

    fn prepared_zeros(alloc: Global, len: u32) -> Prepared {
        Prepared {
            zeros: Zeros::for_object(alloc, len).ok(),
            ..Prepared::nothing()
        }
    }

    fn prepared_bytes(hashed: Option<Hashed>, filled: Option<Bytes>) -> Prepared {
        Prepared {
            hashed,
            filled,
            ..Prepared::nothing()
        }
    }

    fn usage(&self, job: JobNo) -> Result<Usage, Refusal> {
        self.kept.node().usage(job)
    }

    fn live_jobs(&self, alloc: Global) -> Result<Vec<LiveJob>, OutOfMemory> {
        live_jobs_of(alloc, &self.kept)
    }

    fn entries(&self) -> u64 {
        self.kept.entries()
    }

    ghost ends = { Prim.search rules };
}

impl<L: Ledger + HistoryName, S: ClusterShape> SeatedNode for Recorded<L, S> {
    ghost use Rattle.std.specs.Prelude.{◌≡◌, ◌≤◌, ◌+◌, ◌-◌};
    ghost use Rattle.job_admission.specs.Admissions.{largest_memory};

    type Share = Seats<L, S>;

    type Seat = Seat<L, S>;

    ghost parts = { λ share. share.0.0 };

    ghost amount = { λ share. share.0.1 };

    ghost all_parts = { S.nodes };

    ghost next_number = { λ share. S.nodes + 1 - share.1 };

    ghost seat_number = { λ seat. seat };

    ghost may_have = { λ memory. (memory ≤ largest_memory) × (memory ≡ S.memory) };

    fn split_seat(share: &mut Seats<L, S>) -> Seat<L, S> {
        share.split()
    }

    fn seated(alloc: Global, number: u32, memory: u64, seat: Seat<L, S>) -> Recorded<L, S> {
        Recorded::seated(alloc, number, memory, seat)
    }

    fn directory(alloc: Global, rest: Seats<L, S>) -> RecordedDirectory<L, S> {
        rest.into_directory(alloc)
    }

    fn nothing_beside<H: Keeper<Recorded<L, S>>, R: Wait>(
        rt: &R,
        nodes: &[H],
        other: &mut Seats<L, S>,
        access: &Access<Recorded<L, S>>,
    ) {
        nothing_beside(rt, nodes, other, access);
    }
}

impl<L: Ledger + HistoryName, S: ClusterShape> Posted for RecordedPosted<L, S> {
    ghost use Rattle.std.specs.Prelude.{option_map};
    ghost use Rattle.node_journal.specs.Recorded.{GoesThrough, HasPassed};

    type Directory = RecordedDirectory<L, S>;

    ghost of_job = { λ posted. posted.0.job };

    ghost sender = { λ posted. posted.0.from };

    ghost addressee = { λ posted. posted.0.to };

    ghost content = { λ posted. posted.0.message };

    ghost passes = { λ old new posted answer. HasPassed old.0 new.0 posted.0 (option_map (λ p. p.0) answer) × GoesThrough S.nodes S.memory old.1.0 new.1.0 posted.0 posted.1 (option_map (λ p. p.1) answer) };

    fn job(&self) -> JobNo {
        self.posted.job()
    }

    fn from(&self) -> Endpoint {
        self.posted.from()
    }

    fn to(&self) -> Endpoint {
        self.posted.to()
    }

    fn message(&self) -> &Message {
        self.posted.message()
    }

    fn through<R: Wait>(
        self,
        rt: &R,
        directory: &mut RecordedDirectory<L, S>,
    ) -> Result<Option<RecordedPosted<L, S>>, OutOfMemory> {
        self.pass_through(rt, directory)
    }
}
