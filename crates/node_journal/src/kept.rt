//! A node with its journal, under one name.
ghost use Rattle.std.specs.Prelude.{◌≡◌, ◌≢◌, ◌↔◌, ℕ, ◌+◌, ◌==◌, ◌&&◌, ◌⊎◌, ◌<◌, ◌≤◌, Bool, [], true, false, not, length, Some, None, IfOk, IfErr, OnOk, OnErr, IsErrOf, IsOk, is_some};
ghost use Rattle.std.specs.List.{list_any, IsDistinct};
ghost use Rattle.std.specs.List.Sorted.{IsNonDecreasingBy};
ghost use Rattle.std.specs.Map.{lookup};
ghost use Rattle.obj_id.specs.declared.ids.JobNo.{JobNo};
ghost use Rattle.obj_id.specs.declared.commands.Reply.TheVariants as reply;
ghost use Rattle.obj_id.specs.declared.refusals.Refusal.{Refusal};
ghost use Rattle.obj_id.specs.declared.refusals.Refusal.TheVariants.{NoMemory, NotAdmitted, TooMany, Stale};
ghost use Rattle.private_store.specs.declared.schedules.NodeEvent.TheVariants as node_event;
ghost use Rattle.private_store.specs.laws.Answers.{wants_memory, is_small_reply};
ghost use Rattle.job_admission.specs.Admissions.{largest_memory, sessions_entered, enter_check, entered};
ghost use Rattle.spill_work.specs.Line.{front_of};
ghost use Rattle.node_core.specs.Hosted.{Shows};
ghost use Rattle.node_core.specs.Steps.{job_at, NodeStep};
ghost use Rattle.private_store.specs.rules.Contents.{View};
ghost use Rattle.private_store.specs.rules.Private.{no_store, view_of};
ghost use Rattle.obj_id.specs.declared.messages.Endpoint.TheVariants as place;
ghost use Rattle.node_core.specs.Judged.{IsJudged, IsArrivalJudged, IsSmall};
ghost use Rattle.node_core.specs.Outcomes.{node_given_of};
ghost use Rattle.node_journal.specs.declared.entries.Agreement.TheVariants.{No};
ghost use Rattle.node_journal.specs.declared.entries.Entry.{Entry};
ghost use Rattle.node_journal.specs.Logs.{journal_of, list_of, was_kept};
ghost use Rattle.node_journal.specs.MemoryLast.{IsStepLast};
ghost use Rattle.node_journal.specs.Posts.{IsArrival, IsAstray, is_entered};
ghost use Rattle.private_store.specs.rules.Cluster.{arrival_of};
ghost use Rattle.private_store.specs.rules.Jobs.{same_job};
ghost use Rattle.obj_id.specs.declared.messages.Arrival.{Arrival};
ghost use Rattle.node_journal.specs.Journals.{entry_for, event_name, is_this, rise_above, Tells, AreEntriesNumbered, agreement, folded_if, journal_after, most_lines, is_call, IsSwept, StillAgrees, fresh, has_entries, is_live_in, with_notes_absorbed, swept_if};

use crate::entered::Entered;
use crate::entries::{Agreement, Entry, Line, Receipt, entry_of, job_of, name_of, name_of_arrival};
use crate::folding::{base_of, bases_of};
use crate::logs::Logs;
use crate::not_stepped::NotStepped;
use crate::posts::{Made, Posted, arrival};
use crate::sweeping::sweep_job;
use bytes::Bytes;
use hashed_bytes::Hashed;
use memory_growth::OutOfMemory;
use memory_growth::counters::Counter;
use node_core::{JobRow, Node, Prepared};
use obj_id::{Arrival, Endpoint, ItemList, JobKey, JobNo, ObjectId, Refusal};
use private_store::Event;
use std::alloc::Global;
use std::marker::PhantomData;
use std::snapshot::Snapshot;
use std::sync::ledger::{Ledger, Share};

/// How many lists a sweep looks at. A Grant makes one at most: with a sweep after each, there are never many more lists that are of no
/// use than others.
const LISTS_SWEPT: usize = 2;

/// A node with its journal, which holds one part of the ledger that its name is: nothing else of that part's name can be
/// stepped, since nobody else gets the part.
///
/// Whenever it can be seen, the node shows of every job number a view of which the job's journal tells: the replay of its
/// lines on its base gives that view without its contents, and each entry that is an input has the answer that the replay gives
/// there. A Take's entry gives the first work of its job that isn't taken there. The numbers of the lines rise and are above what is
/// covered, and no list is longer than 8,192 lines.
#[derive(Drop)]
pub struct Kept<L: Ledger> {
    alloc: Global,
    node: Node,
    number: u32,
    logs: Logs,
    // of all jobs' entries
    count: Counter,
    pub(crate) ledger_share: Share<L>,
    pub ghost seated: { ledger_share.parts ≡ 1 },
    pub ghost blank: { ledger_share.amount ≡ 0 },
    pub ghost named: { node.number ≡ number },
    pub ghost numbered: { (job : ℕ) → AreEntriesNumbered count (journal_of logs job) },
    pub ghost few: { (job : ℕ) → length (list_of logs job) ≤ most_lines },
    pub ghost response: { ∥ Tells node (journal_of logs) ∥₁ },
}

impl<L: Ledger> Kept<L> {
    /// A node of this number, with so many bytes of memory, no job and no entry, on one part of the name.
    pub fn new(alloc: Global, number: u32, memory: u64, ledger_share: Share<L>) -> Kept<L>
        requires memory { memory ≤ largest_memory }
        requires ledger_share { (ledger_share.parts ≡ 1) × (ledger_share.amount ≡ 0) }
        ensures number { result.number ≡ number }
        ensures admissions { result.node.admissions ≡ record { memory = memory; greatest = 0; live = [] } }
        ensures works { result.node.works ≡ record { works = []; used = [] } }
        ensures grants { result.node.grants ≡ [] }
        ensures shows { (job : ℕ) → Shows result.node job (view_of (no_store job)) }
        ensures count { result.count ≡ 0 }
        ensures empty { result.logs ≡ [] }
    {
        Kept {
            alloc,
            node: Node::new(alloc, number, memory),
            number,
            logs: Logs::new(alloc),
            count: Counter::new(),
            ledger_share,
        }
    }

    /// Steps the node by one event, and adds one entry, which the receipt names, and after it a note to each job that the
    /// step told of a grant. The entry stands under the event's job, and a Take's under the job whose work it gives. A list that
    /// might become longer than 8,192 lines by that is folded first: its base is then the replay of its old base and lines, and
    /// it has the new lines alone.
    ///
    /// The error is out of memory for its entry or a fold, or for the step itself, and then no other refusal was due; or that
    /// 1,152,921,504,606,846,975 entries were made, which it says only then. Nothing has changed.
    pub fn step(&mut self, event: &Event) -> Result<Made<L>, NotStepped>
        ensures node { IfOk result (λ r. NodeStep self.old.node (node_event.Own event.now) (node_given_of r.outcome) self.new.node) }
        ensures journal { IfOk result (λ r. (job : ℕ) → journal_of self.new.logs job
            ≡ journal_after self.old.node (self.old.count + 1) (node_event.Own event.now) r.outcome.judged (node_given_of r.outcome) job (journal_of self.old.logs job)) }
        ensures receipt { IfOk result (λ r. (r.receipt.node ≡ self.old.number) × (r.receipt.job.0 ≡ job_at self.old.node.works.works (node_event.Own event.now)) × (r.receipt.entry ≡ entry_for (self.old.count + 1) (event_name (node_event.Own event.now)) r.outcome.judged r.outcome.reply)) }
        ensures asked { IfOk result (λ r. r.receipt.asked.value ≡ event.now) }
        ensures whole { IfOk result (λ r. r.receipt.whole.value ≡ r.outcome.reply) }
        ensures judged { IfOk result (λ r. IsJudged self.old.node event.now r.outcome.reply r.outcome.judged) }
        ensures count { OnOk result (self.new.count ≡ self.old.count + 1) }
        ensures answered { IfOk result (λ r. is_call event.now ≡ true → wants_memory r.outcome.reply ≡ false) }
        ensures small { IfOk result (λ r. is_call event.now ≡ true → is_small_reply r.outcome.reply ≡ true) }
        ensures memory_last { IfErr result (IsStepLast self.old.node self.old.count event.now) }
        ensures number { self.new.number ≡ self.old.number }
        ensures same { OnErr result ((self.new.node ≡ self.old.node) × (self.new.count ≡ self.old.count)) }
        ensures unchanged { OnErr result ((job : ℕ) → journal_of self.new.logs job ≡ journal_of self.old.logs job) }
    {
        let Kept {
            alloc,
            node,
            number,
            logs,
            count,
            ledger_share: _,
        } = self;
        record(*alloc, *number, node, logs, count, event)
    }

    /// A message that was posted to this node arrives, by `Node::arrive`, and adds one entry to its job's list, which the receipt
    /// names. It tells nobody of a grant, so there is no note. The list is folded first if it has 8,192 lines: its base is then
    /// the replay of its old base and lines, and it has the new entry alone.
    ///
    /// `Stale` if it was posted to another place, or isn't made for a node; and `NoMemory` if the message, its entry or a fold
    /// finds no memory, or if 1,152,921,504,606,846,975 entries were made. Then nothing has changed.
    pub fn arrive(&mut self, posted: Posted<L>) -> Result<Made<L>, Refusal>
        ensures stale { IsErrOf result Stale ↔ IsAstray self.old.number posted }
        ensures here { OnOk result (posted.to ≡ place.Node self.old.number) }
        ensures is { OnOk result (IsArrival (arrival_of posted.from posted.message)) }
        ensures node { IfOk result (λ r. (a : Arrival) → arrival_of posted.from posted.message ≡ Some a → NodeStep self.old.node (node_event.Arrive posted.job a) (node_given_of r.outcome) self.new.node) }
        ensures journal { IfOk result (λ r. (a : Arrival) → arrival_of posted.from posted.message ≡ Some a → (other : ℕ) → journal_of self.new.logs other
            ≡ journal_after self.old.node (self.old.count + 1) (node_event.Arrive posted.job a) r.outcome.judged (node_given_of r.outcome) other (journal_of self.old.logs other)) }
        ensures receipt { IfOk result (λ r. (r.receipt.node ≡ self.old.number) × (r.receipt.job.0 ≡ posted.job.0) × ((a : Arrival) → arrival_of posted.from posted.message ≡ Some a → r.receipt.entry ≡ entry_for (self.old.count + 1) (event_name (node_event.Arrive posted.job a)) r.outcome.judged r.outcome.reply)) }
        ensures whole { IfOk result (λ r. r.receipt.whole.value ≡ r.outcome.reply) }
        ensures judged { IfOk result (λ r. (a : Arrival) → arrival_of posted.from posted.message ≡ Some a → IsArrivalJudged self.old.node posted.job a r.outcome.reply r.outcome.judged) }
        ensures entered { IfOk result (λ r. (a : Arrival) → arrival_of posted.from posted.message ≡ Some a → is_entered a r.outcome.reply r.outcome.judged ≡ true) }
        ensures silent { IfOk result (λ r. r.outcome.notes ≡ []) }
        ensures count { OnOk result (self.new.count ≡ self.old.count + 1) }
        ensures number { self.new.number ≡ self.old.number }
        ensures memory { (r : Refusal) → IsErrOf result r → r ≢ Stale → r ≡ NoMemory }
        ensures same { OnErr result ((self.new.node ≡ self.old.node) × (self.new.count ≡ self.old.count)) }
        ensures unchanged { OnErr result ((other : ℕ) → journal_of self.new.logs other ≡ journal_of self.old.logs other) }
    {
        let Posted {
            job,
            from,
            to,
            message,
            ..
        } = posted;
        if to != Endpoint::Node(self.number) {
            return Err(Refusal::Stale);
        }
        match arrival(from, message) {
            None => Err(Refusal::Stale),
            Some(arrival) => Ok(self.take_in(job, &arrival)?),
        }
    }

    /// The message arrives, and its entry is added. The error is out of memory, and then nothing has changed.
    fn take_in(&mut self, job: JobNo, arrival: &Arrival) -> Result<Made<L>, OutOfMemory>
        ensures node { IfOk result (λ r. NodeStep self.old.node (node_event.Arrive job arrival.now) (node_given_of r.outcome) self.new.node) }
        ensures journal { IfOk result (λ r. (other : ℕ) → journal_of self.new.logs other
            ≡ journal_after self.old.node (self.old.count + 1) (node_event.Arrive job arrival.now) r.outcome.judged (node_given_of r.outcome) other (journal_of self.old.logs other)) }
        ensures receipt { IfOk result (λ r. (r.receipt.node ≡ self.old.number) × (r.receipt.job.0 ≡ job.0) × (r.receipt.entry ≡ entry_for (self.old.count + 1) (event_name (node_event.Arrive job arrival.now)) r.outcome.judged r.outcome.reply)) }
        ensures whole { IfOk result (λ r. r.receipt.whole.value ≡ r.outcome.reply) }
        ensures judged { IfOk result (λ r. IsArrivalJudged self.old.node job arrival.now r.outcome.reply r.outcome.judged) }
        ensures entered { IfOk result (λ r. is_entered arrival.now r.outcome.reply r.outcome.judged ≡ true) }
        ensures silent { IfOk result (λ r. r.outcome.notes ≡ []) }
        ensures count { OnOk result (self.new.count ≡ self.old.count + 1) }
        ensures number { self.new.number ≡ self.old.number }
        ensures same { OnErr result ((self.new.node ≡ self.old.node) × (self.new.count ≡ self.old.count)) }
        ensures unchanged { OnErr result ((other : ℕ) → journal_of self.new.logs other ≡ journal_of self.old.logs other) }
    {
        let Kept {
            alloc,
            node,
            number,
            logs,
            count,
            ledger_share: _,
        } = self;
        record_arrival(*alloc, *number, node, logs, count, job, arrival)
    }

    /// The same as `step`, if the entry that the receipt names is there or was folded; the new receipt then has a greater
    /// number.
    ///
    /// `Stale` if the journal says No of the receipt, and `NoMemory` as `step`: then nothing has changed.
    pub fn step_after(&mut self, receipt: &Receipt<L>, event: &Event) -> Result<Made<L>, Refusal>
        ensures stale { IsErrOf result Stale ↔ (agreement (receipt.now.node == self.old.number) receipt.now.entry (journal_of self.old.logs receipt.now.job.0) ≡ No) }
        ensures later { IfOk result (λ r. (r.receipt.node ≡ receipt.now.node) × (receipt.now.entry.number < r.receipt.entry.number)) }
        ensures node { IfOk result (λ r. NodeStep self.old.node (node_event.Own event.now) (node_given_of r.outcome) self.new.node) }
        ensures journal { IfOk result (λ r. (job : ℕ) → journal_of self.new.logs job
            ≡ journal_after self.old.node (self.old.count + 1) (node_event.Own event.now) r.outcome.judged (node_given_of r.outcome) job (journal_of self.old.logs job)) }
        ensures receipt { IfOk result (λ r. (r.receipt.node ≡ self.old.number) × (r.receipt.job.0 ≡ job_at self.old.node.works.works (node_event.Own event.now)) × (r.receipt.entry ≡ entry_for (self.old.count + 1) (event_name (node_event.Own event.now)) r.outcome.judged r.outcome.reply)) }
        ensures asked { IfOk result (λ r. r.receipt.asked.value ≡ event.now) }
        ensures whole { IfOk result (λ r. r.receipt.whole.value ≡ r.outcome.reply) }
        ensures judged { IfOk result (λ r. IsJudged self.old.node event.now r.outcome.reply r.outcome.judged) }
        ensures count { OnOk result (self.new.count ≡ self.old.count + 1) }
        ensures answered { IfOk result (λ r. is_call event.now ≡ true → wants_memory r.outcome.reply ≡ false) }
        ensures small { IfOk result (λ r. is_call event.now ≡ true → is_small_reply r.outcome.reply ≡ true) }
        ensures number { self.new.number ≡ self.old.number }
        ensures memory { (r : Refusal) → IsErrOf result r → r ≢ Stale → r ≡ NoMemory }
        ensures same { OnErr result ((self.new.node ≡ self.old.node) × (self.new.count ≡ self.old.count)) }
        ensures unchanged { OnErr result ((job : ℕ) → journal_of self.new.logs job ≡ journal_of self.old.logs job) }
    {
        if matches!(self.agrees(receipt), Agreement::No) {
            return Err(Refusal::Stale);
        }
        Ok(self.step(event)?)
    }

    /// Folds the job's lines into its base: the new base is the replay of the old one and its lines, covers the number of the
    /// last of them, and no line is left. The memory of the lines is given back, and all else stays. Takes a walk over the lines
    /// and over the job's copies, works and grants. The error is out of memory, and then nothing has changed.
    pub fn checkpoint(&mut self, job: JobNo) -> Result<(), OutOfMemory>
        ensures journal { OnOk result ((other : ℕ) → journal_of self.new.logs other ≡ folded_if (job.0 == other) (journal_of self.old.logs other)) }
        ensures same { (self.new.node ≡ self.old.node) × (self.new.count ≡ self.old.count) × (self.new.number ≡ self.old.number) }
        ensures unchanged { OnErr result (self.new.logs ≡ self.old.logs) }
    {
        let Kept {
            alloc,
            node,
            number: _,
            logs,
            count: _,
            ledger_share: _,
        } = self;
        let base = base_of(*alloc, node, logs, job)?;
        logs.fold_away(job, base);
        Ok(())
    }

    /// Sweeps the lists of the two jobs whose turn it is, so that what is kept of jobs that aren't live stays small: each in turn as
    /// `sweep_job` does. Nothing else changes. A receipt that the journal said Yes of is then there or folded, and one that it said
    /// Folded of is folded. Takes no time that grows with the number of jobs; if there is no memory for a base the job's next turn
    /// makes up for it. No event.
    pub fn sweep(&mut self)
        ensures same { (self.new.node ≡ self.old.node) × (self.new.count ≡ self.old.count) × (self.new.number ≡ self.old.number) }
        ensures journals { (job : ℕ) → IsSwept (is_live_in self.old.node job) (journal_of self.old.logs job) (journal_of self.new.logs job) }
        ensures agreed { (here : Bool) (entry : Entry) (job : ℕ) → StillAgrees here entry (journal_of self.old.logs job) (journal_of self.new.logs job) }
    {
        for _ in 0..LISTS_SWEPT {
            if let Some(job) = self.in_turn() {
                let _ = self.sweep_job(job);
            }
        }
    }

    /// The job that is next in turn to be swept, if there is one. No event: nothing changes.
    fn in_turn(&mut self) -> Option<JobNo>
        ensures node { (self.new.node ≡ self.old.node) × (self.new.number ≡ self.old.number) }
        ensures journal { (self.new.logs ≡ self.old.logs) × (self.new.count ≡ self.old.count) }
    {
        let Kept {
            alloc: _,
            node: _,
            number: _,
            logs,
            count: _,
            ledger_share: _,
        } = self;
        logs.in_turn()
    }

    /// Sweeps the job's list, if the job isn't live. If it has notes alone, they become part of the base, and nothing more is covered;
    /// if then it is as that of a job that no step was of, nothing is kept of it. If it has entries and 64 lines or more, it is folded
    /// as by `checkpoint`. All else stays. The error is out of memory, and then nothing has changed.
    pub fn sweep_job(&mut self, job: JobNo) -> Result<(), OutOfMemory>
        ensures journal { OnOk result ((other : ℕ) → journal_of self.new.logs other ≡ swept_if (job.0 == other && not (is_live_in self.old.node other)) (journal_of self.old.logs other)) }
        ensures forgotten { OnOk result (is_live_in self.old.node job.0 ≡ false → has_entries (journal_of self.old.logs job.0) ≡ false → with_notes_absorbed (journal_of self.old.logs job.0) ≡ fresh job.0 → lookup (same_job job) self.new.logs ≡ None) }
        ensures same { (self.new.node ≡ self.old.node) × (self.new.count ≡ self.old.count) × (self.new.number ≡ self.old.number) }
        ensures unchanged { OnErr result (self.new.logs ≡ self.old.logs) }
    {
        let Kept {
            alloc,
            node,
            number: _,
            logs,
            count: _,
            ledger_share: _,
        } = self;
        sweep_job(*alloc, node, logs, job)?;
        Ok(())
    }

    /// The job's next session, whose number, from 1, is as `Node::enter` gives it. It makes no entry. Takes no memory.
    pub fn enter(&mut self, job: JobNo, key: &JobKey) -> Result<Entered<L>, Refusal>
        ensures session { IfOk result (λ e. e.session ≡ sessions_entered self.old.node.admissions job + 1) }
        ensures entered { IfOk result (λ e. (e.node ≡ self.old.number) × (e.job ≡ job) × (e.key ≡ key.now)) }
        ensures ok { OnOk result (self.new.node ≡ record self.old.node { admissions = entered self.old.node.admissions job }) }
        ensures passed { IsOk result → enter_check self.old.node.admissions job key.now ≡ None }
        ensures refusals { IfErr result (λ r. (r ≡ NotAdmitted) ⊎ (r ≡ TooMany)) }
        ensures refused { (r : Refusal) → IsErrOf result r → enter_check self.old.node.admissions job key.now ≡ Some r }
        ensures err { OnErr result (self.new.node ≡ self.old.node) }
        ensures views { (job : ℕ) (view : View) → Shows self.new.node job view ↔ Shows self.old.node job view }
        ensures journal { (self.new.logs ≡ self.old.logs) × (self.new.count ≡ self.old.count) × (self.new.number ≡ self.old.number) }
    {
        let Kept {
            alloc: _,
            node,
            number,
            logs: _,
            count: _,
            ledger_share: _,
        } = self;
        let session = node.enter(job, key)?;
        Ok(Entered {
            node: *number,
            job,
            key: *key,
            session,
            name: PhantomData,
        })
    }

    /// Keeps what was prepared for the next step of the job, and gives back what was kept. No event: nothing changes.
    pub fn prepare(&mut self, job: JobNo, prepared: Prepared) -> Prepared
        ensures node { (self.new.node ≡ self.old.node) × (self.new.number ≡ self.old.number) }
        ensures journal { (self.new.logs ≡ self.old.logs) × (self.new.count ≡ self.old.count) }
    {
        let Kept {
            alloc: _,
            node,
            number: _,
            logs: _,
            count: _,
            ledger_share: _,
        } = self;
        node.prepare(job, prepared)
    }

    /// The bytes of a copy of the job to be hashed, if they can be shared or are few. No event: nothing changes.
    pub fn share_copy(&mut self, job: JobNo, id: &ObjectId) -> Option<Bytes>
        ensures node { (self.new.node ≡ self.old.node) × (self.new.number ≡ self.old.number) }
        ensures journal { (self.new.logs ≡ self.old.logs) × (self.new.count ≡ self.old.count) }
    {
        let Kept {
            alloc: _,
            node,
            number: _,
            logs: _,
            count: _,
            ledger_share: _,
        } = self;
        node.share_copy(job, id)
    }

    /// Takes bytes with their digest, to be compared with those of a copy of the job before a step wants its digest. No event: nothing
    /// changes.
    pub fn expect(&mut self, job: JobNo, id: &ObjectId, hashed: Hashed)
        ensures node { (self.new.node ≡ self.old.node) × (self.new.number ≡ self.old.number) }
        ensures journal { (self.new.logs ≡ self.old.logs) × (self.new.count ≡ self.old.count) }
    {
        let Kept {
            alloc: _,
            node,
            number: _,
            logs: _,
            count: _,
            ledger_share: _,
        } = self;
        node.expect(job, id, hashed);
    }

    /// Compares the next 128 KiB of them, and tells whether there is more to compare. No event: nothing changes.
    pub fn compare(&mut self, job: JobNo, id: &ObjectId) -> bool
        ensures node { (self.new.node ≡ self.old.node) × (self.new.number ≡ self.old.number) }
        ensures journal { (self.new.logs ≡ self.old.logs) × (self.new.count ≡ self.old.count) }
    {
        let Kept {
            alloc: _,
            node,
            number: _,
            logs: _,
            count: _,
            ledger_share: _,
        } = self;
        node.compare(job, id)
    }

    /// What was kept of the job that ended last, to be let go once the node isn't locked. No event: nothing changes.
    pub fn take_gone(&mut self) -> Option<JobRow>
        ensures node { (self.new.node ≡ self.old.node) × (self.new.number ≡ self.old.number) }
        ensures journal { (self.new.logs ≡ self.old.logs) × (self.new.count ≡ self.old.count) }
    {
        let Kept {
            alloc: _,
            node,
            number: _,
            logs: _,
            count: _,
            ledger_share: _,
        } = self;
        node.take_gone()
    }

    /// The node, to look at.
    pub fn node(&self) -> &Node
        ensures { result.now ≡ self.now.node }
    {
        &self.node
    }

    /// The number of the node.
    pub fn number(&self) -> u32
        ensures { result ≡ self.now.number }
    {
        self.number
    }

    /// How many entries the journal has, of all jobs.
    pub fn entries(&self) -> u64
        ensures { result ≡ self.now.count }
    {
        self.count.value()
    }

    /// Whether a work waits that nobody has taken. It makes no entry.
    pub fn has_work(&self) -> bool
        ensures { result ≡ is_some (front_of self.now.node.works.works) }
    {
        self.node.has_work()
    }

    /// What the journal says of a receipt: `No` to another node's; `Folded` if its number is covered; and otherwise whether its entry
    /// is there under its job, with its number, event, input and answer. The number is looked for by bisection.
    pub fn agrees(&self, receipt: &Receipt<L>) -> Agreement
        ensures { result ≡ agreement (receipt.now.node == self.now.number) receipt.now.entry (journal_of self.now.logs receipt.now.job.0) }
    {
        if receipt.node() != self.number {
            return Agreement::No;
        }
        if receipt.number() <= self.covered(receipt.job()) {
            return Agreement::Folded;
        }
        if has_entry(self.list(receipt.job()), &receipt.entry) {
            Agreement::Yes
        } else {
            Agreement::No
        }
    }

    /// The job numbers whose journal has a line, or one that was folded, or a grant in its base, each once and rising: 0 among them,
    /// if there was an entry of no job. Takes a walk over them, a sort, and memory for each. The error is out of memory.
    pub fn jobs(&self) -> Result<ItemList<JobNo>, OutOfMemory>
        ensures kept { IfOk result (λ jobs. (job : ℕ) → list_any (λ own. own.0 == job) jobs ≡ was_kept (journal_of self.now.logs job)) }
        ensures once { IfOk result (λ jobs. IsDistinct same_job jobs) }
        ensures rising { IfOk result (λ jobs. IsNonDecreasingBy (λ (job : JobNo). job.0) jobs) }
    {
        self.logs.jobs()
    }

    /// The number of the step that the last folded line of a job number is of, notes that were settled aside; 0 if there is none.
    pub fn covered(&self, job: JobNo) -> u64
        ensures { result ≡ (journal_of self.now.logs job.0).covered }
    {
        self.logs.covered(job)
    }

    /// The lines of a job number after its base, oldest first.
    pub fn list(&self, job: JobNo) -> &[Line]
        ensures { result.now ≡ list_of self.now.logs job.0 }
    {
        self.logs.list(job)
    }
}

/// Whether one of these lines, whose numbers rise, is this entry.
fn has_entry(lines: &[Line], entry: &Entry) -> bool
    requires rise { (low : ℕ) × (rise_above low lines.now ≡ true) }
    requires few { length lines.now ≤ most_lines }
    ensures { result ≡ list_any (is_this entry.now) lines.now }
{
    let mut rest = lines;
    while !rest.is_empty() {
        let middle = rest.len() / 2;
        let line = &rest[middle];
        if line.number() < entry.number {
            rest = &rest[middle + 1..];
        } else if line.is_entry(entry.number) {
            return line.is_same(entry);
        } else {
            rest = &rest[..middle];
        }
    }
    false
}

/// Steps the node, which has this number, and writes the next entry, under the job that the event is of or whose work a Take gives, and
/// what the step told the grantees; lists that might have no room are folded before. An error changes neither.
fn record<L: Ledger>(
    alloc: Global,
    number: u32,
    node: &mut Node,
    logs: &mut Logs,
    count: &mut Counter,
    event: &Event,
) -> Result<Made<L>, NotStepped>
    requires response { ∥ Tells node.old (journal_of logs.old) ∥₁ }
    requires few { (job : ℕ) → length (list_of logs.old job) ≤ most_lines }
    ensures node { IfOk result (λ r. NodeStep node.old (node_event.Own event.now) (node_given_of r.outcome) node.new) }
    ensures receipt { IfOk result (λ r. (r.receipt.node ≡ number) × (r.receipt.job.0 ≡ job_at node.old.works.works (node_event.Own event.now)) × (r.receipt.entry ≡ entry_for (count.old + 1) (event_name (node_event.Own event.now)) r.outcome.judged r.outcome.reply)) }
    ensures asked { IfOk result (λ r. r.receipt.asked.value ≡ event.now) }
    ensures whole { IfOk result (λ r. r.receipt.whole.value ≡ r.outcome.reply) }
    ensures judged { IfOk result (λ r. IsJudged node.old event.now r.outcome.reply r.outcome.judged) }
    ensures small { IfOk result (λ r. IsSmall node.old event.now r.outcome.reply) }
    ensures logs { IfOk result (λ r. (job : ℕ) → journal_of logs.new job
        ≡ journal_after node.old (count.old + 1) (node_event.Own event.now) r.outcome.judged (node_given_of r.outcome) job (journal_of logs.old job)) }
    ensures few { OnOk result ((job : ℕ) → length (list_of logs.new job) ≤ most_lines) }
    ensures memory_last { IfErr result (IsStepLast node.old count.old event.now) }
    ensures count { OnOk result (count.new ≡ count.old + 1) }
    ensures err { OnErr result ((node.new ≡ node.old) × (count.new ≡ count.old)) }
    ensures unchanged { OnErr result ((job : ℕ) → journal_of logs.new job ≡ journal_of logs.old job) }
{
    // all growth comes before the node's step
    let next = count.next()?;
    let grantees = node.grantees(event)?;
    let job = job_of(node, event);
    logs.reserve(job, grantees.as_slice())?;
    // the bases are those before the step
    let bases = bases_of(alloc, node, logs, job, grantees.as_slice())?;
    let outcome = match node.apply(event, Ok(())) {
        Ok(outcome) => outcome,
        Err(refused) => return Err(NotStepped::Step(refused)),
    };
    let made = next.value();
    *count = next;
    let named = name_of(event);
    logs.fold_all(bases);
    logs.add(job, Line::Entry(entry_of(alloc, made, &named, &outcome)));
    logs.add_notes(made, outcome.notes.as_slice());
    let receipt = Receipt {
        node: number,
        job,
        entry: entry_of(alloc, made, &named, &outcome),
        asked: Snapshot::of(event),
        whole: Snapshot::of(&outcome.reply),
        name: PhantomData,
    };
    Ok(Made { outcome, receipt })
}

/// The message arrives at the node, which has this number, and the next entry is written; the job's list is folded before if it has no
/// room. An error changes neither.
fn record_arrival<L: Ledger>(
    alloc: Global,
    number: u32,
    node: &mut Node,
    logs: &mut Logs,
    count: &mut Counter,
    job: JobNo,
    arrival: &Arrival,
) -> Result<Made<L>, OutOfMemory>
    requires response { ∥ Tells node.old (journal_of logs.old) ∥₁ }
    requires few { (other : ℕ) → length (list_of logs.old other) ≤ most_lines }
    ensures node { IfOk result (λ r. NodeStep node.old (node_event.Arrive job arrival.now) (node_given_of r.outcome) node.new) }
    ensures receipt { IfOk result (λ r. (r.receipt.node ≡ number) × (r.receipt.job.0 ≡ job.0) × (r.receipt.entry ≡ entry_for (count.old + 1) (event_name (node_event.Arrive job arrival.now)) r.outcome.judged r.outcome.reply)) }
    ensures whole { IfOk result (λ r. r.receipt.whole.value ≡ r.outcome.reply) }
    ensures judged { IfOk result (λ r. IsArrivalJudged node.old job arrival.now r.outcome.reply r.outcome.judged) }
    ensures silent { IfOk result (λ r. r.outcome.notes ≡ []) }
    ensures stale { IfOk result (λ r. r.outcome.reply ≡ reply.Refused Stale → node.new ≡ node.old) }
    ensures logs { IfOk result (λ r. (other : ℕ) → journal_of logs.new other
        ≡ journal_after node.old (count.old + 1) (node_event.Arrive job arrival.now) r.outcome.judged (node_given_of r.outcome) other (journal_of logs.old other)) }
    ensures few { OnOk result ((other : ℕ) → length (list_of logs.new other) ≤ most_lines) }
    ensures count { OnOk result (count.new ≡ count.old + 1) }
    ensures err { OnErr result ((node.new ≡ node.old) × (count.new ≡ count.old)) }
    ensures unchanged { OnErr result ((other : ℕ) → journal_of logs.new other ≡ journal_of logs.old other) }
{
    // all growth comes before the node's step
    let next = count.next()?;
    logs.reserve(job, &[])?;
    // the base is that before the step
    let bases = bases_of(alloc, node, logs, job, &[])?;
    let outcome = node.arrive(job, arrival, Ok(()))?;
    let made = next.value();
    *count = next;
    let named = name_of_arrival(arrival);
    logs.fold_all(bases);
    logs.add(job, Line::Entry(entry_of(alloc, made, &named, &outcome)));
    let receipt = Receipt {
        node: number,
        job,
        entry: entry_of(alloc, made, &named, &outcome),
        // an arrival is no event of a session, a worker or the operator
        asked: Snapshot::of(&Event::Take),
        whole: Snapshot::of(&outcome.reply),
        name: PhantomData,
    };
    Ok(Made { outcome, receipt })
}
