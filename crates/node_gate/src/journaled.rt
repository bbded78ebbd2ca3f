//! A node with its journal, as those see it that step it.
use crate::actor::Actor;
use crate::posted::Posted;
use bytes::Bytes;
use hashed_bytes::Hashed;
use memory_growth::OutOfMemory;
use obj_id::{
    ChunkIndex, Command, DeviceKey, FetchNo, JobKey, JobNo, NodeNo, ObjectId, Refusal, Reply, Usage,
};
use private_store::{Event, Judged};
use std::alloc::Global;
use std::sync::Wait;

/// What a step gave: its answer, the device keys that are to be erased, what it sends, and the receipt of its entry.
#[derive(Drop)]
pub struct Made<T, M, E> {
    pub reply: Reply<Bytes>,
    pub erase: E,
    pub mail: M,
    pub receipt: T,
}

/// A live job of a node, with its quotas and what is used of them.
#[derive(Clone, Copy, Debug, PartialEq, Eq)]
pub struct LiveJob {
    pub job: JobNo,
    pub usage: Usage,
}

/// A node with its journal, which is stepped by one thread at a time. Nothing that it makes can be made by those that step it.
pub trait JournaledNode: Drop + Sized {
    ghost use Rattle.std.specs.Prelude.{◌≡◌, ◌⊎◌, ◌↔◌, ◌<◌, ◌++◌, ◌∷◌, [], ℕ, Bool, List, Result, IfOk, IfErr, IfSome, OnErr, IsErrOf, true, false};
    ghost use Rattle.std.specs.Iterator.{IsFinite};
    ghost use Rattle.obj_id.specs.declared.ids.JobNo.{JobNo};
    ghost use Rattle.obj_id.specs.declared.commands.Reply.{Reply};
    ghost use Rattle.obj_id.specs.declared.commands.Usage.{Usage};
    ghost use Rattle.obj_id.specs.declared.refusals.Refusal.{Refusal};
    ghost use Rattle.obj_id.specs.declared.refusals.Refusal.TheVariants.{NoMemory, NotAdmitted, Stale, TooMany};
    ghost use Rattle.obj_id.specs.declared.works.DeviceKey.{DeviceKey};
    ghost use Rattle.obj_id.specs.declared.commands.Reply.TheVariants as reply;
    ghost use Rattle.private_store.specs.declared.schedules.Event.{Event};
    ghost use Rattle.private_store.specs.declared.schedules.Event.TheVariants.{JobEnd};
    ghost use Rattle.private_store.specs.rules.Private.{Post};
    ghost use Rattle.node_gate.specs.declared.journaled.LiveJob.{LiveJob};
    ghost use Rattle.node_gate.specs.Calls.{IsSmallCall, Pass};

    /// Names the entry that a step made. It isn't copied.
    type Receipt: Drop;

    /// What a step sends, message by message.
    type Mail: Iterator<Item = Self::Posted> + Drop;

    /// A message on its way.
    type Posted: Posted;

    /// The device keys that a step gives out to be erased.
    type Erase: Drop;

    /// A session that was let into a job.
    type Entered: Drop;

    /// What was made for a step before the node was locked for it.
    type Prepared: Drop;

    /// What was kept of a job that ended.
    type Gone: Drop;

    // the node's number
    ghost node_number: { Self → ℕ };

    // the number of the node whose step it is, and the number of the step's entry there
    ghost made_at: { Self.Receipt → ℕ };

    ghost entry_number: { Self.Receipt → ℕ };

    ghost job_of: { Self.Receipt → JobNo };

    ghost posts: { Self.Mail → List Post };

    ghost keys: { Self.Erase → List DeviceKey };

    // one step was made, of this event, with this answer, these messages and this receipt, and no other: the node before it, and after
    ghost steps: { Event → Reply (List ℕ) → List Post → Self.Receipt → Self → Self → Type 0 };

    // the same of a message that arrived
    ghost arrives: { Self.Posted → Reply (List ℕ) → List Post → Self.Receipt → Self → Self → Type 0 };

    // the receipt is of this message
    ghost arrived: { Self.Posted → Self.Receipt → Type 0 };

    // the message isn't for this node
    ghost astray: { Self → Self.Posted → Type 0 };

    // the receipt is of this event, and of this answer
    ghost receipt_of: { Event → Reply (List ℕ) → Self.Receipt → Type 0 };

    // what more is said of a session's command
    ghost called_by: { Event → Reply (List ℕ) → Self.Receipt → Type 0 };

    // the step of the second came after that of the first
    ghost rises: { Self.Receipt → Self.Receipt → Type 0 };

    // nothing was done
    ghost untouched: { Self → Self → Type 0 };

    // the job's journal was folded, or nothing was done
    ghost folds: { JobNo → Self → Self → Type 0 };

    // no step was made, and no entry
    ghost sweeps: { Self → Self → Type 0 };

    // no event: the node and its journal are as they were
    ghost rests: { Self → Self → Type 0 };

    // a session was let in, or none: no step was made, and the journal is as it was
    ghost lets_in: { Self → Self → Type 0 };

    // what is known of a session that was let in
    ghost pass: { Self.Entered → Pass };

    // the live jobs, with what they use
    ghost shows_live: { Self → List LiveJob → Type 0 };

    // a job's quotas, with what it uses of them, or that it isn't live
    ghost shows_usage: { Self → JobNo → Result Usage Refusal → Type 0 };

    // no work waits that nobody has taken
    ghost idle: { Self → Type 0 };

    // the journal says that the receipt's entry isn't there
    ghost misses: { Self → Self.Receipt → Bool };

    /// The number of the node.
    fn number(&self) -> u32
        ensures { result ≡ node_number self.now };

    /// One step of an actor, of an event of a session, the operator or a worker, after that of an earlier receipt, if one is shown. The error is
    /// out of memory.
    // (an `Option` of a reference would want a lifetime also if it is `None`)
    fn step<R: Wait>(
        &mut self,
        rt: &R,
        actor: &mut Actor,
        event: &Event,
        earlier: &Option<Self::Receipt>,
    ) -> Result<Made<Self::Receipt, Self::Mail, Self::Erase>, OutOfMemory>
        ensures acts { IfOk result (λ m. actor.new ≡ actor.old ++ event.now ∷ []) }
        ensures still { OnErr result (actor.new ≡ actor.old) }
        ensures once { IfOk result (λ m. steps event.now m.reply (posts m.mail) m.receipt self.old self.new) }
        ensures stepped { IfOk result (λ m. receipt_of event.now m.reply m.receipt) }
        ensures called { IfOk result (λ m. called_by event.now m.reply m.receipt) }
        ensures rises { IfOk result (λ m. IfSome earlier.now (λ r. rises r m.receipt)) }
        ensures small { IfOk result (λ m. IsSmallCall event.now m.reply) }
        ensures node { IfOk result (λ m. made_at m.receipt ≡ node_number self.old) }
        ensures same { OnErr result (untouched self.old self.new) }
        ensures number { node_number self.new ≡ node_number self.old };

    /// The same, if the journal doesn't say No of the receipt: otherwise the error is `Stale`.
    fn step_after<R: Wait>(
        &mut self,
        rt: &R,
        actor: &mut Actor,
        receipt: &Self::Receipt,
        event: &Event,
    ) -> Result<Made<Self::Receipt, Self::Mail, Self::Erase>, Refusal>
        ensures acts { IfOk result (λ m. actor.new ≡ actor.old ++ event.now ∷ []) }
        ensures still { OnErr result (actor.new ≡ actor.old) }
        ensures once { IfOk result (λ m. steps event.now m.reply (posts m.mail) m.receipt self.old self.new) }
        ensures called { IfOk result (λ m. called_by event.now m.reply m.receipt) }
        ensures small { IfOk result (λ m. IsSmallCall event.now m.reply) }
        ensures later { IfOk result (λ m. (made_at m.receipt ≡ made_at receipt.now) × (entry_number receipt.now < entry_number m.receipt)) }
        ensures rises { IfOk result (λ m. rises receipt.now m.receipt) }
        ensures node { IfOk result (λ m. made_at m.receipt ≡ node_number self.old) }
        ensures same { OnErr result (untouched self.old self.new) }
        ensures refusal { IfErr result (λ r. (r ≡ NoMemory) ⊎ (r ≡ Stale)) }
        ensures number { node_number self.new ≡ node_number self.old };

    /// A message that was posted to the node arrives. `Stale` if it was posted to another place or isn't made for a node, and
    /// `NoMemory`: then it is lost.
    fn arrive<R: Wait>(
        &mut self,
        rt: &R,
        posted: Self::Posted,
    ) -> Result<Made<Self::Receipt, Self::Mail, Self::Erase>, Refusal>
        ensures once { IfOk result (λ m. arrives posted m.reply (posts m.mail) m.receipt self.old self.new) }
        ensures node { IfOk result (λ m. made_at m.receipt ≡ node_number self.old) }
        ensures arrived { IfOk result (λ m. arrived posted m.receipt) }
        ensures of_job { IfOk result (λ m. job_of m.receipt ≡ Self.Posted.of_job posted) }
        ensures stale { IsErrOf result Stale ↔ astray self.old posted }
        ensures same { OnErr result (untouched self.old self.new) }
        ensures refusal { IfErr result (λ r. (r ≡ NoMemory) ⊎ (r ≡ Stale)) }
        ensures number { node_number self.new ≡ node_number self.old };

    /// Folds the journal of a job whose end was accepted, as the receipt tells. If there is no memory for it, nothing changes.
    fn fold(&mut self, job: JobNo, ended: &Self::Receipt)
        requires { receipt_of (JobEnd job) reply.Ok ended.now }
        ensures folds { folds job self.old self.new }
        ensures number { node_number self.new ≡ node_number self.old };

    /// Sweeps the lists of the jobs whose turn it is, if it is asked for, and then that of this job, if one is named. No step.
    fn sweep(&mut self, in_turn: bool, job: Option<JobNo>)
        ensures { sweeps self.old self.new };

    /// Whether a work waits that nobody has taken.
    fn has_work(&self) -> bool
        ensures { result ≡ false → idle self.now };

    /// Whether the journal says that the receipt's entry isn't there. Of one that was folded it doesn't.
    fn misses(&self, receipt: &Self::Receipt) -> bool
        ensures { result ≡ misses self.now receipt.now };

    /// What the step was to its job, without contents.
    fn input(receipt: &Self::Receipt) -> Option<&Judged>;

    /// The job under which its entry is kept.
    fn job(receipt: &Self::Receipt) -> JobNo
        ensures { result ≡ job_of receipt.now };

    /// The keys.
    fn keys(erase: &Self::Erase) -> &[DeviceKey]
        ensures { result.now ≡ keys erase.now };

    /// Lets a session into the job, whose key it shows, with the job's next number.
    fn enter(&mut self, job: JobNo, key: &JobKey) -> Result<Self::Entered, Refusal>
        ensures entered { IfOk result (λ e. ((pass e).job ≡ job) × ((pass e).key ≡ key.now)) }
        ensures lets_in { lets_in self.old self.new }
        ensures refusal { IfErr result (λ r. (r ≡ NotAdmitted) ⊎ (r ≡ TooMany)) }
        ensures number { node_number self.new ≡ node_number self.old };

    /// The job that the session was let into.
    fn job_entered(entered: &Self::Entered) -> JobNo
        ensures { result ≡ (pass entered.now).job };

    /// The number of the session, from 1.
    fn session(entered: &Self::Entered) -> u32
        ensures { result ≡ (pass entered.now).session };

    /// Whether something is to be prepared for the command before the node is locked for its step.
    fn wants(&self, job: JobNo, command: &Command<Bytes>) -> bool;

    /// The bytes of a copy of the job to be hashed, if they can be shared or are few. No event.
    fn share_copy(&mut self, job: JobNo, id: &ObjectId) -> Option<Bytes>
        ensures { rests self.old self.new };

    /// Takes bytes with their digest, to be compared with those of a copy of the job before a step wants its digest. No event.
    fn expect(&mut self, job: JobNo, id: &ObjectId, hashed: Hashed)
        ensures { rests self.old self.new };

    /// Compares a part of them, and tells whether there is more to compare. No event.
    fn compare(&mut self, job: JobNo, id: &ObjectId) -> bool
        ensures { rests self.old self.new };

    /// The length of the extent that the command may place.
    fn extent_wanted(&self, job: JobNo, command: &Command<Bytes>) -> Option<u32>;

    /// The length of the object of which no chunk but this one is missing.
    fn length_with_last(
        &self,
        job: JobNo,
        from: NodeNo,
        id: &ObjectId,
        number: FetchNo,
        index: ChunkIndex,
        len: usize,
    ) -> Option<u32>;

    /// A part of the bytes of the job's copy, from the offset on.
    fn copy_part(&self, job: JobNo, id: &ObjectId, offset: u32, len: u32) -> Option<Bytes>;

    /// Keeps what was prepared for the next step of the job, and gives back what was kept. No event.
    fn prepare(&mut self, job: JobNo, prepared: Self::Prepared) -> Self::Prepared
        ensures rests { rests self.old self.new }
        ensures number { node_number self.new ≡ node_number self.old };

    /// What was kept of the job that ended last. No event.
    fn take_gone(&mut self) -> Option<Self::Gone>
        ensures { rests self.old self.new };

    /// Nothing was made.
    fn nothing_prepared() -> Self::Prepared;

    /// Zeros for an extent of this length; nothing, if there is no memory for them.
    fn prepared_zeros(alloc: Global, len: u32) -> Self::Prepared;

    /// Bytes of which the step wants the digest, and these as they fill an extent.
    fn prepared_bytes(hashed: Option<Hashed>, filled: Option<Bytes>) -> Self::Prepared;

    /// A job's quotas and what is used of them. `NotAdmitted` if the job isn't live. Takes no memory.
    fn usage(&self, job: JobNo) -> Result<Usage, Refusal>
        ensures shown { shows_usage self.now job result }
        ensures refusal { IfErr result (λ refusal. refusal ≡ NotAdmitted) };

    /// The live jobs, by rising number. The error is out of memory.
    fn live_jobs(&self, alloc: Global) -> Result<Vec<LiveJob>, OutOfMemory>
        ensures { IfOk result (λ live. shows_live self.now live.items) };

    /// How many entries the journal has.
    fn entries(&self) -> u64;

    // what a step sends comes to an end
    ghost ends: { (mail : Self.Mail) → Self.Mail.can_next mail × IsFinite (Self.Mail.remaining mail) };
}
