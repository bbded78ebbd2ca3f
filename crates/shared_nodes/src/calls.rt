//! Commands of sessions, each a step of the node. What takes long is prepared before the node is locked.
ghost use Rattle.std.specs.Sync.Mutex.{mutex_guard_value};
ghost use Rattle.std.specs.Prelude.{◌≡◌, ◌⊎◌, ◌<◌, ◌++◌, ◌∷◌, [], true, false, Some, None, MatchOption, MatchResult, IfSome, IfNone, IfOk, IfErr, OnErr};
ghost use Rattle.obj_id.specs.declared.commands.Reply.TheVariants as reply;
ghost use Rattle.obj_id.specs.declared.refusals.Refusal.TheVariants.{NoMemory, Stale};
ghost use Rattle.private_store.specs.laws.Answers.{is_small_reply};
ghost use Rattle.private_store.specs.declared.schedules.Event.TheVariants as event;
ghost use Rattle.node_gate.specs.Actors.{ActsIf};
ghost use Rattle.node_gate.specs.Calls.{IsNext};

use crate::SharedNode;
use crate::preparing::spent_by;
use bytes::Bytes;
use command_kinds::{CommandKind, Preparation};
use memory_growth::OutOfMemory;
use node_gate::{Actor, JournaledNode};
use node_housekeeping::{Pause, Sender};
use node_steps::{Stepped, step_call, step_call_after, sweep_after};
use obj_id::{Command, JobNo, ObjectId, Reply};
use std::sync::{MutexGuard, Wait};

impl<K: JournaledNode, P: Pause> SharedNode<K, P> {
    /// A command of a session, with the receipt of its entry. There is none exactly if the reply is `NoMemory`. Sessions that are
    /// marked are left first, as before each step of a session.
    pub fn call<R: Wait>(
        &self,
        rt: &R,
        actor: &mut Actor,
        job: JobNo,
        session: u32,
        command: Command<Bytes>,
    ) -> (Reply<Bytes>, Option<K::Receipt>)
        ensures acts { ActsIf result.1 (event.Call job session command) actor.old actor.new }
        ensures called { MatchOption result.1 (result.0 ≡ reply.Refused NoMemory) (λ r. K.called_by (event.Call job session command) result.0 r) }
        ensures small { is_small_reply result.0 ≡ true }
        ensures node { IfSome result.1 (λ r. K.made_at r ≡ self.now.number) }
    {
        self.call_next(rt, actor, &None, job, session, command)
    }

    /// The same, of a session whose last receipt is shown, if it has one: the step comes after that of the receipt.
    pub fn call_next<R: Wait>(
        &self,
        rt: &R,
        actor: &mut Actor,
        last: &Option<K::Receipt>,
        job: JobNo,
        session: u32,
        command: Command<Bytes>,
    ) -> (Reply<Bytes>, Option<K::Receipt>)
        ensures acts { ActsIf result.1 (event.Call job session command) actor.old actor.new }
        ensures called { MatchOption result.1 (result.0 ≡ reply.Refused NoMemory) (λ r. IsNext K.called_by K.rises last.now (event.Call job session command) result.0 r) }
        ensures small { is_small_reply result.0 ≡ true }
        ensures node { IfSome result.1 (λ r. K.made_at r ≡ self.now.number) }
    {
        self.leave_marked(rt);
        let sender = Sender::of_command(&command);
        let stepped = self.step_command(rt, actor, last, job, session, command);
        self.answer(rt, sender, stepped)
    }

    /// The step of a command, for which something may be prepared before the node is locked.
    fn step_command<R: Wait>(
        &self,
        rt: &R,
        actor: &mut Actor,
        last: &Option<K::Receipt>,
        job: JobNo,
        session: u32,
        command: Command<Bytes>,
    ) -> Result<Stepped<K::Receipt, K::Mail, K::Erase>, OutOfMemory>
        ensures acts { IfOk result (λ s. actor.new ≡ actor.old ++ event.Call job session command ∷ []) }
        ensures still { OnErr result (actor.new ≡ actor.old) }
        ensures called { IfOk result (λ s. IsNext K.called_by K.rises last.now (event.Call job session command) s.reply s.receipt) }
        ensures small { IfOk result (λ s. is_small_reply s.reply ≡ true) }
        ensures node { IfOk result (λ s. K.made_at s.receipt ≡ self.now.number) }
    {
        let (queued, mut kept) = self.lock_for(rt, job, &command);
        if kept.wants(job, &command) {
            drop(kept);
            drop(queued);
            return self.step_prepared(rt, actor, last, job, session, command);
        }
        let kind = CommandKind::of(&command);
        let stepped = step_call(
            rt,
            &mut *kept,
            &self.housekeeping,
            actor,
            last,
            job,
            session,
            command,
        );
        sweep_after(&mut *kept, job, kind.reaches_others(), &stepped);
        let spent = spent_by(&mut *kept, job, kind.may_remove());
        drop(kept);
        drop(queued);
        drop(spent);
        stepped
    }

    /// Takes the job's queue and locks the node, once no copy is being hashed that the command would change or remove.
    fn lock_for<R: Wait>(
        &self,
        rt: &R,
        job: JobNo,
        command: &Command<Bytes>,
    ) -> (MutexGuard<'_, ()>, MutexGuard<'_, K>)
        ensures { K.node_number (mutex_guard_value result.1) ≡ self.now.number }
    {
        for _ in rt.forever() {
            let queued = self.housekeeping.queues.of(job).lock(rt);
            let kept = self.lock(rt);
            if !self.housekeeping.seals.are_met(rt, job, command) {
                return (queued, kept);
            }
            drop(kept);
            drop(queued);
            self.housekeeping.seals.await_end(rt, job, command);
        }
        unreachable!()
    }

    /// The step of a command for which something is prepared before the node is locked.
    pub(crate) fn step_prepared<R: Wait>(
        &self,
        rt: &R,
        actor: &mut Actor,
        last: &Option<K::Receipt>,
        job: JobNo,
        session: u32,
        command: Command<Bytes>,
    ) -> Result<Stepped<K::Receipt, K::Mail, K::Erase>, OutOfMemory>
        ensures acts { IfOk result (λ s. actor.new ≡ actor.old ++ event.Call job session command ∷ []) }
        ensures still { OnErr result (actor.new ≡ actor.old) }
        ensures called { IfOk result (λ s. IsNext K.called_by K.rises last.now (event.Call job session command) s.reply s.receipt) }
        ensures small { IfOk result (λ s. is_small_reply s.reply ≡ true) }
        ensures node { IfOk result (λ s. K.made_at s.receipt ≡ self.now.number) }
    {
        match Preparation::of(&command) {
            Preparation::Digest(id) => {
                return self.step_seal(rt, actor, last, job, session, &id, command);
            }
            Preparation::NewExtent { .. } | Preparation::CopyExtent(_) | Preparation::Nothing => {}
        }
        let making = self.housekeeping.makers.of(job).lock(rt);
        let prepared = self.prepare_place(rt, job, &command);
        let stepped = self.step_with(rt, actor, prepared, last, job, session, command);
        drop(making);
        stepped
    }

    /// The step of a Seal, whose copy is hashed while the node isn't locked. Until the step is made what would change or remove it waits.
    fn step_seal<R: Wait>(
        &self,
        rt: &R,
        actor: &mut Actor,
        last: &Option<K::Receipt>,
        job: JobNo,
        session: u32,
        id: &ObjectId,
        command: Command<Bytes>,
    ) -> Result<Stepped<K::Receipt, K::Mail, K::Erase>, OutOfMemory>
        ensures acts { IfOk result (λ s. actor.new ≡ actor.old ++ event.Call job session command ∷ []) }
        ensures still { OnErr result (actor.new ≡ actor.old) }
        ensures called { IfOk result (λ s. IsNext K.called_by K.rises last.now (event.Call job session command) s.reply s.receipt) }
        ensures small { IfOk result (λ s. is_small_reply s.reply ≡ true) }
        ensures node { IfOk result (λ s. K.made_at s.receipt ≡ self.now.number) }
    {
        let seals = &self.housekeeping.seals;
        seals.begin(rt, job, id);
        self.prepare_seal(rt, job, id);
        let nothing = K::nothing_prepared();
        let stepped = self.step_with(rt, actor, nothing, last, job, session, command);
        seals.end(rt, job, id);
        stepped
    }

    /// The step of a command with what was prepared for it. What is left of that is let go once the node isn't locked.
    fn step_with<R: Wait>(
        &self,
        rt: &R,
        actor: &mut Actor,
        prepared: K::Prepared,
        last: &Option<K::Receipt>,
        job: JobNo,
        session: u32,
        command: Command<Bytes>,
    ) -> Result<Stepped<K::Receipt, K::Mail, K::Erase>, OutOfMemory>
        ensures acts { IfOk result (λ s. actor.new ≡ actor.old ++ event.Call job session command ∷ []) }
        ensures still { OnErr result (actor.new ≡ actor.old) }
        ensures called { IfOk result (λ s. IsNext K.called_by K.rises last.now (event.Call job session command) s.reply s.receipt) }
        ensures small { IfOk result (λ s. is_small_reply s.reply ≡ true) }
        ensures node { IfOk result (λ s. K.made_at s.receipt ≡ self.now.number) }
    {
        let queued = self.housekeeping.queues.of(job).lock(rt);
        let mut kept = self.lock(rt);
        let before = kept.prepare(job, prepared);
        let stepped = step_call(
            rt,
            &mut *kept,
            &self.housekeeping,
            actor,
            last,
            job,
            session,
            command,
        );
        let rest = kept.prepare(job, before);
        drop(kept);
        drop(queued);
        drop(rest);
        stepped
    }

    /// The same, if the journal has the entry of a receipt or folded it; the new receipt then is of the same node, and has a
    /// greater number. There is none if the reply is `NoMemory`, or `Stale`, since the journal says No of the receipt: then
    /// nothing was stepped.
    pub fn call_after<R: Wait>(
        &self,
        rt: &R,
        actor: &mut Actor,
        receipt: &K::Receipt,
        job: JobNo,
        session: u32,
        command: Command<Bytes>,
    ) -> (Reply<Bytes>, Option<K::Receipt>)
        ensures acts { ActsIf result.1 (event.Call job session command) actor.old actor.new }
        ensures called { MatchOption result.1 ((result.0 ≡ reply.Refused NoMemory) ⊎ (result.0 ≡ reply.Refused Stale)) (λ r. IsNext K.called_by K.rises (Some receipt.now) (event.Call job session command) result.0 r) }
        ensures later { IfSome result.1 (λ r. (K.made_at r ≡ K.made_at receipt.now) × (K.entry_number receipt.now < K.entry_number r)) }
        ensures small { is_small_reply result.0 ≡ true }
        ensures node { IfSome result.1 (λ r. K.made_at r ≡ self.now.number) }
    {
        self.leave_marked(rt);
        let sender = Sender::of_command(&command);
        let queued = self.housekeeping.queues.of(job).lock(rt);
        let mut kept = self.lock(rt);
        let kind = CommandKind::of(&command);
        let stepped = step_call_after(
            rt,
            &mut *kept,
            &self.housekeeping,
            actor,
            receipt,
            job,
            session,
            command,
        );
        sweep_after(&mut *kept, job, kind.reaches_others(), &stepped);
        let spent = spent_by(&mut *kept, job, kind.may_remove());
        drop(kept);
        drop(queued);
        drop(spent);
        match stepped {
            Ok(stepped) => self.hand_out(rt, sender, stepped),
            Err(refusal) => (Reply::Refused(refusal), None),
        }
    }
}
