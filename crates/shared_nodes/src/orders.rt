//! Orders of the operator.
ghost use Rattle.std.specs.Prelude.{◌≡◌, ◌⊎◌, ◌<◌, ◌++◌, ◌∷◌, [], true, false, Some, None, MatchOption, MatchResult, IfSome, IfNone, IfOk, IfErr, OnErr};
ghost use Rattle.obj_id.specs.declared.commands.Reply.TheVariants as reply;
ghost use Rattle.obj_id.specs.declared.refusals.Refusal.TheVariants.{NoMemory, Stale};
ghost use Rattle.private_store.specs.laws.Answers.{is_small_reply};
ghost use Rattle.private_store.specs.declared.schedules.Event.TheVariants as event;
ghost use Rattle.node_gate.specs.Actors.{ActsIf};
ghost use Rattle.node_gate.specs.Calls.{IsNext};

use crate::SharedNode;
use bytes::Bytes;
use node_gate::{Actor, JournaledNode};
use node_housekeeping::{Pause, Sender};
use node_steps::{step_end, step_order};
use obj_id::{JobKey, JobNo, Quota, Reply};
use private_store::Event;
use std::sync::Wait;

impl<K: JournaledNode, P: Pause> SharedNode<K, P> {
    /// The operator admits a job, with the receipt of the entry, which was looked for. There is none exactly if the reply is
    /// `NoMemory`.
    pub fn admit<R: Wait>(
        &self,
        rt: &R,
        actor: &mut Actor,
        job: JobNo,
        quota: Quota,
        key: JobKey,
    ) -> (Reply<Bytes>, Option<K::Receipt>)
        ensures acts { ActsIf result.1 (event.Admit job quota key) actor.old actor.new }
        ensures receipt { MatchOption result.1 (result.0 ≡ reply.Refused NoMemory) (λ r. K.receipt_of (event.Admit job quota key) result.0 r) }
        ensures node { IfSome result.1 (λ r. K.made_at r ≡ self.now.number) }
    {
        let (reply, receipt) = self.order(rt, actor, &Event::Admit { job, quota, key });
        if matches!(&reply, Reply::Ok) {
            self.housekeeping.upkeep.counts.begin(rt, job);
        }
        (reply, receipt)
    }

    /// The operator changes a job's quotas, with the receipt of the entry, which was looked for. There is none exactly if the reply
    /// is `NoMemory`.
    pub fn requota<R: Wait>(
        &self,
        rt: &R,
        actor: &mut Actor,
        job: JobNo,
        quota: Quota,
    ) -> (Reply<Bytes>, Option<K::Receipt>)
        ensures acts { ActsIf result.1 (event.Requota job quota) actor.old actor.new }
        ensures receipt { MatchOption result.1 (result.0 ≡ reply.Refused NoMemory) (λ r. K.receipt_of (event.Requota job quota) result.0 r) }
        ensures node { IfSome result.1 (λ r. K.made_at r ≡ self.now.number) }
    {
        self.order(rt, actor, &Event::Requota(job, quota))
    }

    /// The operator ends a job, with the receipt of the entry, which was looked for. There is none exactly if the reply is
    /// `NoMemory`. If the end isn't refused, the job's journal is folded at once, unless there is no memory for that.
    pub fn end_job<R: Wait>(
        &self,
        rt: &R,
        actor: &mut Actor,
        job: JobNo,
    ) -> (Reply<Bytes>, Option<K::Receipt>)
        ensures acts { ActsIf result.1 (event.JobEnd job) actor.old actor.new }
        ensures receipt { MatchOption result.1 (result.0 ≡ reply.Refused NoMemory) (λ r. K.receipt_of (event.JobEnd job) result.0 r) }
        ensures node { IfSome result.1 (λ r. K.made_at r ≡ self.now.number) }
    {
        let mut kept = self.lock(rt);
        let stepped = step_end(rt, &mut *kept, &self.housekeeping, actor, job);
        let gone = kept.take_gone();
        drop(kept);
        drop(gone);
        let (reply, receipt) = self.answer(rt, Sender::Other, stepped);
        if matches!(&reply, Reply::Ok) {
            self.housekeeping.upkeep.counts.end(rt, job);
        }
        (reply, receipt)
    }

    /// An event of the operator's, with the receipt of its entry, which was looked for.
    fn order<R: Wait>(
        &self,
        rt: &R,
        actor: &mut Actor,
        event: &Event,
    ) -> (Reply<Bytes>, Option<K::Receipt>)
        ensures acts { ActsIf result.1 (event.now) actor.old actor.new }
        ensures receipt { MatchOption result.1 (result.0 ≡ reply.Refused NoMemory) (λ r. K.receipt_of event.now result.0 r) }
        ensures node { IfSome result.1 (λ r. K.made_at r ≡ self.now.number) }
    {
        let mut kept = self.lock(rt);
        let stepped = step_order(rt, &mut *kept, &self.housekeeping, actor, event);
        drop(kept);
        self.answer(rt, Sender::Other, stepped)
    }
}
