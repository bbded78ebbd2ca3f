//! Commands of sessions that wait: each is tried again until its answer is no longer Pending.
ghost use Rattle.std.specs.Prelude.{◌≡◌, ◌⊎◌, ◌<◌, ◌++◌, ◌∷◌, [], true, false, Some, None, MatchOption, MatchResult, IfSome, IfNone, IfOk, IfErr, OnErr};
ghost use Rattle.obj_id.specs.declared.commands.Reply.TheVariants as reply;
ghost use Rattle.obj_id.specs.declared.refusals.Refusal.TheVariants.{NoMemory, Stale};
ghost use Rattle.private_store.specs.laws.Answers.{is_small_reply};
ghost use Rattle.private_store.specs.declared.schedules.Event.TheVariants as event;
ghost use Rattle.node_gate.specs.Actors.{ActsIf};
ghost use Rattle.node_gate.specs.Calls.{IsNext};
ghost use Rattle.node_gate.specs.Actors.{HasTried};
ghost use Rattle.obj_id.specs.declared.refusals.Refusal.TheVariants.{Pending};
ghost use Rattle.private_store.specs.rules.Frames.{tried};

use crate::SharedNode;
use crate::preparing::spent_by;
use crate::refusing::out_of_memory;
use bytes::Bytes;
use memory_growth::OutOfMemory;
use node_gate::{Actor, JournaledNode};
use node_housekeeping::{Pause, Sender, Versions, is_gone};
use node_steps::{Stepped, step_call, sweep_after};
use obj_id::{Command, JobNo, Refusal, Reply};
use private_store::Awaited;
use std::os::unix::net::UnixStream;
use std::sync::Wait;
use std::time::Clock;

impl<K: JournaledNode, P: Pause> SharedNode<K, P> {
    /// The same as `call`, tried again while the answer is Pending and the node isn't shut, each time that something may have
    /// moved for the job, or chunks that were asked for don't come for two seconds. Each try is an entry; the answer and the
    /// receipt are those of the last, and the entries of the others are looked for before the next try.
    pub fn call_wait<R: Wait + Clock>(
        &self,
        rt: &R,
        actor: &mut Actor,
        job: JobNo,
        session: u32,
        awaited: Awaited,
    ) -> (Reply<Bytes>, Option<K::Receipt>)
        ensures acts { HasTried K.called_by result.1 (event.Call job session (tried awaited)) actor.old actor.new }
        ensures called { MatchOption result.1 (result.0 ≡ reply.Refused NoMemory) (λ r. K.called_by (event.Call job session (tried awaited)) result.0 r) }
        ensures small { is_small_reply result.0 ≡ true }
        ensures node { IfSome result.1 (λ r. K.made_at r ≡ self.now.number) }
    {
        self.call_wait_next(rt, actor, &None, job, session, awaited, None)
    }

    /// The same, of a session whose last receipt is shown, if it has one, and of a client's stream: it isn't tried again if its other end
    /// was closed, which is looked at after each wait and every two seconds of it.
    pub fn call_wait_next<R: Wait + Clock>(
        &self,
        rt: &R,
        actor: &mut Actor,
        last: &Option<K::Receipt>,
        job: JobNo,
        session: u32,
        awaited: Awaited,
        client: Option<&UnixStream>,
    ) -> (Reply<Bytes>, Option<K::Receipt>)
        ensures acts { HasTried K.called_by result.1 (event.Call job session (tried awaited)) actor.old actor.new }
        ensures called { MatchOption result.1 (result.0 ≡ reply.Refused NoMemory) (λ r. IsNext K.called_by K.rises last.now (event.Call job session (tried awaited)) result.0 r) }
        ensures small { is_small_reply result.0 ≡ true }
        ensures node { IfSome result.1 (λ r. K.made_at r ≡ self.now.number) }
    {
        for _ in rt.forever() {
            let last_try = self.try_once(rt, actor, last, job, session, &awaited, client);
            if let Some(answer) = last_try {
                return answer;
            }
        }
        unreachable!()
    }

    /// One try of a call that waits: its answer, if it is the last. Another one was answered Pending, and after it something may have moved for
    /// the job.
    fn try_once<R: Wait + Clock>(
        &self,
        rt: &R,
        actor: &mut Actor,
        last: &Option<K::Receipt>,
        job: JobNo,
        session: u32,
        awaited: &Awaited,
        client: Option<&UnixStream>,
    ) -> Option<(Reply<Bytes>, Option<K::Receipt>)>
        ensures acts { MatchOption result (actor.new ≡ actor.old ++ event.Call job session (tried awaited.now) ∷ []) (λ answer. ActsIf answer.1 (event.Call job session (tried awaited.now)) actor.old actor.new) }
        ensures called { IfSome result (λ answer. MatchOption answer.1 (answer.0 ≡ reply.Refused NoMemory) (λ r. IsNext K.called_by K.rises last.now (event.Call job session (tried awaited.now)) answer.0 r)) }
        ensures pending { IfNone result ((r : K.Receipt) × K.called_by (event.Call job session (tried awaited.now)) (reply.Refused Pending) r) }
        ensures small { IfSome result (λ answer. is_small_reply answer.0 ≡ true) }
        ensures node { IfSome result (λ answer. IfSome answer.1 (λ r. K.made_at r ≡ self.now.number)) }
    {
        let (stepped, seen) = self.step_awaited(rt, actor, last, job, session, awaited);
        match stepped {
            Ok(
                Stepped {
                    reply,
                    receipt,
                    mail,
                    ..
                },
            ) => {
                let is_pulling = self.post(rt, Sender::Placing, mail);
                if !is_pending(&reply) || self.housekeeping.upkeep.waiting.is_shut() {
                    return Some((reply, Some(receipt)));
                }
                let waiting = &self.housekeeping.upkeep.waiting;
                waiting.await_next(rt, job, seen, is_pulling, client);
                if is_gone(client) {
                    return Some((reply, Some(receipt)));
                }
                self.check(rt, &receipt);
                None
            }
            Err(error) => Some((out_of_memory(error), None)),
        }
    }

    /// The step of a try, and what had moved for the job by then: what moves from there on comes after the try.
    fn step_awaited<R: Wait>(
        &self,
        rt: &R,
        actor: &mut Actor,
        last: &Option<K::Receipt>,
        job: JobNo,
        session: u32,
        awaited: &Awaited,
    ) -> (
        Result<Stepped<K::Receipt, K::Mail, K::Erase>, OutOfMemory>,
        Versions,
    )
        ensures acts { IfOk result.0 (λ s. actor.new ≡ actor.old ++ event.Call job session (tried awaited.now) ∷ []) }
        ensures still { OnErr result.0 (actor.new ≡ actor.old) }
        ensures called { IfOk result.0 (λ s. IsNext K.called_by K.rises last.now (event.Call job session (tried awaited.now)) s.reply s.receipt) }
        ensures small { IfOk result.0 (λ s. is_small_reply s.reply ≡ true) }
        ensures node { IfOk result.0 (λ s. K.made_at s.receipt ≡ self.now.number) }
    {
        self.leave_marked(rt);
        let command = command_of(awaited);
        let queued = self.housekeeping.queues.of(job).lock(rt);
        let mut kept = self.lock(rt);
        if kept.wants(job, &command) {
            drop(kept);
            drop(queued);
            let seen = self.housekeeping.upkeep.waiting.seen(rt, job);
            return (
                self.step_prepared(rt, actor, last, job, session, command),
                seen,
            );
        }
        let stepped = step_call(
            rt,
            &mut *kept,
            &self.housekeeping,
            actor,
            last,
            job,
            session,
            command,
        );
        sweep_after(&mut *kept, job, false, &stepped);
        let seen = self.housekeeping.upkeep.waiting.seen(rt, job);
        let spent = spent_by(&mut *kept, job, true);
        drop(kept);
        drop(queued);
        drop(spent);
        (stepped, seen)
    }
}

/// Whether what was asked for may come yet.
fn is_pending(response: &Reply<Bytes>) -> bool
    ensures { result ≡ true → response.now ≡ reply.Refused Pending }
{
    matches!(response, Reply::Refused(Refusal::Pending))
}

/// The command that is tried again.
fn command_of(awaited: &Awaited) -> Command<Bytes>
    ensures { result ≡ tried awaited.now }
{
    match awaited {
        Awaited::Get(id) => Command::Get(*id),
        Awaited::Create { id, kind, length } => Command::Create {
            id: *id,
            kind: *kind,
            length: *length,
        },
    }
}
