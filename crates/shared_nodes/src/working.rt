//! The rounds of a worker, which carries out the device works of a node.
ghost use Rattle.std.specs.Prelude.{◌≡◌, ◌⊎◌, ◌++◌, ◌∷◌, [], List, Option, None, IfSome, IsSomeAnd, MatchOption, option_map};
ghost use Rattle.shared_nodes.specs.Gathering.{receipts_in_order};
ghost use Rattle.obj_id.specs.declared.commands.Reply.TheVariants as reply;
ghost use Rattle.private_store.specs.declared.schedules.Event.TheVariants as event;
ghost use Rattle.shared_nodes.specs.Rounds.{EndsRound, HasAskedForWork, HasTakenWork, HasWorked, IsHandedIn, IsRound, done_after as done_after_lem};
ghost use Rattle.node_housekeeping.specs.declared.work_done.WorkDone.TheVariants.{Nothing, NoMemory};
ghost use Rattle.private_store.specs.declared.schedules.Event.{Event};
ghost use Rattle.obj_id.specs.declared.refusals.Refusal.TheVariants as refusal;
ghost use Rattle.node_gate.specs.Actors.{ActsIf};

use crate::SharedNode;
use crate::pending::PendingFinish;
use crate::preparing::prepare_finish;
use crate::receipt_buffer::ReceiptBuffer;
use crate::refusing::out_of_memory;
use bytes::Bytes;
use node_gate::{Actor, JournaledNode};
use node_housekeeping::{Pause, Sender, WorkDone, call_device};
use node_steps::{step_event, step_take};
use obj_id::{Refusal, Reply, Work};
use private_store::Event;
use spill_device::SpillDevice;
use std::sync::Wait;

impl<K: JournaledNode, P: Pause> SharedNode<K, P> {
    /// One round of a worker: sessions that are marked are left, and keys that wait are erased; then a work is taken, the device
    /// called for it, and its answer handed in. An answer that found no memory when it was handed in is kept, and is the work of the worker's
    /// next round, without a second call.
    pub fn work_once<R: Wait, D: SpillDevice>(
        &self,
        rt: &R,
        actor: &mut Actor,
        device: &mut D,
        kept: &mut Option<PendingFinish<K, D>>,
    ) -> WorkDone
        ensures { (receipts : List K.Receipt) × (last : Option K.Receipt) × IsRound K.receipt_of K.keys D.write_gives D.read_gives D.erase_gives device.old (option_map (λ p. p.finishing) kept.old) result device.new (option_map (λ p. p.finishing) kept.new) None last receipts actor.old actor.new }
    {
        let mut receipts = ReceiptBuffer::new(self.housekeeping.upkeep.alloc);
        let done = self.round(rt, actor, device, kept, &mut receipts);
        self.audit_all(rt, receipts);
        done
    }

    /// The same; the receipts of its steps are gathered.
    pub fn round<R: Wait, D: SpillDevice>(
        &self,
        rt: &R,
        actor: &mut Actor,
        device: &mut D,
        kept: &mut Option<PendingFinish<K, D>>,
        receipts: &mut ReceiptBuffer<K::Receipt>,
    ) -> WorkDone
        ensures { IsRound K.receipt_of K.keys D.write_gives D.read_gives D.erase_gives device.old (option_map (λ p. p.finishing) kept.old) result device.new (option_map (λ p. p.finishing) kept.new) receipts.old.last receipts.new.last (receipts_in_order receipts.new.earlier.items receipts.new.last) actor.old actor.new }
    {
        self.leave_marked(rt);
        self.erase_keys(rt, device);
        match kept.take() {
            Some(pending) => self.hand_in(rt, actor, device, pending, kept, receipts),
            None => self.take_one(rt, actor, device, kept, receipts),
        }
    }

    /// Takes a work, calls the device for it, and hands in the answer.
    fn take_one<R: Wait, D: SpillDevice>(
        &self,
        rt: &R,
        actor: &mut Actor,
        device: &mut D,
        kept: &mut Option<PendingFinish<K, D>>,
        receipts: &mut ReceiptBuffer<K::Receipt>,
    ) -> WorkDone
        requires { kept.old ≡ None }
        ensures { HasTakenWork K.receipt_of D.write_gives D.read_gives D.erase_gives device.old result device.new (option_map (λ p. p.finishing) kept.new) receipts.new.last (receipts_in_order receipts.new.earlier.items receipts.new.last) actor.old actor.new }
    {
        match self.take_gathering(rt, actor, receipts) {
            Reply::Work(work) => self.carry_out(rt, actor, device, &work, kept, receipts),
            other => done_without_work(&other),
        }
    }

    /// Calls the device for a work that a Take gave, whose receipt is the last, and hands in its answer.
    fn carry_out<R: Wait, D: SpillDevice>(
        &self,
        rt: &R,
        actor: &mut Actor,
        device: &mut D,
        work: &Work<Bytes>,
        kept: &mut Option<PendingFinish<K, D>>,
        receipts: &mut ReceiptBuffer<K::Receipt>,
    ) -> WorkDone
        requires given { IsSomeAnd receipts.old.last (K.receipt_of event.Take (reply.Work work.now)) }
        requires free { kept.old ≡ None }
        ensures { (before : List Event) → actor.old ≡ before ++ event.Take ∷ [] → HasWorked K.receipt_of D.write_gives D.read_gives D.erase_gives device.old result device.new (option_map (λ p. p.finishing) kept.new) (receipts_in_order receipts.new.earlier.items receipts.new.last) before actor.new }
    {
        let finishing = call_device(device, work);
        self.housekeeping
            .upkeep
            .counts
            .note_device_call(rt, &finishing);
        self.hand_in(
            rt,
            actor,
            device,
            PendingFinish::new(finishing),
            kept,
            receipts,
        )
    }

    /// Hands in a device's answer. One that found no memory is kept; what was written for a work that is no more is erased.
    fn hand_in<R: Wait, D: SpillDevice>(
        &self,
        rt: &R,
        actor: &mut Actor,
        device: &mut D,
        pending: PendingFinish<K, D>,
        kept: &mut Option<PendingFinish<K, D>>,
        receipts: &mut ReceiptBuffer<K::Receipt>,
    ) -> WorkDone
        requires { kept.old ≡ None }
        ensures { EndsRound K.receipt_of D.erase_gives pending.finishing device.old result device.new (option_map (λ p. p.finishing) kept.new) receipts.old.last (receipts_in_order receipts.new.earlier.items receipts.new.last) actor.old actor.new }
    {
        let reply = self.operate_gathering(rt, actor, &pending.finishing.event, receipts);
        let done = done_after(&reply);
        let written = pending.finishing.written;
        if done == WorkDone::NoMemory {
            *kept = Some(pending);
        }
        self.housekeeping.erase_stale(rt, device, written, done);
        done
    }

    /// An event of a worker, with the receipt of its entry.
    pub(crate) fn operate<R: Wait>(
        &self,
        rt: &R,
        actor: &mut Actor,
        event: &Event,
    ) -> (Reply<Bytes>, Option<K::Receipt>)
        ensures acts { ActsIf result.1 (event.now) actor.old actor.new }
        ensures receipt { MatchOption result.1 (result.0 ≡ reply.Refused refusal.NoMemory) (λ r. K.receipt_of event.now result.0 r) }
        ensures node { IfSome result.1 (λ r. K.made_at r ≡ self.now.number) }
    {
        let (job, prepared) = prepare_finish::<K>(self.housekeeping.upkeep.alloc, event);
        let mut kept = self.lock(rt);
        let before = kept.prepare(job, prepared);
        let stepped = step_event(rt, &mut *kept, &self.housekeeping, actor, &None, event);
        let rest = kept.prepare(job, before);
        drop(kept);
        drop(rest);
        self.answer(rt, Sender::Other, stepped)
    }

    /// An event of a worker, whose receipt is gathered, if there is one.
    pub(crate) fn operate_gathering<R: Wait>(
        &self,
        rt: &R,
        actor: &mut Actor,
        event: &Event,
        receipts: &mut ReceiptBuffer<K::Receipt>,
    ) -> Reply<Bytes>
        ensures { IsHandedIn K.receipt_of event.now result receipts.old.last (receipts_in_order receipts.new.earlier.items receipts.new.last) actor.old actor.new }
    {
        if let Err(error) = self.make_room(rt, receipts) {
            return out_of_memory(error);
        }
        let (reply, receipt) = self.operate(rt, actor, event);
        if let Some(receipt) = receipt {
            receipts.add(receipt);
        }
        reply
    }

    /// A worker takes a work, if one waits that nobody has taken. The receipt is gathered.
    pub(crate) fn take_gathering<R: Wait>(
        &self,
        rt: &R,
        actor: &mut Actor,
        receipts: &mut ReceiptBuffer<K::Receipt>,
    ) -> Reply<Bytes>
        ensures { HasAskedForWork K.receipt_of result receipts.new.last actor.old actor.new }
    {
        if let Err(error) = self.make_room(rt, receipts) {
            return out_of_memory(error);
        }
        let (reply, receipt) = self.take(rt, actor);
        if let Some(receipt) = receipt {
            receipts.add(receipt);
        }
        reply
    }

    /// A worker takes a work, if one waits that nobody has taken: otherwise, and without memory, there is no receipt.
    fn take<R: Wait>(&self, rt: &R, actor: &mut Actor) -> (Reply<Bytes>, Option<K::Receipt>)
        ensures acts { ActsIf result.1 event.Take actor.old actor.new }
        ensures receipt { MatchOption result.1 ((result.0 ≡ reply.NoWork) ⊎ (result.0 ≡ reply.Refused refusal.NoMemory)) (λ r. K.receipt_of event.Take result.0 r) }
    {
        let mut kept = self.lock(rt);
        let stepped = step_take(rt, &mut *kept, &self.housekeeping, actor);
        drop(kept);
        match stepped {
            None => (Reply::NoWork, None),
            Some(stepped) => self.answer(rt, Sender::Other, stepped),
        }
    }
}

/// What the answer to a Finish makes of a round.
fn done_after(reply: &Reply<Bytes>) -> WorkDone
    ensures { result ≡ done_after_lem reply.now }
{
    match reply {
        Reply::Refused(Refusal::NoMemory) => WorkDone::NoMemory,
        Reply::Refused(_) => WorkDone::Stale,
        _ => WorkDone::Done,
    }
}

/// What a round is that took no work.
fn done_without_work(reply: &Reply<Bytes>) -> WorkDone
    ensures { (result ≡ Nothing) ⊎ (result ≡ NoMemory) }
{
    match reply {
        Reply::Refused(Refusal::NoMemory) => WorkDone::NoMemory,
        _ => WorkDone::Nothing,
    }
}
