//! A node with its journal behind a lock.
ghost use Rattle.std.specs.Prelude.{◌≡◌, ◌⊎◌, ◌∷◌, [], Some, None, MatchResult, IfOk, IfErr};
ghost use Rattle.std.specs.Sync.Mutex.{mutex_guard_value};
ghost use Rattle.obj_id.specs.declared.commands.Reply.TheVariants as reply;
ghost use Rattle.obj_id.specs.declared.refusals.Refusal.TheVariants.{NoMemory, NotAdmitted, TooMany};
ghost use Rattle.shared_nodes.specs.Gathering.{AreLookedFor};

use crate::refusing::out_of_memory;
use bytes::Bytes;
use memory_growth::OutOfMemory;
use node_gate::{Access, JournaledNode, Keeper};
use node_housekeeping::{Housekeeping, LookedFor, NoPause, Pause, Sender, Upkeep, Waiting};
use node_links::Outbox;
use node_steps::{Stepped, audit_one};
use obj_id::{JobKey, JobNo, Refusal, Reply};
use std::alloc::Global;
use std::hint::spin_loop;
use std::sync::{Arc, Mutex, MutexGuard, Wait};

/// How often a session looks whether the node is locked, before it sleeps until it isn't.
const LOOKS: u32 = 100;

/// How many pauses there are between two looks, of some six nanoseconds each.
const PAUSES: u32 = 16;

/// A node with its journal, which many threads step.
//
// Locks are taken in this order: a maker's place, a queue, the node, and under it at most one of the others, which are let go at once. No
// device is called under any, and nothing is hashed or made under a queue's.
pub struct SharedNode<K: JournaledNode, P = NoPause> {
    // the node's own, since of what is locked no clause knows it
    number: u32,
    kept: Mutex<K>,
    pub(crate) outbox: Outbox<K::Posted>,
    pub(crate) housekeeping: Housekeeping<P, K::Erase, K::Entered>,
}

// By hand, so that it is proved here and not in each crate above.
impl<K: JournaledNode, P: Drop> Drop for SharedNode<K, P> {
    fn drop(self) {
        let SharedNode {
            number: _,
            kept: _kept,
            outbox: _outbox,
            housekeeping: _housekeeping,
        } = self;
    }
}

impl<K: JournaledNode, P: Pause> Keeper<K> for SharedNode<K, P> {
    fn kept(&self, _access: &Access<K>) -> &Mutex<K> {
        &self.kept
    }
}

impl<K: JournaledNode, P: Pause> SharedNode<K, P> {
    /// This node, with these ways out, and what pauses its steps.
    pub fn new(
        alloc: Global,
        kept: K,
        outbox: Outbox<K::Posted>,
        waiting: Arc<Waiting>,
        pause: P,
    ) -> SharedNode<K, P>
        ensures { result.number ≡ K.node_number kept }
    {
        SharedNode {
            number: kept.number(),
            kept: Mutex::new(kept),
            outbox,
            housekeeping: Housekeeping::new(alloc, waiting, pause),
        }
    }

    /// Locks the node, which has the number that it had at first.
    pub(crate) fn lock<R: Wait>(&self, rt: &R) -> MutexGuard<'_, K>
        ensures { K.node_number (mutex_guard_value result) ≡ self.now.number }
    {
        for _ in rt.forever() {
            let kept = self.lock_soon(rt);
            // always: a node keeps its number. But of what lies under a lock a clause knows only what was looked at
            if kept.number() == self.number {
                return kept;
            }
        }
        unreachable!()
    }

    /// The same. For the node's steps a session of each queue waits at most. A thread that sleeps is woken late, and most holds are over after a
    /// microsecond, so it looks for some ten of them first.
    fn lock_soon<R: Wait>(&self, rt: &R) -> MutexGuard<'_, K> {
        if let Some(kept) = self.kept.try_lock() {
            return kept;
        }
        self.housekeeping.upkeep.counts.note_lock_wait();
        for _ in 0..LOOKS {
            for _ in 0..PAUSES {
                spin_loop();
            }
            if let Some(kept) = self.kept.try_lock() {
                return kept;
            }
        }
        self.housekeeping.upkeep.counts.note_lock_sleep();
        self.kept.lock(rt)
    }

    /// Lets a session into the job, whose key it shows: its number is the one that a node of the cluster gave.
    pub fn enter<R: Wait>(&self, rt: &R, job: JobNo, key: &JobKey) -> Result<K::Entered, Refusal>
        ensures entered { IfOk result (λ e. ((K.pass e).job ≡ job) × ((K.pass e).key ≡ key.now)) }
        ensures refused { IfErr result (λ r. (r ≡ NotAdmitted) ⊎ (r ≡ TooMany)) }
    {
        self.lock(rt).enter(job, key)
    }

    /// Hands over what a step has sent, and gives its answer and its receipt. There is none if there was no memory for the step.
    pub(crate) fn answer<R: Wait>(
        &self,
        rt: &R,
        sender: Sender,
        stepped: Result<Stepped<K::Receipt, K::Mail, K::Erase>, OutOfMemory>,
    ) -> (Reply<Bytes>, Option<K::Receipt>)
        ensures { MatchResult stepped (λ s. (result.0 ≡ s.reply) × (result.1 ≡ Some s.receipt)) (λ _. (result.0 ≡ reply.Refused NoMemory) × (result.1 ≡ None)) }
    {
        match stepped {
            Ok(stepped) => self.hand_out(rt, sender, stepped),
            Err(error) => (out_of_memory(error), None),
        }
    }

    /// The same of a step that was made.
    pub(crate) fn hand_out<R: Wait>(
        &self,
        rt: &R,
        sender: Sender,
        stepped: Stepped<K::Receipt, K::Mail, K::Erase>,
    ) -> (Reply<Bytes>, Option<K::Receipt>)
        ensures { (result.0 ≡ stepped.reply) × (result.1 ≡ Some stepped.receipt) }
    {
        let Stepped {
            reply,
            receipt,
            mail,
            ..
        } = stepped;
        self.post(rt, sender, mail);
        (reply, Some(receipt))
    }

    /// Looks for the entry of a receipt that was given by this node, and counts it if the journal says that it isn't there. One
    /// that was folded isn't counted.
    pub fn check<R: Wait>(&self, rt: &R, receipt: &K::Receipt) -> LookedFor
        ensures { AreLookedFor K.misses K.node_number self.now.number (receipt.now ∷ []) result }
    {
        audit_one(rt, &*self.lock(rt), &self.housekeeping.tallies, receipt)
    }

    /// The node's number.
    pub fn number(&self) -> u32
        ensures { result ≡ self.now.number }
    {
        self.number
    }

    /// How many entries the journal has.
    pub fn entries<R: Wait>(&self, rt: &R) -> u64 {
        self.lock(rt).entries()
    }

    /// What everybody sees who serves it: what is to be done can't be taken out of that.
    pub fn upkeep(&self) -> &Upkeep {
        &self.housekeeping.upkeep
    }

    /// Closes the ways out to other nodes: what was accepted is still received.
    pub fn close_ways<R: Wait>(&self, rt: &R) {
        self.outbox.close(rt);
    }
}
