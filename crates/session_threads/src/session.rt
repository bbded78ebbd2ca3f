//! A session at a node.
ghost use Rattle.std.specs.Prelude.{◌≡◌, true, IsTrue, [], None, IsSomeAnd, MatchOption};
ghost use Rattle.private_store.specs.laws.Answers.{is_small_reply};
ghost use Rattle.wire_frames.specs.Writing.{has_reply_frame};

use crate::frames::framed;
use bytes::Bytes;
use node_gate::{Actor, JournaledNode};
use node_housekeeping::{JobCounts, Marked, NoPause, OpenStream, Pause};
use obj_id::{Command, JobKey, JobNo, Refusal, Reply};
use private_store::Awaited;
use session_engine::Gate;
use shared_nodes::{ReceiptBuffer, SharedNode, out_of_memory};
use std::sync::{Arc, Wait};
use std::time::Clock;

/// A session at a node, with the receipts of its steps that weren't looked for yet. It can't be let go: `end` takes it.
pub struct Session<'a, K: JournaledNode, R: Wait + Clock, P = NoPause> {
    rt: &'a R,
    node: &'a SharedNode<K, P>,
    actor: Actor,
    receipts: ReceiptBuffer<K::Receipt>,
    // the session that the node let in last
    entered: Option<K::Entered>,
    // that of the last one that was marked
    marked: Option<Marked<K::Entered>>,
    // whose end is looked for while a call waits, and of which the operator is told
    client: Option<&'a OpenStream>,
    // those of its job, once it has entered
    counts: Option<Arc<JobCounts>>,
}

impl<'a, K: JournaledNode, R: Wait + Clock, P: Pause> Session<'a, K, R, P> {
    /// A session that has made no step, with the actor of all that it will make.
    pub fn new(rt: &'a R, actor: Actor, node: &'a SharedNode<K, P>) -> Session<'a, K, R, P>
        requires { actor ≡ [] }
        ensures { result.actor ≡ [] }
    {
        Session {
            rt,
            node,
            actor,
            receipts: ReceiptBuffer::new(node.upkeep().alloc),
            entered: None,
            marked: None,
            client: None,
            counts: None,
        }
    }

    /// The same of a client's stream: its calls wait no longer than its other end is open.
    pub(crate) fn of_stream(
        rt: &'a R,
        actor: Actor,
        node: &'a SharedNode<K, P>,
        client: &'a OpenStream,
    ) -> Session<'a, K, R, P>
        requires { actor ≡ [] }
        ensures { result.actor ≡ [] }
    {
        let mut session = Session::new(rt, actor, node);
        session.client = Some(client);
        session
    }

    /// Asks for the job's counts, if they weren't there yet: a session may enter before its job's admission has begun them.
    fn find_counts(&mut self, job: JobNo)
        ensures receipts { self.new.receipts ≡ self.old.receipts }
        ensures actor { self.new.actor ≡ self.old.actor }
        ensures entered { self.new.entered ≡ self.old.entered }
        ensures marked { self.new.marked ≡ self.old.marked }
        ensures node { self.new.node ≡ self.old.node }
    {
        if self.counts.is_none() {
            self.counts = self.node.upkeep().counts.of(self.rt, job);
        }
    }

    /// A command was taken from the client's stream.
    fn count_command(&self, command: &Command<Bytes>) {
        if let Some(client) = self.client {
            client.note_command();
        }
        if let Some(counts) = &self.counts {
            counts.note_command(command);
        }
    }

    /// The same of one that waits.
    fn count_awaited(&self, awaited: &Awaited) {
        if let Some(client) = self.client {
            client.note_command();
        }
        if let Some(counts) = &self.counts {
            counts.note_awaited(awaited);
        }
    }

    /// Counts the answer, and gives it back, with a frame.
    fn counted(&self, reply: Reply<Bytes>) -> Reply<Bytes>
        requires { is_small_reply reply ≡ true }
        ensures same { result ≡ reply }
        ensures frame { IsTrue (has_reply_frame result) }
    {
        if let Some(counts) = &self.counts {
            counts.note_answer(&reply);
        }
        framed(reply)
    }

    /// Marks the session that was let in last, which is then left by a later step of its node.
    fn leave_later(&mut self)
        ensures receipts { self.new.receipts ≡ self.old.receipts }
        ensures actor { self.new.actor ≡ self.old.actor }
        ensures entered { self.new.entered ≡ None }
        ensures marked { MatchOption self.old.entered (self.new.marked ≡ self.old.marked) (λ entered. IsSomeAnd self.new.marked (λ m. m.of.value ≡ entered)) }
        ensures node { self.new.node ≡ self.old.node }
    {
        if let Some(entered) = self.entered.take() {
            self.marked = Some(self.node.leave_later(self.rt, entered));
        }
    }

    /// Looks for the entries of the receipts that are left, and counts those that aren't there.
    pub fn end(self) {
        let Session {
            rt,
            node,
            receipts,
            actor: _actor,
            entered: _entered,
            marked: _marked,
            client: _client,
            counts: _counts,
        } = self;
        node.audit_all(rt, receipts);
    }
}

/// Who enters has the number that the node gave to this job and key. After each answer the last receipt is of this job, session, command and
/// reply, and of a step at the session's node that came after that of the receipt before; or the reply is `NoMemory`, and the last receipt the same as before.
/// After the session was left, the last receipt is of its Leave; or it is the same as before, and what the node let the session in with is
/// marked, to be left later. The steps of these receipts, and the tries of calls that
/// wait, are all steps that the session has made.
impl<'a, K: JournaledNode, R: Wait + Clock, P: Pause> Gate for Session<'a, K, R, P> {
    ghost use Rattle.session_threads.specs.Gates.{IsWitnessed, IsLetIn, IsMadeAt, holding};

    ghost gives = { λ before asked response after. IsWitnessed K.called_by K.rises asked response before.receipts.last after.receipts.last before.actor after.actor (holding K.pass before.entered before.marked) (holding K.pass after.entered after.marked) × IsLetIn asked response (holding K.pass before.entered before.marked) (holding K.pass after.entered after.marked) × IsMadeAt K.made_at before.node.now.number before.receipts.last after.receipts.last × (after.node ≡ before.node) };

    fn enter(&mut self, job: JobNo, key: JobKey) -> Result<u32, Refusal> {
        let counts = &self.node.upkeep().counts;
        let entered = match self.node.enter(self.rt, job, &key) {
            Ok(entered) => entered,
            Err(refusal) => {
                counts.note_hello(false);
                return Err(refusal);
            }
        };
        counts.note_hello(true);
        let session = K::session(&entered);
        self.entered = Some(entered);
        self.counts = counts.of(self.rt, job);
        if let Some(client) = self.client {
            client.note_session(job, session);
        }
        Ok(session)
    }

    fn call(&mut self, job: JobNo, session: u32, command: Command<Bytes>) -> Reply<Bytes> {
        self.find_counts(job);
        self.count_command(&command);
        if let Err(error) = self.node.make_room(self.rt, &mut self.receipts) {
            return self.counted(out_of_memory(error));
        }
        let last = self.receipts.last();
        let (node, actor) = (self.node, &mut self.actor);
        let (reply, receipt) = node.call_next(self.rt, actor, last, job, session, command);
        if let Some(receipt) = receipt {
            self.receipts.add(receipt);
        }
        self.counted(reply)
    }

    fn call_wait(&mut self, job: JobNo, session: u32, awaited: Awaited) -> Reply<Bytes> {
        self.find_counts(job);
        self.count_awaited(&awaited);
        if let Err(error) = self.node.make_room(self.rt, &mut self.receipts) {
            return self.counted(out_of_memory(error));
        }
        let last = self.receipts.last();
        let client = self.client.map(|client| client.stream());
        let actor = &mut self.actor;
        let (reply, receipt) = self
            .node
            .call_wait_next(self.rt, actor, last, job, session, awaited, client);
        if let Some(receipt) = receipt {
            self.receipts.add(receipt);
        }
        self.counted(reply)
    }

    fn leave(&mut self, job: JobNo, session: u32) {
        if self.node.make_room(self.rt, &mut self.receipts).is_err() {
            self.leave_later();
            return;
        }
        let last = self.receipts.last();
        let actor = &mut self.actor;
        match self.node.leave(self.rt, actor, last, job, session) {
            Some(receipt) => self.receipts.add(receipt),
            None => self.leave_later(),
        }
    }
}
