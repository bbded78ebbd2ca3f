//! One input of a job's store.
ghost use Rattle.std.specs.Prelude.{◌≡◌, None, true, IfOk, OnOk};
ghost use Rattle.private_store.specs.laws.Listed.{IsReplayStateKept};
ghost use Rattle.private_store.specs.rules.Replay.{replay_step, replay_after};
ghost use Rattle.private_store.specs.rules.Copies.{is_away as is_away_lem};
ghost use Rattle.private_store.specs.rules.Events.{is_live as is_live_lem, over, pull_arrived};
ghost use Rattle.private_store.specs.rules.Step.{commanded, step};
ghost use Rattle.plain_store.specs.Steps.{is_foreign as is_foreign_lem, is_timely, own_command, own_id as own_id_lem, uses_none};

use crate::response::Response;
use crate::store::PlainStore;
use memory_growth::OutOfMemory;
use obj_id::{ChunkIndex, Command, CopyState, FetchNo, NodeNo, ObjectId, Refusal, Reply};
use private_store::Judged;
use std::alloc::Global;
use std::mem;

impl PlainStore {
    /// The store after an input, and what the input is answered, as the private store says it. What the input was judged to be
    /// is taken as it stands: that the store was such that it could be so isn't asked.
    ///
    /// Takes a walk over the order of use; room costs at most the square of the copies. The error is out of memory, and then the
    /// store is gone.
    pub fn step(
        self,
        alloc: Global,
        input: &Judged,
    ) -> Result<(PlainStore, Reply<u64>), OutOfMemory>
        requires kept { IsReplayStateKept self }
        ensures reply { IfOk result (λ r. r.1 ≡ (replay_step self input.now).reply) }
        ensures store { IfOk result (λ r. r.0 ≡ replay_after self input.now) }
    {
        let mut store = self;
        let response = store.take(alloc, input)?;
        store.use_order(response.used)?;
        Ok((store, response.reply))
    }

    /// The same, but for the order of use.
    #[tactic(auto, unfolding(private_store::specs::rules::Change::checked, private_store::specs::rules::Change::needing, private_store::specs::rules::Change::sending))]
    fn take(&mut self, alloc: Global, input: &Judged) -> Result<Response, OutOfMemory>
        requires kept { IsReplayStateKept self.old }
        ensures reply { IfOk result (λ response. response.reply ≡ (step self.old.order self.old.shape input.now).reply) }
        ensures used { IfOk result (λ response. response.used ≡ (step self.old.order self.old.shape input.now).used) }
        ensures store { OnOk result (self.new ≡ record self.old { shape = (step self.old.order self.old.shape input.now).shape }) }
    {
        match input {
            Judged::Begin(quota) => Ok(Response::only(self.begin(*quota))),
            Judged::Call(session, command) => self.call(alloc, *session, command),
            Judged::Answer(number, verdict) => Ok(Response::only(self.answer(*number, *verdict))),
            Judged::Received {
                id,
                length,
                grantor,
                depth,
            } => Ok(Response::only(self.received(alloc, *id, *length, *grantor, *depth)?)),
            Judged::Withdrawn { id, grantor, depth } => {
                Ok(Response::only(self.withdrawn(*id, *grantor, *depth)))
            }
            Judged::Requota(_)
            | Judged::Located { .. }
            | Judged::Chunk { .. }
            | Judged::Pull { .. }
            | Judged::NotHere { .. }
            | Judged::End => self.take_if_live(alloc, input),
        }
    }

    /// A change of quota, the end, or a message: `Stale` unless the job is live.
    #[tactic(auto, unfolding(private_store::specs::rules::Change::checked, private_store::specs::rules::Change::needing, private_store::specs::rules::Change::sending))]
    fn take_if_live(&mut self, alloc: Global, input: &Judged) -> Result<Response, OutOfMemory>
        requires kept { IsReplayStateKept self.old }
        requires timely { is_timely input.now ≡ true }
        ensures reply { IfOk result (λ response. response.reply ≡ (step self.old.order self.old.shape input.now).reply) }
        ensures used { IfOk result (λ response. response.used ≡ (step self.old.order self.old.shape input.now).used) }
        ensures store { OnOk result (self.new ≡ record self.old { shape = (step self.old.order self.old.shape input.now).shape }) }
    {
        if !self.is_live() {
            return Ok(Response::refused(Refusal::Stale));
        }
        match input {
            Judged::Requota(quota) => Ok(Response::only(self.requota(*quota))),
            Judged::Located { id, number, source } => {
                Ok(Response::only(self.located(*id, FetchNo(*number), *source)))
            }
            Judged::Chunk {
                id,
                number,
                index,
                from,
                verdict,
            } => Ok(Response::only(self.chunk_arrived(
                *id,
                FetchNo(*number),
                ChunkIndex(*index),
                NodeNo(*from),
                *verdict,
            ))),
            Judged::Pull { id, matches, .. } => self.pull_arrived(alloc, *id, *matches),
            Judged::NotHere { id, number, from } => {
                Ok(Response::only(self.not_here_arrived(*id, FetchNo(*number), NodeNo(*from))))
            }
            _ => {
                self.end(alloc);
                Ok(Response::only(Reply::Ok))
            }
        }
    }

    /// A session's command: `NotAdmitted` unless the job is live, `NotGranted` of another job's object.
    #[tactic(auto, unfolding(private_store::specs::rules::Change::checked, private_store::specs::rules::Change::needing, private_store::specs::rules::Change::sending))]
    fn call(
        &mut self,
        alloc: Global,
        session: u32,
        command: &Command<u64>,
    ) -> Result<Response, OutOfMemory>
        requires kept { IsReplayStateKept self.old }
        ensures reply { IfOk result (λ response. response.reply ≡ (step self.old.order self.old.shape (Judged.Call session command.now)).reply) }
        ensures used { IfOk result (λ response. response.used ≡ (step self.old.order self.old.shape (Judged.Call session command.now)).used) }
        ensures store { OnOk result (self.new ≡ record self.old { shape = (step self.old.order self.old.shape (Judged.Call session command.now)).shape }) }
    {
        if !self.is_live() {
            return Ok(Response::refused(Refusal::NotAdmitted));
        }
        if self.is_foreign(command) {
            return Ok(Response::refused(Refusal::NotGranted));
        }
        self.own_call(alloc, session, command)
    }

    /// Whether it is refused for its object, which is another job's.
    fn is_foreign(&self, command: &Command<u64>) -> bool
        ensures { result ≡ is_foreign_lem self.now.shape command.now }
    {
        match own_id(command) {
            Some(id) => id.job() != self.job,
            None => false,
        }
    }

    /// A command of a live job whose object is its own.
    fn own_call(
        &mut self,
        alloc: Global,
        session: u32,
        command: &Command<u64>,
    ) -> Result<Response, OutOfMemory>
        requires kept { IsReplayStateKept self.old }
        requires live { is_live_lem self.old.shape ≡ true }
        ensures reply { IfOk result (λ response. response.reply ≡ (own_command self.old.order self.old.shape session command.now).reply) }
        ensures used { IfOk result (λ response. response.used ≡ (own_command self.old.order self.old.shape session command.now).used) }
        ensures store { OnOk result (self.new ≡ record self.old { shape = (own_command self.old.order self.old.shape session command.now).shape }) }
    {
        match command {
            Command::Create { id, kind, length } => self.create(alloc, *id, *kind, *length),
            Command::Get(id) => self.get(alloc, session, *id),
            _ => Ok(Response::only(self.plain_call(alloc, session, command)?)),
        }
    }

    /// One that makes no copy the most recently used one.
    fn plain_call(
        &mut self,
        alloc: Global,
        session: u32,
        command: &Command<u64>,
    ) -> Result<Reply<u64>, OutOfMemory>
        requires kept { IsReplayStateKept self.old }
        requires plain { uses_none command.now ≡ true }
        ensures reply { IfOk result (λ reply. reply ≡ (own_command self.old.order self.old.shape session command.now).reply) }
        ensures used { OnOk result ((own_command self.old.order self.old.shape session command.now).used ≡ None) }
        ensures store { OnOk result (self.new ≡ record self.old { shape = (own_command self.old.order self.old.shape session command.now).shape }) }
    {
        match command {
            Command::Write {
                id,
                offset,
                bytes: count,
            } => Ok(self.write(*id, *offset, *count)),
            Command::Seal(id) => Ok(self.seal(*id)),
            Command::Read { id, offset, count } => Ok(self.read(session, *id, *offset, *count)),
            Command::Release(id) => self.release(session, *id),
            Command::Unpin(id, task) => Ok(self.unpin(*id, *task)),
            Command::Borrow(id, task) => self.borrow(*id, *task),
            Command::GiveUp(id, task) => Ok(self.give_up(*id, *task)),
            Command::Delete(id) => Ok(self.delete(*id)),
            Command::EndTask(task) => self.end_task(alloc, *task),
            Command::Grant(id, target) => self.grant(*id, *target),
            Command::Withdraw(id, target) => Ok(self.withdraw(*id, *target)),
            Command::Peek { id, offset, count } => Ok(self.peek(*id, *offset, *count)),
            Command::List => self.list(alloc),
            Command::Usage => Ok(self.usage()),
            Command::Leave => self.leave(alloc, session),
            Command::Create { .. } | Command::Get(_) => unreachable!(),
        }
    }

    /// A Pull of another node, if the copy had the length and the digest: a copy that is away is read back, without an answer, and a
    /// spill that failed is still to be answered. The error is out of memory.
    #[tactic(auto, unfolding(private_store::specs::rules::Change::checked, private_store::specs::rules::Change::needing, private_store::specs::rules::Change::sending))]
    fn pull_arrived(
        &mut self,
        alloc: Global,
        id: ObjectId,
        matches: bool,
    ) -> Result<Response, OutOfMemory>
        requires kept { IsReplayStateKept self.old }
        requires live { is_live_lem self.old.shape ≡ true }
        ensures reply { IfOk result (λ response. response.reply ≡ (pull_arrived self.old.order self.old.shape id matches).reply) }
        ensures used { IfOk result (λ response. response.used ≡ (pull_arrived self.old.order self.old.shape id matches).used) }
        ensures store { OnOk result (self.new ≡ record self.old { shape = (pull_arrived self.old.order self.old.shape id matches).shape }) }
    {
        let Some(copy) = self.visible(id) else {
            return Ok(Response::only(Reply::Ok));
        };
        if !matches || !is_away(copy.state) || copy.fault.is_some() {
            return Ok(Response::only(Reply::Ok));
        }
        let failed = self.spill_failed;
        let response = self.restore(alloc, id)?;
        self.spill_failed = failed;
        Ok(Response {
            reply: Reply::Ok,
            used: response.used,
        })
    }

    /// What is left of the store once its job has ended. Takes no memory.
    fn end(&mut self, alloc: Global)
        ensures { self.new ≡ record self.old { shape = over self.old.shape } }
    {
        let job = self.job;
        let store = mem::replace(self, PlainStore::new(alloc, job));
        *self = store.over(alloc);
    }
}

/// Whether the copy is on the device alone.
fn is_away(state: CopyState) -> bool
    ensures { result ≡ is_away_lem state }
{
    matches!(state, CopyState::Away)
}

/// The object of a command that is refused for another job's.
fn own_id(command: &Command<u64>) -> Option<ObjectId>
    ensures { result ≡ own_id_lem command.now }
{
    match command {
        Command::Create { id, .. }
        | Command::Write { id, .. }
        | Command::Seal(id)
        | Command::Get(id)
        | Command::Read { id, .. }
        | Command::Release(id)
        | Command::Unpin(id, _)
        | Command::Borrow(id, _)
        | Command::GiveUp(id, _)
        | Command::Delete(id) => Some(*id),
        Command::EndTask(_)
        | Command::Grant(..)
        | Command::Withdraw(..)
        | Command::Peek { .. }
        | Command::List
        | Command::Usage
        | Command::Leave => None,
    }
}
