//! Leave and EndTask, which change each copy in order of id.
#![tactic(auto, unfolding(private_store::specs::rules::Change::checked, private_store::specs::rules::Change::needing, private_store::specs::rules::Change::sending))]

ghost use Rattle.std.specs.Prelude.{◌≡◌, fold, IfOk, OnOk};
ghost use Rattle.private_store.specs.rules.Tables.{ids_of};
ghost use Rattle.private_store.specs.rules.Change.{doom};
ghost use Rattle.private_store.specs.rules.Commands.{end_task, give_up_one, leave, leave_one, of_task, task_ended};
ghost use Rattle.plain_store.specs.Changing.{task_over};

use crate::marks::Mark;
use crate::predicates::same_task;
use crate::store::PlainStore;
use memory_growth::{OutOfMemory, lists};
use obj_id::limits::MOST_ENDED_TASKS;
use obj_id::{ObjectId, Refusal, Reply, TaskNo};
use std::alloc::Global;

impl PlainStore {
    /// The ids of the copies, in order. The error is out of memory.
    fn ids(&self, alloc: Global) -> Result<Vec<ObjectId>, OutOfMemory>
        ensures { IfOk result (λ ids. ids.items ≡ ids_of self.now.shape.copies) }
    {
        lists::collected(alloc, self.copies.keys().copied())
    }

    /// The session has no holds on the copy, if there is one. Takes no memory.
    fn leave_one(&mut self, session: u32, id: ObjectId)
        ensures { self.new ≡ record self.old { shape = (leave_one session self.old.shape id).shape } }
    {
        let Some(copy) = self.copy_mut(id) else {
            return;
        };
        copy.apply(Mark::Left(session));
        self.settled(id);
    }

    /// The session has no holds on these copies. Takes no memory.
    fn leave_each(&mut self, session: u32, ids: &[ObjectId])
        ensures { self.new ≡ record self.old { shape = fold (λ store id. (leave_one session store id).shape) self.old.shape ids.now } }
    {
        for id in ids {
            self.leave_one(session, *id);
        }
    }

    /// Leave: all holds of the session end. The error is out of memory, and leaves the store as it was.
    pub(crate) fn leave(&mut self, alloc: Global, session: u32) -> Result<Reply<u64>, OutOfMemory>
        ensures reply { IfOk result (λ reply. reply ≡ (leave self.old.shape session).reply) }
        ensures store { OnOk result (self.new ≡ record self.old { shape = (leave self.old.shape session).shape }) }
        ensures used { OnOk result ((leave self.old.shape session).used ≡ None) }
    {
        let ids = self.ids(alloc)?;
        self.leave_each(session, &ids);
        Ok(Reply::Ok)
    }

    /// The task is remembered as ended, and what it had granted ends. The error is out of memory.
    fn task_ended(&mut self, task: TaskNo) -> Result<(), OutOfMemory>
        ensures { OnOk result (self.new ≡ record self.old { shape = task_ended self.old.shape task }) }
    {
        lists::push(&mut self.ended_tasks, task)?;
        let job = self.job;
        self.given.retain(|grant| !(grant.id.job().0 == job.0
            && same_task(&task, &grant.id.task())));
        Ok(())
    }

    /// The task's borrow of one object is given up, if it has one. Takes no memory.
    fn give_up_one(&mut self, task: TaskNo, id: ObjectId)
        ensures { self.new ≡ record self.old { shape = (give_up_one task self.old.shape id).shape } }
    {
        let Some(copy) = self.copy(id) else {
            return;
        };
        if copy.doomed {
            self.apply(id, Mark::GivenUp(task));
        } else if copy.has_borrower(task) {
            self.apply_scoped(id, Mark::GivenUp(task));
        }
    }

    /// These copies are doomed. Takes no memory.
    fn doom_each(&mut self, ids: &[ObjectId])
        ensures { self.new ≡ record self.old { shape = fold (λ store id. (doom store id).shape) self.old.shape ids.now } }
    {
        for id in ids {
            self.doomed(*id);
        }
    }

    /// The task's borrows of these objects are given up. Takes no memory.
    fn give_up_each(&mut self, task: TaskNo, ids: &[ObjectId])
        ensures { self.new ≡ record self.old { shape = fold (λ store id. (give_up_one task store id).shape) self.old.shape ids.now } }
    {
        for id in ids {
            self.give_up_one(task, *id);
        }
    }

    /// The task's copies are doomed, and its borrows given up. The error is out of memory.
    fn task_over(&mut self, alloc: Global, task: TaskNo) -> Result<(), OutOfMemory>
        ensures reply { OnOk result ((task_over self.old.shape task).reply ≡ Reply.Ok) }
        ensures store { OnOk result (self.new ≡ record self.old { shape = (task_over self.old.shape task).shape }) }
        ensures used { OnOk result ((task_over self.old.shape task).used ≡ None) }
    {
        let ids = self.ids(alloc)?;
        let own = of_task_in(alloc, task, &ids)?;
        self.task_ended(task)?;
        self.doom_each(&own);
        self.give_up_each(task, &ids);
        Ok(())
    }

    /// EndTask: the task's copies are doomed, and its borrows given up. The error is out of memory.
    pub(crate) fn end_task(
        &mut self,
        alloc: Global,
        task: TaskNo,
    ) -> Result<Reply<u64>, OutOfMemory>
        ensures reply { IfOk result (λ reply. reply ≡ (end_task self.old.shape task).reply) }
        ensures store { OnOk result (self.new ≡ record self.old { shape = (end_task self.old.shape task).shape }) }
        ensures used { OnOk result ((end_task self.old.shape task).used ≡ None) }
    {
        if self.has_ended(task) {
            return Ok(Reply::Refused(Refusal::Gone));
        }
        if self.ended_tasks.len() >= MOST_ENDED_TASKS {
            return Ok(Reply::Refused(Refusal::TooMany));
        }
        self.task_over(alloc, task)?;
        Ok(Reply::Ok)
    }
}

/// Those of the ids that are of the task's objects. The error is out of memory.
fn of_task_in(alloc: Global, task: TaskNo, ids: &[ObjectId]) -> Result<Vec<ObjectId>, OutOfMemory>
    ensures { IfOk result (λ own. own.items ≡ of_task task ids.now) }
{
    let own = ids
        .iter()
        .copied()
        .filter(|id| same_task(&task, &id.task()));
    lists::collected(alloc, own)
}
