//! Why a command can't be carried out.
ghost use Rattle.std.specs.Prelude.{◌≡◌, not, true, Some, None, IfOk, IfErr, IsOk};
ghost use Rattle.job_row.specs.Checks.{write_check as write_check_lem, read_check as read_check_lem, lend_check as lend_check_lem, fetch_check as fetch_check_lem, create_check as create_check_lem, end_task_check as end_task_check_lem, unpin_check as unpin_check_lem, give_up_check as give_up_check_lem, delete_check as delete_check_lem, visible_state as visible_state_lem, fault_at};
ghost use Rattle.job_row.specs.EndingTasks.{stays_at};
ghost use Rattle.private_store.specs.rules.Tables.{at};
ghost use Rattle.job_row.specs.Row.{copies_of};
ghost use Rattle.job_row.specs.Scope.{removal_notice_at, stays_unpinned};

use crate::copies::Copies;
use crate::row::JobRow;
use obj_id::limits::{MOST_BYTES, MOST_COPIES, MOST_ENDED_TASKS};
use obj_id::{CopyState, DirectoryMessage, ObjectId, Refusal, TaskNo};
use private_store::Fault;
use row_copy::first_refusal;

impl Copies {
    /// Why `len` bytes can't be written into the copy: `BadSize`, `Absent`, `AlreadySealed`,
    /// `OutOfBounds`, or nothing.
    pub fn write_check(&self, id: &ObjectId, offset: u32, len: usize) -> Option<Refusal>
        ensures { result ≡ write_check_lem self.now id.now offset len }
    {
        if len > MOST_BYTES {
            return Some(Refusal::BadSize);
        }
        match self.get(id) {
            None => Some(Refusal::Absent),
            Some(copy) => copy.write_check(offset, len as u32),
        }
    }

    /// What the directory is sent if the task unpins the copy: nothing if it stays in scope then, or wasn't sealed. `Absent`,
    /// `NotOwner`, `NotHeld` if the task can't.
    pub fn unpin_farewell(
        &self,
        node: u32,
        id: &ObjectId,
        task: TaskNo,
    ) -> Result<Option<DirectoryMessage>, Refusal>
        ensures ok { IfOk result (λ message. message ≡ removal_notice_at node self.now id.now (not (stays_unpinned self.now id.now))) }
        ensures passed { IsOk result → unpin_check_lem self.now id.now task ≡ None }
        ensures refused { IfErr result (λ refusal. unpin_check_lem self.now id.now task ≡ Some refusal) }
    {
        let Some(copy) = self.get(id) else {
            return Err(Refusal::Absent);
        };
        if let Some(refusal) = copy.unpin_check(task == id.task()) {
            return Err(refusal);
        }
        Ok(copy.removal_notice(node, *id, !copy.in_scope_unpinned()))
    }

    /// What the directory is sent if the task gives the copy up: nothing if it stays in scope then, or wasn't sealed.
    /// `Absent`, also if the task doesn't borrow it, `NotOwner` if it can't.
    pub fn give_up_farewell(
        &self,
        node: u32,
        id: &ObjectId,
        task: TaskNo,
    ) -> Result<Option<DirectoryMessage>, Refusal>
        ensures ok { IfOk result (λ message. message ≡ removal_notice_at node self.now id.now (not (stays_at task self.now id.now))) }
        ensures passed { IsOk result → give_up_check_lem self.now id.now task ≡ None }
        ensures refused { IfErr result (λ refusal. give_up_check_lem self.now id.now task ≡ Some refusal) }
    {
        let Some(copy) = self.get(id) else {
            return Err(Refusal::Absent);
        };
        if let Some(refusal) = copy.give_up_check(task) {
            return Err(refusal);
        }
        Ok(copy.removal_notice(node, *id, !copy.in_scope_without(task)))
    }

    /// What the directory is sent if the copy is deleted: nothing unless it was sealed. `Absent`, `Granted` if it can't be.
    pub fn delete_farewell(
        &self,
        node: u32,
        id: &ObjectId,
    ) -> Result<Option<DirectoryMessage>, Refusal>
        ensures ok { IfOk result (λ message. message ≡ removal_notice_at node self.now id.now true) }
        ensures passed { IsOk result → delete_check_lem self.now id.now ≡ None }
        ensures refused { IfErr result (λ refusal. delete_check_lem self.now id.now ≡ Some refusal) }
    {
        let Some(copy) = self.get(id) else {
            return Err(Refusal::Absent);
        };
        if let Some(refusal) = copy.delete_check() {
            return Err(refusal);
        }
        Ok(copy.removal_notice(node, *id, true))
    }

    /// Why the session can't read `len` bytes of the copy: `BadSize`, `Absent`, `NotSealed`, `NotHeld`,
    /// `OutOfBounds`, or nothing.
    pub fn read_check(&self, session: u32, id: &ObjectId, offset: u32, len: u32) -> Option<Refusal>
        ensures { result ≡ read_check_lem self.now session id.now offset len }
    {
        if len as usize > MOST_BYTES {
            return Some(Refusal::BadSize);
        }
        match self.get(id) {
            None => Some(Refusal::Absent),
            Some(copy) => copy.read_check(session, offset, len),
        }
    }

    /// Why the session isn't lent the copy's bytes: `Absent`, `NotSealed`, `NotHeld`, or nothing.
    pub fn lend_check(&self, session: u32, id: &ObjectId) -> Option<Refusal>
        ensures { result ≡ lend_check_lem (copies_of self.now) session id.now }
    {
        match self.get(id) {
            None => Some(Refusal::Absent),
            Some(copy) => copy.lend_check(session),
        }
    }

    /// Why no fetch can begin, if this was the last one's number: `TooMany`, or nothing.
    pub fn fetch_check(&self, begun: u64) -> Option<Refusal>
        ensures { result ≡ fetch_check_lem self.now begun }
    {
        if self.len() >= MOST_COPIES || begun == u64::MAX {
            return Some(Refusal::TooMany);
        }
        None
    }

    /// What the copy has to tell of its last restore, if there is a copy.
    pub fn fault(&self, id: &ObjectId) -> Option<Fault>
        ensures { result ≡ fault_at self.now id.now }
    {
        self.get(id)?.fault()
    }

    /// The state of the copy, if there is one. `Absent` if it is doomed.
    pub fn visible_state(&self, id: &ObjectId) -> Result<Option<CopyState>, Refusal>
        ensures { result ≡ visible_state_lem (at self.now id.now) }
    {
        let Some(copy) = self.get(id) else {
            return Ok(None);
        };
        if copy.doomed() {
            return Err(Refusal::Absent);
        }
        Ok(Some(copy.state()))
    }
}

impl JobRow {
    /// Why no copy of `len` bytes can be made under the id, before room is looked for: `BadSize`, `Gone`,
    /// `Exists`, `TooMany`, or nothing.
    pub fn create_check(&self, id: &ObjectId, len: u32) -> Option<Refusal>
        ensures { result ≡ create_check_lem self.now id.now len }
    {
        first_refusal(&[
            (!self.window().may_have(len), Refusal::BadSize),
            (self.has_ended(id.task()), Refusal::Gone),
            (self.copies().get(id).is_some(), Refusal::Exists),
            (self.copies().len() >= MOST_COPIES, Refusal::TooMany),
        ])
    }

    /// Why the task can't end: `Gone` if it has ended already, `TooMany` at 1,024 ended tasks, or nothing.
    pub fn end_task_check(&self, task: TaskNo) -> Option<Refusal>
        ensures { result ≡ end_task_check_lem self.now task }
    {
        first_refusal(&[
            (self.has_ended(task), Refusal::Gone),
            (self.ended_count() >= MOST_ENDED_TASKS, Refusal::TooMany),
        ])
    }
}
