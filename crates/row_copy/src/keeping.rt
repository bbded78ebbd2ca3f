//! What keeps a copy: its owner task, the tasks that borrow it, the sessions that hold it, and grants of it.
ghost use Rattle.std.specs.Prelude.{◌≡◌, if◌then◌else◌, false, Some, None, IfOk, IfErr, IfSome, IfNone, OnOk, OnErr, IsErrOf, IsOk};
ghost use Rattle.obj_id.specs.declared.refusals.Refusal.{Refusal};
ghost use Rattle.memory_growth.specs.declared.OutOfMemory.{OutOfMemory};
ghost use Rattle.obj_id.specs.declared.refusals.Failure.TheVariants.{Refused, Memory};
ghost use Rattle.obj_id.specs.Ids.{same_task};
ghost use Rattle.private_store.specs.rules.Marks.{without_borrower};
ghost use Rattle.private_store.specs.rules.Copies.{is_held, in_scope};
ghost use Rattle.private_store.specs.rules.Commands.{holds_of as holds_of_lem, has_borrower};
ghost use Rattle.row_copy.specs.CopyViews.{after_release, after_unpin, after_borrow, after_give_up, after_grants_ended, view_in_scope};
ghost use Rattle.row_copy.specs.Checks.{release_check_of as release_check, borrow_check_of};
ghost use Rattle.row_copy.specs.Scope.{removal_notice as farewell_of};
ghost use Rattle.row_copy.specs.Holding.{IsHeld, IsUnready, IsHoldRefused};

use crate::RowCopy;
use obj_id::{CopyState, DirectoryMessage, Failure, ObjectId, Refusal, TaskNo};

impl RowCopy {
    /// Whether a session holds it.
    pub fn is_held(&self) -> bool
        ensures { result ≡ is_held self.now.copy }
    {
        self.pins.is_held()
    }

    /// How many holds the session has.
    pub fn holds_of(&self, session: u32) -> u32
        ensures { result ≡ holds_of_lem self.now.copy session }
    {
        self.pins.holds_of(session)
    }

    /// Whether the task borrows it.
    pub fn borrows(&self, task: TaskNo) -> bool
        ensures { result ≡ has_borrower self.now.copy task }
    {
        self.pins.borrows(task)
    }

    /// Whether it would be in scope if the owner task kept it no longer.
    pub fn in_scope_unpinned(&self) -> bool
        ensures { result ≡ in_scope (record self.now.copy { pinned = false }) }
    {
        self.pins.in_scope_unpinned()
    }

    /// Whether it would be in scope if the task borrowed it no longer.
    pub fn in_scope_without(&self, task: TaskNo) -> bool
        ensures { result ≡ in_scope (without_borrower self.now.copy task) }
    {
        self.pins.in_scope_without(task)
    }

    /// One more hold of the session, if it is sealed and not doomed, and the object's bytes. `None` if it isn't, and
    /// then nothing changes. `TooMany` at 64 holds of all sessions; out of memory comes last, and a failure changes nothing.
    pub fn hold(&mut self, session: u32) -> Result<Option<u32>, Failure>
        ensures some { IfOk result (λ o. IfSome o (λ n. IsHeld self.old session n self.new)) }
        ensures none { IfOk result (λ o. IfNone o (IsUnready self.old self.new)) }
        ensures refused { IfErr result (λ failure. IsHoldRefused self.old failure self.new) }
    {
        if !matches!(self.state(), CopyState::Sealed) || self.doomed() {
            return Ok(None);
        }
        self.pins.hold(session)?;
        Ok(Some(self.length()))
    }

    /// One hold of the session less. `NotHeld` if it has none, and then nothing changes. Takes no memory.
    pub fn release(&mut self, session: u32) -> Result<(), Refusal>
        ensures ok { OnOk result (self.new ≡ after_release session self.old) }
        ensures passed { IsOk result → release_check self.old session ≡ None }
        ensures refused { (r : Refusal) → IsErrOf result r → release_check self.old session ≡ Some r }
        ensures err { OnErr result (self.new ≡ self.old) }
    {
        self.pins.release(session)
    }

    /// The task borrows it, as the last one. `NotOwner` for a secondary, `Exists` if the task borrows it already, `TooMany` at 64
    /// borrowers; out of memory comes last, and a failure changes nothing.
    pub fn borrow(&mut self, task: TaskNo) -> Result<(), Failure>
        ensures ok { OnOk result (self.new ≡ after_borrow task self.old) }
        ensures passed { IsOk result → borrow_check_of self.old task ≡ None }
        ensures refused { (r : Refusal) → IsErrOf result (Refused r) → borrow_check_of self.old task ≡ Some r }
        ensures memory { (m : OutOfMemory) → IsErrOf result (Memory m) → borrow_check_of self.old task ≡ None }
        ensures err { OnErr result (self.new ≡ self.old) }
    {
        self.pins.borrow(task)
    }

    /// No grant stands any more of the copy of this id, if it is of the task.
    pub fn end_grants(&mut self, id: &ObjectId, task: TaskNo)
        ensures { self.new ≡ if same_task task id.now.task then after_grants_ended self.old else self.old }
    {
        let own = task == id.task();
        if own {
            self.granted = false;
        }
    }

    /// What the directory is sent of it if it is doomed now: nothing, unless it was sealed.
    pub fn removal_notice(&self, node: u32, id: ObjectId, dooms: bool) -> Option<DirectoryMessage>
        ensures { result ≡ if dooms then farewell_of node id self.now else None }
    {
        if !dooms {
            return None;
        }
        match self.state() {
            CopyState::Created | CopyState::Fetching => None,
            CopyState::Sealed | CopyState::Restoring | CopyState::Away => {
                if self.kind().is_primary() {
                    Some(DirectoryMessage::Free(id))
                } else {
                    Some(DirectoryMessage::RemoveLocation(id, node))
                }
            }
        }
    }

    /// The owner task keeps it no longer: it is doomed unless a task borrows it.
    pub(crate) fn unpin(&mut self)
        ensures { self.new ≡ after_unpin self.old }
    {
        self.pins.remove_pin();
        self.doom_out_of_scope();
    }

    /// The task borrows it no longer: it is doomed unless it is pinned or another task borrows it.
    pub(crate) fn give_up(&mut self, task: TaskNo)
        ensures { self.new ≡ after_give_up task self.old }
    {
        self.pins.forget(task);
        self.doom_out_of_scope();
    }

    /// It is doomed unless it is in scope.
    fn doom_out_of_scope(&mut self)
        ensures { self.new ≡ view_in_scope self.old }
    {
        if !self.pins.in_scope() {
            self.marks.doom();
        }
    }
}
