//! The tasks that keep a copy, and those that ended.
ghost use Rattle.std.specs.Prelude.{◌≡◌};
ghost use Rattle.private_store.specs.rules.Marks.{without_borrower};
ghost use Rattle.private_store.specs.rules.Commands.{has_borrower};
ghost use Rattle.private_store.specs.rules.Change.{has_ended};

use crate::copies::PlainCopy;
use crate::predicates::same_task;
use crate::store::PlainStore;
use obj_id::TaskNo;

impl PlainCopy {
    /// Whether the task borrows it.
    pub(crate) fn has_borrower(&self, task: TaskNo) -> bool
        ensures { result ≡ has_borrower self.now task }
    {
        self.borrowers
            .iter()
            .any(|borrower| same_task(&task, borrower))
    }

    /// The task borrows it no longer. Takes no memory.
    pub(crate) fn remove_borrower(&mut self, task: TaskNo)
        ensures { self.new ≡ without_borrower self.old task }
    {
        self.borrowers
            .retain(|borrower| !same_task(&task, borrower));
    }
}

impl PlainStore {
    /// Whether the task has ended here.
    pub(crate) fn has_ended(&self, task: TaskNo) -> bool
        ensures { result ≡ has_ended self.now.shape task }
    {
        self.ended_tasks.iter().any(|ended| same_task(&task, ended))
    }
}
