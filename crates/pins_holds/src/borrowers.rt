//! The tasks that borrow one copy.
ghost use Rattle.std.specs.Prelude.{◌≡◌, ◌+◌, ◌++◌, ◌∷◌, [], not, false, filter, length, IfOk, OnOk, OnErr};
ghost use Rattle.std.specs.List.{list_any};
ghost use Rattle.obj_id.specs.Ids.{same_task};
ghost use Rattle.pins_holds.specs.Pinned.{are_borrowing};

use indexmap::IndexSet;
use memory_growth::{OutOfMemory, lists, sets};
use obj_id::{ItemList, TaskNo};
use std::alloc::Global;
use std::marker::Model;

/// The tasks that borrow a copy, in the order in which they came.
#[derive(Drop)]
pub struct Borrowers {
    tasks: IndexSet<TaskNo>,
}

impl Model for Borrowers {
    ghost use Rattle.std.specs.Prelude.{List};
    ghost use Rattle.obj_id.specs.declared.ids.TaskNo.{TaskNo};

    ghost Value = { List TaskNo };

    ghost view = { λ b. b.tasks.keys };
}

impl Borrowers {
    /// No task.
    pub fn new(alloc: Global) -> Borrowers
        ensures { result ≡ [] }
    {
        Borrowers {
            tasks: IndexSet::new(alloc),
        }
    }

    /// How many there are.
    pub fn len(&self) -> usize
        ensures { result ≡ length self.now }
    {
        self.tasks.len()
    }

    /// Whether there is none.
    pub fn is_empty(&self) -> bool
        ensures { result ≡ not (are_borrowing self.now) }
    {
        self.tasks.is_empty()
    }

    /// Whether the task is one of them.
    pub fn has(&self, task: TaskNo) -> bool
        ensures { result ≡ list_any (same_task task) self.now }
    {
        self.tasks.contains(&task)
    }

    /// Whether another task than this one is one of them. Takes a walk over them that ends at the second at most.
    pub fn has_other(&self, task: TaskNo) -> bool
        ensures { result ≡ are_borrowing (filter (λ t. not (same_task task t)) self.now) }
    {
        for other in &self.tasks {
            if task != *other {
                return true;
            }
        }
        false
    }

    /// The tasks, in the order in which they came. Takes a walk over them, and memory for each.
    pub fn tasks(&self, alloc: Global) -> Result<ItemList<TaskNo>, OutOfMemory>
        ensures { IfOk result (λ tasks. tasks ≡ self.now) }
    {
        let mut tasks = Vec::new(alloc);
        for task in &self.tasks {
            lists::push(&mut tasks, *task)?;
        }
        Ok(ItemList::from_vec(tasks))
    }

    /// The task comes last. A failure changes nothing.
    pub fn add(&mut self, task: TaskNo) -> Result<(), OutOfMemory>
        requires { list_any (same_task task) self.old ≡ false }
        ensures ok { OnOk result (self.new ≡ self.old ++ task ∷ []) }
        ensures err { OnErr result (self.new ≡ self.old) }
    {
        sets::insert(&mut self.tasks, task)?;
        Ok(())
    }

    /// The task leaves, if it is one of them; the others keep their order. Takes no memory.
    pub fn remove(&mut self, task: TaskNo)
        ensures { self.new ≡ filter (λ t. not (same_task task t)) self.old }
    {
        // an `IndexSet` says of its `len` that no task is there twice
        let _count = self.tasks.len();
        self.tasks.shift_remove(&task);
    }
}
