//! What keeps one copy: the pin of its owner task, the tasks that borrow it, and the sessions that hold
//! it. A contract sees it as a record with the parts that a copy of the private store has.
#![tactic(auto)]

ghost use Rattle.std.specs.Prelude.{◌≡◌, ◌+◌, ◌-◌, ◌<◌, true, false, Some, None, IfOk, OnOk, OnErr, IsOk, IsErrOf};
ghost use Rattle.memory_growth.specs.declared.OutOfMemory.{OutOfMemory};
ghost use Rattle.obj_id.specs.declared.refusals.Failure.TheVariants.{Refused, Memory};
ghost use Rattle.obj_id.specs.declared.refusals.Refusal.{Refusal};
ghost use Rattle.obj_id.specs.Kinds.{is_primary as is_primary_lem};
ghost use Rattle.pins_holds.specs.Sessions.{AreHolds};
ghost use Rattle.pins_holds.specs.Pinned.{unheld, pins_in_scope as in_scope_lem, pins_are_held as is_held_lem, pins_holds_of as holds_of_lem, pins_have_borrower, pins_with_holds, with_borrower, pins_without_borrower, pins_unpin_check as unpin_check_lem, pins_borrow_check as borrow_check_lem, pins_give_up_check as give_up_check_lem, hold_check as hold_check_lem, pins_release_check as release_check_lem, IsPinned};

mod borrowers;
mod holds;

use borrowers::Borrowers;
use holds::Holds;
use memory_growth::OutOfMemory;
use obj_id::limits::{MOST_BORROWERS, MOST_HOLDS};
use obj_id::{Failure, ItemList, Kind, Refusal, TaskNo};
use std::alloc::Global;
use std::marker::Model;

/// Pin, borrowers and holds of one copy.
pub struct Pins {
    kind: Kind,
    pinned: bool,
    borrowers: Borrowers,
    holds: Holds,
}

// By hand, so that it is proved here and not in each crate above.
impl Drop for Pins {
    fn drop(self) {
        let Pins {
            kind: _kind,
            pinned: _pinned,
            borrowers: _borrowers,
            holds: _holds,
        } = self;
    }
}

impl Model for Pins {
    ghost use Rattle.pins_holds.specs.Pinned.{Pinned, IsPinned};

    ghost Value = { Pinned };

    ghost view = { λ p. record { kind = p.kind; pinned = p.pinned; borrowers = p.borrowers; holds = p.holds } };

    ghost invariant = { λ p. IsPinned p.kind p.pinned p.borrowers };
}

impl Pins {
    /// Of a new copy: a primary is pinned by the task that owns it.
    pub fn new(alloc: Global, kind: Kind) -> Pins
        ensures { result ≡ unheld kind }
    {
        Pins {
            kind,
            pinned: kind.is_primary(),
            borrowers: Borrowers::new(alloc),
            holds: Holds::new(alloc),
        }
    }

    /// Whether it is the object's first copy or one made by a transfer.
    pub fn kind(&self) -> Kind
        ensures kind { result ≡ self.now.kind }
        ensures kept { IsPinned self.now.kind self.now.pinned self.now.borrowers }
    {
        self.kind
    }

    /// Whether the owner task keeps it.
    pub fn is_pinned(&self) -> bool
        ensures { result ≡ self.now.pinned }
    {
        self.pinned
    }

    /// Whether it is pinned or borrowed.
    pub fn in_scope(&self) -> bool
        ensures { result ≡ in_scope_lem self.now }
    {
        self.pinned || !self.borrowers.is_empty()
    }

    /// Whether it would be in scope if the owner task kept it no longer.
    pub fn in_scope_unpinned(&self) -> bool
        ensures { result ≡ in_scope_lem (record self.now { pinned = false }) }
    {
        !self.borrowers.is_empty()
    }

    /// Whether it would be in scope if the task borrowed it no longer.
    pub fn in_scope_without(&self, task: TaskNo) -> bool
        ensures { result ≡ in_scope_lem (pins_without_borrower self.now task) }
    {
        self.pinned || self.borrowers.has_other(task)
    }

    /// Whether a session holds it.
    pub fn is_held(&self) -> bool
        ensures held { result ≡ is_held_lem self.now }
        ensures kept { AreHolds self.now.holds }
    {
        let _all = self.holds.all();
        !self.holds.is_empty()
    }

    /// The tasks that borrow it, in the order in which they came. Takes a walk over them, and memory for each.
    pub fn borrowers(&self, alloc: Global) -> Result<ItemList<TaskNo>, OutOfMemory>
        ensures { IfOk result (λ tasks. tasks ≡ self.now.borrowers) }
    {
        self.borrowers.tasks(alloc)
    }

    /// How many holds each session has, by rising session. Takes a walk over them, and memory for each.
    pub fn holds(&self, alloc: Global) -> Result<ItemList<(u32, u32)>, OutOfMemory>
        ensures { IfOk result (λ held. held ≡ self.now.holds) }
    {
        self.holds.by_session(alloc)
    }

    /// How many holds the session has.
    pub fn holds_of(&self, session: u32) -> u32
        ensures { result ≡ holds_of_lem self.now session }
    {
        self.holds.of(session)
    }

    /// Whether the task borrows it.
    pub fn borrows(&self, task: TaskNo) -> bool
        ensures { result ≡ pins_have_borrower self.now task }
    {
        self.borrowers.has(task)
    }

    /// The owner task keeps it: a primary alone has one.
    pub fn pin(&mut self)
        requires { is_primary_lem self.old.kind ≡ true }
        ensures { self.new ≡ record self.old { pinned = true } }
    {
        self.pinned = true;
    }

    /// The owner task keeps it no longer; `owner` says whether it is that task that asks. `NotOwner`
    /// if it isn't, and for a secondary; `NotHeld` if there is no pin. A refusal changes nothing.
    pub fn unpin(&mut self, owner: bool) -> Result<(), Refusal>
        ensures ok { OnOk result (self.new ≡ record self.old { pinned = false }) }
        ensures passed { IsOk result → unpin_check_lem self.old owner ≡ None }
        ensures refused { (r : Refusal) → IsErrOf result r → unpin_check_lem self.old owner ≡ Some r }
        ensures err { OnErr result (self.new ≡ self.old) }
    {
        if let Some(refusal) = self.unpin_check(owner) {
            return Err(refusal);
        }
        self.remove_pin();
        Ok(())
    }

    /// The owner task keeps it no longer, if it did.
    pub fn remove_pin(&mut self)
        ensures { self.new ≡ record self.old { pinned = false } }
    {
        self.pinned = false;
    }

    /// Why it can't be unpinned: `NotOwner`, `NotHeld`, or nothing.
    pub fn unpin_check(&self, owner: bool) -> Option<Refusal>
        ensures { result ≡ unpin_check_lem self.now owner }
    {
        if !(self.kind.is_primary() && owner) {
            return Some(Refusal::NotOwner);
        }
        if !self.pinned {
            Some(Refusal::NotHeld)
        } else {
            None
        }
    }

    /// The task borrows it, as the last one. `NotOwner` for a secondary, `Exists` if the task borrows
    /// it, `TooMany` at 64 borrowers; out of memory comes last. A failure changes nothing.
    pub fn borrow(&mut self, task: TaskNo) -> Result<(), Failure>
        ensures ok { OnOk result (self.new ≡ with_borrower self.old task) }
        ensures passed { IsOk result → borrow_check_lem self.old task ≡ None }
        ensures refused { (r : Refusal) → IsErrOf result (Refused r) → borrow_check_lem self.old task ≡ Some r }
        ensures memory { (m : OutOfMemory) → IsErrOf result (Memory m) → borrow_check_lem self.old task ≡ None }
        ensures err { OnErr result (self.new ≡ self.old) }
    {
        if let Some(refusal) = self.borrow_check(task) {
            return Err(Failure::Refused(refusal));
        }
        self.borrowers.add(task)?;
        Ok(())
    }

    /// Why the task can't borrow it: `NotOwner`, `Exists`, `TooMany`, or nothing.
    pub fn borrow_check(&self, task: TaskNo) -> Option<Refusal>
        ensures { result ≡ borrow_check_lem self.now task }
    {
        if !self.kind.is_primary() {
            return Some(Refusal::NotOwner);
        }
        if self.borrowers.has(task) {
            return Some(Refusal::Exists);
        }
        if self.borrowers.len() >= MOST_BORROWERS {
            Some(Refusal::TooMany)
        } else {
            None
        }
    }

    /// The task borrows it no longer. `NotOwner` for a secondary, `Absent` if it doesn't borrow it. A
    /// refusal changes nothing. Takes no memory.
    pub fn give_up(&mut self, task: TaskNo) -> Result<(), Refusal>
        ensures ok { OnOk result (self.new ≡ pins_without_borrower self.old task) }
        ensures passed { IsOk result → give_up_check_lem self.old task ≡ None }
        ensures refused { (r : Refusal) → IsErrOf result r → give_up_check_lem self.old task ≡ Some r }
        ensures err { OnErr result (self.new ≡ self.old) }
    {
        if let Some(refusal) = self.give_up_check(task) {
            return Err(refusal);
        }
        self.borrowers.remove(task);
        Ok(())
    }

    /// Why the task can't give it up: `NotOwner`, `Absent`, or nothing.
    pub fn give_up_check(&self, task: TaskNo) -> Option<Refusal>
        ensures { result ≡ give_up_check_lem self.now task }
    {
        if !self.kind.is_primary() {
            return Some(Refusal::NotOwner);
        }
        if !self.borrowers.has(task) {
            Some(Refusal::Absent)
        } else {
            None
        }
    }

    /// The task borrows it no longer, if it did. Takes no memory.
    pub fn forget(&mut self, task: TaskNo)
        ensures { self.new ≡ pins_without_borrower self.old task }
    {
        self.borrowers.remove(task);
    }

    /// One hold more of the session. `TooMany` at 64 holds of all sessions; out of memory comes last. A failure
    /// changes nothing. Takes no memory if the session holds it already.
    pub fn hold(&mut self, session: u32) -> Result<(), Failure>
        ensures ok { OnOk result (self.new ≡ pins_with_holds self.old session (holds_of_lem self.old session + 1)) }
        ensures passed { IsOk result → hold_check_lem self.old ≡ None }
        ensures refused { (r : Refusal) → IsErrOf result (Refused r) → hold_check_lem self.old ≡ Some r }
        ensures memory { (m : OutOfMemory) → IsErrOf result (Memory m) → hold_check_lem self.old ≡ None }
        ensures succeeds { 0 < holds_of_lem self.old session → hold_check_lem self.old ≡ None → IsOk result }
        ensures err { OnErr result (self.new ≡ self.old) }
    {
        if let Some(refusal) = self.hold_check() {
            return Err(Failure::Refused(refusal));
        }
        self.holds.add(session)?;
        Ok(())
    }

    /// Why there can't be another hold: `TooMany`, or nothing.
    pub fn hold_check(&self) -> Option<Refusal>
        ensures { result ≡ hold_check_lem self.now }
    {
        if self.holds.all() >= MOST_HOLDS {
            Some(Refusal::TooMany)
        } else {
            None
        }
    }

    /// One hold less of the session. `NotHeld` if it has none, and then nothing changes. Takes no
    /// memory.
    pub fn release(&mut self, session: u32) -> Result<(), Refusal>
        ensures ok { OnOk result (self.new ≡ pins_with_holds self.old session (holds_of_lem self.old session - 1)) }
        ensures passed { IsOk result → release_check_lem self.old session ≡ None }
        ensures refused { (r : Refusal) → IsErrOf result r → release_check_lem self.old session ≡ Some r }
        ensures err { OnErr result (self.new ≡ self.old) }
    {
        if let Some(refusal) = self.release_check(session) {
            return Err(refusal);
        }
        self.holds.take(session);
        Ok(())
    }

    /// Why the session can't release it: `NotHeld`, or nothing.
    pub fn release_check(&self, session: u32) -> Option<Refusal>
        ensures { result ≡ release_check_lem self.now session }
    {
        if self.holds.of(session) == 0 {
            Some(Refusal::NotHeld)
        } else {
            None
        }
    }

    /// The session has no holds any more. Takes no memory.
    pub fn leave(&mut self, session: u32)
        ensures { self.new ≡ pins_with_holds self.old session 0 }
    {
        self.holds.clear(session);
    }
}
