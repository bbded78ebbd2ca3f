//! Why a command can't be carried out on a copy.
ghost use Rattle.std.specs.Prelude.{◌≡◌};
ghost use Rattle.private_store.specs.rules.Commands.{write_checks, seal_checks, bytes_checks, read_checks, unpin_checks, give_up_checks, delete_checks};
ghost use Rattle.row_copy.specs.Checks.{unless_doomed, grant_check_of};
ghost use Rattle.private_store.specs.rules.Shared.{first_refusal as first_refusal_lem};

use crate::RowCopy;
use obj_id::{CopyState, Refusal, TaskNo};

/// What the first check that holds refuses.
pub fn first_refusal(checks: &[(bool, Refusal)]) -> Option<Refusal>
    ensures { result ≡ first_refusal_lem checks.now }
{
    let check = checks.iter().find(|check| check.0)?;
    Some(check.1)
}

impl RowCopy {
    /// Why `len` bytes can't be written from the offset on: `Absent`, `AlreadySealed`, `OutOfBounds`.
    pub fn write_check(&self, offset: u32, len: u32) -> Option<Refusal>
        ensures { result ≡ first_refusal_lem (unless_doomed self.now (write_checks self.now.copy offset len)) }
    {
        let written = !matches!(self.state(), CopyState::Created);
        let end = u64::from(offset) + u64::from(len);
        first_refusal(&[
            (self.doomed(), Refusal::Absent),
            (written, Refusal::AlreadySealed),
            (u64::from(self.length()) < end, Refusal::OutOfBounds),
        ])
    }

    /// Why it can't be sealed: `Absent`, `AlreadySealed`.
    pub fn seal_check(&self) -> Option<Refusal>
        ensures { result ≡ first_refusal_lem (unless_doomed self.now (seal_checks self.now.copy)) }
    {
        let written = !matches!(self.state(), CopyState::Created);
        first_refusal(&[
            (self.doomed(), Refusal::Absent),
            (written, Refusal::AlreadySealed),
        ])
    }

    /// Why its owner task can't unpin it, if that task asks or another: `Absent`, `NotOwner`, `NotHeld`.
    pub fn unpin_check(&self, owner: bool) -> Option<Refusal>
        ensures { result ≡ first_refusal_lem (unless_doomed self.now (unpin_checks self.now.copy owner)) }
    {
        if self.doomed() {
            return Some(Refusal::Absent);
        }
        self.pins().unpin_check(owner)
    }

    /// Why the task can't give it up: `Absent`, `NotOwner`.
    pub fn give_up_check(&self, task: TaskNo) -> Option<Refusal>
        ensures { result ≡ first_refusal_lem (unless_doomed self.now (give_up_checks self.now.copy task)) }
    {
        if self.doomed() {
            return Some(Refusal::Absent);
        }
        self.pins().give_up_check(task)
    }

    /// Why it can't be deleted: `Absent`, `Granted`.
    pub fn delete_check(&self) -> Option<Refusal>
        ensures { result ≡ first_refusal_lem (unless_doomed self.now (delete_checks self.now.granted)) }
    {
        first_refusal(&[
            (self.doomed(), Refusal::Absent),
            (self.is_granted(), Refusal::Granted),
        ])
    }

    /// Why it can't be granted, if this is what the table of grants says: `Absent`, `NotResident` unless it is a
    /// sealed primary, or that.
    pub fn grant_check(&self, table: Option<Refusal>) -> Option<Refusal>
        ensures { result ≡ grant_check_of self.now table }
    {
        if self.doomed() {
            return Some(Refusal::Absent);
        }
        if !self.kind().is_primary() || !matches!(self.state(), CopyState::Sealed) {
            return Some(Refusal::NotResident);
        }
        table
    }

    /// Why the session isn't lent its bytes: `NotSealed`, `NotHeld`.
    pub fn lend_check(&self, session: u32) -> Option<Refusal>
        ensures { result ≡ first_refusal_lem (bytes_checks self.now.copy session) }
    {
        let unsealed = matches!(self.state(), CopyState::Created | CopyState::Fetching);
        first_refusal(&[
            (unsealed, Refusal::NotSealed),
            (self.holds_of(session) == 0, Refusal::NotHeld),
        ])
    }

    /// Why the session can't read `len` bytes from the offset on: `NotSealed`, `NotHeld`, `OutOfBounds`.
    pub fn read_check(&self, session: u32, offset: u32, len: u32) -> Option<Refusal>
        ensures { result ≡ first_refusal_lem (read_checks self.now.copy session offset len) }
    {
        if let Some(refusal) = self.lend_check(session) {
            return Some(refusal);
        }
        if u64::from(self.length()) < u64::from(offset) + u64::from(len) {
            return Some(Refusal::OutOfBounds);
        }
        None
    }
}
