//! The commands of a session, carried out on the row of its job.
ghost use Rattle.std.specs.Prelude.{◌≡◌, ℕ, ◌≤◌, length, Some, true, false, IfOk, OnOk, OnErr, IsOk, is_ok, []};
ghost use Rattle.obj_id.specs.declared.ids.JobNo.{JobNo};
ghost use Rattle.spill_work.specs.Line.{same_work_job, IsSameFor};
ghost use Rattle.room_commands.specs.Asked.{HasAsked};
ghost use Rattle.row_steps.specs.Outcomes.{row_given_of};
ghost use Rattle.row_steps.specs.Shown.{only};
ghost use Rattle.node_core.specs.Calls.{is_of_row as is_of_row_lem, is_plain as is_plain_lem, is_own as is_own_lem, is_own_subject as is_own_subject_lem, takes_no_memory, CallStep};
ghost use Rattle.node_core.specs.Foreseen.{most_by_command};
ghost use Rattle.node_core.specs.MemoryLast.{IsMemoryLastOnRow, IsRoomDue, IsUnrefused};

use bytes::Bytes;
use command_kinds::{Carrier, CommandKind, Outline, Subject};
use job_row::JobRow;
use memory_growth::OutOfMemory;
use obj_id::{Command, JobNo, Refusal, Reply};
use row_steps::RowOutcome;
use spill_work::Works;
use std::alloc::Global;

/// Carries out a command on the row of the session's job. `NotGranted` for another job's object. The error
/// is out of memory: no other refusal was due then, and nothing has changed; Write, Release and Usage take none, and Leave
/// takes some only if a copy is doomed. Works that it asks for
/// come last in the line, and those before them stay.
pub(crate) fn carry_out(
    alloc: Global,
    room: Result<(), OutOfMemory>,
    node: u32,
    job: JobNo,
    row: &mut JobRow,
    works: &mut Works,
    session: u32,
    command: &Command<Bytes>,
) -> Result<RowOutcome, OutOfMemory>
    requires { is_of_row_lem command.now ≡ true }
    ensures ok { IfOk result (λ o. CallStep node job.0 row.old works.old session command.now (row_given_of o) row.new works.new) }
    ensures bounded { IfOk result (λ o. length o.messages ≤ most_by_command (Some row.old) command.now) }
    ensures unsent { IfOk result (λ o. is_ok room ≡ false → o.messages ≡ []) }
    ensures line { OnOk result (HasAsked works.old job works.new) }
    ensures others { (other : JobNo) → same_work_job job other ≡ false → IsSameFor other works.old works.new }
    ensures memory_last { OnErr result (IsUnrefused row.old job.0 session command.now) }
    ensures room { OnErr result (row.old.job ≡ job.0 → IsRoomDue node row.old works.old command.now) }
    ensures without_memory { takes_no_memory (Some row.old) command.now ≡ true → IsOk result }
    ensures err { OnErr result (row.new ≡ row.old) }
    ensures works { OnErr result (works.new ≡ works.old) }
{
    if !is_own(job, command) {
        return Ok(RowOutcome::only(alloc, Reply::Refused(Refusal::NotGranted)));
    }
    if is_plain(command) {
        return carry_out_without_work(alloc, room, node, row, works, session, command);
    }
    match command {
        Command::Create {
            id,
            kind,
            length: len,
        } => room_commands::create(row, alloc, room, node, works, id, *kind, *len),
        Command::Get(id) => room_commands::get(row, alloc, room, node, works, session, id),
        _ => unreachable!(),
    }
}

/// The same of a command that asks for no work, and whose object, if it names one, is the job's own.
fn carry_out_without_work(
    alloc: Global,
    room: Result<(), OutOfMemory>,
    node: u32,
    row: &mut JobRow,
    works: &Works,
    session: u32,
    command: &Command<Bytes>,
) -> Result<RowOutcome, OutOfMemory>
    requires { is_plain_lem command.now ≡ true }
    ensures ok { IfOk result (λ o. (job : ℕ) → is_own_lem job command.now ≡ true → CallStep node job row.old works.now session command.now (row_given_of o) row.new works.now) }
    ensures bounded { IfOk result (λ o. length o.messages ≤ most_by_command (Some row.old) command.now) }
    ensures unsent { IfOk result (λ o. is_ok room ≡ false → o.messages ≡ []) }
    ensures memory_last { OnErr result (IsMemoryLastOnRow row.old session command.now) }
    ensures err { OnErr result (row.new ≡ row.old) }
{
    match command {
        Command::Write { id, offset, bytes } => {
            let reply = row_commands::write(row, id, *offset, bytes);
            Ok(RowOutcome::only(alloc, reply))
        }
        Command::Seal(id) => Ok(row_commands::seal(row, alloc, room, node, id)?),
        Command::Read {
            id,
            offset,
            count: len,
        } => {
            let reply = row_commands::read(row, alloc, session, id, *offset, *len)?;
            Ok(RowOutcome::only(alloc, reply))
        }
        Command::Release(id) => Ok(row_commands::release(row, alloc, session, id)),
        Command::Unpin(id, task) => Ok(row_commands::unpin(row, alloc, room, node, id, *task)?),
        Command::Borrow(id, task) => row_commands::borrow(row, alloc, id, *task),
        Command::GiveUp(id, task) => Ok(row_commands::give_up(row, alloc, room, node, id, *task)?),
        Command::Delete(id) => Ok(row_commands::delete(row, alloc, room, node, id)?),
        Command::Usage => Ok(RowOutcome::only(alloc, row_commands::tell_usage(row, works))),
        Command::Leave => Ok(row_commands::leave(row, alloc, session)?),
        _ => unreachable!(),
    }
}

/// Whether a row carries the command out, with the line of works.
pub(crate) fn is_of_row(command: &Command<Bytes>) -> bool
    ensures { result ≡ is_of_row_lem command.now }
{
    match CommandKind::of(command).carrier() {
        Carrier::RowAndWorks | Carrier::Row => true,
        Carrier::Node | Carrier::Grants => false,
    }
}

/// Whether a row carries it out, and asks for no work.
fn is_plain(command: &Command<Bytes>) -> bool
    ensures { result ≡ is_plain_lem command.now }
{
    match CommandKind::of(command).carrier() {
        Carrier::Row => true,
        Carrier::RowAndWorks | Carrier::Node | Carrier::Grants => false,
    }
}

/// Whether the object that the command names, if it must name an own one, is the job's.
fn is_own(job: JobNo, command: &Command<Bytes>) -> bool
    ensures { result ≡ is_own_lem job.0 command.now }
{
    is_own_subject(job, Outline::of(command).subject)
}

/// The same of what a command is about: of another job's object its grants tell.
fn is_own_subject(job: JobNo, subject: Subject) -> bool
    ensures { result ≡ is_own_subject_lem job.0 subject }
{
    match subject {
        Subject::OwnObject(id) => id.job().0 == job.0,
        Subject::AnyObject(_) | Subject::Task(_) | Subject::All => true,
    }
}
