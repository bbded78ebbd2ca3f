//! What gives a grant, or may end some.
ghost use Rattle.std.specs.Prelude.{◌≡◌, Some};
ghost use Rattle.command_kinds.specs.Kinds.{kind_of, traits_of};
ghost use Rattle.command_kinds.specs.declared.command_kind.Carrier.TheVariants as by;
ghost use Rattle.node_core.specs.GrantMoves.{grant_move_by, grant_move_of};

use bytes::Bytes;
use command_kinds::{Carrier, CommandKind};
use obj_id::{Command, JobNo, ObjectId, TaskNo};
use private_store::Event;

/// What gives a grant, or may end some: those to whom objects are granted are told of it, beside its own job.
#[derive(Clone, Copy)]
pub(crate) enum GrantMove {
    /// The operator ends a job: all that it granted ends.
    JobEnd(JobNo),
    /// A session ends a task of its job: what the job granted of the task's objects ends.
    EndTask {
        job: JobNo,
        session: u32,
        task: TaskNo,
    },
    /// A session grants an object to the target.
    Grant {
        job: JobNo,
        session: u32,
        id: ObjectId,
        target: JobNo,
    },
    /// A session takes an object back from the target, to which its job granted it.
    Withdraw {
        job: JobNo,
        session: u32,
        id: ObjectId,
        target: JobNo,
    },
}

impl GrantMove {
    /// What the event moves of grants, if it is accepted. Nothing if it can't give or end any. Takes no memory.
    pub(crate) fn of(event: &Event) -> Option<GrantMove>
        ensures { result ≡ grant_move_of event.now }
    {
        match event {
            Event::JobEnd(job) => Some(GrantMove::JobEnd(*job)),
            Event::Call {
                job,
                session,
                command,
            } => GrantMove::by_call(*job, *session, command),
            Event::Admit { .. } | Event::Requota(..) | Event::Take | Event::Finish { .. } => None,
        }
    }

    /// The same of a session's command.
    fn by_call(job: JobNo, session: u32, command: &Command<Bytes>) -> Option<GrantMove>
        ensures { result ≡ grant_move_by job session command.now }
    {
        match CommandKind::of(command).carrier() {
            Carrier::RowAndWorks | Carrier::Row | Carrier::Node => None,
            Carrier::Grants => Some(GrantMove::by_granting(job, session, command)),
        }
    }

    /// The same of one that gives a grant or may end some.
    fn by_granting(job: JobNo, session: u32, command: &Command<Bytes>) -> GrantMove
        requires { (traits_of (kind_of command.now)).by ≡ by.Grants }
        ensures { grant_move_by job session command.now ≡ Some result }
    {
        match command {
            Command::EndTask(task) => GrantMove::EndTask {
                job,
                session,
                task: *task,
            },
            Command::Grant(id, target) => GrantMove::Grant {
                job,
                session,
                id: *id,
                target: *target,
            },
            Command::Withdraw(id, target) => GrantMove::Withdraw {
                job,
                session,
                id: *id,
                target: *target,
            },
            _ => unreachable!(),
        }
    }
}
