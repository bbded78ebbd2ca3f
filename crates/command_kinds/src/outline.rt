//! What a command names and carries.
ghost use Rattle.std.specs.Prelude.{◌≡◌, None};
ghost use Rattle.std.specs.Option.{option_copied};
ghost use Rattle.command_kinds.specs.Kinds.{kind_of, length_of, payload_of, subject_of};
ghost use Rattle.command_kinds.specs.declared.outline.Subject.TheVariants as subject;

use crate::CommandKind;
use obj_id::{Command, ObjectId, TaskNo};

/// What a command is about.
#[derive(Clone, Copy, Debug, PartialEq, Eq)]
pub enum Subject {
    /// An object that must be of the session's own job.
    OwnObject(ObjectId),
    /// An object of any job: its grants tell whether the job may.
    AnyObject(ObjectId),
    /// A task of the job.
    Task(TaskNo),
    /// Whatever the job or the session has.
    All,
}

/// A command without what only its own step needs.
#[derive(Drop)]
pub struct Outline<'c, P> {
    /// Its kind.
    pub kind: CommandKind,
    /// What it is about.
    pub subject: Subject,
    /// What it has written.
    pub payload: Option<&'c P>,
    /// How many bytes its copy is to have, if it is a Create.
    pub length: Option<u32>,
}

impl<'c, P> Outline<'c, P> {
    /// The outline of a command. Takes no memory.
    pub fn of(command: &'c Command<P>) -> Outline<'c, P>
        ensures kind { result.kind ≡ kind_of command.now }
        ensures subject { result.subject ≡ subject_of command.now }
        ensures payload { option_copied result.payload ≡ payload_of command.now }
        ensures length { result.length ≡ length_of command.now }
    {
        match command {
            Command::Create {
                id,
                length: len,
                ..
            } => Outline {
                kind: CommandKind::Create,
                subject: Subject::OwnObject(*id),
                payload: None,
                length: Some(*len),
            },
            // it returns by itself: arms that go on together must keep the same references, and this one alone keeps one
            Command::Write { id, bytes, .. } => {
                return Outline {
                    kind: CommandKind::Write,
                    subject: Subject::OwnObject(*id),
                    payload: Some(bytes),
                    length: None,
                };
            }
            Command::Seal(id) => Outline::own(CommandKind::Seal, id),
            Command::Get(id) => Outline::own(CommandKind::Get, id),
            Command::Read { id, .. } => Outline::own(CommandKind::Read, id),
            Command::Release(id) => Outline::own(CommandKind::Release, id),
            Command::Unpin(id, _) => Outline::own(CommandKind::Unpin, id),
            Command::Borrow(id, _) => Outline::own(CommandKind::Borrow, id),
            Command::GiveUp(id, _) => Outline::own(CommandKind::GiveUp, id),
            Command::Delete(id) => Outline::own(CommandKind::Delete, id),
            Command::EndTask(task) => Outline::about(CommandKind::EndTask, Subject::Task(*task)),
            Command::Grant(id, _) => Outline::any(CommandKind::Grant, id),
            Command::Withdraw(id, _) => Outline::any(CommandKind::Withdraw, id),
            Command::Peek { id, .. } => Outline::any(CommandKind::Peek, id),
            Command::List => Outline::about(CommandKind::List, Subject::All),
            Command::Usage => Outline::about(CommandKind::Usage, Subject::All),
            Command::Leave => Outline::about(CommandKind::Leave, Subject::All),
        }
    }

    /// Of a command without payload, which makes no copy of a length.
    fn about(kind: CommandKind, subject: Subject) -> Outline<'c, P>
        ensures kind { result.kind ≡ kind }
        ensures subject { result.subject ≡ subject }
        ensures payload { option_copied result.payload ≡ None }
        ensures length { result.length ≡ None }
    {
        Outline {
            kind,
            subject,
            payload: None,
            length: None,
        }
    }

    /// The same about an own object.
    fn own(kind: CommandKind, id: &ObjectId) -> Outline<'c, P>
        ensures kind { result.kind ≡ kind }
        ensures subject { result.subject ≡ subject.OwnObject id.now }
        ensures payload { option_copied result.payload ≡ None }
        ensures length { result.length ≡ None }
    {
        Outline::about(kind, Subject::OwnObject(*id))
    }

    /// The same about an object of any job.
    fn any(kind: CommandKind, id: &ObjectId) -> Outline<'c, P>
        ensures kind { result.kind ≡ kind }
        ensures subject { result.subject ≡ subject.AnyObject id.now }
        ensures payload { option_copied result.payload ≡ None }
        ensures length { result.length ≡ None }
    {
        Outline::about(kind, Subject::AnyObject(*id))
    }
}
