//! What takes long and is best made before a command's step.
ghost use Rattle.std.specs.Prelude.{◌≡◌};
ghost use Rattle.command_kinds.specs.Kinds.{preparation_of, prepared};

use crate::{Outline, Prepares, Subject};
use obj_id::{Command, ObjectId};

/// What a command's step may have use for, if the job's row is as it may be.
#[derive(Clone, Copy, Debug, PartialEq, Eq)]
pub enum Preparation {
    /// Nothing.
    Nothing,
    /// The digest of the copy's bytes.
    Digest(ObjectId),
    /// An extent of so many bytes for a copy that is new.
    NewExtent { id: ObjectId, length: u32 },
    /// An extent for a copy that is away, or on its way.
    CopyExtent(ObjectId),
}

impl Preparation {
    /// What a command's step may have use for. Takes no memory.
    pub fn of<P>(command: &Command<P>) -> Preparation
        ensures { result ≡ preparation_of command.now }
    {
        let outline = Outline::of(command);
        Preparation::by(outline.kind.prepares(), outline.subject, outline.length)
    }

    /// What a kind that prepares so has made for this, of which a copy may have so many bytes: for an own object alone.
    fn by(prepares: Prepares, subject: Subject, length: Option<u32>) -> Preparation
        ensures { result ≡ prepared prepares subject length }
    {
        match subject {
            Subject::OwnObject(id) => match prepares {
                Prepares::Nothing => Preparation::Nothing,
                Prepares::Digest => Preparation::Digest(id),
                Prepares::NewExtent => Preparation::NewExtent {
                    id,
                    length: length.unwrap_or(0),
                },
                Prepares::CopyExtent => Preparation::CopyExtent(id),
            },
            Subject::AnyObject(_) | Subject::Task(_) | Subject::All => Preparation::Nothing,
        }
    }
}
