//! What a step gives, with what journals keep of it.
ghost use Rattle.std.specs.Prelude.{◌≡◌, [], None};
ghost use Rattle.obj_id.specs.declared.commands.Reply.TheVariants as reply;
ghost use Rattle.obj_id.specs.declared.refusals.Refusal.TheVariants.{NoMemory};
ghost use Rattle.private_store.specs.declared.schedules.StepAnswer.TheVariants.{Response};

use bytes::Bytes;
use node_core::Note;
use obj_id::{ItemList, Refusal, Reply};
use private_store::{Judged, StepAnswer};
use std::alloc::Global;

/// A step's answer, and what it was to the jobs, without contents.
#[derive(Drop)]
pub struct Stepped {
    pub answer: StepAnswer,
    /// What it was to its own job; nothing, if it was no input of it.
    pub judged: Option<Judged>,
    /// What it told the grantees, in order.
    pub notes: ItemList<Note>,
}

impl Stepped {
    /// A step that was nothing to any job. Takes no memory.
    pub(crate) fn alone(alloc: Global, answer: StepAnswer) -> Stepped
        ensures { result ≡ record { answer = answer; judged = None; notes = [] } }
    {
        Stepped {
            answer,
            judged: None,
            notes: ItemList::new(alloc),
        }
    }

    /// A step that is answered out of memory. Takes none.
    pub(crate) fn without_memory(alloc: Global) -> Stepped
        ensures { result ≡ record { answer = Response (reply.Refused NoMemory); judged = None; notes = [] } }
    {
        Stepped::alone(
            alloc,
            StepAnswer::Response(Reply::Refused(Refusal::NoMemory)),
        )
    }
}

/// What a step of a node gave, but for what it sends.
#[derive(Drop)]
pub(crate) struct Given {
    pub reply: Reply<Bytes>,
    pub judged: Option<Judged>,
    pub notes: ItemList<Note>,
}
