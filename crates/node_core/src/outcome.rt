//! What an event gives at a node.
ghost use Rattle.std.specs.Prelude.{◌≡◌, ◌≤◌, [], length, vec_len, vec_capacity};
ghost use Rattle.obj_id.specs.declared.commands.Reply.TheVariants as reply;
ghost use Rattle.row_steps.specs.Outcomes.{row_given_of};
ghost use Rattle.row_steps.specs.Shown.{only};
ghost use Rattle.node_core.specs.Outcomes.{node_given_of, input_noted, end_noted, received_noted, with_no_notes, with_given, with_ends};

use bytes::Bytes;
use grants::StandingGrant;
use memory_growth::lists;
use obj_id::{Endpoint, ItemList, JobNo, Message, Refusal, Reply};
use private_store::Judged;
use row_steps::Erase;
use std::alloc::Global;

/// What an event was to the grantee of a grant, without contents.
#[derive(Debug, Drop)]
pub struct Note {
    /// The grantee.
    pub job: JobNo,
    pub input: Judged,
}

/// What an event gave: the answer, the messages that are to be sent, in their order and each with its place, the
/// device keys that are to be erased, in order of id, and what it was to the grantees.
#[derive(Drop)]
pub struct NodeOutcome {
    pub reply: Reply<Bytes>,
    pub messages: ItemList<(Endpoint, Message)>,
    pub erase: Erase,
    pub notes: ItemList<Note>,
    /// What it was to its own job, without contents, or nothing.
    pub judged: Option<Judged>,
}

impl NodeOutcome {
    /// What a row gave, if no grant changed, with what the event was to its job. Takes no memory.
    pub(crate) fn of_row(
        alloc: Global,
        outcome: row_steps::RowOutcome,
        judged: Option<Judged>,
    ) -> NodeOutcome
        ensures given { node_given_of result ≡ with_no_notes (row_given_of outcome) }
        ensures notes { result.notes ≡ [] }
        ensures judged { result.judged ≡ judged }
    {
        NodeOutcome {
            reply: outcome.reply,
            messages: outcome.messages,
            erase: outcome.erase,
            notes: ItemList::new(alloc),
            judged,
        }
    }

    /// A refusal, which changed nothing. Takes no memory.
    pub(crate) fn refused(alloc: Global, refusal: Refusal, judged: Option<Judged>) -> NodeOutcome
        ensures given { node_given_of result ≡ with_no_notes (only (reply.Refused refusal)) }
        ensures notes { result.notes ≡ [] }
        ensures judged { result.judged ≡ judged }
    {
        let outcome = row_steps::RowOutcome::only(alloc, Reply::Refused(refusal));
        NodeOutcome::of_row(alloc, outcome, judged)
    }

    /// What a row gave, if this grant of an object of this length was given: `notes` is empty, and has room for one.
    pub(crate) fn with_given(
        outcome: row_steps::RowOutcome,
        notes: Vec<Note>,
        grant: &StandingGrant,
        length: u32,
        judged: Option<Judged>,
    ) -> NodeOutcome
        requires empty { (notes.items ≡ []) × (vec_len notes ≡ 0) }
        requires room { 1 ≤ vec_capacity notes }
        ensures given { node_given_of result ≡ with_given (row_given_of outcome) grant.now length }
        ensures judged { result.judged ≡ judged }
    {
        let mut notes = notes;
        lists::push(&mut notes, received_note(grant, length)).unwrap();
        NodeOutcome {
            reply: outcome.reply,
            messages: outcome.messages,
            erase: outcome.erase,
            notes: ItemList::from_vec(notes),
            judged,
        }
    }

    /// The same, if these grants end by it: `notes` is empty, and has room for a note of each.
    pub(crate) fn with_ends(
        outcome: row_steps::RowOutcome,
        notes: Vec<Note>,
        ended: &[StandingGrant],
        judged: Option<Judged>,
    ) -> NodeOutcome
        requires empty { (notes.items ≡ []) × (vec_len notes ≡ 0) }
        requires room { length ended.now ≤ vec_capacity notes }
        ensures given { node_given_of result ≡ with_ends (row_given_of outcome) ended.now }
        ensures judged { result.judged ≡ judged }
    {
        let mut notes = notes;
        for grant in ended {
            lists::push(&mut notes, end_note(grant)).unwrap();
        }
        NodeOutcome {
            reply: outcome.reply,
            messages: outcome.messages,
            erase: outcome.erase,
            notes: ItemList::from_vec(notes),
            judged,
        }
    }
}

/// What a grant of an object of this length is to its grantee.
fn received_note(grant: &StandingGrant, length: u32) -> Note
    ensures { input_noted result ≡ received_noted grant.now length }
{
    Note {
        job: grant.grantee(),
        input: Judged::Received {
            id: grant.id(),
            length,
            grantor: grant.grantor(),
            depth: grant.depth(),
        },
    }
}

/// What the end of a grant is to its grantee.
fn end_note(grant: &StandingGrant) -> Note
    ensures { input_noted result ≡ end_noted grant.now }
{
    Note {
        job: grant.grantee(),
        input: Judged::Withdrawn {
            id: grant.id(),
            grantor: grant.grantor(),
            depth: grant.depth(),
        },
    }
}
