//! The journal of a run, if one is asked for: what each step was to the jobs, in order.
ghost use Rattle.std.specs.Prelude.{◌≡◌, [], List, true, false, is_some, IfOk, IfErr, IfSome, OnOk, OnErr};
ghost use Rattle.program_lines.specs.declared.fault.Fault.TheVariants.{Folded};
ghost use Rattle.journal_text.specs.declared.saved.JournalItem.{JournalItem};
ghost use Rattle.journal_text.specs.Saved.{is_folded, saved_text, IsSaved};
ghost use Rattle.private_store.specs.laws.Answers.{reply_without_payload};
ghost use Rattle.schedule_runs.specs.SavedRuns.{located_entries, entry_mark, entry_place as entry_place_lem, input_said, kept_under as kept_under_lem, note_mark as note_mark_lem, reply_said, is_asked, with_notes, IsSavedStep, SavedStep, KeepsStep};

use bytes::Bytes;
use journal_text::{Answered, JournalItem, LineInput, SavedJournal};
use memory_growth::{OutOfMemory, lists};
use node_core::Note;
use obj_id::{Endpoint, ItemList, JobNo, Location, Message, Refusal, Reply};
use private_store::{Event, Judged, Step, StepAnswer, work_without_payload};
use program_lines::Fault;
use schedule_text::JobAt;
use std::alloc::Global;
use std::marker::Model;

/// Whether a journal is kept.
#[derive(Clone, Copy, Debug, PartialEq, Eq)]
pub enum Keep {
    Journal,
    Nothing,
}

/// The journal of a run, if one is kept.
#[derive(Drop)]
pub struct RunJournal {
    alloc: Global,
    saved: Option<SavedJournal>,
}

impl Model for RunJournal {
    ghost use Rattle.std.specs.Prelude.{Option};
    ghost use Rattle.journal_text.specs.Saved.{Saved};

    ghost Value = { Option Saved };

    ghost view = { λ j. j.saved };
}

impl RunJournal {
    /// Of a run without a step.
    pub fn new(alloc: Global, keep: Keep) -> Result<RunJournal, OutOfMemory>
        ensures asked { IfOk result (λ journal. is_some journal ≡ is_asked keep) }
        ensures kept { IfOk result (λ journal. IsSavedStep (is_some journal) journal []) }
    {
        let saved = match keep {
            Keep::Journal => Some(SavedJournal::new(alloc)?),
            Keep::Nothing => None,
        };
        Ok(RunJournal { alloc, saved })
    }

    /// Keeps a step with its answer: its entry, if it makes one, and its notes.
    pub(crate) fn keep(
        &mut self,
        step: &Step,
        answer: &StepAnswer,
        judged: Option<Judged>,
        notes: ItemList<Note>,
    ) -> Result<(), OutOfMemory>
        ensures { OnOk result (KeepsStep self.old step.now answer.now (record { judged = judged; notes = notes }) self.new) }
    {
        let RunJournal { alloc, saved } = self;
        let Some(saved) = saved else { return Ok(()) };
        let Some(place) = entry_place(step, answer) else {
            return Ok(())
        };
        let mark = entry_mark(*alloc, place, answer, judged)?;
        saved.add(mark)?;
        add_notes(*alloc, saved, place.node, notes)
    }

    /// The text of the journal, if one is kept. `Folded`, if one of its lists was folded.
    pub fn into_text(self) -> Result<Option<Vec<u8>>, Fault>
        ensures text { IfOk result (λ o. IfSome o (λ text. (marks : List JournalItem) → IsSavedStep true self marks → (is_folded marks ≡ false) × (text.items ≡ saved_text marks))) }
        ensures kept { IfOk result (λ o. is_some o ≡ is_some self) }
        ensures folded { IfErr result (λ fault. fault ≡ Folded) }
        ensures asked { OnErr result (is_some self ≡ true) }
        ensures full { OnErr result ((marks : List JournalItem) → IsSavedStep true self marks → is_folded marks ≡ true) }
    {
        let Some(saved) = self.saved else {
            return Ok(None)
        };
        match saved.into_text() {
            Some(text) => Ok(Some(text)),
            None => Err(Fault::Folded),
        }
    }
}

/// Adds the notes of a step at the node.
fn add_notes(
    alloc: Global,
    saved: &mut SavedJournal,
    node: u32,
    notes: ItemList<Note>,
) -> Result<(), OutOfMemory>
    ensures { OnOk result ((marks : List JournalItem) → IsSaved saved.old marks → IsSaved saved.new (with_notes node notes marks)) }
{
    for note in notes.into_vec() {
        saved.add(note_mark(alloc, node, note))?;
    }
    Ok(())
}

/// A note of a step at the node. Takes no memory.
fn note_mark(alloc: Global, node: u32, note: Note) -> JournalItem
    ensures { result ≡ note_mark_lem node note }
{
    let Note { job, input } = note;
    JournalItem {
        place: JobAt { node, job },
        line: Some(Answered {
            input: line_input(ItemList::new(alloc), input),
            reply: Reply::Ok,
        }),
    }
}

/// The job at its node under which a step is kept, if it makes an entry. Takes no memory.
fn entry_place(step: &Step, answer: &StepAnswer) -> Option<JobAt>
    ensures { result ≡ entry_place_lem step.now answer.now }
{
    match (step, answer) {
        (_, StepAnswer::Response(Reply::Refused(Refusal::NoMemory))) => None,
        (Step::At(node, event), StepAnswer::Response(reply)) => Some(JobAt {
            node: *node,
            job: kept_under(event, reply),
        }),
        (
            Step::Deliver {
                job,
                to: Endpoint::Node(node),
                ..
            },
            StepAnswer::Response(_) | StepAnswer::HandedOver(_),
        ) => Some(JobAt {
            node: *node,
            job: *job,
        }),
        _ => None,
    }
}

/// The job under which an event with this answer is kept: 0 for one of none.
fn kept_under(event: &Event, reply: &Reply<Bytes>) -> JobNo
    ensures { result ≡ kept_under_lem event.now reply.now }
{
    match event {
        Event::Admit { job, .. } => *job,
        Event::Requota(job, _) => *job,
        Event::JobEnd(job) => *job,
        Event::Take => match reply {
            Reply::Work(work) => work.job,
            _ => JobNo(0),
        },
        Event::Finish { job, .. } => *job,
        Event::Call { job, .. } => *job,
    }
}

/// The entry of a step that was this to its job.
fn entry_mark(
    alloc: Global,
    place: JobAt,
    answer: &StepAnswer,
    judged: Option<Judged>,
) -> Result<JournalItem, OutOfMemory>
    ensures { IfOk result (λ mark. mark ≡ entry_mark place answer.now judged) }
{
    let Some(judged) = judged else {
        return Ok(JournalItem { place, line: None })
    };
    let input = line_input(located_entries(alloc, answer)?, judged);
    let reply = reply_said(alloc, answer)?;
    Ok(JournalItem {
        place,
        line: Some(Answered { input, reply }),
    })
}

/// The entries of the directory's message that was handed over.
fn located_entries(alloc: Global, answer: &StepAnswer) -> Result<ItemList<Location>, OutOfMemory>
    ensures { IfOk result (λ entries. entries ≡ located_entries answer.now) }
{
    match answer {
        StepAnswer::HandedOver(Message::Located { entries, .. }) => copied(
            alloc,
            entries.as_slice(),
        ),
        _ => Ok(ItemList::new(alloc)),
    }
}

/// A copy of the items.
fn copied<T: Copy>(alloc: Global, items: &[T]) -> Result<ItemList<T>, OutOfMemory>
    ensures { IfOk result (λ copy. copy ≡ items.now) }
{
    Ok(ItemList::from_vec(lists::copied(alloc, items)?))
}

/// What a line says of an input, where these are the entries of the directory's message. Takes no memory.
fn line_input(entries: ItemList<Location>, judged: Judged) -> LineInput
    ensures { result ≡ input_said entries judged }
{
    match judged {
        Judged::Begin(quota) => LineInput::Begin(quota),
        Judged::Requota(quota) => LineInput::Requota(quota),
        Judged::Call(session, command) => LineInput::Call(session, command),
        Judged::Answer(number, verdict) => LineInput::Answer(number, verdict),
        Judged::Located { id, number, .. } => LineInput::Located {
            id,
            number,
            entries,
        },
        Judged::Chunk {
            id,
            number,
            index,
            from,
            verdict,
        } => {
            LineInput::Chunk {
                id,
                number,
                index,
                from,
                verdict,
            }
        }
        Judged::Pull {
            id,
            number,
            matches: matched,
        } => LineInput::Pull {
            id,
            number,
            matches: matched,
        },
        Judged::NotHere { id, number, from } => LineInput::NotHere { id, number, from },
        Judged::Received {
            id,
            length,
            grantor,
            depth,
        } => LineInput::Received {
            id,
            length,
            grantor,
            depth,
        },
        Judged::Withdrawn { id, grantor, depth } => LineInput::Withdrawn { id, grantor, depth },
        Judged::End => LineInput::End,
    }
}

/// What a line says of an answer.
fn reply_said(alloc: Global, answer: &StepAnswer) -> Result<Reply<u64>, OutOfMemory>
    ensures { IfOk result (λ said. said ≡ reply_said answer.now) }
{
    match answer {
        StepAnswer::Response(reply) => reply_without_payload(alloc, reply),
        StepAnswer::HandedOver(_) | StepAnswer::NoMessage => Ok(Reply::Ok),
    }
}

/// The reply without contents: bytes as their number.
fn reply_without_payload(alloc: Global, reply: &Reply<Bytes>) -> Result<Reply<u64>, OutOfMemory>
    ensures { IfOk result (λ said. said ≡ reply_without_payload reply.now) }
{
    match reply {
        Reply::Ok => Ok(Reply::Ok),
        Reply::Placed(offset, extent) => Ok(Reply::Placed(*offset, *extent)),
        Reply::Got(length) => Ok(Reply::Got(*length)),
        Reply::Bytes(bytes) => Ok(Reply::Bytes(bytes.len() as u64)),
        Reply::List(own, granted) => {
            let own = copied(alloc, own.as_slice())?;
            Ok(Reply::List(own, copied(alloc, granted.as_slice())?))
        }
        Reply::Usage(usage) => Ok(Reply::Usage(*usage)),
        Reply::Work(work) => Ok(Reply::Work(work_without_payload(work))),
        Reply::NoWork => Ok(Reply::NoWork),
        Reply::Refused(refusal) => Ok(Reply::Refused(*refusal)),
    }
}
