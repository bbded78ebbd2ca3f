//! What the line of an answer begins with.
ghost use Rattle.std.specs.Prelude.{◌≡◌, ◌++◌, codes, decimal, IfOk, OnOk};
ghost use Rattle.std.specs.String.{string_bytes};
ghost use Rattle.schedule_text.specs.Prefixes.{prefix_at as prefix_at_lem, prefix_of, prefix_text, speaker as speaker_lem};

use itoa::Buffer;
use memory_growth::{OutOfMemory, text_of, texts};
use obj_id::JobNo;
use private_store::{Event, Step};
use std::alloc::Global;

/// Who is answered, and at which node: what the line of an answer begins with.
#[derive(Clone, Copy, Debug, PartialEq, Eq)]
pub enum Prefix {
    /// The operator, at the node of this number.
    Operator(u32),
    /// A session of a job at a node.
    Session { node: u32, job: JobNo, session: u32 },
    /// A device worker, at the node of this number.
    Device(u32),
    /// Whoever hands messages over.
    Network,
}

impl Prefix {
    /// What the answer to the step begins with.
    pub fn of(step: &Step) -> Prefix
        ensures { result ≡ prefix_of step.now }
    {
        match step {
            Step::At(node, event) => prefix_at(*node, event),
            Step::Deliver { .. } => Prefix::Network,
        }
    }

    /// The job that ids are printed for: that of the session, otherwise the number of no job.
    pub fn speaker(self) -> JobNo
        ensures { result.0 ≡ speaker_lem self }
    {
        match self {
            Prefix::Session { job, .. } => job,
            Prefix::Operator(_) | Prefix::Device(_) | Prefix::Network => JobNo(0),
        }
    }

    /// `nNODE op`, `nNODE jJOB sSESSION`, `nNODE dev` or `net`.
    pub fn text(self, alloc: Global) -> Result<String, OutOfMemory>
        ensures { IfOk result (λ text. string_bytes text ≡ prefix_text self) }
    {
        match self {
            Prefix::Operator(node) => text_of!(in alloc; "n{node} op"),
            Prefix::Session { node, job, session } => session_text(alloc, node, job.0, session),
            Prefix::Device(node) => text_of!(in alloc; "n{node} dev"),
            Prefix::Network => texts::from_str(alloc, "net"),
        }
    }
}

/// What the answer to an event at the node begins with.
fn prefix_at(node: u32, event: &Event) -> Prefix
    ensures { result ≡ prefix_at_lem node event.now }
{
    match event {
        Event::Admit { .. } | Event::Requota(..) | Event::JobEnd(_) => Prefix::Operator(node),
        Event::Take | Event::Finish { .. } => Prefix::Device(node),
        Event::Call { job, session, .. } => Prefix::Session {
            node,
            job: *job,
            session: *session,
        },
    }
}

/// Few lines that answer a session are longer, in bytes.
const USUAL_LINE: usize = 64;

/// `nNODE jJOB sSESSION`.
fn session_text(alloc: Global, node: u32, job: u32, session: u32) -> Result<String, OutOfMemory>
    ensures { IfOk result (λ text. string_bytes text
        ≡ codes "n" ++ decimal node ++ codes " j" ++ decimal job ++ codes " s" ++ decimal session) }
{
    let mut text = texts::with_capacity(alloc, USUAL_LINE)?;
    texts::push_str(&mut text, "n")?;
    push_number(&mut text, node)?;
    texts::push_str(&mut text, " j")?;
    push_number(&mut text, job)?;
    texts::push_str(&mut text, " s")?;
    push_number(&mut text, session)?;
    Ok(text)
}

/// Adds a number as it is printed.
pub(crate) fn push_number(text: &mut String, number: u32) -> Result<(), OutOfMemory>
    ensures { OnOk result (string_bytes text.new ≡ string_bytes text.old ++ decimal number) }
{
    let mut buffer = Buffer::new();
    texts::push_str(text, buffer.format(number))
}
