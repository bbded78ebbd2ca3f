//! What was counted of a node and of its jobs, as lines.
ghost use Rattle.std.specs.Prelude.{◌≡◌, IfOk};
ghost use Rattle.std.specs.String.{string_bytes};
ghost use Rattle.operator_service.specs.Counts.{IsJobCountsLine, IsNodeCountsLine, count_text as count_text_lem, counts_text as counts_text_lem, event_word as event_word_lem, folds_text as folds_text_lem, job_counts_line as job_counts_line_lem, lock_text as lock_text_lem, name_text as name_text_lem, node_counts_line as node_counts_line_lem, own_text as own_text_lem, sessions_text as sessions_text_lem};

use memory_growth::{OutOfMemory, text_of, texts};
use node_gate::JournaledNode;
use node_housekeeping::{Count, CountName, JobEvent, NodeCounts};
use obj_id::{JobNo, Refusal, Reply};
use private_store::StepAnswer;
use schedule_text::{Prefix, answer_line};
use shared_nodes::SharedNode;
use std::alloc::Global;
use std::sync::Wait;

/// The line of the node's own counts.
pub(crate) fn node_counts_text<K: JournaledNode>(
    alloc: Global,
    shared: &SharedNode<K>,
    node: u32,
) -> Result<String, OutOfMemory>
    ensures { IfOk result (λ line. IsNodeCountsLine node (string_bytes line)) }
{
    node_counts_line(alloc, node, &shared.node_counts())
}

/// The line of a job's counts, or that the job isn't live.
pub(crate) fn job_counts_text<K: JournaledNode, R: Wait>(
    rt: &R,
    alloc: Global,
    shared: &SharedNode<K>,
    node: u32,
    job: JobNo,
) -> Result<String, OutOfMemory>
    ensures { IfOk result (λ line. IsJobCountsLine node job.0 (string_bytes line)) }
{
    if shared.usage(rt, job).is_err() {
        let refused = StepAnswer::Response(Reply::Refused(Refusal::NotAdmitted));
        return answer_line(alloc, Prefix::Operator(node), &refused);
    }
    job_counts_line(alloc, node, job, &shared.job_counts(rt, job)?)
}

/// `nNODE op counts`, and each of the node's own.
fn node_counts_line(alloc: Global, node: u32, counts: &NodeCounts) -> Result<String, OutOfMemory>
    ensures { IfOk result (λ line. string_bytes line ≡ node_counts_line_lem node counts.now) }
{
    let mut line = text_of!(in alloc; "n{node} op counts")?;
    texts::push_str(&mut line, &own_text(alloc, counts)?)?;
    texts::push(&mut line, '\n')?;
    Ok(line)
}

/// Each of the node's own, after a space.
fn own_text(alloc: Global, counts: &NodeCounts) -> Result<String, OutOfMemory>
    ensures { IfOk result (λ text. string_bytes text ≡ own_text_lem counts.now) }
{
    let mut text = sessions_text(alloc, counts)?;
    texts::push_str(&mut text, &lock_text(alloc, counts)?)?;
    texts::push_str(&mut text, &folds_text(alloc, counts)?)?;
    Ok(text)
}

/// ` hellos:NUMBER hellos-refused:NUMBER malformed:NUMBER`.
fn sessions_text(alloc: Global, counts: &NodeCounts) -> Result<String, OutOfMemory>
    ensures { IfOk result (λ text. string_bytes text ≡ sessions_text_lem counts.now) }
{
    let hellos = counts.hellos;
    let refused = counts.hellos_refused;
    let malformed = counts.malformed;
    text_of!(in alloc; " hellos:{hellos} hellos-refused:{refused} malformed:{malformed}")
}

/// ` lock-waits:NUMBER lock-sleeps:NUMBER`.
fn lock_text(alloc: Global, counts: &NodeCounts) -> Result<String, OutOfMemory>
    ensures { IfOk result (λ text. string_bytes text ≡ lock_text_lem counts.now) }
{
    let waits = counts.lock_waits;
    let sleeps = counts.lock_sleeps;
    text_of!(in alloc; " lock-waits:{waits} lock-sleeps:{sleeps}")
}

/// ` end-folds:NUMBER`.
fn folds_text(alloc: Global, counts: &NodeCounts) -> Result<String, OutOfMemory>
    ensures { IfOk result (λ text. string_bytes text ≡ folds_text_lem counts.now) }
{
    let folds = counts.end_folds;
    text_of!(in alloc; " end-folds:{folds}")
}

/// `nNODE op counts JOB`, and each of the job's.
fn job_counts_line(
    alloc: Global,
    node: u32,
    job: JobNo,
    counts: &[Count],
) -> Result<String, OutOfMemory>
    ensures { IfOk result (λ line. string_bytes line ≡ job_counts_line_lem node job.0 counts.now) }
{
    let number = job.0;
    let mut line = text_of!(in alloc; "n{node} op counts {number}")?;
    texts::push_str(&mut line, &counts_text(alloc, counts)?)?;
    texts::push(&mut line, '\n')?;
    Ok(line)
}

/// Each count, after a space.
fn counts_text(alloc: Global, counts: &[Count]) -> Result<String, OutOfMemory>
    ensures { IfOk result (λ text. string_bytes text ≡ counts_text_lem counts.now) }
{
    let mut text = String::new(alloc);
    for count in counts {
        let count = count_text(alloc, count)?;
        texts::push_str(&mut text, &count)?;
    }
    Ok(text)
}

/// ` NAME:NUMBER`.
fn count_text(alloc: Global, count: &Count) -> Result<String, OutOfMemory>
    ensures { IfOk result (λ text. string_bytes text ≡ count_text_lem count.now) }
{
    let name = name_text(alloc, count.name)?;
    let number = count.number;
    text_of!(in alloc; " {name}:{number}")
}

/// What is counted, as a word; a refusal by its number.
fn name_text(alloc: Global, name: CountName) -> Result<String, OutOfMemory>
    ensures { IfOk result (λ text. string_bytes text ≡ name_text_lem name) }
{
    match name {
        CountName::Command(kind) => texts::from_str(alloc, kind.word()),
        CountName::Refused(refusal) => refusal_text(alloc, refusal),
        CountName::Event(event) => texts::from_str(alloc, event_word(event)),
    }
}

/// `refused.` and the refusal's number.
fn refusal_text(alloc: Global, refusal: Refusal) -> Result<String, OutOfMemory>
    ensures { IfOk result (λ text. string_bytes text ≡ name_text_lem (CountName.Refused refusal)) }
{
    let number = refusal.number();
    text_of!(in alloc; "refused.{number}")
}

/// The word of what else is counted.
fn event_word(event: JobEvent) -> &'static str
    ensures { result.now ≡ event_word_lem event }
{
    match event {
        JobEvent::BytesIn => "bytes-in",
        JobEvent::BytesOut => "bytes-out",
        JobEvent::Spill => "spills",
        JobEvent::SpillFailed => "spills-failed",
        JobEvent::Restore => "restores",
        JobEvent::RestoreFailed => "restores-failed",
        JobEvent::Pull => "pulls",
        JobEvent::Arrival => "arrivals",
        JobEvent::Locate => "locates",
        JobEvent::Fetched => "fetched",
        JobEvent::SourceGone => "sources-gone",
        JobEvent::ChunkSent => "chunks-sent",
        JobEvent::NotHere => "not-here",
        JobEvent::Evicted => "evictions",
        JobEvent::Removed => "removals",
    }
}
