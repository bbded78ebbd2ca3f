//! Lines of a schedule, by their fields.
ghost use Rattle.std.specs.Prelude.{◌≡◌, IfOk, map};
ghost use Rattle.schedule_text.specs.Fields.{Reads, fields_of as fields_of_lem};
ghost use Rattle.schedule_text.specs.Reading.{IsCall, IsCallLine, IsDamage, IsDamageWord, IsDeliver, IsDelivery, IsDeliveryLine, IsEnding, IsEndingAt, IsFinish, IsJobAlone, IsJobAt, IsJobQuota, IsLine, IsMessage, IsNodeAlone, IsPlace, IsQuota, IsQuotaAt, IsSpeaker, IsStep, IsStepLine, IsWay, is_skipped as is_skipped_lem, no_key};

use crate::commands::command;
use crate::fields::{job, long_number, node, number};
use crate::line::{FinishWord, Line};
use crate::words::{Verb, read_outcome};
use memory_growth::{OutOfMemory, lists};
use obj_id::{Endpoint, JobKey, JobNo, Quota};
use private_store::{Event, Step};
use std::alloc::Global;

/// A job at a node.
#[derive(Clone, Copy, Debug, PartialEq, Eq, Hash)]
pub struct JobAt {
    pub node: u32,
    pub job: JobNo,
}

/// A session of a job at a node.
#[derive(Clone, Copy, Debug, PartialEq, Eq)]
struct Speaker {
    at: JobAt,
    session: u32,
}

/// What a line of a schedule says to a world with this number of nodes, which are numbered from 0. The
/// text is the line's without its line feed. `None` if it isn't a step.
pub fn read_line(alloc: Global, text: &str, nodes: u32) -> Result<Option<Line>, OutOfMemory>
    ensures { IfOk result (λ line. Reads line (IsLine nodes text.now)) }
{
    if is_skipped(text.as_bytes()) {
        return Ok(Some(Line::Skipped));
    }
    let fields = fields_of(alloc, text)?;
    step_line(alloc, &fields, nodes)
}

/// Whether a line, without its line feed, is empty or a comment: then it says nothing. A comment may
/// hold any bytes.
pub fn is_skipped(line: &[u8]) -> bool
    ensures { result ≡ is_skipped_lem line.now }
{
    matches!(line, [] | [b'#', ..])
}

/// What stands between the spaces of a line, in order: one field at least.
pub fn fields_of(alloc: Global, text: &str) -> Result<Vec<&str>, OutOfMemory>
    ensures { IfOk result (λ fields.
        map (λ field. field.now) fields.items ≡ fields_of_lem text.now) }
{
    lists::collected(alloc, text.split(' '))
}

/// The step that fields spell.
fn step_line(alloc: Global, fields: &[&str], nodes: u32) -> Result<Option<Line>, OutOfMemory>
    ensures { IfOk result (λ line. Reads line
        (IsStepLine nodes (map (λ field. field.now) fields.now))) }
{
    let [first, fields @ ..] = fields else {
        return Ok(None)
    };
    match Verb::read(first) {
        None => Ok(None),
        Some(verb) => step_of(alloc, verb, fields, nodes),
    }
}

/// The step that a first word and the fields after it spell.
fn step_of(
    alloc: Global,
    verb: Verb,
    fields: &[&str],
    nodes: u32,
) -> Result<Option<Line>, OutOfMemory>
    ensures { IfOk result (λ line. Reads line
        (IsStep nodes verb (map (λ field. field.now) fields.now))) }
{
    match verb {
        Verb::Admit => Ok(job_quota(fields, nodes).map(|(at, quota)| admit(at, quota))),
        Verb::Quota => Ok(job_quota(fields, nodes).map(|(at, quota)| Line::Step(Step::At(
            at.node,
            Event::Requota(at.job, quota),
        )))),
        Verb::End => Ok(job_alone(fields, nodes).map(|at| Line::Step(Step::At(
            at.node,
            Event::JobEnd(at.job),
        )))),
        Verb::Cmd => call(alloc, fields, nodes),
        Verb::Take => Ok(node_alone(fields, nodes).map(|node| Line::Step(Step::At(
            node,
            Event::Take,
        )))),
        Verb::Finish => Ok(finish(fields, nodes).map(|(at, (number, outcome))| Line::Finish {
            node: at.node,
            job: at.job,
            number,
            outcome,
        })),
        Verb::Deliver => Ok(deliver(fields, nodes).map(|((way, message), damaged)| {
            Line::Step(Step::Deliver {
                job: message.0,
                from: way.0,
                to: way.1,
                number: message.1,
                damaged,
            })
        })),
    }
}

/// The step that admits a job, under a key of zeros.
fn admit(at: JobAt, quota: Quota) -> Line
    ensures { result ≡ Line.Step (Step.At at.node (Event.Admit at.job quota no_key)) }
{
    Line::Step(Step::At(
        at.node,
        Event::Admit {
            job: at.job,
            quota,
            key: JobKey([0; 32]),
        },
    ))
}

/// `NODE JOB`.
fn job_at(at: &str, name: &str, nodes: u32) -> Option<JobAt>
    ensures { Reads result (IsJobAt nodes at.now name.now) }
{
    let node = node(at, nodes)?;
    let job = job(name)?;
    Some(JobAt { node, job })
}

/// `WINDOW DEVICE`, in bytes.
pub fn quota(window: &str, device: &str) -> Option<Quota>
    ensures { Reads result (IsQuota window.now device.now) }
{
    let window = long_number(window)?;
    let device = long_number(device)?;
    Some(Quota { window, device })
}

/// `NODE JOB WINDOW DEVICE`.
fn job_quota(fields: &[&str], nodes: u32) -> Option<(JobAt, Quota)>
    ensures { Reads result (IsJobQuota nodes (map (λ field. field.now) fields.now)) }
{
    let [node, job, window, device] = fields else {
        return None
    };
    quota_at(node, job, window, device, nodes)
}

/// `NODE JOB WINDOW DEVICE`, each in its field.
fn quota_at(at: &str, name: &str, window: &str, device: &str, nodes: u32) -> Option<(JobAt, Quota)>
    ensures { Reads result (IsQuotaAt nodes at.now name.now window.now device.now) }
{
    Some((job_at(at, name, nodes)?, quota(window, device)?))
}

/// `NODE JOB`, and nothing else.
fn job_alone(fields: &[&str], nodes: u32) -> Option<JobAt>
    ensures { Reads result (IsJobAlone nodes (map (λ field. field.now) fields.now)) }
{
    let [node, job] = fields else { return None };
    job_at(node, job, nodes)
}

/// `NODE`.
fn node_alone(fields: &[&str], nodes: u32) -> Option<u32>
    ensures { Reads result (IsNodeAlone nodes (map (λ field. field.now) fields.now)) }
{
    let [at] = fields else { return None };
    node(at, nodes)
}

/// `NODE JOB SESSION`, of a job of at least 1.
fn session_of(at: &str, name: &str, session: &str, nodes: u32) -> Option<Speaker>
    ensures { Reads result (IsSpeaker nodes at.now name.now session.now) }
{
    let at = job_at(at, name, nodes)?;
    let session = number(session)?;
    if at.job.0 == 0 {
        None
    } else {
        Some(Speaker { at, session })
    }
}

/// `NODE JOB SESSION` and a command.
fn call(alloc: Global, fields: &[&str], nodes: u32) -> Result<Option<Line>, OutOfMemory>
    ensures { IfOk result (λ line. Reads line
        (IsCallLine nodes (map (λ field. field.now) fields.now))) }
{
    let [node, job, session, first, fields @ ..] = fields else {
        return Ok(None)
    };
    call_line(alloc, node, job, session, first, fields, nodes)
}

/// `NODE JOB SESSION`, each in its field, and a command.
fn call_line(
    alloc: Global,
    at: &str,
    name: &str,
    session: &str,
    first: &str,
    fields: &[&str],
    nodes: u32,
) -> Result<Option<Line>, OutOfMemory>
    ensures { IfOk result (λ line. Reads line (IsCall nodes at.now name.now session.now first.now
        (map (λ field. field.now) fields.now))) }
{
    let Some(speaker) = session_of(at, name, session, nodes) else {
        return Ok(None)
    };
    let Some(command) = command(alloc, first, fields, speaker.at.job)? else {
        return Ok(None)
    };
    let JobAt { node, job } = speaker.at;
    Ok(Some(Line::Step(Step::At(
        node,
        Event::Call {
            job,
            session: speaker.session,
            command,
        },
    ))))
}

/// `NUMBER` and the outcome.
fn ending(number: &str, outcome: &str) -> Option<(u64, FinishWord)>
    ensures { Reads result (IsEnding number.now outcome.now) }
{
    Some((long_number(number)?, read_outcome(outcome)?))
}

/// `NODE JOB NUMBER` and the outcome.
fn finish(fields: &[&str], nodes: u32) -> Option<(JobAt, (u64, FinishWord))>
    ensures { Reads result (IsFinish nodes (map (λ field. field.now) fields.now)) }
{
    let [node, job, number, outcome] = fields else {
        return None
    };
    ending_at(node, job, number, outcome, nodes)
}

/// `NODE JOB NUMBER` and the outcome, each in its field.
fn ending_at(
    at: &str,
    name: &str,
    number: &str,
    outcome: &str,
    nodes: u32,
) -> Option<(JobAt, (u64, FinishWord))>
    ensures { Reads result (IsEndingAt nodes at.now name.now number.now outcome.now) }
{
    Some((job_at(at, name, nodes)?, ending(number, outcome)?))
}

/// A node's number, or `d`.
fn place(field: &str, nodes: u32) -> Option<Endpoint>
    ensures { Reads result (IsPlace nodes field.now) }
{
    if field == "d" {
        return Some(Endpoint::Directory);
    }
    node(field, nodes).map(Endpoint::Node)
}

/// `FROM TO`.
fn way(sender: &str, receiver: &str, nodes: u32) -> Option<(Endpoint, Endpoint)>
    ensures { Reads result (IsWay nodes sender.now receiver.now) }
{
    Some((place(sender, nodes)?, place(receiver, nodes)?))
}

/// `JOB M`.
fn message(name: &str, number: &str) -> Option<(JobNo, u64)>
    ensures { Reads result (IsMessage name.now number.now) }
{
    Some((job(name)?, long_number(number)?))
}

/// `JOB FROM TO M`.
fn delivery(
    name: &str,
    sender: &str,
    receiver: &str,
    number: &str,
    nodes: u32,
) -> Option<((Endpoint, Endpoint), (JobNo, u64))>
    ensures { Reads result (IsDelivery nodes name.now sender.now receiver.now number.now) }
{
    Some((way(sender, receiver, nodes)?, message(name, number)?))
}

/// `JOB FROM TO M`, and perhaps `damage`.
fn deliver(fields: &[&str], nodes: u32) -> Option<(((Endpoint, Endpoint), (JobNo, u64)), bool)>
    ensures { Reads result (IsDeliver nodes (map (λ field. field.now) fields.now)) }
{
    let [job, sender, receiver, number, fields @ ..] = fields else {
        return None
    };
    delivery_line(job, sender, receiver, number, fields, nodes)
}

/// `JOB FROM TO M`, each in its field, and perhaps `damage`.
fn delivery_line(
    name: &str,
    sender: &str,
    receiver: &str,
    number: &str,
    fields: &[&str],
    nodes: u32,
) -> Option<(((Endpoint, Endpoint), (JobNo, u64)), bool)>
    ensures { Reads result (IsDeliveryLine nodes name.now sender.now receiver.now number.now
        (map (λ field. field.now) fields.now)) }
{
    Some((
        delivery(name, sender, receiver, number, nodes)?,
        damage(fields)?,
    ))
}

/// Nothing more, or `damage`.
fn damage(fields: &[&str]) -> Option<bool>
    ensures { Reads result (IsDamage (map (λ field. field.now) fields.now)) }
{
    if fields.is_empty() {
        return Some(false);
    }
    let [field] = fields else { return None };
    damage_word(field)
}

/// `damage`.
fn damage_word(field: &str) -> Option<bool>
    ensures { Reads result (IsDamageWord field.now) }
{
    if field == "damage" { Some(true) } else { None }
}
