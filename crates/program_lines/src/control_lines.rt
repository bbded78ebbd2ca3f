//! The lines of a control connection: the operator's, and more.
ghost use Rattle.std.specs.Prelude.{◌≡◌, IfOk, map};
ghost use Rattle.schedule_text.specs.Fields.{Reads};
ghost use Rattle.schedule_text.specs.Reading.{IsNodeAlone};
ghost use Rattle.program_lines.specs.ControlLines.{IsControlLine, IsCountsLook, IsJobLook, IsKickAfter, IsKickFields, IsKickLine, IsLookAfter, IsLookLine};

use crate::operator::{Order, read_order};
use memory_growth::OutOfMemory;
use obj_id::JobNo;
use schedule_text::{fields, fields_of};
use std::alloc::Global;

/// What the operator wants to see of a node.
#[derive(Clone, Copy, Debug, PartialEq, Eq)]
pub enum Look {
    /// Its live jobs with their quotas.
    Jobs,
    /// What a job uses of its quotas.
    Usage(JobNo),
    /// How many sessions are open.
    Sessions,
    /// Which sessions are open.
    Streams,
    /// What was counted of its sessions and its lock, or of a job there.
    Counts(Option<JobNo>),
}

/// What a line of a control connection asks for.
#[derive(Clone, Copy, Debug, PartialEq, Eq)]
pub enum ControlLine {
    /// What it asks for on standard input too.
    Order(Order),
    /// No more sessions are taken, and the open ones are ended.
    CloseNow,
    /// Something is shown of the node of this number.
    Look(u32, Look),
    /// The stream of this job's session at this node is shut down.
    Kick { node: u32, job: JobNo, session: u32 },
}

/// What the text of a line, without its line feed, asks of nodes of this number: an order, `close now`, `jobs NODE`, `usage NODE JOB`,
/// `sessions NODE`, `streams NODE`, `counts NODE`, `counts NODE JOB` or `kick NODE JOB SESSION`. `None` exactly if it is no such line.
pub fn read_control_line(
    alloc: Global,
    text: &str,
    nodes: u32,
) -> Result<Option<ControlLine>, OutOfMemory>
    ensures { IfOk result (λ found. Reads found (IsControlLine nodes text.now)) }
{
    if text == "close now" {
        return Ok(Some(ControlLine::CloseNow));
    }
    let fields = fields_of(alloc, text)?;
    if let Some(LookAt { node, look }) = look_line(&fields, nodes) {
        return Ok(Some(ControlLine::Look(node, look)));
    }
    if let Some(SessionAt { node, job, session }) = kick_line(&fields, nodes) {
        return Ok(Some(ControlLine::Kick { node, job, session }));
    }
    match read_order(alloc, text, nodes)? {
        Some(order) => Ok(Some(ControlLine::Order(order))),
        None => Ok(None),
    }
}

/// What is to be seen of a node.
#[derive(Clone, Copy, Debug, PartialEq, Eq)]
struct LookAt {
    node: u32,
    look: Look,
}

/// A job's session at a node.
#[derive(Clone, Copy, Debug, PartialEq, Eq)]
struct SessionAt {
    node: u32,
    job: JobNo,
    session: u32,
}

/// `jobs NODE`, `usage NODE JOB`, `sessions NODE`, `streams NODE`, `counts NODE` or `counts NODE JOB`.
fn look_line(fields: &[&str], nodes: u32) -> Option<LookAt>
    ensures { Reads result (IsLookLine nodes (map (λ field. field.now) fields.now)) }
{
    let [word, fields @ ..] = fields else {
        return None
    };
    look_after(word, fields, nodes)
}

/// What is to be seen, by the first word and the fields after it.
fn look_after(word: &str, fields: &[&str], nodes: u32) -> Option<LookAt>
    ensures { Reads result (IsLookAfter nodes word.now (map (λ field. field.now) fields.now)) }
{
    if word == "jobs" {
        return node_look(fields, nodes, Look::Jobs);
    }
    if word == "sessions" {
        return node_look(fields, nodes, Look::Sessions);
    }
    if word == "usage" {
        return job_look(fields, nodes);
    }
    if word == "streams" {
        return node_look(fields, nodes, Look::Streams);
    }
    if word == "counts" {
        return counts_look(fields, nodes);
    }
    None
}

/// `NODE`, of which this is to be seen.
fn node_look(fields: &[&str], nodes: u32, look: Look) -> Option<LookAt>
    ensures { Reads result (λ x. IsNodeAlone nodes (map (λ field. field.now) fields.now) x.node × (look ≡ x.look)) }
{
    let [node] = fields else { return None };
    let node = fields::node(node, nodes)?;
    Some(LookAt { node, look })
}

/// `NODE JOB`, of which the usage is to be seen.
fn job_look(fields: &[&str], nodes: u32) -> Option<LookAt>
    ensures { Reads result (IsJobLook nodes (map (λ field. field.now) fields.now)) }
{
    let [node, job] = fields else { return None };
    let node = fields::node(node, nodes)?;
    let job = fields::job(job)?;
    Some(LookAt {
        node,
        look: Look::Usage(job),
    })
}

/// `NODE`, or `NODE JOB`, of which the counts are to be seen.
fn counts_look(fields: &[&str], nodes: u32) -> Option<LookAt>
    ensures { Reads result (IsCountsLook nodes (map (λ field. field.now) fields.now)) }
{
    match fields {
        [node] => {
            let node = fields::node(node, nodes)?;
            Some(LookAt {
                node,
                look: Look::Counts(None),
            })
        }
        [node, job] => {
            let node = fields::node(node, nodes)?;
            let job = fields::job(job)?;
            Some(LookAt {
                node,
                look: Look::Counts(Some(job)),
            })
        }
        _ => None,
    }
}

/// `kick NODE JOB SESSION`.
fn kick_line(fields: &[&str], nodes: u32) -> Option<SessionAt>
    ensures { Reads result (IsKickLine nodes (map (λ field. field.now) fields.now)) }
{
    let [word, fields @ ..] = fields else {
        return None
    };
    kick_after(word, fields, nodes)
}

/// The session, by the first word and the fields after it.
fn kick_after(word: &str, fields: &[&str], nodes: u32) -> Option<SessionAt>
    ensures { Reads result (IsKickAfter nodes word.now (map (λ field. field.now) fields.now)) }
{
    if word == "kick" {
        return session_at(fields, nodes);
    }
    None
}

/// `NODE JOB SESSION`.
fn session_at(fields: &[&str], nodes: u32) -> Option<SessionAt>
    ensures { Reads result (IsKickFields nodes (map (λ field. field.now) fields.now)) }
{
    let [node, job, session] = fields else {
        return None
    };
    let node = fields::node(node, nodes)?;
    let job = fields::job(job)?;
    let session = fields::number(session)?;
    Some(SessionAt { node, job, session })
}
