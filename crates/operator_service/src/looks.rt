//! What the operator is shown of a node and of its sessions, as lines.
ghost use Rattle.std.specs.Prelude.{◌≡◌, IfOk};
ghost use Rattle.std.specs.String.{string_bytes};
ghost use Rattle.operator_service.specs.Looks.{IsKickText, IsLookText, job_text as job_text_lem, jobs_text as jobs_text_lem, jobs_line as jobs_line_lem, kicked_line as kicked_line_lem, no_session_line as no_session_line_lem, sessions_line as sessions_line_lem, stream_text as stream_text_lem, streams_text as streams_text_lem, streams_line as streams_line_lem, usage_reply as usage_reply_lem};
ghost use Rattle.shared_nodes.specs.Looking.{AreLiveAt, IsUsageAt};

use crate::counting::{job_counts_text, node_counts_text};
use bytes::Bytes;
use memory_growth::{OutOfMemory, text_of, texts};
use node_gate::{JournaledNode, LiveJob};
use node_housekeeping::ListedSession;
use obj_id::{JobNo, Refusal, Reply, Usage};
use private_store::StepAnswer;
use program_lines::Look;
use schedule_text::{Prefix, answer_line};
use shared_nodes::SharedNode;
use std::alloc::Global;
use std::sync::Wait;
use std::time::Clock;

/// The line that shows something of the node of this number.
pub(crate) fn look_text<K: JournaledNode, R: Wait + Clock>(
    rt: &R,
    alloc: Global,
    shared: &SharedNode<K>,
    node: u32,
    look: Look,
) -> Result<String, OutOfMemory>
    requires { shared.now.number ≡ node }
    ensures { IfOk result (λ line. IsLookText (AreLiveAt K.node_number K.shows_live) (IsUsageAt K.node_number K.shows_usage) node look (string_bytes line)) }
{
    match look {
        Look::Jobs => jobs_line(alloc, node, &shared.live_jobs(rt)?),
        Look::Usage(job) => {
            let response = StepAnswer::Response(usage_reply(shared.usage(rt, job)));
            answer_line(alloc, Prefix::Operator(node), &response)
        }
        Look::Sessions => sessions_line(alloc, node, shared.open_sessions(rt).sessions()),
        Look::Streams => streams_line(alloc, node, &shared.listed_sessions(rt)?),
        Look::Counts(None) => node_counts_text(alloc, shared, node),
        Look::Counts(Some(job)) => job_counts_text(rt, alloc, shared, node, job),
    }
}

/// What a job uses of its quotas, or that it isn't live.
fn usage_reply(told: Result<Usage, Refusal>) -> Reply<Bytes>
    ensures { result ≡ usage_reply_lem told }
{
    match told {
        Ok(usage) => Reply::Usage(usage),
        Err(refusal) => Reply::Refused(refusal),
    }
}

/// `nNODE op sessions` and their number.
fn sessions_line(alloc: Global, node: u32, sessions: usize) -> Result<String, OutOfMemory>
    ensures { IfOk result (λ line. string_bytes line ≡ sessions_line_lem node sessions) }
{
    text_of!(in alloc; "n{node} op sessions {sessions}\n")
}

/// `nNODE op jobs`, and each job with its quotas.
fn jobs_line(alloc: Global, node: u32, jobs: &[LiveJob]) -> Result<String, OutOfMemory>
    ensures { IfOk result (λ line. string_bytes line ≡ jobs_line_lem node jobs.now) }
{
    let mut line = text_of!(in alloc; "n{node} op jobs")?;
    texts::push_str(&mut line, &jobs_text(alloc, jobs)?)?;
    texts::push(&mut line, '\n')?;
    Ok(line)
}

/// Each job with its quotas, after a space.
fn jobs_text(alloc: Global, jobs: &[LiveJob]) -> Result<String, OutOfMemory>
    ensures { IfOk result (λ text. string_bytes text ≡ jobs_text_lem jobs.now) }
{
    let mut text = String::new(alloc);
    for job in jobs {
        let job = job_text(alloc, job)?;
        texts::push_str(&mut text, &job)?;
    }
    Ok(text)
}

/// ` JOB:WINDOW:DEVICE`.
fn job_text(alloc: Global, live: &LiveJob) -> Result<String, OutOfMemory>
    ensures { IfOk result (λ text. string_bytes text ≡ job_text_lem live.now) }
{
    let job = live.job.0;
    let window = live.usage.window;
    let device = live.usage.device;
    text_of!(in alloc; " {job}:{window}:{device}")
}

/// `nNODE op streams`, and each session whose Hello was taken.
fn streams_line(alloc: Global, node: u32, sessions: &[ListedSession]) -> Result<String, OutOfMemory>
    ensures { IfOk result (λ line. string_bytes line ≡ streams_line_lem node sessions.now) }
{
    let mut line = text_of!(in alloc; "n{node} op streams")?;
    texts::push_str(&mut line, &streams_text(alloc, sessions)?)?;
    texts::push(&mut line, '\n')?;
    Ok(line)
}

/// Each session, after a space.
fn streams_text(alloc: Global, sessions: &[ListedSession]) -> Result<String, OutOfMemory>
    ensures { IfOk result (λ text. string_bytes text ≡ streams_text_lem sessions.now) }
{
    let mut text = String::new(alloc);
    for listed in sessions {
        let listed = stream_text(alloc, listed)?;
        texts::push_str(&mut text, &listed)?;
    }
    Ok(text)
}

/// ` SESSION:JOB:SECONDS:COMMANDS`.
fn stream_text(alloc: Global, listed: &ListedSession) -> Result<String, OutOfMemory>
    ensures { IfOk result (λ text. string_bytes text ≡ stream_text_lem listed.now) }
{
    let session = listed.session;
    let job = listed.job.0;
    let seconds = listed.seconds;
    let commands = listed.commands;
    text_of!(in alloc; " {session}:{job}:{seconds}:{commands}")
}

/// Shuts down the stream of this job's session at the node of this number, and makes the line that says so, or that there is none.
pub(crate) fn kick_text<K: JournaledNode, R: Wait>(
    rt: &R,
    alloc: Global,
    shared: &SharedNode<K>,
    node: u32,
    job: JobNo,
    session: u32,
) -> Result<String, OutOfMemory>
    ensures { IfOk result (λ line. IsKickText node job.0 session (string_bytes line)) }
{
    if shared.kick(rt, job, session) {
        kicked_line(alloc, node, job.0, session)
    } else {
        no_session_line(alloc, node, job.0, session)
    }
}

/// The line of a session whose stream was shut down.
fn kicked_line(alloc: Global, node: u32, job: u32, session: u32) -> Result<String, OutOfMemory>
    ensures { IfOk result (λ line. string_bytes line ≡ kicked_line_lem node job session) }
{
    text_of!(in alloc; "n{node} op kicked {job} {session}\n")
}

/// The line of a session that there isn't.
fn no_session_line(alloc: Global, node: u32, job: u32, session: u32) -> Result<String, OutOfMemory>
    ensures { IfOk result (λ line. string_bytes line ≡ no_session_line_lem node job session) }
{
    text_of!(in alloc; "n{node} op no session {job} {session}\n")
}
