//! The answers of a session.
ghost use Rattle.std.specs.Prelude.{◌≡◌, IsTrue, Some, None};
ghost use Rattle.wire_frames.specs.Writing.{has_reply_frame};
ghost use Rattle.session_engine.specs.Sessions.{AnswersItem, Leaves};

use crate::Gate;
use bytes::Bytes;
use obj_id::{JobKey, JobNo, Refusal, Reply};
use private_store::Item;

/// Where a session sits that has entered: its job, and its number there.
#[derive(Clone, Copy, Debug)]
pub struct SessionId {
    job: JobNo,
    number: u32,
}

/// The answer to an item: the gate's, or the session's own.
pub(crate) fn answer<G: Gate>(
    gate: &mut G,
    session_id: &mut Option<SessionId>,
    item: Item,
) -> Reply<Bytes>
    ensures answer { AnswersItem G.gives gate.old session_id.old item result gate.new session_id.new }
    ensures frame { IsTrue (has_reply_frame result) }
{
    match *session_id {
        None => answer_outside(gate, session_id, item),
        Some(own) => answer_entered(gate, own, item),
    }
}

/// The answer to an item before an accepted Hello.
fn answer_outside<G: Gate>(
    gate: &mut G,
    session_id: &mut Option<SessionId>,
    item: Item,
) -> Reply<Bytes>
    requires { session_id.old ≡ None }
    ensures answer { AnswersItem G.gives gate.old None item result gate.new session_id.new }
    ensures frame { IsTrue (has_reply_frame result) }
{
    match item {
        Item::Hello(job, key) => enter(gate, session_id, job, key),
        Item::Command(_) => Reply::Refused(Refusal::NotAdmitted),
        Item::Wait(_) => Reply::Refused(Refusal::NotAdmitted),
        Item::BadId => Reply::Refused(Refusal::BadId),
    }
}

/// The answer to a Hello that may be accepted.
fn enter<G: Gate>(
    gate: &mut G,
    session_id: &mut Option<SessionId>,
    job: JobNo,
    key: JobKey,
) -> Reply<Bytes>
    requires { session_id.old ≡ None }
    ensures answer { AnswersItem G.gives gate.old None (Item.Hello job key) result gate.new session_id.new }
    ensures frame { IsTrue (has_reply_frame result) }
{
    match gate.enter(job, key) {
        Ok(number) => {
            *session_id = Some(SessionId { job, number });
            Reply::Ok
        }
        Err(refusal) => Reply::Refused(refusal),
    }
}

/// The answer to an item after an accepted Hello.
fn answer_entered<G: Gate>(gate: &mut G, session_id: SessionId, item: Item) -> Reply<Bytes>
    ensures answer { AnswersItem G.gives gate.old (Some session_id) item result gate.new (Some session_id) }
    ensures frame { IsTrue (has_reply_frame result) }
{
    match item {
        Item::Hello(..) => Reply::Refused(Refusal::Exists),
        Item::Command(command) => gate.call(session_id.job, session_id.number, command),
        Item::Wait(awaited) => gate.call_wait(session_id.job, session_id.number, awaited),
        Item::BadId => Reply::Refused(Refusal::BadId),
    }
}

/// Has the gate release all that the session holds, if it has entered.
pub(crate) fn leave<G: Gate>(gate: &mut G, session_id: Option<SessionId>)
    ensures { Leaves G.gives session_id gate.old gate.new }
{
    if let Some(session_id) = session_id {
        gate.leave(session_id.job, session_id.number);
    }
}
