//! A control connection: each line of it is answered by one line.
ghost use Rattle.std.specs.Prelude.{◌≡◌, ℕ, List, true, false, vec_len, IfOk, IfErr, OnErr, IfSome};
ghost use Rattle.std.specs.String.{string_bytes};
ghost use Rattle.std.specs.Str.{IsUtf8};
ghost use Rattle.schedule_text.specs.Fields.{Reads};
ghost use Rattle.program_lines.specs.ControlLines.{IsControlLine};
ghost use Rattle.operator_service.specs.Attending.{HasAttended, HasStepped, IsAnswer, IsAnswered, IsAskedFor, IsChangeLine, IsChangeOf, IsAnswerMade, IsNone, IsAnswerText, Replies, closing_line as closing_line_lem, no_order_line as no_order_line_lem};
ghost use Rattle.operator_service.specs.Looks.{IsKickText, IsLookText};
ghost use Rattle.shared_nodes.specs.Looking.{AreLiveAt, IsUsageAt};
ghost use Rattle.operator_service.specs.Servings.{IsOrderedAt, MayStep, StopsReply, event_of_change};

use crate::looks::{kick_text, look_text};
use crate::serving::{carry_out, report_line, write_out};
use memory_growth::{OutOfMemory, text_of, texts};
use node_gate::{Actor, JournaledNode};
use obj_id::JobNo;
use private_store::StepAnswer;
use program_lines::{
    Change, ControlLine, Fault, LineTaken, Look, Order, read_control_line, take_line,
};
use schedule_text::{Prefix, answer_line, is_skipped};
use shared_nodes::{NodeList, Report, SessionsShut, SharedNode};
use std::alloc::Global;
use std::io::{Read, Write};
use std::str;
use std::sync::Wait;
use std::time::Clock;

/// The words that are orders, as a line that is none is answered.
const ORDERS: &str =
    "admit NODE JOB WINDOW DEVICE KEY, quota NODE JOB WINDOW DEVICE, end NODE JOB, jobs NODE, usage NODE JOB, sessions NODE, streams NODE, counts NODE, counts NODE JOB, kick NODE JOB SESSION, close, close now";

/// How the server was let close.
#[derive(Drop)]
pub struct Closed {
    /// That the streams of all open sessions were shut down, if they were.
    pub shut: Option<SessionsShut>,
    /// What was counted, unless a fault ended the server.
    pub report: Option<Report>,
}

/// What closes the server for a control connection.
pub trait Closing {
    ghost use Rattle.operator_service.specs.Attending.{IsClosed};

    /// Lets the server of these nodes close, and waits for its report; with the sessions that are open ended, or only waited for.
    fn close<K: JournaledNode, R: Wait>(&self, rt: &R, nodes: &NodeList<K>, now: bool) -> Closed
        ensures { IsClosed (vec_len nodes.now.nodes) now result };
}

/// The answer to a line, with its line feed, and whether it is the last.
#[derive(Drop)]
struct Answer {
    line: String,
    is_last: bool,
}

/// Answers the lines of a control connection, each by one line, until one lets the server close or the reader is at its end.
///
/// What was read is those lines, and perhaps a part of another one; what was written is their answers, in that order. An empty line and
/// one that begins with `#` have none. A line that is no order is answered so, with its number, counted from 1, and so is one of more
/// than 4,096 bytes. A fault is of this connection alone, and the next line has no answer; only if the output failed nobody knows what
/// was written. The actor steps the changes that those lines ask for, each once and in their order, and nothing else; of a line whose answer
/// nobody got it is not known whether it was stepped.
pub fn attend<K: JournaledNode, R: Wait + Clock, I: Read, O: Write, C: Closing>(
    rt: &R,
    actor: &mut Actor,
    alloc: Global,
    nodes: &NodeList<K>,
    count: u32,
    reader: &mut I,
    writer: &mut O,
    closing: &C,
) -> Result<(), Fault>
    ensures { HasAttended (IsAnswer (IsOrderedAt K.receipt_of K.made_at) (AreLiveAt K.node_number K.shows_live) (IsUsageAt K.node_number K.shows_usage) (vec_len nodes.now.nodes)) count (vec_len nodes.now.nodes) actor.old actor.new (I.remaining reader.old) (I.remaining reader.new) (O.contents writer.old) (O.contents writer.new) result }
{
    let mut line = Vec::new(alloc);
    for number in 1..u64::MAX {
        match take_line(reader, &mut line) {
            Err(fault) => return Err(fault),
            Ok(None) => return Ok(()),
            Ok(Some(taken)) => match reply_to(
                rt, actor, alloc, nodes, count, number, taken, &line, writer, closing,
            ) {
                Err(fault) => return Err(fault),
                Ok(true) => return Ok(()),
                Ok(false) => {}
            },
        }
    }
    // more lines than there are numbers
    Err(Fault::Input)
}

/// Answers the line of this number, and hands the answer over: whether it is the last.
fn reply_to<K: JournaledNode, R: Wait + Clock, O: Write, C: Closing>(
    rt: &R,
    actor: &mut Actor,
    alloc: Global,
    nodes: &NodeList<K>,
    count: u32,
    number: u64,
    taken: LineTaken,
    line: &[u8],
    writer: &mut O,
    closing: &C,
) -> Result<bool, Fault>
    ensures ok { IfOk result (λ is_last. (text : List ℕ) → IsAnswerText taken line.now text → Replies (IsAnswer (IsOrderedAt K.receipt_of K.made_at) (AreLiveAt K.node_number K.shows_live) (IsUsageAt K.node_number K.shows_usage) (vec_len nodes.now.nodes)) count (vec_len nodes.now.nodes) number text actor.old actor.new (O.contents writer.old) (O.contents writer.new) is_last) }
    ensures err { IfErr result (StopsReply (O.contents writer.old) (O.contents writer.new)) }
    ensures stopped { OnErr result ((text : List ℕ) → IsAnswerText taken line.now text → MayStep (IsAskedFor count text) actor.old actor.new) }
{
    let Ok(Answer { line, is_last }) = answer_of(
        rt, actor, alloc, nodes, count, number, taken, line, closing,
    ) else {
        return Err(Fault::NoMemory)
    };
    match write_out(line.as_bytes(), writer) {
        Ok(()) => Ok(is_last),
        Err(_) => Err(Fault::Output),
    }
}

/// The answer to what was taken as the line of this number.
fn answer_of<K: JournaledNode, R: Wait + Clock, C: Closing>(
    rt: &R,
    actor: &mut Actor,
    alloc: Global,
    nodes: &NodeList<K>,
    count: u32,
    number: u64,
    taken: LineTaken,
    line: &[u8],
    closing: &C,
) -> Result<Answer, OutOfMemory>
    ensures answered { IfOk result (λ answer. (text : List ℕ) → IsAnswerText taken line.now text → IsAnswered (IsAnswer (IsOrderedAt K.receipt_of K.made_at) (AreLiveAt K.node_number K.shows_live) (IsUsageAt K.node_number K.shows_usage) (vec_len nodes.now.nodes)) count (vec_len nodes.now.nodes) number text actor.old actor.new answer) }
    ensures stopped { OnErr result ((text : List ℕ) → IsAnswerText taken line.now text → MayStep (IsAskedFor count text) actor.old actor.new) }
{
    match taken {
        LineTaken::Line => answer_to(rt, actor, alloc, nodes, count, number, line, closing),
        LineTaken::TooLong => no_order(alloc, number),
    }
}

/// The answer to the text of a line.
fn answer_to<K: JournaledNode, R: Wait + Clock, C: Closing>(
    rt: &R,
    actor: &mut Actor,
    alloc: Global,
    nodes: &NodeList<K>,
    count: u32,
    number: u64,
    text: &[u8],
    closing: &C,
) -> Result<Answer, OutOfMemory>
    ensures answered { IfOk result (IsAnswered (IsAnswer (IsOrderedAt K.receipt_of K.made_at) (AreLiveAt K.node_number K.shows_live) (IsUsageAt K.node_number K.shows_usage) (vec_len nodes.now.nodes)) count (vec_len nodes.now.nodes) number text.now actor.old actor.new) }
    ensures stopped { OnErr result (MayStep (IsAskedFor count text.now) actor.old actor.new) }
{
    if is_skipped(text) {
        return Ok(Answer {
            line: String::new(alloc),
            is_last: false,
        });
    }
    match hear_asked(alloc, text, count)? {
        Some(asked) => answer_asked(rt, actor, alloc, nodes, number, asked, closing),
        None => no_order(alloc, number),
    }
}

/// What the text of a line asks for.
fn hear_asked(alloc: Global, text: &[u8], nodes: u32) -> Result<Option<ControlLine>, OutOfMemory>
    ensures sound { IfOk result (λ found. IfSome found (IsControlLine nodes text.now)) }
    ensures whole { IfOk result (λ found. IsUtf8 text.now → Reads found (IsControlLine nodes text.now)) }
{
    match str::from_utf8(text) {
        Ok(text) => read_control_line(alloc, text, nodes),
        Err(_) => Ok(None),
    }
}

/// Does what was asked for, and answers.
fn answer_asked<K: JournaledNode, R: Wait + Clock, C: Closing>(
    rt: &R,
    actor: &mut Actor,
    alloc: Global,
    nodes: &NodeList<K>,
    number: u64,
    asked: ControlLine,
    closing: &C,
) -> Result<Answer, OutOfMemory>
    ensures made { IfOk result (IsAnswerMade (IsAnswer (IsOrderedAt K.receipt_of K.made_at) (AreLiveAt K.node_number K.shows_live) (IsUsageAt K.node_number K.shows_usage) (vec_len nodes.now.nodes)) (vec_len nodes.now.nodes) number asked actor.old actor.new) }
    ensures stopped { OnErr result (MayStep (IsChangeOf asked) actor.old actor.new) }
{
    match asked {
        ControlLine::Order(Order::Close) => last_answer(alloc, &closing.close(rt, nodes, false)),
        ControlLine::CloseNow => last_answer(alloc, &closing.close(rt, nodes, true)),
        ControlLine::Order(Order::Change(node, change)) => match nodes.get(node) {
            Some(shared) => change_answer(rt, actor, alloc, &**shared, node, change),
            None => no_order(alloc, number),
        },
        ControlLine::Look(node, look) => match nodes.get(node) {
            Some(shared) => look_answer(rt, alloc, &**shared, node, look),
            None => no_order(alloc, number),
        },
        ControlLine::Kick { node, job, session } => match nodes.get(node) {
            Some(shared) => kick_answer(rt, alloc, &**shared, node, job, session),
            None => no_order(alloc, number),
        },
    }
}

/// The answer to a line that is no order.
fn no_order(alloc: Global, number: u64) -> Result<Answer, OutOfMemory>
    ensures { IfOk result (IsNone number) }
{
    Ok(Answer {
        line: no_order_line(alloc, number)?,
        is_last: false,
    })
}

/// The line of that answer.
fn no_order_line(alloc: Global, number: u64) -> Result<String, OutOfMemory>
    ensures { IfOk result (λ line. string_bytes line ≡ no_order_line_lem number) }
{
    text_of!(in alloc; "line {number}: not an order: the orders are {ORDERS}\n")
}

/// Makes a change at the node of this number, and answers.
fn change_answer<K: JournaledNode, R: Wait>(
    rt: &R,
    actor: &mut Actor,
    alloc: Global,
    shared: &SharedNode<K>,
    node: u32,
    change: Change,
) -> Result<Answer, OutOfMemory>
    requires { shared.now.number ≡ node }
    ensures changed { IfOk result (λ answer. HasStepped (IsChangeLine (IsOrderedAt K.receipt_of K.made_at) node change (string_bytes answer.line)) actor.old actor.new × (answer.is_last ≡ false)) }
    ensures stopped { OnErr result (MayStep (λ e. e ≡ event_of_change change) actor.old actor.new) }
{
    let (reply, _looked_for) = carry_out(rt, actor, shared, change);
    Ok(Answer {
        line: answer_line(alloc, Prefix::Operator(node), &StepAnswer::Response(reply))?,
        is_last: false,
    })
}

/// The answer that shows something of a node.
fn look_answer<K: JournaledNode, R: Wait + Clock>(
    rt: &R,
    alloc: Global,
    shared: &SharedNode<K>,
    node: u32,
    look: Look,
) -> Result<Answer, OutOfMemory>
    requires { shared.now.number ≡ node }
    ensures { IfOk result (λ answer. IsLookText (AreLiveAt K.node_number K.shows_live) (IsUsageAt K.node_number K.shows_usage) node look (string_bytes answer.line) × (answer.is_last ≡ false)) }
{
    Ok(Answer {
        line: look_text(rt, alloc, shared, node, look)?,
        is_last: false,
    })
}

/// Shuts down the stream of this job's session at the node of this number, and answers.
fn kick_answer<K: JournaledNode, R: Wait>(
    rt: &R,
    alloc: Global,
    shared: &SharedNode<K>,
    node: u32,
    job: JobNo,
    session: u32,
) -> Result<Answer, OutOfMemory>
    ensures { IfOk result (λ answer. IsKickText node job.0 session (string_bytes answer.line) × (answer.is_last ≡ false)) }
{
    Ok(Answer {
        line: kick_text(rt, alloc, shared, node, job, session)?,
        is_last: false,
    })
}

/// The answer to what let the server close.
fn last_answer(alloc: Global, closed: &Closed) -> Result<Answer, OutOfMemory>
    ensures { IfOk result (λ answer. (string_bytes answer.line ≡ closing_line_lem closed.now.report) × (answer.is_last ≡ true)) }
{
    Ok(Answer {
        line: closing_line(alloc, closed.report)?,
        is_last: true,
    })
}

/// The line of that answer.
fn closing_line(alloc: Global, report: Option<Report>) -> Result<String, OutOfMemory>
    ensures { IfOk result (λ line. string_bytes line ≡ closing_line_lem report) }
{
    match report {
        Some(report) => report_line(alloc, &report),
        None => texts::from_str(alloc, "not done: a fault ends the server\n"),
    }
}
