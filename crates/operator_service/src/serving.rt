//! Nodes that serve, as their operator has them on standard input.
ghost use Rattle.std.specs.Prelude.{◌≡◌, IfOk, OnOk, IfErr, OnErr, IfSome, vec_len};
ghost use Rattle.std.specs.Io.KnownBytes.{Appends};
ghost use Rattle.std.specs.Str.{IsUtf8};
ghost use Rattle.private_store.specs.declared.schedules.StepAnswer.TheVariants.{Response};
ghost use Rattle.schedule_text.specs.declared.prefixes.Prefix.TheVariants.{Operator};
ghost use Rattle.schedule_text.specs.Fields.{Reads};
ghost use Rattle.schedule_text.specs.Printing.{line_text};
ghost use Rattle.node_gate.specs.Actors.{ActsIf};
ghost use Rattle.program_lines.specs.declared.fault.Fault.TheVariants.{Output};
ghost use Rattle.program_lines.specs.Orders.{IsOrder};
ghost use Rattle.std.specs.String.{string_bytes};
ghost use Rattle.operator_service.specs.Servings.{report_line, event_of_change, IsCarriedOut, IsOrderedAt, IsSpelled, MayStep, ServedText, ServesLine, StepsStopped, StopsOrder, Replies, StopsReply};

use bytes::Bytes;
use memory_growth::{OutOfMemory, text_of};
use node_gate::{Actor, JournaledNode};
use obj_id::Reply;
use private_store::StepAnswer;
use program_lines::{Change, Fault, Order, next_line, read_order};
use schedule_text::{Prefix, answer_line};
use shared_nodes::{NodeList, Report, SharedNode, Totals};
use std::alloc::Global;
use std::io::{BufRead, Write};
use std::str;
use std::sync::Wait;

/// What the operator's lines ended with.
#[derive(Clone, Copy, Debug, PartialEq, Eq)]
pub enum LastLine {
    /// `close`.
    Close,
    /// The last one of the input.
    OfInput,
}

/// Carries out the operator's lines that the reader gives, up to `close` or the end of the input, and writes a line for each
/// but `close`.
///
/// What was read is those lines, each of which spells a change at a node, and `close` if it came; what was written is the
/// answers' lines, in that order. `NotAStep` has the number of the first line, counted from 1, that is none of the operator's,
/// names a node that the cluster doesn't have, or lacks its line feed; every other line is carried out, but for want of memory or a
/// failure of the output. The actor steps what those lines spell, each once and in their order, and nothing else; of a line whose answer
/// nobody got it is not known whether it was stepped.
pub fn serve_text<K: JournaledNode, R: Wait, I: BufRead, O: Write>(
    rt: &R,
    actor: &mut Actor,
    alloc: Global,
    nodes: &NodeList<K>,
    count: u32,
    reader: &mut I,
    writer: &mut O,
) -> Result<LastLine, Fault>
    ensures { ServedText (IsOrderedAt K.receipt_of K.made_at) count (vec_len nodes.now.nodes) actor.old actor.new (I.remaining reader.old) (I.remaining reader.new) (O.contents writer.old) (O.contents writer.new) result }
{
    let mut line = Vec::new(alloc);
    for number in 1..u64::MAX {
        match next_line(reader, &mut line) {
            Err(fault) => return Err(fault),
            Ok(false) => return Ok(LastLine::OfInput),
            Ok(true) => {}
        }
        match serve_line(rt, actor, alloc, nodes, count, number, &line, writer) {
            Err(fault) => return Err(fault),
            Ok(false) => return Ok(LastLine::Close),
            Ok(true) => {}
        }
    }
    // more lines than there are numbers
    Err(Fault::Input)
}

/// Carries out the line of this number, and writes its answer; false if it is `close`. `NotAStep` also if the cluster has no
/// such node.
fn serve_line<K: JournaledNode, R: Wait, O: Write>(
    rt: &R,
    actor: &mut Actor,
    alloc: Global,
    nodes: &NodeList<K>,
    count: u32,
    number: u64,
    line: &[u8],
    writer: &mut O,
) -> Result<bool, Fault>
    ensures ok { IfOk result (ServesLine (IsOrderedAt K.receipt_of K.made_at) count line.now actor.old actor.new (O.contents writer.old) (O.contents writer.new)) }
    ensures err { IfErr result (StopsOrder count (vec_len nodes.now.nodes) number line.now (O.contents writer.old) (O.contents writer.new)) }
    ensures stopped { IfErr result (StepsStopped (IsSpelled count line.now) actor.old actor.new) }
{
    let Some((b'\n', text)) = line.split_last() else {
        return Err(Fault::NotAStep(number))
    };
    match hear_order(alloc, text, count) {
        Err(_) => Err(Fault::NoMemory),
        Ok(None) => Err(Fault::NotAStep(number)),
        Ok(Some(Order::Close)) => Ok(false),
        Ok(Some(Order::Change(node, change))) => match nodes.get(node) {
            None => Err(Fault::NotAStep(number)),
            Some(shared) => match answer_change(rt, actor, alloc, &**shared, node, change, writer) {
                Err(fault) => Err(fault),
                Ok(()) => Ok(true),
            },
        },
    }
}

/// What a line asks for.
fn hear_order(alloc: Global, text: &[u8], nodes: u32) -> Result<Option<Order>, OutOfMemory>
    ensures sound { IfOk result (λ found. IfSome found (IsOrder nodes text.now)) }
    ensures whole { IfOk result (λ found. IsUtf8 text.now → Reads found (IsOrder nodes text.now)) }
{
    match str::from_utf8(text) {
        Ok(text) => read_order(alloc, text, nodes),
        Err(_) => Ok(None),
    }
}

/// Makes a change at the node of this number, and writes the line of the answer.
fn answer_change<K: JournaledNode, R: Wait, O: Write>(
    rt: &R,
    actor: &mut Actor,
    alloc: Global,
    shared: &SharedNode<K>,
    node: u32,
    change: Change,
    writer: &mut O,
) -> Result<(), Fault>
    requires { shared.now.number ≡ node }
    ensures ok { OnOk result (Replies (IsOrderedAt K.receipt_of K.made_at) node change actor.old actor.new (O.contents writer.old) (O.contents writer.new)) }
    ensures err { IfErr result (StopsReply (O.contents writer.old) (O.contents writer.new)) }
    ensures stopped { OnErr result (MayStep (λ e. e ≡ event_of_change change) actor.old actor.new) }
{
    let (reply, _looked_for) = carry_out(rt, actor, shared, change);
    write_answer(alloc, node, reply, writer)
}

/// Makes a change at the node, and gives its reply, with the receipt of its entry there, which was looked for. There is none exactly if the
/// reply is `NoMemory`.
pub(crate) fn carry_out<K: JournaledNode, R: Wait>(
    rt: &R,
    actor: &mut Actor,
    shared: &SharedNode<K>,
    change: Change,
) -> (Reply<Bytes>, Option<K::Receipt>)
    ensures carried { IsCarriedOut (IsOrderedAt K.receipt_of K.made_at) shared.now.number change result.0 result.1 }
    ensures acts { ActsIf result.1 (event_of_change change) actor.old actor.new }
{
    match change {
        Change::Admit { job, quota, key } => shared.admit(rt, actor, job, quota, key),
        Change::Requota(job, quota) => shared.requota(rt, actor, job, quota),
        Change::End(job) => shared.end_job(rt, actor, job),
    }
}

/// Writes the line of an answer to the operator, and hands it over.
fn write_answer<O: Write>(
    alloc: Global,
    node: u32,
    reply: Reply<Bytes>,
    writer: &mut O,
) -> Result<(), Fault>
    ensures ok { OnOk result (Appends (O.contents writer.old) (O.contents writer.new) (line_text (Operator node) (Response reply))) }
    ensures err { IfErr result (StopsReply (O.contents writer.old) (O.contents writer.new)) }
{
    let Ok(line) = answer_line(alloc, Prefix::Operator(node), &StepAnswer::Response(reply)) else {
        return Err(Fault::NoMemory)
    };
    write_out(line.as_bytes(), writer)
}

/// Writes bytes, and hands them over.
pub(crate) fn write_out<O: Write>(bytes: &[u8], writer: &mut O) -> Result<(), Fault>
    ensures ok { OnOk result (Appends (O.contents writer.old) (O.contents writer.new) bytes.now) }
    ensures err { IfErr result (λ fault. fault ≡ Output) }
{
    if writer.write_all(bytes).is_err() {
        return Err(Fault::Output);
    }
    match writer.flush() {
        Ok(()) => Ok(()),
        Err(_) => Err(Fault::Output),
    }
}

/// Writes the line of a report, and hands it over: entries, receipts, those that disagree, messages lost, and keys not erased.
pub fn write_report<O: Write>(alloc: Global, report: &Report, writer: &mut O) -> Result<(), Fault>
    ensures ok { OnOk result (Appends (O.contents writer.old) (O.contents writer.new) (report_line report.now)) }
    ensures err { IfErr result (StopsReply (O.contents writer.old) (O.contents writer.new)) }
{
    let Ok(line) = report_line(alloc, report) else {
        return Err(Fault::NoMemory)
    };
    write_out(line.as_bytes(), writer)
}

/// The line of a report.
pub(crate) fn report_line(alloc: Global, report: &Report) -> Result<String, OutOfMemory>
    ensures { IfOk result (λ line. string_bytes line ≡ report_line report.now) }
{
    let Totals {
        entries,
        receipts,
        disagreeing,
        lost,
        erase_failures,
    } = report.totals();
    text_of!(in alloc; "report {entries} {receipts} {disagreeing} {lost} {erase_failures}\n")
}
