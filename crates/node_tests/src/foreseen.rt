//! What a node foresees of an event, and what the event sends then and was to its job.
use crate::calls::taken;
use crate::lines::event_of;
use assertions::same;
use bytes::Bytes;
use memory_growth::{OutOfMemory, text_of};
use node_core::{Node, NodeOutcome};
use obj_id::{Command, JobNo, Reply};
use private_store::{Event, Judged, WorkVerdict};
use std::alloc::Global;
use std::process::Abort;
use std::test::Fail;

fn word_of(judged: &Option<Judged>) -> &'static str {
    match judged {
        None => "nothing",
        Some(Judged::Begin(_)) => "begin",
        Some(Judged::End) => "end",
        Some(Judged::Answer(_, WorkVerdict::Fine)) => "fine",
        Some(Judged::Call(_, command)) => command_word(command),
        Some(_) => "another",
    }
}

fn command_word(command: &Command<u64>) -> &'static str {
    match command {
        Command::Create { .. } => "create",
        Command::Write { .. } => "write",
        Command::Seal(_) => "seal",
        Command::Get(_) => "get",
        Command::Read { .. } => "read",
        Command::Release(_) => "release",
        Command::Unpin(..) => "unpin",
        Command::Borrow(..) => "borrow",
        Command::GiveUp(..) => "giveup",
        Command::Delete(_) => "delete",
        Command::List => "list",
        Command::Usage => "usage",
        Command::Leave => "leave",
        _ => "another",
    }
}

fn bytes_of(judged: &Option<Judged>) -> u64 {
    match judged {
        Some(Judged::Begin(quota)) => quota.window,
        Some(Judged::Call(_, Command::Create { length: len, .. })) => *len as u64,
        Some(Judged::Call(_, Command::Write { bytes: count, .. })) => *count,
        Some(Judged::Call(_, Command::Read { count: len, .. })) => *len as u64,
        _ => 0,
    }
}

fn reply_word(reply: &Reply<Bytes>) -> &'static str {
    match reply {
        Reply::Ok => "ok",
        Reply::Refused(refusal) => refusal.name(),
        _ => "told",
    }
}

/// How many messages were foreseen at most, how many were sent, the word of the reply, the word of what the event was to
/// its job, and what it counts: bytes of the window, the copy, or what is written or read.
fn described(alloc: Global, most: usize, outcome: &NodeOutcome) -> Result<String, OutOfMemory> {
    let sent = outcome.messages.as_slice().len();
    let response = reply_word(&outcome.reply);
    let judged = word_of(&outcome.judged);
    let bytes = bytes_of(&outcome.judged);
    text_of!(in alloc; "{most} {sent} {response} {judged} {bytes}")
}

/// The job whose work the reply gives: 0 if it gives none.
fn job_given(reply: &Reply<Bytes>) -> JobNo {
    match reply {
        Reply::Work(work) => work.job,
        _ => JobNo(0),
    }
}

/// Checks a row of an event's line and of what is due of it; and of a Take, whose work it was to give.
fn check_row(rt: &impl Abort, alloc: Global, node: &mut Node, row: &str) -> Result<(), Fail> {
    let (line, due) = row.split_once(" = ").ok_or("no row")?;
    let event = event_of(rt, alloc, line)?;
    let most = node.foresee(&event).most_messages;
    let in_turn = node.job_in_turn();
    let outcome = taken(node, &event)?;
    if matches!(&event, Event::Take) {
        same!(rt; job_given(&outcome.reply), in_turn);
    }
    let said = described(alloc, most, &outcome)?;
    assert_eq!(rt; said.as_str(), due, "{row}");
    Ok(())
}

/// Checks the rows one after another, at a new node.
fn check(rt: &impl Abort, alloc: Global, rows: &str) -> Result<(), Fail> {
    let mut node = Node::new(alloc, 0, 1_073_741_824);
    for row in rows.lines() {
        check_row(rt, alloc, &mut node, row)?;
    }
    Ok(())
}

const EVENTS: &str = "\
admit 0 1 64 0 = 0 0 ok begin 64
cmd 0 1 1 create t1.1 20 = 0 0 told create 20
cmd 0 1 1 write t1.1 0 48656c6c6f = 0 0 ok write 5
cmd 0 1 1 seal t1.1 = 1 1 ok seal 0
cmd 0 1 1 get t1.1 = 2 0 told get 0
cmd 0 1 1 read t1.1 0 3 = 0 0 told read 3
cmd 0 1 1 release t1.1 = 0 0 ok release 0
cmd 0 1 1 get t1.2 = 2 1 Pending get 0
cmd 0 1 1 list = 0 0 told list 0
cmd 0 1 1 usage = 0 0 told usage 0
cmd 0 1 1 leave = 0 0 ok leave 0
end 0 1 = 1 1 ok end 0";

#[test]
fn each_event_is_as_foreseen(rt: HostRuntime) -> Result<(), Fail> {
    check(&rt, rt.alloc(), EVENTS)
}

const OPERATOR: &str = "\
admit 0 2 64 0 = 0 0 ok begin 64
admit 0 2 64 0 = 0 0 Exists nothing 0
admit 0 3 15 0 = 0 0 BadSize nothing 0
end 0 3 = 1 0 NotAdmitted nothing 0
cmd 0 3 1 seal t1.1 = 1 0 NotAdmitted seal 0
cmd 0 3 1 create t1.1 20 = 0 0 NotAdmitted create 20";

#[test]
fn what_the_operator_is_refused_is_no_input(rt: HostRuntime) -> Result<(), Fail> {
    check(&rt, rt.alloc(), OPERATOR)
}

const EVICTIONS: &str = "\
admit 0 1 48 0 = 0 0 ok begin 48
cmd 0 1 1 copy t1.1 16 = 0 0 told create 16
cmd 0 1 1 copy t1.2 16 = 1 0 told create 16
cmd 0 1 1 copy t1.3 16 = 2 0 told create 16
cmd 0 1 1 seal t1.1 = 1 1 ok seal 0
cmd 0 1 1 seal t1.2 = 1 1 ok seal 0
cmd 0 1 1 create t1.4 32 = 3 2 told create 32
cmd 0 1 1 create t1.5 16 = 2 0 Full create 16";

#[test]
fn evictions_send_no_more_than_the_copies_that_are_there(rt: HostRuntime) -> Result<(), Fail> {
    check(&rt, rt.alloc(), EVICTIONS)
}

const TASKS: &str = "\
admit 0 1 64 0 = 0 0 ok begin 64
cmd 0 1 1 create t1.1 20 = 0 0 told create 20
cmd 0 1 1 seal t1.1 = 1 1 ok seal 0
cmd 0 1 1 borrow t1.1 t2 = 0 0 ok borrow 0
cmd 0 1 1 unpin t1.1 t1 = 1 0 ok unpin 0
cmd 0 1 1 giveup t1.1 t2 = 1 1 ok giveup 0
cmd 0 1 1 create t1.1 20 = 0 0 told create 20
cmd 0 1 1 delete t1.1 = 1 0 ok delete 0";

#[test]
fn what_no_task_keeps_is_told(rt: HostRuntime) -> Result<(), Fail> {
    check(&rt, rt.alloc(), TASKS)
}

const WORKS: &str = "\
admit 0 1 16 64 = 0 0 ok begin 16
cmd 0 1 1 create t1.1 16 = 0 0 told create 16
cmd 0 1 1 seal t1.1 = 1 1 ok seal 0
cmd 0 1 1 create t1.2 16 = 1 0 Pending create 16
finish 0 1 1 ok = 0 0 Stale nothing 0
take 0 = 0 0 told nothing 0
finish 0 1 1 ok = 0 0 ok fine 0
finish 0 1 1 ok = 0 0 Stale nothing 0
cmd 0 1 1 create t1.2 16 = 1 0 told create 16
cmd 0 1 1 seal t1.2 = 1 1 ok seal 0
cmd 0 1 1 create t1.3 16 = 2 0 Pending create 16
take 0 = 0 0 told nothing 0
end 0 1 = 1 1 ok end 0
finish 0 1 2 ok = 0 0 Stale nothing 0";

#[test]
fn an_answer_is_of_a_work_that_was_taken(rt: HostRuntime) -> Result<(), Fail> {
    check(&rt, rt.alloc(), WORKS)
}
