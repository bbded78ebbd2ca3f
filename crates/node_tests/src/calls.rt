//! The calls of a node that are no events.
ghost use Rattle.std.specs.Prelude.{◌≡◌, true};

use crate::lines::event_of;
use assertions::{holds, same};
use memory_growth::OutOfMemory;
use node_core::{Node, NodeOutcome};
use obj_id::{JobKey, JobNo, ObjectId, Quota, Refusal, Reply, TaskNo, Usage};
use private_store::Event;
use std::alloc::Global;
use std::process::Abort;
use std::test::Fail;

/// A key that no line admits a job with: there it is of zeros.
const KEY: JobKey = JobKey([7; 32]);

const ZEROS: JobKey = JobKey([0; 32]);

/// A length that no Read may carry.
const LONG: usize = 65_552;

/// What the event gives.
pub(crate) fn taken(node: &mut Node, event: &Event) -> Result<NodeOutcome, OutOfMemory> {
    Ok(node.apply(event, Ok(()))?)
}

/// Gives the node an event that it doesn't refuse.
pub(crate) fn accepted(rt: &impl Abort, node: &mut Node, event: &Event) -> Result<(), OutOfMemory> {
    let outcome = taken(node, event)?;
    holds!(rt; !matches!(outcome.reply, Reply::Refused(_)));
    Ok(())
}

/// Gives the node the events of these lines, none of which it refuses.
fn carry_out(rt: &impl Abort, alloc: Global, node: &mut Node, lines: &str) -> Result<(), Fail> {
    for line in lines.lines() {
        let event = event_of(rt, alloc, line)?;
        accepted(rt, node, &event)?;
    }
    Ok(())
}

// What a node's calls promise is long. The tests call them by these, which promise nothing.

fn enter(node: &mut Node, job: u32, key: &JobKey) -> Result<u32, Refusal> {
    node.enter(JobNo(job), key)
}

fn usage(node: &Node, job: u32) -> Result<Usage, Refusal> {
    node.usage(JobNo(job))
}

fn lent(node: &Node, job: u32, session: u32, id: ObjectId) -> Result<&[u8], Refusal> {
    node.read_borrowed(JobNo(job), session, &id)
}

/// What jobs 1 and 2 use.
fn usages(node: &Node) -> [Result<Usage, Refusal>; 2] {
    [usage(node, 1), usage(node, 2)]
}

/// Why session 1 of the job isn't lent the bytes of the other job's object of this number.
fn withheld(node: &Node, job: u32, owner: u32, index: u32) -> Option<Refusal> {
    match ObjectId::new(TaskNo::numbered(1), JobNo(owner), index) {
        Ok(id) => lent(node, job, 1, id).err(),
        Err(refusal) => Some(refusal),
    }
}

/// Whether session 1 of job 1 is lent so many bytes of its object of this number, with these at the end.
fn is_lent(node: &Node, index: u32, len: usize, end: &[u8]) -> bool {
    let Ok(id) = ObjectId::new(TaskNo::numbered(1), JobNo(1), index) else {
        return false;
    };
    match lent(node, 1, 1, id) {
        Ok(bytes) => bytes.len() == len && bytes.starts_with(&[0; 4]) && bytes.ends_with(end),
        Err(_) => false,
    }
}

/// Has sessions enter by right keys and wrong ones: each right one by its job's next number.
fn enter_all(rt: &impl Abort, alloc: Global, node: &mut Node) -> Result<(), Fail> {
    let quota = Quota {
        window: 16,
        device: 0,
    };
    carry_out(rt, alloc, node, "admit 0 1 16 0")?;
    accepted(
        rt,
        node,
        &Event::Admit {
            job: JobNo(2),
            quota,
            key: KEY,
        },
    )?;
    let mut nearly = KEY;
    nearly.0[31] = 6;
    let refused = Err(Refusal::NotAdmitted);
    let response = [
        enter(node, 1, &ZEROS),
        enter(node, 1, &KEY),
        enter(node, 2, &nearly),
        enter(node, 9, &KEY),
        enter(node, 1, &ZEROS),
        enter(node, 2, &KEY),
        enter(node, 1, &ZEROS),
    ];
    same!(rt; response, [Ok(1), refused, refused, refused, Ok(2), Ok(1), Ok(3)]);
    carry_out(rt, alloc, node, "end 0 1")?;
    same!(rt; [enter(node, 1, &ZEROS), enter(node, 2, &KEY)], [refused, Ok(2)]);
    Ok(())
}

#[test]
fn sessions_enter_by_their_jobs_key(rt: HostRuntime) -> Result<(), Fail> {
    let mut node = Node::new(rt.alloc(), 0, 1_048_576);
    enter_all(&rt, rt.alloc(), &mut node)
}

/// Asks for usages, of jobs that live and of one that doesn't, before and after an end.
fn use_all(rt: &impl Abort, alloc: Global, node: &mut Node) -> Result<(), Fail> {
    let lines = "admit 0 1 64 32\nadmit 0 2 64 32\ncmd 0 1 1 create t1.1 20";
    carry_out(rt, alloc, node, lines)?;
    let unused = Usage {
        window: 64,
        window_used: 0,
        device: 32,
        device_used: 0,
        copies: 0,
        works: 0,
    };
    let used = Usage {
        window_used: 32,
        copies: 1,
        ..unused
    };
    same!(rt; usages(node), [Ok(used), Ok(unused)]);
    carry_out(rt, alloc, node, "end 0 1")?;
    same!(rt; usages(node), [Err(Refusal::NotAdmitted), Ok(unused)]);
    Ok(())
}

#[test]
fn usage_is_told_without_a_session(rt: HostRuntime) -> Result<(), Fail> {
    let mut node = Node::new(rt.alloc(), 0, 1_048_576);
    use_all(&rt, rt.alloc(), &mut node)
}

/// A long object, of which the last bytes are written, and one that nobody holds.
const OBJECTS: &str = "\
admit 0 1 131072 0
admit 0 2 131072 0
cmd 0 1 1 create t1.1 65552
cmd 0 1 1 write t1.1 65548 61626364
cmd 0 1 1 create t1.2 16
cmd 0 1 1 create t1.3 16
cmd 0 1 1 seal t1.1
cmd 0 1 1 seal t1.2
cmd 0 1 1 get t1.1";

/// Asks for the bytes of an object that is held, and of others.
fn lend_all(rt: &impl Abort, alloc: Global, node: &mut Node) -> Result<(), Fail> {
    carry_out(rt, alloc, node, OBJECTS)?;
    holds!(rt; is_lent(node, 1, LONG, b"abcd"));
    let own = [
        withheld(node, 1, 1, 1),
        withheld(node, 1, 1, 2),
        withheld(node, 1, 1, 3),
        withheld(node, 1, 1, 4),
    ];
    let due = [
        None,
        Some(Refusal::NotHeld),
        Some(Refusal::NotSealed),
        Some(Refusal::Absent),
    ];
    same!(rt; own, due);
    let foreign = [
        withheld(node, 2, 1, 1),
        withheld(node, 1, 2, 1),
        withheld(node, 1, 9, 1),
    ];
    same!(rt; foreign, [Some(Refusal::NotGranted); 3]);
    let not_live = [withheld(node, 9, 9, 1), withheld(node, 9, 1, 1)];
    same!(rt; not_live, [Some(Refusal::NotAdmitted); 2]);
    Ok(())
}

#[test]
fn a_held_object_is_lent_whole(rt: HostRuntime) -> Result<(), Fail> {
    let mut node = Node::new(rt.alloc(), 0, 1_048_576);
    lend_all(&rt, rt.alloc(), &mut node)
}
