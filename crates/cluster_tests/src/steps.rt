//! A world of two nodes, step by step, and two worlds beside each other.
ghost use Rattle.std.specs.Prelude.{◌≡◌, ◌<◌, ◌≤◌, true, length, IfOk};
ghost use Rattle.std.specs.List.{list_all};
ghost use Rattle.job_admission.specs.Admissions.{largest_memory};
ghost use Rattle.world_core.specs.Worlds.{is_within};

use crate::lines::step_of;
use assertions::same;
use memory_growth::{OutOfMemory, lists, texts};
use obj_id::{Command, JobNo, Refusal, Reply, Usage};
use private_store::{Event, Step, StepAnswer};
use run_laws::run_two;
use schedule_text::{Prefix, answer_line};
use std::alloc::Global;
use std::process::Abort;
use std::test::Fail;
use world_core::{ClusterSize, Trace, World};

/// The bytes of a node's memory, if a test needs no other number.
const MEMORY: u64 = 1_073_741_824;

const TWO_NODES: ClusterSize = ClusterSize {
    nodes: 2,
    memory: MEMORY,
};

fn wants_memory(answer: &StepAnswer) -> bool {
    matches!(
        answer,
        StepAnswer::Response(Reply::Refused(Refusal::NoMemory))
    )
}

fn printed(alloc: Global, step: &Step, answer: &StepAnswer) -> Result<String, OutOfMemory> {
    match answer_line(alloc, Prefix::of(step), answer) {
        Ok(line) => Ok(line),
        Err(_) => answer_line(alloc, Prefix::of(step), answer),
    }
}

/// What the job uses at the node; nothing if it isn't live.
fn usage(world: &mut World, node: u32, job: u32) -> Option<Usage>
    requires nodes { length world.old.nodes ≡ 2 }
    requires node { node < 2 }
    ensures { length world.new.nodes ≡ 2 }
{
    let step = Step::At(
        node,
        Event::Call {
            job: JobNo(job),
            session: 1,
            command: Command::Usage,
        },
    );
    match world.step(&step) {
        StepAnswer::Response(Reply::Usage(usage)) => Some(usage),
        _ => None,
    }
}

/// What jobs 1 and 2 use at node 0, and job 1 at node 1.
fn usages(world: &mut World) -> [Option<Usage>; 3]
    requires { length world.old.nodes ≡ 2 }
    ensures { length world.new.nodes ≡ 2 }
{
    [usage(world, 0, 1), usage(world, 0, 2), usage(world, 1, 1)]
}

/// What the world answers to the step, which it is given once more if memory ran out: then nothing has changed.
fn answered(rt: &impl Abort, world: &mut World, step: &Step) -> StepAnswer
    requires nodes { length world.old.nodes ≡ 2 }
    requires place { is_within 2 step.now ≡ true }
    ensures { length world.new.nodes ≡ 2 }
{
    let before = usages(world);
    let answer = world.step(step);
    if wants_memory(&answer) {
        same!(rt; usages(world), before);
        return world.step(step);
    }
    answer
}

/// Checks a row of a line and of what its step is answered.
fn check_row(rt: &impl Abort, alloc: Global, world: &mut World, row: &str) -> Result<(), Fail>
    requires { length world.old.nodes ≡ 2 }
    ensures { length world.new.nodes ≡ 2 }
{
    let (line, due) = row.split_once(" = ").ok_or("no row")?;
    let step = step_of(rt, alloc, line)?;
    let answer = answered(rt, world, &step);
    let response = printed(alloc, &step, &answer)?;
    assert_eq!(rt; response.as_str().strip_suffix("\n"), Some(due), "{row}");
    Ok(())
}

fn new_world(alloc: Global) -> Result<World, OutOfMemory>
    ensures { IfOk result (λ world. length world.nodes ≡ 2) }
{
    match World::new(alloc, TWO_NODES) {
        Ok(world) => Ok(world),
        Err(_) => Ok(World::new(alloc, TWO_NODES)?),
    }
}

/// Checks the rows one after another, in a new world.
fn check(rt: &impl Abort, alloc: Global, rows: &str) -> Result<(), Fail> {
    let mut world = new_world(alloc)?;
    for row in rows.lines() {
        check_row(rt, alloc, &mut world, row)?;
    }
    Ok(())
}

const SESSION: &str = "\
admit 0 1 64 0 = n0 op ok
cmd 0 1 1 create t1.1 20 = n0 j1 s1 placed 0 32
cmd 0 1 1 write t1.1 0 48656c6c6f = n0 j1 s1 ok
cmd 0 1 1 seal t1.1 = n0 j1 s1 ok
cmd 0 1 1 get t1.1 = n0 j1 s1 got 20
cmd 0 1 1 read t1.1 0 20 = n0 j1 s1 bytes 48656c6c6f000000000000000000000000000000
cmd 0 1 1 release t1.1 = n0 j1 s1 ok";

#[test]
fn a_step_that_wanted_memory_can_be_taken_again(rt: HostRuntime) -> Result<(), Fail> {
    check(&rt, rt.alloc(), SESSION)
}

const EVICTION: &str = "\
admit 0 1 32 0 = n0 op ok
admit 0 2 32 0 = n0 op ok
cmd 0 2 1 copy t1.1 32 = n0 j2 s1 placed 0 32
cmd 0 2 1 seal t1.1 = n0 j2 s1 ok
cmd 0 1 1 copy t1.1 32 = n0 j1 s1 placed 0 32
cmd 0 1 1 seal t1.1 = n0 j1 s1 ok
cmd 0 1 1 create t1.2 32 = n0 j1 s1 placed 0 32
cmd 0 1 1 list = n0 j1 s1 list t1.2:created:primary:32
cmd 0 2 1 get t1.1 = n0 j2 s1 got 32";

#[test]
fn an_eviction_that_wanted_memory_can_be_taken_again(rt: HostRuntime) -> Result<(), Fail> {
    check(&rt, rt.alloc(), EVICTION)
}

const DELIVERIES: &str = "\
admit 0 1 64 0 = n0 op ok
cmd 0 1 1 get t1.1 = n0 j1 s1 refused 10 Pending
deliver 1 0 d 1 = net ok
deliver 1 d 0 1 = net ok
deliver 1 d 0 2 = net none
cmd 0 1 1 get t1.1 = n0 j1 s1 refused 4 Absent";

#[test]
fn a_delivery_that_wanted_memory_can_be_made_again(rt: HostRuntime) -> Result<(), Fail> {
    check(&rt, rt.alloc(), DELIVERIES)
}

const FETCH: &str = "\
admit 0 1 64 0 = n0 op ok
admit 1 1 64 0 = n1 op ok
cmd 0 1 1 create t1.1 20 = n0 j1 s1 placed 0 32
cmd 0 1 1 write t1.1 0 48656c6c6f = n0 j1 s1 ok
cmd 0 1 1 seal t1.1 = n0 j1 s1 ok
deliver 1 0 d 1 = net ok
cmd 1 1 1 get t1.1 = n1 j1 s1 refused 10 Pending
deliver 1 1 d 1 = net ok
deliver 1 d 1 1 = net ok
cmd 1 1 1 get t1.1 = n1 j1 s1 refused 10 Pending
deliver 1 1 0 1 = net ok
deliver 1 0 1 1 = net ok
deliver 1 0 1 1 = net ok
cmd 1 1 1 get t1.1 = n1 j1 s1 got 20
cmd 1 1 1 read t1.1 0 5 = n1 j1 s1 bytes 48656c6c6f";

#[test]
fn a_fetch_that_wanted_memory_goes_on(rt: HostRuntime) -> Result<(), Fail> {
    check(&rt, rt.alloc(), FETCH)
}

const WRITES: &str = "\
admit 0 1 32 32 = n0 op ok
cmd 0 1 1 create t1.1 32 = n0 j1 s1 placed 0 32
cmd 0 1 1 seal t1.1 = n0 j1 s1 ok
cmd 0 1 1 create t1.2 32 = n0 j1 s1 refused 10 Pending
cmd 0 1 1 get t1.3 = n0 j1 s1 refused 10 Pending
cmd 0 1 1 usage = n0 j1 s1 usage 32 32 32 32 2 1
end 0 1 = n0 op ok
cmd 0 1 1 usage = n0 j1 s1 refused 1 NotAdmitted";

#[test]
fn asked_writes_that_wanted_memory_can_be_asked_for_again(rt: HostRuntime) -> Result<(), Fail> {
    check(&rt, rt.alloc(), WRITES)
}

const GRANTS: &str = "\
admit 0 1 64 0 = n0 op ok
admit 0 2 64 0 = n0 op ok
cmd 0 1 1 create t1.1 4 = n0 j1 s1 placed 0 16
cmd 0 1 1 write t1.1 0 61626364 = n0 j1 s1 ok
cmd 0 1 1 seal t1.1 = n0 j1 s1 ok
cmd 0 1 1 grant t1.1 2 = n0 j1 s1 ok
cmd 0 1 1 grant t1.1 2 = n0 j1 s1 refused 3 Exists
cmd 0 2 1 grant 1/t1.1 3 = n0 j2 s1 ok
cmd 0 2 1 peek 1/t1.1 0 4 = n0 j2 s1 bytes 61626364
cmd 0 1 1 withdraw t1.1 2 = n0 j1 s1 ok
cmd 0 2 1 withdraw 1/t1.1 3 = n0 j2 s1 refused 13 NotGranted
cmd 0 1 1 grant t1.1 2 = n0 j1 s1 ok
cmd 0 1 1 endtask t1 = n0 j1 s1 ok
cmd 0 2 1 peek 1/t1.1 0 4 = n0 j2 s1 refused 13 NotGranted";

#[test]
fn a_command_of_grants_that_wanted_memory_can_be_taken_again(rt: HostRuntime) -> Result<(), Fail> {
    check(&rt, rt.alloc(), GRANTS)
}

const EVERY_STEP: &str = "\
admit 0 1 64 64 = n0 op ok
admit 1 1 64 0 = n1 op ok
admit 0 2 64 0 = n0 op ok
cmd 0 1 1 create t1.1 32 = n0 j1 s1 placed 0 32
cmd 0 1 1 write t1.1 30 0000 = n0 j1 s1 ok
cmd 0 1 1 seal t1.1 = n0 j1 s1 ok
cmd 0 1 1 copy t2.1 16 = n0 j1 s1 placed 32 16
cmd 0 1 1 seal t2.1 = n0 j1 s1 ok
cmd 0 1 1 borrow t1.1 t3 = n0 j1 s1 ok
cmd 0 1 1 giveup t1.1 t3 = n0 j1 s1 ok
cmd 0 1 1 grant t1.1 2 = n0 j1 s1 ok
cmd 0 2 1 peek 1/t1.1 28 4 = n0 j2 s1 bytes 00000000
cmd 0 2 1 grant 1/t1.1 3 = n0 j2 s1 ok
cmd 0 2 1 list = n0 j2 s1 list 1/t1.1:granted:32:1
cmd 0 1 1 withdraw t1.1 2 = n0 j1 s1 ok
cmd 0 2 1 list = n0 j2 s1 list
deliver 1 0 d 1 = net ok
cmd 1 1 1 get t1.1 = n1 j1 s1 refused 10 Pending
deliver 1 1 d 1 = net ok
deliver 1 d 1 1 = net ok
cmd 1 1 1 get t1.1 = n1 j1 s1 refused 10 Pending
cmd 0 1 1 create t1.2 48 = n0 j1 s1 refused 10 Pending
take 0 = n0 dev work 1 1 write 32
finish 0 1 1 fail = n0 dev ok
cmd 0 1 1 create t1.2 48 = n0 j1 s1 refused 14 DeviceFailed
cmd 0 1 1 create t1.2 48 = n0 j1 s1 refused 10 Pending
take 0 = n0 dev work 1 2 write 32
finish 0 1 2 ok = n0 dev ok
cmd 0 1 1 create t1.2 48 = n0 j1 s1 placed 0 48
deliver 1 1 0 1 = net ok
cmd 0 1 1 delete t1.2 = n0 j1 s1 ok
deliver 1 1 0 1 = net ok
take 0 = n0 dev work 1 3 read 32
finish 0 1 3 damage = n0 dev ok
cmd 0 1 1 get t1.1 = n0 j1 s1 refused 15 Damaged
cmd 0 1 1 get t1.1 = n0 j1 s1 refused 10 Pending
take 0 = n0 dev work 1 4 read 32
finish 0 1 4 ok = n0 dev ok
cmd 0 1 1 get t1.1 = n0 j1 s1 got 32
deliver 1 1 0 1 = net ok
deliver 1 0 1 1 = net ok
deliver 1 0 1 2 = net none
cmd 1 1 1 get t1.1 = n1 j1 s1 got 32
cmd 1 1 1 read t1.1 0 4 = n1 j1 s1 bytes 00000000
cmd 1 1 1 release t1.1 = n1 j1 s1 ok
cmd 0 1 1 leave = n0 j1 s1 ok
quota 0 1 128 64 = n0 op refused 21 NoRoom
quota 0 2 32 0 = n0 op ok
cmd 0 1 1 create t4.1 16 = n0 j1 s1 placed 32 16
cmd 0 1 1 seal t4.1 = n0 j1 s1 ok
cmd 0 1 1 unpin t4.1 t4 = n0 j1 s1 ok
cmd 0 1 1 create t4.2 16 = n0 j1 s1 placed 32 16
cmd 0 1 1 seal t4.2 = n0 j1 s1 ok
cmd 0 1 1 grant t4.2 2 = n0 j1 s1 ok
cmd 0 1 1 endtask t4 = n0 j1 s1 ok
cmd 0 1 1 usage = n0 j1 s1 usage 64 32 64 32 1 0
cmd 0 1 1 list = n0 j1 s1 list t1.1:sealed:primary:32
end 0 1 = n0 op ok
cmd 0 1 1 usage = n0 j1 s1 refused 1 NotAdmitted";

#[test]
fn every_step_that_wanted_memory_can_be_taken_again(rt: HostRuntime) -> Result<(), Fail> {
    check(&rt, rt.alloc(), EVERY_STEP)
}

/// The schedule of these lines.
fn schedule_of(rt: &impl Abort, alloc: Global, lines: &str) -> Result<Vec<Step>, OutOfMemory>
    ensures { IfOk result (λ steps. list_all (is_within 2) steps.items ≡ true) }
{
    let mut steps = Vec::new(alloc);
    for line in lines.lines() {
        let step = step_of(rt, alloc, line)?;
        lists::push(&mut steps, step)?;
    }
    Ok(steps)
}

/// What the job was answered, line by line. It is an error if memory ran out in the run.
fn told_to(alloc: Global, job: JobNo, trace: &Trace) -> Result<String, Fail> {
    let mut all = String::new(alloc);
    for entry in trace.entries() {
        if wants_memory(&entry.answer) {
            return Err(Fail::new("no memory for a step"));
        }
        if let Step::At(_, Event::Call { job: of, .. }) = &entry.step {
            if *of == job {
                let line = answer_line(alloc, Prefix::of(&entry.step), &entry.answer)?;
                texts::push_str(&mut all, line.as_str())?;
            }
        }
    }
    Ok(all)
}

/// What job 1 is answered in a run of these lines, and in one of the others.
fn told_in_both(
    rt: &impl Abort,
    alloc: Global,
    memory: u64,
    lines: &str,
    others: &str,
) -> Result<(String, String), Fail>
    requires { memory ≤ largest_memory }
{
    let first = schedule_of(rt, alloc, lines)?;
    let second = schedule_of(rt, alloc, others)?;
    let shape = ClusterSize { nodes: 2, memory };
    let (first, second) = run_two(alloc, shape, first, second)?;
    both_told(alloc, &first, &second)
}

/// What job 1 was answered in both.
fn both_told(alloc: Global, first: &Trace, second: &Trace) -> Result<(String, String), Fail> {
    let response = told_to(alloc, JobNo(1), first)?;
    Ok((response, told_to(alloc, JobNo(1), second)?))
}

const BESIDE: &str = "\
admit 0 1 32 0
admit 0 2 32 0
cmd 0 2 1 copy t1.1 32
cmd 0 2 1 seal t1.1
cmd 0 1 1 copy t1.1 32
cmd 0 1 1 seal t1.1
cmd 0 1 1 create t1.2 32
cmd 0 1 1 list
cmd 0 2 1 get t1.1";

const ALONE: &str = "\
admit 0 1 32 0
cmd 0 1 1 copy t1.1 32
cmd 0 1 1 seal t1.1
cmd 0 1 1 create t1.2 32
cmd 0 1 1 list";

const TOLD: &str = "\
n0 j1 s1 placed 0 32
n0 j1 s1 ok
n0 j1 s1 placed 0 32
n0 j1 s1 list t1.2:created:primary:32
";

/// Checks that job 1 is answered this in both runs, on nodes with so many bytes of memory.
fn check_told_alike(
    rt: &impl Abort,
    alloc: Global,
    memory: u64,
    beside: &str,
    alone: &str,
    response: &str,
) -> Result<(), Fail>
    requires { memory ≤ largest_memory }
{
    let (beside, alone) = told_in_both(rt, alloc, memory, beside, alone)?;
    same!(rt; beside.as_str(), response);
    same!(rt; alone.as_str(), response);
    Ok(())
}

#[test]
fn a_job_is_told_the_same_without_its_neighbour(rt: HostRuntime) -> Result<(), Fail> {
    check_told_alike(&rt, rt.alloc(), MEMORY, BESIDE, ALONE, TOLD)
}

const GRANTS_BESIDE: &str = "\
admit 0 1 64 0
admit 0 2 64 0
admit 0 3 64 0
admit 0 4 64 0
admit 0 5 64 0
cmd 0 1 1 create t1.1 4
cmd 0 1 1 write t1.1 0 61626364
cmd 0 1 1 seal t1.1
cmd 0 1 1 grant t1.1 2
cmd 0 2 1 grant 1/t1.1 3
cmd 0 3 1 grant 1/t1.1 1
cmd 0 3 1 grant 1/t1.1 4
cmd 0 4 1 peek 1/t1.1 0 4
cmd 0 4 1 list
cmd 0 4 1 grant 1/t1.1 5
cmd 0 5 1 grant 1/t1.1 2
cmd 0 1 1 withdraw t1.1 2
cmd 0 3 1 peek 1/t1.1 0 4
cmd 0 4 1 peek 1/t1.1 0 4
cmd 0 2 1 withdraw 1/t1.1 3";

const GRANTS_ALONE: &str = "\
admit 0 1 64 0
admit 0 2 64 0
cmd 0 1 1 create t1.1 4
cmd 0 1 1 write t1.1 0 61626364
cmd 0 1 1 seal t1.1
cmd 0 1 1 grant t1.1 2
cmd 0 1 1 withdraw t1.1 2";

const GRANTS_TOLD: &str = "\
n0 j1 s1 placed 0 16
n0 j1 s1 ok
n0 j1 s1 ok
n0 j1 s1 ok
n0 j1 s1 ok
";

#[test]
fn a_grantor_is_told_the_same_without_those_who_grant_on(rt: HostRuntime) -> Result<(), Fail> {
    check_told_alike(
        &rt,
        rt.alloc(),
        MEMORY,
        GRANTS_BESIDE,
        GRANTS_ALONE,
        GRANTS_TOLD,
    )
}

const QUOTAS_BESIDE: &str = "\
admit 0 1 64 0
admit 0 2 32 0
quota 0 1 80 0
cmd 0 1 1 create t1.1 16
cmd 0 1 1 create t1.2 16
quota 0 1 16 0
cmd 0 1 1 delete t1.2
quota 0 1 16 0
cmd 0 1 1 usage
cmd 0 1 1 create t1.3 17
quota 0 2 64 0
cmd 0 2 1 usage
quota 0 1 48 0
cmd 0 1 1 create t1.3 17
quota 0 7 64 0";

const QUOTAS_ALONE: &str = "\
admit 0 1 64 0
cmd 0 1 1 create t1.1 16
cmd 0 1 1 create t1.2 16
quota 0 1 16 0
cmd 0 1 1 delete t1.2
quota 0 1 16 0
cmd 0 1 1 usage
cmd 0 1 1 create t1.3 17
quota 0 1 48 0
cmd 0 1 1 create t1.3 17
quota 0 7 64 0";

const QUOTAS_TOLD: &str = "\
n0 j1 s1 placed 0 16
n0 j1 s1 placed 16 16
n0 j1 s1 ok
n0 j1 s1 usage 16 16 0 0 1 0
n0 j1 s1 refused 7 BadSize
n0 j1 s1 placed 16 32
";

#[test]
fn a_job_is_told_the_same_without_anothers_quota(rt: HostRuntime) -> Result<(), Fail> {
    check_told_alike(
        &rt,
        rt.alloc(),
        128,
        QUOTAS_BESIDE,
        QUOTAS_ALONE,
        QUOTAS_TOLD,
    )
}
