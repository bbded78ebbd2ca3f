//! The device works of all jobs.
use assertions::same;
use memory_growth::OutOfMemory;
use obj_id::{JobNo, ObjectId, Refusal, TaskNo, WorkKind};
use spill_work::Works;
use std::alloc::Global;
use std::test::Fail;

const ONE: JobNo = JobNo(1);

const TWO: JobNo = JobNo(2);

fn object(job: JobNo, index: u32) -> Result<ObjectId, Refusal> {
    ObjectId::new(TaskNo::numbered(1), job, index)
}

/// Asks for a write.
fn ask(works: &mut Works, job: JobNo, index: u32) -> Result<u64, Refusal> {
    Ok(works.ask(job, object(job, index)?, WorkKind::Write)?)
}

/// Asks for reads of both objects, if there is room for them.
fn ask_both(alloc: Global, works: &mut Works, ids: [ObjectId; 2]) -> Result<(), OutOfMemory> {
    if works.room_for(TWO, 2) {
        works.ask_all(alloc, TWO, &ids, WorkKind::Read)?;
    }
    Ok(())
}

/// Asks for eight works of each job, and gives the last number of each.
fn asked_of_both(alloc: Global, works: &mut Works) -> Result<[u64; 2], Refusal> {
    for index in 1..7 {
        ask(works, ONE, index)?;
        ask(works, TWO, index)?;
    }
    ask_both(alloc, works, [object(TWO, 7)?, object(TWO, 8)?])?;
    ask(works, ONE, 7)?;
    Ok([ask(works, ONE, 8)?, works.asked(TWO)])
}

#[test]
fn eight_works_are_asked_of_each_job(rt: HostRuntime) {
    let mut works = Works::new(rt.alloc());
    same!(rt; asked_of_both(rt.alloc(), &mut works), Ok([8, 8]));
    same!(rt; (works.in_flight(ONE), works.in_flight(TWO)), (8, 8));
    let first = works.take().map(|work| (work.job, work.number));
    same!(rt; first, Some((ONE, 1)));
}
