//! A node's journal: under which job a Take's entry stands, what a fold leaves, and which jobs are listed.
ghost use Rattle.std.specs.Prelude.{◌≡◌};

use assertions::same;
use bytes::Bytes;
use node_journal::{Agreement, Kept, Receipt};
use obj_id::{Command, DeviceAnswer, JobKey, JobNo, Kind, ObjectId, Quota, TaskNo};
use private_store::Event;
use std::alloc::Global;
use std::marker::Brand;
use std::process::Abort;
use std::sync::ledger::{Blank, Ledger};
use std::test::Fail;

const JOB: JobNo = JobNo(1);

const NO_JOB: JobNo = JobNo(0);

const QUOTA: Quota = Quota {
    window: 32,
    device: 64,
};

/// The receipt of a step.
fn stepped<L: Ledger>(kept: &mut Kept<L>, event: &Event) -> Result<Receipt<L>, Fail> {
    Ok(kept.step(event)?.into_parts().receipt)
}

fn called<L: Ledger>(kept: &mut Kept<L>, command: Command<Bytes>) -> Result<(), Fail> {
    stepped(
        kept,
        &Event::Call {
            job: JOB,
            session: 1,
            command,
        },
    )?;
    Ok(())
}

/// A first object fills the window, and a second one asks for its bytes to be written to the device.
fn ask_for_a_work<L: Ledger>(kept: &mut Kept<L>) -> Result<(), Fail> {
    let first = ObjectId::new(TaskNo([0; 20]), JOB, 1).ok().ok_or("no id")?;
    let second = ObjectId::new(TaskNo([0; 20]), JOB, 2).ok().ok_or("no id")?;
    stepped(
        kept,
        &Event::Admit {
            job: JOB,
            quota: QUOTA,
            key: JobKey([0; 32]),
        },
    )?;
    called(
        kept,
        Command::Create {
            id: first,
            kind: Kind::Primary,
            length: 32,
        },
    )?;
    called(kept, Command::Seal(first))?;
    called(
        kept,
        Command::Create {
            id: second,
            kind: Kind::Primary,
            length: 32,
        },
    )
}

/// Whether the journal lists the number 0 and the job, in this order.
fn lists_both<L: Ledger>(kept: &Kept<L>) -> Result<bool, Fail> {
    Ok(kept.jobs()?.as_slice() == [NO_JOB, JOB].as_slice())
}

/// The job that a Take's entry stands under.
fn job_of_a_take<L: Ledger>(kept: &mut Kept<L>) -> Result<JobNo, Fail> {
    let receipt = stepped(kept, &Event::Take)?;
    Ok(receipt.job())
}

/// What the journal says of a receipt; and the number that the fold of its job's list covers, and how many lines are left of it.
fn said_of<L: Ledger>(kept: &Kept<L>, receipt: &Receipt<L>) -> (Agreement, u64, usize) {
    (
        kept.agrees(receipt),
        kept.covered(JOB),
        kept.list(JOB).len(),
    )
}

/// A work that a Take gave is there before a fold, and folded after it.
fn check_fold<L: Ledger, R: Abort>(
    rt: &R,
    kept: &mut Kept<L>,
    given: &Receipt<L>,
) -> Result<(), Fail> {
    same!(rt; (given.job(), given.number()), (JOB, 6));
    same!(rt; said_of(kept, given), (Agreement::Yes, 0, 5));
    kept.checkpoint(JOB)?;
    same!(rt; said_of(kept, given), (Agreement::Folded, 6, 0));
    Ok(())
}

/// The work is still taken after the fold: the device's answer is one to it.
fn check_answer<L: Ledger, R: Abort>(rt: &R, kept: &mut Kept<L>) -> Result<(), Fail> {
    let finished = stepped(
        kept,
        &Event::Finish {
            job: JOB,
            number: 1,
            answer: DeviceAnswer::Done,
        },
    )?;
    same!(rt; (finished.input().is_some(), kept.list(JOB).len()), (true, 1));
    Ok(())
}

fn check_journal<L: Ledger, R: Abort>(rt: &R, kept: &mut Kept<L>) -> Result<(), Fail> {
    // nobody's work waits
    same!(rt; job_of_a_take(kept)?, NO_JOB);
    ask_for_a_work(kept)?;
    let given = stepped(kept, &Event::Take)?;
    check_fold(rt, kept, &given)?;
    check_answer(rt, kept)?;
    same!(rt; lists_both(kept)?, true);
    Ok(())
}

fn try_journal<L: Ledger, R: Abort>(rt: &R, alloc: Global, blank: Blank) -> Result<(), Fail>
    requires name { blank.name ≡ L.name }
    requires parts { blank.parts ≡ L.parts }
    requires one { blank.parts ≡ 1 }
{
    let (_book, seat) = blank.open::<L>();
    let mut kept = Kept::new(alloc, 0, 1024, seat);
    check_journal(rt, &mut kept)
}

#[test]
fn a_take_stands_under_the_job_whose_work_it_gives(rt: HostRuntime) -> Result<(), Fail> {
    let blank = Blank::new(1);
    try_journal::<Brand, HostRuntime>(&rt, rt.alloc(), blank)
}
