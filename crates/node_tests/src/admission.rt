//! The live jobs of a node.
use assertions::{holds, same};
use job_admission::Admission;
use obj_id::{Extent, JobKey, JobNo, Quota, Refusal};
use std::test::Fail;

const KEY: JobKey = JobKey([7; 32]);

/// Admits jobs 1 to 20, each with a window of 16 bytes.
fn all_admitted(node: &mut Admission) -> Result<(), Refusal> {
    let quota = Quota {
        window: 16,
        device: 0,
    };
    for job in 1..=20 {
        node.admit(JobNo(job), quota, KEY)?;
    }
    Ok(())
}

#[test]
fn jobs_are_admitted_beside_each_other(rt: HostRuntime) {
    let mut node = Admission::new(rt.alloc(), 4096);
    same!(rt; all_admitted(&mut node), Ok(()));
    let window = Extent {
        offset: 304,
        length: 16,
    };
    same!(rt; (node.live_jobs(), node.window(JobNo(20))), (20, Some(window)));
    holds!(rt; node.key_fits(JobNo(20), &KEY));
}
