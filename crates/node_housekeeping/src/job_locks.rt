//! Locks by job, which its sessions take before they lock their node.
ghost use Rattle.std.specs.Prelude.{◌<◌, ◌≤◌};

use obj_id::JobNo;
use std::array;
use std::sync::Mutex;

/// How many locks there are at most.
const MOST_LOCKS: usize = 64;

/// A lock for each class of jobs, which are those whose numbers are the same modulo the number of classes: so a job waits for few others.
#[derive(Drop)]
pub struct JobLocks {
    locks: [Mutex<()>; MOST_LOCKS],
    classes: u32,
    ghost some: { 0 < classes },
    ghost few: { classes ≤ 64 },
}

impl JobLocks {
    /// So many classes, from 1 to 64, whose locks are free.
    pub fn new(classes: u32) -> JobLocks
        requires some { 0 < classes }
        requires few { classes ≤ 64 }
    {
        JobLocks {
            locks: array::from_fn(|_| Mutex::new(())),
            classes,
        }
    }

    /// The lock of the job's class.
    pub fn of(&self, job: JobNo) -> &Mutex<()> {
        &self.locks[class_of(job, self.classes) as usize]
    }
}

/// Which class is the job's.
fn class_of(job: JobNo, classes: u32) -> u32
    requires { 0 < classes }
    ensures { result < classes }
{
    job.0 % classes
}
