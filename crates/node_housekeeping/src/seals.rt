//! Which copies are being hashed for a Seal.
ghost use Rattle.std.specs.Prelude.{◌<◌};

use command_kinds::{CommandKind, Outline, Subject};
use obj_id::{Command, JobNo, ObjectId};
use std::array;
use std::sync::{Condvar, Mutex, Wait};

/// How many classes of jobs there are: those whose numbers are the same modulo this.
const CLASSES: usize = 16;

/// How many copies of a class may be hashed at once.
const MOST_SEALS: usize = 4;

/// A copy of a job.
#[derive(Clone, Copy)]
struct Sealing {
    job: JobNo,
    id: ObjectId,
}

impl Sealing {
    /// Whether the command would change or remove the copy.
    fn is_met<B>(&self, job: JobNo, command: &Command<B>) -> bool {
        let outline = Outline::of(command);
        self.job == job && outline.kind.meets_seals() && self.is_subject(outline.subject)
    }

    /// Whether the copy is what a command is about, or of the task that it is about.
    fn is_subject(&self, subject: Subject) -> bool {
        match subject {
            Subject::OwnObject(id) => self.id == id,
            Subject::Task(task) => self.id.task() == task,
            Subject::AnyObject(_) | Subject::All => false,
        }
    }
}

/// What the sessions of a class are hashing.
#[derive(Drop)]
struct SealClass {
    copies: Mutex<[Option<Sealing>; MOST_SEALS]>,
    // one of them is over
    ended: Condvar,
}

/// The copies that sessions of a node are hashing. Their bytes are shared meanwhile: a Write would have them copied under the node's lock, and
/// once removed they would take memory beside the job's window. So what changes or removes such a copy waits.
#[derive(Drop)]
pub struct Seals {
    classes: [SealClass; CLASSES],
}

impl Seals {
    /// None is being hashed.
    pub fn new() -> Seals {
        Seals {
            classes: array::from_fn(|_| SealClass {
                copies: Mutex::new([None; MOST_SEALS]),
                ended: Condvar::new(),
            }),
        }
    }

    /// The copy is being hashed from now on: once fewer than four of the job's class are. No node is locked.
    pub fn begin<R: Wait>(&self, rt: &R, job: JobNo, id: &ObjectId) {
        let class = self.class(job);
        let mut copies = class.ended.wait_while(rt, class.copies.lock(rt), |copies| {
            copies.iter().all(|copy| copy.is_some())
        });
        if let Some(free) = copies.iter_mut().find(|copy| copy.is_none()) {
            *free = Some(Sealing { job, id: *id });
        }
    }

    /// The copy isn't being hashed any more by who began that.
    pub fn end<R: Wait>(&self, rt: &R, job: JobNo, id: &ObjectId) {
        let class = self.class(job);
        let mut copies = class.copies.lock(rt);
        for copy in copies.iter_mut() {
            if let Some(sealing) = copy
                && sealing.job == job
                && sealing.id == *id
            {
                *copy = None;
                break;
            }
        }
        drop(copies);
        class.ended.notify_all();
    }

    /// Whether the command would change or remove a copy that is being hashed.
    pub fn are_met<R: Wait, B>(&self, rt: &R, job: JobNo, command: &Command<B>) -> bool {
        CommandKind::of(command).meets_seals()
            && are_among(&*self.class(job).copies.lock(rt), job, command)
    }

    /// Waits until it wouldn't. No node is locked.
    pub fn await_end<R: Wait, B>(&self, rt: &R, job: JobNo, command: &Command<B>) {
        let class = self.class(job);
        let copies = class.ended.wait_while(rt, class.copies.lock(rt), |copies| {
            are_among(copies, job, command)
        });
        drop(copies);
    }

    /// The class of the job.
    fn class(&self, job: JobNo) -> &SealClass {
        &self.classes[class_of(job)]
    }
}

/// Whether the command would change or remove one of the copies.
fn are_among<B>(copies: &[Option<Sealing>], job: JobNo, command: &Command<B>) -> bool {
    copies.iter().any(|copy| matches!(copy, Some(sealing) if sealing.is_met(job, command)))
}

/// Which class is the job's.
fn class_of(job: JobNo) -> usize
    ensures { result < 16 }
{
    job.0 as usize % CLASSES
}
