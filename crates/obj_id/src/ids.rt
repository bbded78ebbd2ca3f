//! Tasks, jobs and objects, by name.
ghost use Rattle.std.specs.Prelude.{◌≡◌, ◌++◌, ◌≤◌, take, drop, IfOk, IfErr};
ghost use Rattle.std.specs.Int.{from_be_bytes, w32, w64};
ghost use Rattle.std.specs.Cmp.Rules.{comparing};
ghost use Rattle.std.proofs.Common.{rules, refl, ap};
ghost use Rattle.std.specs.Ordering.{nat_cmp};
ghost use Rattle.std.specs.Cmp.Lexicographic.{bytes_decides, slice_cmp, lists_agrees};
ghost use Rattle.obj_id.specs.Ids.{hashed_task, task_cmp};

use crate::Refusal;
use std::cmp::Ordering;
use std::hash::{Hash, Hasher};
use std::marker::Model;

/// The task that made an object: 20 bytes, all of them allowed. Tasks are ordered as their bytes.
#[derive(Clone, Copy, Debug, PartialEq, Eq, PartialOrd)]
pub struct TaskNo(pub [u8; 20]);

// By hand, so that several bytes are hashed at once.
impl Hash for TaskNo {
    ghost hash_input = { λ task. hashed_task task.0 };

    ghost respects_eq = { λ x y h. ap hashed_task ((bytes_decides x.0 y.0).0 h) };

    fn hash<H: Hasher>(&self, state: &mut H) {
        front(&self.0).hash(state);
        middle(&self.0).hash(state);
        back(&self.0).hash(state);
    }
}

impl Ord for TaskNo {
    ghost cmp = { task_cmp };

    ghost total = { Prim.search (comparing, rules) };

    ghost matches_partial_cmp = { λ x y. lists_agrees (λ a b. refl) x.0 y.0 };

    ghost matches_eq = { Prim.search (comparing, rules) };

    fn cmp(&self, other: &TaskNo) -> Ordering {
        compare(self.0, other.0)
    }
}

/// The order of 20 bytes, several at once: the ids of a job are mostly of few tasks, so that most of their
/// bytes are the same.
fn compare(ours: [u8; 20], others: [u8; 20]) -> Ordering
    ensures { result ≡ slice_cmp nat_cmp ours others }
{
    let (first, other_first) = (front(&ours), front(&others));
    if first != other_first {
        return first.cmp(&other_first);
    }
    let (second, other_second) = (middle(&ours), middle(&others));
    if second != other_second {
        return second.cmp(&other_second);
    }
    back(&ours).cmp(&back(&others))
}

/// The first 8 bytes as a number, with the highest byte first.
fn front(bytes: &[u8; 20]) -> u64
    ensures { result ≡ from_be_bytes w64 (take 8 bytes.now) }
{
    let mut front = [0; 8];
    front.copy_from_slice(&bytes[..8]);
    u64::from_be_bytes(front)
}

/// The 4 bytes between the first 8 and the last 8 as a number, with the highest byte first.
fn middle(bytes: &[u8; 20]) -> u32
    ensures { result ≡ from_be_bytes w32 (take 4 (drop 8 bytes.now)) }
{
    let mut middle = [0; 4];
    middle.copy_from_slice(&bytes[8..12]);
    u32::from_be_bytes(middle)
}

/// The last 8 bytes as a number, with the highest byte first.
pub(crate) fn back(bytes: &[u8; 20]) -> u64
    ensures { result ≡ from_be_bytes w64 (drop 12 bytes.now) }
{
    let mut back = [0; 8];
    back.copy_from_slice(&bytes[12..]);
    u64::from_be_bytes(back)
}

/// A job's number. 0 is the number of no job.
#[derive(Clone, Copy, Debug, PartialEq, Eq, PartialOrd, Ord, Hash)]
pub struct JobNo(pub u32);

/// The name of an object: the task that made it, that task's job, and the object's index in the
/// task. Job and index are at least 1. Ids are ordered as their 28 bytes.
#[derive(Clone, Copy, Debug, PartialEq, Eq, PartialOrd, Ord, Hash)]
pub struct ObjectId {
    task: TaskNo,
    job: JobNo,
    index: u32,
}

impl Model for ObjectId {
    ghost use Rattle.std.specs.Prelude.{◌≤◌};
    ghost use Rattle.obj_id.specs.Parts.{Parts};

    ghost Value = { Parts };

    ghost view = { λ id. record { task = id.task; job = id.job; index = id.index } };

    ghost invariant = { λ id. (1 ≤ id.job.0) × (1 ≤ id.index) };

    ghost inverse = { λ id. record { task = id.task; job = id.job; index = id.index } };
}

impl ObjectId {
    ghost use Rattle.obj_id.specs.Ids.{IsId, id_bytes};

    /// The object's name by its parts. `BadId` if the job or the index is 0.
    pub fn new(task: TaskNo, job: JobNo, index: u32) -> Result<ObjectId, Refusal>
        ensures id { IfOk result IsId }
        ensures made { 1 ≤ job.0 → 1 ≤ index
            → result ≡ Ok (record { task = task; job = job; index = index }) }
        ensures no_job { job.0 ≡ 0 → result ≡ Err Refusal.BadId }
        ensures no_index { index ≡ 0 → result ≡ Err Refusal.BadId }
    {
        if job.0 == 0 || index == 0 {
            return Err(Refusal::BadId);
        }
        Ok(ObjectId { task, job, index })
    }

    /// The id whose 28 bytes these are: 20 of the task, then job and index with the highest byte
    /// first. `BadId` if there is none: at another length, and if the job or the index is 0.
    pub fn from_bytes(bytes: &[u8]) -> Result<ObjectId, Refusal>
        ensures id { IfOk result IsId }
        ensures spelled { IfOk result (λ id. id_bytes id ≡ bytes.now) }
        ensures read { (id : ObjectId) → IsId id → id_bytes id ≡ bytes.now → result ≡ Ok id }
        ensures refused { IfErr result (λ refusal. refusal ≡ Refusal.BadId) }
    {
        let Ok(bytes) = <[u8; 28]>::try_from(bytes) else {
            return Err(Refusal::BadId);
        };
        let mut task = [0; 20];
        task.copy_from_slice(&bytes[..20]);
        let mut job = [0; 4];
        job.copy_from_slice(&bytes[20..24]);
        let mut index = [0; 4];
        index.copy_from_slice(&bytes[24..28]);
        let job = JobNo(u32::from_be_bytes(job));
        ObjectId::new(TaskNo(task), job, u32::from_be_bytes(index))
    }

    /// The 28 bytes of the id.
    pub fn to_bytes(&self) -> [u8; 28]
        ensures id { IsId self.now }
        ensures bytes { result ≡ id_bytes self.now }
    {
        let task = self.task.0;
        let job = self.job.0;
        let index = self.index;
        joined(task, job.to_be_bytes(), index.to_be_bytes())
    }

    /// The task that made the object.
    pub fn task(&self) -> TaskNo
        ensures { result ≡ self.now.task }
    {
        self.task
    }

    /// The job whose object it is, at least 1.
    pub fn job(&self) -> JobNo
        ensures value { result ≡ self.now.job }
        ensures positive { 1 ≤ result.0 }
    {
        self.job
    }

    /// The object's index in its task, at least 1.
    pub fn index(&self) -> u32
        ensures value { result ≡ self.now.index }
        ensures positive { 1 ≤ result }
    {
        self.index
    }
}

/// The bytes of the three parts, one after the other.
fn joined(task: [u8; 20], job: [u8; 4], index: [u8; 4]) -> [u8; 28]
    ensures { result ≡ task ++ job ++ index }
{
    let mut bytes = [0; 28];
    bytes[..20].copy_from_slice(&task);
    bytes[20..24].copy_from_slice(&job);
    bytes[24..28].copy_from_slice(&index);
    bytes
}
