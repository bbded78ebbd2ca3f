//! The texts of ids and tasks.
ghost use Rattle.std.specs.Prelude.{◌≡◌, ◌++◌, ◌≤◌, ◌↔◌, codes, decimal, length, IfOk, IfErr, IfSome, IsTrue};
ghost use Rattle.std.specs.String.{string_bytes};
ghost use Rattle.hex.specs.Hex.{encode_lower};
ghost use Rattle.obj_id.specs.Ids.{IsId, IsTask};
ghost use Rattle.obj_id.specs.Texts.{IsIdText, IsOtherText, IsOwnText, IsShortTaskText, IsShortText, IsTaskText, full_task_text, full_text, has_short_text, id_text, numbered_task, short_text, task_number, task_text};
ghost use Rattle.obj_id.specs.declared.ids.ObjectId.{ObjectId};
ghost use Rattle.obj_id.specs.declared.ids.TaskNo.{TaskNo};

use crate::ids::back;
use crate::numbers::{read_u32, read_u64};
use crate::{JobNo, ObjectId, Refusal, TaskNo};
use hex::FromHex;
use memory_growth::{OutOfMemory, text_of, texts};
use std::alloc::Global;

impl ObjectId {
    /// The id that the text names if the job speaks, by its short text or by its digits.
    /// `BadId` if there is none.
    pub fn read(text: &str, job: JobNo) -> Result<ObjectId, Refusal>
        ensures id { IfOk result IsId }
        ensures named { IfOk result (λ id. IsIdText job.0 id text.now) }
        ensures read { (id : ObjectId) → IsId id → IsIdText job.0 id text.now → result ≡ Ok id }
        ensures refused { IfErr result (λ refusal. refusal ≡ Refusal.BadId) }
    {
        if let Ok(id) = ObjectId::read_short(text, job) {
            return Ok(id);
        }
        ObjectId::read_full(text)
    }

    /// The text by which the id is printed if the job speaks: the short one if there is one,
    /// otherwise its digits.
    pub fn write(&self, alloc: Global, job: JobNo) -> Result<String, OutOfMemory>
        ensures { IfOk result (λ text. string_bytes text ≡ id_text job.0 self.now) }
    {
        if self.has_short_text() {
            self.write_short(alloc, job)
        } else {
            self.write_full(alloc)
        }
    }

    /// Whether the id has a short text: whether its task has one.
    pub fn has_short_text(&self) -> bool
        ensures { result ≡ has_short_text self.now.task }
    {
        self.task().has_short_text()
    }

    /// The id whose short text this is if the job speaks: `tN.I` for its own object, `J/tN.I`
    /// for one of another job. `BadId` if there is none.
    pub fn read_short(text: &str, job: JobNo) -> Result<ObjectId, Refusal>
        ensures id { IfOk result IsId }
        ensures spelled { IfOk result (λ id. IsShortText job.0 id text.now) }
        ensures read { (id : ObjectId) → IsId id → IsShortText job.0 id text.now → result ≡ Ok id }
        ensures refused { IfErr result (λ refusal. refusal ≡ Refusal.BadId) }
    {
        let id = match text.split_once('/') {
            None => ObjectId::read_own(text, job),
            Some((owner, name)) => ObjectId::read_other(owner, name, job),
        };
        id.ok_or(Refusal::BadId)
    }

    /// The id's short text if the job speaks.
    pub fn write_short(&self, alloc: Global, job: JobNo) -> Result<String, OutOfMemory>
        requires { IsTrue (has_short_text self.now.task) }
        ensures { IfOk result (λ text. string_bytes text ≡ short_text job.0 self.now) }
    {
        let task = self.task().number();
        let owner = self.job().0;
        let index = self.index();
        if job.0 == owner {
            own_text(alloc, task, index)
        } else {
            other_text(alloc, owner, task, index)
        }
    }

    /// The id whose 56 digits these are, in lower case. `BadId` if there is none.
    pub fn read_full(text: &str) -> Result<ObjectId, Refusal>
        ensures id { IfOk result IsId }
        ensures spelled { IfOk result (λ id. full_text id ≡ text.now) }
        ensures read { (id : ObjectId) → IsId id → full_text id ≡ text.now → result ≡ Ok id }
        ensures refused { IfErr result (λ refusal. refusal ≡ Refusal.BadId) }
    {
        let Ok(bytes) = <[u8; 28]>::from_hex(text) else {
            return Err(Refusal::BadId);
        };
        if !is_lower_case(&bytes, text) {
            return Err(Refusal::BadId);
        }
        ObjectId::from_bytes(&bytes)
    }

    /// The id's 56 digits, in lower case.
    pub fn write_full(&self, alloc: Global) -> Result<String, OutOfMemory>
        ensures { IfOk result (λ text. string_bytes text ≡ full_text self.now) }
    {
        texts::encode(alloc, self.to_bytes())
    }

    /// The other job's object that these texts name, if there is one.
    fn read_other(owner: &str, name: &str, job: JobNo) -> Option<ObjectId>
        ensures id { IfSome result IsId }
        ensures spelled { IfSome result (λ id. IsOtherText job id owner.now name.now) }
        ensures read { (id : ObjectId) → IsId id → IsOtherText job id owner.now name.now
            → result ≡ Some id }
    {
        let number = read_u32(owner)?;
        if job.0 == number {
            return None;
        }
        ObjectId::read_own(name, JobNo(number))
    }

    /// The job's own object whose short text this is, `tN.I`, if there is one.
    fn read_own(text: &str, job: JobNo) -> Option<ObjectId>
        ensures id { IfSome result IsId }
        ensures spelled { IfSome result (λ id. IsOwnText job id text.now) }
        ensures read { (id : ObjectId) → IsId id → IsOwnText job id text.now → result ≡ Some id }
    {
        let (front, back) = text.split_once('.')?;
        let task = TaskNo::read_short(front)?;
        let index = read_u32(back)?;
        ObjectId::new(task, job, index).ok()
    }
}

impl TaskNo {
    /// The task that the text names, as `tN` or by its digits. `BadId` if there is none.
    pub fn read(text: &str) -> Result<TaskNo, Refusal>
        ensures task { IfOk result IsTask }
        ensures named { IfOk result (λ task. IsTaskText task text.now) }
        ensures read { (task : TaskNo) → IsTask task → IsTaskText task text.now → result ≡ Ok task }
        ensures refused { IfErr result (λ refusal. refusal ≡ Refusal.BadId) }
    {
        if let Some(task) = TaskNo::read_short(text) {
            return Ok(task);
        }
        TaskNo::read_full(text)
    }

    /// The text by which the task is printed: `tN` if its first 12 bytes are zero, otherwise its digits.
    pub fn write(&self, alloc: Global) -> Result<String, OutOfMemory>
        ensures { IfOk result (λ text. string_bytes text ≡ task_text self.now) }
    {
        if self.has_short_text() {
            let number = self.number();
            text_of!(in alloc; "t{number}")
        } else {
            self.write_full(alloc)
        }
    }

    /// Whether the task has a short text, `tN`: whether its first 12 bytes are zero.
    pub fn has_short_text(&self) -> bool
        ensures { result ≡ has_short_text self.now }
    {
        self.0[..12].iter().all(|byte| *byte == 0)
    }

    /// The task of a number: 12 bytes of zero, and the number with its highest byte first.
    pub fn numbered(number: u64) -> TaskNo
        ensures { result ≡ numbered_task number }
    {
        let mut bytes = [0; 20];
        bytes[12..20].copy_from_slice(&number.to_be_bytes());
        TaskNo(bytes)
    }

    /// The task whose 40 digits these are, in lower case. `BadId` if there is none.
    pub fn read_full(text: &str) -> Result<TaskNo, Refusal>
        ensures task { IfOk result IsTask }
        ensures spelled { IfOk result (λ task. full_task_text task ≡ text.now) }
        ensures read { (task : TaskNo) → IsTask task → full_task_text task ≡ text.now
            → result ≡ Ok task }
        ensures refused { IfErr result (λ refusal. refusal ≡ Refusal.BadId) }
    {
        let Ok(bytes) = <[u8; 20]>::from_hex(text) else {
            return Err(Refusal::BadId);
        };
        if !is_lower_case(&bytes, text) {
            return Err(Refusal::BadId);
        }
        Ok(TaskNo(bytes))
    }

    /// The task's 40 digits, in lower case.
    pub fn write_full(&self, alloc: Global) -> Result<String, OutOfMemory>
        ensures { IfOk result (λ text. string_bytes text ≡ full_task_text self.now) }
    {
        texts::encode(alloc, self.0)
    }

    /// The task whose short text this is, if there is one.
    fn read_short(text: &str) -> Option<TaskNo>
        ensures task { IfSome result IsTask }
        ensures spelled { IfSome result (λ task. IsShortTaskText task text.now) }
        ensures read { (task : TaskNo) → IsTask task → IsShortTaskText task text.now
            → result ≡ Some task }
    {
        let number = read_u64(text.strip_prefix('t')?)?;
        Some(TaskNo::numbered(number))
    }

    /// The last 8 bytes as a number, with the highest byte first.
    fn number(&self) -> u64
        ensures { result ≡ task_number self.now }
    {
        back(&self.0)
    }
}

/// `tN.I`.
fn own_text(alloc: Global, task: u64, index: u32) -> Result<String, OutOfMemory>
    ensures { IfOk result (λ text. string_bytes text
        ≡ codes "t" ++ decimal task ++ codes "." ++ decimal index) }
{
    text_of!(in alloc; "t{task}.{index}")
}

/// `J/tN.I`.
fn other_text(alloc: Global, owner: u32, task: u64, index: u32) -> Result<String, OutOfMemory>
    ensures { IfOk result (λ text. string_bytes text
        ≡ decimal owner ++ codes "/" ++ (codes "t" ++ decimal task ++ codes "." ++ decimal index)) }
{
    text_of!(in alloc; "{owner}/t{task}.{index}")
}

/// Whether the text is the bytes in digits of lower case.
fn is_lower_case(bytes: &[u8], text: &str) -> bool
    requires { length bytes.now ≤ 28 }
    ensures { IsTrue result ↔ (encode_lower bytes.now ≡ text.now) }
{
    let mut buffer = [0; 56];
    let digits = &mut buffer[..2 * bytes.len()];
    hex::encode_to_slice(bytes, digits).is_ok() && *digits == *text.as_bytes()
}
