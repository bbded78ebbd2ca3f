//! Fields of a line: what each spells alone, and what a few of them spell together.
ghost use Rattle.std.specs.Prelude.{◌≡◌, ◌≢◌, ℕ, slice_index, ◌/◌, ◌<◌, ◌↔◌, IsTrue, false, codes, length, is_ok, IfOk, MatchBool, map};
ghost use Rattle.hex.specs.Hex.{decode_sized, encode_lower};
ghost use Rattle.schedule_text.specs.Fields.{IsAlone, IsBytesField, IsId1, IsIdBytes, IsIdJob, IsIdNumber, IsIdSpan, IsIdTask, IsJob, IsLongNumber, IsNode, IsNumber, IsObject, IsTarget, IsTask1, IsTaskField, Reads};

use bytes::Bytes;
use memory_growth::{OutOfMemory, lists, shared, texts};
use obj_id::numbers::{read_u32, read_u64};
use obj_id::{JobNo, ObjectId, TaskNo};
use std::alloc::Global;

/// A number of 32 bits.
pub fn number(field: &str) -> Option<u32>
    ensures { Reads result (IsNumber field.now) }
{
    read_u32(field)
}

/// A number of 64 bits.
pub fn long_number(field: &str) -> Option<u64>
    ensures { Reads result (IsLongNumber field.now) }
{
    read_u64(field)
}

/// The number of a node, below the number of nodes.
pub fn node(field: &str, nodes: u32) -> Option<u32>
    ensures { Reads result (IsNode nodes field.now) }
{
    let node = number(field)?;
    if node < nodes { Some(node) } else { None }
}

/// A job's number, or 0.
pub fn job(field: &str) -> Option<JobNo>
    ensures { Reads result (IsJob field.now) }
{
    number(field).map(JobNo)
}

/// An object, as the job that speaks names it.
pub fn object(field: &str, job: JobNo) -> Option<ObjectId>
    ensures { Reads result (IsObject job.0 field.now) }
{
    ObjectId::read(field, job).ok()
}

/// A task, by its short text or its digits.
pub fn task(field: &str) -> Option<TaskNo>
    ensures { Reads result (IsTaskField field.now) }
{
    TaskNo::read(field).ok()
}

/// Bytes as digits in lower case, and `-` for none.
pub fn bytes(alloc: Global, field: &str) -> Result<Option<Bytes>, OutOfMemory>
    ensures { IfOk result (λ bytes. Reads bytes (IsBytesField field.now)) }
{
    if field == "-" {
        return Ok(Some(Bytes::new()));
    }
    digits(alloc, field)
}

/// `ID`.
pub fn id(fields: &[&str], job: JobNo) -> Option<ObjectId>
    ensures { Reads result (IsId1 job.0 (map (λ field. field.now) fields.now)) }
{
    let [id] = fields else { return None };
    object(id, job)
}

/// `ID NUMBER`.
pub fn id_number(fields: &[&str], job: JobNo) -> Option<(ObjectId, u32)>
    ensures { Reads result (IsIdNumber job.0 (map (λ field. field.now) fields.now)) }
{
    let [id, other] = fields else { return None };
    target(id, other, job)
}

/// An object and a number, each in its field.
pub fn target(id: &str, other: &str, job: JobNo) -> Option<(ObjectId, u32)>
    ensures { Reads result (IsTarget job.0 id.now other.now) }
{
    Some((object(id, job)?, number(other)?))
}

/// `ID JOB`.
pub fn id_job(fields: &[&str], speaker: JobNo) -> Option<(ObjectId, JobNo)>
    ensures { Reads result (IsIdJob speaker.0 (map (λ field. field.now) fields.now)) }
{
    let [id, other] = fields else { return None };
    object_and_job(id, other, speaker)
}

/// An object and a job, each in its field.
fn object_and_job(id: &str, other: &str, speaker: JobNo) -> Option<(ObjectId, JobNo)>
    ensures { Reads result (λ read. IsObject speaker.0 id.now read.0 × IsJob other.now read.1) }
{
    Some((object(id, speaker)?, job(other)?))
}

/// `ID TASK`.
pub fn id_task(fields: &[&str], job: JobNo) -> Option<(ObjectId, TaskNo)>
    ensures { Reads result (IsIdTask job.0 (map (λ field. field.now) fields.now)) }
{
    let [id, other] = fields else { return None };
    object_and_task(id, other, job)
}

/// An object and a task, each in its field.
fn object_and_task(id: &str, other: &str, job: JobNo) -> Option<(ObjectId, TaskNo)>
    ensures { Reads result (λ read. IsObject job.0 id.now read.0 × IsTaskField other.now read.1) }
{
    Some((object(id, job)?, task(other)?))
}

/// `ID OFF N`.
pub fn id_span(fields: &[&str], job: JobNo) -> Option<((ObjectId, u32), u32)>
    ensures { Reads result (IsIdSpan job.0 (map (λ field. field.now) fields.now)) }
{
    let [id, offset, count] = fields else {
        return None
    };
    Some((target(id, offset, job)?, number(count)?))
}

/// `ID OFF HEX`.
pub fn id_bytes(
    alloc: Global,
    fields: &[&str],
    job: JobNo,
) -> Result<Option<((ObjectId, u32), Bytes)>, OutOfMemory>
    ensures { IfOk result (λ read. Reads read
        (IsIdBytes job.0 (map (λ field. field.now) fields.now))) }
{
    let [id, offset, digits] = fields else {
        return Ok(None)
    };
    let Some(target) = target(id, offset, job) else {
        return Ok(None)
    };
    let Some(payload) = bytes(alloc, digits)? else {
        return Ok(None)
    };
    Ok(Some((target, payload)))
}

/// `TASK`.
pub fn one_task(fields: &[&str]) -> Option<TaskNo>
    ensures { Reads result (IsTask1 (map (λ field. field.now) fields.now)) }
{
    let [other] = fields else { return None };
    task(other)
}

/// No field: the one thing that is meant.
pub fn alone<X: Drop>(fields: &[&str], meant: X) -> Option<X>
    ensures { Reads result (IsAlone (map (λ field. field.now) fields.now) meant) }
{
    if fields.is_empty() { Some(meant) } else { None }
}

/// Bytes as digits in lower case, two for each, of a byte at least.
fn digits(alloc: Global, field: &str) -> Result<Option<Bytes>, OutOfMemory>
    requires { field.now ≢ codes "-" }
    ensures { IfOk result (λ bytes. Reads bytes (IsBytesField field.now)) }
{
    // of any values: each is written
    let mut bytes = lists::copied(alloc, &field.as_bytes()[..field.len() / 2])?;
    if decode_into(field, &mut bytes) {
        as_printed(alloc, bytes, field)
    } else {
        Ok(None)
    }
}

/// Decodes digits of either case, and answers whether they are that.
fn decode_into(field: &str, bytes: &mut [u8]) -> bool
    requires { length bytes.old ≡ length field.now / 2 }
    ensures { MatchBool result
        (decode_sized field.now (length field.now / 2) ≡ Ok bytes.new)
        (is_ok (decode_sized field.now (length field.now / 2)) ≡ false) }
{
    hex::decode_to_slice(field, bytes).is_ok()
}

/// The bytes of a field, if there are any and it is spelled as they are printed.
fn as_printed(alloc: Global, bytes: Vec<u8>, field: &str) -> Result<Option<Bytes>, OutOfMemory>
    requires decoded { decode_sized field.now (length field.now / 2) ≡ Ok bytes.items }
    requires other { field.now ≢ codes "-" }
    ensures { IfOk result (λ bytes. Reads bytes (IsBytesField field.now)) }
{
    if is_printed(alloc, &bytes, field)? {
        Ok(Some(shared::from_vec(bytes)?))
    } else {
        Ok(None)
    }
}

/// Whether the field is what is printed for the bytes, and they are some.
fn is_printed(alloc: Global, bytes: &[u8], field: &str) -> Result<bool, OutOfMemory>
    ensures bytes { (i : ℕ) → slice_index bytes.now i < 256 }
    ensures same { IfOk result (λ same.
        IsTrue same ↔ ((0 < length field.now) × (encode_lower bytes.now ≡ field.now))) }
{
    let printed = texts::encode(alloc, bytes)?;
    Ok(!field.is_empty() && printed.as_str() == field)
}
