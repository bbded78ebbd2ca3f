//! Fields of a saved journal: marked numbers, where a line stands, and what several inputs share.
ghost use Rattle.std.specs.Prelude.{[], ◌∷◌, ◌<◌, codes};
ghost use Rattle.schedule_text.specs.Fields.{Reads};
ghost use Rattle.journal_text.specs.Fields.{IsAddress, IsCount, IsFetch, IsGrant, IsJobField, HasMark, IsNodeField, IsPositive};

use crate::entry::Address;
use obj_id::{JobNo, ObjectId};
use schedule_text::fields::{long_number, number, object};

/// The nodes of a journal are numbered below this.
const NODES: u32 = 8;

/// A number of 32 bits after a mark.
fn marked(field: &str, mark: char) -> Option<u32>
    requires { mark < 128 }
    ensures { Reads result (HasMark (mark ∷ []) field.now) }
{
    number(field.strip_prefix(mark)?)
}

/// `sSESSION`.
pub(crate) fn session(field: &str) -> Option<u32>
    ensures { Reads result (HasMark (codes "s") field.now) }
{
    marked(field, 's')
}

/// `#N`: a number of bytes, of 64 bits, in place of the bytes.
pub(crate) fn count(field: &str) -> Option<u64>
    ensures { Reads result (IsCount field.now) }
{
    long_number(field.strip_prefix('#')?)
}

/// `nNODE`.
fn node(field: &str) -> Option<u32>
    ensures { Reads result (IsNodeField field.now) }
{
    let node = marked(field, 'n')?;
    if node < NODES { Some(node) } else { None }
}

/// `jJOB`.
fn job(field: &str) -> Option<JobNo>
    ensures { Reads result (IsJobField field.now) }
{
    let job = marked(field, 'j')?;
    if job == 0 { None } else { Some(JobNo(job)) }
}

/// `nNODE jJOB K`, each in its field.
pub(crate) fn address(at: &str, name: &str, line: &str) -> Option<Address>
    ensures { Reads result (IsAddress at.now name.now line.now) }
{
    let node = node(at)?;
    let job = job(name)?;
    let number = number(line)?;
    Some(Address { node, job, number })
}

/// A number of 32 bits that is at least 1.
pub(crate) fn positive(field: &str) -> Option<u32>
    ensures { Reads result (IsPositive field.now) }
{
    let number = number(field)?;
    if number == 0 { None } else { Some(number) }
}

/// `GRANTOR DEPTH`, each in its field.
pub(crate) fn grant(grantor: &str, depth: &str) -> Option<(JobNo, u32)>
    ensures { Reads result (IsGrant grantor.now depth.now) }
{
    let grantor = positive(grantor)?;
    let depth = positive(depth)?;
    Some((JobNo(grantor), depth))
}

/// `ID NUMBER`, an object and the number of its fetch, each in its field.
pub(crate) fn fetch(id: &str, fetch: &str, job: JobNo) -> Option<(ObjectId, u64)>
    ensures { Reads result (IsFetch job.0 id.now fetch.now) }
{
    Some((object(id, job)?, long_number(fetch)?))
}
