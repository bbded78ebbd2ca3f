//! A job's store at a node without contents, as a value of its own: made of what the node, the job's row and each copy lend.
#![tactic(auto)]

ghost use Rattle.std.specs.Prelude.{◌≡◌, IfOk, [], if◌then◌else◌};
ghost use Rattle.private_store.specs.rules.Shape.{not_begun, ended, unbegun};
ghost use Rattle.private_store.specs.rules.Contents.{View};
ghost use Rattle.private_store.specs.rules.Replay.{replay_state_of};
ghost use Rattle.plain_store.specs.Parts.{has_begun};
ghost use Rattle.node_core.specs.Hosted.{Shows};

mod copies;
mod job_grants;
mod row;

use job_grants::{plain_given, received};
use memory_growth::OutOfMemory;
use node_core::Node;
use obj_id::{JobNo, ObjectId};
use plain_store::{Life, PlainStore, SeenObject};
use row::plain_row;
use std::alloc::Global;
use std::collections::BTreeMap;

/// The job's store at this node without contents. Of a job that isn't live the node doesn't know whether it ever was,
/// which `begun` tells.
///
/// Takes a walk over the job's copies, works and grants, and memory for each. Changes nothing; the error is out of memory.
pub fn snapshot(
    alloc: Global,
    node: &Node,
    job: JobNo,
    begun: bool,
) -> Result<PlainStore, OutOfMemory>
    ensures { IfOk result (λ plain. (view : View) → Shows node.now job.0 view → has_begun view.shape.life ≡ begun → plain ≡ replay_state_of view) }
{
    let received = received(alloc, node, job)?;
    let Some(row) = node.row(job) else {
        return Ok(without_row(alloc, job, begun, received));
    };
    let given = node.grants().given_by(job)?;
    let given = plain_given(alloc, given.as_slice())?;
    plain_row(alloc, row, node.works(), given, received)
}

/// The store of a job that isn't live, with nothing but what others granted.
fn without_row(
    alloc: Global,
    job: JobNo,
    begun: bool,
    received: BTreeMap<ObjectId, SeenObject>,
) -> PlainStore
    ensures { result ≡ record { shape = record (unbegun job.0) { life = if begun then ended else not_begun; received = received.entries }; order = [] } }
{
    let mut plain = PlainStore::new(alloc, job);
    if begun {
        plain.life = Life::Ended;
    }
    plain.received = received;
    plain
}
