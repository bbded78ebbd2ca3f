//! The grants that a job gave, and what others granted to it.
ghost use Rattle.std.specs.Prelude.{◌≡◌, IfOk, OnOk, map};
ghost use Rattle.grants.specs.Private.{as_given, with_taken};
ghost use Rattle.node_core.specs.Hosted.{bytes_here};
ghost use Rattle.row_steps.specs.Beside.{received_by};

use grants::StandingGrant;
use memory_growth::{OutOfMemory, lists, ordered};
use node_core::Node;
use obj_id::{ItemList, JobNo, ObjectId};
use plain_store::{GivenGrant, SeenObject, TakenGrant};
use std::alloc::Global;
use std::collections::BTreeMap;

/// These grants, as their grantor's store has them.
pub(crate) fn plain_given(
    alloc: Global,
    grants: &[StandingGrant],
) -> Result<ItemList<GivenGrant>, OutOfMemory>
    ensures { IfOk result (λ given. given ≡ map as_given grants.now) }
{
    let mut given = Vec::new(alloc);
    for grant in grants {
        let granted = GivenGrant {
            id: grant.id(),
            target: grant.grantee(),
            parent: grant.parent(),
        };
        lists::push(&mut given, granted)?;
    }
    Ok(ItemList::from_vec(given))
}

/// What others granted to the job.
pub(crate) fn received(
    alloc: Global,
    node: &Node,
    job: JobNo,
) -> Result<BTreeMap<ObjectId, SeenObject>, OutOfMemory>
    ensures { IfOk result (λ received. received.entries ≡ received_by (bytes_here node.now.rows) node.now.grants job.0) }
{
    let taken = node.grants().given_to(job)?;
    let mut seen = BTreeMap::new(alloc);
    for grant in taken.as_slice() {
        add_taken(alloc, &mut seen, grant, node.granted_length(&grant.id()))?;
    }
    Ok(seen)
}

/// Another grant to the job, of an object of so many bytes.
fn add_taken(
    alloc: Global,
    seen: &mut BTreeMap<ObjectId, SeenObject>,
    grant: &StandingGrant,
    length: u32,
) -> Result<(), OutOfMemory>
    ensures { OnOk result (seen.new.entries ≡ with_taken (λ id. length) seen.old.entries grant.now) }
{
    let id = grant.id();
    let taken = TakenGrant {
        grantor: grant.grantor(),
        depth: grant.depth(),
    };
    if let Some(object) = seen.get_mut(&id) {
        object.add(taken, length)?;
        return Ok(());
    }
    let mut grants = Vec::new(alloc);
    lists::push(&mut grants, taken)?;
    ordered::insert(seen, id, SeenObject { length, grants })?;
    Ok(())
}
