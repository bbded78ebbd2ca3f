//! The store without contents that a row is.
ghost use Rattle.std.specs.Prelude.{◌≡◌, ℕ, List, IfOk};
ghost use Rattle.obj_id.specs.declared.ids.ObjectId.{ObjectId};
ghost use Rattle.private_store.specs.rules.Grants.{StandingGrant as GrantView};
ghost use Rattle.spill_work.specs.Line.{works_of};
ghost use Rattle.row_steps.specs.Beside.{row_given_by, received_by, beside_of, shape_of};

use crate::copies::plain_copies;
use job_row::JobRow;
use lru_evictor::Order;
use memory_growth::{OutOfMemory, lists};
use obj_id::{ItemList, JobNo, ObjectId, WorkKind};
use plain_store::{GivenGrant, Life, PlainStore, PlainWork, SeenObject};
use spill_work::Works;
use std::alloc::Global;
use std::collections::BTreeMap;

/// The row's store without contents, beside its works, the grants that it gave and what others granted to it. Takes a
/// walk over its copies and works, a sort of the copies, and memory for each. The error is out of memory.
pub(crate) fn plain_row(
    alloc: Global,
    row: &JobRow,
    works: &Works,
    given: ItemList<GivenGrant>,
    received: BTreeMap<ObjectId, SeenObject>,
) -> Result<PlainStore, OutOfMemory>
    ensures { IfOk result (λ plain. (grants : List GrantView) (bytes : ObjectId → List ℕ)
        → given ≡ row_given_by grants row.now.job → received.entries ≡ received_by bytes grants row.now.job
        → plain ≡ record { shape = shape_of row.now (beside_of works.now grants bytes row.now.job); order = row.now.order }) }
{
    let job = row.job();
    let copies = plain_copies(alloc, row.copies())?;
    let order = listed(alloc, row.use_order().order())?;
    let ended_tasks = row.ended_tasks(alloc)?;
    let in_flight = plain_works(alloc, works, job)?;
    Ok(PlainStore {
        job,
        life: Life::Live,
        quota: row.quota(),
        copies,
        order,
        works: in_flight,
        works_asked: works.asked(job),
        fetches_begun: row.fetches_begun(),
        spill_failed: row.spill_failed(),
        ended_tasks: ended_tasks.into_vec(),
        given: given.into_vec(),
        received,
    })
}

/// The ids, in their order.
fn listed(alloc: Global, order: Order<'_>) -> Result<Vec<ObjectId>, OutOfMemory>
    ensures { IfOk result (λ ids. ids.items ≡ order.entry) }
{
    let mut ids = Vec::new(alloc);
    for id in order {
        lists::push(&mut ids, id)?;
    }
    Ok(ids)
}

/// The job's works in flight, in the order asked.
fn plain_works(alloc: Global, works: &Works, job: JobNo) -> Result<Vec<PlainWork>, OutOfMemory>
    ensures { IfOk result (λ plain. plain.items ≡ works_of works.now job) }
{
    let asked = works.asked_of(job)?;
    let mut plain = Vec::new(alloc);
    for work in asked.as_slice() {
        let in_flight = PlainWork {
            number: work.number,
            id: work.id,
            writes: matches!(work.kind, WorkKind::Write),
        };
        lists::push(&mut plain, in_flight)?;
    }
    Ok(plain)
}
