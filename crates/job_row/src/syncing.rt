//! The order of use follows what becomes of the copies: where they lie, and in which classes of victims they are.
ghost use Rattle.std.specs.Prelude.{◌≡◌, [], ◌∷◌, List};
ghost use Rattle.obj_id.specs.declared.ids.ObjectId.{ObjectId};
ghost use Rattle.private_store.specs.rules.Tables.{ById};
ghost use Rattle.lru_evictor.specs.Orders.{order_ids};
ghost use Rattle.job_row.specs.Evicting.{all_evicted, without_missing};
ghost use Rattle.row_copy.specs.CopyViews.{CopyView};
ghost use Rattle.job_row.specs.InSync.{InSync, InSyncExcept, SameExceptThese, KeepPlaces, LiesAlone};

use crate::copies::Copies;
use extent_tree::{Resident, SpareNode};
use lru_evictor::UseOrder;
use obj_id::{Extent, ObjectId};

/// After changes of these copies at most, each of which lies where it lay, or nowhere any more. Copies that lie nowhere as far as
/// the order knows may be spared. Takes no memory.
pub(crate) fn sync_each(order: &mut UseOrder, copies: &Copies, ids: &[ObjectId])
    ensures ids { order_ids order.new ≡ order_ids order.old }
    ensures infos { (spared : List ObjectId) (before : ById CopyView) → SameExceptThese ids.now before copies.now → KeepPlaces before copies.now → InSyncExcept spared before order.old → InSyncExcept spared copies.now order.new }
{
    for id in ids {
        order.set_info(id, copies.eviction_info(id));
    }
}

/// Those of these ids that have no copy leave the order of use. Takes no memory.
pub(crate) fn forget_missing(order: &mut UseOrder, copies: &Copies, ids: &[ObjectId])
    ensures ids { order_ids order.new ≡ without_missing copies.now ids.now (order_ids order.old) }
    ensures infos { (spared : List ObjectId) → InSyncExcept spared copies.now order.old → InSyncExcept spared copies.now order.new }
{
    for id in ids {
        if !copies.has(id) {
            order.forget(*id);
        }
    }
}

/// The victims are evicted, and the copy of the id, which lay nowhere as far as the order knew, lies there alone. The order is
/// told so of it last, so that no two copies lie at one offset meanwhile. Uses the spare node, and takes no memory.
pub(crate) fn evict_for(
    order: &mut UseOrder,
    copies: &mut Copies,
    victims: &[ObjectId],
    id: &ObjectId,
    room: SpareNode,
    extent: Extent,
)
    ensures copies { copies.new ≡ all_evicted victims.now copies.old }
    ensures ids { order_ids order.new ≡ without_missing copies.new victims.now (order_ids order.old) }
    ensures infos { LiesAlone copies.new id.now extent → InSyncExcept (id.now ∷ []) copies.old order.old → InSync copies.new order.new }
{
    copies.evict_all(victims);
    sync_each(order, copies, victims);
    forget_missing(order, copies, victims);
    let classes = copies.eviction_info(id).classes;
    order.insert_resident(room, id, Resident { extent, classes });
}
