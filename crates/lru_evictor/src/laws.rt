//! What the changes to an order of use are in the definition of a step.
ghost use Rattle.std.specs.Prelude.{◌≡◌, List, Some, None, IsTrue};
ghost use Rattle.obj_id.specs.declared.ids.ObjectId.{ObjectId};
ghost use Rattle.private_store.specs.rules.Tables.{ById, without_entry};
ghost use Rattle.private_store.specs.rules.Shape.{Copy};
ghost use Rattle.private_store.specs.rules.Step.{reordered};
ghost use Rattle.lru_evictor.specs.Orders.{without_id, last_used, touched, AreThere};

/// If each id of an order has its copy, entering an id is what a step does to the order of use that
/// used the id, forgetting one is what a step does that removed its copy, and a step that used nothing
/// and removed nothing leaves the order.
pub fn orders_follow_the_steps()
    ensures used { (order : List ObjectId) (copies : ById Copy) (id : ObjectId) → AreThere copies order
        → last_used id order ≡ reordered order copies (Some id) }
    ensures removed { (order : List ObjectId) (copies : ById Copy) (id : ObjectId) → AreThere copies order
        → without_id id order ≡ reordered order (without_entry copies id) None }
    ensures neither { (order : List ObjectId) (copies : ById Copy) → AreThere copies order
        → order ≡ reordered order copies None }
{}
