//! The order of use.
ghost use Rattle.std.specs.Prelude.{◌≡◌, ◌&&◌, not, filter, is_some, OnOk};
ghost use Rattle.private_store.specs.rules.Tables.{at};
ghost use Rattle.private_store.specs.rules.Step.{is_used, reordered};

use crate::copies::PlainCopy;
use crate::predicates::same_id;
use crate::store::PlainStore;
use memory_growth::{OutOfMemory, lists};
use obj_id::ObjectId;
use std::collections::BTreeMap;

impl PlainStore {
    /// The order of use after an input that left these copies: of those that are there, and what the input used stands last.
    /// Takes a walk over the order with a look-up each. The error is out of memory.
    pub(crate) fn use_order(&mut self, used: Option<ObjectId>) -> Result<(), OutOfMemory>
        ensures { OnOk result (self.new ≡ record self.old { order = reordered self.old.order self.old.shape.copies used }) }
    {
        keep_others(&mut self.order, &self.copies, &used);
        if let Some(used) = &used {
            lists::push(&mut self.order, *used)?;
        }
        Ok(())
    }
}

/// Whether this is the id that was used.
fn was_used(used: &Option<ObjectId>, id: ObjectId) -> bool
    ensures { result ≡ is_used used.now id }
{
    match used {
        Some(used) => same_id(used, &id),
        None => false,
    }
}

/// Whether there is a copy of the id.
pub(crate) fn has(copies: &BTreeMap<ObjectId, PlainCopy>, id: ObjectId) -> bool
    ensures { result ≡ is_some (at copies.now.entries id) }
{
    copies.contains_key(&id)
}

/// The copies that are there stay in the order, but for the one that was used.
fn keep_others(
    order: &mut Vec<ObjectId>,
    copies: &BTreeMap<ObjectId, PlainCopy>,
    used: &Option<ObjectId>,
)
    ensures { order.new.items ≡ filter (λ id. is_some (at copies.now.entries id) && not (is_used used.now id)) order.old.items }
{
    order.retain(|id| has(copies, *id) && !was_used(used, *id));
}
