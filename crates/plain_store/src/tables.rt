//! The copies of a store, by their ids.
ghost use Rattle.std.specs.Prelude.{◌≡◌, OnOk, IfOk, IsTrue};
ghost use Rattle.std.specs.Option.{option_copied, option_copied_mut};
ghost use Rattle.std.specs.Borrow.{sem};
ghost use Rattle.std.specs.FinMap.{is_sorted};
ghost use Rattle.obj_id.specs.Ids.{id_cmp};
ghost use Rattle.private_store.specs.rules.Tables.{at, with_entry};
ghost use Rattle.private_store.specs.rules.Room.{set_copy, drop_copy};

use crate::copies::PlainCopy;
use crate::store::PlainStore;
use memory_growth::{OutOfMemory, ordered};
use obj_id::ObjectId;
use std::alloc::Global;
use std::collections::BTreeMap;

impl PlainStore {
    ghost use Rattle.plain_store.specs.Lending.{LendsCopy};

    /// The copy of the id, if there is one. Takes a look-up.
    pub(crate) fn copy(&self, id: ObjectId) -> Option<&PlainCopy>
        ensures { option_copied result ≡ at self.now.shape.copies id }
    {
        self.copies.get(&id)
    }

    /// The copy of the id, to be changed, if there is one. Takes a look-up.
    pub(crate) fn copy_mut(&mut self, id: ObjectId) -> Option<&mut PlainCopy>
        ensures* writes_back { sem 𝓛 (LendsCopy self.entry id result) }
        ensures value { option_copied_mut result ≡ at self.old.shape.copies id }
    {
        self.copies.get_mut(&id)
    }

    /// The copy under its id, in place of what was there. Takes a look-up. The error is out of memory.
    pub(crate) fn insert(&mut self, id: ObjectId, copy: PlainCopy) -> Result<(), OutOfMemory>
        ensures { OnOk result (self.new ≡ record self.old { shape = set_copy self.old.shape id copy }) }
    {
        put(&mut self.copies, id, copy)
    }

    /// The copy of the id is removed, if there is one. Takes a look-up and no memory.
    pub(crate) fn remove(&mut self, id: ObjectId)
        ensures { self.new ≡ record self.old { shape = drop_copy self.old.shape id } }
    {
        // a map says of its `len` that its keys rise
        let _count = self.copies.len();
        self.copies.remove(&id);
    }
}

/// The copies of a list by their ids. Takes memory for each. The error is out of memory.
pub fn copies_by_id(
    alloc: Global,
    copies: Vec<(ObjectId, PlainCopy)>,
) -> Result<BTreeMap<ObjectId, PlainCopy>, OutOfMemory>
    requires { IsTrue (is_sorted id_cmp copies.items) }
    ensures { IfOk result (λ by_id. by_id.entries ≡ copies.items) }
{
    let mut by_id = BTreeMap::new(alloc);
    for (id, copy) in copies {
        put(&mut by_id, id, copy)?;
    }
    Ok(by_id)
}

/// The copy under its id. The error is out of memory.
fn put(
    copies: &mut BTreeMap<ObjectId, PlainCopy>,
    id: ObjectId,
    copy: PlainCopy,
) -> Result<(), OutOfMemory>
    ensures { OnOk result (copies.new.entries ≡ with_entry copies.old.entries id copy) }
{
    ordered::insert(copies, id, copy)?;
    Ok(())
}
