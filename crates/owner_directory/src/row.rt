//! The locations of one job.
ghost use Rattle.std.specs.Prelude.{◌≡◌, ◌≢◌, ◌↔◌, [], false, IsTrue, IfOk, OnOk, OnErr, IsOk};
ghost use Rattle.owner_directory.specs.Locations.{is_longer};
ghost use Rattle.private_store.specs.rules.Tables.{without_entry};
ghost use Rattle.private_store.specs.rules.Directory.{entries_at, entry_placed, with_entries, without_entries_at, without_node};

use crate::entries::Entries;
use memory_growth::{OutOfMemory, ordered};
use obj_id::{ItemList, Location, ObjectId};
use std::alloc::Global;
use std::collections::BTreeMap;
use std::marker::Model;

/// The locations of one job's objects. A contract sees them by rising id, each with its entries.
#[derive(Drop)]
pub struct Row {
    objects: BTreeMap<ObjectId, Entries>,
}

impl Model for Row {
    ghost use Rattle.owner_directory.specs.Locations.{Locations};

    ghost Value = { Locations };

    ghost view = { λ r. r.objects.entries };

    ghost use Rattle.std.specs.List.Sorted.{IsStrictlySortedBy};
    ghost use Rattle.std.specs.Map.{keys_of};
    ghost use Rattle.obj_id.specs.Ids.{id_cmp};

    ghost invariant = { λ r. IsStrictlySortedBy id_cmp (keys_of r.objects.entries) };
}

impl Row {
    /// No locations. Takes no memory.
    pub fn new(alloc: Global) -> Row
        ensures { result ≡ [] }
    {
        Row {
            objects: BTreeMap::new(alloc),
        }
    }

    /// Sets the entry of its node.
    pub fn set(&mut self, alloc: Global, id: ObjectId, entry: Location) -> Result<(), OutOfMemory>
        ensures ok { OnOk result (self.new ≡ with_entries self.old id (entry_placed entry (entries_at self.old id))) }
        ensures succeeds { is_longer (entry_placed entry (entries_at self.old id)) (entries_at self.old id) ≡ false → IsOk result }
        ensures err { OnErr result (self.new ≡ self.old) }
    {
        if let Some(entries) = self.objects.get_mut(&id) {
            return entries.put(entry);
        }
        let mut entries = Entries::new(alloc);
        entries.put(entry)?;
        ordered::insert(&mut self.objects, id, entries)?;
        Ok(())
    }

    /// Takes out the node's entry of the object; an object with none left isn't known any longer.
    pub fn remove(&mut self, id: ObjectId, node: u32)
        ensures { self.new ≡ with_entries self.old id (without_node node (entries_at self.old id)) }
    {
        let Some(entries) = self.objects.get_mut(&id) else {
            return;
        };
        entries.remove(node);
        if entries.is_empty() {
            self.free(id);
        }
    }

    /// Takes out all entries of the object.
    pub fn free(&mut self, id: ObjectId)
        ensures { self.new ≡ without_entry self.old id }
    {
        self.objects.remove(&id);
    }

    /// Takes out all entries of the node; objects with none left aren't known any longer.
    pub fn end_at(&mut self, node: u32)
        ensures { self.new ≡ without_entries_at node self.old }
    {
        self.objects.retain(
            |_, entries|
                ensures left { entries.new ≡ without_node node entries.old }
                ensures some { IsTrue result ↔ (entries.new ≢ []) }
            {
                entries.remove(node);
                !entries.is_empty()
            },
        );
    }

    /// Whether there are none.
    pub fn is_empty(&self) -> bool
        ensures { IsTrue result ↔ (self.now ≡ []) }
    {
        self.objects.is_empty()
    }

    /// A copy of the object's entries.
    pub fn located(&self, alloc: Global, id: ObjectId) -> Result<ItemList<Location>, OutOfMemory>
        ensures ok { IfOk result (λ entries. entries ≡ entries_at self.now id) }
        ensures succeeds { entries_at self.now id ≡ [] → IsOk result }
    {
        match self.objects.get(&id) {
            Some(entries) => entries.to_items(alloc),
            None => Ok(ItemList::new(alloc)),
        }
    }
}
