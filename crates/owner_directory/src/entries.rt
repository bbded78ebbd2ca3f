//! The entries of one object.
ghost use Rattle.std.specs.Prelude.{◌≡◌, ◌↔◌, [], false, IfOk, OnOk, OnErr, IsOk, IsTrue};
ghost use Rattle.owner_directory.specs.Locations.{is_longer};
ghost use Rattle.private_store.specs.rules.Directory.{entry_placed, without_node};

use memory_growth::{OutOfMemory, lists};
use obj_id::{ItemList, Location};
use std::alloc::Global;
use std::marker::Model;

/// The entries of one object, by rising node and one a node. A contract sees the list.
#[derive(Drop)]
pub struct Entries {
    items: Vec<Location>,
}

impl Model for Entries {
    ghost use Rattle.std.specs.Prelude.{List};
    ghost use Rattle.obj_id.specs.declared.messages.Location.{Location};

    ghost Value = { List Location };

    ghost view = { λ e. e.items.items };
}

impl Entries {
    /// No entries. Takes no memory.
    pub fn new(alloc: Global) -> Entries
        ensures { result ≡ [] }
    {
        Entries {
            items: Vec::new(alloc),
        }
    }

    /// Puts the entry in its place among those of other nodes, or in that of its node's own.
    pub fn put(&mut self, entry: Location) -> Result<(), OutOfMemory>
        ensures ok { OnOk result (self.new ≡ entry_placed entry self.old) }
        ensures succeeds { is_longer (entry_placed entry self.old) self.old ≡ false → IsOk result }
        ensures err { OnErr result (self.new ≡ self.old) }
    {
        put_entry(&mut self.items, entry)
    }

    /// Takes out the node's entry. Takes no memory.
    pub fn remove(&mut self, node: u32)
        ensures { self.new ≡ without_node node self.old }
    {
        self.items.retain(|entry| entry.node != node);
    }

    /// Whether there are none.
    pub fn is_empty(&self) -> bool
        ensures { IsTrue result ↔ (self.now ≡ []) }
    {
        self.items.is_empty()
    }

    /// A copy of the entries.
    pub fn to_items(&self, alloc: Global) -> Result<ItemList<Location>, OutOfMemory>
        ensures ok { IfOk result (λ items. items ≡ self.now) }
        ensures succeeds { self.now ≡ [] → IsOk result }
    {
        if self.is_empty() {
            return Ok(ItemList::new(alloc));
        }
        let items = lists::copied(alloc, &self.items)?;
        Ok(ItemList::from_vec(items))
    }
}

/// Puts the entry in its place.
fn put_entry(entries: &mut Vec<Location>, entry: Location) -> Result<(), OutOfMemory>
    ensures ok { OnOk result (entries.new.items ≡ entry_placed entry entries.old.items) }
    ensures succeeds { is_longer (entry_placed entry entries.old.items) entries.old.items ≡ false → IsOk result }
    ensures err { OnErr result (entries.new.items ≡ entries.old.items) }
{
    let mut at = 0;
    while at < entries.len() && entries[at].node < entry.node {
        at += 1;
    }
    if at < entries.len() && entries[at].node == entry.node {
        entries[at] = entry;
        return Ok(());
    }
    lists::insert(entries, at, entry)?;
    Ok(())
}
