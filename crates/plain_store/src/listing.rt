//! What List and Usage show.
#![tactic(auto, unfolding(private_store::specs::rules::Change::checked, private_store::specs::rules::Change::needing, private_store::specs::rules::Change::sending))]

ghost use Rattle.std.specs.Prelude.{◌≡◌, ◌≤◌, IfOk, length};
ghost use Rattle.private_store.specs.rules.Limits.{most_copies};
ghost use Rattle.private_store.specs.rules.Commands.{granted_items, list, own_items, usage};

use crate::store::PlainStore;
use memory_growth::{OutOfMemory, lists};
use obj_id::{GrantedItem, ItemList, OwnItem, Reply, Usage};
use std::alloc::Global;

impl PlainStore {
    /// The job's copies, in order of id. The error is out of memory.
    pub(crate) fn own_items(&self, alloc: Global) -> Result<Vec<OwnItem>, OutOfMemory>
        ensures { IfOk result (λ items. items.items ≡ own_items self.now.shape) }
    {
        let items = self.copies.iter().map(|(id, copy)| OwnItem {
            id: *id,
            state: copy.state,
            kind: copy.kind,
            length: copy.length,
        });
        lists::collected(alloc, items)
    }

    /// What others granted, in order of id. The error is out of memory.
    pub(crate) fn granted_items(&self, alloc: Global) -> Result<Vec<GrantedItem>, OutOfMemory>
        ensures { IfOk result (λ items. items.items ≡ granted_items self.now.shape) }
    {
        let items = self.received.iter().map(|(id, seen)| GrantedItem {
            id: *id,
            length: seen.length,
            depth: self.oldest(*id).map_or(0, |grant| grant.depth),
        });
        lists::collected(alloc, items)
    }

    /// List, which changes nothing. The error is out of memory.
    pub(crate) fn list(&self, alloc: Global) -> Result<Reply<u64>, OutOfMemory>
        ensures reply { IfOk result (λ reply. reply ≡ (list self.now.shape).reply) }
        ensures store { (list self.now.shape).shape ≡ self.now.shape }
        ensures used { (list self.now.shape).used ≡ None }
    {
        let own = self.own_items(alloc)?;
        let granted = self.granted_items(alloc)?;
        Ok(Reply::List(ItemList::from_vec(own), ItemList::from_vec(granted)))
    }

    /// Usage, which changes nothing.
    pub(crate) fn usage(&self) -> Reply<u64>
        requires { length self.now.shape.copies ≤ most_copies }
        ensures reply { result ≡ (usage self.now.shape).reply }
        ensures store { (usage self.now.shape).shape ≡ self.now.shape }
        ensures used { (usage self.now.shape).used ≡ None }
    {
        Reply::Usage(Usage {
            window: self.quota.window,
            window_used: self.window_used(),
            device: self.quota.device,
            device_used: self.device_used(),
            copies: self.copies.len() as u64,
            works: self.works.len() as u64,
        })
    }
}
