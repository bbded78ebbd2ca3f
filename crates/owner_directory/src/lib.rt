//! The directory of owners: for each job, where sealed copies of its objects are. A contract sees the
//! locations of each job number, and nothing of one job depends on another's.
#![tactic(auto)]

ghost use Rattle.std.specs.Prelude.{◌≡◌, [], false, IfOk, OnOk, OnErr, IsOk};
ghost use Rattle.obj_id.specs.declared.messages.DirectoryMessage.TheVariants.{AddLocation, RemoveLocation, Free, EndJob};
ghost use Rattle.obj_id.specs.declared.ids.JobNo.{JobNo};
ghost use Rattle.private_store.specs.rules.Directory.{directory_posts, entries_at, entry_placed};
ghost use Rattle.owner_directory.specs.Locations.{locations_of, Applies, answer_posts, needs_memory, is_longer, takes_memory};

mod entries;
mod row;

use crate::row::Row;
use indexmap::IndexMap;
use memory_growth::{OutOfMemory, tables};
use obj_id::{DirectoryMessage, ItemList, JobNo, Location, ObjectId};
use std::alloc::Global;
use std::marker::Model;

/// What the directory answers a message.
#[derive(Debug, Drop)]
pub enum DirectoryReply {
    /// Nothing is sent.
    Nothing,
    /// To the node that asked: the object, the number of its fetch, and all entries by rising node.
    Located {
        to: u32,
        id: ObjectId,
        number: u64,
        entries: ItemList<Location>,
    },
}

/// The locations of all jobs.
pub struct Directory {
    alloc: Global,
    rows: IndexMap<JobNo, Row>,
}

// By hand, so that it is proved here and not in each crate above.
impl Drop for Directory {
    fn drop(self) {
        let Directory {
            alloc: _alloc,
            rows: _rows,
        } = self;
    }
}

impl Model for Directory {
    ghost use Rattle.owner_directory.specs.Locations.{DirectoryRows};

    ghost Value = { DirectoryRows };

    ghost view = { λ d. d.rows.entries };
}

impl Directory {
    /// A directory that knows no object. Takes no memory.
    pub fn new(alloc: Global) -> Directory
        ensures { result ≡ [] }
    {
        Directory {
            alloc,
            rows: IndexMap::new(alloc),
        }
    }

    /// Applies a message of a job to that job's locations, and answers it. Out of memory changes nothing; only
    /// an `AddLocation` of a node without an entry and a `Locate` that finds entries take memory.
    pub fn apply(
        &mut self,
        job: JobNo,
        message: DirectoryMessage,
    ) -> Result<DirectoryReply, OutOfMemory>
        ensures locations { OnOk result (Applies self.old self.new job message) }
        ensures posts { IfOk result (λ reply. answer_posts reply ≡ directory_posts (locations_of self.old job) message) }
        ensures succeeds { needs_memory message ≡ false → IsOk result }
        ensures grows { takes_memory (locations_of self.old job) message ≡ false → IsOk result }
        ensures err { OnErr result (self.new ≡ self.old) }
    {
        match message {
            DirectoryMessage::AddLocation(id, entry) => {
                self.add(job, id, entry)?;
                Ok(DirectoryReply::Nothing)
            }
            DirectoryMessage::RemoveLocation(id, node) => {
                self.remove(job, id, node);
                Ok(DirectoryReply::Nothing)
            }
            DirectoryMessage::Free(id) => {
                self.free(job, id);
                Ok(DirectoryReply::Nothing)
            }
            DirectoryMessage::EndJob(node) => {
                self.end_at(job, node);
                Ok(DirectoryReply::Nothing)
            }
            DirectoryMessage::Locate {
                id,
                node: to,
                number,
            } => {
                let entries = self.located(job, id)?;
                Ok(DirectoryReply::Located {
                    to,
                    id,
                    number,
                    entries,
                })
            }
        }
    }

    /// Sets the entry of its node.
    fn add(&mut self, job: JobNo, id: ObjectId, entry: Location) -> Result<(), OutOfMemory>
        ensures ok { OnOk result (Applies self.old self.new job (AddLocation id entry)) }
        ensures succeeds { is_longer (entry_placed entry (entries_at (locations_of self.old job) id)) (entries_at (locations_of self.old job) id) ≡ false → IsOk result }
        ensures err { OnErr result (self.new ≡ self.old) }
    {
        if let Some(row) = self.rows.get_mut(&job) {
            row.set(self.alloc, id, entry)?;
            return Ok(());
        }
        let mut row = Row::new(self.alloc);
        row.set(self.alloc, id, entry)?;
        tables::insert(&mut self.rows, job, row)?;
        Ok(())
    }

    /// Takes out the node's entry of the object; a row is removed with its last one.
    fn remove(&mut self, job: JobNo, id: ObjectId, node: u32)
        ensures { Applies self.old self.new job (RemoveLocation id node) }
    {
        let Some(row) = self.rows.get_mut(&job) else {
            return;
        };
        row.remove(id, node);
        self.drop_if_empty(job);
    }

    /// Takes out all entries of the object, and the row if it has no others.
    fn free(&mut self, job: JobNo, id: ObjectId)
        ensures { Applies self.old self.new job (Free id) }
    {
        let Some(row) = self.rows.get_mut(&job) else {
            return;
        };
        row.free(id);
        self.drop_if_empty(job);
    }

    /// Takes out all entries of the node, and the row if it has no others.
    fn end_at(&mut self, job: JobNo, node: u32)
        ensures { Applies self.old self.new job (EndJob node) }
    {
        let Some(row) = self.rows.get_mut(&job) else {
            return;
        };
        row.end_at(node);
        self.drop_if_empty(job);
    }

    /// Drops the job's row if it has no locations left.
    fn drop_if_empty(&mut self, job: JobNo)
        ensures { (other : JobNo) → locations_of self.new other ≡ locations_of self.old other }
    {
        let Some(row) = self.rows.get(&job) else {
            return;
        };
        if row.is_empty() {
            self.rows.swap_remove(&job);
        }
    }

    /// A copy of the object's entries.
    fn located(&self, job: JobNo, id: ObjectId) -> Result<ItemList<Location>, OutOfMemory>
        ensures ok { IfOk result (λ entries. entries ≡ entries_at (locations_of self.now job) id) }
        ensures succeeds { entries_at (locations_of self.now job) id ≡ [] → IsOk result }
    {
        match self.rows.get(&job) {
            Some(row) => Ok(row.located(self.alloc, id)?),
            None => Ok(ItemList::new(self.alloc)),
        }
    }
}
