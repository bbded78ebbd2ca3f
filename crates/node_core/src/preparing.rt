//! What is prepared for a step before the node is locked. A contract sees nothing of it, since the step is the same without it.
ghost use Rattle.std.specs.Prelude.{◌≡◌};

use crate::Node;
use bytes::Bytes;
use hashed_bytes::Hashed;
use job_row::{JobRow, Prepared};
use obj_id::{ChunkIndex, Command, FetchNo, JobNo, NodeNo, ObjectId};
use row_commands::may_want;

impl Node {
    /// Keeps what was prepared for the next step of the job, and gives back what was kept; or what it is given, if the job isn't
    /// live.
    pub fn prepare(&mut self, job: JobNo, prepared: Prepared) -> Prepared
        ensures { self.new ≡ self.old }
    {
        let Some(row) = self.rows.get_mut(&job) else {
            return prepared;
        };
        row.prepare(prepared)
    }

    /// What was kept of the job that ended last, to be let go once the node isn't locked.
    pub fn take_gone(&mut self) -> Option<JobRow>
        ensures { self.new ≡ self.old }
    {
        self.gone.take()
    }

    /// Whether something would best be prepared for the job's command.
    pub fn wants(&self, job: JobNo, command: &Command<Bytes>) -> bool {
        if !may_want(command) {
            return false;
        }
        match self.rows.get(&job) {
            Some(row) => row_commands::wants(row, command),
            None => false,
        }
    }

    /// How long the object is for which the job's command may place an extent, if that is long.
    pub fn extent_wanted(&self, job: JobNo, command: &Command<Bytes>) -> Option<u32> {
        row_commands::extent_wanted(self.rows.get(&job)?, command)
    }

    /// The bytes of a copy of the job to be hashed, if they can be shared or are few.
    pub fn share_copy(&mut self, job: JobNo, id: &ObjectId) -> Option<Bytes>
        ensures { self.new ≡ self.old }
    {
        let Some(row) = self.rows.get_mut(&job) else {
            return None;
        };
        row_commands::share_copy(row, self.alloc, id)
    }

    /// Takes bytes with their digest, to be compared with those of a copy of the job before a step wants its digest.
    pub fn expect(&mut self, job: JobNo, id: &ObjectId, hashed: Hashed)
        ensures { self.new ≡ self.old }
    {
        let Some(row) = self.rows.get_mut(&job) else {
            return;
        };
        row.expect(id, hashed);
    }

    /// Compares the next 128 KiB of them, and tells whether there is more to compare.
    pub fn compare(&mut self, job: JobNo, id: &ObjectId) -> bool
        ensures { self.new ≡ self.old }
    {
        let Some(row) = self.rows.get_mut(&job) else {
            return false;
        };
        row.compare(id)
    }

    /// How long the job's object is of which no chunk but this one is missing, if its fetch of this number would take it.
    pub fn length_with_last(
        &self,
        job: JobNo,
        from: NodeNo,
        id: &ObjectId,
        number: FetchNo,
        index: ChunkIndex,
        len: usize,
    ) -> Option<u32> {
        row_commands::length_with_last(self.rows.get(&job)?, from, id, number, index, len)
    }

    /// Bytes of a copy of the job: `len` from the offset on, or as many as there are.
    pub fn copy_part(&self, job: JobNo, id: &ObjectId, offset: u32, len: u32) -> Option<Bytes> {
        row_commands::copy_part(self.rows.get(&job)?, self.alloc, id, offset, len)
    }
}
