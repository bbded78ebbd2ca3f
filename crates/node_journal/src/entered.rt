//! A session that a node let in.
ghost use Rattle.std.specs.Prelude.{◌≡◌};

use obj_id::{JobKey, JobNo};
use std::marker::PhantomData;
use std::sync::ledger::Ledger;

/// A session that a node let into a job, which showed this key: `Kept::enter` alone makes one, each with the job's next number there.
/// It isn't copied.
#[derive(Drop)]
pub struct Entered<L: Ledger> {
    pub(crate) node: u32,
    pub(crate) job: JobNo,
    pub(crate) key: JobKey,
    pub(crate) session: u32,
    pub(crate) name: PhantomData<L>,
}

impl<L: Ledger> Entered<L> {
    /// The job that it was let into.
    pub fn job(&self) -> JobNo
        ensures { result ≡ self.now.job }
    {
        self.job
    }

    /// The number of the session, from 1.
    pub fn session(&self) -> u32
        ensures { result ≡ self.now.session }
    {
        self.session
    }
}
