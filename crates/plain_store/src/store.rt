//! A job's store without contents.
ghost use Rattle.std.specs.Prelude.{◌≡◌};
ghost use Rattle.private_store.specs.rules.Replay.{unbegun_replay};
ghost use Rattle.plain_store.specs.Parts.{has_begun as has_begun_lem};

use crate::copies::{PlainCopy, PlainWork};
use crate::job_grants::{GivenGrant, SeenObject};
use obj_id::{JobNo, ObjectId, Quota, TaskNo};
use std::alloc::Global;
use std::collections::BTreeMap;
use std::marker::Model;

/// How far a job is at a node.
#[derive(Clone, Copy, Debug, PartialEq, Eq, Drop)]
pub enum Life {
    /// It was never admitted.
    NotBegun,
    Live,
    Ended,
}

/// A job's store at a node without contents, with the order of use. A contract sees it as the private store's.
#[derive(Debug, Drop)]
pub struct PlainStore {
    pub job: JobNo,
    pub life: Life,
    pub quota: Quota,
    pub copies: BTreeMap<ObjectId, PlainCopy>,
    /// The copies that bytes were asked of, least recently used first.
    pub order: Vec<ObjectId>,
    /// In the order asked.
    pub works: Vec<PlainWork>,
    /// The last number that a work had.
    pub works_asked: u64,
    /// The last number that a fetch had.
    pub fetches_begun: u64,
    /// Whether a spill failed since room was last refused for it.
    pub spill_failed: bool,
    /// In the order in which they ended.
    pub ended_tasks: Vec<TaskNo>,
    /// In the order given.
    pub given: Vec<GivenGrant>,
    /// What others granted.
    pub received: BTreeMap<ObjectId, SeenObject>,
}

impl Model for PlainStore {
    ghost use Rattle.private_store.specs.rules.Replay.{ReplayState};

    ghost Value = { ReplayState };

    ghost use Rattle.plain_store.specs.Parts.{life_of};

    ghost view = { λ s. record { shape = record { job = s.job.0; life = life_of s.life; quota = s.quota; copies = s.copies.entries; works = s.works.items; works_asked = s.works_asked; fetches_begun = s.fetches_begun; spill_failed = s.spill_failed; ended_tasks = s.ended_tasks.items; given = s.given.items; received = s.received.entries }; order = s.order.items } };
}

impl PlainStore {
    /// The store of a job that was never admitted, with nothing granted to it. Takes no memory.
    pub fn new(alloc: Global, job: JobNo) -> PlainStore
        ensures { result ≡ unbegun_replay job.0 }
    {
        PlainStore {
            job,
            life: Life::NotBegun,
            quota: Quota {
                window: 0,
                device: 0,
            },
            copies: BTreeMap::new(alloc),
            order: Vec::new(alloc),
            works: Vec::new(alloc),
            works_asked: 0,
            fetches_begun: 0,
            spill_failed: false,
            ended_tasks: Vec::new(alloc),
            given: Vec::new(alloc),
            received: BTreeMap::new(alloc),
        }
    }

    /// Whether the job was ever admitted.
    pub fn has_begun(&self) -> bool
        ensures { result ≡ has_begun_lem self.now.shape.life }
    {
        !matches!(self.life, Life::NotBegun)
    }
}
