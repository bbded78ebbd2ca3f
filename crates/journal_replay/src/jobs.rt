//! The stores of a replay, by job and node.
ghost use Rattle.std.specs.Prelude.{◌≡◌, [], None, if◌then◌else◌, IfOk, OnOk};
ghost use Rattle.std.specs.Map.{lookup};
ghost use Rattle.private_store.specs.rules.Replay.{replay_after, replay_step, unbegun_replay};
ghost use Rattle.journal_text.specs.Saved.{same_job_place};
ghost use Rattle.journal_replay.specs.States.{state_of};

use indexmap::IndexMap;
use memory_growth::{OutOfMemory, tables};
use obj_id::{JobNo, Reply};
use plain_store::PlainStore;
use private_store::Judged;
use schedule_text::JobAt;
use std::alloc::Global;
use std::marker::Model;

/// The replay of one job at one node: the number of its last line, or 0, and its store.
#[derive(Drop)]
struct JobReplay {
    last: u32,
    store: PlainStore,
}

impl Model for JobReplay {
    ghost use Rattle.private_store.specs.laws.Listed.{IsReplayStateKept};
    ghost use Rattle.journal_replay.specs.States.{JobState};

    ghost Value = { JobState };

    ghost view = { λ r. record { last = r.last; store = r.store } };

    ghost invariant = { λ r. IsReplayStateKept r.store };
}

impl JobReplay {
    /// Of a job that was never admitted.
    fn new(alloc: Global, job: JobNo) -> JobReplay
        ensures { result ≡ record { last = 0; store = unbegun_replay job.0 } }
    {
        JobReplay {
            last: 0,
            store: PlainStore::new(alloc, job),
        }
    }

    /// After the line of this number, and the answer that is due.
    fn step(
        self,
        alloc: Global,
        number: u32,
        input: &Judged,
    ) -> Result<(JobReplay, Reply<u64>), OutOfMemory>
        ensures state { IfOk result (λ r. r.0 ≡ record { last = number; store = replay_after self.store input.now }) }
        ensures due { IfOk result (λ r. r.1 ≡ (replay_step self.store input.now).reply) }
    {
        let (store, due) = self.store.step(alloc, input)?;
        Ok((
            JobReplay {
                last: number,
                store,
            },
            due,
        ))
    }
}

/// The replays of all jobs at all nodes.
#[derive(Drop)]
pub(crate) struct Jobs {
    alloc: Global,
    jobs: IndexMap<JobAt, JobReplay>,
}

impl Model for Jobs {
    ghost use Rattle.std.specs.Prelude.{List};
    ghost use Rattle.schedule_text.specs.declared.lines.JobAt.{JobAt};
    ghost use Rattle.journal_replay.specs.States.{JobState};

    ghost Value = { List (JobAt × JobState) };

    ghost view = { λ m. m.jobs.entries };
}

impl Jobs {
    /// None yet. Takes no memory.
    pub(crate) fn new(alloc: Global) -> Jobs
        ensures { result ≡ [] }
    {
        Jobs {
            alloc,
            jobs: IndexMap::new(alloc),
        }
    }

    /// The number of the last line of the job at the node, or 0.
    pub(crate) fn last(&self, place: JobAt) -> u32
        ensures { result ≡ (state_of self.now place).last }
    {
        match self.jobs.get(&place) {
            Some(replay) => replay.last,
            None => 0,
        }
    }

    /// Steps an input of the job at the node, of the line of this number, and returns the answer that is due.
    pub(crate) fn step(
        &mut self,
        place: JobAt,
        number: u32,
        input: &Judged,
    ) -> Result<Reply<u64>, OutOfMemory>
        ensures states { OnOk result ((other : JobAt) → state_of self.new other ≡ (if same_job_place place other then record { last = number; store = replay_after (state_of self.old place).store input.now } else state_of self.old other)) }
        ensures due { IfOk result (λ due. due ≡ (replay_step (state_of self.old place).store input.now).reply) }
    {
        let replay = self.take_out(place);
        let (replay, due) = replay.step(self.alloc, number, input)?;
        let _ = tables::insert(&mut self.jobs, place, replay)?;
        Ok(due)
    }

    /// Takes out the replay of the job at the node, so that none is there.
    fn take_out(&mut self, place: JobAt) -> JobReplay
        ensures taken { result ≡ state_of self.old place }
        ensures left { (other : JobAt) → lookup (same_job_place other) self.new ≡ (if same_job_place place other then None else lookup (same_job_place other) self.old) }
    {
        match self.jobs.swap_remove(&place) {
            Some(replay) => replay,
            None => JobReplay::new(self.alloc, place.job),
        }
    }
}
