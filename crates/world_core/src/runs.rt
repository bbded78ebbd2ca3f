//! Runs of whole schedules.
ghost use Rattle.std.specs.Prelude.{◌≡◌, ℕ, List, [], ◌∷◌, ◌++◌, true, map, IfOk, OnOk, OnErr};
ghost use Rattle.std.specs.List.{list_all};
ghost use Rattle.private_store.specs.rules.Trace.{IsPrivate};
ghost use Rattle.private_store.specs.rules.Shared.{AreSharedAnswers};
ghost use Rattle.world_core.specs.Worlds.{is_shape, is_within};
ghost use Rattle.world_core.specs.Runs.{all_replied};

use crate::{ClusterSize, World};
use memory_growth::{OutOfMemory, lists};
use private_store::{Step, Traced};
use std::alloc::Global;
use std::marker::Model;

/// The steps of a schedule, each with its answer.
#[derive(Drop)]
pub struct Trace {
    entries: Vec<Traced>,
}

impl Model for Trace {
    ghost use Rattle.std.specs.Prelude.{List};
    ghost use Rattle.private_store.specs.declared.schedules.Traced.{Traced};

    ghost Value = { List Traced };

    ghost view = { λ t. t.entries.items };
}

impl Trace {
    /// No steps. Takes no memory.
    fn new(alloc: Global) -> Trace
        ensures { result ≡ [] }
    {
        Trace {
            entries: Vec::new(alloc),
        }
    }

    /// Adds a step with its answer. If memory runs out, the trace is as it was.
    fn push(&mut self, entry: Traced) -> Result<(), OutOfMemory>
        ensures ok { OnOk result (self.new ≡ self.old ++ entry ∷ []) }
        ensures err { OnErr result (self.new ≡ self.old) }
    {
        lists::push(&mut self.entries, entry)?;
        Ok(())
    }

    /// The steps with their answers, in order.
    pub fn entries(&self) -> &[Traced]
        ensures { result.now ≡ self.now }
    {
        &self.entries
    }
}

/// Runs a schedule in a new world.
///
/// For every schedule, and for every job number: the job's replies, but for `NoMemory`, are those of
/// its private cluster, which nobody else uses, on its own inputs; and what neighbours share is answered
/// as it is due. The error is out of memory for the world or the trace; a step that is out of memory is
/// answered `NoMemory`.
pub fn run(alloc: Global, shape: ClusterSize, schedule: Vec<Step>) -> Result<Trace, OutOfMemory>
    requires shape { is_shape shape ≡ true }
    requires places { list_all (is_within shape.nodes) schedule.items ≡ true }
    ensures steps { IfOk result (λ trace. map (λ entry. entry.step) trace ≡ schedule.items) }
    ensures replied { IfOk result (λ trace. all_replied trace ≡ true) }
    ensures shared { IfOk result (λ trace. AreSharedAnswers shape.nodes shape.memory trace) }
    ensures private { IfOk result (λ trace. (job : ℕ) → IsPrivate shape.nodes job trace) }
{
    let mut world = World::new(alloc, shape)?;
    let mut trace = Trace::new(alloc);
    for step in schedule {
        let answer = world.step(&step);
        trace.push(Traced { step, answer })?;
    }
    Ok(trace)
}
