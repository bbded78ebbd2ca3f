//! Laws of traces and of runs of worlds, and two runs beside each other. A law is a function that does nothing; its contract is a theorem
//! about every trace or run, whatever its schedule is.
#![tactic(auto)]

pub mod grant_laws;

ghost use Rattle.std.specs.Prelude.{◌≡◌, ℕ, List, true, filter, IfOk};
ghost use Rattle.std.specs.List.{list_all};
ghost use Rattle.private_store.specs.declared.schedules.Step.{Step};
ghost use Rattle.private_store.specs.declared.schedules.Traced.{Traced};
ghost use Rattle.private_store.specs.rules.Trace.{replies_of, is_answered, Agree};
ghost use Rattle.run_laws.specs.Moments.{AtEachMoment};
ghost use Rattle.run_laws.specs.Telling.{heard_where_due, counting, ShowsAlike};
ghost use Rattle.world_core.specs.Worlds.{is_shape, is_within};
ghost use Rattle.world_core.specs.Runs.{IsRun};

use memory_growth::OutOfMemory;
use private_store::Step;
use std::alloc::Global;
use world_core::{ClusterSize, Trace, run};

/// The laws of grants hold at every moment of every run: the standing grants of a node are a table; a job sees an object
/// exactly if a chain of at most three of them leads to it; a withdrawal ends in its one step all that hangs on it, and
/// nothing else; and the object of a standing grant is a sealed primary in the window of its own job, with bytes that stay.
pub fn grants_of_a_run()
    ensures { (nodes memory : ℕ) (schedule : List Step) (trace : List Traced) → IsRun nodes memory schedule trace → AtEachMoment nodes trace }
{}

/// What other jobs do with the grants of a job's objects doesn't show to it: two runs in worlds of one shape, whose schedules
/// are the same but for other jobs' Grants, Withdraws and Peeks of its objects, give the job the same inputs and the same
/// replies, if other jobs' other Grants are answered the same in both and no step has memory in one of them alone. Such a
/// Grant need not be: a grant of one object more can be a grant of another less, for a grantor has only so many.
pub fn others_grants_dont_show_in_runs()
    ensures { (nodes memory job : ℕ) (first second : List Step) (a b : List Traced)
        → IsRun nodes memory first a → IsRun nodes memory second b
        → counting (heard_where_due job) job a ≡ counting (heard_where_due job) job b → ShowsAlike nodes job a b }
{}

/// Runs two schedules, each in a new world. A job whose inputs are the same in both is given equal replies, but for want of
/// memory, whatever all others do. Two runs that differ in other jobs' Grants, Withdraws and Peeks of a job's objects alone,
/// as `others_grants_dont_show_in_runs` has it, give the job the same inputs and the same replies. The error is out of
/// memory for a world or a trace.
pub fn run_two(
    alloc: Global,
    shape: ClusterSize,
    first: Vec<Step>,
    second: Vec<Step>,
) -> Result<(Trace, Trace), OutOfMemory>
    requires shape { is_shape shape ≡ true }
    requires first { list_all (is_within shape.nodes) first.items ≡ true }
    requires second { list_all (is_within shape.nodes) second.items ≡ true }
    ensures first { IfOk result (λ traces. IsRun shape.nodes shape.memory first.items traces.0) }
    ensures second { IfOk result (λ traces. IsRun shape.nodes shape.memory second.items traces.1) }
    ensures replies { IfOk result (λ traces. (job : ℕ) → Agree shape.nodes job traces.0 traces.1
        → filter is_answered (replies_of job traces.0) ≡ filter is_answered (replies_of job traces.1)) }
    ensures grants { IfOk result (λ traces. (job : ℕ) → counting (heard_where_due job) job traces.0 ≡ counting (heard_where_due job) job traces.1
        → ShowsAlike shape.nodes job traces.0 traces.1) }
{
    let first = run(alloc, shape, first)?;
    let second = run(alloc, shape, second)?;
    Ok((first, second))
}
