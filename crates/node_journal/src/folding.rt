//! Which lists a step folds, and the bases that they are folded into.
ghost use Rattle.std.specs.Prelude.{◌≡◌, ℕ, ◌+◌, ◌<◌, ◌≤◌, ◌==◌, ◌&&◌, ◌||◌, length, IfOk, OnOk};
ghost use Rattle.node_journal.specs.Journals.{Tells, most_lines, list_is_full as has_no_room_lem, lines_due as lines_due_lem, base_after, has_grants as has_grants_lem, is_blank as is_blank_lem};
ghost use Rattle.node_journal.specs.Logs.{journal_of, list_of, AreBases, has_base as has_base_lem};

use crate::logs::Logs;
use memory_growth::{OutOfMemory, lists};
use node_core::Node;
use node_snapshot::snapshot;
use obj_id::JobNo;
use plain_store::PlainStore;
use std::alloc::Global;

/// The lines that a job's list has at most.
pub const MOST_LINES: usize = 8_192;

/// What a job's lines are folded into.
#[derive(Drop)]
pub(crate) struct Base {
    /// The store without contents, as it was after the last folded line.
    pub store: PlainStore,
    /// How many of its works were taken and not answered then: in the order asked, the first ones.
    pub taken: usize,
}

impl Base {
    /// Whether it has a grant to the job that stood.
    pub(crate) fn has_grants(&self) -> bool
        ensures { result ≡ has_grants_lem self.now }
    {
        !self.store.received.is_empty()
    }

    /// Whether the job had not begun, no grant to it stood and no work of it was taken.
    pub(crate) fn is_blank(&self) -> bool
        ensures { result ≡ is_blank_lem self.now }
    {
        self.taken == 0 && !self.store.has_begun() && !self.has_grants()
    }
}

/// The base that the job's lines are folded into: its store at the node, without contents.
pub(crate) fn base_of(
    alloc: Global,
    node: &Node,
    logs: &Logs,
    job: JobNo,
) -> Result<Base, OutOfMemory>
    requires { ∥ Tells node.now (journal_of logs.now) ∥₁ }
    ensures { IfOk result (λ base. base ≡ base_after (journal_of logs.now job.0)) }
{
    Ok(Base {
        store: snapshot(alloc, node, job, logs.has_begun(job))?,
        taken: node.taken(job),
    })
}

/// The bases of those lists that might have no room for what a step makes of this job that tells these grantees of their grants, one
/// for each.
pub(crate) fn bases_of(
    alloc: Global,
    node: &Node,
    logs: &Logs,
    own: JobNo,
    grantees: &[JobNo],
) -> Result<Vec<(JobNo, Base)>, OutOfMemory>
    requires response { ∥ Tells node.now (journal_of logs.now) ∥₁ }
    requires few { (job : ℕ) → length (list_of logs.now job) ≤ most_lines }
    requires some { length grantees.now < most_lines }
    ensures stores { IfOk result (λ bases. AreBases bases.items (journal_of logs.now)) }
    ensures full { IfOk result (λ bases. (job : ℕ) → has_base_lem job bases.items ≡ has_no_room_lem own.0 grantees.now job (length (list_of logs.now job))) }
{
    let mut bases = Vec::new(alloc);
    add_base(alloc, node, logs, own, grantees, own, &mut bases)?;
    for grantee in grantees {
        add_base(alloc, node, logs, own, grantees, *grantee, &mut bases)?;
    }
    Ok(bases)
}

/// Adds the base of the job's list, if it might have no room and none is there yet.
fn add_base(
    alloc: Global,
    node: &Node,
    logs: &Logs,
    own: JobNo,
    grantees: &[JobNo],
    job: JobNo,
    bases: &mut Vec<(JobNo, Base)>,
) -> Result<(), OutOfMemory>
    requires response { ∥ Tells node.now (journal_of logs.now) ∥₁ }
    requires few { (job : ℕ) → length (list_of logs.now job) ≤ most_lines }
    requires some { length grantees.now < most_lines }
    requires stores { AreBases bases.old.items (journal_of logs.now) }
    ensures stores { OnOk result (AreBases bases.new.items (journal_of logs.now)) }
    ensures full { OnOk result ((other : ℕ) → has_base_lem other bases.new.items ≡ (has_base_lem other bases.old.items || (job.0 == other && has_no_room_lem own.0 grantees.now other (length (list_of logs.now other))))) }
{
    if has_base(bases, job) || !has_no_room(own, grantees, job, logs.list(job).len()) {
        return Ok(());
    }
    let base = base_of(alloc, node, logs, job)?;
    lists::push(bases, (job, base))?;
    Ok(())
}

/// Whether one of the bases is the job's.
fn has_base(bases: &[(JobNo, Base)], job: JobNo) -> bool
    ensures { result ≡ has_base_lem job.0 bases.now }
{
    bases.iter().any(|entry| entry.0.0 == job.0)
}

/// Whether a list of the job with so many lines might have no room for what the step makes.
fn has_no_room(own: JobNo, grantees: &[JobNo], job: JobNo, lines: usize) -> bool
    requires few { lines ≤ most_lines }
    requires some { length grantees.now < most_lines }
    ensures { result ≡ has_no_room_lem own.0 grantees.now job.0 lines }
{
    lines + lines_due(own, grantees, job) > MOST_LINES
}

/// How many lines of the job the step makes at most.
fn lines_due(own: JobNo, grantees: &[JobNo], job: JobNo) -> usize
    requires { length grantees.now < most_lines }
    ensures due { result ≡ lines_due_lem own.0 grantees.now job.0 }
    ensures few { result ≤ length grantees.now + 1 }
{
    let notes = grantees.iter().filter(|grantee| grantee.0 == job.0).count();
    if own.0 == job.0 { notes + 1 } else { notes }
}
