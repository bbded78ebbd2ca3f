//! What is kept of a job that isn't live.
ghost use Rattle.std.specs.Prelude.{◌≡◌, ℕ, ◌==◌, ◌&&◌, nat_le, not, false, length, None, OnOk, OnErr};
ghost use Rattle.std.specs.List.{list_any};
ghost use Rattle.std.specs.Map.{lookup};
ghost use Rattle.private_store.specs.rules.Jobs.{same_job};
ghost use Rattle.node_journal.specs.Journals.{Tells, fresh, has_entries as has_entries_lem, is_live_in, is_some_entry, folded_if, many_lines, with_notes_absorbed, with_notes_absorbed_if, swept_if};
ghost use Rattle.node_journal.specs.Logs.{journal_of, list_of};

use crate::entries::Line;
use crate::folding::base_of;
use crate::logs::Logs;
use memory_growth::OutOfMemory;
use node_core::Node;
use obj_id::JobNo;
use std::alloc::Global;

/// The lines from which on the list of a job that isn't live is folded, if it has entries: to fold each entry by itself would take
/// longer, and receipts would sooner be of no use.
const MANY_LINES: usize = 64;

/// Sweeps the job's list, if the job isn't live: notes alone become part of the base, many lines with entries are folded, and a
/// job that no step was of is forgotten. If there is no memory for a base nothing changes.
pub(crate) fn sweep_job(
    alloc: Global,
    node: &Node,
    logs: &mut Logs,
    job: JobNo,
) -> Result<(), OutOfMemory>
    requires { ∥ Tells node.now (journal_of logs.old) ∥₁ }
    ensures swept { OnOk result ((other : ℕ) → journal_of logs.new other ≡ swept_if (job.0 == other && not (is_live_in node.now other)) (journal_of logs.old other)) }
    ensures forgotten { OnOk result (is_live_in node.now job.0 ≡ false → has_entries_lem (journal_of logs.old job.0) ≡ false → with_notes_absorbed (journal_of logs.old job.0) ≡ fresh job.0 → lookup (same_job job) logs.new ≡ None) }
    ensures unchanged { OnErr result (logs.new ≡ logs.old) }
{
    if node.usage(job).is_ok() {
        return Ok(());
    }
    if has_entries(logs.list(job)) {
        fold_many(alloc, node, logs, job)
    } else {
        settle_or_forget(alloc, node, logs, job)
    }
}

/// Folds the job's list, if it has many lines, and gives their memory back. If there is no memory for the base nothing changes.
fn fold_many(alloc: Global, node: &Node, logs: &mut Logs, job: JobNo) -> Result<(), OutOfMemory>
    requires { ∥ Tells node.now (journal_of logs.old) ∥₁ }
    ensures folded { OnOk result ((other : ℕ) → journal_of logs.new other ≡ folded_if (job.0 == other && nat_le many_lines (length (list_of logs.old other))) (journal_of logs.old other)) }
    ensures unchanged { OnErr result (logs.new ≡ logs.old) }
{
    if logs.list(job).len() < MANY_LINES {
        return Ok(());
    }
    let base = base_of(alloc, node, logs, job)?;
    logs.fold_away(job, base);
    Ok(())
}

/// Settles the job's notes, and lets go what is kept of it if no step was of it. If there is no memory for its base nothing changes.
fn settle_or_forget(
    alloc: Global,
    node: &Node,
    logs: &mut Logs,
    job: JobNo,
) -> Result<(), OutOfMemory>
    requires { ∥ Tells node.now (journal_of logs.old) ∥₁ }
    ensures absorbed { OnOk result ((other : ℕ) → journal_of logs.new other ≡ with_notes_absorbed_if (job.0 == other) (journal_of logs.old other)) }
    ensures forgotten { OnOk result (with_notes_absorbed (journal_of logs.old job.0) ≡ fresh job.0 → lookup (same_job job) logs.new ≡ None) }
    ensures unchanged { OnErr result (logs.new ≡ logs.old) }
{
    absorb_notes(alloc, node, logs, job)?;
    if logs.seems_fresh(job) {
        logs.forget(job);
    }
    Ok(())
}

/// The job's notes, if there are some, become part of its base. If there is no memory for that nothing changes.
fn absorb_notes(alloc: Global, node: &Node, logs: &mut Logs, job: JobNo) -> Result<(), OutOfMemory>
    requires { ∥ Tells node.now (journal_of logs.old) ∥₁ }
    ensures absorbed { OnOk result ((other : ℕ) → journal_of logs.new other ≡ with_notes_absorbed_if (job.0 == other) (journal_of logs.old other)) }
    ensures unchanged { OnErr result (logs.new ≡ logs.old) }
{
    if logs.list(job).is_empty() {
        return Ok(());
    }
    let base = base_of(alloc, node, logs, job)?;
    logs.absorb_notes(job, base);
    Ok(())
}

/// Whether one of the lines is an entry.
fn has_entries(lines: &[Line]) -> bool
    ensures { result ≡ list_any is_some_entry lines.now }
{
    lines.iter().any(|line| line.is_some_entry())
}
