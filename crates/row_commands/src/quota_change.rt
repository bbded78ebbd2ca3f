//! Another quota for the row.
ghost use Rattle.std.specs.Prelude.{◌≡◌, ◌<◌, ℕ, Some, None, IsOk, IsErrOf, OnOk, OnErr};
ghost use Rattle.obj_id.specs.declared.commands.Reply.TheVariants as reply;
ghost use Rattle.obj_id.specs.declared.refusals.Refusal.{Refusal};
ghost use Rattle.memory_growth.specs.declared.OutOfMemory.{OutOfMemory};
ghost use Rattle.obj_id.specs.declared.refusals.Failure.TheVariants.{Refused, Memory};
ghost use Rattle.private_store.specs.declared.inputs.Input.TheVariants as input;
ghost use Rattle.private_store.specs.rules.Contents.{Contents};
ghost use Rattle.job_row.specs.Quotas.{row_requota_check as requota_check_lem, store_check, requoted};
ghost use Rattle.row_steps.specs.Shown.{only, IsShown, RowStep};
ghost use Rattle.row_steps.specs.Beside.{SharedTables, shape_of};

use job_row::JobRow;
use obj_id::limits::GREATEST_DEVICE_QUOTA;
use obj_id::{Failure, Quota, Refusal};

/// Why the job can't have this quota: `BadSize`, `Full` if what it uses isn't within it, or nothing. Takes no walk over
/// the job's copies.
pub fn requota_check(row: &JobRow, quota: Quota) -> Option<Refusal>
    ensures row { result ≡ requota_check_lem row.now quota }
    ensures store { (beside : SharedTables) (contents : Contents) → IsShown row.now beside contents → result ≡ store_check (shape_of row.now beside) quota }
{
    // that the copies lie apart is what the proof needs
    let _copies = row.copies();
    quota_refusal(row, quota)
}

/// The same, by the row alone.
fn quota_refusal(row: &JobRow, quota: Quota) -> Option<Refusal>
    ensures { result ≡ requota_check_lem row.now quota }
{
    let by_window = row.window().resize_check(quota.window);
    if quota.device > GREATEST_DEVICE_QUOTA {
        return Some(Refusal::BadSize);
    }
    if by_window.is_some() {
        return by_window;
    }
    if row.copies().device_bytes() > quota.device {
        Some(Refusal::Full)
    } else {
        None
    }
}

/// A change of quota: the copies keep their places and their bytes. `BadSize`, `Full` as `requota_check` has them,
/// and out of memory last, which a narrower window never is; a failure changes nothing.
pub fn requota(row: &mut JobRow, quota: Quota) -> Result<(), Failure>
    ensures ok { OnOk result ((node : ℕ) (beside : SharedTables) (contents : Contents) → IsShown row.old beside contents → RowStep node row.old beside contents (input.Requota quota) (only reply.Ok) row.new beside) }
    ensures row { OnOk result (row.new ≡ requoted row.old quota) }
    ensures passed { IsOk result → requota_check_lem row.old quota ≡ None }
    ensures refused { (r : Refusal) → IsErrOf result (Refused r) → requota_check_lem row.old quota ≡ Some r }
    ensures memory { (m : OutOfMemory) → IsErrOf result (Memory m) → (row.old.window.quota < quota.window) × (requota_check_lem row.old quota ≡ None) }
    ensures err { OnErr result (row.new ≡ row.old) }
{
    let _copies = row.copies();
    if let Some(refusal) = quota_refusal(row, quota) {
        return Err(Failure::Refused(refusal));
    }
    row.set_quota(quota)?;
    Ok(())
}
