//! The whole case of a direct caller, with the numbers of its report.
use crate::actors::actor;
use crate::named::Named;
use crate::objects::{admit, is_hello, object, response, seal_hello};
use crate::trials::{Trial, try_out};
use assertions::{holds, same};
use bytes::Bytes;
use memory_growth::OutOfMemory;
use node_gate::JournaledNode;
use obj_id::{Command, JobNo, Quota, Reply};
use shared_nodes::{SharedNode, Totals};
use std::alloc::Global;
use std::process::Abort;
use std::sync::Wait;
use std::test::Fail;

const JOB: JobNo = JobNo(1);

const QUOTA: Quota = Quota {
    window: 64,
    device: 0,
};

/// What lies in the window, and nothing on the device.
const NARROW: Quota = Quota {
    window: 32,
    device: 0,
};

/// The job is admitted, and an object is created, written, sealed, held, read and released. The last receipt.
pub(crate) fn six_commands<K: JournaledNode, R: Wait + Abort>(
    rt: &R,
    alloc: Global,
    node: &SharedNode<K>,
) -> Result<K::Receipt, OutOfMemory> {
    let id = object(rt, JOB, 1);
    admit(rt, node, JOB, QUOTA);
    seal_hello(rt, alloc, node, id)?;
    holds!(rt; matches!(response(rt, node, JOB, Command::Get(id)), Reply::Got(20)));
    holds!(rt; is_hello(&response(rt, node, JOB, Command::Read { id, offset: 0, count: 20 })));
    let (reply, receipt) = node.call(rt, &mut actor(), JOB, 1, Command::Release(id));
    holds!(rt; matches!(reply, Reply::Ok));
    Ok(receipt.expect(rt, "a receipt"))
}

/// A Usage that is called after the receipt, a change of the quotas and the job's end: none is refused.
pub(crate) fn live_on<K: JournaledNode, R: Wait + Abort>(
    rt: &R,
    node: &SharedNode<K>,
    earlier: &K::Receipt,
)
where
    K::Receipt: Named,
{
    let (reply, receipt) = node.call_after(rt, &mut actor(), earlier, JOB, 1, Command::Usage);
    holds!(rt; uses_all_of(&reply));
    let (node_no, job, later) = receipt.expect(rt, "a receipt").named();
    same!(rt; (node_no, job, later > earlier.named().2), (0, JOB, true));
    holds!(rt; matches!(node.requota(rt, &mut actor(), JOB, NARROW).0, Reply::Ok));
    holds!(rt; matches!(node.end_job(rt, &mut actor(), JOB).0, Reply::Ok));
}

/// Whether the reply says that the object's 32 bytes of the window are used.
fn uses_all_of(reply: &Reply<Bytes>) -> bool {
    matches!(reply, Reply::Usage(usage) if (usage.window, usage.window_used) == (64, 32))
}

/// A report of so many entries and receipts, of which nothing went wrong.
fn good_report(entries: u64, receipts: u64) -> Totals {
    Totals {
        entries,
        receipts,
        disagreeing: 0,
        lost: 0,
        erase_failures: 0,
    }
}

#[test]
fn an_admission_and_six_commands_are_reported(rt: HostRuntime) -> Result<(), Fail> {
    let report = try_out(rt, rt.alloc(), &Trial::SixCommands)?;
    same!(rt; report, good_report(7, 1));
    Ok(())
}

#[test]
fn a_job_is_used_narrowed_and_ended(rt: HostRuntime) -> Result<(), Fail> {
    let report = try_out(rt, rt.alloc(), &Trial::WholeJob)?;
    same!(rt; report, good_report(10, 3));
    Ok(())
}
