//! While a device writes, reads or erases for one job, another one is answered: no device is called under the node's lock.
use crate::actors::actor;
use crate::gates::Gate;
use crate::kept_devices::{DeviceCall, KeptDevice};
use crate::objects::{admit, object, response, seal_hello};
use crate::trials::{Trial, try_out};
use assertions::{holds, same};
use bytes::Bytes;
use memory_growth::{OutOfMemory, boxes};
use node_gate::{JournaledNode, Posted};
use node_housekeeping::WorkDone;
use obj_id::{Command, JobNo, Kind, Quota, Refusal, Reply};
use shared_nodes::SharedNode;
use spill_device::{FaultyDevice, MemoryDevice, SpillDevice};
use std::alloc::Global;
use std::process::Abort;
use std::sync::{Arc, Wait};
use std::test::Fail;
use std::thread::{JoinHandle, Threads};
use std::time::Clock;
use std::{io, thread};

/// Whose device is called.
const SPILLED: JobNo = JobNo(1);

/// Who is answered meanwhile.
const OTHER: JobNo = JobNo(2);

/// Room for one object of 32 bytes, and for one on the device.
const ONE: Quota = Quota {
    window: 32,
    device: 32,
};

type Device = KeptDevice<FaultyDevice<MemoryDevice>>;

/// What a round came to, and its device.
fn round<K: JournaledNode, R: Wait, D: SpillDevice>(
    rt: &R,
    node: &SharedNode<K>,
    device: D,
) -> (WorkDone, D) {
    let mut device = device;
    let done = node.work_once(rt, &mut actor(), &mut device, &mut None);
    (done, device)
}

/// The same, in a thread of its own.
fn start_round<
    K: JournaledNode + Send + 'static,
    R: Threads + Wait + Copy + Send + 'static,
    D: SpillDevice + Drop + Send + 'static,
>(rt: R, node: Arc<SharedNode<K>>, device: D) -> io::Result<JoinHandle<(WorkDone, D)>>
where
    K::Receipt: Send + 'static,
    K::Mail: Send + 'static,
    K::Posted: Send + 'static,
    <K::Posted as Posted>::Directory: Send + 'static,
    K::Erase: Send + 'static,
    K::Entered: Send + 'static,
    K::Prepared: Send + 'static,
    K::Gone: Send + 'static,
{
    let job = move || round(&rt, &*node, device);
    Ok(thread::spawn(&rt, job)?)
}

/// Whether the other job's Get is answered while somebody is kept at the gate, which is opened then.
fn is_answered_beside<K: JournaledNode, R: Wait + Abort>(
    rt: &R,
    node: &SharedNode<K>,
    gate: &Gate,
) -> bool {
    let is_reached = gate.await_arrival();
    let reply = response(rt, node, OTHER, Command::Get(object(rt, OTHER, 1)));
    gate.open() && is_reached && matches!(reply, Reply::Got(20))
}

/// A round in which this call of the device is made: what it came to, and the device. If the call is kept, the other job is answered
/// meanwhile.
fn round_with<K: JournaledNode + Send + 'static, R: Threads + Wait + Abort + Copy + Send + 'static>(
    rt: R,
    node: &Arc<SharedNode<K>>,
    device: Device,
    call: DeviceCall,
) -> io::Result<(WorkDone, Device)>
where
    K::Receipt: Send + 'static,
    K::Mail: Send + 'static,
    K::Posted: Send + 'static,
    <K::Posted as Posted>::Directory: Send + 'static,
    K::Erase: Send + 'static,
    K::Entered: Send + 'static,
    K::Prepared: Send + 'static,
    K::Gone: Send + 'static,
{
    let is_kept = device.kept == call;
    let gate = boxes::another(&device.gate)?;
    let working = start_round(rt, boxes::another(node)?, device)?;
    let is_as_due = !is_kept || is_answered_beside(&rt, node, &gate);
    let ended = working.join(&rt);
    holds!(rt; is_as_due);
    Ok(ended)
}

/// Both jobs are admitted, and the other one seals an object of 20 bytes.
fn begin<K: JournaledNode, R: Wait + Abort>(
    rt: &R,
    alloc: Global,
    node: &SharedNode<K>,
) -> Result<(), OutOfMemory> {
    admit(rt, node, SPILLED, ONE);
    admit(rt, node, OTHER, ONE);
    seal_hello(rt, alloc, node, object(rt, OTHER, 1))
}

/// The job's first object is in the way of its second.
fn ask_for_write<K: JournaledNode, R: Wait + Abort>(rt: &R, node: &SharedNode<K>) {
    let (first, second) = (object(rt, SPILLED, 1), object(rt, SPILLED, 2));
    let create = Command::Create {
        id: first,
        kind: Kind::Primary,
        length: 32,
    };
    holds!(rt; matches!(response(rt, node, SPILLED, create), Reply::Placed(..)));
    holds!(rt; matches!(response(rt, node, SPILLED, Command::Seal(first)), Reply::Ok));
    let create = Command::Create {
        id: second,
        kind: Kind::Primary,
        length: 16,
    };
    holds!(rt; is_pending(&response(rt, node, SPILLED, create)));
}

/// The first object was written: the second takes its room, and gives it back, and the first is asked for.
fn ask_for_read<K: JournaledNode, R: Wait + Abort>(rt: &R, node: &SharedNode<K>) {
    let (first, second) = (object(rt, SPILLED, 1), object(rt, SPILLED, 2));
    let create = Command::Create {
        id: second,
        kind: Kind::Primary,
        length: 16,
    };
    holds!(rt; matches!(response(rt, node, SPILLED, create), Reply::Placed(..)));
    holds!(rt; matches!(response(rt, node, SPILLED, Command::Delete(second)), Reply::Ok));
    holds!(rt; is_pending(&response(rt, node, SPILLED, Command::Get(first))));
}

/// The read that failed is answered once, and asked for again.
fn ask_for_read_again<K: JournaledNode, R: Wait + Abort>(rt: &R, node: &SharedNode<K>) {
    let first = object(rt, SPILLED, 1);
    let reply = response(rt, node, SPILLED, Command::Get(first));
    holds!(rt; matches!(reply, Reply::Refused(Refusal::DeviceFailed)));
    holds!(rt; is_pending(&response(rt, node, SPILLED, Command::Get(first))));
}

/// The first object is back, and goes, and what lies on the device with it.
fn ask_for_erase<K: JournaledNode, R: Wait + Abort>(rt: &R, node: &SharedNode<K>) {
    let first = object(rt, SPILLED, 1);
    holds!(rt; matches!(response(rt, node, SPILLED, Command::Get(first)), Reply::Got(32)));
    holds!(rt; matches!(response(rt, node, SPILLED, Command::Release(first)), Reply::Ok));
    holds!(rt; matches!(response(rt, node, SPILLED, Command::Delete(first)), Reply::Ok));
}

fn is_pending(reply: &Reply<Bytes>) -> bool {
    matches!(reply, Reply::Refused(Refusal::Pending))
}

/// Writes the first object, and reads it back: the device.
fn write_and_read<
    K: JournaledNode + Send + 'static,
    R: Threads + Wait + Abort + Copy + Send + 'static,
>(rt: R, node: &Arc<SharedNode<K>>, device: Device, is_failing: bool) -> io::Result<Device>
where
    K::Receipt: Send + 'static,
    K::Mail: Send + 'static,
    K::Posted: Send + 'static,
    <K::Posted as Posted>::Directory: Send + 'static,
    K::Erase: Send + 'static,
    K::Entered: Send + 'static,
    K::Prepared: Send + 'static,
    K::Gone: Send + 'static,
{
    ask_for_write(&rt, node);
    let (written, device) = round_with(rt, node, device, DeviceCall::Write)?;
    ask_for_read(&rt, node);
    let (read, device) = round_with(rt, node, device, DeviceCall::Read)?;
    same!(rt; (written, read), (WorkDone::Done, WorkDone::Done));
    if !is_failing {
        return Ok(device);
    }
    let mut device = device;
    ask_for_read_again(&rt, node);
    same!(rt; node.work_once(&rt, &mut actor(), &mut device, &mut None), WorkDone::Done);
    Ok(device)
}

/// One kind of call is kept at a gate, and perhaps the call of this number fails at the device beneath.
pub(crate) fn call_beside<
    K: JournaledNode + Send + 'static,
    R: Threads + Wait + Abort + Copy + Send + 'static,
>(rt: R, alloc: Global, node: &Arc<SharedNode<K>>, kept: DeviceCall, failing: u64) -> io::Result<()>
where
    K::Receipt: Send + 'static,
    K::Mail: Send + 'static,
    K::Posted: Send + 'static,
    <K::Posted as Posted>::Directory: Send + 'static,
    K::Erase: Send + 'static,
    K::Entered: Send + 'static,
    K::Prepared: Send + 'static,
    K::Gone: Send + 'static,
{
    begin(&rt, alloc, node)?;
    let device = KeptDevice {
        inner: FaultyDevice::new(MemoryDevice::new(alloc), failing),
        kept,
        gate: boxes::counted(alloc, Gate::new())?,
    };
    let device = write_and_read(rt, node, device, failing > 0)?;
    ask_for_erase(&rt, node);
    let (erased, device) = round_with(rt, node, device, DeviceCall::Erase)?;
    same!(rt; (erased, device.failures()), (WorkDone::Nothing, u64::from(failing > 0)));
    Ok(())
}

/// One kind of call is kept, and then the same at a device whose second call fails.
fn keep<R: Threads + Wait + Clock + Abort + Copy + Send + 'static>(
    rt: R,
    alloc: Global,
    kept: DeviceCall,
) -> io::Result<()> {
    for failing in [0u64, 2] {
        let report = try_out(rt, alloc, &Trial::KeptCall(kept, failing))?;
        same!(rt; (report.disagreeing, report.lost, report.erase_failures), (0, 0, 0));
    }
    Ok(())
}

#[test]
fn a_job_is_answered_while_a_device_writes(rt: HostRuntime) -> Result<(), Fail> {
    Ok(keep(rt, rt.alloc(), DeviceCall::Write)?)
}

#[test]
fn a_job_is_answered_while_a_device_reads(rt: HostRuntime) -> Result<(), Fail> {
    Ok(keep(rt, rt.alloc(), DeviceCall::Read)?)
}

#[test]
fn a_job_is_answered_while_a_device_erases(rt: HostRuntime) -> Result<(), Fail> {
    Ok(keep(rt, rt.alloc(), DeviceCall::Erase)?)
}
