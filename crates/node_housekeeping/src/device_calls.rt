//! What a worker asks of its device, and what it then hands in.
ghost use Rattle.std.specs.Prelude.{◌≡◌, true};
ghost use Rattle.node_housekeeping.specs.DeviceCalls.{AreErased, IsWorkAsked, IsCarriedOut, written_key};

use bytes::Bytes;
use obj_id::{DeviceAnswer, DeviceKey, Work, WorkKind};
use private_store::Event;
use spill_device::SpillDevice;

/// The Finish of a work that a device was called for, and the key of what it wrote.
#[derive(Drop)]
pub struct Finishing {
    pub event: Event,
    pub written: Option<DeviceKey>,
}

/// Asks the device for what the work says, and gives what is to be handed in for it. Without memory for the call the work has
/// failed.
pub fn call_device<D: SpillDevice>(device: &mut D, work: &Work<Bytes>) -> Finishing
    ensures event { IsCarriedOut D.write_gives D.read_gives device.old work.now result.event device.new }
    ensures written { result.written ≡ written_key work.now.kind work.now.key }
{
    Finishing {
        event: Event::Finish {
            job: work.job,
            number: work.number,
            answer: answer_of(device, work),
        },
        written: match work.kind {
            WorkKind::Write => Some(work.key),
            WorkKind::Read => None,
        },
    }
}

/// What the device answers to the work: a write's bytes are kept under its key, and a read's are those that are.
fn answer_of<D: SpillDevice>(device: &mut D, work: &Work<Bytes>) -> DeviceAnswer
    ensures { IsWorkAsked D.write_gives D.read_gives device.old work.now.key work.now.length work.now.payload result device.new }
{
    match &work.payload {
        Some(bytes) => match device.write(work.key, bytes) {
            Ok(()) => DeviceAnswer::Done,
            Err(_) => DeviceAnswer::Failed,
        },
        None => match device.read(work.key, work.length) {
            Ok(bytes) => DeviceAnswer::Bytes(bytes),
            Err(_) => DeviceAnswer::Failed,
        },
    }
}

/// Erases keys: of how many it failed.
pub fn erase_all<D: SpillDevice>(device: &mut D, keys: &[DeviceKey]) -> u64
    ensures { AreErased D.erase_gives device.old keys.now device.new }
{
    let mut failed = 0u64;
    for key in keys {
        if device.erase(*key).is_err() {
            failed = failed.saturating_add(1);
        }
    }
    failed
}
