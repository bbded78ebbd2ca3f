//! Devices that spilled copies are written to and read back from. A device may fail; it counts each call
//! that did, so a fault that was answered is one that was counted. A `MemoryDevice` reads what was last
//! written; what a real file holds is promised by nobody.
#![tactic(auto)]

ghost use Rattle.std.specs.Prelude.{◌≡◌, ℕ, ◌<◌, ◌≤◌, ◌⊎◌};
ghost use Rattle.spill_device.specs.Faults.{count_after, last_count, next_count};

mod faulty;
mod file;
mod folder;
mod key_file;
mod memory;

use bytes::Bytes;
pub use faulty::FaultyDevice;
pub use file::{FileDevice, no_two_keys_share_a_file};
pub use folder::{FolderFault, SpillFolder};
pub use memory::MemoryDevice;
use memory_growth::OutOfMemory;
use obj_id::DeviceKey;
use thiserror::Error;

/// Why a device didn't do what it was asked.
#[derive(Clone, Copy, Debug, PartialEq, Eq, Drop, Error)]
pub enum DeviceFault {
    /// The device failed.
    #[error("the device failed")]
    Failed,
    /// The process has no memory for the call.
    #[error("no memory")]
    NoMemory,
}

impl From<OutOfMemory> for DeviceFault {
    ghost use Rattle.std.specs.Prelude.{◌≡◌};
    ghost use Rattle.spill_device.specs.declared.DeviceFault.TheVariants.{NoMemory};

    ghost from_gives = { λ _ fault. fault ≡ NoMemory };

    fn from(_refused: OutOfMemory) -> DeviceFault {
        DeviceFault::NoMemory
    }
}

/// Keeps bytes under keys, and may fail. `Failed` is answered only if the count of failures rose by
/// one in that call, or stands at its last value; no other answer moves the count.
pub trait SpillDevice {
    ghost use Rattle.std.specs.Prelude.{◌≡◌, ℕ, List, length, Result, IfOk, ⊤};
    ghost use Rattle.obj_id.specs.declared.works.DeviceKey.{DeviceKey};
    ghost use Rattle.spill_device.specs.declared.DeviceFault.{DeviceFault};
    ghost use Rattle.spill_device.specs.Faults.{count_after};

    // how many calls have failed
    ghost failures_of: { Self → ℕ };

    // what each call may answer and leave behind, as far as the device says
    ghost write_gives: { Self → DeviceKey → List ℕ → Result (Unit {0}) DeviceFault → Self → Type 0 } = { λ _ _ _ _ _. ⊤ };

    ghost read_gives: { Self → DeviceKey → ℕ → Result (List ℕ) DeviceFault → Self → Type 0 } = { λ _ _ _ _ _. ⊤ };

    ghost erase_gives: { Self → DeviceKey → Result (Unit {0}) DeviceFault → Self → Type 0 } = { λ _ _ _ _. ⊤ };

    /// Keeps the bytes under the key, in place of what was kept there.
    fn write(&mut self, key: DeviceKey, bytes: &[u8]) -> Result<(), DeviceFault>
        ensures counted { failures_of self.new ≡ count_after result (failures_of self.old) }
        ensures gives { write_gives self.old key bytes.now result self.new };

    /// The bytes that are kept under the key. `Failed` if they aren't `len` bytes.
    fn read(&mut self, key: DeviceKey, len: u32) -> Result<Bytes, DeviceFault>
        ensures whole { IfOk result (λ bytes. length bytes ≡ len) }
        ensures counted { failures_of self.new ≡ count_after result (failures_of self.old) }
        ensures gives { read_gives self.old key len result self.new };

    /// Keeps nothing under the key any longer; `Ok` if nothing was.
    fn erase(&mut self, key: DeviceKey) -> Result<(), DeviceFault>
        ensures counted { failures_of self.new ≡ count_after result (failures_of self.old) }
        ensures gives { erase_gives self.old key result self.new };

    /// How many calls have failed: up to 18,446,744,073,709,551,615, where the count stays.
    fn failures(&self) -> u64
        ensures { result ≡ failures_of self.now };
}

/// A law of counts: a failure raises the count, or the count stands at its last value.
pub fn a_failure_is_counted()
    ensures { (n : ℕ) → n ≤ last_count → (n < next_count n) ⊎ (next_count n ≡ last_count) }
{}
