//! A device that fails one call.
ghost use Rattle.std.specs.Prelude.{◌≡◌, ◌==◌, ◌-◌, if◌then◌else◌};
ghost use Rattle.spill_device.specs.Faults.{next_count};

use crate::{DeviceFault, SpillDevice};
use bytes::Bytes;
use obj_id::DeviceKey;

/// A device over another one, of which one call fails without reaching that other one.
#[derive(Drop)]
pub struct FaultyDevice<D> {
    /// The device beneath.
    pub inner: D,
    // how many calls there are up to the one that fails; 0 once it has failed
    turns: u64,
    // how many calls failed here
    own: u64,
}

impl<D> FaultyDevice<D> {
    /// A device whose call `k`, counted from 1 over writes, reads and erases, fails; at 0 none does.
    pub fn new(inner: D, k: u64) -> FaultyDevice<D>
        ensures { result ≡ record { inner = inner; turns = k; own = 0 } }
    {
        FaultyDevice {
            inner,
            turns: k,
            own: 0,
        }
    }

    /// Whether this call is the one that fails. Counts it.
    fn is_turn(&mut self) -> bool
        ensures turn { result ≡ (self.old.turns == 1) }
        ensures inner { self.new.inner ≡ self.old.inner }
        ensures turns { self.new.turns ≡ self.old.turns - 1 }
        ensures own { self.new.own ≡ (if result then next_count self.old.own else self.old.own) }
    {
        let is_turn = self.turns == 1;
        self.turns = self.turns.saturating_sub(1);
        if is_turn {
            self.own = self.own.saturating_add(1);
        }
        is_turn
    }
}

impl<D: SpillDevice> SpillDevice for FaultyDevice<D> {
    ghost use Rattle.spill_device.specs.Turns.{FailsOrPasses, failures_with};

    ghost failures_of = { λ d. failures_with d.own (D.failures_of d.inner) };

    ghost write_gives = { λ old key bytes. FailsOrPasses (λ from. D.write_gives from key bytes) old };

    ghost read_gives = { λ old key len. FailsOrPasses (λ from. D.read_gives from key len) old };

    ghost erase_gives = { λ old key. FailsOrPasses (λ from. D.erase_gives from key) old };

    fn write(&mut self, key: DeviceKey, bytes: &[u8]) -> Result<(), DeviceFault> {
        if self.is_turn() {
            return Err(DeviceFault::Failed);
        }
        self.inner.write(key, bytes)
    }

    fn read(&mut self, key: DeviceKey, len: u32) -> Result<Bytes, DeviceFault> {
        if self.is_turn() {
            return Err(DeviceFault::Failed);
        }
        self.inner.read(key, len)
    }

    fn erase(&mut self, key: DeviceKey) -> Result<(), DeviceFault> {
        if self.is_turn() {
            return Err(DeviceFault::Failed);
        }
        self.inner.erase(key)
    }

    fn failures(&self) -> u64 {
        self.inner.failures().saturating_add(self.own)
    }
}
