//! A device in memory.
ghost use Rattle.std.specs.Prelude.{◌≡◌, []};

use crate::{DeviceFault, SpillDevice};
use bytes::Bytes;
use memory_growth::{ordered, shared};
use obj_id::DeviceKey;
use std::alloc::Global;
use std::collections::BTreeMap;
use std::marker::Model;

/// A device that keeps its bytes in memory. A contract sees what is under each key, and the count of
/// failures. It fails only a read of a key that it doesn't hold in the length that is asked for.
#[derive(Drop)]
pub struct MemoryDevice {
    alloc: Global,
    held: BTreeMap<DeviceKey, Bytes>,
    failures: u64,
}

impl Model for MemoryDevice {
    ghost use Rattle.spill_device.specs.Held.{Held};

    ghost Value = { Held };

    ghost view = { λ d. record { stored = d.held.entries; failures = d.failures } };
}

impl MemoryDevice {
    /// A device that holds nothing.
    pub fn new(alloc: Global) -> MemoryDevice
        ensures { result ≡ record { stored = []; failures = 0 } }
    {
        MemoryDevice {
            alloc,
            held: BTreeMap::new(alloc),
            failures: 0,
        }
    }
}

impl SpillDevice for MemoryDevice {
    ghost use Rattle.spill_device.specs.Held.{WritesKey, ReadsKey, Erases};

    ghost failures_of = { λ d. d.failures };

    ghost write_gives = { WritesKey };

    ghost read_gives = { ReadsKey };

    ghost erase_gives = { Erases };

    fn write(&mut self, key: DeviceKey, bytes: &[u8]) -> Result<(), DeviceFault> {
        let copied = shared::copied(self.alloc, bytes)?;
        ordered::insert(&mut self.held, key, copied)?;
        Ok(())
    }

    fn read(&mut self, key: DeviceKey, len: u32) -> Result<Bytes, DeviceFault> {
        if let Some(bytes) = self.held.get(&key)
            && bytes.len() == len as usize
        {
            return Ok(shared::again(bytes)?);
        }
        self.failures = self.failures.saturating_add(1);
        Err(DeviceFault::Failed)
    }

    fn erase(&mut self, key: DeviceKey) -> Result<(), DeviceFault> {
        self.held.remove(&key);
        Ok(())
    }

    fn failures(&self) -> u64 {
        self.failures
    }
}
