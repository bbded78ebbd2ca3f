//! A device of which one kind of call is kept at a gate.
use crate::gates::Gate;
use bytes::Bytes;
use obj_id::DeviceKey;
use spill_device::{DeviceFault, SpillDevice};
use std::sync::Arc;

/// What a device is called for.
#[derive(Clone, Copy, Debug, PartialEq, Eq)]
pub(crate) enum DeviceCall {
    Write,
    Read,
    Erase,
}

/// A device over another one, whose calls of one kind pass a gate first.
#[derive(Drop)]
pub(crate) struct KeptDevice<D> {
    pub inner: D,
    pub kept: DeviceCall,
    pub gate: Arc<Gate>,
}

impl<D> KeptDevice<D> {
    /// Passes the gate, if calls of this kind do.
    fn begin(&self, call: DeviceCall) {
        if call == self.kept {
            self.gate.pass();
        }
    }
}

impl<D: SpillDevice> SpillDevice for KeptDevice<D> {
    ghost failures_of = { λ d. D.failures_of d.inner };

    fn write(&mut self, key: DeviceKey, bytes: &[u8]) -> Result<(), DeviceFault> {
        self.begin(DeviceCall::Write);
        self.inner.write(key, bytes)
    }

    fn read(&mut self, key: DeviceKey, len: u32) -> Result<Bytes, DeviceFault> {
        self.begin(DeviceCall::Read);
        self.inner.read(key, len)
    }

    fn erase(&mut self, key: DeviceKey) -> Result<(), DeviceFault> {
        self.begin(DeviceCall::Erase);
        self.inner.erase(key)
    }

    fn failures(&self) -> u64 {
        self.inner.failures()
    }
}
