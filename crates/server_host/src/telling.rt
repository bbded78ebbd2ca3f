//! A device over files that tells which of its calls failed, and why.
ghost use Rattle.std.specs.Prelude.{◌≡◌};

use bytes::Bytes;
use memory_growth::{OutOfMemory, boxes, text_of};
use obj_id::DeviceKey;
use program_lines::{DeviceCall, FailedCall, SaidCalls};
use spill_device::{DeviceFault, FileDevice, FolderFault, SpillDevice, SpillFolder};
use std::alloc::Global;
use std::sync::atomic::{AtomicBool, Ordering};
use std::sync::{Arc, Mutex, Wait};
use std::thread::Threads;
use std::time::{Clock, Instant};
use std::{io, thread};

/// What a line says of a call for which the process had no memory.
const NO_MEMORY: &str = "no memory";

/// What the devices of all nodes share: what was said of their calls, and whether a line is being written.
#[derive(Drop)]
pub struct Telling {
    said: Arc<Mutex<SaidCalls>>,
    is_writing: Arc<AtomicBool>,
}

impl Telling {
    /// Nothing was said.
    pub fn new(alloc: Global) -> Result<Telling, OutOfMemory> {
        Ok(Telling {
            said: boxes::counted(alloc, Mutex::new(SaidCalls::new()))?,
            is_writing: boxes::counted(alloc, AtomicBool::new(false))?,
        })
    }

    /// The same, for one more device.
    pub fn share(&self) -> Result<Telling, OutOfMemory> {
        Ok(Telling {
            said: boxes::another(&self.said)?,
            is_writing: boxes::another(&self.is_writing)?,
        })
    }
}

/// A device that knows why its calls failed.
pub trait KnowsReason {
    ghost use Rattle.std.specs.Prelude.{◌≡◌};

    /// Why the last call that was `Failed` failed. None if it was taken before.
    fn last_reason(&mut self) -> Option<io::Error>
        ensures { self.new ≡ self.old };
}

impl KnowsReason for FileDevice<HostRuntime> {
    fn last_reason(&mut self) -> Option<io::Error> {
        self.take_reason()
    }
}

/// A device, as one over files in a folder. Of its calls that failed, and those of all devices with which it shares what was said, it tells
/// one in a second at most on standard error. No call is answered otherwise or later for it, whoever reads standard error or doesn't.
#[derive(Drop)]
pub struct TellingDevice<D: Drop, R: Threads + Wait + Clock + Drop> {
    device: D,
    rt: R,
    host: HostRuntime,
    node: u32,
    telling: Telling,
}

/// A line that is to be written.
#[derive(Drop)]
struct Line {
    node: u32,
    key: DeviceKey,
    call: DeviceCall,
    reason: Reason,
    unsaid: u64,
}

/// Why a call failed.
#[derive(Drop)]
enum Reason {
    /// What the system says of it, or what is wrong with what is there.
    Said(String),
    /// Words that are there without memory for them.
    Known(&'static str),
}

impl Reason {
    /// As a line says it.
    fn text(&self) -> &str {
        match self {
            Reason::Said(text) => text.as_str(),
            Reason::Known(text) => text,
        }
    }
}

impl<R: Threads + Wait + Clock + Drop> TellingDevice<FileDevice<HostRuntime>, R> {
    /// The device of the node of this number, in its folder.
    pub fn new(
        rt: R,
        host: HostRuntime,
        node: u32,
        folder: &SpillFolder,
        telling: Telling,
    ) -> Result<TellingDevice<FileDevice<HostRuntime>, R>, FolderFault> {
        Ok(TellingDevice {
            device: FileDevice::of(host, folder)?,
            rt,
            host,
            node,
            telling,
        })
    }
}

impl<D: KnowsReason + Drop, R: Threads + Wait + Clock + Drop> TellingDevice<D, R> {
    /// Tells of a call that was answered so, if it failed, or if there was no memory for it.
    fn tell<T>(&mut self, call: DeviceCall, key: DeviceKey, answer: &Result<T, DeviceFault>)
        ensures { self.new.device ≡ self.old.device }
    {
        match answer {
            Ok(_) => {}
            Err(DeviceFault::NoMemory) => self.tell_failure(call, key, None),
            Err(DeviceFault::Failed) => {
                if let Some(error) = self.device.last_reason() {
                    self.tell_failure(call, key, Some(error));
                }
            }
        }
    }

    /// Tells of a call that failed now, if its line is due. Otherwise it is one of those that the next line tells of. Without an error
    /// there was no memory for the call.
    fn tell_failure(&self, call: DeviceCall, key: DeviceKey, error: Option<io::Error>) {
        let Some(unsaid) = self.due() else {
            return;
        };
        let is_begun = match reason_of(self.host.alloc(), error) {
            Ok(reason) => self.begin(Line {
                node: self.node,
                key,
                call,
                reason,
                unsaid,
            }),
            Err(_) => false,
        };
        if !is_begun {
            let more = unsaid.saturating_add(1);
            self.telling.said.lock(&self.rt).skip(more);
        }
    }

    /// How many calls failed without a line, if one that failed now gets one.
    fn due(&self) -> Option<u64> {
        let is_writing = self.telling.is_writing.load(Ordering::SeqCst);
        let now = Instant::now(&self.rt);
        let mut said = self.telling.said.lock(&self.rt);
        match now {
            Ok(now) if !is_writing => said.fail(now),
            _ => {
                said.skip(1);
                None
            }
        }
    }

    /// Writes the line in a thread of its own, which nobody waits for: it may wait for who reads standard error. False if there is no
    /// thread for it.
    fn begin(&self, line: Line) -> bool {
        let Ok(is_writing) = boxes::another(&self.telling.is_writing) else {
            return false;
        };
        is_writing.store(true, Ordering::SeqCst);
        let host = self.host;
        let job = move || write_line(host, &line, &is_writing);
        let is_begun = thread::spawn(&self.rt, job).is_ok();
        if !is_begun {
            self.telling.is_writing.store(false, Ordering::SeqCst);
        }
        is_begun
    }
}

/// Why a call failed that ended with this error; without one there was no memory for it.
fn reason_of(alloc: Global, error: Option<io::Error>) -> Result<Reason, OutOfMemory> {
    match error {
        Some(error) => Ok(Reason::Said(text_of!(in alloc; "{error}")?)),
        None => Ok(Reason::Known(NO_MEMORY)),
    }
}

/// Writes the line. Who reads no standard error is served all the same.
fn write_line(host: HostRuntime, line: &Line, is_writing: &AtomicBool) {
    let _ = host.eprintln(FailedCall {
        node: line.node,
        key: line.key,
        call: line.call,
        reason: line.reason.text(),
        unsaid: line.unsaid,
    });
    is_writing.store(false, Ordering::SeqCst);
}

impl<D: SpillDevice + KnowsReason + Drop, R: Threads + Wait + Clock + Drop> SpillDevice
    for TellingDevice<D, R> {
    ghost failures_of = { λ d. D.SpillDevice.failures_of d.device };

    // each call is the wrapped device's
    ghost write_gives = { λ old key bytes result new. D.SpillDevice.write_gives old.device key bytes result new.device };

    ghost read_gives = { λ old key len result new. D.SpillDevice.read_gives old.device key len result new.device };

    ghost erase_gives = { λ old key result new. D.SpillDevice.erase_gives old.device key result new.device };

    fn write(&mut self, key: DeviceKey, bytes: &[u8]) -> Result<(), DeviceFault> {
        let written = self.device.write(key, bytes);
        self.tell(DeviceCall::Write, key, &written);
        written
    }

    fn read(&mut self, key: DeviceKey, len: u32) -> Result<Bytes, DeviceFault> {
        let read = self.device.read(key, len);
        self.tell(DeviceCall::Read, key, &read);
        read
    }

    fn erase(&mut self, key: DeviceKey) -> Result<(), DeviceFault> {
        let erased = self.device.erase(key);
        self.tell(DeviceCall::Erase, key, &erased);
        erased
    }

    fn failures(&self) -> u64 {
        self.device.failures()
    }
}
