//! A device over files.
ghost use Rattle.std.specs.Prelude.{◌≡◌, ◌≢◌, ◌++◌, ℕ, List, codes, length, Ok, IfOk};
ghost use Rattle.std.specs.String.{string_bytes};
ghost use Rattle.obj_id.specs.declared.works.DeviceKey.{DeviceKey};
ghost use Rattle.spill_device.specs.Faults.{count_after};
ghost use Rattle.spill_device.specs.Folders.{file_path, IsKey};

use crate::folder::{FolderFault, Identity, SpillFolder, check_place, made_folder};
use crate::key_file::{self, FileFault, ReadFile, RemovedFile, WrittenFile};
use crate::{DeviceFault, SpillDevice};
use bytes::Bytes;
use memory_growth::{OutOfMemory, text_of, texts};
use obj_id::DeviceKey;
use std::alloc::Global;
use std::io::{self, ErrorKind};
use std::marker::Model;
use std::rt::Files;

/// A device that keeps one file for each key, in a folder of its own. A write is whole or `Failed`: the
/// bytes go to another name first, which then becomes the key's. No contract promises what the files
/// hold, or that a write or an erase reached them: a file that isn't as long as it should be is
/// `Failed` at the read, and other damage shows at the digest.
///
/// Nothing is read or written through a link, and no call waits for a pipe: what isn't a regular file stays in a key's place, and its
/// write is `Failed`. Each call looks whether the folder is still the one that the device was made for, and is `Failed` if its path has
/// become another's.
///
/// A contract sees the folder's name and the count of failures.
#[derive(Drop)]
pub struct FileDevice<R: Files + AllocGlobal + Drop> {
    rt: R,
    folder: String,
    identity: Identity,
    failures: u64,
    // why the last call that failed did, until it is taken
    reason: Option<io::Error>,
}

impl<R: Files + AllocGlobal + Drop> Model for FileDevice<R> {
    ghost use Rattle.std.specs.String.{string_bytes};
    ghost use Rattle.spill_device.specs.Folders.{Folder};

    ghost Value = { Folder };

    ghost view = { λ d. record { name = string_bytes d.folder; failures = d.failures } };
}

impl<R: Files + AllocGlobal + Drop> FileDevice<R> {
    /// A device in the folder, which is made if it isn't there, and its parents with it: only its owner may use what is made. Files
    /// of an earlier device that are left in it are read as if they were this one's. A server's device is one of a `SpillFolder`.
    pub fn new(rt: R, folder: &str) -> Result<FileDevice<R>, FolderFault>
        ensures { IfOk result (λ device. device ≡ record { name = folder.now; failures = 0 }) }
    {
        let folder = texts::from_str(rt.alloc(), folder)?;
        match made_folder(&rt, folder.as_str()) {
            Ok(identity) => Ok(FileDevice::empty(rt, folder, identity)),
            Err(error) => Err(FolderFault::NotMade { folder, error }),
        }
    }

    /// A device in a folder that a server has.
    pub fn of(rt: R, folder: &SpillFolder) -> Result<FileDevice<R>, OutOfMemory>
        ensures { IfOk result (λ device. device ≡ record { name = string_bytes folder.now.path; failures = 0 }) }
    {
        let name = texts::from_str(rt.alloc(), folder.path())?;
        Ok(FileDevice::empty(rt, name, folder.identity()))
    }

    /// A device of which no call has failed.
    fn empty(rt: R, folder: String, identity: Identity) -> FileDevice<R>
        ensures { result ≡ record { name = string_bytes folder; failures = 0 } }
    {
        FileDevice {
            rt,
            folder,
            identity,
            failures: 0,
            reason: None,
        }
    }

    /// Why the last call that was `Failed` failed: as the system says it, or in words if it was no call of the system's. None if it was
    /// taken before. A call without memory leaves no reason.
    pub fn take_reason(&mut self) -> Option<io::Error>
        ensures { self.new ≡ self.old }
    {
        self.reason.take()
    }

    /// The path of the key's file, by which all three calls go, if the folder is in its place.
    fn path_for(&self, key: DeviceKey) -> Result<String, FileFault>
        ensures { IfOk result (λ path. string_bytes path ≡ file_path self.now.name key) }
    {
        check_place(&self.rt, self.folder.as_str(), self.identity)?;
        Ok(path_of(self.rt.alloc(), self.folder.as_str(), key)?)
    }

    /// Writes the bytes to the key's file, and to no other.
    fn write_whole<'a>(&self, key: DeviceKey, bytes: &'a [u8]) -> Result<WrittenFile<'a>, FileFault>
        ensures path { IfOk result (λ file. string_bytes file.path ≡ file_path self.now.name key) }
        ensures bytes { IfOk result (λ file. file.bytes.now ≡ bytes.now) }
    {
        let path = self.path_for(key)?;
        key_file::replace(&self.rt, path, bytes)
    }

    /// Reads the key's file, and no other.
    fn read_whole(&self, key: DeviceKey, len: u32) -> Result<ReadFile, FileFault>
        ensures path { IfOk result (λ file. string_bytes file.path ≡ file_path self.now.name key) }
        ensures whole { IfOk result (λ file. length file.bytes ≡ len) }
    {
        let path = self.path_for(key)?;
        key_file::read_back(&self.rt, path, len)
    }

    /// Removes the key's file, and no other.
    fn remove(&self, key: DeviceKey) -> Result<RemovedFile, FileFault>
        ensures { IfOk result (λ file. string_bytes file.path ≡ file_path self.now.name key) }
    {
        let path = self.path_for(key)?;
        Ok(key_file::remove(&self.rt, path)?)
    }

    /// The answer to a call that went so; a failure is counted, and its reason kept.
    fn answer<T>(&mut self, done: Result<T, FileFault>) -> Result<T, DeviceFault>
        ensures value { IfOk result (λ value. done ≡ Ok value) }
        ensures counted { self.new ≡ record self.old { failures = count_after result self.old.failures } }
    {
        let error = match done {
            Ok(value) => return Ok(value),
            Err(FileFault::Memory(refused)) => return Err(refused.into()),
            Err(FileFault::System(error)) => error,
        };
        if error.kind() == ErrorKind::OutOfMemory {
            return Err(DeviceFault::NoMemory);
        }
        self.failures = self.failures.saturating_add(1);
        self.reason = Some(error);
        Err(DeviceFault::Failed)
    }
}

/// The path of the key's file in the folder: its name is two decimal numbers with a dot between them.
fn path_of(alloc: Global, folder: &str, key: DeviceKey) -> Result<String, OutOfMemory>
    ensures { IfOk result (λ path. string_bytes path ≡ file_path folder.now key) }
{
    let job = key.job.0;
    let number = key.number;
    text_of!(in alloc; "{folder}/{job}.{number}")
}

/// A law of names: in one folder no two keys share a file, and what is written beside a key's file is no key's.
pub fn no_two_keys_share_a_file()
    ensures apart { (folder : List ℕ) (a b : DeviceKey) → IsKey a → IsKey b → file_path folder a ≡ file_path folder b → a ≡ b }
    ensures beside { (folder : List ℕ) (a b : DeviceKey) → IsKey a → IsKey b → file_path folder a ++ codes ".part" ≢ file_path folder b }
{}

impl<R: Files + AllocGlobal + Drop> SpillDevice for FileDevice<R> {
    ghost use Rattle.std.specs.Prelude.{◌≡◌};

    ghost failures_of = { λ d. d.failures };

    // the folder stays
    ghost write_gives = { λ old _ _ _ new. new.name ≡ old.name };

    ghost read_gives = { λ old _ _ _ new. new.name ≡ old.name };

    ghost erase_gives = { λ old _ _ new. new.name ≡ old.name };

    fn write(&mut self, key: DeviceKey, bytes: &[u8]) -> Result<(), DeviceFault> {
        let written = self.write_whole(key, bytes);
        let _file = self.answer(written)?;
        Ok(())
    }

    fn read(&mut self, key: DeviceKey, len: u32) -> Result<Bytes, DeviceFault> {
        let read = self.read_whole(key, len);
        Ok(self.answer(read)?.into_bytes())
    }

    fn erase(&mut self, key: DeviceKey) -> Result<(), DeviceFault> {
        let removed = self.remove(key);
        let _file = self.answer(removed)?;
        Ok(())
    }

    fn failures(&self) -> u64 {
        self.failures
    }
}
