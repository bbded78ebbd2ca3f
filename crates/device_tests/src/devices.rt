//! The devices: what real files do, and which call of a faulty device fails.
use crate::scripts::{joined, play};
use assertions::same;
use bytes::Bytes;
use memory_growth::{OutOfMemory, lists, text_of};
use obj_id::{DeviceKey, JobNo};
use spill_device::{DeviceFault, FaultyDevice, FileDevice, FolderFault, MemoryDevice, SpillDevice};
use std::alloc::Global;
use std::process::{self, Abort};
use std::rt::{Env, Files};
use std::test::Fail;
use std::{env, fs};

/// Of a test that has no files.
const NO_FOLDER: &str = "";

/// A folder of this test's own that isn't there.
pub(crate) fn own_folder<R: Files + Env + AllocGlobal>(
    rt: &R,
    process: u32,
    name: &str,
) -> Result<String, Fail> {
    let temporary = env::temp_dir(rt)?;
    let below = temporary.as_str();
    let folder = text_of!(in rt.alloc(); "{below}/devices-{process}-{name}")?;
    let _ = fs::remove_dir_all(rt, folder.as_str());
    Ok(folder)
}

/// Carries out the rows over a new device in the folder.
pub(crate) fn play_in<R: Files + AllocGlobal + Copy + Abort>(
    rt: &R,
    folder: &str,
    rows: &str,
) -> Result<(), Fail> {
    let mut device = FileDevice::new(*rt, folder)?;
    play(rt, folder, &mut device, rows)
}

/// The same in a folder of the test's own, in which nothing is left.
pub(crate) fn play_over_files<R: Files + Env + AllocGlobal + Copy + Abort>(
    rt: &R,
    process: u32,
    name: &str,
    rows: &str,
) -> Result<(), Fail> {
    let folder = own_folder(rt, process, name)?;
    play_in(rt, folder.as_str(), rows)?;
    fs::remove_dir(rt, folder.as_str())?;
    Ok(())
}

/// What is asked of any device that keeps its bytes. It is left with those of 7.1.
const KEPT: &str = "\
erase 7.18446744073709551615 = Ok(())
write 7.18446744073709551615 abc = Ok(())
write 7.1 i = Ok(())
read 7.18446744073709551615 3 = Ok(b\"abc\")
write 7.18446744073709551615 de = Ok(())
read 7.18446744073709551615 2 = Ok(b\"de\")
read 7.1 1 = Ok(b\"i\")
failures = 0
read 7.18446744073709551615 3 = Err(Failed)
failures = 1
erase 7.18446744073709551615 = Ok(())
erase 7.18446744073709551615 = Ok(())
read 7.18446744073709551615 2 = Err(Failed)
failures = 2
read 7.1 1 = Ok(b\"i\")";

/// What is asked of another device in the same folder, which finds what the first one left.
const LEFT: &str = "\
read 7.1 1 = Ok(b\"i\")
erase 7.1 = Ok(())";

/// What is asked of any device if two jobs have works of one number.
const APART: &str = "\
write 7.1 i = Ok(())
read 8.1 1 = Err(Failed)
write 8.1 gh = Ok(())
read 7.1 1 = Ok(b\"i\")
read 8.1 2 = Ok(b\"gh\")
erase 7.1 = Ok(())
read 8.1 2 = Ok(b\"gh\")
erase 8.1 = Ok(())
read 8.1 2 = Err(Failed)";

#[test]
fn memory_keeps_what_was_last_written(rt: HostRuntime) -> Result<(), Fail> {
    let mut device = MemoryDevice::new(rt.alloc());
    play(&rt, NO_FOLDER, &mut device, KEPT)
}

#[test]
fn files_keep_what_was_last_written(rt: HostRuntime) -> Result<(), Fail> {
    let folder = own_folder(&rt, process::id(rt.process()), "kept")?;
    play_in(&rt, folder.as_str(), KEPT)?;
    play_in(&rt, folder.as_str(), LEFT)?;
    // nothing is left, under a temporary name either
    fs::remove_dir(&rt, folder.as_str())?;
    Ok(())
}

/// The longest object, of many chunks.
const LONG: usize = 16_777_216;

const KEY: DeviceKey = DeviceKey {
    job: JobNo(7),
    number: 1,
};

/// As many bytes, each another than the one before it.
fn long_bytes(alloc: Global) -> Result<Vec<u8>, OutOfMemory> {
    let mut bytes = lists::filled(alloc, 0u8, LONG)?;
    for (place, byte) in bytes.iter_mut().enumerate() {
        *byte = (place % 251) as u8;
    }
    Ok(bytes)
}

/// Whether the device has these bytes under the key.
fn has<D: SpillDevice>(device: &mut D, bytes: &[u8]) -> Result<bool, DeviceFault> {
    let len = u32::try_from(bytes.len()).unwrap_or(u32::MAX);
    Ok(device.read(KEY, len)?.as_slice() == bytes)
}

/// What is asked of a device of an object that is longer than one chunk.
fn keeps_long_bytes<D: SpillDevice>(rt: &impl Abort, device: &mut D, bytes: &[u8]) {
    let response = (
        device.write(KEY, bytes),
        has(device, bytes),
        device.erase(KEY),
    );
    same!(rt; response, (Ok(()), Ok(true), Ok(())));
}

/// What is asked of two jobs' works, and then of a long object.
fn keeps_both<R: Files + AllocGlobal + Abort, D: SpillDevice>(
    rt: &R,
    device: &mut D,
) -> Result<(), Fail> {
    play(rt, NO_FOLDER, device, APART)?;
    let bytes = long_bytes(rt.alloc())?;
    keeps_long_bytes(rt, device, &bytes);
    Ok(())
}

#[test]
fn memory_keeps_jobs_apart_and_long_bytes_whole(rt: HostRuntime) -> Result<(), Fail> {
    let mut device = MemoryDevice::new(rt.alloc());
    keeps_both(&rt, &mut device)
}

/// The same over the files of a folder.
fn keeps_both_in<R: Files + AllocGlobal + Copy + Abort>(rt: &R, folder: &str) -> Result<(), Fail> {
    let mut device = FileDevice::new(*rt, folder)?;
    keeps_both(rt, &mut device)
}

#[test]
fn files_keep_jobs_apart_and_long_bytes_whole(rt: HostRuntime) -> Result<(), Fail> {
    let folder = own_folder(&rt, process::id(rt.process()), "apart")?;
    keeps_both_in(&rt, folder.as_str())?;
    fs::remove_dir(&rt, folder.as_str())?;
    Ok(())
}

const NAMED: &str = "\
write 7.18446744073709551615 abc = Ok(())
text 7.18446744073709551615 = abc
erase 7.18446744073709551615 = Ok(())
mode 7.18446744073709551615 = NotFound";

#[test]
fn a_file_is_named_by_job_and_number(rt: HostRuntime) -> Result<(), Fail> {
    play_over_files(&rt, process::id(rt.process()), "named", NAMED)
}

/// A file becomes shorter, becomes longer, and goes.
const LENGTHS: &str = "\
write 7.1 abc = Ok(())
put 7.1 12
read 7.1 3 = Err(Failed)
put 7.1 1234
read 7.1 3 = Err(Failed)
remove 7.1
read 7.1 3 = Err(Failed)
failures = 3";

#[test]
fn a_short_or_longer_file_fails(rt: HostRuntime) -> Result<(), Fail> {
    play_over_files(&rt, process::id(rt.process()), "lengths", LENGTHS)
}

/// A folder stands where the temporary file would go.
const IN_THE_WAY: &str = "\
write 7.1 abc = Ok(())
make 7.1.part
write 7.1 d = Err(Failed)
read 7.1 3 = Ok(b\"abc\")
unmake 7.1.part
erase 7.1 = Ok(())";

/// The folder itself is lost.
const LOST: &str = "\
write 7.1 d = Err(Failed)
erase 7.1 = Err(Failed)
failures = 3";

fn fail_to_write<R: Files + AllocGlobal + Abort, D: SpillDevice>(
    rt: &R,
    folder: &str,
    device: &mut D,
) -> Result<(), Fail> {
    play(rt, folder, device, IN_THE_WAY)?;
    fs::remove_dir(rt, folder)?;
    play(rt, folder, device, LOST)
}

fn fail_to_write_in<R: Files + AllocGlobal + Copy + Abort>(
    rt: &R,
    folder: &str,
) -> Result<(), Fail> {
    let mut device = FileDevice::new(*rt, folder)?;
    fail_to_write(rt, folder, &mut device)
}

#[test]
fn a_write_that_fails_leaves_what_was_there(rt: HostRuntime) -> Result<(), Fail> {
    let folder = own_folder(&rt, process::id(rt.process()), "whole")?;
    fail_to_write_in(&rt, folder.as_str())
}

/// What is printed of a folder that is refused; nothing if it isn't.
pub(crate) fn refusal_of(alloc: Global, fault: Option<FolderFault>) -> Result<String, OutOfMemory> {
    match fault {
        Some(fault) => text_of!(in alloc; "{fault}"),
        None => Ok(String::new(alloc)),
    }
}

/// Checks that no folder can be made below a file.
fn refused_below<R: Files + AllocGlobal + Copy + Abort>(rt: &R, file: &str) -> Result<(), Fail> {
    let folder = joined(rt.alloc(), file, "below")?;
    let due = text_of!(in rt.alloc(); "the folder `{folder}` can't be made: ")?;
    let response = refusal_of(rt.alloc(), FileDevice::new(*rt, folder.as_str()).err())?;
    assert!(rt; response.as_str().starts_with(due.as_str()), "{response}");
    Ok(())
}

#[test]
fn a_folder_that_cant_be_made_is_told(rt: HostRuntime) -> Result<(), Fail> {
    let file = own_folder(&rt, process::id(rt.process()), "none")?;
    fs::write(&rt, file.as_str(), "a file")?;
    refused_below(&rt, file.as_str())?;
    fs::remove_file(&rt, file.as_str())?;
    Ok(())
}

const SECOND_FAILS: &str = "\
erase 7.1 = Ok(())
write 7.2 a = Err(Failed)";

/// The write that failed didn't reach the device beneath.
const OTHERS_DONT: &str = "\
read 7.2 0 = Ok(b\"\")
erase 7.2 = Ok(())
read 7.2 0 = Err(Failed)";

/// How many calls have failed, and how many of them of the device beneath.
fn failures(device: &FaultyDevice<MemoryDevice>) -> (u64, u64) {
    (device.failures(), device.inner.failures())
}

/// Asks a device whose second call fails. The device beneath has an empty object before.
fn fail_the_second<R: Files + AllocGlobal + Abort>(
    rt: &R,
    device: &mut FaultyDevice<MemoryDevice>,
) -> Result<(), Fail> {
    play(rt, NO_FOLDER, &mut device.inner, "write 7.2 = Ok(())")?;
    play(rt, NO_FOLDER, device, SECOND_FAILS)?;
    same!(rt; failures(device), (1, 0));
    play(rt, NO_FOLDER, device, OTHERS_DONT)?;
    same!(rt; failures(device), (2, 1));
    Ok(())
}

#[test]
fn the_kth_call_fails_and_no_other(rt: HostRuntime) -> Result<(), Fail> {
    let mut device = FaultyDevice::new(MemoryDevice::new(rt.alloc()), 2);
    fail_the_second(&rt, &mut device)
}

/// Asks a device whose call of this number fails.
fn fail_one<R: Files + AllocGlobal + Abort>(rt: &R, failing: u64, rows: &str) -> Result<(), Fail> {
    let mut device = FaultyDevice::new(MemoryDevice::new(rt.alloc()), failing);
    let played = play(rt, NO_FOLDER, &mut device, rows);
    same!(rt; device.inner.failures(), 0);
    played
}

#[test]
fn reads_and_erases_are_counted_as_calls(rt: HostRuntime) -> Result<(), Fail> {
    fail_one(&rt, 1, "read 7.2 1 = Err(Failed)")?;
    fail_one(&rt, 1, "erase 7.2 = Err(Failed)\nerase 7.2 = Ok(())")?;
    fail_one(&rt, 0, "erase 7.2 = Ok(())\nerase 7.2 = Ok(())")
}
