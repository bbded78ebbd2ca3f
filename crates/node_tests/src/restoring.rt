//! A node whose device is a folder of files.
use crate::calls::{accepted, taken};
use crate::lines::event_of;
use assertions::{holds, same};
use bytes::Bytes;
use memory_growth::{OutOfMemory, text_of};
use node_core::{Erase, Node};
use obj_id::{DeviceAnswer, JobNo, ObjectId, Refusal, Reply, TaskNo, Work};
use private_store::Event;
use spill_device::{DeviceFault, FileDevice, SpillDevice};
use std::alloc::Global;
use std::process::{self, Abort};
use std::rt::{Env, Files};
use std::test::Fail;
use std::{env, fs};

/// The file of the job's first work.
const FILE: &str = "1.1";

/// The bytes of the first object, whose first five are written.
const WRITTEN: &str = "Hello\0\0\0\0\0\0\0\0\0\0\0\0\0\0\0\0\0\0\0\0\0\0\0\0\0\0\0";

/// As many others.
const DAMAGED: &str = "Jello\0\0\0\0\0\0\0\0\0\0\0\0\0\0\0\0\0\0\0\0\0\0\0\0\0\0\0";

/// The first object fills the window.
const FIRST: &str = "\
admit 0 1 32 64
cmd 0 1 1 create t1.1 32
cmd 0 1 1 write t1.1 0 48656c6c6f
cmd 0 1 1 seal t1.1";

const GET: &str = "cmd 0 1 1 get t1.1";

/// A second one takes its place.
const CREATE: &str = "cmd 0 1 1 create t1.2 32";

const SECOND: &str = "\
cmd 0 1 1 create t1.2 32
cmd 0 1 1 seal t1.2";

/// A folder of this test's own that isn't there.
fn own_folder<R: Files + Env + AllocGlobal>(rt: &R, process: u32) -> Result<String, Fail> {
    let temporary = env::temp_dir(rt)?;
    let below = temporary.as_str();
    let folder = text_of!(in rt.alloc(); "{below}/restoring-{process}")?;
    let _ = fs::remove_dir_all(rt, folder.as_str());
    Ok(folder)
}

/// Gives the node the events of these lines, none of which it refuses.
fn carry_out(
    rt: &impl Abort,
    alloc: Global,
    node: &mut Node,
    lines: &str,
) -> Result<(), OutOfMemory> {
    for line in lines.lines() {
        let event = event_of(rt, alloc, line)?;
        accepted(rt, node, &event)?;
    }
    Ok(())
}

/// Gives the node the line's event, which is refused so.
fn refuse(
    rt: &impl Abort,
    alloc: Global,
    node: &mut Node,
    line: &str,
    due: Refusal,
) -> Result<(), OutOfMemory> {
    let event = event_of(rt, alloc, line)?;
    let outcome = taken(node, &event)?;
    holds!(rt; matches!(outcome.reply, Reply::Refused(refusal) if refusal == due));
    Ok(())
}

/// What the device does for a work.
fn answer_of<D: SpillDevice>(
    device: &mut D,
    work: &Work<Bytes>,
) -> Result<DeviceAnswer, DeviceFault> {
    match &work.payload {
        Some(bytes) => {
            device.write(work.key, bytes.as_slice())?;
            Ok(DeviceAnswer::Done)
        }
        None => {
            let bytes = device.read(work.key, work.length)?;
            Ok(DeviceAnswer::Bytes(bytes))
        }
    }
}

/// The Finish of the work that a Take was answered with, as the device does it.
fn finish_of<D: SpillDevice>(
    rt: &impl Abort,
    device: &mut D,
    reply: &Reply<Bytes>,
) -> Result<Event, DeviceFault> {
    match reply {
        Reply::Work(work) => Ok(Event::Finish {
            job: work.job,
            number: work.number,
            answer: answer_of(device, work)?,
        }),
        _ => panic!(rt; "no work waits"),
    }
}

/// Takes the work in turn, and answers it by what the device does.
fn work_once<D: SpillDevice>(rt: &impl Abort, node: &mut Node, device: &mut D) -> Result<(), Fail> {
    let outcome = taken(node, &Event::Take)?;
    let finish = finish_of(rt, device, &outcome.reply)?;
    accepted(rt, node, &finish)?;
    Ok(())
}

/// Reads the first object back from its file, which has these bytes.
fn read_back<R: Files + Abort, D: SpillDevice>(
    rt: &R,
    alloc: Global,
    node: &mut Node,
    device: &mut D,
    file: &str,
    bytes: &str,
) -> Result<(), Fail> {
    fs::write(rt, file, bytes)?;
    refuse(rt, alloc, node, GET, Refusal::Pending)?;
    work_once(rt, node, device)
}

/// Reads the first object back from a damaged file, which is told, and then from its own.
fn restore<R: Files + Abort, D: SpillDevice>(
    rt: &R,
    alloc: Global,
    node: &mut Node,
    device: &mut D,
    file: &str,
) -> Result<(), Fail> {
    read_back(rt, alloc, node, device, file, DAMAGED)?;
    refuse(rt, alloc, node, GET, Refusal::Damaged)?;
    read_back(rt, alloc, node, device, file, WRITTEN)?;
    carry_out(rt, alloc, node, GET)?;
    holds!(rt; is_restored(node));
    Ok(())
}

/// Whether session 1 holds the first object with the bytes that were written.
fn is_restored(node: &Node) -> bool {
    let Ok(id) = ObjectId::new(TaskNo::numbered(1), JobNo(1), 1) else {
        return false;
    };
    match node.read_borrowed(JobNo(1), 1, &id) {
        Ok(bytes) => bytes == WRITTEN.as_bytes(),
        Err(_) => false,
    }
}

/// Erases the files of these keys, of which there are two.
fn erase_both<D: SpillDevice>(
    rt: &impl Abort,
    device: &mut D,
    erase: &Erase,
) -> Result<(), DeviceFault> {
    match erase {
        Erase::Many(keys) => {
            same!(rt; keys.as_slice().len(), 2);
            for key in keys.as_slice() {
                device.erase(*key)?;
            }
            Ok(())
        }
        _ => panic!(rt; "not both keys"),
    }
}

/// Ends the job, and erases the files of both works.
fn end_and_erase<D: SpillDevice>(
    rt: &impl Abort,
    node: &mut Node,
    device: &mut D,
) -> Result<(), Fail> {
    let outcome = taken(node, &Event::JobEnd(JobNo(1)))?;
    erase_both(rt, device, &outcome.erase)?;
    Ok(())
}

/// Two objects of a window with room for one: both are written to files, and the first is read back.
fn spill_and_restore<R: Files + Abort, D: SpillDevice>(
    rt: &R,
    alloc: Global,
    node: &mut Node,
    device: &mut D,
    file: &str,
) -> Result<(), Fail> {
    carry_out(rt, alloc, node, FIRST)?;
    refuse(rt, alloc, node, CREATE, Refusal::Pending)?;
    work_once(rt, node, device)?;
    carry_out(rt, alloc, node, SECOND)?;
    refuse(rt, alloc, node, GET, Refusal::Pending)?;
    work_once(rt, node, device)?;
    restore(rt, alloc, node, device, file)?;
    end_and_erase(rt, node, device)
}

/// The same over the files of a folder.
fn try_device<R: Files + AllocGlobal + Copy + Abort>(
    rt: &R,
    folder: &str,
    file: &str,
) -> Result<(), Fail> {
    let mut device = FileDevice::new(*rt, folder)?;
    let mut node = Node::new(rt.alloc(), 0, 1_024);
    spill_and_restore(rt, rt.alloc(), &mut node, &mut device, file)
}

/// The same over a folder of the process, which is empty in the end.
fn try_files<R: Files + Env + AllocGlobal + Copy + Abort>(
    rt: &R,
    process: u32,
) -> Result<(), Fail> {
    let folder = own_folder(rt, process)?;
    let below = folder.as_str();
    let file = text_of!(in rt.alloc(); "{below}/{FILE}")?;
    try_device(rt, folder.as_str(), file.as_str())?;
    fs::remove_dir(rt, folder.as_str())?;
    Ok(())
}

#[test]
fn a_copy_is_read_back_from_its_file_and_both_files_are_erased(
    rt: HostRuntime,
) -> Result<(), Fail> {
    try_files(&rt, process::id(rt.process()))
}
