//! What a device is asked, and what is done below its folder, as texts: a row a line. A row that asks has what is found after ` = `,
//! and nothing is found of what is only done. The prover reads a table as one text, and what carries it out owns next to nothing.
use memory_growth::{OutOfMemory, text_of};
use obj_id::{DeviceKey, JobNo};
use spill_device::SpillDevice;
use std::alloc::Global;
use std::fmt::Debug;
use std::fs;
use std::io::{self, ErrorKind};
use std::os::unix::fs::{MetadataExt, symlink};
use std::process::Abort;
use std::rt::Files;
use std::test::Fail;

/// The key whose file has this name.
fn key_of(name: &str) -> Result<DeviceKey, Fail> {
    let (job, number) = name.split_once('.').ok_or("no key")?;
    Ok(DeviceKey {
        job: JobNo(job.parse::<u32>()?),
        number: number.parse::<u64>()?,
    })
}

fn told<T: Debug + Drop>(alloc: Global, value: T) -> Result<String, OutOfMemory> {
    text_of!(in alloc; "{value:?}")
}

/// What the device answers.
fn answer_of<D: SpillDevice>(
    alloc: Global,
    device: &mut D,
    verb: &str,
    key: DeviceKey,
    more: &str,
) -> Result<String, Fail> {
    match verb {
        "write" => Ok(told(alloc, device.write(key, more.as_bytes()))?),
        "read" => Ok(told(alloc, device.read(key, more.parse::<u32>()?))?),
        _ => Ok(told(alloc, device.erase(key))?),
    }
}

/// The mode of what is at the path, in octal digits, its kind first: 100 is a file, 40 a folder and 120 a link. Otherwise why
/// there is none.
fn mode_of<R: Files + AllocGlobal>(rt: &R, path: &str) -> Result<String, OutOfMemory> {
    match fs::symlink_metadata(rt, path) {
        Ok(there) => {
            let mode = there.mode();
            text_of!(in rt.alloc(); "{mode:o}")
        }
        Err(error) => told(rt.alloc(), error.kind()),
    }
}

/// Changes what is at the path.
fn change<R: Files>(rt: &R, verb: &str, path: &str, more: &str) -> io::Result<()> {
    match verb {
        "put" => fs::write(rt, path, more),
        "link" => symlink(rt, more, path),
        "make" => fs::create_dir(rt, path),
        "unmake" => fs::remove_dir(rt, path),
        "remove" => fs::remove_file(rt, path),
        _ => Err(io::Error::from(ErrorKind::Unsupported)),
    }
}

/// What is found at the path.
fn found_at<R: Files + AllocGlobal>(
    rt: &R,
    verb: &str,
    path: &str,
    more: &str,
) -> Result<String, Fail> {
    match verb {
        "mode" => Ok(mode_of(rt, path)?),
        "text" => Ok(fs::read_to_string(rt, path)?),
        _ => {
            change(rt, verb, path, more)?;
            Ok(String::new(rt.alloc()))
        }
    }
}

pub(crate) fn joined(alloc: Global, folder: &str, name: &str) -> Result<String, OutOfMemory> {
    text_of!(in alloc; "{folder}/{name}")
}

/// What is found at the name below the folder.
fn found_below<R: Files + AllocGlobal>(
    rt: &R,
    folder: &str,
    verb: &str,
    name: &str,
    more: &str,
) -> Result<String, Fail> {
    let path = joined(rt.alloc(), folder, name)?;
    found_at(rt, verb, path.as_str(), more)
}

/// Carries out one step. What is found.
fn carry_out<R: Files + AllocGlobal, D: SpillDevice>(
    rt: &R,
    folder: &str,
    device: &mut D,
    step: &str,
) -> Result<String, Fail> {
    let (verb, rest) = step.split_once(' ').unwrap_or((step, ""));
    let (name, more) = rest.split_once(' ').unwrap_or((rest, ""));
    match verb {
        "write" | "read" | "erase" => answer_of(rt.alloc(), device, verb, key_of(name)?, more),
        "failures" => Ok(told(rt.alloc(), device.failures())?),
        _ => found_below(rt, folder, verb, name, more),
    }
}

/// Carries out the rows, and checks what is found.
pub(crate) fn play<R: Files + AllocGlobal + Abort, D: SpillDevice>(
    rt: &R,
    folder: &str,
    device: &mut D,
    rows: &str,
) -> Result<(), Fail> {
    for row in rows.lines() {
        let (step, due) = row.split_once(" = ").unwrap_or((row, ""));
        let found = carry_out(rt, folder, device, step)?;
        assert_eq!(rt; found.as_str(), due, "{row}");
    }
    Ok(())
}
