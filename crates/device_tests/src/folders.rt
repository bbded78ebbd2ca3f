//! The folders of spilled objects: whose they are, and what is in the way in them.
use crate::devices::{own_folder, play_in, play_over_files, refusal_of};
use crate::scripts::play;
use assertions::{holds, same};
use memory_growth::{OutOfMemory, text_of};
use spill_device::{FileDevice, SpillFolder};
use std::fs;
use std::os::unix::fs::{PermissionsExt, chown};
use std::process::{self, Abort};
use std::rt::Files;
use std::test::Fail;

const MADE: &str = "\
write 7.1 some = Ok(())
mode . = 40700
mode 7.1 = 100600
erase 7.1 = Ok(())";

#[test]
fn what_is_made_is_its_owners_alone(rt: HostRuntime) -> Result<(), Fail> {
    play_over_files(&rt, process::id(rt.process()), "private", MADE)
}

const LINKED: &str = "\
put foreign of others
link 7.1 foreign
write 7.1 some = Err(Failed)
read 7.1 9 = Err(Failed)
mode 7.1 = 120777
erase 7.1 = Ok(())
mode 7.1 = NotFound
text foreign = of others
remove foreign";

#[test]
fn a_link_is_never_followed(rt: HostRuntime) -> Result<(), Fail> {
    play_over_files(&rt, process::id(rt.process()), "linked", LINKED)
}

const REPLACED: &str = "\
put foreign of others
link 7.1.part foreign
write 7.1 some = Ok(())
text foreign = of others
mode 7.1 = 100600
text 7.1 = some
mode 7.1.part = NotFound
erase 7.1 = Ok(())
remove foreign";

#[test]
fn what_a_write_left_is_replaced_and_a_link_in_its_place_is_not_followed(
    rt: HostRuntime,
) -> Result<(), Fail> {
    play_over_files(&rt, process::id(rt.process()), "part", REPLACED)
}

/// What is printed of a folder that isn't given; nothing if it is.
fn refusal_at(host: HostRuntime, path: &str) -> Result<String, OutOfMemory> {
    refusal_of(host.alloc(), SpillFolder::take(host, path).err())
}

/// Checks why the folder isn't given.
fn refused<R: Abort>(rt: &R, host: HostRuntime, path: &str, reason: &str) -> Result<(), Fail> {
    let due = text_of!(in host.alloc(); "the folder `{path}` {reason}")?;
    let response = refusal_at(host, path)?;
    same!(rt; response.as_str(), due.as_str());
    Ok(())
}

/// Takes the folder while another server has it.
fn take_beside<R: Abort>(rt: &R, host: HostRuntime, path: &str) -> Result<(), Fail> {
    let _first = SpillFolder::take(host, path)?;
    refused(rt, host, path, "is used by another server")
}

#[test]
fn a_folder_is_one_servers_at_a_time(rt: HostRuntime) -> Result<(), Fail> {
    let folder = own_folder(&rt, process::id(rt.process()), "one")?;
    take_beside(&rt, rt, folder.as_str())?;
    same!(rt; refusal_at(rt, folder.as_str())?.as_str(), "");
    fs::remove_dir_all(&rt, folder.as_str())?;
    Ok(())
}

/// Takes a folder that others may use.
fn take_shared<R: Files + Abort>(rt: &R, host: HostRuntime, path: &str) -> Result<(), Fail> {
    drop(SpillFolder::take(host, path)?);
    fs::set_permissions(rt, path, fs::Permissions::from_mode(0o750))?;
    refused(rt, host, path, "is not its owner's alone (chmod 700)")
}

#[test]
fn a_folder_that_others_may_use_is_refused(rt: HostRuntime) -> Result<(), Fail> {
    let folder = own_folder(&rt, process::id(rt.process()), "shared")?;
    take_shared(&rt, rt, folder.as_str())?;
    fs::remove_dir_all(&rt, folder.as_str())?;
    Ok(())
}

/// A user whom no test is run as.
const ANOTHER: u32 = 54_321;

/// Takes a folder of another user's.
fn take_anothers<R: Files + Abort>(rt: &R, host: HostRuntime, path: &str) -> Result<(), Fail> {
    drop(SpillFolder::take(host, path)?);
    // nobody but root can give a folder away, and to all others the topmost one is another user's
    let is_given = chown(rt, path, Some(ANOTHER), None).is_ok();
    refused(
        rt,
        host,
        if is_given { path } else { "/" },
        "is another user's",
    )
}

#[test]
fn a_folder_of_another_user_is_refused(rt: HostRuntime) -> Result<(), Fail> {
    let folder = own_folder(&rt, process::id(rt.process()), "anothers")?;
    take_anothers(&rt, rt, folder.as_str())?;
    fs::remove_dir_all(&rt, folder.as_str())?;
    Ok(())
}

/// Another folder stands in the place of the device's, with another file of the key.
const ANOTHERS: &str = "\
put 7.1 of others
read 7.1 9 = Err(Failed)
write 7.1 more = Err(Failed)
erase 7.1 = Err(Failed)";

/// The file of the other folder is as it was.
const UNTOUCHED: &str = "\
text 7.1 = of others
remove 7.1";

/// Why the last call failed; nothing if it didn't.
fn reason_of(
    host: HostRuntime,
    device: &mut FileDevice<HostRuntime>,
) -> Result<String, OutOfMemory> {
    match device.take_reason() {
        Some(reason) => text_of!(in host.alloc(); "{reason}"),
        None => Ok(String::new(host.alloc())),
    }
}

/// Asks a device in whose folder's place another one stands.
fn ask_in_vain<R: Files + AllocGlobal + Abort>(
    rt: &R,
    host: HostRuntime,
    folder: &str,
    taken: &SpillFolder,
    device: &mut FileDevice<HostRuntime>,
) -> Result<(), Fail> {
    play(rt, folder, device, ANOTHERS)?;
    same!(rt; reason_of(host, device)?.as_str(), "the folder was moved or removed");
    holds!(rt; taken.clear().is_err());
    play(rt, folder, device, UNTOUCHED)
}

/// Puts another folder in the place of the device's, and the device's back.
fn move_and_return<R: Files + AllocGlobal + Abort>(
    rt: &R,
    host: HostRuntime,
    [folder, away]: [&str; 2],
    taken: &SpillFolder,
    device: &mut FileDevice<HostRuntime>,
) -> Result<(), Fail> {
    play(rt, folder, device, "write 7.1 some = Ok(())")?;
    fs::rename(rt, folder, away)?;
    fs::create_dir(rt, folder)?;
    ask_in_vain(rt, host, folder, taken, device)?;
    fs::remove_dir(rt, folder)?;
    fs::rename(rt, away, folder)?;
    play(rt, folder, device, "read 7.1 4 = Ok(b\"some\")")?;
    Ok(taken.clear()?)
}

fn move_device<R: Files + AllocGlobal + Abort>(
    rt: &R,
    host: HostRuntime,
    paths: [&str; 2],
    taken: &SpillFolder,
) -> Result<(), Fail> {
    let mut device = FileDevice::of(host, taken)?;
    move_and_return(rt, host, paths, taken, &mut device)
}

fn move_folder<R: Files + AllocGlobal + Abort>(
    rt: &R,
    host: HostRuntime,
    paths: [&str; 2],
) -> Result<(), Fail> {
    let taken = SpillFolder::take(host, paths[0])?;
    move_device(rt, host, paths, &taken)
}

#[test]
fn what_comes_in_the_place_of_a_moved_folder_stays(rt: HostRuntime) -> Result<(), Fail> {
    let folder = own_folder(&rt, process::id(rt.process()), "moved")?;
    let away = own_folder(&rt, process::id(rt.process()), "away")?;
    move_folder(&rt, rt, [folder.as_str(), away.as_str()])?;
    fs::remove_dir(&rt, folder.as_str())?;
    Ok(())
}

/// Names of spilled objects, whole or being written, and other names.
const LEFT: &str = "\
put 1.2 left
put 0.1 left
put 7.18446744073709551615 left
put 3.4.part left
put 1 of others
put 1. of others
put .2 of others
put 1.2.3 of others
put a.2 of others
put 01.2 of others
put 1.2.parts of others";

const SWEPT: &str = "\
mode 1.2 = NotFound
mode 0.1 = NotFound
mode 7.18446744073709551615 = NotFound
mode 3.4.part = NotFound
text 1 = of others
text 1. = of others
text .2 = of others
text 1.2.3 = of others
text a.2 = of others
text 01.2 = of others
text 1.2.parts = of others";

/// Takes a folder in which something is left, and clears it after a write.
fn sweep<R: Files + AllocGlobal + Copy + Abort>(
    rt: &R,
    folder: &str,
    taken: &SpillFolder,
) -> Result<(), Fail> {
    play_in(rt, folder, SWEPT)?;
    play_in(rt, folder, "write 7.18446744073709551615 some = Ok(())")?;
    taken.clear()?;
    play_in(rt, folder, SWEPT)
}

fn take_and_sweep<R: Files + AllocGlobal + Copy + Abort>(
    rt: &R,
    host: HostRuntime,
    folder: &str,
) -> Result<(), Fail> {
    play_in(rt, folder, LEFT)?;
    let taken = SpillFolder::take(host, folder)?;
    sweep(rt, folder, &taken)
}

#[test]
fn spilled_objects_are_removed_and_nothing_else(rt: HostRuntime) -> Result<(), Fail> {
    let folder = own_folder(&rt, process::id(rt.process()), "swept")?;
    take_and_sweep(&rt, rt, folder.as_str())?;
    fs::remove_dir_all(&rt, folder.as_str())?;
    Ok(())
}
