//! The directory of owners.
use assertions::same;
use memory_growth::{OutOfMemory, text_of};
use obj_id::{Digest, DirectoryMessage, JobNo, Location, ObjectId, TaskNo};
use owner_directory::Directory;
use std::alloc::Global;
use std::process::Abort;
use std::test::Fail;

const JOB: JobNo = JobNo(1);

fn copy_at(node: u32, length: u32) -> Location {
    Location {
        node,
        length,
        digest: Digest([5; 32]),
    }
}

/// What the directory answers, in the words of the types. Unlike `apply` it promises nothing.
fn answer(
    alloc: Global,
    directory: &mut Directory,
    message: DirectoryMessage,
) -> Result<String, OutOfMemory> {
    let reply = directory.apply(JOB, message)?;
    text_of!(in alloc; "{reply:?}")
}

/// Two nodes have the object. What node 3 is told of it, for its fetch 77.
fn located(
    alloc: Global,
    directory: &mut Directory,
    id: ObjectId,
    length: u32,
) -> Result<String, OutOfMemory> {
    answer(
        alloc,
        directory,
        DirectoryMessage::AddLocation(id, copy_at(4, length)),
    )?;
    answer(
        alloc,
        directory,
        DirectoryMessage::AddLocation(id, copy_at(3, length)),
    )?;
    answer(
        alloc,
        directory,
        DirectoryMessage::Locate {
            id,
            node: 3,
            number: 77,
        },
    )
}

/// Checks that both entries of an object are told by rising node.
fn check(
    rt: &impl Abort,
    alloc: Global,
    directory: &mut Directory,
    index: u32,
) -> Result<(), Fail> {
    let id = ObjectId::new(TaskNo::numbered(1), JOB, index)?;
    let entries = [copy_at(3, index), copy_at(4, index)];
    let due =
        text_of!(in alloc; "Located {{ to: 3, id: {id:?}, number: 77, entries: ItemList {{ items: {entries:?} }} }}")?;
    let located = located(alloc, directory, id, index)?;
    same!(rt; located.as_str(), due.as_str());
    Ok(())
}

/// Checks those of 12 objects.
fn check_all(rt: &impl Abort, alloc: Global, directory: &mut Directory) -> Result<(), Fail> {
    for index in 1..=12 {
        check(rt, alloc, directory, index)?;
    }
    Ok(())
}

#[test]
fn entries_are_told_by_rising_node(rt: HostRuntime) -> Result<(), Fail> {
    let mut directory = Directory::new(rt.alloc());
    check_all(&rt, rt.alloc(), &mut directory)
}
