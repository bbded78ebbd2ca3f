//! Lines of a saved journal as they are read, and written again. A table is one text: the prover reads each element of an array.
use assertions::same;
use journal_text::{Version, answer_of, read_head, read_line, write_line};
use memory_growth::OutOfMemory;
use std::alloc::Global;
use std::process::Abort;
use std::test::Fail;

/// Lines of version 3, which are written as they were read.
const THIRD: &str = "\
n0 j1 1 begin 64 0 = ok
n0 j1 2 s1 create t1.1 20 = placed 0 32
n0 j1 3 s1 write t1.1 0 #5 = ok
n0 j1 4 s1 seal t1.1 = ok
n0 j1 5 s1 get t1.1 = got 20
n0 j1 6 s1 read t1.1 0 20 = bytes #20
n0 j1 7 s1 release t1.1 = ok
n0 j2 2 s1 get 1/t1.1 = refused 13 NotGranted
n0 j2 6 received 1/t1.1 4 1 1 = ok
n0 j1 6 s1 delete t1.1 = refused 12 Granted
n0 j2 8 withdrawn 1/t1.1 1 1 = ok
n0 j9 2 s1 usage = refused 1 NotAdmitted
n0 j9 5 s1 list = list 1/t1.1:granted:4:1
n7 j1 8 quota 18446744073709551615 0 = refused 9 Full
n0 j1 9 end = refused 24 Stale
n0 j1 9 answer 1 damage = ok
n0 j1 10 located t1.1 1 = ok
n0 j1 10 located t1.1 1 0:3:ba7816bf8f01cfea414140de5dae2223b00361a396177a9cb410ff61f20015ad = ok
n0 j1 11 chunk t1.1 1 0 2 ignored = ok
n0 j1 12 pull t1.1 1 other = ok
n0 j1 13 nothere t1.1 1 3 = ok
n0 j1 14 s0 usage = usage 64 32 18446744073709551615 0 1 2
n0 j1 15 s4294967295 endtask t7 = ok
n0 j1 16 s1 list = list t1.1:away:primary:20 2/t1.1:granted:4:3
n0 j1 17 s1 write t1.1 0 #18446744073709551615 = refused 7 BadSize";

/// Lines that no version has.
const NEVER: &str = "\
n8 j1 1 end = ok
n0 j0 1 end = ok
n0 j1 1 end
n0 j1 1 end = 
n0 j1 1 end  = ok
n0 j1 01 end = ok
n0 j1 1 end = got 20
n0 j1 1 s1 leave = refused 13 Granted
n0 j1 1 s1 leave = refused 12 NotGranted
n0 j1 1 s1 leave = none
n0 j1 1 s1 write t1.1 0 48656c6c6f = ok
n0 j1 1 s1 write t1.1 0 #18446744073709551616 = ok
n0 j1 1 s1 releases t1.1 = ok
n0 j1 1 take = ok
n0 j1 1 received t1.1 4 0 1 = ok
n0 j1 1 s1 list = list 2/t1.1:granted:4:3 t1.1:away:primary:20
# = ok";

/// Lines of version 1, each of which is none in the later ones, before the line that is written for it.
const FIRST: &str = "\
n0 j2 6 received 1/t1.1 4 = ok > n0 j2 6 received 1/t1.1 4 1 1 = ok
n0 j2 8 withdrawn 1/t1.1 = ok > n0 j2 8 withdrawn 1/t1.1 1 1 = ok
n0 j9 5 s1 list = list 1/t1.1:granted:4 > n0 j9 5 s1 list = list 1/t1.1:granted:4:1";

/// What is written for the line once it is read; empty if it is no entry.
fn written(alloc: Global, text: &str, version: Version) -> Result<String, OutOfMemory> {
    match read_line(alloc, text, version)? {
        Some(entry) => write_line(alloc, &entry),
        None => Ok(String::new(alloc)),
    }
}

/// Checks what is written for the line once it is read.
fn gives(
    rt: &impl Abort,
    alloc: Global,
    text: &str,
    version: Version,
    line: &str,
) -> Result<(), OutOfMemory> {
    let written = written(alloc, text, version)?;
    same!(rt; written.as_str(), line);
    Ok(())
}

/// Checks the answer in a line.
fn answers(rt: &impl Abort, alloc: Global, text: &str, answer: &str) -> Result<(), OutOfMemory> {
    let response = answer_of(alloc, text)?;
    same!(rt; response.as_str(), answer);
    Ok(())
}

#[test]
fn lines_are_written_as_they_were_read(rt: HostRuntime) -> Result<(), Fail> {
    let alloc = rt.alloc();
    for line in THIRD.split('\n') {
        gives(&rt, alloc, line, Version::Three, line)?;
    }
    Ok(())
}

#[test]
fn other_lines_are_no_entries(rt: HostRuntime) -> Result<(), Fail> {
    let alloc = rt.alloc();
    for line in NEVER.split('\n') {
        gives(&rt, alloc, line, Version::One, "")?;
        gives(&rt, alloc, line, Version::Three, "")?;
    }
    Ok(())
}

#[test]
fn the_first_version_tells_less_of_grants(rt: HostRuntime) -> Result<(), Fail> {
    let alloc = rt.alloc();
    for row in FIRST.split('\n') {
        let (first, third) = row.split_once(" > ").unwrap_or((row, ""));
        gives(&rt, alloc, first, Version::One, third)?;
        gives(&rt, alloc, first, Version::Two, "")?;
        gives(&rt, alloc, third, Version::One, "")?;
        gives(&rt, alloc, third, Version::Two, third)?;
    }
    gives(&rt, alloc, "n0 j1 2 quota 64 0 = ok", Version::Two, "")?;
    Ok(())
}

#[test]
fn an_answer_is_told_as_it_stands(rt: HostRuntime) -> Result<(), Fail> {
    let alloc = rt.alloc();
    for line in THIRD.split('\n') {
        let (_, answer) = line.split_once(" = ").unwrap_or((line, ""));
        answers(&rt, alloc, line, answer)?;
    }
    answers(&rt, alloc, "n0 j1 1 end", "")?;
    answers(&rt, alloc, "n0 j1 1 end =ok", "")?;
    answers(&rt, alloc, "n0 j1 1 end =  got 20 ", " got 20 ")?;
    answers(&rt, alloc, "n0 j1 1 end = ok = ok", "")?;
    Ok(())
}

#[test]
fn a_journal_begins_with_its_version(rt: HostRuntime) -> Result<(), Fail> {
    same!(&rt; read_head("journal 1"), Some(Version::One));
    same!(&rt; read_head("journal 3"), Some(Version::Three));
    same!(&rt; read_head("journal 4"), None);
    Ok(())
}
