//! Runs over streams of which one call fails, and what is kept of their output.
use assertions::same;
use memory_growth::lists;
use program_lines::Fault;
use schedule_runs::{Keep, RunJournal, run_text};
use session_engine::FaultyStream;
use std::alloc::Global;
use std::io::{self, BufReader, BufWriter};
use std::test::Fail;
use world_core::ClusterSize;

const SHAPE: ClusterSize = ClusterSize {
    nodes: 1,
    memory: 1_048_576,
};

const SCHEDULE: &str = "\
admit 0 1 64 0
cmd 0 1 1 usage
";

/// More bytes than the schedule is answered: what is written to needs no more memory.
const ROOM: usize = 64;

/// How the run of the schedule ends whose read number `read`, from 1, fails, and its write number `write`; at 0 none does. The
/// reader and the writer keep what they hand on in pieces: all is read at once, and written at the flush.
fn run(alloc: Global, read: u64, write: u64) -> io::Result<Result<(), Fault>> {
    let mut reader = BufReader::new(alloc, FaultyStream::new(SCHEDULE.as_bytes(), read))?;
    let mut writer = BufWriter::new(
        alloc,
        FaultyStream::new(lists::with_capacity(alloc, ROOM)?, write),
    )?;
    let mut journal = RunJournal::new(alloc, Keep::Nothing)?;
    Ok(run_text(alloc, SHAPE, &mut reader, &mut writer, &mut journal))
}

#[test]
fn a_run_over_streams_that_do_not_fail_ends_well(rt: HostRuntime) -> Result<(), Fail> {
    same!(rt; run(rt.alloc(), 0, 0)?, Ok(()));
    Ok(())
}

#[test]
fn a_read_that_fails_is_told(rt: HostRuntime) -> Result<(), Fail> {
    same!(rt; run(rt.alloc(), 1, 0)?, Err(Fault::Input));
    Ok(())
}

#[test]
fn a_flush_that_fails_is_told(rt: HostRuntime) -> Result<(), Fail> {
    same!(rt; run(rt.alloc(), 0, 1)?, Err(Fault::Output));
    Ok(())
}
