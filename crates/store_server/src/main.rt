//! The program `store`.
#![tactic(auto)]

ghost use Rattle.std.specs.Prelude.{◌≡◌, true};
ghost use Rattle.world_core.specs.Worlds.{is_shape};

mod serving;

use journal_replay::{ReplayFault, Verdict, replay_text, status_of as status_of_replay};
use program_lines::{Fault, status_of};
use schedule_runs::{Keep, RunJournal, ScheduleRun, Task, read_task, run_text, status_of_error};
use server_host::PrintedFault;
use serving::serve;
use std::fs::File;
use std::io::{BufReader, BufWriter, ErrorKind};
use std::process::ExitCode;
use std::{env, fs, io};
use world_core::ClusterSize;

fn main(rt: HostRuntime) -> io::Result<ExitCode> {
    let words: Vec<String> = env::args(&rt)?.collect(rt.alloc())?;
    let task = match read_task(rt.alloc(), words.as_slice()) {
        Ok(task) => task,
        Err(error) => {
            error.print(&rt)?;
            return Ok(ExitCode::from(status_of_error(&error)));
        }
    };
    match task {
        Task::Run(running) => end(&rt, run(&rt, running)),
        Task::Serve(serving) => match serve(rt, rt, serving, rt.reader(), io::writer(&rt)) {
            Ok(()) => Ok(ExitCode::SUCCESS),
            Err(PrintedFault) => Ok(ExitCode::FAILURE),
        },
        Task::Replay(path) => replay(&rt, path),
    }
}

/// Says what ended a run before its input did, if something did, and gives the status.
fn end(rt: &HostRuntime, outcome: Result<(), Fault>) -> io::Result<ExitCode> {
    if let Err(fault) = outcome {
        rt.eprintln(fault)?;
    }
    Ok(ExitCode::from(status_of(&outcome)))
}

/// Runs the schedule on standard input, prints its answers, and saves its journal, if it is to be saved.
fn run(rt: &HostRuntime, running: ScheduleRun) -> Result<(), Fault>
    requires { is_shape running.shape ≡ true }
{
    let Some(path) = running.journal else {
        let _ = run_kept(rt, running.shape, Keep::Nothing)?;
        return Ok(());
    };
    let text = run_kept(rt, running.shape, Keep::Journal)?;
    match fs::write(rt, path, text.unwrap_or(Vec::new(rt.alloc())).as_slice()) {
        Ok(()) => Ok(()),
        Err(_) => Err(Fault::Output),
    }
}

/// Runs the schedule on standard input, prints its answers, and gives the text of its journal, if one is kept.
fn run_kept(rt: &HostRuntime, shape: ClusterSize, keep: Keep) -> Result<Option<Vec<u8>>, Fault>
    requires { is_shape shape ≡ true }
{
    let alloc = rt.alloc();
    let Ok(mut reader) = BufReader::new(alloc, rt.reader()) else {
        return Err(Fault::NoMemory)
    };
    let Ok(mut writer) = BufWriter::new(alloc, io::writer(rt)) else {
        return Err(Fault::NoMemory)
    };
    let Ok(mut journal) = RunJournal::new(alloc, keep) else {
        return Err(Fault::NoMemory)
    };
    run_text(alloc, shape, &mut reader, &mut writer, &mut journal)?;
    journal.into_text()
}

/// Replays the saved journal of this path, and prints what came of it.
fn replay(rt: &HostRuntime, path: &str) -> io::Result<ExitCode> {
    let outcome = replay_file(rt, path);
    if let Err(fault) = outcome {
        rt.eprintln(fault)?;
    }
    Ok(ExitCode::from(status_of_replay(&outcome)))
}

/// The same, without what a fault says.
fn replay_file(rt: &HostRuntime, path: &str) -> Result<Verdict, ReplayFault> {
    let alloc = rt.alloc();
    let file = match File::open(rt, path) {
        Ok(file) => file,
        Err(error) if error.kind() == ErrorKind::OutOfMemory => return Err(ReplayFault::NoMemory),
        Err(_) => return Err(ReplayFault::Input),
    };
    let Ok(mut reader) = BufReader::new(alloc, file) else {
        return Err(ReplayFault::NoMemory)
    };
    let Ok(mut writer) = BufWriter::new(alloc, io::writer(rt)) else {
        return Err(ReplayFault::NoMemory)
    };
    replay_text(alloc, &mut reader, &mut writer)
}
