//! Runs the worked schedules and replays the journals of each folder that its arguments name, as `store` does, and says
//! which of them are answered otherwise than was written down beforehand. Then it reads the frames of these folders, and
//! says which of them aren't what stands beside them.
//!
//! Beside `NAME.schedule` or `NAME.journal` lies `NAME.expected`: what is printed, then the status if it isn't 0, after the
//! line of a fault. If there is a `NAME.args`, it has the words of the command line, one a line; otherwise the word is
//! `run`, or `replay` of a journal. A line that comes many times may stand once in these, as `*TIMES FIRST TEXT`. A line of
//! `NAME.vectors` is a frame's digits, a space, and what the frame says.
#![tactic(auto)]

mod commands;
mod compare;
mod digits;
mod files;
mod repeated;
mod replies;
mod transcript;
mod vectors;

ghost use Rattle.std.specs.Prelude.{◌≡◌, All, None, length, IfOk};
ghost use Rattle.std.specs.String.{string_bytes};
ghost use Rattle.schedules.specs.Vectors.{IsFrameLine};

use compare::{Tally, first_difference, line_at};
use files::{Case, FrameLine, frames_in, schedules_in};
use memory_growth::lists;
use std::alloc::Global;
use std::process::ExitCode;
use std::{env, io};
use transcript::transcript_of;
use vectors::fault_of;

fn main(rt: HostRuntime) -> io::Result<ExitCode> {
    let folders: Vec<String> = lists::collected(rt.alloc(), env::args(&rt)?.skip(1))?;
    let mut names = Vec::new(rt.alloc());
    let mut frames = Vec::new(rt.alloc());
    for folder in folders.iter() {
        for name in schedules_in(&rt, folder.as_str())? {
            lists::push(&mut names, name)?;
        }
        for line in frames_in(&rt, folder.as_str())? {
            lists::push(&mut frames, line)?;
        }
    }
    let schedules = run_all(&rt, names.as_slice())?;
    println!(rt;
        "{} schedules, {} differ",
        schedules.compared, schedules.differing
    )?;
    let frames = read_all(&rt, frames.as_slice())?;
    println!(rt; "{} frames, {} differ", frames.compared, frames.differing)?;
    Ok(ExitCode::SUCCESS)
}

/// Runs each of these schedules.
fn run_all(rt: &HostRuntime, names: &[String]) -> io::Result<Tally>
    ensures { IfOk result (λ tally. tally.compared ≡ length names.now) }
{
    let mut tally = Tally::new();
    for name in names {
        tally.add(difference_of(rt, name.as_str())?);
    }
    Ok(tally)
}

/// Runs one schedule, and prints the first line that isn't as expected, if there is one.
fn difference_of(rt: &HostRuntime, name: &str) -> io::Result<Option<u64>> {
    let case = Case::read(rt, name)?;
    let printed = transcript_of(rt.alloc(), case.words.as_slice(), case.text.as_slice())?;
    let Some(line) = first_difference(case.expected.as_slice(), printed.as_slice()) else {
        return Ok(None);
    };
    let expected = line_at(case.expected.as_slice(), line);
    let printed = line_at(printed.as_slice(), line);
    println!(rt; "{name}: line {line}: `{printed}` in place of `{expected}`")?;
    Ok(Some(line))
}

/// Reads each of these frames.
fn read_all(rt: &HostRuntime, lines: &[FrameLine]) -> io::Result<Tally>
    ensures compared { IfOk result (λ tally. tally.compared ≡ length lines.now) }
    ensures right { IfOk result (λ tally. tally.differing ≡ 0
        → All (λ line. IsFrameLine (string_bytes line.text)) lines.now) }
{
    let mut tally = Tally::new();
    for line in lines {
        tally.add(fault_at(rt, line)?);
    }
    Ok(tally)
}

/// Reads one frame, and prints what is wrong with its line, if anything is.
fn fault_at(rt: &HostRuntime, line: &FrameLine) -> io::Result<Option<u64>>
    ensures { IfOk result (λ fault. fault ≡ None → IsFrameLine (string_bytes line.now.text)) }
{
    let Some(fault) = fault_of(rt.alloc(), line.text.as_str())? else {
        return Ok(None)
    };
    let reason = fault.text();
    println!(rt; "{}: line {}: {reason}", line.file, line.number)?;
    Ok(Some(line.number))
}
