//! What the program says to a schedule.
ghost use Rattle.std.specs.Prelude.{◌≡◌, ◌++◌, codes, decimal, true, IfOk};
ghost use Rattle.journal_replay.specs.Texts.{replay_fault_text};
ghost use Rattle.world_core.specs.Worlds.{is_shape};
ghost use Rattle.schedules.specs.Transcripts.{IsJournalEnding, Retells, Transcribes, run_ending as run_ending_lem, replay_ending as replay_ending_lem};
ghost use Rattle.std.specs.String.{string_bytes};
ghost use Rattle.schedule_runs.specs.SavedRuns.{is_asked};

use journal_replay::{ReplayFault, Verdict, replay_text, status_of as status_of_replay};
use memory_growth::{OutOfMemory, lists, text_of};
use program_lines::{Fault, status_of};
use schedule_runs::{Keep, RunJournal, Task, read_task, run_text, status_of_error};
use std::alloc::Global;
use std::fmt::Write as _;
use world_core::ClusterSize;

/// What a process with these words prints when it is given the schedule, or of a replay the journal, and what it says at
/// its end.
pub fn transcript_of(alloc: Global, words: &[String], text: &[u8]) -> Result<Vec<u8>, OutOfMemory> {
    match read_task(alloc, words) {
        Ok(Task::Run(running)) => transcript(alloc, running.shape, kept_by(running.journal), text),
        Ok(Task::Replay(_)) => replayed(alloc, text),
        // sessions aren't schedules
        Ok(Task::Serve(_)) => Ok(Vec::new(alloc)),
        Err(error) => {
            let status = status_of_error(&error);
            Ok(text_of!(in alloc; "{error}status {status}\n")?.into_bytes())
        }
    }
}

/// What is kept of a run whose journal is saved there, if it is.
fn kept_by(journal: Option<&str>) -> Keep {
    match journal {
        Some(_) => Keep::Journal,
        None => Keep::Nothing,
    }
}

/// What a run prints; after it its journal, if one is to be saved; and of a fault its line and the status.
fn transcript(
    alloc: Global,
    shape: ClusterSize,
    keep: Keep,
    schedule: &[u8],
) -> Result<Vec<u8>, OutOfMemory>
    requires { is_shape shape ≡ true }
    ensures { IfOk result (λ text. Transcribes shape.nodes shape.memory (is_asked keep) schedule.now text.items) }
{
    let mut reader = schedule;
    let mut text = Vec::new(alloc);
    let mut journal = RunJournal::new(alloc, keep)?;
    let outcome = run_text(alloc, shape, &mut reader, &mut text, &mut journal);
    let ending = match outcome {
        Ok(()) => journal_ending(alloc, journal)?,
        Err(fault) => run_ending(alloc, fault)?,
    };
    lists::extend_from_slice(&mut text, &ending)?;
    Ok(text)
}

/// The text of a journal, if one is kept; if it was folded, the line of that fault and the status.
fn journal_ending(alloc: Global, journal: RunJournal) -> Result<Vec<u8>, OutOfMemory>
    ensures { IfOk result (λ text. IsJournalEnding journal text.items) }
{
    match journal.into_text() {
        Ok(Some(text)) => Ok(text),
        Ok(None) => Ok(Vec::new(alloc)),
        Err(fault) => run_ending(alloc, fault),
    }
}

/// The line of a fault, and the status.
fn run_ending(alloc: Global, fault: Fault) -> Result<Vec<u8>, OutOfMemory>
    ensures { IfOk result (λ text. text.items ≡ run_ending_lem fault) }
{
    let status = status_of(&Err(fault));
    Ok(text_of!(in alloc; "{fault}\nstatus {status}\n")?.into_bytes())
}

/// What a replay of the journal prints, and how it ends.
fn replayed(alloc: Global, journal: &[u8]) -> Result<Vec<u8>, OutOfMemory>
    ensures { IfOk result (λ text. Retells journal.now text.items) }
{
    let mut reader = journal;
    let mut text = Vec::new(alloc);
    let outcome = replay_text(alloc, &mut reader, &mut text);
    let ending = replay_ending(alloc, &outcome)?;
    lists::extend_from_slice(&mut text, ending.as_bytes())?;
    Ok(text)
}

/// Of a difference the status, and of a fault its line and the status.
fn replay_ending(
    alloc: Global,
    outcome: &Result<Verdict, ReplayFault>,
) -> Result<String, OutOfMemory>
    ensures { IfOk result (λ text. string_bytes text ≡ replay_ending_lem outcome.now) }
{
    let status = status_of_replay(outcome);
    match outcome {
        Ok(Verdict::Agrees) => Ok(String::new(alloc)),
        Ok(Verdict::Differs) => text_of!(in alloc; "status {status}\n"),
        Err(fault) => fault_ending(alloc, *fault, status),
    }
}

/// The line of a fault, and the status.
fn fault_ending(alloc: Global, fault: ReplayFault, status: u8) -> Result<String, OutOfMemory>
    ensures { IfOk result (λ text. string_bytes text ≡ replay_fault_text fault ++ codes "\nstatus " ++ decimal status ++ codes "\n") }
{
    text_of!(in alloc; "{fault}\nstatus {status}\n")
}
