//! Runs of a schedule's text.
ghost use Rattle.std.specs.Prelude.{◌≡◌, [], is_some, true, false, length, IfOk, OnOk, IfErr, IfSome};
ghost use Rattle.std.specs.Io.{StopsAt};
ghost use Rattle.std.specs.Io.BufRead.{take_through};
ghost use Rattle.std.specs.Io.KnownBytes.{Consumes, IsAtEnd};
ghost use Rattle.std.specs.String.{string_bytes};
ghost use Rattle.world_core.specs.Worlds.{is_shape, is_within};
ghost use Rattle.schedule_runs.specs.SavedRuns.{IsSavedStep};
ghost use Rattle.schedule_runs.specs.Runs.{Answers, Ran, RunsLine, RunsStep, StopsRun, StopsStep};

use crate::journal::RunJournal;
use crate::lines::{LineMeaning, finish, parse_line};
use crate::workers::Workers;
use memory_growth::OutOfMemory;
use private_store::Step;
use program_lines::{Fault, next_line};
use schedule_text::{Prefix, answer_line};
use std::alloc::Global;
use std::io::{BufRead, Write};
use world_core::{ClusterSize, Stepped, World};

/// Runs the schedule that the reader gives in a new world, writes a line for each step, and keeps what the steps were to
/// the jobs in the journal, which has none before.
///
/// The steps are those that the lines spell, in order; the world took them one after another, and
/// what is written is the lines of its answers, whatever ends the run but a failure of the output.
/// Empty lines and comments are skipped, and counted. `NotAStep` has the number of the first line
/// that isn't a step, or that lacks its line feed. After a fault the journal is of no use.
pub fn run_text<R: BufRead, W: Write>(
    alloc: Global,
    shape: ClusterSize,
    reader: &mut R,
    writer: &mut W,
    journal: &mut RunJournal,
) -> Result<(), Fault>
    requires shape { is_shape shape ≡ true }
    requires journal { IsSavedStep (is_some journal.old) journal.old [] }
    ensures { Ran shape.nodes shape.memory (is_some journal.old) journal.new (R.remaining reader.old) (R.remaining reader.new) (W.contents writer.old) (W.contents writer.new) result }
{
    let outcome = run_lines(alloc, shape, reader, writer, journal);
    // what was answered before a fault goes out as well
    match writer.flush() {
        Ok(()) => outcome,
        Err(_) => Err(Fault::Output),
    }
}

/// The same, without what the writer keeps back.
fn run_lines<R: BufRead, W: Write>(
    alloc: Global,
    shape: ClusterSize,
    reader: &mut R,
    writer: &mut W,
    journal: &mut RunJournal,
) -> Result<(), Fault>
    requires shape { is_shape shape ≡ true }
    requires journal { IsSavedStep (is_some journal.old) journal.old [] }
    ensures { Ran shape.nodes shape.memory (is_some journal.old) journal.new (R.remaining reader.old) (R.remaining reader.new) (W.contents writer.old) (W.contents writer.new) result }
{
    let Ok(mut world) = World::new(alloc, shape) else {
        return Err(Fault::NoMemory)
    };
    let Ok(mut workers) = Workers::new(alloc, shape.nodes) else {
        return Err(Fault::NoMemory)
    };
    let mut line = Vec::new(alloc);
    for number in 1..u64::MAX {
        match next_line(reader, &mut line) {
            Err(fault) => return Err(fault),
            Ok(false) => return Ok(()),
            Ok(true) => {}
        }
        match run_line(
            alloc,
            &mut world,
            &mut workers,
            shape.nodes,
            journal,
            number,
            &line,
            writer,
        ) {
            Err(fault) => return Err(fault),
            Ok(()) => {}
        }
    }
    // more lines than there are numbers
    Err(Fault::Input)
}

/// Takes the step of the line of this number, and writes its answer.
fn run_line<W: Write>(
    alloc: Global,
    world: &mut World,
    workers: &mut Workers,
    nodes: u32,
    journal: &mut RunJournal,
    number: u64,
    line: &[u8],
    writer: &mut W,
) -> Result<(), Fault>
    requires world { length world.old.nodes ≡ nodes }
    requires workers { length workers.old.devices ≡ nodes }
    ensures ok { OnOk result (RunsLine nodes line.now world.old workers.old journal.old world.new workers.new journal.new (W.contents writer.old) (W.contents writer.new)) }
    ensures err { IfErr result (λ fault. StopsRun nodes number line.now (W.contents writer.old) (W.contents writer.new) fault) }
{
    let Some((b'\n', text)) = line.split_last() else {
        return Err(Fault::NotAStep(number))
    };
    match parse_line(alloc, text, nodes) {
        Err(_) => Err(Fault::NoMemory),
        Ok(LineMeaning::Nothing) => Ok(()),
        Ok(LineMeaning::NoStep) => Err(Fault::NotAStep(number)),
        Ok(LineMeaning::Step(step)) => run_step(alloc, world, workers, journal, &step, writer),
        Ok(
            LineMeaning::Finish {
                node,
                job,
                number,
                outcome,
            },
        ) => {
            let Ok(answer) = workers.hand_in(node, job, number, outcome) else {
                return Err(Fault::NoMemory)
            };
            run_step(
                alloc,
                world,
                workers,
                journal,
                &finish(node, job, number, answer),
                writer,
            )
        }
    }
}

/// Takes the step, and writes its answer.
fn run_step<W: Write>(
    alloc: Global,
    world: &mut World,
    workers: &mut Workers,
    journal: &mut RunJournal,
    step: &Step,
    writer: &mut W,
) -> Result<(), Fault>
    requires { is_within (length world.old.nodes) step.now ≡ true }
    ensures ok { OnOk result (RunsStep world.old workers.old journal.old step.now world.new workers.new journal.new (W.contents writer.old) (W.contents writer.new)) }
    ensures err { IfErr result (λ fault. StopsStep (W.contents writer.old) (W.contents writer.new) fault) }
{
    let Ok(line) = answered(alloc, world, workers, journal, step) else {
        return Err(Fault::NoMemory)
    };
    match writer.write_all(line.as_bytes()) {
        Ok(()) => Ok(()),
        Err(_) => Err(Fault::Output),
    }
}

/// Takes the step, tells the journal and the workers of it, and gives the line of its answer.
fn answered(
    alloc: Global,
    world: &mut World,
    workers: &mut Workers,
    journal: &mut RunJournal,
    step: &Step,
) -> Result<String, OutOfMemory>
    requires { is_within (length world.old.nodes) step.now ≡ true }
    ensures { IfOk result (λ line. Answers world.old workers.old journal.old step.now (string_bytes line) world.new workers.new journal.new) }
{
    let Stepped {
        answer,
        judged,
        notes,
    } = world.step_noted(step);
    let line = answer_line(alloc, Prefix::of(step), &answer)?;
    journal.keep(step, &answer, judged, notes)?;
    workers.note(step, answer)?;
    Ok(line)
}
