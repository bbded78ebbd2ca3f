//! What a line says to the program.
ghost use Rattle.std.specs.Prelude.{◌≡◌, IfOk};
ghost use Rattle.private_store.specs.declared.schedules.Event.{Event};
ghost use Rattle.private_store.specs.declared.schedules.Step.{Step};
ghost use Rattle.schedule_runs.specs.Lines.{IsSaid};

use memory_growth::OutOfMemory;
use obj_id::{DeviceAnswer, JobNo};
use private_store::{Event, Step};
use schedule_text::{FinishWord, Line, is_skipped, read_line};
use std::alloc::Global;
use std::str;

/// What a line says to the program.
#[derive(Debug, Drop)]
pub enum LineMeaning {
    /// Nothing: the line is empty, or a comment.
    Nothing,
    /// A step.
    Step(Step),
    /// A device worker finishes the job's work of this number at the node: the step is known once the device was
    /// called, or wasn't.
    Finish {
        node: u32,
        job: JobNo,
        number: u64,
        outcome: FinishWord,
    },
    /// Nothing that is a step.
    NoStep,
}

/// What the text of a line, without its line feed, says to a world with this number of nodes.
pub fn parse_line(alloc: Global, text: &[u8], nodes: u32) -> Result<LineMeaning, OutOfMemory>
    ensures { IfOk result (λ said. IsSaid nodes text.now said) }
{
    // before its bytes are asked to be a text, since a comment may hold any
    if is_skipped(text) {
        return Ok(LineMeaning::Nothing);
    }
    let Ok(text) = str::from_utf8(text) else {
        return Ok(LineMeaning::NoStep)
    };
    match read_line(alloc, text, nodes)? {
        Some(Line::Step(step)) => Ok(LineMeaning::Step(step)),
        Some(
            Line::Finish {
                node,
                job,
                number,
                outcome,
            },
        ) => Ok(LineMeaning::Finish {
            node,
            job,
            number,
            outcome,
        }),
        Some(Line::Skipped) | None => Ok(LineMeaning::NoStep),
    }
}

/// The step that hands in this answer to the work.
pub(crate) fn finish(node: u32, job: JobNo, number: u64, answer: DeviceAnswer) -> Step
    ensures { result ≡ Step.At node (Event.Finish job number answer) }
{
    Step::At(
        node,
        Event::Finish {
            job,
            number,
            answer,
        },
    )
}
