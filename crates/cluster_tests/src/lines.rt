//! Steps as lines spell them, if there are two nodes.
ghost use Rattle.std.specs.Prelude.{◌≡◌, true, IfOk};
ghost use Rattle.world_core.specs.Worlds.{is_within as is_within_lem};

use bytes::Bytes;
use memory_growth::{OutOfMemory, shared};
use obj_id::DeviceAnswer;
use private_store::{Event, Step};
use schedule_text::{FinishWord, Line, read_line};
use std::alloc::Global;
use std::process::Abort;
use world_core::is_within;

/// What the line says, asked for once more if memory ran out.
fn read(alloc: Global, line: &str) -> Result<Option<Line>, OutOfMemory> {
    match read_line(alloc, line, 2) {
        Ok(read) => Ok(read),
        Err(_) => read_line(alloc, line, 2),
    }
}

/// What is handed in for a work on 32 bytes that were never written: zeros, whether it read or wrote them; zeros but for one
/// bit; or a failure.
fn answer(alloc: Global, outcome: FinishWord) -> Result<DeviceAnswer, OutOfMemory> {
    match outcome {
        FinishWord::Ok => Ok(DeviceAnswer::Bytes(bytes_of(alloc, &[0; 32])?)),
        FinishWord::Damage => {
            let mut bytes = [0; 32];
            bytes[0] = 1;
            Ok(DeviceAnswer::Bytes(bytes_of(alloc, &bytes)?))
        }
        FinishWord::Fail => Ok(DeviceAnswer::Failed),
    }
}

/// The bytes, asked for once more if memory ran out.
fn bytes_of(alloc: Global, bytes: &[u8]) -> Result<Bytes, OutOfMemory> {
    match shared::copied(alloc, bytes) {
        Ok(copied) => Ok(copied),
        Err(_) => shared::copied(alloc, bytes),
    }
}

/// The step that the line spells.
pub(crate) fn step_of(rt: &impl Abort, alloc: Global, line: &str) -> Result<Step, OutOfMemory>
    ensures { IfOk result (λ step. is_within_lem 2 step ≡ true) }
{
    match read(alloc, line)? {
        Some(Line::Step(step)) if is_within(2, &step) => Ok(step),
        Some(
            Line::Finish {
                node,
                job,
                number,
                outcome,
            },
        ) => {
            let step = Step::At(
                node,
                Event::Finish {
                    job,
                    number,
                    answer: answer(alloc, outcome)?,
                },
            );
            if !is_within(2, &step) {
                panic!(rt; "not a step");
            }
            Ok(step)
        }
        _ => panic!(rt; "not a step"),
    }
}
