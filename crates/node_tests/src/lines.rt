//! Events as lines spell them, if there are two nodes.
use memory_growth::OutOfMemory;
use obj_id::DeviceAnswer;
use private_store::{Event, Step};
use schedule_text::{Line, read_line};
use std::alloc::Global;
use std::process::Abort;

/// The event that the line spells; the answer of a work is that it was done.
pub(crate) fn event_of(rt: &impl Abort, alloc: Global, line: &str) -> Result<Event, OutOfMemory> {
    match read_line(alloc, line, 2)? {
        Some(Line::Step(Step::At(_, event))) => Ok(event),
        Some(Line::Finish { job, number, .. }) => {
            Ok(Event::Finish {
                job,
                number,
                answer: DeviceAnswer::Done,
            })
        }
        _ => panic!(rt; "not an event"),
    }
}
