//! What the input of a line is to its job's store.
ghost use Rattle.std.specs.Prelude.{◌≡◌};
ghost use Rattle.private_store.specs.rules.Contents.{source_in as source_in_lem};
ghost use Rattle.journal_replay.specs.Inputs.{command_meant as command_meant_lem, first_form as first_form_lem, judged_of as judged_of_lem};

use journal_text::{Address, LineInput, Version};
use obj_id::{Command, JobNo, Location};
use private_store::{Judged, Source};

/// The input of a line that stands there in a journal of this form.
pub(crate) fn judged_of(version: Version, address: Address, input: LineInput) -> Judged
    ensures { result ≡ judged_of_lem version address input }
{
    match input {
        LineInput::Begin(quota) => Judged::Begin(quota),
        LineInput::Requota(quota) => Judged::Requota(quota),
        LineInput::End => Judged::End,
        LineInput::Call(session, command) => {
            Judged::Call(session, command_meant(version, address.job, command))
        }
        LineInput::Answer(number, verdict) => Judged::Answer(number, verdict),
        LineInput::Located {
            id,
            number,
            entries,
        } => {
            Judged::Located {
                id,
                number,
                source: source_in(address.node, entries.as_slice()),
            }
        }
        LineInput::Chunk {
            id,
            number,
            index,
            from,
            verdict,
        } => {
            Judged::Chunk {
                id,
                number,
                index,
                from,
                verdict,
            }
        }
        LineInput::Pull {
            id,
            number,
            matches: matched,
        } => Judged::Pull {
            id,
            number,
            matches: matched,
        },
        LineInput::NotHere { id, number, from } => Judged::NotHere { id, number, from },
        LineInput::Received {
            id,
            length,
            grantor,
            depth,
        } => Judged::Received {
            id,
            length,
            grantor,
            depth,
        },
        LineInput::Withdrawn { id, grantor, depth } => Judged::Withdrawn { id, grantor, depth },
    }
}

/// The command of a job, as a journal of this form means it.
fn command_meant(version: Version, job: JobNo, command: Command<u64>) -> Command<u64>
    ensures { result ≡ command_meant_lem version job.0 command }
{
    match version {
        Version::One => first_form(job, command),
        Version::Two | Version::Three => command,
    }
}

/// The command, as version 1 means it, which knows no grants of what others granted: such a Grant is refused like any
/// other command on a foreign object.
fn first_form(job: JobNo, command: Command<u64>) -> Command<u64>
    ensures { result ≡ first_form_lem job.0 command }
{
    match command {
        Command::Grant(id, target) => {
            if id.job().0 == job.0 {
                Command::Grant(id, target)
            } else {
                Command::Release(id)
            }
        }
        other => other,
    }
}

/// The first entry of another node, if there is one.
fn source_in(node: u32, entries: &[Location]) -> Option<Source>
    ensures { result ≡ source_in_lem node entries.now }
{
    let entry = entries.iter().find(|entry| entry.node != node)?;
    Some(Source {
        node: entry.node,
        length: entry.length,
    })
}
