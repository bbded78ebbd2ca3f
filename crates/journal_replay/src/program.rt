//! What the program says to a journal.
ghost use Rattle.std.specs.Prelude.{◌≡◌, IfErr, IfOk, OnOk};
ghost use Rattle.std.specs.Io.KnownBytes.{Appends};
ghost use Rattle.std.specs.String.{string_bytes};
ghost use Rattle.journal_replay.specs.Texts.{Replays, difference_text as difference_text_lem, replay_text as outcome_text_lem, place_text as place_text_lem, replay_status_of as status_of_lem, replay_verdict_of as verdict_of_lem};

use crate::fault::ReplayFault;
use crate::journal::replay_journal;
use crate::replay::{Difference, ReplayResult};
use journal_text::{Address, Version, write_answer};
use memory_growth::{OutOfMemory, text_of};
use std::alloc::Global;
use std::io::{BufRead, Write};

/// Whether a journal's answers are those that are due.
#[derive(Clone, Copy, Debug, PartialEq, Eq)]
pub enum Verdict {
    /// All of them.
    Agrees,
    /// Not all of them.
    Differs,
}

/// Replays the journal that the reader gives, and writes one line: how many lines were replayed, or the first one whose
/// answer isn't the one that is due.
///
/// The whole text is read first, so a line that isn't an entry is printed before any difference. After a fault nothing is
/// written, unless the output itself failed.
pub fn replay_text<R: BufRead, W: Write>(
    alloc: Global,
    reader: &mut R,
    writer: &mut W,
) -> Result<Verdict, ReplayFault>
    ensures { Replays (R.remaining reader.old) (R.remaining reader.new) (W.contents writer.old) (W.contents writer.new) result }
{
    let outcome = match replay_journal(alloc, reader) {
        Ok(outcome) => outcome,
        Err(fault) => return Err(fault),
    };
    let Ok(text) = outcome_text(alloc, &outcome) else {
        return Err(ReplayFault::NoMemory)
    };
    match tell(&text, writer) {
        Ok(()) => Ok(verdict_of(&outcome.difference)),
        Err(fault) => Err(fault),
    }
}

/// Writes the text, and nothing of it is kept back.
fn tell<W: Write>(text: &str, writer: &mut W) -> Result<(), ReplayFault>
    ensures ok { OnOk result (Appends (W.contents writer.old) (W.contents writer.new) text.now) }
    ensures err { IfErr result (λ fault. fault ≡ ReplayFault.Output) }
{
    match writer.write_all(text.as_bytes()) {
        Ok(()) => {}
        Err(_) => return Err(ReplayFault::Output),
    }
    match writer.flush() {
        Ok(()) => Ok(()),
        Err(_) => Err(ReplayFault::Output),
    }
}

/// Whether nothing differs.
fn verdict_of(difference: &Option<Difference>) -> Verdict
    ensures { result ≡ verdict_of_lem difference.now }
{
    match difference {
        None => Verdict::Agrees,
        Some(_) => Verdict::Differs,
    }
}

/// The line that is written of a replay, with its line feed.
fn outcome_text(alloc: Global, outcome: &ReplayResult) -> Result<String, OutOfMemory>
    ensures { IfOk result (λ text. string_bytes text ≡ outcome_text_lem outcome.now) }
{
    match &outcome.difference {
        Some(difference) => difference_text(alloc, outcome.version, difference),
        None => {
            let lines = outcome.lines;
            text_of!(in alloc; "replayed {lines}\n")
        }
    }
}

/// The line of a difference, with its line feed.
fn difference_text(
    alloc: Global,
    version: Version,
    difference: &Difference,
) -> Result<String, OutOfMemory>
    ensures { IfOk result (λ text. string_bytes text ≡ difference_text_lem version difference.now) }
{
    let job = difference.address.job;
    let place = place_text(alloc, difference.address)?;
    let had = &difference.had;
    let due = write_answer(alloc, job, &difference.due, version)?;
    let text = text_of!(in alloc; "{place}: had {had}, should be {due}\n")?;
    Ok(text)
}

/// Where a line stands.
fn place_text(alloc: Global, address: Address) -> Result<String, OutOfMemory>
    ensures { IfOk result (λ text. string_bytes text ≡ place_text_lem address) }
{
    let number = address.number;
    let job = address.job.0;
    let node = address.node;
    text_of!(in alloc; "entry {number} of j{job} at n{node}")
}

/// The status with which the process ends: 0 if every line has the answer that is due, 1 otherwise.
pub fn status_of(outcome: &Result<Verdict, ReplayFault>) -> u8
    ensures { result ≡ status_of_lem outcome.now }
{
    match outcome {
        Ok(Verdict::Agrees) => 0,
        Ok(Verdict::Differs) | Err(_) => 1,
    }
}
