//! The replay of a journal's lines, one after another.
ghost use Rattle.std.specs.Prelude.{◌≡◌, ◌↔◌, suc, [], None, MatchOption, IfOk, IsTrue};
ghost use Rattle.journal_replay.specs.Progress.{Adds};
ghost use Rattle.journal_replay.specs.Replays.{IsUnlike};

use crate::inputs::judged_of;
use crate::jobs::Jobs;
use crate::replies::same_reply;
use journal_text::{Address, Entry, Version, answer_of};
use memory_growth::OutOfMemory;
use obj_id::Reply;
use std::alloc::Global;

/// A line whose answer isn't the one that is due.
#[derive(Debug, Drop)]
pub struct Difference {
    pub address: Address,
    /// The answer, as it stands in the line.
    pub had: String,
    /// The answer that the replay gives there.
    pub due: Reply<u64>,
}

/// What came of the replay of a whole journal.
#[derive(Debug, Drop)]
pub struct ReplayResult {
    pub version: Version,
    /// How many lines there are after the first.
    pub lines: u64,
    /// Of the first line whose answer isn't the one that is due.
    pub difference: Option<Difference>,
}

/// The lines of a journal so far.
#[derive(Drop)]
pub(crate) struct Replay {
    version: Version,
    jobs: Jobs,
    // of the first line that differs
    difference: Option<Difference>,
}

impl Replay {
    /// No lines yet. Takes no memory.
    pub(crate) fn new(alloc: Global, version: Version) -> Replay
        ensures version { result.version ≡ version }
        ensures jobs { result.jobs ≡ [] }
        ensures difference { result.difference ≡ None }
    {
        Replay {
            version,
            jobs: Jobs::new(alloc),
            difference: None,
        }
    }

    /// Takes the next line and its entry. False if its number isn't the next one of its job at its node: such a line isn't an entry.
    pub(crate) fn add(
        &mut self,
        alloc: Global,
        text: &str,
        entry: Entry,
    ) -> Result<bool, OutOfMemory>
        ensures { IfOk result (λ added. Adds added self.old self.new (record { text = text.now; entry = entry })) }
    {
        let Entry {
            address,
            input,
            reply,
        } = entry;
        let place = address.place();
        if !is_next(address.number, self.jobs.last(place)) {
            return Ok(false);
        }
        let input = judged_of(self.version, address, input);
        let due = self.jobs.step(place, address.number, &input)?;
        if self.difference.is_none() {
            self.difference = compare(alloc, text, address, reply, due)?;
        }
        Ok(true)
    }

    /// The form of the journal.
    pub(crate) fn version(&self) -> Version
        ensures { result ≡ self.now.version }
    {
        self.version
    }

    /// What came of it, after so many lines.
    pub(crate) fn end(self, lines: u64) -> ReplayResult
        ensures { result ≡ record { version = self.version; lines = lines; difference = self.difference } }
    {
        ReplayResult {
            version: self.version,
            lines,
            difference: self.difference,
        }
    }
}

/// The difference of a line, if its answer isn't the one that is due.
fn compare(
    alloc: Global,
    text: &str,
    address: Address,
    reply: Reply<u64>,
    due: Reply<u64>,
) -> Result<Option<Difference>, OutOfMemory>
    ensures { IfOk result (λ found. MatchOption found (reply ≡ due) (IsUnlike text.now address reply due)) }
{
    if same_reply(&reply, &due) {
        return Ok(None);
    }
    let had = answer_of(alloc, text)?;
    Ok(Some(Difference { address, had, due }))
}

/// Whether the number comes next after the last one.
fn is_next(number: u32, last: u32) -> bool
    ensures { IsTrue result ↔ (number ≡ suc last) }
{
    match number.checked_sub(1) {
        Some(before) => before == last,
        None => false,
    }
}
