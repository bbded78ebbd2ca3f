//! A whole journal, read and replayed.
ghost use Rattle.std.specs.Prelude.{◌≡◌, ◌≢◌, [], true, false, IfOk, IfErr, IfSome, MatchOption};
ghost use Rattle.std.specs.Io.{StopsAt};
ghost use Rattle.std.specs.Io.BufRead.{take_through};
ghost use Rattle.std.specs.Io.KnownBytes.{Consumes, IsAtEnd};
ghost use Rattle.journal_text.specs.Reading.{head_text};
ghost use Rattle.journal_replay.specs.Journals.{IsNoHead, JournalEnds};
ghost use Rattle.schedule_text.specs.Lines.{with_line_feed};
ghost use Rattle.journal_replay.specs.Progress.{IsJournalFault, LinesEnd, TakesLine};

use crate::fault::ReplayFault;
use crate::replay::{Replay, ReplayResult};
use journal_text::{Version, read_head, read_line};
use memory_growth::OutOfMemory;
use std::alloc::Global;
use std::io::{BufRead, ErrorKind};
use std::str;

/// Replays the journal that the reader gives, to its end.
pub fn replay_journal<R: BufRead>(
    alloc: Global,
    reader: &mut R,
) -> Result<ReplayResult, ReplayFault>
    ensures { JournalEnds (R.remaining reader.old) (R.remaining reader.new) result }
{
    let mut line = Vec::new(alloc);
    match next_line(reader, &mut line) {
        Err(fault) => return Err(fault),
        Ok(_) => {}
    }
    match head(&line) {
        Some(version) => replay_lines(alloc, version, reader),
        None => Err(ReplayFault::NotAnEntry(1)),
    }
}

/// The lines after the first.
fn replay_lines<R: BufRead>(
    alloc: Global,
    version: Version,
    reader: &mut R,
) -> Result<ReplayResult, ReplayFault>
    ensures { LinesEnd version (R.remaining reader.old) (R.remaining reader.new) result }
{
    let mut replay = Replay::new(alloc, version);
    let mut line = Vec::new(alloc);
    for number in 2..u64::MAX {
        match next_line(reader, &mut line) {
            Err(fault) => return Err(fault),
            Ok(false) => return Ok(replay.end(number - 2)),
            Ok(true) => {}
        }
        match replay_line(alloc, &mut replay, &line) {
            Err(_) => return Err(ReplayFault::NoMemory),
            Ok(false) => return Err(ReplayFault::NotAnEntry(number)),
            Ok(true) => {}
        }
    }
    // more lines than there are numbers
    Err(ReplayFault::Input)
}

/// Reads a line with its line feed, the last one perhaps without, unless the input is at its end.
fn next_line<R: BufRead>(reader: &mut R, line: &mut Vec<u8>) -> Result<bool, ReplayFault>
    ensures consumed { Consumes (R.remaining reader.old) (R.remaining reader.new) line.new.items }
    ensures one { StopsAt line.new.items 10 }
    ensures whole { IfOk result (λ _. IfSome (R.remaining reader.old) (λ left. line.new.items ≡ take_through 10 left)) }
    ensures end { IfOk result (λ is_line. is_line ≡ false → IsAtEnd (R.remaining reader.old)) }
    ensures more { IfOk result (λ is_line. is_line ≡ true → line.new.items ≢ []) }
    ensures fault { IfErr result IsJournalFault }
{
    line.clear();
    match reader.read_until(b'\n', line) {
        Ok(count) => Ok(count != 0),
        Err(error) if error.kind() == ErrorKind::OutOfMemory => Err(ReplayFault::NoMemory),
        Err(_) => Err(ReplayFault::Input),
    }
}

/// The form that the first line, with its line feed, names.
fn head(bytes: &[u8]) -> Option<Version>
    ensures { MatchOption result (IsNoHead bytes.now) (λ version. bytes.now ≡ with_line_feed (head_text version)) }
{
    let Some((b'\n', text)) = bytes.split_last() else {
        return None
    };
    let Ok(text) = str::from_utf8(text) else {
        return None
    };
    read_head(text)
}

/// Replays the next line, with its line feed. False if it isn't an entry.
fn replay_line(alloc: Global, replay: &mut Replay, bytes: &[u8]) -> Result<bool, OutOfMemory>
    ensures { IfOk result (λ taken. TakesLine taken replay.old replay.new bytes.now) }
{
    let Some((b'\n', text)) = bytes.split_last() else {
        return Ok(false)
    };
    let Ok(text) = str::from_utf8(text) else {
        return Ok(false)
    };
    match read_line(alloc, text, replay.version())? {
        None => Ok(false),
        Some(entry) => {
            let added = replay.add(alloc, text, entry)?;
            Ok(added)
        }
    }
}
