//! A law of journals that are saved. The function does nothing; its contract is a theorem.
ghost use Rattle.std.specs.Prelude.{ℕ, List, Option, Some, Result};
ghost use Rattle.journal_text.specs.declared.saved.JournalItem.{JournalItem};
ghost use Rattle.journal_text.specs.Saved.{saved_text, AreTyped};
ghost use Rattle.journal_replay.specs.declared.fault.ReplayFault.{ReplayFault};
ghost use Rattle.journal_replay.specs.declared.program.Verdict.{Verdict};
ghost use Rattle.journal_replay.specs.Saved.{entries_saved, lines_after_first, AreSound, SavedReplays};
ghost use Rattle.journal_replay.specs.Texts.{Replays};

/// Over the text of a saved journal whose entries are proper ones, and have the answers that are due, `replay_text` writes `replayed`
/// with the number of its lines after the first, unless reading, the memory or the output fails. Of no line it says that it
/// is no entry.
pub fn a_sound_journal_replays()
    ensures { (marks : List JournalItem) (left written_old written_new : Option (List ℕ)) (result : Result Verdict ReplayFault)
        → AreTyped marks → AreSound (entries_saved marks) → Replays (Some (saved_text marks)) left written_old written_new result
        → SavedReplays (lines_after_first (saved_text marks)) written_old written_new result }
{}
