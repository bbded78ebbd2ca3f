//! A law of runs whose journals are saved. The function does nothing; its contract is a theorem about the calls of `store run` and of
//! `store replay`.
#![tactic(auto)]

ghost use Rattle.std.specs.Prelude.{◌≡◌, ℕ, List, Option, Some, Result, Ok, true};
ghost use Rattle.journal_text.specs.Saved.{Saved};
ghost use Rattle.journal_replay.specs.declared.fault.ReplayFault.{ReplayFault};
ghost use Rattle.journal_replay.specs.declared.program.Verdict.{Verdict};
ghost use Rattle.journal_replay.specs.Saved.{lines_after_first, SavedReplays};
ghost use Rattle.journal_replay.specs.Texts.{Replays};
ghost use Rattle.world_core.specs.declared.ClusterSize.{ClusterSize};
ghost use Rattle.world_core.specs.Worlds.{is_shape};
ghost use Rattle.schedule_runs.specs.Runs.{Ran};
ghost use Rattle.journal_laws.specs.SavedRuns.{IsTextOf};

/// Whatever schedule `run_text` carried out to its end, keeping a journal: over the text that `RunJournal::into_text` gives of it
/// `replay_text` writes `replayed` with the number of its lines after the first, unless reading, the memory or the output fails. Of no
/// line it says that it is no entry, and of none that its answer isn't the one that is due.
pub fn a_saved_journal_replays()
    ensures { (shape : ClusterSize) (journal : Option Saved) (read_old read_new printed_old printed_new : Option (List ℕ)) (text : List ℕ)
        → is_shape shape ≡ true
        → Ran shape.nodes shape.memory true journal read_old read_new printed_old printed_new (Ok tt)
        → IsTextOf journal text
        → (left written_old written_new : Option (List ℕ)) (result : Result Verdict ReplayFault)
        → Replays (Some text) left written_old written_new result
        → SavedReplays (lines_after_first text) written_old written_new result }
{}
