//! A law of the two definitions: what is written is read back.
ghost use Rattle.std.specs.Prelude.{◌≢◌, All};
ghost use Rattle.journal_text.specs.declared.entry.Entry.{Entry};
ghost use Rattle.journal_text.specs.declared.entry.Version.TheVariants.{Three};
ghost use Rattle.journal_text.specs.Printing.{entry_text};
ghost use Rattle.journal_text.specs.Reading.{IsEntryLine};
ghost use Rattle.journal_text.specs.Writable.{IsWritable};

/// The line that is written of an entry spells that entry in version 3, if each number fits its field, each id is one, and the
/// answer is one to the input. So `read_line` reads it back from what `write_line` wrote. And it is one line.
pub fn a_written_line_is_read_back()
    ensures read { (x : Entry) → IsWritable x → IsEntryLine Three (entry_text x) x }
    ensures whole { (x : Entry) → IsWritable x → All (λ byte. byte ≢ 10) (entry_text x) }
{}
