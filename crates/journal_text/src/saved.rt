//! A whole journal, written an entry at a time.
ghost use Rattle.std.specs.Prelude.{◌≡◌, ◌<◌, ◌∷◌, List, [], true, false, IfOk, IfSome, IfNone, OnOk, OnErr};
ghost use Rattle.std.specs.String.{string_bytes};
ghost use Rattle.journal_text.specs.Saved.{lines_counted, counts_at, has_no_room, is_folded, saved_line_text as line_text_lem, most_marks, saved_text, IsSaved, IsTypedLine};

use crate::entry::{Address, Entry, LineInput};
use crate::printing::write_line;
use crate::typed::typed;
use indexmap::IndexMap;
use memory_growth::{OutOfMemory, lists, tables, texts};
use obj_id::Reply;
use schedule_text::JobAt;
use std::alloc::Global;
use std::marker::Model;

/// The entries and notes that a job's list has at most.
const MOST_MARKS: u32 = 65_536;

/// What a line says after its number.
#[derive(Debug, Drop)]
pub struct Answered {
    pub input: LineInput,
    /// The answer without contents: bytes as their number.
    pub reply: Reply<u64>,
}

/// An entry or a note of a job at a node, with what its line says, if it has one.
#[derive(Debug, Drop)]
pub struct JournalItem {
    pub place: JobAt,
    pub line: Option<Answered>,
}

/// How many entries and notes a job at a node has, and how many of them have a line.
#[derive(Clone, Copy, Debug, PartialEq, Eq, Drop)]
pub struct Counts {
    pub marks: u32,
    pub lines: u32,
}

/// A journal that is being written: its text, as long as no list was folded.
#[derive(Drop)]
pub struct SavedJournal {
    alloc: Global,
    text: Vec<u8>,
    counts: IndexMap<JobAt, Counts>,
    folded: bool,
}

impl Model for SavedJournal {
    ghost use Rattle.journal_text.specs.Saved.{Saved};

    ghost Value = { Saved };

    ghost view = { λ s. record { text = s.text.items; counts = s.counts.entries; folded = s.folded } };
}

impl SavedJournal {
    /// A journal without an entry. The error is out of memory.
    pub fn new(alloc: Global) -> Result<SavedJournal, OutOfMemory>
        ensures { IfOk result (λ saved. IsSaved saved []) }
    {
        Ok(SavedJournal {
            alloc,
            text: lists::copied(alloc, b"journal 3\n")?,
            counts: IndexMap::new(alloc),
            folded: false,
        })
    }

    /// Adds an entry or a note. If it finds the list of its job full, that list is folded, and the journal can't be saved
    /// any more. The error is out of memory, and then no entry is added.
    pub fn add(&mut self, mark: JournalItem) -> Result<(), OutOfMemory>
        ensures after { OnOk result ((marks : List JournalItem) → IsSaved self.old marks → IsSaved self.new (mark ∷ marks)) }
        ensures same { OnErr result ((marks : List JournalItem) → IsSaved self.old marks → IsSaved self.new marks) }
    {
        let JournalItem { place, line } = mark;
        let counts = self.counts_at(place);
        if self.has_no_room(counts) {
            self.folded = true;
            return Ok(());
        }
        let more = counted(counts, &line);
        // all growth comes before the first change
        tables::reserve(&mut self.counts, 1)?;
        let text = line_text(self.alloc, place, counts.lines + 1, line)?;
        lists::extend_from_slice(&mut self.text, text.as_bytes())?;
        match tables::insert(&mut self.counts, place, more) {
            Ok(_) => Ok(()),
            Err(_) => unreachable!(),
        }
    }

    /// Whether the journal can't be saved any more, if a job has so many entries, notes and lines, and one more.
    fn has_no_room(&self, counts: Counts) -> bool
        ensures { result ≡ has_no_room self.now counts }
    {
        self.folded || counts.marks >= MOST_MARKS || counts.lines >= MOST_MARKS
    }

    /// How many entries, notes and lines a job at a node has.
    fn counts_at(&self, place: JobAt) -> Counts
        ensures { result ≡ counts_at self.now.counts place }
    {
        match self.counts.get(&place) {
            Some(counts) => *counts,
            None => Counts { marks: 0, lines: 0 },
        }
    }

    /// The text of the journal, if no list was folded.
    pub fn into_text(self) -> Option<Vec<u8>>
        ensures whole { IfSome result (λ text. (marks : List JournalItem) → IsSaved self marks → (is_folded marks ≡ false) × (text.items ≡ saved_text marks)) }
        ensures folded { IfNone result ((marks : List JournalItem) → IsSaved self marks → is_folded marks ≡ true) }
    {
        if self.folded { None } else { Some(self.text) }
    }
}

/// How many there are with one more, which has this line.
fn counted(counts: Counts, line: &Option<Answered>) -> Counts
    requires { (counts.marks < most_marks) × (counts.lines < most_marks) }
    ensures { result ≡ lines_counted counts line.now }
{
    Counts {
        marks: counts.marks + 1,
        lines: if line.is_some() {
            counts.lines + 1
        } else {
            counts.lines
        },
    }
}

/// The line of this number, with its line feed; nothing, if there is no line.
fn line_text(
    alloc: Global,
    place: JobAt,
    number: u32,
    line: Option<Answered>,
) -> Result<String, OutOfMemory>
    ensures text { IfOk result (λ text. string_bytes text ≡ line_text_lem place number line) }
    ensures typed { IfOk result (λ _. IsTypedLine place number line) }
{
    let Some(Answered { input, reply }) = line else {
        return Ok(String::new(alloc))
    };
    let JobAt { node, job } = place;
    let address = Address { node, job, number };
    let entry = Entry {
        address,
        input,
        reply,
    };
    typed(&entry);
    let mut text = write_line(alloc, &entry)?;
    texts::push(&mut text, '\n')?;
    Ok(text)
}
