//! The journals of all jobs: all growth comes before a step, and what the step adds then takes no memory. A contract sees the
//! journal of every job number, and how many more lines of a job take no memory.
ghost use Rattle.std.specs.Prelude.{◌≡◌, ℕ, ◌==◌, ◌+◌, ◌∷◌, ◌<◌, ◌≤◌, ◌||◌, [], true, length, map, if◌then◌else◌, None, OnOk, IfOk, IfSome, IfNone};
ghost use Rattle.std.specs.Option.{option_copied};
ghost use Rattle.std.specs.Map.{lookup};
ghost use Rattle.std.specs.List.{list_any, IsDistinct};
ghost use Rattle.std.specs.List.Sorted.{IsPermutation, IsNonDecreasingBy};
ghost use Rattle.obj_id.specs.declared.ids.JobNo.{JobNo};
ghost use Rattle.private_store.specs.rules.Jobs.{same_job};
ghost use Rattle.plain_store.specs.Parts.{has_begun as has_begun_lem};
ghost use Rattle.node_core.specs.Outcomes.{inputs_noted};
ghost use Rattle.node_journal.specs.Journals.{notes_for, begins, fresh, folded_if, last_of, base_after, with_lines, with_notes_absorbed_if, seems_fresh as seems_fresh_lem};
ghost use Rattle.node_journal.specs.Logs.{journal_of, list_of, spare_of, StandsAt, AreBases, has_base, was_kept as was_kept_lem};

use crate::entries::Line;
use crate::folding::{Base, MOST_LINES};
use indexmap::IndexMap;
use memory_growth::{MOST_ROOM, OutOfMemory, lists, tables};
use node_core::Note;
use obj_id::{ItemList, JobNo};
use plain_store::PlainStore;
use std::alloc::Global;
use std::marker::Model;

// the lines that a list has room for from half of what it may have on: all of those, and what is made room for before it is folded
const FULL_LIST: usize = MOST_LINES + 1_024;

/// The journal of one job.
#[derive(Drop)]
struct Log {
    base: Base,
    // the number of the step that the last folded line is of, notes that were settled aside, or 0
    covered: u64,
    // oldest first
    lines: Vec<Line>,
}

impl Model for Log {
    ghost use Rattle.std.specs.Prelude.{◌-◌, vec_len, vec_capacity};
    ghost use Rattle.node_journal.specs.Logs.{JobLog};

    ghost Value = { JobLog };

    ghost view = { λ l. record { journal = record { base = l.base; covered = l.covered; list = l.lines.items }; spare = vec_capacity l.lines - vec_len l.lines } };
}

impl Log {
    /// That of a job that no step was of. Takes no memory.
    fn new(alloc: Global, job: JobNo) -> Log
        ensures { result.journal ≡ fresh job.0 }
    {
        Log {
            base: Base {
                store: PlainStore::new(alloc, job),
                taken: 0,
            },
            covered: 0,
            lines: Vec::new(alloc),
        }
    }

    /// Makes room for so many lines more. A list that is half full has room for all lines at once, and for those of a step before it is
    /// folded: it would be moved to a place of twice its size for that step alone.
    fn reserve(&mut self, more: usize) -> Result<(), OutOfMemory>
        requires { more ≤ 8192 }
        ensures journal { self.new.journal ≡ self.old.journal }
        ensures spare { self.old.spare ≤ self.new.spare }
        ensures room { OnOk result (more ≤ self.new.spare) }
    {
        let count = self.lines.len();
        if count < MOST_LINES / 2 {
            return lists::reserve(&mut self.lines, more);
        }
        lists::reserve(&mut self.lines, more.max(FULL_LIST.saturating_sub(count)))
    }

    /// Adds a line, for which there is room.
    fn add(&mut self, line: Line)
        requires { 0 < self.old.spare }
        ensures journal { self.new.journal ≡ with_lines self.old.journal (line ∷ []) }
        ensures spare { self.old.spare ≤ self.new.spare + 1 }
    {
        self.lines.push(line).unwrap();
    }

    /// The lines go, and this is the base from now on. Takes no memory.
    fn fold(&mut self, base: Base)
        ensures journal { self.new.journal ≡ record { base = base; covered = last_of self.old.journal.covered self.old.journal.list; list = [] } }
        ensures spare { self.old.spare ≤ self.new.spare }
    {
        self.covered = last_number(self.covered, &self.lines);
        self.lines.clear();
        self.base = base;
    }

    /// The same, and gives the memory of the lines back.
    fn fold_away(&mut self, alloc: Global, base: Base)
        ensures { self.new.journal ≡ record { base = base; covered = last_of self.old.journal.covered self.old.journal.list; list = [] } }
    {
        self.covered = last_number(self.covered, &self.lines);
        self.lines = Vec::new(alloc);
        self.base = base;
    }

    /// The notes go, and this is the base from now on: nothing more is covered. Gives the memory of the lines back.
    fn absorb_notes(&mut self, alloc: Global, base: Base)
        ensures { self.new.journal ≡ record { base = base; covered = self.old.journal.covered; list = [] } }
    {
        self.lines = Vec::new(alloc);
        self.base = base;
    }

    /// Whether no step was of the job, as far as the journal of one that isn't live tells.
    fn seems_fresh(&self) -> bool
        ensures { result ≡ seems_fresh_lem self.now.journal }
    {
        self.covered == 0 && self.lines.is_empty() && self.base.is_blank()
    }

    /// Whether the job was ever admitted.
    fn has_begun(&self) -> bool
        ensures { result ≡ (has_begun_lem self.now.journal.base.store.shape.life || list_any begins self.now.journal.list) }
    {
        self.base.store.has_begun() || any_begins(&self.lines)
    }

    /// Whether it says something: it has a line, or one that was folded, or a grant in its base.
    fn was_kept(&self) -> bool
        ensures { result ≡ was_kept_lem self.now.journal }
    {
        self.covered > 0 || !self.lines.is_empty() || self.base.has_grants()
    }

    fn covered(&self) -> u64
        ensures { result ≡ self.now.journal.covered }
    {
        self.covered
    }

    fn as_slice(&self) -> &[Line]
        ensures { result.now ≡ self.now.journal.list }
    {
        &self.lines
    }
}

/// The number of the last line's step, or this one if there is no line.
fn last_number(number: u64, lines: &[Line]) -> u64
    ensures { result ≡ last_of number lines.now }
{
    match lines.last() {
        Some(line) => line.number(),
        None => number,
    }
}

/// Whether one of the lines is of the job's admission.
fn any_begins(lines: &[Line]) -> bool
    ensures { result ≡ list_any begins lines.now }
{
    lines.iter().any(|line| line.begins())
}

/// The journals of all jobs.
#[derive(Drop)]
pub struct Logs {
    alloc: Global,
    logs: IndexMap<JobNo, Log>,
    // the place of the job that was last in turn
    turn: usize,
    // where a job is looked for first: the place of the one that room was made for last, if it wasn't moved since
    latest: usize,
}

impl Model for Logs {
    ghost use Rattle.std.specs.Prelude.{List};
    ghost use Rattle.obj_id.specs.declared.ids.JobNo.{JobNo};
    ghost use Rattle.node_journal.specs.Logs.{JobLog};

    ghost Value = { List (JobNo × JobLog) };

    ghost view = { λ m. m.logs.entries };
}

impl Logs {
    /// No lines. Takes no memory.
    pub fn new(alloc: Global) -> Logs
        ensures { result ≡ [] }
    {
        Logs {
            alloc,
            logs: IndexMap::new(alloc),
            turn: 0,
            latest: 0,
        }
    }

    /// Makes room for a line of the job, and a line more for each of these jobs, whichever they are. The journals stay as
    /// they are, whatever the result. The job is found at once from then on.
    pub fn reserve(&mut self, job: JobNo, grantees: &[JobNo]) -> Result<(), OutOfMemory>
        requires { length grantees.now ≤ 4096 }
        ensures journals { (other : ℕ) → journal_of self.new other ≡ journal_of self.old other }
        ensures own { OnOk result (length grantees.now + 1 ≤ spare_of self.new job.0) }
        ensures room { OnOk result ((grantee : JobNo) → list_any (same_job grantee) grantees.now ≡ true → length grantees.now + 1 ≤ spare_of self.new grantee.0) }
    {
        let most = grantees.len() + 1;
        for grantee in grantees {
            self.grow(*grantee, most)?;
        }
        self.grow(job, most)
    }

    /// Makes room for so many lines of the job.
    fn grow(&mut self, job: JobNo, more: usize) -> Result<(), OutOfMemory>
        requires { more ≤ 8192 }
        ensures journals { (other : ℕ) → journal_of self.new other ≡ journal_of self.old other }
        ensures spare { (other : ℕ) → spare_of self.old other ≤ spare_of self.new other }
        ensures room { OnOk result (more ≤ spare_of self.new job.0) }
    {
        if let Some(place) = self.place_of(job) {
            self.latest = place;
            let (_, log) = self.logs.pair_mut(place);
            return log.reserve(more);
        }
        let mut log = Log::new(self.alloc, job);
        log.reserve(more)?;
        self.latest = self.logs.len();
        match tables::insert(&mut self.logs, job, log) {
            Ok(_) => Ok(()),
            Err(refused) => Err(refused),
        }
    }

    /// The job's place, if it has one. Takes a look-up, if it isn't that of the job that room was made for last.
    fn place_of(&self, job: JobNo) -> Option<usize>
        ensures stands { IfSome result (StandsAt self.now job) }
        ensures within { IfSome result (λ place. place < length self.now) }
        ensures none { IfNone result (lookup (same_job job) self.now ≡ None) }
    {
        match self.logs.get_index(self.latest) {
            Some((own, _)) if own.0 == job.0 => Some(self.latest),
            _ => {
                let (place, _, _) = self.logs.get_full(&job)?;
                Some(place)
            }
        }
    }

    /// The job's log, if it has one. Takes a look-up, if it isn't that of the job that room was made for last.
    fn find(&self, job: JobNo) -> Option<&Log>
        ensures { option_copied result ≡ lookup (same_job job) self.now }
    {
        match self.logs.get_index(self.latest) {
            Some((own, log)) if own.0 == job.0 => Some(log),
            _ => self.logs.get(&job),
        }
    }

    /// Adds a line of the job. There is room for it: this takes no memory.
    pub fn add(&mut self, job: JobNo, line: Line)
        requires { 0 < spare_of self.old job.0 }
        ensures journal { (other : ℕ) → journal_of self.new other ≡ (if job.0 == other then with_lines (journal_of self.old other) (line ∷ []) else journal_of self.old other) }
        ensures spare { (other : ℕ) → spare_of self.old other ≤ spare_of self.new other + 1 }
    {
        let Some(place) = self.place_of(job) else {
            unreachable!()
        };
        let (_, log) = self.logs.pair_mut(place);
        log.add(line);
    }

    /// Adds what the step of this number told the grantees. There is room for it: this takes no memory.
    pub fn add_notes(&mut self, number: u64, notes: &[Note])
        requires { (grantee : JobNo) → list_any (λ note. same_job grantee note.job) notes.now ≡ true → length notes.now ≤ spare_of self.old grantee.0 }
        ensures { (other : ℕ) → journal_of self.new other ≡ with_lines (journal_of self.old other) (notes_for number (inputs_noted notes.now) other) }
    {
        for note in notes {
            self.add(note.job, Line::Note(number, note.input));
        }
    }

    /// Folds the job's lines into its base, which is then this one. Takes no memory.
    pub(crate) fn fold(&mut self, job: JobNo, base: Base)
        requires { base ≡ base_after (journal_of self.old job.0) }
        ensures journal { (other : ℕ) → journal_of self.new other ≡ folded_if (job.0 == other) (journal_of self.old other) }
        ensures spare { (other : ℕ) → spare_of self.old other ≤ spare_of self.new other }
    {
        let Some(log) = self.logs.get_mut(&job) else {
            return;
        };
        log.fold(base);
    }

    /// Folds the job's lines into its base, which is then this one, and gives the memory of the lines back. Takes none.
    pub(crate) fn fold_away(&mut self, job: JobNo, base: Base)
        requires { base ≡ base_after (journal_of self.old job.0) }
        ensures { (other : ℕ) → journal_of self.new other ≡ folded_if (job.0 == other) (journal_of self.old other) }
    {
        let Some(log) = self.logs.get_mut(&job) else {
            return;
        };
        log.fold_away(self.alloc, base);
    }

    /// Folds the lines of these jobs into their bases, which are then these. Takes no memory.
    pub(crate) fn fold_all(&mut self, bases: Vec<(JobNo, Base)>)
        requires { AreBases bases.items (journal_of self.old) }
        ensures journal { (other : ℕ) → journal_of self.new other ≡ folded_if (has_base other bases.items) (journal_of self.old other) }
        ensures spare { (other : ℕ) → spare_of self.old other ≤ spare_of self.new other }
    {
        for (job, base) in bases {
            self.fold(job, base);
        }
    }

    /// The notes of a job are part of its base, which is then this one, and nothing more is covered. Gives the memory of the lines
    /// back, and takes none.
    pub(crate) fn absorb_notes(&mut self, job: JobNo, base: Base)
        requires { base ≡ base_after (journal_of self.old job.0) }
        ensures { (other : ℕ) → journal_of self.new other ≡ with_notes_absorbed_if (job.0 == other) (journal_of self.old other) }
    {
        let Some(log) = self.logs.get_mut(&job) else {
            return;
        };
        log.absorb_notes(self.alloc, base);
    }

    /// Lets go what is kept of a job that no step was of. Takes no memory.
    pub(crate) fn forget(&mut self, job: JobNo)
        requires { journal_of self.old job.0 ≡ fresh job.0 }
        ensures journals { (other : ℕ) → journal_of self.new other ≡ journal_of self.old other }
        ensures forgotten { lookup (same_job job) self.new ≡ None }
    {
        self.logs.swap_remove(&job);
    }

    /// The job that is next in turn, if there is one. Turns go from the last job to the first, so that none is passed over if one is
    /// forgotten.
    pub(crate) fn in_turn(&mut self) -> Option<JobNo>
        ensures { self.new ≡ self.old }
    {
        if self.turn == 0 {
            self.turn = self.logs.len();
        }
        self.turn = self.turn.checked_sub(1)?;
        let (job, _) = self.logs.get_index(self.turn)?;
        Some(*job)
    }

    /// Whether no step was of the job, as far as the journal of one that isn't live tells.
    pub(crate) fn seems_fresh(&self, job: JobNo) -> bool
        ensures { result ≡ seems_fresh_lem (journal_of self.now job.0) }
    {
        match self.find(job) {
            Some(log) => log.seems_fresh(),
            None => true,
        }
    }

    /// Whether the job was ever admitted. Takes a walk over its lines.
    pub fn has_begun(&self, job: JobNo) -> bool
        ensures { result ≡ (has_begun_lem (journal_of self.now job.0).base.store.shape.life || list_any begins (list_of self.now job.0)) }
    {
        match self.find(job) {
            Some(log) => log.has_begun(),
            None => false,
        }
    }

    /// The jobs whose journal says something, each once and by rising number. Takes a walk over all jobs, a sort, and memory for each.
    pub fn jobs(&self) -> Result<ItemList<JobNo>, OutOfMemory>
        ensures kept { IfOk result (λ jobs. (job : ℕ) → list_any (λ own. own.0 == job) jobs ≡ was_kept_lem (journal_of self.now job)) }
        ensures once { IfOk result (λ jobs. IsDistinct same_job jobs) }
        ensures rising { IfOk result (λ jobs. IsNonDecreasingBy (λ (job : JobNo). job.0) jobs) }
    {
        let mut jobs = jobs_of(self.alloc, &self.logs)?;
        sort_jobs(&mut jobs);
        Ok(ItemList::from_vec(jobs))
    }

    /// The number of the step that the job's last folded line is of, notes that were settled aside, or 0.
    pub fn covered(&self, job: JobNo) -> u64
        ensures { result ≡ (journal_of self.now job.0).covered }
    {
        match self.find(job) {
            Some(log) => log.covered(),
            None => 0,
        }
    }

    /// The job's lines after its base, oldest first; none for a job that had no step.
    pub fn list(&self, job: JobNo) -> &[Line]
        ensures { result.now ≡ list_of self.now job.0 }
    {
        match self.find(job) {
            Some(log) => log.as_slice(),
            None => &[],
        }
    }
}

/// The jobs whose journal says something.
fn jobs_of(alloc: Global, logs: &IndexMap<JobNo, Log>) -> Result<Vec<JobNo>, OutOfMemory>
    ensures kept { IfOk result (λ jobs. (job : ℕ) → list_any (λ own. own.0 == job) jobs.items ≡ was_kept_lem (journal_of logs.now.entries job)) }
    ensures once { IfOk result (λ jobs. IsDistinct same_job jobs.items) }
{
    let mut jobs = lists::with_capacity(alloc, logs.len().min(MOST_ROOM))?;
    for (job, log) in logs {
        if log.was_kept() {
            lists::push(&mut jobs, *job)?;
        }
    }
    Ok(jobs)
}

/// The jobs by rising number.
fn sort_jobs(jobs: &mut Vec<JobNo>)
    ensures permutation { IsPermutation jobs.old.items jobs.new.items }
    ensures rising { IsNonDecreasingBy (λ (job : JobNo). job.0) jobs.new.items }
{
    jobs.sort_unstable_by_key(|job| job.0);
}
