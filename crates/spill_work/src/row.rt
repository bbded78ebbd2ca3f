//! The works of one job.
ghost use Rattle.std.specs.Prelude.{◌≡◌, ◌+◌, ◌<◌, ◌==◌, ◌^◌, ◌++◌, ◌≤◌, [], Some, not, find, filter, map, length, vec_len, vec_capacity, IfOk, OnOk, OnErr};
ghost use Rattle.std.specs.Option.{option_map};
ghost use Rattle.spill_work.specs.Turns.{has_number, with_mark, timed, earlier as earlier_lem, front_from};

use crate::queue::{IoRequest, Queued};
use memory_growth::{OutOfMemory, lists};
use obj_id::{ItemList, JobNo, ObjectId, WorkKind};
use std::alloc::Global;
use std::marker::Model;

/// A work, and its turn among those of all jobs.
#[derive(Clone, Copy, Debug)]
pub(crate) struct Timed {
    pub turn: u64,
    pub work: Queued,
}

/// The works of one job, in the order asked.
#[derive(Drop)]
pub(crate) struct Row {
    works: Vec<Timed>,
}

impl Model for Row {
    ghost use Rattle.std.specs.Prelude.{List};
    ghost use Rattle.spill_work.specs.declared.row.Timed.{Timed};

    ghost Value = { List Timed };

    ghost view = { λ r. r.works.items };
}

impl Row {
    /// No works.
    pub(crate) fn new(alloc: Global) -> Row
        ensures { result ≡ [] }
    {
        Row {
            works: Vec::new(alloc),
        }
    }

    /// How many they are.
    pub(crate) fn len(&self) -> usize
        ensures { result ≡ length self.now }
    {
        self.works.len()
    }

    /// How many of them were taken.
    pub(crate) fn taken(&self) -> usize
        ensures { result ≡ length (filter (λ t. t.work.taken) self.now) }
    {
        self.works.iter().filter(|timed| timed.work.taken).count()
    }

    /// What each asks, in their order. Takes a walk over them, and memory for each.
    pub(crate) fn asked(&self, alloc: Global) -> Result<ItemList<IoRequest>, OutOfMemory>
        ensures { IfOk result (λ asked. asked ≡ map (λ t. t.work.asked) self.now) }
    {
        let mut asked = Vec::new(alloc);
        for timed in &self.works {
            lists::push(&mut asked, timed.work.asked)?;
        }
        Ok(ItemList::from_vec(asked))
    }

    /// The work under the number.
    pub(crate) fn work_at(&self, number: u64) -> Option<Queued>
        ensures { result ≡ option_map (λ t. t.work) (find (has_number number) self.now) }
    {
        self.works
            .iter()
            .find(|timed| timed.work.asked.number == number)
            .map(|timed| timed.work)
    }

    /// Of this one and those of the row that nobody has taken the first in its turn.
    pub(crate) fn front(&self, other: Option<Timed>) -> Option<Timed>
        ensures { result ≡ front_from other self.now }
    {
        let mut first = other;
        for timed in &self.works {
            if !timed.work.taken {
                first = Some(earlier(first, timed));
            }
        }
        first
    }

    /// Marks what is under the number as taken.
    pub(crate) fn mark(&mut self, number: u64)
        ensures { self.new ≡ map (with_mark number) self.old }
    {
        for timed in self.works.iter_mut() {
            if timed.work.asked.number == number {
                timed.work.taken = true;
            }
        }
    }

    /// Takes out what is under the number; the others keep their order.
    pub(crate) fn take_out(&mut self, number: u64)
        ensures { self.new ≡ filter (λ t. not (has_number number t)) self.old }
    {
        self.works.retain(|timed| timed.work.asked.number != number);
    }

    /// A work on each of these objects comes last, under the numbers and turns that come next. A failure
    /// changes nothing.
    pub(crate) fn ask(
        &mut self,
        job: JobNo,
        kind: WorkKind,
        last: u64,
        turn: u64,
        ids: &[ObjectId],
    ) -> Result<(), OutOfMemory>
        requires numbers { last + length ids.now < 2 ^ 64 }
        requires turns { turn + length ids.now < 2 ^ 64 }
        ensures ok { OnOk result (self.new ≡ self.old ++ timed job kind last turn ids.now) }
        ensures err { OnErr result (self.new ≡ self.old) }
    {
        lists::reserve_for(&mut self.works, ids)?;
        push_timed(&mut self.works, job, kind, last, turn, ids);
        Ok(())
    }
}

/// The one that is earlier in its turn.
fn earlier(first: Option<Timed>, timed: &Timed) -> Timed
    ensures { Some result ≡ earlier_lem first timed.now }
{
    match first {
        Some(early) if early.turn < timed.turn => early,
        _ => *timed,
    }
}

/// The works come last among these, which have room for them.
fn push_timed(
    works: &mut Vec<Timed>,
    job: JobNo,
    kind: WorkKind,
    last: u64,
    turn: u64,
    ids: &[ObjectId],
)
    requires numbers { last + length ids.now < 2 ^ 64 }
    requires turns { turn + length ids.now < 2 ^ 64 }
    requires room { vec_len works.old + length ids.now ≤ vec_capacity works.old }
    ensures { works.new.items ≡ works.old.items ++ timed job kind last turn ids.now }
{
    let (mut number, mut turn) = (last, turn);
    for id in ids {
        number += 1;
        let asked = IoRequest {
            job,
            number,
            id: *id,
            kind,
        };
        let work = Queued {
            asked,
            taken: false,
        };
        works.push(Timed { turn, work }).unwrap();
        turn += 1;
    }
}
