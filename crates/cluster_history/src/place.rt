//! A place of a cluster in the history: a node, or the directory.
ghost use Rattle.std.specs.Prelude.{◌≡◌, ◌<◌, ◌+◌, ◌-◌, ◌^◌, [], List, None, length};
ghost use mathlib.Core.List.{IsPrefix};
ghost use Rattle.private_store.specs.declared.schedules.Traced.{Traced};
ghost use Rattle.cluster_history.specs.Histories.{count_at, stands_at};
ghost use Rattle.cluster_history.specs.Rules.{GoesOn, MayFollow, word_of};

use crate::book::{Add, Blank, Law, Nothing};
use crate::names::{ClusterShape, HistoryName};
use crate::sight::Sight;
use logbook::{Offer, Pens, Plain, Seen, Start, Word};
use private_store::Traced;
use std::marker::{Model, PhantomData};
use std::sync::Wait;

/// What a place knows of the history, with the right to add to it. Contracts see the place's number and what it knows. The directory's
/// number comes after the nodes'.
pub struct Place<N: HistoryName, S: ClusterShape> {
    number: u64,
    word: Word<Traced, u64, Law<S>>,
    seen: Seen<Traced, u64, Law<S>>,
    of: PhantomData<N>,
}

impl<N: HistoryName, S: ClusterShape> Model for Place<N, S> {
    ghost use Rattle.std.specs.Prelude.{◌≡◌, ◌<◌, ◌+◌, ℕ, List};
    ghost use Rattle.private_store.specs.declared.schedules.Traced.{Traced};
    ghost use Rattle.cluster_history.specs.Rules.{word_of};

    ghost Value = { ℕ × List Traced };

    ghost view = { λ p. (p.number, p.seen.log) };

    ghost invariant = { λ p. (p.seen.book ≡ N.book) × (p.word ≡ word_of p.number N.book) × (p.number < S.nodes + 1) };
}

// By hand, so that it is proved here and not in each crate above.
impl<N: HistoryName, S: ClusterShape> Drop for Place<N, S> {
    fn drop(self) {
        let Place {
            number: _,
            word: _word,
            seen: _seen,
            of: _,
        } = self;
    }
}

impl<N: HistoryName, S: ClusterShape> Place<N, S> {
    /// What it knows.
    pub fn sight(&self) -> Sight<N, S>
        ensures { result ≡ self.now.1 }
    {
        Sight {
            seen: self.seen.again(),
            of: PhantomData,
        }
    }

    /// Adds the entry, after what was seen elsewhere: the other places may have added theirs meanwhile, and this place hasn't. One atomic
    /// exchange, and no memory.
    pub fn add<R: Wait, X, M: Plain<X, Traced, u64>>(
        &mut self,
        rt: &R,
        count: u64,
        entry: &X,
        after: &Sight<N, S>,
    )
        requires few { count + 1 < 2 ^ 64 }
        requires counted { count_at S.nodes self.old.0 self.old.1 ≡ count }
        requires here { stands_at S.nodes (M.ask entry.now).step ≡ self.old.0 }
        requires fresh { M.state entry.now ≡ None }
        requires follows { (seen : List Traced) → IsPrefix after.now seen → MayFollow S.nodes S.memory self.old.0 self.old.1 seen (M.ask entry.now) }
        ensures place { self.new.0 ≡ self.old.0 }
        ensures goes_on { GoesOn S.nodes S.memory self.old.0 self.old.1 after.now self.new.1 (M.ask entry.now) }
    {
        let mut seen = self.seen.again();
        seen.learn(&after.seen);
        let mut offer: Offer<Traced, u64, Law<S>, Nothing> = seen.plain::<Nothing, X, M>(entry);
        let mut pen = seen.no_pen();
        let found = self
            .word
            .compare_exchange::<Add<S>, Nothing>(count, count + 1, &mut seen, &mut offer, &mut pen);
        if found == count {
            self.seen = seen;
            return;
        }
        // nobody else has the word
        never(rt);
        unreachable!()
    }
}

/// Doesn't return.
fn never<R: Wait>(rt: &R)
    ensures { ⊥ }
{
    for _ in rt.forever() {}
    unreachable!()
}

/// The places of a new history that are still to be given out, by rising number. Contracts see how many they are.
pub struct Places<N: HistoryName, S: ClusterShape> {
    next: u64,
    pens: Pens,
    seen: Seen<Traced, u64, Law<S>>,
    of: PhantomData<N>,
}

impl<N: HistoryName, S: ClusterShape> Model for Places<N, S> {
    ghost use Rattle.std.specs.Prelude.{◌≡◌, ◌≤◌, ◌^◌, ◌+◌, ℕ, []};

    ghost Value = { ℕ };

    ghost view = { λ p. p.pens.left };

    ghost invariant = { λ p. ((p.seen.book ≡ N.book) × (p.pens.book ≡ N.book)) × ((p.seen.log ≡ []) × ((p.pens.next ≡ p.next) × ((p.next + p.pens.left ≡ S.nodes + 1) × (p.next + p.pens.left ≤ 2 ^ 32)))) };
}

// By hand, so that it is proved here and not in each crate above.
impl<N: HistoryName, S: ClusterShape> Drop for Places<N, S> {
    fn drop(self) {
        let Places {
            next: _,
            pens: _pens,
            seen: _seen,
            of: _,
        } = self;
    }
}

impl<N: HistoryName, S: ClusterShape> Places<N, S> {
    /// The next place, which knows of nothing yet.
    pub fn next(&mut self) -> Place<N, S>
        requires { 0 < self.old }
        ensures place { result ≡ (S.nodes + 1 - self.old, []) }
        ensures left { self.new + 1 ≡ self.old }
    {
        let mut pen = self.pens.take();
        let number = self.next;
        self.next = number + 1;
        Place {
            number,
            word: Word::tracked(0, &mut pen),
            seen: self.seen.again(),
            of: PhantomData,
        }
    }
}

/// A new history, in which nothing has happened, with its places. It has no name yet.
pub struct Opened<S: ClusterShape> {
    nodes: u32,
    pens: Pens,
    seen: Seen<Traced, u64, Law<S>>,
    pub ghost empty: { seen.log ≡ [] },
    pub ghost same: { pens.book ≡ seen.book },
    pub ghost first: { pens.next ≡ 0 },
    pub ghost all: { pens.left ≡ nodes + 1 },
}

impl<S: ClusterShape> Opened<S> {
    /// The history of a cluster of so many nodes.
    pub fn new(nodes: u32) -> Opened<S>
        requires { nodes ≡ S.nodes }
        ensures { result.nodes ≡ nodes }
    {
        let (seen, pens) = Seen::<Traced, u64, Law<S>>::open_row::<u32, Blank>(
            &nodes,
            Start::alone(),
            nodes as usize + 1,
        );
        Opened { nodes, pens, seen }
    }

    /// Its places, under a name.
    pub fn named<N: HistoryName>(self) -> Places<N, S>
        requires nodes { self.nodes ≡ S.nodes }
        requires book { self.seen.book ≡ N.book }
        ensures { result ≡ S.nodes + 1 }
    {
        let Opened {
            nodes: _,
            pens,
            seen,
        } = self;
        Places {
            next: 0,
            pens,
            seen,
            of: PhantomData,
        }
    }
}
