//! The seats of the nodes of a cluster: each is a part of its name's ledger, and a place in its history.
ghost use Rattle.std.specs.Prelude.{◌≡◌, ◌≤◌, ◌<◌, ◌+◌, ◌-◌, []};

use crate::recorded_directory::RecordedDirectory;
use cluster_history::{ClusterShape, HistoryName, Opened, Place, Places};
use std::alloc::Global;
use std::marker::Model;
use std::sync::ledger::{Blank, Ledger, Share};

/// What a new cluster stands on, which has no name yet: a ledger with a part for each node, and an empty history.
pub struct Unnamed<S: ClusterShape> {
    blank: Blank,
    opened: Opened<S>,
    pub ghost same: { blank.parts ≡ opened.nodes },
}

impl<S: ClusterShape> Unnamed<S> {
    /// Of so many nodes.
    pub fn new(nodes: u32) -> Unnamed<S>
        requires { nodes ≡ S.nodes }
        ensures { result.opened.nodes ≡ nodes }
    {
        Unnamed {
            blank: Blank::new(u64::from(nodes)),
            opened: Opened::new(nodes),
        }
    }

    /// All seats, under a name.
    pub fn named<L: Ledger + HistoryName>(self) -> Seats<L, S>
        requires name { (self.blank.name ≡ L.name) × (self.blank.parts ≡ L.parts) }
        requires book { self.opened.seen.book ≡ L.book }
        requires nodes { self.opened.nodes ≡ S.nodes }
        ensures { result ≡ ((S.nodes, 0), S.nodes + 1) }
    {
        let Unnamed { blank, opened } = self;
        let (_book, share) = blank.open::<L>();
        Seats {
            share,
            places: opened.named::<L>(),
        }
    }
}

/// Some parts of a ledger's name, with the places of a history that are still to be given out: as many parts are there as nodes. Contracts
/// see how many parts it has, what else the ledger counts for it, and how many places are left.
pub struct Seats<L: Ledger + HistoryName, S: ClusterShape> {
    pub(crate) share: Share<L>,
    pub(crate) places: Places<L, S>,
}

impl<L: Ledger + HistoryName, S: ClusterShape> Model for Seats<L, S> {
    ghost use Rattle.std.specs.Prelude.{◌≡◌, ◌≤◌, ◌+◌, ℕ};

    ghost Value = { (ℕ × ℕ) × ℕ };

    ghost view = { λ s. ((s.share.parts, s.share.amount), s.places) };

    ghost invariant = { λ s. (L.parts ≡ S.nodes) × (s.places ≤ S.nodes + 1) };
}

// By hand, so that it is proved here and not in each crate above.
impl<L: Ledger + HistoryName, S: ClusterShape> Drop for Seats<L, S> {
    fn drop(self) {
        let Seats {
            share: _share,
            places: _places,
        } = self;
    }
}

impl<L: Ledger + HistoryName, S: ClusterShape> Seats<L, S> {
    /// The seat of the next node: one part, and its place.
    pub(crate) fn split(&mut self) -> Seat<L, S>
        requires part { 1 ≤ self.old.0.0 }
        requires blank { self.old.0.1 ≡ 0 }
        requires places { S.nodes + 1 - self.old.1 < S.nodes }
        ensures number { result ≡ S.nodes + 1 - self.old.1 }
        ensures few { self.old.1 ≤ S.nodes + 1 }
        ensures left { (self.new.0.0 + 1 ≡ self.old.0.0) × (self.new.0.1 ≡ self.old.0.1) × (self.new.1 + 1 ≡ self.old.1) }
    {
        let Seats { share, places } = self;
        Seat {
            share: share.split_off(1, 0),
            place: places.next(),
        }
    }
}

impl<L: Ledger + HistoryName, S: ClusterShape> Seats<L, S> {
    /// The directory, at the last place.
    pub(crate) fn into_directory(self, alloc: Global) -> RecordedDirectory<L, S>
        requires { S.nodes + 1 - self.1 ≡ S.nodes }
    {
        let Seats {
            share: _share,
            places,
        } = self;
        let mut places = places;
        RecordedDirectory::new(alloc, places.next())
    }
}

/// What a node stands on: one part of the name, and its place. Contracts see its number.
pub struct Seat<L: Ledger + HistoryName, S: ClusterShape> {
    pub(crate) share: Share<L>,
    pub(crate) place: Place<L, S>,
}

impl<L: Ledger + HistoryName, S: ClusterShape> Model for Seat<L, S> {
    ghost use Rattle.std.specs.Prelude.{◌≡◌, ◌<◌, ℕ, []};

    ghost Value = { ℕ };

    ghost view = { λ s. s.place.0 };

    ghost invariant = { λ s. ((s.share.parts ≡ 1) × (s.share.amount ≡ 0)) × ((s.place.1 ≡ []) × (s.place.0 < S.nodes)) };
}

// By hand, so that it is proved here and not in each crate above.
impl<L: Ledger + HistoryName, S: ClusterShape> Drop for Seat<L, S> {
    fn drop(self) {
        let Seat {
            share: _share,
            place: _place,
        } = self;
    }
}

impl<L: Ledger + HistoryName, S: ClusterShape> Seat<L, S> {
    /// The part, and the place.
    pub(crate) fn into_parts(self) -> (Share<L>, Place<L, S>)
        ensures share { (result.0.parts ≡ 1) × (result.0.amount ≡ 0) }
        ensures place { result.1 ≡ (self, []) }
        ensures within { self < S.nodes }
    {
        let Seat { share, place } = self;
        (share, place)
    }
}
