//! What was seen of a history.
ghost use Rattle.std.specs.Prelude.{◌≡◌};
ghost use mathlib.Core.List.{IsPrefix};
ghost use Rattle.cluster_history.specs.Histories.{IsServed};

use crate::book::Law;
use crate::names::{ClusterShape, HistoryName};
use logbook::Seen;
use private_store::Traced;
use std::marker::{Model, PhantomData};

/// A beginning of the history that was reached. Contracts see it as its entries, oldest first. It takes no bytes, and stays true.
#[derive(Drop)]
pub struct Sight<N: HistoryName, S: ClusterShape> {
    pub(crate) seen: Seen<Traced, u64, Law<S>>,
    pub(crate) of: PhantomData<N>,
}

impl<N: HistoryName, S: ClusterShape> Model for Sight<N, S> {
    ghost use Rattle.std.specs.Prelude.{◌≡◌, List};
    ghost use Rattle.private_store.specs.declared.schedules.Traced.{Traced};

    ghost Value = { List Traced };

    ghost view = { λ s. s.seen.log };

    ghost invariant = { λ s. s.seen.book ≡ N.book };
}

impl<N: HistoryName, S: ClusterShape> Sight<N, S> {
    /// The same.
    pub fn again(&self) -> Sight<N, S>
        ensures { result ≡ self.now }
    {
        Sight {
            seen: self.seen.again(),
            of: PhantomData,
        }
    }

    /// Afterwards it knows what both knew.
    pub fn learn(&mut self, other: &Sight<N, S>)
        ensures own { IsPrefix self.old self.new }
        ensures other { IsPrefix other.now self.new }
    {
        self.seen.learn(&other.seen);
    }

    /// What was seen is what a served cluster may go through: each event has its reply, the shared answers are those that were due, and
    /// each job's replies are those of its private cluster.
    pub fn is_served(&self)
        ensures { IsServed S.nodes S.memory self.now }
    {
        let mut later = self.seen.again();
        later.learn(&self.seen);
    }
}
