//! The rule of the book, and the step that adds to it.
use crate::names::ClusterShape;
use logbook::{Gain, Opening, Play, Rule};
use private_store::Traced;
use std::marker::PhantomData;

/// The rule of a history: a word for each place counts its entries, and the history grew step by step.
pub struct Law<S>(PhantomData<S>);

impl<S: ClusterShape> Rule<Traced, u64> for Law<S> {
    ghost use Rattle.std.specs.Prelude.{[]};
    ghost use base.Fml.{ftrue};
    ghost use Rattle.cluster_history.specs.Rules.{IsKept};

    ghost holds = { λ cells log. IsKept S.nodes S.memory cells log };

    ghost first = { [] };

    ghost hinted = { λ n log. Unit {0} };

    ghost shows = { λ log. [] };

    ghost keeps = { λ names log. ftrue };

    ghost moves = { λ ask before after answer. Unit {0} };
}

/// A place trades nothing for its step.
pub(crate) struct Nothing;

impl Gain<Traced, u64> for Nothing {
    ghost use base.Fml.{ftrue};

    ghost after = { λ names about answer. ftrue };
}

/// A step that adds an entry.
pub(crate) struct Add<S>(PhantomData<S>);

impl<S: ClusterShape> Play<Traced, u64> for Add<S> {
    ghost use Rattle.cluster_history.specs.Rules.{Adds};

    ghost then = { Adds S.nodes S.memory };
}

/// A history begins with nothing.
pub(crate) struct Blank;

impl Opening<u32, Traced> for Blank {
    ghost use Rattle.std.specs.Prelude.{[]};

    ghost log = { λ count about. [] };
}
