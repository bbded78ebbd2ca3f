//! Those that step nodes, and what each of them has stepped.
ghost use Rattle.std.specs.Prelude.{◌≡◌, ◌++◌, ◌∷◌, []};

use private_store::Event;
use std::marker::Model;
use std::mem;
use std::snapshot::Snapshot;

/// Steps that were made, of which only clauses see the events.
#[derive(Drop)]
pub enum Steps {
    Nothing,
    Then(Snapshot<Steps>, Snapshot<Event>),
}

/// One that steps nodes: a session, an operator, a worker. Contracts see the events of all its steps, in their order. It isn't copied, and
/// takes no bytes. A message that arrives needs none, since it is used up.
#[derive(Drop)]
pub struct Actor {
    steps: Snapshot<Steps>,
}

impl Model for Actor {
    ghost use Rattle.std.specs.Prelude.{List};
    ghost use Rattle.private_store.specs.declared.schedules.Event.{Event};
    ghost use Rattle.node_gate.specs.Actors.{events_of};

    ghost Value = { List Event };

    ghost view = { λ a. events_of a.steps.value };
}

impl Actor {
    /// One that has made no step.
    pub(crate) fn new() -> Actor
        ensures { result ≡ [] }
    {
        Actor {
            steps: Snapshot::of(&Steps::Nothing),
        }
    }

    /// It has made one step more, of this event.
    pub fn note(&mut self, event: &Event)
        ensures { self.new ≡ self.old ++ event.now ∷ [] }
    {
        let Actor { steps } = self;
        let before = mem::replace(steps, Snapshot::of(&Steps::Nothing));
        *steps = Snapshot::of(&Steps::Then(before, Snapshot::of(event)));
    }
}

/// The leave to make actors, for those that begin a session, a worker or an operator's connection. Only a name on which nodes are seated gives
/// it (`SeatedNode::actors`). Whatever is written over a `JournaledNode` alone has no actor but those that it is lent, so it can't make a step
/// that nobody sees.
#[derive(Clone, Copy, Drop)]
pub struct ActorSource {
    only: (),
}

impl ActorSource {
    /// For the nodes of one name.
    pub(crate) fn new() -> ActorSource {
        ActorSource { only: () }
    }

    /// An actor that has made no step.
    pub fn actor(&self) -> Actor
        ensures { result ≡ [] }
    {
        Actor::new()
    }
}
