//! Why a step wasn't made.
use memory_growth::OutOfMemory;
use memory_growth::counters::CountEnded;
use obj_id::Refusal;

/// Why a step wasn't made. To the session, the worker or the operator each is `NoMemory`.
#[derive(Debug, Drop)]
pub enum NotStepped {
    /// There was no memory for the journal's entry, or for the fold of a list that has to come before it.
    Entry(OutOfMemory),
    /// There was no memory for the step itself, of which no other refusal was due.
    Step(OutOfMemory),
    /// The journal has given the last number that an entry may have.
    Ended(CountEnded),
}

/// All that a step may want before the node is asked for it.
impl From<OutOfMemory> for NotStepped {
    ghost use Rattle.std.specs.Prelude.{◌≡◌};
    ghost use Rattle.node_journal.specs.declared.not_stepped.NotStepped.TheVariants.{Entry};

    ghost from_gives = { λ refused not_stepped. not_stepped ≡ Entry refused };

    fn from(refused: OutOfMemory) -> NotStepped {
        NotStepped::Entry(refused)
    }
}

impl From<CountEnded> for NotStepped {
    ghost use Rattle.std.specs.Prelude.{◌≡◌};
    ghost use Rattle.node_journal.specs.declared.not_stepped.NotStepped.TheVariants.{Ended};

    ghost from_gives = { λ ended not_stepped. not_stepped ≡ Ended ended };

    fn from(ended: CountEnded) -> NotStepped {
        NotStepped::Ended(ended)
    }
}

impl From<NotStepped> for OutOfMemory {
    fn from(not_stepped: NotStepped) -> OutOfMemory {
        match not_stepped {
            NotStepped::Entry(refused) => refused,
            NotStepped::Step(refused) => refused,
            NotStepped::Ended(ended) => ended.into(),
        }
    }
}

impl From<NotStepped> for Refusal {
    ghost use Rattle.std.specs.Prelude.{◌≡◌};
    ghost use Rattle.obj_id.specs.declared.refusals.Refusal.TheVariants.{NoMemory};

    ghost from_gives = { λ _ refusal. refusal ≡ NoMemory };

    fn from(not_stepped: NotStepped) -> Refusal {
        Refusal::from(OutOfMemory::from(not_stepped))
    }
}
