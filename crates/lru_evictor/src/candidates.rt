//! The ids of a class of victims.
ghost use Rattle.std.specs.Prelude.{◌≡◌, ◌<◌};
ghost use Rattle.std.specs.Map.Iter.{TakesFirst};
ghost use Rattle.augmented_tree.specs.Lists.{AllOf};
ghost use Rattle.lru_evictor.specs.Indexed.{chosen_ids};

use obj_id::ObjectId;
use std::marker::Model;
use use_tree::{Uses, VictimClass};

/// The ids whose copies are in a class of victims, from the least recently used on. A contract sees those that are left.
#[derive(Drop)]
pub(crate) struct Candidates<'a> {
    uses: &'a Uses,
    class: VictimClass,
    // they have a turn below this one
    below: u64,
}

impl<'a> Model for Candidates<'a> {
    ghost use Rattle.std.specs.Prelude.{List};
    ghost use Rattle.obj_id.specs.declared.ids.ObjectId.{ObjectId};
    ghost use Rattle.lru_evictor.specs.Indexed.{chosen_ids};

    ghost Value = { List ObjectId };

    ghost view = { λ c. chosen_ids c.class c.below c.uses.now };
}

impl<'a> Candidates<'a> {
    /// Those of these uses.
    pub(crate) fn chosen(uses: &'a Uses, class: VictimClass) -> Candidates<'a>
        ensures ids { result ≡ chosen_ids class 4611686018427387904 uses.now }
        ensures all { AllOf (λ u. u.turn < 4611686018427387904) uses.now }
    {
        Candidates {
            uses,
            class,
            below: uses.end(),
        }
    }
}

impl<'a> Iterator for Candidates<'a> {
    ghost use Rattle.std.specs.Prelude.{length};
    ghost use Rattle.std.specs.Iterator.{at_most};
    ghost use Rattle.std.specs.Map.Iter.{TakesFirst};

    type Item = ObjectId;

    ghost next_gives = { TakesFirst (λ x. x) };

    ghost remaining = { λ s. at_most (length s) };

    fn next(&mut self) -> Option<ObjectId> {
        next_chosen(self.uses, self.class, &mut self.below)
    }
}

/// The next id whose copy the walk chooses, of those of turns below this one.
fn next_chosen(uses: &Uses, class: VictimClass, below: &mut u64) -> Option<ObjectId>
    ensures { TakesFirst (λ x. x) (chosen_ids class below.old uses.now) result (chosen_ids class below.new uses.now) }
{
    let found = uses.last(class, *below)?;
    *below = found.turn;
    Some(found.id)
}
