//! The uses of a job's copies and where they lie, each with the classes of victims that it is in, as long
//! as there are turns for further uses.
ghost use Rattle.std.specs.Prelude.{◌≡◌, ◌<◌, ◌≤◌, ◌∷◌, ◌&&◌, not, [], List, Some, None, length, take, true, false, nat_lt, is_some, IfSome};
ghost use Rattle.std.specs.Map.{lookup, remove_entry, set_value};
ghost use Rattle.std.specs.Option.{option_map};
ghost use Rattle.augmented_tree.specs.Lists.{AllOf};
ghost use Rattle.obj_id.specs.Ids.{id_eq};
ghost use Rattle.obj_id.specs.declared.ids.ObjectId.{ObjectId};
ghost use Rattle.private_store.specs.rules.Room.{shortest as shortest_beginning};
ghost use Rattle.use_tree.specs.Uses.{AreUsesRising, take_use as take_use_lem, use_with_classes as choose_use_lem, has_use};
ghost use Rattle.use_tree.specs.declared.classes.VictimClass.TheVariants.{Spillable};
ghost use Rattle.extent_tree.specs.Residents.{has_resident};
ghost use Rattle.lru_evictor.specs.declared.index.OrderSlot.{OrderSlot};
ghost use Rattle.lru_evictor.specs.Facts.{nowhere};
ghost use Rattle.lru_evictor.specs.Indexed.{IsIndexOf, Stands, chosen_ids};
ghost use Rattle.lru_evictor.specs.Orders.{may_lie};
ghost use Rattle.lru_evictor.specs.Spilling.{leaves_gap};

use crate::candidates::Candidates;
use crate::facts::{CopyLookup, EvictionInfo, are_same};
use crate::spilling::{Gap, count_spills};
use extent_tree::{Resident, Residents};
use obj_id::ObjectId;
use std::marker::Model;
use std::mem;
use use_tree::{SpareNode, Use, Uses, VictimClass, VictimClasses};

/// The last use of a copy, and where the copy lies.
#[derive(Clone, Copy, Drop)]
pub(crate) struct OrderSlot {
    /// Counts down: a later use has a lesser one.
    pub(crate) turn: u64,
    pub(crate) eviction_info: EvictionInfo,
}

/// The uses of a job's copies, and where they lie. A contract sees both, and between them how many turns are left, which are all
/// below those of the uses.
#[derive(Drop)]
pub(crate) struct Index {
    uses: Uses,
    left: u64,
    residents: Residents,
}

impl Model for Index {
    ghost use Rattle.std.specs.Prelude.{◌≤◌};
    ghost use Rattle.augmented_tree.specs.Lists.{AllOf};
    ghost use Rattle.lru_evictor.specs.Indexed.{Listed};

    ghost Value = { Listed };

    ghost view = { λ a. (a.uses, a.left, a.residents) };

    ghost invariant = { λ a. AllOf (λ u. a.left ≤ u.turn) a.uses × (a.left ≤ 4611686018427387904) };
}

/// How many turns there are.
const TURNS: u64 = 4_611_686_018_427_387_904;

impl Index {
    /// No use, and all turns.
    pub(crate) fn new() -> Index
        ensures uses { result.0 ≡ [] }
        ensures residents { result.2 ≡ [] }
    {
        Index {
            uses: Uses::new(),
            left: TURNS,
            residents: Residents::new(),
        }
    }

    /// Adds the latest use, into the spare node.
    pub(crate) fn push_use(&mut self, room: SpareNode, latest: Use)
        requires { latest.turn < self.old.1 }
        ensures { self.new ≡ (latest ∷ self.old.0, latest.turn, self.old.2) }
    {
        let turn = latest.turn;
        self.uses.push(room, latest);
        self.left = turn;
    }

    /// Takes all uses out, and has all turns again.
    pub(crate) fn take_uses(&mut self) -> Uses
        ensures uses { result ≡ self.old.0 }
        ensures empty { self.new ≡ ([], 4611686018427387904, self.old.2) }
    {
        self.left = TURNS;
        mem::replace(&mut self.uses, Uses::new())
    }

    /// Takes out the use of a turn.
    fn take_use(&mut self, turn: u64) -> Option<SpareNode>
        ensures rising { AreUsesRising self.old.0 }
        ensures uses { self.new ≡ (take_use_lem turn self.old.0, self.old.1, self.old.2) }
        ensures there { is_some result ≡ has_use turn self.old.0 }
    {
        self.uses.take(turn)
    }

    /// The copy of the use of a turn is in these classes of victims.
    fn set_use_classes(&mut self, turn: u64, classes: VictimClasses)
        ensures rising { AreUsesRising self.old.0 }
        ensures uses { self.new ≡ (choose_use_lem turn classes self.old.0, self.old.1, self.old.2) }
    {
        self.uses.set_classes(turn, classes);
    }

    /// A copy that stood so stands so now.
    fn stand(&mut self, before: EvictionInfo, after: EvictionInfo)
        requires { may_lie before.extent after.extent ≡ true }
        ensures same { (self.new.0 ≡ self.old.0) × (self.new.1 ≡ self.old.1) }
        ensures stands { Stands before after self.old.2 self.new.2 }
    {
        stand(&mut self.residents, before, after)
    }

    /// Adds the first use of a copy, into the spare node: it lies nowhere, and is in no class of victims.
    pub(crate) fn add(&mut self, room: SpareNode, id: ObjectId, turn: u64)
        requires { turn < self.old.1 }
        ensures { (es : List (ObjectId × OrderSlot)) → IsIndexOf es self.old → IsIndexOf ((id, record { turn = turn; eviction_info = nowhere }) ∷ es) self.new }
    {
        let classes = VictimClasses::none();
        self.push_use(room, Use { turn, id, classes });
    }

    /// Takes the latest use of a copy in place of the one before, and how it stands now.
    pub(crate) fn replace(&mut self, id: ObjectId, before: OrderSlot, after: OrderSlot)
        requires turn { after.turn < self.old.1 }
        requires stands { may_lie before.eviction_info.extent after.eviction_info.extent ≡ true }
        ensures { (es : List (ObjectId × OrderSlot)) → lookup (id_eq id) es ≡ Some before → IsIndexOf es self.old → IsIndexOf ((id, after) ∷ remove_entry (id_eq id) es) self.new }
    {
        let turn = after.turn;
        let Some(room) = self.take_use(before.turn) else {
            return;
        };
        let classes = after.eviction_info.classes;
        self.push_use(room, Use { turn, id, classes });
        self.stand(before.eviction_info, after.eviction_info);
    }

    /// Takes out a copy.
    pub(crate) fn remove(&mut self, place: OrderSlot)
        ensures { (id : ObjectId) (es : List (ObjectId × OrderSlot)) → lookup (id_eq id) es ≡ Some place → IsIndexOf es self.old → IsIndexOf (remove_entry (id_eq id) es) self.new }
    {
        let nowhere = EvictionInfo {
            extent: None,
            classes: place.eviction_info.classes,
        };
        self.stand(place.eviction_info, nowhere);
        let _ = self.take_use(place.turn);
    }

    /// How a copy stands now.
    pub(crate) fn set_info(&mut self, place: OrderSlot, eviction_info: EvictionInfo)
        requires { may_lie place.eviction_info.extent eviction_info.extent ≡ true }
        ensures { (id : ObjectId) (es : List (ObjectId × OrderSlot)) → lookup (id_eq id) es ≡ Some place → IsIndexOf es self.old
            → IsIndexOf (set_value (id_eq id) es (record { turn = place.turn; eviction_info = eviction_info })) self.new }
    {
        self.set_use_classes(place.turn, eviction_info.classes);
        self.stand(place.eviction_info, eviction_info);
    }

    /// A copy that lay nowhere takes its place, into the spare node, and is in these classes of victims. Whether it can: not if a copy begins
    /// there, or the widest window hasn't the place, and then nothing has changed.
    pub(crate) fn insert_resident(
        &mut self,
        room: extent_tree::SpareNode,
        place: OrderSlot,
        resident: Resident,
    ) -> bool
        requires { place.eviction_info.extent ≡ None }
        ensures settled { result ≡ true → (id : ObjectId) (es : List (ObjectId × OrderSlot)) → lookup (id_eq id) es ≡ Some place → IsIndexOf es self.old
            → IsIndexOf (set_value (id_eq id) es (record { turn = place.turn; eviction_info = record { extent = Some resident.extent; classes = resident.classes } })) self.new }
        ensures refused { result ≡ false → self.new ≡ self.old }
        ensures when { result ≡ (nat_lt resident.extent.offset 536870912 && (nat_lt resident.extent.length 4294967296 && not (has_resident resident.extent.offset self.old.2))) }
    {
        if !self.residents.put(room, resident) {
            return false;
        }
        self.set_use_classes(place.turn, resident.classes);
        true
    }

    /// How many turns are left.
    pub(crate) fn left(&self) -> u64
        ensures { result ≡ self.now.1 }
    {
        self.left
    }

    /// The copies that the walk chooses, from the least recently used on.
    pub(crate) fn candidates(&self, class: VictimClass) -> Candidates<'_>
        ensures ids { result ≡ chosen_ids class 4611686018427387904 self.now.0 }
        ensures all { AllOf (λ u. u.turn < 4611686018427387904) self.now.0 }
    {
        Candidates::chosen(&self.uses, class)
    }

    /// Where the copies lie.
    pub(crate) fn residents(&self) -> &Residents
        ensures { result.now ≡ self.now.2 }
    {
        &self.residents
    }

    /// How many of the copies that may be spilled have to go for such a gap, besides all that may be evicted at once or once
    /// their works have ended, or `None` if all of them are too few. Takes no memory, and changes nothing in the end.
    pub(crate) fn count_spills<C: CopyLookup>(&mut self, copies: &C, gap: Gap) -> Option<usize>
        requires { length self.old.0 < 4611686018427387904 }
        ensures count { option_map (λ k. take k (chosen_ids Spillable 4611686018427387904 self.old.0)) result
            ≡ shortest_beginning (leaves_gap gap (C.facts copies.now) self.old.2) (chosen_ids Spillable 4611686018427387904 self.old.0) }
        ensures within { IfSome result (λ k. k ≤ length (chosen_ids Spillable 4611686018427387904 self.old.0)) }
        ensures all { AllOf (λ u. u.turn < 4611686018427387904) self.old.0 }
        ensures same { self.new ≡ self.old }
    {
        let mut candidates = Candidates::chosen(&self.uses, VictimClass::Spillable);
        count_spills(&mut self.residents, &mut candidates, copies, gap)
    }
}

/// A copy that stood so stands so now.
fn stand(residents: &mut Residents, before: EvictionInfo, after: EvictionInfo)
    requires { may_lie before.extent after.extent ≡ true }
    ensures { Stands before after residents.old residents.new }
{
    if are_same(before, after) {
        return;
    }
    let Some(there) = before.extent else {
        return;
    };
    match after.extent {
        None => {
            let _ = residents.take(there.offset);
        }
        Some(_) => residents.set_classes(there.offset, after.classes),
    }
}
