//! Turns for uses, of which some are always left.
ghost use Rattle.std.specs.Prelude.{◌≡◌, ◌<◌, ◌+◌, ◌++◌, ◌∷◌, [], List, length, map};
ghost use Rattle.obj_id.specs.declared.ids.ObjectId.{ObjectId};
ghost use Rattle.lru_evictor.specs.declared.index.OrderSlot.{OrderSlot};
ghost use Rattle.lru_evictor.specs.Indexed.{IsIndexOf, shown_order, use_of, with_turn};

use crate::index::{Index, OrderSlot};
use lru::LruCache;
use obj_id::ObjectId;
use use_tree::{Use, Uses};

/// The turn of the next use. If none is left, all uses get turns anew first, in their order. Takes no memory.
///
/// A job uses up all turns with 2^62 uses; to give them anew takes some descents of a tree for each copy.
pub(crate) fn next_turn(slots: &mut LruCache<ObjectId, OrderSlot>, index: &mut Index) -> u64
    requires of { IsIndexOf slots.old.entries index.old }
    requires few { length slots.old.entries < 4611686018427387904 }
    ensures turn { result < index.new.1 }
    ensures of { IsIndexOf slots.new.entries index.new }
    ensures same { shown_order slots.new.entries ≡ shown_order slots.old.entries }
    ensures cap { slots.new.cap ≡ slots.old.cap }
{
    if index.left() == 0 {
        renumber(slots, index);
    }
    index.left() - 1
}

/// Gives all uses turns anew, the greatest ones that there are, in their order.
fn renumber(slots: &mut LruCache<ObjectId, OrderSlot>, index: &mut Index)
    requires of { IsIndexOf slots.old.entries index.old }
    requires few { length slots.old.entries < 4611686018427387904 }
    ensures left { 0 < index.new.1 }
    ensures of { IsIndexOf slots.new.entries index.new }
    ensures same { shown_order slots.new.entries ≡ shown_order slots.old.entries }
    ensures cap { slots.new.cap ≡ slots.old.cap }
{
    let mut old = index.take_uses();
    let mut more = slots.len();
    while more > 0 {
        renumber_last(slots, index, &mut old);
        more -= 1;
    }
}

/// The least recently used copy becomes the most recently used, and its use, which is the last of the old ones, gets a turn anew.
fn renumber_last(slots: &mut LruCache<ObjectId, OrderSlot>, index: &mut Index, old: &mut Uses)
    requires { 0 < index.old.1 }
    ensures entries { (done rest : List (ObjectId × OrderSlot)) (e : ObjectId × OrderSlot) → slots.old.entries ≡ done ++ (rest ++ e ∷ []) → old.old ≡ map use_of (rest ++ e ∷ [])
        → slots.new.entries ≡ with_turn index.new.1 e ∷ (done ++ rest) }
    ensures uses { (done rest : List (ObjectId × OrderSlot)) (e : ObjectId × OrderSlot) → slots.old.entries ≡ done ++ (rest ++ e ∷ []) → old.old ≡ map use_of (rest ++ e ∷ [])
        → index.old.0 ≡ map use_of done → index.new.0 ≡ map use_of (with_turn index.new.1 e ∷ done) }
    ensures old { (done rest : List (ObjectId × OrderSlot)) (e : ObjectId × OrderSlot) → slots.old.entries ≡ done ++ (rest ++ e ∷ []) → old.old ≡ map use_of (rest ++ e ∷ [])
        → old.new ≡ map use_of rest }
    ensures left { (done rest : List (ObjectId × OrderSlot)) (e : ObjectId × OrderSlot) → slots.old.entries ≡ done ++ (rest ++ e ∷ []) → old.old ≡ map use_of (rest ++ e ∷ [])
        → index.new.1 + 1 ≡ index.old.1 }
    ensures residents { index.new.2 ≡ index.old.2 }
    ensures cap { slots.new.cap ≡ slots.old.cap }
{
    // what the count says of the cache is what the proof needs
    let _count = slots.len();
    let Some((id, _)) = slots.peek_lru() else {
        return;
    };
    let id = *id;
    let Some(place) = slots.get_mut(&id) else {
        return;
    };
    let Some(room) = old.take(place.turn) else {
        return;
    };
    let turn = index.left() - 1;
    place.turn = turn;
    let classes = place.eviction_info.classes;
    index.push_use(room, Use { turn, id, classes });
}
