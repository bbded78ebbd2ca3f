//! Theorems about the marks: they change as the copies of a private store do. Each function does nothing,
//! and its contract is a law.
ghost use Rattle.std.specs.Prelude.{◌≡◌, ℕ, true, false, Option, Some, None, is_some};
ghost use Rattle.obj_id.specs.declared.ids.ObjectId.{ObjectId};
ghost use Rattle.obj_id.specs.declared.messages.Digest.{Digest};
ghost use Rattle.obj_id.specs.declared.works.WorkKind.{WorkKind};
ghost use Rattle.obj_id.specs.declared.commands.Kind.{Kind};
ghost use Rattle.private_store.specs.declared.inputs.WorkVerdict.{WorkVerdict};
ghost use Rattle.private_store.specs.rules.Shape.{Copy, Shape, WorkInFlight};
ghost use Rattle.private_store.specs.rules.Copies.{is_held, is_granted, is_working};
ghost use Rattle.private_store.specs.rules.Copies as copies;
ghost use Rattle.private_store.specs.rules.Commands.{new_copy, fetched_copy};
ghost use Rattle.private_store.specs.rules.Events.{work_of, answer};
ghost use Rattle.private_store.specs.rules.Tables.{at};
ghost use Rattle.object_state.specs.Marks.{marks_are_evictable, marks_are_draining, marks_are_spillable, new_marks, fetched_marks};
ghost use Rattle.object_state.specs.Laws.{marks_of, marks_answered};

/// What may be evicted or spilled, and what is draining, is so by the marks exactly if it is by the store.
pub fn words_of_marks_are_the_stores()
    ensures evictable { (store : Shape) (id : ObjectId) (copy : Copy) (digest : Option Digest) (working : Option WorkKind)
        → is_some working ≡ is_working store id
        → marks_are_evictable (marks_of copy digest working) (is_held copy) (is_granted store id) ≡ copies.is_evictable store id copy }
    ensures draining { (store : Shape) (id : ObjectId) (copy : Copy) (digest : Option Digest) (working : Option WorkKind)
        → is_some working ≡ is_working store id
        → marks_are_draining (marks_of copy digest working) (is_some copy.offset) (is_held copy) (is_granted store id) ≡ copies.is_draining store id copy }
    ensures spillable { (store : Shape) (id : ObjectId) (copy : Copy) (digest : Option Digest) (working : Option WorkKind)
        → is_some working ≡ is_working store id
        → marks_are_spillable (marks_of copy digest working) (is_held copy) (is_granted store id) ≡ copies.is_spillable store id copy }
{}

/// A new copy has the marks of a store's new copy, and the answer of the work that is in flight for it
/// changes its marks as the store's input changes the store's copy, if that stays.
pub fn marks_change_as_copies_do()
    ensures created { (kind : Kind) (n offset : ℕ) → marks_of (new_copy kind n offset) None None ≡ new_marks kind n }
    ensures fetched { (number : ℕ) → marks_of (fetched_copy number) None None ≡ fetched_marks }
    ensures answered { (store : Shape) (number : ℕ) (verdict : WorkVerdict) (w : WorkInFlight) (copy after : Copy) (digest : Option Digest)
        → work_of store number ≡ Some w → at store.copies w.id ≡ Some copy → at (answer store number verdict).shape.copies w.id ≡ Some after
        → marks_of after digest None ≡ marks_answered copy digest w verdict }
{}
