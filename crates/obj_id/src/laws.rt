//! Laws: what comparing ids means, and what a text names.
ghost use Rattle.std.specs.Prelude.{◌≡◌, ℕ, List};
ghost use Rattle.std.specs.Cmp.Lexicographic.{slice_cmp};
ghost use Rattle.std.specs.Ordering.{nat_cmp};
ghost use Rattle.obj_id.specs.Ids.{IsId, IsTask, id_bytes, id_cmp, id_eq};
ghost use Rattle.obj_id.specs.Texts.{IsIdText, IsShortTaskText, IsShortText, IsTaskText, full_task_text, full_text, id_text, task_text};
ghost use Rattle.obj_id.specs.declared.ids.ObjectId.{ObjectId};
ghost use Rattle.obj_id.specs.declared.ids.TaskNo.{TaskNo};

use crate::ObjectId;

/// `==` of ids is equality of their parts, and they are ordered as their 28 bytes.
pub fn ids_are_ordered_as_their_bytes()
    ensures equality { (a b : ObjectId) → ⟦<ObjectId as PartialEq>⟧.eq a b ≡ id_eq a b }
    ensures order { (a b : ObjectId) → ⟦<ObjectId as Ord>⟧.cmp a b ≡ id_cmp a b }
    ensures bytes { (a b : ObjectId) → IsId a → IsId b
        → ⟦<ObjectId as Ord>⟧.cmp a b ≡ slice_cmp nat_cmp (id_bytes a) (id_bytes b) }
{}

/// If a job speaks, a text names one object and one task at most, no short text is a full one,
/// and the text that is printed for an object or a task is one of its names.
pub fn a_text_names_one()
    ensures id { (job : ℕ) (a b : ObjectId) (text : List ℕ) → IsId a → IsId b
        → IsIdText job a text → IsIdText job b text → a ≡ b }
    ensures apart { (job : ℕ) (a b : ObjectId) (text : List ℕ)
        → IsShortText job a text → full_text b ≡ text → ⊥ }
    ensures task { (a b : TaskNo) (text : List ℕ) → IsTask a → IsTask b
        → IsTaskText a text → IsTaskText b text → a ≡ b }
    ensures tasks_apart { (a b : TaskNo) (text : List ℕ)
        → IsShortTaskText a text → full_task_text b ≡ text → ⊥ }
    ensures printed_id { (job : ℕ) (id : ObjectId) → IsIdText job id (id_text job id) }
    ensures printed_task { (task : TaskNo) → IsTaskText task (task_text task) }
{}
