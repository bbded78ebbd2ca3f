//! Theorems about the definitions: each function does nothing, and its contract is a law.
#![tactic(auto)]

ghost use Rattle.std.specs.Prelude.{◌≡◌, ℕ, ◌+◌, ◌++◌, ◌∷◌, map, ◌*◌, ◌<◌, ◌≤◌, ◌/◌, ◌%◌, List, [], Some, None, true, false};
ghost use Rattle.std.specs.List.{list_all};
ghost use Rattle.obj_id.specs.declared.ids.ObjectId.{ObjectId};
ghost use Rattle.obj_id.specs.declared.works.Extent.{Extent};
ghost use Rattle.obj_id.specs.declared.commands.Reply.{Reply};
ghost use Rattle.private_store.specs.declared.inputs.Input.{Input};
ghost use Rattle.private_store.specs.declared.schedules.Event.{Event};
ghost use Rattle.private_store.specs.declared.schedules.NodeEvent.TheVariants.{Own};
ghost use Rattle.private_store.specs.declared.schedules.Step.TheVariants.{At};
ghost use Rattle.private_store.specs.declared.schedules.StepAnswer.TheVariants.{Response};
ghost use Rattle.private_store.specs.declared.schedules.Traced.{Traced};
ghost use Rattle.private_store.specs.declared.inputs.Judged.{Judged};
ghost use Rattle.private_store.specs.rules.Extents.{first, is_free};
ghost use Rattle.private_store.specs.rules.Shape.{Copy, Shape, unbegun};
ghost use Rattle.private_store.specs.rules.Tables.{at};
ghost use Rattle.private_store.specs.rules.Copies.{is_sealed};
ghost use Rattle.private_store.specs.rules.Step.{step};
ghost use Rattle.private_store.specs.rules.Contents.{View, judge, bytes_at, digest_at, digest_of, completes};
ghost use Rattle.private_store.specs.rules.Private.{view_of, view_step, view_from, view_replies, no_store, store_from, private_replies};
ghost use Rattle.private_store.specs.rules.Replay.{ReplayState, Line, replay_state_of, unbegun_replay, replay_after, replayed, lines_from, IsReplayed};
ghost use Rattle.store_laws.specs.Refusing.{RefusesCleanly};
ghost use Rattle.private_store.specs.laws.Invariants.{IsViewKept, NumbersRise, is_end};
ghost use Rattle.private_store.specs.laws.Made.{IsMade, BytesAnswered, may_send, is_silent};
ghost use Rattle.private_store.specs.laws.Listed.{IsReplayStateKept, AreSeenKept};
ghost use Rattle.private_store.specs.laws.Answers.{wants_memory, reply_without_payload, is_small_reply, AreGrantedWithin, brings_within};
ghost use Rattle.private_store.specs.rules.Cluster.{at_node};
ghost use Rattle.private_store.specs.rules.Trace.{inputs_until};
ghost use Rattle.private_store.specs.laws.NodeInputs.{before_at, inputs_to};
ghost use Rattle.obj_id.specs.declared.commands.Reply.TheVariants as reply;

/// First fit gives the least multiple of 16 at which the bytes are free, and nothing if there is
/// none.
pub fn first_fit_is_least()
    ensures units { (extents : List Extent) (window n p : ℕ) → first extents window n ≡ Some p → p % 16 ≡ 0 }
    ensures free { (extents : List Extent) (window n p : ℕ) → first extents window n ≡ Some p → is_free extents window n p ≡ true }
    ensures least { (extents : List Extent) (window n k : ℕ) → is_free extents window n (16 * k) ≡ true
        → (p : ℕ) × (first extents window n ≡ Some p) × (p ≤ 16 * k) }
{}

/// A store that stamps each use, sorted by stamp, is the store that keeps an order of use: after every
/// list of inputs, and in every reply.
pub fn stamps_are_the_order_of_use()
    ensures order { (node job : ℕ) (xs : List Input)
        → view_of (store_from node (no_store job) xs) ≡ view_from node (view_of (no_store job)) xs }
    ensures replies { (node job : ℕ) (xs : List Input)
        → private_replies node (no_store job) xs ≡ view_replies node (view_of (no_store job)) xs }
{}

/// An input does to a store's shape what the step without contents does with the judged input. So the
/// journal's lines of a run, which have no contents, replay to the shape and the order of use that the
/// run ends in, and each line has the answer that the replay gives there.
pub fn journals_replay()
    ensures step { (node : ℕ) (view : View) (x : Input)
        → (view_step node view x).view.shape ≡ (step view.order view.shape (judge node view x)).shape }
    ensures state { (node : ℕ) (view : View) (xs : List Input)
        → replayed (replay_state_of view) (lines_from node view xs) ≡ replay_state_of (view_from node view xs) }
    ensures answers { (node : ℕ) (view : View) (xs : List Input) → IsReplayed (replay_state_of view) (lines_from node view xs) }
{}

/// A step that refuses leaves the store as it was; but a device fault, damage or a fetch's failure is
/// answered once and forgotten, and a caller that is to ask again may have made room, asked for works, or
/// begun a fetch, a restore or a pull, and nothing else.
pub fn refusals_change_nothing()
    ensures { (order : List ObjectId) (store : Shape) (x : Judged) → RefusesCleanly store (step order store x) }
{}

/// Each input's change is made of a few edits of the store, one after another, and an answer. What each
/// edit keeps is kept by every input, and what holds of each answer holds of every input's.
pub fn every_step_is_made_of_edits()
    ensures { (order : List ObjectId) (store : Shape) (x : Judged) → IsMade x store (step order store x) }
{}

/// No step of any store answers that there is no memory, with contents or without.
pub fn no_step_wants_memory()
    ensures never { (order : List ObjectId) (store : Shape) (x : Judged) → wants_memory (step order store x).reply ≡ false }
    ensures whole { (node : ℕ) (view : View) (x : Input) → wants_memory (view_step node view x).reply ≡ false }
{}

/// Only Read and Peek are answered with bytes, of what is there, and with as many as were asked for: so
/// an answer without its contents is the answer of the step without contents.
pub fn answers_have_their_bytes()
    ensures response { (order : List ObjectId) (store : Shape) (x : Judged) (n : ℕ)
        → (step order store x).reply ≡ reply.Bytes n → BytesAnswered store x n }
    ensures whole { (node : ℕ) (view : View) (x : Input)
        → IsViewKept view → reply_without_payload (view_step node view x).reply ≡ (step view.order view.shape (judge node view x)).reply }
{}

/// No answer has more bytes or items than a reply may have, and none is a device worker's, if no more was
/// granted than others can have granted; and that stays so while no input brings more.
pub fn answers_are_small()
    ensures small { (node : ℕ) (view : View) (x : Input)
        → IsViewKept view → AreGrantedWithin view.shape.received → is_small_reply (view_step node view x).reply ≡ true }
    ensures begins { (job : ℕ) → AreGrantedWithin (unbegun job).received }
    ensures keeps { (order : List ObjectId) (store : Shape) (x : Judged)
        → brings_within store x ≡ true → AreSeenKept store.received → AreGrantedWithin store.received
        → AreGrantedWithin (step order store x).shape.received }
{}

/// Each input sends only messages of its own kinds; and the operator's inputs but the end, device answers,
/// a Located and what comes of other jobs' grants send none.
pub fn each_input_sends_its_own()
    ensures own { (order : List ObjectId) (store : Shape) (x : Judged) → list_all (may_send x) (step order store x).sent ≡ true }
    ensures silent { (order : List ObjectId) (store : Shape) (x : Judged) → is_silent x ≡ true → (step order store x).sent ≡ [] }
{}

/// What a device's answer or a chunk leaves sealed has the bytes of the digest that stood before it: those that
/// were sealed, unless two texts have that digest.
pub fn completed_copies_have_the_sealed_bytes()
    ensures digest { (node : ℕ) (view : View) (x : Input) (id : ObjectId) (copy : Copy)
        → IsViewKept view → completes x ≡ true
        → at (view_step node view x).view.shape.copies id ≡ Some copy → is_sealed copy.state ≡ true
        → digest_of (bytes_at (view_step node view x).view.contents.bytes id) ≡ digest_at view.contents.digests id }
    ensures bytes { (node : ℕ) (view : View) (x : Input) (id : ObjectId) (copy : Copy) (text : List ℕ)
        → IsViewKept view → completes x ≡ true
        → at (view_step node view x).view.shape.copies id ≡ Some copy → is_sealed copy.state ≡ true
        → digest_at view.contents.digests id ≡ digest_of text
        → ((other : List ℕ) → digest_of other ≡ digest_of text → other ≡ text)
        → bytes_at (view_step node view x).view.contents.bytes id ≡ text }
{}

/// The invariants of a store: what a store that was never admitted keeps, what every input keeps, and so
/// what every store keeps that came of inputs, whatever they were; the same of a store without
/// contents, over every judged input; and no number of a work or a fetch is
/// used again while the job lives.
pub fn every_input_keeps_a_store()
    ensures begins { (job : ℕ) → IsViewKept (view_of (no_store job)) }
    ensures each { (node : ℕ) (view : View) (x : Input)
        → IsViewKept view → IsViewKept (view_step node view x).view }
    ensures runs { (node job : ℕ) (xs : List Input)
        → IsViewKept (view_of (store_from node (no_store job) xs)) }
    ensures begins_replay { (job : ℕ) → IsReplayStateKept (unbegun_replay job) }
    ensures each_judged { (replay_state : ReplayState) (x : Judged) → IsReplayStateKept replay_state → IsReplayStateKept (replay_after replay_state x) }
    ensures replays { (job : ℕ) (lines : List Line) → IsReplayStateKept (replayed (unbegun_replay job) lines) }
    ensures runs_replay { (node job : ℕ) (xs : List Input) → IsReplayStateKept (replay_state_of (view_of (store_from node (no_store job) xs))) }
    ensures numbers { (order : List ObjectId) (store : Shape) (x : Judged)
        → is_end x ≡ false → NumbersRise store (step order store x).shape }
{}

/// What an event at a node adds to a job's inputs, by the trace, is the list that the node's own words give:
/// by its event, the answer, and what it knows of works that are out, of bytes that others granted and of
/// standing grants.
pub fn an_event_adds_its_inputs()
    ensures { (nodes place : ℕ) (history : List Traced) (e : Event) (response : Reply (List ℕ)) (job : ℕ)
        → inputs_until nodes job (record { step = At place e; answer = Response response } ∷ history)
        ≡ inputs_until nodes job history ++ map (at_node place) (inputs_to (before_at nodes place history) (Own e) response job) }
{}
