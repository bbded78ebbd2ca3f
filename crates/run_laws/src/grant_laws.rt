//! Laws of the grants of a trace. Each function does nothing; its contract is a theorem about every trace whose jobs are
//! answered as by their private clusters, whatever order its steps have and whatever they are.
ghost use Rattle.std.specs.Prelude.{◌≡◌, ℕ, Bool, List, [], ◌∷◌, ◌++◌, reverse, Some};
ghost use Rattle.private_store.specs.declared.schedules.Event.{Event};
ghost use Rattle.private_store.specs.declared.schedules.Traced.{Traced};
ghost use Rattle.private_store.specs.rules.Grants.{StandingGrant};
ghost use Rattle.private_store.specs.rules.Trace.{ends};
ghost use Rattle.run_laws.specs.Held.{HoldsOn, ShowsWhatIs, BytesStay};
ghost use Rattle.run_laws.specs.Ending.{EndsThere};
ghost use Rattle.run_laws.specs.Moments.{AtEachMoment};
ghost use Rattle.run_laws.specs.Telling.{OthersDontShow, OthersDontShowWhereDue};
ghost use Rattle.run_laws.specs.Standing.{ArePrivate, HaveGrants, SeesWhatIsLed};

/// A trace that is answered privately was so at each moment before, so the other laws hold at every moment.
pub fn beginnings_are_private()
    ensures { (nodes : ℕ) (first rest : List Traced) → ArePrivate nodes (first ++ rest) → ArePrivate nodes first }
{}

/// The grants that stand at a node are a table, as the crate of grants has it: no two with the same object, grantor and grantee;
/// each from the object's own job at depth 1, or one deeper than an older one on which it hangs, at depth 3 at most; none
/// to the object's own job; 64 of one grantor at most. The store of each job at the node has the grants that the job gave and
/// those that it was given, oldest first, each object with the length that it has in the store of its own job; and it knows
/// no other object of others.
pub fn grants_of_a_trace_are_a_table()
    ensures { (nodes node : ℕ) (trace : List Traced) → ArePrivate nodes trace → HaveGrants nodes node trace }
{}

/// A job sees an object exactly if a chain of at most three standing grants leads from the object's own job to it. A Peek of
/// a live job, of whatever bytes, is answered `NotGranted` exactly if the job doesn't see the object; it never sees its own.
pub fn what_is_seen_in_a_trace_is_led_to()
    ensures { (nodes node : ℕ) (trace : List Traced) → ArePrivate nodes trace → SeesWhatIsLed nodes node trace }
{}

/// An accepted withdrawal, end of a task or end of a job takes out of the node's table, in that one step, the grants that
/// its grantor ends and each grant that hangs on one that goes, and no others. The grantees of these are notified of them, in order
/// of depth, object, grantor and grantee, and nobody is notified of anything else. Other nodes keep their grants.
pub fn a_withdrawal_ends_what_hangs_on_it()
    ensures { (nodes node : ℕ) (trace : List Traced) (e : Event) (test : StandingGrant → Bool)
        → ArePrivate nodes trace → ends e ≡ Some test → EndsThere nodes node (reverse trace) e test }
{}

/// While a grant stands, at whatever depth, its object is a sealed primary in the window of its own job at that node, the
/// grantee's store has that copy's bytes, and each step that leaves the grant leaves the bytes.
pub fn a_grant_holds_on_to_its_object()
    ensures held { (nodes node : ℕ) (trace : List Traced) → ArePrivate nodes trace → HoldsOn nodes node trace }
    ensures shown { (nodes node : ℕ) (trace : List Traced) → ArePrivate nodes trace → ShowsWhatIs nodes node trace }
    ensures stay { (nodes node : ℕ) (trace : List Traced) (entry : Traced) → ArePrivate nodes (trace ++ entry ∷ []) → BytesStay nodes node trace entry }
{}

/// All these laws between each two steps of a trace and over each step.
pub fn laws_hold_at_every_moment()
    ensures { (nodes : ℕ) (trace : List Traced) → ArePrivate nodes trace → AtEachMoment nodes trace }
{}

/// What other jobs do with the grants of a job's objects doesn't show to it. If two traces are equal but for other jobs'
/// Grants, Withdraws and Peeks of its objects, and for what commands are answered, the job has the same inputs in both and is
/// answered the same. Of the answers to commands these count: those to other jobs' other Grants, since a grantor has only so many
/// grants, and whether there was memory. If the shared answers are due, they follow from the rest, and only whether there
/// was memory counts of them.
pub fn others_grants_dont_show()
    ensures any { (nodes job : ℕ) (first second : List Traced) → OthersDontShow nodes job first second }
    ensures due { (nodes memory job : ℕ) (first second : List Traced) → OthersDontShowWhereDue nodes memory job first second }
{}
