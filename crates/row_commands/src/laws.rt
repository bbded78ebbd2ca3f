//! Theorems about rows: each function does nothing, and its contract is a law.
ghost use Rattle.std.specs.Prelude.{◌≡◌, ◌==◌, ℕ, Bool, List, [], map, filter, length, not, true, false, Some, None};
ghost use Rattle.obj_id.specs.declared.ids.JobNo.{JobNo};
ghost use Rattle.obj_id.specs.declared.ids.ObjectId.{ObjectId};
ghost use Rattle.obj_id.specs.declared.refusals.Refusal.{Refusal};
ghost use Rattle.obj_id.specs.declared.ids.TaskNo.{TaskNo};
ghost use Rattle.obj_id.specs.declared.commands.Command.TheVariants as command;
ghost use Rattle.obj_id.specs.declared.commands.Reply.TheVariants as reply;
ghost use Rattle.private_store.specs.declared.inputs.Input.TheVariants as input;
ghost use Rattle.private_store.specs.rules.Contents.{Contents, View};
ghost use Rattle.private_store.specs.rules.Grants.{StandingGrant, new_grant, with_grant, grants_ended, grants_left, is_withdrawn, is_of_task, is_given_by};
ghost use Rattle.private_store.specs.laws.NodeInputs.{only_of, received_here, withdrawn_here};
ghost use Rattle.private_store.specs.rules.Private.{view_step, view_from};
ghost use Rattle.private_store.specs.rules.Shape.{Life};
ghost use Rattle.grants.specs.Table.{AreGrants, given_by as grants_given, grant_check, withdraw_check};
ghost use Rattle.grants.specs.Private.{as_given, HasGrants};
ghost use Rattle.spill_work.specs.Line.{WorkLine};
ghost use Rattle.row_commands.specs.Granting.{peek_reply};
ghost use Rattle.row_commands.specs.Notes.{IsSeen, ends_to, beside_rest, received_view};
ghost use Rattle.job_row.specs.Row.{Row};
ghost use Rattle.row_steps.specs.Shown.{IsShown, only, RowStep};
ghost use Rattle.row_steps.specs.Beside.{row_given_by, received_by, beside_of, shape_of, beside_ended};

/// A law of every row beside a table of grants: its job's store has the grants of the table.
pub fn a_row_has_the_grants_beside_it()
    ensures { (line : WorkLine) (grants : List StandingGrant) (bytes : ObjectId → List ℕ) (row : Row) → HasGrants (λ id. length (bytes id)) grants (shape_of row (beside_of line grants bytes row.job)) }
{}

/// A law of a Grant: to its grantee it is a step that leaves the row as it is, and a grant more beside it; and the same of
/// a store that isn't live. A job that isn't the grantor has given what it had, and to one that isn't the grantee either
/// nothing is another.
pub fn what_is_granted_stands_beside()
    ensures row { (node : ℕ) (line : WorkLine) (grants : List StandingGrant) (bytes : ObjectId → List ℕ) (row : Row) (contents : Contents) (id : ObjectId) (grantor : ℕ) → (grantor == row.job) ≡ false
        → IsShown row (beside_of line grants bytes row.job) contents
        → RowStep node row (beside_of line grants bytes row.job) contents (input.Received id (bytes id) (record { 0 = grantor }) (new_grant grants id grantor row.job).depth) (only reply.Ok)
        row (beside_of line (with_grant grants id grantor row.job) bytes row.job) }
    ensures bare { (node : ℕ) (grants : List StandingGrant) (bytes : ObjectId → List ℕ) (job : ℕ) (life : Life) (id : ObjectId) (grantor : ℕ) → (grantor == job) ≡ false
        → (view_step node (received_view job life bytes (received_by bytes grants job)) (input.Received id (bytes id) (record { 0 = grantor }) (new_grant grants id grantor job).depth)).view
        ≡ received_view job life bytes (received_by bytes (with_grant grants id grantor job) job) }
    ensures given { (grants : List StandingGrant) (id : ObjectId) (grantor grantee job : ℕ) → (grantor == job) ≡ false → row_given_by (with_grant grants id grantor grantee) job ≡ row_given_by grants job }
    ensures other { (line : WorkLine) (grants : List StandingGrant) (bytes : ObjectId → List ℕ) (id : ObjectId) (grantor grantee job : ℕ) → (grantor == job) ≡ false → (grantee == job) ≡ false
        → beside_of line (with_grant grants id grantor grantee) bytes job ≡ beside_of line grants bytes job }
{}

/// A law of grants that end: once a job is notified of those to it, one after another, its row is as it was, and the grants
/// that are left stand beside it; the same of a store that isn't live, which has given none then either.
pub fn what_is_left_stands_beside()
    ensures row { (grants : List StandingGrant) (bytes : ObjectId → List ℕ) (test : StandingGrant → Bool) → AreGrants grants → (node : ℕ) (line : WorkLine) (row : Row) (view : View)
        → IsSeen row (beside_rest line test grants bytes row.job) view
        → IsSeen row (beside_of line (grants_left test grants) bytes row.job) (view_from node view (ends_to row.job (grants_ended test grants))) }
    ensures bare { (grants : List StandingGrant) (bytes : ObjectId → List ℕ) (test : StandingGrant → Bool) → AreGrants grants → (node job : ℕ) (life : Life)
        → map as_given (filter (λ grant. not (test grant)) (grants_given job grants)) ≡ []
        → view_from node (received_view job life bytes (received_by bytes grants job)) (ends_to job (grants_ended test grants)) ≡ received_view job life bytes (received_by bytes (grants_left test grants) job) }
    ensures none { (grants : List StandingGrant) (test : StandingGrant → Bool) → AreGrants grants → (job : ℕ)
        → map as_given (filter (λ grant. not (test grant)) (grants_given job grants)) ≡ [] → row_given_by (grants_left test grants) job ≡ [] }
{}

/// A law of what stands beside a row before it is notified of grants that ended: of another job than the grantor all that
/// stood; of a job whose task ended what that left; and a job that ended has given nothing more.
pub fn what_is_told_first_leaves_the_rest()
    ensures other { (line : WorkLine) (grants : List StandingGrant) (bytes : ObjectId → List ℕ) (job grantor : ℕ) (test : StandingGrant → Bool) → ((grant : StandingGrant) → test grant ≡ true → is_given_by grantor grant ≡ true)
        → (grantor == job) ≡ false → beside_of line grants bytes job ≡ beside_rest line test grants bytes job }
    ensures task { (line : WorkLine) (grants : List StandingGrant) (bytes : ObjectId → List ℕ) (job : ℕ) (task : TaskNo)
        → beside_ended job task (beside_of line grants bytes job) ≡ beside_rest line (is_of_task job task) grants bytes job }
    ensures job { (grants : List StandingGrant) (job : ℕ) → map as_given (filter (λ grant. not (is_given_by job grant)) (grants_given job grants)) ≡ [] }
{}

/// A law of the notes of a step: what each job is notified of grants that ended, and what a grant is to its grantee.
pub fn notes_go_to_grantees()
    ensures ended { (job : ℕ) (ended : List StandingGrant) → only_of job (map withdrawn_here ended) ≡ ends_to job ended }
    ensures given { (bytes : ObjectId → List ℕ) (grants : List StandingGrant) (id : ObjectId) (grantor grantee : ℕ)
        → received_here bytes (new_grant grants id grantor grantee) ≡ record { job = grantee; input = input.Received id (bytes id) (record { 0 = grantor }) (new_grant grants id grantor grantee).depth } }
{}

/// A law of every Peek: its row answers by the grants of the object to the job and by the object's bytes, and nothing
/// changes.
pub fn a_peek_tells_what_is_seen()
    ensures { (node : ℕ) (line : WorkLine) (grants : List StandingGrant) (bytes : ObjectId → List ℕ) (row : Row) (contents : Contents) (session : ℕ) (id : ObjectId) (offset n : ℕ)
        → IsShown row (beside_of line grants bytes row.job) contents
        → RowStep node row (beside_of line grants bytes row.job) contents (input.Call session (command.Peek id offset n)) (only (peek_reply grants row.job id (bytes id) offset n)) row (beside_of line grants bytes row.job) }
{}

/// A law of every Grant of another job's object: its row stays as it is, and if the table of grants takes it, a grant
/// more stands beside it.
pub fn what_is_handed_on_changes_no_row()
    ensures refused { (node : ℕ) (line : WorkLine) (grants : List StandingGrant) (bytes : ObjectId → List ℕ) (row : Row) (contents : Contents) (session : ℕ) (id : ObjectId) (target : JobNo)
        → IsShown row (beside_of line grants bytes row.job) contents → (id.job.0 == row.job) ≡ false → (r : Refusal) → grant_check grants row.job id target.0 ≡ Some r
        → RowStep node row (beside_of line grants bytes row.job) contents (input.Call session (command.Grant id target)) (only (reply.Refused r)) row (beside_of line grants bytes row.job) }
    ensures ok { (node : ℕ) (line : WorkLine) (grants : List StandingGrant) (bytes : ObjectId → List ℕ) (row : Row) (contents : Contents) (session : ℕ) (id : ObjectId) (target : JobNo)
        → IsShown row (beside_of line grants bytes row.job) contents → (id.job.0 == row.job) ≡ false → grant_check grants row.job id target.0 ≡ None
        → RowStep node row (beside_of line grants bytes row.job) contents (input.Call session (command.Grant id target)) (only reply.Ok) row (beside_of line (with_grant grants id row.job target.0) bytes row.job) }
{}

/// A law of every Withdraw that the table of grants refuses, and of those of another job's object: the row stays as it
/// is, and beside it the grant is gone if one stood.
pub fn what_is_taken_back_changes_no_row()
    ensures refused { (node : ℕ) (line : WorkLine) (grants : List StandingGrant) (bytes : ObjectId → List ℕ) (row : Row) (contents : Contents) (session : ℕ) (id : ObjectId) (target : JobNo)
        → IsShown row (beside_of line grants bytes row.job) contents → (r : Refusal) → withdraw_check grants row.job id target.0 ≡ Some r
        → RowStep node row (beside_of line grants bytes row.job) contents (input.Call session (command.Withdraw id target)) (only (reply.Refused r)) row (beside_of line grants bytes row.job) }
    ensures ok { (node : ℕ) (line : WorkLine) (grants : List StandingGrant) (bytes : ObjectId → List ℕ) (row : Row) (contents : Contents) (session : ℕ) (id : ObjectId) (target : JobNo)
        → IsShown row (beside_of line grants bytes row.job) contents → (id.job.0 == row.job) ≡ false → withdraw_check grants row.job id target.0 ≡ None
        → RowStep node row (beside_of line grants bytes row.job) contents (input.Call session (command.Withdraw id target)) (only reply.Ok) row
        (beside_rest line (is_withdrawn row.job id target.0) grants bytes row.job) }
{}
