//! The grants of all jobs at a node: who granted which object to whom, handed on up to three times. A
//! contract sees the list of the standing grants, oldest first; what a Grant adds and what an end takes
//! out are the definitions by which the jobs' own stores are notified.
//!
//! At most 64 grants of one grantor stand, and 64 jobs live, so the list has at most 4,096 grants. Each call
//! scans it; a call that ends grants finds those that have ended already by their links.
#![tactic(auto)]

ghost use Rattle.std.specs.Prelude.{◌≡◌, ◌≢◌, ◌↔◌, ◌<◌, ◌≤◌, ◌==◌, ℕ, Bool, true, IsTrue, map, filter, length, List, [], Some, None, find, IfOk, OnOk, OnErr, IsErrOf, IsOk, MatchResult};
ghost use Rattle.std.specs.List.{list_any, list_all};
ghost use Rattle.private_store.specs.laws.Answers.{AreGrantedWithin};
ghost use Rattle.obj_id.specs.declared.ids.ObjectId.{ObjectId};
ghost use Rattle.obj_id.specs.declared.refusals.Refusal.{Refusal};
ghost use Rattle.obj_id.specs.declared.refusals.Failure.TheVariants.{Refused, Memory};
ghost use Rattle.memory_growth.specs.declared.OutOfMemory.{OutOfMemory};
ghost use Rattle.private_store.specs.rules.Limits.{greatest_depth, most_grants, most_live_jobs};
ghost use Rattle.private_store.specs.rules.Grants.{StandingGrant as GrantView, new_grant, with_grant, grants_ended, grants_left, ground, is_withdrawn, is_of_task, is_given_by};
ghost use Rattle.grants.specs.Table.{AreGrants, is_first, given_by, given_to, seen_list, limits_check, grant_check as grant_check_lem, withdraw_check, is_ended_by, ends_found, AreFoundIn};
ghost use Rattle.private_store.specs.rules.Shape.{Shape};
ghost use Rattle.grants.specs.Private.{as_given, taken_by, HasGrants, RefusesAlike, GrantsAlike, RestAlike, EndsAlike};
ghost use Rattle.grants.specs.Chains.{sees, is_led_to};
ghost use Rattle.obj_id.specs.Ids.{id_cmp, same_id};
ghost use Rattle.std.specs.FinMap.{is_sorted};

mod endings;
mod standing;

use endings::Ending;
pub use endings::EndingGrants;
use memory_growth::{OutOfMemory, lists};
use obj_id::limits::{GREATEST_DEPTH, MOST_GRANTS};
use obj_id::{Failure, ItemList, JobNo, ObjectId, Refusal, TaskNo};
pub use standing::StandingGrant;
use std::alloc::Global;
use std::marker::Model;

/// The standing grants of a node.
pub struct Grants {
    alloc: Global,
    // oldest first
    grants: Vec<StandingGrant>,
}

// By hand, so that it is proved here and not in each crate above.
impl Drop for Grants {
    fn drop(self) {
        let Grants {
            alloc: _alloc,
            grants: _grants,
        } = self;
    }
}

impl Model for Grants {
    ghost use Rattle.std.specs.Prelude.{List};
    ghost use Rattle.private_store.specs.rules.Grants.{StandingGrant as GrantView};
    ghost use Rattle.grants.specs.Table.{AreGrants};

    ghost Value = { List GrantView };

    ghost view = { λ g. g.grants.items };

    ghost invariant = { λ g. AreGrants g.grants.items };
}

impl Grants {
    /// No grants.
    pub fn new(alloc: Global) -> Grants
        ensures { result ≡ [] }
    {
        Grants {
            alloc,
            grants: Vec::new(alloc),
        }
    }

    /// The grants that stand, in the order in which they were made.
    pub fn as_slice(&self) -> &[StandingGrant]
        ensures { result.now ≡ self.now }
    {
        &self.grants
    }

    /// How many grants stand.
    pub fn len(&self) -> usize
        ensures { result ≡ length self.now }
    {
        self.grants.len()
    }

    /// Why the grantor can't grant the object to the target: `BadId` if the target is no job, the grantor
    /// or the object's own job; `NotGranted` if it is another job's object and the grantor doesn't see
    /// it; `Exists` if the grant stands; `TooMany` if the grantor's oldest grant of it has depth 3, or
    /// 64 grants of the grantor stand. Who the target is, and whether it lives, is never asked.
    pub fn grant_check(&self, grantor: JobNo, id: ObjectId, target: JobNo) -> Option<Refusal>
        ensures { result ≡ grant_check_lem self.now grantor.0 id target.0 }
    {
        self.next_grant(grantor, id, target).err()
    }

    /// Grants an object: a grant from the grantor to the target stands, the youngest, and is given back. Another job's
    /// object is handed on: the grant hangs on the grantor's oldest grant of it.
    ///
    /// Refused as `grant_check` says, with out of memory last. A refusal changes nothing.
    pub fn grant(
        &mut self,
        grantor: JobNo,
        id: ObjectId,
        target: JobNo,
    ) -> Result<StandingGrant, Failure>
        ensures made { IfOk result (λ grant. grant ≡ new_grant self.old id grantor.0 target.0) }
        ensures ok { OnOk result (self.new ≡ with_grant self.old id grantor.0 target.0) }
        ensures passed { IsOk result → grant_check_lem self.old grantor.0 id target.0 ≡ None }
        ensures refused { (r : Refusal) → IsErrOf result (Refused r) → grant_check_lem self.old grantor.0 id target.0 ≡ Some r }
        ensures memory { (m : OutOfMemory) → IsErrOf result (Memory m) → grant_check_lem self.old grantor.0 id target.0 ≡ None }
        ensures err { OnErr result (self.new ≡ self.old) }
    {
        let grant = self.next_grant(grantor, id, target)?;
        lists::push(&mut self.grants, grant)?;
        Ok(grant)
    }

    /// Withdraws the grantor's grant of the object to the target. It ends, and in the same step every grant
    /// that hangs on it; no other grant to the same grantee does. Gives the grants that ended by depth, id,
    /// grantor and grantee.
    ///
    /// `NotGranted` if no such grant stands, out of memory last. A refusal changes nothing.
    pub fn withdraw(
        &mut self,
        grantor: JobNo,
        id: ObjectId,
        target: JobNo,
    ) -> Result<ItemList<StandingGrant>, Failure>
        ensures response { IfOk result (λ response. response ≡ grants_ended (is_withdrawn grantor.0 id target.0) self.old) }
        ensures ok { OnOk result (self.new ≡ grants_left (is_withdrawn grantor.0 id target.0) self.old) }
        ensures passed { IsOk result → withdraw_check self.old grantor.0 id target.0 ≡ None }
        ensures refused { (r : Refusal) → IsErrOf result (Refused r) → withdraw_check self.old grantor.0 id target.0 ≡ Some r }
        ensures memory { (m : OutOfMemory) → IsErrOf result (Memory m) → withdraw_check self.old grantor.0 id target.0 ≡ None }
        ensures gone { OnOk result (filter (is_withdrawn grantor.0 id target.0) self.new ≡ []) }
        ensures err { OnErr result (self.new ≡ self.old) }
    {
        if !standing::is_given(&self.grants, grantor, &id, target) {
            return Err(Failure::Refused(Refusal::NotGranted));
        }
        Ok(self.end(Ending::Withdrawn {
            grantor,
            id,
            grantee: target,
        })?)
    }

    /// Ends all grants of the object, in the same order. A failure changes nothing, and there is none if no
    /// grant of it stands.
    pub fn drop_object(&mut self, id: ObjectId) -> Result<ItemList<StandingGrant>, OutOfMemory>
        ensures response { IfOk result (λ response. response ≡ grants_ended (λ grant. same_id id grant.id) self.old) }
        ensures ok { OnOk result (self.new ≡ grants_left (λ grant. same_id id grant.id) self.old) }
        ensures gone { OnOk result (filter (λ grant. same_id id grant.id) self.new ≡ []) }
        ensures succeeds { filter (λ grant. same_id id grant.id) self.old ≡ [] → IsOk result }
        ensures err { OnErr result (self.new ≡ self.old) }
    {
        self.end(Ending::OfObject(id))
    }

    /// The grant of the object from the grantor to the target, and what hangs on it: none if it doesn't stand, and then
    /// there is no failure. Nothing changes.
    pub fn ends_with_grant(
        &self,
        grantor: JobNo,
        id: ObjectId,
        target: JobNo,
    ) -> Result<EndingGrants, OutOfMemory>
        ensures found { IfOk result (λ ends. ends ≡ ends_found (is_withdrawn grantor.0 id target.0) self.now) }
        ensures succeeds { filter (is_withdrawn grantor.0 id target.0) self.now ≡ [] → IsOk result }
    {
        self.found(Ending::Withdrawn {
            grantor,
            id,
            grantee: target,
        })
    }

    /// What the job gave of its own objects that the task made, and what hangs on it. There is no failure if the job
    /// gave none of them. Nothing changes.
    pub fn ends_with_task(&self, job: JobNo, task: TaskNo) -> Result<EndingGrants, OutOfMemory>
        ensures found { IfOk result (λ ends. ends ≡ ends_found (is_of_task job.0 task) self.now) }
        ensures succeeds { filter (is_of_task job.0 task) self.now ≡ [] → IsOk result }
    {
        self.found(Ending::OfTask(job, task))
    }

    /// All that the job gave, of own objects and others', and what hangs on it. What was given to the job is not among
    /// it. There is no failure if the job gave nothing. Nothing changes.
    pub fn ends_with_job(&self, job: JobNo) -> Result<EndingGrants, OutOfMemory>
        ensures found { IfOk result (λ ends. ends ≡ ends_found (is_given_by job.0) self.now) }
        ensures succeeds { given_by job.0 self.now ≡ [] → IsOk result }
    {
        self.found(Ending::GivenBy(job))
    }

    /// Takes out the grants that end, which were found in this very table. The others keep their order. Takes no memory.
    pub fn take_out(&mut self, ends: &EndingGrants)
        requires { AreFoundIn self.old ends.now }
        ensures left { (test : GrantView → Bool) → ends.now ≡ ends_found test self.old → self.new ≡ grants_left test self.old }
        ensures gone { (test : GrantView → Bool) → ends.now ≡ ends_found test self.old → filter test self.new ≡ [] }
    {
        endings::take_out(&mut self.grants, ends.gone());
    }

    /// The oldest grant of the object to the job, if the job sees the object.
    pub fn seen_by(&self, job: JobNo, id: ObjectId) -> Option<StandingGrant>
        ensures grant { result ≡ ground self.now id job.0 }
        ensures kept { AreGrants self.now }
    {
        standing::oldest(&self.grants, &id, job)
    }

    /// Whether a grant of the object from its own job stands.
    pub fn is_granted(&self, id: ObjectId) -> bool
        ensures { result ≡ list_any (is_first id) self.now }
    {
        self.grants.iter().any(|grant| grant.is_first(&id))
    }

    /// Whether the grantor gave the grantee the object.
    pub fn has_given(&self, grantor: JobNo, id: ObjectId, grantee: JobNo) -> bool
        ensures { result ≡ list_any (is_withdrawn grantor.0 id grantee.0) self.now }
    {
        standing::is_given(&self.grants, grantor, &id, grantee)
    }

    /// The grants that the job gave, oldest first: at most 64.
    pub fn given_by(&self, job: JobNo) -> Result<ItemList<StandingGrant>, OutOfMemory>
        ensures grants { IfOk result (λ given. given ≡ given_by job.0 self.now) }
        ensures few { length (given_by job.0 self.now) ≤ most_grants }
    {
        let given = standing::given_by(self.alloc, &self.grants, job)?;
        Ok(ItemList::from_vec(given))
    }

    /// The grants to the job, oldest first.
    pub fn given_to(&self, job: JobNo) -> Result<ItemList<StandingGrant>, OutOfMemory>
        ensures { IfOk result (λ given. given ≡ given_to job.0 self.now) }
    {
        let given = standing::given_to(self.alloc, &self.grants, job)?;
        Ok(ItemList::from_vec(given))
    }

    /// Of each object that the job sees the oldest grant, by rising id.
    pub fn seen(&self, job: JobNo) -> Result<ItemList<StandingGrant>, OutOfMemory>
        ensures { IfOk result (λ seen. seen ≡ seen_list job.0 self.now) }
    {
        let seen = standing::seen(self.alloc, &self.grants, job)?;
        Ok(ItemList::from_vec(seen))
    }

    /// The grant that a Grant makes, or why it is refused.
    fn next_grant(
        &self,
        grantor: JobNo,
        id: ObjectId,
        target: JobNo,
    ) -> Result<StandingGrant, Refusal>
        ensures made { IfOk result (λ grant. grant ≡ new_grant self.now id grantor.0 target.0) }
        ensures check { MatchResult result (λ _. grant_check_lem self.now grantor.0 id target.0 ≡ None) (λ r. grant_check_lem self.now grantor.0 id target.0 ≡ Some r) }
    {
        if target.0 == 0 || target.0 == grantor.0 || target.0 == id.job().0 {
            return Err(Refusal::BadId);
        }
        if id.job().0 == grantor.0 {
            self.limits(grantor, &id, target, 0)?;
            return Ok(StandingGrant::new(id, grantor, target, 1, None));
        }
        match standing::oldest(&self.grants, &id, grantor) {
            None => Err(Refusal::NotGranted),
            Some(below) => {
                self.limits(grantor, &id, target, below.depth())?;
                Ok(StandingGrant::new(
                    id,
                    grantor,
                    target,
                    below.depth() + 1,
                    Some(below.grantor()),
                ))
            }
        }
    }

    /// Whether a grant can hang at this depth.
    fn limits(
        &self,
        grantor: JobNo,
        id: &ObjectId,
        target: JobNo,
        depth: u32,
    ) -> Result<(), Refusal>
        ensures ok { IsOk result → depth < greatest_depth }
        ensures check { MatchResult result (λ _. limits_check self.now grantor.0 id.now target.0 depth ≡ None) (λ r. limits_check self.now grantor.0 id.now target.0 depth ≡ Some r) }
    {
        if standing::is_given(&self.grants, grantor, id, target) {
            return Err(Refusal::Exists);
        }
        if depth >= GREATEST_DEPTH || standing::count_given(&self.grants, grantor) >= MOST_GRANTS {
            return Err(Refusal::TooMany);
        }
        Ok(())
    }

    /// The grants that end, with all that hang on them. If none ends by itself, no memory is taken.
    fn found(&self, ending: Ending) -> Result<EndingGrants, OutOfMemory>
        ensures found { IfOk result (λ found. found ≡ ends_found (is_ended_by ending) self.now) }
        ensures succeeds { filter (is_ended_by ending) self.now ≡ [] → IsOk result }
    {
        if !endings::any_ends(&self.grants, &ending) {
            return Ok(EndingGrants::none(self.alloc));
        }
        let gone = endings::ended(self.alloc, &self.grants, &ending)?;
        EndingGrants::of(self.alloc, gone)
    }

    /// Ends grants, with all that hang on them. All growth comes first, and if none ends there is none.
    fn end(&mut self, ending: Ending) -> Result<ItemList<StandingGrant>, OutOfMemory>
        ensures response { IfOk result (λ response. response ≡ grants_ended (is_ended_by ending) self.old) }
        ensures ok { OnOk result (self.new ≡ grants_left (is_ended_by ending) self.old) }
        ensures gone { OnOk result (filter (is_ended_by ending) self.new ≡ []) }
        ensures succeeds { filter (is_ended_by ending) self.old ≡ [] → IsOk result }
        ensures err { OnErr result (self.new ≡ self.old) }
    {
        let ends = self.found(ending)?;
        self.take_out(&ends);
        Ok(ends.into_grants())
    }
}

/// A law of every table that grants and ends have made: a job sees an object exactly if a chain of at
/// most three standing grants leads to it from the object's own job.
pub fn what_is_seen_is_led_to()
    ensures { (grants : List GrantView) → AreGrants grants → (id : ObjectId) (job : ℕ) → sees grants id job ↔ is_led_to grants id job }
{}

/// A law of every job's own store: it has the grants of the table if it has those that its job gave, in the table's
/// order, and what the job was given is what its grants make, put in one after another. If what it was given is in order
/// of id, it has them only then.
pub fn a_store_has_what_the_table_has()
    ensures has { (lengths : ObjectId → ℕ) (grants : List GrantView) (store : Shape) → store.given ≡ map as_given (given_by store.job grants) → store.received ≡ taken_by lengths store.job grants → HasGrants lengths grants store }
    ensures taken { (lengths : ObjectId → ℕ) (grants : List GrantView) (store : Shape) → HasGrants lengths grants store → IsTrue (is_sorted id_cmp store.received) → store.received ≡ taken_by lengths store.job grants }
{}

/// A law of every job's own store that has the grants of the table: a Grant and a Withdraw are refused by the
/// store exactly if the table refuses them, in the same order among the store's own checks.
pub fn a_store_refuses_what_the_table_refuses()
    ensures { (lengths : ObjectId → ℕ) (grants : List GrantView) (store : Shape) → HasGrants lengths grants store → RefusesAlike grants store }
{}

/// A law of every job's own store that has the grants of the table: after a Grant that the table takes, the grantor's
/// store by its command, the grantee's by what it receives and all others as they are have the grants of the new table.
pub fn a_grant_is_every_stores()
    ensures { (lengths : ObjectId → ℕ) (grants : List GrantView) (grantor : ℕ) (id : ObjectId) (grantee : ℕ) → grant_check_lem grants grantor id grantee ≡ None → GrantsAlike lengths grants grantor id grantee }
{}

/// A law of every job's own store that has the grants of the table: what ends with a grantor's command, and what each
/// grantee's store is notified of, in the table's order, leaves to every store the grants that the table has left.
pub fn an_end_is_every_stores()
    ensures rest { (lengths : ObjectId → ℕ) (grants : List GrantView) (store : Shape) → HasGrants lengths grants store → RestAlike lengths grants store }
    ensures left { (lengths : ObjectId → ℕ) (grants : List GrantView) → AreGrants grants → (test : GrantView → Bool) → EndsAlike lengths test grants }
{}

/// A law of every table: what a job was given that is one of at most 64 grantors is of others, so it sees no more than 4,032
/// objects, by no grant deeper than 3.
pub fn few_objects_are_seen()
    ensures { (lengths : ObjectId → ℕ) (grants : List GrantView) (lives : List ℕ) (job : ℕ) → AreGrants grants → list_all (λ grant. list_any (λ live. live == grant.grantor) lives) grants ≡ true → length lives ≤ most_live_jobs → list_any (λ live. live == job) lives ≡ true → AreGrantedWithin (taken_by lengths job grants) }
{}
