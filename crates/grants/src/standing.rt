//! A grant, and what is asked of a table of them.
ghost use Rattle.std.specs.Prelude.{◌≡◌, ◌==◌, Some, None, find, filter, length, IfOk, OnOk};
ghost use Rattle.std.specs.List.{list_any};
ghost use Rattle.std.specs.Ordering.{is_lt};
ghost use Rattle.obj_id.specs.Ids.{id_cmp, same_id as same_id_lem, same_task as same_task_lem};
ghost use Rattle.private_store.specs.rules.Grants.{ground as ground_lem, is_withdrawn as is_withdrawn_lem, is_given_by as is_given_by_lem};
ghost use Rattle.grants.specs.Table.{shows as shows_lem, is_first as is_first_lem, given_by as given_by_lem, given_to as given_to_lem, with_seen, seen_list};
ghost use Rattle.grants.specs.Back.{job_number_of};
ghost use Rattle.grants.specs.Links.{link_of, below_of, rank_of};
ghost use Rattle.std.specs.Option.{option_map};

use memory_growth::{OutOfMemory, lists};
use obj_id::{JobNo, ObjectId, TaskNo};
use std::alloc::Global;
use std::marker::Model;

/// What tells a grant from all others that stand, and what hangs on it names it by.
#[derive(Clone, Copy, PartialEq, Eq, Hash)]
pub(crate) struct Link {
    pub id: ObjectId,
    pub grantor: JobNo,
    pub grantee: JobNo,
}

/// The order in which ends are announced.
#[derive(Clone, Copy, PartialEq, Eq, PartialOrd, Ord)]
pub(crate) struct Rank {
    depth: u32,
    id: ObjectId,
    grantor: JobNo,
    grantee: JobNo,
}

/// A standing grant of an object by one job to another. A contract sees grantor and grantee by their
/// numbers.
#[derive(Clone, Copy, Debug)]
pub struct StandingGrant {
    id: ObjectId,
    grantor: JobNo,
    grantee: JobNo,
    depth: u32,
    parent: Option<JobNo>,
}

impl Model for StandingGrant {
    ghost use Rattle.std.specs.Option.{option_map};
    ghost use Rattle.private_store.specs.rules.Grants.{StandingGrant as GrantView};
    ghost use Rattle.grants.specs.Back.{job_number_of, job_numbered, jobs_back};

    ghost Value = { GrantView };

    ghost view = { λ h. record { id = h.id; grantor = h.grantor.0; grantee = h.grantee.0; depth = h.depth; parent = option_map job_number_of h.parent } };

    ghost inverse = { λ h. record { id = h.id; grantor = job_numbered h.grantor; grantee = job_numbered h.grantee; depth = h.depth; parent = option_map job_numbered h.parent } };

    ghost inverse_ok = { λ a h i. record a { parent = jobs_back a.parent i } };
}

impl StandingGrant {
    /// The grant of an object from its grantor to its grantee, at a depth from 1 on, and the grantor of the
    /// grant that it hangs on.
    pub(crate) fn new(
        id: ObjectId,
        grantor: JobNo,
        grantee: JobNo,
        depth: u32,
        parent: Option<JobNo>,
    ) -> StandingGrant
        ensures { result ≡ record { id = id; grantor = grantor.0; grantee = grantee.0; depth = depth; parent = option_map job_number_of parent } }
    {
        StandingGrant {
            id,
            grantor,
            grantee,
            depth,
            parent,
        }
    }

    /// The object.
    pub fn id(&self) -> ObjectId
        ensures { result ≡ self.now.id }
    {
        self.id
    }

    /// The job that granted it.
    pub fn grantor(&self) -> JobNo
        ensures { result.0 ≡ self.now.grantor }
    {
        self.grantor
    }

    /// The job that it was granted to.
    pub fn grantee(&self) -> JobNo
        ensures { result.0 ≡ self.now.grantee }
    {
        self.grantee
    }

    /// How often the object was handed on up to here: 1 from its own job, 3 at most.
    pub fn depth(&self) -> u32
        ensures { result ≡ self.now.depth }
    {
        self.depth
    }

    /// The grantor of the grant that it hangs on; none at depth 1.
    pub fn parent(&self) -> Option<JobNo>
        ensures { option_map job_number_of result ≡ self.now.parent }
    {
        self.parent
    }

    /// Whether the job gave it.
    pub(crate) fn is_from(&self, job: JobNo) -> bool
        ensures { result ≡ is_given_by_lem job.0 self.now }
    {
        self.grantor.0 == job.0
    }

    /// Whether it was given to the job.
    pub(crate) fn is_to(&self, job: JobNo) -> bool
        ensures { result ≡ (self.now.grantee == job.0) }
    {
        self.grantee.0 == job.0
    }

    /// Whether it is a grant of the object to the job.
    pub(crate) fn shows(&self, id: &ObjectId, job: JobNo) -> bool
        ensures { result ≡ shows_lem id.now job.0 self.now }
    {
        same_id(id, &self.id) && self.grantee.0 == job.0
    }

    /// Whether it is a grant of the object from its own job.
    pub(crate) fn is_first(&self, id: &ObjectId) -> bool
        ensures { result ≡ is_first_lem id.now self.now }
    {
        same_id(id, &self.id) && self.grantor.0 == id.job().0
    }

    /// Whether the grantor gave the grantee this object by it.
    pub(crate) fn is_given(&self, grantor: JobNo, id: &ObjectId, grantee: JobNo) -> bool
        ensures { result ≡ is_withdrawn_lem grantor.0 id.now grantee.0 self.now }
    {
        self.grantor.0 == grantor.0 && same_id(id, &self.id) && self.grantee.0 == grantee.0
    }

    /// Its object, grantor and grantee.
    pub(crate) fn link(&self) -> Link
        ensures { result ≡ link_of self.now }
    {
        Link {
            id: self.id,
            grantor: self.grantor,
            grantee: self.grantee,
        }
    }

    /// The link of the grant that it hangs on, if it hangs on one.
    pub(crate) fn below(&self) -> Option<Link>
        ensures { result ≡ below_of self.now }
    {
        let grantor = self.parent?;
        Some(Link {
            id: self.id,
            grantor,
            grantee: self.grantor,
        })
    }

    /// Whether its object's id is less than that of the other's.
    fn is_before(&self, other: &StandingGrant) -> bool
        ensures { result ≡ is_lt (id_cmp self.now.id other.now.id) }
    {
        self.id.cmp(&other.id).is_lt()
    }

    /// Where its end is announced among others: by depth, object, grantor and grantee.
    pub(crate) fn rank(&self) -> Rank
        ensures { result ≡ rank_of self.now }
    {
        Rank {
            depth: self.depth,
            id: self.id,
            grantor: self.grantor,
            grantee: self.grantee,
        }
    }
}

/// Whether the ids are the same.
pub(crate) fn same_id(a: &ObjectId, b: &ObjectId) -> bool
    ensures { result ≡ same_id_lem a.now b.now }
{
    a.cmp(b).is_eq()
}

/// Whether the tasks are the same.
pub(crate) fn same_task(a: TaskNo, b: TaskNo) -> bool
    ensures { result ≡ same_task_lem a b }
{
    a.cmp(&b).is_eq()
}

/// The oldest grant of the object to the job.
pub(crate) fn oldest(
    grants: &Vec<StandingGrant>,
    id: &ObjectId,
    job: JobNo,
) -> Option<StandingGrant>
    ensures { result ≡ ground_lem grants.now.items id.now job.0 }
{
    for grant in grants {
        if grant.shows(id, job) {
            return Some(*grant);
        }
    }
    None
}

/// Whether the grantor gave the grantee the object.
pub(crate) fn is_given(
    grants: &Vec<StandingGrant>,
    grantor: JobNo,
    id: &ObjectId,
    grantee: JobNo,
) -> bool
    ensures { result ≡ list_any (is_withdrawn_lem grantor.0 id.now grantee.0) grants.now.items }
{
    grants
        .iter()
        .any(|grant| grant.is_given(grantor, id, grantee))
}

/// How many grants the job gave.
pub(crate) fn count_given(grants: &Vec<StandingGrant>, job: JobNo) -> usize
    ensures { result ≡ length (filter (is_given_by_lem job.0) grants.now.items) }
{
    grants.iter().filter(|grant| grant.is_from(job)).count()
}

/// The grants that the job gave, oldest first.
pub(crate) fn given_by(
    alloc: Global,
    grants: &Vec<StandingGrant>,
    job: JobNo,
) -> Result<Vec<StandingGrant>, OutOfMemory>
    ensures { IfOk result (λ given. given.items ≡ given_by_lem job.0 grants.now.items) }
{
    let mut given = Vec::new(alloc);
    for grant in grants {
        if grant.is_from(job) {
            lists::push(&mut given, *grant)?;
        }
    }
    Ok(given)
}

/// The grants to the job, oldest first.
pub(crate) fn given_to(
    alloc: Global,
    grants: &Vec<StandingGrant>,
    job: JobNo,
) -> Result<Vec<StandingGrant>, OutOfMemory>
    ensures { IfOk result (λ given. given.items ≡ given_to_lem job.0 grants.now.items) }
{
    let mut given = Vec::new(alloc);
    for grant in grants {
        if grant.is_to(job) {
            lists::push(&mut given, *grant)?;
        }
    }
    Ok(given)
}

/// Puts a grant among the oldest of each object, by rising id, unless an older one of its object is there.
fn put_seen(seen: &mut Vec<StandingGrant>, grant: StandingGrant) -> Result<(), OutOfMemory>
    ensures { OnOk result (seen.new.items ≡ with_seen grant seen.old.items) }
{
    let mut at = 0;
    while at < seen.len() && seen[at].is_before(&grant) {
        at += 1;
    }
    if at < seen.len() && same_id(&seen[at].id, &grant.id) {
        return Ok(());
    }
    lists::insert(seen, at, grant)?;
    Ok(())
}

/// Of each object that the job sees the oldest grant, by rising id.
pub(crate) fn seen(
    alloc: Global,
    grants: &Vec<StandingGrant>,
    job: JobNo,
) -> Result<Vec<StandingGrant>, OutOfMemory>
    ensures { IfOk result (λ seen. seen.items ≡ seen_list job.0 grants.now.items) }
{
    let mut seen = Vec::new(alloc);
    for grant in grants {
        if grant.is_to(job) {
            put_seen(&mut seen, *grant)?;
        }
    }
    Ok(seen)
}
