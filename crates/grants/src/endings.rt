//! Which grants end, and in what order that is announced.
ghost use Rattle.std.specs.Prelude.{◌≡◌, ◌++◌, ◌∷◌, [], true, not, filter, IfOk, OnOk};
ghost use Rattle.std.specs.List.{list_any};
ghost use Rattle.private_store.specs.rules.Grants.{is_child_of, same_grant, ended_from, grants_sorted};
ghost use Rattle.grants.specs.Table.{is_ended_by as is_ended_by_lem};
ghost use Rattle.grants.specs.Links.{links_are_apart};

use crate::standing::{Link, StandingGrant, same_id, same_task};
use indexmap::IndexSet;
use memory_growth::{OutOfMemory, lists, ordered, sets};
use obj_id::{ItemList, JobNo, ObjectId, TaskNo};
use std::alloc::Global;
use std::collections::BTreeMap;
use std::marker::Model;

/// Which grants end of their grantor's own accord.
#[derive(Clone, Copy)]
pub(crate) enum Ending {
    /// The grantor's grant of this object to this grantee.
    Withdrawn {
        grantor: JobNo,
        id: ObjectId,
        grantee: JobNo,
    },
    /// All grants of the object.
    OfObject(ObjectId),
    /// What the job gave of its own objects that the task made.
    OfTask(JobNo, TaskNo),
    /// All that the job gave.
    GivenBy(JobNo),
}

impl Ending {
    /// Whether the grant ends by itself, and not because of one that it hangs on.
    fn ends(&self, grant: &StandingGrant) -> bool
        ensures { result ≡ is_ended_by_lem self.now grant.now }
    {
        match *self {
            Ending::Withdrawn {
                grantor,
                id,
                grantee,
            } => grant.is_given(grantor, &id, grantee),
            Ending::OfObject(id) => same_id(&id, &grant.id()),
            Ending::OfTask(job, task) => {
                grant.grantor().0 == job.0
                    && grant.id().job().0 == job.0
                    && same_task(task, grant.id().task())
            }
            Ending::GivenBy(job) => grant.is_from(job),
        }
    }
}

/// Whether any grant ends by itself.
pub(crate) fn any_ends(grants: &Vec<StandingGrant>, ending: &Ending) -> bool
    ensures { result ≡ list_any (is_ended_by_lem ending.now) grants.now.items }
{
    grants.iter().any(|grant| ending.ends(grant))
}

/// Grants that end, found by what others hang on: object, grantor and grantee.
#[derive(Drop)]
pub(crate) struct Gone {
    grants: Vec<StandingGrant>,
    links: IndexSet<Link>,
}

impl Model for Gone {
    ghost use Rattle.std.specs.Prelude.{List};
    ghost use Rattle.private_store.specs.rules.Grants.{StandingGrant as GrantView};
    ghost use Rattle.grants.specs.Links.{AreLinked};

    ghost Value = { List GrantView };

    ghost view = { λ g. g.grants.items };

    ghost invariant = { λ g. AreLinked g.grants.items g.links.keys };
}

impl Gone {
    /// None.
    fn new(alloc: Global) -> Gone
        ensures { result ≡ [] }
    {
        Gone {
            grants: Vec::new(alloc),
            links: IndexSet::new(alloc),
        }
    }

    /// One more.
    fn push(&mut self, grant: StandingGrant) -> Result<(), OutOfMemory>
        ensures { OnOk result (self.new ≡ self.old ++ grant ∷ []) }
    {
        lists::reserve(&mut self.grants, 1)?;
        sets::insert(&mut self.links, grant.link())?;
        self.grants.push(grant).unwrap();
        Ok(())
    }

    /// Whether the grant hangs on one of these.
    fn carries(&self, grant: &StandingGrant) -> bool
        ensures { result ≡ list_any (is_child_of grant.now) self.now }
    {
        match grant.below() {
            Some(link) => self.links.contains(&link),
            None => false,
        }
    }

    /// Whether the grant is one of these.
    fn has(&self, grant: &StandingGrant) -> bool
        ensures { result ≡ list_any (same_grant grant.now) self.now }
    {
        self.links.contains(&grant.link())
    }

    /// The grants.
    fn grants(&self) -> &Vec<StandingGrant>
        ensures { result.now.items ≡ self.now }
    {
        &self.grants
    }
}

/// Grants that end by themselves and all that hang on them, found before anything changes. A contract sees them oldest
/// first.
#[derive(Drop)]
pub struct EndingGrants {
    gone: Gone,
    // the same, in the order in which they are announced
    in_order: ItemList<StandingGrant>,
}

impl Model for EndingGrants {
    ghost use Rattle.std.specs.Prelude.{◌≡◌, List};
    ghost use Rattle.private_store.specs.rules.Grants.{StandingGrant as GrantView, grants_sorted};

    ghost Value = { List GrantView };

    ghost view = { λ e. e.gone };

    ghost invariant = { λ e. e.in_order ≡ grants_sorted e.gone };
}

impl EndingGrants {
    /// None.
    pub(crate) fn none(alloc: Global) -> EndingGrants
        ensures { result ≡ [] }
    {
        EndingGrants {
            gone: Gone::new(alloc),
            in_order: ItemList::new(alloc),
        }
    }

    /// These, no two of which are the same.
    pub(crate) fn of(alloc: Global, gone: Gone) -> Result<EndingGrants, OutOfMemory>
        requires { links_are_apart gone ≡ true }
        ensures { IfOk result (λ ends. ends ≡ gone) }
    {
        let in_order = sorted(alloc, gone.grants())?;
        Ok(EndingGrants {
            gone,
            in_order: ItemList::from_vec(in_order),
        })
    }

    /// The grants, in the order in which their ends are announced: by depth, object, grantor and grantee.
    pub fn grants(&self) -> &[StandingGrant]
        ensures { result.now ≡ grants_sorted self.now }
    {
        self.in_order.as_slice()
    }

    /// The same, owned.
    pub(crate) fn into_grants(self) -> ItemList<StandingGrant>
        ensures { result ≡ grants_sorted self }
    {
        self.in_order
    }

    /// To look them up by.
    pub(crate) fn gone(&self) -> &Gone
        ensures { result.now ≡ self.now }
    {
        &self.gone
    }
}

/// The grants that end, with all that hang on them, oldest first. A grant is younger than the one that it
/// hangs on, so one walk finds them.
pub(crate) fn ended(
    alloc: Global,
    grants: &Vec<StandingGrant>,
    ending: &Ending,
) -> Result<Gone, OutOfMemory>
    ensures { IfOk result (λ gone. gone ≡ ended_from (is_ended_by_lem ending.now) [] grants.now.items) }
{
    let mut gone = Gone::new(alloc);
    for grant in grants {
        if ending.ends(grant) || gone.carries(grant) {
            gone.push(*grant)?;
        }
    }
    Ok(gone)
}

/// The grants, no two of which are the same, in the order in which their ends are announced.
fn sorted(alloc: Global, grants: &Vec<StandingGrant>) -> Result<Vec<StandingGrant>, OutOfMemory>
    requires { links_are_apart grants.now.items ≡ true }
    ensures { IfOk result (λ in_order. in_order.items ≡ grants_sorted grants.now.items) }
{
    let mut ranked = BTreeMap::new(alloc);
    let mut left = grants.len();
    while left > 0 {
        left -= 1;
        let grant = grants[left];
        ordered::insert(&mut ranked, grant.rank(), grant)?;
    }
    let in_order = lists::collected(alloc, ranked.into_values())?;
    Ok(in_order)
}

/// Takes out those that are among the ones that have gone; the others keep their order.
pub(crate) fn take_out(grants: &mut Vec<StandingGrant>, gone: &Gone)
    ensures { grants.new.items ≡ filter (λ grant. not (list_any (same_grant grant) gone.now)) grants.old.items }
{
    grants.retain(|grant| !gone.has(grant));
}
