//! Grants: chains, rings, limits, and what ends with what.
ghost use Rattle.std.specs.Prelude.{IfOk};
ghost use Rattle.grants.specs.Table.{AreFoundIn};

use assertions::{holds, same};
use grants::{EndingGrants, Grants, StandingGrant};
use memory_growth::OutOfMemory;
use obj_id::{ItemList, JobNo, ObjectId, Refusal, TaskNo};
use std::process::Abort;
use std::test::Fail;

/// The first object of a task of a job.
fn object(job: u32, task: u64) -> Result<ObjectId, Refusal> {
    ObjectId::new(TaskNo::numbered(task), JobNo(job), 1)
}

// What a table of grants promises is long. The tests call it by these, which promise nothing.

fn grant(grants: &mut Grants, grantor: u32, id: ObjectId, target: u32) -> Result<(), Refusal> {
    grants.grant(JobNo(grantor), id, JobNo(target))?;
    Ok(())
}

fn withdraw(
    grants: &mut Grants,
    grantor: u32,
    id: ObjectId,
    target: u32,
) -> Result<ItemList<StandingGrant>, Refusal> {
    Ok(grants.withdraw(JobNo(grantor), id, JobNo(target))?)
}

/// Whether these are the grants, each as grantor, grantee and depth.
fn are(given_grants: &[StandingGrant], wanted: &[(u32, u32, u32)]) -> bool {
    given_grants.len() == wanted.len()
        && given_grants.iter().zip(wanted).all(|(grant, (grantor, grantee, depth))| {
            grant.grantor().0 == *grantor
                && grant.grantee().0 == *grantee
                && grant.depth() == *depth
        })
}

/// Whether each of these grants stands: grantor, object and grantee.
fn all_stand(grants: &Grants, given_grants: &[(u32, ObjectId, u32)]) -> bool {
    given_grants.iter().all(|(grantor, id, grantee)| grants.has_given(
        JobNo(*grantor),
        *id,
        JobNo(*grantee),
    ))
}

/// The depth of the oldest grant of the object to the job; 0 if the job doesn't see it.
fn depth(grants: &Grants, job: u32, id: ObjectId) -> u32 {
    match grants.seen_by(JobNo(job), id) {
        Some(grant) => grant.depth(),
        None => 0,
    }
}

/// The depths of the oldest grants of the object to jobs 1 to 4.
fn depths(grants: &Grants, id: ObjectId) -> [u32; 4] {
    [
        depth(grants, 1, id),
        depth(grants, 2, id),
        depth(grants, 3, id),
        depth(grants, 4, id),
    ]
}

/// Grants the object once for each of these: grantor and grantee.
fn grant_all(
    grants: &mut Grants,
    id: ObjectId,
    given_grants: &[(u32, u32)],
) -> Result<(), Refusal> {
    for (grantor, target) in given_grants {
        grant(grants, *grantor, id, *target)?;
    }
    Ok(())
}

/// Whether the withdrawal of a grant ends these.
fn ends(
    grants: &mut Grants,
    id: ObjectId,
    (grantor, target): (u32, u32),
    ended: &[(u32, u32, u32)],
) -> Result<bool, Refusal> {
    Ok(are(withdraw(grants, grantor, id, target)?.as_slice(), ended))
}

/// Job 3 hands on along the older of its grants, and then along the other.
fn hand_on(rt: &impl Abort, grants: &mut Grants, id: ObjectId) -> Result<(), Refusal> {
    grant_all(grants, id, &[(1, 2), (2, 3), (1, 3), (3, 4)])?;
    same!(rt; depths(grants, id), [0, 1, 2, 3]);
    same!(rt; grant(grants, 4, id, 2), Err(Refusal::TooMany));
    let first = [(1, 2, 1), (2, 3, 2), (3, 4, 3)];
    holds!(rt; ends(grants, id, (1, 2), &first)?);
    same!(rt; depths(grants, id), [0, 0, 1, 0]);
    grant(grants, 3, id, 4)?;
    same!(rt; (depths(grants, id), grants.is_granted(id)), ([0, 0, 1, 2], true));
    holds!(rt; ends(grants, id, (1, 3), &[(1, 3, 1), (3, 4, 2)])?);
    holds!(rt; !grants.is_granted(id));
    Ok(())
}

#[test]
fn an_object_is_handed_on_along_its_oldest_grant(rt: HostRuntime) -> Result<(), Fail> {
    let id = object(1, 1)?;
    let mut grants = Grants::new(rt.alloc());
    same!(rt; hand_on(&rt, &mut grants, id), Ok(()));
    Ok(())
}

/// A withdrawal in the middle of a chain leaves what is above.
fn withdraw_the_middle(rt: &impl Abort, grants: &mut Grants, id: ObjectId) -> Result<(), Refusal> {
    grant_all(grants, id, &[(1, 2), (2, 3), (3, 4)])?;
    holds!(rt; ends(grants, id, (2, 3), &[(2, 3, 2), (3, 4, 3)])?);
    same!(rt; depths(grants, id), [0, 1, 0, 0]);
    Ok(())
}

#[test]
fn a_withdrawal_in_the_middle_leaves_what_is_above(rt: HostRuntime) -> Result<(), Fail> {
    let id = object(1, 1)?;
    let mut grants = Grants::new(rt.alloc());
    same!(rt; withdraw_the_middle(&rt, &mut grants, id), Ok(()));
    Ok(())
}

/// A withdrawal takes away a second grant to its own grantor.
fn withdraw_a_ring(rt: &impl Abort, grants: &mut Grants, id: ObjectId) -> Result<(), Refusal> {
    grant_all(grants, id, &[(1, 2), (2, 3), (3, 2)])?;
    same!(rt; depths(grants, id), [0, 1, 2, 0]);
    holds!(rt; ends(grants, id, (2, 3), &[(2, 3, 2), (3, 2, 3)])?);
    same!(rt; depths(grants, id), [0, 1, 0, 0]);
    Ok(())
}

#[test]
fn grants_may_run_in_a_ring(rt: HostRuntime) -> Result<(), Fail> {
    let id = object(1, 1)?;
    let mut grants = Grants::new(rt.alloc());
    same!(rt; withdraw_a_ring(&rt, &mut grants, id), Ok(()));
    Ok(())
}

/// What grants are answered, of the object of job 1.
fn answers(grants: &mut Grants, id: ObjectId) -> [Result<(), Refusal>; 6] {
    [
        grant(grants, 1, id, 0),
        grant(grants, 1, id, 1),
        grant(grants, 2, id, 1),
        grant(grants, 2, id, 3),
        grant(grants, 1, id, 2),
        grant(grants, 1, id, 2),
    ]
}

#[test]
fn a_grant_is_refused_in_the_order_of_the_rules(rt: HostRuntime) -> Result<(), Fail> {
    let id = object(1, 1)?;
    let mut grants = Grants::new(rt.alloc());
    let due = [
        Err(Refusal::BadId),
        Err(Refusal::BadId),
        Err(Refusal::BadId),
        Err(Refusal::NotGranted),
        Ok(()),
        Err(Refusal::Exists),
    ];
    same!(rt; answers(&mut grants, id), due);
    let refused = withdraw(&mut grants, 2, id, 1).err();
    same!(rt; refused, Some(Refusal::NotGranted));
    Ok(())
}

/// Gives as many grants of two objects as job 1 may, and one more.
fn give_too_many(
    rt: &impl Abort,
    grants: &mut Grants,
    own: ObjectId,
    foreign: ObjectId,
) -> Result<(), Refusal> {
    grant_all(grants, foreign, &[(2, 1), (1, 3)])?;
    for target in 2..65 {
        grant(grants, 1, own, target)?;
    }
    same!(rt; grant(grants, 1, own, 65), Err(Refusal::TooMany));
    same!(rt; grant(grants, 1, foreign, 65), Err(Refusal::TooMany));
    // the limit is each grantor's own
    grant(grants, 2, foreign, 65)?;
    withdraw(grants, 1, foreign, 3)?;
    grant(grants, 1, own, 65)
}

#[test]
fn the_65th_grant_of_a_grantor_is_refused(rt: HostRuntime) -> Result<(), Fail> {
    let (own, foreign) = (object(1, 1)?, object(2, 1)?);
    let mut grants = Grants::new(rt.alloc());
    same!(rt; give_too_many(&rt, &mut grants, own, foreign), Ok(()));
    Ok(())
}

/// What ends with job 1.
#[tactic(auto, using(crate::proofs::Found::found_in))]
fn found_with_job(grants: &Grants) -> Result<EndingGrants, OutOfMemory>
    ensures { IfOk result (λ ends. AreFoundIn grants.now ends) }
{
    Ok(grants.ends_with_job(JobNo(1))?)
}

/// What ends with the first task of job 1.
#[tactic(auto, using(crate::proofs::Found::found_in))]
fn found_with_task(grants: &Grants) -> Result<EndingGrants, OutOfMemory>
    ensures { IfOk result (λ ends. AreFoundIn grants.now ends) }
{
    Ok(grants.ends_with_task(JobNo(1), TaskNo::numbered(1))?)
}

/// The end of a job ends what it gave, by depth, object, grantor and grantee.
fn end_job(
    rt: &impl Abort,
    grants: &mut Grants,
    first: ObjectId,
    second: ObjectId,
) -> Result<(), Refusal> {
    grant_all(grants, second, &[(1, 9), (1, 3), (3, 4)])?;
    grant(grants, 1, first, 5)?;
    let ends = found_with_job(grants)?;
    holds!(rt; are(ends.grants(), &[(1, 5, 1), (1, 3, 1), (1, 9, 1), (3, 4, 2)]));
    holds!(rt; all_stand(grants, &[(1, first, 5), (1, second, 9), (3, second, 4)]));
    grants.take_out(&ends);
    same!(rt; grants.len(), 0);
    Ok(())
}

#[test]
fn ends_are_told_by_depth_object_grantor_and_grantee(rt: HostRuntime) -> Result<(), Fail> {
    let (first, second) = (object(1, 1)?, object(1, 2)?);
    let mut grants = Grants::new(rt.alloc());
    same!(rt; end_job(&rt, &mut grants, first, second), Ok(()));
    Ok(())
}

/// The end of a task ends what was given of its objects, and the end of an object all of its grants.
fn end_task(
    rt: &impl Abort,
    grants: &mut Grants,
    own: ObjectId,
    foreign: ObjectId,
) -> Result<(), Refusal> {
    grant_all(grants, foreign, &[(2, 1), (1, 3)])?;
    grant(grants, 1, own, 3)?;
    let ends = found_with_task(grants)?;
    holds!(rt; are(ends.grants(), &[(1, 3, 1)]));
    holds!(rt; all_stand(grants, &[(1, own, 3), (1, foreign, 3)]));
    grants.take_out(&ends);
    holds!(rt; !grants.has_given(JobNo(1), own, JobNo(3)));
    same!(rt; depths(grants, foreign), [1, 0, 2, 0]);
    let ended = grants.drop_object(foreign)?;
    holds!(rt; are(ended.as_slice(), &[(2, 1, 1), (1, 3, 2)]));
    Ok(())
}

#[test]
fn the_end_of_a_task_leaves_what_was_received(rt: HostRuntime) -> Result<(), Fail> {
    let (own, foreign) = (object(1, 1)?, object(2, 1)?);
    let mut grants = Grants::new(rt.alloc());
    same!(rt; end_task(&rt, &mut grants, own, foreign), Ok(()));
    Ok(())
}

/// Of each object the oldest grant is seen, by object; grants are listed as they were given.
fn list_all(
    rt: &impl Abort,
    grants: &mut Grants,
    late: ObjectId,
    early: ObjectId,
) -> Result<(), Refusal> {
    grant_all(grants, late, &[(1, 2), (2, 3)])?;
    grant(grants, 2, early, 3)?;
    grant(grants, 1, late, 3)?;
    holds!(rt; are(grants.seen(JobNo(3))?.as_slice(), &[(2, 3, 1), (2, 3, 2)]));
    holds!(rt; are(grants.given_to(JobNo(3))?.as_slice(), &[(2, 3, 2), (2, 3, 1), (1, 3, 1)]));
    holds!(rt; are(grants.given_by(JobNo(2))?.as_slice(), &[(2, 3, 2), (2, 3, 1)]));
    Ok(())
}

#[test]
fn what_is_seen_is_listed_by_object_with_its_oldest_grant(rt: HostRuntime) -> Result<(), Fail> {
    let (late, early) = (object(1, 2)?, object(2, 1)?);
    let mut grants = Grants::new(rt.alloc());
    same!(rt; list_all(&rt, &mut grants, late, early), Ok(()));
    Ok(())
}
