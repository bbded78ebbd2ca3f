//! What a node knows of an event before it is taken.
ghost use Rattle.std.specs.Prelude.{◌≡◌, ◌∷◌, [], Some, IfOk};
ghost use Rattle.node_core.specs.Hosted.{row_at};
ghost use Rattle.node_core.specs.Judged.{TellsFew};
ghost use Rattle.node_core.specs.Foreseen.{most_by_arrival as most_by_arrival_lem, most_messages as most_messages_lem, most_sent as most_sent_lem, grantees_of as grantees_of_lem, grantees_in};
ghost use Rattle.node_core.specs.GrantMoves.{event_of};

use crate::Node;
use crate::grant_move::GrantMove;
use command_kinds::{CommandKind, MostSent};
use grants::StandingGrant;
use job_row::JobRow;
use memory_growth::{OutOfMemory, lists};
use obj_id::{Arrival, ItemList, JobNo, PeerMessage};
use private_store::Event;
use std::alloc::Global;

/// What a caller has to grow for before an event is taken.
#[derive(Debug, Drop)]
pub struct Foreseen {
    /// It sends no more messages than this.
    pub most_messages: usize,
}

impl Node {
    /// What the event will send, if it is taken now. Takes no memory and a look-up of the job, and changes nothing.
    pub fn foresee(&self, event: &Event) -> Foreseen
        ensures messages { result.most_messages ≡ most_messages_lem self.now event.now }
    {
        Foreseen {
            most_messages: self.most_messages(event),
        }
    }

    /// What a message of the job will make the node send, if it arrives now. Takes no memory and a look-up of the job, and
    /// changes nothing.
    pub fn foresee_arrival(&self, job: JobNo, arrival: &Arrival) -> Foreseen
        ensures messages { result.most_messages ≡ most_by_arrival_lem (row_at self.now job) arrival.now }
    {
        let most_messages = match self.rows.get(&job) {
            Some(row) => most_by_arrival(row, arrival),
            None => 0,
        };
        Foreseen { most_messages }
    }

    /// The jobs that the event tells of grants if it is accepted, one for each note, in their order. The error is out
    /// of memory. It changes nothing.
    pub fn grantees(&self, event: &Event) -> Result<ItemList<JobNo>, OutOfMemory>
        ensures grantees { IfOk result (λ grantees. grantees ≡ grantees_of_lem self.now.grants event.now) }
        ensures few { IfOk result (TellsFew self.now) }
    {
        self.few_stand();
        match GrantMove::of(event) {
            Some(grant_move) => self.told(grant_move),
            None => Ok(ItemList::new(self.alloc)),
        }
    }

    /// The same of what moves grants: to whom one is given, or the grantees of those that end, in the order in which they
    /// are announced.
    fn told(&self, grant_move: GrantMove) -> Result<ItemList<JobNo>, OutOfMemory>
        ensures { IfOk result (λ grantees. grantees ≡ grantees_of_lem self.now.grants (event_of grant_move)) }
    {
        let ends = match grant_move {
            GrantMove::Grant { target, .. } => return Ok(one_grantee(self.alloc, target)?),
            GrantMove::JobEnd(job) => self.grants.ends_with_job(job)?,
            GrantMove::EndTask { job, task, .. } => self.grants.ends_with_task(job, task)?,
            GrantMove::Withdraw {
                job,
                id,
                target,
                ..
            } => self.grants.ends_with_grant(job, id, target)?,
        };
        grantees_of(self.alloc, ends.grants())
    }

    /// The most messages that the event sends.
    #[tactic(auto, using(crate::proofs::Sending::most_is))]
    fn most_messages(&self, event: &Event) -> usize
        ensures { result ≡ most_messages_lem self.now event.now }
    {
        match event {
            Event::JobEnd(_) => 1,
            Event::Call { job, command, .. } => {
                self.most_sent(*job, CommandKind::of(command).most_sent())
            }
            Event::Admit { .. } | Event::Requota(..) | Event::Take | Event::Finish { .. } => 0,
        }
    }

    /// So many messages, by the copies of the job. Looks the job up only if they count.
    fn most_sent(&self, job: JobNo, most: MostSent) -> usize
        ensures { result ≡ most_sent_lem (row_at self.now job) most }
    {
        match most {
            MostSent::Nothing => 0,
            MostSent::One => 1,
            MostSent::EachCopy => match self.rows.get(&job) {
                Some(row) => row.copy_count(),
                None => 0,
            },
            MostSent::EachCopyAndOne => match self.rows.get(&job) {
                Some(row) => row.copy_count() + 1,
                None => 0,
            },
            MostSent::EachCopyTwice => match self.rows.get(&job) {
                Some(row) => 2 * row.copy_count(),
                None => 0,
            },
        }
    }
}

/// One grantee.
fn one_grantee(alloc: Global, grantee: JobNo) -> Result<ItemList<JobNo>, OutOfMemory>
    ensures { IfOk result (λ grantees. grantees ≡ grantee ∷ []) }
{
    let mut grantees = lists::with_capacity(alloc, 1)?;
    lists::push(&mut grantees, grantee)?;
    Ok(ItemList::from_vec(grantees))
}

/// The grantees of the grants, in their order.
fn grantees_of(alloc: Global, grants: &[StandingGrant]) -> Result<ItemList<JobNo>, OutOfMemory>
    ensures { IfOk result (λ grantees. grantees ≡ grantees_in grants.now) }
{
    let mut grantees = lists::with_room_for(alloc, grants)?;
    for grant in grants {
        lists::push(&mut grantees, grant.grantee())?;
    }
    Ok(ItemList::from_vec(grantees))
}

/// The most messages that a live job's node sends if this arrives: a Pull is sent the chunks that it asks for, or makes room
/// for bytes that are read back.
fn most_by_arrival(row: &JobRow, arrival: &Arrival) -> usize
    ensures { result ≡ most_by_arrival_lem (Some row.now) arrival.now }
{
    match arrival {
        Arrival::Located { .. } => 0,
        Arrival::FromPeer(_, PeerMessage::Pull { indexes, .. }) => {
            row.copy_count() + indexes.as_slice().len() + 1
        }
        Arrival::FromPeer(_, PeerMessage::Chunk { .. } | PeerMessage::NotHere(..)) => 1,
    }
}
