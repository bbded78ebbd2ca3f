//! Messages that arrive at a node for one of its jobs.
ghost use Rattle.std.specs.Prelude.{◌≡◌, ℕ, ◌≤◌, List, [], false, length, Some, IfOk, OnOk, OnErr, is_ok, true, not, is_some};
ghost use Rattle.obj_id.specs.declared.ids.JobNo.{JobNo};
ghost use Rattle.obj_id.specs.declared.ids.ObjectId.{ObjectId};
ghost use Rattle.obj_id.specs.declared.commands.Reply.TheVariants as reply;
ghost use Rattle.obj_id.specs.declared.messages.Arrival.TheVariants as arrival;
ghost use Rattle.obj_id.specs.declared.refusals.Refusal.TheVariants.{Stale};
ghost use Rattle.private_store.specs.declared.inputs.Input.TheVariants as input;
ghost use Rattle.private_store.specs.declared.schedules.NodeEvent.TheVariants as node_event;
ghost use Rattle.private_store.specs.rules.Contents.{Contents, judge, source_in as source_in_lem};
ghost use Rattle.private_store.specs.rules.Grants.{StandingGrant};
ghost use Rattle.spill_work.specs.Line.{same_work_job, IsSameFor};
ghost use Rattle.job_admission.specs.Admissions.{live_at};
ghost use Rattle.obj_id.specs.declared.messages.Arrival.{Arrival};
ghost use Rattle.room_commands.specs.Asked.{HasAsked};
ghost use Rattle.row_steps.specs.Outcomes.{row_given_of};
ghost use Rattle.row_steps.specs.Shown.{only, seen, IsShown, RowStep};
ghost use Rattle.node_core.specs.Foreseen.{most_by_arrival};
ghost use Rattle.node_core.specs.Hosted.{row_at};
ghost use Rattle.node_core.specs.Judged.{IsArrivalJudged};
ghost use Rattle.node_core.specs.MemoryLast.{IsMemoryLast};
ghost use Rattle.node_core.specs.Outcomes.{node_given_of, with_no_notes};
ghost use Rattle.node_core.specs.Steps.{NodeStep};
ghost use Rattle.row_steps.specs.Beside.{beside_of};

use crate::Node;
use crate::outcome::NodeOutcome;
use fetch_core::elsewhere;
use job_row::JobRow;
use memory_growth::OutOfMemory;
use obj_id::{Arrival, ChunkIndex, FetchNo, JobNo, Location, NodeNo, PeerMessage, Refusal, Reply};
use private_store::{Judged, Source};
use spill_work::Works;
use std::alloc::Global;

impl Node {
    /// Whether each message of the job is stale here, as the job isn't live. Takes no memory.
    pub fn is_stale(&self, job: JobNo) -> bool
        ensures live { result ≡ not (is_some (live_at self.now.admissions job)) }
        ensures stale { result ≡ true → (a : Arrival) → NodeStep self.now (node_event.Arrive job a) (with_no_notes (only (reply.Refused Stale))) self.now }
    {
        match self.rows.get(&job) {
            Some(_) => false,
            None => true,
        }
    }

    /// A message of a job arrives.
    ///
    /// The view that the node shows of the job afterwards is what the private step makes of the view before on that
    /// message, and every other job's is as it was. `Stale` if the job isn't live, and then nothing changes. The error
    /// is out of memory, and then nothing has changed; it never stands in for `Stale`. It sends no more messages than
    /// `foresee_arrival` says, tells no job of a grant, and says what it was to its own job: nothing if it is stale. `room` is
    /// what came of the caller's growth to keep the messages, as in `apply`.
    pub fn arrive(
        &mut self,
        job: JobNo,
        arrival: &Arrival,
        room: Result<(), OutOfMemory>,
    ) -> Result<NodeOutcome, OutOfMemory>
        ensures ok { IfOk result (λ o. NodeStep self.old (node_event.Arrive job arrival.now) (node_given_of o) self.new) }
        ensures memory_last { OnErr result (IsMemoryLast self.old (node_event.Arrive job arrival.now)) }
        ensures bounded { IfOk result (λ o. length o.messages ≤ most_by_arrival (row_at self.old job) arrival.now) }
        ensures unsent { IfOk result (λ o. is_ok room ≡ false → o.messages ≡ []) }
        ensures judged { IfOk result (λ o. IsArrivalJudged self.old job arrival.now o.reply o.judged) }
        ensures silent { IfOk result (λ o. o.notes ≡ []) }
        ensures stale { IfOk result (λ o. o.reply ≡ reply.Refused Stale → self.new ≡ self.old) }
        ensures err { OnErr result (self.new ≡ self.old) }
    {
        let Some(row) = self.rows.get_mut(&job) else {
            let reply = Reply::Refused(Refusal::Stale);
            let outcome = row_steps::RowOutcome::only(self.alloc, reply);
            return Ok(NodeOutcome::of_row(self.alloc, outcome, None));
        };
        let (outcome, judged) = deliver(
            self.alloc,
            room,
            self.number,
            row,
            &mut self.works,
            arrival,
        )?;
        Ok(NodeOutcome::of_row(self.alloc, outcome, Some(judged)))
    }
}

/// The row of the job takes the message. Answers what it was to the job as well. The error is out of memory, and then nothing
/// has changed. Works that it asks for come last in the line, and those before them stay.
fn deliver(
    alloc: Global,
    room: Result<(), OutOfMemory>,
    node: u32,
    row: &mut JobRow,
    works: &mut Works,
    arrival: &Arrival,
) -> Result<(row_steps::RowOutcome, Judged), OutOfMemory>
    ensures ok { IfOk result (λ o. (grants : List StandingGrant) (bytes : ObjectId → List ℕ) (contents : Contents) → IsShown row.old (beside_of works.old grants bytes row.old.job) contents
        → RowStep node row.old (beside_of works.old grants bytes row.old.job) contents (input.Arrive arrival.now) (row_given_of o.0) row.new (beside_of works.new grants bytes row.old.job)) }
    ensures judged { IfOk result (λ o. (grants : List StandingGrant) (bytes : ObjectId → List ℕ) (contents : Contents) → IsShown row.old (beside_of works.old grants bytes row.old.job) contents
        → o.1 ≡ judge node (seen row.old (beside_of works.old grants bytes row.old.job) contents) (input.Arrive arrival.now)) }
    ensures response { IfOk result (λ o. o.0.reply ≡ reply.Ok) }
    ensures bounded { IfOk result (λ o. length o.0.messages ≤ most_by_arrival (Some row.old) arrival.now) }
    ensures unsent { IfOk result (λ o. is_ok room ≡ false → o.0.messages ≡ []) }
    ensures line { OnOk result (HasAsked works.old (record { 0 = row.old.job }) works.new) }
    ensures others { (other : JobNo) → same_work_job (record { 0 = row.old.job }) other ≡ false → IsSameFor other works.old works.new }
    ensures err { OnErr result (row.new ≡ row.old) }
    ensures works { OnErr result (works.new ≡ works.old) }
{
    match arrival {
        Arrival::Located {
            id,
            number,
            entries,
        } => {
            let entries = entries.as_slice();
            row_commands::located(row, NodeNo(node), id, FetchNo(*number), entries);
            let outcome = row_steps::RowOutcome::only(alloc, Reply::Ok);
            let judged = Judged::Located {
                id: *id,
                number: *number,
                source: source_in(node, entries),
            };
            Ok((outcome, judged))
        }
        Arrival::FromPeer(from, message) => deliver_from(
            alloc, room, node, row, works, *from, message,
        ),
    }
}

/// The same of a message from another node.
fn deliver_from(
    alloc: Global,
    room: Result<(), OutOfMemory>,
    node: u32,
    row: &mut JobRow,
    works: &mut Works,
    from: u32,
    message: &PeerMessage,
) -> Result<(row_steps::RowOutcome, Judged), OutOfMemory>
    ensures ok { IfOk result (λ o. (grants : List StandingGrant) (bytes : ObjectId → List ℕ) (contents : Contents) → IsShown row.old (beside_of works.old grants bytes row.old.job) contents
        → RowStep node row.old (beside_of works.old grants bytes row.old.job) contents (input.Arrive (arrival.FromPeer from message.now)) (row_given_of o.0) row.new (beside_of works.new grants bytes row.old.job)) }
    ensures judged { IfOk result (λ o. (grants : List StandingGrant) (bytes : ObjectId → List ℕ) (contents : Contents) → IsShown row.old (beside_of works.old grants bytes row.old.job) contents
        → o.1 ≡ judge node (seen row.old (beside_of works.old grants bytes row.old.job) contents) (input.Arrive (arrival.FromPeer from message.now))) }
    ensures response { IfOk result (λ o. o.0.reply ≡ reply.Ok) }
    ensures bounded { IfOk result (λ o. length o.0.messages ≤ most_by_arrival (Some row.old) (arrival.FromPeer from message.now)) }
    ensures unsent { IfOk result (λ o. is_ok room ≡ false → o.0.messages ≡ []) }
    ensures line { OnOk result (HasAsked works.old (record { 0 = row.old.job }) works.new) }
    ensures others { (other : JobNo) → same_work_job (record { 0 = row.old.job }) other ≡ false → IsSameFor other works.old works.new }
    ensures err { OnErr result (row.new ≡ row.old) }
    ensures works { OnErr result (works.new ≡ works.old) }
{
    match message {
        PeerMessage::Pull {
            id,
            number,
            length,
            digest,
            indexes,
        } => {
            let matches = room_commands::pull_matches(row, id, *length, digest);
            let outcome = room_commands::serve_pull(
                row,
                alloc,
                room,
                node,
                works,
                from,
                id,
                *number,
                *length,
                digest,
                indexes.as_slice(),
            )?;
            Ok((
                outcome,
                Judged::Pull {
                    id: *id,
                    number: *number,
                    matches,
                },
            ))
        }
        PeerMessage::Chunk {
            id,
            number,
            index,
            bytes,
        } => {
            let taken = row_commands::chunk(
                row,
                alloc,
                room,
                NodeNo(node),
                id,
                FetchNo(*number),
                ChunkIndex(*index),
                NodeNo(from),
                bytes,
            )?;
            let judged = Judged::Chunk {
                id: *id,
                number: *number,
                index: *index,
                from,
                verdict: taken.verdict,
            };
            Ok((taken.outcome, judged))
        }
        PeerMessage::NotHere(id, number) => {
            let outcome = row_commands::not_here(
                row,
                alloc,
                room,
                NodeNo(from),
                id,
                FetchNo(*number),
            )?;
            Ok((
                outcome,
                Judged::NotHere {
                    id: *id,
                    number: *number,
                    from,
                },
            ))
        }
    }
}

/// Where the first entry of another node says that the object is. Takes no memory.
fn source_in(node: u32, entries: &[Location]) -> Option<Source>
    ensures { result ≡ source_in_lem node entries.now }
{
    let entry = elsewhere(node, entries)?;
    Some(Source {
        node: entry.node,
        length: entry.length,
    })
}
