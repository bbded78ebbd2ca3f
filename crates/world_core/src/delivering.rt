//! Messages that are handed over, to a node or to the directory.
ghost use Rattle.std.specs.Prelude.{◌≡◌, ℕ, ◌<◌, Bool, true, false, List, [], length, slice_get, Some, None, is_some, IfOk, OnOk, OnErr};
ghost use Rattle.obj_id.specs.declared.messages.Endpoint.TheVariants as places;
ghost use Rattle.private_store.specs.declared.schedules.Step.TheVariants as steps;
ghost use Rattle.job_admission.specs.Admissions.{live_at};
ghost use Rattle.node_core.specs.Hosted.{Hosted};
ghost use Rattle.node_core.specs.Steps.{answer_of_check, stale_unless};
ghost use Rattle.world_core.specs.Worlds.{IsAfter, is_place};
ghost use Rattle.world_core.specs.MemoryLast.{IsDeliveryDue, IsMemoryLastAt, IsTakenAt};
ghost use Rattle.private_store.specs.declared.schedules.NodeEvent.TheVariants.{Arrive};
ghost use Rattle.private_store.specs.declared.schedules.StepAnswer.TheVariants.{Response};
ghost use Rattle.private_store.specs.declared.schedules.Traced.{Traced};
ghost use Rattle.private_store.specs.rules.Trace.{is_no_memory};
ghost use Rattle.obj_id.specs.declared.commands.Reply.TheVariants as reply;
ghost use Rattle.obj_id.specs.declared.messages.Endpoint.{Endpoint};
ghost use Rattle.obj_id.specs.declared.messages.Message.{Message};
ghost use Rattle.obj_id.specs.declared.refusals.Refusal.TheVariants.{Stale};
ghost use Rattle.world_core.specs.WorldSteps.{Arrives, MovesDirectory, IsDelivered, WorldStep};
ghost use Rattle.world_core.specs.Noting.{IsNoted, IsArrivalNoted};

use crate::World;
use crate::on_the_way::{answers, arrival, as_it_arrives, for_directory, handed, message_of};
use crate::stepped::{Given, Stepped};
use bytes::Bytes;
use memory_growth::OutOfMemory;
use node_core::NodeOutcome;
use obj_id::{Arrival, DirectoryMessage, Endpoint, JobNo, Message, Refusal, Reply};
use owner_directory::DirectoryReply;
use private_store::StepAnswer;

impl World {
    /// The job's message of this number, from 1, that was sent from the one place to the other is handed over, damaged or
    /// not. The error is out of memory, and then nothing has changed.
    pub(crate) fn deliver(
        &mut self,
        job: JobNo,
        from: Endpoint,
        to: Endpoint,
        number: u64,
        damaged: bool,
    ) -> Result<Stepped, OutOfMemory>
        requires { is_place (length self.old.nodes) to ≡ true }
        ensures ok { IfOk result (λ s. WorldStep self.old self.new (steps.Deliver job from to number damaged) s.answer) }
        ensures answered { IfOk result (λ s. (nodes memory : ℕ) (history : List Traced) → IsAfter nodes memory self.old history → is_no_memory s.answer ≡ false) }
        ensures memory_last { OnErr result (IsDeliveryDue self.old job from to number) }
        ensures kept { IfOk result (λ s. IsNoted self.old self.new s.judged s.notes (steps.Deliver job from to number damaged) s.answer) }
        ensures err { OnErr result (self.new ≡ self.old) }
    {
        let Some(sent) = self.messages.find(job, from, to, number) else {
            return Ok(Stepped::alone(self.alloc, StepAnswer::NoMessage));
        };
        if self.is_stale_at(job, to) {
            let stale = StepAnswer::Response(Reply::Refused(Refusal::Stale));
            return Ok(Stepped::alone(self.alloc, stale));
        }
        let message = as_it_arrives(self.alloc, sent, damaged)?;
        match to {
            Endpoint::Node(place) => self.deliver_to_node(job, from, place, message),
            Endpoint::Directory => {
                let answer = self.deliver_to_directory(job, from, message)?;
                Ok(Stepped::alone(self.alloc, answer))
            }
        }
    }

    /// Whether the place is a node at which the job isn't live, so that each message of the job is stale there. Takes no memory.
    fn is_stale_at(&self, job: JobNo, to: Endpoint) -> bool
        requires { is_place (length self.now.nodes) to ≡ true }
        ensures ok { result ≡ true → (from : Endpoint) (m : Message) → IsDelivered self.now job from m self.now to (Response (reply.Refused Stale)) }
        ensures kept { result ≡ true → (from : Endpoint) (number : ℕ) (damaged : Bool) → IsNoted self.now self.now None [] (steps.Deliver job from to number damaged) (Response (reply.Refused Stale)) }
        ensures taken { result ≡ false → IsTakenAt self.now job to }
    {
        match to {
            Endpoint::Node(place) => self.nodes[place as usize].is_stale(job),
            Endpoint::Directory => false,
        }
    }

    /// The message is handed to the node of the place.
    fn deliver_to_node(
        &mut self,
        job: JobNo,
        from: Endpoint,
        place: u32,
        message: Message,
    ) -> Result<Stepped, OutOfMemory>
        requires { place < length self.old.nodes }
        ensures ok { IfOk result (λ s. IsDelivered self.old job from message self.new (places.Node place) s.answer) }
        ensures kept { IfOk result (λ s. (number : ℕ) (damaged : Bool) → IsNoted self.old self.new s.judged s.notes (steps.Deliver job from (places.Node place) number damaged) s.answer) }
        ensures err { OnErr result (self.new ≡ self.old) }
    {
        match arrival(from, message) {
            Ok(arriving) => {
                let given = self.arrive(job, place, &arriving)?;
                Ok(Stepped {
                    answer: handed(message_of(arriving), given.reply),
                    judged: given.judged,
                    notes: given.notes,
                })
            }
            // what isn't made for a node is nothing there
            Err(message) => {
                let answer = handed(message, self.reply_to_nothing(job, place));
                Ok(Stepped::alone(self.alloc, answer))
            }
        }
    }

    /// The job's message arrives at the node of the place.
    fn arrive(&mut self, job: JobNo, place: u32, arrival: &Arrival) -> Result<Given, OutOfMemory>
        requires { place < length self.old.nodes }
        ensures ok { IfOk result (λ given. Arrives self.old place job arrival.now given.reply self.new) }
        ensures memory_last { OnErr result (IsMemoryLastAt self.old place (Arrive job arrival.now)) }
        ensures kept { IfOk result (λ given. IsArrivalNoted self.old self.new place job arrival.now given.reply given.judged given.notes) }
        ensures err { OnErr result (self.new ≡ self.old) }
    {
        // all growth comes before the node's step, which answers for it that memory ran out only after its own checks
        let most = self.nodes[place as usize]
            .foresee_arrival(job, arrival)
            .most_messages;
        let room = self.messages.reserve(job, most);
        let outcome = self.nodes[place as usize].arrive(job, arrival, room)?;
        let NodeOutcome {
            reply,
            messages,
            notes,
            judged,
            ..
        } = outcome;
        self.messages.add(job, Endpoint::Node(place), messages);
        Ok(Given {
            reply,
            judged,
            notes,
        })
    }

    /// What the node of the place answers if nothing is made of a message: Ok, or `Stale` if the job isn't live.
    fn reply_to_nothing(&self, job: JobNo, place: u32) -> Reply<Bytes>
        requires { place < length self.now.nodes }
        ensures { (node : Hosted) → slice_get self.now.nodes place ≡ Some node → result ≡ answer_of_check (stale_unless (is_some (live_at node.admissions job))) }
    {
        match self.nodes[place as usize].usage(job) {
            Ok(_) => Reply::Ok,
            Err(_) => Reply::Refused(Refusal::Stale),
        }
    }

    /// The message is handed to the directory.
    fn deliver_to_directory(
        &mut self,
        job: JobNo,
        from: Endpoint,
        message: Message,
    ) -> Result<StepAnswer, OutOfMemory>
        ensures ok { IfOk result (λ response. IsDelivered self.old job from message self.new places.Directory response) }
        ensures err { OnErr result (self.new ≡ self.old) }
    {
        let Some(response) = for_directory(&message) else {
            // what isn't made for the directory is nothing there
            return Ok(StepAnswer::HandedOver(message));
        };
        self.tell_directory(job, response)?;
        Ok(StepAnswer::HandedOver(message))
    }

    /// The directory takes a message of the job, and what it answers is sent.
    fn tell_directory(&mut self, job: JobNo, message: DirectoryMessage) -> Result<(), OutOfMemory>
        ensures ok { OnOk result (MovesDirectory self.old job message self.new) }
        ensures err { OnErr result (self.new ≡ self.old) }
    {
        // all growth comes before the directory's step, which may want memory itself
        self.messages.reserve(job, answers(&message))?;
        if let DirectoryReply::Located {
            to,
            id,
            number,
            entries,
        } = self.directory.apply(job, message)?
        {
            let located = Message::Located {
                id,
                number,
                entries,
            };
            self.messages
                .send(job, Endpoint::Directory, Endpoint::Node(to), located);
        }
        Ok(())
    }
}
