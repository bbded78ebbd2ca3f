//! A world of nodes with a directory, and the messages that were sent. A contract sees what each node shows of each job
//! number, the job's locations, and what it sent; after every history of steps that is the job's private cluster.
#![tactic(auto)]

ghost use Rattle.std.specs.Prelude.{◌≡◌, ℕ, ◌<◌, List, [], ◌∷◌, true, length, IfOk, OnErr, false};
ghost use Rattle.private_store.specs.declared.schedules.Traced.{Traced};
ghost use Rattle.private_store.specs.rules.Trace.{is_no_memory};
ghost use Rattle.node_core.specs.Steps.{job_of_event};
ghost use Rattle.world_core.specs.Worlds.{is_shape, is_within as is_within_lem, AreNew, IsAfter};
ghost use Rattle.world_core.specs.WorldSteps.{EventStep, WorldStep};
ghost use Rattle.world_core.specs.Noting.{IsNoted, IsEventNoted};
ghost use Rattle.world_core.specs.Runs.{is_replied};
ghost use Rattle.world_core.specs.MemoryLast.{IsMemoryLastAt, IsMemoryLastIn};
ghost use Rattle.private_store.specs.declared.schedules.NodeEvent.TheVariants.{Own};

mod delivering;
mod messages;
mod on_the_way;
mod runs;
mod stepped;
mod within;

use memory_growth::{OutOfMemory, lists};
use messages::Messages;
use node_core::{Node, NodeOutcome};
use obj_id::{Endpoint, JobNo};
use owner_directory::Directory;
use private_store::{Event, Step, StepAnswer};
pub use runs::{Trace, run};
use std::alloc::Global;
use std::marker::Model;
use stepped::Given;
pub use stepped::Stepped;
pub use within::is_within;

/// How many nodes a world has, 1 to 8, and the bytes of each one's memory, 0 to 17,179,869,184.
#[derive(Clone, Copy, Debug, PartialEq, Eq)]
pub struct ClusterSize {
    pub nodes: u32,
    pub memory: u64,
}

/// Nodes, the directory, and all messages that were sent.
pub struct World {
    alloc: Global,
    nodes: Vec<Node>,
    directory: Directory,
    messages: Messages,
}

// By hand, so that it is proved here and not in each crate above.
impl Drop for World {
    fn drop(self) {
        let World {
            alloc: _alloc,
            nodes: _nodes,
            directory: _directory,
            messages: _messages,
        } = self;
    }
}

impl Model for World {
    ghost use Rattle.world_core.specs.Logs.{messages_of};
    ghost use Rattle.world_core.specs.Worlds.{Hosting};

    ghost Value = { Hosting };

    ghost view = { λ w. record { nodes = w.nodes.items; tables = w.directory; messages = messages_of w.messages.logs } };
}

impl World {
    /// A world in which nothing has happened. The error is out of memory.
    pub fn new(alloc: Global, shape: ClusterSize) -> Result<World, OutOfMemory>
        requires { is_shape shape ≡ true }
        ensures ok { IfOk result (λ world. IsAfter shape.nodes shape.memory world []) }
    {
        let nodes = new_nodes(alloc, shape)?;
        Ok(World {
            alloc,
            nodes,
            directory: Directory::new(alloc),
            messages: Messages::new(alloc),
        })
    }

    /// Takes one step and gives its answer. Out of memory is the answer `NoMemory`, and then nothing has changed: no refusal,
    /// and no answer that there is no such message, was due.
    pub fn step(&mut self, step: &Step) -> StepAnswer
        requires { is_within_lem (length self.old.nodes) step.now ≡ true }
        ensures after { (nodes memory : ℕ) (history : List Traced) → IsAfter nodes memory self.old history
            → IsAfter nodes memory self.new (record { step = step.now; answer = result } ∷ history) }
        ensures memory { (nodes memory : ℕ) (history : List Traced) → IsAfter nodes memory self.old history → is_no_memory result ≡ true → self.new ≡ self.old }
        ensures memory_last { (nodes memory : ℕ) (history : List Traced) → IsAfter nodes memory self.old history → is_no_memory result ≡ true → IsMemoryLastIn self.old step.now }
        ensures replied { is_replied step.now result ≡ true }
        ensures count { length self.new.nodes ≡ length self.old.nodes }
    {
        self.step_noted(step).answer
    }

    /// The same, with what journals keep of the step: what it was to the jobs, without contents.
    pub fn step_noted(&mut self, step: &Step) -> Stepped
        requires { is_within_lem (length self.old.nodes) step.now ≡ true }
        ensures after { (nodes memory : ℕ) (history : List Traced) → IsAfter nodes memory self.old history
            → IsAfter nodes memory self.new (record { step = step.now; answer = result.answer } ∷ history) }
        ensures memory { (nodes memory : ℕ) (history : List Traced) → IsAfter nodes memory self.old history → is_no_memory result.answer ≡ true → self.new ≡ self.old }
        ensures memory_last { (nodes memory : ℕ) (history : List Traced) → IsAfter nodes memory self.old history → is_no_memory result.answer ≡ true → IsMemoryLastIn self.old step.now }
        ensures replied { is_replied step.now result.answer ≡ true }
        ensures count { length self.new.nodes ≡ length self.old.nodes }
        ensures kept { IsNoted self.old self.new result.judged result.notes step.now result.answer }
    {
        let Ok(stepped) = self.turn(step) else {
            return Stepped::without_memory(self.alloc);
        };
        stepped
    }

    /// The same, and out of memory is an error.
    fn turn(&mut self, step: &Step) -> Result<Stepped, OutOfMemory>
        requires { is_within_lem (length self.old.nodes) step.now ≡ true }
        ensures ok { IfOk result (λ s. WorldStep self.old self.new step.now s.answer) }
        ensures answered { IfOk result (λ s. (nodes memory : ℕ) (history : List Traced) → IsAfter nodes memory self.old history → is_no_memory s.answer ≡ false) }
        ensures memory_last { OnErr result (IsMemoryLastIn self.old step.now) }
        ensures replied { IfOk result (λ s. is_replied step.now s.answer ≡ true) }
        ensures kept { IfOk result (λ s. IsNoted self.old self.new s.judged s.notes step.now s.answer) }
        ensures err { OnErr result (self.new ≡ self.old) }
    {
        match step {
            Step::At(place, event) => {
                let given = self.apply(*place, event)?;
                Ok(Stepped {
                    answer: StepAnswer::Response(given.reply),
                    judged: given.judged,
                    notes: given.notes,
                })
            }
            Step::Deliver {
                job,
                from,
                to,
                number,
                damaged,
            } => self.deliver(*job, *from, *to, *number, *damaged),
        }
    }

    /// An event at the node of the place. The error is out of memory, and then nothing has changed.
    fn apply(&mut self, place: u32, event: &Event) -> Result<Given, OutOfMemory>
        requires { place < length self.old.nodes }
        ensures ok { IfOk result (λ given. EventStep self.old place event.now given.reply self.new) }
        ensures memory_last { OnErr result (IsMemoryLastAt self.old place (Own event.now)) }
        ensures kept { IfOk result (λ given. IsEventNoted self.old self.new place event.now given.reply given.judged given.notes) }
        ensures err { OnErr result (self.new ≡ self.old) }
    {
        let job = job_of(event);
        // all growth comes before the node's step, which answers for it that memory ran out only after its own checks
        let most = self.nodes[place as usize].foresee(event).most_messages;
        let room = self.messages.reserve(job, most);
        let outcome = self.nodes[place as usize].apply(event, room)?;
        let NodeOutcome {
            reply,
            messages,
            notes,
            judged,
            ..
        } = outcome;
        self.messages.add(job, Endpoint::Node(place), messages);
        Ok(Given {
            reply,
            judged,
            notes,
        })
    }
}

/// Nodes in which nothing has happened, by number.
fn new_nodes(alloc: Global, shape: ClusterSize) -> Result<Vec<Node>, OutOfMemory>
    requires { is_shape shape ≡ true }
    ensures { IfOk result (λ nodes. AreNew shape.memory shape.nodes nodes.items) }
{
    let mut nodes = Vec::new(alloc);
    for number in 0..shape.nodes {
        lists::push(&mut nodes, Node::new(alloc, number, shape.memory))?;
    }
    Ok(nodes)
}

/// The job that an event is of: 0 for what is of none.
fn job_of(event: &Event) -> JobNo
    ensures { result.0 ≡ job_of_event event.now }
{
    match event {
        Event::Admit { job, .. } => *job,
        Event::Requota(job, _) => *job,
        Event::JobEnd(job) => *job,
        Event::Take => JobNo(0),
        Event::Finish { job, .. } => *job,
        Event::Call { job, .. } => *job,
    }
}
