//! The device workers of a schedule: what is handed in for a work that a line finishes.
ghost use Rattle.std.specs.Prelude.{◌≡◌, ◌<◌, [], not, length, filter, find, option_map, IfOk, OnOk};
ghost use Rattle.obj_id.specs.declared.works.DeviceKey.{DeviceKey};
ghost use Rattle.spill_device.specs.Held.{held_bytes_at};
ghost use Rattle.schedule_runs.specs.Workers.{Calls, IsCrewAfter, call_answer, called, damaged_answer as damaged_lem, handed_in, held_by, is_taken_at as is_at_lem, noted, bytes_after, written_for};

use bytes::Bytes;
use memory_growth::{OutOfMemory, lists, shared};
use obj_id::{DeviceAnswer, JobNo, Refusal, Reply, Work};
use private_store::{Event, Step, StepAnswer};
use program_lines::Fault;
use schedule_text::FinishWord;
use spill_device::{DeviceFault, MemoryDevice, SpillDevice};
use std::alloc::Global;
use std::marker::Model;

/// A work that a line took at a node.
#[derive(Drop)]
pub(crate) struct InService {
    node: u32,
    work: Work<Bytes>,
}

/// A device in memory for each node, and the works that were taken and not finished.
#[derive(Drop)]
pub(crate) struct Workers {
    alloc: Global,
    devices: Vec<MemoryDevice>,
    taken: Vec<InService>,
}

impl Model for Workers {
    ghost use Rattle.schedule_runs.specs.Workers.{Crew};

    ghost Value = { Crew };

    ghost view = { λ w. record { devices = w.devices.items; taken = w.taken.items } };
}

impl Workers {
    /// Workers of so many nodes, whose devices keep nothing.
    pub(crate) fn new(alloc: Global, nodes: u32) -> Result<Workers, OutOfMemory>
        ensures { IfOk result (λ workers. IsCrewAfter nodes workers []) }
    {
        let mut devices = Vec::new(alloc);
        for _ in 0..nodes {
            lists::push(&mut devices, MemoryDevice::new(alloc))?;
        }
        Ok(Workers {
            alloc,
            devices,
            taken: Vec::new(alloc),
        })
    }

    /// What is handed in for the work: the answer of the node's device, which is called now; or a failure without a call.
    /// For a work that nobody has taken no device is called.
    pub(crate) fn hand_in(
        &mut self,
        node: u32,
        job: JobNo,
        number: u64,
        outcome: FinishWord,
    ) -> Result<DeviceAnswer, Fault>
        requires { node < length self.old.devices }
        ensures answer { IfOk result (λ answer. answer ≡ handed_in self.old.taken (held_by self.old.devices) node job number outcome) }
        ensures calls { IfOk result (λ answer. Calls self.old node job number answer self.new) }
    {
        match outcome {
            FinishWord::Fail => Ok(DeviceAnswer::Failed),
            FinishWord::Ok => self.call(node, job, number),
            FinishWord::Damage => {
                let answer = self.call(node, job, number)?;
                Ok(damaged(self.alloc, answer)?)
            }
        }
    }

    /// The answer of the node's device to the work.
    fn call(&mut self, node: u32, job: JobNo, number: u64) -> Result<DeviceAnswer, Fault>
        requires { node < length self.old.devices }
        ensures answer { IfOk result (λ answer. answer ≡ called (held_by self.old.devices) node (find (is_at_lem node job number) self.old.taken)) }
        ensures calls { IfOk result (λ answer. Calls self.old node job number answer self.new) }
    {
        let Workers {
            alloc: _,
            devices,
            taken,
        } = self;
        match find_at(taken, node, job, number) {
            None => Ok(DeviceAnswer::Failed),
            Some(taken) => answer_of(&mut devices[node as usize], &taken.work),
        }
    }

    /// What the step was answered: a work that it gave is kept, and one that it finished is not kept any longer.
    pub(crate) fn note(&mut self, step: &Step, answer: StepAnswer) -> Result<(), OutOfMemory>
        ensures { OnOk result (self.new ≡ noted step.now answer self.old) }
    {
        match (step, answer) {
            (Step::At(node, Event::Take), StepAnswer::Response(Reply::Work(work))) => {
                lists::push(&mut self.taken, InService { node: *node, work })?;
            }
            (
                Step::At(_, Event::Finish { .. }),
                StepAnswer::Response(Reply::Refused(Refusal::NoMemory)),
            ) => {}
            (Step::At(node, Event::Finish { job, number, .. }), _) => self.finish(
                *node, *job, *number,
            ),
            _ => {}
        }
        Ok(())
    }

    /// The work is not kept any longer.
    fn finish(&mut self, node: u32, job: JobNo, number: u64)
        ensures { self.new ≡ record self.old { taken = filter (λ t. not (is_at_lem node job number t)) self.old.taken } }
    {
        take_out(&mut self.taken, node, job, number);
    }
}

/// The job's work under the number at the node, if it is kept.
fn find_at(taken: &[InService], node: u32, job: JobNo, number: u64) -> Option<&InService>
    ensures { option_map (λ t. t.now) result ≡ find (is_at_lem node job number) taken.now }
{
    taken.iter().find(|taken| is_at(taken, node, job, number))
}

/// Takes out the job's work under the number at the node.
fn take_out(taken: &mut Vec<InService>, node: u32, job: JobNo, number: u64)
    ensures { taken.new.items ≡ filter (λ t. not (is_at_lem node job number t)) taken.old.items }
{
    taken.retain(|taken| !is_at(taken, node, job, number));
}

/// Whether it is the job's work under the number at the node.
fn is_at(taken: &InService, node: u32, job: JobNo, number: u64) -> bool
    ensures { result ≡ is_at_lem node job number taken.now }
{
    taken.node == node && taken.work.job == job && taken.work.number == number
}

/// What the device answers to the work, which is called: a write's bytes are kept under its key, and a read's are
/// those that are. The error is out of memory.
fn answer_of(device: &mut MemoryDevice, work: &Work<Bytes>) -> Result<DeviceAnswer, Fault>
    ensures answer { IfOk result (λ answer. answer ≡ call_answer (held_bytes_at device.old work.now.key) work.now) }
    ensures holds { OnOk result ((key : DeviceKey) → held_bytes_at device.new key ≡ bytes_after (written_for work.now key) (held_bytes_at device.old key)) }
{
    let answer = match work.payload.as_ref() {
        Some(bytes) => device.write(work.key, bytes).map(|()| DeviceAnswer::Done),
        None => device.read(work.key, work.length).map(DeviceAnswer::Bytes),
    };
    match answer {
        Ok(answer) => Ok(answer),
        Err(DeviceFault::Failed) => Ok(DeviceAnswer::Failed),
        Err(DeviceFault::NoMemory) => Err(Fault::NoMemory),
    }
}

/// The answer, with the low bit of its first byte turned, if it has bytes.
fn damaged(alloc: Global, answer: DeviceAnswer) -> Result<DeviceAnswer, OutOfMemory>
    ensures { IfOk result (λ a. a ≡ damaged_lem answer) }
{
    let DeviceAnswer::Bytes(bytes) = answer else {
        return Ok(answer);
    };
    let mut copied = lists::copied(alloc, &bytes)?;
    if let Some(first) = copied.first_mut() {
        *first ^= 1;
    }
    Ok(DeviceAnswer::Bytes(shared::from_vec(copied)?))
}
