//! The operator's lines of a cluster that serves.
ghost use Rattle.std.specs.Prelude.{◌≡◌, IfOk, map};
ghost use Rattle.schedule_text.specs.Fields.{Reads};
ghost use Rattle.program_lines.specs.Orders.{IsAdmission, IsAdmissionAfter, IsAdmissionFields, IsAdmissionLine, IsKey, IsOrder, admission_order, order_of as order_of_lem};

use memory_growth::OutOfMemory;
use obj_id::{JobKey, JobNo, Quota};
use private_store::{Event, Step};
use schedule_text::{Line, fields, fields_of, quota, read_line};
use std::alloc::Global;

/// What is to become of a job at a node.
#[derive(Clone, Copy, Debug, PartialEq, Eq)]
pub enum Change {
    /// It is admitted.
    Admit {
        job: JobNo,
        quota: Quota,
        key: JobKey,
    },
    /// Its quotas are changed.
    Requota(JobNo, Quota),
    /// It is ended.
    End(JobNo),
}

/// What an operator's line asks for.
#[derive(Clone, Copy, Debug, PartialEq, Eq)]
pub enum Order {
    /// A change at the node of this number.
    Change(u32, Change),
    /// No more sessions are taken.
    Close,
}

/// What the text of a line, without its line feed, asks of a cluster with this number of nodes: `admit NODE JOB WINDOW DEVICE
/// KEY`, `quota NODE JOB WINDOW DEVICE`, `end NODE JOB` or `close`. `None` exactly if it is no such line.
pub fn read_order(alloc: Global, text: &str, nodes: u32) -> Result<Option<Order>, OutOfMemory>
    ensures { IfOk result (λ found. Reads found (IsOrder nodes text.now)) }
{
    if text == "close" {
        return Ok(Some(Order::Close));
    }
    let fields = fields_of(alloc, text)?;
    if let Some(admission) = admission_line(alloc, &fields, nodes)? {
        return Ok(Some(admission.order()));
    }
    let line = read_line(alloc, text, nodes)?;
    Ok(order_of(&line))
}

/// What a line of a schedule asks, if it is one of those that an operator gives as they are.
fn order_of(line: &Option<Line>) -> Option<Order>
    ensures { result ≡ order_of_lem line.now }
{
    match line {
        Some(Line::Step(Step::At(node, Event::Requota(job, quota)))) => {
            Some(Order::Change(*node, Change::Requota(*job, *quota)))
        }
        Some(Line::Step(Step::At(node, Event::JobEnd(job)))) => {
            Some(Order::Change(*node, Change::End(*job)))
        }
        _ => None,
    }
}

/// A job that is to be admitted at a node.
#[derive(Clone, Copy, Debug, PartialEq, Eq)]
struct Admission {
    node: u32,
    job: JobNo,
    quota: Quota,
    key: JobKey,
}

impl Admission {
    /// What the operator asks by it.
    fn order(self) -> Order
        ensures { result ≡ admission_order self }
    {
        Order::Change(
            self.node,
            Change::Admit {
                job: self.job,
                quota: self.quota,
                key: self.key,
            },
        )
    }
}

/// `admit NODE JOB WINDOW DEVICE KEY`.
fn admission_line(
    alloc: Global,
    fields: &[&str],
    nodes: u32,
) -> Result<Option<Admission>, OutOfMemory>
    ensures { IfOk result (λ found. Reads found (IsAdmissionLine nodes (map (λ field. field.now) fields.now))) }
{
    let [first, fields @ ..] = fields else {
        return Ok(None)
    };
    admission_after(alloc, first, fields, nodes)
}

/// `NODE JOB WINDOW DEVICE KEY`, if the word before them is `admit`.
fn admission_after(
    alloc: Global,
    word: &str,
    fields: &[&str],
    nodes: u32,
) -> Result<Option<Admission>, OutOfMemory>
    ensures { IfOk result (λ found. Reads found (IsAdmissionAfter nodes word.now (map (λ field. field.now) fields.now))) }
{
    if word == "admit" {
        admission_fields(alloc, fields, nodes)
    } else {
        Ok(None)
    }
}

/// `NODE JOB WINDOW DEVICE KEY`.
fn admission_fields(
    alloc: Global,
    fields: &[&str],
    nodes: u32,
) -> Result<Option<Admission>, OutOfMemory>
    ensures { IfOk result (λ found. Reads found (IsAdmissionFields nodes (map (λ field. field.now) fields.now))) }
{
    let [node, job, window, device, key] = fields else {
        return Ok(None)
    };
    read_admission(alloc, node, job, window, device, key, nodes)
}

/// `NODE JOB WINDOW DEVICE KEY`, each in its field.
fn read_admission(
    alloc: Global,
    at: &str,
    name: &str,
    window: &str,
    device: &str,
    digits: &str,
    nodes: u32,
) -> Result<Option<Admission>, OutOfMemory>
    ensures { IfOk result (λ found. Reads found (IsAdmission nodes at.now name.now window.now device.now digits.now)) }
{
    let Some(node) = fields::node(at, nodes) else {
        return Ok(None)
    };
    let Some(job) = fields::job(name) else {
        return Ok(None)
    };
    let Some(quota) = quota(window, device) else {
        return Ok(None)
    };
    let Some(key) = read_key(alloc, digits)? else {
        return Ok(None)
    };
    Ok(Some(Admission {
        node,
        job,
        quota,
        key,
    }))
}

/// A key of 64 lower-case hexadecimal digits.
fn read_key(alloc: Global, digits: &str) -> Result<Option<JobKey>, OutOfMemory>
    ensures { IfOk result (λ key. Reads key (IsKey digits.now)) }
{
    let Some(bytes) = fields::bytes(alloc, digits)? else {
        return Ok(None)
    };
    let mut key = [0; 32];
    if bytes.len() != key.len() {
        return Ok(None);
    }
    key.copy_from_slice(bytes.as_slice());
    Ok(Some(JobKey(key)))
}
