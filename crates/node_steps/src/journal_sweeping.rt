//! Lists that a node's journal keeps of jobs that aren't live are folded, so that they stay small. No file is touched.
use crate::stepping::Stepped;
use node_gate::JournaledNode;
use obj_id::{JobNo, Refusal, Reply};

/// Sweeps what a command of the job may have left in the journal: after one that may have made a list for a job that isn't live, the
/// lists of the jobs whose turn it is; after one of a job that isn't live, the job's own. No step, so nothing else changes.
pub fn sweep_after<K: JournaledNode, E>(
    kept: &mut K,
    job: JobNo,
    reached_others: bool,
    stepped: &Result<Stepped<K::Receipt, K::Mail, K::Erase>, E>,
)
    ensures { K.sweeps kept.old kept.new }
{
    let own = if is_of_nobody(stepped) {
        Some(job)
    } else {
        None
    };
    kept.sweep(reached_others, own);
}

/// Whether the step's job isn't live.
fn is_of_nobody<T, M, G, E>(stepped: &Result<Stepped<T, M, G>, E>) -> bool {
    match stepped {
        Ok(stepped) => matches!(&stepped.reply, Reply::Refused(Refusal::NotAdmitted)),
        Err(_) => false,
    }
}
