//! The steps of a node that is locked, with what follows at once.
ghost use Rattle.std.specs.Prelude.{◌≡◌, ◌⊎◌, ◌<◌, ◌++◌, ◌∷◌, [], true, false, Some, IfOk, IfErr, OnErr, IfSome, IfNone, IsErrOf, ◌↔◌, length};
ghost use Rattle.obj_id.specs.declared.commands.Command.TheVariants as command;
ghost use Rattle.obj_id.specs.declared.refusals.Refusal.TheVariants.{NoMemory, Stale};
ghost use Rattle.private_store.specs.declared.schedules.Event.TheVariants as event;
ghost use Rattle.private_store.specs.laws.Answers.{is_small_reply};
ghost use Rattle.node_gate.specs.Calls.{IsNext, IsSmallCall};
ghost use Rattle.node_steps.specs.Stepping.{FoldsAfter, HasArrived, IsOneLeave};

use crate::auditing::audit_one;
use bytes::Bytes;
use memory_growth::OutOfMemory;
use node_gate::{Actor, JournaledNode, Made, leave_entered, leave_of};
use node_housekeeping::{Housekeeping, LeftToErase, Pause, wake_scope_of};
use obj_id::{Command, JobNo, Refusal, Reply};
use private_store::Event;
use std::sync::Wait;

/// The answer of a step that was made, with its receipt, and what it sends. What it gave out to be erased is left to be.
#[derive(Drop)]
pub struct Stepped<T, M, E> {
    pub reply: Reply<Bytes>,
    pub receipt: T,
    pub mail: M,
    pub left: LeftToErase<E>,
}

/// A session's command, after the step of an earlier receipt, if one is shown. The error is out of memory.
pub fn step_call<K: JournaledNode, R: Wait, P: Pause>(
    rt: &R,
    kept: &mut K,
    housekeeping: &Housekeeping<P, K::Erase, K::Entered>,
    actor: &mut Actor,
    earlier: &Option<K::Receipt>,
    job: JobNo,
    session: u32,
    command: Command<Bytes>,
) -> Result<Stepped<K::Receipt, K::Mail, K::Erase>, OutOfMemory>
    ensures acts { IfOk result (λ s. actor.new ≡ actor.old ++ event.Call job session command ∷ []) }
    ensures still { OnErr result (actor.new ≡ actor.old) }
    ensures called { IfOk result (λ s. IsNext K.called_by K.rises earlier.now (event.Call job session command) s.reply s.receipt) }
    ensures small { IfOk result (λ s. is_small_reply s.reply ≡ true) }
    ensures once { IfOk result (λ s. K.steps (event.Call job session command) s.reply (K.posts s.mail) s.receipt kept.old kept.new) }
    ensures node { IfOk result (λ s. K.made_at s.receipt ≡ K.node_number kept.old) }
    ensures same { OnErr result (K.untouched kept.old kept.new) }
    ensures number { K.node_number kept.new ≡ K.node_number kept.old }
{
    let event = Event::Call {
        job,
        session,
        command,
    };
    step_event(rt, kept, housekeeping, actor, earlier, &event)
}

/// The same, if the journal doesn't say No of the receipt: otherwise the error is `Stale`.
pub fn step_call_after<K: JournaledNode, R: Wait, P: Pause>(
    rt: &R,
    kept: &mut K,
    housekeeping: &Housekeeping<P, K::Erase, K::Entered>,
    actor: &mut Actor,
    receipt: &K::Receipt,
    job: JobNo,
    session: u32,
    command: Command<Bytes>,
) -> Result<Stepped<K::Receipt, K::Mail, K::Erase>, Refusal>
    ensures acts { IfOk result (λ s. actor.new ≡ actor.old ++ event.Call job session command ∷ []) }
    ensures still { OnErr result (actor.new ≡ actor.old) }
    ensures called { IfOk result (λ s. IsNext K.called_by K.rises (Some receipt.now) (event.Call job session command) s.reply s.receipt) }
    ensures later { IfOk result (λ s. (K.made_at s.receipt ≡ K.made_at receipt.now) × (K.entry_number receipt.now < K.entry_number s.receipt)) }
    ensures small { IfOk result (λ s. is_small_reply s.reply ≡ true) }
    ensures once { IfOk result (λ s. K.steps (event.Call job session command) s.reply (K.posts s.mail) s.receipt kept.old kept.new) }
    ensures node { IfOk result (λ s. K.made_at s.receipt ≡ K.node_number kept.old) }
    ensures same { OnErr result (K.untouched kept.old kept.new) }
    ensures number { K.node_number kept.new ≡ K.node_number kept.old }
    ensures refusal { IfErr result (λ r. (r ≡ NoMemory) ⊎ (r ≡ Stale)) }
{
    let event = Event::Call {
        job,
        session,
        command,
    };
    housekeeping.pause.before_step(kept.number(), &event);
    let made = kept.step_after(rt, actor, receipt, &event)?;
    Ok(finish_step(rt, kept, housekeeping, made))
}

/// An event of a session, the operator or a worker, after the step of an earlier receipt, if one is shown. The error is out of memory.
pub fn step_event<K: JournaledNode, R: Wait, P: Pause>(
    rt: &R,
    kept: &mut K,
    housekeeping: &Housekeeping<P, K::Erase, K::Entered>,
    actor: &mut Actor,
    earlier: &Option<K::Receipt>,
    event: &Event,
) -> Result<Stepped<K::Receipt, K::Mail, K::Erase>, OutOfMemory>
    ensures acts { IfOk result (λ s. actor.new ≡ actor.old ++ event.now ∷ []) }
    ensures still { OnErr result (actor.new ≡ actor.old) }
    ensures stepped { IfOk result (λ s. K.receipt_of event.now s.reply s.receipt) }
    ensures called { IfOk result (λ s. IsNext K.called_by K.rises earlier.now event.now s.reply s.receipt) }
    ensures small { IfOk result (λ s. IsSmallCall event.now s.reply) }
    ensures once { IfOk result (λ s. K.steps event.now s.reply (K.posts s.mail) s.receipt kept.old kept.new) }
    ensures node { IfOk result (λ s. K.made_at s.receipt ≡ K.node_number kept.old) }
    ensures same { OnErr result (K.untouched kept.old kept.new) }
    ensures number { K.node_number kept.new ≡ K.node_number kept.old }
{
    housekeeping.pause.before_step(kept.number(), event);
    let made = kept.step(rt, actor, event, earlier)?;
    Ok(finish_step(rt, kept, housekeeping, made))
}

/// An event of the operator's, whose entry is looked for. The error is out of memory.
pub fn step_order<K: JournaledNode, R: Wait, P: Pause>(
    rt: &R,
    kept: &mut K,
    housekeeping: &Housekeeping<P, K::Erase, K::Entered>,
    actor: &mut Actor,
    event: &Event,
) -> Result<Stepped<K::Receipt, K::Mail, K::Erase>, OutOfMemory>
    ensures acts { IfOk result (λ s. actor.new ≡ actor.old ++ event.now ∷ []) }
    ensures still { OnErr result (actor.new ≡ actor.old) }
    ensures stepped { IfOk result (λ s. K.receipt_of event.now s.reply s.receipt) }
    ensures once { IfOk result (λ s. K.steps event.now s.reply (K.posts s.mail) s.receipt kept.old kept.new) }
    ensures node { IfOk result (λ s. K.made_at s.receipt ≡ K.node_number kept.old) }
    ensures same { OnErr result (K.untouched kept.old kept.new) }
    ensures number { K.node_number kept.new ≡ K.node_number kept.old }
{
    let stepped = step_event(rt, kept, housekeeping, actor, &None, event)?;
    audit_one(rt, kept, &housekeeping.tallies, &stepped.receipt);
    Ok(stepped)
}

/// The end of a job. If it isn't refused, the job's journal is folded at once. The error is out of memory.
pub fn step_end<K: JournaledNode, R: Wait, P: Pause>(
    rt: &R,
    kept: &mut K,
    housekeeping: &Housekeeping<P, K::Erase, K::Entered>,
    actor: &mut Actor,
    job: JobNo,
) -> Result<Stepped<K::Receipt, K::Mail, K::Erase>, OutOfMemory>
    ensures acts { IfOk result (λ s. actor.new ≡ actor.old ++ event.JobEnd job ∷ []) }
    ensures still { OnErr result (actor.new ≡ actor.old) }
    ensures stepped { IfOk result (λ s. K.receipt_of (event.JobEnd job) s.reply s.receipt) }
    ensures once { IfOk result (λ s. FoldsAfter K.folds job (K.steps (event.JobEnd job) s.reply (K.posts s.mail) s.receipt) kept.old kept.new) }
    ensures node { IfOk result (λ s. K.made_at s.receipt ≡ K.node_number kept.old) }
    ensures same { OnErr result (K.untouched kept.old kept.new) }
    ensures number { K.node_number kept.new ≡ K.node_number kept.old }
{
    // its entry is looked for before the fold, after which the journal says no more of it
    let stepped = step_order(rt, kept, housekeeping, actor, &Event::JobEnd(job))?;
    fold_ended(kept, job, &stepped);
    Ok(stepped)
}

/// Folds the journal of a job, after the step of its end, unless that was refused. If there is no memory for the fold nothing changes,
/// and a later one makes up for it.
fn fold_ended<K: JournaledNode>(
    kept: &mut K,
    job: JobNo,
    ended: &Stepped<K::Receipt, K::Mail, K::Erase>,
)
    requires { K.receipt_of (event.JobEnd job) ended.now.reply ended.now.receipt }
    ensures folds { (kept.new ≡ kept.old) ⊎ K.folds job kept.old kept.new }
    ensures number { K.node_number kept.new ≡ K.node_number kept.old }
{
    if let Reply::Ok = &ended.reply {
        kept.fold(job, &ended.receipt);
    }
}

/// A Take, if a work waits that nobody has taken. The error is out of memory.
pub fn step_take<K: JournaledNode, R: Wait, P: Pause>(
    rt: &R,
    kept: &mut K,
    housekeeping: &Housekeeping<P, K::Erase, K::Entered>,
    actor: &mut Actor,
) -> Option<Result<Stepped<K::Receipt, K::Mail, K::Erase>, OutOfMemory>>
    ensures acts { IfSome result (λ r. IfOk r (λ s. actor.new ≡ actor.old ++ event.Take ∷ [])) }
    ensures still { IfSome result (λ r. OnErr r (actor.new ≡ actor.old)) }
    ensures rests { IfNone result (actor.new ≡ actor.old) }
    ensures stepped { IfSome result (λ r. IfOk r (λ s. K.receipt_of event.Take s.reply s.receipt)) }
    ensures once { IfSome result (λ r. IfOk r (λ s. K.steps event.Take s.reply (K.posts s.mail) s.receipt kept.old kept.new)) }
    ensures same { IfSome result (λ r. OnErr r (K.untouched kept.old kept.new)) }
    ensures none { IfNone result ((kept.new ≡ kept.old) × K.idle kept.old) }
    ensures number { K.node_number kept.new ≡ K.node_number kept.old }
{
    if kept.has_work() {
        Some(step_event(rt, kept, housekeeping, actor, &None, &Event::Take))
    } else {
        None
    }
}

/// Leaves a session that was let in and marked, and looks for the entry of that: what it sends. Without memory for it the session is given back.
/// The step is the session's own, and in nobody's account.
pub fn step_leave<K: JournaledNode, R: Wait, P: Pause>(
    rt: &R,
    kept: &mut K,
    housekeeping: &Housekeeping<P, K::Erase, K::Entered>,
    entered: K::Entered,
) -> Result<K::Mail, K::Entered>
    ensures once { IfOk result (λ mail. IsOneLeave K.steps (K.pass entered).job (K.pass entered).session (K.posts mail) kept.old kept.new) }
    ensures back { IfErr result (λ e. e ≡ entered) }
    ensures same { OnErr result (K.untouched kept.old kept.new) }
    ensures number { K.node_number kept.new ≡ K.node_number kept.old }
{
    housekeeping
        .pause
        .before_step(kept.number(), &leave_of::<K>(&entered));
    let made = leave_entered(rt, kept, entered)?;
    let Stepped { receipt, mail, .. } = finish_step(rt, kept, housekeeping, made);
    audit_one(rt, kept, &housekeeping.tallies, &receipt);
    Ok(mail)
}

/// A message that was posted to the node arrives. `Stale` if it was posted to another place or isn't made for a node, and
/// `NoMemory`: then it is lost.
pub fn step_arrival<K: JournaledNode, R: Wait, P: Pause>(
    rt: &R,
    kept: &mut K,
    housekeeping: &Housekeeping<P, K::Erase, K::Entered>,
    posted: K::Posted,
) -> Result<Stepped<K::Receipt, K::Mail, K::Erase>, Refusal>
    ensures once { IfOk result (λ s. K.arrives posted s.reply (K.posts s.mail) s.receipt kept.old kept.new) }
    ensures node { IfOk result (λ s. K.made_at s.receipt ≡ K.node_number kept.old) }
    ensures arrived { IfOk result (λ s. K.arrived posted s.receipt) }
    ensures of_job { IfOk result (λ s. K.job_of s.receipt ≡ K.Posted.of_job posted) }
    ensures stale { IsErrOf result Stale ↔ K.astray kept.old posted }
    ensures same { OnErr result (K.untouched kept.old kept.new) }
    ensures refused { IfErr result (λ r. (r ≡ NoMemory) ⊎ (r ≡ Stale)) }
    ensures number { K.node_number kept.new ≡ K.node_number kept.old }
{
    let made = kept.arrive(rt, posted)?;
    Ok(finish_step(rt, kept, housekeeping, made))
}

/// What the directory answered arrives, and its entry is looked for: whether it isn't lost.
pub fn step_located<K: JournaledNode, R: Wait, P: Pause>(
    rt: &R,
    kept: &mut K,
    housekeeping: &Housekeeping<P, K::Erase, K::Entered>,
    located: K::Posted,
) -> bool
    ensures once { result ≡ true → HasArrived K.arrives located kept.old kept.new }
    ensures same { result ≡ false → K.untouched kept.old kept.new }
    ensures number { K.node_number kept.new ≡ K.node_number kept.old }
{
    match step_arrival(rt, kept, housekeeping, located) {
        Err(_) => false,
        Ok(stepped) => {
            audit_one(rt, kept, &housekeeping.tallies, &stepped.receipt);
            true
        }
    }
}

/// Settles a step that was made, and gives the rest of it.
fn finish_step<K: JournaledNode, R: Wait, P: Pause>(
    rt: &R,
    kept: &K,
    housekeeping: &Housekeeping<P, K::Erase, K::Entered>,
    made: Made<K::Receipt, K::Mail, K::Erase>,
) -> Stepped<K::Receipt, K::Mail, K::Erase>
    ensures reply { result.reply ≡ made.reply }
    ensures mail { result.mail ≡ made.mail }
    ensures receipt { result.receipt ≡ made.receipt }
    ensures left { result.left.of.value ≡ made.erase }
    ensures keys { result.left.keys.value ≡ length (K.keys made.erase) }
{
    let Made {
        reply,
        erase,
        mail,
        receipt,
    } = made;
    let wake_scope = wake_scope_of(K::input(&receipt), &reply);
    let keys = K::keys(&erase).len() as u64;
    let left = housekeeping.after_step(
        rt,
        erase,
        keys,
        kept.has_work(),
        K::job(&receipt),
        wake_scope,
    );
    Stepped {
        reply,
        receipt,
        mail,
        left,
    }
}
