//! The Leave of a session that found no memory to be left when it ended.
ghost use Rattle.std.specs.Prelude.{◌≡◌, IfOk, IfErr, OnErr};
ghost use Rattle.obj_id.specs.declared.commands.Command.TheVariants as command;
ghost use Rattle.private_store.specs.declared.schedules.Event.TheVariants as event;

use crate::{Actor, JournaledNode, Made};
use obj_id::Command;
use private_store::Event;
use std::sync::Wait;

/// The Leave of a session that was let in.
pub fn leave_of<K: JournaledNode>(entered: &K::Entered) -> Event
    ensures { result ≡ event.Call (K.pass entered.now).job (K.pass entered.now).session command.Leave }
{
    Event::Call {
        job: K::job_entered(entered),
        session: K::session(entered),
        command: Command::Leave,
    }
}

/// Leaves a session, which is used up: the one step of an event for which no actor is lent. A node lets a session in for the job's key alone, and what
/// it gives for that can't be made or copied. So nobody else's session is left by it, and each once at most. Without memory nothing is stepped,
/// and the session is given back.
pub fn leave_entered<K: JournaledNode, R: Wait>(
    rt: &R,
    node: &mut K,
    entered: K::Entered,
) -> Result<Made<K::Receipt, K::Mail, K::Erase>, K::Entered>
    ensures once { IfOk result (λ m. K.steps (event.Call (K.pass entered).job (K.pass entered).session command.Leave) m.reply (K.posts m.mail) m.receipt node.old node.new) }
    ensures called { IfOk result (λ m. K.called_by (event.Call (K.pass entered).job (K.pass entered).session command.Leave) m.reply m.receipt) }
    ensures node { IfOk result (λ m. K.made_at m.receipt ≡ K.node_number node.old) }
    ensures back { IfErr result (λ e. e ≡ entered) }
    ensures same { OnErr result (K.untouched node.old node.new) }
    ensures number { K.node_number node.new ≡ K.node_number node.old }
{
    let event = leave_of::<K>(&entered);
    match node.step(rt, &mut Actor::new(), &event, &None) {
        Ok(made) => Ok(made),
        Err(_) => Err(entered),
    }
}
