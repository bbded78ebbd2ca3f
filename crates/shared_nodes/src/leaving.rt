//! How a session is left at its end: now, or, if there is no memory for it, by a later step of its node.
ghost use Rattle.std.specs.Prelude.{◌≡◌, IfSome};
ghost use Rattle.obj_id.specs.declared.commands.Command.TheVariants as command;
ghost use Rattle.private_store.specs.declared.schedules.Event.TheVariants as event;
ghost use Rattle.node_gate.specs.Actors.{ActsIf};
ghost use Rattle.node_gate.specs.Calls.{IsLast};

use crate::SharedNode;
use node_gate::{Actor, JournaledNode};
use node_housekeeping::{MOST_SESSIONS, Marked, Pause, Sender};
use node_steps::step_leave;
use obj_id::{Command, JobNo};
use std::sync::Wait;

impl<K: JournaledNode, P: Pause> SharedNode<K, P> {
    /// Leaves a session whose last receipt is shown, if it has one, with the receipt of the entry. There is none if there is no memory
    /// for that: then it is to be marked.
    pub fn leave<R: Wait>(
        &self,
        rt: &R,
        actor: &mut Actor,
        last: &Option<K::Receipt>,
        job: JobNo,
        session: u32,
    ) -> Option<K::Receipt>
        ensures acts { ActsIf result (event.Call job session command.Leave) actor.old actor.new }
        ensures last { IfSome result (λ r. IsLast K.called_by K.rises last.now job session r) }
        ensures node { IfSome result (λ r. K.made_at r ≡ self.now.number) }
    {
        let (_, receipt) = self.call_next(rt, actor, last, job, session, Command::Leave);
        receipt
    }

    /// A session begins, unless there are as many as may be or there is no memory for its mark: whether it does.
    pub fn begin_session<R: Wait>(&self, rt: &R) -> bool {
        self.housekeeping.begin_session(rt)
    }

    /// Marks a session that the node let in: it is left by a later step.
    pub fn leave_later<R: Wait>(&self, rt: &R, entered: K::Entered) -> Marked<K::Entered>
        ensures { result.of.value ≡ entered }
    {
        self.housekeeping.marked.mark(rt, entered)
    }

    /// Leaves the sessions that are marked, in order, until one finds no memory.
    pub(crate) fn leave_marked<R: Wait>(&self, rt: &R) {
        for _ in 0..MOST_SESSIONS {
            if !self.housekeeping.marked.are_marked() {
                return;
            }
            let Some(mail) = self.leave_first(rt) else {
                return;
            };
            self.post(rt, Sender::Other, mail);
        }
    }

    /// Leaves the session that was marked first: what that sends. None if no session is marked, or there is no memory for it: then it is
    /// marked again.
    fn leave_first<R: Wait>(&self, rt: &R) -> Option<K::Mail> {
        let mut kept = self.lock(rt);
        let marked = &self.housekeeping.marked;
        let entered = marked.take_marked(rt)?;
        match step_leave(rt, &mut *kept, &self.housekeeping, entered) {
            Ok(mail) => Some(mail),
            Err(entered) => {
                marked.mark(rt, entered);
                None
            }
        }
    }
}
