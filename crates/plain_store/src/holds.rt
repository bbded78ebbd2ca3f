//! The holds of sessions on a copy.
ghost use Rattle.std.specs.Prelude.{◌≡◌, ◌+◌, ◌<◌, ◌≤◌, ◌^◌, ◌-◌, min, nat_le, fold, OnOk};
ghost use Rattle.std.specs.Option.{unwrap_or};
ghost use Rattle.std.specs.Ordering.{nat_cmp};
ghost use Rattle.std.specs.FinMap.{find, put};
ghost use Rattle.private_store.specs.rules.Limits.{most_holds};
ghost use Rattle.private_store.specs.rules.Marks.{with_holds};
ghost use Rattle.private_store.specs.rules.Commands.{holds_of as holds_of_lem, all_holds};
ghost use Rattle.plain_store.specs.Sessions.{IsHoldPlace};

use crate::copies::PlainCopy;
use memory_growth::{OutOfMemory, lists};
use obj_id::limits::MOST_HOLDS;

impl PlainCopy {
    /// The holds of the session. Takes a walk over the sessions.
    pub(crate) fn holds_of(&self, session: u32) -> u32
        ensures { result ≡ holds_of_lem self.now session }
    {
        holds_in(&self.holds, session)
    }

    /// Whether it has as many holds as a copy may have.
    pub(crate) fn has_most_holds(&self) -> bool
        ensures { result ≡ nat_le most_holds (all_holds self.now) }
    {
        all_in(&self.holds) >= MOST_HOLDS
    }

    /// The session has this many holds, at least one. The error is out of memory.
    pub(crate) fn set_holds(&mut self, session: u32, count: u32) -> Result<(), OutOfMemory>
        requires { 1 ≤ count }
        ensures { OnOk result (self.new ≡ with_holds self.old session count) }
    {
        put_holds(&mut self.holds, session, count)
    }

    /// The session has no holds. Takes no memory.
    pub(crate) fn remove_holds(&mut self, session: u32)
        ensures { self.new ≡ with_holds self.old session 0 }
    {
        self.holds.retain(|(holder, _)| *holder != session);
    }

    /// One more hold of the session. The error is out of memory.
    pub(crate) fn hold(&mut self, session: u32) -> Result<(), OutOfMemory>
        requires { holds_of_lem self.old session + 1 < 2 ^ 32 }
        ensures { OnOk result (self.new ≡ with_holds self.old session (holds_of_lem self.old session + 1)) }
    {
        let count = self.holds_of(session) + 1;
        self.set_holds(session, count)
    }
}

/// The holds of the session among these.
fn holds_in(holds: &[(u32, u32)], session: u32) -> u32
    ensures { result ≡ unwrap_or (find nat_cmp session holds.now) 0 }
{
    for (other, count) in holds {
        if session.cmp(other).is_eq() {
            return *count;
        }
    }
    0
}

/// The holds of all sessions, or `u32::MAX` if they are more.
fn all_in(holds: &[(u32, u32)]) -> u32
    ensures { result ≡ min (fold (λ n e. n + e.1) 0 holds.now) (2 ^ 32 - 1) }
{
    let mut all: u32 = 0;
    for (_, count) in holds {
        all = all.saturating_add(*count);
    }
    all
}

/// Where the session's entry is, or would be.
fn place_of(holds: &[(u32, u32)], session: u32) -> usize
    ensures { IsHoldPlace holds.now session result }
{
    let mut place = 0;
    while place < holds.len() && holds[place].0 < session {
        place += 1;
    }
    place
}

/// The session has `count` holds. The error is out of memory.
fn put_holds(holds: &mut Vec<(u32, u32)>, session: u32, count: u32) -> Result<(), OutOfMemory>
    ensures { OnOk result (holds.new.items ≡ put nat_cmp session count holds.old.items) }
{
    let place = place_of(holds, session);
    if place < holds.len() && holds[place].0 == session {
        holds[place] = (session, count);
        return Ok(());
    }
    lists::insert(holds, place, (session, count))?;
    Ok(())
}
