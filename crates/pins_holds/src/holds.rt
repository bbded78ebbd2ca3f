//! The holds on one copy.
ghost use Rattle.std.specs.Prelude.{◌≡◌, ◌+◌, ◌-◌, ◌<◌, ◌≤◌, [], not, IfOk, OnOk, OnErr, IsOk, IsTrue};
ghost use Rattle.std.specs.Ordering.{nat_cmp};
ghost use Rattle.std.specs.FinMap.{put, is_sorted};
ghost use Rattle.private_store.specs.rules.Marks.{without_session};
ghost use Rattle.private_store.specs.laws.Invariants.{are_held};
ghost use Rattle.pins_holds.specs.Sessions.{AreHolds, count_of, with_count, sessions_total};

use memory_growth::{OutOfMemory, lists, ordered};
use obj_id::ItemList;
use std::alloc::Global;
use std::collections::BTreeMap;
use std::marker::Model;

/// How many holds each session has on a copy, and how many there are. A contract sees them as the list
/// of sessions, each with its count, by rising session.
#[derive(Drop)]
pub struct Holds {
    by_session: BTreeMap<u32, u32>,
    // kept, so that the limit costs no walk
    all: u32,
}

impl Model for Holds {
    ghost use Rattle.std.specs.Prelude.{◌≡◌, ℕ, List};
    ghost use Rattle.pins_holds.specs.Sessions.{AreHolds, sessions_total};

    ghost Value = { List (ℕ × ℕ) };

    ghost view = { λ h. h.by_session.entries };

    ghost invariant = { λ h. AreHolds h.by_session.entries × (h.all ≡ sessions_total h.by_session.entries) };
}

impl Holds {
    /// No holds.
    pub fn new(alloc: Global) -> Holds
        ensures { result ≡ [] }
    {
        Holds {
            by_session: BTreeMap::new(alloc),
            all: 0,
        }
    }

    /// How many the session has.
    pub fn of(&self, session: u32) -> u32
        ensures of { result ≡ count_of self.now session }
        ensures few { result ≤ sessions_total self.now }
    {
        let _all = self.all;
        count_in(&self.by_session, session)
    }

    /// How many all sessions have.
    pub fn all(&self) -> u32
        ensures all { result ≡ sessions_total self.now }
        ensures kept { AreHolds self.now }
    {
        self.all
    }

    /// How many each session has, by rising session. Takes a walk over them, and memory for each.
    pub fn by_session(&self, alloc: Global) -> Result<ItemList<(u32, u32)>, OutOfMemory>
        ensures { IfOk result (λ held. held ≡ self.now) }
    {
        let mut held = Vec::new(alloc);
        for (session, count) in &self.by_session {
            lists::push(&mut held, (*session, *count))?;
        }
        Ok(ItemList::from_vec(held))
    }

    /// Whether there are none.
    pub fn is_empty(&self) -> bool
        ensures { result ≡ not (are_held self.now) }
    {
        self.by_session.is_empty()
    }

    /// One more of the session. A failure changes nothing, and there is none if the session has one already.
    pub fn add(&mut self, session: u32) -> Result<(), OutOfMemory>
        requires { sessions_total self.old < 64 }
        ensures ok { OnOk result (self.new ≡ with_count self.old session (count_of self.old session + 1)) }
        ensures succeeds { 0 < count_of self.old session → IsOk result }
        ensures err { OnErr result (self.new ≡ self.old) }
    {
        let held = self.of(session);
        insert_into(&mut self.by_session, session, held + 1)?;
        self.all += 1;
        Ok(())
    }

    /// One less of the session. Takes no memory.
    pub fn take(&mut self, session: u32)
        requires { 0 < count_of self.old session }
        ensures { self.new ≡ with_count self.old session (count_of self.old session - 1) }
    {
        let held = self.of(session);
        if held == 1 {
            self.clear(session);
            return;
        }
        set_in(&mut self.by_session, session, held - 1);
        self.all -= 1;
    }

    /// None of the session. Takes no memory.
    pub fn clear(&mut self, session: u32)
        ensures { self.new ≡ without_session self.old session }
    {
        let held = self.of(session);
        remove_from(&mut self.by_session, session);
        self.all -= held;
    }
}

fn count_in(by_session: &BTreeMap<u32, u32>, session: u32) -> u32
    ensures { result ≡ count_of by_session.now.entries session }
{
    by_session.get(&session).copied().unwrap_or(0)
}

/// Gives a session its count: in place, if it has one.
fn insert_into(
    by_session: &mut BTreeMap<u32, u32>,
    session: u32,
    count: u32,
) -> Result<(), OutOfMemory>
    requires { IsTrue (is_sorted nat_cmp by_session.old.entries) }
    ensures ok { OnOk result (by_session.new.entries ≡ put nat_cmp session count by_session.old.entries) }
    ensures succeeds { 0 < count_of by_session.old.entries session → IsOk result }
    ensures err { OnErr result (by_session.new.entries ≡ by_session.old.entries) }
{
    if count_in(by_session, session) > 0 {
        set_in(by_session, session, count);
        return Ok(());
    }
    ordered::insert(by_session, session, count)?;
    Ok(())
}

/// Gives a session that is there another count, in place.
fn set_in(by_session: &mut BTreeMap<u32, u32>, session: u32, count: u32)
    requires rising { IsTrue (is_sorted nat_cmp by_session.old.entries) }
    requires there { 0 < count_of by_session.old.entries session }
    ensures { by_session.new.entries ≡ put nat_cmp session count by_session.old.entries }
{
    if let Some(held) = by_session.get_mut(&session) {
        *held = count;
    }
}

/// The session is removed.
fn remove_from(by_session: &mut BTreeMap<u32, u32>, session: u32)
    requires { IsTrue (is_sorted nat_cmp by_session.old.entries) }
    ensures { by_session.new.entries ≡ without_session by_session.old.entries session }
{
    by_session.remove(&session);
}
