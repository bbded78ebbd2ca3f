//! What a copy is, by its marks and by the works, holds and grants that stand on it.
ghost use Rattle.std.specs.Prelude.{◌≡◌};
ghost use Rattle.std.specs.Option.{option_copied};
ghost use Rattle.obj_id.specs.Ids.{same_id as same_id_lem, same_task as same_task_lem};
ghost use Rattle.private_store.specs.rules.Copies.{extent_of, in_scope, is_created as is_created_lem, is_evictable, is_granted, is_held, is_idle, is_draining, is_sealed as is_sealed_lem, is_spillable, is_working, is_writing, visible};

use crate::copies::PlainCopy;
use crate::store::PlainStore;
use obj_id::{CopyState, Extent, ObjectId, TaskNo};
use private_store::rounded;

/// Whether the ids are the same.
pub(crate) fn same_id(a: &ObjectId, b: &ObjectId) -> bool
    ensures { result ≡ same_id_lem a.now b.now }
{
    a.cmp(b).is_eq()
}

/// Whether the tasks are the same.
pub(crate) fn same_task(a: &TaskNo, b: &TaskNo) -> bool
    ensures { result ≡ same_task_lem a.now b.now }
{
    a.cmp(b).is_eq()
}

/// Whether the copy is still to be sealed.
pub(crate) fn is_created(state: CopyState) -> bool
    ensures { result ≡ is_created_lem state }
{
    matches!(state, CopyState::Created)
}

/// Whether the copy is sealed and in the window.
pub(crate) fn is_sealed(state: CopyState) -> bool
    ensures { result ≡ is_sealed_lem state }
{
    matches!(state, CopyState::Sealed)
}

impl PlainCopy {
    /// Its bytes in the window, in whole units of 16, if it is resident.
    pub(crate) fn extent_of(&self) -> Option<Extent>
        ensures { result ≡ extent_of self.now }
    {
        let offset = self.offset?;
        Some(Extent {
            offset,
            length: rounded(self.length),
        })
    }

    /// Whether a session holds it.
    pub(crate) fn is_held(&self) -> bool
        ensures { result ≡ is_held self.now }
    {
        !self.holds.is_empty()
    }

    /// Whether its owner task or a borrower keeps it.
    pub(crate) fn in_scope(&self) -> bool
        ensures { result ≡ in_scope self.now }
    {
        self.pinned || !self.borrowers.is_empty()
    }
}

impl PlainStore {
    /// Whether a work of the object is in flight.
    pub(crate) fn is_working(&self, id: ObjectId) -> bool
        ensures { result ≡ is_working self.now.shape id }
    {
        self.works.iter().any(|work| same_id(&id, &work.id))
    }

    /// Whether the object is being spilled.
    pub(crate) fn is_writing(&self, id: ObjectId) -> bool
        ensures { result ≡ is_writing self.now.shape id }
    {
        self.works
            .iter()
            .any(|work| same_id(&id, &work.id) && work.writes)
    }

    /// Whether a grant of the object stands that the job gave.
    pub(crate) fn is_granted(&self, id: ObjectId) -> bool
        ensures { result ≡ is_granted self.now.shape id }
    {
        self.given.iter().any(|grant| same_id(&id, &grant.id))
    }

    /// Whether the copy is neither held nor granted nor working.
    pub(crate) fn is_idle(&self, id: ObjectId, copy: &PlainCopy) -> bool
        ensures { result ≡ is_idle self.now.shape id copy.now }
    {
        !copy.is_held() && !self.is_granted(id) && !self.is_working(id)
    }

    /// Whether the copy may be evicted.
    pub(crate) fn is_evictable(&self, id: ObjectId, copy: &PlainCopy) -> bool
        ensures { result ≡ is_evictable self.now.shape id copy.now }
    {
        is_sealed(copy.state)
            && self.is_idle(id, copy)
            && (!copy.kind.is_primary() || copy.backed.is_some())
    }

    /// Whether the end of a work, with nothing else, would let its extent go.
    pub(crate) fn is_draining(&self, id: ObjectId, copy: &PlainCopy) -> bool
        ensures { result ≡ is_draining self.now.shape id copy.now }
    {
        self.is_working(id) && copy.offset.is_some() && !copy.is_held() && !self.is_granted(id)
    }

    /// Whether the copy may be spilled.
    pub(crate) fn is_spillable(&self, id: ObjectId, copy: &PlainCopy) -> bool
        ensures { result ≡ is_spillable self.now.shape id copy.now }
    {
        is_sealed(copy.state)
            && copy.kind.is_primary()
            && copy.backed.is_none()
            && self.is_idle(id, copy)
            && !copy.doomed
    }

    /// The copy, unless it is doomed.
    pub(crate) fn visible(&self, id: ObjectId) -> Option<&PlainCopy>
        ensures { option_copied result ≡ visible self.now.shape id }
    {
        let copy = self.copy(id)?;
        if copy.doomed { None } else { Some(copy) }
    }
}
