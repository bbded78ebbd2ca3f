//! How a copy ends.
ghost use Rattle.std.specs.Prelude.{◌≡◌, OnOk, false};
ghost use Rattle.plain_store.specs.Changing.{store_changed, scoped_by};
ghost use Rattle.plain_store.specs.Marks.{mark_of};
ghost use Rattle.private_store.specs.rules.Marks.{marked};
ghost use Rattle.private_store.specs.rules.Marks as mark;
ghost use Rattle.private_store.specs.rules.Change.{doomed, settled};

use crate::marks::Mark;
use crate::store::PlainStore;
use memory_growth::OutOfMemory;
use obj_id::ObjectId;

impl PlainStore {
    /// The copy is removed if it is doomed and idle. Takes no memory.
    pub(crate) fn settled(&mut self, id: ObjectId)
        ensures { self.new ≡ record self.old { shape = settled self.old.shape id } }
    {
        let Some(copy) = self.copy(id) else {
            return;
        };
        if copy.doomed && self.is_idle(id, copy) {
            self.remove(id);
        }
    }

    /// The copy is doomed, and removed if nothing keeps it. Takes no memory.
    pub(crate) fn doomed(&mut self, id: ObjectId)
        ensures { self.new ≡ record self.old { shape = doomed self.old.shape id } }
    {
        let Some(copy) = self.copy_mut(id) else {
            return;
        };
        copy.apply(Mark::Doomed);
        self.settled(id);
    }

    /// The session has this many holds on the copy, if there is one. The error is out of memory.
    pub(crate) fn set_holds(
        &mut self,
        id: ObjectId,
        session: u32,
        count: u32,
    ) -> Result<(), OutOfMemory>
        ensures { OnOk result (self.new ≡ record self.old { shape = store_changed (marked (mark.held session count)) self.old.shape id }) }
    {
        let Some(copy) = self.copy_mut(id) else {
            return Ok(());
        };
        if count == 0 {
            copy.apply(Mark::Left(session));
            return Ok(());
        }
        copy.set_holds(session, count)?;
        Ok(())
    }

    /// This happens to the copy, if there is one, which is doomed if nothing refers to it then. Takes no memory.
    pub(crate) fn apply_scoped(&mut self, id: ObjectId, mark: Mark)
        ensures { self.new ≡ record self.old { shape = scoped_by (marked (mark_of mark)) self.old.shape id } }
    {
        let Some(copy) = self.copy_mut(id) else {
            return;
        };
        copy.apply(mark);
        if !copy.in_scope() {
            self.doomed(id);
        }
    }
}
