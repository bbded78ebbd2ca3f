//! The grants that a job gave and was given.
ghost use Rattle.std.specs.Prelude.{◌≡◌, ◌++◌, ◌∷◌, [], OnOk};

use memory_growth::{OutOfMemory, lists};
use obj_id::{JobNo, ObjectId};
use std::marker::Model;

/// A grant that the job gave. A contract sees the private store's.
#[derive(Debug, Drop)]
pub struct GivenGrant {
    pub id: ObjectId,
    pub target: JobNo,
    /// Of another job's object the grantor of the grant that it hangs on.
    pub parent: Option<JobNo>,
}

impl Model for GivenGrant {
    ghost use Rattle.std.specs.Prelude.{option_map};
    ghost use Rattle.private_store.specs.rules.Shape.{GrantGiven};

    ghost Value = { GrantGiven };

    ghost view = { λ h. record { id = h.id; target = h.target.0; parent = option_map (λ grantor. grantor.0) h.parent } };
}

/// A grant that was given to the job. A contract sees the private store's.
#[derive(Debug, Drop)]
pub struct TakenGrant {
    pub grantor: JobNo,
    /// From 1 on: how often the object was handed on up to here.
    pub depth: u32,
}

impl Model for TakenGrant {
    ghost use Rattle.private_store.specs.rules.Shape.{GrantTaken};

    ghost Value = { GrantTaken };

    ghost view = { λ h. record { grantor = h.grantor.0; depth = h.depth } };
}

/// An object of another job that the job may peek at. A contract sees the private store's.
#[derive(Debug, Drop)]
pub struct SeenObject {
    /// In bytes.
    pub length: u32,
    /// The standing grants, oldest first.
    pub grants: Vec<TakenGrant>,
}

impl Model for SeenObject {
    ghost use Rattle.private_store.specs.rules.Shape.{Seen};

    ghost Value = { Seen };

    ghost view = { λ s. record { length = s.length; grants = s.grants.items } };
}

impl SeenObject {
    /// Another grant of the object, the youngest, and the object's length in bytes.
    pub fn add(&mut self, grant: TakenGrant, length: u32) -> Result<(), OutOfMemory>
        ensures { OnOk result (self.new ≡ record { length = length; grants = self.old.grants ++ grant ∷ [] }) }
    {
        lists::push(&mut self.grants, grant)?;
        self.length = length;
        Ok(())
    }
}
