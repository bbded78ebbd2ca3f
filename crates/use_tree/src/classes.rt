//! The classes of victims: what a plan for room may take.
ghost use Rattle.std.specs.Prelude.{◌≡◌, false, ◌||◌};
ghost use Rattle.use_tree.specs.Classes.{has as has_lem};
ghost use Rattle.use_tree.specs.declared.classes.VictimClass.{VictimClass};

/// A class of victims: the copies that ..
#[derive(Clone, Copy, Debug, PartialEq, Eq)]
pub enum VictimClass {
    /// .. may be evicted.
    Evictable,
    /// .. may be evicted once their works have ended.
    Draining,
    /// .. may be spilled.
    Spillable,
}

/// The classes that a copy is in, or any of several copies.
#[derive(Clone, Copy, Debug, PartialEq, Eq)]
pub struct VictimClasses {
    /// It may be evicted.
    pub evictable: bool,
    /// It may be evicted once its work has ended.
    pub draining: bool,
    /// It may be spilled.
    pub spillable: bool,
}

impl VictimClasses {
    /// None.
    pub fn none() -> VictimClasses
        ensures is { result ≡ record { evictable = false; draining = false; spillable = false } }
        ensures none { (class : VictimClass) → has_lem class result ≡ false }
    {
        VictimClasses {
            evictable: false,
            draining: false,
            spillable: false,
        }
    }

    /// Whether this class is among them.
    pub fn has(self, class: VictimClass) -> bool
        ensures { result ≡ has_lem class self }
    {
        match class {
            VictimClass::Evictable => self.evictable,
            VictimClass::Draining => self.draining,
            VictimClass::Spillable => self.spillable,
        }
    }

    /// Those of both.
    pub(crate) fn or(self, other: VictimClasses) -> VictimClasses
        ensures { (class : VictimClass) → has_lem class result ≡ has_lem class self || has_lem class other }
    {
        VictimClasses {
            evictable: self.evictable || other.evictable,
            draining: self.draining || other.draining,
            spillable: self.spillable || other.spillable,
        }
    }
}
