//! Resident extents in a tree by offset, each node of which knows the spans of its own extent and all below.
ghost use Rattle.std.specs.Prelude.{◌≡◌, ◌^◌, ◌<◌, [], ◌&&◌, not, true, false, nat_lt, is_some};
ghost use Rattle.augmented_tree.specs.Lists.{AllOf};
ghost use Rattle.extent_tree.specs.Residents.{resident_offset, resident_in_classes, ResidentFits, AreSpansOf, AreResidentsRising, put_resident, take_resident, has_resident, resident_with_classes, classes_at, extents_staying, span_of};

use crate::spans::{Span, Spans};
use augmented_tree::{Keyed, Marked, Tree, end, summary, widen_to};
use memory_growth::OutOfMemory;
use obj_id::Extent;
use std::alloc::Global;
use std::marker::Model;
use use_tree::{VictimClass, VictimClasses};

/// The extent of a resident copy, and the classes of victims that the copy is in.
#[derive(Clone, Copy, Debug)]
pub struct Resident {
    /// Its bytes in the window.
    pub extent: Extent,
    /// The classes of victims that its copy is in.
    pub classes: VictimClasses,
}

impl Keyed<Spans> for Resident {
    ghost key = { resident_offset };

    ghost fits = { ResidentFits };

    ghost tells = { AreSpansOf };

    fn key(self) -> u64 {
        self.extent.offset
    }

    fn none() -> Spans {
        Spans::none()
    }

    fn alone(self) -> Spans {
        Spans::of(self)
    }

    fn joined(first: Spans, second: Spans) -> Spans {
        first.joined(second)
    }
}

impl Marked<Spans, VictimClasses> for Resident {
    ghost use Rattle.std.proofs.Common.{refl};

    ghost marked = { resident_in_classes };

    fn marked(self, mark: VictimClasses) -> Resident {
        Resident {
            classes: mark,
            ..self
        }
    }

    ghost keeps_key = { λ mark item. refl };

    ghost still_fits = { λ mark item h. h };
}

/// Room for one extent, so that putting it in its place takes no memory.
pub struct SpareNode {
    node: augmented_tree::SpareNode<Resident, Spans>,
}

// By hand, so that it is proved here and not in each crate above.
impl Drop for SpareNode {
    fn drop(self) {
        let SpareNode { node: _node } = self;
    }
}

impl SpareNode {
    /// Takes the memory of one extent.
    pub fn new(alloc: Global) -> Result<SpareNode, OutOfMemory> {
        let resident = Resident {
            extent: Extent {
                offset: 0,
                length: 0,
            },
            classes: VictimClasses::none(),
        };
        Ok(SpareNode {
            node: augmented_tree::SpareNode::new(alloc, resident)?,
        })
    }

    /// The memory.
    fn into_node(self) -> augmented_tree::SpareNode<Resident, Spans> {
        let SpareNode { node } = self;
        node
    }
}

/// Resident extents by rising offset.
pub struct Residents {
    // Over all offsets of so many bits, as few as hold those that there were: a tree over the widest window would have a level for
    // each extent, as long as few of its bytes are used.
    tree: Tree<Resident, Spans>,
    bits: u32,
}

// By hand, so that it is proved here and not in each crate above.
impl Drop for Residents {
    fn drop(self) {
        let Residents {
            tree: _tree,
            bits: _bits,
        } = self;
    }
}

impl Model for Residents {
    ghost use Rattle.std.specs.Prelude.{◌≤◌, ◌^◌, List};
    ghost use Rattle.augmented_tree.specs.Shape.{items, IsTree};
    ghost use Rattle.extent_tree.specs.Residents.{resident_offset, ResidentFits, AreSpansOf};
    ghost use Rattle.extent_tree.specs.declared.residents.Resident.{Resident};

    ghost Value = { List Resident };

    ghost view = { λ a. items a.tree };

    ghost invariant = { λ a. (a.bits ≤ 29) × IsTree resident_offset ResidentFits AreSpansOf 0 (2 ^ a.bits) a.tree };
}

/// Where the offsets end: past the widest window.
const END: u64 = 536_870_912;

/// What all lengths are below.
const LENGTHS_END: u64 = 4_294_967_296;

impl Residents {
    /// No extent.
    pub fn new() -> Residents
        ensures { result ≡ [] }
    {
        Residents {
            tree: Tree::Leaf,
            bits: 0,
        }
    }

    /// Puts an extent in its place, into the spare node, and answers whether it did. Not if one begins at its offset already, or it
    /// lies beyond the widest window (its offset is 2^29 or more, or its length 2^32 or more), and then nothing has changed.
    /// Takes no memory.
    pub fn put(&mut self, room: SpareNode, resident: Resident) -> bool
        ensures placed { result ≡ true → (self.new ≡ put_resident resident self.old) × (has_resident resident.extent.offset self.old ≡ false) }
        ensures refused { result ≡ false → self.new ≡ self.old }
        ensures when { result ≡ (nat_lt resident.extent.offset 536870912 && (nat_lt resident.extent.length 4294967296 && not (has_resident resident.extent.offset self.old))) }
    {
        let offset = resident.extent.offset;
        if offset >= END || resident.extent.length >= LENGTHS_END {
            return false;
        }
        if augmented_tree::has(&self.tree, offset, 0, end(self.bits)) {
            return false;
        }
        self.bits = widen_to(&mut self.tree, self.bits, offset);
        augmented_tree::put(
            &mut self.tree,
            room.into_node(),
            resident,
            0,
            end(self.bits),
        );
        true
    }

    /// Takes out the extent at an offset, if there is one, and gives the spare node that it leaves. Takes no memory.
    pub fn take(&mut self, offset: u64) -> Option<SpareNode>
        ensures rising { AreResidentsRising self.old }
        ensures residents { self.new ≡ take_resident offset self.old }
        ensures there { is_some result ≡ has_resident offset self.old }
    {
        match augmented_tree::take(&mut self.tree, offset, 0, end(self.bits)) {
            None => None,
            Some(node) => Some(SpareNode { node }),
        }
    }

    /// The copy at an offset, if there is one, is in these classes of victims. Takes no memory.
    pub fn set_classes(&mut self, offset: u64, classes: VictimClasses)
        ensures rising { AreResidentsRising self.old }
        ensures residents { self.new ≡ resident_with_classes offset classes self.old }
    {
        augmented_tree::set_mark(&mut self.tree, offset, classes, 0, end(self.bits));
    }

    /// The span of the extents that stay if all copies go of this class and those before it. Looks at no node but the
    /// first.
    pub fn span(&self, class: VictimClass) -> Option<Span>
        ensures rising { AreResidentsRising self.now }
        ensures small { AllOf (λ x. (x.extent.offset < 2 ^ 29) × (x.extent.length < 2 ^ 32)) self.now }
        ensures span { result ≡ span_of (extents_staying class self.now) }
    {
        summary(&self.tree).at(class)
    }

    /// The classes of victims that the copy at an offset is in, if one begins there.
    pub fn classes(&self, offset: u64) -> Option<VictimClasses>
        ensures rising { AreResidentsRising self.now }
        ensures classes { result ≡ classes_at offset self.now }
    {
        let resident = augmented_tree::find(&self.tree, offset, 0, end(self.bits))?;
        Some(resident.classes)
    }
}
