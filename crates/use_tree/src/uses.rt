//! Uses in a tree by turn, each node of which knows the choices of all uses at it and below.
ghost use Rattle.std.specs.Prelude.{◌≡◌, ◌<◌, ◌≤◌, List, [], ◌∷◌, is_some};
ghost use Rattle.augmented_tree.specs.Lists.{AllOf};
ghost use Rattle.augmented_tree.specs.Shape.{items, HasSummaries, IsTree};
ghost use Rattle.use_tree.specs.declared.classes.VictimClass.{VictimClass};
ghost use Rattle.use_tree.specs.declared.uses.Use.{Use};
ghost use Rattle.use_tree.specs.Uses.{turn_of, IsAnyUse, AreClassesOf, use_in_classes, AreUsesRising, take_use, has_use, use_with_classes, last_chosen, start as start_lem};

use crate::classes::{VictimClass, VictimClasses};
use augmented_tree::{Keyed, Marked, Tree, summary};
use memory_growth::OutOfMemory;
use obj_id::ObjectId;
use std::alloc::Global;
use std::marker::Model;

/// A use of a copy.
#[derive(Clone, Copy, Drop)]
pub struct Use {
    /// Counts down: a later use has a lesser one. Below 2 to the 62nd.
    pub turn: u64,
    /// Of which copy.
    pub id: ObjectId,
    /// The classes of victims that it is in.
    pub classes: VictimClasses,
}

impl Keyed<VictimClasses> for Use {
    ghost key = { turn_of };

    ghost fits = { IsAnyUse };

    ghost tells = { AreClassesOf };

    fn key(self) -> u64 {
        self.turn
    }

    fn none() -> VictimClasses {
        VictimClasses::none()
    }

    fn alone(self) -> VictimClasses {
        self.classes
    }

    fn joined(first: VictimClasses, second: VictimClasses) -> VictimClasses {
        first.or(second)
    }
}

impl Marked<VictimClasses, VictimClasses> for Use {
    ghost marked = { use_in_classes };

    fn marked(self, mark: VictimClasses) -> Use {
        Use {
            classes: mark,
            ..self
        }
    }

    ghost use Rattle.std.proofs.Common.{refl};

    ghost keeps_key = { λ mark item. refl };

    ghost still_fits = { λ mark item h. h };
}

/// Room for one use, so that adding it takes no memory.
pub struct SpareNode {
    node: augmented_tree::SpareNode<Use, VictimClasses>,
}

// By hand, so that it is proved here and not in each crate above.
impl Drop for SpareNode {
    fn drop(self) {
        let SpareNode { node: _node } = self;
    }
}

impl SpareNode {
    /// Takes the memory of one use. Which one stands in it until then doesn't matter.
    pub fn new(alloc: Global, here: Use) -> Result<SpareNode, OutOfMemory> {
        Ok(SpareNode {
            node: augmented_tree::SpareNode::new(alloc, here)?,
        })
    }

    /// The memory.
    fn into_node(self) -> augmented_tree::SpareNode<Use, VictimClasses> {
        let SpareNode { node } = self;
        node
    }
}

/// Uses by rising turn, the latest first.
pub struct Uses {
    // Over the last turns of all, 2 to the number of bits. Turns count down from the end, so a tree over all turns would be as deep
    // as a turn has bits, however few have been given out.
    tree: Tree<Use, VictimClasses>,
    bits: u32,
}

// By hand, so that it is proved here and not in each crate above.
impl Drop for Uses {
    fn drop(self) {
        let Uses {
            tree: _tree,
            bits: _bits,
        } = self;
    }
}

impl Model for Uses {
    ghost use Rattle.std.specs.Prelude.{◌≤◌, List};
    ghost use Rattle.augmented_tree.specs.Shape.{items, IsTree};
    ghost use Rattle.use_tree.specs.Uses.{turn_of, IsAnyUse, AreClassesOf, start};
    ghost use Rattle.use_tree.specs.declared.uses.Use.{Use};

    ghost Value = { List Use };

    ghost view = { λ a. items a.tree };

    ghost invariant = { λ a. (a.bits ≤ 62) × IsTree turn_of IsAnyUse AreClassesOf (start a.bits) 4611686018427387904 a.tree };
}

/// Where the turns end.
const END: u64 = 4_611_686_018_427_387_904;

impl Uses {
    /// No use.
    pub fn new() -> Uses
        ensures { result ≡ [] }
    {
        Uses {
            tree: Tree::Leaf,
            bits: 0,
        }
    }

    /// Puts a use before all others, whose turns are greater. It uses the spare node, and takes no memory.
    pub fn push(&mut self, room: SpareNode, latest: Use)
        requires first { AllOf (λ u. latest.turn < u.turn) self.old }
        requires range { latest.turn < 4611686018427387904 }
        ensures { self.new ≡ latest ∷ self.old }
    {
        self.bits = widen_to(&mut self.tree, self.bits, latest.turn);
        augmented_tree::put(
            &mut self.tree,
            room.into_node(),
            latest,
            start(self.bits),
            END,
        );
    }

    /// Takes out the use of a turn, if there is one, and gives the spare node that it leaves. Takes no memory.
    pub fn take(&mut self, turn: u64) -> Option<SpareNode>
        ensures rising { AreUsesRising self.old }
        ensures uses { self.new ≡ take_use turn self.old }
        ensures there { is_some result ≡ has_use turn self.old }
    {
        match augmented_tree::take(&mut self.tree, turn, start(self.bits), END) {
            None => None,
            Some(node) => Some(SpareNode { node }),
        }
    }

    /// The copy of the use of a turn is in these classes of victims, if there is such a use. Takes no memory.
    pub fn set_classes(&mut self, turn: u64, classes: VictimClasses)
        ensures rising { AreUsesRising self.old }
        ensures uses { self.new ≡ use_with_classes turn classes self.old }
    {
        augmented_tree::set_mark(&mut self.tree, turn, classes, start(self.bits), END);
    }

    /// What all turns are below.
    pub fn end(&self) -> u64
        ensures end { result ≡ 4611686018427387904 }
        ensures range { AllOf (λ u. u.turn < 4611686018427387904) self.now }
    {
        // what the tree says of its turns is what the proof needs
        let _tree = &self.tree;
        END
    }

    /// The use of the greatest turn below this one whose copy the walk chooses.
    pub fn last(&self, class: VictimClass, below: u64) -> Option<Use>
        ensures rising { AreUsesRising self.now }
        ensures last { result ≡ last_chosen class below self.now }
    {
        last(&self.tree, class, below)
    }
}

/// Where the last turns begin that are 2 to this many.
fn start(bits: u32) -> u64
    requires { bits ≤ 62 }
    ensures { result ≡ start_lem bits }
{
    END - (1 << bits)
}

/// Widens the tree until it is over the turn too, and answers over how many turns it is then, in bits.
fn widen_to(tree: &mut Tree<Use, VictimClasses>, bits: u32, turn: u64) -> u32
    requires tree { (bits ≤ 62) × IsTree turn_of IsAnyUse AreClassesOf (start_lem bits) 4611686018427387904 tree.old }
    ensures range { (result ≤ 62) × (start_lem result ≤ turn) }
    ensures tree { IsTree turn_of IsAnyUse AreClassesOf (start_lem result) 4611686018427387904 tree.new × (items tree.new ≡ items tree.old) }
{
    if turn >= start(bits) {
        return bits;
    }
    augmented_tree::widen(tree, start(bits + 1), END);
    widen_to(tree, bits + 1, turn)
}

/// The use of the greatest turn below this one whose copy the walk chooses. Goes into at most two nodes of each depth.
fn last(tree: &Tree<Use, VictimClasses>, class: VictimClass, below: u64) -> Option<Use>
    requires summarized { HasSummaries IsAnyUse AreClassesOf tree.now }
    requires rising { AreUsesRising (items tree.now) }
    ensures { result ≡ last_chosen class below (items tree.now) }
{
    if !summary(tree).has(class) {
        return None;
    }
    match tree {
        Tree::Leaf => None,
        Tree::Fork(here) => {
            let node = &**here;
            if node.here.turn >= below {
                return None;
            }
            let right = last(&node.right, class, below);
            if right.is_some() {
                return right;
            }
            let left = last(&node.left, class, below);
            if left.is_some() {
                return left;
            }
            if !node.here.classes.has(class) {
                return None;
            }
            Some(node.here)
        }
    }
}
