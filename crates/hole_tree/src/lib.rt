//! The holes of a window, in a tree by offset. Each node knows the greatest hole at it and below, so that
//! the first hole of some length is found in one descent.
#![tactic(auto)]

ghost use Rattle.std.specs.Prelude.{◌≡◌, ◌^◌, ◌<◌, ◌≤◌, [], is_some};
ghost use Rattle.augmented_tree.specs.Shape.{items, depth, HasSummaries};
ghost use Rattle.hole_tree.specs.Holes.{hole_offset, IsAnyHole, IsGreatest, AreHolesRising, put_hole, take_hole, has_hole, hole_at, first_fitting};

use augmented_tree::{Keyed, Tree, end, summary, widen_to};
use memory_growth::OutOfMemory;
use std::alloc::Global;
use std::marker::Model;

/// Free bytes between two extents.
#[derive(Clone, Copy, Debug, PartialEq, Eq, Drop)]
pub struct Hole {
    /// Where it begins, in bytes from the start of the window.
    pub offset: u64,
    /// How many bytes it has.
    pub length: u64,
}

impl Keyed<u64> for Hole {
    ghost key = { hole_offset };

    ghost fits = { IsAnyHole };

    ghost tells = { IsGreatest };

    fn key(self) -> u64 {
        self.offset
    }

    fn none() -> u64 {
        0
    }

    fn alone(self) -> u64 {
        self.length
    }

    fn joined(first: u64, second: u64) -> u64 {
        first.max(second)
    }
}

/// Room for one hole, so that putting it in its place takes no memory.
pub struct SpareNode {
    node: augmented_tree::SpareNode<Hole, u64>,
}

// By hand, so that it is proved here and not in each crate above.
impl Drop for SpareNode {
    fn drop(self) {
        let SpareNode { node: _node } = self;
    }
}

impl SpareNode {
    /// Takes the memory of one hole.
    pub fn new(alloc: Global) -> Result<SpareNode, OutOfMemory> {
        let hole = Hole {
            offset: 0,
            length: 0,
        };
        Ok(SpareNode {
            node: augmented_tree::SpareNode::new(alloc, hole)?,
        })
    }

    /// The memory.
    fn into_node(self) -> augmented_tree::SpareNode<Hole, u64> {
        let SpareNode { node } = self;
        node
    }
}

/// Holes by rising offset.
pub struct Holes {
    // Over all offsets of so many bits, as few as hold those that there were: a tree over the widest window would have a level for
    // each hole, as long as few of its bytes are used.
    tree: Tree<Hole, u64>,
    bits: u32,
}

// By hand, so that it is proved here and not in each crate above.
impl Drop for Holes {
    fn drop(self) {
        let Holes {
            tree: _tree,
            bits: _bits,
        } = self;
    }
}

impl Model for Holes {
    ghost use Rattle.std.specs.Prelude.{◌≤◌, ◌^◌, List};
    ghost use Rattle.augmented_tree.specs.Shape.{items, IsTree};
    ghost use Rattle.hole_tree.specs.Holes.{hole_offset, IsAnyHole, IsGreatest};
    ghost use Rattle.hole_tree.specs.declared.Hole.{Hole};

    ghost Value = { List Hole };

    ghost view = { λ a. items a.tree };

    ghost invariant = { λ a. (a.bits ≤ 29) × IsTree hole_offset IsAnyHole IsGreatest 0 (2 ^ a.bits) a.tree };
}

impl Holes {
    /// No hole.
    pub fn new() -> Holes
        ensures { result ≡ [] }
    {
        Holes {
            tree: Tree::Leaf,
            bits: 0,
        }
    }

    /// Puts a hole in its place, in place of the one at its offset, if there is one. It uses the spare node, and
    /// takes no memory.
    pub fn put(&mut self, room: SpareNode, hole: Hole)
        requires { hole.offset < 2 ^ 29 }
        ensures { self.new ≡ put_hole hole self.old }
    {
        self.bits = widen_to(&mut self.tree, self.bits, hole.offset);
        augmented_tree::put(&mut self.tree, room.into_node(), hole, 0, end(self.bits));
    }

    /// Takes out the hole at an offset, if there is one, and gives the spare node that it leaves. Takes no memory.
    pub fn take(&mut self, offset: u64) -> Option<SpareNode>
        ensures holes { self.new ≡ take_hole offset self.old }
        ensures there { is_some result ≡ has_hole offset self.old }
    {
        match augmented_tree::take(&mut self.tree, offset, 0, end(self.bits)) {
            None => None,
            Some(node) => Some(SpareNode { node }),
        }
    }

    /// The first hole of at least `need` bytes, and how many nodes were visited: 30 at most, however many
    /// holes there are.
    pub fn first_fit(&self, need: u64) -> (Option<Hole>, u32)
        ensures first { result.0 ≡ first_fitting need self.now }
        ensures visits { result.1 ≤ 30 }
    {
        first_fit(&self.tree, need)
    }

    /// The hole at an offset, if there is one.
    pub fn at(&self, offset: u64) -> Option<Hole>
        ensures hole { result ≡ hole_at offset self.now }
        ensures rising { AreHolesRising self.now }
    {
        augmented_tree::find(&self.tree, offset, 0, end(self.bits))
    }

    /// Takes out all holes. Takes no memory.
    pub fn clear(&mut self)
        ensures { self.new ≡ [] }
    {
        self.tree = Tree::Leaf;
        self.bits = 0;
    }
}

/// The first hole of at least `need` bytes, and how many nodes were visited.
fn first_fit(tree: &Tree<Hole, u64>, need: u64) -> (Option<Hole>, u32)
    requires marked { HasSummaries IsAnyHole IsGreatest tree.now }
    requires shallow { depth tree.now < 2 ^ 31 }
    ensures first { result.0 ≡ first_fitting need (items tree.now) }
    ensures visits { result.1 ≤ depth tree.now }
{
    match tree {
        Tree::Leaf => (None, 0),
        Tree::Fork(here) => {
            let node = &**here;
            if node.summary < need {
                return (None, 1);
            }
            if node.here.length >= need {
                return (Some(node.here), 1);
            }
            if summary(&node.left) >= need {
                let (found, visits) = first_fit(&node.left, need);
                return (found, visits + 1);
            }
            let (found, visits) = first_fit(&node.right, need);
            (found, visits + 1)
        }
    }
}
