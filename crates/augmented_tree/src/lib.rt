//! Items by rising key in a tree, each node of which has the summary of its item and of all below it. What is asked of many items
//! is answered from a few summaries, and a descent passes over all that a summary rules out. The keys below a node part at a fixed
//! middle: the tree is never deeper than a key has bits, and nothing has to be turned over.
#![tactic(auto)]

ghost use Rattle.std.specs.Prelude.{◌≡◌, ℕ, ◌+◌, ◌^◌, ◌<◌, ◌≤◌, List, [], ◌∷◌, ◌++◌, nat_lt, if◌then◌else◌, IfSome, IfNone, is_some};
ghost use Rattle.augmented_tree.specs.Lists.{put_item, take_item, has_item, find_item, change_item};
ghost use Rattle.augmented_tree.specs.Shape.{items, middle as middle_of, HasSummaries, IsTree};

use memory_growth::{OutOfMemory, boxes};
use std::alloc::Global;
use std::mem;

/// An item of a tree, and the summaries that the tree's nodes have of such items.
pub trait Keyed<S>: Copy {
    /// Where an item stands among others.
    ghost key: { Self → ℕ };

    /// What holds of each item.
    ghost fits: { Self → Type 0 };

    /// Which summary is that of which items.
    ghost tells: { S → List Self → Type 0 };

    /// The item's key.
    fn key(self) -> u64
        ensures { result ≡ key self };

    /// The summary of no item.
    fn none() -> S
        ensures { tells result [] };

    /// The summary of the item alone.
    fn alone(self) -> S
        requires { fits self }
        ensures { tells result (self ∷ []) };

    /// The summary of some items and others after them.
    fn joined(first: S, second: S) -> S
        ensures { (xs ys : List Self) → tells first xs → tells second ys → tells result (xs ++ ys) };
}

/// An item that bears a mark which can be changed where the item stands.
pub trait Marked<S, M>: Keyed<S> {
    /// The item with a mark.
    ghost marked: { M → Self → Self };

    /// The item with a mark.
    fn marked(self, mark: M) -> Self
        ensures { result ≡ marked mark self };

    /// Its key is the same.
    ghost keeps_key: { (mark : M) (item : Self) → Self.key (marked mark item) ≡ Self.key item };

    /// What holds of each item still holds.
    ghost still_fits: { (mark : M) (item : Self) → Self.fits item → Self.fits (marked mark item) };
}

/// A tree, or a part of one.
#[cycle(tree)]
#[derive(Drop)]
pub enum Tree<T, S> {
    /// No item.
    Leaf,
    /// An item, and those after it.
    Fork(Box<Node<T, S>>),
}

/// A node of a tree: the first item of its part, and the others on two sides.
#[cycle(tree)]
#[derive(Drop)]
pub struct Node<T, S> {
    /// The first item.
    pub here: T,
    /// The summary of it and all below.
    pub summary: S,
    /// The items below the middle.
    pub left: Tree<T, S>,
    /// The items from the middle on.
    pub right: Tree<T, S>,
}

/// Room for one item, so that putting it in its place takes no memory.
#[derive(Drop)]
pub struct SpareNode<T, S> {
    node: Box<Node<T, S>>,
}

impl<T: Keyed<S>, S: Drop> SpareNode<T, S> {
    /// Takes the memory of one item. Which one stands in it until then doesn't matter.
    pub fn new(alloc: Global, item: T) -> Result<SpareNode<T, S>, OutOfMemory> {
        let node = Node {
            here: item,
            summary: T::none(),
            left: Tree::Leaf,
            right: Tree::Leaf,
        };
        Ok(SpareNode {
            node: boxes::boxed(alloc, node)?,
        })
    }
}

/// Where the keys below a node part, if they run from `low` to below `high`.
pub fn middle(low: u64, high: u64) -> u64
    requires { (low < high) × (high < 2 ^ 63) }
    ensures { result ≡ middle_of low high }
{
    (low + high) / 2
}

/// The summary of all items.
pub fn summary<T: Keyed<S>, S: Copy>(tree: &Tree<T, S>) -> S
    requires { HasSummaries T.fits T.tells tree.now }
    ensures { T.tells result (items tree.now) }
{
    match tree {
        Tree::Leaf => T::none(),
        Tree::Fork(here) => {
            let node = &**here;
            node.summary
        }
    }
}

/// The summary of a node's own item and those on its sides. Many nodes have nothing on a side, and then it counts for nothing.
fn summary_with<T: Keyed<S>, S: Copy>(here: T, left: &Tree<T, S>, right: &Tree<T, S>) -> S
    requires fits { T.fits here }
    requires summarized { HasSummaries T.fits T.tells left.now × HasSummaries T.fits T.tells right.now }
    ensures { T.tells result (here ∷ items left.now ++ items right.now) }
{
    let own = here.alone();
    match (left, right) {
        (Tree::Leaf, Tree::Leaf) => own,
        (Tree::Leaf, _) => T::joined(own, summary(right)),
        (_, Tree::Leaf) => T::joined(own, summary(left)),
        _ => T::joined(own, T::joined(summary(left), summary(right))),
    }
}

/// The item of a key, if there is one.
pub fn find<T: Keyed<S>, S: Copy>(tree: &Tree<T, S>, key: u64, low: u64, high: u64) -> Option<T>
    requires tree { IsTree T.key T.fits T.tells low high tree.now }
    requires range { high < 2 ^ 63 }
    ensures { result ≡ find_item T.key key (items tree.now) }
{
    match tree {
        Tree::Leaf => None,
        Tree::Fork(here) => {
            let node = &**here;
            if node.here.key() == key {
                return Some(node.here);
            }
            let middle = middle(low, high);
            if key < middle {
                find(&node.left, key, low, middle)
            } else {
                find(&node.right, key, middle, high)
            }
        }
    }
}

/// Whether there is an item of a key.
pub fn has<T: Keyed<S>, S: Copy>(tree: &Tree<T, S>, key: u64, low: u64, high: u64) -> bool
    requires tree { IsTree T.key T.fits T.tells low high tree.now }
    requires range { high < 2 ^ 63 }
    ensures { result ≡ has_item T.key key (items tree.now) }
{
    find(tree, key, low, high).is_some()
}

/// The two by rising key.
fn ordered<T: Keyed<S>, S>(a: T, b: T) -> (T, T)
    ensures { result ≡ (if nat_lt (T.key a) (T.key b) then (a, b) else (b, a)) }
{
    if a.key() < b.key() { (a, b) } else { (b, a) }
}

/// Puts an item in its place, in place of the one of its key, if there is one. It uses the spare node, and takes no memory.
pub fn put<T: Keyed<S>, S: Copy>(
    tree: &mut Tree<T, S>,
    room: SpareNode<T, S>,
    item: T,
    low: u64,
    high: u64,
)
    requires tree { IsTree T.key T.fits T.tells low high tree.old }
    requires range { (low ≤ T.key item) × (T.key item < high) × (high < 2 ^ 63) }
    requires fits { T.fits item }
    ensures { IsTree T.key T.fits T.tells low high tree.new × (items tree.new ≡ put_item T.key item (items tree.old)) }
{
    match tree {
        Tree::Leaf => {
            let SpareNode { mut node } = room;
            *node = Node {
                here: item,
                summary: item.alone(),
                left: Tree::Leaf,
                right: Tree::Leaf,
            };
            *tree = Tree::Fork(node);
        }
        Tree::Fork(here) => {
            let node = &mut **here;
            if item.key() == node.here.key() {
                node.here = item;
                node.summary = summary_with(item, &node.left, &node.right);
                return;
            }
            let (least, other) = ordered(item, node.here);
            node.here = least;
            let middle = middle(low, high);
            if other.key() < middle {
                put(&mut node.left, room, other, low, middle);
                node.summary = summary_with(least, &node.left, &node.right);
            } else {
                put(&mut node.right, room, other, middle, high);
                node.summary = summary_with(least, &node.left, &node.right);
            }
        }
    }
}

/// Takes out the first item, and gives the node that it leaves.
fn pop<T: Keyed<S>, S: Copy>(tree: &mut Tree<T, S>) -> Option<Box<Node<T, S>>>
    requires { HasSummaries T.fits T.tells tree.old }
    ensures summarized { HasSummaries T.fits T.tells tree.new }
    ensures tree { (low high : ℕ) → IsTree T.key T.fits T.tells low high tree.old → IsTree T.key T.fits T.tells low high tree.new }
    ensures some { IfSome result (λ b. items tree.old ≡ b.value.here ∷ items tree.new) }
    ensures none { IfNone result ((items tree.old ≡ []) × (items tree.new ≡ [])) }
{
    match tree {
        Tree::Leaf => None,
        Tree::Fork(here) => {
            let node = &mut **here;
            if let Some(mut next) = pop(&mut node.left) {
                let least = next.here;
                next.here = node.here;
                node.here = least;
                node.summary = summary_with(least, &node.left, &node.right);
                return Some(next);
            }
            if let Some(mut next) = pop(&mut node.right) {
                let least = next.here;
                next.here = node.here;
                node.here = least;
                node.summary = summary_with(least, &node.left, &node.right);
                return Some(next);
            }
            match mem::replace(tree, Tree::Leaf) {
                Tree::Leaf => None,
                Tree::Fork(last) => Some(last),
            }
        }
    }
}

/// The same items over a wider range of keys, after whose middle lies the one that the tree was over: the first item comes to
/// stand before all others. Takes no memory.
pub fn widen<T: Keyed<S>, S: Copy>(tree: &mut Tree<T, S>, low: u64, high: u64)
    requires tree { IsTree T.key T.fits T.tells (middle_of low high) high tree.old }
    requires range { low < high }
    ensures { IsTree T.key T.fits T.tells low high tree.new × (items tree.new ≡ items tree.old) }
{
    let Some(mut node) = pop(tree) else {
        return;
    };
    let here = node.here;
    let rest = mem::replace(tree, Tree::Leaf);
    *node = Node {
        here,
        summary: summary_with(here, &Tree::Leaf, &rest),
        left: Tree::Leaf,
        right: rest,
    };
    *tree = Tree::Fork(node);
}

/// The same items over a wider range of keys, before whose middle lies the one that the tree was over: the first item still
/// stands before all others. Takes no memory.
fn widen_up<T: Keyed<S>, S: Copy>(tree: &mut Tree<T, S>, low: u64, high: u64)
    requires tree { IsTree T.key T.fits T.tells low (middle_of low high) tree.old }
    requires range { low < high }
    ensures { IsTree T.key T.fits T.tells low high tree.new × (items tree.new ≡ items tree.old) }
{
    let Some(mut node) = pop(tree) else {
        return;
    };
    let here = node.here;
    let rest = mem::replace(tree, Tree::Leaf);
    *node = Node {
        here,
        summary: summary_with(here, &rest, &Tree::Leaf),
        left: rest,
        right: Tree::Leaf,
    };
    *tree = Tree::Fork(node);
}

/// Widens a tree over all keys of so many bits until it is over this key too, and answers over how many bits it is then: as few
/// as there can be, since a tree is as deep as its range has bits. Takes no memory.
pub fn widen_to<T: Keyed<S>, S: Copy>(tree: &mut Tree<T, S>, bits: u32, key: u64) -> u32
    requires tree { (bits ≤ 62) × IsTree T.key T.fits T.tells 0 (2 ^ bits) tree.old }
    requires small { key < 2 ^ 62 }
    ensures range { (result ≤ 62) × (key < 2 ^ result) }
    ensures few { (most : ℕ) → bits ≤ most → key < 2 ^ most → result ≤ most }
    ensures tree { IsTree T.key T.fits T.tells 0 (2 ^ result) tree.new × (items tree.new ≡ items tree.old) }
{
    if key < end(bits) {
        return bits;
    }
    widen_up(tree, 0, end(bits + 1));
    widen_to(tree, bits + 1, key)
}

/// What all keys of so many bits are below.
pub fn end(bits: u32) -> u64
    requires { bits ≤ 62 }
    ensures { result ≡ 2 ^ bits }
{
    1 << bits
}

/// Takes out the item of a key, if there is one, and gives the spare node that it leaves. Takes no memory.
pub fn take<T: Keyed<S>, S: Copy>(
    tree: &mut Tree<T, S>,
    key: u64,
    low: u64,
    high: u64,
) -> Option<SpareNode<T, S>>
    requires tree { IsTree T.key T.fits T.tells low high tree.old }
    requires range { high < 2 ^ 63 }
    ensures less { IsTree T.key T.fits T.tells low high tree.new × (items tree.new ≡ take_item T.key key (items tree.old)) }
    ensures there { is_some result ≡ has_item T.key key (items tree.old) }
{
    match tree {
        Tree::Leaf => None,
        Tree::Fork(here) => {
            let node = &mut **here;
            if node.here.key() == key {
                return match pop(tree) {
                    None => None,
                    Some(node) => Some(SpareNode { node }),
                };
            }
            let middle = middle(low, high);
            if key < middle {
                let room = take(&mut node.left, key, low, middle);
                node.summary = summary_with(node.here, &node.left, &node.right);
                room
            } else {
                let room = take(&mut node.right, key, middle, high);
                node.summary = summary_with(node.here, &node.left, &node.right);
                room
            }
        }
    }
}

/// Marks the item of a key, if there is one. Takes no memory.
pub fn set_mark<T: Marked<S, M>, S: Copy, M: Copy>(
    tree: &mut Tree<T, S>,
    key: u64,
    mark: M,
    low: u64,
    high: u64,
)
    requires tree { IsTree T.key T.fits T.tells low high tree.old }
    requires range { high < 2 ^ 63 }
    ensures { IsTree T.key T.fits T.tells low high tree.new × (items tree.new ≡ change_item T.key (T.marked mark) key (items tree.old)) }
{
    match tree {
        Tree::Leaf => {}
        Tree::Fork(here) => {
            let node = &mut **here;
            if node.here.key() == key {
                node.here = node.here.marked(mark);
                node.summary = summary_with(node.here, &node.left, &node.right);
                return;
            }
            let middle = middle(low, high);
            if key < middle {
                set_mark(&mut node.left, key, mark, low, middle);
                node.summary = summary_with(node.here, &node.left, &node.right);
            } else {
                set_mark(&mut node.right, key, mark, middle, high);
                node.summary = summary_with(node.here, &node.left, &node.right);
            }
        }
    }
}
