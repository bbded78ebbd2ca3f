//! Nodes that stand on the parts of a name, and that nothing beside them can be stepped under it.
ghost use Rattle.std.specs.Prelude.{◌≡◌, length};

use crate::{ActorSource, JournaledNode, Posted};
use std::alloc::Global;
use std::marker::PhantomData;
use std::sync::{Arc, Mutex, Wait};

/// The leave to lock nodes of one kind. This crate alone makes one, for what the nodes of that kind show of themselves, so nobody else
/// reaches a node through what keeps it.
pub struct Access<K>(PhantomData<K>);

/// What has a node with its journal behind a lock.
pub trait Keeper<K> {
    /// The node with its journal.
    fn kept(&self, access: &Access<K>) -> &Mutex<K>;
}

impl<K, H: Keeper<K>> Keeper<K> for Arc<H> {
    fn kept(&self, access: &Access<K>) -> &Mutex<K> {
        (**self).kept(access)
    }
}

/// A node that stands on a part of a ledger's name.
pub trait SeatedNode: JournaledNode {
    ghost use Rattle.std.specs.Prelude.{◌≡◌, ◌≤◌, ◌<◌, ◌+◌, ℕ, length};

    /// A share of the name: some of its parts.
    type Share: Drop;

    /// What one node stands on.
    type Seat: Drop;

    // how many parts a share has, and what else the ledger counts for it
    ghost parts: { Self.Share → ℕ };

    ghost amount: { Self.Share → ℕ };

    // how many parts the name has in all
    ghost all_parts: { ℕ };

    // of the node that stands on the part that is taken out next
    ghost next_number: { Self.Share → ℕ };

    // of the node that stands on it
    ghost seat_number: { Self.Seat → ℕ };

    // a node may have so many bytes of memory
    ghost may_have: { ℕ → Type 0 };

    /// The leave to make actors that step the nodes of the name.
    fn actors() -> ActorSource {
        ActorSource::new()
    }

    /// Takes one part out of a share for which the ledger counts nothing else.
    fn split_seat(share: &mut Self::Share) -> Self::Seat
        requires part { 1 ≤ parts share.old }
        requires blank { amount share.old ≡ 0 }
        requires within { next_number share.old < all_parts }
        ensures seat { seat_number result ≡ next_number share.old }
        ensures rest { (parts share.new + 1 ≡ parts share.old) × (amount share.new ≡ amount share.old) }
        ensures next { next_number share.new ≡ next_number share.old + 1 };

    /// A node of this number, with so many bytes of memory, no job and no entry, on one part of the name.
    fn seated(alloc: Global, number: u32, memory: u64, seat: Self::Seat) -> Self
        requires memory { may_have memory }
        requires number { seat_number seat ≡ number }
        ensures { Self.JournaledNode.node_number result ≡ number };

    /// The directory of the nodes that stand on the name, which knows of no location yet, once each of them has its own.
    fn directory(alloc: Global, rest: Self::Share) -> <Self::Posted as Posted>::Directory
        requires { next_number rest ≡ all_parts };

    /// If there are as many nodes as their name has parts, what anybody shows has none. All shares stay as they are.
    fn nothing_beside<H: Keeper<Self>, R: Wait>(
        rt: &R,
        nodes: &[H],
        other: &mut Self::Share,
        access: &Access<Self>,
    )
        requires { length nodes.now ≡ all_parts }
        ensures none { parts other.old ≡ 0 }
        ensures same { (parts other.new ≡ parts other.old) × (amount other.new ≡ amount other.old) };
}

/// If there are as many nodes as their name has parts, nobody else has a part of it: what anybody shows has none, so that
/// nothing else of that name can be stepped. Locks all nodes at once, in their order. All shares stay as they are.
pub fn nothing_beside<K: SeatedNode, H: Keeper<K>, R: Wait>(
    rt: &R,
    nodes: &[H],
    other: &mut K::Share,
)
    requires { length nodes.now ≡ K.all_parts }
    ensures none { K.parts other.old ≡ 0 }
    ensures same { (K.parts other.new ≡ K.parts other.old) × (K.amount other.new ≡ K.amount other.old) }
{
    K::nothing_beside(rt, nodes, other, &Access(PhantomData));
}
