//! That nothing beside the nodes of a name can be stepped.
ghost use Rattle.std.specs.Prelude.{◌≡◌, ◌≤◌, length};

use crate::Recorded;
use crate::seats::Seats;
use cluster_history::{ClusterShape, HistoryName};
use node_gate::{Access, Keeper};
use std::sync::Wait;
use std::sync::ledger::{Ledger, Share};

/// If there are as many nodes as their name has parts, nobody else has a part of it: what anybody shows has none, so that
/// nothing else of that name can be stepped. Locks all nodes at once, in their order. All shares stay as they are.
pub(crate) fn nothing_beside<
    L: Ledger + HistoryName,
    S: ClusterShape,
    H: Keeper<Recorded<L, S>>,
    R: Wait,
>(rt: &R, nodes: &[H], other: &mut Seats<L, S>, access: &Access<Recorded<L, S>>)
    requires { length nodes.now ≡ S.nodes }
    ensures none { other.old.0.0 ≡ 0 }
    ensures same { (other.new.0.0 ≡ other.old.0.0) × (other.new.0.1 ≡ other.old.0.1) }
{
    let Seats { share, places: _ } = other;
    let mut seen = share.empty();
    beside_from(rt, nodes, 0, &mut seen, share, access);
}

/// Locks each node from this one on, and lends its part to those seen until all are locked: then there is none left.
fn beside_from<L: Ledger + HistoryName, S: ClusterShape, H: Keeper<Recorded<L, S>>, R: Wait>(
    rt: &R,
    nodes: &[H],
    next: usize,
    seen: &mut Share<L>,
    other: &mut Share<L>,
    access: &Access<Recorded<L, S>>,
)
    requires started { next ≤ length nodes.now }
    requires all { length nodes.now ≡ L.parts }
    requires parts { (seen.old.parts ≡ next) × (seen.old.amount ≡ 0) }
    ensures none { other.old.parts ≡ 0 }
    ensures seen { (seen.new.parts ≡ seen.old.parts) × (seen.new.amount ≡ seen.old.amount) }
    ensures other { (other.new.parts ≡ other.old.parts) × (other.new.amount ≡ other.old.amount) }
{
    if next == nodes.len() {
        seen.give(other, 0, 0);
        return;
    }
    let mut locked = nodes[next].kept(access).lock(rt);
    let Recorded { kept, place: _ } = &mut *locked;
    kept.ledger_share.give(seen, 1, 0);
    beside_from(rt, nodes, next + 1, seen, other, access);
    seen.give(&mut kept.ledger_share, 1, 0);
}
