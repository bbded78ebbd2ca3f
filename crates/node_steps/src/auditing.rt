//! Receipts are looked for in the journal of the node that gave them.
ghost use Rattle.std.specs.Prelude.{◌≡◌, ◌∷◌, [], length, filter};

use node_gate::JournaledNode;
use node_housekeeping::{LookedFor, Tallies};
use std::sync::Wait;

/// Looks for the entries of receipts, and counts them and those that the journal says aren't there.
pub fn audit<K: JournaledNode, R: Wait>(
    rt: &R,
    kept: &K,
    tallies: &Tallies,
    receipts: &[K::Receipt],
) -> LookedFor
    ensures receipts { result.receipts.value ≡ length receipts.now }
    ensures disagreeing { result.disagreeing.value ≡ length (filter (K.misses kept.now) receipts.now) }
{
    tallies.looked_for(rt, receipts.len() as u64, count_missing(kept, receipts))
}

/// The same of one receipt.
pub fn audit_one<K: JournaledNode, R: Wait>(
    rt: &R,
    kept: &K,
    tallies: &Tallies,
    receipt: &K::Receipt,
) -> LookedFor
    ensures receipts { result.receipts.value ≡ 1 }
    ensures disagreeing { result.disagreeing.value ≡ length (filter (K.misses kept.now) (receipt.now ∷ [])) }
{
    if kept.misses(receipt) {
        tallies.looked_for(rt, 1, 1)
    } else {
        tallies.looked_for(rt, 1, 0)
    }
}

/// Of how many of the receipts the journal says that the entry isn't there. One that was folded isn't counted.
fn count_missing<K: JournaledNode>(kept: &K, receipts: &[K::Receipt]) -> u64
    ensures { result ≡ length (filter (K.misses kept.now) receipts.now) }
{
    receipts
        .iter()
        .filter(|receipt| kept.misses(receipt))
        .count() as u64
}
