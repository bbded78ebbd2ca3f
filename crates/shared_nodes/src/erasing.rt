//! What steps gave out to be erased is erased.
ghost use Rattle.std.specs.Prelude.{List};
ghost use Rattle.node_housekeeping.specs.DeviceCalls.{AreErased};
ghost use Rattle.shared_nodes.specs.Erasing.{keys_in};

use crate::SharedNode;
use node_gate::JournaledNode;
use node_housekeeping::{Pause, erase_all};
use spill_device::SpillDevice;
use std::sync::Wait;

impl<K: JournaledNode, P: Pause> SharedNode<K, P> {
    /// Erases the keys that steps of the node gave out and that wait.
    pub fn erase_keys<R: Wait, D: SpillDevice>(&self, rt: &R, device: &mut D)
        ensures { (given : List K.Erase) × AreErased D.erase_gives device.old (keys_in K.keys given) device.new }
    {
        let given = self.housekeeping.keys.take(rt);
        let failed = erase_given::<K, D>(device, &given);
        self.housekeeping.tallies.unerased(rt, failed);
    }
}

/// Erases keys that steps gave out: of how many it failed.
fn erase_given<K: JournaledNode, D: SpillDevice>(device: &mut D, given: &[K::Erase]) -> u64
    ensures { AreErased D.erase_gives device.old (keys_in K.keys given.now) device.new }
{
    let mut failed = 0u64;
    for erase in given {
        failed = failed.saturating_add(erase_all(device, K::keys(erase)));
    }
    failed
}
