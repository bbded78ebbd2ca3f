//! The Finish of a work, until a step of the node has taken it.
ghost use Rattle.std.specs.Prelude.{◌≡◌};
ghost use Rattle.shared_nodes.specs.Rounds.{IsOfTaken};

use node_gate::JournaledNode;
use node_housekeeping::Finishing;
use spill_device::SpillDevice;
use std::marker::PhantomData;

/// What a device answered for a work that a Take of a node gave: to be handed in, and handed in again if there was no memory for it. Only a
/// round makes it, once the device was called.
pub struct PendingFinish<K: JournaledNode, D: SpillDevice> {
    pub(crate) finishing: Finishing,
    of: PhantomData<K>,
    device: PhantomData<D>,
    pub(crate) ghost taken: { ∥ IsOfTaken K.receipt_of D.write_gives D.read_gives finishing ∥₁ },
}

// By hand, so that it is proved here and not in each crate above.
impl<K: JournaledNode, D: SpillDevice> Drop for PendingFinish<K, D> {
    fn drop(self) {
        let PendingFinish {
            finishing: _finishing,
            of: _of,
            device: _device,
        } = self;
    }
}

impl<K: JournaledNode, D: SpillDevice> PendingFinish<K, D> {
    /// Of a work that a Take gave, as its receipt tells, and for which a device was called.
    pub(crate) fn new(finishing: Finishing) -> PendingFinish<K, D>
        requires { ∥ IsOfTaken K.receipt_of D.write_gives D.read_gives finishing ∥₁ }
        ensures { result.finishing ≡ finishing }
    {
        PendingFinish {
            finishing,
            of: PhantomData,
            device: PhantomData,
        }
    }
}
