//! What a job uses of the device.
ghost use Rattle.std.specs.Prelude.{◌≡◌, ◌-◌, ◌^◌, ◌||◌, min, if◌then◌else◌, is_some};
ghost use Rattle.private_store.specs.rules.Extents.{rounded as rounded_lem};
ghost use Rattle.private_store.specs.rules.Copies.{is_writing, device_used};

use crate::copies::PlainCopy;
use crate::store::PlainStore;
use obj_id::ObjectId;
use private_store::rounded;

impl PlainStore {
    /// The device bytes of the copy, if it is backed or being spilled.
    fn device_bytes(&self, id: ObjectId, copy: &PlainCopy) -> u64
        ensures { result ≡ (if is_some copy.now.backed || is_writing self.now.shape id then rounded_lem copy.now.length else 0) }
    {
        if copy.backed.is_some() || self.is_writing(id) {
            return rounded(copy.length);
        }
        0
    }

    /// The device bytes that the job uses, or `u64::MAX` if they are more. Takes a walk over the copies.
    pub(crate) fn device_used_or_max(&self) -> u64
        ensures { result ≡ min (device_used self.now.shape) (2 ^ 64 - 1) }
    {
        let mut used: u64 = 0;
        for (id, copy) in &self.copies {
            used = used.saturating_add(self.device_bytes(*id, copy));
        }
        used
    }
}
