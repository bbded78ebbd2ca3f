//! What List and Usage show of a copy.
ghost use Rattle.std.specs.Prelude.{◌≡◌};
ghost use Rattle.row_copy.specs.Usages.{own_item_of, window_bytes as window_bytes_lem, device_bytes as device_bytes_lem, doomed_one as doomed_one_lem};

use crate::RowCopy;
use obj_id::{ObjectId, OwnItem};

impl RowCopy {
    /// The copy of the id, as List shows it.
    pub fn item(&self, id: &ObjectId) -> OwnItem
        ensures { result ≡ own_item_of (id.now, self.now) }
    {
        OwnItem {
            id: *id,
            state: self.state(),
            kind: self.kind(),
            length: self.length(),
        }
    }

    /// The bytes that it takes in the window: none unless it is resident.
    pub fn window_bytes(&self) -> u64
        ensures { result ≡ window_bytes_lem self.now }
    {
        match self.extent() {
            Some(extent) => extent.length,
            None => 0,
        }
    }

    /// 1 if it is doomed, and otherwise 0.
    pub fn doomed_one(&self) -> u64
        ensures { result ≡ doomed_one_lem self.now }
    {
        u64::from(self.doomed())
    }

    /// The device bytes that count for it: none unless it is backed or is being written.
    pub fn device_bytes(&self) -> u64
        ensures { result ≡ device_bytes_lem self.now }
    {
        if self.is_backed() || self.is_spilling() {
            self.rounded_length()
        } else {
            0
        }
    }
}
