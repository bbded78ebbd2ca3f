//! What a store uses of its quotas.
ghost use Rattle.std.specs.Prelude.{◌≡◌, ◌≤◌, filter, is_some, length, map, nat_le, sum};
ghost use Rattle.std.specs.List.{list_all};
ghost use Rattle.std.specs.Map.{values_of};
ghost use Rattle.private_store.specs.rules.Extents.{end_of, rounded as rounded_lem};
ghost use Rattle.private_store.specs.rules.Limits.{most_copies};
ghost use Rattle.private_store.specs.rules.Copies.{device_used, window_used, is_range_within, fits_quota};
ghost use Rattle.plain_store.specs.Using.{has_extent_within};

use crate::copies::PlainCopy;
use crate::store::PlainStore;
use obj_id::{Extent, ObjectId, Quota};
use private_store::rounded;
use std::collections::BTreeMap;

/// Whether the extent ends at this offset or before it.
fn ends_within(extent: Extent, window: u64) -> bool
    ensures { result ≡ nat_le (end_of extent) window }
{
    extent.offset <= window && extent.length <= window - extent.offset
}

/// Whether no copy reaches past this end of a window.
fn are_within(copies: &BTreeMap<ObjectId, PlainCopy>, window: u64) -> bool
    ensures { result ≡ list_all (has_extent_within window) (values_of copies.now.entries) }
{
    copies.values().all(|copy| copy.is_within(window))
}

impl PlainCopy {
    /// Whether its extent, if it has one, doesn't reach past this end of a window.
    pub(crate) fn is_within(&self, window: u64) -> bool
        ensures { result ≡ has_extent_within window self.now }
    {
        match self.extent_of() {
            Some(extent) => ends_within(extent, window),
            None => true,
        }
    }
}

impl PlainStore {
    /// The bytes that resident copies take, in whole units of 16.
    fn resident_bytes(&self) -> u64
        requires { length self.now.shape.copies ≤ most_copies }
        ensures { result ≡ sum (map (λ e. rounded_lem e.1.length) (filter (λ e. is_some e.1.offset) self.now.shape.copies)) }
    {
        self.copies
            .iter()
            .filter(|(_, copy)| copy.offset.is_some())
            .map(|(_, copy)| rounded(copy.length))
            .sum()
    }

    /// The bytes of the window that copies take.
    pub(crate) fn window_used(&self) -> u64
        requires { length self.now.shape.copies ≤ most_copies }
        ensures { result ≡ window_used self.now.shape }
    {
        self.resident_bytes()
    }

    /// The device bytes that copies take: those that are backed, and those that are being spilled.
    pub(crate) fn device_used(&self) -> u64
        requires { length self.now.shape.copies ≤ most_copies }
        ensures { result ≡ device_used self.now.shape }
    {
        self.copies
            .iter()
            .filter(|(id, copy)| copy.backed.is_some() || self.is_writing(**id))
            .map(|(_, copy)| rounded(copy.length))
            .sum()
    }

    /// Whether no extent reaches past this end of a window.
    pub(crate) fn is_within(&self, window: u64) -> bool
        ensures { result ≡ is_range_within self.now.shape window }
    {
        are_within(&self.copies, window)
    }

    /// Whether what the store uses is within the quota.
    pub(crate) fn fits_quota(&self, quota: Quota) -> bool
        requires { length self.now.shape.copies ≤ most_copies }
        ensures { result ≡ fits_quota self.now.shape quota }
    {
        self.is_within(quota.window) && self.device_used() <= quota.device
    }
}
