//! First fit over extents by rising offset.
ghost use Rattle.std.specs.Prelude.{◌≡◌, ◌+◌, ◌^◌, ◌<◌, ◌≤◌, not};
ghost use Rattle.std.specs.List.Sorted.{IsNonDecreasingBy};
ghost use Rattle.obj_id.specs.declared.works.Extent.{Extent};
ghost use Rattle.private_store.specs.rules.Extents.{end_of, first as first_lem};
ghost use Rattle.private_store.specs.rules.Limits.{widest_window};
ghost use Rattle.plain_store.specs.Fits.{is_apart_at, IsEnd};

use obj_id::Extent;
use obj_id::limits::UNIT;
use private_store::rounded;

/// No extent reaches further than this: above every window, and whole units.
const FARTHEST: u64 = 8_589_934_592;

/// Where an object of `length` bytes goes in a window of `window` bytes with these extents, which are by rising offset: the
/// least multiple of 16 at which it meets none of them. `None` if there is none. Takes a walk over the extents.
pub(crate) fn first(extents: &[Extent], window: u64, length: u32) -> Option<u32>
    requires window { window ≤ widest_window }
    requires rising { IsNonDecreasingBy (λ (e : Extent). e.offset) extents.now }
    ensures { result ≡ first_lem extents.now window length }
{
    let need = rounded(length);
    let mut offset = 0;
    for extent in extents {
        if offset + need > window {
            return None;
        }
        if meets(extent, offset, need) {
            offset = end_in_units(extent);
        }
    }
    if offset + need > window {
        return None;
    }
    Some(offset as u32)
}

/// Whether `need` bytes at the offset meet the extent.
fn meets(extent: &Extent, offset: u64, need: u64) -> bool
    requires { offset + need < 2 ^ 64 }
    ensures { result ≡ not (is_apart_at extent.now need offset) }
{
    let begins_after = offset + need <= extent.offset;
    let ends_before = extent.offset <= offset && extent.length <= offset - extent.offset;
    !begins_after && !ends_before
}

/// The end of an extent in whole units, as far as a window may reach.
fn end_in_units(extent: &Extent) -> u64
    ensures { IsEnd (end_of extent.now) result }
{
    let end = extent.offset.saturating_add(extent.length);
    if end >= FARTHEST {
        return FARTHEST;
    }
    (end + (UNIT - 1)) / UNIT * UNIT
}
