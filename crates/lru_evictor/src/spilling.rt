//! How many copies are to be spilled for room, found without memory.
ghost use Rattle.std.specs.Prelude.{◌≡◌, ◌<◌, ◌≤◌, take, length, IfSome};
ghost use Rattle.std.specs.Option.{option_map, option_and_then};
ghost use Rattle.private_store.specs.rules.Room.{shortest as shortest_beginning};
ghost use Rattle.extent_tree.specs.Residents.{classes_at, has_gap as has_gap_lem, span_of, extents_staying};
ghost use Rattle.use_tree.specs.declared.classes.VictimClass.TheVariants.{Draining};
ghost use Rattle.lru_evictor.specs.Spilling.{leaves_gap, marked_draining, unmarked};

use crate::candidates::Candidates;
use crate::facts::CopyLookup;
use crate::search::extent_of;
use extent_tree::{Residents, has_gap};
use obj_id::Extent;
use use_tree::{VictimClass, VictimClasses};

/// A gap that is wanted among the copies that stay.
#[derive(Clone, Copy, Debug)]
pub(crate) struct Gap {
    /// How wide the window is, in bytes.
    pub(crate) quota: u64,
    /// How wide the gap has to be.
    pub(crate) need: u64,
}

/// How many of the candidates have to go, besides all that may be evicted at once or once their works have ended, for such a
/// gap, or `None` if all of them are too few.
///
/// One after another is marked as one that passes, until the tree's first node tells of a gap; the marks are taken back on the
/// way out. So it takes no memory, and four descents of a tree for each that goes.
pub(crate) fn count_spills<C: CopyLookup>(
    residents: &mut Residents,
    candidates: &mut Candidates<'_>,
    copies: &C,
    gap: Gap,
) -> Option<usize>
    requires { length candidates.old < 4611686018427387904 }
    ensures count { option_map (λ k. take k candidates.old) result ≡ shortest_beginning (leaves_gap gap (C.facts copies.now) residents.old) candidates.old }
    ensures within { IfSome result (λ k. k ≤ length candidates.old) }
    ensures same { residents.new ≡ residents.old }
{
    if has_gap(residents.span(VictimClass::Draining), gap.quota, gap.need) {
        return Some(0);
    }
    let id = candidates.next()?;
    let extent = extent_of(copies, &id);
    let before = mark(residents, extent);
    let others = count_spills(residents, candidates, copies, gap);
    unmark(residents, extent, before);
    Some(others? + 1)
}

/// Marks the copy that lies there as draining, and answers in which classes of victims it was.
fn mark(residents: &mut Residents, extent: Option<Extent>) -> Option<VictimClasses>
    ensures before { result ≡ option_and_then (λ e. classes_at e.offset residents.old) extent }
    ensures marked { residents.new ≡ marked_draining extent residents.old }
{
    let extent = extent?;
    let before = residents.classes(extent.offset);
    let draining = VictimClasses {
        evictable: false,
        draining: true,
        spillable: false,
    };
    residents.set_classes(extent.offset, draining);
    before
}

/// Takes the mark of the copy that lies there back.
fn unmark(residents: &mut Residents, extent: Option<Extent>, before: Option<VictimClasses>)
    ensures { residents.new ≡ unmarked extent before residents.old }
{
    let (Some(extent), Some(classes)) = (extent, before) else {
        return;
    };
    residents.set_classes(extent.offset, classes);
}
