//! What the extents of a window leave free: its holes, and room for those that extents leave once they are taken out.
ghost use Rattle.std.specs.Prelude.{◌≡◌, ◌+◌, ◌^◌, ◌<◌, ◌≤◌, true, false, nat_eq, OnOk, OnErr, length, vec_len, vec_capacity};
ghost use Rattle.std.specs.Map.{remove_entry};
ghost use Rattle.job_region.specs.Region.{without};
ghost use Rattle.hole_tree.specs.Holes.{has_hole, take_hole};
ghost use Rattle.job_region.specs.Layout.{LaidFrom, AreFilled, zipped, staying, without_extent};
ghost use Rattle.job_region.specs.Gaps.{gaps, put_then, cut_hole, mend_holes, stretch as stretch_lem};

use crate::buffer::Buffer;
use crate::extents::{end_of_last, place_of, start_of_first, take_out};
use crate::spent::Spent;
use hole_tree::{Hole, Holes, SpareNode};
use memory_growth::{OutOfMemory, lists};
use obj_id::Extent;
use std::alloc::Global;

/// Makes room for one hole more than there are extents.
pub(crate) fn reserve(
    rooms: &mut Vec<SpareNode>,
    alloc: Global,
    extents: usize,
) -> Result<(), OutOfMemory>
    requires { extents ≤ vec_len rooms.old }
    ensures ok { OnOk result (extents < vec_len rooms.new) }
    ensures err { extents ≤ vec_len rooms.new }
{
    if extents < rooms.len() {
        return Ok(());
    }
    lists::push(rooms, SpareNode::new(alloc)?)?;
    Ok(())
}

/// The same if a quota is to grow.
pub(crate) fn reserve_to_grow(
    rooms: &mut Vec<SpareNode>,
    alloc: Global,
    extents: usize,
    from: u64,
    to: u64,
) -> Result<(), OutOfMemory>
    requires { extents ≤ vec_len rooms.old }
    ensures ok { OnOk result (from < to → extents < vec_len rooms.new) }
    ensures rooms { extents ≤ vec_len rooms.new }
    ensures err { OnErr result (from < to) }
{
    if to <= from {
        return Ok(());
    }
    reserve(rooms, alloc, extents)
}

/// Takes `need` bytes off the front of a hole.
pub(crate) fn cut(holes: &mut Holes, hole: Hole, need: u64)
    requires there { has_hole hole.offset holes.old ≡ true }
    requires fits { need ≤ hole.length }
    requires small { hole.offset + hole.length < 2 ^ 29 }
    ensures { holes.new ≡ cut_hole hole need holes.old }
{
    let Some(room) = holes.take(hole.offset) else {
        unreachable!()
    };
    if need < hole.length {
        holes.put(
            room,
            Hole {
                offset: hole.offset + need,
                length: hole.length - need,
            },
        );
    }
}

/// The free bytes round an offset that no extent has: where they begin and end.
fn stretch(extents: &[Extent], offset: u64, quota: u64) -> (u64, u64)
    requires laid { LaidFrom quota 0 extents.now }
    requires small { quota < 2 ^ 29 }
    ensures { result ≡ stretch_lem quota 0 offset extents.now }
{
    let place = place_of(extents, offset);
    let start = end_of_last(0, &extents[..place]);
    (start, start_of_first(&extents[place..], quota))
}

/// Takes back the extent at an offset, if there is one: its bytes and the holes on its sides become one
/// hole. Takes no memory.
pub(crate) fn free_at(
    extents: &mut Vec<Extent>,
    buffers: &mut Vec<Buffer>,
    holes: &mut Holes,
    rooms: &mut Vec<SpareNode>,
    spent: &mut Spent,
    offset: u64,
    quota: u64,
)
    requires laid { LaidFrom quota 0 extents.old.items }
    requires small { quota < 2 ^ 29 }
    requires free { holes.old ≡ gaps quota 0 extents.old.items }
    requires spare { length extents.old.items ≤ vec_len rooms.old }
    requires filled { AreFilled extents.old.items buffers.old.items }
    ensures left { extents.new.items ≡ without_extent offset extents.old.items }
    ensures filled { AreFilled extents.new.items buffers.new.items }
    ensures placed { zipped extents.new.items buffers.new.items ≡ remove_entry (nat_eq offset) (zipped extents.old.items buffers.old.items) }
    ensures room { vec_capacity buffers.new ≡ vec_capacity buffers.old }
    ensures free { holes.new ≡ gaps quota 0 extents.new.items }
    ensures spare { vec_len rooms.new + length extents.old.items ≡ vec_len rooms.old + length extents.new.items }
    ensures capacity { vec_capacity extents.new ≡ vec_capacity extents.old }
{
    let Some(extent) = take_out(extents, buffers, spent, offset) else {
        return;
    };
    let (start, end) = stretch(extents, offset, quota);
    let Some(room) = rooms.pop() else {
        unreachable!()
    };
    mend(holes, room, start, offset + extent.length, end);
}

/// Takes back these extents, as far as they are there. Takes no memory.
pub(crate) fn free_all(
    extents: &mut Vec<Extent>,
    buffers: &mut Vec<Buffer>,
    holes: &mut Holes,
    rooms: &mut Vec<SpareNode>,
    spent: &mut Spent,
    gone: &[Extent],
    quota: u64,
)
    requires laid { LaidFrom quota 0 extents.old.items }
    requires small { quota < 2 ^ 29 }
    requires free { holes.old ≡ gaps quota 0 extents.old.items }
    requires spare { length extents.old.items ≤ vec_len rooms.old }
    requires filled { AreFilled extents.old.items buffers.old.items }
    ensures left { extents.new.items ≡ staying gone.now extents.old.items }
    ensures filled { AreFilled extents.new.items buffers.new.items }
    ensures placed { zipped extents.new.items buffers.new.items ≡ without gone.now (zipped extents.old.items buffers.old.items) }
    ensures room { vec_capacity buffers.new ≡ vec_capacity buffers.old }
    ensures free { holes.new ≡ gaps quota 0 extents.new.items }
    ensures spare { vec_len rooms.new + length extents.old.items ≡ vec_len rooms.old + length extents.new.items }
    ensures capacity { vec_capacity extents.new ≡ vec_capacity extents.old }
{
    for e in gone {
        free_at(extents, buffers, holes, rooms, spent, e.offset, quota);
    }
}

/// Makes one hole of the bytes from `start` to `end`: those before `stop` were no hole, or begin one, and
/// those from `stop` on too.
fn mend(holes: &mut Holes, room: SpareNode, start: u64, stop: u64, end: u64)
    requires { (start ≤ end) × (start < 2 ^ 29) }
    ensures { holes.new ≡ mend_holes start stop end holes.old }
{
    holes.take(start);
    holes.take(stop);
    holes.put(
        room,
        Hole {
            offset: start,
            length: end - start,
        },
    );
}

/// Makes the last hole, which begins at `end`, reach to the quota. Takes no memory.
pub(crate) fn end_at(
    holes: &mut Holes,
    rooms: &mut Vec<SpareNode>,
    extents: usize,
    end: u64,
    quota: u64,
)
    requires rooms { extents ≤ vec_len rooms.old }
    requires spare { end < quota → has_hole end holes.old ≡ false → extents < vec_len rooms.old }
    requires small { quota < 2 ^ 29 }
    ensures holes { holes.new ≡ put_then end quota (take_hole end holes.old) }
    ensures rooms { extents ≤ vec_len rooms.new }
{
    let taken = holes.take(end);
    if quota <= end {
        return;
    }
    let hole = Hole {
        offset: end,
        length: quota - end,
    };
    if let Some(room) = taken {
        holes.put(room, hole);
        return;
    }
    let Some(room) = rooms.pop() else {
        unreachable!()
    };
    holes.put(room, hole);
}
