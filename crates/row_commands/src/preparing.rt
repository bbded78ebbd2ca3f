//! What a step of the row would want prepared, and what it may be made of. A contract sees nothing of it, since the step is the same
//! without it.
ghost use Rattle.std.specs.Prelude.{◌≡◌};

use bytes::Bytes;
use command_kinds::Preparation;
use job_row::JobRow;
use obj_id::limits::MOST_BYTES;
use obj_id::{ChunkIndex, Command, CopyState, FetchNo, NodeNo, ObjectId};
use std::alloc::Global;

/// From how many bytes on zeros are made before a step: fewer are made at once.
const LONG: u32 = 65_536;

/// Whether there are rows at which something would best be prepared for the command.
pub fn may_want(command: &Command<Bytes>) -> bool {
    match Preparation::of(command) {
        Preparation::Digest(_) | Preparation::CopyExtent(_) => true,
        Preparation::NewExtent { length: len, .. } => len >= LONG,
        Preparation::Nothing => false,
    }
}

/// Whether something would best be prepared for the command.
pub fn wants(row: &JobRow, command: &Command<Bytes>) -> bool {
    match Preparation::of(command) {
        Preparation::Digest(_) => true,
        Preparation::NewExtent { .. } | Preparation::CopyExtent(_) => {
            extent_wanted(row, command).is_some()
        }
        Preparation::Nothing => false,
    }
}

/// How long the object is for which the command may place an extent, if that is long.
pub fn extent_wanted(row: &JobRow, command: &Command<Bytes>) -> Option<u32> {
    let len = match Preparation::of(command) {
        Preparation::NewExtent { id, length: len } => length_to_make(row, &id, len)?,
        Preparation::CopyExtent(id) => length_to_come(row, &id)?,
        Preparation::Digest(_) | Preparation::Nothing => return None,
    };
    if len < LONG || !row.window().may_have(len) {
        return None;
    }
    Some(len)
}

/// How long a copy becomes that is made, if there is none of the object.
fn length_to_make(row: &JobRow, id: &ObjectId, len: u32) -> Option<u32> {
    if row.copies().has(id) {
        return None;
    }
    Some(len)
}

/// How long a copy is that has no place yet.
fn length_to_come(row: &JobRow, id: &ObjectId) -> Option<u32> {
    let copy = row.copies().get(id)?;
    if copy.offset().is_some() {
        return None;
    }
    match copy.state() {
        CopyState::Away => Some(copy.length()),
        CopyState::Fetching => Some(copy.fetch()?.length()),
        CopyState::Created | CopyState::Sealed | CopyState::Restoring => None,
    }
}

/// The bytes of a resident copy to be hashed, if they can be shared or are few.
pub fn share_copy(row: &mut JobRow, alloc: Global, id: &ObjectId) -> Option<Bytes>
    ensures { row.new ≡ row.old }
{
    row.freeze(id);
    let lent = row.lent(id);
    if lent.shared.is_none() && lent.bytes.len() > MOST_BYTES {
        return None;
    }
    lent.whole(alloc).ok()
}

/// How long the object is of which no chunk but this one is missing, if the fetch of this number would take it.
pub fn length_with_last(
    row: &JobRow,
    from: NodeNo,
    id: &ObjectId,
    number: FetchNo,
    index: ChunkIndex,
    len: usize,
) -> Option<u32> {
    let copy = row.copies().get(id)?;
    if !copy.is_filled_by(number, index, from, len) || !copy.lacks_only(index) {
        return None;
    }
    Some(copy.length())
}

/// Bytes of a resident copy: `len` from the offset on, or as many as there are.
pub fn copy_part(
    row: &JobRow,
    alloc: Global,
    id: &ObjectId,
    offset: u32,
    len: u32,
) -> Option<Bytes> {
    row.lent(id).part(alloc, offset, len).ok()
}
