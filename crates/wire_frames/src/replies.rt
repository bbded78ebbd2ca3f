//! The frames of replies.
ghost use Rattle.std.specs.Prelude.{◌≡◌, ◌<◌, ◌++◌, ◌^◌, ◌∷◌, IsTrue, IfOk, flat_map, length, nat_lt};
ghost use Rattle.std.specs.List.{list_all};
ghost use Rattle.private_store.specs.rules.Frames.{be4, be8, frame, granted_bytes as granted_bytes_lem, own_bytes as own_bytes_lem, reply_frame, state_byte as state_byte_lem};
ghost use Rattle.wire_frames.specs.Writing.{has_reply_frame};

use crate::encode::{frame_of, kind_byte};
use bytes::Bytes;
use memory_growth::{OutOfMemory, lists};
use obj_id::{CopyState, GrantedItem, OwnItem, Reply, Usage};
use std::alloc::Global;

/// The frame of a reply, of at most 262,144 bytes after its length. What a device worker is answered has none,
/// and a granted item's depth is below 256.
pub fn encode_reply(alloc: Global, reply: &Reply<Bytes>) -> Result<Vec<u8>, OutOfMemory>
    requires { IsTrue (has_reply_frame reply.now) }
    ensures { IfOk result (λ frame. frame.items ≡ reply_frame reply.now) }
{
    match reply {
        Reply::Ok => frame_of(alloc, 0x80, &[]),
        Reply::Placed(offset, extent) => frame_of(
            alloc,
            0x81,
            &[&offset.to_be_bytes(), &extent.to_be_bytes()],
        ),
        Reply::Got(length) => frame_of(alloc, 0x82, &[&length.to_be_bytes()]),
        Reply::Bytes(bytes) => frame_of(alloc, 0x83, &[bytes.as_slice()]),
        Reply::List(own, granted) => list_frame(alloc, own.as_slice(), granted.as_slice()),
        Reply::Usage(usage) => usage_frame(alloc, usage),
        Reply::Work(_) | Reply::NoWork => Ok(Vec::new(alloc)),
        Reply::Refused(refusal) => frame_of(alloc, 0x8f, &[&[refusal.number()]]),
    }
}

/// The frame of a list: each part's count, and its items.
fn list_frame(
    alloc: Global,
    own: &[OwnItem],
    granted: &[GrantedItem],
) -> Result<Vec<u8>, OutOfMemory>
    requires own_fits { length (flat_map own_bytes_lem own.now) < 2 ^ 20 }
    requires granted_fits { length (flat_map granted_bytes_lem granted.now) < 2 ^ 20 }
    requires depths { IsTrue (list_all (λ i. nat_lt i.depth 256) granted.now) }
    ensures { IfOk result (λ f. f.items ≡ frame (0x84 ∷ be4 (length own.now) ++ flat_map own_bytes_lem own.now
        ++ be4 (length granted.now) ++ flat_map granted_bytes_lem granted.now)) }
{
    let own_count = own.len() as u32;
    let granted_count = granted.len() as u32;
    let own = own_bytes(alloc, own)?;
    let granted = granted_bytes(alloc, granted)?;
    frame_of(
        alloc,
        0x84,
        &[
            &own_count.to_be_bytes(),
            &own,
            &granted_count.to_be_bytes(),
            &granted,
        ],
    )
}

/// The own copies: id, state, kind and length of each.
fn own_bytes(alloc: Global, own: &[OwnItem]) -> Result<Vec<u8>, OutOfMemory>
    ensures { IfOk result (λ v. v.items ≡ flat_map own_bytes_lem own.now) }
{
    let mut bytes = Vec::new(alloc);
    for item in own {
        lists::extend_from_slice(&mut bytes, &item.id.to_bytes())?;
        lists::push(&mut bytes, state_byte(item.state))?;
        lists::push(&mut bytes, kind_byte(item.kind))?;
        lists::extend_from_slice(&mut bytes, &item.length.to_be_bytes())?;
    }
    Ok(bytes)
}

/// The granted objects: id, length and depth of each.
fn granted_bytes(alloc: Global, granted: &[GrantedItem]) -> Result<Vec<u8>, OutOfMemory>
    requires { IsTrue (list_all (λ i. nat_lt i.depth 256) granted.now) }
    ensures { IfOk result (λ v. v.items ≡ flat_map granted_bytes_lem granted.now) }
{
    let mut bytes = Vec::new(alloc);
    for item in granted {
        lists::extend_from_slice(&mut bytes, &item.id.to_bytes())?;
        lists::extend_from_slice(&mut bytes, &item.length.to_be_bytes())?;
        lists::push(&mut bytes, item.depth as u8)?;
    }
    Ok(bytes)
}

/// The byte of a copy's state.
fn state_byte(state: CopyState) -> u8
    ensures { result ≡ state_byte_lem state }
{
    match state {
        CopyState::Created => 0,
        CopyState::Sealed => 1,
        CopyState::Restoring => 2,
        CopyState::Fetching => 3,
        CopyState::Away => 4,
    }
}

/// The frame of the six numbers.
fn usage_frame(alloc: Global, usage: &Usage) -> Result<Vec<u8>, OutOfMemory>
    ensures { IfOk result (λ f. f.items ≡ frame (0x85 ∷ be8 usage.now.window ++ be8 usage.now.window_used
        ++ be8 usage.now.device ++ be8 usage.now.device_used ++ be8 usage.now.copies ++ be8 usage.now.works)) }
{
    frame_of(
        alloc,
        0x85,
        &[
            &usage.window.to_be_bytes(),
            &usage.window_used.to_be_bytes(),
            &usage.device.to_be_bytes(),
            &usage.device_used.to_be_bytes(),
            &usage.copies.to_be_bytes(),
            &usage.works.to_be_bytes(),
        ],
    )
}
