//! Why a node's replies have a frame.
ghost use Rattle.std.specs.Prelude.{◌≡◌, ◌*◌, true, IsTrue, length, flat_map};
ghost use Rattle.obj_id.specs.Ids.{id_bytes};
ghost use Rattle.private_store.specs.laws.Answers.{is_small_reply};
ghost use Rattle.private_store.specs.rules.Frames.{own_bytes, granted_bytes};
ghost use Rattle.wire_frames.specs.Writing.{has_reply_frame};

use bytes::Bytes;
use obj_id::{GrantedItem, ObjectId, OwnItem, Reply};

/// Gives the reply back. One that is no longer than a store's replies are has a frame, since each id has 28 bytes.
pub fn framed(reply: Reply<Bytes>) -> Reply<Bytes>
    requires { is_small_reply reply ≡ true }
    ensures same { result ≡ reply }
    ensures frame { IsTrue (has_reply_frame result) }
{
    if let Reply::List(own, granted) = &reply {
        own_items_fit(own.as_slice());
        granted_items_fit(granted.as_slice());
    }
    reply
}

/// Each item is 34 bytes long in a frame.
fn own_items_fit(items: &[OwnItem])
    ensures { length (flat_map own_bytes items.now) ≡ 34 * length items.now }
{
    for item in items {
        id_fits(&item.id);
    }
}

/// Each item is 33 bytes long in a frame.
fn granted_items_fit(items: &[GrantedItem])
    ensures { length (flat_map granted_bytes items.now) ≡ 33 * length items.now }
{
    for item in items {
        id_fits(&item.id);
    }
}

/// An id is 28 bytes long.
fn id_fits(id: &ObjectId)
    ensures { length (id_bytes id.now) ≡ 28 }
{
    let _bytes = id.to_bytes();
}
