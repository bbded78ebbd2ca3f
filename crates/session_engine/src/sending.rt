//! What a session writes, and when its writer hands that over.
ghost use Rattle.std.specs.Prelude.{IsTrue};
ghost use Rattle.wire_frames.specs.Writing.{has_reply_frame};
ghost use Rattle.session_engine.specs.Hearing.{Flushes, Sends, Writes};

use crate::SessionFault;
use crate::session::SessionId;
use bytes::Bytes;
use obj_id::Reply;
use private_store::Item;
use std::alloc::Global;
use std::io::{ErrorKind, Write};
use wire_frames::encode_reply;

/// Writes the reply's frame.
pub(crate) fn send<W: Write>(
    alloc: Global,
    writer: &mut W,
    reply: Reply<Bytes>,
) -> Result<(), SessionFault>
    requires { IsTrue (has_reply_frame reply) }
    ensures { Sends reply (W.contents writer.old) (W.contents writer.new) result }
{
    let Ok(frame) = encode_reply(alloc, &reply) else {
        return Err(SessionFault::Memory)
    };
    // an object of which the reply shares a part isn't kept for as long as a client takes to read it
    drop(reply);
    write_whole(writer, &frame)
}

/// Writes all bytes. If that fails, what was written is a beginning of them, which `write_all` doesn't say.
fn write_whole<W: Write>(writer: &mut W, bytes: &[u8]) -> Result<(), SessionFault>
    ensures { Writes bytes.now (W.contents writer.old) (W.contents writer.new) result }
{
    let mut rest = bytes;
    for _ in 0..u64::MAX {
        if rest.is_empty() {
            return Ok(());
        }
        match writer.write(rest) {
            Ok(0) => return Err(SessionFault::Write),
            Ok(count) => rest = &rest[count..],
            Err(fault) => {
                if fault.kind() != ErrorKind::Interrupted {
                    return Err(SessionFault::Write);
                }
            }
        }
    }
    // more writes than there are numbers
    Err(SessionFault::Write)
}

/// Hands over what the writer kept back.
pub(crate) fn flush<W: Write>(writer: &mut W) -> Result<(), SessionFault>
    ensures { Flushes (W.contents writer.old) (W.contents writer.new) result }
{
    match writer.flush() {
        Ok(()) => Ok(()),
        Err(_) => Err(SessionFault::Write),
    }
}

/// Hands over what the writer kept back, if the gate may wait before it answers the item: the client may need the earlier
/// answers to do what is waited for.
pub(crate) fn flush_before<W: Write>(
    writer: &mut W,
    session_id: Option<SessionId>,
    item: &Item,
) -> Result<(), SessionFault>
    ensures { Flushes (W.contents writer.old) (W.contents writer.new) result }
{
    match (session_id, item) {
        (Some(_), Item::Wait(_)) => flush(writer),
        _ => Ok(()),
    }
}
