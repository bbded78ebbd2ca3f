//! What is answered if memory ran out.
ghost use Rattle.std.specs.Prelude.{◌≡◌};
ghost use Rattle.obj_id.specs.declared.commands.Reply.TheVariants as reply;
ghost use Rattle.obj_id.specs.declared.refusals.Refusal.TheVariants.{NoMemory};

use bytes::Bytes;
use memory_growth::OutOfMemory;
use obj_id::{Refusal, Reply};

/// The answer to what found no memory. Nothing else of these threads makes one.
pub fn out_of_memory(error: OutOfMemory) -> Reply<Bytes>
    ensures { result ≡ reply.Refused NoMemory }
{
    Reply::Refused(Refusal::from(error))
}
