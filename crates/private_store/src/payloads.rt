//! Works without their bytes.
ghost use Rattle.std.specs.Prelude.{◌≡◌};
ghost use Rattle.obj_id.specs.declared.commands.Reply.TheVariants as reply;
ghost use Rattle.private_store.specs.laws.Answers.{reply_without_payload};

use bytes::Bytes;
use obj_id::Work;

/// The work with the number of its bytes. Takes no memory.
pub fn work_without_payload(work: &Work<Bytes>) -> Work<u64>
    ensures { reply_without_payload (reply.Work work.now) ≡ reply.Work result }
{
    Work {
        job: work.job,
        number: work.number,
        kind: work.kind,
        key: work.key,
        length: work.length,
        payload: match &work.payload {
            Some(bytes) => Some(bytes.len() as u64),
            None => None,
        },
    }
}
