//! What an event was to its own job, without contents.
ghost use Rattle.std.specs.Prelude.{◌≡◌};
ghost use Rattle.node_core.specs.Judged.{if_ok as if_ok_lem, judged_as as judged_as_lem};

use bytes::Bytes;
use command_kinds::without_payload;
use obj_id::Reply;
use private_store::{Event, Judged};

/// What an event with this reply was, if it is no Finish: nothing if the operator was refused. Takes no memory.
pub(crate) fn judged_as(event: &Event, reply: &Reply<Bytes>) -> Option<Judged>
    ensures { result ≡ judged_as_lem event.now reply.now }
{
    match event {
        Event::Admit { quota, .. } => if_ok(reply, Judged::Begin(*quota)),
        Event::Requota(_, quota) => if_ok(reply, Judged::Requota(*quota)),
        Event::JobEnd(_) => if_ok(reply, Judged::End),
        Event::Call {
            session,
            command,
            ..
        } => Some(Judged::Call(*session, without_payload(command))),
        Event::Take | Event::Finish { .. } => None,
    }
}

/// The input, if the reply is Ok.
pub(crate) fn if_ok(reply: &Reply<Bytes>, input: Judged) -> Option<Judged>
    ensures { result ≡ if_ok_lem reply.now input }
{
    match reply {
        Reply::Ok => Some(input),
        _ => None,
    }
}
