//! What an input answers.
ghost use Rattle.std.specs.Prelude.{◌≡◌, None};
ghost use Rattle.obj_id.specs.declared.commands.Reply.TheVariants as reply;

use obj_id::{ObjectId, Refusal, Reply};

/// What an input answers, and the copy that it made the most recently used one, if it did.
#[derive(Debug, Drop)]
pub(crate) struct Response {
    pub reply: Reply<u64>,
    pub used: Option<ObjectId>,
}

impl Response {
    /// This answer, and no copy was used.
    pub(crate) fn only(reply: Reply<u64>) -> Response
        ensures { result ≡ record { reply = reply; used = None } }
    {
        Response { reply, used: None }
    }

    /// A refusal, and no copy was used.
    pub(crate) fn refused(refusal: Refusal) -> Response
        ensures { result ≡ record { reply = reply.Refused refusal; used = None } }
    {
        Response {
            reply: Reply::Refused(refusal),
            used: None,
        }
    }
}
