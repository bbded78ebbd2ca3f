//! A message on its way between the nodes of a cluster and its directory.
use memory_growth::OutOfMemory;
use obj_id::{Endpoint, JobNo, Message};
use std::sync::Wait;

/// A message on its way: a step sent it, or the directory as its answer to one that a step sent.
pub trait Posted: Drop + Sized {
    ghost use Rattle.std.specs.Prelude.{◌≡◌, IfOk, OnErr, Option};
    ghost use Rattle.obj_id.specs.declared.ids.JobNo.{JobNo};
    ghost use Rattle.obj_id.specs.declared.messages.Endpoint.{Endpoint};
    ghost use Rattle.obj_id.specs.declared.messages.Endpoint.TheVariants.{Directory};
    ghost use Rattle.obj_id.specs.declared.messages.Message.{Message};

    /// The directory that it may be for.
    type Directory: Drop;

    ghost of_job: { Self → JobNo };

    ghost sender: { Self → Endpoint };

    ghost addressee: { Self → Endpoint };

    ghost content: { Self → Message };

    // what the directory, as it was and as it is then, answered to the message
    ghost passes: { Self.Directory → Self.Directory → Self → Option Self → Type 0 };

    /// The job that it is sent for.
    fn job(&self) -> JobNo
        ensures { result ≡ of_job self.now };

    /// The place that sent it.
    fn from(&self) -> Endpoint
        ensures { result ≡ sender self.now };

    /// The place that it is for.
    fn to(&self) -> Endpoint
        ensures { result ≡ addressee self.now };

    /// What it says.
    fn message(&self) -> &Message
        ensures { result.now ≡ content self.now };

    /// Passes it, which is for the directory, through that, whose answer to it, if there is one, is posted too. The error is out of memory, and then the
    /// directory is as it was.
    fn through<R: Wait>(
        self,
        rt: &R,
        directory: &mut Self::Directory,
    ) -> Result<Option<Self>, OutOfMemory>
        requires { addressee self ≡ Directory }
        ensures passes { IfOk result (λ answer. passes directory.old directory.new self answer) }
        ensures same { OnErr result (directory.new ≡ directory.old) };
}
