//! The receiving end of a link.
ghost use Rattle.std.specs.Prelude.{◌≡◌, ◌++◌, ◌∷◌, [], true, MatchOption};
ghost use Rattle.crossbeam_channel.specs.Claims.{view, IsSeatAt};
ghost use Rattle.crossbeam_channel.specs.Ends.{receives_on};

use crate::rule::{InOrder, Known, Receives};
use crossbeam_channel::{Pass, RuledReceiver};
use std::sync::Wait;

/// The receiving end of a link. Once it is dropped, the sending end comes to its end.
#[derive(Drop)]
pub struct LinkReceiver<M: Drop> {
    pub(crate) channel: RuledReceiver<M, Known<M>, InOrder>,
    pub(crate) pass: Pass<M, Known<M>>,
    ghost seated: { IsSeatAt (receives_on channel) pass },
    ghost receives: { (view pass).receives ≡ true },
}

impl<M: Drop> LinkReceiver<M> {
    ghost use Rattle.fetch_link.specs.Ends.{received_of};

    /// The next message that was accepted, once there is one. `None` after the sending end is gone and all that it sent was
    /// received, as far as the channel tells. Takes no memory.
    pub fn receive_next<R: Wait>(&mut self, rt: &R) -> Option<M>
        ensures received { MatchOption result (received_of self.new ≡ received_of self.old) (λ message. received_of self.new ≡ received_of self.old ++ message ∷ []) }
        ensures same { self.new.channel ≡ self.old.channel }
    {
        let LinkReceiver { channel, pass } = self;
        channel.recv_as::<Receives, R>(rt, pass).ok()
    }
}
