//! The sending end of a link.
ghost use Rattle.std.specs.Prelude.{◌≡◌, ◌≢◌, ◌++◌, ◌∷◌, [], true, false};
ghost use Rattle.std.specs.Option.{ForSome};
ghost use Rattle.crossbeam_channel.specs.Claims.{view, IsSeatAt};
ghost use Rattle.crossbeam_channel.specs.Ends.{sends_on, ruled_capacity};
ghost use Rattle.crossbeam_channel.specs.Fifo.{Held};
ghost use Rattle.fetch_link.specs.Rule.{EndsWith};
ghost use Rattle.fetch_link.specs.declared.rule.TheConstants.{MOST_IN_FLIGHT};
ghost use Rattle.fetch_link.specs.declared.sender.Sent.TheVariants.{Accepted, Full, Ended};

use crate::rule::{Accepts, InOrder, Known};
use crossbeam_channel::{Pass, RuledSender, TrySendError};
use std::sync::Wait;

/// What became of a message that was to be sent.
#[derive(Clone, Copy, Debug, PartialEq, Eq, Drop)]
pub enum Sent {
    /// The link has it, after all that were accepted before.
    Accepted,
    /// The link held `MOST_IN_FLIGHT` messages. The message is dropped.
    Full,
    /// This end is closed, or the other end is gone. The message is dropped.
    Ended,
}

/// The sending end of a link. The receiving end comes to its end after this one is closed or dropped.
#[derive(Drop)]
pub struct LinkSender<M: Drop> {
    // none if this end is closed
    pub(crate) channel: Option<RuledSender<M, Known<M>, InOrder>>,
    pub(crate) pass: Pass<M, Known<M>>,
    ghost seated: { ForSome channel (λ c. IsSeatAt (sends_on c) pass) },
    ghost bounded: { ForSome channel (λ c. ruled_capacity (sends_on c) ≡ MOST_IN_FLIGHT) },
    ghost sends: { (view pass).sends ≡ true },
}

impl<M: Drop> LinkSender<M> {
    ghost use Rattle.fetch_link.specs.Ends.{accepted_of, is_open};

    /// Sends a message, and says what became of it. Takes no memory, and waits at most for another thread that is in the
    /// middle of its step.
    pub fn send_next<R: Wait>(&mut self, rt: &R, message: M) -> Sent
        ensures accepted { result ≡ Accepted → accepted_of self.new ≡ accepted_of self.old ++ message ∷ [] }
        ensures dropped { result ≢ Accepted → accepted_of self.new ≡ accepted_of self.old }
        // at one moment of the call the link held as many as it may, the last ones that were accepted
        ensures full { result ≡ Full → Held MOST_IN_FLIGHT (EndsWith (accepted_of self.old)) }
        ensures closed { is_open self.old ≡ false → result ≡ Ended }
        ensures same { self.new.channel ≡ self.old.channel }
    {
        let LinkSender { channel, pass } = self;
        let Some(channel) = channel else {
            return Sent::Ended;
        };
        match channel.try_send_as::<Accepts, R>(rt, pass, message) {
            Ok(()) => Sent::Accepted,
            Err(TrySendError::Full(_)) => Sent::Full,
            Err(_) => Sent::Ended,
        }
    }

    /// Closes this end. What was accepted can still be received.
    pub fn close(&mut self)
        ensures closed { is_open self.new ≡ false }
        ensures accepted { accepted_of self.new ≡ accepted_of self.old }
    {
        self.channel = None;
    }
}
