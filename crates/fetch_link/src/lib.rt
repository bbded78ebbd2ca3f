//! The link from one node to another: a channel of at most 1,024 messages, which one end sends and one end receives. A
//! contract sees what each end has had: of the sender what was accepted, of the receiver what was received. The second is
//! always a beginning of the first, so messages come in order, each once and none left out. After `open` no memory is taken.
#![tactic(auto)]

ghost use Rattle.std.specs.Prelude.{◌≡◌, ◌≤◌, ◌++◌, [], List, length, IfOk};
ghost use Rattle.fetch_link.specs.Ends.{accepted_of, received_of, AreEnds};
ghost use Rattle.fetch_link.specs.declared.rule.TheConstants.{MOST_IN_FLIGHT};

mod receiver;
mod rule;
mod sender;

use crate::rule::{InOrder, Known, Roles, Whole};
use crossbeam_channel::bounded_with;
pub use receiver::LinkReceiver;
pub use rule::MOST_IN_FLIGHT;
pub use sender::{LinkSender, Sent};
use std::alloc::Global;
use std::io;

/// The two ends of a new link, which has room for `MOST_IN_FLIGHT` messages. All memory that a link takes is taken here; the error is the
/// system's, that there is none.
pub fn open<M: Drop>(alloc: Global) -> io::Result<(LinkSender<M>, LinkReceiver<M>)>
    ensures one { IfOk result (λ ends. AreEnds ends.0 ends.1) }
    ensures accepted { IfOk result (λ ends. accepted_of ends.0 ≡ []) }
    ensures received { IfOk result (λ ends. received_of ends.1 ≡ []) }
{
    let (sender, receiver, mut pass) = bounded_with::<M, Known<M>, InOrder, Global>(
        alloc,
        MOST_IN_FLIGHT,
    )?;
    let other = sender.another::<Roles>(&mut pass);
    Ok((
        LinkSender {
            channel: Some(sender),
            pass,
        },
        LinkReceiver {
            channel: receiver,
            pass: other,
        },
    ))
}

/// Takes both ends of an open link back. What was received is a beginning of what was accepted, and at most `MOST_IN_FLIGHT`
/// messages are left, which are dropped.
pub fn reunite<M: Drop>(sender: LinkSender<M>, receiver: LinkReceiver<M>)
    requires { AreEnds sender receiver }
    ensures { (left : List M) × (accepted_of sender ≡ received_of receiver ++ left) × (length left ≤ MOST_IN_FLIGHT) }
{
    let LinkSender { channel, mut pass } = sender;
    let LinkReceiver {
        channel: _taken,
        pass: other,
    } = receiver;
    if let Some(channel) = channel {
        channel.absorb::<Roles>(&mut pass, other);
        channel.learn_as::<Whole>(&mut pass);
    }
}
