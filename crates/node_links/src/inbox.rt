//! The ways into a node.
ghost use Rattle.std.specs.Prelude.{◌≡◌, IfSome, IsSomeAnd, MatchOption};

use crate::lanes::InLanes;
use memory_growth::{OutOfMemory, boxes};
use node_gate::{JournaledNode, Posted};
use node_housekeeping::{CountedLost, Turn, Turns};
use std::alloc::Global;
use std::snapshot::Snapshot;
use std::sync::{Arc, Wait};

/// All by which messages come to a node.
pub struct Inbox<M: Posted> {
    pub(crate) turns: Arc<Turns>,
    pub(crate) ways: Vec<InLanes<M>>,
}

// By hand, so that it is proved here and not in each crate above.
impl<M: Posted> Drop for Inbox<M> {
    fn drop(self) {
        let Inbox {
            turns: _turns,
            ways: _ways,
        } = self;
    }
}

impl<M: Posted> Inbox<M> {
    /// Of a node to which none of so many others can send yet.
    pub fn new(alloc: Global, others: u32) -> Result<Inbox<M>, OutOfMemory> {
        Ok(Inbox {
            turns: boxes::counted(alloc, Turns::new(others))?,
            ways: Vec::new(alloc),
        })
    }

    /// The next message, once one has come, with its turn. `None` once no node sends any more.
    pub fn next<R: Wait>(&self, rt: &R) -> Option<(M, Handing<M>)>
        ensures { IfSome result (λ received. received.1.of.value ≡ received.0) }
    {
        for _ in rt.forever() {
            let turn = self.turns.next(rt)?;
            if let Some(posted) = self.receive(rt, turn) {
                let of = Snapshot::of(&posted);
                return Some((posted, Handing { turn, of }));
            }
            self.turns.end(rt, turn);
        }
        unreachable!()
    }

    /// The message whose turn it is.
    fn receive<R: Wait>(&self, rt: &R, turn: Turn) -> Option<M> {
        let way = self.ways.iter().find(|way| way.source == turn.source)?;
        way.lanes.get(turn.lane)?.lock(rt).receive_next(rt)
    }
}

/// The turn of a message that was received, until what became of it is known. It can't be let go: `end_turn` takes it, and until then no
/// other message of its lane is received. Contracts see the message.
pub struct Handing<M: Posted> {
    turn: Turn,
    of: Snapshot<M>,
}

/// Ends a turn: its message was counted as lost, or it has arrived, as the last receipt tells.
pub fn end_turn<K: JournaledNode, R: Wait>(
    rt: &R,
    inbox: &Inbox<K::Posted>,
    handing: Handing<K::Posted>,
    lost: Option<CountedLost>,
    last: &Option<K::Receipt>,
)
    requires { MatchOption lost (IsSomeAnd last.now (K.arrived handing.of.value)) (λ counted. counted.messages ≡ 1) }
{
    let Handing { turn, of: _of } = handing;
    let _lost = lost;
    inbox.turns.end(rt, turn);
}
