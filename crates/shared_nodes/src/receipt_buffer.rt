//! The receipts of one actor at one node, until they are looked for in the node's journal.
ghost use Rattle.std.specs.Prelude.{◌≡◌, ◌==◌, ◌+◌, ◌++◌, ◌∷◌, ◌<◌, [], if◌then◌else◌, Some, None, IfOk, IfSome, IsSomeAnd, MatchOption, OnOk, OnErr, is_some, vec_len, vec_capacity};
ghost use Rattle.shared_nodes.specs.Gathering.{AreLookedFor, receipts_in_order};
ghost use Rattle.shared_nodes.specs.declared.receipt_buffer.TheConstants.{MOST_RECEIPTS};

use crate::SharedNode;
use memory_growth::{OutOfMemory, lists};
use node_gate::JournaledNode;
use node_housekeeping::{LookedFor, Pause};
use node_steps::audit;
use std::alloc::Global;
use std::sync::Wait;

/// The receipts that an actor gathers at most until it looks for them. While it does the node is locked, for a microsecond or two: no longer
/// than others look whether it is before they sleep.
pub const MOST_RECEIPTS: usize = 16;

/// The receipts of one actor at one node that weren't looked for yet: a session's, a worker's or those of a link's end. It can't be let go:
/// `SharedNode::audit_all` takes it.
pub struct ReceiptBuffer<T> {
    // all but the last, oldest first
    earlier: Vec<T>,
    last: Option<T>,
    ghost few: { vec_len earlier < MOST_RECEIPTS },
}

impl<T: Drop> ReceiptBuffer<T> {
    /// No receipt. Takes no memory.
    pub fn new(alloc: Global) -> ReceiptBuffer<T>
        ensures earlier { result.earlier.items ≡ [] }
        ensures last { result.last ≡ None }
    {
        ReceiptBuffer {
            earlier: Vec::new(alloc),
            last: None,
        }
    }

    /// The last one, if there is one.
    pub fn last(&self) -> &Option<T>
        ensures { result.now ≡ self.now.last }
    {
        &self.last
    }

    /// Adds the receipt of a step, for which there is room.
    pub fn add(&mut self, receipt: T)
        requires memory { vec_len self.old.earlier < vec_capacity self.old.earlier }
        requires few { vec_len self.old.earlier + 1 < MOST_RECEIPTS }
        ensures last { self.new.last ≡ Some receipt }
        ensures earlier { self.new.earlier.items ≡ receipts_in_order self.old.earlier.items self.old.last }
    {
        if let Some(earlier) = self.last.replace(receipt) {
            self.earlier.push(earlier).unwrap();
        }
    }
}

impl<K: JournaledNode, P: Pause> SharedNode<K, P> {
    /// Makes room for the receipt of a step, before the step. If 16 are there, all but the last are looked for under one lock
    /// of the node, and forgotten: that they were is handed out. The error is out of memory, and then nothing has changed.
    pub fn make_room<R: Wait>(
        &self,
        rt: &R,
        receipts: &mut ReceiptBuffer<K::Receipt>,
    ) -> Result<Option<LookedFor>, OutOfMemory>
        ensures last { receipts.new.last ≡ receipts.old.last }
        ensures earlier { receipts.new.earlier.items ≡ (if vec_len receipts.old.earlier + 1 == MOST_RECEIPTS then [] else receipts.old.earlier.items) }
        ensures forgotten { IfOk result (λ found. is_some found ≡ (vec_len receipts.old.earlier + 1 == MOST_RECEIPTS)) }
        ensures looked_for { IfOk result (λ found. IfSome found (AreLookedFor K.misses K.node_number self.now.number receipts.old.earlier.items)) }
        ensures memory { OnOk result (vec_len receipts.new.earlier < vec_capacity receipts.new.earlier) }
        ensures few { OnOk result (vec_len receipts.new.earlier + 1 < MOST_RECEIPTS) }
        ensures unchanged { OnErr result (receipts.new.earlier.items ≡ receipts.old.earlier.items) }
    {
        if receipts.earlier.len() + 1 < MOST_RECEIPTS {
            lists::reserve(&mut receipts.earlier, 1)?;
            return Ok(None);
        }
        let found = self.audit_earlier(rt, receipts);
        receipts.earlier.clear();
        lists::reserve(&mut receipts.earlier, 1)?;
        Ok(Some(found))
    }

    /// Looks for all but the last, under one lock of the node.
    fn audit_earlier<R: Wait>(&self, rt: &R, receipts: &ReceiptBuffer<K::Receipt>) -> LookedFor
        ensures { AreLookedFor K.misses K.node_number self.now.number receipts.now.earlier.items result }
    {
        audit(
            rt,
            &*self.lock(rt),
            &self.housekeeping.tallies,
            &receipts.earlier,
        )
    }

    /// Looks for all that are there, at the end of their actor. The last is looked for apart, if there is one.
    pub fn audit_all<R: Wait>(
        &self,
        rt: &R,
        receipts: ReceiptBuffer<K::Receipt>,
    ) -> (LookedFor, Option<LookedFor>)
        ensures earlier { AreLookedFor K.misses K.node_number self.now.number receipts.earlier.items result.0 }
        ensures last { MatchOption receipts.last (result.1 ≡ None) (λ last. IsSomeAnd result.1 (AreLookedFor K.misses K.node_number self.now.number (last ∷ []))) }
    {
        let found = self.audit_earlier(rt, &receipts);
        let ReceiptBuffer {
            earlier: _earlier,
            last,
        } = receipts;
        (found, last.as_ref().map(|last| self.check(rt, last)))
    }
}
